//! The entries of members that a node holds, its own among them. The node stays as it is.
ghost use Rattle.std.specs.Prelude.{◌≡◌, ◌≢◌, ◌<◌, option_map};
ghost use Rattle.change_core.specs.Address.{address_of};
ghost use Rattle.change_core.specs.Change.{entry_of};
ghost use Rattle.change_core.specs.Members.{greatest};
ghost use Rattle.node_core.specs.Node.{own_change};
ghost use Rattle.ringpop_c.specs.Codes.{code_number};
ghost use Rattle.ringpop_c.specs.Handles.{node_in};
ghost use Rattle.ringpop_c.specs.Entries.{TellsChange, TellsEntry, TellsSuspicion, entry_told};
ghost use Rattle.ringpop_c.specs.Steps.{Looks};

use crate::codes::Code;
use crate::handles::{RingpopNode, with_handle};
use change_core::{Address, Change, Entry};
use std::alloc::Global;

/// The entry that a node holds of a member.
#[repr(C)]
#[derive(Clone, Copy, Debug, PartialEq, Eq)]
pub struct RingpopEntry {
    /// Its incarnation, from 0 to 2^53 - 1.
    pub incarnation: u64,
    /// Its status: 0 alive, 1 suspect, 2 faulty, 3 leave, 4 tombstone.
    pub status: u8,
    /// Its shares of the ring, from 1 to 8.
    pub weight: u8,
}

impl RingpopEntry {
    /// An entry, as C has it.
    fn of(held: Entry) -> Self
        ensures { result ≡ entry_told held }
    {
        RingpopEntry {
            incarnation: held.incarnation.number(),
            status: held.status.rank(),
            weight: held.weight.number(),
        }
    }
}

/// Writes an entry, if there is one.
fn tell_entry(held: Option<Entry>, entry: &mut RingpopEntry) -> Code
    ensures told { TellsEntry held entry.new result }
    ensures unchanged { result ≢ Code.Done → entry.new ≡ entry.old }
{
    let Some(held) = held else {
        return Code::Nothing;
    };
    *entry = RingpopEntry::of(held);
    Code::Done
}

/// The entry that the node holds of an address. `Nothing`: no member has it.
///
/// # Errors
///
/// - `BadAddress`: the port is 0.
/// - `NoNode`: the handle is empty.
#[unsafe(no_mangle)]
pub extern "C" fn ringpop_node_member(
    alloc: Global,
    node: &mut RingpopNode,
    ip: u32,
    port: u16,
    entry: &mut RingpopEntry,
) -> u32
    ensures address { port ≡ 0 → result ≡ code_number Code.BadAddress }
    ensures entry { 0 < port → Looks (λ n answer. TellsEntry (option_map entry_of (greatest n.members (address_of ip port))) entry.new answer) (node_in node.old) result }
    ensures same { node_in node.new ≡ node_in node.old }
    ensures unchanged { result ≢ code_number Code.Done → entry.new ≡ entry.old }
{
    let Some(address) = Address::new(ip, port) else {
        return Code::BadAddress.number();
    };
    with_handle!(alloc, node, |n| tell_entry(n.member(address), entry))
}

/// Writes a change.
pub(crate) fn tell_change(
    change: &Change,
    ip: &mut u32,
    port: &mut u16,
    entry: &mut RingpopEntry,
) -> Code
    ensures told { TellsChange change.now ip.new port.new entry.new result }
{
    *ip = change.address.ip();
    *port = change.address.port();
    tell_entry(Some(change.entry()), entry)
}

/// Writes the entry of a target that became suspect, if it was alive.
pub(crate) fn tell_suspicion(change: &Option<Change>, entry: &mut RingpopEntry) -> Code
    ensures told { TellsSuspicion change.now (record { before = entry.old; after = entry.new }) result }
{
    if let Some(change) = change {
        *entry = RingpopEntry::of(change.entry());
    }
    Code::Suspected
}

/// The node's own address and entry.
///
/// # Errors
///
/// - `NoNode`: the handle is empty.
#[unsafe(no_mangle)]
pub extern "C" fn ringpop_node_own(
    alloc: Global,
    node: &mut RingpopNode,
    ip: &mut u32,
    port: &mut u16,
    entry: &mut RingpopEntry,
) -> u32
    ensures own { Looks (λ n answer. TellsChange (own_change n) ip.new port.new entry.new answer) (node_in node.old) result }
    ensures same { node_in node.new ≡ node_in node.old }
    ensures unchanged { result ≢ code_number Code.Done → (ip.new ≡ ip.old) × (port.new ≡ port.old) × (entry.new ≡ entry.old) }
{
    with_handle!(alloc, node, |n| tell_change(&n.own(), ip, port, entry))
}
