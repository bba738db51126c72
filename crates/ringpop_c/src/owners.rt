//! The first owners of a key, listed in the caller's array of addresses.
ghost use Rattle.std.specs.Prelude.{◌≡◌, ◌≢◌, ◌≤◌, length};
ghost use Rattle.ringpop_c.specs.Codes.{code_number};
ghost use Rattle.ringpop_c.specs.Handles.{node_in};
ghost use Rattle.ringpop_c.specs.Owners.{Lists, OwnersBy, TellsAddresses, TellsOwners, address_told};
ghost use Rattle.ringpop_c.specs.Steps.{Looks};

use crate::codes::Code;
use crate::handles::{RingpopNode, with_handle};
use change_core::Address;
use detector_core::Addresses;
use node_core::NodeError;
use std::alloc::Global;

/// The address at which a node is reached.
#[repr(C)]
#[derive(Clone, Copy, Debug, PartialEq, Eq)]
pub struct RingpopAddress {
    /// Its IPv4 number, the first part in the highest eight bits.
    pub ip: u32,
    /// Its port, from 1 to 65,535.
    pub port: u16,
}

impl RingpopAddress {
    /// An address, as C has it.
    fn of(address: Address) -> Self
        ensures { result ≡ address_told address }
    {
        RingpopAddress {
            ip: address.ip(),
            port: address.port(),
        }
    }
}

/// Makes addresses a prefix of an array, and puts their number into `count`.
fn put(out: &mut [RingpopAddress], count: &mut usize, addresses: &[Address])
    requires { length addresses.now ≤ length out.old }
    ensures { Lists addresses.now (record { before = out.old; after = out.new; count = count.new }) }
{
    *count = addresses.len();
    for (index, address) in addresses.iter().enumerate() {
        out[index] = RingpopAddress::of(*address);
    }
}

/// Lists addresses if there is room for them; else tells their number alone.
fn list(out: &mut [RingpopAddress], count: &mut usize, addresses: &[Address]) -> Code
    ensures told { TellsAddresses addresses.now (record { before = out.old; after = out.new; count = count.new }) result }
    ensures unchanged { result ≢ Code.Done → result ≢ Code.ShortBuffer → (out.new ≡ out.old) × (count.new ≡ count.old) }
{
    if out.len() < addresses.len() {
        *count = addresses.len();
        return Code::ShortBuffer;
    }
    put(out, count, addresses);
    Code::Done
}

/// Writes the owners that were named, or returns the code of the error.
pub(crate) fn tell_owners(
    named: Result<Addresses, NodeError>,
    out: &mut [RingpopAddress],
    count: &mut usize,
) -> Code
    ensures told { TellsOwners named (record { before = out.old; after = out.new; count = count.new }) result }
    ensures unchanged { result ≢ Code.Done → result ≢ Code.ShortBuffer → (out.new ≡ out.old) × (count.new ≡ count.old) }
{
    match named {
        Ok(owners) => list(out, count, owners.as_slice()),
        Err(error) => Code::of_error(error),
    }
}

/// Writes the first `wanted` owners of a key, the owner first, or all serving members if there are fewer.
///
/// # Errors
///
/// - `NoNode`: the handle is empty.
/// - `Memory`: out of memory; never if `wanted` is 0 or no member serves.
/// - `ShortBuffer`: the array is shorter than the list; `count` is the number of owners.
#[unsafe(no_mangle)]
pub extern "C" fn ringpop_node_owners(
    alloc: Global,
    node: &mut RingpopNode,
    key: &[u8],
    wanted: usize,
    out: &mut [RingpopAddress],
    count: &mut usize,
) -> u32
    ensures owners { Looks (OwnersBy key.now wanted (record { before = out.old; after = out.new; count = count.new })) (node_in node.old) result }
    ensures same { node_in node.new ≡ node_in node.old }
    ensures unchanged { result ≢ code_number Code.Done → result ≢ code_number Code.ShortBuffer
        → (out.new ≡ out.old) × (count.new ≡ count.old) }
{
    with_handle!(alloc, node, |n| {
        tell_owners(n.owners(key, wanted), out, count)
    })
}
