//! Look-ups in a node, which stays as it is.
ghost use Rattle.std.specs.Prelude.{◌≡◌, ◌≢◌, length};
ghost use Rattle.change_core.specs.Members.{digest_text};
ghost use Rattle.node_core.specs.Messages.{digest_of};
ghost use Rattle.ringpop_c.specs.Codes.{code_number};
ghost use Rattle.ringpop_c.specs.Handles.{node_in};
ghost use Rattle.ringpop_c.specs.Lines.{TellsText};
ghost use Rattle.ringpop_c.specs.Steps.{Looks, TellsAddress, TellsCount, owner_by};

use crate::buffers::write;
use crate::codes::Code;
use crate::handles::{RingpopNode, with_handle};
use change_core::Address;
use hash_ring::Sha256Hash;
use node_core::NodeState;
use std::alloc::Global;

/// Writes an address, if there is one.
pub(crate) fn tell_address(address: Option<Address>, ip: &mut u32, port: &mut u16) -> Code
    ensures told { TellsAddress address ip.new port.new result }
    ensures unchanged { result ≢ Code.Done → (ip.new ≡ ip.old) × (port.new ≡ port.old) }
{
    match address {
        Some(address) => {
            *ip = address.ip();
            *port = address.port();
            Code::Done
        }
        None => Code::Nothing,
    }
}

/// The owner of a key (ringpop-go, package hashring). `Nothing`: no member serves.
///
/// # Errors
///
/// - `NoNode`: the handle is empty.
#[unsafe(no_mangle)]
pub extern "C" fn ringpop_node_owner(
    alloc: Global,
    node: &mut RingpopNode,
    key: &[u8],
    ip: &mut u32,
    port: &mut u16,
) -> u32
    ensures owner { Looks (λ n answer. TellsAddress (owner_by n key.now) ip.new port.new answer) (node_in node.old) result }
    ensures same { node_in node.new ≡ node_in node.old }
    ensures unchanged { result ≢ code_number Code.Done → (ip.new ≡ ip.old) × (port.new ≡ port.old) }
{
    with_handle!(alloc, node, |n| tell_address(n.owner(key), ip, port))
}

/// Writes the members as a text.
fn tell_members(node: &NodeState<Sha256Hash>, out: &mut [u8], count: &mut usize) -> Code
    ensures told { TellsText (digest_text node.now.node.members) (record { before = out.old; after = out.new; count = count.new }) result }
    ensures unchanged { result ≢ Code.Done → result ≢ Code.ShortBuffer → (out.new ≡ out.old) × (count.new ≡ count.old) }
{
    let Ok(text) = node.digest_text() else {
        return Code::Memory;
    };
    write(out, count, text.as_str().as_bytes())
}

/// The members as one line of text, ascending by address, which no other member list has.
///
/// # Errors
///
/// - `NoNode`: the handle is empty.
/// - `Memory`: out of memory.
/// - `ShortBuffer`: the buffer is shorter than the text; `count` is its length in bytes.
#[unsafe(no_mangle)]
pub extern "C" fn ringpop_node_members(
    alloc: Global,
    node: &mut RingpopNode,
    out: &mut [u8],
    count: &mut usize,
) -> u32
    ensures told { Looks (λ n answer. TellsText (digest_text n.members) (record { before = out.old; after = out.new; count = count.new }) answer) (node_in node.old) result }
    ensures same { node_in node.new ≡ node_in node.old }
    ensures unchanged { result ≢ code_number Code.Done → result ≢ code_number Code.ShortBuffer
        → (out.new ≡ out.old) × (count.new ≡ count.old) }
{
    with_handle!(alloc, node, |n| tell_members(n, out, count))
}

/// Writes the digest of the members.
fn tell_digest(node: &NodeState<Sha256Hash>, out: &mut [u8], count: &mut usize) -> Code
    ensures told { TellsText (digest_of node.now.node.members).bytes (record { before = out.old; after = out.new; count = count.new }) result }
    ensures unchanged { result ≢ Code.Done → result ≢ Code.ShortBuffer → (out.new ≡ out.old) × (count.new ≡ count.old) }
{
    let Ok(digest) = node.digest() else {
        return Code::Memory;
    };
    let bytes = digest.bytes();
    write(out, count, &bytes)
}

/// The 32 bytes of the SHA-256 of the members' line (FIPS 180-4), which messages carry.
///
/// # Errors
///
/// - `NoNode`: the handle is empty.
/// - `Memory`: out of memory.
/// - `ShortBuffer`: the buffer has fewer than 32 bytes; `count` is 32.
#[unsafe(no_mangle)]
pub extern "C" fn ringpop_node_digest(
    alloc: Global,
    node: &mut RingpopNode,
    out: &mut [u8],
    count: &mut usize,
) -> u32
    ensures told { Looks (λ n answer. TellsText (digest_of n.members).bytes (record { before = out.old; after = out.new; count = count.new }) answer) (node_in node.old) result }
    ensures same { node_in node.new ≡ node_in node.old }
    ensures unchanged { result ≢ code_number Code.Done → result ≢ code_number Code.ShortBuffer
        → (out.new ≡ out.old) × (count.new ≡ count.old) }
{
    with_handle!(alloc, node, |n| tell_digest(n, out, count))
}

/// The number of members that the node holds, itself among them.
///
/// # Errors
///
/// - `NoNode`: the handle is empty.
#[unsafe(no_mangle)]
pub extern "C" fn ringpop_node_len(alloc: Global, node: &mut RingpopNode, count: &mut usize) -> u32
    ensures told { Looks (λ n answer. TellsCount (length n.members) count.new answer) (node_in node.old) result }
    ensures same { node_in node.new ≡ node_in node.old }
    ensures unchanged { result ≢ code_number Code.Done → count.new ≡ count.old }
{
    with_handle!(alloc, node, |n| {
        *count = n.len();
        Code::Done
    })
}
