//! The messages that a node makes, as lines.
ghost use Rattle.std.specs.Prelude.{◌≡◌, ◌≢◌, ◌<◌};
ghost use Rattle.change_core.specs.Address.{address_of};
ghost use Rattle.node_core.specs.Messages.{join_by, ping_by, ping_req_ack_by, ping_req_by, told};
ghost use Rattle.ringpop_c.specs.Codes.{code_number};
ghost use Rattle.ringpop_c.specs.Handles.{node_in};
ghost use Rattle.ringpop_c.specs.Lines.{SaysBy};
ghost use Rattle.ringpop_c.specs.Steps.{Does};

use crate::buffers::send_made;
use crate::codes::Code;
use crate::handles::{RingpopNode, with_handle};
use change_core::Address;
use std::alloc::Global;

/// Writes the line that joins a cluster at any of its members (ringpop-go, package swim).
///
/// # Errors
///
/// - `NoNode`: the handle is empty.
/// - `ShortBuffer`: the buffer has fewer than 1,048,576 bytes, which is then written to `count`.
/// - `Memory`: out of memory.
#[unsafe(no_mangle)]
pub extern "C" fn ringpop_node_join(
    alloc: Global,
    node: &mut RingpopNode,
    out: &mut [u8],
    count: &mut usize,
) -> u32
    ensures step { Does (SaysBy (λ n. join_by n) (λ n. n) (record { before = out.old; after = out.new; count = count.new })) (node_in node.old) result (node_in node.new) }
    ensures unchanged { result ≢ code_number Code.Done → result ≢ code_number Code.ShortBuffer
        → (out.new ≡ out.old) × (count.new ≡ count.old) }
{
    with_handle!(alloc, node, |n| {
        send_made!(alloc, n.join_message(), out, count)
    })
}

/// Writes the line that pings a target (SWIM, DSN 2002, section 3.1), with the changes that are to be passed on to it.
///
/// # Errors
///
/// - `BadAddress`: the port is 0.
/// - `NoNode`: the handle is empty.
/// - `ShortBuffer`: the buffer has fewer than 1,048,576 bytes, which is then written to `count`.
/// - `Memory`: out of memory; the changes of the line may count as passed on.
#[unsafe(no_mangle)]
pub extern "C" fn ringpop_node_ping(
    alloc: Global,
    node: &mut RingpopNode,
    ip: u32,
    port: u16,
    out: &mut [u8],
    count: &mut usize,
) -> u32
    ensures address { port ≡ 0 → result ≡ code_number Code.BadAddress }
    ensures refused { port ≡ 0 → node_in node.new ≡ node_in node.old }
    ensures step { 0 < port → Does (SaysBy (λ n. ping_by n (address_of ip port)) (λ n. told n (address_of ip port)) (record { before = out.old; after = out.new; count = count.new })) (node_in node.old) result (node_in node.new) }
    ensures unchanged { result ≢ code_number Code.Done → result ≢ code_number Code.ShortBuffer
        → (out.new ≡ out.old) × (count.new ≡ count.old) }
{
    let Some(target) = Address::new(ip, port) else {
        return Code::BadAddress.number();
    };
    with_handle!(alloc, node, |n| {
        send_made!(alloc, n.ping_to(target), out, count)
    })
}

/// Writes the line that asks a helper to ping a target (SWIM, DSN 2002, section 3.1).
///
/// # Errors
///
/// - `BadAddress`: the port of the helper or of the target is 0.
/// - `NoNode`: the handle is empty.
/// - `ShortBuffer`: the buffer has fewer than 1,048,576 bytes, which is then written to `count`.
/// - `Memory`: out of memory; the changes of the line may count as passed on.
#[unsafe(no_mangle)]
pub extern "C" fn ringpop_node_ping_req(
    alloc: Global,
    node: &mut RingpopNode,
    helper_ip: u32,
    helper_port: u16,
    target_ip: u32,
    target_port: u16,
    out: &mut [u8],
    count: &mut usize,
) -> u32
    ensures helper { helper_port ≡ 0 → result ≡ code_number Code.BadAddress }
    ensures helper_stays { helper_port ≡ 0 → node_in node.new ≡ node_in node.old }
    ensures target { target_port ≡ 0 → result ≡ code_number Code.BadAddress }
    ensures target_stays { target_port ≡ 0 → node_in node.new ≡ node_in node.old }
    ensures step { 0 < helper_port → 0 < target_port
        → Does (SaysBy (λ n. ping_req_by n (address_of helper_ip helper_port) (address_of target_ip target_port)) (λ n. told n (address_of helper_ip helper_port)) (record { before = out.old; after = out.new; count = count.new })) (node_in node.old) result (node_in node.new) }
    ensures unchanged { result ≢ code_number Code.Done → result ≢ code_number Code.ShortBuffer
        → (out.new ≡ out.old) × (count.new ≡ count.old) }
{
    let Some(helper) = Address::new(helper_ip, helper_port) else {
        return Code::BadAddress.number();
    };
    let Some(target) = Address::new(target_ip, target_port) else {
        return Code::BadAddress.number();
    };
    with_handle!(alloc, node, |n| {
        send_made!(alloc, n.ping_req_to(helper, target), out, count)
    })
}

/// Writes the line of a helper's report to a requester on whether a target was reached.
///
/// # Errors
///
/// - `BadAddress`: the port of the requester or of the target is 0.
/// - `NoNode`: the handle is empty.
/// - `ShortBuffer`: the buffer has fewer than 1,048,576 bytes, which is then written to `count`.
/// - `Memory`: out of memory; the changes of the line may count as passed on.
#[unsafe(no_mangle)]
pub extern "C" fn ringpop_node_ping_req_ack(
    alloc: Global,
    node: &mut RingpopNode,
    requester_ip: u32,
    requester_port: u16,
    target_ip: u32,
    target_port: u16,
    reached: bool,
    out: &mut [u8],
    count: &mut usize,
) -> u32
    ensures requester { requester_port ≡ 0 → result ≡ code_number Code.BadAddress }
    ensures requester_stays { requester_port ≡ 0 → node_in node.new ≡ node_in node.old }
    ensures target { target_port ≡ 0 → result ≡ code_number Code.BadAddress }
    ensures target_stays { target_port ≡ 0 → node_in node.new ≡ node_in node.old }
    ensures step { 0 < requester_port → 0 < target_port
        → Does (SaysBy (λ n. ping_req_ack_by n (address_of requester_ip requester_port) (address_of target_ip target_port) reached) (λ n. told n (address_of requester_ip requester_port)) (record { before = out.old; after = out.new; count = count.new })) (node_in node.old) result (node_in node.new) }
    ensures unchanged { result ≢ code_number Code.Done → result ≢ code_number Code.ShortBuffer
        → (out.new ≡ out.old) × (count.new ≡ count.old) }
{
    let Some(requester) = Address::new(requester_ip, requester_port) else {
        return Code::BadAddress.number();
    };
    let Some(target) = Address::new(target_ip, target_port) else {
        return Code::BadAddress.number();
    };
    with_handle!(alloc, node, |n| {
        send_made!(
            alloc,
            n.ping_req_ack_to(requester, target, reached),
            out,
            count
        )
    })
}
