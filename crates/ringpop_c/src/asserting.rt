//! The entries that a node asserts by itself: that it leaves, that it is back, and the next status of an entry at its
//! deadline.
ghost use Rattle.std.specs.Prelude.{◌≡◌, ◌≢◌, ◌≤◌, ◌<◌};
ghost use Rattle.change_core.specs.Numbers.{greatest_number};
ghost use Rattle.ringpop_c.specs.Codes.{code_number};
ghost use Rattle.ringpop_c.specs.Handles.{node_in};
ghost use Rattle.ringpop_c.specs.Steps.{Does, ExpiresBy, LeavesBy, RejoinsBy, TellsExpiry};

use crate::codes::Code;
use crate::entries::{RingpopEntry, tell_change};
use crate::handles::{RingpopNode, with_handle};
use change_core::{Change, Moment};
use node_core::NodeError;
use std::alloc::Global;

/// Leaves the cluster: the node passes that on in its messages, and owns no key.
///
/// # Errors
///
/// - `NoNode`: the handle is empty.
/// - `AlreadyLeft`: the node has left already.
/// - `Memory`: out of memory; the node is unchanged.
#[unsafe(no_mangle)]
pub extern "C" fn ringpop_node_leave(alloc: Global, node: &mut RingpopNode) -> u32
    ensures step { Does LeavesBy (node_in node.old) result (node_in node.new) }
{
    with_handle!(alloc, node, |n| Code::of_result(n.leave()))
}

/// The node comes back, at its next incarnation.
///
/// # Errors
///
/// - `NoNode`: the handle is empty.
/// - `NotLeft`: the node has not left.
/// - `Exhausted`: no incarnation is left; the node stays away.
/// - `Memory`: out of memory; the node is unchanged.
#[unsafe(no_mangle)]
pub extern "C" fn ringpop_node_rejoin(alloc: Global, node: &mut RingpopNode) -> u32
    ensures step { Does RejoinsBy (node_in node.old) result (node_in node.new) }
{
    with_handle!(alloc, node, |n| Code::of_result(n.rejoin()))
}

/// Writes the entry that expired, if one did, or returns the code of the error.
fn tell_expiry(
    expired: Result<Option<Change>, NodeError>,
    ip: &mut u32,
    port: &mut u16,
    entry: &mut RingpopEntry,
) -> Code
    ensures told { TellsExpiry expired ip.new port.new entry.new result }
    ensures unchanged { result ≢ Code.Done → (ip.new ≡ ip.old) × (port.new ≡ port.old) × (entry.new ≡ entry.old) }
{
    match expired {
        Ok(Some(change)) => tell_change(&change, ip, port, entry),
        Ok(None) => Code::Nothing,
        Err(error) => Code::of_error(error),
    }
}

/// Gives the first entry whose deadline has come at this moment, in milliseconds, its next status: `Done`, with its
/// address and the new entry; call again. `Nothing`: none is due.
///
/// # Errors
///
/// - `BadNumber`: the moment is over 2^53 - 1.
/// - `NoNode`: the handle is empty.
/// - `Memory`: out of memory; the node is unchanged.
#[unsafe(no_mangle)]
pub extern "C" fn ringpop_node_expire(
    alloc: Global,
    node: &mut RingpopNode,
    moment: u64,
    ip: &mut u32,
    port: &mut u16,
    entry: &mut RingpopEntry,
) -> u32
    ensures number { greatest_number < moment → result ≡ code_number Code.BadNumber }
    ensures refused { greatest_number < moment → node_in node.new ≡ node_in node.old }
    ensures step { moment ≤ greatest_number → Does (ExpiresBy moment ip.new port.new entry.new) (node_in node.old) result (node_in node.new) }
    ensures unchanged { result ≢ code_number Code.Done → (ip.new ≡ ip.old) × (port.new ≡ port.old) × (entry.new ≡ entry.old) }
{
    let Some(moment) = Moment::new(moment) else {
        return Code::BadNumber.number();
    };
    with_handle!(alloc, node, |n| {
        tell_expiry(n.expire(moment), ip, port, entry)
    })
}
