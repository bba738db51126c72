//! The lines of single changes that come to a node.
ghost use Rattle.std.specs.Prelude.{◌≡◌, ◌≤◌, ◌<◌};
ghost use Rattle.change_core.specs.Numbers.{greatest_number};
ghost use Rattle.ringpop_c.specs.Codes.{code_number};
ghost use Rattle.ringpop_c.specs.Handles.{node_in};
ghost use Rattle.ringpop_c.specs.Steps.{Does};
ghost use Rattle.ringpop_c.specs.Taking.{HearsChange, TakesBy};

use crate::codes::Code;
use crate::handles::{RingpopNode, with_handle};
use change_core::{Moment, Sourced};
use hash_ring::Sha256Hash;
use node_core::NodeState;
use std::alloc::Global;
use wire_json::decode_change;

/// Takes a change.
fn take(node: &mut NodeState<Sha256Hash>, changes: &[Sourced; 1], moment: Moment) -> Code
    ensures step { TakesBy changes.now moment node.old.node result node.new.node }
{
    match node.take(changes, moment) {
        Ok(taken) => {
            if taken.applied == 0 {
                Code::Nothing
            } else {
                Code::Done
            }
        }
        Err(stopped) => Code::of_stop(stopped.cause),
    }
}

/// Takes the change of a line.
fn hear_change(alloc: Global, node: &mut NodeState<Sha256Hash>, line: &[u8], moment: Moment) -> Code
    ensures step { HearsChange line.now moment node.old.node result node.new.node }
{
    match decode_change(alloc, line) {
        Ok(change) => take(node, &[change], moment),
        Err(error) => Code::of_wire(error),
    }
}

/// Takes the change of a line, without a newline, at this moment, in milliseconds. `Done`: it altered an entry, itself or by the
/// refutation that it called for (SWIM, DSN 2002, section 4.2). `Nothing`: it is old.
///
/// # Errors
///
/// - `BadNumber`: the moment is over 2^53 - 1.
/// - `NoNode`: the handle is empty.
/// - `LineTooLong`, `BadJson`, `NotObject`, `MissingField`, `BadField`: the line is not that of a change.
/// - `Exhausted`: the change calls for a refutation, and no incarnation is left; the moment has passed.
/// - `Full`: the address is unknown, and the node holds `max_members` already; the moment has passed.
/// - `Memory`: out of memory, for the line or for the change.
#[unsafe(no_mangle)]
pub extern "C" fn ringpop_node_take(
    alloc: Global,
    node: &mut RingpopNode,
    line: &[u8],
    moment: u64,
) -> u32
    ensures number { greatest_number < moment → result ≡ code_number Code.BadNumber }
    ensures refused { greatest_number < moment → node_in node.new ≡ node_in node.old }
    ensures step { moment ≤ greatest_number → Does (HearsChange line.now moment) (node_in node.old) result (node_in node.new) }
{
    let Some(moment) = Moment::new(moment) else {
        return Code::BadNumber.number();
    };
    with_handle!(alloc, node, |n| hear_change(alloc, n, line, moment))
}
