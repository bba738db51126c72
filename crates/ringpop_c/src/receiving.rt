//! The lines of messages that come to a node.
ghost use Rattle.std.specs.Prelude.{◌≡◌, ◌≢◌, ◌≤◌, ◌<◌, length};
ghost use Rattle.change_core.specs.Numbers.{greatest_number};
ghost use Rattle.ringpop_c.specs.Codes.{code_number};
ghost use Rattle.ringpop_c.specs.Handles.{node_in};
ghost use Rattle.ringpop_c.specs.Lines.{HearsBy, ReceivesBy, TellsReceived};
ghost use Rattle.ringpop_c.specs.Steps.{Does};
ghost use Rattle.wire_json.specs.Lines.{max_line};

use crate::buffers::{is_short, send};
use crate::codes::Code;
use crate::handles::{RingpopNode, with_handle};
use change_core::Moment;
use hash_ring::Sha256Hash;
use message_core::Message;
use node_core::{NodeState, Received};
use std::alloc::Global;
use wire_json::decode;

/// Writes the answer to a message that was received, if it has one.
fn tell(alloc: Global, received: &Received, out: &mut [u8], count: &mut usize) -> Code
    requires room { max_line ≤ length out.old }
    ensures told { TellsReceived received.now (record { before = out.old; after = out.new; count = count.new }) result }
    ensures unchanged { result ≢ Code.Done → result ≢ Code.ShortBuffer → (out.new ≡ out.old) × (count.new ≡ count.old) }
{
    match received {
        Received::Done(_) => Code::Nothing,
        Received::Answer(_, answer) => match send(alloc, answer, out, count) {
            Code::Done => Code::Done,
            _ => Code::Unanswered,
        },
        Received::NoAnswer(_) => Code::Unanswered,
        Received::Stopped(stopped) => Code::of_stop(stopped.cause),
        Received::NotGossip => Code::NotGossip,
    }
}

/// Receives a message.
fn receive(
    alloc: Global,
    node: &mut NodeState<Sha256Hash>,
    message: &Message,
    moment: Moment,
    out: &mut [u8],
    count: &mut usize,
) -> Code
    requires room { max_line ≤ length out.old }
    ensures step { ReceivesBy message.now moment (record { before = out.old; after = out.new; count = count.new }) node.old.node result node.new.node }
    ensures unchanged { result ≢ Code.Done → result ≢ Code.ShortBuffer → (out.new ≡ out.old) × (count.new ≡ count.old) }
{
    let received = node.receive(message, moment);
    tell(alloc, &received, out, count)
}

/// Receives the message of a line.
fn hear(
    alloc: Global,
    node: &mut NodeState<Sha256Hash>,
    line: &[u8],
    moment: Moment,
    out: &mut [u8],
    count: &mut usize,
) -> Code
    ensures step { HearsBy line.now moment (record { before = out.old; after = out.new; count = count.new }) node.old.node result node.new.node }
    ensures unchanged { result ≢ Code.Done → result ≢ Code.ShortBuffer → (out.new ≡ out.old) × (count.new ≡ count.old) }
{
    if is_short(out, count) {
        return Code::ShortBuffer;
    }
    match decode(alloc, line) {
        Ok(message) => receive(alloc, node, &message, moment, out, count),
        Err(error) => Code::of_wire(error),
    }
}

/// Receives a line, without a newline, that came at this moment, in milliseconds (ringpop-go, package swim). `Done`:
/// its answer is written. `Nothing`: it needs none.
///
/// # Errors
///
/// - `BadNumber`: the moment is over 2^53 - 1.
/// - `NoNode`: the handle is empty.
/// - `ShortBuffer`: the buffer has fewer than 1,048,576 bytes, which is then written to `count`.
/// - `LineTooLong`, `BadJson`, `NotObject`, `UnknownKind`, `MissingField`, `BadField`, `TooMany`: the line is not that
///   of a message.
/// - `NotGossip`: the message is a request, or an answer to one.
/// - `Exhausted`, `Full`: a change is refused; those before it are processed, and the moment has passed.
/// - `Memory`: out of memory, for the line or for a change; the changes before it are processed.
/// - `Unanswered`: out of memory for the answer; all changes are processed.
#[unsafe(no_mangle)]
pub extern "C" fn ringpop_node_receive(
    alloc: Global,
    node: &mut RingpopNode,
    line: &[u8],
    moment: u64,
    out: &mut [u8],
    count: &mut usize,
) -> u32
    ensures number { greatest_number < moment → result ≡ code_number Code.BadNumber }
    ensures refused { greatest_number < moment → node_in node.new ≡ node_in node.old }
    ensures step { moment ≤ greatest_number → Does (HearsBy line.now moment (record { before = out.old; after = out.new; count = count.new })) (node_in node.old) result (node_in node.new) }
    ensures unchanged { result ≢ code_number Code.Done → result ≢ code_number Code.ShortBuffer
        → (out.new ≡ out.old) × (count.new ≡ count.old) }
{
    let Some(moment) = Moment::new(moment) else {
        return Code::BadNumber.number();
    };
    with_handle!(alloc, node, |n| hear(alloc, n, line, moment, out, count))
}
