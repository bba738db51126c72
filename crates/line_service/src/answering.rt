//! The answers of a server to inputs.
ghost use Rattle.std.specs.Prelude.{◌≡◌, ◌≤◌, ◌<◌, Ok, IfOk, IfErr, IfNone, IfSome, length, vec_capacity, vec_len};
ghost use Rattle.wire_json.specs.Lines.{max_line};
ghost use Rattle.peer_core.specs.Acts.{Makes};
ghost use Rattle.peer_core.specs.Handling.{between};
ghost use Rattle.peer_core.specs.Serving.{Refuses};
ghost use Rattle.line_service.specs.Answering.{AnswersInput, IsNotAnswered, IsRefusalLine, IsSame, IsSentAs, IsSilent, IsTried, IsUnsent, Responds, SendsNothing, line_text};

use crate::inputs::Input;
use change_core::Moment;
use hash_ring::PointHash;
use message_core::{Message, Reason, WireError};
use peer_core::{HandlerMut, Link, Member};
use std::alloc::Global;
use std::sync::Wait;
use wire_json::encode;

/// Returns the answer to an input; None if it needs none, or the lock refused a call of the answer.
fn answer<R: Wait, H: PointHash, L: Link, A: HandlerMut>(
    rt: &R,
    member: &mut Member<'_, H, L>,
    handler: &mut A,
    now: Moment,
    input: &Input,
) -> Option<Message>
    ensures answered { IfSome result (λ m. Makes member.old.node (AnswersInput H.hash_of L.may_answer (between A.handled handler.old handler.new) now input.now (Ok m)) member.old.pass.now member.new.pass.now) }
    ensures unanswered { IfNone result (IsNotAnswered H.hash_of L.may_answer (between A.handled handler.old handler.new) now input.now member.old.node member.old.pass.now member.new.pass.now) }
    ensures same { IsSame member.old member.new }
{
    match input {
        Input::Message(message) => member.serve(rt, handler, now, message).ok(),
        Input::Refused(reason) => member.refuse(rt, *reason).ok(),
        Input::Nothing => None,
    }
}

/// Returns the line with room for its newline; None if out of memory for that.
fn with_room(line: Vec<u8>) -> Option<Vec<u8>>
    ensures same { IfSome result (λ v. v.items ≡ line.items) }
    ensures room { IfSome result (λ v. vec_len v < vec_capacity v) }
{
    let mut line = line;
    match line.reserve_exact(1) {
        Ok(()) => Some(line),
        Err(_) => None,
    }
}

/// Returns the line of an answer, with room for its newline, or the reason why it has none: `Failed` if it is too long,
/// else `Memory`.
fn own_line(alloc: Global, answer: &Message) -> Result<Vec<u8>, Reason>
    ensures line { IfOk result (λ v. v.items ≡ line_text answer.now) }
    ensures short { IfOk result (λ v. length v.items ≤ max_line) }
    ensures room { IfOk result (λ v. vec_len v < vec_capacity v) }
    ensures reason { IfErr result (IsUnsent answer.now) }
{
    match encode(alloc, answer) {
        Ok(line) => match with_room(line) {
            Some(line) => Ok(line),
            None => Err(Reason::Memory),
        },
        Err(WireError::LineTooLong) => Err(Reason::Failed),
        Err(_) => Err(Reason::Memory),
    }
}

/// Returns the line of a refusal, with room for its newline; None if the lock refuses the call for it, or out of memory
/// for its line.
fn refusal_line<R: Wait, H: PointHash, L: Link>(
    rt: &R,
    alloc: Global,
    member: &mut Member<'_, H, L>,
    reason: Reason,
) -> Option<Vec<u8>>
    ensures refusal { IfSome result (λ v. Makes member.old.node (IsRefusalLine reason v.items) member.old.pass.now member.new.pass.now) }
    ensures room { IfSome result (λ v. vec_len v < vec_capacity v) }
    ensures silent { IfNone result (IsTried (Refuses reason) member.old.node member.old.pass.now member.new.pass.now) }
    ensures same { IsSame member.old member.new }
{
    let Ok(refusal) = member.refuse(rt, reason) else {
        return None;
    };
    let Ok(line) = encode(alloc, &refusal) else {
        return None;
    };
    match with_room(line) {
        Some(line) => Some(line),
        None => None,
    }
}

/// Returns the line of an answer, with room for its newline, or of the refusal in its stead if it has none.
fn line_of<R: Wait, H: PointHash, L: Link>(
    rt: &R,
    alloc: Global,
    member: &mut Member<'_, H, L>,
    answer: &Message,
) -> Option<Vec<u8>>
    ensures sent { IfSome result (λ v. Makes member.old.node (IsSentAs answer.now v.items) member.old.pass.now member.new.pass.now) }
    ensures room { IfSome result (λ v. vec_len v < vec_capacity v) }
    ensures silent { IfNone result (IsTried (SendsNothing answer.now) member.old.node member.old.pass.now member.new.pass.now) }
    ensures same { IsSame member.old member.new }
{
    match own_line(alloc, answer) {
        Ok(line) => Some(line),
        Err(reason) => refusal_line(rt, alloc, member, reason),
    }
}

/// Returns the line that goes back for an input at a moment, without its newline but with room for it. To a message it is
/// that of the answer of `serve_one`, requests by the handler, which is called once for a Forward that the node owns and else
/// never; to any other input but none a refusal for its reason. If the
/// answer's line would have more than 1,048,576 bytes it is that of a refusal `failed`, if out of memory for it that of a
/// refusal `memory`, by another call of the node.
///
/// None if the connection has to be closed without an answer: if the input needs none, if the lock refused a call, and
/// if out of memory even for a refusal.
pub fn respond<R: Wait, H: PointHash, L: Link, A: HandlerMut>(
    rt: &R,
    alloc: Global,
    member: &mut Member<'_, H, L>,
    handler: &mut A,
    now: Moment,
    input: &Input,
) -> Option<Vec<u8>>
    ensures sent { IfSome result (λ v. Makes member.old.node (Responds H.hash_of L.may_answer (between A.handled handler.old handler.new) now input.now v.items) member.old.pass.now member.new.pass.now) }
    ensures room { IfSome result (λ v. vec_len v < vec_capacity v) }
    ensures silent { IfNone result (IsSilent H.hash_of L.may_answer (between A.handled handler.old handler.new) now input.now member.old.node member.old.pass.now member.new.pass.now) }
    ensures same { IsSame member.old member.new }
{
    let answer = answer(rt, member, handler, now, input)?;
    line_of(rt, alloc, member, &answer)
}
