//! A request that is answered here or by the node that owns its keys, and is tried again on the schedule of an attempt.
//! Each function calls the link or the handler at most once.
ghost use Rattle.std.specs.Prelude.{◌≡◌, ◌<◌, Result, IfOk, IfErr};
ghost use Rattle.forward_core.specs.Attempts.{IsOpen, most_sends};
ghost use Rattle.forward_core.specs.declared.attempts.Stage.TheVariants.{InFlight};
ghost use Rattle.locked_node.specs.Passes.{Fits};
ghost use Rattle.message_core.specs.declared.messages.Message.{Message};
ghost use Rattle.peer_core.specs.declared.errors.LinkError.{LinkError};
ghost use Rattle.peer_core.specs.Acts.{Makes};
ghost use Rattle.peer_core.specs.Forwarding.{IsFailure, IsHandled, IsJudged, IsRequest, IsRequestRefusal, IsForwarded, LooksUp, StandsFor, StaysOpen, TriesOnce};
ghost use Rattle.peer_core.specs.Handling.{between};
ghost use Rattle.peer_core.specs.Parts.{Does};
ghost use Rattle.peer_core.specs.Resending.{IsSentOnce, SendsRequest, TrySends};

use crate::clocks::Clock;
use crate::errors::{ClusterError, HandlerFault, LinkError};
use crate::handlers::HandlerMut;
use crate::links::Link;
use crate::serving::message_from;
use change_core::{Address, Moment};
use forward_core::{Attempt, Step};
use hash_ring::PointHash;
use locked_node::{LockedNode, NodePass};
use message_core::{Content, Keys, Message, Text};
use node_core::View;
use std::alloc::Global;
use std::sync::Wait;

/// A request: its attempt, which holds the keys, and the body.
#[derive(Drop)]
pub(crate) struct Request {
    attempt: Attempt,
    body: Text,
}

/// The result of one try.
#[derive(Drop)]
pub(crate) enum Tried {
    /// This text is the answer to the request.
    Answered(Text),
    /// It was not, and is to be tried again.
    Again(Request),
}

/// Returns the next step of an attempt at a moment, and the view of the node that decides it.
fn plan_attempt<R: Wait, H: PointHash>(
    rt: &R,
    node: &LockedNode<H>,
    pass: &mut NodePass<H>,
    now: Moment,
    attempt: &mut Attempt,
) -> Result<(View<H>, Step), ClusterError>
    requires fits { Fits node.now pass.old }
    requires open { IsOpen attempt.old.stage }
    ensures did { Does node.now (LooksUp H.hash_of now attempt.old attempt.new) result pass.old pass.new }
    ensures fits { Fits node.now pass.new }
    ensures stands { IfOk result (λ plan. StandsFor plan.1 attempt.new.stage) }
    ensures named { IfErr result IsRequestRefusal }
{
    let view = node.view(rt, pass)?;
    let Ok(view) = view else {
        return Err(ClusterError::Memory);
    };
    let step = attempt.ready(&view, now)?;
    Ok((view, step))
}

/// Calls the handler for a request.
fn handle<R: Wait, A: HandlerMut>(
    rt: &R,
    alloc: Global,
    handler: &mut A,
    keys: &Keys,
    body: &Text,
) -> Result<Text, ClusterError>
    ensures handled { IsHandled (between A.handled handler.old handler.new).once keys.now body.now result }
    ensures named { IfErr result IsRequestRefusal }
{
    let answer = handler.handle_mut(rt, alloc, keys, body);
    match answer {
        Ok(text) => Ok(text),
        Err(HandlerFault::Failed) => Err(ClusterError::HandlerFault),
        Err(HandlerFault::Memory) => Err(ClusterError::Memory),
    }
}

/// Records an answer that is a failure: the attempt has failed again.
fn try_again(now: Moment, request: Request) -> Result<Tried, ClusterError>
    requires { request.attempt.stage ≡ InFlight }
    ensures judged { (answer : Result Message LinkError) → IsFailure answer → IsJudged now request answer result }
    ensures open { IfOk result StaysOpen }
    ensures named { IfErr result IsRequestRefusal }
{
    let Request { mut attempt, body } = request;
    attempt.failed(now)?;
    Ok(Tried::Again(Request { attempt, body }))
}

/// Judges an answer: a Reply is the answer to the request, and anything else but out of memory is a failure.
fn judge(
    now: Moment,
    request: Request,
    answer: Result<Message, LinkError>,
) -> Result<Tried, ClusterError>
    requires { request.attempt.stage ≡ InFlight }
    ensures judged { IsJudged now request answer result }
    ensures open { IfOk result StaysOpen }
    ensures named { IfErr result IsRequestRefusal }
{
    match answer {
        Ok(message) => {
            if let Content::Reply(text) = message.content {
                return Ok(Tried::Answered(text));
            }
        }
        Err(LinkError::Memory) => return Err(ClusterError::Memory),
        Err(_) => {}
    }
    try_again(now, request)
}

/// Sends a request to its owner, as a message of the node whose view this is. What came of it.
fn send<R: Wait, H: PointHash, L: Link, C: Clock>(
    rt: &R,
    alloc: Global,
    link: &mut L,
    clock: &C,
    view: &View<H>,
    owner: Address,
    request: Request,
) -> Result<Tried, ClusterError>
    requires in_flight { request.attempt.stage ≡ InFlight }
    ensures sent { IsForwarded L.may_answer C.time view.now owner request result }
    ensures once { IsSentOnce L.went view.now owner request result link.old link.new }
    ensures open { IfOk result StaysOpen }
    ensures named { IfErr result IsRequestRefusal }
{
    let Request { attempt, body } = request;
    let (keys, lent) = attempt.lend();
    let message = message_from(view, Content::Forward(keys, body));
    let answer = link.call(rt, alloc, owner, &message);
    let content = message.content;
    let Content::Forward(keys, body) = content else {
        unreachable!()
    };
    let attempt = lent.take_back(keys);
    judge(clock.now(), Request { attempt, body }, answer)
}

/// Tries once: the node is looked at, and the request is handled here, sent to its owner, or let rest.
fn try_once<R: Wait, H: PointHash, L: Link, A: HandlerMut, C: Clock>(
    rt: &R,
    alloc: Global,
    node: &LockedNode<H>,
    pass: &mut NodePass<H>,
    link: &mut L,
    handler: &mut A,
    clock: &C,
    request: Request,
) -> Result<Tried, ClusterError>
    requires fits { Fits node.now pass.old }
    requires open { IsOpen request.attempt.stage }
    requires few { request.attempt.sends < most_sends }
    ensures did { Does node.now (TriesOnce H.hash_of L.may_answer (between A.handled handler.old handler.new).once C.time request) result pass.old pass.new }
    ensures sent { Makes node.now (TrySends H.hash_of L.went A.handled request handler.old handler.new link.old link.new result) pass.old pass.new }
    ensures fits { Fits node.now pass.new }
    ensures open { IfOk result StaysOpen }
    ensures named { IfErr result IsRequestRefusal }
{
    let Request { mut attempt, body } = request;
    let (view, step) = plan_attempt(rt, node, pass, clock.now(), &mut attempt)?;
    match step {
        Step::Wait(until) => {
            clock.wait_until(rt, until);
            Ok(Tried::Again(Request { attempt, body }))
        }
        Step::Here => {
            let text = handle(rt, alloc, handler, attempt.keys(), &body)?;
            Ok(Tried::Answered(text))
        }
        Step::Send(owner) => {
            let request = Request { attempt, body };
            send(rt, alloc, link, clock, &view, owner, request)
        }
    }
}

/// Answers a request of these keys with this body: by the handler if this node owns all of them, and else by a Reply of
/// the node that does, which is sent a Forward. Each time the owner is looked up again in a view of the node. Any
/// answer of the owner but a Reply is a failure of that send, and so is an error of the link other than out of memory.
/// The request is tried again 3,000, 6,000 and 12,000 milliseconds after its first, second and third failure, measured
/// by `clock`. No turn of the node is held while the link or the handler is called, or the clock is waited for. The
/// handler is called once if this node owns the keys when the request ends, after at most three sends that failed; and
/// not at all if a Reply is the answer.
///
/// # Errors
///
/// The effect of the calls before stays. The keys and the body are dropped.
///
/// - `Diverged`: two of the keys have different owners.
/// - `Nobody`: no member serves.
/// - `RetriesSpent`: the fourth send failed too.
/// - `HandlerFault`: the handler failed.
/// - `Memory`: out of memory, here, in the handler or in the link.
/// - `ForeignPass`: the pass has another node's name.
/// - `PassSpent`: the pass has made all its calls.
pub fn handle_or_forward<R: Wait, H: PointHash, L: Link, A: HandlerMut, C: Clock>(
    rt: &R,
    alloc: Global,
    node: &LockedNode<H>,
    pass: &mut NodePass<H>,
    link: &mut L,
    handler: &mut A,
    clock: &C,
    keys: Keys,
    body: Text,
) -> Result<Text, ClusterError>
    requires { Fits node.now pass.old }
    ensures request { Does node.now (IsRequest H.hash_of L.may_answer (between A.handled handler.old handler.new).once C.time keys body) result pass.old pass.new }
    ensures sent { Makes node.now (SendsRequest H.hash_of L.went A.handled keys body result handler.old handler.new link.old link.new) pass.old pass.new }
    ensures fits { Fits node.now pass.new }
    ensures named { IfErr result IsRequestRefusal }
{
    let mut request = Request {
        attempt: Attempt::start(keys),
        body,
    };
    for _ in rt.forever() {
        let tried = try_once(rt, alloc, node, pass, link, handler, clock, request)?;
        match tried {
            Tried::Answered(text) => return Ok(text),
            Tried::Again(back) => request = back,
        }
    }
    unreachable!()
}
