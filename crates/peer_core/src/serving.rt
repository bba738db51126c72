//! The answers of a node to messages. No turn is held while the link or the handler is called.
ghost use Rattle.std.specs.Prelude.{◌≡◌, true, false, [], Ok, IfOk, IfErr};
ghost use Rattle.node_core.specs.Receiving.{is_answered, is_gossip};
ghost use Rattle.locked_node.specs.Passes.{Fits};
ghost use Rattle.peer_core.specs.Acts.{Makes};
ghost use Rattle.peer_core.specs.Asking.{Pinged};
ghost use Rattle.peer_core.specs.Exchanges.{Sent, SendsTo};
ghost use Rattle.peer_core.specs.Handling.{between};
ghost use Rattle.peer_core.specs.Parts.{Asks, Does, Next, let_in};
ghost use Rattle.peer_core.specs.Serving.{message_from, Finds, Forwards, Gossips, IsDecided, IsRouted, PassesOn, Refuses, Reports, Says, Seeks, Serves, TellsRequester, reason_of};

use crate::asking::{Peers, ping};
use crate::errors::HandlerFault;
use crate::handlers::HandlerMut;
use crate::hearing::Heard;
use crate::links::Link;
use change_core::{Address, Moment};
use forward_core::{ForwardError, Route, route_keys};
use hash_ring::PointHash;
use locked_node::{LockedNode, NodePass};
use message_core::{Content, Keys, Message, Reason, Text};
use node_core::{Received, StopCause, View};
use std::alloc::Global;
use std::sync::Wait;
use turn_lock::LockError;

/// A message of the node's own.
pub(crate) fn message_from_self<R: Wait, H: PointHash>(
    rt: &R,
    node: &LockedNode<H>,
    pass: &mut NodePass<H>,
    content: Content,
) -> Result<Message, LockError>
    requires { Fits node.now pass.old }
    ensures did { Does node.now (Says content) (let_in result) pass.old pass.new }
    ensures content { IfOk result (λ m. m.content ≡ content) }
    ensures fits { Fits node.now pass.new }
{
    let own = node.own(rt, pass)?;
    Ok(Message {
        source: own.address,
        source_incarnation: own.incarnation,
        content,
    })
}

/// Makes a message of the node whose view this is, at the incarnation of the view.
pub(crate) fn message_from<H: PointHash>(view: &View<H>, content: Content) -> Message
    ensures { result ≡ message_from view.now content }
{
    Message {
        source: view.own(),
        source_incarnation: view.incarnation(),
        content,
    }
}

/// Refuses for a reason: makes a message of the node, at the incarnation of its own entry. A reader of messages answers
/// by it, with `Malformed`, to anything that is not a message.
///
/// # Errors
///
/// The call is not made, and the pass is unchanged.
///
/// - `ForeignPass`: the pass has another node's name. This is checked first.
/// - `PassSpent`: the pass has made all its calls.
pub fn refuse<R: Wait, H: PointHash>(
    rt: &R,
    node: &LockedNode<H>,
    pass: &mut NodePass<H>,
    reason: Reason,
) -> Result<Message, LockError>
    requires { Fits node.now pass.old }
    ensures did { Does node.now (Refuses reason) (let_in result) pass.old pass.new }
    ensures fits { Fits node.now pass.new }
{
    message_from_self(rt, node, pass, Content::Refused(reason))
}

fn reason_for(cause: StopCause) -> Reason
    ensures { result ≡ reason_of cause }
{
    match cause {
        StopCause::Exhausted => Reason::Exhausted,
        StopCause::Full => Reason::Full,
        StopCause::Memory => Reason::Memory,
    }
}

/// Answers a Join or a Ping by the node's answer to it.
fn serve_gossip<R: Wait, H: PointHash>(
    rt: &R,
    node: &LockedNode<H>,
    pass: &mut NodePass<H>,
    now: Moment,
    message: &Message,
) -> Result<Message, LockError>
    requires fits { Fits node.now pass.old }
    requires answered { is_answered message.now.content ≡ true }
    ensures did { Does node.now (Gossips message.now now) (let_in result) pass.old pass.new }
    ensures fits { Fits node.now pass.new }
{
    let received = node.receive(rt, pass, message, now)?;
    match received {
        Received::Answer(_, answer) => Ok(answer),
        Received::NoAnswer(_) => refuse(rt, node, pass, Reason::Memory),
        Received::Stopped(stopped) => {
            let reason = reason_for(stopped.cause);
            refuse(rt, node, pass, reason)
        }
        Received::Done(_) | Received::NotGossip => unreachable!(),
    }
}

/// Returns whether a target was reached, by its answer; its Ack is processed. None if out of memory.
fn was_reached<R: Wait, H: PointHash>(
    rt: &R,
    node: &LockedNode<H>,
    pass: &mut NodePass<H>,
    now: Moment,
    heard: &Heard,
) -> Result<Option<bool>, LockError>
    requires { Fits node.now pass.old }
    ensures did { Does node.now (Seeks now heard.now) (let_in result) pass.old pass.new }
    ensures fits { Fits node.now pass.new }
{
    match heard {
        Heard::Answer(ack) => {
            let _received = node.receive(rt, pass, ack, now)?;
            Ok(Some(true))
        }
        Heard::Other => Ok(Some(false)),
        Heard::OutOfMemory => Ok(None),
    }
}

/// Returns whether a target answers a ping. None if out of memory.
fn ping_target<R: Wait, H: PointHash, L: Link>(
    node: &LockedNode<H>,
    pass: &mut NodePass<H>,
    peers: &mut Peers<'_, R, L>,
    now: Moment,
    target: Address,
) -> Result<Option<bool>, LockError>
    requires { Fits node.now pass.old }
    ensures did { Does node.now (Next (Asks (Pinged L.may_answer target)) (Seeks now)) (let_in result) pass.old pass.new }
    ensures sent { Sent L.went node.now [] pass.old pass.new peers.old.link peers.new.link }
    ensures fits { Fits node.now pass.new }
{
    let heard = ping(node, pass, peers, target)?;
    was_reached(peers.rt, node, pass, now, &heard)
}

/// Returns whether a target is the node itself or answers its ping. None if out of memory.
fn is_reachable<R: Wait, H: PointHash, L: Link>(
    node: &LockedNode<H>,
    pass: &mut NodePass<H>,
    peers: &mut Peers<'_, R, L>,
    now: Moment,
    target: Address,
) -> Result<Option<bool>, LockError>
    requires { Fits node.now pass.old }
    ensures did { Does node.now (Finds L.may_answer now target) (let_in result) pass.old pass.new }
    ensures sent { Sent L.went node.now [] pass.old pass.new peers.old.link peers.new.link }
    ensures fits { Fits node.now pass.new }
{
    let own = node.own(peers.rt, pass)?;
    if own.address == target {
        return Ok(Some(true));
    }
    ping_target(node, pass, peers, now, target)
}

/// Reports the result for a target to a requester.
fn tell_requester<R: Wait, H: PointHash>(
    rt: &R,
    node: &LockedNode<H>,
    pass: &mut NodePass<H>,
    requester: Address,
    target: Address,
    found: Option<bool>,
) -> Result<Message, LockError>
    requires { Fits node.now pass.old }
    ensures did { Does node.now (TellsRequester requester target found) (let_in result) pass.old pass.new }
    ensures fits { Fits node.now pass.new }
{
    let Some(reached) = found else {
        return refuse(rt, node, pass, Reason::Memory);
    };
    let made = node.ping_req_ack_to(rt, pass, requester, target, reached)?;
    match made {
        Ok(answer) => Ok(answer),
        Err(_) => refuse(rt, node, pass, Reason::Memory),
    }
}

/// Finds out about a target and reports to the requester.
fn report_target<R: Wait, H: PointHash, L: Link>(
    node: &LockedNode<H>,
    pass: &mut NodePass<H>,
    peers: &mut Peers<'_, R, L>,
    now: Moment,
    requester: Address,
    target: Address,
) -> Result<Message, LockError>
    requires { Fits node.now pass.old }
    ensures did { Does node.now (Reports L.may_answer requester now target) (let_in result) pass.old pass.new }
    ensures sent { Sent L.went node.now [] pass.old pass.new peers.old.link peers.new.link }
    ensures fits { Fits node.now pass.new }
{
    let found = is_reachable(node, pass, peers, now, target)?;
    tell_requester(peers.rt, node, pass, requester, target, found)
}

/// Takes the changes of a PingReq and answers about its target.
fn serve_ping_req<R: Wait, H: PointHash, L: Link>(
    node: &LockedNode<H>,
    pass: &mut NodePass<H>,
    peers: &mut Peers<'_, R, L>,
    now: Moment,
    message: &Message,
    target: Address,
) -> Result<Message, LockError>
    requires fits { Fits node.now pass.old }
    requires gossip { is_gossip message.now.content ≡ true }
    requires unanswered { is_answered message.now.content ≡ false }
    ensures did { Does node.now (PassesOn L.may_answer message.now now target) (let_in result) pass.old pass.new }
    ensures sent { Sent L.went node.now [] pass.old pass.new peers.old.link peers.new.link }
    ensures fits { Fits node.now pass.new }
{
    let received = node.receive(peers.rt, pass, message, now)?;
    match received {
        Received::Done(_) => report_target(node, pass, peers, now, message.source, target),
        Received::Stopped(stopped) => {
            let reason = reason_for(stopped.cause);
            refuse(peers.rt, node, pass, reason)
        }
        Received::Answer(_, _) | Received::NoAnswer(_) | Received::NotGossip => unreachable!(),
    }
}

/// Returns the content for a handler's answer.
fn handler_reply<R: Wait, A: HandlerMut>(
    rt: &R,
    alloc: Global,
    handler: &mut A,
    keys: &Keys,
    body: &Text,
) -> Content
    ensures { IsRouted (between A.handled handler.old handler.new) keys.now body.now (Ok Route.Here) result }
{
    let answer = handler.handle_mut(rt, alloc, keys, body);
    match answer {
        Ok(text) => Content::Reply(text),
        Err(HandlerFault::Failed) => Content::Refused(Reason::Failed),
        Err(HandlerFault::Memory) => Content::Refused(Reason::Memory),
    }
}

/// Returns the content of the answer to a request with this route.
fn reply_for_route<R: Wait, A: HandlerMut>(
    rt: &R,
    alloc: Global,
    handler: &mut A,
    keys: &Keys,
    body: &Text,
    route: Result<Route, ForwardError>,
) -> Content
    requires { IfErr route (λ e. e ≡ ForwardError.Diverged) }
    ensures { IsRouted (between A.handled handler.old handler.new) keys.now body.now route result }
{
    match route {
        Ok(Route::Here) => handler_reply(rt, alloc, handler, keys, body),
        Ok(Route::To(_)) => Content::NotOwner,
        Ok(Route::Nobody) => Content::Refused(Reason::Nobody),
        Err(_) => Content::Refused(Reason::Diverged),
    }
}

/// Returns the content of the answer to a request, by one view of the node.
fn reply_by_view<R: Wait, H: PointHash, A: HandlerMut>(
    rt: &R,
    alloc: Global,
    handler: &mut A,
    view: &View<H>,
    keys: &Keys,
    body: &Text,
) -> Content
    ensures { IsDecided H.hash_of (between A.handled handler.old handler.new) keys.now body.now view.now result }
{
    let route = route_keys(view, keys);
    reply_for_route(rt, alloc, handler, keys, body, route)
}

/// Answers a request by the handler, if one view shows that the node owns all its keys.
fn serve_forward<R: Wait, H: PointHash, A: HandlerMut>(
    rt: &R,
    alloc: Global,
    node: &LockedNode<H>,
    pass: &mut NodePass<H>,
    handler: &mut A,
    keys: &Keys,
    body: &Text,
) -> Result<Message, LockError>
    requires { Fits node.now pass.old }
    ensures did { Does node.now (Forwards H.hash_of (between A.handled handler.old handler.new) keys.now body.now) (let_in result) pass.old pass.new }
    ensures fits { Fits node.now pass.new }
{
    let view = node.view(rt, pass)?;
    let Ok(view) = view else {
        return refuse(rt, node, pass, Reason::Memory);
    };
    let content = reply_by_view(rt, alloc, handler, &view, keys, body);
    Ok(message_from(&view, content))
}

/// Answers a message at a moment. A Join, a Ping and a PingReq are processed, and answered by the node; for a PingReq
/// its target is pinged over the link, if it is another node. A Forward is answered by the handler if one view of the
/// node shows that it owns all keys: the handler is called once then, and for no other message. Any other kind is refused as unexpected, and ignored. No turn is held while the
/// link or the handler is called. An error of the node, out of memory among them, is an answer too: `Refused` with its
/// reason.
///
/// # Errors
///
/// The calls before the refused one are those of the answer, and their effect stays.
///
/// - `ForeignPass`: the pass has another node's name.
/// - `PassSpent`: the pass has made all its calls.
pub fn serve_one<R: Wait, H: PointHash, L: Link, A: HandlerMut>(
    rt: &R,
    alloc: Global,
    node: &LockedNode<H>,
    pass: &mut NodePass<H>,
    link: &mut L,
    handler: &mut A,
    now: Moment,
    message: &Message,
) -> Result<Message, LockError>
    requires { Fits node.now pass.old }
    ensures served { Does node.now (Serves H.hash_of L.may_answer (between A.handled handler.old handler.new) message.now now message.now.content) (let_in result) pass.old pass.new }
    ensures sent { Makes node.now (SendsTo L.went [] link.old link.new) pass.old pass.new }
    ensures fits { Fits node.now pass.new }
{
    match &message.content {
        Content::Join(_) | Content::Ping(_) => serve_gossip(rt, node, pass, now, message),
        Content::PingReq(_, target) => {
            let mut peers = Peers::new(rt, alloc, link);
            serve_ping_req(node, pass, &mut peers, now, message, *target)
        }
        Content::Forward(keys, body) => serve_forward(rt, alloc, node, pass, handler, keys, body),
        Content::Joined(_)
        | Content::Ack(_)
        | Content::PingReqAck(_, _, _)
        | Content::Reply(_)
        | Content::NotOwner
        | Content::Refused(_) => refuse(rt, node, pass, Reason::Unexpected),
    }
}
