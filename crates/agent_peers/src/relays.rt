//! Requests that other nodes sent to this one though it does not own them: they are passed on to the owner, and its reply
//! goes back.
ghost use Rattle.std.specs.Prelude.{◌≡◌, ◌≢◌, ◌≤◌, ◌↔◌, ◌/◌, cond, IfNone, IfSome, IsTrue, None};
ghost use Rattle.peer_core.specs.Acts.{Then};
ghost use Rattle.peer_core.specs.Serving.{message_by};
ghost use Rattle.agent_node.specs.Calling.{HasMade};
ghost use Rattle.agent_peers.specs.Relays.{Chooses, HasNoOwnerBy, IsOwnerBy, IsNotReturned, IsPassedOn, IsRelayOf, IsRelayed, IsRelayedAs, Keeps, MayJoin, Meets, Names, NamesNobody, OnlyLooks, Withholds, sent_back};

use crate::peers::Job;
use agent_node::{Agent, Caller, NotedLink};
use agent_state::Host;
use change_core::{Address, Change, Moment};
use hash_ring::Sha256Hash;
use line_service::Input;
use message_core::{Content, Message};
use node_core::View;
use peer_core::{Link, LinkError};
use std::alloc::Global;
use std::sync::Wait;
use wire_json::encode;

/// The most milliseconds from the moment at which a request came until it is answered. The node that sent it waits 5,000
/// for an answer.
const MAX_WAIT: u64 = 4_500;

/// The most milliseconds that the owner of a request that is passed on has to answer: the 4,000 that its application has,
/// and 100 for the way there and back. With less time left a request is not passed on: this node would stop waiting while an
/// owner that is not late performs the request.
const MAX_RELAY: u64 = 4_100;

/// The result of a request that was to be passed on.
#[derive(Debug, Drop)]
pub enum Relayed {
    /// The owner replied by this line.
    Reply(Vec<u8>),
    /// The owner replied, and memory ran out for its line.
    Lost,
    /// There is no reply, though the owner may have performed the request.
    NoReply,
    /// No other node performed the request.
    NotDone,
}

/// Returns what goes back for a request by what came of passing it on: the line of the Reply that came, or nothing, since the owner may have performed it.
/// None if and only if no other node performed it: then this one answers.
pub fn line_after(relayed: Relayed) -> Option<Option<Vec<u8>>>
    ensures again { IfNone result (relayed ≡ Relayed.NotDone) }
    ensures sent { IfSome result (λ line. (relayed ≢ Relayed.NotDone) × (line ≡ sent_back relayed)) }
{
    match relayed {
        Relayed::Reply(line) => Some(Some(line)),
        Relayed::Lost | Relayed::NoReply => Some(None),
        Relayed::NotDone => None,
    }
}

/// Returns how many milliseconds a request that came at this moment has left.
pub fn millis_left<R: Host>(agent: &Agent<R>, since: Moment) -> u64
    ensures { result ≤ MAX_WAIT }
{
    let waited = agent.now().number().saturating_sub(since.number());
    MAX_WAIT.saturating_sub(waited)
}

/// Returns whether these milliseconds are enough to pass a request on.
fn has_time(left: u64) -> bool
    ensures { IsTrue result ↔ MAX_RELAY ≤ left }
{
    left >= MAX_RELAY
}

/// Makes a link by which a request is passed on: it waits for an answer as long as an owner may take.
pub fn relay_link<R: Host>(agent: &Agent<R>) -> NotedLink<'_, R>
    ensures { result.last ≡ None }
{
    NotedLink::within(agent, MAX_RELAY)
}

/// Returns the owner of a request of one key by a view, if it is another node than the one whose view it is. None for a
/// request of several keys: an agent sends none.
fn owner_by(view: &View<Sha256Hash>, request: &Content) -> Option<Address>
    ensures named { IfSome result (IsOwnerBy view.now request.now) }
    ensures unnamed { IfNone result (HasNoOwnerBy view.now request.now) }
{
    let Content::Forward(keys, _) = request else {
        return None;
    };
    if keys.len() > 1 {
        return None;
    }
    let owner = view.owner(keys.get(0)?.as_str().as_bytes())?;
    if owner == view.own() {
        None
    } else {
        Some(owner)
    }
}

/// Returns the owner of a request by this node's view, if it is another node.
fn owner_of<R: Host>(agent: &Agent<R>, caller: &mut Caller, request: &Message) -> Option<Address>
    ensures named { IfSome result (λ owner. HasMade (Names request.now owner) caller.old caller.new) }
    ensures unnamed { IfNone result (HasMade (NamesNobody request.now) caller.old caller.new) }
    ensures quiet { HasMade OnlyLooks caller.old caller.new }
{
    let Ok(view) = caller.view(&agent.rt) else {
        return None;
    };
    owner_by(&view, &request.content)
}

/// Sends a Join to the sender of a request, if enough time is left. Returns whether its Joined came.
fn meet_sender<R: Host, L: Link>(
    agent: &Agent<R>,
    alloc: Global,
    caller: &mut Caller,
    link: &mut L,
    request: &Message,
    since: Moment,
) -> bool
    ensures met { IsTrue result → HasMade (Meets L.may_answer L.went request.now link.old link.new) caller.old caller.new }
    ensures tried { HasMade (MayJoin L.may_answer L.went request.now link.old link.new) caller.old caller.new }
{
    if !has_time(millis_left(agent, since)) {
        return false;
    }
    let joined = caller.join(&agent.rt, alloc, link, request.source, agent.now());
    joined.is_ok()
}

/// Returns the owner of a request by this node's view, after a Join to the request's sender. None also if that is the
/// sender, unless this node has left.
fn owner_after_join<R: Host>(
    agent: &Agent<R>,
    caller: &mut Caller,
    request: &Message,
) -> Option<Address>
    ensures chosen { IfSome result (λ owner. HasMade (Then (Names request.now owner) (IsNotReturned request.now owner)) caller.old caller.new) }
    ensures quiet { HasMade OnlyLooks caller.old caller.new }
{
    let owner = owner_of(agent, caller, request)?;
    let Ok(own) = caller.own(&agent.rt) else {
        return None;
    };
    if owner == request.source && own.status.serving() {
        return None;
    }
    Some(owner)
}

/// Returns the owner of a request by this node's view, if it is another node to which the request may be sent. If the sender
/// is the owner by that view, one of the two holds old members: a Join and its answer tell each the other's entry. Only a
/// node that has left sends a request back to its sender then.
fn agreed_owner<R: Host, L: Link>(
    agent: &Agent<R>,
    alloc: Global,
    caller: &mut Caller,
    link: &mut L,
    request: &Message,
    since: Moment,
) -> Option<Address>
    ensures chosen { IfSome result (λ owner. HasMade (Chooses L.may_answer L.went request.now owner link.old link.new) caller.old caller.new) }
    ensures withheld { IfNone result (HasMade (Withholds L.may_answer L.went request.now link.old link.new) caller.old caller.new) }
    ensures kept { IfNone result (HasMade (Keeps request.now) caller.old caller.new) }
{
    let owner = owner_of(agent, caller, request)?;
    if owner != request.source {
        return Some(owner);
    }
    if !meet_sender(agent, alloc, caller, link, request, since) {
        return None;
    }
    owner_after_join(agent, caller, request)
}

/// Returns what the owner's answer makes of a request that was sent to it. Only a `NotOwner` and a link that sends nothing
/// more show that the owner did not perform it.
fn relayed_as(alloc: Global, answer: &Result<Message, LinkError>) -> Relayed
    ensures { IsRelayedAs answer.now result }
{
    match answer {
        Ok(message) => match &message.content {
            Content::Reply(_) => match encode(alloc, message) {
                Ok(line) => Relayed::Reply(line),
                Err(_) => Relayed::Lost,
            },
            Content::NotOwner => Relayed::NotDone,
            _ => Relayed::NoReply,
        },
        Err(LinkError::Spent) => Relayed::NotDone,
        Err(_) => Relayed::NoReply,
    }
}

/// Sends a request to an owner once, as a message of the node with this entry, and gives the request its source back. Returns
/// what came of it.
fn pass_on<W: Wait, L: Link>(
    rt: &W,
    alloc: Global,
    link: &mut L,
    own: &Change,
    owner: Address,
    request: &mut Message,
) -> Relayed
    ensures relayed { IsRelayed L.may_answer L.went owner (message_by own.now request.old.content) result link.old link.new }
    ensures same { request.new ≡ request.old }
{
    let (source, incarnation) = (request.source, request.source_incarnation);
    request.source = own.address;
    request.source_incarnation = own.incarnation;
    let answer = link.call(rt, alloc, owner, request);
    request.source = source;
    request.source_incarnation = incarnation;
    relayed_as(alloc, &answer)
}

/// Counts a Reply for whose line memory ran out.
fn count_lost<R: Host>(agent: &Agent<R>, relayed: &Relayed) {
    if matches!(relayed, Relayed::Lost) {
        agent.counters.allocation_failures.add(1);
    }
}

/// Passes a request that came at this moment on to its owner, if it is another node and enough time is left. Returns what
/// came of it, `NotDone` also if it was not sent. The request is unchanged.
fn ask_owner<R: Host, L: Link>(
    agent: &Agent<R>,
    alloc: Global,
    caller: &mut Caller,
    link: &mut L,
    request: &mut Message,
    since: Moment,
) -> Relayed
    ensures passed { IsPassedOn L.may_answer L.went request.old result link.old link.new caller.old caller.new }
    ensures same { request.new ≡ request.old }
{
    let Some(owner) = agreed_owner(agent, alloc, caller, link, request, since) else {
        return Relayed::NotDone;
    };
    let Ok(own) = caller.own(&agent.rt) else {
        return Relayed::NotDone;
    };
    if !has_time(millis_left(agent, since)) {
        return Relayed::NotDone;
    }
    agent.counters.passed_on.add(1);
    let relayed = pass_on(&agent.rt, alloc, link, &own, owner, request);
    count_lost(agent, &relayed);
    relayed
}

/// Returns how many requests are relayed at a time, at most: as many as half of the hands, so that the others answer what
/// this node owns. A node that has left owns nothing: as many as all of them.
fn most_relayed(hands: u32, has_left: bool) -> u64
    ensures { result ≡ cond has_left hands (hands / 2) }
{
    let hands = u64::from(hands);
    if has_left { hands } else { hands / 2 }
}

/// Passes a request on to its owner, unless too many others are being relayed: then nothing is sent, not even a Join.
/// Returns what came of it, `NotDone` also if this node is the owner now. The request is unchanged.
pub fn relay<R: Host, L: Link>(
    agent: &Agent<R>,
    alloc: Global,
    caller: &mut Caller,
    link: &mut L,
    job: &mut Job,
) -> Relayed
    ensures relayed { IsRelayOf L.may_answer L.went job.old.input result link.old link.new caller.old caller.new }
    ensures same { job.new.input ≡ job.old.input }
{
    let Input::Message(request) = &mut job.input else {
        return Relayed::NotDone;
    };
    let most = most_relayed(agent.budget.hands, agent.life.has_left.get());
    if !agent.relaying.add_below(most) {
        return Relayed::NotDone;
    }
    let relayed = ask_owner(agent, alloc, caller, link, request, job.since);
    agent.relaying.subtract(1);
    relayed
}
