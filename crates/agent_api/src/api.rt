//! The HTTP interface of an agent: the service that answers requests.
ghost use Rattle.std.specs.Prelude.{◌≡◌, ◌||◌, ◌+◌, ◌<◌, ◌≤◌, Bool, None, Option, Some, codes, true, OnOk, IfErr, IfOk, IsTrue, Ok};
ghost use Rattle.http.specs.Request.{head_of};
ghost use Rattle.http_header.specs.HeaderMap.{ContainsKey};
ghost use Rattle.http_server.specs.Response.{IsBlank};
ghost use Rattle.node_core.specs.declared.events.Event.TheVariants as call;
ghost use Rattle.node_core.specs.declared.events.Reply.TheVariants as reply;
ghost use Rattle.peer_core.specs.Acts.{Makes};
ghost use Rattle.peer_core.specs.Forwarding.{IsRequest};
ghost use Rattle.peer_core.specs.Handling.{between};
ghost use Rattle.peer_core.specs.Parts.{Does, Tries};
ghost use Rattle.peer_core.specs.Resending.{SendsRequest};
ghost use Rattle.agent_core.specs.Passing.{sent_text};
ghost use Rattle.agent_core.specs.declared.actions.Action.TheVariants as action;
ghost use Rattle.agent_api.specs.Answers.{IsAnswered, PerformsBy, Settles, ShowsTo};
ghost use Rattle.agent_api.specs.Asking.{answerer, AnyTimes};
ghost use Rattle.hash_ring.specs.Points.{hash_of};
ghost use Rattle.agent_node.specs.Calling.{HasMade};
ghost use Rattle.peer_core.specs.Links.{any_answer};
ghost use Rattle.agent_api.specs.Onces.{Noted, noted_by, sends_once};
ghost use Rattle.agent_api.specs.Patience.{asks_patiently};
ghost use Rattle.agent_api.specs.Performing.{AsksIfPlaced, AsksOwner, Finds, IsFound, IsHealth, IsLiveness, IsRequested, IsUnjoined, Outcome, Performs, SettledBy, ShowsCounts, ShowsLevel, ShowsMembers, ShowsOwners, crowded, ending_of, is_in_doubt, refusal_of};

use crate::onces::OnceLink;
use crate::patience::{Patience, Patient, early_refusal};
use agent_core::{Action, LogLevel, Outgoing, Refusal, is_live, pack_body, pack_request};
use agent_http::{
    Form, Reply, action_of, is_of_key, limit_for, put_refusal, put_reply, takes_json,
};
use agent_node::{Agent, Caller, NotedHandler, NotedLink, Phase, digest_of};
use agent_state::{Flag, Host, date, told};
use bytes::Bytes;
use change_core::{Address, Change};
use hash_ring::Sha256Hash;
use http::{Request, StatusCode};
use http_server::{Response, Service};
use log::{Level, debug, info, log_enabled};
use message_core::{Keys, Reason, Text};
use node_core::View;
use peer_core::ClusterError;
use std::alloc::{AllocError, Global};
use std::net::{IpAddr, Ipv4Addr, TcpStream};
use std::time::{Duration, Instant};
use transport::Dial;

/// Returns the refusal of a request for which memory ran out.
pub fn out_of_memory(_error: AllocError) -> Refusal
    ensures { result ≡ Refusal.Memory }
{
    Refusal::Memory
}

/// Returns the refusal for an error of the node.
pub fn refusal_of(error: ClusterError) -> Refusal
    ensures { result ≡ refusal_of error }
{
    match error {
        ClusterError::Nobody => Refusal::Nobody,
        ClusterError::RetriesSpent => Refusal::OwnerSilent,
        ClusterError::HandlerFault => Refusal::ApplicationFailed,
        ClusterError::Memory => Refusal::Memory,
        ClusterError::AlreadyLeft => Refusal::AlreadyLeft,
        ClusterError::NotLeft => Refusal::NotLeft,
        ClusterError::Exhausted => Refusal::Exhausted,
        ClusterError::ForeignPass
        | ClusterError::PassSpent
        // (no call that the API makes returns one of these)
        | ClusterError::NoNode
        | ClusterError::NoneJoined
        | ClusterError::Diverged
        | ClusterError::InFlight
        | ClusterError::NotInFlight
        | ClusterError::BadConfig(_)
        | ClusterError::Full
        | ClusterError::Busy
        | ClusterError::Spent
        | ClusterError::StaleProbe
        | ClusterError::NotAsked => Refusal::Spent,
    }
}

/// Returns the owner of a key by a view, and the node that would own it next, if there is one.
fn found_by(view: &View<Sha256Hash>, key: &Text) -> Result<(Address, Option<Address>), Refusal>
    ensures { IsFound key.now (Ok view.now) result }
{
    let Ok(owners) = view.owners(key.as_str().as_bytes(), 2) else {
        return Err(Refusal::Memory);
    };
    let owners = owners.as_slice();
    match owners.get(0) {
        Some(owner) => Ok((*owner, owners.get(1).copied())),
        None => Err(Refusal::Nobody),
    }
}

/// Returns the refusal of a request that finds no place among those that wait for an owner, at the node with its own address.
fn crowded(own: Address, owner: Address) -> Refusal
    ensures { result ≡ crowded own owner }
{
    if owner == own {
        Refusal::Busy
    } else {
        Refusal::OwnerBusy(owner)
    }
}

/// Returns the node that gave an answer: this one, if it asked its application, or else the one that the link noted.
fn answerer(own: Address, was_asked: bool, last: Option<Address>) -> Address
    ensures { result ≡ answerer own was_asked last }
{
    if was_asked { own } else { last.unwrap_or(own) }
}

/// Returns the refusal of a node that no host has admitted, which a host refused for a reason if there is one.
fn unjoined(reason: Option<Reason>) -> Refusal
    ensures { IsUnjoined result }
{
    match reason {
        Some(reason) => Refusal::JoinRefused(reason),
        None => Refusal::NotJoined,
    }
}

/// Makes the reply with the first owners of a key by a view.
fn owners_by(
    alloc: Global,
    view: &View<Sha256Hash>,
    key: &Text,
    count: usize,
) -> Result<Reply, Refusal>
    ensures { ShowsOwners key.now count view.now result }
{
    let Ok(owners) = view.owners(key.as_str().as_bytes(), count) else {
        return Err(Refusal::Memory);
    };
    if owners.as_slice().is_empty() {
        return Err(Refusal::Nobody);
    }
    Reply::owners(alloc, owners.as_slice())
}

/// Returns `ok` if at this moment fewer than ten seconds have passed since the one at which a round was due.
fn liveness(due: u64, now: u64) -> Result<Reply, Refusal>
    ensures shown { IsLiveness result }
    ensures live { IfOk result (λ reply. now < due + 10000) }
    ensures still { IfErr result (λ refused. due + 10000 ≤ now) }
{
    if is_live(due, now) {
        Ok(Reply::Line("ok\n"))
    } else {
        Err(Refusal::NoRounds)
    }
}

/// Returns the reply with the answer to a request, which this node gave, or the refusal for its error; or this refusal, if the request
/// ended early.
fn settle(
    owner: Address,
    answer: Result<Text, ClusterError>,
    ending: Option<Refusal>,
) -> Result<Reply, Refusal>
    ensures { SettledBy owner ending answer result }
{
    match answer {
        Ok(text) => Ok(Reply::Handled { owner, text }),
        Err(ClusterError::Memory) => Err(ending.unwrap_or(Refusal::Memory)),
        Err(error) => Err(refusal_of(error)),
    }
}

/// Returns whether a request may have been performed without an answer to it, as its link and its handler note.
fn is_in_doubt<R, N>(once: &OnceLink<'_, '_, R, N>, handler: &Patient<'_, '_, R>) -> bool
    ensures { result ≡ is_in_doubt handler.now.was_asked (noted_by once.now) }
{
    once.is_unsure || handler.was_asked
}

/// Returns the refusal of a request that ended early, as its link and its handler note: one of them ended it, or memory ran out where it may have been
/// performed. None if it did not end early.
fn ending_of<R, N>(
    once: &OnceLink<'_, '_, R, N>,
    handler: &Patient<'_, '_, R>,
    is_repeatable: bool,
    limit: Option<u64>,
) -> Option<Refusal>
    ensures { result ≡ ending_of (once.now.is_over || handler.now.is_over) is_repeatable limit handler.now.was_asked (noted_by once.now) }
{
    let is_unsure = is_in_doubt(once, handler);
    if once.is_over || handler.is_over || is_unsure {
        early_refusal(is_unsure, is_repeatable, limit)
    } else {
        None
    }
}

/// A request of keys, whether it may be performed twice, and the milliseconds for which it may wait, if its client limits them.
#[derive(Drop)]
struct Asking {
    keys: Keys,
    request: Text,
    is_repeatable: bool,
    limit: Option<u64>,
}

/// Has the owner of keys answer a request, over a link and by a handler that serve no other. Returns the answer, the node that gave it, and the refusal of
/// the request if it ended early.
fn ask_over<R: Host, N: Dial<Stream = TcpStream>>(
    caller: &mut Caller,
    alloc: Global,
    patience: &Patience<'_, R>,
    once: &mut OnceLink<'_, '_, R, N>,
    handler: &mut Patient<'_, '_, R>,
    asking: Asking,
) -> (Result<Text, ClusterError>, Address, Option<Refusal>)
    ensures node { caller.new.node ≡ caller.old.node }
    ensures did { Does caller.old.node (IsRequest hash_of any_answer (between asks_patiently handler.old handler.new).once AnyTimes asking.keys asking.request) result.0 caller.old.pass caller.new.pass }
    ensures sent { Makes caller.old.node (SendsRequest hash_of (sends_once {R = R} N.dialled) asks_patiently asking.keys asking.request result.0 handler.old handler.new once.old once.new) caller.old.pass caller.new.pass }
    ensures owner { result.1 ≡ answerer patience.now.agent.now.own handler.new.was_asked once.new.last }
    ensures ending { result.2 ≡ ending_of (once.new.is_over || handler.new.is_over) asking.is_repeatable asking.limit handler.new.was_asked (noted_by once.new) }
{
    let agent = patience.agent;
    let Asking {
        keys,
        request,
        is_repeatable,
        limit,
    } = asking;
    let answer = caller.request(&agent.rt, alloc, once, handler, patience, keys, request);
    let owner = answerer(agent.own, handler.was_asked, once.last);
    (
        answer,
        owner,
        ending_of(once, handler, is_repeatable, limit),
    )
}

/// The service that answers the requests of one connection.
#[derive(Drop)]
pub struct Api<'f, 'a, R> {
    pub agent: &'a Agent<R>,
    pub alloc: Global,
    /// The client's IP address, if it is known.
    pub client: Option<IpAddr>,
    pub caller: &'f mut Caller,
    pub link: &'f mut NotedLink<'a, R>,
    /// The milliseconds for which the request may wait, if its client limits them.
    pub limit: Option<u64>,
    /// Set if the request is a question about the ring for which there is no place to wait.
    pub is_turned_away: &'f Flag,
}

impl<'f, 'a, R: Host> Api<'f, 'a, R> {
    /// Has the owner of a key answer a request that is a body alone.
    fn handle(&mut self, key: Text, body: Text) -> Result<Reply, Refusal>
        ensures performed { HasMade (Performs self.old.limit self.old.agent.now.own self.old.agent.now.replicas (action.Handle key body) result) self.old.caller.now self.new.caller.now }
        ensures agent { self.new.agent ≡ self.old.agent }
    {
        match pack_body(self.alloc, body) {
            Ok(text) => self.pass(key, Outgoing::Body(text), true),
            Err(_) => Err(Refusal::Memory),
        }
    }

    /// Has the owner of a key answer a request, unless the hosts are still being asked or too many requests wait for it. Returns
    /// the answer and the owner.
    fn pass(&mut self, key: Text, request: Outgoing, is_repeatable: bool) -> Result<Reply, Refusal>
        ensures performed { HasMade (Performs self.old.limit self.old.agent.now.own self.old.agent.now.replicas (action.Pass key request is_repeatable) result) self.old.caller.now self.new.caller.now }
        ensures agent { self.new.agent ≡ self.old.agent }
    {
        if self.agent.life.is_starting.get() {
            return Err(Refusal::NotJoined);
        }
        match self.find(&key) {
            Ok(found) => self.ask_if_placed(found, key, request, is_repeatable),
            Err(refusal) => Err(refusal),
        }
    }

    /// Returns the owner of a key by this node's view, and the node that would own it next, if there is one.
    fn find(&mut self, key: &Text) -> Result<(Address, Option<Address>), Refusal>
        ensures found { HasMade (Finds key.now result) self.old.caller.now self.new.caller.now }
        ensures agent { self.new.agent ≡ self.old.agent }
        ensures limit { self.new.limit ≡ self.old.limit }
    {
        match self.caller.view(&self.agent.rt) {
            Ok(view) => found_by(&view, key),
            Err(error) => Err(refusal_of(error)),
        }
    }

    /// Has the owner of a key, which this node's view gave, answer a request, unless too many wait for that owner.
    fn ask_if_placed(
        &mut self,
        found: (Address, Option<Address>),
        key: Text,
        request: Outgoing,
        is_repeatable: bool,
    ) -> Result<Reply, Refusal>
        ensures asked { HasMade (AsksIfPlaced self.old.limit self.old.agent.now.own key request is_repeatable result (Ok found)) self.old.caller.now self.new.caller.now }
        ensures agent { self.new.agent ≡ self.old.agent }
    {
        let agent = self.agent;
        let (owner, next) = found;
        if !agent.waiting.take(&agent.rt, agent.own, owner) {
            return Err(crowded(agent.own, owner));
        }
        let reply = self.send(key, request, next, is_repeatable);
        agent.waiting.give_back(&agent.rt, agent.own, owner);
        reply
    }

    /// Has the owner of a key answer a request, which tells the next owner. Returns the answer and the node that gave it.
    fn send(
        &mut self,
        key: Text,
        request: Outgoing,
        next: Option<Address>,
        is_repeatable: bool,
    ) -> Result<Reply, Refusal>
        ensures asked { HasMade (AsksOwner self.old.limit self.old.agent.now.own key (sent_text next request) is_repeatable result) self.old.caller.now self.new.caller.now }
        ensures agent { self.new.agent ≡ self.old.agent }
    {
        match pack_request(self.alloc, request, next) {
            Ok(text) => self.ask_owner(key, text, is_repeatable),
            Err(_) => Err(Refusal::Memory),
        }
    }

    /// Has the owner of a key answer the request that a text has, and returns the answer and the node that gave it.
    fn ask_owner(&mut self, key: Text, request: Text, is_repeatable: bool) -> Result<Reply, Refusal>
        ensures asked { HasMade (AsksOwner self.old.limit self.old.agent.now.own key request is_repeatable result) self.old.caller.now self.new.caller.now }
        ensures agent { self.new.agent ≡ self.old.agent }
    {
        let agent = self.agent;
        let Ok(keys) = Keys::new(self.alloc, key) else {
            return Err(Refusal::Memory);
        };
        let (answer, owner, ending) = self.ask(keys, request, is_repeatable);
        settle(owner, answer, ending)
    }

    /// Returns the answer to a request whose wait has no limit and which may be performed twice, and the node that gave it.
    fn ask_whole(&mut self, keys: Keys, request: Text) -> (Result<Text, ClusterError>, Address)
        ensures requested { (asked : Bool) × (noted : Noted) × (result.1 ≡ answerer self.old.agent.now.own asked noted.last)
            × HasMade (IsRequested true asked noted keys request result.0) self.old.caller.now self.new.caller.now }
        ensures agent { self.new.agent ≡ self.old.agent }
    {
        let agent = self.agent;
        let (rt, alloc, clock) = (&agent.rt, self.alloc, agent.clock());
        let mut handler = NotedHandler::new(&agent.application);
        self.link.last = None;
        let link = &mut *self.link;
        let answer = self
            .caller
            .request(rt, alloc, link, &mut handler, &clock, keys, request);
        let owner = answerer(agent.own, handler.was_asked, self.link.last);
        (answer, owner)
    }

    /// Returns the answer to a request that may end early, the node that gave it, and the refusal of the request if it ended early.
    fn ask_once(
        &mut self,
        keys: Keys,
        request: Text,
        is_repeatable: bool,
    ) -> (Result<Text, ClusterError>, Address, Option<Refusal>)
        ensures requested { (asked : Bool) × (noted : Noted) × (result.1 ≡ answerer self.old.agent.now.own asked noted.last)
            × ((is_over : Bool) × (result.2 ≡ ending_of is_over is_repeatable self.old.limit asked noted))
            × HasMade (IsRequested is_repeatable asked noted keys request result.0) self.old.caller.now self.new.caller.now }
        ensures agent { self.new.agent ≡ self.old.agent }
    {
        let (agent, alloc) = (self.agent, self.alloc);
        let patience = Patience::begin(agent, self.limit);
        let mut handler = Patient::new(&patience);
        let mut once = OnceLink::new(&patience, &mut *self.link, agent.rt, is_repeatable);
        let asking = Asking {
            keys,
            request,
            is_repeatable,
            limit: self.limit,
        };
        ask_over(
            &mut *self.caller,
            alloc,
            &patience,
            &mut once,
            &mut handler,
            asking,
        )
    }

    /// Returns the answer to a request, the node that gave it, and the refusal of the request if it ended early: one that may not be performed twice is sent
    /// again only while no node can have performed it, and one whose wait is over is not sent again.
    fn ask(
        &mut self,
        keys: Keys,
        request: Text,
        is_repeatable: bool,
    ) -> (Result<Text, ClusterError>, Address, Option<Refusal>)
        ensures requested { (asked : Bool) × (noted : Noted) × (result.1 ≡ answerer self.old.agent.now.own asked noted.last)
            × ((is_over : Bool) × (result.2 ≡ ending_of is_over is_repeatable self.old.limit asked noted))
            × HasMade (IsRequested is_repeatable asked noted keys request result.0) self.old.caller.now self.new.caller.now }
        ensures agent { self.new.agent ≡ self.old.agent }
    {
        if is_repeatable && self.limit.is_none() {
            let (answer, owner) = self.ask_whole(keys, request);
            return (answer, owner, None);
        }
        self.ask_once(keys, request, is_repeatable)
    }

    /// Returns the first owners of a key, unless the hosts are still being asked.
    fn owners(&mut self, key: &Text, count: usize) -> Result<Reply, Refusal>
        ensures performed { HasMade (Performs self.old.limit self.old.agent.now.own self.old.agent.now.replicas (action.Owners key.now count) result) self.old.caller.now self.new.caller.now }
        ensures agent { self.new.agent ≡ self.old.agent }
    {
        if self.agent.life.is_starting.get() {
            return Err(Refusal::NotJoined);
        }
        match self.caller.view(&self.agent.rt) {
            Ok(view) => owners_by(self.alloc, &view, key, count),
            Err(error) => Err(refusal_of(error)),
        }
    }

    /// Makes the reply with these members and their digest.
    fn show_members(&self, members: &[Change]) -> Result<Reply, Refusal>
        ensures { ShowsMembers self.now.agent.now.own self.now.agent.now.replicas members.now result }
    {
        let digest = digest_of(self.alloc, members).map_err(out_of_memory)?;
        let (own, replicas) = (self.agent.own, self.agent.replicas);
        Reply::members(self.alloc, own, &digest, replicas, members)
    }

    /// Returns the members, with their digest.
    fn members(&mut self) -> Result<Reply, Refusal>
        ensures performed { HasMade (Performs self.old.limit self.old.agent.now.own self.old.agent.now.replicas action.Members result) self.old.caller.now self.new.caller.now }
        ensures agent { self.new.agent ≡ self.old.agent }
    {
        match self.caller.members(&self.agent.rt) {
            Ok(members) => self.show_members(members.as_slice()),
            Err(error) => Err(refusal_of(error)),
        }
    }

    /// Makes the reply with the counts, and these members by status.
    fn show_counts(&self, members: &[Change]) -> Result<Reply, Refusal>
        ensures { ShowsCounts members.now result }
    {
        let counts = self.agent.counts();
        Reply::metrics(self.alloc, &counts, members)
    }

    /// Returns the counts, with the members by status.
    fn metrics(&mut self) -> Result<Reply, Refusal>
        ensures performed { HasMade (Performs self.old.limit self.old.agent.now.own self.old.agent.now.replicas action.Metrics result) self.old.caller.now self.new.caller.now }
        ensures agent { self.new.agent ≡ self.old.agent }
    {
        match self.caller.members(&self.agent.rt) {
            Ok(members) => self.show_counts(members.as_slice()),
            Err(error) => Err(refusal_of(error)),
        }
    }

    /// Returns the digest of the members.
    fn digest(&mut self) -> Result<Reply, Refusal>
        ensures performed { HasMade (Performs self.old.limit self.old.agent.now.own self.old.agent.now.replicas action.Digest result) self.old.caller.now self.new.caller.now }
        ensures agent { self.new.agent ≡ self.old.agent }
    {
        match self.caller.digest(&self.agent.rt) {
            Ok(digest) => Reply::digest(self.alloc, &digest),
            Err(error) => Err(refusal_of(error)),
        }
    }

    /// Has the node leave. The caller holds `moving`.
    fn depart(&mut self) -> Result<Change, ClusterError>
        ensures agent { self.new.agent ≡ self.old.agent }
        ensures node { self.new.caller.now.node ≡ self.old.caller.now.node }
        ensures did { Does self.old.caller.now.node (Tries call.Leave reply.Leave) result self.old.caller.now.pass self.new.caller.now.pass }
    {
        let left = self.caller.leave(&self.agent.rt);
        if left.is_ok() {
            self.agent.life.set_left();
        }
        left
    }

    /// Has the node leave.
    fn leave(&mut self) -> Result<Reply, Refusal>
        ensures performed { HasMade (Performs self.old.limit self.old.agent.now.own self.old.agent.now.replicas action.Leave result) self.old.caller.now self.new.caller.now }
        ensures agent { self.new.agent ≡ self.old.agent }
    {
        let agent = self.agent;
        let mut watch = agent.life.moving.lock(&agent.rt);
        watch.hold();
        match self.depart() {
            Ok(_) => Ok(Reply::Line("left\n")),
            Err(error) => Err(refusal_of(error)),
        }
    }

    /// Has the node leave, unless it has left already, and the agent end.
    fn stop(&mut self) -> Result<Reply, Refusal>
        ensures performed { HasMade (Performs self.old.limit self.old.agent.now.own self.old.agent.now.replicas action.Stop result) self.old.caller.now self.new.caller.now }
        ensures agent { self.new.agent ≡ self.old.agent }
    {
        let agent = self.agent;
        let _moving = agent.life.moving.lock(&agent.rt);
        match self.depart() {
            Ok(_) | Err(ClusterError::AlreadyLeft) => {
                agent.life.is_stopping.set(true);
                agent.life.wake.unpark();
                Ok(Reply::Line("stopping\n"))
            }
            Err(error) => Err(refusal_of(error)),
        }
    }

    /// Has the node come back, unless the agent is to end.
    fn rejoin(&mut self) -> Result<Reply, Refusal>
        ensures performed { HasMade (Performs self.old.limit self.old.agent.now.own self.old.agent.now.replicas action.Rejoin result) self.old.caller.now self.new.caller.now }
        ensures agent { self.new.agent ≡ self.old.agent }
    {
        let agent = self.agent;
        let _moving = agent.life.moving.lock(&agent.rt);
        if agent.life.is_stopping.get() {
            return Err(Refusal::HasLeft);
        }
        match agent.come_back(self.caller) {
            Ok(_) => Ok(Reply::Line("back\n")),
            Err(error) => Err(refusal_of(error)),
        }
    }

    /// Returns `ok` if the agent handles requests, and else why it does not.
    fn health(&self) -> Result<Reply, Refusal>
        ensures { IsHealth result }
    {
        match self.agent.phase() {
            Phase::Joining => Err(unjoined(self.agent.refused.join(&self.agent.rt))),
            Phase::Left => Err(Refusal::HasLeft),
            Phase::Awaiting => Err(Refusal::ApplicationAwaited),
            Phase::Serving if self.agent.is_failing_to_accept() => Err(Refusal::CannotAccept),
            Phase::Serving => match self.agent.application.is_up() {
                Ok(true) => Ok(Reply::Line("ok\n")),
                Ok(false) => Err(Refusal::ApplicationDown),
                Err(_) => Err(Refusal::CannotAccept),
            },
        }
    }

    /// Returns `ok` if the agent makes rounds, whether it handles requests or not: the last one ended, or the agent started, less than a period and
    /// ten seconds ago.
    fn liveness(&self) -> Result<Reply, Refusal>
        ensures { IsLiveness result }
    {
        let agent = self.agent;
        let due = agent.life.last_round.get().saturating_add(agent.period);
        liveness(due, agent.now().number())
    }

    /// Returns the level of the log.
    fn show_level(&self) -> Result<Reply, Refusal>
        ensures { ShowsLevel None result }
    {
        let level = self.agent.log().sink().level();
        Reply::level(self.alloc, level, None)
    }

    /// Sets the level of the log. Returns it, and the one before.
    fn set_level(&self, level: LogLevel) -> Result<Reply, Refusal>
        ensures { ShowsLevel (Some level) result }
    {
        let log = self.agent.log();
        let before = log.sink().level();
        let reply = Reply::level(self.alloc, level, Some(before));
        if reply.is_ok() {
            log.sink().set_level(level);
            info!(log; "the level of the log is {}, was {}", level.name(), before.name());
        }
        reply
    }

    /// Returns the level of the log, which is this one from then on, if there is one.
    fn log_level(&self, level: Option<LogLevel>) -> Result<Reply, Refusal>
        ensures { ShowsLevel level result }
    {
        match level {
            Some(level) => self.set_level(level),
            None => self.show_level(),
        }
    }

    /// Performs an action, and returns its reply.
    fn act(&mut self, action: Action) -> Result<Reply, Refusal>
        ensures performed { HasMade (Performs self.old.limit self.old.agent.now.own self.old.agent.now.replicas action result) self.old.caller.now self.new.caller.now }
        ensures agent { self.new.agent ≡ self.old.agent }
    {
        match action {
            Action::Handle { key, body } => self.handle(key, body),
            Action::Pass {
                key,
                request,
                is_repeatable,
            } => self.pass(key, request, is_repeatable),
            Action::Owners { key, count } => self.owners(&key, count),
            Action::AllOwners {
                keys,
                count,
                only_others,
            } => self.all_owners(&keys, count, only_others),
            Action::Ring { after } => self.ring(after.as_ref()),
            Action::Members => self.members(),
            Action::Metrics => self.metrics(),
            Action::Digest => self.digest(),
            Action::Health => self.health(),
            Action::Live => self.liveness(),
            Action::Log { level } => self.log_level(level),
            Action::Page => Ok(Reply::Page),
            Action::Leave => self.leave(),
            Action::Rejoin => self.rejoin(),
            Action::Stop => self.stop(),
        }
    }

    /// Performs an action with this limit of its wait, if there is one.
    fn act_within(
        &mut self,
        limit: Result<Option<u64>, Refusal>,
        action: Action,
    ) -> Result<Reply, Refusal>
        ensures performed { HasMade (PerformsBy limit self.old.agent.now.own self.old.agent.now.replicas action result) self.old.caller.now self.new.caller.now }
        ensures agent { self.new.agent ≡ self.old.agent }
    {
        match limit {
            Ok(limit) => {
                self.limit = limit;
                self.act(action)
            }
            Err(refusal) => Err(refusal),
        }
    }

    /// Returns the reply to a request.
    fn reply(&mut self, request: &Request<Bytes>) -> Result<Reply, Refusal>
        ensures settled { HasMade (Settles self.old.agent.now.own self.old.agent.now.replicas self.old.agent.now.key_field request.now result) self.old.caller.now self.new.caller.now }
        ensures agent { self.new.agent ≡ self.old.agent }
    {
        match action_of(self.alloc, request, &self.agent.key_field, &self.client) {
            Ok(action) => {
                let limit = limit_for(request, &action);
                self.act_within(limit, action)
            }
            Err(refusal) => Err(refusal),
        }
    }

    /// Counts a request of a key by its reply and its time.
    fn count(&self, reply: &Result<Reply, Refusal>, start: Option<Instant>) {
        let counters = &self.agent.counters;
        counters.add_answer(reply);
        match reply {
            Ok(_) => counters.answered.add(1),
            Err(refusal) if refusal.status() < 500 => counters.refused.add(1),
            Err(_) => counters.failed.add(1),
        }
        counters.requests.add_since(&self.agent.rt, start);
    }

    /// Logs a request by its reply and its time, if the level of the log is debug.
    fn log(
        &self,
        request: &Request<Bytes>,
        reply: &Result<Reply, Refusal>,
        start: Option<Instant>,
    ) {
        let agent = self.agent;
        if !log_enabled!(agent.log(); Level::Debug) {
            return;
        }
        let (status, is_of_service) = told(reply);
        let by = if is_of_service { "service" } else { "agent" };
        let spent = start.and_then(|start| start.elapsed(&agent.rt).ok());
        let micros = spent.unwrap_or(Duration::ZERO).as_micros();
        let client = self.client.unwrap_or(IpAddr::V4(Ipv4Addr::UNSPECIFIED));
        debug!(
            agent.log();
            "{} {} {status} {by} {}.{:03} ms {client}",
            request.method().as_str(),
            request.uri().path(),
            micros / 1_000,
            micros % 1_000
        );
    }

    /// Returns whether the connection is closed after the answer: the agent is to end, another client waits for its place, or the worker needs another
    /// pass, which it takes between connections.
    fn closes(&self) -> bool {
        let agent = self.agent;
        agent.life.is_stopping.get() || agent.http.is_wanted() || self.caller.is_spent()
    }

    /// Returns the form of the answer to a request.
    fn form(&self, request: &Request<Bytes>) -> Form
        ensures { IsTrue result.is_json → ContainsKey (head_of request.now).headers (codes "accept") }
    {
        Form {
            closes: self.closes(),
            is_json: takes_json(request),
            date: date(&self.agent.rt),
        }
    }

    /// Writes the reply to a request, or its refusal, counts it and logs it.
    fn answer(
        &mut self,
        request: &Request<Bytes>,
        response: &mut Response,
    ) -> Result<(), AllocError>
        requires { IsBlank response.old }
        ensures answered { (outcome : Outcome) × HasMade (Settles self.old.agent.now.own self.old.agent.now.replicas self.old.agent.now.key_field request.now outcome) self.old.caller.now self.new.caller.now
            × OnOk result (ShowsTo request.now outcome response.new) }
        ensures agent { self.new.agent ≡ self.old.agent }
    {
        let start = Instant::now(&self.agent.rt).ok();
        let reply = self.reply(request);
        if is_of_key(request, &self.agent.key_field) {
            self.count(&reply, start);
        }
        if matches!(&reply, Err(Refusal::Memory)) {
            self.agent.counters.allocation_failures.add(1);
        }
        self.log(request, &reply, start);
        let form = self.form(request);
        match &reply {
            Ok(reply) => put_reply(self.alloc, response, reply, &form),
            Err(refusal) => put_refusal(self.alloc, response, refusal, &form),
        }
    }
}

impl<'f, 'a, R: Host> Service for Api<'f, 'a, R> {
    // The response answers the request, after calls of the node by the thread's pass.
    ghost answers = { λ old request response new. (new.agent ≡ old.agent)
        × HasMade (IsAnswered old.agent.now.own old.agent.now.replicas old.agent.now.key_field request response) old.caller.now new.caller.now };

    fn call(
        &mut self,
        request: &Request<Bytes>,
        response: &mut Response,
    ) -> Result<(), AllocError> {
        if self.answer(request, response).is_err() {
            // (this allocates nothing)
            response.clear();
            response.status = StatusCode::SERVICE_UNAVAILABLE;
        }
        Ok(())
    }
}
