//! Rounds of gossip, and the last ones before the end.
ghost use Rattle.std.specs.Prelude.{◌≡◌, is_err};
ghost use Rattle.agent_core.specs.Warnings.{told};
ghost use Rattle.agent_node.specs.Calling.{HasMade};
ghost use Rattle.agent_peers.specs.Rounds.{AsksRing, MakesRound, healing_seed, silent_in};

use crate::hosts::MAX_FIRST_WAIT;
use crate::tombstones::meet_tombstone;
use agent_core::{Notice, Refutations, Tombstones, are_many_addresses};
use agent_node::{Agent, AgentError, Caller, NotedLink};
use agent_state::{Counters, Host, System, is_refuted, log_changes, log_since_start};
use change_core::{Address, Change, Digest, MAX_MEMBERS, Moment};
use log::{info, warn};
use node_core::ChangeList;
use peer_core::{ClusterError, Healing, Round};
use std::alloc::Global;
use std::sync::Arc;
use std::thread;
use std::time::{Duration, Instant};

/// The number of rounds that spread that the node has left, before the agent ends.
const LAST_ROUNDS: u64 = 10;

/// The state that the thread of the rounds keeps from one round to the next.
#[derive(Drop)]
struct Rounds<'a, R> {
    agent: &'a Agent<R>,
    alloc: Global,
    caller: Caller,
    link: NotedLink<'a, R>,
    /// The last rounds that were made.
    last: u64,
    /// The lists of hosts that rounds have healed by.
    lists: u32,
    tombstones: Tombstones,
    /// The node's own entry before it met any other node.
    initial: Option<Change>,
    /// The members at the last logged change, or after the hosts were first asked, and their digest.
    members: Option<ChangeList>,
    digest: Option<Digest>,
    /// The digest of the members whose ring was noted for the questions that wait.
    noted: Option<Digest>,
    refutations: Refutations,
    /// What the log said last of the rounds, and of healing.
    round_notice: Notice,
    healing_notice: Notice,
}

/// The members after they changed, their digest, and whether this node left or came back in the meantime.
#[derive(Drop)]
struct Changed {
    members: ChangeList,
    digest: Digest,
    has_moved: bool,
}

/// Returns the member that a round could not reach, if there is one.
fn silent_in(round: &Result<Round, ClusterError>) -> Option<Address>
    ensures { result ≡ silent_in round.now }
{
    match round {
        Ok(Round::Suspected(suspected)) => Some(*suspected),
        _ => None,
    }
}

/// Returns the seed of healing at the node with its own address after this number of lists of hosts, as the address that healing takes: the node's own for
/// the first list, and another for each later one, so that it does not draw again what it drew for the list before.
fn healing_seed(own: Address, lists: u32) -> Address
    ensures { result ≡ healing_seed own lists }
{
    Address::new(own.ip().wrapping_add(lists), own.port()).unwrap_or(own)
}

/// Counts a round by its end. One that ran out of memory counts as a failed allocation, not as an error.
fn count_round(counters: &Counters, round: &Result<Round, ClusterError>) {
    let count = match round {
        Ok(Round::Idle) => &counters.idle,
        Ok(Round::Reached(_)) => &counters.reached,
        Ok(Round::Suspected(_)) => &counters.suspected,
        Ok(Round::Inconclusive(_)) => &counters.inconclusive,
        Err(ClusterError::Memory) => &counters.allocation_failures,
        Err(_) => &counters.broken,
    };
    count.add(1);
}

impl<'a, R: Host> Rounds<'a, R> {
    /// Returns the members if they changed since they were last logged; None also if the node does not tell them.
    #[tactic(auto, using(crate::proofs::Reading::asks_both, crate::proofs::Reading::asks_digest, crate::proofs::Reading::asks_nothing))]
    fn changed(&mut self) -> Option<Changed>
        ensures { HasMade AsksRing self.old.caller self.new.caller }
    {
        let agent = self.agent;
        let _moving = agent.life.moving.lock(&agent.rt);
        let digest = self.caller.digest(&agent.rt).ok()?;
        if self.digest == Some(digest) {
            return None;
        }
        let members = self.caller.members(&agent.rt).ok()?;
        let has_moved = agent.life.has_moved.get();
        agent.life.has_moved.set(false);
        Some(Changed {
            members,
            digest,
            has_moved,
        })
    }

    /// Logs how the members changed since they were last logged; `round` is the last round. Returns whether this node's own
    /// entry was refuted.
    #[tactic(auto, using(crate::proofs::Reading::asks_nothing))]
    fn log_members(&mut self, round: &Result<Round, ClusterError>) -> bool
        ensures { HasMade AsksRing self.old.caller self.new.caller }
    {
        let agent = self.agent;
        if agent.life.is_starting.get() {
            return false;
        }
        let Some(changed) = self.changed() else {
            return false;
        };
        let after = changed.members.as_slice();
        let has_moved = changed.has_moved;
        let mut is_own = false;
        let mut used = 0;
        if let Some(before) = &self.members {
            let before = before.as_slice();
            let silent = silent_in(round);
            log_changes(&agent.log(), &agent.own, before, after, &silent, has_moved);
            is_own = !has_moved && is_refuted(&agent.own, before, after);
            agent.counters.add_changes(agent.own, before, after);
            agent.counters.refuted.add(is_own as u64);
            used = before.len();
        } else if let Some(initial) = &self.initial {
            log_since_start(&agent.log(), initial, after, has_moved);
        }
        self.warn_of_addresses(used, after);
        agent
            .counters
            .note_members(agent.own, after, &changed.digest);
        self.members = Some(changed.members);
        self.digest = Some(changed.digest);
        is_own
    }

    /// Notes the ring for the application, and its digest for the questions that wait until it changes; none if memory runs out for it, so that they are answered.
    /// The next round tries again then.
    #[tactic(auto, using(crate::proofs::Reading::asks_both, crate::proofs::Reading::asks_digest, crate::proofs::Reading::asks_nothing))]
    fn note_ring(&mut self)
        ensures { HasMade AsksRing self.old.caller self.new.caller }
    {
        let agent = self.agent;
        if agent.life.is_starting.get() {
            return;
        }
        let Ok(digest) = self.caller.digest(&agent.rt) else {
            return;
        };
        if self.noted == Some(digest) {
            return;
        }
        let ring = match self.caller.members(&agent.rt) {
            Ok(members) => {
                let members = members.as_slice();
                agent.teller.note(&agent.rt, self.alloc, agent.own, members)
            }
            Err(_) => None,
        };
        self.noted = if ring.is_some() { Some(digest) } else { None };
        agent.watchers.note(&agent.rt, ring);
    }

    /// Has the application told now that the node leaves, whatever failed before.
    fn tell_of_end(&mut self)
        ensures { HasMade AsksRing self.old.caller self.new.caller }
    {
        self.note_ring();
        self.agent.teller.hurry();
    }

    /// Has the questions answered for which the ring has changed.
    fn answer_questions(&mut self)
        ensures { HasMade AsksRing self.old.caller self.new.caller }
    {
        self.note_ring();
        let agent = self.agent;
        let now = agent.now().number();
        agent
            .watchers
            .answer_due(&agent.rt, now, agent.life.is_stopping.get());
    }

    /// Warns if many of the addresses that there can be are used; `before` is how many were.
    fn warn_of_addresses(&self, before: usize, members: &[Change]) {
        let used = members.len();
        if are_many_addresses(before, used) {
            warn!(self.agent.log(); "{used} of {MAX_MEMBERS} addresses are used: later ones will not be admitted");
        }
    }

    /// Logs how the members changed, and whether this node's own entry is refuted again and again.
    fn log(&mut self, round: &Result<Round, ClusterError>)
        ensures { HasMade AsksRing self.old.caller self.new.caller }
    {
        let is_refuted = self.log_members(round);
        if self.refutations.note(is_refuted) {
            let own = self.agent.own;
            warn!(self.agent.log(); "refuted again and again: no node reaches {own}, or another has this address");
        }
    }

    /// Logs that a round failed, or that rounds succeed again, unless the log said so last.
    fn log_errors(&mut self, round: &Result<Round, ClusterError>, now: Moment)
        ensures notice { self.new.round_notice ≡ told self.old.round_notice (is_err round.now) now }
        ensures caller { self.new.caller ≡ self.old.caller }
    {
        if !self.round_notice.note(round.is_err(), now) {
            return;
        }
        match round {
            Ok(_) => info!(self.agent.log(); "rounds succeed again"),
            Err(error) => warn!(self.agent.log(); "a round failed: {error}"),
        }
    }

    /// Makes one round of gossip, counts it, and logs its error and how the members changed. Questions are answered before it and after it, since it may
    /// take some seconds. Last it closes the connections to other nodes that have rested for long.
    fn make(&mut self, healing: &mut Healing<'_>) {
        let agent = self.agent;
        self.answer_questions();
        let now = agent.now();
        let start = Instant::now(&agent.rt).ok();
        let round = self.gossip(now);
        count_round(&agent.counters, &round);
        agent.counters.rounds.add_since(&agent.rt, start);
        agent.life.last_round.set(agent.now().number());
        self.log_errors(&round, now);
        self.log(&round);
        self.answer_questions();
        agent.renew(&mut self.caller);
        self.heal(healing, now);
        agent.life.last_round.set(agent.now().number());
        agent.spares.close_rested(&agent.rt, &agent.rt);
    }

    /// Heals after a round, unless the node has left: members that parted find one another again.
    fn heal(&mut self, healing: &mut Healing<'_>, now: Moment) {
        let agent = self.agent;
        if agent.life.has_left.get() {
            return;
        }
        let link = &mut self.link;
        let healed = self.caller.heal(&agent.rt, self.alloc, link, now, healing);
        if self.healing_notice.note(healed.is_err(), now) {
            match healed {
                Ok(_) => info!(agent.log(); "healing succeeds again"),
                Err(error) => warn!(agent.log(); "healing failed: {error}"),
            }
        }
        agent.renew(&mut self.caller);
        if self.tombstones.after_round() {
            let (alloc, caller) = (self.alloc, &mut self.caller);
            meet_tombstone(agent, alloc, caller, link, &mut self.tombstones);
        }
    }

    /// Makes one round of gossip, which corrects its target unless the node has left.
    fn gossip(&mut self, now: Moment) -> Result<Round, ClusterError>
        ensures { MakesRound now result self.old.caller self.new.caller }
    {
        let (agent, link) = (self.agent, &mut self.link);
        if agent.life.has_left.get() {
            return self.caller.round(&agent.rt, self.alloc, link, now);
        }
        self.caller
            .correcting_round(&agent.rt, self.alloc, link, now)
    }

    /// Makes a round, counts it if it is one of the last, and waits until the next begins: one period after this one did, or as soon as it has
    /// ended. Returns whether it was the last of all, after which it does not wait.
    fn make_one(&mut self, healing: &mut Healing<'_>) -> bool {
        let agent = self.agent;
        let begun = agent.now().number();
        self.make(healing);
        if agent.life.is_stopping.get() {
            if self.last == 0 {
                self.tell_of_end();
            }
            self.last = self.last.saturating_add(1);
            if self.last >= LAST_ROUNDS {
                agent.life.spread.unpark();
                return true;
            }
        }
        let spent = agent.now().number().saturating_sub(begun);
        let rest = Duration::from_millis(agent.period.saturating_sub(spent));
        thread::sleep(&agent.rt, rest);
        false
    }

    /// Makes rounds that heal by these hosts, until there are others, which it returns, or until the last round of all; then it returns None.
    fn make_with(&mut self, hosts: &[Address]) -> Option<Vec<Address>> {
        let agent = self.agent;
        let mut healing = Healing::new(healing_seed(agent.own, self.lists), hosts);
        self.lists = self.lists.wrapping_add(1);
        for _ in agent.rt.forever() {
            if self.make_one(&mut healing) {
                return None;
            }
            let newer = agent.hosts.take_for_rounds(&agent.rt);
            if newer.is_some() {
                return newer;
            }
        }
        None
    }
}

/// Makes rounds until the agent is to end, and then the last ones, a round each period. `initial` is the node's own entry before it met any other node.
fn make_rounds<R: Host>(
    agent: Arc<Agent<R>, Global>,
    alloc: Global,
    caller: Caller,
    initial: Option<Change>,
    mut hosts: Vec<Address>,
) {
    let agent = &*agent;
    let mut rounds = Rounds {
        agent,
        alloc,
        caller,
        link: NotedLink::within(agent, MAX_FIRST_WAIT),
        last: 0,
        lists: 0,
        tombstones: Tombstones::new(agent.own),
        initial,
        members: None,
        digest: None,
        noted: None,
        refutations: Refutations::new(),
        round_notice: Notice::new(),
        healing_notice: Notice::new(),
    };
    for _ in agent.rt.forever() {
        match rounds.make_with(hosts.as_slice()) {
            Some(newer) => hosts = newer,
            None => return,
        }
    }
}

/// Starts the thread that makes the rounds, a round each period. `initial` is the node's own entry before it met any other node.
///
/// # Errors
///
/// - `Spent`: the thread needs a pass of the node, and none is left.
/// - `NoThread`: the system gave no thread.
/// - `Memory`: out of memory.
pub fn start_rounds<R: System>(
    rt: &R,
    alloc: Global,
    agent: &Arc<Agent<R>, Global>,
    initial: Option<Change>,
    hosts: Vec<Address>,
) -> Result<(), AgentError> {
    let caller = agent.next_caller()?;
    let agent = Arc::try_clone(agent)?;
    let started = thread::spawn(
        rt,
        move || make_rounds(agent, alloc, caller, initial, hosts),
    );
    let _thread = started.map_err(|_| AgentError::NoThread)?;
    Ok(())
}
