//! An agent as all its threads see it: its node, its application, and the state that they share.
ghost use Rattle.std.specs.Prelude.{◌≡◌, ◌≢◌, ◌≤◌, ◌*◌, ◌/◌, IfErr, is_err, ℕ};
ghost use Rattle.agent_core.specs.Warnings.{told};
ghost use Rattle.node_core.specs.declared.events.Event.TheVariants as call;
ghost use Rattle.node_core.specs.declared.events.Reply.TheVariants as reply;
ghost use Rattle.peer_core.specs.Parts.{Does, Tries};
ghost use Rattle.turn_lock.specs.Passes.{left_of};

use crate::callers::{Caller, Passes};
use crate::errors::AgentError;
use crate::host_files::Hosts;
use crate::lifecycles::Lifecycle;
use crate::rejections::Refused;
use crate::tellers::Teller;
use agent_application::Application;
use agent_core::{Budget, Counts, KeptCounts, Notice, PortCounts};
use agent_state::{
    Count, Counters, Host, Logger, MAX_QUESTIONS, Notices, Process, Waiting, Watchers,
};
use change_core::{Address, Change, Moment};
use cluster_names::ClusterName;
use http::HeaderName;
use kept_links::Pool;
use line_service::{ServerClock, Stopwatch, Timeouts};
use log::{info, warn};
use peer_core::ClusterError;
use reactor::Places;
use std::alloc::Global;
use std::io;
use std::net::TcpStream;
use std::sync::{Arc, Mutex};

/// The phase of an agent.
#[derive(Clone, Copy, Debug, PartialEq, Eq)]
pub enum Phase {
    /// Hosts are given, and none has answered a join yet.
    Joining,
    /// It handles requests.
    Serving,
    /// Its node has left the ring.
    Left,
    /// Its node is out of the ring until its application accepts connections.
    Awaiting,
}

/// The state that the threads of an agent share.
#[derive(Drop)]
pub struct Agent<R> {
    pub rt: R,
    pub log: Logger<R>,
    /// The node's address.
    pub own: Address,
    /// The name of the node's cluster, if it has one.
    pub cluster: Option<ClusterName>,
    pub replicas: u32,
    /// The milliseconds between the beginnings of two rounds.
    pub period: u64,
    /// The most connections of each kind, and how many threads have the application answer other nodes.
    pub budget: Budget,
    pub stopwatch: Stopwatch,
    pub timeouts: Timeouts,
    pub application: Application<R>,
    /// The field that may name the key of a request, if any request of a key is passed on to its owner's application.
    pub key_field: Option<HeaderName>,
    /// The passes that no thread has.
    pub passes: Mutex<Passes>,
    pub counters: Counters,
    pub process: Process,
    /// The connections to other nodes that rest between two requests.
    pub spares: Pool<TcpStream>,
    /// The HTTP requests that wait for a key's owner.
    pub waiting: Waiting,
    /// The number of requests that are being relayed.
    pub relaying: Count,
    /// The number of hands that wait for the next request of a connection.
    pub keeping: Count,
    /// The requests of other nodes that wait for a hand, and those that a hand answers.
    pub forwarded: Count,
    /// The number of workers that answer HTTP.
    pub workers: Count,
    /// The number of them that serve a connection.
    pub serving: Count,
    /// The places of HTTP connections.
    pub http: Arc<Places, Global>,
    /// The places of connections at the node's port that wait for the rest of their line, or to take the rest of their answer.
    pub port: Arc<Places, Global>,
    /// The questions about the ring that wait until it changes.
    pub watchers: Watchers,
    /// The ring of which the application is told.
    pub teller: Teller,
    /// What the log said last of other nodes and, at its own address, of messages to them.
    pub notices: Notices,
    /// What the log said last of nodes that disown what this node's members give them.
    pub disowners: Notices,
    pub refused: Refused,
    pub hosts: Hosts,
    /// What the threads tell one another of the agent's start, its service, and its end.
    pub life: Lifecycle,
}

/// Returns the counts of connections that have these places.
fn port_counts(places: &Places) -> PortCounts {
    PortCounts {
        used: places.open() as u64,
        max: places.limit() as u64,
        evicted: places.evicted(),
        failures: places.failures(),
    }
}

impl<R: Host> Agent<R> {
    /// Returns the present moment.
    pub fn now(&self) -> Moment {
        self.stopwatch.moment(&self.rt)
    }

    /// Returns the log, which has lines written to standard error.
    pub fn log(&self) -> &Logger<R>
        ensures { result.now ≡ self.now.log }
    {
        &self.log
    }

    /// Returns the clock by which requests are tried again.
    pub fn clock(&self) -> ServerClock<R> {
        ServerClock::new(self.rt, self.stopwatch)
    }

    /// Returns the phase of the agent.
    pub fn phase(&self) -> Phase {
        if self.life.has_left.get() {
            if self.life.moving.lock(&self.rt).is_out {
                Phase::Awaiting
            } else {
                Phase::Left
            }
        } else if self.awaits_hosts() {
            Phase::Joining
        } else {
            Phase::Serving
        }
    }

    /// Returns whether there are hosts, and none has answered yet.
    fn awaits_hosts(&self) -> bool {
        self.hosts.count.get() > 0 && !self.life.has_joined.get()
    }

    /// Has the node come back. Requests of keys then wait until the hosts are asked, if none has answered yet. Who calls this holds `moving`.
    ///
    /// # Errors
    ///
    /// Nothing has changed then.
    ///
    /// - `ForeignPass`: the pass has another node's name.
    /// - `PassSpent`: the pass has made all its calls.
    /// - `NotLeft`: the node has not left.
    /// - `Exhausted`: its incarnation is the greatest.
    /// - `Memory`: out of memory.
    pub fn come_back(&self, caller: &mut Caller) -> Result<Change, ClusterError>
        ensures node { caller.new.node ≡ caller.old.node }
        ensures did { Does caller.old.node (Tries call.Rejoin reply.Rejoin) result caller.old.pass caller.new.pass }
    {
        let was_starting = self.life.is_starting.get();
        self.life.is_starting.set(self.awaits_hosts());
        let back = caller.rejoin(&self.rt);
        if back.is_ok() {
            self.life.set_back();
        } else {
            self.life.is_starting.set(was_starting);
        }
        back
    }

    /// Returns the counts.
    pub fn counts(&self) -> Counts
        ensures service { result.service_up ≤ 1 }
        ensures hands { result.kept.max_hands ≡ self.now.budget.hands * 3 / 4 }
        ensures questions { result.questions_max ≤ MAX_QUESTIONS }
    {
        Counts {
            handled: self.application.handled.get(),
            application: self.application.times.counts(),
            application_failures: self.application.failures.get(),
            waiting: self.waiting.counts(&self.rt),
            kept: self.kept_counts(),
            http: port_counts(&*self.http),
            node: port_counts(&*self.port),
            workers_used: self.serving.get(),
            workers_max: self.workers.get(),
            questions_used: self.watchers.count.get(),
            questions_max: self.max_questions(),
            service_up: u64::from(self.life.is_service_up.get()),
            notices_taken: self.teller.taken.get(),
            notices_failed: self.teller.failed.get(),
            notices_untold: self.teller.untold.get(),
            refusals: self.refused.counts(),
            log: self.log().sink().counts(),
            process: self.process.counts(),
            ..self.counters.counts()
        }
    }

    /// Logs that the system lets no connection of a kind be accepted, or does again, unless the log said so last.
    pub fn note_accepting(&self, notice: &mut Notice, kind: &str, accepted: &io::Result<bool>)
        ensures { (now : ℕ) × (notice.new ≡ told notice.old (is_err accepted.now) now) }
    {
        if !notice.note(accepted.is_err(), self.now()) {
            return;
        }
        match accepted {
            Err(error) => warn!(self.log(); "no {kind} connection can be accepted: {error}"),
            Ok(_) => info!(self.log(); "{kind} connections are accepted again"),
        }
    }

    /// Returns whether the system let no connection be accepted at one of the ports when it was last asked.
    pub fn is_failing_to_accept(&self) -> bool {
        self.http.is_failing() || self.port.is_failing()
    }

    /// Returns the counts of the connections between nodes that are kept.
    fn kept_counts(&self) -> KeptCounts
        ensures { result.max_hands ≡ self.now.budget.hands * 3 / 4 }
    {
        KeptCounts {
            resting: self.spares.resting(&self.rt) as u64,
            max_resting: self.spares.most() as u64,
            hands: self.keeping.get(),
            max_hands: self.max_keeping(),
            reused: self.spares.reused(),
            closed: self.spares.closed(),
        }
    }

    /// Returns how many hands may wait for the next request of a connection at a time: three of four, so that the others answer what comes over
    /// new ones.
    pub fn max_keeping(&self) -> u64
        ensures { result ≡ self.now.budget.hands * 3 / 4 }
    {
        u64::from(self.budget.hands) * 3 / 4
    }

    /// Returns how many questions about the ring may wait: 1,000, or as many as half of the HTTP connections that may be open.
    pub fn max_questions(&self) -> u64
        ensures { result ≤ MAX_QUESTIONS }
    {
        MAX_QUESTIONS.min(self.http.limit() as u64 / 2)
    }

    /// Returns whether each worker that answers HTTP serves a connection, so that others may wait for one.
    pub fn is_crowded(&self) -> bool {
        self.serving.get() >= self.workers.get()
    }

    /// Returns whether at least a quarter of the workers that answer HTTP serves no connection, so that each may wait for its client.
    pub fn has_spare_workers(&self) -> bool {
        self.serving.get() <= self.workers.get() / 4 * 3
    }

    /// Counts a worker that answers HTTP as ended. The last one wakes the thread that waits for this.
    pub fn end_worker(&self) {
        self.workers.subtract(1);
        if self.workers.get() == 0 {
            self.life.wake.unpark();
        }
    }

    /// Counts a request of another node as ended. The last one wakes the thread that waits for this.
    pub fn end_forwarded(&self) {
        self.forwarded.subtract(1);
        if self.forwarded.get() == 0 {
            self.life.wake.unpark();
        }
    }

    /// Returns the node with a pass that no thread has.
    ///
    /// # Errors
    ///
    /// - `Spent`: no pass is left.
    pub fn next_caller(&self) -> Result<Caller, AgentError>
        ensures { IfErr result (λ e. e ≡ AgentError.Spent) }
    {
        self.passes.lock(&self.rt).next().ok_or(AgentError::Spent)
    }

    /// Replaces the pass of a caller if it has made all its calls. If no other is left, the agent ends.
    pub fn renew(&self, caller: &mut Caller)
        ensures kept { left_of caller.old.pass ≢ 0 → caller.new ≡ caller.old }
    {
        if !caller.is_spent() {
            return;
        }
        match self.next_caller() {
            Ok(next) => *caller = next,
            Err(_) => {
                self.life.is_spent.set(true);
                self.life.wake.unpark();
            }
        }
    }
}
