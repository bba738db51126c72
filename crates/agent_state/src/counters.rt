//! The counters of an agent.
ghost use Rattle.std.specs.Prelude.{◌≡◌};
ghost use Rattle.agent_state.specs.Answers.{told};

use agent_core::{
    BUCKETS, ChangeCounts, Counts, KeptCounts, LogCounts, PortCounts, ProcessCounts, Refusal,
    RefusalCounts, StatusCounts, TimeCounts, WaitingCounts, bucket_of, unpack,
};
use agent_http::Reply;
use change_core::{Address, Change, Digest, Status};
use std::sync::atomic::{AtomicBool, AtomicU64, Ordering};
use std::time::{Clock, Duration, Instant};

/// A count to which threads add.
#[derive(Drop)]
pub struct Count(AtomicU64);

impl Count {
    /// Makes a count of 0.
    pub fn new() -> Count {
        Count(AtomicU64::new(0))
    }

    /// Adds 1 to the count unless it is this number or more. Returns whether it was added.
    pub fn add_below(&self, most: u64) -> bool {
        let order = Ordering::SeqCst;
        self.0
            .fetch_update(order, order, |count| {
                if count < most {
                    count.checked_add(1)
                } else {
                    None
                }
            })
            .is_ok()
    }

    /// Adds to the count.
    pub fn add(&self, more: u64) {
        self.0.fetch_add(more, Ordering::SeqCst);
    }

    /// Subtracts from the count.
    pub fn subtract(&self, fewer: u64) {
        self.0.fetch_sub(fewer, Ordering::SeqCst);
    }

    /// Sets the count to a number.
    pub fn set(&self, number: u64) {
        self.0.store(number, Ordering::SeqCst);
    }

    /// Sets the count to 0. Returns what it was.
    pub fn take(&self) -> u64 {
        self.0.swap(0, Ordering::SeqCst)
    }

    /// Returns the count.
    pub fn get(&self) -> u64 {
        self.0.load(Ordering::SeqCst)
    }
}

/// A flag that threads set and read.
#[derive(Drop)]
pub struct Flag(AtomicBool);

impl Flag {
    /// Makes a flag with this value.
    pub fn new(value: bool) -> Flag {
        Flag(AtomicBool::new(value))
    }

    /// Sets the flag to a value.
    pub fn set(&self, value: bool) {
        self.0.store(value, Ordering::SeqCst);
    }

    /// Returns the flag's value.
    pub fn get(&self) -> bool {
        self.0.load(Ordering::SeqCst)
    }
}

/// Times that threads count.
#[derive(Drop)]
pub struct Times {
    micros: Count,
    buckets: [Count; BUCKETS],
}

impl Times {
    /// Makes times of which none is counted.
    pub fn new() -> Times {
        Times {
            micros: Count::new(),
            buckets: [
                Count::new(),
                Count::new(),
                Count::new(),
                Count::new(),
                Count::new(),
                Count::new(),
                Count::new(),
                Count::new(),
                Count::new(),
                Count::new(),
                Count::new(),
                Count::new(),
            ],
        }
    }

    /// Counts a time, in the sum and in its bucket.
    fn add(&self, spent: Duration) {
        let micros = spent.as_micros().min(u64::MAX as u128) as u64;
        self.micros.add(micros);
        if let Some(count) = self.buckets.get(bucket_of(micros)) {
            count.add(1);
        }
    }

    /// Counts the time since an instant; nothing if there is none, or the clock fails.
    pub fn add_since<C: Clock>(&self, clock: &C, start: Option<Instant>) {
        if let Some(start) = start {
            if let Ok(spent) = start.elapsed(clock) {
                self.add(spent);
            }
        }
    }

    /// Returns the counts.
    pub fn counts(&self) -> TimeCounts {
        let mut buckets = [0; BUCKETS];
        for (place, count) in buckets.iter_mut().zip(self.buckets.iter()) {
            *place = count.get();
        }
        TimeCounts {
            micros: self.micros.get(),
            buckets,
        }
    }
}

/// Answers that threads count, by status.
#[derive(Drop)]
struct Answers {
    successes: Count,
    redirections: Count,
    client_errors: Count,
    server_errors: Count,
}

impl Answers {
    fn new() -> Answers {
        Answers {
            successes: Count::new(),
            redirections: Count::new(),
            client_errors: Count::new(),
            server_errors: Count::new(),
        }
    }

    /// Counts an answer with this status.
    fn add(&self, status: u16) {
        let count = match status {
            ..=299 => &self.successes,
            300..=399 => &self.redirections,
            400..=499 => &self.client_errors,
            _ => &self.server_errors,
        };
        count.add(1);
    }

    fn counts(&self) -> StatusCounts {
        StatusCounts {
            successes: self.successes.get(),
            redirections: self.redirections.get(),
            client_errors: self.client_errors.get(),
            server_errors: self.server_errors.get(),
        }
    }
}

/// Changes of members that threads count, by the status that they got.
#[derive(Drop)]
struct Changes {
    alive: Count,
    suspect: Count,
    faulty: Count,
    leave: Count,
    tombstone: Count,
}

impl Changes {
    fn new() -> Changes {
        Changes {
            alive: Count::new(),
            suspect: Count::new(),
            faulty: Count::new(),
            leave: Count::new(),
            tombstone: Count::new(),
        }
    }

    /// Counts a member that got this status.
    fn add(&self, status: Status) {
        let count = match status {
            Status::Alive => &self.alive,
            Status::Suspect => &self.suspect,
            Status::Faulty => &self.faulty,
            Status::Leave => &self.leave,
            Status::Tombstone => &self.tombstone,
        };
        count.add(1);
    }

    /// Returns the counts, with this number of refutations.
    fn counts(&self, refuted: u64) -> ChangeCounts
        ensures { result.refuted ≡ refuted }
    {
        ChangeCounts {
            alive: self.alive.get(),
            suspect: self.suspect.get(),
            faulty: self.faulty.get(),
            leave: self.leave.get(),
            tombstone: self.tombstone.get(),
            refuted,
        }
    }
}

/// Returns the status of an answer, and whether a service gave it, not an agent, which may be the owner's.
pub fn told(reply: &Result<Reply, Refusal>) -> (u16, bool)
    ensures { result ≡ told reply.now }
{
    match reply {
        Ok(Reply::Handled { text, .. }) => {
            let packed = unpack(text.as_str());
            let is_sent = Refusal::sent(packed.status, packed.body).is_some();
            (packed.status, !is_sent)
        }
        Ok(Reply::Unchanged { .. }) => (304, false),
        Ok(_) => (200, false),
        Err(refusal) => (refusal.status(), false),
    }
}

/// The counters of an agent, to which its threads add.
#[derive(Drop)]
pub struct Counters {
    /// Requests of keys that the owner answered, with any status.
    pub answered: Count,
    /// Requests of keys that were refused with a status from 400 to 499.
    pub refused: Count,
    /// Requests of keys that were refused with a status from 500 to 599.
    pub failed: Count,
    by_services: Answers,
    by_agents: Answers,
    /// The times of requests of keys over HTTP.
    pub requests: Times,
    /// The times of rounds of gossip.
    pub rounds: Times,
    /// The times of pings that were answered.
    pub pings: Times,
    changes: Changes,
    /// Rounds after which the node's own entry had been refuted.
    pub refuted: Count,
    /// The incarnation of the node's own entry when its members changed last.
    incarnation: Count,
    /// The first six bytes of the digest of the members when they changed last.
    digest: Count,
    /// Sends of a request of a key to another node, repeated ones and those passed on among them.
    pub forwards: Count,
    /// Requests of other nodes that were passed on to the owner.
    pub passed_on: Count,
    /// Rounds whose member answered.
    pub reached: Count,
    /// Rounds whose member answered neither this node nor its helpers.
    pub suspected: Count,
    /// Rounds in which neither is known.
    pub inconclusive: Count,
    /// Rounds in which no member was there to be probed.
    pub idle: Count,
    /// Rounds that ended by an error other than out of memory.
    pub broken: Count,
    /// Messages to other nodes whose sending failed, or that got no answer.
    pub link_failures: Count,
    /// Requests and rounds that ran out of memory.
    pub allocation_failures: Count,
}

impl Counters {
    /// Makes counters of 0.
    pub fn new() -> Counters {
        Counters {
            answered: Count::new(),
            refused: Count::new(),
            failed: Count::new(),
            by_services: Answers::new(),
            by_agents: Answers::new(),
            requests: Times::new(),
            rounds: Times::new(),
            pings: Times::new(),
            changes: Changes::new(),
            refuted: Count::new(),
            incarnation: Count::new(),
            digest: Count::new(),
            forwards: Count::new(),
            passed_on: Count::new(),
            reached: Count::new(),
            suspected: Count::new(),
            inconclusive: Count::new(),
            idle: Count::new(),
            broken: Count::new(),
            link_failures: Count::new(),
            allocation_failures: Count::new(),
        }
    }

    /// Counts the answer to a request of a key: by its status, and by whether a service gave it or an agent.
    pub fn add_answer(&self, reply: &Result<Reply, Refusal>) {
        let (status, is_of_service) = told(reply);
        let answers = if is_of_service {
            &self.by_services
        } else {
            &self.by_agents
        };
        answers.add(status);
    }

    /// Counts how other members changed from one list to a later one, each ascending by address.
    pub fn add_changes(&self, own: Address, before: &[Change], after: &[Change]) {
        let mut old = before.iter();
        let mut next = old.next();
        for change in after {
            let known = next.filter(|known| known.address == change.address);
            if known.is_some() {
                next = old.next();
            }
            if change.address != own && known != Some(change) {
                self.changes.add(change.status);
            }
        }
    }

    /// Notes the members after they changed, and their digest.
    pub fn note_members(&self, own: Address, members: &[Change], digest: &Digest) {
        if let Some(entry) = members.iter().find(|member| member.address == own) {
            self.incarnation.set(entry.incarnation.number());
        }
        let mut number: u64 = 0;
        for byte in digest.bytes().iter().take(6) {
            number = (number << 8) | u64::from(*byte);
        }
        self.digest.set(number);
    }

    /// Returns these counts, and 0 for each that is counted elsewhere.
    pub fn counts(&self) -> Counts {
        Counts {
            answered: self.answered.get(),
            refused: self.refused.get(),
            failed: self.failed.get(),
            by_services: self.by_services.counts(),
            by_agents: self.by_agents.counts(),
            requests: self.requests.counts(),
            application: TimeCounts::default(),
            rounds: self.rounds.counts(),
            pings: self.pings.counts(),
            changes: self.changes.counts(self.refuted.get()),
            incarnation: self.incarnation.get(),
            digest: self.digest.get(),
            handled: 0,
            forwards: self.forwards.get(),
            passed_on: self.passed_on.get(),
            reached: self.reached.get(),
            suspected: self.suspected.get(),
            inconclusive: self.inconclusive.get(),
            idle: self.idle.get(),
            broken: self.broken.get(),
            application_failures: 0,
            link_failures: self.link_failures.get(),
            allocation_failures: self.allocation_failures.get(),
            waiting: WaitingCounts::default(),
            kept: KeptCounts::default(),
            http: PortCounts::default(),
            node: PortCounts::default(),
            workers_used: 0,
            workers_max: 0,
            questions_used: 0,
            questions_max: 0,
            service_up: 0,
            notices_taken: 0,
            notices_failed: 0,
            notices_untold: 0,
            refusals: RefusalCounts::default(),
            log: LogCounts::default(),
            process: ProcessCounts::default(),
        }
    }
}
