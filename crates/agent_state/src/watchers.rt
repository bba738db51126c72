//! Questions about the ring that wait until it changes, and when it last did. Each question holds its connection, and no thread.
ghost use Rattle.std.specs.Prelude.{◌≡◌};
ghost use Rattle.agent_state.specs.Dating.{seen_at};

use crate::counters::Count;
use crate::systems::Host;
use agent_core::question_at;
use agent_http::Kept;
use change_core::Digest;
use http::HeaderName;
use httpdate::HttpDate;
use reactor::{Connection, Lot};
use std::alloc::Global;
use std::sync::{Arc, Mutex, Wait};

/// The most questions that wait at a time.
pub const MAX_QUESTIONS: u64 = 1_000;

/// The milliseconds that a worker has to take up the connection of a question that has waited.
const AFTER_WAIT: u64 = 30_000;

/// The digest that a client knows, and for how long it waits for another.
#[derive(Clone, Copy, Drop)]
pub struct Question {
    after: Digest,
    millis: u64,
}

/// Returns whether the whole head of a request is in these bytes, and has no field of this name.
fn lacks_field(bytes: &[u8], name: &HeaderName) -> bool {
    for line in bytes.split(|byte| *byte == b'\n') {
        if line.trim_ascii().is_empty() {
            return true;
        }
        let end = line.iter().position(|byte| *byte == b':');
        let field = line.get(..end.unwrap_or(0)).unwrap_or(&[]);
        if field.eq_ignore_ascii_case(name.as_bytes()) {
            return false;
        }
    }
    false
}

impl Question {
    /// Returns the question that waits, if these bytes of a request start with one, and the field of this name, which would
    /// name its key, is not among them.
    pub fn of(bytes: &[u8], key_field: &Option<HeaderName>) -> Option<Question> {
        if !bytes.starts_with(b"GET /ring?") {
            return None;
        }
        if let Some(name) = key_field {
            if !lacks_field(bytes, name) {
                return None;
            }
        }
        let end = bytes.iter().position(|byte| *byte == b'\n')?;
        let (digits, seconds) = question_at(str::from_utf8(bytes.get(..end)?).ok()?)?;
        if seconds == 0 {
            return None;
        }
        Some(Question {
            after: Digest::parse(digits)?,
            millis: (seconds as u64).saturating_mul(1_000),
        })
    }
}

/// The digest of the ring, and since when the ring has it.
#[derive(Clone, Copy)]
pub struct Seen {
    pub digest: Digest,
    pub since: HttpDate,
}

/// Returns since when the ring has its present digest: since what was seen before, if it had that digest then and the clock did not go back, or
/// else since now.
fn seen_at(before: Option<Seen>, digest: Digest, now: HttpDate) -> Seen
    ensures { result ≡ seen_at before digest now }
{
    match before {
        Some(seen) if seen.digest == digest && seen.since.unix_secs() <= now.unix_secs() => seen,
        _ => Seen { digest, since: now },
    }
}

/// Returns the present date; None if there is no clock, or it shows a time after the year 9999.
pub fn date<R: Host>(rt: &R) -> Option<HttpDate> {
    let since = rt.since_1970().ok()?;
    HttpDate::from_unix_secs(since.as_secs()).ok()
}

/// A question that waits on its connection, and the millisecond at which its wait is over.
#[derive(Drop)]
struct Watcher {
    connection: Connection<Kept>,
    after: Digest,
    until: u64,
}

/// The questions that wait, the digest of the ring for whose change they do, None if it is not known, since when the ring last noted has its digest,
/// and the lot of the connections, if HTTP is answered.
#[derive(Drop)]
struct Waits {
    watchers: Vec<Watcher>,
    ring: Option<Digest>,
    seen: Option<Seen>,
    lot: Option<Arc<Lot<Kept>, Global>>,
}

impl Waits {
    /// Takes out a question whose answer is due at this millisecond; None if there is none.
    fn next_due(&mut self, now: u64) -> Option<Connection<Kept>> {
        let ring = self.ring;
        let due = self.watchers.iter().position(|watcher| watcher.until <= now
            || ring != Some(watcher.after))?;
        Some(self.watchers.swap_remove(due).connection)
    }

    /// Has a worker answer a question now. (It is parked until there is room to write, which there is.)
    fn release<R: Wait>(&self, rt: &R, mut connection: Connection<Kept>, now: u64) {
        if let Some(lot) = &self.lot {
            connection.is_full = true;
            connection.until = now.saturating_add(AFTER_WAIT);
            lot.park(rt, connection, now);
        }
    }
}

/// The questions that wait.
#[derive(Drop)]
pub struct Watchers {
    waits: Mutex<Waits>,
    /// The number of questions that wait, or are about to.
    pub count: Count,
}

impl Watchers {
    /// Makes the list of no question. None waits until the ring's digest is noted.
    pub fn new(alloc: Global) -> Self {
        let waits = Waits {
            watchers: Vec::new(alloc),
            ring: None,
            seen: None,
            lot: None,
        };
        Watchers {
            waits: Mutex::new(waits),
            count: Count::new(),
        }
    }

    /// Sets the lot to which the connections of the questions go back.
    pub fn set_lot<R: Wait>(&self, rt: &R, lot: Arc<Lot<Kept>, Global>) {
        self.waits.lock(rt).lot = Some(lot);
    }

    /// Notes the digest of the ring now; None if it is not known.
    pub fn note<R: Host>(&self, rt: &R, ring: Option<Digest>) {
        let mut waits = self.waits.lock(rt);
        waits.ring = ring;
        if let (Some(digest), Some(now)) = (ring, date(rt)) {
            waits.seen = Some(seen_at(waits.seen, digest, now));
        }
    }

    /// Returns since when the ring has the digest that it has now: since now, if it was not noted yet. None if no clock tells it.
    pub fn since<R: Host>(&self, rt: &R, digest: &Digest) -> Option<HttpDate> {
        let now = date(rt)?;
        let seen = self.waits.lock(rt).seen;
        Some(seen_at(seen, *digest, now).since)
    }

    /// Returns whether the ring still has the digest that a question knows.
    pub fn is_known<R: Wait>(&self, rt: &R, question: &Question) -> bool {
        self.waits.lock(rt).ring == Some(question.after)
    }

    /// Has a question, which is counted, wait with its connection. It is answered at once if the ring has changed, or memory runs out.
    pub fn add<R: Wait>(&self, rt: &R, connection: Connection<Kept>, question: Question, now: u64) {
        let mut waits = self.waits.lock(rt);
        if waits.ring != Some(question.after) || waits.watchers.reserve(1).is_err() {
            self.count.subtract(1);
            return waits.release(rt, connection, now);
        }
        let _kept = waits.watchers.push(Watcher {
            connection,
            after: question.after,
            until: now.saturating_add(question.millis),
        });
    }

    /// Has the workers answer the questions that are due at this millisecond, or all of them.
    pub fn answer_due<R: Wait>(&self, rt: &R, now: u64, all: bool) {
        if self.count.get() == 0 {
            return;
        }
        let mut waits = self.waits.lock(rt);
        let moment = if all { u64::MAX } else { now };
        for _ in 0..MAX_QUESTIONS {
            let Some(connection) = waits.next_due(moment) else {
                return;
            };
            self.count.subtract(1);
            waits.release(rt, connection, now);
        }
    }
}
