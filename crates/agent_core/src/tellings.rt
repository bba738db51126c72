//! The ring as the application is told it: the text of a notice, and which one is to be told when.
ghost use Rattle.std.specs.Prelude.{◌≡◌, ◌++◌, IfOk, OnOk, option_map, string_bytes};
ghost use Rattle.agent_core.specs.Tellings.{before_text, failed, hurried, is_latest, is_of, millis_left, moved_text, new_telling, noted, notice_of, ring_part, taken};

use crate::texts::push_servers;
use change_core::{Address, Change, Digest, DigestText, Moment};
use std::alloc::{AllocError, Global};
use std::fmt::Write;

/// The milliseconds after the first failure until a notice is sent again. After each further one it is twice as long.
const FIRST_PAUSE: u64 = 250;

/// The most milliseconds after a failure until a notice is sent again.
const MAX_PAUSE: u64 = 8_000;

/// A ring: its digest, and the members that serve, as they stand on it.
#[derive(Debug, Drop)]
pub struct Ring {
    pub digest: Digest,
    pub servers: Vec<Change>,
}

/// Returns whether there is a ring, and it has this digest.
fn is_of(ring: &Option<Ring>, digest: &Digest) -> bool
    ensures { result ≡ is_of ring.now digest.now }
{
    match ring {
        Some(ring) => ring.digest == *digest,
        None => false,
    }
}

/// A record of what the application was told of the ring, and of what it is still to be told.
#[derive(Debug, Drop)]
pub struct Telling {
    /// The ring of the last notice that it took; None if it took none.
    pub told: Option<Ring>,
    /// The ring that it is to be told; None if the last one was told.
    pub next: Option<Ring>,
    /// The milliseconds from the next failure until the notice is sent again.
    pub pause: u64,
    /// The number of the moment from which on a notice may be sent.
    pub until: u64,
}

impl Telling {
    /// Makes the record before the first ring.
    pub fn new() -> Self
        ensures { result ≡ new_telling }
    {
        Telling {
            told: None,
            next: None,
            pause: FIRST_PAUSE,
            until: 0,
        }
    }

    /// Returns whether the ring that was noted last has this digest.
    fn is_latest(&self, digest: &Digest) -> bool
        ensures { result ≡ is_latest self.now digest.now }
    {
        if self.next.is_some() {
            is_of(&self.next, digest)
        } else {
            is_of(&self.told, digest)
        }
    }

    /// Notes the ring. It is to be told unless the one that was noted last has its digest. It replaces one that was not told yet.
    pub fn note(&mut self, ring: Ring)
        ensures { self.new ≡ noted self.old ring }
    {
        if !self.is_latest(&ring.digest) {
            self.next = Some(ring);
        }
    }

    /// Returns the milliseconds from a moment until the notice is to be sent, 0 if it is due; None if there is nothing to tell.
    pub fn millis_left(&self, now: Moment) -> Option<u64>
        ensures { result ≡ millis_left self.now now }
    {
        if self.next.is_none() {
            return None;
        }
        Some(self.until.saturating_sub(now.number()))
    }

    /// Returns the text of the notice; None if there is nothing to tell. The text is that of the ring that is to be told, and of the ring of the
    /// last notice that the application took.
    ///
    /// # Errors
    ///
    /// - `AllocError`: out of memory.
    pub fn notice(
        &self,
        alloc: Global,
        own: Address,
        replicas: u32,
    ) -> Result<Option<String>, AllocError>
        ensures { IfOk result (λ text. option_map string_bytes text ≡ notice_of own replicas self.now) }
    {
        match &self.next {
            Some(ring) => Ok(Some(moved_text(alloc, own, replicas, ring, &self.told)?)),
            None => Ok(None),
        }
    }

    /// Notes that the application took the notice.
    pub fn take(&mut self)
        ensures { self.new ≡ taken self.old }
    {
        if let Some(ring) = self.next.take() {
            self.told = Some(ring);
        }
        self.pause = FIRST_PAUSE;
        self.until = 0;
    }

    /// Has the notice be due now, whatever failed before.
    pub fn hurry(&mut self)
        ensures { self.new ≡ hurried self.old }
    {
        self.pause = FIRST_PAUSE;
        self.until = 0;
    }

    /// Notes at a moment that the application did not take the notice. It is to be sent again after the pause, which is then twice as long, and
    /// at most eight seconds.
    pub fn fail(&mut self, now: Moment)
        ensures { self.new ≡ failed self.old now }
    {
        self.until = now.number().saturating_add(self.pause);
        self.pause = if self.pause < MAX_PAUSE / 2 {
            self.pause * 2
        } else {
            MAX_PAUSE
        };
    }
}

/// Appends a ring, as `{"ring":"..","serving":[..]}`.
fn push_ring(text: &mut String, ring: &Ring) -> Result<(), AllocError>
    ensures { OnOk result (string_bytes text.new ≡ string_bytes text.old ++ ring_part ring.now) }
{
    let digits = DigestText::of(&ring.digest);
    text.push_str("{\"ring\":\"")?;
    text.push_str(digits.as_str())?;
    text.push_str("\",\"serving\":[")?;
    push_servers(text, ring.servers.as_slice())?;
    text.push_str("]}")?;
    Ok(())
}

/// Appends the ring before, or `null` if there was none.
fn push_before(text: &mut String, before: &Option<Ring>) -> Result<(), AllocError>
    ensures { OnOk result (string_bytes text.new ≡ string_bytes text.old ++ before_text before.now) }
{
    match before {
        Some(ring) => push_ring(text, ring),
        None => text.push_str("null"),
    }
}

/// Returns `{"own":"10.0.0.1:7946","replicas":100,"now":{"ring":"..","serving":[..]},"before":..}` and a newline: the node's own address, the
/// number of points on the ring for a unit of weight, the ring now, and the ring before in the same form, or `null` if there was none.
fn moved_text(
    alloc: Global,
    own: Address,
    replicas: u32,
    now: &Ring,
    before: &Option<Ring>,
) -> Result<String, AllocError>
    ensures { IfOk result (λ text. string_bytes text ≡ moved_text own replicas now.now before.now) }
{
    let mut text = format!(in alloc; "{{\"own\":\"{own}\",\"replicas\":{replicas},\"now\":")?;
    push_ring(&mut text, now)?;
    text.push_str(",\"before\":")?;
    push_before(&mut text, before)?;
    text.push_str("}\n")?;
    Ok(text)
}
