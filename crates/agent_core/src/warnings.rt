//! The conditions of the log's warnings.
ghost use Rattle.std.specs.Prelude.{◌≡◌, ◌+◌, ◌≤◌, ◌<◌, ◌/◌, ◌↔◌, IsTrue, false};
ghost use Rattle.agent_core.specs.Warnings.{are_many, is_news, is_often, is_over, may_join, noted, told};

use change_core::{MAX_MEMBERS, Moment};

/// The number of addresses from which on a node warns that they may run out.
pub const MANY_ADDRESSES: usize = 3_000;

/// The number of addresses that a node holds from which on it lets none join that it does not know.
pub const MAX_ADMITTED: usize = 4_000;

/// The number of rounds in which refutations are counted together.
const WINDOW: u32 = 50;

/// The number of refuted rounds within a window at which a node warns.
const OFTEN: u32 = 6;

/// The milliseconds after a line about a node, a service or a task for which the log says nothing more of it.
const QUIET: u64 = 10_000;

/// The milliseconds after the last round from which on an agent is taken as hung.
const MAX_STILL: u64 = 10_000;

/// Returns whether an agent makes rounds: the last one ended, or it started, less than ten seconds ago. Both moments are in
/// milliseconds.
pub fn is_live(last: u64, now: u64) -> bool
    ensures { IsTrue result ↔ (now < last + 10000) }
{
    now.saturating_sub(last) < MAX_STILL
}

/// Returns whether the number of addresses used, which was `before` and is `now`, is reason for a warning: it is 3,000 or
/// more, and has reached another hundred, or 4,096, the most that there may be.
pub fn are_many_addresses(before: usize, now: usize) -> bool
    ensures { result ≡ are_many before now }
{
    now >= MANY_ADDRESSES && (before / 100 < now / 100 || (now == MAX_MEMBERS && before < now))
}

/// Returns whether a node lets an address join while it holds this number of them: it knows the address, or holds fewer than 4,000.
pub fn is_admitted(addresses: usize, is_known: bool) -> bool
    ensures { result ≡ may_join addresses is_known }
{
    is_known || addresses < MAX_ADMITTED
}

/// The rounds of the present window, 50 at most, and how many of them were refuted: the node's own entry changed in them
/// though the node did not change it itself.
#[derive(Clone, Copy, Debug, PartialEq, Eq)]
pub struct Refutations {
    pub rounds: u32,
    pub refuted: u32,
}

impl Refutations {
    /// Makes the count before the first round.
    pub fn new() -> Self
        ensures rounds { result.rounds ≡ 0 }
        ensures refuted { result.refuted ≡ 0 }
    {
        Refutations {
            rounds: 0,
            refuted: 0,
        }
    }

    /// Counts a round. Returns whether it is the sixth that was refuted within its window.
    pub fn note(&mut self, is_refuted: bool) -> bool
        ensures count { self.new ≡ noted self.old is_refuted }
        ensures often { result ≡ is_often self.old is_refuted }
    {
        if self.rounds >= WINDOW {
            *self = Refutations::new();
        }
        self.rounds += 1;
        if !is_refuted {
            return false;
        }
        self.refuted = self.refuted.saturating_add(1);
        self.refuted == OFTEN
    }
}

/// A record of what the log said last of a node, a service or a task that can fail.
#[derive(Clone, Copy, Debug, PartialEq, Eq)]
pub struct Notice {
    /// Whether it said that it fails.
    pub is_failing: bool,
    /// The number of the moment before which it says nothing more.
    pub quiet_until: u64,
}

impl Notice {
    /// Makes the notice of one of which the log has said nothing.
    pub fn new() -> Self
        ensures failing { result.is_failing ≡ false }
        ensures quiet { result.quiet_until ≡ 0 }
    {
        Notice {
            is_failing: false,
            quiet_until: 0,
        }
    }

    /// Notes whether it fails at a moment. Returns whether the log is to say so: the log said the opposite last, ten
    /// seconds before or earlier.
    pub fn note(&mut self, is_failing: bool, now: Moment) -> bool
        ensures notice { self.new ≡ told self.old is_failing now }
        ensures news { result ≡ is_news self.old is_failing now }
    {
        if is_failing == self.is_failing || now.number() < self.quiet_until {
            return false;
        }
        *self = Notice {
            is_failing,
            quiet_until: now.number() + QUIET,
        };
        true
    }

    /// Returns whether the notice says no more than a new one: it does not fail, and the log may say so if it does.
    pub fn is_over(&self, now: Moment) -> bool
        ensures { result ≡ is_over self.now now }
    {
        !self.is_failing && now.number() >= self.quiet_until
    }
}
