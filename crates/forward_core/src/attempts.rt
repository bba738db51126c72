//! A request on its way: when it may be sent, to which node, and when it is abandoned.
ghost use Rattle.std.specs.Prelude.{◌≡◌, ◌<◌, ◌≤◌, MatchOption};
ghost use Rattle.forward_core.specs.Attempts.{IsAttempt, IsDue, IsOpen, most_sends, started, with_keys, ReadyStep, FailedStep};

use crate::errors::ForwardError;
use crate::routes::Route;
use crate::routing::route_keys;
use change_core::{Address, Moment};
use hash_ring::PointHash;
use message_core::Keys;
use node_core::View;
use std::marker::Model;

/// The greatest number of sends of an attempt.
pub const MAX_SENDS: u32 = 4;

/// The pauses in milliseconds after an attempt's first, second and third failure.
const PAUSES: [u64; 3] = [3_000, 6_000, 12_000];

/// The next step of an attempt.
#[derive(Clone, Copy, Debug, PartialEq, Eq)]
pub enum Step {
    /// It rests until the moment of this number, which may lie past the greatest moment and is then never reached.
    Wait(u64),
    /// It is handled by this node.
    Here,
    /// It is sent to the node of this address.
    Send(Address),
}

/// The stage of an attempt.
#[derive(Clone, Copy, Debug, PartialEq, Eq)]
enum Stage {
    /// It has not been sent.
    New,
    /// It was sent, and that send has not failed.
    InFlight,
    /// Its last send failed, and it rests until the moment of this number.
    Resting(u64),
    /// Its last send failed, and none is left.
    Spent,
}

/// A request that is sent until a send is answered or none is left, each time to the owner of its keys at that time.
/// Only failures are reported to an attempt: one that was answered is dropped. The caller passes each moment; the
/// attempt reads no clock. Contracts see its keys, how often it was sent, and its stage.
#[derive(Debug, Drop)]
pub struct Attempt {
    keys: Keys,
    sends: u32,
    stage: Stage,
}

impl Model for Attempt {
    ghost use Rattle.forward_core.specs.Attempts.{AttemptState, IsAttempt};

    ghost Value = { AttemptState };

    ghost view = { λ a. record { keys = a.keys; sends = a.sends; stage = a.stage } };

    ghost invariant = { λ a. IsAttempt a.sends a.stage };
}

/// An attempt whose keys are lent, as for the message that sends it. Contracts see how often it was sent, and its
/// stage.
#[derive(Debug, Drop)]
pub struct Lent {
    sends: u32,
    stage: Stage,
}

impl Model for Lent {
    ghost use Rattle.forward_core.specs.Attempts.{LentState, IsAttempt};

    ghost Value = { LentState };

    ghost view = { λ a. record { sends = a.sends; stage = a.stage } };

    ghost invariant = { λ a. IsAttempt a.sends a.stage };
}

impl Lent {
    /// Returns the attempt with these keys, which are those that were lent if it is to be the same attempt.
    pub fn take_back(self, keys: Keys) -> Attempt
        ensures { result ≡ with_keys keys self }
    {
        Attempt {
            keys,
            sends: self.sends,
            stage: self.stage,
        }
    }
}

impl Attempt {
    /// An attempt for the request of these keys, not sent yet. It takes no memory.
    pub fn start(keys: Keys) -> Self
        ensures { result ≡ started keys }
    {
        Attempt {
            keys,
            sends: 0,
            stage: Stage::New,
        }
    }

    /// Returns the next step, by the given view: the owner is looked up again each time. The step is `Wait` while the
    /// attempt rests, which it does for 3,000, 6,000 and 12,000 milliseconds after its first, second and third failure.
    /// It is `Here` if this node owns the keys, and else `Send`, which counts one send and puts it in flight; any other
    /// result changes nothing.
    ///
    /// # Errors
    ///
    /// The first that applies is returned, before any `Wait`.
    ///
    /// - `RetriesSpent`: the fourth send has failed.
    /// - `InFlight`: a send is in flight.
    /// - `Diverged`: two of the keys have different owners.
    /// - `Nobody`: no member serves.
    pub fn ready<H: PointHash>(&mut self, view: &View<H>, now: Moment) -> Result<Step, ForwardError>
        ensures { ReadyStep H.hash_of view.now now self.old result self.new }
    {
        match self.stage {
            Stage::Spent => return Err(ForwardError::RetriesSpent),
            Stage::InFlight => return Err(ForwardError::InFlight),
            Stage::New | Stage::Resting(_) => {}
        }
        let route = route_keys(view, &self.keys)?;
        if matches!(route, Route::Nobody) {
            return Err(ForwardError::Nobody);
        }
        if let Some(until) = self.rest(now) {
            return Ok(Step::Wait(until));
        }
        let Route::To(owner) = route else {
            return Ok(Step::Here);
        };
        self.sends += 1;
        self.stage = Stage::InFlight;
        Ok(Step::Send(owner))
    }

    /// Until when it rests, if it still does at this moment.
    fn rest(&self, now: Moment) -> Option<u64>
        ensures { MatchOption result (IsOpen self.now.stage → IsDue self.now.stage now)
            (λ until. (self.now.stage ≡ Stage.Resting until) × (now < until)) }
    {
        match self.stage {
            Stage::Resting(until) if now.number() < until => Some(until),
            _ => None,
        }
    }

    /// Records that the send in flight failed at this moment: the attempt rests from then on, or is spent.
    ///
    /// # Errors
    ///
    /// - `NotInFlight`: no send is in flight. Nothing changes.
    /// - `RetriesSpent`: this is the fourth failure, which ends the attempt.
    pub fn failed(&mut self, now: Moment) -> Result<(), ForwardError>
        ensures { FailedStep now self.old result self.new }
    {
        if self.stage != Stage::InFlight {
            return Err(ForwardError::NotInFlight);
        }
        if self.sends == MAX_SENDS {
            self.stage = Stage::Spent;
            return Err(ForwardError::RetriesSpent);
        }
        let pause = PAUSES[self.sends as usize - 1];
        self.stage = Stage::Resting(now.number() + pause);
        Ok(())
    }

    /// Returns how often it was sent, from 0 to 4.
    pub fn sends(&self) -> u32
        ensures count { result ≡ self.now.sends }
        ensures within { result ≤ most_sends }
        // What holds of an attempt between any two calls.
        ensures whole { IsAttempt self.now.sends self.now.stage }
    {
        self.sends
    }

    /// Returns its keys, for as long as a message needs them, and the attempt without them. It takes no memory.
    pub fn lend(self) -> (Keys, Lent)
        ensures { self ≡ with_keys result.0 result.1 }
    {
        let Attempt { keys, sends, stage } = self;
        (keys, Lent { sends, stage })
    }

    /// Its keys.
    pub fn keys(&self) -> &Keys
        ensures { result.now ≡ self.now.keys }
    {
        &self.keys
    }
}
