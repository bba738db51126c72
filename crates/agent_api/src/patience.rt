//! The time for which a request of a key may wait: its client may limit it. The link, the clock and the handler of the request keep to it.
ghost use Rattle.std.specs.Prelude.{◌≡◌, ◌*◌, min, false, true};
ghost use Rattle.std.specs.Duration.{as_nanos};
ghost use Rattle.agent_api.specs.Performing.{early_refusal};

use agent_application::Limited;
use agent_core::Refusal;
use agent_node::Agent;
use agent_state::{Count, Host};
use change_core::Moment;
use message_core::{Keys, Text};
use peer_core::{Clock, Handler, HandlerFault, HandlerMut};
use std::alloc::Global;
use std::sync::Wait;
use std::time::Duration;
use transport::Limits;

/// The time for which one request may wait, from when it was begun.
#[derive(Drop)]
pub struct Patience<'a, R> {
    pub agent: &'a Agent<R>,
    /// The number of the moment at which the wait is over.
    until: u64,
    /// The number of the moment until which a rest was to last that was cut short.
    skipped: Count,
}

/// Returns time limits with this many milliseconds for a request, if that is less than they have.
pub fn limits_within(limits: Limits, millis: u64) -> Limits
    ensures request { as_nanos result.other ≡ min (as_nanos limits.other) (millis * 1000000) }
    ensures ping { result.ping ≡ limits.ping }
    ensures helper { result.helper ≡ limits.helper }
{
    let left = Duration::from_millis(millis);
    Limits {
        other: if left < limits.other {
            left
        } else {
            limits.other
        },
        ..limits
    }
}

/// Returns the refusal of a request that ended early, by whether a node may have performed it, whether it may be performed twice, and the limit
/// of its wait in milliseconds. None if it can't have ended early.
pub fn early_refusal(is_unsure: bool, is_repeatable: bool, limit: Option<u64>) -> Option<Refusal>
    ensures { result ≡ early_refusal is_unsure is_repeatable limit }
{
    match limit {
        None if is_repeatable => None,
        None => Some(Refusal::AnswerLost),
        Some(_) if is_unsure => Some(Refusal::AnswerLost),
        Some(_) => Some(Refusal::OwnerSilent),
    }
}

impl<'a, R: Host> Patience<'a, R> {
    /// Begins to wait, for these milliseconds if there is a limit.
    pub fn begin(agent: &'a Agent<R>, limit: Option<u64>) -> Self
        ensures { result.agent ≡ agent.entry }
    {
        let until = match limit {
            Some(millis) => agent.now().number().saturating_add(millis),
            None => u64::MAX,
        };
        Patience {
            agent,
            until,
            skipped: Count::new(),
        }
    }

    /// Returns the milliseconds that are left.
    pub fn left(&self) -> u64 {
        self.until.saturating_sub(self.agent.now().number())
    }
}

impl<'a, R: Host> Clock for Patience<'a, R> {
    // the behaviour of the system's clock is unknown
    ghost time = { record { told = λ _. Unit {0}; waited = λ _. Unit {0} } };

    fn now(&self) -> Moment {
        let now = self.agent.now();
        match Moment::new(now.number().max(self.skipped.get())) {
            Some(moment) => moment,
            None => now,
        }
    }

    // a rest that would last longer than the wait is taken as over once the wait is: then the link or the handler ends the request
    fn wait_until<W: Wait>(&self, rt: &W, moment: u64) {
        self.agent.clock().wait_until(rt, moment.min(self.until));
        self.skipped.set(moment);
    }
}

/// The application as one request asks it, which keeps to the time for which the request may wait.
#[derive(Drop)]
pub struct Patient<'p, 'a, R> {
    patience: &'p Patience<'a, R>,
    /// Whether the application was asked.
    pub was_asked: bool,
    /// Whether the wait was over before the application was asked, or before it answered.
    pub is_over: bool,
}

impl<'p, 'a, R: Host> Patient<'p, 'a, R> {
    /// Makes the handler of one request, by which the application was not asked.
    pub fn new(patience: &'p Patience<'a, R>) -> Self
        ensures asked { result.was_asked ≡ false }
    {
        Patient {
            patience,
            was_asked: false,
            is_over: false,
        }
    }

    /// Ends the request, by the one error of a handler after which it is not tried again.
    fn end(&mut self) -> HandlerFault
        ensures fault { result ≡ HandlerFault.Memory }
        ensures over { self.new.is_over ≡ true }
        ensures asked { self.new.was_asked ≡ self.old.was_asked }
    {
        self.is_over = true;
        HandlerFault::Memory
    }
}

impl<'p, 'a, R: Host> HandlerMut for Patient<'p, 'a, R> {
    ghost use Rattle.agent_api.specs.Patience.{asks_patiently};

    // a call of the application is noted
    ghost handled = { asks_patiently };

    fn handle_mut<W: Wait>(
        &mut self,
        rt: &W,
        alloc: Global,
        keys: &Keys,
        body: &Text,
    ) -> Result<Text, HandlerFault> {
        let left = self.patience.left();
        if left == 0 {
            return Err(self.end());
        }
        self.was_asked = true;
        let application = Limited::within(&self.patience.agent.application, left);
        let answer = application.handle(rt, alloc, keys, body);
        if self.patience.left() == 0 {
            return Err(self.end());
        }
        answer
    }
}
