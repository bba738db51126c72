ghost use Rattle.std.specs.Prelude.{◌≡◌, ℕ, ◌<◌, ◌≤◌, ◌↔◌, ◌⊎◌, [], None, Some, Ok, Err, IsSome, IfOk, IfSome, IfErr, OnOk, OnErr, IsOk, IsErr, IsErrOf, IsOkUnless, MatchOption};
ghost use Rattle.std.specs.List.Sorted.{IsStrictlyIncreasing};
ghost use Rattle.change_core.specs.Numbers.{greatest_number};
ghost use Rattle.detector_core.specs.Choices.{seeded};
ghost use Rattle.detector_core.specs.Order.{near};
ghost use Rattle.detector_core.specs.Picks.{IsDrawnLoss, IsDrawnPick, IsPick, WasLost, running_of};
ghost use Rattle.detector_core.specs.Probing.{IsProbing, running_target, unasked_target, helper_count, would_say, after_saying};

use crate::addresses::Addresses;
use crate::asked::{self, AskedHelper, Outcome, Said};
use crate::errors::DetectorError;
use crate::helpers;
use crate::order::{self, Order};
use change_core::{Address, MAX_NUMBER};
use rand_core::SeedableRng;
use rand_pcg::Pcg32;
use std::alloc::Global;
use std::marker::Model;

/// A probe: its number and its target. Numbers rise by one, to 2^53 - 1.
#[derive(Clone, Copy, Debug, PartialEq, Eq)]
pub struct Probe {
    pub number: u64,
    pub target: Address,
}

/// The probe that runs, and the helper of least address that was asked and has not answered.
#[derive(Clone, Copy, Debug, PartialEq, Eq)]
pub struct Running {
    pub number: u64,
    pub target: Address,
    pub waiting: Option<Address>,
}

/// The helpers to ask about a target that was lost (SWIM, section 3.1: ping-req), or none, which ends the probe.
#[derive(Debug, Drop)]
pub enum Lost {
    Ask(Addresses),
    NoHelper,
}

/// The target of the running probe, and the helpers that were asked.
#[derive(Drop)]
struct OpenProbe {
    target: Address,
    asked: Vec<AskedHelper>,
}

/// A prober: it picks targets and follows one probe at a time (SWIM, sections 3.1 and 4.3). Contracts see the last
/// number used, which is the running probe's, how many helpers are asked, the rest of the current order, the generator
/// of random choices, and the running probe.
#[derive(Drop)]
pub struct Prober {
    rng: Pcg32,
    helpers: usize,
    last: u64,
    order: Order,
    running: Option<OpenProbe>,
    alloc: Global,
}

impl Model for Prober {
    ghost use Rattle.std.specs.Option.{option_map};
    ghost use Rattle.detector_core.specs.Probing.{IsProbing, ProbeState};

    ghost Value = { ProbeState };

    ghost view = { λ p. record {
      last = p.last;
      helpers = p.helpers;
      rest = p.order;
      generator = p.rng;
      running = option_map (λ a. record { target = a.target; asked = a.asked.items }) p.running;
    } };

    ghost invariant = { λ p. IsProbing (record {
      last = p.last;
      helpers = p.helpers;
      rest = p.order;
      generator = p.rng;
      running = option_map (λ a. record { target = a.target; asked = a.asked.items }) p.running;
    }) };
}

impl Prober {
    /// A prober whose random choices follow from the seed, which asks up to `helpers` members about a lost target, and
    /// whose next probe has the number after `last` (0 for a new node). It takes no memory yet.
    pub fn new(alloc: Global, seed: u64, helpers: usize, last: u64) -> Self
        requires { last ≤ greatest_number }
        ensures { result
            ≡ record { last = last; helpers = helpers; rest = []; generator = seeded seed; running = None } }
    {
        Prober {
            rng: Pcg32::seed_from_u64(seed),
            helpers,
            last,
            order: Order::new(alloc),
            running: None,
            alloc,
        }
    }

    /// Checks that a probe could start, if there is a member to ping.
    ///
    /// # Errors
    ///
    /// - `Busy`: a probe runs. This is checked first.
    /// - `Spent`: the last number is 2^53 - 1.
    pub fn may_begin(&self) -> Result<(), DetectorError>
        ensures free { IsOk result ↔ ((self.now.running ≡ None) × (self.now.last < greatest_number)) }
        ensures busy { IsErrOf result DetectorError.Busy ↔ IsSome self.now.running }
        ensures spent { IsErrOf result DetectorError.Spent
            ↔ ((self.now.running ≡ None) × (self.now.last ≡ greatest_number)) }
        ensures refusal { IfErr result (λ e. (e ≡ DetectorError.Busy) ⊎ (e ≡ DetectorError.Spent)) }
    {
        if self.running.is_some() {
            return Err(DetectorError::Busy);
        }
        if self.last == MAX_NUMBER {
            return Err(DetectorError::Spent);
        }
        Ok(())
    }

    /// Starts a probe of the next member in turn. Members that are not pingable are skipped, and when the order is used
    /// up a new random one is made of those that are pingable now (SWIM, section 4.3); a member that joins in between
    /// waits for the next order. Returns None, and changes nothing, if and only if no member is pingable and neither
    /// `Busy` nor `Spent` applies. After an error nothing has changed.
    ///
    /// # Errors
    ///
    /// - `Busy`: a probe runs. This is checked first.
    /// - `Spent`: the last number is 2^53 - 1.
    /// - `Memory`: out of memory for a new order.
    pub fn next_target(&mut self, pingable: &[Address]) -> Result<Option<Probe>, DetectorError>
        requires { IsStrictlyIncreasing pingable.now }
        ensures busy { IsErrOf result DetectorError.Busy ↔ IsSome self.old.running }
        ensures spent { IsErrOf result DetectorError.Spent
            ↔ ((self.old.running ≡ None) × (self.old.last ≡ greatest_number)) }
        ensures none { (result ≡ Ok None)
            ↔ ((self.old.running ≡ None) × (self.old.last < greatest_number) × (pingable.now ≡ [])) }
        ensures pick { IfOk result
            (λ o. MatchOption o (self.new ≡ self.old) (λ p. IsPick pingable.now self.old p self.new)) }
        ensures drawn { IfOk result (λ o. IfSome o (λ p. IsDrawnPick pingable.now self.old p self.new)) }
        ensures err { OnErr result (self.new ≡ self.old) }
        ensures refusal { IfErr result
            (λ e. (e ≡ DetectorError.Busy) ⊎ ((e ≡ DetectorError.Spent) ⊎ (e ≡ DetectorError.Memory))) }
        ensures memory { IsErrOf result DetectorError.Memory → near pingable.now self.old.rest ≡ [] }
    {
        self.may_begin()?;
        if pingable.is_empty() {
            return Ok(None);
        }
        let target = order::pick(self.alloc, &mut self.order, &mut self.rng, pingable)?;
        self.last += 1;
        self.running = Some(OpenProbe {
            target,
            asked: Vec::new(self.alloc),
        });
        Ok(Some(Probe {
            number: self.last,
            target,
        }))
    }

    /// The target of the probe of this number, if it runs.
    pub fn target_of(&self, number: u64) -> Option<Address>
        ensures { result ≡ running_target self.now number }
    {
        match &self.running {
            Some(probe) if number == self.last => Some(probe.target),
            _ => None,
        }
    }

    /// Ends a probe whose target was reached, also after helpers were asked. After an error nothing has changed.
    ///
    /// # Errors
    ///
    /// - `StaleProbe`: it is not the running probe.
    pub fn acked(&mut self, number: u64) -> Result<(), DetectorError>
        ensures ok { OnOk result (self.new ≡ record self.old { running = None }) }
        ensures stale { IsErr result ↔ (running_target self.old number ≡ None) }
        ensures err { OnErr result (self.new ≡ self.old) }
        ensures refusal { IsOkUnless result DetectorError.StaleProbe }
    {
        if self.target_of(number).is_none() {
            return Err(DetectorError::StaleProbe);
        }
        self.running = None;
        Ok(())
    }

    /// Ends a probe whose target was lost, without asking helpers. After an error nothing has changed.
    ///
    /// # Errors
    ///
    /// - `StaleProbe`: it is not the running probe, or helpers were asked already.
    pub fn give_up(&mut self, number: u64) -> Result<(), DetectorError>
        ensures ok { OnOk result (self.new ≡ record self.old { running = None }) }
        ensures stale { IsErr result ↔ (unasked_target self.old number ≡ None) }
        ensures err { OnErr result (self.new ≡ self.old) }
        ensures refusal { IsOkUnless result DetectorError.StaleProbe }
    {
        if self.unasked_target(number).is_none() {
            return Err(DetectorError::StaleProbe);
        }
        self.running = None;
        Ok(())
    }

    /// Ends the direct ping of a probe as lost, and returns the helpers to ask about its target: different members,
    /// pingable and not the target, as many as this prober asks or all there are (SWIM, section 3.1). If there is none,
    /// the probe ends, and no memory is needed. After an error nothing has changed.
    ///
    /// # Errors
    ///
    /// - `StaleProbe`: it is not the running probe, or helpers were asked already.
    /// - `Memory`: out of memory for the helpers.
    pub fn lost(&mut self, number: u64, pingable: &[Address]) -> Result<Lost, DetectorError>
        requires { IsStrictlyIncreasing pingable.now }
        ensures stale { IsErrOf result DetectorError.StaleProbe
            ↔ (unasked_target self.old number ≡ None) }
        ensures ok { IfOk result (λ l. (target : ℕ)
            × (unasked_target self.old number ≡ Some target)
            × WasLost pingable.now target self.old l self.new) }
        ensures drawn { IfOk result (λ l. (target : ℕ) → unasked_target self.old number ≡ Some target
            → IsDrawnLoss pingable.now target self.old l self.new) }
        ensures nobody { (target : ℕ) → unasked_target self.old number ≡ Some target
            → helper_count self.old pingable.now target ≡ 0 → result ≡ Ok Lost.NoHelper }
        ensures err { OnErr result (self.new ≡ self.old) }
        ensures refusal { IfErr result (λ e. (e ≡ DetectorError.StaleProbe) ⊎ (e ≡ DetectorError.Memory)) }
    {
        let Some(target) = self.unasked_target(number) else {
            return Err(DetectorError::StaleProbe);
        };
        if !helpers::can_ask(pingable, target, self.helpers) {
            self.running = None;
            return Ok(Lost::NoHelper);
        }
        // Choices are drawn from a copy, so that an error leaves the generator unchanged.
        let mut rng = self.rng.clone().unwrap();
        let chosen = helpers::choose(self.alloc, &mut rng, pingable, target, self.helpers)?;
        let asked = helpers::unanswered(self.alloc, &chosen)?;
        self.rng = rng;
        self.running = Some(OpenProbe { target, asked });
        Ok(Lost::Ask(Addresses::from_vec(chosen)))
    }

    /// The target of the probe of this number, if it runs and no helper was asked.
    pub fn unasked_target(&self, number: u64) -> Option<Address>
        ensures { result ≡ unasked_target self.now number }
    {
        match &self.running {
            Some(probe) if number == self.last && probe.asked.is_empty() => Some(probe.target),
            _ => None,
        }
    }

    /// Returns the probe that runs, with the helper of least address that was asked and has not answered. `lost`
    /// accepts it if and only if it waits for no helper: a probe whose helpers have all answered has ended.
    pub fn running(&self) -> Option<Running>
        ensures value { result ≡ running_of self.now }
        ensures unasked { IfSome result (λ r. (r.waiting ≡ None) ↔ (unasked_target self.now r.number ≡ Some r.target)) }
        // What holds of a prober between any two calls.
        ensures whole { IsProbing self.now }
    {
        let probe = self.running.as_ref()?;
        Some(Running {
            number: self.last,
            target: probe.target,
            waiting: asked::first_waiting(&probe.asked),
        })
    }

    /// Returns what `helper_said` would return, and changes nothing.
    ///
    /// # Errors
    ///
    /// - `StaleProbe`: it is not the running probe.
    /// - `NotAsked`: this helper was not asked, or has answered.
    pub fn would_say(
        &self,
        number: u64,
        helper: Address,
        said: Said,
    ) -> Result<Outcome, DetectorError>
        ensures { result ≡ would_say self.now number helper said }
    {
        match &self.running {
            Some(probe) if number == self.last => {
                if asked::waits(&probe.asked, helper) {
                    Ok(asked::outcome_after(&probe.asked, helper, said))
                } else {
                    Err(DetectorError::NotAsked)
                }
            }
            _ => Err(DetectorError::StaleProbe),
        }
    }

    /// Records a helper's report on the target, and returns the outcome of the probe. It is reached as soon as one
    /// helper reached the target. Once all have answered without that, it is suspect (SWIM, section 4.2) if one of them
    /// did not reach it, and inconclusive if all failed. Every outcome but `Waiting` ends the probe. After an error
    /// nothing has changed.
    ///
    /// # Errors
    ///
    /// - `StaleProbe`: it is not the running probe.
    /// - `NotAsked`: this helper was not asked, or has answered.
    pub fn helper_said(
        &mut self,
        number: u64,
        helper: Address,
        said: Said,
    ) -> Result<Outcome, DetectorError>
        ensures answer { result ≡ would_say self.old number helper said }
        ensures ok { IfOk result (λ o. self.new ≡ after_saying self.old helper said o) }
        ensures err { OnErr result (self.new ≡ self.old) }
    {
        let outcome = self.would_say(number, helper, said)?;
        if outcome != Outcome::Waiting {
            self.running = None;
        } else if let Some(probe) = &mut self.running {
            asked::note(probe.asked.as_mut_slice(), helper, said);
        }
        Ok(outcome)
    }
}
