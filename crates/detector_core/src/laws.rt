//! Theorems that callers may cite, about a run of picks, about verdicts and about timers.
ghost use Rattle.std.specs.Prelude.{◌≡◌, ℕ, List};
ghost use Rattle.detector_core.specs.Helpers.{DecidesByWords};
ghost use Rattle.detector_core.specs.Picks.{AcksAreOne, BoundIsLow, HoldsEach, LossesAreOne, PicksAreOne, WordsAreOne};
ghost use Rattle.detector_core.specs.Timers.{IsAscending, GivesLeastDue};
ghost use Rattle.detector_core.specs.declared.timers.Timer.{Timer};

/// A member of n that stay is at most 2n - 2 picks away, so any 2n - 1 consecutive picks hold each of them
/// (SWIM, section 4.3).
pub fn each_member_is_picked()
    ensures bound { BoundIsLow }
    ensures each { HoldsEach }
{}

/// A report `Reached` ends the probe. After any other report it waits as long as another helper has not reported; else
/// it is suspect if and only if this or another helper reported `NotReached`, and else inconclusive.
pub fn helpers_decide()
    ensures { DecidesByWords }
{}

/// The due timer is that of the least address among the timers at or past their deadline, and none is due if and only
/// if there is none of these.
pub fn least_address_is_due()
    ensures { (ts : List Timer) (now : ℕ) → IsAscending ts → GivesLeastDue ts now }
{}

/// Two probers that agree give the same result at a pick and at a loss if no allocation fails, and at a helper's report
/// and at an ack always, and agree afterwards. Two new ones agree if their seeds, numbers of helpers and last numbers
/// are equal, by the contract of `Prober::new`.
pub fn a_run_follows_from_its_inputs()
    ensures picks { PicksAreOne }
    ensures losses { LossesAreOne }
    ensures words { WordsAreOne }
    ensures acks { AcksAreOne }
{}
