ghost use Rattle.std.specs.Prelude.{◌≡◌, ◌==◌, ◌&&◌, is_none, map};
ghost use Rattle.std.specs.List.{list_any};

use change_core::Address;

/// A helper's report on a target: it reached it, it did not, or the helper itself failed to answer.
#[derive(Clone, Copy, Debug, PartialEq, Eq)]
pub enum Said {
    Reached,
    NotReached,
    Failed,
}

impl Said {
    ghost use Rattle.detector_core.specs.Helpers.{is_reached};

    fn is_reached(&self) -> bool
        ensures { result ≡ is_reached self.now }
    {
        matches!(self, Said::Reached)
    }
}

/// The outcome of a probe. All but `Waiting` end it.
#[derive(Clone, Copy, Debug, PartialEq, Eq)]
pub enum Outcome {
    Waiting,
    Reached,
    Suspect,
    Inconclusive,
}

/// A helper that was asked, and its report.
#[derive(Clone, Copy, Debug)]
pub struct AskedHelper {
    pub helper: Address,
    pub said: Option<Said>,
}

impl AskedHelper {
    ghost use Rattle.detector_core.specs.Helpers.{noted, missed};

    /// The same, with what this helper said.
    fn noted(&self, helper: Address, said: Said) -> AskedHelper
        ensures { result ≡ noted helper said self.now }
    {
        if self.helper == helper {
            AskedHelper {
                helper,
                said: Some(said),
            }
        } else {
            *self
        }
    }

    /// Returns whether the helper reported that it did not reach the target.
    fn missed(&self) -> bool
        ensures { result ≡ missed self.now }
    {
        matches!(self.said, Some(Said::NotReached))
    }
}

ghost use Rattle.detector_core.specs.Helpers.{noted, missed, waits, outcome_after, first_waiting};

/// Returns whether this helper was asked and has not answered.
pub(crate) fn waits(asked: &[AskedHelper], helper: Address) -> bool
    ensures { result ≡ waits asked.now helper }
{
    asked.iter().any(|q| q.helper == helper && q.said.is_none())
}

/// Returns the outcome of the probe after this report of this helper.
pub(crate) fn outcome_after(asked: &[AskedHelper], helper: Address, said: Said) -> Outcome
    ensures { result ≡ outcome_after asked.now helper said }
{
    if said.is_reached() {
        Outcome::Reached
    } else if waits_for_another(asked, helper, said) {
        Outcome::Waiting
    } else if one_missed(asked, helper, said) {
        Outcome::Suspect
    } else {
        Outcome::Inconclusive
    }
}

/// Returns whether a helper has not answered after this report.
fn waits_for_another(asked: &[AskedHelper], helper: Address, said: Said) -> bool
    ensures { result ≡ list_any (λ q. is_none q.said) (map (noted helper said) asked.now) }
{
    asked
        .iter()
        .map(|q| q.noted(helper, said))
        .any(|q| q.said.is_none())
}

/// Returns whether a helper did not reach the target, after this report.
fn one_missed(asked: &[AskedHelper], helper: Address, said: Said) -> bool
    ensures { result ≡ list_any missed (map (noted helper said) asked.now) }
{
    asked
        .iter()
        .map(|q| q.noted(helper, said))
        .any(|q| q.missed())
}

/// Notes what a helper said.
pub(crate) fn note(asked: &mut [AskedHelper], helper: Address, said: Said)
    ensures { asked.new ≡ map (noted helper said) asked.old }
{
    for q in asked.iter_mut() {
        *q = q.noted(helper, said);
    }
}

/// The helper of least address that has not answered.
pub(crate) fn first_waiting(asked: &[AskedHelper]) -> Option<Address>
    ensures { result ≡ first_waiting asked.now }
{
    asked
        .iter()
        .filter(|q| q.said.is_none())
        .map(|q| q.helper)
        .min()
}
