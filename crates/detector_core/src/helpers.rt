ghost use Rattle.std.specs.Prelude.{◌≡◌, ◌<◌, IsTrue, ◌==◌, not, min, length, map, None, IfOk};
ghost use Rattle.std.specs.List.{list_any};
ghost use Rattle.std.specs.List.Sorted.{IsStrictlyIncreasing};
ghost use Rattle.detector_core.specs.Choices.{choices_of, sample};
ghost use Rattle.detector_core.specs.Helpers.{others, IsSample, unanswered};

use crate::asked::AskedHelper;
use crate::order;
use change_core::Address;
use rand_pcg::Pcg32;
use std::alloc::{AllocError, Global};

/// Returns whether there is a helper to ask: at most `count`, pingable and not the target.
pub(crate) fn can_ask(pingable: &[Address], target: Address, count: usize) -> bool
    ensures some { IsTrue result → 0 < min count (length (others pingable.now target)) }
    ensures none { IsTrue (not result) → min count (length (others pingable.now target)) ≡ 0 }
{
    count > 0 && has_other(pingable, target)
}

fn has_other(pingable: &[Address], target: Address) -> bool
    ensures { result ≡ list_any (λ a. not (a == target)) pingable.now }
{
    pingable.iter().any(|a| *a != target)
}

/// A random sample of `count` pingable members other than the target, or of all there are.
pub(crate) fn choose(
    alloc: Global,
    rng: &mut Pcg32,
    pingable: &[Address],
    target: Address,
    count: usize,
) -> Result<Vec<Address>, AllocError>
    requires { IsStrictlyIncreasing pingable.now }
    ensures chosen { IfOk result (λ v. IsSample (others pingable.now target)
        (min count (length (others pingable.now target))) v.items) }
    ensures drawn { IfOk result
        (λ v. sample (others pingable.now target) count (choices_of rng.old)
        ≡ (v.items, choices_of rng.new)) }
{
    let mut chosen = others(alloc, pingable, target)?;
    order::shuffle(&mut chosen, rng);
    chosen.truncate(count);
    Ok(chosen)
}

/// The pingable members other than the target.
fn others(alloc: Global, pingable: &[Address], target: Address) -> Result<Vec<Address>, AllocError>
    ensures { IfOk result (λ v. v.items ≡ others pingable.now target) }
{
    let mut others = Vec::from_slice(alloc, pingable)?;
    others.retain(|a| *a != target);
    Ok(others)
}

/// Returns the helpers as asked, without an answer yet.
pub(crate) fn unanswered(alloc: Global, helpers: &[Address]) -> Result<Vec<AskedHelper>, AllocError>
    ensures { IfOk result (λ v. v.items ≡ unanswered helpers.now) }
{
    let mut asked = Vec::with_capacity(alloc, helpers.len())?;
    for helper in helpers {
        asked.push(AskedHelper {
            helper: *helper,
            said: None,
        })?;
    }
    Ok(asked)
}
