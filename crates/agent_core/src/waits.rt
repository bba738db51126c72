//! The limit that a client sets to the wait of its request.
ghost use Rattle.std.specs.Prelude.{◌≡◌, option_copied};
ghost use Rattle.agent_core.specs.Requests.{wait_by, wait_of};

use crate::refusals::{Part, Refusal};
use crate::routes::number_of;

/// The most milliseconds that this limit can be. No request waits for longer without a limit.
const MAX_WAIT: usize = 60_000;

/// Returns the limit that a number of milliseconds is, if there is one.
fn limit_by(millis: Option<usize>) -> Result<Option<u64>, Refusal>
    ensures { result ≡ wait_by millis }
{
    match millis {
        Some(millis) => Ok(Some(millis as u64)),
        None => Err(Refusal::Malformed(Part::WaitField)),
    }
}

/// Returns the milliseconds to which a client limits the wait of its request, by the text of the field that says it; None without that field.
///
/// # Errors
///
/// - `Malformed(Part::WaitField)`: the text is not a number from 1 to 60,000 in decimal digits.
pub fn wait_of(field: Option<&str>) -> Result<Option<u64>, Refusal>
    ensures { result ≡ wait_of (option_copied field.entry) }
{
    match field {
        Some(digits) => limit_by(number_of(digits, MAX_WAIT)),
        None => Ok(None),
    }
}
