//! What requests for the owners of many keys, and for the ring, ask by their queries.
ghost use Rattle.std.specs.Prelude.{◌≡◌, ◌≢◌, IfErr, IfOk, Ok, option_copied, option_map, true};
ghost use Rattle.std.specs.List.{list_all};
ghost use Rattle.agent_core.specs.Requests.{awaited_by, awaited_in, count_by, count_of, cut, digest_by, first_word, has_more, if_others, is_digest, is_digit, is_named, keys_in, listed, question_at, ring_of, seconds_by, seconds_of, wanted_in, with_both};
ghost use Rattle.agent_core.specs.declared.refusals.Part.TheVariants.{OwnersQuery};

use crate::actions::Action;
use crate::key_lists::keys_in;
use crate::refusals::{Part, Refusal};
use crate::routes::{count_by, count_of, text_of};
use std::alloc::Global;

/// The most seconds that a question about the ring may wait.
pub const MAX_SECONDS: usize = 60;

/// The name of the parameter that leaves out the keys of the node itself.
const NOT_MINE: &str = "not-mine=";

/// The number of digits of a digest.
const DIGEST_DIGITS: usize = 64;

/// Returns the parts of a query before and after its first `&`; None if it has none.
fn cut(query: &str) -> Option<(&str, &str)>
    ensures { option_map (λ parts. (parts.0.now, parts.1.now)) result ≡ cut query.now }
{
    query.split_once('&')
}

/// Returns whether a query has more than one parameter.
fn has_more(query: &str) -> bool
    ensures { result ≡ has_more query.now }
{
    query.split_once('&').is_some()
}

/// Returns whether a parameter has a name, which ends with `=`.
fn is_named(name: &'static str, parameter: &str) -> bool
    ensures { result ≡ is_named name.now parameter.now }
{
    parameter.strip_prefix(name).is_some()
}

/// Returns that the keys of the node itself are left out, and this number of owners, if a parameter is `not-mine=1`.
fn if_others(parameter: &str, count: usize) -> Result<(bool, usize), Refusal>
    ensures { result ≡ if_others parameter.now (Ok (true, count)) }
{
    match parameter.strip_prefix(NOT_MINE) {
        Some("1") => Ok((true, count)),
        Some(_) => Err(Refusal::Malformed(Part::NotMine)),
        None => Err(Refusal::Malformed(Part::OwnersQuery)),
    }
}

/// Returns that the keys of the node itself are left out, and the number of owners, by two parameters.
fn wanted_by(others: &str, count: &str) -> Result<(bool, usize), Refusal>
    ensures { result ≡ with_both (count_by OwnersQuery count.now) others.now }
{
    let count = count_by(count, Part::OwnersQuery)?;
    if_others(others, count)
}

/// Returns whether the query of a request for the owners of keys leaves out those of the node itself, and the number of owners of each.
fn wanted_in(query: Option<&str>) -> Result<(bool, usize), Refusal>
    ensures { result ≡ wanted_in (option_copied query.entry) }
{
    let Some(query) = query else {
        return Ok((false, 1));
    };
    match cut(query) {
        Some((_, last)) if has_more(last) => Err(Refusal::Malformed(Part::OwnersQuery)),
        Some((first, last)) if is_named(NOT_MINE, first) => wanted_by(first, last),
        Some((first, last)) => wanted_by(last, first),
        None if is_named(NOT_MINE, query) => if_others(query, 1),
        None => {
            let count = count_by(query, Part::OwnersQuery)?;
            Ok((false, count))
        }
    }
}

/// Returns the action of a request for the owners of keys.
pub(crate) fn all_owners(alloc: Global, query: Option<&str>, body: &[u8]) -> Result<Action, Refusal>
    ensures action { IfOk result (λ action. listed (keys_in body.now) (wanted_in (option_copied query.entry)) ≡ Ok action) }
    ensures refused { IfErr result (λ e. e ≢ Refusal.Memory → listed (keys_in body.now) (wanted_in (option_copied query.entry)) ≡ Err e) }
{
    let keys = keys_in(alloc, body)?;
    let (only_others, count) = wanted_in(query)?;
    Ok(Action::AllOwners {
        keys,
        count,
        only_others,
    })
}

/// Returns the number of seconds that decimal digits write; None if it is not 1 to 60, or has a sign.
fn seconds_of(digits: &str) -> Option<usize>
    ensures { result ≡ seconds_of (count_of digits.now) }
{
    let seconds = count_of(digits)?;
    if seconds <= MAX_SECONDS {
        Some(seconds)
    } else {
        None
    }
}

/// Returns whether a byte is a digit of the text of a digest.
fn is_digit(byte: u8) -> bool
    ensures { result ≡ is_digit byte }
{
    matches!(byte, b'0'..=b'9' | b'a'..=b'f')
}

/// Returns whether all bytes are digits of the text of a digest.
fn are_digits(bytes: &[u8]) -> bool
    ensures { result ≡ list_all is_digit bytes.now }
{
    bytes.iter().all(|byte| is_digit(*byte))
}

/// Returns whether a text is that of a digest.
fn is_digest(text: &str) -> bool
    ensures { result ≡ is_digest text.now }
{
    text.len() == DIGEST_DIGITS && are_digits(text.as_bytes())
}

/// Returns the digest of a parameter `after`.
fn digest_by(parameter: &str) -> Result<&str, Refusal>
    ensures digest { IfOk result (λ digest. digest_by parameter.now ≡ Ok digest.now) }
    ensures refused { IfErr result (λ e. digest_by parameter.now ≡ Err e) }
{
    match parameter.strip_prefix("after=") {
        Some(text) if is_digest(text) => Ok(text),
        Some(_) => Err(Refusal::Malformed(Part::After)),
        None => Err(Refusal::Malformed(Part::RingQuery)),
    }
}

/// Returns the seconds of a parameter `wait`.
fn seconds_by(parameter: &str) -> Result<usize, Refusal>
    ensures { result ≡ seconds_by parameter.now }
{
    let Some(digits) = parameter.strip_prefix("wait=") else {
        return Err(Refusal::Malformed(Part::RingQuery));
    };
    seconds_of(digits).ok_or(Refusal::Malformed(Part::Wait))
}

/// Returns the digest and the seconds of two parameters.
fn awaited_by<'a>(after: &'a str, wait: &str) -> Result<(&'a str, usize), Refusal>
    ensures awaited { IfOk result (λ a. awaited_by (digest_by after.now) (seconds_by wait.now) ≡ Ok (a.0.now, a.1)) }
    ensures refused { IfErr result (λ e. awaited_by (digest_by after.now) (seconds_by wait.now) ≡ Err e) }
{
    let digest = digest_by(after)?;
    let seconds = seconds_by(wait)?;
    Ok((digest, seconds))
}

/// Returns the digest that the query of a request for the ring knows, and the seconds that it may wait.
fn awaited_in(query: &str) -> Result<(&str, usize), Refusal>
    ensures awaited { IfOk result (λ a. awaited_in query.now ≡ Ok (a.0.now, a.1)) }
    ensures refused { IfErr result (λ e. awaited_in query.now ≡ Err e) }
{
    match cut(query) {
        Some((_, last)) if has_more(last) => Err(Refusal::Malformed(Part::RingQuery)),
        Some((first, last)) if is_named("wait=", first) => awaited_by(last, first),
        Some((first, last)) => awaited_by(first, last),
        None => {
            let digest = digest_by(query)?;
            Ok((digest, 0))
        }
    }
}

/// Returns the action of a request for the ring.
pub(crate) fn ring(alloc: Global, query: Option<&str>) -> Result<Action, Refusal>
    ensures action { IfOk result (λ action. ring_of (option_copied query.entry) ≡ Ok action) }
    ensures refused { IfErr result (λ e. e ≢ Refusal.Memory → ring_of (option_copied query.entry) ≡ Err e) }
{
    let Some(query) = query else {
        return Ok(Action::Ring { after: None });
    };
    let (digest, _) = awaited_in(query)?;
    let digest = text_of(alloc, digest)?;
    Ok(Action::Ring {
        after: Some(digest),
    })
}

/// Returns the first word of a text; None if no space comes after it.
fn first_word(text: &str) -> Option<&str>
    ensures { option_copied result ≡ first_word text.now }
{
    match text.split_once(' ') {
        Some((word, _)) => Some(word),
        None => None,
    }
}

/// Returns the digest and the seconds of a question that waits, by the text with which its request starts; None if this is not the whole of its
/// first line, asks for something else, or is malformed.
pub fn question_at(head: &str) -> Option<(&str, usize)>
    ensures { option_map (λ awaited. (awaited.0.now, awaited.1)) result ≡ question_at head.now }
{
    let rest = head.strip_prefix("GET /ring?")?;
    let query = first_word(rest)?;
    awaited_in(query).ok()
}
