//! The action that a request asks for, by its method, path, query and body.
ghost use Rattle.std.specs.Prelude.{◌≡◌, ◌≢◌, IfOk, IfErr, OnOk, option_copied};
ghost use Rattle.agent_core.specs.Requests.{AsksForKey, AsksForRing, asked, body_in, count_by, count_in, count_of, handled, key_in, key_text, level_in, log_at, named, number_of, open_at, place_of, plain, segment, verb_name};

use crate::actions::Action;
use crate::levels::LogLevel;
use crate::packs::MAX_BODY_BYTES;
use crate::questions::{all_owners, ring};
use crate::refusals::{Part, Refusal};
use crate::verbs::Verb;
use message_core::{Text, WireError};
use percent_encoding::{DecodeError, percent_decode};
use std::alloc::Global;

/// The most bytes in a key.
pub const MAX_KEY_BYTES: usize = 1_024;

/// The most owners that a request can ask for, which is the most members that a node holds.
pub const MAX_OWNERS: usize = 4_096;

/// Returns a copy of the text.
pub(crate) fn text_of(alloc: Global, text: &str) -> Result<Text, Refusal>
    ensures copy { IfOk result (λ t. t ≡ text.now) }
    ensures refusal { IfErr result (λ e. e ≡ Refusal.Memory) }
{
    Text::new(alloc, text).map_err(|_| Refusal::Memory)
}

/// Returns the key that a text encodes: percent-decoded, it is 1 to 1,024 bytes of UTF-8.
///
/// # Errors
///
/// - `Malformed(Part::Key)`: the text encodes no key.
/// - `Memory`: out of memory.
pub fn key_of(alloc: Global, path: &str) -> Result<Text, Refusal>
    ensures key { IfOk result (λ key. key_in path.now ≡ Ok key) }
    ensures refused { IfErr result (λ e. e ≢ Refusal.Memory → key_in path.now ≡ Err e) }
{
    let decoded = match percent_decode(path.as_bytes()).decode_utf8(alloc) {
        Ok(decoded) => decoded,
        Err(DecodeError::OutOfMemory) => return Err(Refusal::Memory),
        Err(DecodeError::Utf8(_)) => return Err(Refusal::Malformed(Part::Key)),
    };
    if decoded.is_empty() || decoded.len() > MAX_KEY_BYTES {
        return Err(Refusal::Malformed(Part::Key));
    }
    text_of(alloc, &decoded)
}

/// Returns the body as a text of at most 131,072 bytes.
fn body_of(alloc: Global, body: &[u8]) -> Result<Text, Refusal>
    ensures body { IfOk result (λ text. body_in body.now ≡ Ok text) }
    ensures refused { IfErr result (λ e. e ≢ Refusal.Memory → body_in body.now ≡ Err e) }
{
    if body.len() > MAX_BODY_BYTES {
        return Err(Refusal::LongBody);
    }
    match str::from_utf8(body) {
        Ok(text) => text_of(alloc, text),
        Err(_) => Err(Refusal::Malformed(Part::Body)),
    }
}

/// Returns the number that decimal digits write; None if it is not 1 to this greatest one, or has a sign.
pub(crate) fn number_of(digits: &str, most: usize) -> Option<usize>
    ensures { result ≡ number_of most digits.now }
{
    if digits.starts_with('+') {
        return None;
    }
    let Ok(number) = digits.parse::<usize>() else {
        return None;
    };
    if number >= 1 && number <= most {
        Some(number)
    } else {
        None
    }
}

/// Returns the number that decimal digits write; None if it is not 1 to 4,096, or has a sign.
pub(crate) fn count_of(digits: &str) -> Option<usize>
    ensures { result ≡ count_of digits.now }
{
    number_of(digits, MAX_OWNERS)
}

/// Returns the number of owners that a parameter `n` asks for. If it is another parameter, the query is malformed, which is this part.
pub(crate) fn count_by(parameter: &str, query: Part) -> Result<usize, Refusal>
    ensures { result ≡ count_by query parameter.now }
{
    let Some(digits) = parameter.strip_prefix("n=") else {
        return Err(Refusal::Malformed(query));
    };
    count_of(digits).ok_or(Refusal::Malformed(Part::Count))
}

/// Returns the number of owners that a query for one key asks for: one if there is no query.
fn count_in(query: Option<&str>) -> Result<usize, Refusal>
    ensures { result ≡ count_in (option_copied query.entry) }
{
    match query {
        Some(query) => count_by(query, Part::OwnerQuery),
        None => Ok(1),
    }
}

/// Refuses a method other than the path's.
fn check_method(method: &str, verb: Verb) -> Result<(), Refusal>
    ensures right { OnOk result (method.now ≡ verb_name verb) }
    ensures wrong { IfErr result (λ e. (e ≡ Refusal.BadMethod verb) × (method.now ≢ verb_name verb)) }
{
    if method == verb.name() {
        Ok(())
    } else {
        Err(Refusal::BadMethod(verb))
    }
}

/// Returns the action at a path without a key.
fn plain(method: &str, path: &str) -> Result<Action, Refusal>
    ensures { result ≡ plain method.now (place_of path.now) }
{
    let (verb, action) = match path {
        "/" => (Verb::Get, Action::Page),
        "/members" => (Verb::Get, Action::Members),
        "/digest" => (Verb::Get, Action::Digest),
        "/healthz" | "/readyz" => (Verb::Get, Action::Health),
        "/livez" => (Verb::Get, Action::Live),
        "/metrics" => (Verb::Get, Action::Metrics),
        "/leave" => (Verb::Post, Action::Leave),
        "/rejoin" => (Verb::Post, Action::Rejoin),
        "/stop" => (Verb::Post, Action::Stop),
        _ => return Err(Refusal::NotFound),
    };
    check_method(method, verb)?;
    Ok(action)
}

/// Returns the level of the log that a query names.
fn level_in(query: Option<&str>) -> Option<LogLevel>
    ensures { result ≡ level_in (option_copied query.entry) }
{
    let name = query?.strip_prefix("level=")?;
    LogLevel::named(name)
}

/// Returns the action at the path of the log's level.
fn log(method: &str, query: Option<&str>) -> Result<Action, Refusal>
    ensures { result ≡ log_at method.now (option_copied query.entry) }
{
    match method {
        "GET" => Ok(Action::Log { level: None }),
        "POST" => match level_in(query) {
            Some(level) => Ok(Action::Log { level: Some(level) }),
            None => Err(Refusal::Malformed(Part::Level)),
        },
        _ => Err(Refusal::BadMethod(Verb::Both)),
    }
}

/// Returns the action of a request for a key.
fn handle(alloc: Global, path: &str, body: &[u8]) -> Result<Action, Refusal>
    ensures action { IfOk result (λ action. handled (key_in path.now) (body_in body.now) ≡ Ok action) }
    ensures refused { IfErr result (λ e. e ≢ Refusal.Memory → handled (key_in path.now) (body_in body.now) ≡ Err e) }
{
    let key = key_of(alloc, path)?;
    let body = body_of(alloc, body)?;
    Ok(Action::Handle { key, body })
}

/// Returns the action of a request for a key's owners.
fn owners(alloc: Global, path: &str, query: Option<&str>) -> Result<Action, Refusal>
    ensures action { IfOk result (λ action. named (key_in path.now) (count_in (option_copied query.entry)) ≡ Ok action) }
    ensures refused { IfErr result (λ e. e ≢ Refusal.Memory → named (key_in path.now) (count_in (option_copied query.entry)) ≡ Err e) }
{
    let key = key_of(alloc, path)?;
    let count = count_in(query)?;
    Ok(Action::Owners { key, count })
}

/// Returns the first segment of a path: what comes before its first slash, or all of it.
fn segment(path: &str) -> &str
    ensures { result.now ≡ segment path.now }
{
    match path.split_once('/') {
        Some((first, _)) => first,
        None => path,
    }
}

/// Returns the text that encodes the key of a request, if it is passed on whole: the field that names the key, on any path;
/// without one, the segment after `/keys/`. The rest of the path is the application's.
pub fn key_text<'a>(path: &'a str, field: Option<&'a str>) -> Option<&'a str>
    ensures { option_copied result ≡ key_text path.now (option_copied field.entry) }
{
    if field.is_some() {
        return field;
    }
    path.strip_prefix("/keys/").map(segment)
}

/// Returns the action at a path with no key in it.
fn open(
    alloc: Global,
    method: &str,
    path: &str,
    query: Option<&str>,
    body: &[u8],
) -> Result<Action, Refusal>
    ensures action { IfOk result (λ action. open_at method.now path.now (option_copied query.entry) body.now ≡ Ok action) }
    ensures refused { IfErr result (λ e. e ≢ Refusal.Memory → open_at method.now path.now (option_copied query.entry) body.now ≡ Err e) }
    ensures memory { result ≡ Err Refusal.Memory → AsksForRing method.now path.now }
{
    if path == "/owners" {
        check_method(method, Verb::Post)?;
        return all_owners(alloc, query, body);
    }
    if path == "/ring" {
        check_method(method, Verb::Get)?;
        return ring(alloc, query);
    }
    if path == "/log" {
        return log(method, query);
    }
    plain(method, path)
}

/// Returns the action that a request asks for. The paths with a key are `POST /keys/KEY`, which reads the body and no
/// query, and `GET /owner/KEY`, which reads the query (`n=COUNT`, or none for 1) and no body. `POST /owners` reads the keys in the
/// body and the query (`n=COUNT`, `not-mine=1`, or both), `GET /ring` the query (`after=DIGEST&wait=SECONDS`, or the first of them), and `POST /log` the query
/// (`level=LEVEL`). Two parameters may come in any order. The others read neither.
///
/// # Errors
///
/// If several apply, the first of them, except that `Memory` can replace any but the first two. Of several faults of a query one is named.
///
/// - `NotFound`: the path is not one that is served.
/// - `BadMethod`: the path takes another method, which the error names.
/// - `Malformed(Part::Key)`: the rest of the path, percent-decoded, is not 1 to 1,024 bytes of UTF-8.
/// - `LongBody`: the body of a request for a key has more than 131,072 bytes.
/// - `Malformed(Part::Body)`: that body is not UTF-8, or that of a request for the owners of keys.
/// - `Malformed(Part::Keys)`: the body of a request for the owners of keys starts with `[`, perhaps after white space, and is not a JSON list.
/// - `ManyKeys`: it has more than 4,096 keys.
/// - `BadKey`: one of them is not 1 to 1,024 bytes of UTF-8.
/// - `Malformed(Part::OwnerQuery)`, `Malformed(Part::OwnersQuery)`, `Malformed(Part::RingQuery)`: the query for the owners of one key, of many, or for
///   the ring has a parameter that the path does not take, one too many, or `wait` alone.
/// - `Malformed(Part::Count)`: `n` is not a number from 1 to 4,096 without a sign.
/// - `Malformed(Part::NotMine)`: `not-mine` is not 1.
/// - `Malformed(Part::After)`: `after` is not 64 digits of 0 to 9 and a to f.
/// - `Malformed(Part::Wait)`: `wait` is not a number from 1 to 60 without a sign.
/// - `Malformed(Part::Level)`: the query for another level of the log is not `level=` and `off`, `error`, `warn`, `info` or `debug`.
/// - `Memory`: out of memory for a key, the body or a digest; never at another path.
pub fn route(
    alloc: Global,
    method: &str,
    path: &str,
    query: Option<&str>,
    body: &[u8],
) -> Result<Action, Refusal>
    ensures action { IfOk result (λ action. asked method.now path.now (option_copied query.entry) body.now ≡ Ok action) }
    ensures refused { IfErr result (λ e. e ≢ Refusal.Memory → asked method.now path.now (option_copied query.entry) body.now ≡ Err e) }
    ensures memory { result ≡ Err Refusal.Memory → AsksForKey method.now path.now }
{
    if let Some(rest) = path.strip_prefix("/keys/") {
        check_method(method, Verb::Post)?;
        return handle(alloc, rest, body);
    }
    if let Some(rest) = path.strip_prefix("/owner/") {
        check_method(method, Verb::Get)?;
        return owners(alloc, rest, query);
    }
    open(alloc, method, path, query, body)
}
