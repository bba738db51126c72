//! What a request over HTTP asks for.
ghost use Rattle.std.specs.Prelude.{◌≡◌, ◌↔◌, ◌<◌, ◌==◌, Err, IfOk, IfErr, IfSome, IsTrue, MatchBool, Ok, length, position, codes, option_copied};
ghost use Rattle.http.specs.Request.{head_of};
ghost use Rattle.http_header.specs.HeaderMap.{ContainsKey, get_all};
ghost use Rattle.agent_http.specs.Lists.{IsJson, IsOtherType, NamesJson, NamesNoJson, media_type};
ghost use Rattle.agent_http.specs.Requests.{AsksFor, AsksHere, IsCrossSite, IsOfKey, IsRefused, IsRefusedHere, Refuses, answered_as, asked_by, field_text, limit_for, limit_of, passed_key};

use crate::exchanges::is_name;
use crate::passing::pass;
use agent_core::{Action, Part, Refusal, key_text, route, wait_of};
use bytes::Bytes;
use http::{HeaderName, Request};
use std::alloc::Global;
use std::net::IpAddr;

/// Returns the method by which a request is answered. A HEAD is answered as a GET (RFC 9110, section 9.3.2): the HTTP server
/// sends the head of the answer alone.
fn method_of(request: &Request<Bytes>) -> &str
    ensures { result.now ≡ answered_as (head_of request.now).method }
{
    match request.method().as_str() {
        "HEAD" => "GET",
        method => method,
    }
}

/// Returns whether a page of another site may have made a browser send a request that changes something here.
fn is_cross_site(request: &Request<Bytes>) -> bool
    ensures { IsTrue result ↔ IsCrossSite request.now }
{
    method_of(request) != "GET" && request.headers().contains_key("origin")
}

/// Returns the action that a request asks for by its method, path, query and body.
#[tactic(auto, using(crate::proofs::Refused::refuses))]
fn routed(alloc: Global, request: &Request<Bytes>) -> Result<Action, Refusal>
    ensures action { IfOk result (λ action. asked_by request.now ≡ Ok action) }
    ensures refused { IfErr result (Refuses (asked_by request.now)) }
{
    let uri = request.uri();
    let body = request.body().as_slice();
    route(alloc, method_of(request), uri.path(), uri.query(), body)
}

/// Returns the action that a request to the agent itself asks for.
fn action_here(alloc: Global, request: &Request<Bytes>) -> Result<Action, Refusal>
    ensures action { IfOk result (AsksHere request.now) }
    ensures refused { IfErr result (IsRefusedHere request.now) }
{
    if is_cross_site(request) {
        return Err(Refusal::CrossSite);
    }
    routed(alloc, request)
}

/// Returns the text of the field of a request that has this name, if it has one. Else this part of the request is malformed.
fn field_text<'a>(
    request: &'a Request<Bytes>,
    name: &HeaderName,
    part: Part,
) -> Result<Option<&'a str>, Refusal>
    ensures text { IfOk result (λ text. field_text part (get_all (head_of request.now).headers name.now) ≡ Ok (option_copied text)) }
    ensures refused { IfErr result (λ e. field_text part (get_all (head_of request.now).headers name.now) ≡ Err e) }
{
    let values = request.headers().get_all(name);
    let mut values = values.iter();
    let Some(value) = values.next() else {
        return Ok(None);
    };
    if values.next().is_some() {
        return Err(Refusal::Malformed(part));
    }
    match value.to_str() {
        Ok(text) => Ok(Some(text)),
        Err(_) => Err(Refusal::Malformed(part)),
    }
}

/// Returns the name of the field by which a client limits the wait of its request.
fn wait_name() -> HeaderName
    ensures { result ≡ codes "x-ringpop-wait" }
{
    HeaderName::from_static("x-ringpop-wait")
}

/// Returns the limit that a request sets to its wait, in milliseconds; None if it sets none.
fn limit_of(request: &Request<Bytes>) -> Result<Option<u64>, Refusal>
    ensures { result ≡ limit_of request.now }
{
    match field_text(request, &wait_name(), Part::WaitField) {
        Ok(text) => wait_of(text),
        Err(why) => Err(why),
    }
}

/// Returns the limit that a request sets to the wait of the action that it asks for, in milliseconds; None if it sets none, or the action is none of a key.
///
/// # Errors
///
/// - `Malformed(Part::WaitField)`: the action is one of a key, and the field `X-Ringpop-Wait` comes twice, or is not a number from 1 to 60,000 in decimal
///   digits.
pub fn limit_for(request: &Request<Bytes>, action: &Action) -> Result<Option<u64>, Refusal>
    ensures { result ≡ limit_for request.now action.now }
{
    match action {
        Action::Handle { .. } | Action::Pass { .. } => limit_of(request),
        _ => Ok(None),
    }
}

/// Returns the text that encodes the key of a request, if any request of a key is passed on, which the field of this name
/// says, and it is one: that field or, without it, the segment of its path after `/keys/`.
fn passed_key<'a>(
    request: &'a Request<Bytes>,
    key_field: &Option<HeaderName>,
) -> Result<Option<&'a str>, Refusal>
    ensures key { IfOk result (λ key. passed_key key_field.now request.now ≡ Ok (option_copied key)) }
    ensures refused { IfErr result (λ e. passed_key key_field.now request.now ≡ Err e) }
{
    let Some(name) = key_field else {
        return Ok(None);
    };
    let field = field_text(request, name, Part::KeyField)?;
    Ok(key_text(request.uri().path(), field))
}

/// Returns whether a request is one of a key, by its path or by the field of this name.
pub fn is_of_key(request: &Request<Bytes>, key_field: &Option<HeaderName>) -> bool
    ensures { IsTrue result ↔ IsOfKey key_field.now request.now }
{
    let is_named = match key_field {
        Some(name) => request.headers().contains_key(name),
        None => false,
    };
    is_named || key_text(request.uri().path(), None).is_some()
}

/// Returns the place of the first semicolon in a media range; None if it has none.
fn semicolon(range: &[u8]) -> Option<usize>
    ensures place { result ≡ position (λ byte. byte == 59) range.now }
    ensures within { IfSome result (λ i. i < length range.now) }
{
    range.iter().position(|byte| *byte == b';')
}

/// Returns the media type of a range: what stands before its parameters.
fn media_type(range: &[u8]) -> &[u8]
    ensures { result.now ≡ media_type range.now }
{
    match semicolon(range) {
        Some(end) => range.get(..end).unwrap_or(&[]),
        None => range,
    }
}

/// Returns whether a media range is JSON, whatever its weight.
fn is_json(range: &[u8]) -> bool
    ensures { MatchBool result (IsJson range.now) (IsOtherType range.now) }
{
    is_name(media_type(range), b"application/json")
}

/// Returns whether a list of media ranges, as the value of `Accept` is, names JSON.
pub fn names_json(list: &[u8]) -> bool
    ensures { MatchBool result (NamesJson list.now) (NamesNoJson list.now) }
{
    list.split(|byte| *byte == b',').any(|range| is_json(range))
}

/// Returns whether a request names JSON among what it accepts. Then a refusal is JSON.
pub fn takes_json(request: &Request<Bytes>) -> bool
    ensures { IsTrue result → ContainsKey (head_of request.now).headers (codes "accept") }
{
    let headers = request.headers();
    headers.contains_key("accept")
        && headers
            .get_all("accept")
            .iter()
            .any(|list| names_json(list.as_bytes()))
}

/// Returns the action that a request of the client at this IP address, if that is known, asks for. With a name of the field that names keys, any request of a key is passed on.
///
/// # Errors
///
/// - `Malformed(Part::KeyField)`: that field comes twice, or is not visible ASCII, spaces and tabs. This is checked first.
/// - Each error of [`pass`], if the request is passed on, and no other then.
/// - `CrossSite`: the method is neither GET nor HEAD, and the request has an `Origin` field.
/// - Each error of [`route`].
pub fn action_of(
    alloc: Global,
    request: &Request<Bytes>,
    key_field: &Option<HeaderName>,
    client: &Option<IpAddr>,
) -> Result<Action, Refusal>
    ensures action { IfOk result (AsksFor key_field.now request.now) }
    ensures refused { IfErr result (IsRefused key_field.now request.now) }
{
    match passed_key(request, key_field)? {
        Some(key) => pass(alloc, request, key, client),
        None => action_here(alloc, request),
    }
}
