//! Requests that are passed on whole: the method, the target, the body and the fields of each, as one text.
ghost use Rattle.std.specs.Prelude.{◌≡◌, ◌↔◌, IfErr, IfOk, IfSome, IsTrue, OnOk, string_bytes};
ghost use Rattle.http.specs.Request.{body_of, head_of};
ghost use Rattle.agent_core.specs.Parts.{text_of_body};
ghost use Rattle.agent_http.specs.Passing.{AreFields, HasRequest, IsAlone, IsNotPassed, IsPassed, IsRepeatable, IsTunnel, is_plain, is_usual, listed, target_of};

use crate::exchanges::has_name;
use agent_core::{
    Action, MAX_BODY_BYTES, MAX_REQUEST_BYTES, Outgoing, Refusal, is_of_connection, is_repeatable,
    join_request, key_of, pack_body, push_field,
};
use bytes::Bytes;
use http::{HeaderMap, HeaderName, HeaderValue, Request};
use message_core::{Text, WireError};
use std::alloc::{AllocError, Global};
use std::net::IpAddr;

/// Returns whether a field passes as it is: it is not for this connection alone, by its name or by what `Connection` says, and
/// the agent does not write it itself. `Host` always passes, since a request without it is none.
fn passes(headers: &HeaderMap<HeaderValue>, name: &HeaderName) -> bool {
    if name.as_str() == "host" {
        return true;
    }
    !matches!(name.as_str(), "content-length" | "x-forwarded-for")
        && !is_of_connection(name.as_str())
        && !headers
            .get_all("connection")
            .iter()
            .any(|list| has_name(list.as_bytes(), name.as_bytes()))
}

/// Returns whether a request is a CONNECT, or asks for an upgrade of the connection.
fn is_tunnel(request: &Request<Bytes>) -> bool
    ensures { IsTrue result ↔ IsTunnel request.now }
{
    request.method().as_str() == "CONNECT" || request.headers().contains_key("upgrade")
}

/// Returns whether a request may be performed twice, by its method or since it says so.
fn may_repeat(request: &Request<Bytes>) -> bool
    ensures { IsTrue result ↔ IsRepeatable request.now }
{
    is_repeatable(request.method().as_str()) || request.headers().contains_key("idempotency-key")
}

/// Returns whether a content type is that of plain text in UTF-8.
fn is_plain(kind: &[u8]) -> bool
    ensures { result ≡ is_plain kind.now }
{
    kind.eq_ignore_ascii_case(b"text/plain")
        || kind.eq_ignore_ascii_case(b"text/plain; charset=utf-8")
}

/// Returns whether nothing is lost if a field goes as that of a body alone: it says nothing of this request.
fn is_usual(name: &str, value: &[u8]) -> bool
    ensures { result ≡ is_usual name.now value.now }
{
    match name {
        "host" | "content-length" | "user-agent" | "accept-encoding" => true,
        "accept" => value == b"*/*".as_slice(),
        "content-type" => is_plain(value),
        name => is_of_connection(name),
    }
}

/// Returns whether a request is a POST at the path of a key, which this text encodes, without a query.
fn is_alone(request: &Request<Bytes>, key: &str) -> bool
    ensures { IsTrue result → IsAlone key.now request.now }
{
    let uri = request.uri();
    match uri.path().strip_prefix("/keys/") {
        Some(rest) => rest == key && request.method().as_str() == "POST" && uri.query().is_none(),
        None => false,
    }
}

/// Returns whether the fields of a request are those of at most 131,072 bytes of plain text, and say nothing else.
fn is_text(request: &Request<Bytes>) -> bool {
    let headers = request.headers();
    headers.contains_key("content-type")
        && headers
            .iter()
            .all(|(name, value)| is_usual(name.as_str(), value.as_bytes()))
        && request.body().len() <= MAX_BODY_BYTES
}

/// Returns the body of a request that is a body alone: a POST of text in UTF-8 at the key's path.
fn plain_body<'a>(request: &'a Request<Bytes>, key: &str) -> Option<&'a str>
    ensures { IfSome result (λ body. IsAlone key.now request.now × (body.now ≡ body_of request.now)) }
{
    if is_alone(request, key) && is_text(request) {
        str::from_utf8(request.body().as_slice()).ok()
    } else {
        None
    }
}

/// Returns the target of a request: its path and its query.
fn target_of(alloc: Global, request: &Request<Bytes>) -> Result<String, AllocError>
    ensures { IfOk result (λ target. string_bytes target ≡ target_of (head_of request.now).uri) }
{
    let uri = request.uri();
    let mut target = String::from_str(alloc, uri.path())?;
    if let Some(query) = uri.query() {
        target.push_str("?")?;
        target.push_str(query)?;
    }
    Ok(target)
}

/// Appends an element to the list that is the value of a field, unless it is empty.
fn push_listed(list: &mut Vec<u8>, element: &[u8]) -> Result<(), AllocError>
    ensures { OnOk result (list.new.items ≡ listed list.old.items element.now) }
{
    if !list.is_empty() && !element.is_empty() {
        list.extend_from_slice(b", ")?;
    }
    list.extend_from_slice(element)
}

/// Appends a field to fields.
fn add_field(fields: &mut Vec<u8>, name: &[u8], value: &[u8]) -> Result<(), AllocError>
    requires { AreFields fields.old.items }
    ensures { OnOk result (AreFields fields.new.items) }
{
    push_field(fields, name, value)
}

/// Appends the length of a body to the fields of its request, if the client gave a length or sent the body in chunks.
fn add_length(
    alloc: Global,
    request: &Request<Bytes>,
    fields: &mut Vec<u8>,
) -> Result<(), AllocError>
    requires { AreFields fields.old.items }
    ensures { OnOk result (AreFields fields.new.items) }
{
    let headers = request.headers();
    if !headers.contains_key("content-length") && !headers.contains_key("transfer-encoding") {
        return Ok(());
    }
    let length = request.body().len();
    let digits = format!(in alloc; "{length}")?;
    add_field(fields, b"content-length", digits.as_bytes())
}

/// Appends a `Host` to the fields of a request that has none.
fn add_host(request: &Request<Bytes>, fields: &mut Vec<u8>) -> Result<(), AllocError>
    requires { AreFields fields.old.items }
    ensures { OnOk result (AreFields fields.new.items) }
{
    if request.headers().contains_key("host") {
        Ok(())
    } else {
        add_field(fields, b"host", b"")
    }
}

/// Returns the addresses that a request was sent for, the last of them the client's, as the value of a field: empty if there
/// is none.
fn forwarded_for(
    alloc: Global,
    request: &Request<Bytes>,
    client: &Option<IpAddr>,
) -> Result<Vec<u8>, AllocError> {
    let mut list = Vec::new(alloc);
    for named in request.headers().get_all("x-forwarded-for") {
        push_listed(&mut list, named.as_bytes())?;
    }
    if let Some(client) = client {
        let text = format!(in alloc; "{client}")?;
        push_listed(&mut list, text.as_bytes())?;
    }
    Ok(list)
}

/// Appends the addresses that a request was sent for to its fields, if there is one.
fn add_forwarded(
    alloc: Global,
    request: &Request<Bytes>,
    client: &Option<IpAddr>,
    fields: &mut Vec<u8>,
) -> Result<(), AllocError>
    requires { AreFields fields.old.items }
    ensures { OnOk result (AreFields fields.new.items) }
{
    let list = forwarded_for(alloc, request, client)?;
    if list.is_empty() {
        Ok(())
    } else {
        add_field(fields, b"x-forwarded-for", list.as_slice())
    }
}

/// Returns the fields of a request that pass.
fn passing_fields(alloc: Global, request: &Request<Bytes>) -> Result<Vec<u8>, AllocError>
    ensures { IfOk result (λ r. AreFields r.items) }
{
    let headers = request.headers();
    let mut fields = Vec::new(alloc);
    for (name, value) in headers.iter() {
        if passes(headers, name) {
            add_field(&mut fields, name.as_bytes(), value.as_bytes())?;
        }
    }
    Ok(fields)
}

/// Returns the fields that pass, the length of a body that came in chunks, a `Host` where there is none, the addresses that the
/// request was sent for, and the text that encodes the key.
fn fields_of(
    alloc: Global,
    request: &Request<Bytes>,
    key: &str,
    client: &Option<IpAddr>,
) -> Result<Vec<u8>, AllocError>
    ensures { IfOk result (λ r. AreFields r.items) }
{
    let mut fields = passing_fields(alloc, request)?;
    add_length(alloc, request, &mut fields)?;
    add_host(request, &mut fields)?;
    add_forwarded(alloc, request, client, &mut fields)?;
    add_field(&mut fields, b"x-ringpop-key", key.as_bytes())?;
    Ok(fields)
}

/// Returns the parts of a request that is passed on whole.
fn whole_of(
    alloc: Global,
    request: &Request<Bytes>,
    key: &str,
    client: &Option<IpAddr>,
) -> Result<Vec<u8>, AllocError>
    ensures { IfOk result (λ bytes. HasRequest key.now (Outgoing.Whole bytes) request.now) }
{
    let target = target_of(alloc, request)?;
    let fields = fields_of(alloc, request, key, client)?;
    let method = request.method().as_str().as_bytes();
    let body = request.body().as_slice();
    join_request(alloc, method, target.as_bytes(), body, fields.as_slice())
}

/// Returns the text of a Forward for a request that is a body alone.
fn text_of(alloc: Global, body: &str) -> Result<Text, WireError>
    ensures text { IfOk result (λ text. text ≡ text_of_body body.now) }
{
    pack_body(alloc, Text::new(alloc, body)?)
}

/// Returns a request as it goes to its key's owner.
fn outgoing(
    alloc: Global,
    request: &Request<Bytes>,
    key: &str,
    client: &Option<IpAddr>,
) -> Result<Outgoing, Refusal>
    ensures whole { IfOk result (λ outgoing. HasRequest key.now outgoing request.now) }
    ensures refused { IfErr result (λ e. e ≡ Refusal.Memory) }
{
    match plain_body(request, key) {
        Some(body) => match text_of(alloc, body) {
            Ok(text) => Ok(Outgoing::Body(text)),
            Err(_) => Err(Refusal::Memory),
        },
        None => Ok(Outgoing::Whole(whole_of(alloc, request, key, client)?)),
    }
}

/// Returns the action of a request whose key this text encodes, and which the key's owner gets as the client at this IP address,
/// if that is known, made it.
///
/// # Errors
///
/// If several apply, the first of them.
///
/// - `NotPassed`: the request is a CONNECT, or asks for an upgrade.
/// - `Malformed(Part::Key)`: the text encodes no key of 1 to 1,024 bytes of UTF-8.
/// - `LongRequest`: the body has more than 524,288 bytes.
/// - `Memory`: out of memory.
pub fn pass(
    alloc: Global,
    request: &Request<Bytes>,
    key: &str,
    client: &Option<IpAddr>,
) -> Result<Action, Refusal>
    ensures action { IfOk result (IsPassed key.now request.now) }
    ensures refused { IfErr result (IsNotPassed key.now request.now) }
{
    if is_tunnel(request) {
        return Err(Refusal::NotPassed);
    }
    let decoded = key_of(alloc, key)?;
    if request.body().len() > MAX_REQUEST_BYTES {
        return Err(Refusal::LongRequest);
    }
    let outgoing = outgoing(alloc, request, key, client)?;
    Ok(Action::Pass {
        key: decoded,
        request: outgoing,
        is_repeatable: may_repeat(request),
    })
}
