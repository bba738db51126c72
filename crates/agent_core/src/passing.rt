//! HTTP requests and answers that are passed on whole, each as the one text of a Forward or a Reply, and what of them is
//! passed on.
ghost use Rattle.std.specs.Prelude.{◌≡◌, ◌≢◌, ◌≤◌, ◌++◌, ℕ, List, IfNone, IfOk, IfSome, IsOkUnless, None, Ok, OnOk, decimal, map};
ghost use Rattle.agent_core.specs.Parts.{joined, part_of};
ghost use Rattle.agent_core.specs.Passing.{answer_parts, answer_text, flat, is_of_connection, is_repeatable, named, next_fields, request_parts, sent_text, status_in};

use crate::packs::{MAX_STATUS, MIN_STATUS};
use crate::parts::{pack_bytes, parts_in, push_part};
use change_core::Address;
use message_core::{Text, WireError};
use std::alloc::{AllocError, Global};

/// A field of an HTTP message (RFC 9110, section 5).
#[derive(Clone, Copy, Debug, PartialEq, Eq)]
pub struct Field<'a> {
    pub name: &'a [u8],
    pub value: &'a [u8],
}

/// A request that is passed on whole.
#[derive(Debug, Drop)]
pub struct PassedRequest<'a> {
    pub method: &'a [u8],
    /// The path and the query.
    pub target: &'a [u8],
    pub body: &'a [u8],
    pub fields: Vec<Field<'a>>,
}

/// An answer that is passed on whole.
#[derive(Debug, Drop)]
pub struct PassedAnswer<'a> {
    /// The status, 200 to 599.
    pub status: u16,
    pub body: &'a [u8],
    pub fields: Vec<Field<'a>>,
}

/// A request of a key, as it goes to the key's owner.
#[derive(Debug, Drop)]
pub enum Outgoing {
    /// The text of a request that is a body alone.
    Body(Text),
    /// The parts of a request that is passed on whole, one after another, but for the field that names the next owner.
    Whole(Vec<u8>),
}

/// Appends the name and the value of a field, as two parts.
///
/// # Errors
///
/// - `AllocError`: out of memory. A part of the field may be appended.
pub fn push_field(fields: &mut Vec<u8>, name: &[u8], value: &[u8]) -> Result<(), AllocError>
    ensures { OnOk result (fields.new.items ≡ (fields.old.items ++ part_of name.now) ++ part_of value.now) }
{
    push_part(fields, name)?;
    push_part(fields, value)
}

/// Returns the parts of a request, one after another, whose fields were appended to `fields` by [`push_field`].
///
/// # Errors
///
/// - `AllocError`: out of memory.
#[tactic(auto, using(crate::proofs::Passed::request_bytes))]
pub fn join_request(
    alloc: Global,
    method: &[u8],
    target: &[u8],
    body: &[u8],
    fields: &[u8],
) -> Result<Vec<u8>, AllocError>
    ensures { IfOk result (λ bytes. (all : List (List ℕ × List ℕ)) → fields.now ≡ joined (flat all) → bytes.items ≡ joined (request_parts method.now target.now body.now all)) }
{
    let mut bytes = Vec::with_capacity(alloc, body.len().saturating_add(fields.len()))?;
    push_part(&mut bytes, method)?;
    push_part(&mut bytes, target)?;
    push_part(&mut bytes, body)?;
    bytes.extend_from_slice(fields)?;
    Ok(bytes)
}

/// Appends the field that names the next owner of a key, if there is one.
#[tactic(auto, using(crate::proofs::Passed::no_next))]
fn push_next(alloc: Global, bytes: &mut Vec<u8>, next: Option<Address>) -> Result<(), AllocError>
    ensures { OnOk result (bytes.new.items ≡ bytes.old.items ++ joined (flat (next_fields next))) }
{
    let Some(next) = next else {
        return Ok(());
    };
    let text = format!(in alloc; "{next}")?;
    push_field(bytes, b"x-ringpop-next", text.as_bytes())
}

/// Returns the text by which a request goes to its key's owner. One that is passed on whole tells the application the node
/// that would own the key next, if there is one.
///
/// # Errors
///
/// - `Memory`: out of memory. Never for a body alone.
pub fn pack_request(
    alloc: Global,
    request: Outgoing,
    next: Option<Address>,
) -> Result<Text, WireError>
    ensures text { IfOk result (λ text. text ≡ sent_text next request) }
    ensures refusal { IsOkUnless result WireError.Memory }
{
    match request {
        Outgoing::Body(text) => Ok(text),
        Outgoing::Whole(mut bytes) => {
            push_next(alloc, &mut bytes, next)?;
            pack_bytes(alloc, bytes.as_slice())
        }
    }
}

/// Returns the text of an answer with a status from 200 to 599, whose fields were appended to `fields` by [`push_field`].
///
/// # Errors
///
/// - `Memory`: out of memory.
#[tactic(auto, using(crate::proofs::Passed::answer_bytes))]
pub fn pack_answer(
    alloc: Global,
    status: u16,
    body: &[u8],
    fields: &[u8],
) -> Result<Text, WireError>
    requires least { MIN_STATUS ≤ status }
    requires greatest { status ≤ MAX_STATUS }
    ensures text { IfOk result (λ text. (all : List (List ℕ × List ℕ)) → fields.now ≡ joined (flat all) → text ≡ answer_text status body.now all) }
    ensures refusal { IsOkUnless result WireError.Memory }
{
    let digits = format!(in alloc; "{status}")?;
    let mut bytes = Vec::with_capacity(alloc, body.len().saturating_add(fields.len()))?;
    push_part(&mut bytes, digits.as_bytes())?;
    push_part(&mut bytes, body)?;
    bytes.extend_from_slice(fields)?;
    pack_bytes(alloc, bytes.as_slice())
}

/// Returns the fields whose names and values these parts are; None if a name has no value.
#[tactic(auto, using(crate::proofs::Passed::read_field, crate::proofs::Passed::read_all, crate::proofs::Passed::not_flat))]
fn fields_of<'a>(alloc: Global, parts: &[&'a [u8]]) -> Result<Option<Vec<Field<'a>>>, AllocError>
    ensures fields { IfOk result (λ r. IfSome r (λ fields. map (λ p. p.now) parts.now ≡ flat (map named fields.items))) }
    ensures none { result ≡ Ok None → (fields : List (List ℕ × List ℕ)) → map (λ p. p.now) parts.now ≢ flat fields }
{
    if parts.len() % 2 != 0 {
        return Ok(None);
    }
    let mut fields = Vec::with_capacity(alloc, parts.len() / 2)?;
    for i in 0..parts.len() / 2 {
        let name = parts[2 * i];
        let value = parts[2 * i + 1];
        fields.push(Field { name, value })?;
    }
    Ok(Some(fields))
}

/// Returns the request whose parts these are; None if they are no request's.
///
/// # Errors
///
/// - `AllocError`: out of memory.
pub fn request_of<'a>(
    alloc: Global,
    parts: &[&'a [u8]],
) -> Result<Option<PassedRequest<'a>>, AllocError>
    ensures request { IfOk result (λ r. IfSome r (λ q. map (λ p. p.now) parts.now ≡ request_parts q.method.now q.target.now q.body.now (map named q.fields.items))) }
    ensures none { result ≡ Ok None → (method target body : List ℕ) (fields : List (List ℕ × List ℕ)) → map (λ p. p.now) parts.now ≢ request_parts method target body fields }
{
    let [method, target, body, rest @ ..] = parts else {
        return Ok(None);
    };
    let Some(fields) = fields_of(alloc, rest)? else {
        return Ok(None);
    };
    Ok(Some(PassedRequest {
        method,
        target,
        body,
        fields,
    }))
}

/// Returns the number that three digits write; None if it is not from 200 to 599.
fn number_in(digits: &[u8]) -> Option<u16>
    ensures number { result ≡ status_in digits.now }
    ensures range { IfSome result (λ number. (200 ≤ number) × (number ≤ 599)) }
{
    match digits {
        [
            hundreds @ b'2'..=b'5',
            tens @ b'0'..=b'9',
            ones @ b'0'..=b'9',
        ] => {
            let number = 100 * u16::from(hundreds - b'0')
                + 10 * u16::from(tens - b'0')
                + u16::from(ones - b'0');
            Some(number)
        }
        _ => None,
    }
}

/// Returns the status whose decimal digits these are; None if they are those of none from 200 to 599.
fn status_in(digits: &[u8]) -> Option<u16>
    ensures status { IfSome result (λ status. digits.now ≡ decimal status) }
    ensures range { IfSome result (λ status. (200 ≤ status) × (status ≤ 599)) }
    ensures none { IfNone result ((status : ℕ) → 200 ≤ status → status ≤ 599 → digits.now ≢ decimal status) }
{
    number_in(digits)
}

/// Returns the answer whose parts these are; None if they are not those of an answer.
///
/// # Errors
///
/// - `AllocError`: out of memory.
pub fn answer_of<'a>(
    alloc: Global,
    parts: &[&'a [u8]],
) -> Result<Option<PassedAnswer<'a>>, AllocError>
    ensures answer { IfOk result (λ r. IfSome r (λ a. map (λ p. p.now) parts.now ≡ answer_parts a.status a.body.now (map named a.fields.items))) }
    ensures range { IfOk result (λ r. IfSome r (λ a. (200 ≤ a.status) × (a.status ≤ 599))) }
    ensures none { result ≡ Ok None → (status : ℕ) (body : List ℕ) (fields : List (List ℕ × List ℕ)) → 200 ≤ status → status ≤ 599 → map (λ p. p.now) parts.now ≢ answer_parts status body fields }
{
    let [digits, body, rest @ ..] = parts else {
        return Ok(None);
    };
    let Some(status) = status_in(digits) else {
        return Ok(None);
    };
    let Some(fields) = fields_of(alloc, rest)? else {
        return Ok(None);
    };
    Ok(Some(PassedAnswer {
        status,
        body,
        fields,
    }))
}

/// Returns the request whose parts these bytes are, one after another; None if they are no request's.
///
/// # Errors
///
/// - `AllocError`: out of memory.
pub fn request_in<'a>(
    alloc: Global,
    bytes: &'a [u8],
) -> Result<Option<PassedRequest<'a>>, AllocError>
    ensures request { IfOk result (λ r. IfSome r (λ q. bytes.now ≡ joined (request_parts q.method.now q.target.now q.body.now (map named q.fields.items)))) }
    ensures none { result ≡ Ok None → (method target body : List ℕ) (fields : List (List ℕ × List ℕ)) → bytes.now ≢ joined (request_parts method target body fields) }
{
    let Some(parts) = parts_in(alloc, bytes)? else {
        return Ok(None);
    };
    request_of(alloc, parts.as_slice())
}

/// Returns the answer whose parts these bytes are, one after another; None if they are not those of an answer.
///
/// # Errors
///
/// - `AllocError`: out of memory.
pub fn answer_in<'a>(alloc: Global, bytes: &'a [u8]) -> Result<Option<PassedAnswer<'a>>, AllocError>
    ensures answer { IfOk result (λ r. IfSome r (λ a. bytes.now ≡ joined (answer_parts a.status a.body.now (map named a.fields.items)))) }
    ensures range { IfOk result (λ r. IfSome r (λ a. (200 ≤ a.status) × (a.status ≤ 599))) }
    ensures none { result ≡ Ok None → (status : ℕ) (body : List ℕ) (fields : List (List ℕ × List ℕ)) → 200 ≤ status → status ≤ 599 → bytes.now ≢ joined (answer_parts status body fields) }
{
    let Some(parts) = parts_in(alloc, bytes)? else {
        return Ok(None);
    };
    answer_of(alloc, parts.as_slice())
}

/// Returns whether a field of this name, in lower case, is not passed on: it is for one connection alone (RFC 9110, section
/// 7.6.1), or the agent makes it itself.
pub fn is_of_connection(name: &str) -> bool
    ensures { result ≡ is_of_connection name.now }
{
    matches!(
        name,
        "connection"
            | "proxy-connection"
            | "keep-alive"
            | "te"
            | "trailer"
            | "transfer-encoding"
            | "upgrade"
            | "expect"
            | "x-ringpop-key"
            | "x-ringpop-next"
            | "x-ringpop-error"
            | "x-ringpop-owner"
            | "x-ringpop-wait"
    )
}

/// Returns whether a request by this method may be performed twice (RFC 9110, section 9.2.2).
pub fn is_repeatable(method: &str) -> bool
    ensures { result ≡ is_repeatable method.now }
{
    matches!(method, "GET" | "HEAD" | "PUT" | "DELETE" | "OPTIONS")
}
