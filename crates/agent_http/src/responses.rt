//! Responses of HTTP, from replies and refusals.
ghost use Rattle.std.specs.Prelude.{◌≡◌, [], ◌∷◌, ◌++◌, Option, codes, map, None, Ok, true, false, OnOk, IfOk, IfSome, string_bytes};
ghost use Rattle.std.specs.List.{All};
ghost use Rattle.change_core.specs.Address.{address_text};
ghost use Rattle.http.specs.StatusCode.{IsStatusCode};
ghost use Rattle.http_header.specs.FieldValue.{plain_value};
ghost use Rattle.http_server.specs.Response.{IsBlank, IsResponse, fields, fields_of};
ghost use Rattle.httpdate.specs.Date.{date_text};
ghost use Rattle.httpdate.specs.declared.date.HttpDate.{HttpDate as Date};
ghost use Rattle.agent_core.specs.Packs.{unpacked};
ghost use Rattle.agent_core.specs.Passing.{named};
ghost use Rattle.agent_core.specs.Refusals.{kind_name, sent, status_of};
ghost use Rattle.agent_http.specs.Replies.{HasNoAnswer, IsField, ShowsPlain, ShowsRefusal, ShowsReply, ShowsText, ShowsWhole, allowed_methods, answered_kind, closing, date_field, dated, fields_for, lower, named_owner, open_field, owner_field, refusal_body, reply_body, reply_kind, reply_status, retry_field, since_field, tag_field, tag_text, word_field};

use crate::replies::Reply;
use agent_core::{
    Answer, Field, Kind, PassedAnswer, Refusal, Verb, answer_in, unpack, unpack_bytes,
};
use bytes::BufMut;
use change_core::{Address, Digest, DigestText};
use http::header::{HeaderNameError, HeaderValueError};
use http::{HeaderName, HeaderValue, StatusCode};
use http_server::Response;
use httpdate::{HttpDate, fmt_http_date};
use message_core::Text;
use std::alloc::{AllocError, Global};

/// The form of a response, whatever it shows.
#[derive(Clone, Copy)]
pub struct Form {
    /// Whether the connection is closed after the response, which a field tells the client.
    pub closes: bool,
    /// Whether a refusal is JSON.
    pub is_json: bool,
    /// The present date; None if no clock tells it.
    pub date: Option<HttpDate>,
}

/// Adds the field that says that the connection is closed after the response, if it is.
fn put_closing(response: &mut Response, closes: bool) -> Result<(), AllocError>
    ensures status { response.new.status ≡ response.old.status }
    ensures body { response.new.body ≡ response.old.body }
    ensures fields { OnOk result (fields_of response.new ≡ fields_of response.old ++ closing closes) }
{
    if !closes {
        return Ok(());
    }
    let close = HeaderValue::from_static("close");
    response.add_header(HeaderName::from_static("connection"), close)
}

/// Returns the header value that names a date.
fn date_of(alloc: Global, date: HttpDate) -> Result<HeaderValue, AllocError>
    ensures { IfOk result (λ value. value ≡ plain_value (date_text date)) }
{
    let text = fmt_http_date(alloc, date)?;
    HeaderValue::from_string(text).map_err(|_| AllocError)
}

/// Adds the field of a name that has a date.
fn add_date(
    alloc: Global,
    response: &mut Response,
    name: HeaderName,
    date: HttpDate,
) -> Result<(), AllocError>
    ensures status { response.new.status ≡ response.old.status }
    ensures body { response.new.body ≡ response.old.body }
    ensures fields { OnOk result (fields_of response.new ≡ fields_of response.old ++ dated name date) }
{
    let date = date_of(alloc, date)?;
    response.add_header(name, date)
}

/// Adds the field of a name that has a date, if the date is known.
#[tactic(auto, using(crate::proofs::Dated::no_date))]
fn put_date(
    alloc: Global,
    response: &mut Response,
    name: HeaderName,
    date: Option<HttpDate>,
) -> Result<(), AllocError>
    ensures status { response.new.status ≡ response.old.status }
    ensures body { response.new.body ≡ response.old.body }
    ensures fields { OnOk result (fields_of response.new ≡ fields_of response.old ++ date_field name date) }
{
    match date {
        Some(date) => add_date(alloc, response, name, date),
        None => Ok(()),
    }
}

/// Writes an answer of this form into a blank response.
fn put(
    alloc: Global,
    response: &mut Response,
    answer: Answer<'_>,
    form: &Form,
) -> Result<(), AllocError>
    requires blank { IsBlank response.old }
    requires code { IsStatusCode answer.status }
    ensures { OnOk result (IsResponse answer.entry.status (fields_for form.now answer.entry.kind) answer.entry.body.now response.new) }
{
    if let Ok(status) = StatusCode::from_u16(answer.status) {
        response.status = status;
    }
    put_closing(response, form.closes)?;
    put_date(alloc, response, HeaderName::from_static("date"), form.date)?;
    let kind = HeaderValue::from_static(answer.kind.name());
    response.add_header(HeaderName::from_static("content-type"), kind)?;
    response.body.put_slice(answer.body.as_bytes())
}

/// Returns the header value that names an address.
fn value_of(alloc: Global, address: Address) -> Result<HeaderValue, AllocError>
    ensures { IfOk result (λ value. value ≡ plain_value (address_text address)) }
{
    let text = format!(in alloc; "{address}")?;
    HeaderValue::from_string(text).map_err(|_| AllocError)
}

/// Adds the field that names the owner of the key.
fn put_owner(alloc: Global, response: &mut Response, owner: Address) -> Result<(), AllocError>
    ensures status { response.new.status ≡ response.old.status }
    ensures body { response.new.body ≡ response.old.body }
    ensures fields { OnOk result (fields_of response.new ≡ fields_of response.old ++ named_owner owner) }
{
    let owner = value_of(alloc, owner)?;
    response.add_header(HeaderName::from_static("x-ringpop-owner"), owner)
}

/// Returns the kind of a text that is JSON, or is not.
pub fn kind_of(is_json: bool) -> Kind
    ensures { result ≡ answered_kind is_json }
{
    if is_json { Kind::Json } else { Kind::Text }
}

/// Returns the body of a response that shows a refusal: JSON, or its line.
///
/// # Errors
///
/// - `AllocError`: out of memory.
pub fn refused_body(alloc: Global, refusal: &Refusal, is_json: bool) -> Result<String, AllocError>
    ensures { IfOk result (λ body. string_bytes body ≡ refusal_body is_json refusal.now) }
{
    if is_json {
        refusal.json(alloc)
    } else {
        refusal.line(alloc)
    }
}

/// Adds the field with a refusal's word, by which a client tells it from an answer of the application.
#[tactic(auto, using(crate::proofs::Worded::word_visible))]
fn put_word(response: &mut Response, refusal: &Refusal) -> Result<(), AllocError>
    ensures status { response.new.status ≡ response.old.status }
    ensures body { response.new.body ≡ response.old.body }
    ensures fields { OnOk result (fields_of response.new ≡ fields_of response.old ++ word_field refusal.now) }
{
    let word = HeaderValue::from_static(refusal.word());
    response.add_header(HeaderName::from_static("x-ringpop-error"), word)
}

/// Returns a field as the response has it; None if it is no field of HTTP.
fn header_of(
    alloc: Global,
    field: Field<'_>,
) -> Result<Option<(HeaderName, HeaderValue)>, AllocError>
    ensures field { IfOk result (λ r. IfSome r (λ shown. IsField (named field.entry) × ((shown.0, shown.1.bytes) ≡ lower (named field.entry)))) }
    ensures none { result ≡ Ok None → ¬ (IsField (named field.entry)) }
{
    let name = match HeaderName::from_bytes(alloc, field.name) {
        Ok(name) => name,
        Err(HeaderNameError::OutOfMemory) => return Err(AllocError),
        Err(HeaderNameError::Invalid) => return Ok(None),
    };
    match HeaderValue::from_bytes(alloc, field.value) {
        Ok(value) => Ok(Some((name, value))),
        Err(HeaderValueError::OutOfMemory) => Err(AllocError),
        Err(HeaderValueError::Invalid) => Ok(None),
    }
}

/// Returns fields as the response has them; None if one of them is no field of HTTP.
fn headers_of(
    alloc: Global,
    given: &[Field<'_>],
) -> Result<Option<Vec<(HeaderName, HeaderValue)>>, AllocError>
    ensures fields { IfOk result (λ r. IfSome r (λ shown. All IsField (map named given.now) × (fields shown.items ≡ map lower (map named given.now)))) }
    ensures none { result ≡ Ok None → ¬ (All IsField (map named given.now)) }
{
    let mut headers = Vec::with_capacity(alloc, given.len())?;
    for i in 0..given.len() {
        let field = given[i];
        let Some(header) = header_of(alloc, field)? else {
            return Ok(None);
        };
        headers.push(header)?;
    }
    Ok(Some(headers))
}

/// Adds fields.
#[tactic(auto, using(crate::proofs::Shown::fields_more))]
fn put_fields(
    response: &mut Response,
    shown: Vec<(HeaderName, HeaderValue)>,
) -> Result<(), AllocError>
    ensures status { response.new.status ≡ response.old.status }
    ensures body { response.new.body ≡ response.old.body }
    ensures fields { OnOk result (fields_of response.new ≡ fields_of response.old ++ fields shown.items) }
{
    let mut shown = shown;
    response.headers.append(&mut shown)
}

/// Writes an answer with these fields into a blank response. If `closes`, a header tells the client that the connection is
/// closed after it.
fn put_shown(
    response: &mut Response,
    status: u16,
    shown: Vec<(HeaderName, HeaderValue)>,
    body: &[u8],
    closes: bool,
) -> Result<(), AllocError>
    requires blank { IsBlank response.old }
    requires code { IsStatusCode status }
    ensures { OnOk result (IsResponse status (closing closes ++ fields shown.items) body.now response.new) }
{
    if let Ok(status) = StatusCode::from_u16(status) {
        response.status = status;
    }
    put_closing(response, closes)?;
    put_fields(response, shown)?;
    response.body.put_slice(body)
}

/// Returns the date that an answer gets: the present one if it has none of its own (RFC 9110, section 6.6.1).
fn missing_date(response: &Response, form: &Form) -> Option<HttpDate> {
    if response
        .headers
        .iter()
        .any(|field| field.0.as_str() == "date")
    {
        None
    } else {
        form.date
    }
}

/// Writes an answer that was passed on whole into a blank response, with a header that names the owner. Returns whether its
/// fields are those of HTTP; if they are not, nothing is written.
fn put_passed(
    alloc: Global,
    response: &mut Response,
    owner: Address,
    answer: &PassedAnswer<'_>,
    form: &Form,
) -> Result<bool, AllocError>
    requires blank { IsBlank response.old }
    requires code { IsStatusCode answer.now.status }
    ensures shown { result ≡ Ok true → All IsField (map named answer.now.fields.items)
        × (date : Option Date) × IsResponse answer.now.status (((closing form.now.closes ++ map lower (map named answer.now.fields.items)) ++ date_field (codes "date") date) ++ named_owner owner) answer.now.body.now response.new }
    ensures none { result ≡ Ok false → IsBlank response.new × ¬ (All IsField (map named answer.now.fields.items)) }
{
    let Some(fields) = headers_of(alloc, answer.fields.as_slice())? else {
        return Ok(false);
    };
    put_shown(response, answer.status, fields, answer.body, form.closes)?;
    let date = missing_date(response, form);
    put_date(alloc, response, HeaderName::from_static("date"), date)?;
    put_owner(alloc, response, owner)?;
    Ok(true)
}

/// Writes the answer to a request that was passed on whole into a blank response, with a header that names the owner. Returns
/// whether the text is one; if it is not, nothing is written.
fn put_whole(
    alloc: Global,
    response: &mut Response,
    owner: Address,
    text: &str,
    form: &Form,
) -> Result<bool, AllocError>
    requires { IsBlank response.old }
    ensures shown { result ≡ Ok true → ShowsWhole text.now form.now.closes owner response.new }
    ensures none { result ≡ Ok false → IsBlank response.new × HasNoAnswer text.now }
{
    let Some(bytes) = unpack_bytes(alloc, text)? else {
        return Ok(false);
    };
    match answer_in(alloc, bytes.as_slice())? {
        Some(answer) => put_passed(alloc, response, owner, &answer, form),
        None => Ok(false),
    }
}

/// Writes the status and the text of a refusal into a blank response.
fn put_refused(
    alloc: Global,
    response: &mut Response,
    refusal: &Refusal,
    form: &Form,
) -> Result<(), AllocError>
    requires { IsBlank response.old }
    ensures { OnOk result (IsResponse (status_of refusal.now) (fields_for form.now (answered_kind form.now.is_json)) (refusal_body form.now.is_json refusal.now) response.new) }
{
    let body = refused_body(alloc, refusal, form.is_json)?;
    let answer = Answer {
        status: refusal.status(),
        kind: kind_of(form.is_json),
        body: body.as_str(),
    };
    put(alloc, response, answer, form)
}

/// Writes a refusal that the owner's agent sent in place of its application's answer into a blank response, with a header
/// that names the owner.
fn put_sent(
    alloc: Global,
    response: &mut Response,
    owner: Address,
    refusal: &Refusal,
    form: &Form,
) -> Result<(), AllocError>
    requires { IsBlank response.old }
    ensures { OnOk result (IsResponse (status_of refusal.now) ((fields_for form.now (answered_kind form.now.is_json) ++ named_owner owner) ++ word_field refusal.now) (refusal_body form.now.is_json refusal.now) response.new) }
{
    put_refused(alloc, response, refusal, form)?;
    put_owner(alloc, response, owner)?;
    put_word(response, refusal)
}

/// Writes the answer to a request that was a body alone into a blank response, with a header that names the owner.
fn put_plain(
    alloc: Global,
    response: &mut Response,
    owner: Address,
    text: &Text,
    form: &Form,
) -> Result<(), AllocError>
    requires { IsBlank response.old }
    ensures { OnOk result (ShowsPlain owner text.now form.now response.new) }
{
    let packed = unpack(text.as_str());
    if let Some(refusal) = Refusal::sent(packed.status, packed.body) {
        return put_sent(alloc, response, owner, &refusal, form);
    }
    let answer = Answer {
        status: packed.status,
        kind: kind_of(packed.is_json),
        body: packed.body,
    };
    put(alloc, response, answer, form)?;
    put_owner(alloc, response, owner)
}

/// Writes the answer of an application into a blank response, with a header that names the owner.
fn put_handled(
    alloc: Global,
    response: &mut Response,
    owner: Address,
    text: &Text,
    form: &Form,
) -> Result<(), AllocError>
    requires { IsBlank response.old }
    ensures { OnOk result (ShowsReply (Reply.Handled owner text.now) form.now response.new) }
{
    if put_whole(alloc, response, owner, text.as_str(), form)? {
        return Ok(());
    }
    put_plain(alloc, response, owner, text, form)
}

/// Writes a text with status 200 into a blank response.
fn put_text(
    alloc: Global,
    response: &mut Response,
    kind: Kind,
    body: &str,
    form: &Form,
) -> Result<(), AllocError>
    requires { IsBlank response.old }
    ensures { OnOk result (IsResponse 200 (fields_for form.now kind) body.now response.new) }
{
    let answer = Answer {
        status: 200,
        kind,
        body,
    };
    put(alloc, response, answer, form)
}

/// Returns the header value that names a digest: its digits between quotes (RFC 9110, section 8.8.3).
fn tag_of(alloc: Global, digest: &Digest) -> Result<HeaderValue, AllocError>
    ensures { IfOk result (λ value. value ≡ plain_value (tag_text digest.now.bytes)) }
{
    let digits = DigestText::of(digest);
    let mut text = String::from_str(alloc, "\"")?;
    text.push_str(digits.as_str())?;
    text.push_str("\"")?;
    HeaderValue::from_string(text).map_err(|_| AllocError)
}

/// Adds the field that names the ring's digest.
fn put_tag(alloc: Global, response: &mut Response, digest: &Digest) -> Result<(), AllocError>
    ensures status { response.new.status ≡ response.old.status }
    ensures body { response.new.body ≡ response.old.body }
    ensures fields { OnOk result (fields_of response.new ≡ fields_of response.old ++ tag_field digest.now.bytes) }
{
    let tag = tag_of(alloc, digest)?;
    response.add_header(HeaderName::from_static("etag"), tag)
}

/// Writes the ring into a blank response, with headers that name its digest and since when it is this one.
fn put_ring(
    alloc: Global,
    response: &mut Response,
    digest: &Digest,
    since: Option<HttpDate>,
    text: &str,
    form: &Form,
) -> Result<(), AllocError>
    requires { IsBlank response.old }
    ensures { OnOk result (IsResponse 200 ((fields_for form.now Kind.Json ++ tag_field digest.now.bytes) ++ since_field since) text.now response.new) }
{
    put_text(alloc, response, Kind::Json, text, form)?;
    put_tag(alloc, response, digest)?;
    let name = HeaderName::from_static("last-modified");
    put_date(alloc, response, name, since)
}

/// Writes into a blank response that the ring has a digest still (RFC 9110, section 15.4.5).
fn put_unchanged(
    alloc: Global,
    response: &mut Response,
    digest: &Digest,
    form: &Form,
) -> Result<(), AllocError>
    requires { IsBlank response.old }
    ensures { OnOk result (IsResponse 304 (fields_for form.now Kind.Json ++ tag_field digest.now.bytes) [] response.new) }
{
    let answer = Answer {
        status: 304,
        kind: Kind::Json,
        body: "",
    };
    put(alloc, response, answer, form)?;
    put_tag(alloc, response, digest)
}

/// Writes the line of a digest into a blank response, with a header by which the page of any site may read it.
fn put_digest(
    alloc: Global,
    response: &mut Response,
    line: &str,
    form: &Form,
) -> Result<(), AllocError>
    requires { IsBlank response.old }
    ensures { OnOk result (IsResponse 200 (fields_for form.now Kind.Text ++ open_field) line.now response.new) }
{
    put_text(alloc, response, Kind::Text, line, form)?;
    let any = HeaderValue::from_static("*");
    response.add_header(HeaderName::from_static("access-control-allow-origin"), any)
}

/// Writes a reply into a blank response of this form.
///
/// # Errors
///
/// - `AllocError`: out of memory. A part of the reply is written.
pub fn put_reply(
    alloc: Global,
    response: &mut Response,
    reply: &Reply,
    form: &Form,
) -> Result<(), AllocError>
    requires { IsBlank response.old }
    ensures { OnOk result (ShowsReply reply.now form.now response.new) }
{
    match reply {
        Reply::Handled { owner, text } => put_handled(alloc, response, *owner, text, form),
        Reply::Line(line) => put(alloc, response, Answer::line(line), form),
        Reply::Text(text) => put_text(alloc, response, Kind::Text, text.as_str(), form),
        Reply::Json(text) => put_text(alloc, response, Kind::Json, text.as_str(), form),
        Reply::Ring {
            digest,
            since,
            text,
        } => put_ring(alloc, response, digest, *since, text.as_str(), form),
        Reply::Unchanged { digest } => put_unchanged(alloc, response, digest, form),
        Reply::Digest(line) => put_digest(alloc, response, line.as_str(), form),
        Reply::Page => put(alloc, response, Answer::page(), form),
    }
}

/// Returns the header value that names the methods of a path with this method. A path with GET takes HEAD too.
fn allowed(verb: Verb) -> HeaderValue
    ensures { result ≡ plain_value (allowed_methods verb) }
{
    match verb {
        Verb::Get => HeaderValue::from_static("GET, HEAD"),
        Verb::Post => HeaderValue::from_static("POST"),
        Verb::Both => HeaderValue::from_static("GET, HEAD, POST"),
    }
}

/// Adds the field that says after how many seconds a client may ask again, if the status is 503.
fn put_retry(response: &mut Response, status: u16) -> Result<(), AllocError>
    ensures status { response.new.status ≡ response.old.status }
    ensures body { response.new.body ≡ response.old.body }
    ensures fields { OnOk result (fields_of response.new ≡ fields_of response.old ++ retry_field status) }
{
    if status != 503 {
        return Ok(());
    }
    let seconds = HeaderValue::from_static("1");
    response.add_header(HeaderName::from_static("retry-after"), seconds)
}

/// Writes a refusal into a blank response of this form: its status, its line of text or JSON, its word, for a 503 when a client may ask again, for
/// `BadMethod` the methods that the path takes, and for `OwnerBusy` the owner.
///
/// # Errors
///
/// - `AllocError`: out of memory. A part of the refusal is written.
pub fn put_refusal(
    alloc: Global,
    response: &mut Response,
    refusal: &Refusal,
    form: &Form,
) -> Result<(), AllocError>
    requires { IsBlank response.old }
    ensures { OnOk result (ShowsRefusal refusal.now form.now response.new) }
{
    put_refused(alloc, response, refusal, form)?;
    put_word(response, refusal)?;
    put_retry(response, refusal.status())?;
    match refusal {
        Refusal::BadMethod(verb) => {
            response.add_header(HeaderName::from_static("allow"), allowed(*verb))
        }
        Refusal::OwnerBusy(owner) => put_owner(alloc, response, *owner),
        _ => Ok(()),
    }
}
