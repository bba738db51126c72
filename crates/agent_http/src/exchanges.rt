//! One request to the application over HTTP/1.1, and its answer.
ghost use Rattle.std.specs.Prelude.{◌≡◌, ◌≤◌, ◌++◌, ℕ, List, [], length, cond, Ok, IfOk, IfErr, OnOk, OnErr, MatchBool, false};
ghost use Rattle.std.specs.Io.KnownBytes.{Consumes, IsAtEnd, Keeps};
ghost use Rattle.std.specs.IoError.{error_kind};
ghost use Rattle.agent_http.specs.Exchanges.{IsKept, IsOfAnswer, body_after, failure_of, part_of, says_json};
ghost use Rattle.agent_http.specs.Lists.{HasName, IsName, IsOther, LacksName};

use agent_core::{Failure, is_of_connection, push_field};
use bytes::{Buf, BytesMut};
use change_core::Address;
use http::HeaderName;
use http::header::HeaderNameError;
use http1::{BodySize, Client, Event, Header};
use httparse::spans::{EMPTY_HEADER_SPAN, HeaderSpan, ResponseSpans, Span};
use std::alloc::{AllocError, Global};
use std::io;
use std::io::{ErrorKind, Read, Write};

/// The most bytes in the body of an answer that is read.
const MAX_ANSWER_BYTES: usize = 1_048_576;

/// The bytes that a read asks for.
const READ_SIZE: usize = 8_192;

/// A request to the application at an address.
#[derive(Drop)]
pub struct Asked<'a> {
    pub at: Address,
    pub method: &'a [u8],
    pub target: &'a [u8],
    /// The fields, with one `Host`.
    pub fields: Vec<Header<'a>>,
    pub body: &'a [u8],
    pub wanted: Wanted,
    /// Whether the application may be asked again if it hung up on a kept connection.
    pub is_repeatable: bool,
}

/// The fields of an answer that are wanted.
#[derive(Clone, Copy, Debug, PartialEq, Eq)]
pub enum Wanted {
    /// Whether the content type is JSON.
    Kind,
    /// Those that pass. The answer to a HEAD has the length of a body that does not come.
    All { is_of_head: bool },
}

/// An answer of the application.
#[derive(Debug, Drop)]
pub struct Answer {
    pub wanted: Wanted,
    pub status: u16,
    /// Whether its content type is JSON, if that is wanted.
    pub is_json: bool,
    pub body: Vec<u8>,
    /// The name and the value of each field that passes, as parts, if they are wanted.
    pub fields: Vec<u8>,
}

impl Answer {
    /// Makes the answer of which nothing has come.
    fn new(alloc: Global, wanted: Wanted) -> Self
        ensures wanted { result.wanted ≡ wanted }
        ensures status { result.status ≡ 0 }
        ensures kind { result.is_json ≡ false }
        ensures body { result.body.items ≡ [] }
        ensures fields { result.fields.items ≡ [] }
    {
        Answer {
            wanted,
            status: 0,
            is_json: false,
            body: Vec::new(alloc),
            fields: Vec::new(alloc),
        }
    }
}

/// Returns the failure of a request whose connection failed by this error, after a byte of the answer or before.
fn failure_of(error: &io::Error, has_begun: bool) -> Failure
    ensures { result ≡ failure_of (error_kind error.now) has_begun }
{
    if has_begun {
        return Failure::NoAnswer;
    }
    match error.kind() {
        ErrorKind::BrokenPipe | ErrorKind::ConnectionReset => Failure::HungUp,
        _ => Failure::NoAnswer,
    }
}

/// Returns the size of the body that a request announces: none if it has no body and its fields give no length.
fn size_of(asked: &Asked<'_>) -> BodySize {
    let length = asked.body.len() as u64;
    let is_announced = asked.wanted == Wanted::Kind
        || length > 0
        || asked
            .fields
            .iter()
            .any(|field| field.name == b"content-length".as_slice());
    if is_announced {
        BodySize::Known(length)
    } else {
        BodySize::Empty
    }
}

/// Returns the bytes of a request; None if they could not be written.
fn request(alloc: Global, client: &mut Client, asked: &Asked<'_>) -> Option<BytesMut> {
    let Asked {
        method,
        target,
        fields,
        body,
        ..
    } = asked;
    let mut output = BytesMut::new(alloc);
    client
        .write_request(
            &mut output,
            method,
            target,
            fields.as_slice(),
            size_of(asked),
        )
        .ok()?;
    client.write_data(&mut output, body).ok()?;
    client.write_end(&mut output, &[]).ok()?;
    Some(output)
}

/// The next step after an event of the connection.
#[derive(Clone, Copy)]
enum Step {
    /// There may be another event in the bytes that were read.
    Next,
    /// More has to be read.
    Read,
    /// The answer is whole.
    Whole,
    /// No answer will come.
    Ended,
}

/// Returns the part of the bytes read that a span covers.
fn part(unread: &[u8], span: Span) -> &[u8]
    ensures { result.now ≡ part_of unread.now span }
{
    unread.get(span.start..span.end).unwrap_or(&[])
}

/// Returns whether a field gives JSON as the content type.
fn says_json(unread: &[u8], field: &HeaderSpan) -> bool
    ensures { result ≡ says_json unread.now field.now }
{
    part(unread, field.name).eq_ignore_ascii_case(b"content-type")
        && part(unread, field.value).starts_with(b"application/json")
}

/// Returns whether an element of a list is this name in any case, perhaps with white space around it.
pub fn is_name(element: &[u8], name: &[u8]) -> bool
    ensures { MatchBool result (IsName name.now element.now) (IsOther name.now element.now) }
{
    element.trim_ascii().eq_ignore_ascii_case(name)
}

/// Returns whether a list of names, as the value of `Connection` is, has this name, in any case.
pub fn has_name(list: &[u8], name: &[u8]) -> bool
    ensures { MatchBool result (HasName list.now name.now) (LacksName list.now name.now) }
{
    list.split(|byte| *byte == b',')
        .any(|element| is_name(element, name))
}

/// Returns whether a field of an answer passes: it is not for this connection alone, by its name or by what `Connection` says.
fn passes(unread: &[u8], fields: &[HeaderSpan], name: &HeaderName) -> bool {
    !is_of_connection(name.as_str())
        && !fields.iter().any(|list| {
            part(unread, list.name).eq_ignore_ascii_case(b"connection")
                && has_name(part(unread, list.value), name.as_bytes())
        })
}

/// Appends the fields of an answer that pass. A length passes only if it has one, as an answer without a body.
fn take_fields(
    alloc: Global,
    unread: &[u8],
    fields: &[HeaderSpan],
    has_length: bool,
    taken: &mut Vec<u8>,
) -> Result<(), AllocError> {
    for field in fields {
        let name = match HeaderName::from_bytes(alloc, part(unread, field.name)) {
            Ok(name) => name,
            Err(HeaderNameError::OutOfMemory) => return Err(AllocError),
            Err(HeaderNameError::Invalid) => continue,
        };
        let is_length = name.as_str() == "content-length";
        if passes(unread, fields, &name) && (has_length || !is_length) {
            push_field(taken, name.as_bytes(), part(unread, field.value))?;
        }
    }
    Ok(())
}

/// Takes the head of an answer.
fn take_head(
    alloc: Global,
    status: u16,
    unread: &[u8],
    fields: &[HeaderSpan],
    answer: &mut Answer,
) -> Result<(), AllocError>
    ensures status { answer.new.status ≡ status }
    ensures wanted { answer.new.wanted ≡ answer.old.wanted }
    ensures body { answer.new.body ≡ answer.old.body }
{
    answer.status = status;
    match answer.wanted {
        Wanted::Kind => {
            answer.is_json = fields.iter().any(|field| says_json(unread, field));
            Ok(())
        }
        Wanted::All { is_of_head } => {
            let has_length = is_of_head || status == 304;
            take_fields(alloc, unread, fields, has_length, &mut answer.fields)
        }
    }
}

/// Applies one event to the answer.
fn take_event(
    alloc: Global,
    event: &Event<ResponseSpans>,
    unread: &[u8],
    fields: &[HeaderSpan],
    answer: &mut Answer,
) -> Result<Step, AllocError>
    ensures wanted { answer.new.wanted ≡ answer.old.wanted }
    ensures body { OnOk result (answer.new.body.items ≡ body_after unread.now event.now answer.old.body.items) }
    ensures kept { IfOk result (λ step. IsKept step answer.old answer.new) }
{
    match event {
        Event::Head(head) => {
            let fields = fields.get(..head.headers).unwrap_or(&[]);
            take_head(alloc, head.code, unread, fields, answer)?;
            Ok(Step::Next)
        }
        Event::Data(span) => {
            answer.body.extend_from_slice(part(unread, *span))?;
            Ok(Step::Next)
        }
        Event::Informational(_) => Ok(Step::Next),
        Event::End(_) => Ok(Step::Whole),
        Event::NeedMore | Event::Paused => Ok(Step::Read),
        Event::Upgraded | Event::Closed => Ok(Step::Ended),
    }
}

/// Applies the next event of the bytes that were read. They may not be HTTP/1.1, and an allocation may fail.
fn take_next(
    alloc: Global,
    client: &mut Client,
    input: &mut BytesMut,
    spans: &mut [HeaderSpan],
    answer: &mut Answer,
) -> Result<Step, Failure>
    ensures wanted { answer.new.wanted ≡ answer.old.wanted }
    ensures kept { IfOk result (λ step. IsKept step answer.old answer.new) }
    ensures failed { IfErr result IsOfAnswer }
{
    let unread = input.as_slice();
    let read = client.read(unread, spans).map_err(|_| Failure::BadAnswer)?;
    let step = take_event(alloc, &read.event, unread, spans, answer).map_err(|_| {
        Failure::NoAnswer
    })?;
    input.advance(read.consumed);
    Ok(step)
}

/// Reads once. Returns the number of bytes that came, 0 at the end.
fn read_more<S: Read>(input: &mut BytesMut, stream: &mut S) -> io::Result<usize>
    ensures read { IfOk result (λ n. (more : List ℕ) × (length more ≡ n) × (input.new.items ≡ input.old.items ++ more) × Consumes (S.remaining stream.old) (S.remaining stream.new) more) }
    ensures end { IfOk result (λ n. n ≡ 0 → IsAtEnd (S.remaining stream.new)) }
    ensures failed { OnErr result ((input.new.items ≡ input.old.items) × Keeps (S.remaining stream.old) (S.remaining stream.new)) }
{
    input.reserve(READ_SIZE)?;
    input.read_from(stream)
}

/// Returns the answer if the connection ends here, after a byte of the answer or before, and its body lasts until the end.
fn end(client: &mut Client, answer: Answer, has_begun: bool) -> Result<Answer, Failure>
    ensures answer { IfOk result (λ r. r ≡ answer) }
    ensures failed { IfErr result (λ e. e ≡ cond has_begun Failure.NoAnswer Failure.HungUp) }
{
    match client.read_eof() {
        Ok(Event::End(_)) => Ok(answer),
        _ if has_begun => Err(Failure::NoAnswer),
        _ => Err(Failure::HungUp),
    }
}

/// Reads an answer of which nothing has come.
fn read_rest<S: Read>(
    alloc: Global,
    client: &mut Client,
    stream: &mut S,
    wanted: Wanted,
) -> Result<Answer, Failure>
    ensures wanted { IfOk result (λ r. r.wanted ≡ wanted) }
    ensures short { IfOk result (λ r. length r.body.items ≤ 1048576) }
    ensures failed { IfErr result IsOfAnswer }
{
    let mut spans = [EMPTY_HEADER_SPAN; 64];
    let mut input = BytesMut::new(alloc);
    let mut answer = Answer::new(alloc, wanted);
    let mut has_begun = false;
    for _ in 0..u64::MAX {
        match take_next(alloc, client, &mut input, &mut spans, &mut answer)? {
            Step::Next => {}
            Step::Whole => return Ok(answer),
            Step::Read => match read_more(&mut input, stream) {
                Ok(0) => return end(client, answer, has_begun),
                Ok(_) => has_begun = true,
                Err(error) => return Err(failure_of(&error, has_begun)),
            },
            Step::Ended => return Err(Failure::BadAnswer),
        }
        if answer.body.len() > MAX_ANSWER_BYTES {
            return Err(Failure::BadAnswer);
        }
    }
    Err(Failure::BadAnswer)
}

/// Reads an answer of whose fields the content type alone is wanted.
///
/// # Errors
///
/// - `HungUp`: the application ended or reset the connection before a byte of the answer came.
/// - `NoAnswer`: no whole answer came, for another reason.
/// - `BadAnswer`: the answer is not HTTP/1, or has more than 1,048,576 bytes.
pub fn read_answer<S: Read>(
    alloc: Global,
    client: &mut Client,
    stream: &mut S,
) -> Result<Answer, Failure>
    ensures wanted { IfOk result (λ r. r.wanted ≡ Wanted.Kind) }
    ensures short { IfOk result (λ r. length r.body.items ≤ 1048576) }
    ensures failed { IfErr result IsOfAnswer }
{
    read_rest(alloc, client, stream, Wanted::Kind)
}

/// Sends a request to the application, and reads its answer.
///
/// # Errors
///
/// - `HungUp`: the application ended or reset the connection before a byte of the answer came.
/// - `NoAnswer`: no whole answer came, for another reason.
/// - `BadAnswer`: the answer is not HTTP/1, or has more than 1,048,576 bytes.
pub fn exchange<S: Read + Write>(
    alloc: Global,
    client: &mut Client,
    stream: &mut S,
    asked: &Asked<'_>,
) -> Result<Answer, Failure>
    ensures wanted { IfOk result (λ r. r.wanted ≡ asked.now.wanted) }
    ensures short { IfOk result (λ r. length r.body.items ≤ 1048576) }
    ensures failed { IfErr result IsOfAnswer }
{
    let Some(output) = request(alloc, client, asked) else {
        return Err(Failure::NoAnswer);
    };
    if let Err(error) = stream.write_all(output.as_slice()) {
        return Err(failure_of(&error, false));
    }
    read_rest(alloc, client, stream, asked.wanted)
}
