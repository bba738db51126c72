//! The application, which answers the requests of the keys that this node owns.
ghost use Rattle.std.specs.Prelude.{◌≡◌, ◌≤◌, ◌<◌, ◌⊎◌, ◌↔◌, false, IfOk, IsTrue};
ghost use Rattle.agent_core.specs.Packs.{packed};
ghost use Rattle.agent_core.specs.Refusals.{line_of, status_of};
ghost use Rattle.std.specs.Prelude.{[], ◌∷◌, IfSome, codes, map, List, ℕ};
ghost use Rattle.http1.specs.Head.{pairs};
ghost use Rattle.agent_core.specs.Parts.{joined};
ghost use Rattle.agent_core.specs.Passing.{answer_text, flat, named};
ghost use Rattle.agent_application.specs.Applications.{body_passed, fault_of, refusal_of};

use agent_core::{
    Failure, Field, MAX_BODY_BYTES, MAX_REQUEST_BYTES, MAX_STATUS, MIN_STATUS, PassedRequest,
    Refusal, body_in, is_repeatable, pack, pack_answer, push_field, request_in, unpack_bytes,
};
use agent_http::{Answer, Asked, Wanted, exchange, kind_of, names_json, refused_body};
use agent_state::{Count, Host, Logger, Notices, Times};
use change_core::Address;
use http1::{Client, Header, Limits};
use line_service::Stopwatch;
use log::{info, warn};
use message_core::{Keys, Text, WireError};
use peer_core::{Handler, HandlerFault};
use percent_encoding::{NON_ALPHANUMERIC, percent_encode};
use reactor::{Arrived, is_short, look_at};
use std::alloc::{AllocError, Global};
use std::io;
use std::net::TcpStream;
use std::sync::{Mutex, MutexGuard, Wait};
use std::time::{Duration, Instant};
use transport::{Deadline, Timed, socket_address};

/// The most milliseconds for a request to the application and its answer, connecting and a second try included.
const MAX_APPLICATION_MILLIS: u64 = 4_000;

/// The most milliseconds in which the application has to accept a connection to be taken for up.
const MAX_PROBE_MILLIS: u64 = 1_000;

/// The milliseconds for which a connection is kept without a request: shorter than many servers keep theirs.
const MAX_KEPT_MILLIS: u64 = 4_000;

/// A connection to the application.
#[derive(Drop)]
struct Connection {
    client: Client,
    stream: TcpStream,
    /// The millisecond at which it was kept.
    since: u64,
}

/// Why a request to the application has no answer.
#[derive(Clone, Copy)]
enum Fault {
    /// No connection was made, for this reason of the system.
    NotConnected(io::Error),
    /// The application, or the time limit, ended the request.
    Failed(Failure),
}

impl Fault {
    /// Returns the refusal of the request: as of one too many where this node's own descriptors or memory ran out.
    fn refusal(&self) -> Refusal
        ensures { result ≡ refusal_of self.now }
    {
        match self {
            Fault::NotConnected(error) if is_short(error) => Refusal::Busy,
            Fault::NotConnected(_) => Refusal::Unanswered(Failure::NotAccepted),
            Fault::Failed(failure) => Refusal::Unanswered(*failure),
        }
    }
}

impl From<Failure> for Fault {
    fn from(failure: Failure) -> Self {
        Fault::Failed(failure)
    }
}

/// Where the application of a node is, and what it is asked.
#[derive(Clone, Copy, Debug, PartialEq, Eq)]
pub struct ApplicationOptions {
    /// The node's address, which an echo names.
    pub own: Address,
    /// The address of the program; None: there is an echo in its stead.
    pub at: Option<Address>,
    /// Whether any request is passed on: then the application is not asked twice for a POST.
    pub any_request: bool,
    /// The most connections to the program that are kept between requests.
    pub connections: usize,
}

/// The handler of requests: a program that answers them over HTTP or, if it has no address, an echo, whose answer is
/// the node's address, a space and the request's body.
#[derive(Drop)]
pub struct Application<R> {
    rt: R,
    log: Logger<R>,
    stopwatch: Stopwatch,
    pub options: ApplicationOptions,
    /// The number of requests that were to be handled here.
    pub handled: Count,
    /// The number of them that the program did not answer, or by no answer that can be passed on.
    pub failures: Count,
    /// The times in which the program answered, or did not.
    pub times: Times,
    /// What the log said last of the program.
    notices: Notices,
    /// The connections that are kept, the newest last.
    kept: Mutex<Vec<Connection>>,
}

/// Returns the text of a Reply for a refusal.
fn refused(alloc: Global, refusal: &Refusal) -> Result<Text, HandlerFault>
    ensures { IfOk result (λ text. text ≡ packed (status_of refusal.now) false (line_of refusal.now)) }
{
    let line = refusal.line(alloc).map_err(out_of_memory)?;
    pack(alloc, refusal.status(), false, line.as_str()).map_err(handler_fault)
}

/// Returns the text of a Reply for a refusal of a request that was passed on whole: a field says that it is the agent's.
fn refused_whole(alloc: Global, refusal: &Refusal, is_json: bool) -> Result<Text, WireError> {
    let mut fields = Vec::new(alloc);
    let kind = kind_of(is_json).name();
    push_field(&mut fields, b"content-type", kind.as_bytes())?;
    push_field(&mut fields, b"x-ringpop-error", refusal.word().as_bytes())?;
    let body = refused_body(alloc, refusal, is_json)?;
    pack_answer(alloc, refusal.status(), body.as_bytes(), fields.as_slice())
}

/// Returns whether a field of a request names JSON among what it accepts.
fn takes_json(field: &Header<'_>) -> bool {
    field.name == b"accept".as_slice() && names_json(field.value)
}

/// Returns the text of a Reply for a request that is refused: no error, so that the asking node does not try again.
fn refused_as(alloc: Global, asked: &Asked<'_>, refusal: &Refusal) -> Result<Text, HandlerFault>
    ensures { asked.now.wanted ≡ Wanted.Kind → IfOk result (λ text. text ≡ packed (status_of refusal.now) false (line_of refusal.now)) }
{
    match asked.wanted {
        Wanted::Kind => refused(alloc, refusal),
        Wanted::All { .. } => {
            let is_json = asked.fields.iter().any(|field| takes_json(field));
            refused_whole(alloc, refusal, is_json).map_err(handler_fault)
        }
    }
}

/// Returns the handler's error if an answer has no text.
fn handler_fault(error: WireError) -> HandlerFault
    ensures { result ≡ fault_of error }
{
    match error {
        WireError::Memory => HandlerFault::Memory,
        _ => HandlerFault::Failed,
    }
}

/// Returns the fault of a request that a time limit or an error of the clock ended.
fn no_answer(_error: io::Error) -> Fault
    ensures { result ≡ Fault.Failed Failure.NoAnswer }
{
    Fault::Failed(Failure::NoAnswer)
}

/// Returns the handler's error if memory ran out.
fn out_of_memory(_error: AllocError) -> HandlerFault
    ensures { result ≡ HandlerFault.Memory }
{
    HandlerFault::Memory
}

/// Returns the text of a Reply for the answer to a request that is a body alone. None if the answer can't be passed on: its
/// body is too long or not UTF-8, or its status is not 200 to 599.
fn packed(alloc: Global, answer: &Answer) -> Option<Result<Text, HandlerFault>>
    ensures { IfSome result (λ made. IfOk made (λ text. text ≡ packed answer.now.status answer.now.is_json answer.now.body.items)) }
{
    let status = answer.status;
    let text = str::from_utf8(answer.body.as_slice()).ok()?;
    if status < MIN_STATUS || status > MAX_STATUS || text.len() > MAX_BODY_BYTES {
        return None;
    }
    Some(pack(alloc, status, answer.is_json, text).map_err(handler_fault))
}

/// Returns the text of a Reply for the answer to a request that is passed on whole. None if the answer can't be passed on: its
/// body is too long, or its status is not 200 to 599.
fn packed_whole(alloc: Global, answer: &Answer) -> Option<Result<Text, HandlerFault>>
    ensures { IfSome result (λ made. IfOk made (λ text. (fields : List (List ℕ × List ℕ)) → answer.now.fields.items ≡ joined (flat fields)
        → text ≡ answer_text answer.now.status (body_passed answer.now.status answer.now.body.items) fields)) }
{
    let (status, body) = (answer.status, answer.body.as_slice());
    if status < MIN_STATUS || status > MAX_STATUS || body.len() > MAX_REQUEST_BYTES {
        return None;
    }
    // (a 205 has no body, RFC 9110, section 15.3.6)
    let body = if status == 205 { &[] } else { body };
    Some(pack_answer(alloc, status, body, answer.fields.as_slice()).map_err(handler_fault))
}

/// Returns fields as the client of the application takes them.
fn headers_of<'a>(alloc: Global, fields: &[Field<'a>]) -> Result<Vec<Header<'a>>, AllocError>
    ensures { IfOk result (λ headers. pairs headers.items ≡ map named fields.now) }
{
    let mut headers = Vec::with_capacity(alloc, fields.len())?;
    for field in fields {
        headers.push(Header {
            name: field.name,
            value: field.value,
        })?;
    }
    Ok(headers)
}

/// Returns the fields of a request that is a body alone, to a service at this host.
fn text_fields(alloc: Global, host: &str) -> Result<Vec<Header<'_>>, AllocError>
    ensures { IfOk result (λ fields. pairs fields.items ≡ (codes "host", host.now) ∷ (codes "content-type", codes "text/plain; charset=utf-8") ∷ []) }
{
    let mut fields = Vec::with_capacity(alloc, 2)?;
    fields.push(Header {
        name: b"host",
        value: host.as_bytes(),
    })?;
    fields.push(Header {
        name: b"content-type",
        value: b"text/plain; charset=utf-8",
    })?;
    Ok(fields)
}

/// Returns whether a request that is passed on whole may be performed twice: by its method, or since it says so.
fn may_repeat(method: &[u8], fields: &[Field<'_>]) -> bool {
    fields
        .iter()
        .any(|field| field.name == b"idempotency-key".as_slice())
        || is_repeatable(str::from_utf8(method).unwrap_or(""))
}

impl<R: Host> Application<R> {
    /// Makes the application with these options, which has been asked nothing.
    pub fn new(
        rt: R,
        alloc: Global,
        log: Logger<R>,
        stopwatch: Stopwatch,
        options: ApplicationOptions,
    ) -> Self
        ensures { result.options ≡ options }
    {
        Application {
            rt,
            log,
            stopwatch,
            options,
            handled: Count::new(),
            failures: Count::new(),
            times: Times::new(),
            notices: Notices::new(alloc),
            kept: Mutex::new(Vec::new(alloc)),
        }
    }

    /// Locks the connections that are kept, those that were kept for too long excepted, which are closed.
    fn lock_kept(&self, now: u64) -> MutexGuard<'_, Vec<Connection>> {
        let mut kept = self.kept.lock(&self.rt);
        kept.retain(|it| now < it.since.saturating_add(MAX_KEPT_MILLIS));
        kept
    }

    /// Returns the address of the program; without one, the node's own.
    fn address(&self) -> Address {
        self.options.at.unwrap_or(self.options.own)
    }

    fn now(&self) -> u64 {
        self.stopwatch.moment(&self.rt).number()
    }

    fn take_kept(&self) -> Option<Connection> {
        self.lock_kept(self.now()).pop()
    }

    /// Returns a kept connection over which nothing has come, not even its end, if there is one: as far as this side knows its application has not
    /// closed it, and has sent nothing that would be taken for the answer to the next request.
    fn take_quiet(&self) -> Option<Connection> {
        for _ in 0..self.options.connections {
            let kept = self.take_kept()?;
            if look_at(&kept.stream) == Arrived::Nothing {
                return Some(kept);
            }
        }
        None
    }

    /// Keeps a connection for another request, if it can have one and fewer are kept than may be. Out of memory drops it.
    fn keep(&self, client: Client, stream: TcpStream) {
        if !client.is_idle() {
            return;
        }
        let since = self.now();
        let mut kept = self.lock_kept(since);
        if kept.len() < self.options.connections {
            let _kept = kept.push(Connection {
                client,
                stream,
                since,
            });
        }
    }

    fn connect(&self, at: Address, limit: Duration) -> io::Result<Connection> {
        let stream = TcpStream::connect_timeout(&self.rt, &socket_address(at), limit)?;
        let _set = stream.set_nodelay(true);
        Ok(Connection {
            client: Client::new(Limits::default()),
            stream,
            since: 0,
        })
    }

    /// Returns whether the application accepts a connection within a second; the echo always does. Closes what was kept for too long.
    ///
    /// # Errors
    ///
    /// - The error of the system, whose descriptors or memory ran out: nothing is known of the application.
    pub fn is_up(&self) -> io::Result<bool> {
        drop(self.lock_kept(self.now()));
        let Some(at) = self.options.at else {
            return Ok(true);
        };
        match self.connect(at, Duration::from_millis(MAX_PROBE_MILLIS)) {
            Ok(_) => Ok(true),
            Err(error) if is_short(&error) => Err(error),
            Err(_) => Ok(false),
        }
    }

    /// Sends a request over a connection within what is left of a limit, and keeps the connection if it can be used again.
    fn exchange_over(
        &self,
        alloc: Global,
        connection: Connection,
        limit: &Deadline<'_, R>,
        asked: &Asked<'_>,
    ) -> Result<Answer, Fault> {
        let Connection {
            mut client,
            stream,
            ..
        } = connection;
        let left = limit.left().map_err(no_answer)?;
        let deadline = Deadline::after(&self.rt, left).map_err(no_answer)?;
        let mut stream = Timed::new(stream, deadline);
        let answer = exchange(alloc, &mut client, &mut stream, asked)?;
        self.keep(client, stream.into_inner());
        Ok(answer)
    }

    /// Returns the application's answer to a request within a limit. If the application hung up on a kept connection, a request
    /// that may be performed twice is sent again over a new one, since the application may have closed the kept one before. After
    /// any other failure it is not, since the application may be at work on it.
    fn ask(&self, alloc: Global, asked: &Asked<'_>, limit: Duration) -> Result<Answer, Fault> {
        let deadline = Deadline::after(&self.rt, limit).map_err(no_answer)?;
        if let Some(kept) = self.take_quiet() {
            match self.exchange_over(alloc, kept, &deadline, asked) {
                Err(Fault::Failed(Failure::HungUp)) if asked.is_repeatable => {}
                answer => return answer,
            }
        }
        let left = deadline.left().map_err(no_answer)?;
        match self.connect(asked.at, left) {
            Ok(connection) => self.exchange_over(alloc, connection, &deadline, asked),
            Err(error) => Err(Fault::NotConnected(error)),
        }
    }

    /// Returns the application's answer to a request within a limit, and counts the time that it took.
    fn ask_timed(
        &self,
        alloc: Global,
        asked: &Asked<'_>,
        limit: Duration,
    ) -> Result<Answer, Fault> {
        let start = Instant::now(&self.rt).ok();
        let answer = self.ask(alloc, asked, limit);
        self.times.add_since(&self.rt, start);
        answer
    }

    /// Notes whether a request had no answer that can be passed on. Returns whether the log is to say so.
    fn note(&self, at: Address, is_failing: bool) -> bool {
        let now = self.stopwatch.moment(&self.rt);
        self.notices.note(&self.rt, at, is_failing, now)
    }

    /// Notes an answer that was passed on, and logs it, unless the log said so last.
    fn note_answer(&self, at: Address) {
        if self.note(at, false) {
            info!(self.log; "the application at {at} answers again");
        }
    }

    /// Counts a request without an answer that can be passed on, and logs it, unless the log said so last.
    fn note_failure(&self, at: Address, fault: &Fault) {
        self.failures.add(1);
        if !self.note(at, true) {
            return;
        }
        match fault {
            Fault::NotConnected(error) if is_short(error) => {
                warn!(self.log; "no connection to the application at {at} could be made here: {error}")
            }
            Fault::NotConnected(error) => {
                warn!(self.log; "the application at {at} accepts no connection: {error}")
            }
            Fault::Failed(Failure::HungUp) => {
                warn!(self.log; "the application at {at} hung up before it answered")
            }
            Fault::Failed(Failure::BadAnswer) => {
                warn!(self.log; "the application at {at} gave an answer that can't be passed on")
            }
            Fault::Failed(_) => { warn!(self.log; "the application at {at} gave no whole answer") }
        }
    }

    /// Returns the echo's answer to a request.
    fn echo(&self, alloc: Global, asked: &Asked<'_>) -> Result<Answer, AllocError> {
        let own = self.options.own;
        let mut body = format!(in alloc; "{own} ")?.into_bytes();
        body.extend_from_slice(asked.body)?;
        let mut fields = Vec::new(alloc);
        push_field(&mut fields, b"content-type", b"text/plain; charset=utf-8")?;
        Ok(Answer {
            wanted: asked.wanted,
            status: 200,
            is_json: false,
            body,
            fields,
        })
    }

    /// Notes whether a request had an answer that could be passed on.
    fn note_result(&self, fault: Option<&Fault>) {
        let Some(at) = self.options.at else {
            return;
        };
        match fault {
            None => self.note_answer(at),
            Some(fault) => self.note_failure(at, fault),
        }
    }
}

impl<R: Host> Handler for Application<R> {
    ghost use Rattle.agent_application.specs.Applications.{AnyHandling};

    ghost may_handle = { λ _. AnyHandling };

    fn handle<W: Wait>(
        &self,
        rt: &W,
        alloc: Global,
        keys: &Keys,
        body: &Text,
    ) -> Result<Text, HandlerFault> {
        Limited::new(self, MAX_APPLICATION_MILLIS).handle(rt, alloc, keys, body)
    }
}

/// The application with a limit for a request and its answer.
#[derive(Drop)]
pub struct Limited<'a, R> {
    application: &'a Application<R>,
    /// The milliseconds for a request and its answer.
    pub millis: u64,
    /// Whether they are what is left of a client's wait.
    pub is_wait: bool,
}

impl<'a, R: Host> Limited<'a, R> {
    /// Makes the application with this number of milliseconds for a request, or its own limit if that is less.
    pub fn new(application: &'a Application<R>, millis: u64) -> Self
        ensures limit { result.millis ≤ MAX_APPLICATION_MILLIS }
        ensures own { result.is_wait ≡ false }
    {
        Limited {
            application,
            millis: millis.min(MAX_APPLICATION_MILLIS),
            is_wait: false,
        }
    }

    /// Makes the application with what is left of a client's wait for a request, or its own limit if that is less.
    pub fn within(application: &'a Application<R>, left: u64) -> Self
        ensures limit { result.millis ≤ MAX_APPLICATION_MILLIS }
        ensures wait { IsTrue result.is_wait ↔ left < MAX_APPLICATION_MILLIS }
    {
        Limited {
            is_wait: left < MAX_APPLICATION_MILLIS,
            ..Limited::new(application, left)
        }
    }

    /// Returns whether a request that has no answer after these milliseconds counts as a failure of the application: not if its client waited no longer.
    fn is_failure(&self, spent: u64) -> bool
        ensures { IsTrue result ↔ ((self.now.is_wait ≡ false) ⊎ (spent < self.now.millis)) }
    {
        !self.is_wait || spent < self.millis
    }

    /// Returns the answer to a request, by the program within a limit or by the echo, as a text.
    fn answer_to(&self, alloc: Global, asked: &Asked<'_>) -> Result<Text, HandlerFault> {
        let application = self.application;
        let begun = application.now();
        let answer = match application.options.at {
            Some(_) => application.ask_timed(alloc, asked, Duration::from_millis(self.millis)),
            None => Ok(application.echo(alloc, asked).map_err(out_of_memory)?),
        };
        let fault = match &answer {
            Ok(answer) => {
                let text = match asked.wanted {
                    Wanted::Kind => packed(alloc, answer),
                    Wanted::All { .. } => packed_whole(alloc, answer),
                };
                if let Some(text) = text {
                    application.note_result(None);
                    return text;
                }
                Fault::Failed(Failure::BadAnswer)
            }
            Err(fault) => *fault,
        };
        if self.is_failure(application.now().saturating_sub(begun)) {
            application.note_result(Some(&fault));
        }
        refused_as(alloc, asked, &fault.refusal())
    }

    /// Returns the answer to a POST of a body as text at this target, by a service at this host.
    fn answer_text(
        &self,
        alloc: Global,
        target: &str,
        host: &str,
        body: &[u8],
    ) -> Result<Text, HandlerFault> {
        let fields = text_fields(alloc, host).map_err(out_of_memory)?;
        let asked = Asked {
            at: self.application.address(),
            method: b"POST",
            target: target.as_bytes(),
            fields,
            body,
            wanted: Wanted::Kind,
            is_repeatable: !self.application.options.any_request,
        };
        self.answer_to(alloc, &asked)
    }

    /// Returns the answer to a request that is a body alone: a POST of it as text at the key's path.
    fn answer_body(&self, alloc: Global, key: &str, body: &[u8]) -> Result<Text, HandlerFault> {
        let mut target = String::from_str(alloc, "/keys/").map_err(out_of_memory)?;
        percent_encode(key.as_bytes(), NON_ALPHANUMERIC)
            .append_to(&mut target)
            .map_err(out_of_memory)?;
        let at = self.application.address();
        let host = format!(in alloc; "{at}").map_err(|_| HandlerFault::Memory)?;
        self.answer_text(alloc, target.as_str(), host.as_str(), body)
    }

    /// Returns the answer to a request that is passed on whole.
    fn answer_whole(
        &self,
        alloc: Global,
        request: &PassedRequest<'_>,
    ) -> Result<Text, HandlerFault> {
        let PassedRequest {
            method,
            target,
            body,
            fields,
        } = request;
        let fields = fields.as_slice();
        let asked = Asked {
            at: self.application.address(),
            method,
            target,
            fields: headers_of(alloc, fields).map_err(out_of_memory)?,
            body,
            wanted: Wanted::All {
                is_of_head: *method == b"HEAD".as_slice(),
            },
            is_repeatable: may_repeat(method, fields),
        };
        self.answer_to(alloc, &asked)
    }

    /// Returns the answer to a request, by the program within a limit or by the echo.
    fn answer(&self, alloc: Global, keys: &Keys, text: &Text) -> Result<Text, HandlerFault> {
        self.application.handled.add(1);
        let key = keys.get(0).ok_or(HandlerFault::Failed)?.as_str();
        let text = text.as_str();
        let Some(bytes) = unpack_bytes(alloc, text).map_err(out_of_memory)? else {
            return self.answer_body(alloc, key, text.as_bytes());
        };
        let bytes = bytes.as_slice();
        if let Some(request) = request_in(alloc, bytes).map_err(out_of_memory)? {
            return self.answer_whole(alloc, &request);
        }
        match body_in(bytes) {
            Some(body) => self.answer_body(alloc, key, body),
            None => self.answer_body(alloc, key, text.as_bytes()),
        }
    }
}

impl<'a, R: Host> Handler for Limited<'a, R> {
    ghost use Rattle.agent_application.specs.Applications.{AnyHandling};

    ghost may_handle = { λ _. AnyHandling };

    fn handle<W: Wait>(
        &self,
        _rt: &W,
        alloc: Global,
        keys: &Keys,
        body: &Text,
    ) -> Result<Text, HandlerFault> {
        self.answer(alloc, keys, body)
    }
}

/// The handler of requests that come before a host has answered. It fails, so that the asking node tries again later: this node
/// knows too few members to say whose the keys are, and its application too few to ask for their state.
pub struct Joining;

impl Handler for Joining {
    ghost use Rattle.agent_application.specs.Applications.{AnyHandling};

    ghost may_handle = { λ _. AnyHandling };

    fn handle<W: Wait>(
        &self,
        _rt: &W,
        _alloc: Global,
        _keys: &Keys,
        _body: &Text,
    ) -> Result<Text, HandlerFault> {
        Err(HandlerFault::Failed)
    }
}

/// The handler of requests that are too many. It returns a Reply with status 503, not an error, so that the asking node
/// does not try again.
pub struct Overloaded;

impl Handler for Overloaded {
    ghost use Rattle.agent_application.specs.Applications.{AnyHandling};

    ghost may_handle = { λ _. AnyHandling };

    fn handle<W: Wait>(
        &self,
        _rt: &W,
        alloc: Global,
        _keys: &Keys,
        _body: &Text,
    ) -> Result<Text, HandlerFault> {
        refused(alloc, &Refusal::Busy)
    }
}
