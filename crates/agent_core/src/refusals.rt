//! The refusals of requests, and the status and the text of each.
ghost use Rattle.std.specs.Prelude.{◌≡◌, ◌≤◌, ◌∷◌, ◌++◌, [], IfOk, string_bytes};
ghost use Rattle.agent_core.specs.Refusals.{failure_text, fault_text, is_answer, join_text, json_of, line_of, message_of, part_text, sent, status_of, text_of, word_of};
ghost use Rattle.agent_core.specs.declared.refusals.Refusal.TheVariants.{Busy as crowded, Malformed as malformed, Memory as no_memory, Unanswered as unanswered};

use crate::verbs::Verb;
use change_core::Address;
use message_core::Reason;
use std::alloc::{AllocError, AllocFailed, Global};

/// A part of a request that is malformed.
#[derive(Clone, Copy, Debug, PartialEq, Eq)]
pub enum Part {
    /// The key is not 1 to 1,024 bytes of UTF-8.
    Key,
    /// The parameter `n` is not a number from 1 to 4,096.
    Count,
    /// The body is not UTF-8.
    Body,
    /// The body of a request for the owners of keys starts with `[` and is not a JSON list.
    Keys,
    /// The parameter `not-mine` is not 1.
    NotMine,
    /// The parameter `after` is not the digest of a ring.
    After,
    /// The parameter `wait` is not a number from 1 to 60.
    Wait,
    /// The query of a request for another level of the log is not `level=` and the name of a level.
    Level,
    /// The query of a request for a key's owners has another parameter than `n`.
    OwnerQuery,
    /// The query of a request for the owners of keys has another parameter than `n` and `not-mine`, or one of them twice.
    OwnersQuery,
    /// The query of a request for the ring has another parameter than `after` and `wait`, one of them twice, or `wait` alone.
    RingQuery,
    /// The field that names the key comes twice, or is not ASCII.
    KeyField,
    /// The field that limits the wait comes twice, or is not a number from 1 to 60,000.
    WaitField,
}

/// A reason why one of many keys is none.
#[derive(Clone, Copy, Debug, PartialEq, Eq)]
pub enum KeyFault {
    /// The element of the JSON list is not a text.
    NotText,
    NotUtf8,
    Empty,
    /// It has more than 1,024 bytes.
    Long,
}

/// A reason why a request to the application has no answer that can be passed on.
#[derive(Clone, Copy, Debug, PartialEq, Eq)]
pub enum Failure {
    /// The application accepted no connection.
    NotAccepted,
    /// The application ended or reset the connection before a byte of the answer came.
    HungUp,
    /// No whole answer came, for another reason: the time ran out, the application ended it early, the connection failed, or
    /// an allocation did.
    NoAnswer,
    /// The answer is not HTTP/1, is too long, is not UTF-8, or its status is not 200 to 599.
    BadAnswer,
}

/// A reason why a request is refused.
#[derive(Clone, Copy, Debug, PartialEq, Eq)]
pub enum Refusal {
    /// A part of the request is malformed.
    Malformed(Part),
    /// One of the keys of a request for the owners of keys is none, the first such, at this place among them, from 1.
    BadKey { place: usize, fault: KeyFault },
    /// A page of another site asks for a change (the request is not a GET, and has an `Origin` field).
    CrossSite,
    /// The path is not one that is served.
    NotFound,
    /// The request has another method than this one, or those, of its path.
    BadMethod(Verb),
    /// The node has left already.
    AlreadyLeft,
    /// The node has not left.
    NotLeft,
    /// No incarnation is left for the entry that the node would have to assert.
    Exhausted,
    /// The body has more than 131,072 bytes.
    LongBody,
    /// A request for the owners of keys has more than 4,096.
    ManyKeys,
    /// The body of a request that is passed on whole has more than 524,288 bytes.
    LongRequest,
    /// The request is a CONNECT, or asks for an upgrade of the connection.
    NotPassed,
    /// The application failed, and no more is known.
    ApplicationFailed,
    /// The application of the key's owner gave no answer that can be passed on.
    Unanswered(Failure),
    /// The application can't be reached.
    ApplicationDown,
    /// No host has answered a join yet, so the node is alone.
    NotJoined,
    /// A host answered a join, and refused it for this reason.
    JoinRefused(Reason),
    /// The node has left the ring.
    HasLeft,
    /// The node is out of the ring until its application accepts connections.
    ApplicationAwaited,
    /// The system lets no connection be accepted, over HTTP or at the node's port.
    CannotAccept,
    /// No round of gossip ended in the last ten seconds.
    NoRounds,
    /// No member serves, so no key has an owner.
    Nobody,
    /// Too many requests wait for the application.
    Busy,
    /// As many questions about the ring wait as may.
    ManyQuestions,
    /// Too many requests wait for the key's owner, the node at this address.
    OwnerBusy(Address),
    /// The node takes no more calls.
    Spent,
    /// Out of memory.
    Memory,
    /// The owner of the key answered none of the sends, or the wait was over before one was answered, and no node performed the request.
    OwnerSilent,
    /// The owner may have performed the request, and its answer did not come: the request is not to be performed twice, or its wait is over.
    AnswerLost,
}

/// Returns the text of a refused join.
fn join_text(reason: Reason) -> &'static str
    ensures { result.now ≡ join_text reason }
{
    match reason {
        Reason::Memory => "a host refused this node: memory",
        Reason::Full => "a host refused this node: full",
        Reason::Exhausted => "a host refused this node: exhausted",
        Reason::Malformed => "a host refused this node: malformed",
        Reason::Diverged | Reason::Nobody | Reason::Failed | Reason::Unexpected => {
            "a host refused this node"
        }
    }
}

impl Part {
    /// Returns the word of a refusal for this part.
    fn word(self) -> &'static str
        ensures { result.now ≡ word_of (malformed self) }
    {
        match self {
            Part::Key => "bad-key",
            Part::Count => "bad-count",
            Part::Body => "bad-body",
            Part::Keys => "bad-keys",
            Part::NotMine => "bad-not-mine",
            Part::After => "bad-after",
            Part::Wait => "bad-wait",
            Part::Level => "bad-level",
            Part::OwnerQuery => "bad-owner-query",
            Part::OwnersQuery => "bad-owners-query",
            Part::RingQuery => "bad-ring-query",
            Part::KeyField => "bad-key-field",
            Part::WaitField => "bad-wait-field",
        }
    }

    /// Returns the text of a refusal for this part.
    fn text(self) -> &'static str
        ensures { result.now ≡ part_text self }
    {
        match self {
            Part::Key => "bad key: not 1 to 1024 bytes of UTF-8",
            Part::Count => "bad count: not n=1 to n=4096",
            Part::Body => "bad body: not UTF-8",
            Part::Keys => "bad keys: not a JSON list of texts",
            Part::NotMine => "bad not-mine: not not-mine=1",
            Part::After => { "bad after: not the digest of a ring, 64 digits of 0 to 9 and a to f" }
            Part::Wait => "bad wait: not wait=1 to wait=60, in seconds",
            Part::Level => {
                "bad level: not level=off, level=error, level=warn, level=info or level=debug"
            }
            Part::OwnerQuery => "bad query: this path takes n=COUNT alone",
            Part::OwnersQuery => { "bad query: this path takes n=COUNT and not-mine=1, each once" }
            Part::RingQuery => {
                "bad query: this path takes after=DIGEST and, only with it, wait=SECONDS, each once"
            }
            Part::KeyField => "bad key field: it comes twice, or is not ASCII",
            Part::WaitField => {
                "bad X-Ringpop-Wait: not one number from 1 to 60000, in milliseconds"
            }
        }
    }
}

impl KeyFault {
    /// Returns the text of a refusal for this fault.
    fn text(self) -> &'static str
        ensures { result.now ≡ fault_text self }
    {
        match self {
            KeyFault::NotText => "not a text",
            KeyFault::NotUtf8 => "not UTF-8",
            KeyFault::Empty => "empty",
            KeyFault::Long => "more than 1024 bytes",
        }
    }
}

impl Failure {
    /// Returns the text of a refusal for this failure.
    fn text(self) -> &'static str
        ensures { result.now ≡ failure_text self }
    {
        match self {
            Failure::NotAccepted => "the owner's application accepts no connection",
            Failure::HungUp => "the owner's application hung up before it answered",
            Failure::NoAnswer => "no whole answer of the owner's application came",
            Failure::BadAnswer => {
                "bad answer of the owner's application: not HTTP/1, not UTF-8, too long or of a status not 200 to 599"
            }
        }
    }

    /// Returns that text with a newline.
    fn line(self) -> &'static str
        ensures { result.now ≡ failure_text self ++ 10 ∷ [] }
    {
        match self {
            Failure::NotAccepted => "the owner's application accepts no connection\n",
            Failure::HungUp => "the owner's application hung up before it answered\n",
            Failure::NoAnswer => "no whole answer of the owner's application came\n",
            Failure::BadAnswer => {
                "bad answer of the owner's application: not HTTP/1, not UTF-8, too long or of a status not 200 to 599\n"
            }
        }
    }

    /// Returns whether an answer with this status and this body is the refusal for this failure.
    fn is_answer(self, status: u16, body: &str) -> bool
        ensures { result ≡ is_answer status body.now (unanswered self) }
    {
        status == 502 && body == self.line()
    }
}

impl From<AllocError> for Refusal {
    ghost from_gives = { λ _ e. e ≡ no_memory };

    fn from(_error: AllocError) -> Self {
        Refusal::Memory
    }
}

impl<T: Drop> From<AllocFailed<T>> for Refusal {
    ghost from_gives = { λ _ e. e ≡ no_memory };

    fn from(_error: AllocFailed<T>) -> Self {
        Refusal::Memory
    }
}

impl Refusal {
    /// Returns the status code of HTTP (RFC 9110, section 15).
    pub fn status(&self) -> u16
        ensures status { result ≡ status_of self.now }
        ensures range { (400 ≤ result) × (result ≤ 599) }
    {
        match self {
            Refusal::Malformed(_) | Refusal::BadKey { .. } => 400,
            Refusal::CrossSite => 403,
            Refusal::NotFound => 404,
            Refusal::BadMethod(_) => 405,
            Refusal::AlreadyLeft | Refusal::NotLeft | Refusal::Exhausted => 409,
            Refusal::LongBody | Refusal::ManyKeys | Refusal::LongRequest => 413,
            Refusal::NotPassed => 501,
            Refusal::ApplicationFailed | Refusal::Unanswered(_) => 502,
            Refusal::ApplicationDown
            | Refusal::NotJoined
            | Refusal::JoinRefused(_)
            | Refusal::HasLeft
            | Refusal::ApplicationAwaited
            | Refusal::CannotAccept
            | Refusal::NoRounds
            | Refusal::Nobody
            | Refusal::Busy
            | Refusal::ManyQuestions
            | Refusal::OwnerBusy(_)
            | Refusal::Spent
            | Refusal::Memory => 503,
            Refusal::OwnerSilent | Refusal::AnswerLost => 504,
        }
    }

    /// Returns the refusal's word, another for each, by which a program tells it.
    pub fn word(&self) -> &'static str
        ensures { result.now ≡ word_of self.now }
    {
        match self {
            Refusal::Malformed(part) => part.word(),
            Refusal::BadKey { .. } => "bad-listed-key",
            Refusal::CrossSite => "cross-site",
            Refusal::NotFound => "not-found",
            Refusal::BadMethod(_) => "bad-method",
            Refusal::AlreadyLeft => "already-left",
            Refusal::NotLeft => "not-left",
            Refusal::Exhausted => "no-incarnation",
            Refusal::LongBody => "long-body",
            Refusal::ManyKeys => "many-keys",
            Refusal::LongRequest => "long-request",
            Refusal::NotPassed => "not-passed",
            Refusal::ApplicationFailed => "application-failed",
            Refusal::Unanswered(Failure::NotAccepted) => "application-not-accepting",
            Refusal::Unanswered(Failure::HungUp) => "application-hung-up",
            Refusal::Unanswered(Failure::NoAnswer) => "application-unresponsive",
            Refusal::Unanswered(Failure::BadAnswer) => "application-bad-answer",
            Refusal::ApplicationDown => "application-down",
            Refusal::NotJoined => "not-joined",
            Refusal::JoinRefused(_) => "join-refused",
            Refusal::HasLeft => "has-left",
            Refusal::ApplicationAwaited => "application-awaited",
            Refusal::CannotAccept => "cannot-accept",
            Refusal::NoRounds => "no-rounds",
            Refusal::Nobody => "no-member-serves",
            Refusal::Busy => "busy",
            Refusal::ManyQuestions => "many-questions",
            Refusal::OwnerBusy(_) => "owner-busy",
            Refusal::Spent => "no-calls",
            Refusal::Memory => "memory",
            Refusal::OwnerSilent => "owner-unresponsive",
            Refusal::AnswerLost => "answer-lost",
        }
    }

    /// Returns the refusal that an agent sends in place of an answer of its application, if an answer with this status and this
    /// body is one.
    pub fn sent(status: u16, body: &str) -> Option<Refusal>
        ensures { result ≡ sent status body.now }
    {
        if Failure::NotAccepted.is_answer(status, body) {
            return Some(Refusal::Unanswered(Failure::NotAccepted));
        }
        if Failure::HungUp.is_answer(status, body) {
            return Some(Refusal::Unanswered(Failure::HungUp));
        }
        if Failure::NoAnswer.is_answer(status, body) {
            return Some(Refusal::Unanswered(Failure::NoAnswer));
        }
        if Failure::BadAnswer.is_answer(status, body) {
            return Some(Refusal::Unanswered(Failure::BadAnswer));
        }
        (status == 503 && body == "too many requests wait\n").then_some(Refusal::Busy)
    }

    /// Returns what the refusal says: its text, and which of many keys is bad.
    fn message(&self, alloc: Global) -> Result<String, AllocError>
        ensures { IfOk result (λ message. string_bytes message ≡ message_of self.now) }
    {
        let text = self.text();
        match self {
            Refusal::BadKey { place, .. } => format!(in alloc; "bad key {place}: {text}"),
            _ => String::from_str(alloc, text),
        }
    }

    /// Returns what the refusal says, one line with its newline.
    ///
    /// # Errors
    ///
    /// - `AllocError`: out of memory.
    pub fn line(&self, alloc: Global) -> Result<String, AllocError>
        ensures { IfOk result (λ line. string_bytes line ≡ line_of self.now) }
    {
        let mut line = self.message(alloc)?;
        line.push_str("\n")?;
        Ok(line)
    }

    /// Returns the refusal as JSON, `{"error":"bad-count","message":".."}` and a newline: its word, and what it says. No refusal says a character
    /// that JSON escapes.
    ///
    /// # Errors
    ///
    /// - `AllocError`: out of memory.
    pub fn json(&self, alloc: Global) -> Result<String, AllocError>
        ensures { IfOk result (λ text. string_bytes text ≡ json_of self.now) }
    {
        let word = self.word();
        let message = self.message(alloc)?;
        format!(in alloc; "{{\"error\":\"{word}\",\"message\":\"{message}\"}}\n")
    }

    /// Returns the refusal's text, without the place of a bad key.
    fn text(&self) -> &'static str
        ensures { result.now ≡ text_of self.now }
    {
        match self {
            Refusal::Malformed(part) => part.text(),
            Refusal::BadKey { fault, .. } => fault.text(),
            Refusal::CrossSite => "refused: asked by a page of another site",
            Refusal::NotFound => "nothing at this path",
            Refusal::BadMethod(Verb::Get) => "bad method: this path takes GET",
            Refusal::BadMethod(Verb::Post) => "bad method: this path takes POST",
            Refusal::BadMethod(Verb::Both) => "bad method: this path takes GET and POST",
            Refusal::AlreadyLeft => "the node has left already",
            Refusal::NotLeft => "the node has not left",
            Refusal::Exhausted => "no incarnation is left",
            Refusal::LongBody => "bad body: more than 131072 bytes",
            Refusal::ManyKeys => "bad keys: more than 4096",
            Refusal::LongRequest => "bad body: more than 524288 bytes",
            Refusal::NotPassed => "not passed on: a CONNECT, or a request with Upgrade",
            Refusal::ApplicationFailed => "the application failed",
            Refusal::Unanswered(failure) => failure.text(),
            Refusal::ApplicationDown => "the application does not answer",
            Refusal::NotJoined => "no host has answered",
            Refusal::JoinRefused(reason) => join_text(*reason),
            Refusal::HasLeft => "the node has left",
            Refusal::ApplicationAwaited => {
                "the node is not in the ring, since its application accepts no connection"
            }
            Refusal::CannotAccept => "no connection can be accepted",
            Refusal::NoRounds => "no round of gossip ended in the last ten seconds",
            Refusal::Nobody => "nobody serves",
            Refusal::Busy => "too many requests wait",
            Refusal::ManyQuestions => {
                "too many questions wait: 1000, or half of the connections; ask again after a second, or without wait"
            }
            Refusal::OwnerBusy(_) => {
                "too many requests wait for the owner of this key: send it again later; keys of other owners are answered"
            }
            Refusal::Spent => "the node takes no more calls",
            Refusal::Memory => "out of memory",
            Refusal::OwnerSilent => "the owner does not answer",
            Refusal::AnswerLost => "the answer was lost: the owner may have performed the request",
        }
    }
}
