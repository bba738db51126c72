//! The codes that exports answer.
ghost use Rattle.std.specs.Prelude.{◌≡◌};
ghost use Rattle.ringpop_c.specs.Codes.{code_number, code_of_error, code_of_field, code_of_result, code_of_stop, code_of_wire};

use message_core::WireError;
use node_core::{ConfigField, NodeError, StopCause};

/// The outcome of a call. C sees its number.
#[derive(Clone, Copy, Debug, PartialEq, Eq)]
pub enum Code {
    /// The call is done.
    Done = 0,
    /// Done, and there is nothing to tell.
    Nothing = 1,
    /// The handle is empty.
    NoNode = 2,
    /// The handle is full.
    HasNode = 3,
    /// The buffer is shorter than what may have to be written; its count is the length that is needed.
    ShortBuffer = 4,
    /// The port is 0.
    BadAddress = 5,
    /// An incarnation or a moment is over 2^53 - 1.
    BadNumber = 6,
    /// The weight is not one of 1 to 8.
    BadWeight = 7,
    /// `replicas` is out of its range.
    BadReplicas = 8,
    /// `max_members` is out of its range.
    BadMaxMembers = 9,
    /// `suspect_ms` is out of its range.
    BadSuspectMs = 10,
    /// `faulty_ms` is out of its range.
    BadFaultyMs = 11,
    /// `helpers` is out of its range.
    BadHelpers = 12,
    /// `piggyback` is out of its range.
    BadPiggyback = 13,
    /// `per_message` is out of its range.
    BadPerMessage = 14,
    /// No incarnation is left.
    Exhausted = 15,
    /// The node holds `max_members` already.
    Full = 16,
    /// The node has left already.
    AlreadyLeft = 17,
    /// The node has not left.
    NotLeft = 18,
    /// A probe is running.
    Busy = 19,
    /// No probe number is left.
    Spent = 20,
    /// The probe is not the running one.
    StaleProbe = 21,
    /// The helper was not asked, or has answered.
    NotAsked = 22,
    /// Out of memory.
    Memory = 23,
    /// The line has more than 1,048,576 bytes.
    LineTooLong = 24,
    /// The line is not one JSON value in UTF-8.
    BadJson = 25,
    /// The line is not a JSON object.
    NotObject = 26,
    /// The `kind` of the message is unknown.
    UnknownKind = 27,
    /// A field that has to be there is absent.
    MissingField = 28,
    /// A field is of another form than it has to be.
    BadField = 29,
    /// There are more than 4,096 changes, or more than 256 keys.
    TooMany = 30,
    /// The message is a request, or an answer to one, and none of the membership.
    NotGossip = 31,
    /// The changes of the message are processed; out of memory for its answer.
    Unanswered = 32,
    /// The target of the probe is suspect: no helper could be asked, or one did not reach it.
    Suspected = 33,
    /// Another helper has not answered.
    Waiting = 34,
    /// Every helper failed, and the target's state is unknown.
    Inconclusive = 35,
    /// A helper's report is not one of 0 to 2.
    BadWord = 36,
}

impl Code {
    /// The number of the code, which the header names.
    pub fn number(self) -> u32
        ensures { result ≡ code_number self }
    {
        self as u32
    }

    /// The code of a field of the configuration that is out of its range.
    fn of_field(field: ConfigField) -> Code
        ensures { result ≡ code_of_field field }
    {
        match field {
            ConfigField::Replicas => Code::BadReplicas,
            ConfigField::MaxMembers => Code::BadMaxMembers,
            ConfigField::SuspectMs => Code::BadSuspectMs,
            ConfigField::FaultyMs => Code::BadFaultyMs,
            ConfigField::Helpers => Code::BadHelpers,
            ConfigField::Piggyback => Code::BadPiggyback,
            ConfigField::PerMessage => Code::BadPerMessage,
        }
    }

    /// Returns the code of a node's error.
    pub(crate) fn of_error(error: NodeError) -> Code
        ensures { result ≡ code_of_error error }
    {
        match error {
            NodeError::BadConfig(field) => Code::of_field(field),
            NodeError::Exhausted => Code::Exhausted,
            NodeError::Full => Code::Full,
            NodeError::AlreadyLeft => Code::AlreadyLeft,
            NodeError::NotLeft => Code::NotLeft,
            NodeError::Busy => Code::Busy,
            NodeError::Spent => Code::Spent,
            NodeError::StaleProbe => Code::StaleProbe,
            NodeError::NotAsked => Code::NotAsked,
            NodeError::Memory => Code::Memory,
        }
    }

    /// Returns `Done`, or the code of a node's error.
    pub(crate) fn of_result<T: Drop>(outcome: Result<T, NodeError>) -> Code
        ensures { result ≡ code_of_result outcome }
    {
        match outcome {
            Ok(_) => Code::Done,
            Err(error) => Code::of_error(error),
        }
    }

    /// Returns the code of an error of a line. A line in memory is never `Io`, which counts as bad JSON.
    pub(crate) fn of_wire(error: WireError) -> Code
        ensures { result ≡ code_of_wire error }
    {
        match error {
            WireError::LineTooLong => Code::LineTooLong,
            WireError::BadJson | WireError::Io => Code::BadJson,
            WireError::NotObject => Code::NotObject,
            WireError::UnknownKind => Code::UnknownKind,
            WireError::MissingField(_) => Code::MissingField,
            WireError::BadField(_) => Code::BadField,
            WireError::TooMany => Code::TooMany,
            WireError::Memory => Code::Memory,
        }
    }

    /// Returns the code for the cause that stopped a batch of changes.
    pub(crate) fn of_stop(cause: StopCause) -> Code
        ensures { result ≡ code_of_stop cause }
    {
        match cause {
            StopCause::Exhausted => Code::Exhausted,
            StopCause::Full => Code::Full,
            StopCause::Memory => Code::Memory,
        }
    }
}
