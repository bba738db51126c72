//! The inputs of connections.
ghost use Rattle.std.specs.Prelude.{◌≡◌, Some};
ghost use Rattle.line_service.specs.Answering.{Hears, HearsArrived, IsInputOf, IsReadAs, unread_as};

use message_core::{Message, Reason, WireError};
use std::alloc::Global;
use std::io::{BufReader, Read};
use wire_json::{decode, read_line};

/// The input of a connection.
#[derive(Debug, Drop)]
pub enum Input {
    /// A line that is a message.
    Message(Message),
    /// It is refused for this reason: a line that is not a message or too long, or out of memory for reading it.
    Refused(Reason),
    /// It needs no answer.
    Nothing,
}

/// Returns the reason of a refusal for an error of a line.
fn reason_of(fault: WireError) -> Reason
    ensures { result ≡ unread_as fault }
{
    match fault {
        WireError::Memory => Reason::Memory,
        _ => Reason::Malformed,
    }
}

/// Returns the input that a line is.
fn decoded(alloc: Global, line: &[u8]) -> Input
    ensures { IsReadAs line.now result }
{
    match decode(alloc, line) {
        Ok(message) => Input::Message(message),
        Err(fault) => Input::Refused(reason_of(fault)),
    }
}

/// Returns the input for the result of reading one line.
fn input_of(alloc: Global, read: Result<Option<Vec<u8>>, WireError>) -> Input
    ensures { IsInputOf read result }
{
    match read {
        Ok(Some(line)) => decoded(alloc, line.as_slice()),
        Ok(None) => Input::Nothing,
        Err(WireError::LineTooLong) => Input::Refused(Reason::Malformed),
        Err(WireError::Memory) => Input::Refused(Reason::Memory),
        Err(_) => Input::Nothing,
    }
}

/// Reads one line and decodes it; the bytes before the end of the stream are one too. A line that is not a message or too long is
/// refused as malformed, and one that ran out of memory as that. If no line came, or the stream failed, no answer is needed.
pub fn hear<S: Read + Drop>(alloc: Global, stream: S) -> Input
    ensures { Hears (S.remaining stream) result }
{
    let Ok(mut reader) = BufReader::new(alloc, stream) else {
        return Input::Refused(Reason::Memory);
    };
    let read = read_line(alloc, &mut reader);
    input_of(alloc, read)
}

/// Returns the input that these bytes are, by their first line.
fn heard_in(alloc: Global, bytes: &[u8]) -> Input
    ensures { Hears (Some bytes.now) result }
{
    let mut reader = bytes;
    let read = read_line(alloc, &mut reader);
    input_of(alloc, read)
}

/// Returns the input that bytes are which came over a connection, or that they did not come: one that needs no answer if the connection failed or its line
/// was not whole in time.
pub fn hear_arrived(alloc: Global, line: &Result<Vec<u8>, WireError>) -> Input
    ensures { HearsArrived line.now result }
{
    match line {
        Ok(bytes) => heard_in(alloc, bytes.as_slice()),
        Err(WireError::Memory) => Input::Refused(Reason::Memory),
        Err(_) => Input::Nothing,
    }
}
