//! A step of a connection, over a reader and a writer that give up after a time: it goes on until one of them does.
ghost use Rattle.std.specs.Prelude.{◌≡◌, ◌<◌, ℕ, List, length, ◌++◌, [], Ok};
ghost use Rattle.std.specs.Io.KnownBytes.{Appends, Consumes};
ghost use Rattle.http_server.specs.Connection.{config_of, history};
ghost use Rattle.http_server.specs.History.{IsDone, Rests};
ghost use Rattle.http_server.specs.Exchange.{Calls};
ghost use Rattle.agent_http.specs.declared.pumps.Pause.TheVariants as pause;

use http_server::{Connection, Service};
use std::io;
use std::io::{ErrorKind, Read, Write};

/// The cause for which a step of a connection ends.
#[derive(Clone, Copy, Debug, PartialEq, Eq)]
pub enum Pause {
    /// Nothing: it is done.
    Done,
    /// The next bytes of the client.
    Input,
    /// Room for the rest of its answers.
    Room,
}

/// Reads, answers and writes until the connection is done, or its reader or its writer would block. Where it waits for input, each whole
/// request that was received is answered, and each answer is written. Where it waits for room, a part of an answer is not written.
///
/// # Errors
///
/// - Each other error of the reader, and of the writer.
/// - `WriteZero`: the writer took nothing.
pub fn pump<S: Service, R: Read, W: Write>(
    connection: &mut Connection,
    service: &mut S,
    reader: &mut R,
    writer: &mut W,
) -> io::Result<Pause>
    ensures done { result ≡ Ok pause.Done → IsDone (history connection.new) }
    ensures input { result ≡ Ok pause.Input → Rests (config_of connection.new) (history connection.new) }
    ensures room { result ≡ Ok pause.Room → 0 < length (history connection.new).pending }
    ensures flushed { result ≡ Ok pause.Input → (history connection.new).pending ≡ [] }
    ensures read { (more : List ℕ)
        × Consumes (R.remaining reader.old) (R.remaining reader.new) more
        × ((history connection.new).received ≡ (history connection.old).received ++ more) }
    ensures written { (more : List ℕ)
        × Appends (W.contents writer.old) (W.contents writer.new) more
        × ((history connection.new).sent ≡ (history connection.old).sent ++ more) }
    ensures calls { Calls S.answers service.old service.new
        (history connection.old).calls (history connection.new).calls }
    ensures config { config_of connection.new ≡ config_of connection.old }
{
    // (a loop is proved to end, so this one counts its turns)
    for _ in 0..u64::MAX {
        connection.advance(service);
        if connection.is_done() {
            return Ok(Pause::Done);
        }
        if !connection.wants_write() {
            match connection.read_from(reader) {
                Ok(_) => {}
                Err(error) if error.kind() == ErrorKind::WouldBlock => return Ok(Pause::Input),
                Err(error) => return Err(error),
            }
        } else {
            match connection.write_to(writer) {
                Ok(count) => {
                    if count == 0 {
                        return Err(ErrorKind::WriteZero.into());
                    }
                }
                Err(error) if error.kind() == ErrorKind::WouldBlock => return Ok(Pause::Room),
                Err(error) => return Err(error),
            }
        }
    }
    Err(ErrorKind::TimedOut.into())
}
