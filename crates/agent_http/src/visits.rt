//! HTTP connections of clients between two visits of a worker.
ghost use Rattle.std.specs.Prelude.{◌≡◌, ◌≢◌, ◌<◌, Ok, cond, false, length, true, IfNone, IfSome, box_value};
ghost use Rattle.http_server.specs.Connection.{config_of, history};
ghost use Rattle.http_server.specs.History.{new_history};
ghost use Rattle.agent_http.specs.Visits.{IsSettled, connection_limits};
ghost use Rattle.agent_http.specs.declared.pumps.Pause.TheVariants as pause;

use crate::framings::Framing;
use crate::pumps::Pause;
use http_server::{Config, Connection};
use std::alloc::Global;
use std::hash::RandomState;
use std::io;

/// The most bytes in a request's body that are read. One that is longer than 131,072 is refused with a line of text, and
/// one that is longer than this by the HTTP server, which sends no text.
const MAX_READ_BYTES: usize = 1_048_576;

/// The least number of bytes for which a read has room, which a connection that waits holds.
const MIN_ROOM: usize = 512;

/// The bytes that came over a connection.
#[derive(Drop)]
pub struct Came {
    /// The place in the requests at which the bytes end that its HTTP has read.
    pub framing: Framing,
    /// The bytes of a question about the ring, which its HTTP has not read.
    pub unread: Vec<u8>,
}

/// A connection between two visits. Each whole request that its HTTP has read is answered, and each answer is written, unless it waits for room: then a
/// part of an answer is not.
#[derive(Drop)]
pub struct Kept {
    pub connection: Box<Connection>,
    /// Whether it waits for room for the rest of its answers.
    pub is_full: bool,
    /// Where the bytes that were read end, and those that were not.
    pub came: Came,
    ghost limits: { config_of (box_value connection) ≡ connection_limits },
    ghost settled: { is_full ≡ false → IsSettled (history (box_value connection)) },
    ghost owing: { is_full ≡ true → 0 < length (history (box_value connection)).pending },
}

/// Returns a connection on which nothing has come.
pub fn new_connection(alloc: Global, keys: RandomState) -> Connection
    ensures limits { config_of result ≡ connection_limits }
    ensures history { history result ≡ new_history }
{
    let config = Config {
        max_body_len: MAX_READ_BYTES,
        read_size: MIN_ROOM,
        ..Config::default()
    };
    Connection::new(alloc, keys, config)
}

/// Returns a connection as it is kept, by what it waits for and what came; None if and only if it is done, or failed.
pub fn kept_of(waits: io::Result<Pause>, connection: Box<Connection>, came: Came) -> Option<Kept>
    requires limits { config_of (box_value connection) ≡ connection_limits }
    requires settled { waits ≡ Ok pause.Input → IsSettled (history (box_value connection)) }
    requires owing { waits ≡ Ok pause.Room → 0 < length (history (box_value connection)).pending }
    ensures same { IfSome result (λ kept. (kept.connection ≡ connection) × (kept.came ≡ came)) }
    ensures room { IfSome result (λ kept. waits ≡ Ok (cond kept.is_full pause.Room pause.Input)) }
    ensures ended { IfNone result ((waits ≢ Ok pause.Input) × (waits ≢ Ok pause.Room)) }
{
    match waits {
        Ok(Pause::Input) => Some(Kept {
            connection,
            is_full: false,
            came,
        }),
        Ok(Pause::Room) => Some(Kept {
            connection,
            is_full: true,
            came,
        }),
        Ok(Pause::Done) | Err(_) => None,
    }
}
