//! What runs out of the system where it gives no connection.
ghost use Rattle.std.specs.Prelude.{◌≡◌};
ghost use Rattle.std.specs.IoError.{raw_os_error};
ghost use Rattle.reactor.specs.Shortages.{is_short};

use std::io;

/// The system's error number where it is out of memory.
const ENOMEM: i32 = 12;

/// The system's error number where it is out of descriptors.
const ENFILE: i32 = 23;

/// The system's error number where this process is out of descriptors.
const EMFILE: i32 = 24;

/// The system's error number where it is out of buffers.
const ENOBUFS: i32 = 105;

/// Returns whether an error says that descriptors or memory ran out, which a connection that is closed gives back.
pub fn is_short(error: &io::Error) -> bool
    ensures { result ≡ is_short (raw_os_error error.now) }
{
    match error.raw_os_error() {
        Some(code) => code == ENOMEM || code == ENFILE || code == EMFILE || code == ENOBUFS,
        None => false,
    }
}
