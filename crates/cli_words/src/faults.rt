//! The errors of the arguments.
ghost use Rattle.std.specs.Prelude.{◌≡◌};
ghost use Rattle.cli_words.specs.declared.faults.WordsError.TheVariants.{OutOfMemory};

use clap::error::ErrorKind;
use std::alloc::{AllocError, AllocFailed};
use std::fmt;

/// An error of the arguments of the command line. Its `Display` is the text for standard error.
#[derive(Debug, Drop)]
pub enum WordsError {
    /// The arguments are refused, or ask for help: `clap`'s own text.
    Usage(clap::Error),
    /// An argument that has to be an address is not one.
    BadAddress,
    /// An argument of `agent` that has to be an address is not one: its name, as the help writes it.
    BadAddressAt(&'static str),
    /// Out of memory before the subcommand started.
    OutOfMemory,
}

impl WordsError {
    ghost use Rattle.cli_words.specs.Faults.{fault_at, status_of};

    /// Returns the exit status: 2 if the arguments are refused, else 1.
    pub fn status(&self) -> u8
        ensures { result ≡ status_of self.now }
    {
        match self {
            WordsError::Usage(_) | WordsError::BadAddress | WordsError::BadAddressAt(_) => 2,
            WordsError::OutOfMemory => 1,
        }
    }

    /// Returns the same error, but `BadAddressAt` with this argument in place of `BadAddress`.
    pub(crate) fn at(self, argument: &'static str) -> Self
        ensures { result ≡ fault_at argument.entry self }
    {
        match self {
            WordsError::BadAddress => WordsError::BadAddressAt(argument),
            other => other,
        }
    }
}

impl fmt::Display for WordsError {
    fn fmt<W: fmt::Write>(&self, f: &mut fmt::Formatter<W>) -> fmt::Result {
        match self {
            WordsError::Usage(error) => write!(f, "{error}"),
            WordsError::BadAddress => writeln!(f, "ringpop: bad address"),
            WordsError::BadAddressAt(argument) => writeln!(f, "ringpop: bad address: {argument}"),
            WordsError::OutOfMemory => writeln!(f, "ringpop: out of memory"),
        }
    }
}

impl From<AllocError> for WordsError {
    ghost from_gives = { λ _ f. f ≡ OutOfMemory };

    fn from(_refused: AllocError) -> WordsError {
        WordsError::OutOfMemory
    }
}

impl<T: Drop> From<AllocFailed<T>> for WordsError {
    ghost from_gives = { λ _ f. f ≡ OutOfMemory };

    fn from(_refused: AllocFailed<T>) -> WordsError {
        WordsError::OutOfMemory
    }
}

impl From<clap::Error> for WordsError {
    ghost use Rattle.cli_words.specs.Faults.{fault_of_words};

    ghost from_gives = { λ e f. f ≡ fault_of_words e };

    fn from(error: clap::Error) -> WordsError {
        match error.kind() {
            ErrorKind::OutOfMemory => WordsError::OutOfMemory,
            _ => WordsError::Usage(error),
        }
    }
}
