//! The errors of the program.
ghost use Rattle.std.specs.Prelude.{◌≡◌};
ghost use Rattle.cli_run.specs.declared.program_errors.Fault.TheVariants as fault;

use agent::AgentError;
use cli_core::SubcommandError;
use cli_net::ClusterCommandError;
use cli_words::WordsError;
use std::fmt;

/// The errors of the program. Its `Display` is the text for standard error.
#[derive(Debug, Drop)]
pub enum Fault {
    /// An error of the arguments.
    Words(WordsError),
    /// The subcommand of lines ended early.
    Subcommand(SubcommandError),
    /// The command that speaks to nodes ended early.
    Cluster(ClusterCommandError),
    /// The agent ended early.
    Agent(AgentError),
}

impl Fault {
    ghost use Rattle.cli_run.specs.Status.{status_of};

    /// Returns the exit status: 2 if the arguments are refused, else 1.
    pub fn status(&self) -> u8
        ensures { result ≡ status_of self.now }
    {
        match self {
            Fault::Words(fault) => fault.status(),
            Fault::Subcommand(_) | Fault::Cluster(_) | Fault::Agent(_) => 1,
        }
    }
}

impl fmt::Display for Fault {
    fn fmt<W: fmt::Write>(&self, f: &mut fmt::Formatter<W>) -> fmt::Result {
        match self {
            Fault::Words(fault) => write!(f, "{fault}"),
            Fault::Subcommand(fault) => writeln!(f, "ringpop: {fault}"),
            Fault::Cluster(fault) => writeln!(f, "ringpop: {fault}"),
            Fault::Agent(error) => writeln!(f, "ringpop: {error}"),
        }
    }
}

impl From<WordsError> for Fault {
    ghost from_gives = { λ e f. f ≡ fault.Words e };

    fn from(fault: WordsError) -> Fault {
        Fault::Words(fault)
    }
}

impl From<SubcommandError> for Fault {
    ghost from_gives = { λ e f. f ≡ fault.Subcommand e };

    fn from(fault: SubcommandError) -> Fault {
        Fault::Subcommand(fault)
    }
}

impl From<ClusterCommandError> for Fault {
    ghost from_gives = { λ e f. f ≡ fault.Cluster e };

    fn from(fault: ClusterCommandError) -> Fault {
        Fault::Cluster(fault)
    }
}

impl From<AgentError> for Fault {
    ghost from_gives = { λ e f. f ≡ fault.Agent e };

    fn from(error: AgentError) -> Fault {
        Fault::Agent(error)
    }
}
