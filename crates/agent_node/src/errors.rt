//! The errors of an agent.
ghost use Rattle.std.specs.Prelude.{◌≡◌};
ghost use Rattle.std.specs.IoError.{error_kind};
ghost use Rattle.agent_node.specs.Errors.{error_of_hosts, error_of_log, error_of_watching};

use agent_core::HostsFault;
use agent_state::LogError;
use change_core::Address;
use node_core::ConfigField;
use std::alloc::{AllocError, AllocFailed};
use std::io;
use std::io::ErrorKind;
use thiserror::Error;

/// An error that ends an agent before it is told to stop.
#[derive(Clone, Copy, Debug, PartialEq, Eq, Error)]
pub enum AgentError {
    /// The address for HTTP is not in 127.0.0.0/8, and `http_any` is not set.
    #[error("--http is not in 127.0.0.0/8: add --http-any")]
    NotLocal,
    /// The node's own address has the IPv4 number 0.0.0.0, by which other nodes can't call it.
    #[error("the node's address is 0.0.0.0: give that to --bind")]
    NoAddress,
    /// The first field of the node's configuration that is out of its range.
    #[error("bad configuration: {0}")]
    BadConfig(ConfigField),
    /// The system has no clock, or its clock gives no time since 1970.
    #[error("no clock")]
    NoClock,
    /// The system gave no random numbers.
    #[error("no random numbers")]
    NoRandom,
    /// This address can't be listened at, for this reason.
    #[error("cannot listen at {0}: {1}")]
    CannotListen(Address, ErrorKind),
    /// The system gives this process so few descriptors, and 64 are needed.
    #[error("{0} descriptors are too few: raise ulimit -n to 64 or more")]
    FewDescriptors(u64),
    /// The system lets no connections be watched.
    #[error("cannot watch connections")]
    NoReactor,
    /// The system gave no thread.
    #[error("no thread")]
    NoThread,
    /// The file of hosts can't be read, for this reason.
    #[error("cannot read --hosts-file: {0}")]
    CannotRead(ErrorKind),
    /// The file of hosts is a folder, or a pipe, say, which might be read for ever.
    #[error("bad --hosts-file: no regular file")]
    NotAFile,
    /// The file of hosts lists none, for this reason.
    #[error("bad --hosts-file: {0}")]
    BadHosts(HostsFault),
    /// The writer failed.
    #[error("cannot write")]
    CannotWrite,
    /// No pass of the node is left for a thread. The agent has to be started again.
    #[error("no calls left")]
    Spent,
    /// An allocation failed.
    #[error("out of memory")]
    Memory,
}

/// Returns the error of an agent for one by which connections are not watched.
pub fn unwatched(error: io::Error) -> AgentError
    ensures { result ≡ error_of_watching (error_kind error) }
{
    match error.kind() {
        ErrorKind::OutOfMemory => AgentError::Memory,
        _ => AgentError::NoReactor,
    }
}

impl From<AllocError> for AgentError {
    fn from(_: AllocError) -> AgentError
        ensures { result ≡ AgentError.Memory }
    {
        AgentError::Memory
    }
}

impl<T: Drop> From<AllocFailed<T>> for AgentError {
    fn from(_: AllocFailed<T>) -> AgentError
        ensures { result ≡ AgentError.Memory }
    {
        AgentError::Memory
    }
}

impl From<HostsFault> for AgentError {
    fn from(fault: HostsFault) -> AgentError
        ensures { result ≡ error_of_hosts fault }
    {
        match fault {
            HostsFault::Memory => AgentError::Memory,
            fault => AgentError::BadHosts(fault),
        }
    }
}

impl From<LogError> for AgentError {
    fn from(error: LogError) -> AgentError
        ensures { result ≡ error_of_log error }
    {
        match error {
            LogError::NoThread => AgentError::NoThread,
            LogError::Memory => AgentError::Memory,
        }
    }
}
