//! The errors of a member's calls: for each call those that it can return, each also an error of `ClusterError`.
ghost use Rattle.std.specs.Prelude.{◌≡◌, IfErr, IfOk};
ghost use Rattle.peer_core.specs.Errors.{IsHealRefusal, IsJoinRefusal, IsRoundRefusal};
ghost use Rattle.peer_core.specs.Forwarding.{IsRequestRefusal};
ghost use Rattle.peer_core.specs.MemberErrors.{IsCallRefusal, IsLeaveRefusal, IsRejoinRefusal, answer_of_call, answer_of_leave, answer_of_rejoin, error_of_call, error_of_join, error_of_leave, error_of_rejoin, error_of_request, error_of_round};

use crate::errors::ClusterError;
use node_core::NodeError;
use thiserror::Error;
use turn_lock::LockError;

/// The errors of a round of gossip.
#[derive(Clone, Copy, Debug, PartialEq, Eq, Error)]
pub enum RoundError {
    /// The pass has the name of another node.
    #[error("foreign pass")]
    ForeignPass,
    /// The pass has made as many calls as it may.
    #[error("pass spent")]
    PassSpent,
    /// A probe still runs after the one that was found running has ended.
    #[error("a probe is running")]
    Busy,
    /// No probe number is left.
    #[error("no probe number is left")]
    Spent,
    /// Another pass ended the probe in the meantime.
    #[error("the probe does not run")]
    StaleProbe,
    /// Another pass answered for the helper in the meantime.
    #[error("the helper was not asked")]
    NotAsked,
    /// Out of memory, the link included.
    #[error("out of memory")]
    Memory,
}

/// The errors of a join.
#[derive(Clone, Copy, Debug, PartialEq, Eq, Error)]
pub enum JoinError {
    /// No host answered that the node has joined.
    #[error("no host joined")]
    NoneJoined,
    /// The pass has the name of another node.
    #[error("foreign pass")]
    ForeignPass,
    /// The pass has made as many calls as it may.
    #[error("pass spent")]
    PassSpent,
    /// Out of memory, the link included.
    #[error("out of memory")]
    Memory,
}

/// The errors of a keyed request.
#[derive(Clone, Copy, Debug, PartialEq, Eq, Error)]
pub enum RequestError {
    /// Two of the keys have different owners.
    #[error("the keys have different owners")]
    Diverged,
    /// No member serves, so no key has an owner.
    #[error("nobody serves")]
    Nobody,
    /// The fourth and last send has failed.
    #[error("no retry is left")]
    RetriesSpent,
    /// The handler failed.
    #[error("the handler failed")]
    HandlerFault,
    /// The pass has the name of another node.
    #[error("foreign pass")]
    ForeignPass,
    /// The pass has made as many calls as it may.
    #[error("pass spent")]
    PassSpent,
    /// Out of memory, the handler and the link included.
    #[error("out of memory")]
    Memory,
}

/// The errors of a call that copies from the node, and of healing.
#[derive(Clone, Copy, Debug, PartialEq, Eq, Error)]
pub enum CallError {
    /// The pass has the name of another node.
    #[error("foreign pass")]
    ForeignPass,
    /// The pass has made as many calls as it may.
    #[error("pass spent")]
    PassSpent,
    /// Out of memory.
    #[error("out of memory")]
    Memory,
}

/// The errors of leaving.
#[derive(Clone, Copy, Debug, PartialEq, Eq, Error)]
pub enum LeaveError {
    /// The pass has the name of another node.
    #[error("foreign pass")]
    ForeignPass,
    /// The pass has made as many calls as it may.
    #[error("pass spent")]
    PassSpent,
    /// The node has left already.
    #[error("the node has left already")]
    AlreadyLeft,
    /// Out of memory.
    #[error("out of memory")]
    Memory,
}

/// The errors of coming back after leaving.
#[derive(Clone, Copy, Debug, PartialEq, Eq, Error)]
pub enum RejoinError {
    /// The pass has the name of another node.
    #[error("foreign pass")]
    ForeignPass,
    /// The pass has made as many calls as it may.
    #[error("pass spent")]
    PassSpent,
    /// The node has not left.
    #[error("the node has not left")]
    NotLeft,
    /// No incarnation is left for the node to assert.
    #[error("no incarnation is left")]
    Exhausted,
    /// Out of memory.
    #[error("out of memory")]
    Memory,
}

impl From<RoundError> for ClusterError {
    ghost from_gives = { λ refused e. e ≡ error_of_round refused };

    fn from(refused: RoundError) -> ClusterError {
        match refused {
            RoundError::ForeignPass => ClusterError::ForeignPass,
            RoundError::PassSpent => ClusterError::PassSpent,
            RoundError::Busy => ClusterError::Busy,
            RoundError::Spent => ClusterError::Spent,
            RoundError::StaleProbe => ClusterError::StaleProbe,
            RoundError::NotAsked => ClusterError::NotAsked,
            RoundError::Memory => ClusterError::Memory,
        }
    }
}

impl From<JoinError> for ClusterError {
    ghost from_gives = { λ refused e. e ≡ error_of_join refused };

    fn from(refused: JoinError) -> ClusterError {
        match refused {
            JoinError::NoneJoined => ClusterError::NoneJoined,
            JoinError::ForeignPass => ClusterError::ForeignPass,
            JoinError::PassSpent => ClusterError::PassSpent,
            JoinError::Memory => ClusterError::Memory,
        }
    }
}

impl From<RequestError> for ClusterError {
    ghost from_gives = { λ refused e. e ≡ error_of_request refused };

    fn from(refused: RequestError) -> ClusterError {
        match refused {
            RequestError::Diverged => ClusterError::Diverged,
            RequestError::Nobody => ClusterError::Nobody,
            RequestError::RetriesSpent => ClusterError::RetriesSpent,
            RequestError::HandlerFault => ClusterError::HandlerFault,
            RequestError::ForeignPass => ClusterError::ForeignPass,
            RequestError::PassSpent => ClusterError::PassSpent,
            RequestError::Memory => ClusterError::Memory,
        }
    }
}

impl From<CallError> for ClusterError {
    ghost from_gives = { λ refused e. e ≡ error_of_call refused };

    fn from(refused: CallError) -> ClusterError {
        match refused {
            CallError::ForeignPass => ClusterError::ForeignPass,
            CallError::PassSpent => ClusterError::PassSpent,
            CallError::Memory => ClusterError::Memory,
        }
    }
}

impl From<LeaveError> for ClusterError {
    ghost from_gives = { λ refused e. e ≡ error_of_leave refused };

    fn from(refused: LeaveError) -> ClusterError {
        match refused {
            LeaveError::ForeignPass => ClusterError::ForeignPass,
            LeaveError::PassSpent => ClusterError::PassSpent,
            LeaveError::AlreadyLeft => ClusterError::AlreadyLeft,
            LeaveError::Memory => ClusterError::Memory,
        }
    }
}

impl From<RejoinError> for ClusterError {
    ghost from_gives = { λ refused e. e ≡ error_of_rejoin refused };

    fn from(refused: RejoinError) -> ClusterError {
        match refused {
            RejoinError::ForeignPass => ClusterError::ForeignPass,
            RejoinError::PassSpent => ClusterError::PassSpent,
            RejoinError::NotLeft => ClusterError::NotLeft,
            RejoinError::Exhausted => ClusterError::Exhausted,
            RejoinError::Memory => ClusterError::Memory,
        }
    }
}

/// An error of `gossip_round`, as a member names it.
pub(crate) fn round_error(refused: ClusterError) -> RoundError
    requires { IsRoundRefusal refused }
    ensures { error_of_round result ≡ refused }
{
    match refused {
        ClusterError::ForeignPass => RoundError::ForeignPass,
        ClusterError::PassSpent => RoundError::PassSpent,
        ClusterError::Busy => RoundError::Busy,
        ClusterError::Spent => RoundError::Spent,
        ClusterError::StaleProbe => RoundError::StaleProbe,
        ClusterError::NotAsked => RoundError::NotAsked,
        ClusterError::Memory => RoundError::Memory,
        _ => unreachable!(),
    }
}

/// An error of `join`, as a member names it.
pub(crate) fn join_error(refused: ClusterError) -> JoinError
    requires { IsJoinRefusal refused }
    ensures { error_of_join result ≡ refused }
{
    match refused {
        ClusterError::NoneJoined => JoinError::NoneJoined,
        ClusterError::ForeignPass => JoinError::ForeignPass,
        ClusterError::PassSpent => JoinError::PassSpent,
        ClusterError::Memory => JoinError::Memory,
        _ => unreachable!(),
    }
}

/// An error of `handle_or_forward`, as a member names it.
pub(crate) fn request_error(refused: ClusterError) -> RequestError
    requires { IsRequestRefusal refused }
    ensures { error_of_request result ≡ refused }
{
    match refused {
        ClusterError::Diverged => RequestError::Diverged,
        ClusterError::Nobody => RequestError::Nobody,
        ClusterError::RetriesSpent => RequestError::RetriesSpent,
        ClusterError::HandlerFault => RequestError::HandlerFault,
        ClusterError::ForeignPass => RequestError::ForeignPass,
        ClusterError::PassSpent => RequestError::PassSpent,
        ClusterError::Memory => RequestError::Memory,
        _ => unreachable!(),
    }
}

/// Returns the member's error for one of `heal`.
pub(crate) fn heal_error(refused: ClusterError) -> CallError
    requires { IsHealRefusal refused }
    ensures { error_of_call result ≡ refused }
{
    match refused {
        ClusterError::ForeignPass => CallError::ForeignPass,
        ClusterError::PassSpent => CallError::PassSpent,
        ClusterError::Memory => CallError::Memory,
        _ => unreachable!(),
    }
}

/// The answer of a locked node to a call that copies, in one result.
pub(crate) fn copied<T>(answer: Result<Result<T, NodeError>, LockError>) -> Result<T, CallError>
    requires { IfOk answer (λ made. IfErr made IsCallRefusal) }
    ensures { answer_of_call result ≡ answer }
{
    match answer {
        Ok(Ok(value)) => Ok(value),
        Ok(Err(NodeError::Memory)) => Err(CallError::Memory),
        Ok(Err(_)) => unreachable!(),
        Err(LockError::ForeignPass) => Err(CallError::ForeignPass),
        Err(LockError::PassSpent) => Err(CallError::PassSpent),
    }
}

/// Returns the answer of a locked node to `leave`, in one result.
pub(crate) fn left<T>(answer: Result<Result<T, NodeError>, LockError>) -> Result<T, LeaveError>
    requires { IfOk answer (λ made. IfErr made IsLeaveRefusal) }
    ensures { answer_of_leave result ≡ answer }
{
    match answer {
        Ok(Ok(value)) => Ok(value),
        Ok(Err(NodeError::AlreadyLeft)) => Err(LeaveError::AlreadyLeft),
        Ok(Err(NodeError::Memory)) => Err(LeaveError::Memory),
        Ok(Err(_)) => unreachable!(),
        Err(LockError::ForeignPass) => Err(LeaveError::ForeignPass),
        Err(LockError::PassSpent) => Err(LeaveError::PassSpent),
    }
}

/// Returns the answer of a locked node to `rejoin`, in one result.
pub(crate) fn rejoined<T>(answer: Result<Result<T, NodeError>, LockError>) -> Result<T, RejoinError>
    requires { IfOk answer (λ made. IfErr made IsRejoinRefusal) }
    ensures { answer_of_rejoin result ≡ answer }
{
    match answer {
        Ok(Ok(value)) => Ok(value),
        Ok(Err(NodeError::NotLeft)) => Err(RejoinError::NotLeft),
        Ok(Err(NodeError::Exhausted)) => Err(RejoinError::Exhausted),
        Ok(Err(NodeError::Memory)) => Err(RejoinError::Memory),
        Ok(Err(_)) => unreachable!(),
        Err(LockError::ForeignPass) => Err(RejoinError::ForeignPass),
        Err(LockError::PassSpent) => Err(RejoinError::PassSpent),
    }
}
