use thiserror::Error;

/// The errors of this crate's calls. Out of memory is not among them: the crate allocates nothing.
#[derive(Clone, Copy, Debug, PartialEq, Eq, Error)]
pub enum ForwardError {
    /// Two of the keys have different owners.
    #[error("the keys have different owners")]
    Diverged,
    /// No member serves.
    #[error("nobody serves")]
    Nobody,
    /// The last send that the schedule allows has failed.
    #[error("no retry is left")]
    RetriesSpent,
    /// A send is on its way, and has not been noted as failed.
    #[error("a send is in flight")]
    InFlight,
    /// No send is in flight.
    #[error("no send is in flight")]
    NotInFlight,
}
