//! The right to enter a lock.
ghost use Rattle.std.specs.Prelude.{◌≡◌};

use crate::kept::Kept;
use crate::table::Place;
use std::fmt;

/// A pass of one lock, for a number of turns, used by one thread at a time. If it is dropped the lock cannot be closed;
/// if it is dropped inside it stops every other.
#[derive(Drop)]
pub struct Pass<S: Kept> {
    pub(crate) name: u64,
    pub(crate) number: u64,
    pub(crate) left: u64,
    pub(crate) seat: Place<S>,
}

impl<S: Kept> Pass<S> {
    ghost use Rattle.turn_lock.specs.Passes.{left_of};

    /// Returns how many turns the pass may still take.
    pub fn left(&self) -> u64
        ensures { result ≡ left_of self.now }
    {
        self.left
    }
}

impl<S: Kept> fmt::Debug for Pass<S> {
    fn fmt<F: fmt::Write>(&self, f: &mut fmt::Formatter<F>) -> fmt::Result {
        f.debug_struct("Pass")
            .field("name", &self.name)
            .field("number", &self.number)
            .field("left", &self.left)
            .finish_non_exhaustive()
    }
}
