//! A list of numbers under a lock.
use crate::given::check_refused;
use std::alloc::Global;
use std::env::Env;
use std::process::Abort;
use turn_lock::{Kept, Pass, TurnLock};

/// The numbers that were added, in their order. A turn adds a number, or none.
#[derive(Drop)]
pub(super) struct Tally {
    pub(super) numbers: Vec<u64>,
}

impl Kept for Tally {
    ghost use Rattle.std.specs.Prelude.{◌≡◌, ◌++◌};
    ghost use Rattle.std.specs.List.{filter_map};

    type Entry = Option<u64>;

    ghost stands_for = { λ opening history tally. tally.numbers.items ≡ opening.numbers.items ++ filter_map (λ t. t.entry) history };
}

pub(super) type Shared = TurnLock<Tally>;

pub(super) type Entrant = Pass<Tally>;

impl Tally {
    ghost use Rattle.std.specs.Prelude.{◌≡◌, ◌++◌, ◌∷◌, [], MatchOption};

    // The number, where it was added.
    pub(super) fn add(&mut self, number: u64) -> Option<u64>
        ensures { MatchOption result (self.new.numbers.items ≡ self.old.numbers.items) (λ n. self.new.numbers.items ≡ self.old.numbers.items ++ n ∷ []) }
    {
        match self.numbers.push(number) {
            Ok(()) => Some(number),
            Err(_) => None,
        }
    }

    // An empty list with room for this many. If out of memory, it is made again.
    pub(super) fn with_room(rt: &(impl Env + Abort), alloc: Global, room: usize) -> Tally {
        let numbers = match Vec::with_capacity(alloc, room) {
            Err(_) => {
                check_refused(rt);
                Vec::with_capacity(alloc, room)
            }
            numbers => numbers,
        };
        Tally {
            numbers: numbers.ok().expect(rt, "room"),
        }
    }

    pub(super) fn count(&self, number: u64) -> usize {
        let mut count = 0usize;
        for held in &self.numbers {
            if *held == number {
                count = count.wrapping_add(1);
            }
        }
        count
    }
}
