ghost use Rattle.std.specs.Prelude.{◌≡◌, ℕ, ◌+◌, ◌<◌, ◌≤◌, SomeIff};
ghost use Rattle.change_core.specs.Numbers.{greatest_number};

use std::marker::Model;

/// The greatest number of members of a node, and of changes in a message.
pub const MAX_MEMBERS: usize = 4_096;

/// The greatest incarnation, moment and probe number, 2^53 - 1: the greatest whole number up to which JSON readers agree.
pub const MAX_NUMBER: u64 = 9_007_199_254_740_991;

/// A node's version of its own state, 0 to 9,007,199,254,740,991: of two changes about a node that of the later
/// incarnation has precedence (SWIM, DSN 2002, section 4.2). The caller chooses a node's first incarnation. The node
/// raises it, by one or more, to override what others assert of it or to come back. Contracts see the number.
#[derive(Clone, Copy, Debug, PartialEq, Eq, PartialOrd, Ord, Hash)]
pub struct Incarnation {
    number: u64,
}

impl Model for Incarnation {
    ghost Value = { ℕ };

    ghost view = { λ a. a.number };

    ghost invariant = { λ a. a.number ≤ greatest_number };

    ghost inverse = { λ n. record { number = n } };
}

impl Incarnation {
    /// The incarnation with this number. None over the greatest.
    pub fn new(number: u64) -> Option<Self>
        ensures { SomeIff result (number ≤ greatest_number) number }
    {
        if number <= MAX_NUMBER {
            Some(Incarnation { number })
        } else {
            None
        }
    }

    /// The incarnation as a number.
    pub fn number(self) -> u64
        ensures value { result ≡ self }
        ensures within { result ≤ greatest_number }
    {
        self.number
    }

    /// The incarnation that comes after this one. None at the greatest.
    pub fn next(self) -> Option<Self>
        ensures { SomeIff result (self < greatest_number) (self + 1) }
    {
        if self.number < MAX_NUMBER {
            Some(Incarnation {
                number: self.number + 1,
            })
        } else {
            None
        }
    }
}

/// A count of milliseconds, 0 to 9,007,199,254,740,991, since a start that the caller chooses; this crate reads no
/// clock. Contracts see the number.
#[derive(Clone, Copy, Debug, PartialEq, Eq, PartialOrd, Ord, Hash)]
pub struct Moment {
    number: u64,
}

impl Model for Moment {
    ghost Value = { ℕ };

    ghost view = { λ a. a.number };

    ghost invariant = { λ a. a.number ≤ greatest_number };

    ghost inverse = { λ n. record { number = n } };
}

impl Moment {
    /// Returns the moment 0, at which a node's time begins.
    pub fn beginning() -> Self
        ensures { result ≡ 0 }
    {
        Moment { number: 0 }
    }

    /// The moment with this number of milliseconds. None over the greatest.
    pub fn new(number: u64) -> Option<Self>
        ensures { SomeIff result (number ≤ greatest_number) number }
    {
        if number <= MAX_NUMBER {
            Some(Moment { number })
        } else {
            None
        }
    }

    /// The milliseconds.
    pub fn number(self) -> u64
        ensures value { result ≡ self }
        ensures within { result ≤ greatest_number }
    {
        self.number
    }
}
