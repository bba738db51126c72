//! The state that a lock guards.
ghost use Rattle.std.specs.Prelude.{List, Option, None};

use std::marker::Brand;

/// One turn of a history: the pass, and the entry that it added.
pub struct Turn<E> {
    pub pass: u64,
    pub entry: E,
}

/// A value that represents a list of entries. The list is in contracts alone, and takes no memory.
pub trait Kept {
    ghost use Rattle.turn_lock.specs.declared.kept.Turn.{Turn};

    /// The type of what one turn adds to the history. No value of this type need ever be made.
    type Entry;

    /// A relation of the value that the lock was made with, the turns since then, and a value now: the last represents
    /// these turns from that opening.
    ghost stands_for: { Self → List (Turn Self.Entry) → Self → Type 0 };
}

/// The entry that a turn adds, for the proof alone.
pub(crate) trait Told<E> {
    ghost entry: { Option E };
}

impl<E> Told<E> for Brand {
    ghost entry = { None };
}
