//! The table that threads share, what a seat at it knows, and its rule.
//!
//! Word 0 is the ticket that is served, and word 1 the next one to be drawn. Slot 0 has the state, or nothing while a
//! pass is inside. These are all kinds of step on it, and only the last adds to the history:
//!
//! | Step | In | What the seat knows after it |
//! |---|---|---|
//! | split a seat | `new` | the new seat represents one pass, which has seen nothing |
//! | join a seat | `close` | the one that stays represents the passes of both |
//! | add 1 to word 1 | `enter` | it holds that ticket |
//! | load word 0 | `enter` | it has seen the history so far; it has the slot if its ticket is served |
//! | take the state from the slot | `enter` | it has the state |
//! | put the state into the slot | `leave` | it has given it back |
//! | add 1 to word 0 | `leave` | its ticket and the slot are gone, and it has seen its own entry |
use crate::kept::{Kept, Turn};
use atomic_table::{Seat, Table, TableRule};
use std::alloc::Global;
use std::collections::LinkedList;
use std::snapshot::Snapshot;

pub(crate) const SERVING: usize = 0;

pub(crate) const TICKET: usize = 1;

pub(crate) const STATE: usize = 0;

/// The stage of a pass in its turn.
pub enum Stage {
    /// It holds no ticket.
    Outside,
    /// It holds this ticket.
    Waiting(u64),
    /// Its ticket is served, and it has the slot.
    Inside(u64),
}

/// A pass that a seat represents, and the history that it has seen.
pub struct Known<E> {
    pub number: u64,
    pub seen: LinkedList<Turn<E>>,
}

/// The knowledge of one seat. No value of it is made.
pub struct View<S, E> {
    /// The state that the lock was made with.
    pub opening: Option<S>,
    /// The passes that it represents.
    pub parts: LinkedList<Known<E>>,
    /// The number of tickets that it drew.
    pub used: u64,
    pub stage: Stage,
}

/// The terms with which a lock is made.
#[derive(Drop)]
pub struct Terms<S> {
    pub passes: u64,
    pub turns: u64,
    pub opening: Snapshot<S>,
}

/// The rule of the table: the state is passed on in the order of the tickets. No value of it is made.
pub struct InTurn;

impl<S: Kept> TableRule<Option<S>, View<S, S::Entry>, Terms<S>> for InTurn {
    ghost use Rattle.turn_lock.specs.Rule.{IsInTurn, first_view};

    ghost holds = { IsInTurn S.stands_for };

    ghost first = { first_view };
}

pub(crate) type Board<S> = Table<Option<S>, View<S, <S as Kept>::Entry>, Terms<S>, InTurn, Global>;

pub(crate) type Place<S> = Seat<Option<S>, View<S, <S as Kept>::Entry>>;
