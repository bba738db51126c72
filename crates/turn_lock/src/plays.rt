//! The knowledge that each step on the table gives.
use crate::kept::{Kept, Told};
use crate::table::View;
use atomic_table::{Join, Play, Split};
use std::marker::PhantomData;

/// A ticket is drawn.
pub(crate) struct Draw;

impl<S, E> Play<Option<S>, View<S, E>> for Draw {
    ghost use Rattle.turn_lock.specs.Rule.{drew};

    ghost then = { drew };
}

/// The ticket that is served is read, and with it the history so far.
pub(crate) struct Look;

impl<S: Kept> Play<Option<S>, View<S, S::Entry>> for Look {
    ghost use Rattle.turn_lock.specs.Rule.{saw};

    ghost then = { saw S.stands_for };
}

/// The turn is given to the next ticket, and the value that `J` names is the entry of this one.
pub(crate) struct Give<J> {
    told: PhantomData<J>,
}

impl<S, E, J: Told<E>> Play<Option<S>, View<S, E>> for Give<J> {
    ghost use Rattle.turn_lock.specs.Rule.{gave};

    ghost then = { gave J.entry };
}

/// A seat for one pass is split from the one that represents all.
pub(crate) struct Part;

impl<S, E> Split<View<S, E>> for Part {
    ghost use Rattle.turn_lock.specs.Rule.{kept_part, cut_part};

    ghost left = { kept_part };

    ghost right = { cut_part };
}

/// A seat is joined to another, which then represents the passes of both.
pub(crate) struct Gather;

impl<S, E> Join<View<S, E>> for Gather {
    ghost use Rattle.turn_lock.specs.Rule.{gathered, spent_view};

    ghost both = { gathered };

    ghost spent = { spent_view };
}
