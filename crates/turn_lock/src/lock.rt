//! The lock: how a pass enters and leaves.
ghost use Rattle.std.specs.Prelude.{◌≡◌, ◌≢◌, ◌<◌, ◌+◌, ◌++◌, ◌∷◌, [], IfOk, IfErr};
ghost use Rattle.turn_lock.specs.History.{turn, GoesOn};
ghost use Rattle.turn_lock.specs.Rule.{told_by, IsSized};

use crate::errors::LockError;
use crate::kept::{Kept, Told};
use crate::pass::Pass;
use crate::plays::{Draw, Give, Look};
use crate::table::{Board, SERVING, STATE, TICKET};
use std::marker::Brand;
use std::sync::Wait;
use std::time::Duration;
use std::{fmt, hint, thread};

/// A waiting thread looks this often with no more than a hint to the processor between looks.
const SPINS: u32 = 64;

/// So often in all it looks before it naps, and lets other threads run between looks.
const YIELDS: u32 = 4_096;

/// The same for the thread whose turn is the next one, since a turn that waits for a nap to end keeps all waiting.
const NEXT_YIELDS: u32 = 65_536;

/// The longest nap, in microseconds. At worst the thread sees its turn that much later.
const NAP: u64 = 100;

/// A lock that gives the state that it guards to one pass at a time, in the order in which the passes drew their
/// tickets.
///
/// A ticket lock (Reed and Kanodia, CACM 1979; Mellor-Crummey and Scott, TOCS 1991). That the state represents a
/// history, which passes have seen in part, is this project's own.
#[derive(Drop)]
pub struct TurnLock<S: Kept> {
    pub(crate) name: u64,
    pub(crate) passes: u64,
    pub(crate) board: Board<S>,
    ghost sized: { IsSized board.shared.table_id board.shared.key.passes passes },
}

impl<S: Kept> TurnLock<S> {
    ghost use Rattle.turn_lock.specs.Passes.{opening_of, number_of, left_of, seen, calls_of, Fits, Refuses, IsPassOf, IsOutside, IsInside, IsSamePass};
    ghost use Rattle.turn_lock.specs.Seats.{IsWaiting, IsServed, IsToGive};

    pub(crate) fn of(name: u64, passes: u64, board: Board<S>) -> TurnLock<S>
        requires { IsSized board.shared.table_id board.shared.key.passes passes }
        ensures { (result.name ≡ name) × (result.passes ≡ passes) × (result.board ≡ board) }
    {
        TurnLock {
            name,
            passes,
            board,
        }
    }

    /// Draws a ticket.
    #[tactic(auto, unfolding(crate::specs::Passes::IsOutside))]
    fn draw(&self, pass: &mut Pass<S>) -> u64
        requires outside { IsOutside self.now pass.old }
        requires left { 0 < pass.old.left }
        ensures pass { IsWaiting self.now result pass.new × IsSamePass pass.old pass.new × (pass.new.left + 1 ≡ pass.old.left) }
        ensures seen { seen pass.new ≡ seen pass.old }
    {
        pass.left -= 1;
        self.board
            .shared
            .fetch_add::<Draw>(&mut pass.seat, TICKET, 1)
    }

    /// Reads which ticket is served, and with it the history so far.
    fn look(&self, pass: &mut Pass<S>, ticket: u64) -> u64
        requires { IsWaiting self.now ticket pass.old }
        ensures pass { IsSamePass pass.old pass.new × (pass.new.left ≡ pass.old.left) }
        ensures seen { GoesOn pass.old.number (seen pass.new) (seen pass.old) }
        ensures served { result ≡ ticket → IsServed S.stands_for self.now pass.new }
        ensures waits { result ≢ ticket → IsWaiting self.now ticket pass.new }
    {
        self.board.shared.load::<Look>(&mut pass.seat, SERVING)
    }

    /// Spins, yields or sleeps, by the number of looks: a thread that waits with this ticket calls it after each look
    /// that found `serving`.
    fn pause<R: Wait>(&self, rt: &R, looks: u32, serving: u64, ticket: u64) {
        let is_next = serving.checked_add(1) == Some(ticket);
        let yields = if is_next { NEXT_YIELDS } else { YIELDS };
        if looks < SPINS {
            hint::spin_loop();
        } else if looks < yields {
            thread::yield_now();
        } else {
            // It does not fall asleep if another ticket is served by now. No thread wakes it: each `leave` would pay
            // for that.
            let low = (serving % (1 << 32)) as u32;
            self.board
                .shared
                .park_timeout(rt, SERVING, low, Duration::from_micros(NAP));
        }
    }

    /// Waits until the ticket is served.
    fn wait<R: Wait>(&self, rt: &R, pass: &mut Pass<S>, ticket: u64)
        requires { IsWaiting self.now ticket pass.old }
        ensures pass { IsServed S.stands_for self.now pass.new × IsSamePass pass.old pass.new × (pass.new.left ≡ pass.old.left) }
        ensures seen { GoesOn pass.old.number (seen pass.new) (seen pass.old) }
    {
        let mut looks: u32 = 0;
        for _ in rt.forever() {
            let serving = self.look(pass, ticket);
            if serving == ticket {
                return;
            }
            self.pause(rt, looks, serving, ticket);
            looks = looks.saturating_add(1);
        }
        unreachable!()
    }

    /// Takes the state out of the slot.
    #[tactic(auto, unfolding(crate::specs::Passes::IsInside))]
    fn take(&self, pass: &mut Pass<S>) -> S
        requires { IsServed S.stands_for self.now pass.old }
        ensures pass { IsInside self.now pass.new × IsSamePass pass.old pass.new × (pass.new.left ≡ pass.old.left) }
        ensures seen { seen pass.new ≡ seen pass.old }
        ensures state { S.stands_for (opening_of self.now) (seen pass.new) result }
    {
        let state = self.board.shared.exchange(&mut pass.seat, STATE, None);
        state.unwrap()
    }

    /// Waits for a turn, and returns the state. The pass is inside from then on and has one turn less, and the state
    /// represents the history that the pass has now seen: all that it had seen, and since then no entry by this pass.
    ///
    /// A pass that is inside has to leave before another can enter. No contract promises that a turn ever comes.
    ///
    /// # Errors
    ///
    /// The pass is then unchanged.
    ///
    /// - `ForeignPass`: the pass has another lock's name. This is checked first.
    /// - `PassSpent`: the pass has no turn left.
    pub fn enter<R: Wait>(&self, rt: &R, pass: &mut Pass<S>) -> Result<S, LockError>
        requires { Fits self.now pass.old }
        ensures entered { IfOk result (λ s. IsInside self.now pass.new × IsSamePass pass.old pass.new × (left_of pass.new + 1 ≡ left_of pass.old)) }
        ensures seen { IfOk result (λ s. GoesOn (number_of pass.old) (seen pass.new) (seen pass.old)) }
        ensures calls { IfOk result (λ s. calls_of pass.new ≡ calls_of pass.old) }
        ensures state { IfOk result (λ s. S.stands_for (opening_of self.now) (seen pass.new) s) }
        ensures refused { IfErr result (λ e. (pass.new ≡ pass.old) × Refuses self.now pass.old e) }
    {
        if pass.name != self.name {
            return Err(LockError::ForeignPass);
        }
        if pass.left == 0 {
            return Err(LockError::PassSpent);
        }
        let ticket = self.draw(pass);
        self.wait(rt, pass, ticket);
        Ok(self.take(pass))
    }

    /// Gives the turn back. The state has to represent the history that the pass has seen with one entry added, by this
    /// pass, which is named in contracts alone. The pass has then seen that entry too, and is outside.
    #[tactic(auto, unfolding(crate::specs::Passes::IsInside))]
    pub fn leave(&self, pass: &mut Pass<S>, state: S)
        ghost entry: { S.Entry }
        requires inside { IsInside self.now pass.old }
        requires state { S.stands_for (opening_of self.now) (seen pass.old ++ turn (number_of pass.old) entry ∷ []) state }
        ensures left { IsOutside self.now pass.new × IsSamePass pass.old pass.new × (left_of pass.new ≡ left_of pass.old) }
        ensures seen { seen pass.new ≡ seen pass.old ++ turn (number_of pass.old) entry ∷ [] }
        ensures calls { calls_of pass.new ≡ calls_of pass.old ++ entry ∷ [] }
    {
        let empty = self
            .board
            .shared
            .exchange(&mut pass.seat, STATE, Some(state));
        let None = empty else { unreachable!() };
        self.give::<Brand>(pass);
    }

    /// The turn is the next ticket's.
    #[tactic(auto, unfolding(crate::specs::Passes::IsOutside))]
    fn give<J: Told<S::Entry>>(&self, pass: &mut Pass<S>)
        requires inside { IsPassOf self.now pass.old }
        requires told { IsToGive S.stands_for self.now J.entry pass.old }
        ensures left { IsOutside self.now pass.new × IsSamePass pass.old pass.new × (pass.new.left ≡ pass.old.left) }
        ensures seen { seen pass.new ≡ seen pass.old ++ told_by pass.old.number J.entry }
    {
        self.board
            .shared
            .fetch_add::<Give<J>>(&mut pass.seat, SERVING, 1);
    }
}

impl<S: Kept> fmt::Debug for TurnLock<S> {
    fn fmt<F: fmt::Write>(&self, f: &mut fmt::Formatter<F>) -> fmt::Result {
        f.debug_struct("TurnLock")
            .field("name", &self.name)
            .field("passes", &self.passes)
            .finish_non_exhaustive()
    }
}
