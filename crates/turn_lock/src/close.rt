//! The end of a lock.
ghost use Rattle.std.specs.Prelude.{◌≡◌, ◌<◌, ◌≤◌, ◌↔◌, ℕ, List, [], ◌∷◌, length, map, IfOk, IfErr, IsTrue, All, IsPermutation};
ghost use Rattle.std.specs.List.{range_with_len};
ghost use Rattle.turn_lock.specs.Rule.{outside, times};
ghost use Rattle.turn_lock.specs.declared.kept.Turn.{Turn};
ghost use Rattle.turn_lock.specs.Seats.{IsLastSeat, IsReady, part_of, HasAll};

use crate::errors::{CloseError, CloseRefused};
use crate::kept::Kept;
use crate::lock::TurnLock;
use crate::pass::Pass;
use crate::plays::Gather;
use crate::table::{Board, Place, STATE};

fn are_own<S: Kept>(name: u64, passes: &[Pass<S>]) -> bool
    ensures { IsTrue result ↔ All (λ p. p.name ≡ name) passes.now }
{
    passes.iter().all(|pass| pass.name == name)
}

/// Returns the first pass's seat, which then represents all.
fn gather<S: Kept>(board: &Board<S>, first: Pass<S>, rest: Vec<Pass<S>>) -> Place<S>
    requires board { board.now.shared.table_id.words ≡ 2 }
    requires first { IsReady board.now.shared.table_id board.now.shared.key.opening.value first }
    requires rest { All (IsReady board.now.shared.table_id board.now.shared.key.opening.value) rest.items }
    ensures table { result.table_id ≡ board.now.shared.table_id }
    ensures parts { result.me ≡ (outside board.now.shared.key.opening.value (part_of first ∷ map part_of rest.items) result.me.0.used, []) }
{
    let Pass {
        name: _,
        number: _,
        left: _,
        seat: mut root,
    } = first;
    for pass in rest {
        let Pass {
            name: _,
            number: _,
            left: _,
            seat,
        } = pass;
        board.shared.join_seat::<Gather>(&mut root, seat);
    }
    root
}

/// Takes the state out, once the root represents all passes.
fn take_out<S: Kept>(board: Board<S>, root: Place<S>) -> S
    requires board { board.shared.table_id.slots ≡ 1 }
    requires root { IsLastSeat board.shared.table_id board.shared.key.opening.value board.shared.key.passes root }
    ensures all { HasAll S.stands_for board.shared.key.opening.value root.me.0.parts result }
    ensures count { length root.me.0.parts ≡ board.shared.key.passes }
    ensures once { (n : ℕ) → n < board.shared.key.passes → times n root.me.0.parts ≡ 1 }
{
    let mut closed = board.close_with(root);
    let state = closed.take(STATE);
    closed.free();
    state.unwrap()
}

impl<S: Kept> TurnLock<S> {
    ghost use Rattle.turn_lock.specs.Passes.{passes_of, opening_of, number_of, AreOwn, Fits, IsWhole, RefusesToClose};

    /// Takes the state back. It represents one history: each pass had seen a prefix of it, and it has the entries of
    /// each pass, once and in their order, and no other. The passes are all that were made, each once, in any order.
    /// Nothing is allocated here.
    ///
    /// # Errors
    ///
    /// - `ForeignPass`: some pass has another lock's name. This is checked first. The lock and the passes are returned.
    /// - `MissingPass`: there are fewer passes than were made. The lock and the passes are returned.
    #[tactic(auto, unfolding(crate::specs::Passes::IsOutside))]
    pub fn close(self, mut passes: Vec<Pass<S>>) -> Result<S, CloseRefused<S>>
        requires { All (Fits self) passes.items }
        ensures closed { IfOk result (λ s. (history : List (Turn S.Entry)) × S.stands_for (opening_of self) history s × IsWhole history passes.items) }
        ensures all { IfOk result (λ s. AreOwn self passes.items × (length passes.items ≡ passes_of self)) }
        ensures numbers { IfOk result (λ s. IsPermutation (range_with_len 0 (passes_of self)) (map number_of passes.items)) }
        ensures back { IfErr result (λ r. (r.lock ≡ self) × (r.passes.items ≡ passes.items)) }
        ensures cause { IfErr result (λ r. RefusesToClose self passes.items r.cause) }
    {
        if !are_own(self.name, passes.as_slice()) {
            return Err(self.refuse(passes, CloseError::ForeignPass));
        }
        if (passes.len() as u64) < self.passes {
            return Err(self.refuse(passes, CloseError::MissingPass));
        }
        let Some(first) = passes.pop() else {
            unreachable!()
        };
        let TurnLock {
            name: _,
            passes: _,
            board,
        } = self;
        let root = gather(&board, first, passes);
        Ok(take_out(board, root))
    }

    fn refuse(self, passes: Vec<Pass<S>>, cause: CloseError) -> CloseRefused<S>
        ensures { (result.lock ≡ self) × (result.passes ≡ passes) × (result.cause ≡ cause) }
    {
        CloseRefused {
            lock: self,
            passes,
            cause,
        }
    }
}
