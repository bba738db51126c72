//! The making of a lock.
ghost use Rattle.std.specs.Prelude.{◌≡◌, ◌<◌, ◌≤◌, ◌*◌, ◌^◌, [], map, IfOk, IfErr};
ghost use Rattle.std.specs.List.{All, range_with_len};
ghost use Rattle.turn_lock.specs.Seats.{IsDealt, IsFirstSeat};

use crate::errors::NewError;
use crate::kept::Kept;
use crate::lock::TurnLock;
use crate::pass::Pass;
use crate::plays::Part;
use crate::table::{Board, Place, Terms};
use atomic_table::Table;
use std::alloc::{AllocError, Global};
use std::snapshot::Snapshot;

/// The most passes that a lock may have.
pub const MAX_PASSES: u32 = 1024;

/// Makes the table with the state in its slot, and its first seat, which represents all passes.
fn open<S: Kept + Drop>(
    alloc: Global,
    terms: &Terms<S>,
    state: S,
) -> Result<(Board<S>, Place<S>), AllocError>
    requires opening { (state ≡ terms.now.opening.value) × S.stands_for state [] state }
    requires few { terms.now.passes * terms.now.turns < 2 ^ 42 }
    ensures table { IfOk result (λ r. (r.0.shared.table_id.words ≡ 2) × (r.0.shared.table_id.slots ≡ 1) × (r.0.shared.key ≡ terms.now)) }
    ensures seat { IfOk result (λ r. IsFirstSeat r.0.shared.table_id terms.now.opening.value terms.now.passes r.1) }
{
    let mut slots = Vec::with_capacity(alloc, 1)?;
    slots.push_reserved(Some(state));
    match Table::new(alloc, &[0, 0], slots, terms) {
        Ok(made) => Ok(made),
        Err(_) => Err(AllocError),
    }
}

/// A pass for each number, from 0 on. The root is the last one's.
fn deal<S: Kept>(
    alloc: Global,
    name: u64,
    board: &Board<S>,
    mut root: Place<S>,
    passes: u32,
    turns: u32,
) -> Result<Vec<Pass<S>>, AllocError>
    requires board { board.now.shared.table_id.words ≡ 2 }
    requires root { IsFirstSeat board.now.shared.table_id board.now.shared.key.opening.value passes root }
    requires count { 0 < passes }
    ensures dealt { IfOk result (λ r. All (IsDealt board.now.shared.table_id board.now.shared.key.opening.value name turns) r.items) }
    ensures numbers { IfOk result (λ r. map (λ p. p.number) r.items ≡ range_with_len 0 passes) }
{
    let (last, left) = (passes - 1, u64::from(turns));
    let mut dealt = Vec::with_capacity(alloc, passes as usize)?;
    for number in 0..last {
        let seat = board.shared.split_seat::<Part>(&mut root);
        dealt.push_reserved(Pass {
            name,
            number: u64::from(number),
            left,
            seat,
        });
    }
    dealt.push_reserved(Pass {
        name,
        number: u64::from(last),
        left,
        seat: root,
    });
    Ok(dealt)
}

impl<S: Kept + Drop> TurnLock<S> {
    ghost use Rattle.turn_lock.specs.Passes.{name_of, passes_of, opening_of, number_of, IsNew, IsInRange, IsNewError};

    /// Makes a lock round the state, with `passes` passes (1 to `MAX_PASSES`), each for `turns` turns (at least 1).
    /// The state represents the empty history. The passes come in the order of their numbers, from 0 on.
    ///
    /// # Errors
    ///
    /// - `BadCount`: the passes or the turns are out of range. This is checked first. The state is returned.
    /// - `Memory`: out of memory. The state is dropped.
    #[tactic(auto, unfolding(crate::specs::Passes::IsOutside))]
    pub fn new(
        alloc: Global,
        name: u64,
        state: S,
        passes: u32,
        turns: u32,
    ) -> Result<(TurnLock<S>, Vec<Pass<S>>), NewError<S>>
        requires { S.stands_for state [] state }
        ensures lock { IfOk result (λ r. (name_of r.0 ≡ name) × (passes_of r.0 ≡ passes) × (opening_of r.0 ≡ state)) }
        ensures passes { IfOk result (λ r. All (IsNew r.0 turns) r.1.items × (map number_of r.1.items ≡ range_with_len 0 passes)) }
        ensures counts { IfOk result (λ r. IsInRange passes turns) }
        ensures refused { IfErr result (IsNewError state passes turns) }
    {
        if passes == 0 || passes > MAX_PASSES || turns == 0 {
            return Err(NewError::BadCount(state));
        }
        let terms = Terms {
            passes: u64::from(passes),
            turns: u64::from(turns),
            opening: Snapshot::of(&state),
        };
        let (board, root) = open(alloc, &terms, state)?;
        let dealt = deal(alloc, name, &board, root, passes, turns)?;
        Ok((TurnLock::of(name, u64::from(passes), board), dealt))
    }
}
