//! A call of the node in one turn: the one shape that every call has.
ghost use Rattle.std.specs.Prelude.{◌≡◌, ◌++◌, ◌∷◌, [], IfOk, IfErr};
ghost use Rattle.turn_lock.specs.History.{turn};
ghost use Rattle.turn_lock.specs.Passes.{opening_of as lock_opening, number_of, left_of, seen, calls_of, IsInside, IsOutside, IsSamePass};

use crate::held::Held;
use crate::node::{LockedNode, NodePass};
use hash_ring::PointHash;
use node_core::NodeState;
use std::marker::PhantomData;
use std::sync::Wait;
use turn_lock::{LockError, TurnLock};

/// A call of the node with its arguments, and its entry in the history.
pub(crate) trait LockedCall<H: PointHash> {
    ghost use Rattle.node_core.specs.Calls.{Call, Answer, CallStep};

    type Reply;

    ghost call: { Self → Call };

    ghost answer: { Self.Reply → Answer H };

    fn perform(&self, node: &mut NodeState<H>) -> Self::Reply
        ensures { CallStep H.hash_of node.old.node (call self.now) (answer result) node.new.node };
}

/// The end of a turn in which such a call was made.
struct TurnEnd<H, A> {
    hash: PhantomData<H>,
    asked: PhantomData<A>,
}

impl<H: PointHash, A: LockedCall<H>> TurnEnd<H, A> {
    ghost use Rattle.locked_node.specs.History.{CallEntry, StandsFor};

    /// Gives the turn back. The call and the reply are parameters for contracts alone, which name the entry by them.
    fn leave(
        lock: &TurnLock<Held<H>>,
        pass: &mut NodePass<H>,
        held: Held<H>,
        _asked: &A,
        _reply: &A::Reply,
    )
        ghost entry: { CallEntry H }
        requires inside { IsInside lock.now pass.old }
        requires legal { StandsFor H.hash_of (lock_opening lock.now).node (seen pass.old ++ turn (number_of pass.old) entry ∷ []) held.node }
        ensures left { IsOutside lock.now pass.new × IsSamePass pass.old pass.new × (left_of pass.new ≡ left_of pass.old) }
        ensures seen { seen pass.new ≡ seen pass.old ++ turn (number_of pass.old) entry ∷ [] }
        ensures calls { calls_of pass.new ≡ calls_of pass.old ++ entry ∷ [] }
    {
        lock.leave(pass, held);
    }
}

impl<H: PointHash> LockedNode<H> {
    ghost use Rattle.locked_node.specs.Passes.{Fits, IsBarred, IsCalled};

    /// Waits for a turn, makes the call of the node, and gives the turn back. It waits at the gate, where the kernel
    /// wakes it, and any waiter may be next; a ticket would name the one thread that runs next, whether a processor
    /// runs it or not.
    pub(crate) fn turn<R: Wait, A: LockedCall<H>>(
        &self,
        rt: &R,
        pass: &mut NodePass<H>,
        asked: &A,
    ) -> Result<A::Reply, LockError>
        requires { Fits self.now pass.old }
        ensures called { IfOk result (λ reply. IsCalled H.hash_of self.now pass.old pass.new (A.call asked.now) (A.answer reply)) }
        ensures refused { IfErr result (IsBarred self.now pass.old pass.new) }
        ensures fits { Fits self.now pass.new }
    {
        let _gate = self.gate.lock(rt);
        let mut held = self.lock.enter(rt, pass)?;
        let reply = asked.perform(&mut held.node);
        TurnEnd::<H, A>::leave(&self.lock, pass, held, asked, &reply);
        Ok(reply)
    }
}
