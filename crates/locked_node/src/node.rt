//! The node that threads share: how it is made and how it is closed.
ghost use Rattle.std.specs.Prelude.{◌≡◌, ◌<◌, ◌+◌, ◌++◌, ◌∷◌, [], map, length, IfOk, IfErr, IsPermutation};
ghost use Rattle.std.specs.List.{All, range_with_len};

use crate::errors::CloseRefused;
use crate::held::Held;
use hash_ring::PointHash;
use node_core::NodeState;
use std::alloc::{AllocError, Global};
use std::fmt;
use std::sync::Mutex;
use turn_lock::{NewError, Pass, TurnLock};

/// The right to make calls of a locked node. It is with one thread at a time.
pub type NodePass<H> = Pass<Held<H>>;

/// A node that threads share. Each call is that of `NodeState` under the same name, made in one turn of a lock, for
/// which it waits; no contract promises that a turn ever comes. A call that is made is one entry of a history that is
/// legal from the node that this one was made with; the pass has seen this history from then on, and what it had seen
/// before is a prefix of it. The entry has the reply, which may be an error of the node. A call that is not made
/// returns a `LockError`, and leaves the pass unchanged.
///
/// A pass that has this node's name has to be one of those that were made with it, and in no call. Two locked nodes of
/// one address have one name, so `ForeignPass` does not tell their passes apart.
#[derive(Drop)]
pub struct LockedNode<H: PointHash> {
    pub(crate) lock: TurnLock<Held<H>>,
    /// Held by the pass that draws a ticket until it has left, so that no ticket waits for another at the lock.
    pub(crate) gate: Mutex<()>,
}

impl<H: PointHash> LockedNode<H> {
    ghost use Rattle.turn_lock.specs.Passes.{number_of, IsInRange, IsNewError};
    ghost use Rattle.locked_node.specs.Passes.{opening_of, name_of, passes_of, AreAll, AreFresh, AreOwn, Fits, IsNew, IsClosed, RefusesToClose};

    /// Shares the node by `passes` passes (1 to 1,024), each for `turns` calls (at least 1). Its name is the number of
    /// its address, the IPv4 number times 65,536 plus the port. The passes come in the order of their numbers, from 0
    /// on.
    ///
    /// # Errors
    ///
    /// - `BadCount`: the passes or the turns are out of range. This is checked first. The node is returned.
    /// - `Memory`: out of memory. The node is dropped.
    pub fn new(
        alloc: Global,
        node: NodeState<H>,
        passes: u32,
        turns: u32,
    ) -> Result<(LockedNode<H>, Vec<NodePass<H>>), NewError<NodeState<H>>>
        ensures node { IfOk result (λ r. (name_of r.0 ≡ node.node.own) × (passes_of r.0 ≡ passes) × (opening_of r.0 ≡ node)) }
        ensures passes { IfOk result (λ r. All (IsNew r.0 turns) r.1.items × (map number_of r.1.items ≡ range_with_len 0 passes)) }
        ensures counts { IfOk result (λ r. IsInRange passes turns) }
        ensures refused { IfErr result (IsNewError node passes turns) }
    {
        let name = node.own().address.number();
        match TurnLock::new(alloc, name, Held { node }, passes, turns) {
            Ok((lock, passes)) => {
                let gate = Mutex::new(());
                Ok((LockedNode { lock, gate }, passes))
            }
            Err(NewError::BadCount(held)) => Err(NewError::BadCount(held.node)),
            Err(NewError::Memory) => Err(NewError::Memory),
        }
    }

    /// Makes a node that threads share. Returns it with the pass of the thread that makes its rounds, and a pass for each of `workers`
    /// worker threads, fewer than 1,024. The workers' passes are ascending by number, and that of the rounds has the greatest number. Each
    /// pass may make 4,294,967,295 calls.
    ///
    /// # Errors
    ///
    /// - `AllocError`: out of memory. The node is dropped.
    pub fn share(
        alloc: Global,
        node: NodeState<H>,
        workers: u32,
    ) -> Result<(LockedNode<H>, NodePass<H>, Vec<NodePass<H>>), AllocError>
        requires { workers < 1024 }
        ensures node { IfOk result (λ r. (opening_of r.0 ≡ node) × (passes_of r.0 ≡ workers + 1)) }
        ensures fits { IfOk result (λ r. Fits r.0 r.1 × All (Fits r.0) r.2.items) }
        ensures count { IfOk result (λ r. length r.2.items ≡ workers) }
        ensures all { IfOk result (λ r. AreAll r.0 (r.2.items ++ r.1 ∷ [])) }
        ensures fresh { IfOk result (λ r. AreFresh r.0 (r.2.items ++ r.1 ∷ [])) }
    {
        let Ok((locked, mut passes)) = LockedNode::new(alloc, node, workers + 1, u32::MAX) else {
            return Err(AllocError);
        };
        let Some(pass) = passes.pop() else {
            unreachable!()
        };
        Ok((locked, pass, passes))
    }

    /// Takes the node back, after one history that is legal from the node that this one was made with: each pass had
    /// seen a prefix of it, and it has the calls of each pass, once and in their order, and no other. The node is that
    /// of the history's log. The passes are all that were made, without repetition, in any order. Nothing is allocated.
    ///
    /// # Errors
    ///
    /// - `ForeignPass`: some pass has another node's name. This is checked first. The node and the passes are returned.
    /// - `MissingPass`: there are fewer passes than were made. The node and the passes are returned.
    pub fn close(self, passes: Vec<NodePass<H>>) -> Result<NodeState<H>, CloseRefused<H>>
        requires { All (Fits self) passes.items }
        ensures closed { IfOk result (IsClosed H.hash_of self passes.items) }
        ensures all { IfOk result (λ node. AreOwn self passes.items × (length passes.items ≡ passes_of self)) }
        ensures numbers { IfOk result (λ node. IsPermutation (range_with_len 0 (passes_of self)) (map number_of passes.items)) }
        ensures back { IfErr result (λ r. (r.node ≡ self) × (r.passes.items ≡ passes.items)) }
        ensures cause { IfErr result (λ r. RefusesToClose self passes.items r.cause) }
    {
        let LockedNode { lock, gate } = self;
        match lock.close(passes) {
            Ok(held) => {
                let node = held.node;
                // What holds of a node between any two calls, which `len` says.
                let _ = node.len();
                Ok(node)
            }
            Err(refused) => Err(CloseRefused {
                node: LockedNode {
                    lock: refused.lock,
                    gate,
                },
                passes: refused.passes,
                cause: refused.cause,
            }),
        }
    }
}

impl<H: PointHash> fmt::Debug for LockedNode<H> {
    fn fmt<F: fmt::Write>(&self, f: &mut fmt::Formatter<F>) -> fmt::Result {
        f.debug_struct("LockedNode")
            .field("lock", &self.lock)
            .finish_non_exhaustive()
    }
}
