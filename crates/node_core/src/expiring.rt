//! The entries that a node asserts by itself: of others at their deadlines, and of itself that it leaves or is back.
ghost use Rattle.std.specs.Prelude.{◌≡◌, option_map, Err, IfSome, OnOk, OnErr, IsOkUnless};
ghost use Rattle.member_core.specs.Membership.{judged, IsOwnAssertion};
ghost use Rattle.node_core.specs.Asserting.{leaving, rejoining, LeaveStep, RejoinStep};
ghost use Rattle.node_core.specs.Edits.{membership_of};
ghost use Rattle.node_core.specs.Expiring.{due, expired, ExpireStep};
ghost use Rattle.node_core.specs.Node.{altered, asserted_by, at_moment, own_change, said_by};
ghost use Rattle.node_core.specs.Room.{WantsRoom};

use crate::edits::Edit;
use crate::errors::NodeError;
use crate::node::{NodeState, sourced_by_self};
use crate::taking::later;
use change_core::{Change, MAX_NUMBER, Moment, Status};
use hash_ring::PointHash;
use member_core::Verdict;

impl<H: PointHash> NodeState<H> {
    /// Applies one change that is due at a moment, that of the least address: a suspect whose time to refute is over
    /// becomes faulty (SWIM, DSN 2002, section 4.2), and an entry that was faulty for long a tombstone. Returns None if
    /// none is due. Called until it returns None, it applies all.
    ///
    /// # Errors
    ///
    /// The node is then unchanged, its moment too.
    ///
    /// - `Memory`: out of memory; never if none is due, or a change of its address is pending.
    pub fn expire(&mut self, moment: Moment) -> Result<Option<Change>, NodeError>
        ensures step { ExpireStep self.old.node moment result self.new.node }
        ensures out_of_memory { OnErr result (IfSome (due (at_moment self.old.node moment)) (λ entry. WantsRoom self.old.node (expired entry))) }
    {
        let Some(change) = self.due(moment) else {
            self.advance(moment);
            return Ok(None);
        };
        self.say(&change, moment)?;
        Ok(Some(change))
    }

    /// Leaves the cluster: the node holds itself as leave at its incarnation, and passes that on (ringpop-go, package
    /// swim). After an error the node is unchanged.
    ///
    /// # Errors
    ///
    /// - `AlreadyLeft`: the node has left.
    /// - `Memory`: out of memory; never if a change of its own entry is pending.
    pub fn leave(&mut self) -> Result<Change, NodeError>
        ensures step { LeaveStep self.old.node result self.new.node }
        ensures out_of_memory { result ≡ Err NodeError.Memory → WantsRoom self.old.node (leaving self.old.node) }
    {
        let own = self.members.own();
        if own.status == Status::Leave {
            return Err(NodeError::AlreadyLeft);
        }
        let change = Change {
            status: Status::Leave,
            ..own
        };
        self.renew(&change)?;
        Ok(change)
    }

    /// Comes back after leaving: the node is alive at the next incarnation. After an error the node is unchanged.
    ///
    /// # Errors
    ///
    /// - `NotLeft`: the node has not left.
    /// - `Exhausted`: its incarnation is the greatest.
    /// - `Memory`: out of memory.
    pub fn rejoin(&mut self) -> Result<Change, NodeError>
        ensures step { RejoinStep self.old.node result self.new.node }
        ensures out_of_memory { result ≡ Err NodeError.Memory → WantsRoom self.old.node (rejoining self.old.node) }
    {
        let own = self.members.own();
        if own.status != Status::Leave {
            return Err(NodeError::NotLeft);
        }
        if own.incarnation.number() == MAX_NUMBER {
            return Err(NodeError::Exhausted);
        }
        let Some(incarnation) = own.incarnation.next() else {
            unreachable!()
        };
        let change = Change {
            incarnation,
            status: Status::Alive,
            ..own
        };
        self.renew(&change)?;
        Ok(change)
    }

    /// Writes an entry, at a moment, that the node asserts of another that it holds.
    pub(crate) fn say(&mut self, change: &Change, moment: Moment) -> Result<(), NodeError>
        requires { judged (membership_of self.old.node) change.now ≡ Verdict.Take change.now }
        ensures ok { OnOk result (self.new.node ≡ altered (at_moment self.old.node moment) (said_by self.old.node change.now)) }
        ensures err { OnErr result (self.new ≡ self.old) }
        ensures out_of_memory { OnErr result (WantsRoom self.old.node change.now) }
        ensures refusal { IsOkUnless result NodeError.Memory }
    {
        let before = self.moment;
        let news = self.said(change);
        self.advance(moment);
        match self.alter(Edit::Judged(Verdict::Take(*change)), &news) {
            Ok(()) => Ok(()),
            Err(error) => {
                self.go_back(before);
                Err(error)
            }
        }
    }

    /// Writes an entry that the node asserts of itself.
    fn renew(&mut self, change: &Change) -> Result<(), NodeError>
        requires { IsOwnAssertion (own_change self.old.node) change.now }
        ensures ok { OnOk result (self.new.node ≡ altered self.old.node (asserted_by self.old.node.own change.now)) }
        ensures err { OnErr result (self.new ≡ self.old) }
        ensures out_of_memory { OnErr result (WantsRoom self.old.node change.now) }
        ensures refusal { IsOkUnless result NodeError.Memory }
    {
        // The proof knows the type's invariant where a field is read.
        let _ = &self.moment;
        let news = sourced_by_self(change);
        let altered = self.alter(Edit::Own(*change), &news);
        self.settle();
        altered
    }

    /// Returns the entry of least address that is due at a moment, with its next status.
    fn due(&self, moment: Moment) -> Option<Change>
        ensures value { result ≡ option_map expired (due (at_moment self.now.node moment)) }
        ensures taken { IfSome result (λ change. judged (membership_of self.now.node) change ≡ Verdict.Take change) }
    {
        let Some(due) = self.timers.due(later(self.moment, moment)) else {
            return None;
        };
        let Some(held) = self.members.get(due.address) else {
            unreachable!()
        };
        Some(Change {
            address: due.address,
            incarnation: due.incarnation,
            status: due.next,
            weight: held.weight,
        })
    }

    /// The node is at an earlier moment again.
    fn go_back(&mut self, moment: Moment)
        ensures { self.new ≡ record self.old { node = record self.old.node { moment = moment } } }
    {
        self.moment = moment;
    }
}
