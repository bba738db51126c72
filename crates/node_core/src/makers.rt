//! The messages that a node makes.
ghost use Rattle.std.specs.Prelude.{◌≡◌, ◌≤◌, [], length, IfOk, OnOk, OnErr, IsOkUnless};
ghost use Rattle.change_core.specs.Numbers.{most_members};
ghost use Rattle.node_core.specs.Messages.{ack_by, full_sync, join_by, joined_by, news_of, piggyback, ping_by, ping_req_ack_by, ping_req_by, says, told};
ghost use Rattle.node_core.specs.Node.{said_by};
ghost use Rattle.node_core.specs.Receiving.{MakeStep};

use crate::errors::NodeError;
use crate::node::NodeState;
use change_core::{Address, Change, Digest, Sourced};
use hash_ring::PointHash;
use message_core::{Changes, Content, Message, News};

impl<H: PointHash> NodeState<H> {
    /// Makes the message that a node sends to a host to join: its own entry, to be answered by all members that the
    /// host holds (ringpop-go, package swim). Nothing changes.
    ///
    /// # Errors
    ///
    /// - `Memory`: out of memory.
    pub fn join_message(&self) -> Result<Message, NodeError>
        ensures step { MakeStep self.now.node (join_by self.now.node) self.now.node result self.now.node }
    {
        let checksum = self.digest()?;
        let own = self.own();
        let mut changes = Vec::with_capacity(self.alloc, 1)?;
        changes.push_reserved(self.said(&own));
        let changes = fitting(changes);
        Ok(self.message(Content::Join(News { checksum, changes })))
    }

    /// Makes a ping of a target (SWIM, section 3.1), with the changes to pass on to it (section 4.1).
    ///
    /// # Errors
    ///
    /// - `Memory`: out of memory. Nothing counts as passed on.
    pub fn ping_to(&mut self, target: Address) -> Result<Message, NodeError>
        ensures step { MakeStep self.old.node (ping_by self.old.node target) (told self.old.node target) result self.new.node }
    {
        let news = self.news_for(target)?;
        Ok(self.message(Content::Ping(news)))
    }

    /// Makes a request to a helper to ping a target (SWIM, section 3.1), with the changes to pass on to the helper.
    ///
    /// # Errors
    ///
    /// - `Memory`: out of memory. Nothing counts as passed on.
    pub fn ping_req_to(&mut self, helper: Address, target: Address) -> Result<Message, NodeError>
        ensures step { MakeStep self.old.node (ping_req_by self.old.node helper target) (told self.old.node helper) result self.new.node }
    {
        let news = self.news_for(helper)?;
        Ok(self.message(Content::PingReq(news, target)))
    }

    /// Makes a report to a requester on whether a target was reached, with the changes to pass on to the requester.
    ///
    /// # Errors
    ///
    /// - `Memory`: out of memory. Nothing counts as passed on.
    pub fn ping_req_ack_to(
        &mut self,
        requester: Address,
        target: Address,
        reached: bool,
    ) -> Result<Message, NodeError>
        ensures step { MakeStep self.old.node (ping_req_ack_by self.old.node requester target reached) (told self.old.node requester) result self.new.node }
    {
        let news = self.news_for(requester)?;
        Ok(self.message(Content::PingReqAck(news, target, reached)))
    }

    /// Makes the answer to a join: all members, each with the node as its source. Nothing changes.
    ///
    /// # Errors
    ///
    /// - `Memory`: out of memory.
    pub(crate) fn joined(&self) -> Result<Message, NodeError>
        ensures step { MakeStep self.now.node (joined_by self.now.node) self.now.node result self.now.node }
    {
        let checksum = self.digest()?;
        let changes = self.full_sync()?;
        Ok(self.message(Content::Joined(News { checksum, changes })))
    }

    /// Makes the answer to a ping of this source that carried this checksum: the changes to pass on to the source, or,
    /// if there are none and the digests differ, all members (ringpop-go, package swim: a full synchronisation).
    ///
    /// # Errors
    ///
    /// - `Memory`: out of memory. Nothing counts as passed on.
    pub(crate) fn ack(&mut self, source: Address, checksum: Digest) -> Result<Message, NodeError>
        ensures step { MakeStep self.old.node (ack_by self.old.node source checksum) (told self.old.node source) result self.new.node }
    {
        let mut news = self.news_for(source)?;
        if news.changes.as_slice().is_empty() && checksum != news.checksum {
            news.changes = self.full_sync()?;
        }
        Ok(self.message(Content::Ack(news)))
    }

    /// Returns a change with the node as its source.
    pub(crate) fn said(&self, change: &Change) -> Sourced
        ensures { result ≡ said_by self.now.node change.now }
    {
        let own = self.members.own();
        Sourced {
            change: *change,
            source: own.address,
            source_incarnation: own.incarnation,
        }
    }

    /// A message of the node, at its incarnation.
    fn message(&self, content: Content) -> Message
        ensures { result ≡ says self.now.node content }
    {
        let own = self.members.own();
        Message {
            source: own.address,
            source_incarnation: own.incarnation,
            content,
        }
    }

    /// Returns the digest, computed again only if the members changed since the last time, and the changes to pass on
    /// to a target. The digest comes first, so that no change is issued in vain.
    fn news_for(&mut self, target: Address) -> Result<News, NodeError>
        ensures news { IfOk result (λ n. n ≡ news_of self.old.node (piggyback self.old.node target)) }
        ensures ok { OnOk result (self.new.node ≡ told self.old.node target) }
        // Without changes to pass on nothing changes.
        ensures nothing { IfOk result (λ n. n.changes ≡ [] → self.new ≡ self.old) }
        ensures err { OnErr result (self.new ≡ self.old) }
        ensures refusal { IsOkUnless result NodeError.Memory }
    {
        let checksum = self.members.keep_digest()?;
        let issued = self.gossip.issue_for(target, self.config.per_message)?;
        Ok(News {
            checksum,
            changes: fitting(issued),
        })
    }

    /// All members, each with the node as its source.
    fn full_sync(&self) -> Result<Changes, NodeError>
        ensures whole { IfOk result (λ changes. changes ≡ full_sync self.now.node) }
        ensures refusal { IsOkUnless result NodeError.Memory }
    {
        Ok(fitting(self.members.full_sync()?))
    }
}

/// Changes that are few enough for one message.
fn fitting(changes: Vec<Sourced>) -> Changes
    requires { length changes.items ≤ most_members }
    ensures { result ≡ changes.items }
{
    let Ok(changes) = Changes::from_vec(changes) else {
        unreachable!()
    };
    changes
}
