//! Lookups of a locked node's members and its ring. Nothing changes.
ghost use Rattle.std.specs.Prelude.{◌≡◌, IfOk, IfErr};
ghost use Rattle.node_core.specs.Calls.{OfEvent, OfView, WithReply, WithView};
ghost use Rattle.node_core.specs.declared.events.Event.TheVariants as event;
ghost use Rattle.node_core.specs.declared.events.Reply.TheVariants as reply;

use crate::node::{LockedNode, NodePass};
use crate::turns::LockedCall;
use change_core::{Address, Change, Digest, Entry};
use detector_core::Addresses;
use hash_ring::PointHash;
use message_core::Text;
use node_core::{ChangeList, NodeError, NodeState, View};
use std::sync::Wait;
use turn_lock::LockError;

#[derive(Clone, Copy)]
struct Own;

impl<H: PointHash> LockedCall<H> for Own {
    type Reply = Change;

    ghost call = { λ _. OfEvent event.Own };

    ghost answer = { λ r. WithReply (reply.Own r) };

    fn perform(&self, node: &mut NodeState<H>) -> Change {
        node.own()
    }
}

#[derive(Clone, Copy)]
struct Member(Address);

impl<H: PointHash> LockedCall<H> for Member {
    type Reply = Option<Entry>;

    ghost call = { λ a. OfEvent (event.Member a.0) };

    ghost answer = { λ r. WithReply (reply.Member r) };

    fn perform(&self, node: &mut NodeState<H>) -> Option<Entry> {
        node.member(self.0)
    }
}

#[derive(Clone, Copy)]
struct Len;

impl<H: PointHash> LockedCall<H> for Len {
    type Reply = usize;

    ghost call = { λ _. OfEvent event.Len };

    ghost answer = { λ r. WithReply (reply.Len r) };

    fn perform(&self, node: &mut NodeState<H>) -> usize {
        node.len()
    }
}

#[derive(Clone, Copy)]
struct Owner<'a>(&'a [u8]);

impl<'a, H: PointHash> LockedCall<H> for Owner<'a> {
    type Reply = Option<Address>;

    ghost call = { λ a. OfEvent (event.Owner a.0.now) };

    ghost answer = { λ r. WithReply (reply.Owner r) };

    fn perform(&self, node: &mut NodeState<H>) -> Option<Address> {
        node.owner(self.0)
    }
}

#[derive(Clone, Copy)]
struct Owners<'a>(&'a [u8], usize);

impl<'a, H: PointHash> LockedCall<H> for Owners<'a> {
    type Reply = Result<Addresses, NodeError>;

    ghost call = { λ a. OfEvent (event.Owners a.0.now a.1) };

    ghost answer = { λ r. WithReply (reply.Owners r) };

    fn perform(&self, node: &mut NodeState<H>) -> Result<Addresses, NodeError> {
        node.owners(self.0, self.1)
    }
}

#[derive(Clone, Copy)]
struct Members;

impl<H: PointHash> LockedCall<H> for Members {
    type Reply = Result<ChangeList, NodeError>;

    ghost call = { λ _. OfEvent event.Members };

    ghost answer = { λ r. WithReply (reply.Members r) };

    fn perform(&self, node: &mut NodeState<H>) -> Result<ChangeList, NodeError> {
        node.members()
    }
}

#[derive(Clone, Copy)]
struct DigestText;

impl<H: PointHash> LockedCall<H> for DigestText {
    type Reply = Result<Text, NodeError>;

    ghost call = { λ _. OfEvent event.DigestText };

    ghost answer = { λ r. WithReply (reply.DigestText r) };

    fn perform(&self, node: &mut NodeState<H>) -> Result<Text, NodeError> {
        node.digest_text()
    }
}

#[derive(Clone, Copy)]
struct MembersDigest;

impl<H: PointHash> LockedCall<H> for MembersDigest {
    type Reply = Result<Digest, NodeError>;

    ghost call = { λ _. OfEvent event.Digest };

    ghost answer = { λ r. WithReply (reply.Digest r) };

    fn perform(&self, node: &mut NodeState<H>) -> Result<Digest, NodeError> {
        node.digest()
    }
}

#[derive(Clone, Copy)]
struct MakeView;

impl<H: PointHash> LockedCall<H> for MakeView {
    type Reply = Result<View<H>, NodeError>;

    ghost call = { λ _. OfView };

    ghost answer = { λ r. WithView r };

    fn perform(&self, node: &mut NodeState<H>) -> Result<View<H>, NodeError> {
        node.view()
    }
}

impl<H: PointHash> LockedNode<H> {
    ghost use Rattle.locked_node.specs.Passes.{Fits, IsAnswered, IsBarred, IsCalled};

    /// Returns the node's own entry, as a change.
    ///
    /// # Errors
    ///
    /// The call is not made, and the pass is unchanged.
    ///
    /// - `ForeignPass`: the pass has another node's name. This is checked first.
    /// - `PassSpent`: the pass has made all its calls.
    pub fn own<R: Wait>(&self, rt: &R, pass: &mut NodePass<H>) -> Result<Change, LockError>
        requires { Fits self.now pass.old }
        ensures called { IfOk result (IsAnswered H.hash_of self.now pass.old pass.new event.Own reply.Own) }
        ensures refused { IfErr result (IsBarred self.now pass.old pass.new) }
        ensures fits { Fits self.now pass.new }
    {
        self.turn(rt, pass, &Own)
    }

    /// Returns the entry that the node holds of an address.
    ///
    /// # Errors
    ///
    /// The call is not made, and the pass is unchanged.
    ///
    /// - `ForeignPass`: the pass has another node's name. This is checked first.
    /// - `PassSpent`: the pass has made all its calls.
    pub fn member<R: Wait>(
        &self,
        rt: &R,
        pass: &mut NodePass<H>,
        address: Address,
    ) -> Result<Option<Entry>, LockError>
        requires { Fits self.now pass.old }
        ensures called { IfOk result (IsAnswered H.hash_of self.now pass.old pass.new (event.Member address) reply.Member) }
        ensures refused { IfErr result (IsBarred self.now pass.old pass.new) }
        ensures fits { Fits self.now pass.new }
    {
        self.turn(rt, pass, &Member(address))
    }

    /// Returns the number of members that the node holds, itself among them.
    ///
    /// # Errors
    ///
    /// The call is not made, and the pass is unchanged.
    ///
    /// - `ForeignPass`: the pass has another node's name. This is checked first.
    /// - `PassSpent`: the pass has made all its calls.
    pub fn len<R: Wait>(&self, rt: &R, pass: &mut NodePass<H>) -> Result<usize, LockError>
        requires { Fits self.now pass.old }
        ensures called { IfOk result (IsAnswered H.hash_of self.now pass.old pass.new event.Len reply.Len) }
        ensures refused { IfErr result (IsBarred self.now pass.old pass.new) }
        ensures fits { Fits self.now pass.new }
    {
        self.turn(rt, pass, &Len)
    }

    /// Returns the owner of a key: of the serving members the one nearest to it. None if and only if no member serves.
    /// Nothing is allocated.
    ///
    /// # Errors
    ///
    /// The call is not made, and the pass is unchanged.
    ///
    /// - `ForeignPass`: the pass has another node's name. This is checked first.
    /// - `PassSpent`: the pass has made all its calls.
    pub fn owner<R: Wait>(
        &self,
        rt: &R,
        pass: &mut NodePass<H>,
        key: &[u8],
    ) -> Result<Option<Address>, LockError>
        requires { Fits self.now pass.old }
        ensures called { IfOk result (IsAnswered H.hash_of self.now pass.old pass.new (event.Owner key.now) reply.Owner) }
        ensures refused { IfErr result (IsBarred self.now pass.old pass.new) }
        ensures fits { Fits self.now pass.new }
    {
        self.turn(rt, pass, &Owner(key))
    }

    /// Returns the first `count` owners of a key, the owner first, or all serving members if there are fewer. The reply
    /// may be `Memory`.
    ///
    /// # Errors
    ///
    /// The call is not made, and the pass is unchanged.
    ///
    /// - `ForeignPass`: the pass has another node's name. This is checked first.
    /// - `PassSpent`: the pass has made all its calls.
    pub fn owners<R: Wait>(
        &self,
        rt: &R,
        pass: &mut NodePass<H>,
        key: &[u8],
        count: usize,
    ) -> Result<Result<Addresses, NodeError>, LockError>
        requires { Fits self.now pass.old }
        ensures called { IfOk result (IsAnswered H.hash_of self.now pass.old pass.new (event.Owners key.now count) reply.Owners) }
        ensures refused { IfErr result (IsBarred self.now pass.old pass.new) }
        ensures fits { Fits self.now pass.new }
    {
        self.turn(rt, pass, &Owners(key, count))
    }

    /// Returns the members, ascending by address. The reply may be `Memory`.
    ///
    /// # Errors
    ///
    /// The call is not made, and the pass is unchanged.
    ///
    /// - `ForeignPass`: the pass has another node's name. This is checked first.
    /// - `PassSpent`: the pass has made all its calls.
    pub fn members<R: Wait>(
        &self,
        rt: &R,
        pass: &mut NodePass<H>,
    ) -> Result<Result<ChangeList, NodeError>, LockError>
        requires { Fits self.now pass.old }
        ensures called { IfOk result (IsAnswered H.hash_of self.now pass.old pass.new event.Members reply.Members) }
        ensures refused { IfErr result (IsBarred self.now pass.old pass.new) }
        ensures fits { Fits self.now pass.new }
    {
        self.turn(rt, pass, &Members)
    }

    /// Returns the members as one line of text. The reply may be `Memory`.
    ///
    /// # Errors
    ///
    /// The call is not made, and the pass is unchanged.
    ///
    /// - `ForeignPass`: the pass has another node's name. This is checked first.
    /// - `PassSpent`: the pass has made all its calls.
    pub fn digest_text<R: Wait>(
        &self,
        rt: &R,
        pass: &mut NodePass<H>,
    ) -> Result<Result<Text, NodeError>, LockError>
        requires { Fits self.now pass.old }
        ensures called { IfOk result (IsAnswered H.hash_of self.now pass.old pass.new event.DigestText reply.DigestText) }
        ensures refused { IfErr result (IsBarred self.now pass.old pass.new) }
        ensures fits { Fits self.now pass.new }
    {
        self.turn(rt, pass, &DigestText)
    }

    /// Returns the SHA-256 of the digest text. The reply may be `Memory`.
    ///
    /// # Errors
    ///
    /// The call is not made, and the pass is unchanged.
    ///
    /// - `ForeignPass`: the pass has another node's name. This is checked first.
    /// - `PassSpent`: the pass has made all its calls.
    pub fn digest<R: Wait>(
        &self,
        rt: &R,
        pass: &mut NodePass<H>,
    ) -> Result<Result<Digest, NodeError>, LockError>
        requires { Fits self.now pass.old }
        ensures called { IfOk result (IsAnswered H.hash_of self.now pass.old pass.new event.Digest reply.Digest) }
        ensures refused { IfErr result (IsBarred self.now pass.old pass.new) }
        ensures fits { Fits self.now pass.new }
    {
        self.turn(rt, pass, &MembersDigest)
    }

    /// Returns a copy of the ring, made in one turn and used outside, where it names owners as the node did then. The
    /// reply may be `Memory`.
    ///
    /// # Errors
    ///
    /// The call is not made, and the pass is unchanged.
    ///
    /// - `ForeignPass`: the pass has another node's name. This is checked first.
    /// - `PassSpent`: the pass has made all its calls.
    pub fn view<R: Wait>(
        &self,
        rt: &R,
        pass: &mut NodePass<H>,
    ) -> Result<Result<View<H>, NodeError>, LockError>
        requires { Fits self.now pass.old }
        ensures called { IfOk result (λ r. IsCalled H.hash_of self.now pass.old pass.new OfView (WithView r)) }
        ensures refused { IfErr result (IsBarred self.now pass.old pass.new) }
        ensures fits { Fits self.now pass.new }
    {
        self.turn(rt, pass, &MakeView)
    }
}
