//! A server's node as one thread of the service calls it.
ghost use Rattle.std.specs.Prelude.{◌≡◌, ◌<◌, ◌^◌, IfErr, IfOk, length};
ghost use Rattle.std.specs.Arc.{arc_value};
ghost use Rattle.node_core.specs.Calls.{OfEvent, WithReply};
ghost use Rattle.node_core.specs.declared.events.Event.TheVariants as event;
ghost use Rattle.node_core.specs.declared.events.Reply.TheVariants as reply;
ghost use Rattle.locked_node.specs.Passes.{Fits, IsBarred, IsCalled};
ghost use Rattle.peer_core.specs.MemberErrors.{answer_of_call, answer_of_leave, answer_of_rejoin, error_of_join, error_of_request, widened};
ghost use Rattle.peer_core.specs.Members.{Done};
ghost use Rattle.peer_core.specs.Parts.{Does};
ghost use Rattle.server.specs.Seats.{Did, JoinsHosts, Replied, Requests};

use crate::servers::Server;
use change_core::{Address, Change};
use hash_ring::PointHash;
use line_service::ServerClock;
use locked_node::NodePass;
use message_core::{Keys, Text};
use node_core::ChangeList;
use peer_core::{CallError, Handler, JoinError, LeaveError, Member, RejoinError, RequestError};
use std::alloc::Global;
use std::marker::Model;
use std::net::Net;
use std::sync::{Arc, Wait};
use std::time::Clock;
use transport::TcpLink;
use turn_lock::LockError;

/// A seat at a server's node: the server, and a handle that fits its node, by which one thread of the service makes its calls.
///
/// The node's lock refuses a call by `ForeignPass` if the handle is of another node, and by `PassSpent` if it has made as many calls as it may.
#[derive(Drop)]
pub struct Seat<R, H: PointHash, A> {
    rt: R,
    alloc: Global,
    server: Arc<Server<H, A>, Global>,
    handle: NodePass<H>,
}

impl<R, H: PointHash, A> Model for Seat<R, H, A> {
    ghost use Rattle.std.specs.Arc.{arc_value};
    ghost use Rattle.locked_node.specs.Passes.{Fits};
    ghost use Rattle.server.specs.Seats.{Seated};

    ghost Value = { Seated H A };

    ghost view = { λ s. record { server = arc_value s.server; handle = s.handle } };

    ghost invariant = { λ s. Fits (arc_value s.server).node s.handle };
}

impl<R: Copy, H: PointHash, A: Drop> Seat<R, H, A> {
    /// The seat of a handle that fits the server's node.
    pub(crate) fn new(
        rt: R,
        alloc: Global,
        server: Arc<Server<H, A>, Global>,
        handle: NodePass<H>,
    ) -> Self
        requires { Fits (arc_value server).node handle }
        ensures server { result.server ≡ arc_value server }
        ensures handle { result.handle ≡ handle }
    {
        Seat {
            rt,
            alloc,
            server,
            handle,
        }
    }

    /// Gives the seat up, and returns its handle, with which the node can be closed.
    pub fn into_handle(self) -> NodePass<H>
        ensures handle { result ≡ self.handle }
        ensures fits { Fits self.server.node result }
    {
        let Seat { handle, .. } = self;
        handle
    }
}

/// Joins hosts by a handle, over a new link.
fn join_by<R: Net + Wait + Clock + Copy, H: PointHash, A>(
    rt: &R,
    alloc: Global,
    server: &Server<H, A>,
    handle: &mut NodePass<H>,
    hosts: &[Address],
) -> Result<u32, JoinError>
    requires fits { Fits server.now.node handle.old }
    requires few { length hosts.now < 2 ^ 32 }
    ensures joined { Does server.now.node (JoinsHosts hosts.now) (widened error_of_join result) handle.old handle.new }
    ensures fits { Fits server.now.node handle.new }
{
    let mut link = TcpLink::with_limits(*rt, server.timeouts.links);
    let now = server.stopwatch.moment(rt);
    let mut member = Member::new(&server.node, handle, &mut link, alloc);
    let joined = member.join(rt, hosts, now);
    let _handle = member.into_pass();
    joined
}

/// Answers a request by a member, with a handler that others may call at the same time.
fn request_over<R: Net + Wait + Clock + Copy, H: PointHash, A: Handler>(
    rt: &R,
    member: &mut Member<'_, H, TcpLink<R>>,
    handler: &A,
    clock: &ServerClock<R>,
    keys: Keys,
    body: Text,
) -> Result<Text, RequestError>
    ensures { Done (Requests H.hash_of (A.may_handle handler.now) keys body) (widened error_of_request result) member.old member.new }
{
    member.request(rt, &mut &*handler, clock, keys, body)
}

/// Answers a request by a handle, over a new link.
fn request_by<R: Net + Wait + Clock + Copy, H: PointHash, A: Handler>(
    rt: &R,
    alloc: Global,
    server: &Server<H, A>,
    handle: &mut NodePass<H>,
    keys: Keys,
    body: Text,
) -> Result<Text, RequestError>
    requires fits { Fits server.now.node handle.old }
    ensures requested { Does server.now.node (Requests H.hash_of (A.may_handle server.now.handler) keys body) (widened error_of_request result) handle.old handle.new }
    ensures fits { Fits server.now.node handle.new }
{
    let mut link = TcpLink::with_limits(*rt, server.timeouts.links);
    let clock = ServerClock::new(*rt, server.stopwatch);
    let mut member = Member::new(&server.node, handle, &mut link, alloc);
    let answer = request_over(rt, &mut member, &server.handler, &clock, keys, body);
    let _handle = member.into_pass();
    answer
}

/// Copies the members by a handle.
fn members_by<R: Net + Wait + Clock + Copy, H: PointHash, A>(
    rt: &R,
    alloc: Global,
    server: &Server<H, A>,
    handle: &mut NodePass<H>,
) -> Result<ChangeList, CallError>
    requires fits { Fits server.now.node handle.old }
    ensures called { IfOk (answer_of_call result) (λ a. IsCalled H.hash_of server.now.node handle.old handle.new (OfEvent event.Members) (WithReply (reply.Members a))) }
    ensures refused { IfErr (answer_of_call result) (IsBarred server.now.node handle.old handle.new) }
    ensures fits { Fits server.now.node handle.new }
{
    let mut link = TcpLink::new(*rt);
    let mut member = Member::new(&server.node, handle, &mut link, alloc);
    let answer = member.members(rt);
    let _handle = member.into_pass();
    answer
}

/// Leaves by a handle.
fn leave_by<R: Net + Wait + Clock + Copy, H: PointHash, A>(
    rt: &R,
    alloc: Global,
    server: &Server<H, A>,
    handle: &mut NodePass<H>,
) -> Result<Change, LeaveError>
    requires fits { Fits server.now.node handle.old }
    ensures called { IfOk (answer_of_leave result) (λ a. IsCalled H.hash_of server.now.node handle.old handle.new (OfEvent event.Leave) (WithReply (reply.Leave a))) }
    ensures refused { IfErr (answer_of_leave result) (IsBarred server.now.node handle.old handle.new) }
    ensures fits { Fits server.now.node handle.new }
{
    let mut link = TcpLink::new(*rt);
    let mut member = Member::new(&server.node, handle, &mut link, alloc);
    let answer = member.leave(rt);
    let _handle = member.into_pass();
    answer
}

/// Comes back by a handle.
fn rejoin_by<R: Net + Wait + Clock + Copy, H: PointHash, A>(
    rt: &R,
    alloc: Global,
    server: &Server<H, A>,
    handle: &mut NodePass<H>,
) -> Result<Change, RejoinError>
    requires fits { Fits server.now.node handle.old }
    ensures called { IfOk (answer_of_rejoin result) (λ a. IsCalled H.hash_of server.now.node handle.old handle.new (OfEvent event.Rejoin) (WithReply (reply.Rejoin a))) }
    ensures refused { IfErr (answer_of_rejoin result) (IsBarred server.now.node handle.old handle.new) }
    ensures fits { Fits server.now.node handle.new }
{
    let mut link = TcpLink::new(*rt);
    let mut member = Member::new(&server.node, handle, &mut link, alloc);
    let answer = member.rejoin(rt);
    let _handle = member.into_pass();
    answer
}

impl<R: Net + Wait + Clock + Copy, H: PointHash, A: Handler> Seat<R, H, A> {
    /// Sends a Join to each host, fewer than 2^32, in their order. Returns the number of hosts that answered by a Joined. It is
    /// [`Member::join`], over TCP and at the server's moment.
    ///
    /// # Errors
    ///
    /// - `NoneJoined`: no host answered by a Joined.
    /// - `Memory`: an allocation failed.
    /// - `ForeignPass`, `PassSpent`: the lock refused the handle.
    pub fn join(&mut self, hosts: &[Address]) -> Result<u32, JoinError>
        requires { length hosts.now < 2 ^ 32 }
        ensures { Did (JoinsHosts hosts.now) (widened error_of_join result) self.old self.new }
    {
        join_by(&self.rt, self.alloc, &self.server, &mut self.handle, hosts)
    }

    /// Answers a request of these keys, 1 to 256, with this body: by the server's handler if its node owns all of them, else by the
    /// answer of the node that does. A send that fails is tried again 3, 6 and 12 seconds after the first, second and third failure, at
    /// the owner of that time. It is [`Member::request`], over TCP and by the server's clock.
    ///
    /// # Errors
    ///
    /// - `Diverged`: two of the keys have different owners.
    /// - `Nobody`: no member serves.
    /// - `RetriesSpent`: the fourth send failed, too.
    /// - `HandlerFault`: the handler failed.
    /// - `Memory`: an allocation failed.
    /// - `ForeignPass`, `PassSpent`: the lock refused the handle.
    pub fn request(&mut self, keys: Keys, body: Text) -> Result<Text, RequestError>
        ensures { Did (Requests H.hash_of (A.may_handle self.old.server.handler) keys body) (widened error_of_request result) self.old self.new }
    {
        request_by(
            &self.rt,
            self.alloc,
            &self.server,
            &mut self.handle,
            keys,
            body,
        )
    }

    /// The owner of a key: of the members that serve the nearest to it. None if and only if none serves. It takes no memory.
    ///
    /// # Errors
    ///
    /// - `ForeignPass`, `PassSpent`: the lock refused the handle.
    pub fn owner(&mut self, key: &[u8]) -> Result<Option<Address>, LockError>
        ensures { Replied H.hash_of (event.Owner key.now) reply.Owner result self.old self.new }
    {
        self.server.node.owner(&self.rt, &mut self.handle, key)
    }

    /// The members that the node holds, itself among them, ascending by address.
    ///
    /// # Errors
    ///
    /// - `Memory`: an allocation failed.
    /// - `ForeignPass`, `PassSpent`: the lock refused the handle.
    pub fn members(&mut self) -> Result<ChangeList, CallError>
        ensures { Replied H.hash_of event.Members reply.Members (answer_of_call result) self.old self.new }
    {
        members_by(&self.rt, self.alloc, &self.server, &mut self.handle)
    }

    /// Leaves the cluster: the node asserts so, and rounds and answers pass it on. Returns its entry after that, as a change.
    ///
    /// # Errors
    ///
    /// - `AlreadyLeft`: the node has left.
    /// - `Memory`: an allocation failed; the node has not left then.
    /// - `ForeignPass`, `PassSpent`: the lock refused the handle.
    pub fn leave(&mut self) -> Result<Change, LeaveError>
        ensures { Replied H.hash_of event.Leave reply.Leave (answer_of_leave result) self.old self.new }
    {
        leave_by(&self.rt, self.alloc, &self.server, &mut self.handle)
    }

    /// Comes back after leaving, at the node's next incarnation. Returns its entry after that, as a change.
    ///
    /// # Errors
    ///
    /// - `NotLeft`: the node has not left.
    /// - `Exhausted`: no incarnation is left.
    /// - `Memory`: an allocation failed; the node has still left then.
    /// - `ForeignPass`, `PassSpent`: the lock refused the handle.
    pub fn rejoin(&mut self) -> Result<Change, RejoinError>
        ensures { Replied H.hash_of event.Rejoin reply.Rejoin (answer_of_rejoin result) self.old self.new }
    {
        rejoin_by(&self.rt, self.alloc, &self.server, &mut self.handle)
    }

    /// The server: its node, its handler, its time.
    pub fn server(&self) -> &Server<H, A>
        ensures { result.now ≡ self.now.server }
    {
        &self.server
    }
}
