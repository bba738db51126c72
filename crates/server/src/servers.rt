//! The part of a server that its threads share, and the work of each of them.
ghost use Rattle.std.specs.Prelude.{◌≡◌, None, Some};
ghost use Rattle.locked_node.specs.Passes.{Fits};
ghost use Rattle.transport.specs.Sockets.{limits_of};
ghost use Rattle.peer_core.specs.Acts.{Makes};
ghost use Rattle.line_service.specs.Answering.{IsSame};
ghost use Rattle.line_service.specs.Timeouts.{AreStandardTimeouts};
ghost use Rattle.server.specs.Working.{ServesEach, hosts_of};

use crate::connections::{Asked, answer_over};
use crate::healing::HealingPlan;
use change_core::Address;
use hash_ring::PointHash;
use line_service::{Input, MAX_READ, Port, Stopwatch, Timeouts, Turn, hear_arrived};
use locked_node::{LockedNode, NodePass};
use peer_core::{HandlerMut, Member};
use reactor::Places;
use std::alloc::Global;
use std::net::{Net, TcpStream};
use std::sync::atomic::{AtomicBool, AtomicU64, Ordering};
use std::sync::{Mutex, MutexGuard, Wait};
use std::thread::Parker;
use std::time::{Clock, Duration};
use transport::{Deadline, TcpLink};

/// The part of a server that its threads share.
#[derive(Drop)]
pub struct Server<H: PointHash, A> {
    /// The node.
    pub node: LockedNode<H>,
    /// The handler of its requests.
    pub handler: A,
    /// Its time.
    pub stopwatch: Stopwatch,
    /// The time limits for which it waits for others.
    pub timeouts: Timeouts,
    /// How it heals a cluster whose members parted; `None`: it does not.
    pub healing: Option<HealingPlan>,
    /// The hosts that it joins while it makes rounds, until one of them has answered; `None`: it joins none.
    pub hosts: Option<Vec<Address>>,
    /// The number of connections after which it ends by itself.
    pub connections: u64,
    port: Port,
    /// The number of connections that are left to be served.
    connections_left: AtomicU64,
    /// Held while threads are started; no worker serves before.
    starting: Mutex<()>,
    is_ending: AtomicBool,
    wake: Parker,
}

impl<H: PointHash, A> Server<H, A> {
    /// Makes a server of this number of connections at a port, with the standard timeouts; none has been served yet. It joins no hosts.
    pub fn new(
        node: LockedNode<H>,
        handler: A,
        stopwatch: Stopwatch,
        healing: Option<HealingPlan>,
        port: Port,
        connections: u64,
    ) -> Self
        ensures node { result.node ≡ node }
        ensures handler { result.handler ≡ handler }
        ensures stopwatch { result.stopwatch ≡ stopwatch }
        ensures timeouts { AreStandardTimeouts result.timeouts }
        ensures healing { result.healing ≡ healing }
        ensures hosts { result.hosts ≡ None }
        ensures connections { result.connections ≡ connections }
    {
        Server {
            node,
            handler,
            stopwatch,
            timeouts: Timeouts::standard(),
            healing,
            hosts: None,
            connections,
            port,
            connections_left: AtomicU64::new(connections),
            starting: Mutex::new(()),
            is_ending: AtomicBool::new(false),
            wake: Parker::new(),
        }
    }

    /// Returns the server with these hosts: while it makes rounds it joins them, at once and then, as long as none has answered by
    /// a Joined, again between two rounds, not sooner than a second after the time before. Of more than 4,096 hosts it joins the
    /// first 4,096.
    pub fn joining(mut self, hosts: Vec<Address>) -> Self
        ensures node { result.node ≡ self.node }
        ensures handler { result.handler ≡ self.handler }
        ensures stopwatch { result.stopwatch ≡ self.stopwatch }
        ensures timeouts { result.timeouts ≡ self.timeouts }
        ensures healing { result.healing ≡ self.healing }
        ensures hosts { result.hosts ≡ Some hosts }
        ensures connections { result.connections ≡ self.connections }
    {
        self.hosts = Some(hosts);
        self
    }

    /// Returns the hosts that it joins while it makes rounds.
    pub(crate) fn hosts(&self) -> &[Address]
        ensures { result.now ≡ hosts_of self.now.hosts }
    {
        match &self.hosts {
            Some(hosts) => hosts.as_slice(),
            None => &[],
        }
    }

    /// Keeps workers from serving until the guard is dropped.
    pub(crate) fn block_workers<R: Wait>(&self, rt: &R) -> MutexGuard<'_, ()> {
        self.starting.lock(rt)
    }

    /// Waits until no thread blocks the workers.
    fn wait_for_start<R: Wait>(&self, rt: &R) {
        drop(self.starting.lock(rt));
    }

    /// Returns the places of its port: how many connections wait there for their line, how many may, how many were closed for others, and
    /// how often the system let none be accepted.
    pub fn places(&self) -> &Places {
        self.port.places()
    }

    /// Ends the server: no further connection is accepted, and no further round made. What came over connections is still answered; those
    /// whose line is not whole are closed, and so are those that wait to be accepted.
    pub fn end(&self) {
        self.is_ending.store(true, Ordering::SeqCst);
        self.port.close();
        self.wake.unpark();
    }

    /// Ends the server before it serves: no connection is left.
    pub(crate) fn give_up(&self) {
        self.connections_left.store(0, Ordering::SeqCst);
        self.end();
    }

    /// Takes one of the connections that are left to be served, which the caller then has to serve; returns whether
    /// there was one.
    fn take_turn(&self) -> bool {
        let order = Ordering::SeqCst;
        self.connections_left
            .fetch_update(order, order, |left| left.checked_sub(1))
            .is_ok()
    }

    /// Returns what came over the next connection, by this buffer; None if none is left, or the server ends.
    fn next_asked<R: Wait + Clock>(
        &self,
        rt: &R,
        alloc: Global,
        buffer: &mut [u8],
    ) -> Option<Asked<TcpStream>> {
        if !self.take_turn() {
            return None;
        }
        for _ in rt.forever() {
            match self.port.turn(rt, alloc, &self.stopwatch, buffer) {
                Turn::Came(came) => {
                    let input = match came.stream.set_nonblocking(false) {
                        Ok(()) => hear_arrived(alloc, &came.line),
                        Err(_) => Input::Nothing,
                    };
                    return Some(Asked {
                        input,
                        stream: came.stream,
                    });
                }
                Turn::Closed => return None,
                Turn::Parked | Turn::Watched(_) => {}
            }
        }
        unreachable!()
    }

    /// Rests for this time at most; whether rounds are still made.
    fn park<R: Wait>(&self, rt: &R, time: Duration) -> bool {
        self.wake.park_timeout(rt, time);
        !self.is_ending.load(Ordering::SeqCst)
    }

    /// Rests for a whole period, also if it is woken before, or until the server ends; whether rounds are still made. If the
    /// clock fails it rests once.
    pub(crate) fn rest<R: Wait + Clock>(&self, rt: &R, period: Duration) -> bool {
        let Ok(deadline) = Deadline::after(rt, period) else {
            return self.park(rt, period);
        };
        let mut left = period;
        for _ in rt.forever() {
            if !self.park(rt, left) {
                return false;
            }
            let Ok(more) = deadline.left() else {
                return true;
            };
            left = more;
        }
        unreachable!()
    }
}

/// Serves connections by a member until none is left, once the threads may start, and returns how many. PingReqs are
/// relayed over its link, which has the server's timeouts.
fn work_over<R: Net + Wait + Clock, H: PointHash, T, A: HandlerMut>(
    server: &Server<H, T>,
    member: &mut Member<'_, H, TcpLink<R>>,
    handler: &mut A,
    rt: &R,
    alloc: Global,
) -> u64
    requires { limits_of member.old.link.now ≡ server.now.timeouts.links }
    ensures made { Makes member.old.node (ServesEach H.hash_of A.handled result handler.old handler.new) member.old.pass.now member.new.pass.now }
    ensures same { IsSame member.old member.new }
{
    server.wait_for_start(rt);
    let mut buffer = [0u8; MAX_READ];
    for served in 0..server.connections {
        let Some(asked) = server.next_asked(rt, alloc, &mut buffer) else {
            return served;
        };
        answer_over(server, member, handler, rt, alloc, asked);
    }
    server.connections
}

/// Serves connections until none is left, once the threads may start, and returns how many. The handler is called once for
/// each Forward that the node owns, and else never.
pub fn work<R: Net + Wait + Clock + Copy, H: PointHash, T, A: HandlerMut>(
    server: &Server<H, T>,
    pass: &mut NodePass<H>,
    handler: &mut A,
    rt: &R,
    alloc: Global,
) -> u64
    requires { Fits server.now.node pass.old }
    ensures made { Makes server.now.node (ServesEach H.hash_of A.handled result handler.old handler.new) pass.old pass.new }
    ensures fits { Fits server.now.node pass.new }
{
    let mut link = TcpLink::with_limits(*rt, server.timeouts.links);
    let mut member = Member::new(&server.node, pass, &mut link, alloc);
    let connections = work_over(server, &mut member, handler, rt, alloc);
    let _pass = member.into_pass();
    connections
}
