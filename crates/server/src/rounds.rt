//! The rounds of a server, and what is done between them.
ghost use Rattle.std.specs.Prelude.{◌≡◌, None, Some};
ghost use Rattle.locked_node.specs.Passes.{Fits};
ghost use Rattle.transport.specs.Sockets.{limits_of};
ghost use Rattle.peer_core.specs.Acts.{Makes};
ghost use Rattle.line_service.specs.Answering.{IsSame};
ghost use Rattle.server.specs.Working.{AreRounds, JoinsAt, JoinsIfDue, first_join, hosts_of};

use crate::healing::HealingPlan;
use crate::round_clocks::RoundClock;
use crate::servers::Server;
use change_core::{Address, Moment};
use hash_ring::PointHash;
use locked_node::NodePass;
use peer_core::{Healing, Member};
use std::alloc::Global;
use std::net::Net;
use transport::TcpLink;

/// The milliseconds between two joins while no host has answered.
const BETWEEN_JOINS: u64 = 1_000;

/// The greatest number of hosts that are joined.
const MAX_HOSTS: usize = 4_096;

/// Returns the moment of the first join; none if there is no host.
fn first_join(hosts: &[Address]) -> Option<u64>
    ensures { result ≡ first_join hosts.now }
{
    if hosts.is_empty() { None } else { Some(0) }
}

/// Joins the hosts at a moment. Returns the moment from which on they are joined again; none if one of them answered.
fn join_hosts<R: Net + RoundClock, H: PointHash, A>(
    server: &Server<H, A>,
    member: &mut Member<'_, H, TcpLink<R>>,
    rt: &R,
    now: Moment,
) -> Option<u64>
    ensures joined { Makes member.old.node (JoinsAt now (hosts_of server.now.hosts) result) member.old.pass.now member.new.pass.now }
    ensures same { IsSame member.old member.new }
{
    let hosts = server.hosts();
    let asked = &hosts[..hosts.len().min(MAX_HOSTS)];
    match member.join(rt, asked, now) {
        Ok(_) => None,
        Err(_) => Some(now.number() + BETWEEN_JOINS),
    }
}

/// Joins the hosts if they are still to be joined, and the moment for it has come after that of the last round. Returns the
/// moment of the next join; none if there is to be none.
fn join_if_due<R: Net + RoundClock, H: PointHash, A>(
    server: &Server<H, A>,
    member: &mut Member<'_, H, TcpLink<R>>,
    rt: &R,
    last: Moment,
    due: Option<u64>,
) -> Option<u64>
    ensures joined { Makes member.old.node (JoinsIfDue R.times (hosts_of server.now.hosts) last due result) member.old.pass.now member.new.pass.now }
    ensures same { IsSame member.old member.new }
{
    let moment = due?;
    let now = rt.moment(&server.stopwatch, last);
    if now.number() < moment {
        return due;
    }
    join_hosts(server, member, rt, now)
}

/// Makes rounds alone until the server ends, and joins its hosts, over a link with its own limits.
fn make_rounds_over<R: Net + RoundClock, H: PointHash, A>(
    server: &Server<H, A>,
    member: &mut Member<'_, H, TcpLink<R>>,
    rt: &R,
    period: u64,
)
    requires { limits_of member.old.link.now ≡ server.now.timeouts.links }
    ensures made { Makes member.old.node (AreRounds R.times period (hosts_of server.now.hosts) None) member.old.pass.now member.new.pass.now }
    ensures same { IsSame member.old member.new }
{
    let first = first_join(server.hosts());
    let mut last = Moment::beginning();
    let mut due = join_if_due(server, member, rt, last, first);
    for _ in rt.forever() {
        if !rt.rest(server, last, period) {
            return;
        }
        let now = rt.moment(&server.stopwatch, last);
        let _round = member.round(rt, now);
        due = join_if_due(server, member, rt, now, due);
        last = now;
    }
}

/// Makes rounds that correct their targets until the server ends, heals after each as the plan says, and joins the server's
/// hosts, over a link with its own limits.
fn make_healing_rounds_over<R: Net + RoundClock, H: PointHash, A>(
    server: &Server<H, A>,
    plan: &HealingPlan,
    member: &mut Member<'_, H, TcpLink<R>>,
    rt: &R,
    period: u64,
)
    requires { limits_of member.old.link.now ≡ server.now.timeouts.links }
    ensures made { Makes member.old.node (AreRounds R.times period (hosts_of server.now.hosts) (Some plan.now)) member.old.pass.now member.new.pass.now }
    ensures same { IsSame member.old member.new }
{
    let mut healing = Healing::new(plan.own, plan.hosts.as_slice());
    let start = first_join(server.hosts());
    let mut last = Moment::beginning();
    let mut due = join_if_due(server, member, rt, last, start);
    for _ in rt.forever() {
        if !rt.rest(server, last, period) {
            return;
        }
        let now = rt.moment(&server.stopwatch, last);
        let _made = member.correcting_round(rt, now);
        let _healed = member.heal(rt, &mut healing, now);
        due = join_if_due(server, member, rt, now, due);
        last = now;
    }
}

/// Makes rounds until the server ends, with healing after each if the server has a plan for that, over a link with its own
/// limits.
fn make_rounds_by_plan<R: Net + RoundClock, H: PointHash, A>(
    server: &Server<H, A>,
    member: &mut Member<'_, H, TcpLink<R>>,
    rt: &R,
    period: u64,
)
    requires { limits_of member.old.link.now ≡ server.now.timeouts.links }
    ensures made { Makes member.old.node (AreRounds R.times period (hosts_of server.now.hosts) server.now.healing) member.old.pass.now member.new.pass.now }
    ensures same { IsSame member.old member.new }
{
    match &server.healing {
        Some(plan) => make_healing_rounds_over(server, plan, member, rt, period),
        None => make_rounds_over(server, member, rt, period),
    }
}

/// Makes rounds until the server ends, each `period` milliseconds after the one before has ended, and never sooner. After
/// each it heals, if the server has a plan for that. If the server has hosts to join, they are joined at once, and between two
/// rounds again, not sooner than a second after the time before, until one of them has answered by a Joined. A round or a join
/// that fails does not end them.
pub fn make_rounds<R: Net + RoundClock + Copy, H: PointHash, A>(
    server: &Server<H, A>,
    pass: &mut NodePass<H>,
    rt: &R,
    alloc: Global,
    period: u64,
)
    requires { Fits server.now.node pass.old }
    ensures made { Makes server.now.node (AreRounds R.times period (hosts_of server.now.hosts) server.now.healing) pass.old pass.new }
    ensures fits { Fits server.now.node pass.new }
{
    let mut link = TcpLink::with_limits(*rt, server.timeouts.links);
    let mut member = Member::new(&server.node, pass, &mut link, alloc);
    make_rounds_by_plan(server, &mut member, rt, period);
    let _pass = member.into_pass();
}
