//! How members that parted find one another again.
ghost use Rattle.std.specs.Prelude.{◌≡◌, ◌<◌, ◌%◌, ◌==◌, ◌&&◌, ◌||◌, [], length, count_by, slice_get, Some, IfOk, IfErr};
ghost use Rattle.locked_node.specs.Passes.{Fits};
ghost use Rattle.node_core.specs.declared.events.Event.TheVariants as call;
ghost use Rattle.node_core.specs.declared.events.Reply.TheVariants as reply;
ghost use Rattle.peer_core.specs.Acts.{Makes};
ghost use Rattle.peer_core.specs.Errors.{IsHealRefusal};
ghost use Rattle.peer_core.specs.Exchanges.{Sent, SentAs, SendsByDraws, chosen_hosts, listed};
ghost use Rattle.peer_core.specs.Healing.{CarriesOut, Chooses, IsHealing, IsMeeting, JoinsChosen, MeetsChosen, after_round, can_meet, choice_of, chosen_host, chosen_member, heals_first, holds_serving, met_at};
ghost use Rattle.peer_core.specs.Parts.{Calls, Does, Tries};

use crate::asking::Peers;
use crate::errors::ClusterError;
use crate::joining::join_host;
use crate::links::Link;
use crate::meeting::meet;
use crate::steps::{find_own, list_members};
use change_core::{Address, Change, Moment, Status};
use hash_ring::PointHash;
use locked_node::{LockedNode, NodePass};
use rand_core::SeedableRng;
use rand_core::utils::NextWord;
use rand_pcg::Pcg32;
use std::alloc::Global;
use std::marker::Model;
use std::sync::Wait;

/// The number of rounds from one meeting to the next.
const ROUNDS: u64 = 10;

/// The state of healing between rounds, by which members that parted find one another again: after each tenth round the
/// node meets one member at random.
#[derive(Drop)]
pub struct Healing<'h> {
    hosts: &'h [Address],
    /// The rounds that are left before the next meeting.
    left: u64,
    rng: Pcg32,
}

impl<'h> Model for Healing<'h> {
    ghost use Rattle.std.specs.Prelude.{◌<◌};
    ghost use Rattle.peer_core.specs.Healing.{Heals};

    ghost Value = { Heals };

    ghost view = { λ h. record { hosts = h.hosts.now; left = h.left; generator = h.rng } };
}

impl<'h> Healing<'h> {
    /// Begins healing for the node of this address, which is the seed of its random choices. The first meeting comes after
    /// one of the first ten rounds, by the address, so that not all nodes of a cluster meet in one round. The hosts are
    /// addresses of other nodes, as those of a join; there may be none.
    pub fn new(own: Address, hosts: &'h [Address]) -> Self
        ensures { result ≡ heals_first own hosts.now }
    {
        let seed = own.number();
        Healing {
            hosts,
            left: seed % ROUNDS,
            rng: Pcg32::seed_from_u64(seed),
        }
    }

    /// Counts a round. After each tenth it draws the numbers of a meeting.
    fn after_round(&mut self) -> Option<Draws>
        ensures { (result, self.new) ≡ after_round self.old }
    {
        if self.left > 0 {
            self.left -= 1;
            return None;
        }
        self.left = ROUNDS - 1;
        let member = self.rng.next_word();
        let host = self.rng.next_word();
        Some(Draws { member, host })
    }
}

/// The numbers of a meeting, drawn one after the other: the first chooses the member and the second the host, so that
/// which member is met says nothing of the host.
#[derive(Clone, Copy)]
pub(crate) struct Draws {
    member: u32,
    host: u32,
}

/// The member that a node meets and the host that it joins, if any.
#[derive(Clone, Copy)]
pub(crate) struct Choice {
    member: Option<Address>,
    host: Option<Address>,
}

/// Returns whether a node may meet a member.
fn can_meet(own: Address, member: &Change) -> bool
    ensures { result ≡ can_meet own member.now }
{
    member.address != own && member.status.rank() < Status::Leave.rank()
}

/// Returns how many of the members a node may meet.
fn count_met(own: Address, members: &[Change]) -> usize
    ensures { result ≡ count_by (can_meet own) members.now }
{
    members
        .iter()
        .filter(|member| can_meet(own, member))
        .count()
}

/// Returns the member at a place of those that a node may meet.
fn met_at(own: Address, members: &[Change], place: usize) -> Option<Address>
    ensures { result ≡ met_at own members.now place }
{
    let mut left = place;
    for member in members {
        if can_meet(own, member) {
            if left == 0 {
                return Some(member.address);
            }
            left -= 1;
        }
    }
    None
}

/// Returns the member that a number chooses.
fn choose_member(own: Address, members: &[Change], number: u32) -> Option<Address>
    ensures { result ≡ chosen_member own members.now number }
{
    let count = count_met(own, members);
    if count == 0 {
        return None;
    }
    met_at(own, members, number as usize % count)
}

/// Returns whether a host is held as serving.
fn holds_serving(members: &[Change], host: Address) -> bool
    ensures { result ≡ holds_serving members.now host }
{
    members
        .iter()
        .any(|member| member.address == host && member.status.serving())
}

/// Returns the host that a number chooses.
fn choose_host(own: Address, members: &[Change], hosts: &[Address], number: u32) -> Option<Address>
    ensures { result ≡ chosen_host own members.now hosts.now number }
{
    if hosts.is_empty() {
        return None;
    }
    let host = hosts[number as usize % hosts.len()];
    if host == own || holds_serving(members, host) {
        return None;
    }
    Some(host)
}

/// Chooses by two numbers a member of those that the node holds, and one of the hosts.
fn choose<R: Wait, H: PointHash>(
    rt: &R,
    node: &LockedNode<H>,
    pass: &mut NodePass<H>,
    hosts: &[Address],
    draws: Draws,
) -> Result<Choice, ClusterError>
    requires { Fits node.now pass.old }
    ensures did { Does node.now (Chooses hosts.now draws) result pass.old pass.new }
    ensures fits { Fits node.now pass.new }
    ensures named { IfErr result IsHealRefusal }
{
    let own = find_own(rt, node, pass)?;
    let members = list_members(rt, node, pass)?;
    Ok(Choice {
        member: choose_member(own.address, members.as_slice(), draws.member),
        host: choose_host(own.address, members.as_slice(), hosts, draws.host),
    })
}

/// Meets the member, if there is one.
fn meet_chosen<R: Wait, H: PointHash, L: Link>(
    node: &LockedNode<H>,
    pass: &mut NodePass<H>,
    peers: &mut Peers<'_, R, L>,
    now: Moment,
    member: Option<Address>,
) -> Result<bool, ClusterError>
    requires { Fits node.now pass.old }
    ensures did { Does node.now (MeetsChosen L.may_answer now member) result pass.old pass.new }
    ensures sent { Sent L.went node.now (listed member) pass.old pass.new peers.old.link peers.new.link }
    ensures fits { Fits node.now pass.new }
{
    match member {
        Some(member) => meet(node, pass, peers, now, member),
        None => Ok(false),
    }
}

/// Joins the host, if there is one.
fn join_chosen<R: Wait, H: PointHash, L: Link>(
    node: &LockedNode<H>,
    pass: &mut NodePass<H>,
    peers: &mut Peers<'_, R, L>,
    now: Moment,
    host: Option<Address>,
) -> Result<bool, ClusterError>
    requires { Fits node.now pass.old }
    ensures did { Does node.now (JoinsChosen L.may_answer now host) result pass.old pass.new }
    ensures sent { Sent L.went node.now (listed host) pass.old pass.new peers.old.link peers.new.link }
    ensures fits { Fits node.now pass.new }
{
    match host {
        Some(host) => join_host(node, pass, peers, now, host),
        None => Ok(false),
    }
}

/// Meets the member and joins the host of a choice.
fn carry_out<R: Wait, H: PointHash, L: Link>(
    node: &LockedNode<H>,
    pass: &mut NodePass<H>,
    peers: &mut Peers<'_, R, L>,
    now: Moment,
    choice: &Choice,
) -> Result<bool, ClusterError>
    requires { Fits node.now pass.old }
    ensures did { Does node.now (CarriesOut L.may_answer now choice.now) result pass.old pass.new }
    ensures sent { Sent L.went node.now (chosen_hosts choice.now) pass.old pass.new peers.old.link peers.new.link }
    ensures fits { Fits node.now pass.new }
{
    meet_chosen(node, pass, peers, now, choice.member)?;
    join_chosen(node, pass, peers, now, choice.host)
}

/// Holds a meeting by its numbers.
fn meet_by<R: Wait, H: PointHash, L: Link>(
    node: &LockedNode<H>,
    pass: &mut NodePass<H>,
    peers: &mut Peers<'_, R, L>,
    now: Moment,
    hosts: &[Address],
    draws: Draws,
) -> Result<bool, ClusterError>
    requires { Fits node.now pass.old }
    ensures did { Does node.now (IsMeeting L.may_answer now hosts.now draws) result pass.old pass.new }
    ensures sent { SentAs (SendsByDraws L.went hosts.now (Some draws)) node.now pass.old pass.new peers.old.link peers.new.link }
    ensures fits { Fits node.now pass.new }
    ensures named { IfErr result IsHealRefusal }
{
    let choice = choose(peers.rt, node, pass, hosts, draws)?;
    carry_out(node, pass, peers, now, &choice)
}

/// Heals after a round: holds a meeting if it has numbers for one.
fn heal_by<R: Wait, H: PointHash, L: Link>(
    node: &LockedNode<H>,
    pass: &mut NodePass<H>,
    peers: &mut Peers<'_, R, L>,
    now: Moment,
    hosts: &[Address],
    draws: Option<Draws>,
) -> Result<bool, ClusterError>
    requires { Fits node.now pass.old }
    ensures did { Does node.now (IsHealing L.may_answer now hosts.now draws) result pass.old pass.new }
    ensures sent { SentAs (SendsByDraws L.went hosts.now draws) node.now pass.old pass.new peers.old.link peers.new.link }
    ensures fits { Fits node.now pass.new }
    ensures named { IfErr result IsHealRefusal }
{
    match draws {
        Some(draws) => meet_by(node, pass, peers, now, hosts, draws),
        None => Ok(false),
    }
}

/// Heals a cluster whose members parted; to be called after each round, at its moment. After each tenth round the node
/// pings one member, chosen at random from those that it holds as alive, suspect or faulty but itself, and processes its Ack; so
/// members that hold each other as faulty hear of each other again. If the Ack has another incarnation or status of the node than
/// its own entry, the member gets a Join, whose one change is that entry. Then the node sends a Join to one of the hosts,
/// chosen at random and independently of the member, if it does not hold that host as serving, and processes its Joined.
/// After the other rounds it does nothing. Returns whether a host answered by a Joined. The random choices are used up
/// also if there is an error. Rounds are best made by [`correcting_round`](crate::correcting_round), which corrects
/// members between the meetings.
///
/// # Errors
///
/// The effect of the calls before stays.
///
/// - `ForeignPass`: the pass has another node's name.
/// - `PassSpent`: the pass has made all its calls.
/// - `Memory`: the node or the link ran out of memory.
pub fn heal<R: Wait, H: PointHash, L: Link>(
    rt: &R,
    alloc: Global,
    node: &LockedNode<H>,
    pass: &mut NodePass<H>,
    link: &mut L,
    now: Moment,
    healing: &mut Healing<'_>,
) -> Result<bool, ClusterError>
    requires { Fits node.now pass.old }
    ensures healed { Does node.now (IsHealing L.may_answer now healing.old.hosts (after_round healing.old).0) result pass.old pass.new }
    ensures healing { healing.new ≡ (after_round healing.old).1 }
    ensures sent { Makes node.now (SendsByDraws L.went healing.old.hosts (after_round healing.old).0 link.old link.new) pass.old pass.new }
    ensures fits { Fits node.now pass.new }
    ensures named { IfErr result IsHealRefusal }
{
    let mut peers = Peers::new(rt, alloc, link);
    let hosts = healing.hosts;
    let draws = healing.after_round();
    heal_by(node, pass, &mut peers, now, hosts, draws)
}
