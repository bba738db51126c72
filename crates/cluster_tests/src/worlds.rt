//! Three nodes over a link that loses, repeats and holds back messages, by a seed; some of the nodes start again. No
//! node holds of another what that one has not asserted of itself, and once all is passed on to all they hold the same.
//! Each thing that may happen happens in each world. A helper returns None or false if an allocation failed; the world
//! is then played again, once.
ghost use Rattle.std.specs.Prelude.{IfSome};
ghost use Rattle.locked_node.specs.Passes.{Fits};

use crate::fakes::{Fake, Mood, WILLING};
use crate::messages::{member, moment};
use crate::nodes::{answer_in, config, created};
use crate::shared::{Caller, Host, Shared, again, try_share};
use change_core::{Address, Change, Incarnation, Moment, Status};
use hash_ring::SumHash;
use node_core::{Config, NodeState, Received};
use peer_core::{ClusterError, Link, LinkError, Round, gossip_round, join, serve_one};
use rand_core::{Rng, SeedableRng};
use rand_pcg::Pcg32;
use std::alloc::Global;
use std::process::Abort;
use std::sync::Wait;
use wire_json::{Message, decode, encode};

/// A message that is held back, as its line.
#[derive(Drop)]
struct Held {
    to: Address,
    line: Vec<u8>,
}

/// What may happen in a world.
#[derive(Clone, Copy)]
enum Happening {
    /// A message was lost.
    Lost,
    /// A message that had been held back had an answer.
    Late,
    /// A message had an answer, and the answer was lost.
    Unheard,
    /// A message had two answers.
    Repeated,
    /// A message between a helper and a target was lost.
    LostByHelper,
    /// A node started again, and another admitted it.
    Restarted,
    Left,
    Returned,
    Reached,
    Suspected,
    Inconclusive,
    /// A node received a wrong change about itself, and refuted it.
    Refuted,
    /// A node holds another as a tombstone.
    Buried,
}

/// The nodes that make no call just now, what is on its way between them, what each has said of itself, and what happened.
#[derive(Drop)]
struct World {
    alloc: Global,
    nodes: Vec<NodeState<SumHash>>,
    held: Vec<Held>,
    said: Vec<Change>,
    /// Whether each of what may happen has happened.
    happened: [bool; Happening::Buried as usize + 1],
    /// Whether an allocation failed, or a message came of one who never said anything of itself.
    is_starved: bool,
    dice: Pcg32,
    now: Moment,
}

impl World {
    fn happens(&mut self, what: Happening) {
        if let Some(has_happened) = self.happened.get_mut(what as usize) {
            *has_happened = true;
        }
    }

    /// Takes the node of an address out, to make a call.
    fn call_away(&mut self, address: Address) -> Option<NodeState<SumHash>> {
        for i in 0..self.nodes.len() {
            if self.nodes[i].own().address == address {
                return Some(self.nodes.remove(i));
            }
        }
        None
    }

    /// Puts a node back, and notes its own entry.
    fn come_back(&mut self, node: NodeState<SumHash>) {
        self.say(node.own());
        if self.nodes.push(node).ok().is_none() {
            self.is_starved = true;
        }
    }

    /// Notes an entry that a member asserts of itself.
    fn say(&mut self, change: Change) {
        if !self.said.contains(&change) && self.said.push(change).is_err() {
            self.is_starved = true;
        }
    }

    /// What a member said of itself last for the first time.
    fn last(&self, address: Address) -> Option<Change> {
        let mut last = None;
        for change in &self.said {
            if change.address == address {
                last = Some(*change);
            }
        }
        last
    }

    /// Notes a member's own entry in a message that it has made: its last one, at the incarnation that the message
    /// names.
    fn note(&mut self, message: &Message) {
        let incarnation = message.source_incarnation;
        if let Some(last) = self.last(message.source) {
            self.say(Change {
                incarnation,
                ..last
            });
        } else {
            self.is_starved = true;
        }
    }

    /// Holds a message back, or loses it if an allocation failed.
    fn hold(&mut self, to: Address, message: &Message) {
        if let Ok(line) = encode(self.alloc, message) {
            let _held = self.held.push(Held { to, line }).ok();
        }
    }
}

/// A node that is shared by one pass of 99 turns, its pass, and the list that the pass came in.
fn lock(alloc: Global, node: NodeState<SumHash>) -> Option<(Shared, Caller, Vec<Caller>)>
    ensures { IfSome result (λ r. Fits r.0 r.1) }
{
    let (shared, mut passes) = try_share(alloc, node, 1, 99)?;
    let pass = passes.pop()?;
    Some((shared, pass, passes))
}

/// The node again, when its one pass is back in its list.
fn unlock(shared: Shared, pass: Caller, passes: Vec<Caller>) -> Option<NodeState<SumHash>>
    requires { Fits shared pass }
{
    let mut passes = passes;
    passes.clear();
    passes.push(pass).ok()?;
    shared.close(passes).ok()
}

/// What a node answers to a message, and the node after it.
fn serve_by<L: Link>(
    rt: &impl Wait,
    alloc: Global,
    node: NodeState<SumHash>,
    link: &mut L,
    now: Moment,
    message: &Message,
) -> Option<(NodeState<SumHash>, Message)> {
    let (shared, mut pass, passes) = lock(alloc, node)?;
    let mut asks = &WILLING;
    let answer = serve_one(rt, alloc, &shared, &mut pass, link, &mut asks, now, message);
    unlock(shared, pass, passes).zip(answer.ok())
}

/// What the node of an address answers, if it is there; it reaches no other.
fn answer_near(
    rt: &impl Wait,
    world: &mut World,
    to: Address,
    message: &Message,
) -> Option<Message> {
    let node = world.call_away(to)?;
    let (alloc, now) = (world.alloc, world.now);
    let mut nobody = Fake::new(Mood::Broken, Mood::Broken);
    let (node, answer) = serve_by(rt, alloc, node, &mut nobody, now, message)?;
    world.come_back(node);
    Some(answer)
}

/// How a helper reaches a target: one message in four is lost.
#[derive(Drop)]
struct Near<'a> {
    world: &'a mut World,
    failures: u64,
}

impl<'a> Link for Near<'a> {
    ghost may_answer = { λ _ _ _. Unit {0} };

    ghost went = { λ _ _ _ _ _. Unit {0} };

    ghost failed = { λ l. l.failures };

    fn failures(&self) -> u64 {
        self.failures
    }

    fn call<R: Wait>(
        &mut self,
        rt: &R,
        _alloc: Global,
        to: Address,
        message: &Message,
    ) -> Result<Message, LinkError> {
        if self.failures == u64::MAX {
            return Err(LinkError::Spent);
        }
        self.world.note(message);
        if self.world.dice.next_u32() % 4 == 0 {
            self.world.happens(Happening::LostByHelper);
        } else if let Some(answer) = answer_near(rt, self.world, to, message) {
            return Ok(answer);
        }
        self.failures += 1;
        Err(LinkError::Io)
    }
}

/// What the node of an address answers, if it is there; it reaches others in turn.
fn answer_far(
    rt: &impl Wait,
    world: &mut World,
    to: Address,
    message: &Message,
) -> Option<Message> {
    let node = world.call_away(to)?;
    let before = node.own();
    let (alloc, now) = (world.alloc, world.now);
    let mut near = Near {
        world: &mut *world,
        failures: 0,
    };
    let (node, answer) = serve_by(rt, alloc, node, &mut near, now, message)?;
    if node.own() != before {
        world.happens(Happening::Refuted);
    }
    world.come_back(node);
    Some(answer)
}

/// What comes of a message: it is lost, held back, answered in vain, answered twice, or answered.
fn deliver(rt: &impl Wait, world: &mut World, to: Address, message: &Message) -> Option<Message> {
    match world.dice.next_u32() % 8 {
        0 => world.happens(Happening::Lost),
        1 => world.hold(to, message),
        2 => {
            drop(answer_far(rt, world, to, message));
            world.happens(Happening::Unheard);
        }
        3 => {
            drop(answer_far(rt, world, to, message));
            world.happens(Happening::Repeated);
            return answer_far(rt, world, to, message);
        }
        _ => return answer_far(rt, world, to, message),
    }
    None
}

/// The link of whoever makes rounds and joins.
#[derive(Drop)]
struct Far<'a> {
    world: &'a mut World,
    failures: u64,
}

impl<'a> Link for Far<'a> {
    ghost may_answer = { λ _ _ _. Unit {0} };

    ghost went = { λ _ _ _ _ _. Unit {0} };

    ghost failed = { λ l. l.failures };

    fn failures(&self) -> u64 {
        self.failures
    }

    fn call<R: Wait>(
        &mut self,
        rt: &R,
        _alloc: Global,
        to: Address,
        message: &Message,
    ) -> Result<Message, LinkError> {
        if self.failures == u64::MAX {
            return Err(LinkError::Spent);
        }
        self.world.note(message);
        if let Some(answer) = deliver(rt, self.world, to, message) {
            return Ok(answer);
        }
        self.failures += 1;
        Err(LinkError::Io)
    }
}

/// Notes how a round ended.
fn note_round(world: &mut World, round: Result<Round, ClusterError>) {
    match round {
        Ok(Round::Idle) => {}
        Ok(Round::Reached(_)) => world.happens(Happening::Reached),
        Ok(Round::Suspected(_)) => world.happens(Happening::Suspected),
        Ok(Round::Inconclusive(_)) => world.happens(Happening::Inconclusive),
        Err(_) => world.is_starved = true,
    }
}

/// A round of a node by way of this world, or a join with all three addresses, its own among them.
fn go_far(rt: &impl Host, shared: &Shared, pass: &mut Caller, world: &mut World, joins: bool)
    requires { Fits shared.now pass.old }
    ensures { Fits shared.now pass.new }
{
    let now = world.now;
    let mut link = Far {
        world: &mut *world,
        failures: 0,
    };
    if joins {
        let all = [member(rt, 1), member(rt, 2), member(rt, 3)];
        let joined = join(rt, rt.alloc(), shared, pass, &mut link, &all, now);
        if joined.is_ok() {
            world.happens(Happening::Restarted);
        }
    } else {
        let round = gossip_round(rt, rt.alloc(), shared, pass, &mut link, now);
        note_round(world, round);
    }
}

/// The node after it.
fn go_by(
    rt: &impl Host,
    node: NodeState<SumHash>,
    world: &mut World,
    joins: bool,
) -> Option<NodeState<SumHash>> {
    let (shared, mut pass, passes) = lock(rt.alloc(), node)?;
    go_far(rt, &shared, &mut pass, world, joins);
    unlock(shared, pass, passes)
}

/// One message that was held back comes, perhaps.
fn release(rt: &impl Host, world: &mut World) {
    if world.dice.next_u32() % 2 == 0 {
        return;
    }
    let Some(held) = world.held.pop() else {
        return;
    };
    if let Ok(message) = decode(rt.alloc(), held.line.as_slice()) {
        drop(answer_far(rt, world, held.to, &message));
        world.happens(Happening::Late);
    }
}

/// A configuration by which a suspect is faulty after a second, and a tombstone after two more.
fn hasty() -> Config {
    let mut hasty = config(4096);
    hasty.suspect_ms = 1_000;
    hasty.faulty_ms = 2_000;
    hasty
}

/// Leaves, or comes back.
fn turn_round(world: &mut World, node: &mut NodeState<SumHash>) {
    let turned = if node.own().status == Status::Leave {
        world.happens(Happening::Returned);
        node.rejoin()
    } else {
        world.happens(Happening::Left);
        node.leave()
    };
    if turned.is_err() {
        world.is_starved = true;
    }
}

/// Whether a node holds one of the others as a tombstone.
fn has_buried(world: &World, node: &NodeState<SumHash>) -> bool {
    for other in &world.nodes {
        if let Some(entry) = node.member(other.own().address) {
            if entry.status == Status::Tombstone {
                return true;
            }
        }
    }
    false
}

/// The node after it started again, at the incarnation after its last, and joined; None if an allocation failed.
fn start_anew(
    rt: &impl Host,
    number: u8,
    old: NodeState<SumHash>,
    world: &mut World,
) -> Option<NodeState<SumHash>> {
    let next = old.own().incarnation.next().expect(rt, "an incarnation");
    drop(old);
    let seed = world.dice.next_u64();
    let node = created(rt, number, &hasty(), next, seed, world.now);
    world.say(node.own());
    go_by(rt, node, world, true)
}

/// A node after its step: it starts again and joins, leaves or comes back, or makes a round.
fn moved(
    rt: &impl Host,
    number: u8,
    node: NodeState<SumHash>,
    world: &mut World,
) -> Option<NodeState<SumHash>> {
    match world.dice.next_u32() % 64 {
        0 => start_anew(rt, number, node, world),
        1 => {
            let mut node = node;
            turn_round(world, &mut node);
            Some(node)
        }
        _ => go_by(rt, node, world, false),
    }
}

/// One step of a node; None if an allocation failed.
fn step(rt: &impl Host, world: &mut World, number: u8) -> Option<()> {
    world.now = moment(rt, world.now.number().wrapping_add(200));
    release(rt, world);
    let node = world.call_away(member(rt, number))?;
    let node = moved(rt, number, node, world)?;
    if has_buried(world, &node) {
        world.happens(Happening::Buried);
    }
    world.come_back(node);
    Some(())
}

/// Whether one node's entry of another is no newer than that other, and was asserted by it: the entry itself if it is
/// alive or has left, and else as alive.
fn is_founded(world: &World, one: &NodeState<SumHash>, other: &NodeState<SumHash>) -> bool {
    let own = other.own();
    let Some(entry) = one.member(own.address) else {
        return true;
    };
    let status = match entry.status {
        Status::Leave => Status::Leave,
        _ => Status::Alive,
    };
    let change = Change {
        address: own.address,
        incarnation: entry.incarnation,
        status,
        weight: entry.weight,
    };
    entry.incarnation <= own.incarnation && world.said.contains(&change)
}

/// Whether that holds of each two nodes.
fn are_founded(world: &World) -> bool {
    for one in &world.nodes {
        for other in &world.nodes {
            if !is_founded(world, one, other) {
                return false;
            }
        }
    }
    true
}

/// How many changes of an answer altered an entry; none where that was not taken.
fn applied(received: Received) -> Option<usize> {
    let applied = match &received {
        Received::Done(taken) => Some(taken.applied),
        _ => None,
    };
    drop(received);
    applied
}

/// What a node makes of a message, which is let go; None if there is no such node.
fn receive(world: &mut World, at: usize, message: Message) -> Option<Received> {
    let now = world.now;
    let received = match world.nodes.get_mut(at) {
        Some(node) => Some(node.receive(&message, now)),
        None => None,
    };
    drop(message);
    received
}

/// All that a node holds, as it answers a join of another; None if an allocation failed.
fn joined_by(world: &mut World, from: usize, to: usize) -> Option<Message> {
    let join = world.nodes.get(to)?.join_message().ok()?;
    answer_in(receive(world, from, join)?)
}

/// Has a node take all that another holds: how many changes altered an entry; None if an allocation failed.
fn synchronise(world: &mut World, from: usize, to: usize) -> Option<usize> {
    let joined = joined_by(world, from, to)?;
    applied(receive(world, to, joined)?)
}

/// Synchronises each two nodes once: whether that altered anything.
fn mingle(world: &mut World) -> Option<bool> {
    let mut altered = false;
    for from in 0..3 {
        for to in 0..3 {
            if from != to && synchronise(world, from, to)? != 0 {
                altered = true;
            }
        }
    }
    Some(altered)
}

/// Whether all nodes hold the same.
fn agree(world: &World) -> Option<bool> {
    let first = world.nodes.first()?.digest().ok()?;
    for node in &world.nodes {
        if node.digest().ok()? != first {
            return Some(false);
        }
    }
    Some(true)
}

/// Three nodes that know no other.
fn begin(rt: &impl Host, seed: u64) -> World {
    let mut world = World {
        alloc: rt.alloc(),
        nodes: Vec::new(rt.alloc()),
        held: Vec::new(rt.alloc()),
        said: Vec::new(rt.alloc()),
        happened: [false; Happening::Buried as usize + 1],
        is_starved: false,
        dice: Pcg32::seed_from_u64(seed),
        now: moment(rt, 0),
    };
    let first = Incarnation::new(7).expect(rt, "an incarnation");
    for number in 1..4 {
        let node = created(rt, number, &hasty(), first, seed, world.now);
        world.come_back(node);
    }
    world
}

/// Checks that a world is not wrong so, at a step.
fn check(rt: &impl Abort, is_right: bool, seed: u64, at: u32, wrong: &str) {
    assert!(rt; is_right, "seed {seed}, step {at}: {wrong}");
}

/// Synchronises until nothing is altered: whether all then hold the same; None if an allocation failed.
fn come_to_agree(world: &mut World) -> Option<bool> {
    for _ in 0..9 {
        if !mingle(world)? {
            break;
        }
    }
    agree(world)
}

/// Makes 1,100 steps, checks after each that no node holds what was not asserted, checks that everything happened, and then
/// that all agree; None if an allocation failed.
fn play(rt: &impl Host, world: &mut World, seed: u64) -> Option<()> {
    for at in 0..1_100u32 {
        step(rt, world, (at % 3) as u8 + 1)?;
        if world.is_starved || world.nodes.len() != 3 {
            return None;
        }
        let is_founded = are_founded(world);
        check(rt, is_founded, seed, at, "an entry that nobody said");
    }
    let all_happened = !world.happened.contains(&false);
    check(rt, all_happened, seed, 1_100, "too little happened");
    let agreed = come_to_agree(world)?;
    check(rt, agreed, seed, 1_100, "the digests differ");
    Some(())
}

/// The same of a new world.
fn run(rt: &impl Host, seed: u64) -> Option<()> {
    let mut world = begin(rt, seed);
    let done = play(rt, &mut world, seed);
    drop(world);
    done
}

/// Three nodes over a link that loses, repeats and holds back messages, 1,100 steps for each of three seeds, in which nodes also leave,
/// come back and start again at greater incarnations: after each step no node holds another at an incarnation above its own, and what it
/// holds of it was said by it; of an entry that is suspect, faulty or a tombstone, that the member is alive was. In each world messages,
/// answers and messages of helpers are lost, messages come late and twice, nodes start again, leave, come back and refute, one is held as
/// a tombstone, and rounds end as reached, as suspected and as inconclusive. After full synchronisations the digests are equal.
#[test]
fn nobody_holds_what_was_not_said(rt: HostRuntime) {
    for seed in 1..4 {
        assert!(&rt; again!(&rt, run(&rt, seed).is_some()));
    }
}
