//! The nodes of a cluster, and what happens there, step by step. What memory refuses is tried again.
use crate::node::reconciling::all_of;
use crate::shared::{
    A, B, C, D, E, F, Host, Ip, Row, address, check_refused, found, hear, incarnation, made,
    moment, node, put, vec_of,
};
use change_core::{Change, Status};
use hash_ring::SumHash;
use message_core::{Content, Message};
use node_core::{NodeLost, NodeState, Received};
use std::process::Abort;

type Node = NodeState<SumHash>;

/// The nodes of a cluster, the first of them or all, each at incarnation 1.
const MEMBERS: [Ip; 5] = [A, B, C, D, E];

/// How many messages a story has at most.
const MOST_MESSAGES: usize = 6;

/// How many changes are counted at most.
const MOST_CHANGES: usize = 18;

/// What a node does with another.
#[derive(Clone, Copy)]
pub(crate) enum Deed {
    /// It takes all that the other holds.
    Take,
    /// It pings the other, and takes its ack.
    Ping,
    /// The same after two pings in vain: the first is lost, and the ack of the second.
    PingThrice,
}

/// What happens in a cluster. Nodes are numbered from 0.
#[derive(Clone, Copy)]
pub(crate) enum Step {
    /// The first node takes all that the second holds.
    Takes(usize, usize),
    /// Every node does this with every other, this many times.
    Everyone(usize, Deed),
    /// The first node joins the second, and both take all that the other tells.
    Joins(usize, usize),
    /// The first node answers a Join of the second by all that it holds: by the message of the next number, from 0.
    Tells(usize, usize),
    /// A node receives the message of this number.
    Receives(usize, usize),
    /// This many different entries are held. Of them and of what the nodes answer to those about themselves this many are news to a node; and it
    /// has this many changes to pass on.
    Counts(usize, usize, usize, usize),
    /// A node receives a rumour.
    Hears(usize, Row),
    /// A node probes its only member, which does not answer.
    Suspects(usize),
    /// What is due at a node at this moment.
    Expires(usize, u64),
    Leaves(usize),
    Rejoins(usize),
    /// A node starts again at this incarnation; it holds itself alone.
    Restarts(usize, u64),
    /// A node holds these members.
    Holds(usize, &'static str),
    /// Every node does.
    AllHold(&'static str),
    /// No node does.
    NoneHolds(&'static str),
    /// A node holds this entry.
    HoldsEntry(usize, Row),
    /// A node names this member as no key's owner.
    NamesNever(usize, Ip),
}

/// The node of a number.
macro_rules! at {
    ($rt:expr, $nodes:expr, $at:expr) => {
        $nodes.get_mut($at).expect($rt, "a node")
    };
}

/// One node takes all that another holds.
fn take_all(rt: &impl Host, nodes: &mut [Node], taker: usize, giver: usize) {
    let giver = nodes.get(giver).expect(rt, "a giver");
    let (told, now) = (found!(rt, all_of(rt.alloc(), giver)), moment(rt, 1));
    let taker = at!(rt, nodes, taker);
    made!(rt, taker.take(told.as_slice(), now));
}

/// The result of receiving a message. Where memory stopped it, it comes once more.
fn receive(rt: &impl Host, node: &mut Node, message: &Message) -> Received {
    let now = moment(rt, 1);
    match node.receive(message, now) {
        Received::Stopped(_) | Received::NoAnswer(_) => {
            check_refused(rt);
            node.receive(message, now)
        }
        received => received,
    }
}

/// The answer of a node to a ping or a Join.
fn answer(rt: &impl Host, node: &mut Node, asked: &Message) -> Message {
    let Received::Answer(_, answer) = receive(rt, node, asked) else {
        panic!(rt; "an answer")
    };
    answer
}

/// A node takes an answer.
fn take_answer(rt: &impl Host, node: &mut Node, answer: &Message) {
    let done = receive(rt, node, answer);
    assert!(rt; matches!(&done, Received::Done(_)));
}

/// All that a node holds, as its answer to a Join of another.
fn told(rt: &impl Host, nodes: &mut [Node], teller: usize, asker: usize) -> Message {
    let asker = at!(rt, nodes, asker);
    let join = made!(rt, asker.join_message());
    answer(rt, at!(rt, nodes, teller), &join)
}

/// What becomes of a ping.
#[derive(Clone, Copy)]
enum Fate {
    PingLost,
    AckLost,
    Acknowledged,
}

/// One node pings another, and takes its ack if that comes.
fn ping(rt: &impl Host, nodes: &mut [Node], pinger: usize, pinged: usize, fate: Fate) {
    let target = nodes.get(pinged).expect(rt, "a target").own().address;
    let caller = at!(rt, nodes, pinger);
    let message = made!(rt, caller.ping_to(target));
    if matches!(fate, Fate::PingLost) {
        return;
    }
    let ack = answer(rt, at!(rt, nodes, pinged), &message);
    if matches!(fate, Fate::Acknowledged) {
        take_answer(rt, at!(rt, nodes, pinger), &ack);
    }
}

fn act(rt: &impl Host, nodes: &mut [Node], deed: Deed, one: usize, other: usize) {
    match deed {
        Deed::Take => take_all(rt, nodes, one, other),
        Deed::Ping => ping(rt, nodes, one, other, Fate::Acknowledged),
        Deed::PingThrice => {
            ping(rt, nodes, one, other, Fate::PingLost);
            ping(rt, nodes, one, other, Fate::AckLost);
            ping(rt, nodes, one, other, Fate::Acknowledged);
        }
    }
}

/// Every node does this with every other, this many times.
fn all_act(rt: &impl Host, nodes: &mut [Node], times: usize, deed: Deed) {
    for _ in 0..times {
        for one in 0..nodes.len() {
            for other in 0..nodes.len() {
                if other != one {
                    act(rt, nodes, deed, one, other);
                }
            }
        }
    }
}

/// Puts a change into a list that has room for it, if it is not there.
fn note(rt: &impl Abort, list: &mut Vec<Change>, change: Change) {
    if !list.contains(&change) {
        put(rt, list, change);
    }
}

/// Puts all that a node holds into a list.
fn note_held(rt: &impl Host, list: &mut Vec<Change>, node: &Node) {
    let members = made!(rt, node.members());
    for change in members.as_slice() {
        note(rt, list, *change);
    }
}

/// Puts what a node answers to an entry into a list, if the entry is about itself and wrong.
fn note_answer(rt: &impl Abort, list: &mut Vec<Change>, node: &Node, heard: Change) {
    let own = node.own();
    if heard.address == own.address && heard.status != own.status {
        let incarnation = heard.incarnation.next().expect(rt, "one more");
        note(rt, list, Change { incarnation, ..own });
    }
}

/// Puts what a node answers to the first entries of a list, this many, into the list.
fn note_answers(rt: &impl Abort, list: &mut Vec<Change>, node: &Node, entries: usize) {
    for place in 0..entries {
        let heard = *list.get(place).expect(rt, "an entry");
        note_answer(rt, list, node, heard);
    }
}

/// The different entries that nodes hold, and behind them what the nodes answer to those about themselves; and how many entries there are.
fn changes_of(rt: &impl Host, nodes: &[Node]) -> (Vec<Change>, usize) {
    let mut list = vec_of(rt, MOST_CHANGES);
    for node in nodes {
        note_held(rt, &mut list, node);
    }
    let entries = list.len();
    for node in nodes {
        note_answers(rt, &mut list, node, entries);
    }
    (list, entries)
}

/// Whether a change would alter what a node holds.
fn is_news(node: &Node, change: &Change) -> bool {
    let Some(entry) = node.member(change.address) else {
        return true;
    };
    change.overrides(&Change {
        address: change.address,
        incarnation: entry.incarnation,
        status: entry.status,
        weight: entry.weight,
    })
}

/// How many different entries are held, how many changes are news to a node, and how many it has to pass on to one that said none of them.
fn counts(rt: &impl Host, nodes: &mut [Node], at: usize) -> (usize, usize, usize) {
    let (changes, entries) = changes_of(rt, nodes);
    let node = at!(rt, nodes, at);
    let mut news: usize = 0;
    for change in changes.as_slice() {
        if is_news(node, change) {
            news = news.saturating_add(1);
        }
    }
    let stranger = address(rt, F);
    let ping = made!(rt, node.ping_to(stranger));
    let pending = match &ping.content {
        Content::Ping(news) => news.changes.as_slice().len(),
        _ => 0,
    };
    (entries, news, pending)
}

/// A node probes its only member, which does not answer.
fn suspect(rt: &impl Host, node: &mut Node) {
    let probe = made!(rt, node.probe()).expect(rt, "a member");
    let now = moment(rt, 1);
    let verdict = made!(rt, node.lost(probe.number, now));
    assert!(rt; matches!(&verdict, NodeLost::Suspect(Some(_))));
}

/// Whether a node holds these members.
pub(crate) fn holds(rt: &impl Host, node: &Node, members: &str) -> bool {
    let text = made!(rt, node.digest_text());
    text.as_str() == members
}

/// Checks what a node holds of a member.
fn check_entry(rt: &impl Abort, node: &Node, row: Row) {
    let (ip, number, status) = row;
    let entry = node.member(address(rt, ip)).expect(rt, "an entry");
    assert!(rt; entry.status == status && entry.incarnation == incarnation(rt, number));
}

fn check_never_named(rt: &impl Abort, node: &Node, member: Ip) {
    let gone = address(rt, member);
    for first in 0..=u8::MAX {
        let owner = node.owner(&[first]).expect(rt, "an owner");
        assert!(rt; owner != gone);
    }
}

/// Checks that all of these nodes hold these members, or none does.
fn check_text(rt: &impl Host, nodes: &[Node], members: &str, is_held: bool) {
    for node in nodes {
        assert!(rt; holds(rt, node, members) == is_held);
    }
}

fn play(rt: &impl Host, nodes: &mut [Node], messages: &mut Vec<Message>, step: Step) {
    match step {
        Step::Takes(taker, giver) => take_all(rt, nodes, taker, giver),
        Step::Everyone(times, deed) => all_act(rt, nodes, times, deed),
        Step::Joins(joiner, host) => {
            let joined = told(rt, nodes, host, joiner);
            take_answer(rt, at!(rt, nodes, joiner), &joined);
        }
        Step::Tells(teller, asker) => put(rt, messages, told(rt, nodes, teller, asker)),
        Step::Receives(at, number) => {
            let message = messages.get(number).expect(rt, "a message");
            take_answer(rt, at!(rt, nodes, at), message);
        }
        Step::Counts(at, entries, news, pending) => {
            assert!(rt; counts(rt, nodes, at) == (entries, news, pending));
        }
        Step::Hears(at, row) => hear(rt, at!(rt, nodes, at), row, 0),
        Step::Suspects(at) => suspect(rt, at!(rt, nodes, at)),
        Step::Expires(at, now) => {
            made!(rt, at!(rt, nodes, at).expire(moment(rt, now)));
        }
        Step::Leaves(at) => {
            made!(rt, at!(rt, nodes, at).leave());
        }
        Step::Rejoins(at) => {
            made!(rt, at!(rt, nodes, at).rejoin());
        }
        Step::Restarts(at, incarnation) => {
            let own = *MEMBERS.get(at).expect(rt, "a member");
            *at!(rt, nodes, at) = node(rt, own, incarnation);
        }
        Step::Holds(at, members) => {
            assert!(rt; holds(rt, at!(rt, nodes, at), members));
        }
        Step::AllHold(members) => check_text(rt, nodes, members, true),
        Step::NoneHolds(members) => check_text(rt, nodes, members, false),
        Step::HoldsEntry(at, row) => check_entry(rt, at!(rt, nodes, at), row),
        Step::NamesNever(at, member) => check_never_named(rt, at!(rt, nodes, at), member),
    }
}

/// Plays the steps of these stories, one after another, with this many new nodes.
pub(crate) fn play_all(rt: &impl Host, count: usize, stories: &[&[Step]]) {
    let (mut nodes, mut messages) = (vec_of(rt, count), vec_of(rt, MOST_MESSAGES));
    for own in MEMBERS.iter().take(count) {
        put(rt, &mut nodes, node(rt, *own, 1));
    }
    for story in stories {
        for step in *story {
            play(rt, &mut nodes, &mut messages, *step);
        }
    }
}
