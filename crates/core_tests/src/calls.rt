//! The calls of a node and what it answers to them, as plain data, so that they are put into tables.
use crate::shared::{
    Host, Ip, Row, address, batch, change, incarnation, made, moment, news, put, vec_of,
};
// Names from `locked_node`, since its user names that crate alone.
use locked_node::{
    Address, Change, Changes, Content, Digest, Entry, Kind, Message, News, NodeError, NodeLost,
    NodeOutcome, Received, Running, Said, Sourced, Status, StopCause, Weight,
};
use node_core::{Event, KeyBytes, Reply};
use std::process::Abort;

/// A call of a node, at moment 0 if none is given.
#[derive(Clone, Copy)]
pub(crate) enum Call {
    /// Takes a change that its own member says, at a moment.
    Take(Row, u64),
    /// Takes a change that another says at its incarnation.
    TakeFrom(Ip, u64, Row),
    /// Takes a change with this weight that its own member says.
    TakeWeighty(Row, u8),
    /// Takes these as one batch, each said by its own member.
    TakeAll(&'static [Row]),
    /// Receives the Join of a member that is alive so, at a moment.
    Join(Row, u64),
    /// Receives a Ping without changes, of a member at an incarnation that has this digest.
    Ping(Ip, u64, &'static str),
    /// Makes a Join.
    MakeJoin,
    /// Makes a Ping to a member.
    MakePing(Ip),
    /// Makes a PingReq to a helper, of a target.
    MakePingReq(Ip, Ip),
    /// Makes a PingReqAck to who asked, of a target that was reached.
    MakePingReqAck(Ip, Ip),
    Leave,
    Rejoin,
    Expire(u64),
    Probe,
    Acked(u64),
    Lost(u64),
    HelperSaid(u64, Ip, Said),
    Running,
    Own,
    Member(Ip),
    Len,
    Owner(&'static str),
    Owners(&'static str, usize),
    Members,
    Text,
    Digest,
}

/// A change as a message carries it, and who said it at which incarnation.
pub(crate) type Carried = (Row, Ip, u64);

/// The reply to a call. A member that is not one of `10.0.0.n:1` is 0.
#[derive(Clone, Copy, PartialEq, Eq)]
pub(crate) enum Told<'a> {
    /// How many changes were applied, and how many of these refuted; a change that refutes one is not listed.
    Taken(usize, usize),
    /// After how many changes it stopped, and why.
    Stopped(usize, StopCause),
    /// How many changes were applied, and a message of this member and kind, with this many changes; these are the
    /// first.
    Message(usize, Ip, Kind, usize, [Option<Carried>; 3]),
    /// How many changes were applied, before it was out of memory for the answer.
    NoAnswer(usize),
    Refused(NodeError),
    /// A change with weight 1.
    Change(Row),
    /// A change with this weight.
    Weighty(Row, u8),
    Done,
    Nothing,
    /// A probe's number and target.
    Probe(u64, Ip),
    /// The number and target of the probe that runs, and the helper that it waits for.
    Running(u64, Ip, Option<Ip>),
    /// The entry of a member, with weight 1. Of another weight it counts as a change of none of these members.
    Held(u64, Status),
    Owner(Ip),
    /// How many members are named, and the first three.
    Named(usize, [Option<Ip>; 3]),
    /// Another helper has a word yet.
    Waiting,
    Reached,
    Inconclusive,
    Len(usize),
    /// How many members are held, and the first.
    Members(usize, Option<Row>),
    Text(&'a str),
    Digest([u8; 32]),
}

/// The name of an example, its calls, and the reply to each.
pub(crate) type Calls = (&'static str, &'static [(Call, Told<'static>)]);

fn key(rt: &impl Host, text: &str) -> KeyBytes {
    let mut bytes = vec_of(rt, text.len());
    for byte in text.as_bytes() {
        put(rt, &mut bytes, *byte);
    }
    KeyBytes::from_vec(bytes)
}

/// The call that processes one change.
fn taking(rt: &impl Host, given: Sourced, now: u64) -> Event {
    let (given, now) = ([given], moment(rt, now));
    Event::Take(made!(rt, Changes::from_slice(rt.alloc(), &given)), now)
}

/// The change with another node as its source, at an incarnation.
fn said_by(rt: &impl Abort, source: Ip, at: u64, row: Row) -> Sourced {
    Sourced {
        change: change(rt, row),
        source: address(rt, source),
        source_incarnation: incarnation(rt, at),
    }
}

/// The change with this weight.
fn weighty(rt: &impl Abort, row: Row, weight: u8) -> Sourced {
    let mut given = news(rt, row);
    given.change.weight = Weight::new(weight).expect(rt, "a weight");
    given
}

/// A message of a member at an incarnation.
fn message(rt: &impl Abort, source: Ip, at: u64, content: Content) -> Message {
    Message {
        source: address(rt, source),
        source_incarnation: incarnation(rt, at),
        content,
    }
}

/// The Join of a member.
fn join(rt: &impl Host, row: Row) -> Message {
    let (checksum, changes) = (Digest::new([0; 32]), batch(rt, &[row]));
    message(rt, row.0, row.1, Content::Join(News { checksum, changes }))
}

/// A Ping without changes.
fn ping(rt: &impl Host, source: Ip, at: u64, checksum: &str) -> Message {
    let checksum = Digest::parse(checksum).expect(rt, "a digest");
    let changes = batch(rt, &[]);
    message(rt, source, at, Content::Ping(News { checksum, changes }))
}

/// The making of a PingReq.
fn ping_req(rt: &impl Abort, helper: Ip, target: Ip) -> Event {
    Event::PingReqTo {
        helper: address(rt, helper),
        target: address(rt, target),
    }
}

/// The making of a PingReqAck.
fn ping_req_ack(rt: &impl Abort, requester: Ip, target: Ip) -> Event {
    Event::PingReqAckTo {
        requester: address(rt, requester),
        target: address(rt, target),
        reached: true,
    }
}

/// The event of a call.
pub(crate) fn event(rt: &impl Host, call: Call) -> Event {
    let start = moment(rt, 0);
    match call {
        Call::Take(row, now) => taking(rt, news(rt, row), now),
        Call::TakeFrom(source, at, row) => taking(rt, said_by(rt, source, at, row), 0),
        Call::TakeWeighty(row, weight) => taking(rt, weighty(rt, row, weight), 0),
        Call::TakeAll(rows) => Event::Take(batch(rt, rows), start),
        Call::Join(row, now) => Event::Receive(join(rt, row), moment(rt, now)),
        Call::Ping(source, at, checksum) => Event::Receive(ping(rt, source, at, checksum), start),
        Call::MakeJoin => Event::JoinMessage,
        Call::MakePing(target) => Event::PingTo(address(rt, target)),
        Call::MakePingReq(helper, target) => ping_req(rt, helper, target),
        Call::MakePingReqAck(requester, target) => ping_req_ack(rt, requester, target),
        Call::Leave => Event::Leave,
        Call::Rejoin => Event::Rejoin,
        Call::Expire(now) => Event::Expire(moment(rt, now)),
        Call::Probe => Event::Probe,
        Call::Acked(number) => Event::Acked(number),
        Call::Lost(number) => Event::Lost(number, start),
        Call::HelperSaid(number, helper, said) => Event::HelperSaid {
            number,
            helper: address(rt, helper),
            said,
            moment: start,
        },
        Call::Running => Event::Running,
        Call::Own => Event::Own,
        Call::Member(ip) => Event::Member(address(rt, ip)),
        Call::Len => Event::Len,
        Call::Owner(text) => Event::Owner(key(rt, text)),
        Call::Owners(text, count) => Event::Owners(key(rt, text), count),
        Call::Members => Event::Members,
        Call::Text => Event::DigestText,
        Call::Digest => Event::Digest,
    }
}

fn ip(address: Address) -> Ip {
    if address.port() == 1 { address.ip() } else { 0 }
}

fn row(change: &Change) -> Row {
    let incarnation = change.incarnation.number();
    (ip(change.address), incarnation, change.status)
}

/// The change, if it has weight 1.
fn light(change: &Change) -> Option<Row> {
    (change.weight.number() == 1).then_some(row(change))
}

fn changed(change: &Change) -> Told<'static> {
    match light(change) {
        Some(row) => Told::Change(row),
        None => Told::Weighty(row(change), change.weight.number()),
    }
}

/// What may have changed.
fn maybe(change: &Option<Change>) -> Told<'static> {
    match change {
        Some(change) => changed(change),
        None => Told::Nothing,
    }
}

/// The member at a place of a list.
fn named_at(list: &[Address], place: usize) -> Option<Ip> {
    Some(ip(*list.get(place)?))
}

fn named(list: &[Address]) -> Told<'static> {
    let first = [named_at(list, 0), named_at(list, 1), named_at(list, 2)];
    Told::Named(list.len(), first)
}

fn listed(list: &[Change]) -> Told<'static> {
    match list.first() {
        Some(first) => Told::Members(list.len(), light(first)),
        None => Told::Members(0, None),
    }
}

/// The change at a place of a message's, if it has weight 1.
fn news_at(list: &[Sourced], place: usize) -> Option<Carried> {
    let one = list.get(place)?;
    let row = light(&one.change)?;
    Some((row, ip(one.source), one.source_incarnation.number()))
}

/// The changes that a message of the membership carries.
fn carried(message: &Message) -> &[Sourced] {
    match &message.content {
        Content::Join(news) | Content::Joined(news) => news.changes.as_slice(),
        Content::Ping(news) | Content::Ack(news) => news.changes.as_slice(),
        Content::PingReq(news, _) => news.changes.as_slice(),
        Content::PingReqAck(news, _, _) => news.changes.as_slice(),
        _ => &[],
    }
}

fn sent(applied: usize, message: &Message) -> Told<'static> {
    let list = carried(message);
    let (source, kind) = (ip(message.source), message.content.kind());
    let first = [news_at(list, 0), news_at(list, 1), news_at(list, 2)];
    Told::Message(applied, source, kind, list.len(), first)
}

fn received(received: &Received) -> Told<'static> {
    match received {
        Received::Done(taken) => Told::Taken(taken.applied, taken.refuted),
        Received::Answer(taken, _) if taken.refuted > 0 => {
            Told::Taken(taken.applied, taken.refuted)
        }
        Received::Answer(taken, message) => sent(taken.applied, message),
        Received::NoAnswer(taken) => Told::NoAnswer(taken.applied),
        Received::Stopped(stopped) => Told::Stopped(stopped.taken, stopped.cause),
        Received::NotGossip => Told::Nothing,
    }
}

/// What an answer tells that may be a refusal.
macro_rules! unless_refused {
    ($answer:expr, $value:ident => $told:expr) => {
        match $answer {
            Ok($value) => $told,
            Err(fault) => Told::Refused(*fault),
        }
    };
}

fn lost(lost: &NodeLost) -> Told<'static> {
    match lost {
        NodeLost::Ask(helpers) => named(helpers.as_slice()),
        NodeLost::Suspect(change) => maybe(change),
    }
}

fn heard(outcome: &NodeOutcome) -> Told<'static> {
    match outcome {
        NodeOutcome::Waiting => Told::Waiting,
        NodeOutcome::Reached => Told::Reached,
        NodeOutcome::Inconclusive => Told::Inconclusive,
        NodeOutcome::Suspect(change) => maybe(change),
    }
}

fn running(probe: &Running) -> Told<'static> {
    let waiting = probe.waiting.map(|helper| ip(helper));
    Told::Running(probe.number, ip(probe.target), waiting)
}

fn held(entry: &Entry) -> Told<'static> {
    let incarnation = entry.incarnation.number();
    match entry.weight.number() {
        1 => Told::Held(incarnation, entry.status),
        weight => Told::Weighty((0, incarnation, entry.status), weight),
    }
}

/// What a reply tells; of a text no more than that it is one.
pub(crate) fn read(reply: &Reply) -> Told<'static> {
    match reply {
        Reply::Take(Ok(taken)) => Told::Taken(taken.applied, taken.refuted),
        Reply::Take(Err(stopped)) => Told::Stopped(stopped.taken, stopped.cause),
        Reply::Receive(what) => received(what),
        Reply::JoinMessage(made)
        | Reply::PingTo(made)
        | Reply::PingReqTo(made)
        | Reply::PingReqAckTo(made) => unless_refused!(made, message => sent(0, message)),
        Reply::Leave(own) | Reply::Rejoin(own) => unless_refused!(own, own => changed(own)),
        Reply::Expire(due) => unless_refused!(due, due => maybe(due)),
        Reply::Probe(Ok(Some(probe))) => Told::Probe(probe.number, ip(probe.target)),
        Reply::Probe(Ok(None)) => Told::Nothing,
        Reply::Probe(Err(fault)) => Told::Refused(*fault),
        Reply::Acked(ended) => unless_refused!(ended, _ended => Told::Done),
        Reply::Lost(what) => unless_refused!(what, what => lost(what)),
        Reply::HelperSaid(outcome) => unless_refused!(outcome, outcome => heard(outcome)),
        Reply::Running(Some(probe)) => running(probe),
        Reply::Running(None) | Reply::Member(None) | Reply::Owner(None) => Told::Nothing,
        Reply::Own(own) => changed(own),
        Reply::Member(Some(entry)) => held(entry),
        Reply::Len(count) => Told::Len(*count),
        Reply::Owner(Some(owner)) => Told::Owner(ip(*owner)),
        Reply::Owners(owners) => unless_refused!(owners, owners => named(owners.as_slice())),
        Reply::Members(list) => unless_refused!(list, list => listed(list.as_slice())),
        Reply::DigestText(text) => unless_refused!(text, _text => Told::Text("")),
        Reply::Digest(digest) => unless_refused!(digest, digest => Told::Digest(digest.bytes())),
    }
}

/// Whether a reply tells this, to the text.
pub(crate) fn is_told(reply: &Reply, wanted: Told<'_>) -> bool {
    match (reply, wanted) {
        (Reply::DigestText(Ok(text)), Told::Text(said)) => text.as_str() == said,
        _ => read(reply) == wanted,
    }
}

/// Whether a reply tells this; it is let go.
pub(crate) fn tells(reply: Reply, wanted: Told<'_>) -> bool {
    is_told(&reply, wanted)
}

/// What a call is to be answered when it is made again, if it was out of memory: what it applied by then it does not
/// apply again.
pub(crate) fn wanted_again<'a>(told: Told<'_>, wanted: Told<'a>) -> Option<Told<'a>> {
    match told {
        Told::Refused(NodeError::Memory) | Told::Stopped(_, StopCause::Memory) => Some(wanted),
        Told::NoAnswer(before) => match wanted {
            Told::Message(applied, source, kind, count, first) if applied == before => {
                Some(Told::Message(0, source, kind, count, first))
            }
            _ => None,
        },
        _ => None,
    }
}
