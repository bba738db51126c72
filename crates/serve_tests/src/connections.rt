//! How long a server waits for a line, and for its answer to be taken, to the millisecond, and at which moment it serves.
ghost use Rattle.std.specs.Prelude.{IfSome};
ghost use Rattle.locked_node.specs.Passes.{Fits};

use crate::clocks::{Manner, NEVER, Peer, SILENT, Town, Wire, saying};
use crate::plans::{incarnation, local, told};
use crate::shared::{System, check_again};
use crate::talks::{ECHO, MALFORMED, NOT_REACHED, PING_REQ};
use change_core::{Moment, Status};
use cli_net::Echo;
use hash_ring::SumHash;
use locked_node::{LockedNode, NodePass};
use message_core::{Keys, Text};
use node_core::{Config, NodeState};
use peer_core::{Handler, HandlerFault, Member};
use server::{Port, Server, Stopwatch, hear, respond, serve_connection};
use std::alloc::Global;
use std::net::TcpListener;
use std::sync::Wait;
use std::time::Duration;
use transport::{Limits, TcpLink};

/// 127.0.0.1:29177 at 1, made at 0, which holds a suspect as faulty this many milliseconds later, and was given at 0
/// that 127.0.0.1:29170 is this at 1, if anything; None if out of memory.
fn node(rt: &impl System, suspect_ms: u64, status: Option<Status>) -> Option<NodeState<SumHash>> {
    let (own, first, now) = (local(rt, 29_177), incarnation(rt, 1), Moment::beginning());
    let config = Config {
        suspect_ms,
        ..Config::standard()
    };
    let mut node = NodeState::new(rt.alloc(), config, SumHash, own, first, 1, now).ok()?;
    let is_told = match status {
        Some(status) => node.take(&[told(rt, 29_170, status)], now).is_ok(),
        None => true,
    };
    is_told.then_some(node)
}

/// The same, shared by no workers, and the pass of its rounds.
fn shared_node(
    rt: &impl System,
    suspect_ms: u64,
    status: Option<Status>,
) -> Option<(LockedNode<SumHash>, NodePass<SumHash>)>
    ensures { IfSome result (λ r. Fits r.0 r.1) }
{
    match LockedNode::share(rt.alloc(), node(rt, suspect_ms, status)?, 0) {
        Ok((node, pass, _others)) => Some((node, pass)),
        Err(_) => None,
    }
}

/// A server of that node with the standard timeouts, which starts at 0.
pub(crate) fn server_of(
    rt: &impl System,
    suspect_ms: u64,
    status: Option<Status>,
) -> Option<(Server<SumHash, Echo>, NodePass<SumHash>)>
    ensures { IfSome result (λ r. Fits r.0.node r.1) }
{
    let listener = TcpListener::bind(rt, "127.0.0.1:0").ok()?;
    let port = Port::open(rt, rt.alloc(), listener, Duration::from_millis(500)).ok()?;
    let (node, pass) = shared_node(rt, suspect_ms, status)?;
    let address = local(rt, 29_177);
    let peer = Peer::new(SILENT);
    let stopwatch = Stopwatch::start(&Town { rt, peer: &peer });
    let server = Server::new(node, Echo { address }, stopwatch, None, port, 1);
    Some((server, pass))
}

/// Whether a node of a server has an entry that is due at this moment, or at the last one at which it was called, if
/// that is later; None if out of memory.
pub(crate) fn is_due(
    rt: &impl System,
    server: &Server<SumHash, Echo>,
    pass: &mut NodePass<SumHash>,
    moment: u64,
) -> Option<bool>
    requires { Fits server.now.node pass.old }
    ensures fits { Fits server.now.node pass.new }
{
    match server.node.expire(rt, pass, Moment::new(moment)?) {
        Ok(Ok(change)) => Some(change.is_some()),
        _ => None,
    }
}

/// Has a server serve a peer.
fn serve_peer(
    rt: &impl System,
    server: &Server<SumHash, Echo>,
    pass: &mut NodePass<SumHash>,
    peer: &Peer,
)
    requires { Fits server.now.node pass.old }
    ensures { Fits server.now.node pass.new }
{
    let (alloc, town, wire) = (rt.alloc(), Town { rt, peer }, Wire { peer });
    let mut handler = &server.handler;
    let mut link = TcpLink::with_limits(Town { rt, peer }, Limits::standard());
    let mut member = Member::new(&server.node, pass, &mut link, alloc);
    serve_connection(server, &mut member, &mut handler, &town, alloc, wire);
    let _pass = member.into_pass();
}

/// The millisecond at which a server of such a node has served a peer of this manner, how many bytes of its answer that has taken, and
/// whether its node then has an entry that is due; None if out of memory.
fn serve(
    rt: &impl System,
    suspect_ms: u64,
    status: Option<Status>,
    manner: Manner,
) -> Option<(u64, usize, Option<bool>)> {
    let (server, mut pass) = server_of(rt, suspect_ms, status)?;
    let peer = Peer::new(manner);
    serve_peer(rt, &server, &mut pass, &peer);
    let is_due = is_due(rt, &server, &mut pass, 0);
    Some((peer.now.get(), peer.taken.get(), is_due))
}

/// A peer that has said by a moment a line of 64 letters that is not a message, and takes each byte of the answer in so long.
fn speaking_by(by: u64, takes: u64) -> Manner {
    let line = "aaaaaaaaaaaaaaaaaaaaaaaaaaaaaaaaaaaaaaaaaaaaaaaaaaaaaaaaaaaaaaaa\n";
    Manner {
        takes,
        ..saying(line, by)
    }
}

/// One connection of a server with the standard timeouts. A line that is whole at 499 is refused as malformed; where it is whole at 500
/// or 5,000, and at silence, the connection is left at 500 without an answer. An answer whose bytes are taken each 5 is taken whole; one
/// of which a byte each 10 is taken is left at 500, and one of which nothing is taken 500 after it stands, be that at 0 or at 499. A
/// ping-req that is whole at 499, for a peer that is never connected to: the answer's 500 begin when that is given up, at 999.
#[test]
fn a_line_and_its_answer_have_a_limit_each(rt: HostRuntime) {
    let whole = MALFORMED.len();
    // asks for a ping of one that is never connected to, for which 500 milliseconds are waited
    let helped = Manner {
        connects: NEVER,
        takes: 1,
        ..saying(PING_REQ, 499)
    };
    let rows = rows! {
        SILENT, 500, 0;
        speaking_by(499, 0), 499, whole;
        speaking_by(500, 0), 500, 0;
        speaking_by(5_000, 0), 500, 0;
        speaking_by(0, 5), 475, whole;
        speaking_by(0, 10), 500, 49;
        speaking_by(0, NEVER), 500, 0;
        speaking_by(499, 5), 974, whole;
        speaking_by(499, NEVER), 999, 0;
        helped, 1_335, NOT_REACHED.len();
    };
    for &(manner, over, taken) in &rows {
        let wanted = Some((over, taken, Some(false)));
        check_again!(
            &rt,
            serve(&rt, 5_000, None, manner) == wanted,
            "over at {over}, {taken} bytes taken"
        );
    }
}

/// Whether a node that was given a suspect at 0, to be faulty at 400, has that due once it has served a line that was
/// whole by this moment; None if out of memory.
fn is_due_behind(rt: &impl System, by: u64) -> Option<bool> {
    let (_over, _taken, is_due) = serve(rt, 400, Some(Status::Suspect), saying(PING_REQ, by))?;
    is_due
}

/// A node that was told of a suspect at 0, to be faulty at 400, and serves a ping-req that is whole at 0, 300 or 399: nothing is due
/// behind it; at 400 or 499: the suspect is.
#[test]
fn a_line_is_served_at_the_moment_at_which_it_is_there(rt: HostRuntime) {
    for by in [0, 300, 399, 400, 499] {
        check_again!(&rt, is_due_behind(&rt, by) == Some(by >= 400), "by {by}");
    }
}

/// A handler whose answer is this many letters.
#[derive(Drop)]
struct Wordy(usize);

impl Handler for Wordy {
    ghost may_handle = { λ _ _ _ _. Unit {0} };

    fn handle<R: Wait>(
        &self,
        _rt: &R,
        alloc: Global,
        _keys: &Keys,
        _body: &Text,
    ) -> Result<Text, HandlerFault> {
        let mut letters = Vec::new(alloc);
        if letters.resize(self.0, b'a').is_err() {
            return Err(HandlerFault::Memory);
        }
        match String::from_utf8(letters) {
            Ok(letters) => Ok(Text::from_string(letters)),
            Err(_) => Err(HandlerFault::Failed),
        }
    }
}

/// The line that goes back for a request whose handler answers by this many letters; None if an allocation failed.
fn line_for(rt: &impl System, letters: usize) -> Option<Vec<u8>> {
    let (node, mut pass) = shared_node(rt, 5_000, None)?;
    let peer = Peer::new(SILENT);
    let mut link = TcpLink::new(Town { rt, peer: &peer });
    let input = hear(rt.alloc(), ECHO.text.as_bytes());
    let (handler, now) = (Wordy(letters), Moment::beginning());
    let mut member = Member::new(&node, &mut pass, &mut link, rt.alloc());
    respond(rt, rt.alloc(), &mut member, &mut &handler, now, &input)
}

/// How many letters a reply has whose line is as long as it may be.
const MOST: usize = 1_048_495;

/// The refusal of an answer that is too long.
const FAILED: &str =
    "{\"kind\":\"refused\",\"reason\":\"failed\",\"source\":\"127.0.0.1:29177\",\"sourceIncarnationNumber\":1}";

/// Whether a reply of this many letters goes back in a line of 1,048,576 bytes, and one of a letter more is refused as failed.
fn refuses_a_letter_more(rt: &impl System) -> Option<bool> {
    let (line, refusal) = (line_for(rt, MOST)?, line_for(rt, MOST + 1)?);
    Some(line.len() == 1_048_576 && refusal.as_slice() == FAILED.as_bytes())
}

/// A handler whose answer makes a line of 1,048,576 bytes: that line goes back. Of a letter more: refused as failed.
#[test]
fn an_answer_too_long_is_refused_as_failed(rt: HostRuntime) {
    check_again!(&rt, refuses_a_letter_more(&rt) == Some(true));
}
