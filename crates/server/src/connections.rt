//! One connection of a server: one line in and one line out.
ghost use Rattle.std.specs.Prelude.{IfSome};
ghost use Rattle.std.specs.Io.KnownBytes.{Appends};
ghost use Rattle.peer_core.specs.Acts.{Makes};
ghost use Rattle.peer_core.specs.Handling.{between};
ghost use Rattle.line_service.specs.Answering.{IsSame};
ghost use Rattle.server.specs.Working.{IsAnsweredOver, IsConnection, IsConnectionOver, bytes_of, sent_for};

use crate::servers::Server;
use hash_ring::PointHash;
use line_service::{Input, hear, respond};
use peer_core::{HandlerMut, Member};
use std::alloc::Global;
use std::io::{Read, Write};
use std::net::{Net, OpenStream};
use std::sync::Wait;
use std::time::{Clock, Duration};
use transport::{Deadline, TcpLink, Timed, send_owned_line};

/// An input of another node, and the stream over which its answer goes back.
#[derive(Drop)]
pub(crate) struct Asked<S> {
    pub(crate) input: Input,
    pub(crate) stream: S,
}

/// Sends a line, if there is one, and a newline, which have to be taken within the limit from now on, and returns the stream.
/// Without a line nothing is written. None if they were not taken whole, and if the clock failed.
fn send_back<R: Clock, S: Write + OpenStream + Drop>(
    rt: &R,
    limit: Duration,
    stream: S,
    line: Option<Vec<u8>>,
) -> Option<S>
    ensures { IfSome result (λ s. Appends (S.contents stream) (S.contents s) (sent_for (bytes_of line))) }
{
    let Some(line) = line else {
        return Some(stream);
    };
    let Ok(deadline) = Deadline::after(rt, limit) else {
        return None;
    };
    match send_owned_line(Timed::new(stream, deadline), line) {
        Ok(stream) => Some(stream.into_inner()),
        Err(_) => None,
    }
}

/// Answers an input by a member over its stream, and returns that: the line of the answer has to be taken within the limit. The handler is
/// called once if the input is a Forward that the node owns, and else never. Nothing is written but the answer's line and a newline; nothing at
/// all where no answer is due. None if the answer was not taken whole, and if the clock failed.
pub(crate) fn answer_over<
    R: Net + Wait + Clock,
    H: PointHash,
    T,
    A: HandlerMut,
    S: Write + OpenStream + Drop,
>(
    server: &Server<H, T>,
    member: &mut Member<'_, H, TcpLink<R>>,
    handler: &mut A,
    rt: &R,
    alloc: Global,
    asked: Asked<S>,
) -> Option<S>
    ensures answered { Makes member.old.node (IsAnsweredOver S.contents H.hash_of (between A.handled handler.old handler.new) asked.stream asked.input result) member.old.pass.now member.new.pass.now }
    ensures same { IsSame member.old member.new }
{
    let Asked { input, stream } = asked;
    let now = server.stopwatch.moment(rt);
    let line = respond(rt, alloc, member, handler, now, &input);
    send_back(rt, server.timeouts.line, stream, line)
}

/// Serves one connection by a member, and returns it: its line has to arrive within the limit, and its answer's line has to be taken
/// within it, from the start of each. The handler is called once if the line is a Forward that the node owns, and else never. Nothing
/// is written but the answer's line and a newline; nothing at all where no answer is due. None if the answer was not taken whole, and
/// if the clock failed.
pub fn serve_connection<
    R: Net + Wait + Clock,
    H: PointHash,
    T,
    A: HandlerMut,
    S: Read + Write + OpenStream + Drop,
>(
    server: &Server<H, T>,
    member: &mut Member<'_, H, TcpLink<R>>,
    handler: &mut A,
    rt: &R,
    alloc: Global,
    stream: S,
) -> Option<S>
    ensures made { Makes member.old.node (IsConnection H.hash_of (between A.handled handler.old handler.new)) member.old.pass.now member.new.pass.now }
    ensures over { Makes member.old.node (IsConnectionOver S.remaining S.contents H.hash_of (between A.handled handler.old handler.new) stream result) member.old.pass.now member.new.pass.now }
    ensures same { IsSame member.old member.new }
{
    let Ok(deadline) = Deadline::after(rt, server.timeouts.line) else {
        return None;
    };
    let mut stream = Timed::new(stream, deadline);
    let asked = Asked {
        input: hear(alloc, &mut stream),
        stream: stream.into_inner(),
    };
    answer_over(server, member, handler, rt, alloc, asked)
}
