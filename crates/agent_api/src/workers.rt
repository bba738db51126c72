//! The workers that answer HTTP. One serves a connection while requests come, and parks it once it is idle.
ghost use Rattle.std.specs.Prelude.{◌≡◌, ◌≢◌, ◌+◌, ◌-◌, ◌^◌, None, false, true, min, IfSome, box_value};
ghost use Rattle.http_server.specs.Connection.{config_of, history};
ghost use Rattle.http_server.specs.History.{History};
ghost use Rattle.agent_http.specs.Visits.{connection_limits};
ghost use Rattle.agent_api.specs.Connections.{HasServed, SendsAnswers};

use crate::api::Api;
use crate::connections::{Answers, Requests, serve_over};
use crate::http_refusals::log_refusal;
use agent_http::{Came, Framing, Kept, kept_of, new_connection};
use agent_node::{Agent, Caller, NotedLink};
use agent_state::{Flag, Host, Question};
use crossbeam_channel::Receiver;
use http_server::{Connection, State};
use reactor::Lot;
use std::alloc::Global;
use std::hash::RandomState;
use std::net::{IpAddr, TcpStream};
use std::sync::Arc;

/// The most milliseconds that the client may take to receive an answer, or the answers to requests that it sent together.
const MAX_TAKEN: u64 = 5_000;

/// What a visit leaves.
#[derive(Drop)]
struct Left {
    /// What is kept of the connection; None if it is done or failed.
    kept: Option<Kept>,
    /// The millisecond at which the time of its next request is up.
    until: u64,
    /// The question that is to wait.
    question: Option<Question>,
}

/// Returns the connection that was kept and what came over it, or a new one; None if out of memory for it.
fn open(alloc: Global, keys: RandomState, kept: Option<Kept>) -> Option<(Box<Connection>, Came)>
    ensures { IfSome result (λ opened. config_of (box_value opened.0) ≡ connection_limits) }
{
    match kept {
        Some(kept) => Some((kept.connection, kept.came)),
        None => {
            let connection = Box::new(alloc, new_connection(alloc, keys)).ok()?;
            let came = Came {
                framing: Framing::new(),
                unread: Vec::new(alloc),
            };
            Some((connection, came))
        }
    }
}

/// Serves a connection while requests come, and logs if it ends with one that HTTP refuses.
fn serve<R: Host>(
    api: &mut Api<'_, '_, R>,
    ready: &Receiver<reactor::Connection<Kept>>,
    mut connection: Box<Connection>,
    came: Came,
    stream: &TcpStream,
    until: u64,
) -> Left
    requires { config_of (box_value connection) ≡ connection_limits }
    ensures { (left : History) × SendsAnswers api.old.agent.now.own api.old.agent.now.replicas api.old.agent.now.key_field (history (box_value connection)) left None None None None api.old.caller.now api.new.caller.now }
{
    let is_answering = Flag::new(false);
    let mut requests = Requests {
        agent: api.agent,
        stream,
        ready,
        is_answering: &is_answering,
        until,
        has_read: false,
        came,
        question: None,
        is_turned_away: api.is_turned_away,
    };
    let mut answers = Answers {
        stream,
        is_answering: &is_answering,
    };
    let was_open = connection.state() == State::Open;
    let waits = serve_over(api, &mut *connection, &mut requests, &mut answers);
    log_refusal(api, was_open, connection.state());
    let Requests {
        came,
        question,
        until,
        ..
    } = requests;
    Left {
        kept: kept_of(waits, connection, came),
        until,
        question,
    }
}

/// Returns the millisecond at which the time of a connection that waits from now on is up: that of its next request, if it waits for something to
/// read; if it waits for room, five seconds from now, or the time that it had before if it waited for room, and no request was read since.
fn end_of_wait(is_full: bool, was_full: bool, until: u64, next: u64, now: u64) -> u64
    ensures reading { is_full ≡ false → result ≡ next }
    ensures first { is_full ≡ true → was_full ≡ false → result ≡ min (now + MAX_TAKEN) (2 ^ 64 - 1) }
    ensures other { is_full ≡ true → next ≢ until → result ≡ min (now + MAX_TAKEN) (2 ^ 64 - 1) }
    ensures same { is_full ≡ true → was_full ≡ true → next ≡ until → result ≡ until }
{
    if !is_full {
        next
    } else if was_full && next == until {
        until
    } else {
        now.saturating_add(MAX_TAKEN)
    }
}

/// Serves a connection while requests come, and then parks it; or closes it if it is done, fails, or its time is up.
fn visit<R: Host>(
    api: &mut Api<'_, '_, R>,
    lot: &Lot<Kept>,
    ready: &Receiver<reactor::Connection<Kept>>,
    keys: RandomState,
    visited: reactor::Connection<Kept>,
)
    ensures { HasServed api.old.agent.now.own api.old.agent.now.replicas api.old.agent.now.key_field api.old.caller.now api.new.caller.now }
{
    let agent = api.agent;
    let reactor::Connection {
        stream,
        kept,
        is_full: was_full,
        until,
    } = visited;
    let Some((connection, came)) = open(api.alloc, keys, kept) else {
        return lot.close(stream);
    };
    let Left {
        kept,
        until: next,
        question,
    } = serve(api, ready, connection, came, &stream, until);
    let Some(kept) = kept else {
        if question.is_some() {
            agent.watchers.count.subtract(1);
        }
        return lot.close(stream);
    };
    let now = agent.now().number();
    let is_full = kept.is_full;
    let waiting = reactor::Connection {
        stream,
        kept: Some(kept),
        is_full,
        until: end_of_wait(is_full, was_full, until, next, now),
    };
    match question {
        Some(question) => agent.watchers.add(&agent.rt, waiting, question, now),
        None => lot.park(&agent.rt, waiting, now),
    }
}

/// Returns the IP address of a client; None if its connection has failed.
fn ip_of(stream: &TcpStream) -> Option<IpAddr> {
    Some(stream.peer_addr().ok()?.ip())
}

/// Answers HTTP until the queue of the connections that are ready has no sender.
pub fn serve_http<R: Host>(
    agent: Arc<Agent<R>, Global>,
    alloc: Global,
    mut caller: Caller,
    lot: Arc<Lot<Kept>, Global>,
    ready: Receiver<reactor::Connection<Kept>>,
    keys: RandomState,
) {
    let agent = &*agent;
    let mut link = NotedLink::new(agent);
    for _ in agent.rt.forever() {
        let Ok(visited) = ready.recv(&agent.rt) else {
            break;
        };
        let is_turned_away = Flag::new(false);
        let mut api = Api {
            agent,
            alloc,
            client: ip_of(&visited.stream),
            caller: &mut caller,
            link: &mut link,
            limit: None,
            is_turned_away: &is_turned_away,
        };
        agent.serving.add(1);
        visit(&mut api, &*lot, &ready, keys, visited);
        agent.serving.subtract(1);
        agent.renew(&mut caller);
    }
    agent.end_worker();
}
