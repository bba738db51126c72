//! Agents with their services, in threads of their own, and a client of their HTTP.
use crate::services::Service;
use agent::{AgentError, Following, Settings, System, run};
use change_core::{Address, Incarnation, Weight};
use log::LevelFilter;
use std::alloc::Global;
use std::fs::Files;
use std::io::Write;
use std::net::{Shutdown, TcpListener, TcpStream};
use std::sync::Arc;
use std::sync::atomic::{AtomicBool, Ordering};
use std::thread::JoinHandle;
use std::time::Duration;
use std::{io, thread};
use transport::socket_address;

/// The number of points that a server has.
pub(crate) const REPLICAS: u32 = 100;

/// The ports at which a node listens to others, an agent to HTTP, and a service.
const NODE_PORT: u16 = 29_270;

const HTTP_PORT: u16 = 29_271;

const SERVICE_PORT: u16 = 29_272;

/// More seconds than a call takes here on a busy machine.
const PATIENCE: u64 = 30;

/// How often a test looks for what is to come.
pub(crate) const LOOKS: u32 = 4_000;

/// Waits between two looks.
pub(crate) fn rest<R: System>(rt: &R) {
    thread::sleep(rt, Duration::from_millis(10));
}

/// Sixteen addresses of this machine that no other test has while this is kept.
#[derive(Drop)]
pub(crate) struct Addresses {
    /// The first of them, as a number.
    pub(crate) first: u32,
    _kept: TcpListener,
}

impl Addresses {
    /// Takes the addresses that belong to a port which the system gives to no other process; None if it gives none.
    pub(crate) fn take<R: System>(rt: &R) -> Option<Addresses> {
        let kept = TcpListener::bind(rt, "127.0.0.1:0").ok()?;
        let port = kept.local_addr().ok()?.port();
        Some(Addresses {
            first: 0x7f40_0000 + u32::from(port) * 16,
            _kept: kept,
        })
    }
}

/// Connects to the HTTP of an agent or a service.
fn connect<R: System>(rt: &R, to: Address) -> Option<TcpStream> {
    let wait = Duration::from_secs(PATIENCE);
    let stream = TcpStream::connect_timeout(rt, &socket_address(to), wait).ok()?;
    stream.set_read_timeout(Some(wait)).ok()?;
    stream.set_nodelay(true).ok()?;
    Some(stream)
}

/// Sends a request, as `GET /ring`, with a body. Returns its answer; None if there is none.
pub(crate) fn ask<R: System>(
    rt: &R,
    alloc: Global,
    to: Address,
    request: &str,
    body: &str,
) -> Option<String> {
    let mut stream = connect(rt, to)?;
    let length = body.len();
    let text = format!(in alloc;
        "{request} HTTP/1.1\r\nhost: a\r\nconnection: close\r\ncontent-length: {length}\r\n\r\n{body}"
    ).ok()?;
    stream.write_all(text.as_bytes()).ok()?;
    io::read_to_string(alloc, stream).ok()
}

/// Sends bytes in two parts, the second a little later, and no more. Returns all that comes for them.
pub(crate) fn hear<R: System>(
    rt: &R,
    alloc: Global,
    to: Address,
    first: &[u8],
    second: &[u8],
) -> Option<String> {
    let mut stream = connect(rt, to)?;
    stream.write_all(first).ok()?;
    if !second.is_empty() {
        rest(rt);
        stream.write_all(second).ok()?;
    }
    stream.shutdown(Shutdown::Write).ok()?;
    io::read_to_string(alloc, stream).ok()
}

/// Returns the body of an answer with status 200; None if it has another status.
pub(crate) fn body_of(answer: &str) -> Option<&str> {
    let (head, body) = answer.split_once("\r\n\r\n")?;
    head.starts_with("HTTP/1.1 200 ").then_some(body)
}

/// Returns the settings of a node at this IP address that asks these: like those of the program, with no log, few threads for other nodes, and
/// ten rounds a second. It does not follow its service.
fn settings_of(ip: u32, hosts: Vec<Address>) -> Option<Settings> {
    let own = Address::new(ip, NODE_PORT)?;
    Some(Settings {
        address: own,
        bind: own,
        http: Address::new(ip, HTTP_PORT),
        http_any: false,
        app: Address::new(ip, SERVICE_PORT),
        following: Following {
            no_wait: true,
            leave_after: 0,
        },
        tell_app: false,
        key_field: None,
        cluster: None,
        hands: 4,
        http_connections: 100,
        period: 100,
        per_message: 64,
        replicas: REPLICAS,
        weight: Weight::new(1)?,
        incarnation: Some(Incarnation::new(1)?),
        level: LevelFilter::Off,
        log_json: false,
        hosts,
        hosts_file: None,
    })
}

/// Runs an agent, and rings once it has ended.
fn run_agent<R: System + Files>(
    rt: &R,
    alloc: Global,
    settings: Settings,
    bell: &AtomicBool,
) -> Result<(), AgentError> {
    let ended = run(rt, alloc, settings, &mut io::sink());
    bell.store(true, Ordering::SeqCst);
    ended
}

/// An agent and its service, which were started.
#[derive(Drop)]
pub(crate) struct Site {
    /// The address of the node.
    pub(crate) own: Address,
    /// The address of the agent's HTTP.
    pub(crate) http: Address,
    has_ended: Arc<AtomicBool, Global>,
    agent: JoinHandle<Result<(), AgentError>>,
    service: Option<Service>,
    /// The keys that the service is to have been asked for, each on a line.
    wanted: String,
}

impl Site {
    /// Starts a service and an agent, whose node has this IP address and asks the nodes of others. None if an allocation failed or a thread was not
    /// made.
    pub(crate) fn start<R: System + Files>(
        rt: &R,
        alloc: Global,
        ip: u32,
        others: &[u32],
    ) -> Option<Site>
    where
        R::File: Send,
        R::Dir: Send,
    {
        let mut hosts = Vec::new(alloc);
        for other in others {
            hosts.push(Address::new(*other, NODE_PORT)?).ok()?;
        }
        let settings = settings_of(ip, hosts)?;
        let (own, http) = (settings.address, settings.http?);
        let service = Service::start(rt, alloc, Address::new(ip, SERVICE_PORT)?, own)?;
        let has_ended = Arc::new(alloc, AtomicBool::new(false)).ok()?;
        let (host, bell) = (*rt, Arc::try_clone(&has_ended).ok()?);
        let agent = thread::spawn(rt, move || run_agent(&host, alloc, settings, &*bell));
        Some(Site {
            own,
            http,
            has_ended,
            agent: agent.ok()?,
            service: Some(service),
            wanted: String::new(alloc),
        })
    }

    /// Returns whether the agent has ended.
    pub(crate) fn has_ended(&self) -> bool {
        self.has_ended.load(Ordering::SeqCst)
    }

    /// Returns whether the agent answers a request with status 200 and this body.
    pub(crate) fn says<R: System>(
        &self,
        rt: &R,
        alloc: Global,
        request: &str,
        body: &str,
        answer: &str,
    ) -> bool {
        match ask(rt, alloc, self.http, request, body) {
            Some(said) => body_of(said.as_str()) == Some(answer),
            None => false,
        }
    }

    /// Notes that the service is to have been asked for a key so often. None if out of memory.
    pub(crate) fn note(&mut self, key: &str, count: usize) -> Option<()> {
        for _ in 0..count {
            self.wanted.push_str(key).ok()?;
            self.wanted.push_str("\n").ok()?;
        }
        Some(())
    }

    /// Ends the service. Returns whether it was asked for the keys that were noted, in this order, and for no other.
    pub(crate) fn ends_service<R: System>(&mut self, rt: &R, alloc: Global) -> bool {
        let Some(service) = self.service.take() else {
            return false;
        };
        match service.end(rt, alloc) {
            Some(asked) => asked == self.wanted,
            None => false,
        }
    }

    /// Stops the agent and waits until it has ended. Returns whether it has, well.
    pub(crate) fn stops<R: System>(self, rt: &R, alloc: Global) -> bool {
        self.says(rt, alloc, "POST /stop", "", "stopping\n") && self.agent.join(rt) == Ok(())
    }
}
