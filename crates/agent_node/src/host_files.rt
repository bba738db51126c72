//! The hosts of an agent: those of its settings, and those of a file that is read again while it runs.
ghost use Rattle.std.specs.Prelude.{◌≡◌, IfOk, IsSome, IsTrue, List, ℕ};
ghost use Rattle.std.specs.IoError.{error_kind};
ghost use Rattle.agent_core.specs.Hosts.{IsHostList};
ghost use Rattle.agent_node.specs.Errors.{error_of_reading};
ghost use Rattle.agent_node.specs.Hosts.{are_among, are_same, is_among};

use crate::agents::Agent;
use crate::errors::AgentError;
use agent_core::{MAX_HOSTS_BYTES, hosts_in};
use agent_state::{Count, System};
use change_core::Address;
use log::{info, warn};
use std::alloc::{AllocError, Global};
use std::fs::{File, Files, metadata};
use std::io::{Error, ErrorKind, Read};
use std::sync::{Mutex, Wait};

/// The hosts on their way from the first thread, which alone has the files, to the threads that ask them.
#[derive(Drop)]
pub struct Hosts {
    own: Address,
    given: Vec<Address>,
    file: Option<String>,
    /// The number of hosts.
    pub count: Count,
    known: Mutex<Vec<Address>>,
    /// The hosts after they changed, if the thread that joins by them has not taken them yet.
    for_joins: Mutex<Option<Vec<Address>>>,
    /// The same for the thread of the rounds.
    for_rounds: Mutex<Option<Vec<Address>>>,
}

/// Returns the error of an agent for one of reading the file of hosts.
fn unread(error: Error) -> AgentError
    ensures { result ≡ error_of_reading (error_kind error) }
{
    match error.kind() {
        ErrorKind::OutOfMemory => AgentError::Memory,
        kind => AgentError::CannotRead(kind),
    }
}

/// Reads the hosts that a file lists. It reads no more than one byte more than they may have.
fn read_hosts<R: Files>(rt: &R, alloc: Global, path: &str) -> Result<Vec<Address>, AgentError>
    ensures { IfOk result (λ hosts. (bytes : List ℕ) × IsHostList bytes hosts.items) }
{
    // (the opening of a pipe would await its other end)
    if !metadata(rt, path).map_err(unread)?.is_file() {
        return Err(AgentError::NotAFile);
    }
    let file = File::open(rt, path).map_err(unread)?;
    let mut bytes = Vec::new(alloc);
    file.take(MAX_HOSTS_BYTES as u64 + 1)
        .read_to_end(&mut bytes)
        .map_err(unread)?;
    Ok(hosts_in(alloc, bytes.as_slice())?)
}

/// Returns the hosts that are given and those of a file, if there is one, without the node's own address.
fn list_hosts<R: Files>(
    rt: &R,
    alloc: Global,
    own: Address,
    given: &[Address],
    file: &Option<String>,
) -> Result<Vec<Address>, AgentError> {
    let mut hosts = Vec::from_slice(alloc, given)?;
    if let Some(path) = file {
        let listed = read_hosts(rt, alloc, path.as_str())?;
        hosts.extend_from_slice(listed.as_slice())?;
    }
    hosts.retain(|host| *host != own);
    Ok(hosts)
}

/// Returns whether a host is one of these.
fn is_among(host: Address, hosts: &[Address]) -> bool
    ensures { result ≡ is_among hosts.now host }
{
    hosts.contains(&host)
}

/// Returns whether each of the first hosts is one of the others.
fn are_among(hosts: &[Address], others: &[Address]) -> bool
    ensures { result ≡ are_among hosts.now others.now }
{
    hosts.iter().all(|host| is_among(*host, others))
}

/// Returns whether two lists name the same hosts, in whatever order and however often.
fn are_same(hosts: &[Address], others: &[Address]) -> bool
    ensures { result ≡ are_same hosts.now others.now }
{
    are_among(hosts, others) && are_among(others, hosts)
}

impl Hosts {
    /// Makes the hosts of the node with its own address: those that are given, and those of a file, if there is one, which is read for the first time.
    ///
    /// # Errors
    ///
    /// - `CannotRead`: the file can't be read.
    /// - `NotAFile`: it is no regular file.
    /// - `BadHosts`: it lists no hosts.
    /// - `Memory`: out of memory.
    pub fn read<R: Files>(
        rt: &R,
        alloc: Global,
        own: Address,
        given: &[Address],
        file: &Option<String>,
    ) -> Result<Hosts, AgentError>
        ensures own { IfOk result (λ hosts. hosts.own ≡ own) }
        ensures given { IfOk result (λ hosts. hosts.given.items ≡ given.now) }
    {
        let known = list_hosts(rt, alloc, own, given, file)?;
        let (given, file) = (Vec::from_slice(alloc, given)?, file.clone()?);
        let count = Count::new();
        count.set(known.len() as u64);
        Ok(Hosts {
            own,
            given,
            file,
            count,
            known: Mutex::new(known),
            for_joins: Mutex::new(None),
            for_rounds: Mutex::new(None),
        })
    }

    /// Returns whether there are hosts, or may be some later.
    pub fn may_come(&self) -> bool
        ensures { IsSome self.now.file → IsTrue result }
    {
        self.file.is_some() || self.count.get() > 0
    }

    /// Returns a copy of the hosts.
    ///
    /// # Errors
    ///
    /// - `AllocError`: out of memory.
    pub fn known<W: Wait>(&self, rt: &W) -> Result<Vec<Address>, AllocError> {
        self.known.lock(rt).clone()
    }

    /// Takes the hosts for the thread that joins by them, if they changed since it did so last.
    pub fn take_for_joins<W: Wait>(&self, rt: &W) -> Option<Vec<Address>> {
        self.for_joins.lock(rt).take()
    }

    /// Returns whether the hosts changed since the thread that joins by them took them last.
    pub fn have_changed<W: Wait>(&self, rt: &W) -> bool {
        self.for_joins.lock(rt).is_some()
    }

    /// Takes the hosts for the thread of the rounds, if they changed since it did so last.
    pub fn take_for_rounds<W: Wait>(&self, rt: &W) -> Option<Vec<Address>> {
        self.for_rounds.lock(rt).take()
    }

    /// Takes these hosts in place of those that are known, and hands them to the threads that ask them, unless they are the same. Returns whether they are
    /// others.
    fn set<W: Wait>(&self, rt: &W, hosts: Vec<Address>) -> Result<bool, AllocError> {
        let mut known = self.known.lock(rt);
        if are_same(known.as_slice(), hosts.as_slice()) {
            return Ok(false);
        }
        let (for_joins, for_rounds) = (hosts.clone()?, hosts.clone()?);
        self.count.set(hosts.len() as u64);
        *self.for_joins.lock(rt) = Some(for_joins);
        *self.for_rounds.lock(rt) = Some(for_rounds);
        *known = hosts;
        Ok(true)
    }

    /// Reads the file again. Returns whether the hosts are others than before; on an error they stay.
    fn renew<R: Files + Wait>(&self, rt: &R, alloc: Global) -> Result<bool, AgentError> {
        let hosts = list_hosts(rt, alloc, self.own, self.given.as_slice(), &self.file)?;
        Ok(self.set(rt, hosts)?)
    }
}

/// Logs why a file of hosts can't be read, or that it can again.
fn log_reading<R: System>(agent: &Agent<R>, file: &str, fault: Option<AgentError>) {
    match fault {
        None => info!(agent.log(); "{file} is read again"),
        Some(error) => warn!(agent.log(); "the hosts of before stay: {error}, of {file}"),
    }
}

/// Logs how many hosts there are after a file of hosts changed.
fn log_count<R: System>(agent: &Agent<R>, file: &str) {
    let count = agent.hosts.count.get();
    info!(agent.log(); "{file} has changed; number of hosts: {count}");
}

/// Reads an agent's file of hosts again, if there is one. Logs how many hosts there are if they are others than before, and why the file can't be
/// read, or that it can again, unless that was told last.
pub fn renew_hosts<R: System + Files>(
    rt: &R,
    alloc: Global,
    agent: &Agent<R>,
    told: &mut Option<AgentError>,
) {
    let Some(file) = &agent.hosts.file else {
        return;
    };
    let renewed = agent.hosts.renew(rt, alloc);
    let fault = renewed.err();
    if fault != *told {
        log_reading(agent, file.as_str(), fault);
        *told = fault;
    }
    if renewed == Ok(true) {
        log_count(agent, file.as_str());
    }
}
