//! What is printed behind an error of a command that speaks to nodes: what was asked, and why it failed, as far as a second look tells.
ghost use Rattle.hash_ring.specs.Points.{IsReplicas};

use crate::commands::ClusterCommandError;
use crate::faults::{AskError, ServeError, TellError};
use crate::looks::look_only;
use crate::owners::find_owner;
use change_core::Address;
use cli_core::{AskAnyWords, AskWords, ClusterCommand, ServeWords};
use cluster_names::{BEFORE_NAME, ClusterName, is_name};
use kept_links::{KeptLink, Pool};
use message_core::Reason;
use std::alloc::Global;
use std::net::{Net, TcpListener, TcpStream};
use std::str;
use std::sync::Wait;
use std::time::{Clock, Duration};
use transport::{Dial, Limits, socket_address};

/// Within how many milliseconds a second look connects.
const LOOK_MILLIS: u64 = 1000;

/// Makes a link of this cluster with these limits, which opens a connection for each call.
fn link_over<'a, R: Net + Clock + Copy>(
    rt: &'a R,
    cluster: &'a Option<ClusterName>,
    limits: Limits,
) -> KeptLink<'a, R, R, &'a Pool<<R as Dial>::Stream>> {
    KeptLink::new(*rt, rt, None, cluster, limits)
}

/// Prints why no message of a node came from this address.
fn say_silent<R: Net + Eprint>(rt: &R, address: Address) {
    let limit = Duration::from_millis(LOOK_MILLIS);
    let _ = match TcpStream::connect_timeout(rt, &socket_address(address), limit) {
        Ok(_) => eprintln!(rt;
            "ringpop: {address} takes connections, but no message of a node came from it in time"
        ),
        Err(error) => eprintln!(rt; "ringpop: {address}: {}", error.kind()),
    };
}

/// Returns the line with which the node at an address answers one of this cluster, if it is of another cluster or of none.
fn foreign_line<R: Net + Clock + Wait + Copy>(
    rt: &R,
    alloc: Global,
    cluster: &Option<ClusterName>,
    address: Address,
) -> Option<Vec<u8>> {
    let limits = Limits {
        other: Duration::from_millis(LOOK_MILLIS),
        ..Limits::standard()
    };
    let mut link = link_over(rt, cluster, limits);
    let _seen = look_only(rt, alloc, &mut link, address);
    Vec::from_slice(alloc, link.foreign()?).ok()
}

/// Returns the name of a cluster that a line has; None if it has none.
fn name_in(line: &[u8]) -> Option<&str> {
    let rest = line.strip_prefix(BEFORE_NAME)?;
    let end = rest.iter().position(|byte| *byte == b'"')?;
    let name = &rest[..end];
    if is_name(name) {
        str::from_utf8(name).ok()
    } else {
        None
    }
}

/// Prints why there was no answer of a node of this cluster at an address: it is of another, or else why none came.
fn say_no_answer<R: Net + Clock + Wait + Eprint + Copy>(
    rt: &R,
    alloc: Global,
    cluster: &Option<ClusterName>,
    address: Address,
) {
    let Some(own) = cluster else {
        return say_silent(rt, address);
    };
    let Some(line) = foreign_line(rt, alloc, cluster, address) else {
        return say_silent(rt, address);
    };
    let _ = match name_in(&line) {
        Some(name) => eprintln!(rt;
            "ringpop: {address} is of cluster {name}, and --cluster is {own}"
        ),
        None => eprintln!(rt; "ringpop: {address} names no cluster, and --cluster is {own}"),
    };
}

/// Returns the line that tells of which cluster the node at an address is, if it answers as one of a cluster with a name.
fn naming_line<R: Net + Clock + Wait + Copy>(
    rt: &R,
    alloc: Global,
    address: Address,
) -> Option<Vec<u8>> {
    // (to a name that is not its own a node answers by its own)
    let other = ClusterName::new(alloc, "-").ok()?;
    foreign_line(rt, alloc, &other, address)
}

/// Prints of which cluster the node at an address is that took no line without a name.
fn say_name<R: Net + Clock + Wait + Eprint + Copy>(rt: &R, alloc: Global, address: Address) {
    let Some(line) = naming_line(rt, alloc, address) else {
        return;
    };
    if let Some(name) = name_in(&line) {
        let _ = eprintln!(rt; "ringpop: {address} is of cluster {name}: add --cluster {name}");
    }
}

/// Prints who owns the key, by the members of the node that was asked, under the standard number of points.
fn say_owner<R: Net + Clock + Wait + Eprint + Copy>(
    rt: &R,
    alloc: Global,
    cluster: &Option<ClusterName>,
    words: &AskWords<'_>,
) {
    let asked = AskAnyWords {
        host: words.address,
        replicas: 100,
        sum: false,
        key: words.key,
        body: words.body,
    };
    let mut link = link_over(rt, cluster, Limits::standard());
    let address = words.address;
    let _ = match find_owner(rt, alloc, &mut link, &asked) {
        Ok(owner) if owner != address => eprintln!(rt;
            "ringpop: by the members of {address} the owner is {owner}: ask that, or add --any"
        ),
        _ => eprintln!(rt; "ringpop: {address} is not the owner: add --any to ask whichever is"),
    };
}

/// Prints why a host let a node without the name of a cluster not join: it is of a cluster with one, or else why no message came from it.
fn say_unjoined<R: Net + Clock + Wait + Eprint + Copy>(rt: &R, alloc: Global, host: Address) {
    let Some(line) = naming_line(rt, alloc, host) else {
        return say_silent(rt, host);
    };
    let Some(name) = name_in(&line) else {
        return say_silent(rt, host);
    };
    let _ = eprintln!(rt;
        "ringpop: {host} is of cluster {name} and takes no node without this name, as serve makes it"
    );
}

/// Prints why a node with these arguments joined no host.
fn say_alone<R: Net + Clock + Wait + Eprint + Copy>(rt: &R, alloc: Global, words: &ServeWords) {
    for host in &words.hosts {
        if *host == words.address {
            let _ = eprintln!(rt; "ringpop: {host} is the node itself: name others");
        } else {
            say_unjoined(rt, alloc, *host);
        }
    }
}

/// Prints why an address can't be listened at.
fn say_taken<R: Net + Eprint>(rt: &R, address: Address) {
    if let Err(error) = TcpListener::bind(rt, socket_address(address)) {
        let _ = eprintln!(rt; "ringpop: {address}: {}", error.kind());
    }
}

/// Prints how many threads a server with these arguments wanted.
fn say_threads<R: Eprint>(rt: &R, words: &ServeWords) {
    let rounds = u32::from(words.period > 0);
    let workers = words.workers;
    let _ = eprintln!(rt;
        "ringpop: wanted were {workers} threads for --workers {workers}, and {rounds} for rounds: see ulimit -u and -v"
    );
}

/// Prints behind an error of `serve` what it was about.
fn explain_serve<R: Net + Clock + Wait + Eprint + Copy>(
    rt: &R,
    alloc: Global,
    words: &ServeWords,
    error: ServeError,
) {
    match error {
        ServeError::NoneJoined => say_alone(rt, alloc, words),
        ServeError::CannotListen => say_taken(rt, words.address),
        ServeError::NoThread => say_threads(rt, words),
        _ => {}
    }
}

/// Returns the node that a question asks first; None for `serve`.
fn asked_by(command: &ClusterCommand<'_>) -> Option<Address> {
    match command {
        ClusterCommand::Serve(_) => None,
        ClusterCommand::Ask(words) => Some(words.address),
        ClusterCommand::AskAny(words) => Some(words.host),
        ClusterCommand::Members(words) => Some(words.host),
        ClusterCommand::Tell(host) => Some(*host),
    }
}

/// Prints behind an error of a question what it was about.
fn explain_question<R: Net + Clock + Wait + Eprint + Copy>(
    rt: &R,
    alloc: Global,
    cluster: &Option<ClusterName>,
    command: &ClusterCommand<'_>,
    error: AskError,
) {
    let Some(address) = asked_by(command) else {
        return;
    };
    match (command, error) {
        (_, AskError::NoAnswer) => say_no_answer(rt, alloc, cluster, address),
        (_, AskError::Refused(Reason::Malformed)) if cluster.is_none() => say_name(
            rt, alloc, address,
        ),
        (ClusterCommand::Ask(words), AskError::NotOwner) => say_owner(rt, alloc, cluster, words),
        (ClusterCommand::AskAny(words), AskError::NotOwner) => {
            let replicas = words.replicas;
            let _ = eprintln!(rt;
                "ringpop: by {replicas} points another node owns the key: --replicas and --sum have to be those of the cluster"
            );
        }
        _ => {}
    }
}

/// Prints behind an error of `cluster_command_run` what it was about: the node that was asked and the system's reason or its cluster, the owner of
/// the key, or how many threads were wanted. Nothing behind an error that says all. It may connect and listen once more, and changes nothing.
pub fn explain_command<R: Net + Clock + Wait + Eprint + Copy>(
    rt: &R,
    alloc: Global,
    cluster: &Option<ClusterName>,
    command: &ClusterCommand<'_>,
    error: ClusterCommandError,
) {
    match (command, error) {
        (ClusterCommand::Serve(words), ClusterCommandError::Serve(error)) => {
            explain_serve(rt, alloc, words, error)
        }
        (_, ClusterCommandError::Ask(error) | ClusterCommandError::Tell(TellError::Asked(error))) =>
            { explain_question(rt, alloc, cluster, command, error) }
        _ => {}
    }
}
