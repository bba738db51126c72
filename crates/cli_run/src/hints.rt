//! What is printed behind an error of the program: what was asked, and why it failed, as far as a second look tells.

use crate::program_errors::Fault;
use agent::{AgentError, HTTP_THREADS, NODE_THREADS};
use cli_core::{ScriptError, SimError, SubcommandError};
use cli_net::explain_command;
use cli_words::{AgentWords, Words};
use std::alloc::Global;
use std::io::ErrorKind;
use std::net::Net;
use std::sync::Wait;
use std::time::Clock;

/// The forms of the commands of a script.
const COMMANDS: &str =
    "ringpop: a line is one of these, its words separated by one space: node X I [W], restart X I [W], at MS, take X Y I STATUS [W], leave X, rejoin X, expire X, members X, digest X, owners X N KEY, send X Y, deliver NUMBER";

/// Prints what it means that HTTP is answered at an address beyond the machine.
fn say_open<R: Eprint>(rt: &R, words: &AgentWords) {
    if let Some(address) = words.http {
        let _ = eprintln!(rt;
            "ringpop: '{address}' for --http: whoever reaches that address may stop the node, since HTTP asks for no password; give one of 127.0.0.0/8, or --http-any if only trusted machines reach it"
        );
    }
}

/// Prints which file of hosts was read, and what to give.
fn say_hosts<R: Eprint>(rt: &R, words: &AgentWords) {
    if let Some(path) = &words.hosts_file {
        let _ = eprintln!(rt;
            "ringpop: '{path}' for --hosts-file: give a file of at most 4096 hosts and 131072 bytes, one IPv4 address and port on a line, as 127.0.0.1:7946"
        );
    }
}

/// Prints how many threads an agent with these arguments wanted.
fn say_agent_threads<R: Eprint>(rt: &R, words: &AgentWords) {
    let hands = words.hands;
    let http = if words.http.is_some() {
        HTTP_THREADS
    } else {
        0
    };
    let _ = eprintln!(rt;
        "ringpop: wanted were {hands} threads for --hands {hands}, {http} for --http, and up to {NODE_THREADS} for other nodes and the application: see ulimit -u and -v"
    );
}

/// Prints behind an error of `words_run` what it was about: the node that was asked and the system's reason, the owner
/// of the key, the forms of a script's commands, or how many threads were wanted. Nothing behind an error that says all.
/// It may connect and listen once more, and changes nothing.
pub fn explain<R: Net + Clock + Wait + Eprint + Copy>(
    rt: &R,
    alloc: Global,
    words: &Words<'_>,
    fault: &Fault,
) {
    match (words, fault) {
        (Words::Cluster(words), Fault::Cluster(error)) => {
            explain_command(rt, alloc, &words.cluster, &words.command, *error)
        }
        (
            Words::Lines(_),
            Fault::Subcommand(SubcommandError::Sim(SimError::AtLine(_, ScriptError::BadCommand))),
        ) => {
            let _ = eprintln!(rt; "{COMMANDS}");
        }
        (Words::Agent(_), Fault::Agent(AgentError::CannotListen(_, ErrorKind::Uncategorized))) => {
            let _ = eprintln!(rt;
                "ringpop: the system's reason has no name here: has it too few descriptors (ulimit -n)?"
            );
        }
        (Words::Agent(words), Fault::Agent(AgentError::NotLocal)) => say_open(rt, words),
        (
            Words::Agent(words),
            Fault::Agent(
                AgentError::CannotRead(_) | AgentError::NotAFile | AgentError::BadHosts(_),
            ),
        ) => say_hosts(rt, words),
        (Words::Agent(words), Fault::Agent(AgentError::NoThread)) => say_agent_threads(rt, words),
        _ => {}
    }
}
