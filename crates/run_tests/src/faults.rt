//! The text of each error, and how it ends the program.

use crate::shared::check_refused;
use cli_core::{LineError, RunError, ScriptError, SimError, SubcommandError};
use cli_net::{AskError, ClusterCommandError, ServeError, TellError};
use cli_run::Fault;
use cli_words::WordsError;
use std::alloc::Global;
use std::env::Env;
use std::process::Abort;
use wire_json::{Reason, WireError};

/// Whether an error has this text, or one that starts with it if arguments are refused, and ends the program with this
/// status. After a failed allocation it is made again.
pub fn is_told(
    rt: &(impl Env + Abort),
    alloc: Global,
    fault: &Fault,
    text: &str,
    status: u8,
) -> bool {
    let said = match format!(in alloc; "{fault}") {
        Err(_) => {
            check_refused(rt);
            format!(in alloc; "{fault}")
        }
        said => said,
    };
    let said = said.ok().expect(rt, "a text");
    let is_front = said.as_str().starts_with(text);
    let is_said = is_front && (status == 2 || said.len() == text.len());
    drop(said);
    is_said && fault.status() == status
}

/// That an error has this text, and ends the program with status 1.
fn tells(rt: &(impl Env + Abort), alloc: Global, fault: Fault, text: &str) {
    let is_so = is_told(rt, alloc, &fault, text, 1);
    drop(fault);
    assert!(rt; is_so, "{text}");
}

/// Errors of subcommands, and the error text.
const FAULTS: [(SubcommandError, &str); 8] = rows! {
    SubcommandError::Run(RunError::OutOfMemory), "ringpop: out of memory\n";
    SubcommandError::Run(RunError::AtLine(7, LineError::OutOfMemory)), "ringpop: line 7: out of memory\n";
    SubcommandError::Run(RunError::AtLine(7, LineError::ReadFailed)), "ringpop: line 7: read failed\n";
    SubcommandError::Run(RunError::AtLine(4097, LineError::TooManyMembers)), "ringpop: line 4097: too many members\n";
    SubcommandError::Run(RunError::CannotWrite), "ringpop: cannot write\n";
    SubcommandError::Sim(SimError::AtLine(7, ScriptError::OutOfMemory)), "ringpop: line 7: out of memory\n";
    SubcommandError::Sim(SimError::AtLine(7, ScriptError::ReadFailed)), "ringpop: line 7: read failed\n";
    SubcommandError::Sim(SimError::CannotWrite), "ringpop: cannot write\n";
};

/// Errors of commands that speak to nodes, and the error text.
const CLUSTER_FAULTS: [(ClusterCommandError, &str); 18] = rows! {
    ClusterCommandError::Serve(ServeError::NoneJoined), "ringpop: no host joined\n";
    ClusterCommandError::Serve(ServeError::CannotListen), "ringpop: cannot listen\n";
    ClusterCommandError::Serve(ServeError::NoThread), "ringpop: no thread\n";
    ClusterCommandError::Serve(ServeError::StillHeld), "ringpop: a node is still held\n";
    ClusterCommandError::Serve(ServeError::Miscounted), "ringpop: connections miscounted\n";
    ClusterCommandError::Serve(ServeError::CannotWrite), "ringpop: cannot write\n";
    ClusterCommandError::Serve(ServeError::OutOfMemory), "ringpop: out of memory\n";
    ClusterCommandError::Ask(AskError::NoAnswer), "ringpop: no answer\n";
    ClusterCommandError::Ask(AskError::NotOwner), "ringpop: not owner\n";
    ClusterCommandError::Ask(AskError::Refused(Reason::Nobody)), "ringpop: refused nobody\n";
    ClusterCommandError::Ask(AskError::Refused(Reason::Malformed)), "ringpop: refused malformed\n";
    ClusterCommandError::Ask(AskError::Unexpected), "ringpop: unexpected answer\n";
    ClusterCommandError::Ask(AskError::CannotWrite), "ringpop: cannot write\n";
    ClusterCommandError::Ask(AskError::OutOfMemory), "ringpop: out of memory\n";
    ClusterCommandError::Tell(TellError::AtLine(3, LineError::Wire(WireError::BadJson))), "ringpop: line 3: not JSON\n";
    ClusterCommandError::Tell(TellError::AtLine(3, LineError::ReadFailed)), "ringpop: line 3: read failed\n";
    ClusterCommandError::Tell(TellError::TooManyChanges), "ringpop: line 4097: too many changes\n";
    ClusterCommandError::Tell(TellError::Asked(AskError::NoAnswer)), "ringpop: no answer\n";
};

/// The text of each fault, with its status.
#[test]
fn tells_why_a_node_did_not_answer(rt: HostRuntime) {
    for (fault, text) in &CLUSTER_FAULTS {
        tells(&rt, rt.alloc(), Fault::from(*fault), *text);
    }
}

/// A good line, then `[]`: nothing on standard output, `ringpop: line 2: not an object`, status 1. An empty line: `not JSON`. 4,097 lines
/// with distinct addresses: `ringpop: line 4097: too many members`; of `owner` too. The text of each fault, with its status. The texts of
/// a failed read, a failed write and out of memory.
#[test]
fn tells_what_the_machine_refused(rt: HostRuntime) {
    tells(
        &rt,
        rt.alloc(),
        Fault::from(WordsError::OutOfMemory),
        "ringpop: out of memory\n",
    );
    let refused = Fault::from(WordsError::BadAddress);
    assert!(&rt; is_told(&rt, rt.alloc(), &refused, "ringpop: bad address\n", 2));
    drop(refused);
    for (fault, text) in &FAULTS {
        tells(&rt, rt.alloc(), Fault::from(*fault), *text);
    }
}
