//! The output for arguments and an input, and the error text if they end early.

use crate::faults::is_told;
use crate::shared::{Page, check_refused};
use cli_run::words_run;
use cli_words::{Words, WordsError, read_words};
use std::alloc::Global;
use std::env::Env;
use std::fs::Files;
use std::net::{Net, TcpListener, TcpStream};
use std::process::Abort;
use std::random::RandomSource;
use std::sync::Wait;
use std::thread::Threads;
use std::time::Clock;

/// That 10.0.0.2:1 is alive at 5.
const ALIVE: &str =
    r#"{"address":"10.0.0.2:1","incarnationNumber":5,"source":"10.0.0.2:1","sourceIncarnationNumber":5,"status":"alive"}"#;

/// Words, an input, and what is written for them, or said of the error that they end with.
const RUNS: [(&[&str], &str, Result<&str, &str>); 13] = rows! {
    &["ringpop"], ALIVE, Ok("10.0.0.2:1alive5\n0e3718e4725f4a4f076cd57ccfadcc6cb62363f6f9380e4283d2b9be9c1e6ab2\n");
    &["ringpop", "hash", "abc"], "[]", Ok("ba7816bf8f01cfea\n");
    &["ringpop", "owner", "k"], ALIVE, Ok("10.0.0.2:1\n");
    &["ringpop", "owner", "--n", "0", "k"], ALIVE, Ok("");
    &["ringpop", "sim"], "node 10.0.0.1:1 7\nmembers 10.0.0.1:1\n", Ok("ok\n10.0.0.1:1alive7\n");
    &["ringpop"], "[]", Err("ringpop: line 1: not an object\n");
    &["ringpop", "owner", "k"], "\n", Err("ringpop: line 1: not JSON\n");
    &["ringpop", "sim"], "at", Err("ringpop: line 1: bad command\n");
    &["ringpop", "serve", "127.0.0.1:2", "1", "1", "127.0.0.1:1"], "", Err("ringpop: no host joined\n");
    &["ringpop", "ask", "127.0.0.1:1", "k", "b"], "", Err("ringpop: no answer\n");
    &["ringpop", "ask", "--any", "127.0.0.1:1", "k", "b"], "", Err("ringpop: no answer\n");
    &["ringpop", "members", "127.0.0.1:1"], "", Err("ringpop: no answer\n");
    &["ringpop", "tell", "127.0.0.1:1"], "", Err("ringpop: no answer\n");
};

/// Whether this is the output for the arguments and the input, or the text of their error, which ends the program with
/// status 1; None if another error ends it.
fn come_to<
    R: Net<Listener = TcpListener, Stream = TcpStream>
        + Threads
        + Wait
        + Clock
        + RandomSource
        + Files
        + Eprint
        + Copy
        + Send
        + Sync
        + 'static
        + Env
        + Abort,
>(
    rt: &R,
    alloc: Global,
    words: &Words<'_>,
    input: &str,
    wanted: Result<&str, &str>,
) -> Option<bool> {
    let mut page = Page {
        left: wanted.unwrap_or_default().as_bytes(),
    };
    let mut reader = input.as_bytes();
    let ended = words_run(rt, rt, alloc, words, &mut reader, &mut page);
    let is_so = match (&ended, wanted) {
        (Ok(()), Ok(_)) => Some(page.left.is_empty()),
        (Ok(()), Err(_)) => Some(false),
        (Err(fault), Err(text)) if is_told(rt, alloc, fault, text, 1) => Some(true),
        _ => None,
    };
    drop(ended);
    is_so
}

/// The command of the arguments; read again if an allocation failed.
fn read(rt: &(impl Env + Abort), alloc: Global, words: &'static [&'static str]) -> Words<'static> {
    let read = match read_words(alloc, words) {
        Err(WordsError::OutOfMemory) => {
            check_refused(rt);
            read_words(alloc, words)
        }
        read => read,
    };
    read.ok().expect(rt, "words")
}

/// That the arguments and the input have this result. They are run again if another error ended it, as a failed
/// allocation is.
fn check<
    R: Net<Listener = TcpListener, Stream = TcpStream>
        + Threads
        + Wait
        + Clock
        + RandomSource
        + Files
        + Eprint
        + Copy
        + Send
        + Sync
        + 'static
        + Env
        + Abort,
>(
    rt: &R,
    alloc: Global,
    arguments: &'static [&'static str],
    input: &str,
    wanted: Result<&str, &str>,
) {
    let words = read(rt, alloc, arguments);
    let is_so = match come_to(rt, alloc, &words, input, wanted) {
        None => {
            check_refused(rt);
            come_to(rt, alloc, &words, input, wanted)
        }
        is_so => is_so,
    };
    drop(words);
    assert!(rt; is_so == Some(true), "{arguments:?}");
}

/// From words to bytes: no words, `hash abc`, `owner k`, `owner --n 0 k` and `sim`, each over an input; where no node is, `serve` with a
/// host ends by `no host joined`, and `ask`, `ask --any`, `members` and `tell` by `no answer`.
#[test]
fn runs_what_the_words_ask_for(rt: HostRuntime) {
    for (arguments, input, wanted) in &RUNS {
        check(&rt, rt.alloc(), *arguments, *input, *wanted);
    }
}
