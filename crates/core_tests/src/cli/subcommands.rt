//! Each subcommand by its words, and writers that fail.

use crate::cli::changes::{ALIVE, ELEVENTH, FIRST, LATER};
use crate::cli::fakes::{ALL, Page, Reader, Source};
use crate::cli::folds::LATER_FOLDED;
use crate::cli::runs::{OWNER, SIM, TWO_OWNERS, check, check_lines};
use crate::cli::scripts::{SHORT, SHORT_ANSWERED};
use crate::shared::{Host, check_again};
use cli_core::{OwnerWords, SimWords, Subcommand, fold_run, hash_text, owner_run, sim_run};
use std::alloc::Global;

/// Scripts for rings of 100 points that hash by SHA-256.
const SHA_SIM: Subcommand<'static> = Subcommand::Sim(SimWords {
    replicas: 100,
    sum: false,
});

/// A subcommand and its input, what is written, and the error text.
const RUNS: [(Subcommand<'static>, &[&str], &str, &str); 12] = rows! {
    Subcommand::Fold, &[ALIVE, LATER], LATER_FOLDED, "";
    Subcommand::Hash("abc"), &["[]"], "ba7816bf8f01cfea\n", "";
    Subcommand::Hash(""), &[], "e3b0c44298fc1c14\n", "";
    OWNER, &[ALIVE], "10.0.0.2:1\n", "";
    SIM, &["node 10.0.0.1:1 7", "members 10.0.0.1:1"], "ok\n10.0.0.1:1alive7\n", "";
    Subcommand::Fold, &[ALIVE, "[]"], "", "line 2: not an object";
    OWNER, &[""], "", "line 1: not JSON";
    SIM, &["at 5", "at"], "ok\n", "line 2: bad command";
    SIM, &["leave 10.0.0.1:1"], "", "line 1: unknown node";
    TWO_OWNERS, &[ALIVE], "10.0.0.2:1\n", "";
    OWNER, &[LATER], "10.0.0.2:1\n", "";
    SHA_SIM, &["node 10.0.0.1:1 7", "owners 10.0.0.1:1 1 k"], "ok\n10.0.0.1:1\n", "";
};

/// `hash abc`: `ba7816bf8f01cfea`. `hash` of the empty word: `e3b0c44298fc1c14`. Each subcommand by its words writes what is its own, and
/// `line N: ` and the text of its own fault, or `cannot write`, comes back.
#[test]
fn runs_the_subcommand_that_is_named(rt: HostRuntime) {
    for (subcommand, lines, output, text) in &RUNS {
        check_lines(&rt, subcommand, *lines, (*output, *text));
    }
}

/// A call of the crate by its own name.
#[derive(Clone, Copy)]
enum Call {
    Fold,
    Owner,
    Sim,
    Hash,
}

/// Whether a call ends well, with what it is to write or answer.
fn ends_well(alloc: Global, call: Call) -> bool {
    let (mut page, replicas, sum) = (Page::new(ALL), 2, true);
    let mut lines = Reader::new(Source::Lines(&[ALIVE, LATER]), ALL);
    match call {
        Call::Fold => fold_run(alloc, &mut lines, &mut page).is_ok() && page.text() == LATER_FOLDED,
        Call::Owner => {
            let (count, key) = (1, "zzzz1");
            let words = OwnerWords {
                count,
                replicas,
                sum,
                key,
            };
            let ended = owner_run(alloc, &words, &mut lines, &mut page);
            ended.is_ok() && page.text() == "10.0.0.2:1\n"
        }
        Call::Sim => {
            let words = SimWords { replicas, sum };
            let mut script = Reader::new(Source::Lines(&SHORT), ALL);
            let ended = sim_run(alloc, &words, &mut script, &mut page);
            ended.is_ok() && page.text() == SHORT_ANSWERED
        }
        Call::Hash => match hash_text(alloc, "abc") {
            Ok(digits) => digits.as_str() == "ba7816bf8f01cfea",
            Err(_) => false,
        },
    }
}

/// `fold_run`, `owner_run`, `sim_run` and `hash_text` by their names.
#[test]
fn each_subcommand_has_a_call_of_its_own(rt: HostRuntime) {
    for call in [Call::Fold, Call::Owner, Call::Sim, Call::Hash] {
        check_again!(&rt, ends_well(rt.alloc(), call));
    }
}

/// A subcommand and its input, what it writes, and what it writes before a flush that fails.
type Written = (
    Subcommand<'static>,
    &'static [&'static str],
    &'static str,
    &'static str,
);

const FOLDED: Written = (
    Subcommand::Fold,
    &[ALIVE, LATER],
    LATER_FOLDED,
    LATER_FOLDED,
);

/// Besides the one that folds.
const WRITTEN: [Written; 3] = rows! {
    Subcommand::Hash(""), &[], "e3b0c44298fc1c14\n", "e3b0c44298fc1c14\n";
    TWO_OWNERS, &[ELEVENTH, FIRST], "10.0.0.1:1\n10.0.0.1:11\n", "10.0.0.1:1\n10.0.0.1:11\n";
    SIM, &SHORT, SHORT_ANSWERED, "ok\n";
};

/// The first bytes of a text.
fn front(text: &str, len: usize) -> &str {
    str::from_utf8(text.as_bytes().get(..len).unwrap_or(b"")).unwrap_or("")
}

/// Checks what is written to each page that has not room for all, and to one that has just that.
fn check_rooms(rt: &impl Host, written: &Written) {
    let (subcommand, lines, whole, _) = written;
    for room in 0..=whole.len() {
        let reader = Reader::new(Source::Lines(*lines), ALL);
        let text = if room < whole.len() {
            "cannot write"
        } else {
            ""
        };
        let wanted = (front(whole, room), text);
        check(rt, subcommand, reader, Page::new(room), wanted);
    }
}

#[test]
fn folds_what_the_writer_takes(rt: HostRuntime) {
    check_rooms(&rt, &FOLDED);
}

/// Each subcommand by its words writes what is its own, and `line N: ` and the text of its own fault, or `cannot write`, comes back.
#[test]
fn writes_what_the_writer_takes(rt: HostRuntime) {
    for written in &WRITTEN {
        check_rooms(&rt, written);
    }
}

/// Checks what is written to a page that fails to flush.
fn check_flush(rt: &impl Host, written: &Written) {
    let (subcommand, lines, _, flushed) = written;
    let mut page = Page::new(ALL);
    page.can_flush = false;
    let reader = Reader::new(Source::Lines(*lines), ALL);
    check(rt, subcommand, reader, page, (*flushed, "cannot write"));
}

#[test]
fn tells_of_a_failed_flush(rt: HostRuntime) {
    check_flush(&rt, &FOLDED);
    for written in &WRITTEN {
        check_flush(&rt, written);
    }
}
