//! Change lines in: the digest text and the digest of their members out, or the owners of a key among them.

use crate::cli::changes::{
    ALIVE, ELEVENTH, FAULTY, FIRST, HEAVIER, HEAVIEST, LATER, LEAVE, SUSPECT, THIRD, TOMBSTONE,
};
use crate::cli::fakes::{ALL, Form, Page, Reader, Source};
use crate::cli::runs::{OWNER, TWO_OWNERS, check, check_all, check_lines, run};
use cli_core::{OwnerWords, RunError, Subcommand, SubcommandError};

pub const LATER_FOLDED: &str =
    "10.0.0.2:1alive6\n71f2e2fce762716835393b50a95728bc73ddc10927921dee7639cf34388c0cf7\n";

const TOMBSTONE_FOLDED: &str =
    "10.0.0.2:1tombstone5\n21e49ae7bac0c30dc69c86d7041a4d805d4b07cb76855f399736b790c1e0ca64\n";

const HEAVIER_FOLDED: &str =
    "10.0.0.2:1alive5*2\n5be5dc0d93f4cec3f7404be94076d71e9248d288f98985a89d38db45759128af\n";

const NOTHING_FOLDED: &str = "\ne3b0c44298fc1c149afbf4c8996fb92427ae41e4649b934ca495991b7852b855\n";

/// A second line, and the error text.
const AT_FAULT: [(&str, &str); 20] = rows! {
    r#"[]"#, "line 2: not an object";
    r#"7"#, "line 2: not an object";
    r#""#, "line 2: not JSON";
    r#"{"address":"10.0.0.2:1","incarnationNumb"#, "line 2: not JSON";
    r#"{"incarnationNumber":5,"source":"10.0.0.2:1","sourceIncarnationNumber":5,"status":"alive"}"#, "line 2: missing field address";
    r#"{"address":"10.0.0.2:1","source":"10.0.0.2:1","sourceIncarnationNumber":5,"status":"alive"}"#,
        "line 2: missing field incarnationNumber";
    r#"{"address":"10.0.0.2:1","incarnationNumber":5,"sourceIncarnationNumber":5,"status":"alive"}"#, "line 2: missing field source";
    r#"{"address":"10.0.0.2:1","incarnationNumber":5,"source":"10.0.0.2:1","status":"alive"}"#,
        "line 2: missing field sourceIncarnationNumber";
    r#"{"address":"10.0.0.2:1","incarnationNumber":5,"source":"10.0.0.2:1","sourceIncarnationNumber":5}"#, "line 2: missing field status";
    r#"{"address":"10.0.0.01:1","incarnationNumber":5,"source":"10.0.0.2:1","sourceIncarnationNumber":5,"status":"alive"}"#,
        "line 2: bad field address";
    r#"{"address":"10.0.0.2:1","incarnationNumber":1.0,"source":"10.0.0.2:1","sourceIncarnationNumber":5,"status":"alive"}"#,
        "line 2: bad field incarnationNumber";
    r#"{"address":"10.0.0.2:1","incarnationNumber":9007199254740992,"source":"10.0.0.2:1","sourceIncarnationNumber":5,"status":"alive"}"#,
        "line 2: bad field incarnationNumber";
    r#"{"address":"10.0.0.2:1","incarnationNumber":5,"source":7,"sourceIncarnationNumber":5,"status":"alive"}"#, "line 2: bad field source";
    r#"{"address":"10.0.0.2:1","incarnationNumber":5,"source":"10.0.0.2:1","sourceIncarnationNumber":-1,"status":"alive"}"#,
        "line 2: bad field sourceIncarnationNumber";
    r#"{"address":"10.0.0.2:1","incarnationNumber":5,"source":"10.0.0.2:1","sourceIncarnationNumber":5,"status":"Alive"}"#,
        "line 2: bad field status";
    r#"{"address":"10.0.0.2:1","incarnationNumber":5,"source":"10.0.0.2:1","sourceIncarnationNumber":5,"status":"faulty","tombstone":1}"#,
        "line 2: bad field tombstone";
    r#"{"address":"10.0.0.2:1","incarnationNumber":5,"source":"10.0.0.2:1","sourceIncarnationNumber":5,"status":"alive","weight":0}"#,
        "line 2: bad field weight";
    r#"{"address":"10.0.0.2:1","incarnationNumber":5,"source":"10.0.0.2:1","sourceIncarnationNumber":5,"status":"alive","weight":9}"#,
        "line 2: bad field weight";
    r#"{"address":"10.0.0.2:1","incarnationNumber":5,"source":"10.0.0.2:1","sourceIncarnationNumber":5,"status":"alive","weight":1.0}"#,
        "line 2: bad field weight";
    r#"{"address":"10.0.0.2:1","incarnationNumber":5,"source":"10.0.0.2:1","sourceIncarnationNumber":5,"status":"alive","weight":"2"}"#,
        "line 2: bad field weight";
};

/// Lines, and what they fold to.
const FOLDED: [(&[&str], &str); 13] = rows! {
    &[ALIVE, ALIVE, SUSPECT, SUSPECT, LATER, LATER], LATER_FOLDED;
    &[ALIVE, ALIVE, LATER, LATER, SUSPECT, SUSPECT], LATER_FOLDED;
    &[SUSPECT, SUSPECT, ALIVE, ALIVE, LATER, LATER], LATER_FOLDED;
    &[SUSPECT, SUSPECT, LATER, LATER, ALIVE, ALIVE], LATER_FOLDED;
    &[LATER, LATER, ALIVE, ALIVE, SUSPECT, SUSPECT], LATER_FOLDED;
    &[LATER, LATER, SUSPECT, SUSPECT, ALIVE, ALIVE], LATER_FOLDED;
    &[], NOTHING_FOLDED;
    &[TOMBSTONE, LEAVE, LATER], LATER_FOLDED;
    &[TOMBSTONE, LEAVE], TOMBSTONE_FOLDED;
    &[HEAVIER, ALIVE], HEAVIER_FOLDED;
    &[ALIVE, HEAVIER], HEAVIER_FOLDED;
    &[HEAVIER, ALIVE, LATER], LATER_FOLDED;
    &[LATER, HEAVIER], LATER_FOLDED;
};

/// `fold` of (B,5,alive), (B,5,suspect), (B,6,alive) in all six orders, each line twice: `10.0.0.2:1alive6` and the digest of that.
/// `fold` of nothing: an empty line, and the digest of the empty text. `fold` of (B,5,tombstone), (B,5,leave), with and without
/// (B,6,alive): alive at 6, tombstone at 5. `fold` of (B,5,alive) with weight 2 and with 1, in both orders, and with (B,6,alive):
/// `10.0.0.2:1alive5*2`, `10.0.0.2:1alive6`.
#[test]
fn folds_in_any_order_and_number(rt: HostRuntime) {
    for (lines, text) in &FOLDED {
        check_lines(&rt, &Subcommand::Fold, *lines, (*text, ""));
    }
}

/// A good line, then `[]`: nothing on standard output, `ringpop: line 2: not an object`, status 1. An empty line: `not JSON`. The text of
/// each fault, with its status.
#[test]
fn refuses_a_line_at_fault(rt: HostRuntime) {
    for (line, text) in &AT_FAULT {
        let lines = [ALIVE, *line, "[]"];
        check_lines(&rt, &Subcommand::Fold, &lines, ("", *text));
    }
    check_lines(&rt, &OWNER, &[ALIVE, "[]"], ("", "line 2: not an object"));
}

/// Subcommands, what they read, and the error text.
const TOO_MUCH: [(Subcommand<'static>, Source<'static>, &str); 4] = rows! {
    Subcommand::Fold, Source::Many(Form::Change, 4097), "line 4097: too many members";
    Subcommand::Fold, Source::Long(1_048_577), "line 1: line too long";
    Subcommand::Fold, Source::Long(1_048_576), "line 1: not JSON";
    OWNER, Source::Many(Form::Change, 4097), "line 4097: too many members";
};

/// 4,097 lines with distinct addresses: `ringpop: line 4097: too many members`; of `owner` too. The text of each fault, with its status.
#[test]
fn refuses_too_many_and_too_long(rt: HostRuntime) {
    for (subcommand, source, text) in &TOO_MUCH {
        check_all(&rt, subcommand, *source, ("", *text));
    }
}

/// The output is longer than a page, so 4,096 members are folded up to the failing write.
/// 4,096 of them are folded.
#[test]
fn holds_as_many_as_may_be(rt: HostRuntime) {
    let mut page = Page::new(ALL);
    let reader = Reader::new(Source::Many(Form::Change, 4096), ALL);
    let ended = run(&rt, &Subcommand::Fold, reader, &mut page);
    assert!(rt; ended == Err(SubcommandError::Run(RunError::CannotWrite)));
    let start = "10.0.0.0:1alive1;10.0.0.1:1alive1;";
    assert!(rt; page.text().starts_with(start));
}

/// How many bytes the lines `ALIVE` and `LATER` have, with their newlines.
const TWO_LINES: usize = ALIVE.len() + LATER.len() + 2;

#[test]
fn writes_nothing_after_a_failed_read(rt: HostRuntime) {
    for left in 0..=TWO_LINES {
        let reader = Reader::new(Source::Lines(&[ALIVE, LATER]), left);
        let text = match left {
            _ if left <= ALIVE.len() => "line 1: read failed",
            _ if left < TWO_LINES => "line 2: read failed",
            _ => "line 3: read failed",
        };
        let wanted = ("", text);
        for subcommand in &[Subcommand::Fold, OWNER] {
            check(&rt, subcommand, reader, Page::new(ALL), wanted);
        }
    }
}

const EACH: &[&str] = &[THIRD, FIRST, ALIVE];

const HEAVY: &[&str] = &[THIRD, FIRST, HEAVIEST];

const LIGHTER: &[&str] = &[HEAVIEST, LATER, FIRST, THIRD];

/// Lines, how many owners are asked for, the key, and the owners.
const OWNERS: [(&[&str], u8, &str, &str); 13] = rows! {
    EACH, 3, "zzzz1", "10.0.0.2:1\n10.0.0.3:1\n10.0.0.1:1\n";
    EACH, 3, "zzzz2", "10.0.0.3:1\n10.0.0.1:1\n10.0.0.2:1\n";
    EACH, 3, "zzzz3", "10.0.0.1:1\n10.0.0.2:1\n10.0.0.3:1\n";
    EACH, 0, "zzzz1", "";
    EACH, 1, "", "10.0.0.1:1\n";
    EACH, 9, "", "10.0.0.1:1\n10.0.0.2:1\n10.0.0.3:1\n";
    &[], 1, "zzzz1", "";
    HEAVY, 3, "zzzz1", "10.0.0.2:1\n10.0.0.3:1\n10.0.0.1:1\n";
    HEAVY, 3, "zzzz2", "10.0.0.2:1\n10.0.0.3:1\n10.0.0.1:1\n";
    HEAVY, 3, "zzzz3", "10.0.0.2:1\n10.0.0.1:1\n10.0.0.3:1\n";
    LIGHTER, 3, "zzzz2", "10.0.0.3:1\n10.0.0.1:1\n10.0.0.2:1\n";
    LIGHTER, 3, "zzzz3", "10.0.0.1:1\n10.0.0.2:1\n10.0.0.3:1\n";
    &[FAULTY, FIRST, THIRD], 9, "zzzz0", "10.0.0.1:1\n10.0.0.3:1\n";
};

/// This many owners of a key, by sum.
fn owners(count: u8, key: &str) -> Subcommand<'_> {
    Subcommand::Owner(OwnerWords {
        count: usize::from(count),
        replicas: 2,
        sum: true,
        key,
    })
}

/// By SHA-256 the first point of one server is the last key's own hash, and so is the eleventh of the other.
/// `owner --sum --replicas 2 --n 3 zzzz1` over C, A and B: B, C, A, one on a line. `--n 0` prints nothing. The same and two other keys
/// with B of weight 3, and of weight 1 at its next incarnation. `owner --n 2 10.0.0.1:110` over `10.0.0.1:1` and `10.0.0.1:11`: these
/// two, in this order.
#[test]
fn names_the_owners_of_a_key(rt: HostRuntime) {
    for (lines, count, key, text) in &OWNERS {
        check_lines(&rt, &owners(*count, *key), *lines, (*text, ""));
    }
    let lesser_first = ("10.0.0.1:1\n10.0.0.1:11\n", "");
    check_lines(&rt, &TWO_OWNERS, &[ELEVENTH, FIRST], lesser_first);
}
