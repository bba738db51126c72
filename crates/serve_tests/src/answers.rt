//! What `ask`, `ask --any`, `members` and `tell` make of answers, and `tell` of change lines.
use crate::peers::Answer::{Broken, Joined, Line, Reply, Starved, Told};
use crate::peers::{Answer, Lines, Page, Peers};
use crate::shared::{Host, check_refused};
use change_core::{Address, MAX_MEMBERS};
use cli_core::LineError;
use cli_net::AskError::{CannotWrite, NoAnswer, NotOwner, OutOfMemory, Refused, Unexpected};
use cli_net::TellError::{Asked, AtLine, TooManyChanges};
use cli_net::{
    AskAnyWords, AskWords, MembersForm, TellError, ask_any_over, ask_over, members_over, tell_over,
};
use wire_json::{Reason, WireError};

/// A question.
#[derive(Clone, Copy)]
enum Question {
    Ask,
    /// By this key.
    AskAny(&'static str),
    Members(MembersForm),
    /// This many change lines of 10.0.0.1:1, and then this, by a reader that fails after this many bytes.
    Tell(usize, &'static str, usize),
}

/// How it ends.
type Ended = Result<(), TellError>;

/// A question, the answer to each call, how it ends, and what is written.
type Row = (Question, &'static [Answer], Ended, &'static str);

/// A reader that does not fail.
const ALL: usize = usize::MAX;

/// Asks peers, and writes the result of their answers.
fn ask_peers(rt: &impl Host, question: &Question, peers: &mut Peers, page: &mut Page<'_>) -> Ended {
    let alloc = rt.alloc();
    let Some(host) = Address::new(0x0a00_0001, 1) else {
        return Err(Asked(NoAnswer));
    };
    match *question {
        Question::Ask => {
            let words = AskWords {
                address: host,
                key: "k",
                body: "b",
            };
            ask_over(rt, alloc, peers, &words, page)?
        }
        Question::Members(form) => members_over(rt, alloc, peers, host, form, page)?,
        Question::Tell(times, last, left) => {
            let mut lines = Lines {
                text: FIRST.as_bytes(),
                times,
                last: last.as_bytes(),
                left,
                place: 0,
            };
            tell_over(rt, alloc, peers, host, &mut lines, page)?
        }
        Question::AskAny(key) => {
            let words = AskAnyWords {
                host,
                replicas: 100,
                sum: false,
                key,
                body: "b",
            };
            ask_any_over(rt, alloc, peers, &words, page)?
        }
    }
    Ok(())
}

/// How asking ends over a writer that takes what is wanted, whether all of that was written, and how many calls were made.
fn ask(rt: &impl Host, row: &Row, wanted: &str) -> (Ended, bool, usize) {
    let mut peers = Peers {
        answers: row.1,
        calls: 0,
        failures: 0,
    };
    let mut page = Page(wanted.as_bytes());
    let ended = ask_peers(rt, &row.0, &mut peers, &mut page);
    (ended, page.0.is_empty(), peers.calls)
}

/// Checks that asking ends so over a writer that takes the expected text, with that written and all calls made, again if an allocation
/// failed; a request that has no memory may make none.
fn check(rt: &impl Host, row: &Row, wanted: Ended, text: &str) {
    let (mut ended, mut is_written, mut calls) = ask(rt, row, text);
    match ended {
        Err(AtLine(_, LineError::OutOfMemory) | Asked(OutOfMemory)) if ended != wanted => {
            check_refused(rt);
            (ended, is_written, calls) = ask(rt, row, text);
        }
        _ => {}
    }
    assert!(rt; ended == wanted && is_written);
    let may_ask_nobody = wanted == Err(Asked(OutOfMemory)) && matches!(row.0, Question::Ask);
    assert!(rt; calls == row.1.len() || may_ask_nobody && calls == 0);
}

/// The same of each entry.
fn check_all(rt: &impl Host, rows: &[Row]) {
    for row in rows {
        check(rt, row, row.2, row.3);
    }
}

/// The same with each prefix of the text of an entry, after which it fails.
fn check_fronts(rt: &impl Host, rows: &[Row]) {
    for row in rows {
        for room in 0..row.3.len() {
            let front = row.3.get(..room).expect(rt, "so much of it");
            check(rt, row, Err(Asked(CannotWrite)), front);
        }
    }
}

/// The line of 10.0.0.1:1 at 7 with these fields.
macro_rules! said {
    ($($field:literal: $value:literal),+) => {
        concat!("{", $("\"", $field, "\":\"", $value, "\",",)+ "\"source\":\"10.0.0.1:1\",\"sourceIncarnationNumber\":7}")
    };
}

/// Replies of the owner to a request.
const MINE: Answer = Reply(
    0x0a00_0001,
    said!("body": "mine 10.0.0.1:1", "kind": "reply"),
);

const THEIRS: Answer = Reply(
    0x0a00_0002,
    r#"{"body":"mine 10.0.0.2:1","kind":"reply","source":"10.0.0.2:1","sourceIncarnationNumber":7}"#,
);

const NOT_OWNER: Answer = Line(said!("kind": "not-owner"));

/// A membership without members.
const NOBODY: &str =
    r#"{"changes":[],"checksum":"e3b0c44298fc1c149afbf4c8996fb92427ae41e4649b934ca495991b7852b855","kind":"joined","source":"10.0.0.1:1","sourceIncarnationNumber":7}"#;

/// Of 10.0.0.1:1, alive at 7.
const ALONE: &str =
    r#"{"changes":[{"address":"10.0.0.1:1","incarnationNumber":7,"source":"10.0.0.1:1","sourceIncarnationNumber":7,"status":"alive"}],"checksum":"114cdd273aed4efee25e37eb2d6f8902516de89bfb099e3deb7cd6f372fa39df","kind":"joined","source":"10.0.0.1:1","sourceIncarnationNumber":7}"#;

/// The same with the digest of no members.
const ALONE_AMISS: &str =
    r#"{"changes":[{"address":"10.0.0.1:1","incarnationNumber":7,"source":"10.0.0.1:1","sourceIncarnationNumber":7,"status":"alive"}],"checksum":"e3b0c44298fc1c149afbf4c8996fb92427ae41e4649b934ca495991b7852b855","kind":"joined","source":"10.0.0.1:1","sourceIncarnationNumber":7}"#;

/// Of 10.0.0.1:1, alive at 7, and 10.0.0.2:1, suspect at 3, with weight 2.
const TWO: &str =
    r#"{"changes":[{"address":"10.0.0.1:1","incarnationNumber":7,"source":"10.0.0.1:1","sourceIncarnationNumber":7,"status":"alive"},{"address":"10.0.0.2:1","incarnationNumber":3,"source":"10.0.0.2:1","sourceIncarnationNumber":3,"status":"suspect","weight":2}],"checksum":"96236e70e85ed04fd1686bcf8c49d8c26e86a4cb4a04b7988c05563b2fa13c5b","kind":"joined","source":"10.0.0.1:1","sourceIncarnationNumber":7}"#;

/// The same with the digest of 10.0.0.1:1 alone.
const TWO_AMISS: &str =
    r#"{"changes":[{"address":"10.0.0.1:1","incarnationNumber":7,"source":"10.0.0.1:1","sourceIncarnationNumber":7,"status":"alive"},{"address":"10.0.0.2:1","incarnationNumber":3,"source":"10.0.0.2:1","sourceIncarnationNumber":3,"status":"suspect","weight":2}],"checksum":"114cdd273aed4efee25e37eb2d6f8902516de89bfb099e3deb7cd6f372fa39df","kind":"joined","source":"10.0.0.1:1","sourceIncarnationNumber":7}"#;

/// The output for no members.
const NOBODY_TEXT: &str = "\ne3b0c44298fc1c149afbf4c8996fb92427ae41e4649b934ca495991b7852b855\n";

/// Of 10.0.0.1:1.
const ALONE_TEXT: &str =
    "10.0.0.1:1alive7\n114cdd273aed4efee25e37eb2d6f8902516de89bfb099e3deb7cd6f372fa39df\n";

/// Of both.
const TWO_TEXT: &str =
    "10.0.0.1:1alive7;10.0.0.2:1suspect3*2\n96236e70e85ed04fd1686bcf8c49d8c26e86a4cb4a04b7988c05563b2fa13c5b\n";

/// The table of no members.
const NOBODY_TABLE: &str = "ADDRESS               STATUS    INCARNATION      WEIGHT SHARE\n";

/// Of both.
const TWO_TABLE: &str =
    "ADDRESS               STATUS    INCARNATION      WEIGHT SHARE\n10.0.0.1:1            alive     7                1      33.3 %\n10.0.0.2:1            suspect   3                2      66.6 %\n";

/// The change line of 10.0.0.1:1.
const FIRST: &str =
    "{\"address\":\"10.0.0.1:1\",\"incarnationNumber\":7,\"source\":\"10.0.0.1:1\",\"sourceIncarnationNumber\":7,\"status\":\"alive\"}\n";

/// That of 10.0.0.2:1, without a newline.
const SECOND: &str =
    "{\"address\":\"10.0.0.2:1\",\"incarnationNumber\":3,\"source\":\"10.0.0.2:1\",\"sourceIncarnationNumber\":3,\"status\":\"suspect\",\"weight\":2}";

/// Those of both.
const BOTH: &str =
    "{\"address\":\"10.0.0.1:1\",\"incarnationNumber\":7,\"source\":\"10.0.0.1:1\",\"sourceIncarnationNumber\":7,\"status\":\"alive\"}\n{\"address\":\"10.0.0.2:1\",\"incarnationNumber\":3,\"source\":\"10.0.0.2:1\",\"sourceIncarnationNumber\":3,\"status\":\"suspect\",\"weight\":2}\n";

/// 10.0.0.1:1 is suspect.
const AGAIN: &str =
    "{\"address\":\"10.0.0.1:1\",\"incarnationNumber\":7,\"source\":\"10.0.0.2:1\",\"sourceIncarnationNumber\":3,\"status\":\"suspect\"}\n";

const ASKS: [Row; 8] = rows! {
    Question::Ask, &[Line(said!("body": "hi", "kind": "reply"))], Ok(()), "hi\n";
    Question::Ask, &[Line(said!("body": "", "kind": "reply"))], Ok(()), "\n";
    Question::Ask, &[NOT_OWNER], Err(Asked(NotOwner)), "";
    Question::Ask, &[Line(said!("kind": "refused", "reason": "nobody"))], Err(Asked(Refused(Reason::Nobody))), "";
    Question::Ask, &[Line(said!("kind": "refused", "reason": "malformed"))], Err(Asked(Refused(Reason::Malformed))), "";
    Question::Ask, &[Line(NOBODY)], Err(Asked(Unexpected)), "";
    Question::Ask, &[Broken], Err(Asked(NoAnswer)), "";
    Question::Ask, &[Starved], Err(Asked(OutOfMemory)), "";
};

/// `ask` of a peer that replies `hi`, or an empty text: that and a newline. That is not the owner, refuses, says another thing, or can't
/// be reached; a link without memory: that fault, and nothing is written; it is asked once at most.
#[test]
fn ask_writes_the_reply_alone(rt: HostRuntime) {
    check_all(&rt, &ASKS);
}

const MEMBERS: [Row; 13] = rows! {
    Question::Members(MembersForm::Digest), &[Line(NOBODY)], Ok(()), NOBODY_TEXT;
    Question::Members(MembersForm::Lines), &[Line(NOBODY)], Ok(()), "";
    Question::Members(MembersForm::Digest), &[Joined(ALONE)], Ok(()), ALONE_TEXT;
    Question::Members(MembersForm::Lines), &[Joined(ALONE)], Ok(()), FIRST;
    Question::Members(MembersForm::Digest), &[Joined(TWO)], Ok(()), TWO_TEXT;
    Question::Members(MembersForm::Table), &[Line(NOBODY)], Ok(()), NOBODY_TABLE;
    Question::Members(MembersForm::Table), &[Joined(TWO)], Ok(()), TWO_TABLE;
    Question::Members(MembersForm::Lines), &[Joined(TWO)], Ok(()), BOTH;
    Question::Members(MembersForm::Lines), &[Joined(TWO_AMISS)], Err(Asked(Unexpected)), "";
    Question::Members(MembersForm::Lines), &[NOT_OWNER], Err(Asked(Unexpected)), "";
    Question::Members(MembersForm::Lines), &[Line(said!("kind": "refused", "reason": "full"))], Err(Asked(Refused(Reason::Full))), "";
    Question::Members(MembersForm::Lines), &[Broken], Err(Asked(NoAnswer)), "";
    Question::Members(MembersForm::Lines), &[Starved], Err(Asked(OutOfMemory)), "";
};

/// `members` of a peer that tells of no member, of itself, or of (A,7,alive) and (B,3,suspect) with weight 2: what `fold` writes; their
/// change lines; nothing of no member, as lines; a table with a third and two thirds of the keys. With another digest, or a `not-owner`: unexpected answer; that refuses:
/// that reason; that can't be reached, or without memory: that; and nothing is written.
#[test]
fn members_are_written_where_their_digest_fits(rt: HostRuntime) {
    check_all(&rt, &MEMBERS);
}

const BY_K: Question = Question::AskAny("k");

const OWNERS: [Row; 10] = rows! {
    BY_K, &[Joined(ALONE), MINE], Ok(()), "mine 10.0.0.1:1\n";
    BY_K, &[Joined(ALONE), NOT_OWNER, Joined(ALONE), MINE], Ok(()), "mine 10.0.0.1:1\n";
    BY_K, &[Joined(ALONE), NOT_OWNER, Joined(ALONE), NOT_OWNER], Err(Asked(NotOwner)), "";
    BY_K, &[Joined(TWO), THEIRS], Ok(()), "mine 10.0.0.2:1\n";
    Question::AskAny("b"), &[Joined(TWO), MINE], Ok(()), "mine 10.0.0.1:1\n";
    // alone at first, and then one of two
    BY_K, &[Joined(ALONE), NOT_OWNER, Joined(TWO), THEIRS], Ok(()), "mine 10.0.0.2:1\n";
    BY_K, &[Line(NOBODY)], Err(Asked(Refused(Reason::Nobody))), "";
    BY_K, &[Joined(ALONE_AMISS)], Err(Asked(Unexpected)), "";
    BY_K, &[Joined(ALONE), Broken], Err(Asked(NoAnswer)), "";
    BY_K, &[Joined(ALONE), Line(said!("kind": "refused", "reason": "failed"))], Err(Asked(Refused(Reason::Failed))), "";
};

/// `ask --any` over these two: the key `k` is asked of B, `b` of A. Of a peer that is not the owner once: asked once more; twice: not
/// owner, after four questions. Of one that is alone at first, and then one of two: the request is declined, and goes to B, whom the
/// second membership names. Where no member serves: refused as `nobody`; with another digest: unexpected answer; after one question. An
/// owner that can't be reached, or refuses: no answer, that reason; after two questions.
#[test]
fn the_owner_is_asked_twice_at_most(rt: HostRuntime) {
    check_all(&rt, &OWNERS);
}

const TELLS: [Row; 5] = rows! {
    Question::Tell(0, "", ALL), &[Joined(ALONE)], Ok(()), "1\n";
    Question::Tell(0, "", ALL), &[Line(NOBODY)], Ok(()), "0\n";
    Question::Tell(1, SECOND, ALL), &[Told("96236e70e85ed04fd1686bcf8c49d8c26e86a4cb4a04b7988c05563b2fa13c5b")], Ok(()), "2\n";
    Question::Tell(2, AGAIN, ALL), &[Told("12e01587fa883c32c6b64e19957814e6c7120b69e8b68fbd3513c251a619658d")], Ok(()), "1\n";
    Question::Tell(MAX_MEMBERS, "", ALL), &[Told("114cdd273aed4efee25e37eb2d6f8902516de89bfb099e3deb7cd6f372fa39df")], Ok(()), "1\n";
};

/// `tell` without a line: 1 of a peer that tells of itself, 0 of no member. The lines of A and B, the last without its newline: 2. A at 7
/// three times, the last suspect, and A 4,096 times: 1. Asked once each.
#[test]
fn tell_writes_how_many_members_there_are(rt: HostRuntime) {
    check_all(&rt, &TELLS);
}

/// `ask`, `ask --any`, `members` with and without `lines`, and `tell` (not of 4,096 lines), each time that something is written, over a
/// writer that stops after each number of bytes: exactly these are written, and cannot write.
#[test]
fn a_writer_that_fails_has_a_front(rt: HostRuntime) {
    check_fronts(&rt, &ASKS);
    check_fronts(&rt, &MEMBERS);
    check_fronts(&rt, &OWNERS);
    // but for that of all lines
    let tells = TELLS.get(..4).expect(&rt, "four rows");
    check_fronts(&rt, tells);
}

const NO_OBJECT: LineError = LineError::Wire(WireError::NotObject);

const NO_JSON: LineError = LineError::Wire(WireError::BadJson);

const FAULTS: [Row; 6] = rows! {
    Question::Tell(1, "[]\n{", ALL), &[], Err(AtLine(2, NO_OBJECT)), "";
    Question::Tell(2, "{", ALL), &[], Err(AtLine(3, NO_JSON)), "";
    Question::Tell(0, "\n[]", ALL), &[], Err(AtLine(1, NO_JSON)), "";
    // the first byte of the second line
    Question::Tell(2, "", FIRST.len() + 1), &[], Err(AtLine(2, LineError::ReadFailed)), "";
    Question::Tell(MAX_MEMBERS, SECOND, ALL), &[], Err(TooManyChanges), "";
    Question::Tell(MAX_MEMBERS, "[]", ALL), &[], Err(AtLine(4097, NO_OBJECT)), "";
};

/// `tell` of a line and `[]`, half a line at the end, an empty line, a reader that fails in the second line: that line and why. 4,096
/// changes and one more: too many changes, and `[]` in its place: line 4097. No node is asked, nothing is written.
#[test]
fn nobody_is_asked_where_a_line_is_at_fault(rt: HostRuntime) {
    check_all(&rt, &FAULTS);
}

const TOLD: [Row; 6] = rows! {
    Question::Tell(1, SECOND, ALL), &[Joined(TWO_AMISS)], Err(Asked(Unexpected)), "";
    Question::Tell(1, SECOND, ALL), &[Line(said!("body": "hi", "kind": "reply"))], Err(Asked(Unexpected)), "";
    Question::Tell(1, SECOND, ALL), &[NOT_OWNER], Err(Asked(Unexpected)), "";
    Question::Tell(1, SECOND, ALL), &[Line(said!("kind": "refused", "reason": "full"))], Err(Asked(Refused(Reason::Full))), "";
    Question::Tell(1, SECOND, ALL), &[Broken], Err(Asked(NoAnswer)), "";
    Question::Tell(1, SECOND, ALL), &[Starved], Err(Asked(OutOfMemory)), "";
};

/// `tell` of a peer that tells of others than its digest, replies, refuses, can't be reached, or without memory: as of `members`.
#[test]
fn what_a_node_answers_to_changes_is_told(rt: HostRuntime) {
    check_all(&rt, &TOLD);
}
