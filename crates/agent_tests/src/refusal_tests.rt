use agent_core::*;
use std::alloc::{AllocError, Global};
use std::env::Env;
use std::process::Abort;

/// A refusal, its status and the start of its line.
const ROWS: [(Refusal, u16, &str); 42] = rows! {
    Refusal::Malformed(Part::Key), 400, "bad key";
    Refusal::Malformed(Part::Count), 400, "bad count";
    Refusal::Malformed(Part::Body), 400, "bad body";
    Refusal::Malformed(Part::Keys), 400, "bad keys: not a JSON";
    Refusal::Malformed(Part::NotMine), 400, "bad not-mine";
    Refusal::Malformed(Part::After), 400, "bad after: not the digest";
    Refusal::Malformed(Part::Wait), 400, "bad wait: not wait=1 to wait=60";
    Refusal::Malformed(Part::Level), 400, "bad level: not level=off, level=error, level=warn, level=info or level=debug";
    Refusal::Malformed(Part::OwnerQuery), 400, "bad query: this path takes n=COUNT alone";
    Refusal::Malformed(Part::OwnersQuery), 400, "bad query: this path takes n=COUNT and";
    Refusal::Malformed(Part::RingQuery), 400, "bad query: this path takes after=DIGEST";
    Refusal::Malformed(Part::KeyField), 400, "bad key field: it comes twice, or is not ASCII";
    Refusal::Malformed(Part::WaitField), 400, "bad X-Ringpop-Wait: not one number from 1 to 60000";
    Refusal::CrossSite, 403, "refused";
    Refusal::NotFound, 404, "nothing";
    Refusal::BadMethod(Verb::Get), 405, "bad method: this path takes GET";
    Refusal::BadMethod(Verb::Post), 405, "bad method: this path takes POST";
    Refusal::BadMethod(Verb::Both), 405, "bad method: this path takes GET and POST";
    Refusal::AlreadyLeft, 409, "the node has left already";
    Refusal::NotLeft, 409, "the node has not left";
    Refusal::Exhausted, 409, "no incarnation";
    Refusal::LongBody, 413, "bad body";
    Refusal::ManyKeys, 413, "bad keys: more than";
    Refusal::LongRequest, 413, "bad body: more than 524288";
    Refusal::NotPassed, 501, "not passed on: a CONNECT";
    Refusal::ApplicationFailed, 502, "the application failed";
    Refusal::Unanswered(Failure::NotAccepted), 502, "the owner's application accepts no connection";
    Refusal::Unanswered(Failure::HungUp), 502, "the owner's application hung up";
    Refusal::Unanswered(Failure::NoAnswer), 502, "no whole answer";
    Refusal::Unanswered(Failure::BadAnswer), 502, "bad answer of the owner's application";
    Refusal::ApplicationDown, 503, "the application does not answer";
    Refusal::NotJoined, 503, "no host";
    Refusal::HasLeft, 503, "the node has left";
    Refusal::ApplicationAwaited, 503, "the node is not in the ring, since";
    Refusal::NoRounds, 503, "no round of gossip";
    Refusal::Nobody, 503, "nobody serves";
    Refusal::Busy, 503, "too many requests";
    Refusal::ManyQuestions, 503, "too many questions wait: 1000";
    Refusal::Spent, 503, "the node takes no more calls";
    Refusal::Memory, 503, "out of memory";
    Refusal::OwnerSilent, 504, "the owner does not answer";
    Refusal::AnswerLost, 504, "the answer was lost";
};

/// Returns the line of a refusal.
fn line_of(rt: &(impl Env + Abort), alloc: Global, refusal: &Refusal) -> String {
    let line = again!(rt, AllocError, refusal.line(alloc));
    line.ok().expect(rt, "a line")
}

#[test]
fn says_which_key_of_many_is_bad(rt: HostRuntime) {
    for (place, fault, wanted) in &[
        (1usize, KeyFault::Empty, "bad key 1: empty\n"),
        (17, KeyFault::Long, "bad key 17: more than 1024 bytes\n"),
        (4_095, KeyFault::NotUtf8, "bad key 4095: not UTF-8\n"),
        (4_096, KeyFault::NotText, "bad key 4096: not a text\n"),
    ] {
        let refusal = Refusal::BadKey {
            place: *place,
            fault: *fault,
        };
        let line = line_of(&rt, rt.alloc(), &refusal);
        assert!(rt; line.as_str() == *wanted, "{wanted}");
        assert!(rt;
            refusal.status() == 400 && refusal.word() == "bad-listed-key",
            "{wanted}"
        );
    }
}

#[test]
fn answers_each_refusal_with_its_status_and_a_line(rt: HostRuntime) {
    for (refusal, status, start) in &ROWS {
        let line = line_of(&rt, rt.alloc(), refusal);
        assert!(rt; refusal.status() == *status, "{start}");
        assert!(rt; line.starts_with(*start), "{start}");
        assert!(rt; line.find('\n') == line.len().checked_sub(1), "{start}");
    }
    assert!(rt; Verb::Get.name() == "GET" && Verb::Post.name() == "POST");
    assert!(rt; Answer::line("ok\n").status == 200 && Answer::line("ok\n").body == "ok\n");
}

/// Returns whether a text stands in JSON as it is.
fn is_plain(text: &str) -> bool {
    for byte in text.as_bytes() {
        if *byte < b' ' || *byte == b'"' || *byte == b'\\' {
            return false;
        }
    }
    true
}

#[test]
fn shows_each_refusal_as_json(rt: HostRuntime) {
    for (refusal, _, start) in &ROWS {
        let line = line_of(&rt, rt.alloc(), refusal);
        assert!(rt;
            is_plain(line.trim_end()) && is_plain(refusal.word()),
            "{start}"
        );
    }
    let bad_key = Refusal::BadKey {
        place: 17,
        fault: KeyFault::Long,
    };
    for (refusal, wanted) in &[
        (
            Refusal::Malformed(Part::Count),
            "{\"error\":\"bad-count\",\"message\":\"bad count: not n=1 to n=4096\"}\n",
        ),
        (
            bad_key,
            "{\"error\":\"bad-listed-key\",\"message\":\"bad key 17: more than 1024 bytes\"}\n",
        ),
        (
            Refusal::Busy,
            "{\"error\":\"busy\",\"message\":\"too many requests wait\"}\n",
        ),
    ] {
        let text = again!(&rt, AllocError, refusal.json(rt.alloc()));
        let text = text.ok().expect(&rt, "a text");
        assert!(rt; text.as_str() == *wanted, "{wanted}");
    }
}

#[test]
fn tells_refusals_apart(rt: HostRuntime) {
    let silent = Refusal::Unanswered(Failure::NoAnswer);
    for (refusal, word) in &[
        (Refusal::Malformed(Part::Key), "bad-key"),
        (Refusal::Busy, "busy"),
        (silent, "application-unresponsive"),
        (Refusal::OwnerSilent, "owner-unresponsive"),
    ] {
        assert!(rt; refusal.word() == *word, "{word}");
    }
    let lost = line_of(&rt, rt.alloc(), &silent);
    let busy = line_of(&rt, rt.alloc(), &Refusal::Busy);
    assert!(rt; Refusal::sent(502, &lost) == Some(silent));
    assert!(rt; Refusal::sent(503, &busy) == Some(Refusal::Busy));
    for (status, body) in &[
        (200u16, lost.as_str()),
        (503, lost.as_str()),
        (502, busy.as_str()),
        (502, "no whole answer of the owner's application came"),
        (502, ""),
    ] {
        assert!(rt; Refusal::sent(*status, body).is_none(), "{status} {body}");
    }
}
