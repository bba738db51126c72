use agent_core::*;
use std::alloc::{AllocError, Global};
use std::env::Env;
use std::process::Abort;

/// The action of a request or its refusal, in a form that can be compared.
#[derive(Clone, Copy, Debug)]
enum Wanted {
    Handle(&'static str, &'static str),
    Owners(&'static str, usize),
    /// The first key, the last, how many there are, the number of owners and whether only those of others are wanted.
    AllOwners(&'static str, &'static str, usize, usize, bool),
    Ring(Option<&'static str>),
    Members,
    Digest,
    Health,
    Live,
    Metrics,
    Log(Option<LogLevel>),
    Page,
    Leave,
    Rejoin,
    Stop,
    Refused(Reason),
}

/// A refusal of `route`. (None of them names an address, so a table of them may be a static.)
#[derive(Clone, Copy, Debug)]
enum Reason {
    Malformed(Part),
    BadKey(usize, KeyFault),
    BadMethod(Verb),
    NotFound,
    LongBody,
    ManyKeys,
}

fn is_refused(refusal: &Refusal, reason: Reason) -> bool {
    match (refusal, reason) {
        (Refusal::Malformed(part), Reason::Malformed(wanted)) => *part == wanted,
        (Refusal::BadKey { place, fault }, Reason::BadKey(nth, wanted)) => {
            *place == nth && *fault == wanted
        }
        (Refusal::BadMethod(verb), Reason::BadMethod(wanted)) => *verb == wanted,
        (Refusal::NotFound, Reason::NotFound)
        | (Refusal::LongBody, Reason::LongBody)
        | (Refusal::ManyKeys, Reason::ManyKeys) => true,
        _ => false,
    }
}

fn is_wanted(asked: &Result<Action, Refusal>, wanted: Wanted) -> bool {
    match (asked, wanted) {
        (Ok(Action::Handle { key, body }), Wanted::Handle(a, b)) => {
            key.as_str() == a && body.as_str() == b
        }
        (Ok(Action::Owners { key, count }), Wanted::Owners(a, n)) => key.as_str() == a
            && *count == n,
        (
            Ok(
                Action::AllOwners {
                    keys,
                    count,
                    only_others,
                },
            ),
            Wanted::AllOwners(first, last, number, n, others),
        ) => {
            let keys = keys.as_slice();
            keys.len() == number
                && keys.first().is_none_or(|key| key.as_str() == first)
                && keys.last().is_none_or(|key| key.as_str() == last)
                && *count == n
                && *only_others == others
        }
        (Ok(Action::Ring { after: Some(after) }), Wanted::Ring(Some(text))) => after.as_str()
            == text,
        (Ok(Action::Ring { after: None }), Wanted::Ring(None)) => true,
        (Ok(Action::Log { level }), Wanted::Log(wanted)) => *level == wanted,
        (Ok(Action::Members), Wanted::Members)
        | (Ok(Action::Digest), Wanted::Digest)
        | (Ok(Action::Health), Wanted::Health)
        | (Ok(Action::Live), Wanted::Live)
        | (Ok(Action::Metrics), Wanted::Metrics)
        | (Ok(Action::Page), Wanted::Page)
        | (Ok(Action::Leave), Wanted::Leave)
        | (Ok(Action::Rejoin), Wanted::Rejoin)
        | (Ok(Action::Stop), Wanted::Stop) => true,
        (Err(refusal), Wanted::Refused(reason)) => is_refused(refusal, reason),
        _ => false,
    }
}

/// A method, a path, a query, a body, and the action or the refusal.
type Row = (
    &'static str,
    &'static str,
    Option<&'static str>,
    &'static [u8],
    Wanted,
);

const KEY: Wanted = Wanted::Refused(Reason::Malformed(Part::Key));

const COUNT: Wanted = Wanted::Refused(Reason::Malformed(Part::Count));

const KEYS: Wanted = Wanted::Refused(Reason::Malformed(Part::Keys));

const NOT_MINE: Wanted = Wanted::Refused(Reason::Malformed(Part::NotMine));

const AFTER: Wanted = Wanted::Refused(Reason::Malformed(Part::After));

const WAIT: Wanted = Wanted::Refused(Reason::Malformed(Part::Wait));

const OWNER_QUERY: Wanted = Wanted::Refused(Reason::Malformed(Part::OwnerQuery));

const OWNERS_QUERY: Wanted = Wanted::Refused(Reason::Malformed(Part::OwnersQuery));

const RING_QUERY: Wanted = Wanted::Refused(Reason::Malformed(Part::RingQuery));

/// The text of a digest.
const DIGEST: &str = "00000000000000000000000000000000000000000000000000000000000000af";

const GET_ONLY: Wanted = Wanted::Refused(Reason::BadMethod(Verb::Get));

const POST_ONLY: Wanted = Wanted::Refused(Reason::BadMethod(Verb::Post));

const LEVEL: Wanted = Wanted::Refused(Reason::Malformed(Part::Level));

const BOTH: Wanted = Wanted::Refused(Reason::BadMethod(Verb::Both));

const NOWHERE: Wanted = Wanted::Refused(Reason::NotFound);

static ROWS: [Row; 123] = rows! {
    "POST", "/keys/a", None, b"hello", Wanted::Handle("a", "hello");
    "POST", "/keys/a", None, b"", Wanted::Handle("a", "");
    "POST", "/keys/a%20b%2Fc%C3%BC", None, b"x", Wanted::Handle("a b/c\u{fc}", "x");
    "POST", "/keys/a/b", None, b"x", Wanted::Handle("a/b", "x");
    "POST", "/keys/a+b", None, b"x", Wanted::Handle("a+b", "x");
    "POST", "/keys/%", None, b"x", Wanted::Handle("%", "x");
    "POST", "/keys/%zz%4", None, b"x", Wanted::Handle("%zz%4", "x");
    "POST", "/keys/%00", None, b"x", Wanted::Handle("\0", "x");
    "POST", "/keys/a", Some("n=0"), b"x", Wanted::Handle("a", "x");
    "POST", "/keys/a", None, b"\xc3", Wanted::Refused(Reason::Malformed(Part::Body));
    "POST", "/keys/", None, b"x", KEY;
    "POST", "/keys/%ff", None, b"x", KEY;
    "POST", "/keys/%ff", None, b"\xc3", KEY;
    "GET", "/keys/a", None, b"", POST_ONLY;
    "PUT", "/keys/%ff", None, b"\xc3", POST_ONLY;
    "post", "/keys/a", None, b"", POST_ONLY;
    "POST", "/keys", None, b"x", NOWHERE;
    "POST", "/Keys/a", None, b"x", NOWHERE;
    "POST", "//keys/a", None, b"x", NOWHERE;
    "GET", "/owner/a", None, b"", Wanted::Owners("a", 1);
    "GET", "/owner/a", Some("n=1"), b"", Wanted::Owners("a", 1);
    "GET", "/owner/a", Some("n=3"), b"\xc3", Wanted::Owners("a", 3);
    "GET", "/owner/a", Some("n=0003"), b"", Wanted::Owners("a", 3);
    "GET", "/owner/a", Some("n=4096"), b"", Wanted::Owners("a", 4096);
    "GET", "/owner/a", Some("n=4097"), b"", COUNT;
    "GET", "/owner/a", Some("n=0"), b"", COUNT;
    "GET", "/owner/a", Some("n="), b"", COUNT;
    "GET", "/owner/a", Some("n=+3"), b"", COUNT;
    "GET", "/owner/a", Some("n=-3"), b"", COUNT;
    "GET", "/owner/a", Some("n=3 "), b"", COUNT;
    "GET", "/owner/a", Some("n=3&n=4"), b"", COUNT;
    "GET", "/owner/a", Some("N=3"), b"", OWNER_QUERY;
    "GET", "/owner/a", Some(""), b"", OWNER_QUERY;
    "GET", "/owner/a", Some("not-mine=1"), b"", OWNER_QUERY;
    "GET", "/owner/a", Some("n=18446744073709551617"), b"", COUNT;
    "GET", "/owner/", Some("n=0"), b"", KEY;
    "POST", "/owner/a", None, b"", GET_ONLY;
    "GET", "/owner", None, b"", NOWHERE;
    "GET", "/members", None, b"", Wanted::Members;
    "GET", "/members", Some("x"), b"\xff", Wanted::Members;
    "GET", "/digest", None, b"", Wanted::Digest;
    "GET", "/healthz", None, b"", Wanted::Health;
    "GET", "/readyz", None, b"", Wanted::Health;
    "GET", "/livez", None, b"", Wanted::Live;
    "GET", "/metrics", None, b"", Wanted::Metrics;
    "GET", "/", None, b"", Wanted::Page;
    "POST", "/leave", None, b"", Wanted::Leave;
    "POST", "/rejoin", None, b"", Wanted::Rejoin;
    "POST", "/stop", None, b"", Wanted::Stop;
    "POST", "/owners", None, b"a\nb%0Ac\r\nd", Wanted::AllOwners("a", "d", 3, 1, false);
    "POST", "/owners", Some("n=2&not-mine=1"), b"[\"a\", \"b%0A\\n\"]", Wanted::AllOwners("a", "b%0A\n", 2, 2, true);
    "POST", "/owners", Some("not-mine=1&n=3"), b"%5B\n", Wanted::AllOwners("[", "[", 1, 3, true);
    "POST", "/owners", Some("not-mine=1"), b"", Wanted::AllOwners("", "", 0, 1, true);
    "POST", "/owners", None, b"[]", Wanted::AllOwners("", "", 0, 1, false);
    "POST", "/owners", None, b" \r\n\t[\"a\",\"b\"] \n", Wanted::AllOwners("a", "b", 2, 1, false);
    "POST", "/owners", None, b" a\n[", Wanted::AllOwners(" a", "[", 2, 1, false);
    "POST", "/owners", None, b" ", Wanted::AllOwners(" ", " ", 1, 1, false);
    "POST", "/owners", None, b" [", KEYS;
    "POST", "/owners", None, b"a\n\nb", Wanted::Refused(Reason::BadKey(2, KeyFault::Empty));
    "POST", "/owners", None, b"a\nb\n%ff\n\n", Wanted::Refused(Reason::BadKey(3, KeyFault::NotUtf8));
    "POST", "/owners", None, b"[\"a\",1]", Wanted::Refused(Reason::BadKey(2, KeyFault::NotText));
    "POST", "/owners", None, b"[\"\"]", Wanted::Refused(Reason::BadKey(1, KeyFault::Empty));
    "POST", "/owners", Some("n=0"), b"a", COUNT;
    "POST", "/owners", Some("not-mine=1&n=0"), b"a", COUNT;
    "POST", "/owners", Some("not-mine=0"), b"a", NOT_MINE;
    "POST", "/owners", Some("not-mine="), b"a", NOT_MINE;
    "POST", "/owners", Some("n=2&not-mine=true"), b"a", NOT_MINE;
    "POST", "/owners", Some(""), b"a", OWNERS_QUERY;
    "POST", "/owners", Some("x=1"), b"a", OWNERS_QUERY;
    "POST", "/owners", Some("n=2&x=1"), b"a", OWNERS_QUERY;
    "POST", "/owners", Some("x=1&not-mine=1"), b"a", OWNERS_QUERY;
    "POST", "/owners", Some("n=2&n=3"), b"a", OWNERS_QUERY;
    "POST", "/owners", Some("not-mine=1&not-mine=1"), b"a", OWNERS_QUERY;
    "POST", "/owners", Some("n=2&not-mine=1&x"), b"a", OWNERS_QUERY;
    "POST", "/owners", Some("n=2&"), b"a", OWNERS_QUERY;
    "POST", "/owners", None, b"[\"a\"", KEYS;
    "POST", "/owners", None, b"[] []", KEYS;
    "POST", "/owners", None, b"\xc3", Wanted::Refused(Reason::Malformed(Part::Body));
    "GET", "/owners", None, b"", POST_ONLY;
    "GET", "/ring", None, b"", Wanted::Ring(None);
    "GET", "/ring", Some("after=00000000000000000000000000000000000000000000000000000000000000af"), b"", Wanted::Ring(Some(DIGEST));
    "GET", "/ring", Some("after=00000000000000000000000000000000000000000000000000000000000000af&wait=60"), b"", Wanted::Ring(Some(DIGEST));
    "GET", "/ring", Some("wait=1&after=00000000000000000000000000000000000000000000000000000000000000af"), b"", Wanted::Ring(Some(DIGEST));
    "GET", "/ring", Some("after=00000000000000000000000000000000000000000000000000000000000000af&wait=61"), b"", WAIT;
    "GET", "/ring", Some("after=00000000000000000000000000000000000000000000000000000000000000af&wait=0"), b"", WAIT;
    "GET", "/ring", Some("wait=&after=00000000000000000000000000000000000000000000000000000000000000af"), b"", WAIT;
    "GET", "/ring", Some("after=00000000000000000000000000000000000000000000000000000000000000af&n=1"), b"", RING_QUERY;
    "GET", "/ring", Some("after=00000000000000000000000000000000000000000000000000000000000000af&wait=1&wait=1"), b"", RING_QUERY;
    "GET", "/ring", Some("after=00000000000000000000000000000000000000000000000000000000000000aF"), b"", AFTER;
    "GET", "/ring", Some("after=0000000000000000000000000000000000000000000000000000000000000af"), b"", AFTER;
    "GET", "/ring", Some("after=0000000000000000000000000000000000000000000000000000000000000000af"), b"", AFTER;
    "GET", "/ring", Some("after=00000000000000000000000000000000000000000000000000000000000000ag"), b"", AFTER;
    "GET", "/ring", Some("after=&wait=5"), b"", AFTER;
    "GET", "/ring", Some("wait=1"), b"", RING_QUERY;
    "GET", "/ring", Some("wait=1&wait=2"), b"", RING_QUERY;
    "GET", "/ring", Some(""), b"", RING_QUERY;
    "POST", "/ring", None, b"", GET_ONLY;
    "POST", "/members", None, b"", GET_ONLY;
    "HEAD", "/digest", None, b"", GET_ONLY;
    "DELETE", "/healthz", None, b"", GET_ONLY;
    "POST", "/metrics", None, b"", GET_ONLY;
    "POST", "/", None, b"", GET_ONLY;
    "GET", "/leave", None, b"", POST_ONLY;
    "GET", "/rejoin", None, b"", POST_ONLY;
    "GET", "/stop", None, b"", POST_ONLY;
    "GET", "/log", None, b"", Wanted::Log(None);
    "GET", "/log", Some("level=trace"), b"", Wanted::Log(None);
    "POST", "/log", Some("level=off"), b"", Wanted::Log(Some(LogLevel::Off));
    "POST", "/log", Some("level=error"), b"", Wanted::Log(Some(LogLevel::Error));
    "POST", "/log", Some("level=warn"), b"", Wanted::Log(Some(LogLevel::Warn));
    "POST", "/log", Some("level=info"), b"", Wanted::Log(Some(LogLevel::Info));
    "POST", "/log", Some("level=debug"), b"level=off", Wanted::Log(Some(LogLevel::Debug));
    "POST", "/log", None, b"level=debug", LEVEL;
    "POST", "/log", Some("level="), b"", LEVEL;
    "POST", "/log", Some("level=trace"), b"", LEVEL;
    "POST", "/log", Some("level=Debug"), b"", LEVEL;
    "POST", "/log", Some("level=debug&level=info"), b"", LEVEL;
    "POST", "/log", Some("n=debug"), b"", LEVEL;
    "PUT", "/log", Some("level=debug"), b"", BOTH;
    "POST", "/log/", Some("level=debug"), b"", NOWHERE;
    "GET", "", None, b"", NOWHERE;
    "GET", "/members/", None, b"", NOWHERE;
    "BREW", "/favicon.ico", None, b"", NOWHERE;
};

/// Returns whether this request asks what is wanted.
fn asks(
    rt: &(impl Env + Abort),
    alloc: Global,
    (method, path): (&str, &str),
    query: Option<&str>,
    body: &[u8],
    wanted: Wanted,
) -> bool {
    let asked = again!(rt, Refusal::Memory, route(alloc, method, path, query, body));
    is_wanted(&asked, wanted)
}

#[test]
fn asks_what_each_row_says(rt: HostRuntime) {
    for (method, path, query, body, wanted) in &ROWS {
        assert!(rt;
            asks(&rt, rt.alloc(), (*method, *path), *query, *body, *wanted),
            "{method} {path}"
        );
    }
}

/// The path of the owner of a key of this many letters.
fn path_of(alloc: Global, len: usize) -> Result<String, AllocError> {
    let mut path = String::from_str(alloc, "/owner/")?;
    for _ in 0..len {
        path.push_str("k")?;
    }
    Ok(path)
}

/// Returns whether a key of `len` bytes is taken, or else refused.
fn takes_key(rt: &(impl Env + Abort), alloc: Global, len: usize, fits: bool) -> bool {
    let path = again!(rt, _, path_of(alloc, len));
    let path = path.ok().expect(rt, "a path");
    let asked = again!(rt, Refusal::Memory, route(alloc, "GET", &path, None, b""));
    asked.is_ok() == fits && (fits || is_wanted(&asked, KEY))
}

/// Returns whether a line of `len` bytes is taken for one of many keys, or else refused.
fn takes_line(rt: &(impl Env + Abort), alloc: Global, len: usize, fits: bool) -> bool {
    let line = again!(rt, _, vec![in alloc; b'k'; len]);
    let line = line.ok().expect(rt, "a line");
    let asked = again!(
        rt,
        Refusal::Memory,
        route(alloc, "POST", "/owners", None, &line)
    );
    let long = Wanted::Refused(Reason::BadKey(1, KeyFault::Long));
    asked.is_ok() == fits && (fits || is_wanted(&asked, long))
}

/// Returns whether a body of `len` bytes is taken, or else refused.
fn takes_body(rt: &(impl Env + Abort), alloc: Global, len: usize, fits: bool) -> bool {
    let body = again!(rt, _, vec![in alloc; b'b'; len]);
    let body = body.ok().expect(rt, "a body");
    let asked = again!(
        rt,
        Refusal::Memory,
        route(alloc, "POST", "/keys/k", None, &body)
    );
    asked.is_ok() == fits && (fits || is_wanted(&asked, Wanted::Refused(Reason::LongBody)))
}

#[test]
fn takes_keys_and_bodies_up_to_their_length(rt: HostRuntime) {
    for (len, fits) in &[(1_024usize, true), (1_025, false)] {
        assert!(rt; takes_key(&rt, rt.alloc(), *len, *fits), "{len}");
        assert!(rt; takes_line(&rt, rt.alloc(), *len, *fits), "{len}");
    }
    for (len, fits) in &[(131_072usize, true), (131_073, false)] {
        assert!(rt; takes_body(&rt, rt.alloc(), *len, *fits), "{len}");
    }
}

/// The start of a request, and the digest and the seconds of the question that waits.
static QUESTIONS: [(&str, Option<(&str, usize)>); 7] = [
    (
        "GET /ring?after=00000000000000000000000000000000000000000000000000000000000000af&wait=5 HTTP/1.1\r\n",
        Some((DIGEST, 5)),
    ),
    (
        "GET /ring?wait=5&after=00000000000000000000000000000000000000000000000000000000000000af HTTP/1.1\r\n",
        Some((DIGEST, 5)),
    ),
    (
        "GET /ring?after=00000000000000000000000000000000000000000000000000000000000000af HTTP/1.1\r\n",
        Some((DIGEST, 0)),
    ),
    (
        "GET /ring?after=00000000000000000000000000000000000000000000000000000000000000af&wait=5",
        None,
    ),
    ("GET /ring?after=ab&wait=5 HTTP/1.1\r\n", None),
    ("GET /ring HTTP/1.1\r\n", None),
    (
        "GET /members?after=00000000000000000000000000000000000000000000000000000000000000af&wait=5 HTTP/1.1\r\n",
        None,
    ),
];

#[test]
fn finds_the_question_that_waits(rt: HostRuntime) {
    for (head, wanted) in &QUESTIONS {
        assert!(rt; question_at(*head) == *wanted);
    }
}

/// Returns whether this many lines, the first with a letter and the others empty, are refused as wanted.
fn refuses_lines(rt: &(impl Env + Abort), alloc: Global, count: usize, wanted: Wanted) -> bool {
    let lines = again!(rt, _, vec![in alloc; b'\n'; count]);
    let mut lines = lines.ok().expect(rt, "lines");
    for byte in lines.iter_mut().take(1) {
        *byte = b'k';
    }
    let asked = again!(
        rt,
        Refusal::Memory,
        route(alloc, "POST", "/owners", None, &lines)
    );
    is_wanted(&asked, wanted)
}

/// 4,096 lines are keys, and one more is too many. (The first has a byte more.)
#[test]
fn takes_keys_up_to_their_number(rt: HostRuntime) {
    let second = Wanted::Refused(Reason::BadKey(2, KeyFault::Empty));
    assert!(rt; refuses_lines(&rt, rt.alloc(), 4_097, second));
    assert!(rt; refuses_lines(&rt, rt.alloc(), 4_098, Wanted::Refused(Reason::ManyKeys)));
}
