//! One agent over real sockets: what it answers where its service does not, and requests that are cut.
use crate::agents::{LOOKS, Site, ask, hear, rest};
use crate::plays::{Play, check};
use crate::services::BODY;
use agent::System;
use change_core::Address;
use std::alloc::Global;
use std::fs::Files;

/// Starts an agent without hosts and its service, at an address behind this one, and waits until it is well.
fn start<R: System + Files>(rt: &R, alloc: Global, first: u32) -> Option<Site>
where
    R::File: Send,
    R::Dir: Send,
{
    let site = Site::start(rt, alloc, first.checked_add(1)?, &[])?;
    for _ in 0..LOOKS {
        if site.says(rt, alloc, "GET /healthz", "", "ok\n") {
            return Some(site);
        }
        if site.has_ended() {
            return None;
        }
        rest(rt);
    }
    None
}

/// A request, the status of its answer and, if that is a refusal, its word.
type Row = (&'static str, &'static str, &'static str);

/// Requests while the service runs, and then while it does not.
const ASKED: [Row; 4] = rows! {
    "POST /keys/k", "200", "";
    "POST /keys/gone", "502", "application-hung-up";
    "POST /keys/junk", "502", "application-bad-answer";
    "GET /keys/k", "405", "bad-method";
};

const ASKED_WITHOUT: [Row; 10] = rows! {
    "GET /healthz", "503", "application-down";
    "GET /livez", "200", "";
    "POST /keys/k", "502", "application-not-accepting";
    "POST /leave", "200", "";
    "POST /leave", "409", "already-left";
    "GET /healthz", "503", "has-left";
    "POST /keys/k", "503", "no-member-serves";
    "POST /rejoin", "200", "";
    "POST /rejoin", "409", "not-left";
    "POST /keys/k", "502", "application-not-accepting";
};

/// What is counted of these requests: seven of keys, of which five went to the service.
const COUNTS: [&str; 13] = [
    "\nringpop_requests_total{outcome=\"answered\"} 5\n",
    "\nringpop_requests_total{outcome=\"refused\"} 1\n",
    "\nringpop_requests_total{outcome=\"failed\"} 1\n",
    "\nringpop_handled_total 5\n",
    "\nringpop_forwards_total 0\n",
    "\nringpop_answers_total{from=\"service\",status=\"2xx\"} 1\n",
    "\nringpop_answers_total{from=\"service\",status=\"5xx\"} 0\n",
    "\nringpop_answers_total{from=\"agent\",status=\"2xx\"} 0\n",
    "\nringpop_answers_total{from=\"agent\",status=\"4xx\"} 1\n",
    "\nringpop_answers_total{from=\"agent\",status=\"5xx\"} 5\n",
    "\nringpop_application_failures_total 4\n",
    "\nringpop_request_seconds_count 7\n",
    "\nringpop_application_seconds_count 5\n",
];

/// Returns whether a request is answered with a status and, if it is refused, with a word.
fn is_answered<R: System>(rt: &R, alloc: Global, site: &Site, row: &Row) -> Option<bool> {
    let (request, status, word) = *row;
    let answer = ask(rt, alloc, site.http, request, BODY)?;
    let line = format!(in alloc; "HTTP/1.1 {status} ").ok()?;
    let field = if word.is_empty() {
        String::new(alloc)
    } else {
        format!(in alloc; "\r\nx-ringpop-error: {word}\r\n").ok()?
    };
    let answer = answer.as_str();
    let is_refusal = answer.contains("\r\nx-ringpop-error: ");
    Some(
        answer.starts_with(line.as_str())
            && answer.contains(field.as_str())
            && is_refusal != word.is_empty(),
    )
}

/// Returns the first request that is not answered as it is to be; None if all are.
fn first_amiss<R: System>(
    rt: &R,
    alloc: Global,
    site: &Site,
    rows: &'static [Row],
) -> Option<&'static str> {
    for row in rows {
        if is_answered(rt, alloc, site, row) != Some(true) {
            return Some(row.0);
        }
    }
    None
}

/// Returns the first line that is not among an agent's counts; None if all are.
fn first_uncounted<R: System>(rt: &R, alloc: Global, site: &Site) -> Option<&'static str> {
    let Some(text) = ask(rt, alloc, site.http, "GET /metrics", "") else {
        return Some("no counts");
    };
    for line in &COUNTS {
        if !text.as_str().contains(*line) {
            return Some(*line);
        }
    }
    None
}

/// Asks an agent while its service runs, and then while it does not. The error says what is not as it has to be.
pub(crate) fn ask_failing<R: System + Files>(
    rt: &R,
    alloc: Global,
    first: u32,
) -> Result<(), &'static str>
where
    R::File: Send,
    R::Dir: Send,
{
    let mut site = start(rt, alloc, first).ok_or("no agent")?;
    if let Some(request) = first_amiss(rt, alloc, &site, &ASKED) {
        return Err(request);
    }
    for key in ["k", "gone", "junk"].iter() {
        site.note(*key, 1).ok_or("out of memory")?;
    }
    if !site.ends_service(rt, alloc) {
        return Err("the service was asked for other keys");
    }
    if let Some(request) = first_amiss(rt, alloc, &site, &ASKED_WITHOUT) {
        return Err(request);
    }
    if let Some(line) = first_uncounted(rt, alloc, &site) {
        return Err(line);
    }
    if site.stops(rt, alloc) {
        Ok(())
    } else {
        Err("the agent does not end")
    }
}

/// An agent alone, whose service answers, hangs up and answers what is not HTTP: 200, and 502 with its word each time; then with no service:
/// neither its health nor a request is well. It leaves and comes back, each once. Each request is counted once.
#[test]
fn an_agent_says_and_counts_why_there_is_no_answer(rt: HostRuntime) {
    check(&rt, rt.alloc(), Play::Failing);
}

/// The keys of the requests that are sent together.
const KEYS: [&str; 2] = ["a", "b"];

/// Returns the requests.
fn requests(alloc: Global) -> Option<String> {
    let mut text = String::new(alloc);
    for key in &KEYS {
        let request = format!(in alloc;
            "POST /keys/{key} HTTP/1.1\r\nhost: a\r\ncontent-length: 2\r\n\r\n{BODY}"
        );
        text.push_str(request.ok()?.as_str()).ok()?;
    }
    Some(text)
}

/// Returns the answers of an agent to the first of them, as many as are counted, without their date.
fn answers(alloc: Global, own: Address, count: usize) -> Option<String> {
    let mut text = String::new(alloc);
    for key in KEYS.iter().take(count) {
        let body = format!(in alloc; "{own} {key}").ok()?;
        let (body, length) = (body.as_str(), body.len());
        let answer = format!(in alloc;
            "HTTP/1.1 200 OK\r\ncontent-type: text/plain; charset=utf-8\r\nx-ringpop-owner: {own}\r\ncontent-length: {length}\r\n\r\n{body}"
        );
        text.push_str(answer.ok()?.as_str()).ok()?;
    }
    Some(text)
}

/// Returns the lines of a text but those of a date.
fn undated(alloc: Global, text: &str) -> Option<String> {
    let mut kept = String::new(alloc);
    for line in text.split_inclusive('\n') {
        if !line.starts_with("date: ") {
            kept.push_str(line).ok()?;
        }
    }
    Some(kept)
}

/// Sends requests in two parts, of which the first are whole, as many as are counted. Returns whether these are answered, and then nothing
/// comes or, if they are not all, a 400. Notes that the service is to have been asked for them.
fn is_heard<R: System>(
    rt: &R,
    alloc: Global,
    site: &mut Site,
    first: &[u8],
    second: &[u8],
    count: usize,
) -> Option<bool> {
    let heard = hear(rt, alloc, site.http, first, second)?;
    let heard = undated(alloc, heard.as_str())?;
    for key in KEYS.iter().take(count) {
        site.note(*key, 1)?;
    }
    let wanted = answers(alloc, site.own, count)?;
    let left = heard.as_str().strip_prefix(wanted.as_str())?;
    Some(left.is_empty() || count < KEYS.len() && left.starts_with("HTTP/1.1 400 "))
}

/// Returns whether requests that come in two parts are all answered, and whether those that are whole are, where the client hangs up after the
/// first part.
fn is_cut_well<R: System>(
    rt: &R,
    alloc: Global,
    site: &mut Site,
    says: &[u8],
    at: usize,
) -> Option<bool> {
    let (first, second) = (says.get(..at)?, says.get(at..)?);
    let whole = if at == says.len() {
        2
    } else {
        usize::from(at >= says.len() / 2)
    };
    let is_all_heard = is_heard(rt, alloc, site, first, second, KEYS.len())?;
    let is_part_heard = is_heard(rt, alloc, site, first, &[], whole)?;
    Some(is_all_heard && is_part_heard)
}

/// Cuts requests at each byte. The error says what is not as it has to be.
pub(crate) fn ask_cut<R: System + Files>(
    rt: &R,
    alloc: Global,
    first: u32,
) -> Result<(), &'static str>
where
    R::File: Send,
    R::Dir: Send,
{
    let mut site = start(rt, alloc, first).ok_or("no agent")?;
    let says = requests(alloc).ok_or("no requests")?;
    let says = says.as_str().as_bytes();
    for at in 0..=says.len() {
        if is_cut_well(rt, alloc, &mut site, says, at) != Some(true) {
            return Err("requests that are cut are not answered so");
        }
    }
    if !site.ends_service(rt, alloc) {
        return Err("the service was asked for other keys");
    }
    if site.stops(rt, alloc) {
        Ok(())
    } else {
        Err("the agent does not end")
    }
}

/// Two requests that are sent together, in two parts that are cut at any byte: both are answered, to the byte. If the client hangs up after
/// the first part, those that are whole are answered, and a 400 may follow. The service is asked for each whole request once, and for no other.
#[test]
fn an_agent_answers_what_is_whole_wherever_it_is_cut(rt: HostRuntime) {
    check(&rt, rt.alloc(), Play::Cut);
}
