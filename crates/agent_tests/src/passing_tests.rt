//! Requests and answers that are passed on whole, against texts that another program made.
use agent_core::laws::passing;
use agent_core::*;
use change_core::Address;
use message_core::{Text, WireError};
use std::alloc::{AllocError, Global};

/// The text of PUT at `/shop?a=1` with the body 0, 255 and the fields `host: x` and `x-two:`.
const REQUEST: &str =
    "\u{3}AAAAAAAAAANQVVQAAAAAAAAACS9zaG9wP2E9MQAAAAAAAAACAP8AAAAAAAAABGhvc3QAAAAAAAAAAXgAAAAAAAAABXgtdHdvAAAAAAAAAAA=";

/// The text of that request with the next owner 127.0.0.1:7946.
const REQUEST_WITH_NEXT: &str =
    "\u{3}AAAAAAAAAANQVVQAAAAAAAAACS9zaG9wP2E9MQAAAAAAAAACAP8AAAAAAAAABGhvc3QAAAAAAAAAAXgAAAAAAAAABXgtdHdvAAAAAAAAAAAAAAAAAAAADngtcmluZ3BvcC1uZXh0AAAAAAAAAA4xMjcuMC4wLjE6Nzk0Ng==";

/// The text of an answer 599 without a body and with the field `set-cookie: a=1`.
const ANSWER: &str = "\u{3}AAAAAAAAAAM1OTkAAAAAAAAAAAAAAAAAAAAKc2V0LWNvb2tpZQAAAAAAAAADYT0x";

fn request(alloc: Global, next: Option<Address>) -> Result<Text, WireError> {
    let mut fields = Vec::new(alloc);
    push_field(&mut fields, b"host", b"x")?;
    push_field(&mut fields, b"x-two", b"")?;
    let bytes = join_request(alloc, b"PUT", b"/shop?a=1", &[0, 255], fields.as_slice())?;
    pack_request(alloc, Outgoing::Whole(bytes), next)
}

fn body(alloc: Global, next: Option<Address>) -> Result<Text, WireError> {
    pack_request(alloc, Outgoing::Body(Text::new(alloc, "hello")?), next)
}

fn answer(alloc: Global) -> Result<Text, WireError> {
    let mut fields = Vec::new(alloc);
    push_field(&mut fields, b"set-cookie", b"a=1")?;
    pack_answer(alloc, 599, b"", fields.as_slice())
}

/// Returns whether the parts of a text, the last of them left out if `is_cut`, are those of the request.
fn reads_request(alloc: Global, text: &str, is_cut: bool) -> Result<bool, AllocError> {
    let Some(bytes) = unpack_bytes(alloc, text)? else {
        return Ok(false);
    };
    let Some(mut parts) = parts_in(alloc, bytes.as_slice())? else {
        return Ok(false);
    };
    if is_cut {
        let _last = parts.pop();
    }
    let Some(request) = request_of(alloc, parts.as_slice())? else {
        return Ok(false);
    };
    let [first, second] = request.fields.as_slice() else {
        return Ok(false);
    };
    Ok(
        request.method == b"PUT".as_slice()
            && request.target == b"/shop?a=1".as_slice()
            && request.body == [0, 255].as_slice()
            && first.name == b"host".as_slice()
            && first.value == b"x".as_slice()
            && second.name == b"x-two".as_slice()
            && second.value.is_empty(),
    )
}

/// Returns the status of the answer with these digits for its status; None if it is not that of an answer.
fn status_of(alloc: Global, digits: &[u8]) -> Result<Option<u16>, AllocError> {
    let mut bytes = Vec::new(alloc);
    push_part(&mut bytes, digits)?;
    push_part(&mut bytes, b"body")?;
    let Some(parts) = parts_in(alloc, bytes.as_slice())? else {
        return Ok(None);
    };
    Ok(answer_of(alloc, parts.as_slice())?.map(|answer| answer.status))
}

#[test]
fn packs_a_request_and_reads_it_again(rt: HostRuntime) {
    passing();
    let text = again!(&rt, WireError::Memory, request(rt.alloc(), None))
        .ok()
        .expect(&rt, "a text");
    assert!(rt; text.as_str() == REQUEST);
    for (is_cut, wanted) in &[(false, true), (true, false)] {
        let read = again!(&rt, AllocError, reads_request(rt.alloc(), REQUEST, *is_cut)).ok();
        assert!(rt; read.expect(&rt, "memory") == *wanted);
    }
}

#[test]
fn names_the_next_owner_to_a_whole_request_alone(rt: HostRuntime) {
    let next = Address::new(0x7f00_0001, 7946);
    let whole = again!(&rt, WireError::Memory, request(rt.alloc(), next)).ok();
    assert!(rt; whole.expect(&rt, "a text").as_str() == REQUEST_WITH_NEXT);
    let alone = again!(&rt, WireError::Memory, body(rt.alloc(), next)).ok();
    assert!(rt; alone.expect(&rt, "a text").as_str() == "hello");
}

#[test]
fn packs_an_answer_and_reads_its_status(rt: HostRuntime) {
    let text = again!(&rt, WireError::Memory, answer(rt.alloc()))
        .ok()
        .expect(&rt, "a text");
    assert!(rt; text.as_str() == ANSWER);
    for (digits, wanted) in &[
        ("200", Some(200)),
        ("599", Some(599)),
        ("199", None),
        ("600", None),
        ("20", None),
        ("2000", None),
        ("2 0", None),
    ] {
        let status = again!(&rt, AllocError, status_of(rt.alloc(), digits.as_bytes())).ok();
        assert!(rt; status.expect(&rt, "memory") == *wanted, "{digits}");
    }
}

#[test]
fn says_what_passes_and_what_is_repeated(rt: HostRuntime) {
    for name in &[
        "connection",
        "keep-alive",
        "te",
        "transfer-encoding",
        "upgrade",
        "expect",
        "x-ringpop-key",
        "x-ringpop-next",
        "x-ringpop-wait",
    ] {
        assert!(rt; is_of_connection(*name), "{name}");
    }
    for name in &[
        "host",
        "cookie",
        "content-length",
        "x-forwarded-for",
        "",
        "Connection",
    ] {
        assert!(rt; !is_of_connection(*name), "{name}");
    }
    for method in &["GET", "HEAD", "PUT", "DELETE", "OPTIONS"] {
        assert!(rt; is_repeatable(*method), "{method}");
    }
    for method in &["POST", "PATCH", "CONNECT", "get", ""] {
        assert!(rt; !is_repeatable(*method), "{method}");
    }
}

/// Returns whether a text is that of a request, of an answer, and of a body alone; None if it is that of no bytes.
fn forms_of(alloc: Global, text: &str) -> Result<Option<(bool, bool, bool)>, AllocError> {
    let Some(bytes) = unpack_bytes(alloc, text)? else {
        return Ok(None);
    };
    let bytes = bytes.as_slice();
    let request = request_in(alloc, bytes)?.is_some();
    let answer = answer_in(alloc, bytes)?.is_some();
    Ok(Some((request, answer, body_in(bytes).is_some())))
}

#[test]
fn reads_each_form_as_itself_alone(rt: HostRuntime) {
    for (text, wanted) in &[
        (REQUEST, Some((true, false, false))),
        (ANSWER, Some((false, true, false))),
        ("\u{3}AAAAAAAAAAIDeA==", Some((false, false, true))),
        ("\u{3}AAAAAAAAAAIDeAA=", Some((false, false, false))),
        ("\u{3}", Some((false, false, false))),
        ("\u{3}A", None),
        ("hello", None),
    ] {
        let forms = again!(&rt, AllocError, forms_of(rt.alloc(), *text)).ok();
        assert!(rt; forms.expect(&rt, "memory") == *wanted);
    }
}
