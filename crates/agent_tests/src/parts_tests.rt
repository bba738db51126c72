//! Parts as texts, against texts that another program made.
use agent_core::laws::parts;
use agent_core::*;
use message_core::{Text, WireError};
use std::alloc::{AllocError, Global};

/// The text of the parts `GET`, `/keys/a` and none.
const REQUEST: &str = "\u{3}AAAAAAAAAANHRVQAAAAAAAAABy9rZXlzL2EAAAAAAAAAAA==";

/// Texts that represent no bytes.
const OTHERS: [&str; 5] = ["", "GET", "AAAA", "\u{3}A", "\u{3}AAAB="];

fn packed(alloc: Global) -> Result<Text, WireError> {
    let mut bytes = Vec::new(alloc);
    push_part(&mut bytes, b"GET")?;
    push_part(&mut bytes, b"/keys/a")?;
    push_part(&mut bytes, b"")?;
    pack_bytes(alloc, bytes.as_slice())
}

/// Returns how many parts bytes are; None if they are none.
fn count_in(alloc: Global, bytes: &[u8]) -> Result<Option<usize>, AllocError> {
    match parts_in(alloc, bytes)? {
        Some(parts) => Ok(Some(parts.len())),
        None => Ok(None),
    }
}

#[test]
fn packs_parts_and_reads_them_again(rt: HostRuntime) {
    parts();
    let text = again!(&rt, WireError::Memory, packed(rt.alloc()))
        .ok()
        .expect(&rt, "a text");
    assert!(rt; text.as_str() == REQUEST);
    let mut bytes = again!(&rt, AllocError, unpack_bytes(rt.alloc(), REQUEST))
        .ok()
        .expect(&rt, "memory")
        .expect(&rt, "bytes");
    for cut in 0..8 {
        let count = again!(&rt, AllocError, count_in(rt.alloc(), bytes.as_slice())).ok();
        let wanted = if cut == 0 { Some(3) } else { None };
        assert!(rt; count.expect(&rt, "memory") == wanted);
        let _last = bytes.pop();
    }
}

#[test]
fn reads_no_bytes_of_other_texts(rt: HostRuntime) {
    for text in &OTHERS {
        let none = again!(&rt, AllocError, unpack_bytes(rt.alloc(), *text)).ok();
        assert!(rt; none.expect(&rt, "memory").is_none(), "{text}");
    }
}

fn packed_body(alloc: Global, body: &str) -> Result<Text, WireError> {
    pack_body(alloc, Text::new(alloc, body)?)
}

#[test]
fn packs_only_a_body_that_could_be_parts(rt: HostRuntime) {
    for (body, text) in &[
        ("", ""),
        ("hello", "hello"),
        ("\u{1}\u{3}", "\u{1}\u{3}"),
        ("\u{3}x", "\u{3}AAAAAAAAAAIDeA=="),
    ] {
        let packed = again!(&rt, WireError::Memory, packed_body(rt.alloc(), *body)).ok();
        assert!(rt; packed.expect(&rt, "a text").as_str() == *text);
    }
}

#[test]
fn finds_the_text_of_a_key(rt: HostRuntime) {
    assert!(rt; key_text("/keys/a%2Fb/c/d", None) == Some("a%2Fb"));
    assert!(rt; key_text("/keys/", None) == Some(""));
    assert!(rt; key_text("/keys/a", Some("b")) == Some("b"));
    assert!(rt; key_text("/shop", Some("b")) == Some("b"));
    assert!(rt; key_text("/shop", None).is_none());
    assert!(rt; key_text("/keysa", None).is_none());
}
