//! An application's answer (its status, whether it is JSON, and its body) as the one text that a Reply carries.
ghost use Rattle.std.specs.Prelude.{◌≡◌, ◌<◌, ◌≤◌, IfOk, IfSome, IsOkUnless, OnSome, length, slice_index, string_bytes};
ghost use Rattle.agent_core.specs.Packs.{header_of, is_marked, marked, packed, unpacked};

use message_core::{Text, WireError};
use std::alloc::{AllocError, Global};

/// The most bytes in the body of a request or of an answer. Escaped in JSON, such a body fits the line of a message.
pub const MAX_BODY_BYTES: usize = 131_072;

/// The least status that an application's answer can have. A lower one is for the connection alone (RFC 9110, section
/// 15.2).
pub const MIN_STATUS: u16 = 200;

/// The greatest status that an application's answer can have.
pub const MAX_STATUS: u16 = 599;

/// An application's answer: its status, whether its content type is JSON, and its body.
#[derive(Clone, Copy, Debug, PartialEq, Eq)]
pub struct Packed<'a> {
    pub status: u16,
    pub is_json: bool,
    pub body: &'a str,
}

/// Returns whether a body starts with a mark: U+0001 for text, U+0002 for JSON, U+0003 for parts.
fn is_marked(body: &[u8]) -> bool
    ensures { result ≡ is_marked body.now }
{
    match body {
        [first, ..] => *first == 1 || *first == 2 || *first == 3,
        [] => false,
    }
}

/// Returns the mark, the status, a space and the body.
fn marked(alloc: Global, status: u16, is_json: bool, body: &str) -> Result<String, AllocError>
    requires least { MIN_STATUS ≤ status }
    requires greatest { status ≤ MAX_STATUS }
    ensures { IfOk result (λ s. string_bytes s ≡ marked status is_json body.now) }
{
    let mark = if is_json { "\u{2}" } else { "\u{1}" };
    Ok(format!(in alloc; "{mark}{status} {body}")?)
}

/// Returns the text that represents an answer with a status from 200 to 599. It is the body alone if the status is 200,
/// the body is not JSON and starts with no mark; else it is a mark, the status, a space and the body.
///
/// # Errors
///
/// - `Memory`: out of memory.
pub fn pack(alloc: Global, status: u16, is_json: bool, body: &str) -> Result<Text, WireError>
    requires least { MIN_STATUS ≤ status }
    requires greatest { status ≤ MAX_STATUS }
    ensures text { IfOk result (λ text. text ≡ packed status is_json body.now) }
    ensures refusal { IsOkUnless result WireError.Memory }
{
    if status == 200 && !is_json && !is_marked(body.as_bytes()) {
        return Text::new(alloc, body);
    }
    let text = marked(alloc, status, is_json, body)?;
    Ok(Text::from_string(text))
}

/// Returns the status that a text starts with, and whether the body after it is JSON; None if no mark, status from 200
/// to 599 and space come first.
fn header_of(text: &[u8]) -> Option<(u16, bool)>
    ensures header { result ≡ header_of text.now }
    ensures range { IfSome result (λ r. (200 ≤ r.0) × (r.0 ≤ 599)) }
    ensures space { OnSome result ((4 < length text.now) × (slice_index text.now 4 ≡ 32)) }
{
    match text {
        [
            mark @ 1..=2,
            hundreds @ b'2'..=b'5',
            tens @ b'0'..=b'9',
            ones @ b'0'..=b'9',
            b' ',
            ..
        ] => {
            let status = 100 * u16::from(hundreds - b'0')
                + 10 * u16::from(tens - b'0')
                + u16::from(ones - b'0');
            Some((status, *mark == 2))
        }
        _ => None,
    }
}

/// Returns the answer that a text represents. Every text represents one: a text that does not start with a mark, a
/// status and a space is the body of an answer with status 200 that is not JSON.
pub fn unpack(text: &str) -> Packed<'_>
    ensures status { result.status ≡ (unpacked text.now).status }
    ensures range { (200 ≤ result.status) × (result.status ≤ 599) }
    ensures is_json { result.is_json ≡ (unpacked text.now).is_json }
    ensures body { result.body.now ≡ (unpacked text.now).body }
{
    match header_of(text.as_bytes()) {
        Some((status, is_json)) => Packed {
            status,
            is_json,
            body: text.split_at(5).1,
        },
        None => Packed {
            status: 200,
            is_json: false,
            body: text,
        },
    }
}
