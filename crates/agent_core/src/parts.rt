//! Byte strings, one after another, as the one text that a Forward or a Reply carries: so an HTTP request and its answer go
//! from node to node as they are.
ghost use Rattle.std.specs.Prelude.{◌≡◌, ◌≢◌, ◌<◌, ◌++◌, ℕ, Ok, None, List, IfOk, IfSome, IfNone, IsOkUnless, OnOk, length, map};
ghost use Rattle.base64.specs.GeneralPurpose.{IsBytes};
ghost use Rattle.agent_core.specs.Parts.{is_reserved, joined, packed_bytes, part_of, text_of_body};

use base64::DecodeAllocError;
use base64::engine::general_purpose::STANDARD;
use message_core::{Text, WireError};
use std::alloc::{AllocError, Global};

/// The most bytes in the body of a request or of an answer that is passed on whole. In base64, with a head of 16,384 bytes,
/// it fits the line of a message.
pub const MAX_REQUEST_BYTES: usize = 524_288;

/// Appends a part: its length in eight bytes, the greatest first, and its bytes.
///
/// # Errors
///
/// - `AllocError`: out of memory. The length may be appended without the bytes.
pub fn push_part(bytes: &mut Vec<u8>, part: &[u8]) -> Result<(), AllocError>
    ensures { OnOk result (bytes.new.items ≡ bytes.old.items ++ part_of part.now) }
{
    bytes.extend_from_slice(&(part.len() as u64).to_be_bytes())?;
    bytes.extend_from_slice(part)
}

/// Returns the first part, and the bytes after it; None if no whole part comes first.
fn first_part(bytes: &[u8]) -> Option<(&[u8], &[u8])>
    ensures part { IfSome result (λ r. bytes.now ≡ part_of r.0.now ++ r.1.now) }
    ensures shorter { IfSome result (λ r. length r.1.now < length bytes.now) }
    ensures none { IfNone result ((part rest : List ℕ) → bytes.now ≢ part_of part ++ rest) }
{
    match bytes {
        [a, b, c, d, e, f, g, h, rest @ ..] => {
            let len = u64::from_be_bytes([*a, *b, *c, *d, *e, *f, *g, *h]);
            if len <= rest.len() as u64 {
                Some(rest.split_at(len as usize))
            } else {
                None
            }
        }
        _ => None,
    }
}

/// Returns the parts that these bytes are; None if they are no whole parts.
///
/// # Errors
///
/// - `AllocError`: out of memory.
pub fn parts_in(alloc: Global, bytes: &[u8]) -> Result<Option<Vec<&[u8]>>, AllocError>
    ensures parts { IfOk result (λ r. IfSome r (λ parts. bytes.now ≡ joined (map (λ p. p.now) parts.items))) }
    ensures none { result ≡ Ok None → (parts : List (List ℕ)) → bytes.now ≢ joined parts }
{
    let mut parts = Vec::new(alloc);
    let mut rest = bytes;
    while !rest.is_empty() {
        let Some((part, after)) = first_part(rest) else {
            return Ok(None);
        };
        parts.push(part)?;
        rest = after;
    }
    Ok(Some(parts))
}

/// Returns the text that represents these bytes: U+0003 and the bytes in base64.
///
/// # Errors
///
/// - `Memory`: out of memory.
pub fn pack_bytes(alloc: Global, bytes: &[u8]) -> Result<Text, WireError>
    ensures text { IfOk result (λ text. text ≡ packed_bytes bytes.now) }
    ensures refusal { IsOkUnless result WireError.Memory }
{
    let mut text = String::from_str(alloc, "\u{3}")?;
    STANDARD.encode_string(bytes, &mut text)?;
    Ok(Text::from_string(text))
}

/// Returns the bytes that a text represents; None if it represents none.
///
/// # Errors
///
/// - `AllocError`: out of memory.
pub fn unpack_bytes(alloc: Global, text: &str) -> Result<Option<Vec<u8>>, AllocError>
    ensures bytes { IfOk result (λ r. IfSome r (λ bytes. text.now ≡ packed_bytes bytes.items)) }
    ensures octets { IfOk result (λ r. IfSome r (λ bytes. IsBytes bytes.items)) }
    ensures none { result ≡ Ok None → (bytes : List ℕ) → IsBytes bytes → text.now ≢ packed_bytes bytes }
{
    let Some(encoded) = text.strip_prefix("\u{3}") else {
        return Ok(None);
    };
    match STANDARD.decode(alloc, encoded.as_bytes()) {
        Ok(bytes) => Ok(Some(bytes)),
        Err(DecodeAllocError::OutOfMemory) => Err(AllocError),
        Err(DecodeAllocError::DecodeError(_)) => Ok(None),
    }
}

/// Returns whether a body starts with U+0003, as the text of parts does.
fn is_reserved(body: &[u8]) -> bool
    ensures { result ≡ is_reserved body.now }
{
    match body {
        [first, ..] => *first == 3,
        [] => false,
    }
}

/// Returns the text of a request that is a body alone: the body as it is or, if it starts with U+0003, the text of that one
/// part. So no body is read as a request of another method or path.
///
/// # Errors
///
/// - `Memory`: out of memory. Never for a body that does not start with U+0003.
pub fn pack_body(alloc: Global, body: Text) -> Result<Text, WireError>
    ensures text { IfOk result (λ text. text ≡ text_of_body body) }
    ensures refusal { IsOkUnless result WireError.Memory }
{
    let part = body.as_str().as_bytes();
    if !is_reserved(part) {
        return Ok(body);
    }
    let mut bytes = Vec::new(alloc);
    push_part(&mut bytes, part)?;
    pack_bytes(alloc, bytes.as_slice())
}

/// Returns the body whose one part these bytes are; None if they are not one part.
#[tactic(auto, using(crate::proofs::Parting::alone, crate::proofs::Parting::not_alone, crate::proofs::Parting::none_alone))]
pub fn body_in(bytes: &[u8]) -> Option<&[u8]>
    ensures body { IfSome result (λ body. bytes.now ≡ part_of body.now) }
    ensures none { IfNone result ((body : List ℕ) → bytes.now ≢ part_of body) }
{
    let Some((body, rest)) = first_part(bytes) else {
        return None;
    };
    if rest.is_empty() { Some(body) } else { None }
}
