//! The keys of a request for the owners of many.
ghost use Rattle.std.specs.Prelude.{◌≡◌, ◌≢◌, IfOk, IfErr, map, not, position, take};
ghost use Rattle.std.specs.Str.Lines.{lines};
ghost use Rattle.serde_json.specs.Read.{read};
ghost use Rattle.serde_json.specs.View.{view};
ghost use Rattle.agent_core.specs.Requests.{element_at, few_keys, is_list, is_space, keys_from, keys_in, keys_of_data, line_at, text_at};

use crate::refusals::{KeyFault, Part, Refusal};
use crate::routes::{MAX_KEY_BYTES, text_of};
use message_core::Text;
use percent_encoding::{DecodeError, percent_decode};
use serde_json::Value;
use std::alloc::{AllocError, Global};
use std::marker::Model;

/// The most keys of a request.
pub const MAX_LISTED: usize = 4_096;

/// A list of keys. Contracts see the list of their bytes.
#[derive(Debug, Drop)]
pub struct KeyList {
    items: Vec<Text>,
}

impl Model for KeyList {
    ghost use Rattle.std.specs.Prelude.{ℕ, List};

    ghost Value = { List (List ℕ) };

    ghost view = { λ a. a.items.items };
}

impl KeyList {
    /// Returns the keys, in the order of the request.
    pub fn as_slice(&self) -> &[Text]
        ensures { result.now ≡ self.now }
    {
        self.items.as_slice()
    }
}

/// Returns the lines of a text, but no more than one more than a request may have.
fn lines_of(alloc: Global, text: &str) -> Result<Vec<&str>, AllocError>
    ensures { IfOk result (λ found. map (λ line. line.now) found.items ≡ take 4097 (lines text.now)) }
{
    text.lines().take(MAX_LISTED + 1).collect(alloc)
}

/// Returns the refusal of the key at a place for a fault.
fn bad(place: usize, fault: KeyFault) -> Refusal
    ensures { result ≡ Refusal.BadKey place fault }
{
    Refusal::BadKey { place, fault }
}

/// Returns the key at a place that a text is.
fn key_of_text(alloc: Global, place: usize, text: &str) -> Result<Text, Refusal>
    ensures key { IfOk result (λ key. text_at place text.now ≡ Ok key) }
    ensures refused { IfErr result (λ e. e ≢ Refusal.Memory → text_at place text.now ≡ Err e) }
{
    if text.is_empty() {
        return Err(bad(place, KeyFault::Empty));
    }
    if text.len() > MAX_KEY_BYTES {
        return Err(bad(place, KeyFault::Long));
    }
    text_of(alloc, text)
}

/// Returns the key at a place that a line encodes.
fn key_of_line(alloc: Global, place: usize, line: &str) -> Result<Text, Refusal>
    ensures key { IfOk result (λ key. line_at place line.now ≡ Ok key) }
    ensures refused { IfErr result (λ e. e ≢ Refusal.Memory → line_at place line.now ≡ Err e) }
{
    match percent_decode(line.as_bytes()).decode_utf8(alloc) {
        Ok(decoded) => key_of_text(alloc, place, &decoded),
        Err(DecodeError::OutOfMemory) => Err(Refusal::Memory),
        Err(DecodeError::Utf8(_)) => Err(bad(place, KeyFault::NotUtf8)),
    }
}

/// Returns the keys that lines encode.
fn keys_of_lines(alloc: Global, lines: &[&str]) -> Result<KeyList, Refusal>
    ensures keys { IfOk result (λ keys. keys_from line_at 1 (map (λ line. line.now) lines.now) ≡ Ok keys) }
    ensures refused { IfErr result (λ e. e ≢ Refusal.Memory → keys_from line_at 1 (map (λ line. line.now) lines.now) ≡ Err e) }
{
    let mut items = Vec::with_capacity(alloc, lines.len())?;
    for line in lines {
        let key = key_of_line(alloc, items.len() + 1, line)?;
        items.push(key)?;
    }
    Ok(KeyList { items })
}

/// Returns the key at a place that an element of a JSON list is.
fn key_of_element(alloc: Global, place: usize, element: &Value) -> Result<Text, Refusal>
    ensures key { IfOk result (λ key. element_at place (view element.now) ≡ Ok key) }
    ensures refused { IfErr result (λ e. e ≢ Refusal.Memory → element_at place (view element.now) ≡ Err e) }
{
    match element.as_str() {
        Some(text) => key_of_text(alloc, place, text),
        None => Err(bad(place, KeyFault::NotText)),
    }
}

/// Returns the keys that the elements of a JSON list are.
fn keys_of_elements(alloc: Global, elements: &[Value]) -> Result<KeyList, Refusal>
    ensures keys { IfOk result (λ keys. keys_from element_at 1 (map view elements.now) ≡ Ok keys) }
    ensures refused { IfErr result (λ e. e ≢ Refusal.Memory → keys_from element_at 1 (map view elements.now) ≡ Err e) }
{
    let mut items = Vec::with_capacity(alloc, elements.len())?;
    for element in elements {
        let key = key_of_element(alloc, items.len() + 1, element)?;
        items.push(key)?;
    }
    Ok(KeyList { items })
}

/// Returns the keys of a JSON list.
fn keys_of_list(alloc: Global, text: &str) -> Result<KeyList, Refusal>
    ensures keys { IfOk result (λ keys. keys_of_data (read text.now) ≡ Ok keys) }
    ensures refused { IfErr result (λ e. e ≢ Refusal.Memory → keys_of_data (read text.now) ≡ Err e) }
{
    let value = match Value::from_str(alloc, text) {
        Ok(value) => value,
        Err(e) if e.is_memory() => return Err(Refusal::Memory),
        Err(_) => return Err(Refusal::Malformed(Part::Keys)),
    };
    match value.as_array() {
        Some(elements) if elements.len() <= MAX_LISTED => {
            keys_of_elements(alloc, elements.as_slice())
        }
        Some(_) => Err(Refusal::ManyKeys),
        None => Err(Refusal::Malformed(Part::Keys)),
    }
}

/// Returns the keys of lines.
fn keys_of_text(alloc: Global, text: &str) -> Result<KeyList, Refusal>
    ensures keys { IfOk result (λ keys. few_keys line_at (lines text.now) ≡ Ok keys) }
    ensures refused { IfErr result (λ e. e ≢ Refusal.Memory → few_keys line_at (lines text.now) ≡ Err e) }
{
    let lines = lines_of(alloc, text)?;
    if lines.len() > MAX_LISTED {
        return Err(Refusal::ManyKeys);
    }
    keys_of_lines(alloc, lines.as_slice())
}

/// Returns whether a byte is white space of JSON (RFC 8259, section 2).
fn is_space(byte: u8) -> bool
    ensures { result ≡ is_space byte }
{
    matches!(byte, b' ' | b'\n' | b'\r' | b'\t')
}

/// Returns the place of the first byte of a body that is no white space.
fn start_of(body: &[u8]) -> Option<usize>
    ensures { result ≡ position (λ b. not (is_space b)) body.now }
{
    body.iter().position(|byte| !is_space(*byte))
}

/// Returns whether a body starts as a JSON list does, perhaps after white space.
fn is_list(body: &[u8]) -> bool
    ensures { result ≡ is_list body.now }
{
    match start_of(body) {
        Some(start) => body.get(start) == Some(&b'['),
        None => false,
    }
}

/// Returns the keys of a body: a JSON list of them, perhaps after white space, or one on each line, as the path of a request for one key encodes it.
///
/// # Errors
///
/// If several apply, the first of them, except that `Memory` can replace any but the first.
///
/// - `Malformed(Part::Body)`: the body is not UTF-8.
/// - `Malformed(Part::Keys)`: its first byte that is no white space is `[`, and it is not a JSON list.
/// - `ManyKeys`: there are more than 4,096.
/// - `BadKey`: one is not 1 to 1,024 bytes of UTF-8.
/// - `Memory`: out of memory.
pub(crate) fn keys_in(alloc: Global, body: &[u8]) -> Result<KeyList, Refusal>
    ensures keys { IfOk result (λ keys. keys_in body.now ≡ Ok keys) }
    ensures refused { IfErr result (λ e. e ≢ Refusal.Memory → keys_in body.now ≡ Err e) }
{
    let Ok(text) = str::from_utf8(body) else {
        return Err(Refusal::Malformed(Part::Body));
    };
    if is_list(body) {
        keys_of_list(alloc, text)
    } else {
        keys_of_text(alloc, text)
    }
}
