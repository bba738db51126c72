//! Bytes that go out through the caller's buffer.
ghost use Rattle.std.specs.Prelude.{◌≡◌, ◌≢◌, ◌≤◌, length, true, false};
ghost use Rattle.ringpop_c.specs.Lines.{Buffer, Fills, IsShort, TellsText, WritesLine};
ghost use Rattle.wire_json.specs.Lines.{max_line};

use crate::codes::Code;
use message_core::Message;
use std::alloc::Global;
use wire_json::{MAX_LINE, encode};

/// Makes bytes a prefix of a buffer, and puts their number into `count`.
pub(crate) fn put(out: &mut [u8], count: &mut usize, bytes: &[u8])
    requires { length bytes.now ≤ length out.old }
    ensures { Fills bytes.now (record { before = out.old; after = out.new; count = count.new }) }
{
    let length = bytes.len();
    *count = length;
    out[..length].copy_from_slice(bytes);
}

/// Writes bytes if there is room for them; else tells their number alone.
pub(crate) fn write(out: &mut [u8], count: &mut usize, bytes: &[u8]) -> Code
    ensures told { TellsText bytes.now (record { before = out.old; after = out.new; count = count.new }) result }
    ensures unchanged { result ≢ Code.Done → result ≢ Code.ShortBuffer → (out.new ≡ out.old) × (count.new ≡ count.old) }
{
    if out.len() < bytes.len() {
        *count = bytes.len();
        return Code::ShortBuffer;
    }
    put(out, count, bytes);
    Code::Done
}

/// Returns whether a buffer is too short for the longest line; if so, writes the length of that.
pub(crate) fn is_short(out: &[u8], count: &mut usize) -> bool
    ensures short { result ≡ true → IsShort (record { before = out.now; after = out.now; count = count.new }) }
    ensures room { result ≡ false → max_line ≤ length out.now }
    ensures unchanged { result ≡ false → count.new ≡ count.old }
{
    if out.len() < MAX_LINE {
        *count = MAX_LINE;
        return true;
    }
    false
}

/// Writes a message as a line, without a newline.
pub(crate) fn send(alloc: Global, message: &Message, out: &mut [u8], count: &mut usize) -> Code
    requires room { max_line ≤ length out.old }
    ensures line { WritesLine message.now (record { before = out.old; after = out.new; count = count.new }) result }
    ensures unchanged { result ≢ Code.Done → (out.new ≡ out.old) × (count.new ≡ count.old) }
{
    match encode(alloc, message) {
        Ok(line) => {
            put(out, count, line.as_slice());
            Code::Done
        }
        Err(_) => Code::Memory,
    }
}

/// Writes the message that an expression makes. The expression is evaluated only if the buffer has room for the longest line, so
/// that no message is made and lost.
macro_rules! send_made {
    ($alloc:ident, $made:expr, $out:ident, $count:ident) => {
        if $crate::buffers::is_short($out, $count) {
            Code::ShortBuffer
        } else {
            match $made {
                Ok(message) => $crate::buffers::send($alloc, &message, $out, $count),
                Err(_) => Code::Memory,
            }
        }
    };
}

pub(crate) use send_made;
