//! Readers of a line, without a node: its kind and its source, the target that it asks to ping, and a helper's report
//! on one.
ghost use Rattle.std.specs.Prelude.{◌≡◌, ◌≢◌};
ghost use Rattle.ringpop_c.specs.Codes.{code_number};
ghost use Rattle.ringpop_c.specs.Reading.{ReadsLine, TellsReached, TellsSource, TellsTarget, kind_number};

use crate::codes::Code;
use message_core::{Content, Message};
use std::alloc::Global;
use wire_json::decode;

/// The number of the kind of a message, which the header names.
fn number_of(content: &Content) -> u8
    ensures { result ≡ kind_number content.now }
{
    match content {
        Content::Join(_) => 0,
        Content::Joined(_) => 1,
        Content::Ping(_) => 2,
        Content::Ack(_) => 3,
        Content::PingReq(_, _) => 4,
        Content::PingReqAck(_, _, _) => 5,
        Content::Forward(_, _) => 6,
        Content::Reply(_) => 7,
        Content::NotOwner => 8,
        Content::Refused(_) => 9,
    }
}

/// Writes the kind of a message, and its source.
fn tell_source(message: &Message, kind: &mut u8, ip: &mut u32, port: &mut u16) -> Code
    ensures told { TellsSource message.now kind.new ip.new port.new result }
    ensures unchanged { result ≢ Code.Done → (kind.new ≡ kind.old) × (ip.new ≡ ip.old) × (port.new ≡ port.old) }
{
    *kind = number_of(&message.content);
    *ip = message.source.ip();
    *port = message.source.port();
    Code::Done
}

/// Writes the kind of the message of a line, without a newline, and the address of its source.
///
/// # Errors
///
/// - `LineTooLong`, `BadJson`, `NotObject`, `UnknownKind`, `MissingField`, `BadField`, `TooMany`: the line is not that
///   of a message.
/// - `Memory`: out of memory.
#[unsafe(no_mangle)]
pub extern "C" fn ringpop_line_source(
    alloc: Global,
    line: &[u8],
    kind: &mut u8,
    ip: &mut u32,
    port: &mut u16,
) -> u32
    ensures told { ReadsLine (λ message answer. TellsSource message kind.new ip.new port.new answer) line.now result }
    ensures unchanged { result ≢ code_number Code.Done → (kind.new ≡ kind.old) × (ip.new ≡ ip.old) × (port.new ≡ port.old) }
{
    match decode(alloc, line) {
        Ok(message) => tell_source(&message, kind, ip, port).number(),
        Err(error) => Code::of_wire(error).number(),
    }
}

/// Writes the target that a message asks to ping.
fn tell_target(message: &Message, ip: &mut u32, port: &mut u16) -> Code
    ensures told { TellsTarget message.now.content ip.new port.new result }
    ensures unchanged { result ≢ Code.Done → (ip.new ≡ ip.old) × (port.new ≡ port.old) }
{
    match &message.content {
        Content::PingReq(_, target) => {
            *ip = target.ip();
            *port = target.port();
            Code::Done
        }
        _ => Code::Nothing,
    }
}

/// The target that a line, without a newline, asks to ping. `Nothing`: it asks for no ping.
///
/// # Errors
///
/// - `LineTooLong`, `BadJson`, `NotObject`, `UnknownKind`, `MissingField`, `BadField`, `TooMany`: the line is not that of a message.
/// - `Memory`: out of memory.
#[unsafe(no_mangle)]
pub extern "C" fn ringpop_line_target(
    alloc: Global,
    line: &[u8],
    ip: &mut u32,
    port: &mut u16,
) -> u32
    ensures told { ReadsLine (λ message answer. TellsTarget message.content ip.new port.new answer) line.now result }
    ensures unchanged { result ≢ code_number Code.Done → (ip.new ≡ ip.old) × (port.new ≡ port.old) }
{
    match decode(alloc, line) {
        Ok(message) => tell_target(&message, ip, port).number(),
        Err(error) => Code::of_wire(error).number(),
    }
}

/// Writes the target of a helper's report, and whether it was reached.
fn tell_reached(message: &Message, ip: &mut u32, port: &mut u16, reached: &mut bool) -> Code
    ensures told { TellsReached message.now.content ip.new port.new reached.new result }
    ensures unchanged { result ≢ Code.Done → (ip.new ≡ ip.old) × (port.new ≡ port.old) × (reached.new ≡ reached.old) }
{
    match &message.content {
        Content::PingReqAck(_, about, said) => {
            *ip = about.ip();
            *port = about.port();
            *reached = *said;
            Code::Done
        }
        _ => Code::Nothing,
    }
}

/// The target of a helper's line, without a newline, and whether it was reached. `Nothing`: it is not a helper's.
///
/// # Errors
///
/// - `LineTooLong`, `BadJson`, `NotObject`, `UnknownKind`, `MissingField`, `BadField`, `TooMany`: the line is not that of a message.
/// - `Memory`: out of memory.
#[unsafe(no_mangle)]
pub extern "C" fn ringpop_line_reached(
    alloc: Global,
    line: &[u8],
    ip: &mut u32,
    port: &mut u16,
    reached: &mut bool,
) -> u32
    ensures told { ReadsLine (λ message answer. TellsReached message.content ip.new port.new reached.new answer) line.now result }
    ensures unchanged { result ≢ code_number Code.Done → (ip.new ≡ ip.old) × (port.new ≡ port.old) × (reached.new ≡ reached.old) }
{
    match decode(alloc, line) {
        Ok(message) => tell_reached(&message, ip, port, reached).number(),
        Err(error) => Code::of_wire(error).number(),
    }
}
