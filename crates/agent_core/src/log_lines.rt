//! The lines of the log as JSON.
ghost use Rattle.std.specs.Prelude.{◌≡◌, ◌++◌, IfOk, OnOk, option_map, string_bytes};
ghost use Rattle.json.specs.Lex.{tokens};
ghost use Rattle.json.specs.Print.{print};
ghost use Rattle.agent_core.specs.LogLines.{IsOneLine, line_tokens, member};

use change_core::Address;
use json::Writer;
use std::alloc::{AllocError, Global};

/// Writes a member of an object, a text.
fn write_member(writer: &mut Writer, name: &str, text: &str) -> Result<(), AllocError>
    ensures before { writer.new.before ≡ writer.old.before }
    ensures tokens { OnOk result (writer.new.tokens ≡ writer.old.tokens ++ member name.now text.now) }
{
    writer.key(name)?;
    writer.string(text)
}

/// Returns a line of the log as JSON, without its newline, as
/// `{"time":"2026-11-30T07:35:50.123Z","address":"10.0.0.1:7946","level":"INFO","target":"agent_peers::hosts","message":".."}`: the time, if it is known,
/// the node's address, the level, the part of the program, which is empty if none is named, and the message.
///
/// # Errors
///
/// - `AllocError`: out of memory.
pub fn json_line(
    alloc: Global,
    time: Option<&str>,
    own: Address,
    level: &str,
    target: &str,
    message: &str,
) -> Result<String, AllocError>
    ensures text { IfOk result (λ line. string_bytes line ≡ print (line_tokens (option_map (λ t. t.now) time.entry) own level.now target.now message.now)) }
    ensures reads_back { IfOk result (λ line. tokens (string_bytes line) ≡ line_tokens (option_map (λ t. t.now) time.entry) own level.now target.now message.now) }
    ensures one_line { IfOk result (λ line. IsOneLine (string_bytes line)) }
{
    let address = format!(in alloc; "{own}")?;
    let mut writer = Writer::new(Vec::new(alloc));
    writer.begin_object()?;
    if let Some(time) = time {
        write_member(&mut writer, "time", time)?;
    }
    write_member(&mut writer, "address", address.as_str())?;
    write_member(&mut writer, "level", level)?;
    write_member(&mut writer, "target", target)?;
    write_member(&mut writer, "message", message)?;
    writer.end_object()?;
    let Ok(line) = String::from_utf8(writer.into_inner()) else {
        unreachable!();
    };
    Ok(line)
}
