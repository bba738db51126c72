//! One question to a running node, by no member: from 0.0.0.0:1 at incarnation 0.
ghost use Rattle.std.specs.Prelude.{◌≡◌, ◌∷◌, ◌++◌, [], IfOk, IfErr, OnOk, IsOkUnless};
ghost use Rattle.std.specs.Io.KnownBytes.{Appends};
ghost use Rattle.wire_json.specs.Input.{AppendsPrefix};
ghost use Rattle.cli_net.specs.Asking.{Asked, unsourced};
ghost use Rattle.cli_net.specs.Membership.{IsNotTold, IsTold};

use crate::faults::AskError;
use change_core::{Address, Digest, Incarnation};
use message_core::{Changes, Content, Message, News};
use peer_core::{Link, LinkError};
use std::alloc::Global;
use std::io::Write;
use std::sync::Wait;
use wire_json::write_line;

/// A message that no node made.
fn unsourced(content: Content) -> Message
    ensures { result ≡ unsourced content }
{
    let (Some(source), Some(source_incarnation)) = (Address::new(0, 1), Incarnation::new(0)) else {
        unreachable!()
    };
    Message {
        source,
        source_incarnation,
        content,
    }
}

/// Asks at an address, and returns the content of the answer.
///
/// # Errors
///
/// - `OutOfMemory`: out of memory in the link.
/// - `NoAnswer`: no message came.
pub fn ask_for<R: Wait, L: Link>(
    rt: &R,
    alloc: Global,
    link: &mut L,
    to: Address,
    content: Content,
) -> Result<Content, AskError>
    ensures { Asked L.may_answer to content result }
{
    match link.call(rt, alloc, to, &unsourced(content)) {
        Ok(answer) => Ok(answer.content),
        Err(LinkError::Memory) => Err(AskError::OutOfMemory),
        Err(_) => Err(AskError::NoAnswer),
    }
}

/// Joins with these changes without being a member, and returns the membership of the answer.
///
/// # Errors
///
/// - `OutOfMemory`: out of memory in the link.
/// - `NoAnswer`: no message came.
/// - `Refused`: the node refused the join, for this reason.
/// - `Unexpected`: any other message came.
pub fn join_with<R: Wait, L: Link>(
    rt: &R,
    alloc: Global,
    link: &mut L,
    to: Address,
    changes: Changes,
) -> Result<News, AskError>
    ensures told { IfOk result (λ news. IsTold L.may_answer to changes news) }
    ensures fault { IfErr result (λ e. IsNotTold L.may_answer to changes e) }
{
    let told = News {
        checksum: Digest::new([0; 32]),
        changes,
    };
    match ask_for(rt, alloc, link, to, Content::Join(told))? {
        Content::Joined(news) => Ok(news),
        Content::Refused(reason) => Err(AskError::Refused(reason)),
        _ => Err(AskError::Unexpected),
    }
}

/// Writes a line and its newline, and flushes.
///
/// # Errors
///
/// - `CannotWrite`: the writer failed. A prefix of them is written.
pub fn write_text<W: Write>(writer: &mut W, line: &[u8]) -> Result<(), AskError>
    ensures ok { OnOk result (Appends (W.contents writer.old) (W.contents writer.new) (line.now ++ 10 ∷ [])) }
    ensures prefix { AppendsPrefix (W.contents writer.old) (W.contents writer.new) (line.now ++ 10 ∷ []) }
    ensures refusal { IsOkUnless result AskError.CannotWrite }
{
    write_line(writer, line).map_err(|_| AskError::CannotWrite)
}
