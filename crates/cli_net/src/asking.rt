//! A request to one node.
ghost use Rattle.std.specs.Prelude.{◌≡◌, None, IfOk, IfErr, OnOk, IsOkUnless};
ghost use Rattle.cli_net.specs.Asking.{IsNoReply, IsReply, IsUnasked, LeavesReply, WritesReply, request};
ghost use Rattle.cli_net.specs.Dialled.{dialled};

use crate::dialled::{DialledLink, Unnamed};
use crate::faults::AskError;
use crate::questions::{ask_for, write_text};
use change_core::Address;
use cli_core::AskWords;
use message_core::{Content, Keys, Text};
use peer_core::Link;
use std::alloc::Global;
use std::io::Write;
use std::sync::Wait;
use std::time::Clock;
use transport::Dial;

/// A request for a key.
fn request(alloc: Global, key: &str, body: &str) -> Result<Content, AskError>
    ensures ok { IfOk result (λ c. c ≡ request key.now body.now) }
    ensures refusal { IsOkUnless result AskError.OutOfMemory }
{
    let key = Text::new(alloc, key).map_err(|_| AskError::OutOfMemory)?;
    let keys = Keys::new(alloc, key).map_err(|_| AskError::OutOfMemory)?;
    let body = Text::new(alloc, body).map_err(|_| AskError::OutOfMemory)?;
    Ok(Content::Forward(keys, body))
}

/// Returns the node's reply to a request. The errors are those of `ask_over` but `CannotWrite`; `OutOfMemory` only if the
/// link ran out of memory.
fn reply_to<R: Wait, L: Link>(
    rt: &R,
    alloc: Global,
    link: &mut L,
    to: Address,
    content: Content,
) -> Result<Text, AskError>
    ensures reply { IfOk result (IsReply L.may_answer to content) }
    ensures fault { IfErr result (IsNoReply L.may_answer to content) }
{
    match ask_for(rt, alloc, link, to, content)? {
        Content::Reply(text) => Ok(text),
        Content::NotOwner => Err(AskError::NotOwner),
        Content::Refused(reason) => Err(AskError::Refused(reason)),
        _ => Err(AskError::Unexpected),
    }
}

/// Sends the request for a key to the node, and returns the text of its reply.
///
/// # Errors
///
/// - The errors of `ask_over` but `CannotWrite`.
pub fn reply_of<R: Wait, L: Link>(
    rt: &R,
    alloc: Global,
    link: &mut L,
    to: Address,
    key: &str,
    body: &str,
) -> Result<Text, AskError>
    ensures reply { IfOk result (IsReply L.may_answer to (request key.now body.now)) }
    ensures fault { IfErr result (IsUnasked L.may_answer to (request key.now body.now)) }
{
    let content = request(alloc, key, body)?;
    reply_to(rt, alloc, link, to, content)
}

/// Sends the request for a key to the node, and writes the reply's text and a newline. Without a reply there is no
/// output.
///
/// # Errors
///
/// - `OutOfMemory`: out of memory, here or in the link.
/// - `NoAnswer`: no message came.
/// - `NotOwner`: the node does not own the key.
/// - `Refused`: the node refused the request, for this reason.
/// - `Unexpected`: any other message came.
/// - `CannotWrite`: the writer failed. A prefix of the line is written.
pub fn ask_over<R: Wait, L: Link, W: Write>(
    rt: &R,
    alloc: Global,
    link: &mut L,
    words: &AskWords<'_>,
    writer: &mut W,
) -> Result<(), AskError>
    ensures replied { OnOk result (WritesReply (IsReply L.may_answer words.now.address (request words.now.key.now words.now.body.now))
        (W.contents writer.old) (W.contents writer.new)) }
    ensures fault { IfErr result (λ e. LeavesReply (IsReply L.may_answer words.now.address (request words.now.key.now words.now.body.now))
        (IsUnasked L.may_answer words.now.address (request words.now.key.now words.now.body.now)) e (W.contents writer.old) (W.contents writer.new)) }
{
    let text = reply_of(rt, alloc, link, words.address, words.key, words.body)?;
    write_text(writer, text.as_str().as_bytes())
}

/// Does as `ask_over`, over sockets, with the standard limits, of a node whose cluster has no name. A request whose line would have more than 1,048,576
/// bytes is not sent.
///
/// # Errors
///
/// - The errors of `ask_over`; `NoAnswer` also if the request's line is too long.
pub fn ask_run<R: Dial + Clock + Wait + Copy, W: Write>(
    rt: &R,
    alloc: Global,
    address: Address,
    key: &str,
    body: &str,
    writer: &mut W,
) -> Result<(), AskError>
    ensures replied { OnOk result (WritesReply (IsReply (dialled R.leads R.Stream.contents R.Stream.remaining None) address (request key.now body.now))
        (W.contents writer.old) (W.contents writer.new)) }
    ensures fault { IfErr result (λ e. LeavesReply (IsReply (dialled R.leads R.Stream.contents R.Stream.remaining None) address (request key.now body.now))
        (IsUnasked (dialled R.leads R.Stream.contents R.Stream.remaining None) address (request key.now body.now)) e (W.contents writer.old) (W.contents writer.new)) }
{
    let mut link = DialledLink::<Unnamed, R>::new(rt, &None);
    let words = AskWords { address, key, body };
    ask_over(rt, alloc, &mut link, &words, writer)
}
