//! The commands of the program that speak to nodes, each with its arguments.
ghost use Rattle.std.specs.Prelude.{◌≡◌, IfErr, OnOk};
ghost use Rattle.cli_net.specs.Commands.{CommandFails, CommandFinishes, CommandReads};
ghost use Rattle.cli_net.specs.declared.commands.ClusterCommandError.TheVariants as fault;

use crate::asking::ask_over;
use crate::faults::{AskError, ServeError, TellError};
use crate::looks::members_over;
use crate::owners::ask_any_over;
use crate::serving::serve_run;
use crate::telling::tell_over;
use cli_core::ClusterCommand;
use peer_core::Link;
use server::Runtime;
use std::alloc::Global;
use std::io::{Read, Write};
use std::net::{Net, TcpListener, TcpStream};
use thiserror::Error;

/// The errors of such a command.
#[derive(Clone, Copy, Debug, PartialEq, Eq, Error)]
pub enum ClusterCommandError {
    /// That of `serve`.
    #[error("{0}")]
    Serve(ServeError),
    /// That of `ask`, `ask --any` and `members`.
    #[error("{0}")]
    Ask(AskError),
    /// That of `tell`.
    #[error("{0}")]
    Tell(TellError),
}

impl From<ServeError> for ClusterCommandError {
    ghost from_gives = { λ e f. f ≡ fault.Serve e };

    fn from(fault: ServeError) -> ClusterCommandError {
        ClusterCommandError::Serve(fault)
    }
}

impl From<AskError> for ClusterCommandError {
    ghost from_gives = { λ e f. f ≡ fault.Ask e };

    fn from(fault: AskError) -> ClusterCommandError {
        ClusterCommandError::Ask(fault)
    }
}

impl From<TellError> for ClusterCommandError {
    ghost from_gives = { λ e f. f ≡ fault.Tell e };

    fn from(fault: TellError) -> ClusterCommandError {
        ClusterCommandError::Tell(fault)
    }
}

/// Runs the command over the reader and the writer: `serve` over sockets, as `serve_run` does, and any other over this link, as `ask_over`,
/// `ask_any_over`, `members_over` or `tell_over`. Only `tell` reads.
///
/// # Errors
///
/// - `Serve`, `Ask`, `Tell`: the error of that function.
pub fn cluster_command_run<
    R: Net<Listener = TcpListener, Stream = TcpStream> + Runtime,
    L: Link,
    I: Read,
    W: Write,
>(
    rt: &R,
    link: &mut L,
    alloc: Global,
    command: &ClusterCommand<'_>,
    reader: &mut I,
    writer: &mut W,
) -> Result<(), ClusterCommandError>
    ensures output { OnOk result (CommandFinishes L.may_answer R.times command.now
        (I.remaining reader.old) (W.contents writer.old) (W.contents writer.new)) }
    ensures fault { IfErr result (λ e. CommandFails L.may_answer command.now e
        (I.remaining reader.old) (W.contents writer.old) (W.contents writer.new)) }
    ensures unread { CommandReads command.now (I.remaining reader.old) (I.remaining reader.new) }
{
    match command {
        ClusterCommand::Serve(words) => serve_run(rt, alloc, words, writer)?,
        ClusterCommand::Ask(words) => ask_over(rt, alloc, link, words, writer)?,
        ClusterCommand::AskAny(words) => ask_any_over(rt, alloc, link, words, writer)?,
        ClusterCommand::Members(words) => members_over(
            rt, alloc, link, words.host, words.form, writer,
        )?,
        ClusterCommand::Tell(host) => tell_over(rt, alloc, link, *host, reader, writer)?,
    }
    Ok(())
}
