//! The command of the arguments, run over any reader and writer.
ghost use Rattle.std.specs.Prelude.{◌≡◌, IfErr, OnOk};
ghost use Rattle.cli_net.specs.Commands.{CommandFails, CommandFinishes, CommandReads};
ghost use Rattle.cli_net.specs.Dialled.{dialled};
ghost use Rattle.server.specs.Working.{any_times};
ghost use Rattle.cli_run.specs.Runs.{WordsFail, WordsFinish, WordsRead};

use crate::agents::agent_run;
use crate::program_errors::Fault;
use agent::System;
use cli_core::subcommand_run;
use cli_net::{ClusterCommandError, DialledLink, Named, cluster_command_run};
use cli_words::{ClusterWords, Words};
use std::alloc::Global;
use std::fs::Files;
use std::io::{Read, Write};
use std::marker::Brand;
use std::sync::Wait;
use std::time::Clock;
use transport::Dial;

/// Runs a command that speaks to nodes, over a link of their cluster.
fn cluster_words_run<C: Named, R: System, D: Dial + Clock + Wait + Copy, I: Read, W: Write>(
    rt: &R,
    network: &D,
    alloc: Global,
    words: &ClusterWords<'_>,
    reader: &mut I,
    writer: &mut W,
) -> Result<(), ClusterCommandError>
    requires { words.now.cluster ≡ C.cluster }
    ensures output { OnOk result (CommandFinishes (dialled D.leads D.Stream.contents D.Stream.remaining C.cluster) any_times words.now.command
        (I.remaining reader.old) (W.contents writer.old) (W.contents writer.new)) }
    ensures fault { IfErr result (λ e. CommandFails (dialled D.leads D.Stream.contents D.Stream.remaining C.cluster) words.now.command e
        (I.remaining reader.old) (W.contents writer.old) (W.contents writer.new)) }
    ensures unread { CommandReads words.now.command (I.remaining reader.old) (I.remaining reader.new) }
{
    let mut link = DialledLink::<C, D>::new(network, &words.cluster);
    cluster_command_run(rt, &mut link, alloc, &words.command, reader, writer)
}

/// Runs the command of the arguments over sockets, the reader and the writer, as `subcommand_run` or
/// `cluster_command_run` does. Questions to nodes go over this network, with the name of their cluster if it has one.
///
/// # Errors
///
/// - The error of that function.
pub fn words_run<R: System + Files, D: Dial + Clock + Wait + Copy, I: Read, W: Write>(
    rt: &R,
    network: &D,
    alloc: Global,
    words: &Words<'_>,
    reader: &mut I,
    writer: &mut W,
) -> Result<(), Fault>
    ensures output { OnOk result (WordsFinish (dialled D.leads D.Stream.contents D.Stream.remaining) words.now
        (I.remaining reader.old) (W.contents writer.old) (W.contents writer.new)) }
    ensures fault { IfErr result (λ e. WordsFail (dialled D.leads D.Stream.contents D.Stream.remaining) words.now e
        (I.remaining reader.old) (W.contents writer.old) (W.contents writer.new)) }
    ensures unread { WordsRead words.now (I.remaining reader.old) (I.remaining reader.new) }
{
    match words {
        Words::Lines(subcommand) => subcommand_run(alloc, subcommand, reader, writer)?,
        Words::Cluster(words) => cluster_words_run::<Brand, R, D, I, W>(
            rt, network, alloc, words, reader, writer,
        )?,
        Words::Agent(words) => agent_run(rt, alloc, words, writer)?,
    }
    Ok(())
}
