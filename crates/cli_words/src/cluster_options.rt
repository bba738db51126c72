//! The option for the name of the cluster, as `clap` reads it.
ghost use Rattle.std.specs.Prelude.{◌≡◌, IfErr, IfOk};
ghost use Rattle.clap.specs.Words.{rule_of};
ghost use Rattle.cli_words.specs.CommandLine as line;
ghost use Rattle.cli_words.specs.Faults.{IsRefusalOf, IsUsageFault};
ghost use Rattle.cli_words.specs.Whole.{HasBadAddress, HasCluster, IsAgentRefusal};
ghost use Rattle.cli_words.specs.Words.{IsClusterAt, rows_in};

use crate::commands::{agent_alone, ask_command, members_command, tell_command};
use crate::faults::WordsError;
use crate::words::refusal;
use clap::{Arg, ArgMatches, Command};
use cluster_names::ClusterName;
use std::alloc::{AllocError, Global};

/// The argument for the name of the cluster.
const CLUSTER: &str = "cluster";

/// The option for the name of the cluster.
pub fn cluster_option<'a>(alloc: Global) -> Arg<'a>
    ensures { rule_of result ≡ line.cluster }
{
    Arg::new(alloc, CLUSTER)
        .long(CLUSTER)
        .value_name("NAME")
        .help(
            "The name of the cluster, 1 to 64 letters, digits, '.', '_' and '-':\n\
             nodes whose agents give another name, or none, are refused. All\n\
             agents of a cluster give the same; it is no password",
        )
}

/// Returns this subcommand as it stands in the usage line of its refusals.
fn alone<'a>(alloc: Global, subcommand: &str) -> Result<Command<'a>, AllocError> {
    match subcommand {
        "ask" => ask_command(alloc)?.bin_name("ringpop ask"),
        "members" => members_command(alloc)?.bin_name("ringpop members"),
        "tell" => tell_command(alloc)?.bin_name("ringpop tell"),
        _ => agent_alone(alloc),
    }
}

/// Makes the refusal of a text that is the name of no cluster, in the form of `clap`'s errors, among the arguments of this subcommand.
fn no_cluster(alloc: Global, subcommand: &str, name: &str) -> WordsError
    ensures { IsUsageFault result }
{
    let text = format!(in alloc;
        "invalid value '{name}' for '--cluster <NAME>': give 1 to 64 letters, digits, '.', '_' and '-'"
    );
    match text {
        Ok(text) => refusal(alone(alloc, subcommand), text.as_str()),
        Err(_) => WordsError::OutOfMemory,
    }
}

/// Returns the name of the cluster among the arguments of this subcommand, if there is one.
///
/// # Errors
///
/// - `Usage`: the argument is the name of no cluster; in the form of `clap`'s errors.
/// - `OutOfMemory`: out of memory.
pub fn cluster_in(
    alloc: Global,
    subcommand: &str,
    matches: &ArgMatches<'_>,
) -> Result<Option<ClusterName>, WordsError>
    ensures ok { IfOk result (IsClusterAt (rows_in matches.now)) }
    ensures fault { IfErr result (IsRefusalOf (HasCluster (rows_in matches.now)) (HasBadAddress (rows_in matches.now))) }
    ensures agent { IfErr result (IsAgentRefusal (HasCluster (rows_in matches.now)) (rows_in matches.now)) }
{
    let Some(text) = matches.get_str(CLUSTER) else {
        return Ok(None);
    };
    match ClusterName::new(alloc, text) {
        Ok(Some(name)) => Ok(Some(name)),
        Ok(None) => Err(no_cluster(alloc, subcommand, text)),
        Err(_) => Err(WordsError::OutOfMemory),
    }
}
