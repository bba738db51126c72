//! The arguments of the command line.
ghost use Rattle.std.specs.Prelude.{◌≡◌, ◌≢◌, ◌≤◌, ℕ, List, length, map, codes, IfErr, IfOk, IfSome, IsSome, IsSomeAnd, true};
ghost use Rattle.std.specs.Borrow.{Bor};
ghost use Rattle.clap.specs.Values.{kind_of};
ghost use Rattle.clap.specs.Words.{subcommand_of, subcommand_rows_of, takes};
ghost use Rattle.hash_ring.specs.Points.{IsReplicas};
ghost use Rattle.cli_words.specs.CommandLine.{ringpop_app};
ghost use Rattle.cli_words.specs.Faults.{IsUsageFault};
ghost use Rattle.cli_words.specs.Whole.{HasBadAddress, HasNumber, HasOwned, IsBadArgument, IsOfLines, IsRefusalBy, IsWhole};
ghost use Rattle.cli_words.specs.Words.{AreAskedBy, AreLinesOf, AreWordsOf, IsFlagAt, IsNumberAt, IsOwnedAt, IsScriptAt, rows_in};

use crate::agent_reading::agent_words;
use crate::agent_words::AgentWords;
use crate::cluster_options::cluster_in;
use crate::cluster_words::cluster_command_of;
use crate::commands::{COUNT, KEY, REPLICAS, SUM, TEXT, ringpop_command};
use crate::faults::WordsError;
use change_core::MAX_MEMBERS;
use clap::error::ErrorKind;
use clap::{ArgMatches, Command};
use cli_core::{ClusterCommand, OwnerWords, SimWords, Subcommand};
use cluster_names::ClusterName;
use hash_ring::MAX_REPLICAS;
use std::alloc::{AllocError, Global};
use std::convert::AsStr;

/// A command that speaks to nodes, and the name of their cluster, if it has one.
#[derive(Debug, PartialEq, Drop)]
pub struct ClusterWords<'a> {
    pub command: ClusterCommand<'a>,
    pub cluster: Option<ClusterName>,
}

/// The command of the arguments.
#[derive(Debug, PartialEq, Drop)]
pub enum Words<'a> {
    /// A command that reads and writes lines.
    Lines(Subcommand<'a>),
    /// A command that speaks to running nodes.
    Cluster(ClusterWords<'a>),
    /// A node next to an application.
    Agent(AgentWords),
}

/// Returns the number of the argument of this name, if and only if it is there, is a number and lies in this range.
pub fn number(matches: &ArgMatches<'_>, id: &str, least: u64, most: u64) -> Option<u64>
    ensures range { IfSome result (λ n. (least ≤ n) × (n ≤ most)) }
    ensures given { IfSome result (IsNumberAt (rows_in matches.now) id.now) }
    ensures taken { (n : ℕ) → IsNumberAt (rows_in matches.now) id.now n → least ≤ n → n ≤ most → result ≡ Some n }
{
    let given = matches.get_one::<u64>(id)?;
    (least <= given && given <= most).then_some(given)
}

/// Returns whether a flag is set.
pub fn flag(matches: &ArgMatches<'_>, id: &str) -> bool
    ensures { IsFlagAt (rows_in matches.now) id.now result }
{
    matches.get_flag(id)
}

/// Returns the number of a server's points for each unit of its weight, if and only if that is there and in its range.
pub fn replicas(matches: &ArgMatches<'_>) -> Option<u32>
    ensures range { IfSome result IsReplicas }
    ensures given { IfSome result (IsNumberAt (rows_in matches.now) (codes "replicas")) }
    ensures taken { (n : ℕ) → IsNumberAt (rows_in matches.now) (codes "replicas") n → IsReplicas n → result ≡ Some n }
{
    let replicas = number(matches, REPLICAS, 1, u64::from(MAX_REPLICAS))?;
    Some(replicas as u32)
}

/// Returns the arguments of `owner`, if and only if the key is there and each number in its range.
fn owner_words<'a>(matches: &ArgMatches<'a>) -> Option<OwnerWords<'a>>
    ensures owned { IfSome result (IsOwnedAt (rows_in matches.now)) }
    ensures taken { HasOwned (rows_in matches.now) → IsSome result }
{
    let count = number(matches, COUNT, 0, MAX_MEMBERS as u64)?;
    let replicas = replicas(matches)?;
    let key = matches.get_str(KEY)?;
    Some(OwnerWords {
        count: count as usize,
        replicas,
        sum: flag(matches, SUM),
        key,
    })
}

/// Returns the arguments of `sim`, if and only if the number is there and in its range.
fn sim_words(matches: &ArgMatches<'_>) -> Option<SimWords>
    ensures script { IfSome result (IsScriptAt (rows_in matches.now)) }
    ensures taken { HasNumber (rows_in matches.now) (codes "replicas") IsReplicas → IsSome result }
{
    let replicas = replicas(matches)?;
    Some(SimWords {
        replicas,
        sum: flag(matches, SUM),
    })
}

/// Returns the command of the subcommand of this name, if it is one that reads and writes lines, and each of its
/// arguments is there and in its range.
fn lines_of<'a>(name: &str, matches: &ArgMatches<'a>) -> Option<Subcommand<'a>>
    ensures lines { IfSome result (AreLinesOf name.now (rows_in matches.now)) }
    ensures taken { IsOfLines name.now → IsWhole name.now (rows_in matches.now) → IsSome result }
{
    match name {
        "fold" => Some(Subcommand::Fold),
        "hash" => {
            let text = matches.get_str(TEXT)?;
            Some(Subcommand::Hash(text))
        }
        "owner" => {
            let words = owner_words(matches)?;
            Some(Subcommand::Owner(words))
        }
        "sim" => {
            let words = sim_words(matches)?;
            Some(Subcommand::Sim(words))
        }
        _ => None,
    }
}

/// Returns the command of the subcommand of this name. The error is `Usage` only if there is no such subcommand, or one
/// of its arguments is absent or not in its range, or there are 2^32 hosts, or the cluster's name is none, and `BadAddress`, for `agent` `BadAddressAt`,
/// only if an argument that has to be an address is not one.
fn words_at<'a>(
    alloc: Global,
    name: &str,
    matches: &ArgMatches<'a>,
) -> Result<Words<'a>, WordsError>
    ensures words { IfOk result (AreWordsOf name.now (rows_in matches.now)) }
    ensures fault { IfErr result (IsRefusalBy (Some (name.now, rows_in matches.now))) }
{
    if name == "agent" {
        let words = agent_words(alloc, matches)?;
        return Ok(Words::Agent(words));
    }
    if let Some(command) = cluster_command_of(alloc, name, matches)? {
        let cluster = cluster_in(alloc, name, matches)?;
        return Ok(Words::Cluster(ClusterWords { command, cluster }));
    }
    match lines_of(name, matches) {
        Some(subcommand) => Ok(Words::Lines(subcommand)),
        None => Err(absent(alloc)),
    }
}

/// Returns the command of the arguments that `clap` accepted, by the subcommand that they name; `words_at` has its
/// errors.
fn words_of<'a>(alloc: Global, matches: &ArgMatches<'a>) -> Result<Words<'a>, WordsError>
    ensures alone { subcommand_rows_of matches.now ≡ None → result ≡ Ok (Words.Lines Subcommand.Fold) }
    ensures asked { IfOk result (AreAskedBy (subcommand_rows_of matches.now)) }
    ensures fault { IfErr result (IsRefusalBy (subcommand_rows_of matches.now)) }
{
    match matches.subcommand() {
        Some((name, inner)) => words_at(alloc, name, inner),
        None => Ok(Words::Lines(Subcommand::Fold)),
    }
}

/// Reads the arguments; the first is the program's name. Without any other the command is `fold`; else it is that of
/// the subcommand that `clap` finds by the table of the command line, `ringpop_app`, with the arguments after it. Each
/// number of the result is in its range.
///
/// # Errors
///
/// - `Usage`: `clap` refuses the arguments, or they ask for help. This comes first.
/// - `BadAddress`: an argument that has to be an address is not one.
/// - `BadAddressAt`: so is this argument of `agent`.
/// - `OutOfMemory`: out of memory.
pub fn read_words<'a, S: AsStr>(alloc: Global, words: &'a [S]) -> Result<Words<'a>, WordsError>
    ensures alone { length words.now ≤ 1 → result ≡ Ok (Words.Lines Subcommand.Fold) }
    ensures asked { 2 ≤ length words.now → IfOk result (AreAskedBy (subcommand_of ringpop_app (map S.text words.now))) }
    ensures taken { takes ringpop_app (map S.text words.now) ≡ true → IfErr result (IsRefusalBy (subcommand_of ringpop_app (map S.text words.now))) }
    ensures address { result ≡ Err WordsError.BadAddress
        → IsSomeAnd (subcommand_of ringpop_app (map S.text words.now)) (λ p. (p.0 ≢ codes "agent") × HasBadAddress p.1) }
    ensures argument { (a : Bor (List ℕ)) → result ≡ Err (WordsError.BadAddressAt a)
        → IsSomeAnd (subcommand_of ringpop_app (map S.text words.now)) (λ p. (p.0 ≡ codes "agent") × IsBadArgument p.1 a.now) }
{
    if words.len() < 2 {
        return Ok(Words::Lines(Subcommand::Fold));
    }
    let matches = ringpop_command(alloc)?.try_get_matches_from(words)?;
    words_of(alloc, &matches)
}

/// Makes the refusal of arguments among which one is absent or not in its range. `clap` has tested them, so that it is
/// never used.
pub fn absent(alloc: Global) -> WordsError
    ensures { IsUsageFault result }
{
    refusal(
        ringpop_command(alloc),
        "a word is absent or not in its range",
    )
}

/// Makes a refusal of the arguments in the form of `clap`'s, with the usage of this command, or out of memory.
pub fn refusal(command: Result<Command<'_>, AllocError>, text: &str) -> WordsError
    ensures { IsUsageFault result }
{
    match invalid(command, text) {
        Ok(error) => WordsError::from(error),
        Err(refused) => WordsError::from(refused),
    }
}

fn invalid(command: Result<Command<'_>, AllocError>, text: &str) -> Result<clap::Error, AllocError>
    ensures { IfOk result (λ e. kind_of e ≡ ErrorKind.InvalidValue) }
{
    command?.error(ErrorKind::InvalidValue, text)
}

/// Makes the refusal of arguments that are not UTF-8, in the form of `clap`'s.
pub fn words_not_text(alloc: Global) -> WordsError
    ensures { IsUsageFault result }
{
    refusal(ringpop_command(alloc), "the words are not UTF-8")
}
