//! The arguments of the commands that speak to nodes.
ghost use Rattle.std.specs.Prelude.{◌≡◌, ◌<◌, ◌≤◌, ◌^◌, length, map, codes, IfErr, IfOk, IfSome, IsSome, MatchOption};
ghost use Rattle.std.specs.List.{Any};
ghost use Rattle.clap.specs.Words.{first_of};
ghost use Rattle.change_core.specs.Address.{address_text};
ghost use Rattle.change_core.specs.Numbers.{IsWeight, greatest_number};
ghost use Rattle.node_core.specs.Workers.{IsCrew};
ghost use Rattle.cli_core.specs.Words.{IsPerMessage, IsPiggyback};
ghost use Rattle.cli_words.specs.Faults.{IsRefusalOf};
ghost use Rattle.cli_words.specs.Whole.{HasAnyAsked, HasAsked, HasBadAddress, HasNumber, HasNumbers, HasServed, IsNoAddress, IsNoAddressAmong};
ghost use Rattle.cli_words.specs.Whole.{IsNoAddressAt, IsOfNodes, IsWhole};
ghost use Rattle.cli_words.specs.Words.{AreAddressesAt, AreMembersAt, AreNumbersAt, IsAddressAt, IsAnyAskedAt, IsAskedAt, IsCommandOf, IsFormAt, IsNumberAt};
ghost use Rattle.cli_words.specs.Words.{IsServedAt, rows_in};

use crate::commands::{
    ADDRESS, ANY, BODY, HEAL, HOST, INCARNATION, KEY, LINES, PER_MESSAGE, PERIOD, PIGGYBACK,
    REQUESTS, SUM, TABLE, WEIGHT, WORKERS,
};
use crate::faults::WordsError;
use crate::words::{absent, flag, number, replicas};
use change_core::{Address, Incarnation, MAX_MEMBERS, MAX_NUMBER, MAX_WEIGHT, Weight};
use clap::ArgMatches;
use cli_core::{
    AskAnyWords, AskWords, ClusterCommand, MAX_REQUESTS, MembersForm, MembersWords, ServeWords,
};
use gossip_core::MAX_FACTOR;
use node_core::MAX_WORKERS;
use std::alloc::Global;

/// Returns the address of a text; each address has exactly one.
///
/// # Errors
///
/// - `BadAddress`: the text is not that of an address.
pub fn address_of(text: &str) -> Result<Address, WordsError>
    ensures ok { IfOk result (λ a. text.now ≡ address_text a) }
    ensures fault { IfErr result (λ f. (f ≡ WordsError.BadAddress) × IsNoAddress text.now) }
{
    Address::parse(text).map_err(|_| WordsError::BadAddress)
}

/// Returns the address of the argument of this name.
///
/// # Errors
///
/// - `Usage`: there is no argument of this name; in the form of `clap`'s errors.
/// - `BadAddress`: the argument is not an address.
/// - `OutOfMemory`: out of memory for the text of `Usage`.
pub fn address_at(alloc: Global, matches: &ArgMatches<'_>, id: &str) -> Result<Address, WordsError>
    ensures ok { IfOk result (IsAddressAt (rows_in matches.now) id.now) }
    ensures fault { IfErr result (IsRefusalOf (IsSome (first_of id.now (rows_in matches.now))) (IsNoAddressAt (rows_in matches.now) id.now)) }
{
    match matches.get_str(id) {
        Some(text) => address_of(text),
        None => Err(absent(alloc)),
    }
}

/// Reads these texts as addresses, in their order. The first text that is not an address is `BadAddress`.
fn addresses_of(alloc: Global, texts: &[&str]) -> Result<Vec<Address>, WordsError>
    ensures ok { IfOk result (λ hosts. map (λ s. s.now) texts.now ≡ map address_text hosts.items) }
    ensures fault { IfErr result (IsRefusalOf (Unit {0}) (Any IsNoAddress (map (λ s. s.now) texts.now))) }
{
    let mut addresses = Vec::with_capacity(alloc, texts.len())?;
    for text in texts {
        let address = address_of(text)?;
        addresses.push(address)?;
    }
    Ok(addresses)
}

/// Returns the hosts that a node asks to admit it, in their order.
///
/// # Errors
///
/// - `BadAddress`: a host is not an address.
/// - `OutOfMemory`: out of memory for the list; never if no host is given.
pub fn hosts_at(alloc: Global, matches: &ArgMatches<'_>) -> Result<Vec<Address>, WordsError>
    ensures ok { IfOk result (λ hosts. AreAddressesAt (rows_in matches.now) (codes "host") hosts.items) }
    ensures fault { IfErr result (IsRefusalOf (Unit {0}) (IsNoAddressAmong (rows_in matches.now) (codes "host"))) }
{
    match matches.get_strs(HOST) {
        Some(texts) => addresses_of(alloc, texts),
        None => Ok(Vec::new(alloc)),
    }
}

/// Returns a node's first incarnation, if and only if it is there and in its range.
pub fn incarnation(matches: &ArgMatches<'_>) -> Option<Incarnation>
    ensures given { IfSome result (IsNumberAt (rows_in matches.now) (codes "incarnation")) }
    ensures taken { HasNumber (rows_in matches.now) (codes "incarnation") (λ n. n ≤ greatest_number) → IsSome result }
{
    let incarnation = number(matches, INCARNATION, 0, MAX_NUMBER)?;
    Incarnation::new(incarnation)
}

/// Returns the number of connections that are served at a time, if and only if that is there and in its range.
fn workers(matches: &ArgMatches<'_>) -> Option<u32>
    ensures range { IfSome result IsCrew }
    ensures given { IfSome result (IsNumberAt (rows_in matches.now) (codes "workers")) }
    ensures taken { HasNumber (rows_in matches.now) (codes "workers") IsCrew → IsSome result }
{
    let workers = number(matches, WORKERS, 1, u64::from(MAX_WORKERS))?;
    Some(workers as u32)
}

/// Returns a node's weight, if and only if it is there and in its range.
pub fn weight(matches: &ArgMatches<'_>) -> Option<Weight>
    ensures given { IfSome result (IsNumberAt (rows_in matches.now) (codes "weight")) }
    ensures taken { HasNumber (rows_in matches.now) (codes "weight") IsWeight → IsSome result }
{
    let weight = number(matches, WEIGHT, 1, u64::from(MAX_WEIGHT))?;
    Weight::new(weight as u8)
}

/// Returns the most changes of a message, if and only if the option is there and in its range.
fn per_message(matches: &ArgMatches<'_>) -> Option<usize>
    ensures range { IfSome result IsPerMessage }
    ensures given { IfSome result (IsNumberAt (rows_in matches.now) (codes "per-message")) }
    ensures taken { HasNumber (rows_in matches.now) (codes "per-message") IsPerMessage → IsSome result }
{
    let per_message = number(matches, PER_MESSAGE, 1, MAX_MEMBERS as u64)?;
    Some(per_message as usize)
}

/// Returns how often a change is passed on, if and only if the option is there and in its range.
fn piggyback(matches: &ArgMatches<'_>) -> Option<u32>
    ensures range { IfSome result IsPiggyback }
    ensures given { IfSome result (IsNumberAt (rows_in matches.now) (codes "piggyback")) }
    ensures taken { HasNumber (rows_in matches.now) (codes "piggyback") IsPiggyback → IsSome result }
{
    let piggyback = number(matches, PIGGYBACK, 1, u64::from(MAX_FACTOR))?;
    Some(piggyback as u32)
}

/// Returns the arguments of `serve` with this address and no host, if and only if each number is in its range.
fn words_without_hosts(
    alloc: Global,
    matches: &ArgMatches<'_>,
    address: Address,
) -> Option<ServeWords>
    ensures address { IfSome result (λ words. words.address ≡ address) }
    ensures numbers { IfSome result (AreNumbersAt (rows_in matches.now)) }
    ensures taken { HasNumbers (rows_in matches.now) → IsSome result }
{
    let incarnation = incarnation(matches)?;
    let requests = number(matches, REQUESTS, 1, MAX_REQUESTS)?;
    let workers = workers(matches)?;
    let period = number(matches, PERIOD, 0, MAX_NUMBER)?;
    let replicas = replicas(matches)?;
    let weight = weight(matches)?;
    let per_message = per_message(matches)?;
    let piggyback = piggyback(matches)?;
    Some(ServeWords {
        address,
        incarnation,
        requests,
        workers,
        period,
        replicas,
        weight,
        per_message,
        piggyback,
        heal: flag(matches, HEAL),
        sum: flag(matches, SUM),
        hosts: Vec::new(alloc),
    })
}

/// Returns the arguments of `serve` with this address and these hosts, if and only if each number is in its range, and
/// so is the number of hosts.
fn serve_words_at(
    alloc: Global,
    matches: &ArgMatches<'_>,
    address: Address,
    hosts: Vec<Address>,
) -> Option<ServeWords>
    ensures address { IfSome result (λ words. words.address ≡ address) }
    ensures hosts { IfSome result (λ words. words.hosts ≡ hosts) }
    ensures numbers { IfSome result (AreNumbersAt (rows_in matches.now)) }
    ensures taken { HasNumbers (rows_in matches.now) → length hosts.items < 2 ^ 32 → IsSome result }
{
    if hosts.len() > u32::MAX as usize {
        return None;
    }
    let mut words = words_without_hosts(alloc, matches, address)?;
    words.hosts = hosts;
    Some(words)
}

/// Returns the arguments of `serve`.
fn serve_words(alloc: Global, matches: &ArgMatches<'_>) -> Result<ServeWords, WordsError>
    ensures served { IfOk result (IsServedAt (rows_in matches.now)) }
    ensures fault { IfErr result (IsRefusalOf (HasServed (rows_in matches.now)) (HasBadAddress (rows_in matches.now))) }
{
    let address = address_at(alloc, matches, ADDRESS)?;
    let hosts = hosts_at(alloc, matches)?;
    match serve_words_at(alloc, matches, address, hosts) {
        Some(words) => Ok(words),
        None => Err(absent(alloc)),
    }
}

/// Returns the arguments of `ask`.
fn ask_words<'a>(alloc: Global, matches: &ArgMatches<'a>) -> Result<AskWords<'a>, WordsError>
    ensures asked { IfOk result (λ words. IsAskedAt (rows_in matches.now) words.address words.key.now words.body.now) }
    ensures fault { IfErr result (IsRefusalOf (HasAsked (rows_in matches.now)) (HasBadAddress (rows_in matches.now))) }
{
    let address = address_at(alloc, matches, ADDRESS)?;
    let (Some(key), Some(body)) = (matches.get_str(KEY), matches.get_str(BODY)) else {
        return Err(absent(alloc));
    };
    Ok(AskWords { address, key, body })
}

/// Returns the arguments of `ask --any`.
fn ask_any_words<'a>(alloc: Global, matches: &ArgMatches<'a>) -> Result<AskAnyWords<'a>, WordsError>
    ensures asked { IfOk result (IsAnyAskedAt (rows_in matches.now)) }
    ensures fault { IfErr result (IsRefusalOf (HasAnyAsked (rows_in matches.now)) (HasBadAddress (rows_in matches.now))) }
{
    let AskWords { address, key, body } = ask_words(alloc, matches)?;
    let Some(replicas) = replicas(matches) else {
        return Err(absent(alloc));
    };
    Ok(AskAnyWords {
        host: address,
        replicas,
        sum: flag(matches, SUM),
        key,
        body,
    })
}

/// Returns how members are written: as lines if the flag for them is set, else as a table if its flag is.
fn form(matches: &ArgMatches<'_>) -> MembersForm
    ensures { IsFormAt (rows_in matches.now) result }
{
    if flag(matches, LINES) {
        MembersForm::Lines
    } else if flag(matches, TABLE) {
        MembersForm::Table
    } else {
        MembersForm::Digest
    }
}

/// Returns the arguments of `members`.
fn members_words(alloc: Global, matches: &ArgMatches<'_>) -> Result<MembersWords, WordsError>
    ensures members { IfOk result (AreMembersAt (rows_in matches.now)) }
    ensures fault { IfErr result (IsRefusalOf (IsSome (first_of (codes "host") (rows_in matches.now))) (HasBadAddress (rows_in matches.now))) }
{
    let host = address_at(alloc, matches, HOST)?;
    Ok(MembersWords {
        host,
        form: form(matches),
    })
}

/// Returns the command of the subcommand of this name, and `None` if and only if no subcommand of the name speaks to
/// nodes.
///
/// # Errors
///
/// - `Usage`: an argument is absent or not in its range, or there are 2^32 hosts; in the form of `clap`'s errors.
/// - `BadAddress`: an argument that has to be an address is not one.
/// - `OutOfMemory`: out of memory.
pub fn cluster_command_of<'a>(
    alloc: Global,
    name: &str,
    matches: &ArgMatches<'a>,
) -> Result<Option<ClusterCommand<'a>>, WordsError>
    ensures command { IfOk result (λ found. MatchOption found (¬ IsOfNodes name.now) (IsCommandOf name.now (rows_in matches.now))) }
    ensures other { ¬ IsOfNodes name.now → result ≡ Ok None }
    ensures fault { IfErr result (IsRefusalOf (IsWhole name.now (rows_in matches.now)) (HasBadAddress (rows_in matches.now))) }
{
    let command = match name {
        "serve" => ClusterCommand::Serve(serve_words(alloc, matches)?),
        "ask" if flag(matches, ANY) => ClusterCommand::AskAny(ask_any_words(alloc, matches)?),
        "ask" => ClusterCommand::Ask(ask_words(alloc, matches)?),
        "members" => ClusterCommand::Members(members_words(alloc, matches)?),
        "tell" => ClusterCommand::Tell(address_at(alloc, matches, HOST)?),
        _ => return Ok(None),
    };
    Ok(Some(command))
}
