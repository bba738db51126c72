//! The arguments of `agent`, read from those of the command line.
ghost use Rattle.std.specs.Prelude.{◌≡◌, ◌≤◌, Ok, Some, codes, IfErr, IfOk, IfSome, IsErrAnd, IsSome};
ghost use Rattle.clap.specs.Words.{first_of};
ghost use Rattle.change_core.specs.Numbers.{greatest_number};
ghost use Rattle.cli_words.specs.Faults.{IsRefusalOf, IsUsageFault, fault_at};
ghost use Rattle.cli_words.specs.Whole.{HasAgent, HasAgentNumbers, HasKeyField, HasLeaveAfter, HasLevel, HasNumber, IsAgentRefusal, IsNoAddressAt};
ghost use Rattle.cli_words.specs.Words.{AreAddressesAt, AreAgentNumbersAt, IsAddressAt, IsAgentAt, IsClusterAt, IsFollowingAt, IsHostsFileAt, IsKeyFieldAt, IsNumberAt, IsNumberIfAt, IsOptionAt, level_name, rows_in};

use crate::agent_words::{
    AgentWords, FollowingWords, LogLevel, MAX_HANDS, MAX_HTTP_CONNECTIONS, MAX_LEAVE_AFTER,
    MAX_PERIOD,
};
use crate::cluster_options::cluster_in;
use crate::cluster_words::{address_at, address_of, hosts_at, incarnation, weight};
use crate::commands::{
    ADDRESS, ANY_REQUEST, APP, BIND, HANDS, HTTP, HTTP_ANY, HTTP_CONNECTIONS, KEY_FIELD,
    LEAVE_AFTER, NO_WAIT_APP, PER_MESSAGE, PERIOD, TELL_APP, agent_alone,
};
use crate::faults::WordsError;
use crate::hosts_options::hosts_file_in;
use crate::log_options::{LOG, LOG_JSON};
use crate::words::{absent, flag, number, refusal, replicas};
use change_core::{Address, Incarnation, MAX_MEMBERS};
use clap::ArgMatches;
use cluster_names::ClusterName;
use http_header::{HeaderName, HeaderNameError};
use std::alloc::Global;

/// Returns the level of this name, if and only if there is one.
fn level_of(name: &str) -> Option<LogLevel>
    ensures level { IfSome result (λ l. name.now ≡ level_name l) }
    ensures all { (l : LogLevel) → name.now ≡ level_name l → result ≡ Some l }
{
    match name {
        "off" => Some(LogLevel::Off),
        "error" => Some(LogLevel::Error),
        "warn" => Some(LogLevel::Warn),
        "info" => Some(LogLevel::Info),
        "debug" => Some(LogLevel::Debug),
        _ => None,
    }
}

/// Returns the address of an option; None if it is not given. A text that is not an address is `BadAddress`.
fn option_at(matches: &ArgMatches<'_>, id: &str) -> Result<Option<Address>, WordsError>
    ensures ok { IfOk result (IsOptionAt (rows_in matches.now) id.now) }
    ensures fault { IfErr result (IsRefusalOf (Unit {0}) (IsNoAddressAt (rows_in matches.now) id.now)) }
{
    match matches.get_str(id) {
        Some(text) => Ok(Some(address_of(text)?)),
        None => Ok(None),
    }
}

/// Returns what was read of this argument, which is named if it is not an address.
fn read_at<T: Drop>(argument: &'static str, read: Result<T, WordsError>) -> Result<T, WordsError>
    ensures ok { IfOk result (λ x. read ≡ Ok x) }
    ensures fault { IfErr result (λ f. IsErrAnd read (λ e. f ≡ fault_at argument.entry e)) }
{
    match read {
        Ok(value) => Ok(value),
        Err(error) => Err(error.at(argument)),
    }
}

/// The addresses among the arguments of `agent`.
#[derive(Drop)]
struct Addresses {
    address: Address,
    bind: Option<Address>,
    http: Option<Address>,
    app: Option<Address>,
    hosts: Vec<Address>,
}

/// Returns the addresses among the arguments of `agent`. If the first is absent, the error is `Usage`; the first argument
/// that has to be an address and is not one is named by `BadAddressAt`.
fn addresses_in(alloc: Global, matches: &ArgMatches<'_>) -> Result<Addresses, WordsError>
    ensures address { IfOk result (λ r. IsAddressAt (rows_in matches.now) (codes "address") r.address) }
    ensures bind { IfOk result (λ r. IsOptionAt (rows_in matches.now) (codes "bind") r.bind) }
    ensures http { IfOk result (λ r. IsOptionAt (rows_in matches.now) (codes "http") r.http) }
    ensures app { IfOk result (λ r. IsOptionAt (rows_in matches.now) (codes "app") r.app) }
    ensures hosts { IfOk result (λ r. AreAddressesAt (rows_in matches.now) (codes "host") r.hosts.items) }
    ensures fault { IfErr result (IsAgentRefusal (IsSome (first_of (codes "address") (rows_in matches.now))) (rows_in matches.now)) }
{
    let address = read_at("ADDRESS", address_at(alloc, matches, ADDRESS))?;
    let bind = read_at("--bind", option_at(matches, BIND))?;
    let http = read_at("--http", option_at(matches, HTTP))?;
    let app = read_at("--app", option_at(matches, APP))?;
    let hosts = read_at("HOST", hosts_at(alloc, matches))?;
    Ok(Addresses {
        address,
        bind,
        http,
        app,
        hosts,
    })
}

/// Returns the level of the log, if and only if its argument is there and names one.
fn level(matches: &ArgMatches<'_>) -> Option<LogLevel>
    ensures level { IfSome result (λ l. first_of (codes "log") (rows_in matches.now) ≡ Some (level_name l)) }
    ensures taken { HasLevel (rows_in matches.now) → IsSome result }
{
    let name = matches.get_str(LOG)?;
    level_of(name)
}

/// Returns a node's first incarnation, if and only if it is given and in its range.
fn incarnation_if(matches: &ArgMatches<'_>) -> Option<Incarnation>
    ensures { IsNumberIfAt (rows_in matches.now) (codes "incarnation") (λ n. n ≤ greatest_number) result }
{
    incarnation(matches)
}

/// Returns the number of the argument of this name, if and only if it is there and lies from 1 to `most`.
fn count(matches: &ArgMatches<'_>, id: &str, most: u64) -> Option<u64>
    ensures range { IfSome result (λ n. (1 ≤ n) × (n ≤ most)) }
    ensures given { IfSome result (IsNumberAt (rows_in matches.now) id.now) }
    ensures taken { HasNumber (rows_in matches.now) id.now (λ n. (1 ≤ n) × (n ≤ most)) → IsSome result }
{
    number(matches, id, 1, most)
}

/// Returns how the node follows its application, if and only if the number of seconds is there and in its range.
fn following(matches: &ArgMatches<'_>) -> Option<FollowingWords>
    ensures given { IfSome result (IsFollowingAt (rows_in matches.now)) }
    ensures taken { HasLeaveAfter (rows_in matches.now) → IsSome result }
{
    let leave_after = number(matches, LEAVE_AFTER, 0, MAX_LEAVE_AFTER)?;
    Some(FollowingWords {
        no_wait: flag(matches, NO_WAIT_APP),
        leave_after,
    })
}

/// Returns the arguments of `agent` with these addresses, this field, this cluster and this file of hosts, if and only if each number is there and in its range,
/// and the level of the log is there.
fn words_with(
    matches: &ArgMatches<'_>,
    addresses: Addresses,
    key_field: HeaderName,
    cluster: Option<ClusterName>,
    hosts_file: Option<String>,
) -> Option<AgentWords>
    ensures address { IfSome result (λ w. w.address ≡ addresses.address) }
    ensures bind { IfSome result (λ w. w.bind ≡ addresses.bind) }
    ensures http { IfSome result (λ w. w.http ≡ addresses.http) }
    ensures app { IfSome result (λ w. w.app ≡ addresses.app) }
    ensures hosts { IfSome result (λ w. w.hosts ≡ addresses.hosts) }
    ensures key_field { IfSome result (λ w. w.key_field ≡ key_field) }
    ensures cluster { IfSome result (λ w. w.cluster ≡ cluster) }
    ensures hosts_file { IfSome result (λ w. w.hosts_file ≡ hosts_file) }
    ensures numbers { IfSome result (AreAgentNumbersAt (rows_in matches.now)) }
    ensures taken { HasAgentNumbers (rows_in matches.now) → IsSome result }
{
    let hands = count(matches, HANDS, MAX_HANDS)?;
    let http_connections = count(matches, HTTP_CONNECTIONS, MAX_HTTP_CONNECTIONS)?;
    let period = count(matches, PERIOD, MAX_PERIOD)?;
    let per_message = count(matches, PER_MESSAGE, MAX_MEMBERS as u64)?;
    let replicas = replicas(matches)?;
    let weight = weight(matches)?;
    let level = level(matches)?;
    let following = following(matches)?;
    let Addresses {
        address,
        bind,
        http,
        app,
        hosts,
    } = addresses;
    Some(AgentWords {
        address,
        bind,
        http,
        http_any: flag(matches, HTTP_ANY),
        app,
        following,
        tell_app: flag(matches, TELL_APP),
        any_request: flag(matches, ANY_REQUEST),
        key_field,
        cluster,
        hosts_file,
        hands: hands as u32,
        http_connections: http_connections as u32,
        period,
        per_message: per_message as usize,
        replicas,
        weight,
        incarnation: incarnation_if(matches),
        level,
        log_json: flag(matches, LOG_JSON),
        hosts,
    })
}

/// Makes the refusal of a name that is no level of the log, in the form of `clap`'s errors.
fn no_level(alloc: Global, name: &str) -> WordsError
    ensures { IsUsageFault result }
{
    let text = format!(in alloc;
        "invalid value '{name}' for '--log <LEVEL>': give off, error, warn, info or debug"
    );
    match text {
        Ok(text) => refusal(agent_alone(alloc), text.as_str()),
        Err(_) => WordsError::OutOfMemory,
    }
}

/// Makes the refusal of arguments of which one is absent or not in its range: of the level of the log, if that is none.
fn refusal_of(alloc: Global, matches: &ArgMatches<'_>) -> WordsError
    ensures { IsUsageFault result }
{
    match matches.get_str(LOG) {
        Some(name) if level_of(name).is_none() => no_level(alloc, name),
        _ => absent(alloc),
    }
}

/// Makes the refusal of a text that is no name of a field, in the form of `clap`'s errors.
fn no_field(alloc: Global, name: &str) -> WordsError
    ensures { IsUsageFault result }
{
    let text = format!(in alloc;
        "invalid value '{name}' for '--key-field <NAME>': give the name of a field of HTTP, as X-Ringpop-Key"
    );
    match text {
        Ok(text) => refusal(agent_alone(alloc), text.as_str()),
        Err(_) => WordsError::OutOfMemory,
    }
}

/// Returns the field that names keys. If its argument is absent or is no name of a field, the error is `Usage`.
fn key_field_in(alloc: Global, matches: &ArgMatches<'_>) -> Result<HeaderName, WordsError>
    ensures ok { IfOk result (IsKeyFieldAt (rows_in matches.now)) }
    ensures fault { IfErr result (IsAgentRefusal (HasKeyField (rows_in matches.now)) (rows_in matches.now)) }
{
    let Some(text) = matches.get_str(KEY_FIELD) else {
        return Err(absent(alloc));
    };
    match HeaderName::from_bytes(alloc, text.as_bytes()) {
        Ok(name) => Ok(name),
        Err(HeaderNameError::OutOfMemory) => Err(WordsError::OutOfMemory),
        Err(HeaderNameError::Invalid) => Err(no_field(alloc, text)),
    }
}

/// Returns the arguments of `agent`. The addresses are read first, then the field that names keys, then the name of the cluster, then the path of the file of hosts, then the
/// numbers.
///
/// # Errors
///
/// - `Usage`: an argument is absent or not in its range, no level of the log has the name that is given, the field that
///   names keys is none of HTTP, or the name of the cluster is none; in the form of `clap`'s errors.
/// - `BadAddressAt`: an argument that has to be an address is not one, the first such in the order of the fields.
/// - `OutOfMemory`: out of memory.
pub fn agent_words(alloc: Global, matches: &ArgMatches<'_>) -> Result<AgentWords, WordsError>
    ensures words { IfOk result (IsAgentAt (rows_in matches.now)) }
    ensures fault { IfErr result (IsAgentRefusal (HasAgent (rows_in matches.now)) (rows_in matches.now)) }
{
    let addresses = addresses_in(alloc, matches)?;
    let key_field = key_field_in(alloc, matches)?;
    let cluster = cluster_in(alloc, "agent", matches)?;
    let hosts_file = hosts_file_in(alloc, matches)?;
    match words_with(matches, addresses, key_field, cluster, hosts_file) {
        Some(words) => Ok(words),
        None => Err(refusal_of(alloc, matches)),
    }
}
