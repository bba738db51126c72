//! The subcommand `agent`: a node next to an application.
ghost use Rattle.std.specs.Prelude.{◌≡◌, IfOk, OnOk, option_map, string_bytes};
ghost use Rattle.std.specs.Io.KnownBytes.{Appends};
ghost use Rattle.std.specs.Option.{unwrap_or};
ghost use Rattle.agent.specs.Texts.{agent_text};
ghost use Rattle.cli_run.specs.Agents.{filter_of, key_field_of, other_hosts};
ghost use Rattle.wire_json.specs.Input.{AppendsPrefix};

use agent::{AgentError, Following, Settings, System, run};
use change_core::Address;
use cli_words::{AgentWords, LogLevel};
use http::HeaderName;
use log::LevelFilter;
use std::alloc::{AllocError, Global};
use std::fs::Files;
use std::io::Write;

/// Returns the log's filter for a level of the arguments.
fn filter_of(level: LogLevel) -> LevelFilter
    ensures { result ≡ filter_of level }
{
    match level {
        LogLevel::Off => LevelFilter::Off,
        LogLevel::Error => LevelFilter::Error,
        LogLevel::Warn => LevelFilter::Warn,
        LogLevel::Info => LevelFilter::Info,
        LogLevel::Debug => LevelFilter::Debug,
    }
}

/// Returns the hosts without the node's own address.
fn other_hosts(alloc: Global, hosts: &[Address], own: Address) -> Result<Vec<Address>, AllocError>
    ensures { IfOk result (λ v. v.items ≡ other_hosts hosts.now own) }
{
    let mut others = Vec::from_slice(alloc, hosts)?;
    others.retain(|host| *host != own);
    Ok(others)
}

/// Returns the field that may name the key of a request, if any request of a key is passed on.
fn key_field_of(words: &AgentWords) -> Result<Option<HeaderName>, AllocError>
    ensures { IfOk result (λ field. field ≡ key_field_of words.now) }
{
    if words.any_request {
        Ok(Some(words.key_field.clone()?))
    } else {
        Ok(None)
    }
}

/// Returns the settings of the arguments.
fn settings_of(alloc: Global, words: &AgentWords) -> Result<Settings, AgentError>
    ensures address { IfOk result (λ s. s.address ≡ words.now.address) }
    ensures bind { IfOk result (λ s. s.bind ≡ unwrap_or words.now.bind words.now.address) }
    ensures http { IfOk result (λ s. s.http ≡ words.now.http) }
    ensures http_any { IfOk result (λ s. s.http_any ≡ words.now.http_any) }
    ensures app { IfOk result (λ s. s.app ≡ words.now.app) }
    ensures no_wait { IfOk result (λ s. s.following.no_wait ≡ words.now.following.no_wait) }
    ensures leave_after { IfOk result (λ s. s.following.leave_after ≡ words.now.following.leave_after) }
    ensures tell_app { IfOk result (λ s. s.tell_app ≡ words.now.tell_app) }
    ensures key_field { IfOk result (λ s. s.key_field ≡ key_field_of words.now) }
    ensures cluster { IfOk result (λ s. s.cluster ≡ words.now.cluster) }
    ensures hands { IfOk result (λ s. s.hands ≡ words.now.hands) }
    ensures http_connections { IfOk result (λ s. s.http_connections ≡ words.now.http_connections) }
    ensures period { IfOk result (λ s. s.period ≡ words.now.period) }
    ensures per_message { IfOk result (λ s. s.per_message ≡ words.now.per_message) }
    ensures replicas { IfOk result (λ s. s.replicas ≡ words.now.replicas) }
    ensures weight { IfOk result (λ s. s.weight ≡ words.now.weight) }
    ensures incarnation { IfOk result (λ s. s.incarnation ≡ words.now.incarnation) }
    ensures level { IfOk result (λ s. s.level ≡ filter_of words.now.level) }
    ensures log_json { IfOk result (λ s. s.log_json ≡ words.now.log_json) }
    ensures hosts_file { IfOk result (λ s. option_map string_bytes s.hosts_file ≡ option_map string_bytes words.now.hosts_file) }
    ensures hosts { IfOk result (λ s. s.hosts.items ≡ other_hosts words.now.hosts.items words.now.address) }
{
    Ok(Settings {
        address: words.address,
        bind: words.bind.unwrap_or(words.address),
        http: words.http,
        http_any: words.http_any,
        app: words.app,
        following: Following {
            no_wait: words.following.no_wait,
            leave_after: words.following.leave_after,
        },
        tell_app: words.tell_app,
        key_field: key_field_of(words)?,
        cluster: words.cluster.clone()?,
        hands: words.hands,
        http_connections: words.http_connections,
        period: words.period,
        per_message: words.per_message,
        replicas: words.replicas,
        weight: words.weight,
        incarnation: words.incarnation,
        level: filter_of(words.level),
        log_json: words.log_json,
        hosts_file: words.hosts_file.clone()?,
        hosts: other_hosts(alloc, words.hosts.as_slice(), words.address)?,
    })
}

/// Runs a node next to an application, as `agent::run` does, until it is told to stop. Its log goes to standard error.
///
/// # Errors
///
/// Threads that were started before the error keep running until the program ends. A prefix of the two lines is written.
///
/// - `NotLocal`: the address for HTTP is not in 127.0.0.0/8, and `--http-any` is not given.
/// - `CannotRead`: the file of hosts can't be read.
/// - `BadHosts`: the file of hosts lists none.
/// - `NoClock`: no incarnation is given, and the system has no clock, or its clock gives no time since 1970.
/// - `BadConfig`: a field of the node's configuration is out of its range.
/// - `CannotListen`: an address can't be listened at, that for other nodes or that for HTTP.
/// - `NoRandom`: the system gave no random numbers for the threads that answer HTTP.
/// - `FewDescriptors`: the system gives this process fewer than 64 descriptors.
/// - `NoReactor`: the system lets no connections be watched.
/// - `NoThread`: the system gave no thread.
/// - `CannotWrite`: the writer failed.
/// - `Spent`: a thread needs a pass of the node, and none is left.
/// - `Memory`: out of memory before `serving` was written.
pub fn agent_run<R: System + Files, W: Write>(
    rt: &R,
    alloc: Global,
    words: &AgentWords,
    writer: &mut W,
) -> Result<(), AgentError>
    ensures served { OnOk result (Appends (W.contents writer.old) (W.contents writer.new) (agent_text words.now.address)) }
    ensures prefix { AppendsPrefix (W.contents writer.old) (W.contents writer.new) (agent_text words.now.address) }
{
    let settings = settings_of(alloc, words)?;
    run(rt, alloc, settings, writer)
}
