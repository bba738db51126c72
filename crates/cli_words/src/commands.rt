//! The command line, as `clap` reads it.
ghost use Rattle.std.specs.Prelude.{◌≡◌, IfOk, IsOkAnd, codes};
ghost use Rattle.clap.specs.Words.{AddsArg, AddsInTurn, AddsSubcommand, app_of, new_app, rule_of};
ghost use Rattle.clap.specs.declared.builder.command.Command.{Command as BuiltCommand};
ghost use Rattle.cli_words.specs.CommandLine as line;
ghost use Rattle.cli_words.specs.CommandLine.{leaf, ringpop_app};

use crate::agent_words::{MAX_HANDS, MAX_HTTP_CONNECTIONS, MAX_LEAVE_AFTER, MAX_PERIOD};
use crate::cluster_options::cluster_option;
use crate::help::{
    BELOW, BELOW_AGENT, BELOW_ASK, BELOW_FOLD, BELOW_MEMBERS, BELOW_OWNER, BELOW_SERVE, BELOW_SIM,
    BELOW_TELL,
};
use crate::hosts_options::hosts_file_option;
use crate::log_options::{log_json_flag, log_option};
use change_core::{MAX_MEMBERS, MAX_NUMBER, MAX_WEIGHT};
use clap::builder::{ValueParser, ValueRange};
use clap::{Arg, ArgAction, Command};
use cli_core::MAX_REQUESTS;
use gossip_core::MAX_FACTOR;
use hash_ring::MAX_REPLICAS;
use node_core::MAX_WORKERS;
use std::alloc::{AllocError, Global};

/// The argument for the number of owners to name.
pub const COUNT: &str = "n";

/// The argument for the number of a server's points for each unit of its weight.
pub const REPLICAS: &str = "replicas";

/// The argument for the sum of the bytes as the hash.
pub const SUM: &str = "sum";

/// The key whose owners are named.
pub const KEY: &str = "key";

/// The argument for the address of a node.
pub const ADDRESS: &str = "address";

/// The argument for a running node that is asked about the cluster, or to admit a node.
pub const HOST: &str = "host";

/// A node's first incarnation.
pub const INCARNATION: &str = "incarnation";

/// The argument for the number of connections to serve.
pub const REQUESTS: &str = "requests";

/// The argument for the number of connections that are served at a time.
pub const WORKERS: &str = "workers";

/// The argument for the milliseconds between two rounds of gossip.
pub const PERIOD: &str = "period";

/// The argument for how often a change is passed on for each decimal digit of the number of serving members.
pub const PIGGYBACK: &str = "piggyback";

/// The argument for finding members again that parted.
pub const HEAL: &str = "heal";

/// A node's weight.
pub const WEIGHT: &str = "weight";

/// The argument for the body of a request.
pub const BODY: &str = "body";

/// The argument for asking the owner of the key, whichever node that is.
pub const ANY: &str = "any";

/// The argument for printing members as change lines.
pub const LINES: &str = "lines";

/// The argument for printing members as a table.
pub const TABLE: &str = "table";

/// The text that is hashed.
pub const TEXT: &str = "text";

/// The argument for the address at which a node listens, if that is not the one by which others name it.
pub const BIND: &str = "bind";

/// The argument for the address at which HTTP is answered.
pub const HTTP: &str = "http";

/// The argument for allowing an address for HTTP outside 127.0.0.0/8.
pub const HTTP_ANY: &str = "http-any";

/// The argument for the address of the application.
pub const APP: &str = "app";

/// The argument for joining without waiting for the application.
pub const NO_WAIT_APP: &str = "no-wait-app";

/// The argument for the seconds after which a node leaves if its application accepts no connection.
pub const LEAVE_AFTER: &str = "leave-after";

/// The argument for telling the application of the ring.
pub const TELL_APP: &str = "tell-app";

/// The argument for passing on any HTTP request of a key.
pub const ANY_REQUEST: &str = "any-request";

/// The argument for the name of the field that names the key of any HTTP request.
pub const KEY_FIELD: &str = "key-field";

/// The argument for the most requests of other nodes that the application is given at a time.
pub const HANDS: &str = "hands";

/// The argument for the most HTTP connections that are open at a time.
pub const HTTP_CONNECTIONS: &str = "http-connections";

/// The argument for the most changes that a message carries.
pub const PER_MESSAGE: &str = "per-message";

/// An option with a whole number in a range.
fn option<'a>(
    alloc: Global,
    name: &'a str,
    value: &'a str,
    default: &'a str,
    least: u64,
    most: u64,
) -> Arg<'a>
    ensures { rule_of result ≡ line.option name.entry.now default.entry.now least most }
{
    Arg::new(alloc, name)
        .long(name)
        .value_name(value)
        .value_parser(ValueParser::unsigned(least, most))
        .default_value(default)
}

/// An argument that has to be given: a text, which may be empty.
fn word<'a>(alloc: Global, name: &'a str, value: &'a str, help: &'a str) -> Arg<'a>
    ensures { rule_of result ≡ line.word name.entry.now }
{
    Arg::new(alloc, name)
        .required(true)
        .value_name(value)
        .help(help)
}

/// A new subcommand with these options and arguments, in their order, and this text below its help.
fn leaf_command<'a>(
    alloc: Global,
    name: &'a str,
    about: &'a str,
    below: &'a str,
    words: Vec<Arg<'a>>,
) -> Result<Command<'a>, AllocError>
    ensures { IfOk result (λ c. (bare : BuiltCommand) × (app_of bare ≡ new_app name.entry.now) × AddsInTurn AddsArg bare words.entry.items c) }
{
    Command::new(alloc, name)
        .about(about)
        .after_help(below)
        .args(words)
}

fn fold_command<'a>(alloc: Global) -> Command<'a>
    ensures { app_of result ≡ leaf line.fold_words }
{
    Command::new(alloc, "fold")
        .about("Reads change lines; prints the members that result, and their digest")
        .after_help(BELOW_FOLD)
}

fn hash_command<'a>(alloc: Global) -> Result<Command<'a>, AllocError>
    ensures { IfOk result (λ c. app_of c ≡ leaf line.hash_words) }
{
    let text = word(alloc, TEXT, "TEXT", "Any text; it may be empty");
    Command::new(alloc, "hash")
        .about(
            "Prints the position of a text on the ring: the first 16 hexadecimal digits of its SHA-256",
        )
        .arg(text)
}

/// The number of a server's points for each unit of its weight.
fn replicas_option<'a>(alloc: Global) -> Arg<'a>
    ensures { rule_of result ≡ line.replicas }
{
    option(alloc, REPLICAS, "R", "100", 1, u64::from(MAX_REPLICAS)).help(
        "Points on the ring for each unit of a member's weight, from 1 to\n\
         1000; all nodes of a cluster need the same number",
    )
}

/// The flag for the sum of the bytes as the hash.
fn sum_flag<'a>(alloc: Global) -> Arg<'a>
    ensures { rule_of result ≡ line.sum }
{
    Arg::new(alloc, SUM)
        .long(SUM)
        .action(ArgAction::SetTrue)
        .help(
            "Hash by the sum of the bytes instead of SHA-256, to follow an\n\
             example with pen and paper",
        )
}

fn owner_command<'a>(alloc: Global) -> Result<Command<'a>, AllocError>
    ensures { IfOk result (λ c. app_of c ≡ leaf line.owner_words) }
{
    let count = option(alloc, COUNT, "N", "1", 0, MAX_MEMBERS as u64).help(
        "How many members to print, the owner first and then those that come\n\
         next, from 0 to 4096",
    );
    let key = word(alloc, KEY, "KEY", "The key: any text; it may be empty");
    let words = vec![in alloc; count, replicas_option(alloc), sum_flag(alloc), key]?;
    leaf_command(
        alloc,
        "owner",
        "Reads change lines; prints the member that owns a key",
        BELOW_OWNER,
        words,
    )
}

fn sim_command<'a>(alloc: Global) -> Result<Command<'a>, AllocError>
    ensures { IfOk result (λ c. app_of c ≡ leaf line.sim_words) }
{
    let words = vec![in alloc; replicas_option(alloc), sum_flag(alloc)]?;
    leaf_command(
        alloc,
        "sim",
        "Reads a script of commands for simulated nodes; answers each command with a line",
        BELOW_SIM,
        words,
    )
}

/// The number of connections that are served at a time.
fn workers_option<'a>(alloc: Global) -> Arg<'a>
    ensures { rule_of result ≡ line.workers }
{
    option(alloc, WORKERS, "W", "2", 1, u64::from(MAX_WORKERS)).help(
        "How many connections are served at a time, from 1 to 16",
    )
}

/// The milliseconds between two rounds of gossip.
fn period_option<'a>(alloc: Global) -> Arg<'a>
    ensures { rule_of result ≡ line.period }
{
    option(alloc, PERIOD, "MS", "0", 0, MAX_NUMBER).help(
        "Milliseconds between two rounds of gossip, up to 9007199254740991;\n\
         with 0 the node makes no rounds: it answers other nodes, and detects\n\
         no failure",
    )
}

/// A node's weight.
fn weight_option<'a>(alloc: Global) -> Arg<'a>
    ensures { rule_of result ≡ line.weight }
{
    option(alloc, WEIGHT, "W", "1", 1, u64::from(MAX_WEIGHT)).help(
        "The node's weight, from 1 to 8: a node of weight 2 owns twice as\n\
         many keys as one of weight 1, on average",
    )
}

/// The option for the most changes that a message of `serve` carries.
fn per_message_option<'a>(alloc: Global) -> Arg<'a>
    ensures { rule_of result ≡ line.per_message }
{
    option(alloc, PER_MESSAGE, "N", "64", 1, MAX_MEMBERS as u64).help(
        "How many changes a message carries at most, from 1 to 4096; with 256\n\
         or more, many nodes that start together agree sooner",
    )
}

/// The option for how often a change is passed on, for each decimal digit of the number of serving members.
fn piggyback_option<'a>(alloc: Global) -> Arg<'a>
    ensures { rule_of result ≡ line.piggyback }
{
    option(alloc, PIGGYBACK, "N", "15", 1, u64::from(MAX_FACTOR)).help(
        "How often the node passes a change on, for each decimal digit of the\n\
         number of members that are alive or suspect, from 1 to 1000",
    )
}

/// The flag for finding members again that parted.
fn heal_flag<'a>(alloc: Global) -> Arg<'a>
    ensures { rule_of result ≡ line.flag (codes "heal") }
{
    Arg::new(alloc, HEAL)
        .long(HEAL)
        .action(ArgAction::SetTrue)
        .help(
            "Find members again that were lost, as in a partition: after each\n\
             tenth round ping a random member, which may be faulty, and send a\n\
             join to a host that is neither alive nor suspect",
        )
}

/// An argument that has to be given: a whole number in a range.
fn number_word<'a>(
    alloc: Global,
    name: &'a str,
    value: &'a str,
    help: &'a str,
    least: u64,
    most: u64,
) -> Arg<'a>
    ensures { rule_of result ≡ line.number_word name.entry.now least most }
{
    word(alloc, name, value, help).value_parser(ValueParser::unsigned(least, most))
}

/// A node's first incarnation.
fn incarnation_word<'a>(alloc: Global) -> Arg<'a>
    ensures { rule_of result ≡ line.incarnation }
{
    let help = "The node's first incarnation, from 0 to 9007199254740991: a greater\n\
         one at each start. It is also the seed of the node's random choices";
    number_word(alloc, INCARNATION, "INCARNATION", help, 0, MAX_NUMBER)
}

/// The number of connections to serve.
fn requests_word<'a>(alloc: Global) -> Arg<'a>
    ensures { rule_of result ≡ line.requests }
{
    let help = "After how many connections the node ends, those of gossip included,\n\
         from 1 to 1000000";
    number_word(alloc, REQUESTS, "REQUESTS", help, 1, MAX_REQUESTS)
}

/// The nodes that are asked to admit the node.
fn hosts_word<'a>(alloc: Global, help: &'a str) -> Arg<'a>
    ensures { rule_of result ≡ line.hosts }
{
    Arg::new(alloc, HOST)
        .num_args(ValueRange::from(0..))
        .action(ArgAction::Append)
        .value_name("HOST")
        .help(help)
}

fn serve_command<'a>(alloc: Global) -> Result<Command<'a>, AllocError>
    ensures { IfOk result (λ c. app_of c ≡ leaf line.serve_words) }
{
    let address = word(
        alloc,
        ADDRESS,
        "ADDRESS",
        "The IPv4 address and port where the node listens and others reach\n\
         it, so not 0.0.0.0",
    );
    let hosts = "Running nodes that are asked to admit this one; none for the first\n\
         node of a cluster";
    let words = vec![in alloc;
        workers_option(alloc),
        period_option(alloc),
        replicas_option(alloc),
        sum_flag(alloc),
        weight_option(alloc),
        per_message_option(alloc),
        piggyback_option(alloc),
        heal_flag(alloc),
        address,
        incarnation_word(alloc),
        requests_word(alloc),
        hosts_word(alloc, hosts),
    ]?;
    leaf_command(
        alloc,
        "serve",
        "Runs a node that echoes requests, and ends after REQUESTS connections",
        BELOW_SERVE,
        words,
    )
}

/// The flag for asking the owner of the key, whichever node that is.
fn any_flag<'a>(alloc: Global) -> Arg<'a>
    ensures { rule_of result ≡ line.flag (codes "any") }
{
    Arg::new(alloc, ANY)
        .long(ANY)
        .action(ArgAction::SetTrue)
        .help(
            "Ask the owner of the key: ADDRESS is any node of the cluster, and is\n\
             asked for the members first; --replicas and --sum have to be the\n\
             cluster's",
        )
}

/// The subcommand `ask` with these options for asking the owner.
fn ask_command_with<'a>(
    alloc: Global,
    replicas: Arg<'a>,
    sum: Arg<'a>,
) -> Result<Command<'a>, AllocError>
    requires replicas { rule_of replicas ≡ line.with_another line.replicas }
    requires sum { rule_of sum ≡ line.with_another line.sum }
    ensures { IfOk result (λ c. app_of c ≡ leaf line.ask_words) }
{
    let address = word(
        alloc,
        ADDRESS,
        "ADDRESS",
        "The IPv4 address and port of the node",
    );
    let key = word(alloc, KEY, "KEY", "The key: any text; it may be empty");
    let body = word(
        alloc,
        BODY,
        "BODY",
        "The text of the request; it may be empty",
    );
    let cluster = cluster_option(alloc);
    let words = vec![in alloc; any_flag(alloc), replicas, sum, cluster, address, key, body]?;
    leaf_command(
        alloc,
        "ask",
        "Sends a request to a running node; prints the text of the reply",
        BELOW_ASK,
        words,
    )
}

pub(crate) fn ask_command<'a>(alloc: Global) -> Result<Command<'a>, AllocError>
    ensures { IfOk result (λ c. app_of c ≡ leaf line.ask_words) }
{
    let replicas = replicas_option(alloc).requires_arg(ANY)?;
    let sum = sum_flag(alloc).requires_arg(ANY)?;
    ask_command_with(alloc, replicas, sum)
}

/// A running node.
fn host_word<'a>(alloc: Global) -> Arg<'a>
    ensures { rule_of result ≡ line.word (codes "host") }
{
    word(
        alloc,
        HOST,
        "HOST",
        "The IPv4 address and port of a running node",
    )
}

/// The flag for printing members as change lines.
fn lines_flag<'a>(alloc: Global) -> Arg<'a>
    ensures { rule_of result ≡ line.flag (codes "lines") }
{
    Arg::new(alloc, LINES)
        .long(LINES)
        .action(ArgAction::SetTrue)
        .help("Print a change line for each member, as owner and fold read them")
}

/// The flag for printing members as a table.
fn table_flag<'a>(alloc: Global) -> Arg<'a>
    ensures { rule_of result ≡ line.flag (codes "table") }
{
    Arg::new(alloc, TABLE)
        .long(TABLE)
        .action(ArgAction::SetTrue)
        .help(
            "Print a table: address, status, incarnation, weight, and the share\n\
             of the keys that the weight gives on average. With --lines it has no\n\
             effect",
        )
}

pub(crate) fn members_command<'a>(alloc: Global) -> Result<Command<'a>, AllocError>
    ensures { IfOk result (λ c. app_of c ≡ leaf line.members_words) }
{
    let (lines, table) = (lines_flag(alloc), table_flag(alloc));
    let words = vec![in alloc; lines, table, cluster_option(alloc), host_word(alloc)]?;
    leaf_command(
        alloc,
        "members",
        "Prints the members that a running node holds, and their digest",
        BELOW_MEMBERS,
        words,
    )
}

pub(crate) fn tell_command<'a>(alloc: Global) -> Result<Command<'a>, AllocError>
    ensures { IfOk result (λ c. app_of c ≡ leaf line.tell_words) }
{
    let words = vec![in alloc; cluster_option(alloc), host_word(alloc)]?;
    leaf_command(
        alloc,
        "tell",
        "Reads change lines; sends them to a running node, and prints how many members it then holds",
        BELOW_TELL,
        words,
    )
}

/// An option with an address.
fn address_option<'a>(alloc: Global, name: &'a str, help: &'a str) -> Arg<'a>
    ensures { rule_of result ≡ line.address_option name.entry.now }
{
    Arg::new(alloc, name)
        .long(name)
        .value_name("ADDRESS")
        .help(help)
}

/// The option for the address at which a node listens, if that is not its own.
fn bind_option<'a>(alloc: Global) -> Arg<'a>
    ensures { rule_of result ≡ line.address_option (codes "bind") }
{
    address_option(
        alloc,
        BIND,
        "Where the node listens, if not at ADDRESS: in a container, or behind\n\
         address translation",
    )
}

/// The option for the address at which HTTP is answered.
fn http_option<'a>(alloc: Global) -> Arg<'a>
    ensures { rule_of result ≡ line.address_option (codes "http") }
{
    address_option(
        alloc,
        HTTP,
        "Where HTTP is answered, an address in 127.0.0.0/8 unless --http-any\n\
         is given; without this option there is no HTTP",
    )
}

/// The option for the address of the application.
fn app_option<'a>(alloc: Global) -> Arg<'a>
    ensures { rule_of result ≡ line.address_option (codes "app") }
{
    address_option(
        alloc,
        APP,
        "Where the application listens; it gets POST /keys/KEY for the keys\n\
         that this node owns. Without this option the agent echoes requests",
    )
}

/// The flag for allowing an address for HTTP outside 127.0.0.0/8.
fn http_any_flag<'a>(alloc: Global) -> Arg<'a>
    ensures { rule_of result ≡ line.flag (codes "http-any") }
{
    Arg::new(alloc, HTTP_ANY)
        .long(HTTP_ANY)
        .action(ArgAction::SetTrue)
        .help(
            "Allow an address outside 127.0.0.0/8 for --http; nothing is\n\
             authenticated, so whoever reaches it may stop the node",
        )
}

/// The flag for joining without waiting for the application.
fn no_wait_app_flag<'a>(alloc: Global) -> Arg<'a>
    ensures { rule_of result ≡ line.flag (codes "no-wait-app") }
{
    Arg::new(alloc, NO_WAIT_APP)
        .long(NO_WAIT_APP)
        .action(ArgAction::SetTrue)
        .help(
            "Join at once. Without this option the node joins when --app first\n\
             accepts a connection",
        )
}

/// The option for the seconds after which a node leaves if its application accepts no connection.
fn leave_after_option<'a>(alloc: Global) -> Arg<'a>
    ensures { rule_of result ≡ line.leave_after }
{
    option(alloc, LEAVE_AFTER, "SECONDS", "10", 0, MAX_LEAVE_AFTER).help(
        "After how many seconds in which --app accepts no connection the node\n\
         leaves the ring, from 1 to 86400; it comes back when --app accepts\n\
         one. With 0 it stays",
    )
}

/// The flag for telling the application of the ring, before the application is required.
fn tell_flag<'a>(alloc: Global) -> Arg<'a>
    ensures { rule_of result ≡ line.flag (codes "tell-app") }
{
    Arg::new(alloc, TELL_APP)
        .long(TELL_APP)
        .action(ArgAction::SetTrue)
        .help(
            "Send the application POST /moved with the ring at the start and after\n\
             each change, again until it answers 200 to 299; it needs --app",
        )
}

/// The flag for passing on any HTTP request of a key.
fn any_request_flag<'a>(alloc: Global) -> Arg<'a>
    ensures { rule_of result ≡ line.flag (codes "any-request") }
{
    Arg::new(alloc, ANY_REQUEST)
        .long(ANY_REQUEST)
        .action(ArgAction::SetTrue)
        .help(
            "Pass any HTTP request below /keys/KEY, or with the field of\n\
             --key-field, on to the application of the key's owner, as the client\n\
             made it; all agents have to know this option",
        )
}

/// The option for the name of the field that names the key of any HTTP request, before `--any-request` is required.
fn key_field_option<'a>(alloc: Global) -> Arg<'a>
    ensures { rule_of result ≡ line.key_field_option }
{
    Arg::new(alloc, KEY_FIELD)
        .long(KEY_FIELD)
        .value_name("NAME")
        .default_value("X-Ringpop-Key")
        .help(
            "The field that names the key of a request, percent-encoded, on any\n\
             path; it needs --any-request",
        )
}

/// The option for the most requests of other nodes that the application is given at a time.
fn hands_option<'a>(alloc: Global) -> Arg<'a>
    ensures { rule_of result ≡ line.hands }
{
    option(alloc, HANDS, "N", "32", 1, MAX_HANDS).help(
        "How many threads answer requests that other nodes send, from 1 to\n\
         256. Up to half of them pass on a request whose owner is yet another\n\
         node, so with 1 none is passed on",
    )
}

/// The option for the most HTTP connections that are open at a time.
fn http_connections_option<'a>(alloc: Global) -> Arg<'a>
    ensures { rule_of result ≡ line.http_connections }
{
    let most = MAX_HTTP_CONNECTIONS;
    option(alloc, HTTP_CONNECTIONS, "N", "10000", 1, most).help(
        "How many HTTP connections are open at a time, from 1 to 65536; one\n\
         more closes the one that was idle longest. There are fewer if the\n\
         system gives fewer descriptors, as the log says",
    )
}

/// The option for the milliseconds between two rounds of an agent.
fn agent_period_option<'a>(alloc: Global) -> Arg<'a>
    ensures { rule_of result ≡ line.agent_period }
{
    option(alloc, PERIOD, "MS", "200", 1, MAX_PERIOD).help(
        "Milliseconds between two rounds of gossip, from 1 to 60000",
    )
}

/// The option for the most changes that a message of an agent carries.
fn agent_per_message_option<'a>(alloc: Global) -> Arg<'a>
    ensures { rule_of result ≡ line.agent_per_message }
{
    option(alloc, PER_MESSAGE, "N", "1024", 1, MAX_MEMBERS as u64).help(
        "How many changes a message carries at most, from 1 to 4096: with as\n\
         many as there are members, those that start together agree soonest",
    )
}

/// The option for a node's first incarnation.
fn incarnation_option<'a>(alloc: Global) -> Arg<'a>
    ensures { rule_of result ≡ line.incarnation_option }
{
    Arg::new(alloc, INCARNATION)
        .long(INCARNATION)
        .value_name("I")
        .value_parser(ValueParser::unsigned(0, MAX_NUMBER))
        .help(
            "The node's first incarnation, from 0 to 9007199254740991: a greater\n\
             one at each start. Without this option it is the number of\n\
             milliseconds since 1970",
        )
}

/// The address by which other nodes name an agent's node.
fn agent_address<'a>(alloc: Global) -> Arg<'a>
    ensures { rule_of result ≡ line.word (codes "address") }
{
    word(
        alloc,
        ADDRESS,
        "ADDRESS",
        "The IPv4 address and port where other nodes reach this one, so not\n\
         0.0.0.0",
    )
}

/// The subcommand `agent` with this flag for telling the application of the ring, and this option for the field that names
/// keys.
fn agent_command_with<'a>(
    alloc: Global,
    tell: Arg<'a>,
    key_field: Arg<'a>,
) -> Result<Command<'a>, AllocError>
    requires tell { rule_of tell ≡ line.tell_app }
    requires key_field { rule_of key_field ≡ line.key_field }
    ensures { IfOk result (λ c. app_of c ≡ leaf line.agent_words) }
{
    let hosts = "Nodes that are asked to admit this one: the same list for all\n\
         agents, in which an agent skips itself; none for a single node";
    let words = vec![in alloc;
        bind_option(alloc),
        http_option(alloc),
        http_any_flag(alloc),
        app_option(alloc),
        no_wait_app_flag(alloc),
        leave_after_option(alloc),
        tell,
        any_request_flag(alloc),
        key_field,
        cluster_option(alloc),
        hosts_file_option(alloc),
        hands_option(alloc),
        http_connections_option(alloc),
        agent_period_option(alloc),
        agent_per_message_option(alloc),
        replicas_option(alloc),
        weight_option(alloc),
        incarnation_option(alloc),
        log_option(alloc),
        log_json_flag(alloc),
        agent_address(alloc),
        hosts_word(alloc, hosts),
    ]?;
    leaf_command(
        alloc,
        "agent",
        "Runs a node next to an application, which answers the requests for the keys of the node",
        BELOW_AGENT,
        words,
    )
}

fn agent_command<'a>(alloc: Global) -> Result<Command<'a>, AllocError>
    ensures { IfOk result (λ c. app_of c ≡ leaf line.agent_words) }
{
    let tell = tell_flag(alloc).requires_arg(APP)?;
    let key_field = key_field_option(alloc).requires_arg(ANY_REQUEST)?;
    agent_command_with(alloc, tell, key_field)
}

/// Returns `agent` as it stands in the usage line of its refusals.
///
/// # Errors
///
/// - `AllocError`: out of memory.
pub fn agent_alone<'a>(alloc: Global) -> Result<Command<'a>, AllocError> {
    agent_command(alloc)?.bin_name("ringpop agent")
}

/// The command with another subcommand. Out of memory for either is the error.
fn with_subcommand<'a>(
    command: Result<Command<'a>, AllocError>,
    subcommand: Result<Command<'a>, AllocError>,
) -> Result<Command<'a>, AllocError>
    ensures { IfOk result (λ c. IsOkAnd command.entry (λ x. IsOkAnd subcommand.entry (λ y. AddsSubcommand x y c))) }
{
    command?.subcommand(subcommand?)
}

/// Returns the subcommands and their arguments, as the table of the command line has them.
///
/// # Errors
///
/// - `AllocError`: out of memory.
pub fn ringpop_command<'a>(alloc: Global) -> Result<Command<'a>, AllocError>
    ensures { IfOk result (λ c. app_of c ≡ ringpop_app) }
{
    let command = Command::new(alloc, "ringpop")
        .bin_name("ringpop")?
        .version("1.0.0-dev")
        .about(
            "Names the members of a cluster and the owners of its keys, and runs nodes of a cluster",
        )
        .after_help(BELOW)
        .subcommand(fold_command(alloc));
    let command = with_subcommand(command, hash_command(alloc));
    let command = with_subcommand(command, owner_command(alloc));
    let command = with_subcommand(command, sim_command(alloc));
    let command = with_subcommand(command, serve_command(alloc));
    let command = with_subcommand(command, agent_command(alloc));
    let command = with_subcommand(command, ask_command(alloc));
    let command = with_subcommand(command, members_command(alloc));
    with_subcommand(command, tell_command(alloc))
}
