//! The options for the log, as `clap` reads them.
ghost use Rattle.std.specs.Prelude.{◌≡◌, codes};
ghost use Rattle.clap.specs.Words.{rule_of};
ghost use Rattle.cli_words.specs.CommandLine as line;

use clap::{Arg, ArgAction};
use std::alloc::Global;

/// The argument for the level of the log.
pub const LOG: &str = "log";

/// The argument for a log of JSON.
pub const LOG_JSON: &str = "log-json";

/// The option for the level of the log.
pub fn log_option<'a>(alloc: Global) -> Arg<'a>
    ensures { rule_of result ≡ line.log }
{
    Arg::new(alloc, LOG)
        .long(LOG)
        .value_name("LEVEL")
        .default_value("info")
        .help("What the log on standard error has: off, error, warn, info or debug")
}

/// The flag for a log of JSON.
pub fn log_json_flag<'a>(alloc: Global) -> Arg<'a>
    ensures { rule_of result ≡ line.flag (codes "log-json") }
{
    Arg::new(alloc, LOG_JSON)
        .long(LOG_JSON)
        .action(ArgAction::SetTrue)
        .help("Write each line of the log as a JSON object")
}
