//! The option for the file that lists hosts, as `clap` reads it.
ghost use Rattle.std.specs.Prelude.{◌≡◌, IfOk};
ghost use Rattle.clap.specs.Words.{rule_of};
ghost use Rattle.cli_words.specs.CommandLine as line;
ghost use Rattle.cli_words.specs.Words.{IsHostsFileAt, rows_in};

use clap::{Arg, ArgMatches};
use std::alloc::{AllocError, Global};

/// The argument for the file that lists hosts.
const HOSTS_FILE: &str = "hosts-file";

/// The option for the file that lists hosts.
pub fn hosts_file_option<'a>(alloc: Global) -> Arg<'a>
    ensures { rule_of result ≡ line.hosts_file }
{
    Arg::new(alloc, HOSTS_FILE)
        .long(HOSTS_FILE)
        .value_name("FILE")
        .help(
            "A file of more hosts, one address on a line, at most 4096; lines that\n\
             begin with # are left out. It is read at the start and again each\n\
             five seconds. Where the list changes, replace the file as a whole",
        )
}

/// Returns the path of the file that lists hosts, if it is given.
///
/// # Errors
///
/// - `AllocError`: out of memory.
pub fn hosts_file_in(alloc: Global, matches: &ArgMatches<'_>) -> Result<Option<String>, AllocError>
    ensures { IfOk result (IsHostsFileAt (rows_in matches.now)) }
{
    match matches.get_str(HOSTS_FILE) {
        Some(path) => Ok(Some(String::from_str(alloc, path)?)),
        None => Ok(None),
    }
}
