//! Which argument is refused because it is not an address.
ghost use Rattle.std.specs.Prelude.{IfOk, IfSome};
ghost use Rattle.cli_words.specs.Whole.{IsNoAddress};

use crate::commands::{ADDRESS, APP, BIND, HOST, HTTP, ringpop_command};
use crate::faults::WordsError;
use change_core::Address;
use clap::ArgMatches;
use std::alloc::Global;
use std::convert::AsStr;
use std::fmt;

/// An argument that has to be an address and is not one. Its `Display` names it, and says what to give.
#[derive(Clone, Copy, Debug, PartialEq, Eq)]
pub struct BadArgument<'a> {
    /// The argument, as the help writes it.
    pub argument: &'static str,
    /// What was given.
    pub given: &'a str,
}

impl fmt::Display for BadArgument<'_> {
    fn fmt<W: fmt::Write>(&self, f: &mut fmt::Formatter<W>) -> fmt::Result {
        let BadArgument { argument, given } = self;
        write!(
            f,
            "'{given}' for {argument}: give an IPv4 address and a port of 1 to 65535, as 127.0.0.1:7946"
        )
    }
}

/// The arguments that have to be addresses, in the order in which they are read, and as the help writes them.
const ADDRESSES: [(&str, &str); 5] = [
    (ADDRESS, "ADDRESS"),
    (BIND, "--bind"),
    (HTTP, "--http"),
    (APP, "--app"),
    (HOST, "HOST"),
];

/// Returns the first text of this argument that is not an address.
fn bad_text<'a>(matches: &ArgMatches<'a>, id: &str) -> Option<&'a str>
    ensures { IfSome result (λ text. IsNoAddress text.now) }
{
    for text in matches.get_strs(id)? {
        if Address::parse(text).is_err() {
            return Some(*text);
        }
    }
    None
}

/// Returns the first of these arguments that has to be an address and is not one.
fn bad_among<'a>(matches: &ArgMatches<'a>) -> Option<BadArgument<'a>>
    ensures { IfSome result (λ bad. IsNoAddress bad.given.now) }
{
    for (id, argument) in ADDRESSES {
        if let Some(given) = bad_text(matches, id) {
            return Some(BadArgument { argument, given });
        }
    }
    None
}

/// Returns the argument for which `read_words` refuses these as `BadAddress` or `BadAddressAt`: the first that has to be
/// an address and is not one, if there is any.
///
/// # Errors
///
/// - `Usage`: `clap` refuses the arguments, or they ask for help.
/// - `OutOfMemory`: out of memory.
pub fn bad_argument<'a, S: AsStr>(
    alloc: Global,
    words: &'a [S],
) -> Result<Option<BadArgument<'a>>, WordsError>
    ensures { IfOk result (λ found. IfSome found (λ bad. IsNoAddress bad.given.now)) }
{
    let matches = ringpop_command(alloc)?.try_get_matches_from(words)?;
    match matches.subcommand() {
        Some((_, inner)) => Ok(bad_among(inner)),
        None => Ok(None),
    }
}
