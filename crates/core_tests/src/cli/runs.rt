//! A subcommand that is run, and what it is to write and to end with.

use crate::cli::fakes::{ALL, Page, Reader, Source};
use crate::shared::{Host, check_refused};
use cli_core::{
    LineError, OwnerWords, RunError, ScriptError, SimError, SimWords, Subcommand, SubcommandError,
    subcommand_run,
};
use std::io::Write;

/// Scripts for small rings that hash by the sum of bytes.
pub const SIM: Subcommand<'static> = Subcommand::Sim(SimWords {
    replicas: 2,
    sum: true,
});

/// The one owner of a key by the sum of bytes.
pub const OWNER: Subcommand<'static> = Subcommand::Owner(OwnerWords {
    count: 1,
    replicas: 2,
    sum: true,
    key: "zzzz1",
});

/// Two owners of a key that is hashed by SHA-256.
pub const TWO_OWNERS: Subcommand<'static> = Subcommand::Owner(OwnerWords {
    count: 2,
    replicas: 100,
    sum: false,
    key: "10.0.0.1:110",
});

/// Whether an allocation failed. The error names the line that the reader had started, or none once it has given all; a
/// script has answered all lines before that one, and nothing else has written anything.
fn is_refused_memory(
    rt: &impl Host,
    subcommand: &Subcommand<'_>,
    ended: Result<(), SubcommandError>,
    reader: &Reader<'_>,
    page: &Page<'_>,
) -> bool {
    let is_placed = match ended {
        Err(SubcommandError::Run(RunError::OutOfMemory)) => {
            let reads = !matches!(subcommand, Subcommand::Hash(_));
            page.text() == "" && (!reads || reader.byte().is_none())
        }
        Err(SubcommandError::Run(RunError::AtLine(number, LineError::OutOfMemory))) => {
            page.text() == "" && number == reader.begun()
        }
        Err(SubcommandError::Sim(SimError::AtLine(number, ScriptError::OutOfMemory))) => {
            page.lines.saturating_add(1) == number && number == reader.begun()
        }
        _ if !page.found_out_of_memory => return false,
        _ => true,
    };
    assert!(rt; is_placed);
    check_refused(rt);
    true
}

/// Runs a subcommand. After a failed allocation it is run again, on an unchanged page.
///
/// # Errors
///
/// - The error of the subcommand, but not that of a failed allocation.
pub fn run<'a>(
    rt: &impl Host,
    subcommand: &Subcommand<'_>,
    reader: Reader<'_>,
    page: &mut Page<'a>,
) -> Result<(), SubcommandError> {
    let (mut first, mut second) = (reader, reader);
    let before = *page;
    let ended = subcommand_run(rt.alloc(), subcommand, &mut first, page);
    if !is_refused_memory(rt, subcommand, ended, &first, page) {
        return ended;
    }
    *page = before;
    // What was shown is shown no more.
    let _ = page.flush();
    subcommand_run(rt.alloc(), subcommand, &mut second, page)
}

/// Checks what a subcommand writes to a page, and the text of the error that it ends with, or of none if that is empty.
pub fn check(
    rt: &impl Host,
    subcommand: &Subcommand<'_>,
    reader: Reader<'_>,
    mut page: Page<'_>,
    wanted: (&str, &str),
) {
    let (output, text) = wanted;
    let ended = run(rt, subcommand, reader, &mut page);
    let mut said = Page::new(ALL);
    if let Err(fault) = ended {
        let _ = write!(said, "{fault}");
    }
    let (wrote, said) = (page.text(), said.text());
    assert!(rt;
        wrote == output && said == text && ended.is_ok() == text.is_empty(),
        "{output}{text} came: {wrote}{said}"
    );
}

/// Checks what a subcommand does with all that it reads, where there is room for all that it writes.
pub fn check_all(
    rt: &impl Host,
    subcommand: &Subcommand<'_>,
    source: Source<'_>,
    wanted: (&str, &str),
) {
    let reader = Reader::new(source, ALL);
    check(rt, subcommand, reader, Page::new(ALL), wanted);
}

/// Checks what a subcommand does with lines.
pub fn check_lines(
    rt: &impl Host,
    subcommand: &Subcommand<'_>,
    lines: &[&str],
    wanted: (&str, &str),
) {
    check_all(rt, subcommand, Source::Lines(lines), wanted);
}
