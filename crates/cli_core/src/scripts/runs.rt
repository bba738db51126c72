//! The lines of a script in, their answers out.
ghost use Rattle.std.specs.Prelude.{◌≡◌, ◌≤◌, true, length, IfOk, IfErr, IfSome, string_bytes};
ghost use Rattle.change_core.specs.Numbers.{greatest_number};
ghost use Rattle.hash_ring.specs.Points.{IsReplicas};
ghost use Rattle.wire_json.specs.Lines.{max_line};
ghost use Rattle.cli_core.specs.Simulated.{beginning};
ghost use Rattle.cli_core.specs.ScriptRuns.{AnswersLine, Completes, CompletesBy, IsLineRefused, Stops, StopsBy, Turns, fault_of_read};

use crate::counted::next_line;
use crate::outputs::write_text;
use crate::scripts::faults::{ScriptError, SimError};
use crate::scripts::lines::read_command;
use crate::scripts::simulation::Simulation;
use crate::words::SimWords;
use hash_ring::{PointHash, Sha256Hash, SumHash};
use message_core::WireError;
use std::alloc::Global;
use std::io::{Read, Write};

/// Returns a script's error for an error of reading a line.
fn fault_of_read(fault: WireError) -> ScriptError
    ensures { result ≡ fault_of_read fault }
{
    match fault {
        WireError::LineTooLong => ScriptError::LineTooLong,
        WireError::Memory => ScriptError::OutOfMemory,
        _ => ScriptError::ReadFailed,
    }
}

/// Does the command of a line; the text of the answer.
fn answer_line<H: PointHash>(
    alloc: Global,
    simulation: &mut Simulation<H>,
    line: &[u8],
) -> Result<String, ScriptError>
    requires { length line.now ≤ max_line }
    ensures answer { IfOk result (λ text. AnswersLine H.hash_of simulation.old line.now (string_bytes text) simulation.new) }
    ensures fault { IfErr result (λ f. IsLineRefused H.hash_of simulation.old line.now f) }
{
    let Some(command) = read_command(line) else {
        return Err(ScriptError::BadCommand);
    };
    let answer = simulation.obey(&command)?;
    answer.text(alloc)
}

/// Reads the line of this number, does its command and writes the answer; false at the end of the input.
fn turn<H: PointHash, R: Read, W: Write>(
    alloc: Global,
    simulation: &mut Simulation<H>,
    reader: &mut R,
    writer: &mut W,
    number: u64,
) -> Result<bool, SimError>
    ensures turn { IfSome (R.remaining reader.old) (λ xs. Turns H.hash_of simulation.old xs (W.contents writer.old) number result
        simulation.new (R.remaining reader.new) (W.contents writer.new)) }
    ensures counted { IfOk result (λ more. more ≡ true → number ≤ greatest_number) }
{
    let line = match next_line(alloc, reader, number) {
        Ok(Some(line)) => line,
        Ok(None) => return Ok(false),
        Err(fault) => return Err(SimError::AtLine(number, fault_of_read(fault))),
    };
    let text = match answer_line(alloc, simulation, line.as_slice()) {
        Ok(text) => text,
        Err(fault) => return Err(SimError::AtLine(number, fault)),
    };
    match write_text(writer, text.as_str()) {
        Ok(()) => Ok(true),
        Err(_) => Err(SimError::CannotWrite),
    }
}

/// `sim_run` under a hash.
fn sim_run_by<H: PointHash, R: Read, W: Write>(
    alloc: Global,
    hash: H,
    replicas: u32,
    reader: &mut R,
    writer: &mut W,
) -> Result<(), SimError>
    requires { IsReplicas replicas }
    ensures output { IfOk result (λ _. Completes H.hash_of (beginning hash replicas)
        (R.remaining reader.old) (W.contents writer.old) (W.contents writer.new)) }
    ensures fault { IfErr result (λ e. Stops H.hash_of (beginning hash replicas) e
        (R.remaining reader.old) (W.contents writer.old) (W.contents writer.new)) }
{
    let mut simulation = Simulation::new(alloc, hash, replicas);
    let mut number = 1;
    'lines: loop {
        match turn(alloc, &mut simulation, reader, writer, number) {
            Ok(true) => number += 1,
            Ok(false) => return Ok(()),
            Err(fault) => return Err(fault),
        }
    }
}

/// Reads the commands of a script to the end, one a line, and answers each with a line, before it reads the next. Lines
/// are counted from 1 to 9007199254740991.
///
/// # Errors
///
/// - `AtLine`: a line has an error; the first one is named, and the lines before it are answered. A line past the last
///   number is `ReadFailed`, or `OutOfMemory` if reading it runs out of memory.
/// - `CannotWrite`: the writer failed. The answers before that one are written, and a prefix of it.
pub fn sim_run<R: Read, W: Write>(
    alloc: Global,
    words: &SimWords,
    reader: &mut R,
    writer: &mut W,
) -> Result<(), SimError>
    ensures output { IfOk result (λ _. CompletesBy words.now.sum words.now.replicas
        (R.remaining reader.old) (W.contents writer.old) (W.contents writer.new)) }
    ensures fault { IfErr result (λ e. StopsBy words.now.sum words.now.replicas e
        (R.remaining reader.old) (W.contents writer.old) (W.contents writer.new)) }
{
    if words.sum {
        sim_run_by(alloc, SumHash, words.replicas, reader, writer)
    } else {
        sim_run_by(alloc, Sha256Hash, words.replicas, reader, writer)
    }
}
