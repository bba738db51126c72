//! The answers to the lines of a script.
ghost use Rattle.std.specs.Prelude.{◌≡◌, ◌∷◌, ◌++◌, IfOk, IsOkUnless, string_bytes};
ghost use Rattle.std.specs.List.{flat_map};
ghost use Rattle.change_core.specs.Address.{address_text};
ghost use Rattle.cli_core.specs.ScriptAnswers.{answer_text, cause_word, message_text, owners_text, spaced, stopped_text, taken_text};

use crate::scripts::faults::ScriptError;
use change_core::{Address, Change, Digest};
use detector_core::Addresses;
use message_core::Text;
use node_core::{StopCause, Stopped, Taken};
use std::alloc::Global;

/// The answer to a line.
#[derive(Drop)]
pub enum Answer {
    /// It is done.
    Done,
    /// A batch was processed.
    Taken(Taken),
    /// A batch was processed, and the answer to it is the message of this number.
    Answered(Taken, u64),
    /// A batch stopped.
    Stopped(Stopped),
    /// The node says this.
    Said(Change),
    /// The node has left already.
    AlreadyLeft,
    /// The node has not left.
    NotLeft,
    /// No incarnation is left.
    Exhausted,
    /// There is none.
    Nothing,
    Members(Text),
    Digest(Digest),
    Owners(Addresses),
    /// A message is kept under this number.
    Message(u64),
    /// The message reached no node.
    Lost,
}

/// Returns the word for the cause that stopped a batch.
fn cause_word(cause: StopCause) -> &'static str
    ensures { result.now ≡ cause_word cause }
{
    match cause {
        StopCause::Exhausted => "Exhausted",
        StopCause::Full => "Full",
        StopCause::Memory => "Memory",
    }
}

/// The addresses, with a space between each two.
fn joined(alloc: Global, first: Address, others: &[Address]) -> Result<String, ScriptError>
    ensures text { IfOk result (λ s. string_bytes s ≡ address_text first ++ flat_map spaced others.now) }
    ensures refusal { IsOkUnless result ScriptError.OutOfMemory }
{
    let mut text = first.text(alloc).map_err(|_| ScriptError::OutOfMemory)?;
    'others: for other in others {
        write!(text, " {other}")?;
    }
    Ok(text)
}

/// Returns the addresses joined, or `none` if there is none.
fn owners_text(alloc: Global, owners: &[Address]) -> Result<String, ScriptError>
    ensures text { IfOk result (λ s. string_bytes s ≡ owners_text owners.now) }
    ensures refusal { IsOkUnless result ScriptError.OutOfMemory }
{
    match owners.split_first() {
        None => Ok(String::from_str(alloc, "none")?),
        Some((first, others)) => joined(alloc, *first, others),
    }
}

impl Answer {
    /// Returns the answer as one line, without its newline.
    ///
    /// # Errors
    ///
    /// - `OutOfMemory`: out of memory.
    pub fn text(&self, alloc: Global) -> Result<String, ScriptError>
        ensures text { IfOk result (λ s. string_bytes s ≡ answer_text self.now) }
        ensures refusal { IsOkUnless result ScriptError.OutOfMemory }
    {
        match self {
            Answer::Done => Ok(String::from_str(alloc, "ok")?),
            Answer::Taken(taken) => taken_text(alloc, taken.applied, taken.refuted),
            Answer::Answered(taken, number) => answered_text(alloc, *taken, *number),
            Answer::Stopped(stopped) => stopped_text(alloc, stopped.taken, stopped.cause),
            Answer::Said(change) => Ok(format!(in alloc; "{change}")?),
            Answer::AlreadyLeft => Ok(String::from_str(alloc, "AlreadyLeft")?),
            Answer::NotLeft => Ok(String::from_str(alloc, "NotLeft")?),
            Answer::Exhausted => Ok(String::from_str(alloc, "Exhausted")?),
            Answer::Nothing => Ok(String::from_str(alloc, "none")?),
            Answer::Members(text) => Ok(String::from_str(alloc, text.as_str())?),
            Answer::Digest(digest) => digest.text(alloc).map_err(|_| ScriptError::OutOfMemory),
            Answer::Owners(owners) => owners_text(alloc, owners.as_slice()),
            Answer::Message(number) => message_text(alloc, *number),
            Answer::Lost => Ok(String::from_str(alloc, "lost")?),
        }
    }
}

fn taken_text(alloc: Global, applied: usize, refuted: usize) -> Result<String, ScriptError>
    ensures text { IfOk result (λ s. string_bytes s ≡ taken_text (record { applied = applied; refuted = refuted })) }
    ensures refusal { IsOkUnless result ScriptError.OutOfMemory }
{
    Ok(format!(in alloc; "taken {applied} {refuted}")?)
}

fn message_text(alloc: Global, number: u64) -> Result<String, ScriptError>
    ensures text { IfOk result (λ s. string_bytes s ≡ message_text number) }
    ensures refusal { IsOkUnless result ScriptError.OutOfMemory }
{
    Ok(format!(in alloc; "message {number}")?)
}

fn answered_text(alloc: Global, taken: Taken, number: u64) -> Result<String, ScriptError>
    ensures text { IfOk result (λ s. string_bytes s ≡ taken_text taken ++ 32 ∷ message_text number) }
    ensures refusal { IsOkUnless result ScriptError.OutOfMemory }
{
    let taken = taken_text(alloc, taken.applied, taken.refuted)?;
    let message = message_text(alloc, number)?;
    Ok(format!(in alloc; "{taken} {message}")?)
}

fn stopped_text(alloc: Global, taken: usize, cause: StopCause) -> Result<String, ScriptError>
    ensures text { IfOk result (λ s. string_bytes s ≡ stopped_text (record { taken = taken; cause = cause })) }
    ensures refusal { IsOkUnless result ScriptError.OutOfMemory }
{
    let word = cause_word(cause);
    Ok(format!(in alloc; "stopped {taken} {word}")?)
}
