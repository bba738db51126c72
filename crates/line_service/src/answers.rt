//! An answer that goes over a connection as fast as the other side takes it.
ghost use Rattle.std.specs.Prelude.{◌≡◌, ◌<◌, ◌++◌, ◌∷◌, ◌↔◌, [], ℕ, List, IfErr, IfOk, IfSome, IsSome, IsTrue, vec_capacity, vec_len};
ghost use Rattle.std.specs.Io.{WritesAtMost};
ghost use Rattle.std.specs.Io.KnownBytes.{Appends, WriteAppends};
ghost use Rattle.line_service.specs.Ports.{left_of};

use std::io;
use std::io::{ErrorKind, Write};

/// The line of an answer with its newline, of which a part may have been written.
#[derive(Drop)]
pub(crate) struct Answer {
    line: Vec<u8>,
    /// The number of its bytes that were written.
    written: usize,
}

/// Writes once. Returns how many bytes were taken; 0 if the write would block, or a signal interrupted it.
///
/// # Errors
///
/// - Any other error of the stream.
#[tactic(auto, using(crate::proofs::Parts::kept_as_none))]
fn write_some<S: Write>(stream: &mut S, bytes: &[u8]) -> io::Result<usize>
    ensures bound { WritesAtMost result bytes.now }
    ensures bytes { WriteAppends (S.contents stream.old) (S.contents stream.new) result bytes.now }
{
    match stream.write(bytes) {
        Ok(count) => Ok(count),
        Err(error) => match error.kind() {
            ErrorKind::WouldBlock | ErrorKind::Interrupted => Ok(0),
            _ => Err(error),
        },
    }
}

impl Answer {
    /// Makes the answer of a line, of which nothing was written. Nothing is allocated if the line has room for its newline; None if out of memory for that.
    pub(crate) fn new(line: Vec<u8>) -> Option<Self>
        ensures left { IfSome result (λ answer. left_of answer ≡ line.items ++ 10 ∷ []) }
        ensures room { vec_len line < vec_capacity line → IsSome result }
    {
        let mut line = line;
        match line.push(b'\n') {
            Ok(()) => Some(Answer { line, written: 0 }),
            Err(_) => None,
        }
    }

    /// Writes once of what is left. Returns whether nothing is left then; what is has to be written once the stream takes more.
    ///
    /// # Errors
    ///
    /// - The error of the stream, unless the write would block, or a signal interrupted it.
    pub(crate) fn write_on<S: Write>(&mut self, stream: &mut S) -> io::Result<bool>
        ensures written { (went : List ℕ) × Appends (S.contents stream.old) (S.contents stream.new) went × (left_of self.old ≡ went ++ left_of self.new) }
        ensures whole { IfOk result (λ is_whole. IsTrue is_whole ↔ (left_of self.new ≡ [])) }
        ensures err { IfErr result (λ _. left_of self.new ≡ left_of self.old) }
    {
        let start = self.written.min(self.line.len());
        let count = write_some(stream, &self.line[start..])?;
        self.written = start + count;
        Ok(self.written == self.line.len())
    }
}
