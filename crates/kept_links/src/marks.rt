//! The mark of a line whose sender keeps the connection: a space before the newline.
ghost use Rattle.std.specs.Prelude.{◌≡◌, ◌<◌, ◌⊎◌, ◌↔◌, false, IfOk, IsTrue, take, vec_capacity, vec_len};
ghost use Rattle.std.specs.Io.{ReadsAtMost, WritesAtMost};
ghost use Rattle.std.specs.Io.KnownBytes.{Keeps, ReadConsumes, WriteAppends};
ghost use Rattle.kept_links.specs.Marks.{IsMarked, inner_of, marked_text, notes_mark};
ghost use Rattle.wire_json.specs.Lines.{max_line};

use std::io;
use std::io::{ErrorKind, Read, Write};
use wire_json::MAX_LINE;

/// Adds the mark to a line, unless it would be longer than a line may be, or memory runs out for it and the newline, which is not added.
pub fn marked_line(line: Vec<u8>) -> Vec<u8>
    ensures marked { ((vec_len line < max_line) × (result.items ≡ marked_text line.items)) ⊎ (result.items ≡ line.items) }
    ensures room { vec_len line < vec_capacity line → vec_len result < vec_capacity result }
{
    let mut line = line;
    if line.len() < MAX_LINE && line.reserve(2).is_ok() {
        let _marked = line.push(b' ');
    }
    line
}

/// Returns whether bytes end with a mark and a newline, and have no other newline: nothing follows the line.
fn is_marked(bytes: &[u8]) -> bool
    ensures { IsTrue result ↔ IsMarked bytes.now }
{
    match bytes.strip_suffix(b" \n") {
        Some(line) => !line.contains(&b'\n'),
        None => false,
    }
}

/// Returns the outcome of a step, whose error is noted. A step that lasted for its whole limit may end with `WouldBlock`, which is noted as `TimedOut`.
pub(crate) fn noted<T>(outcome: io::Result<T>, fault: &mut Option<io::Error>) -> io::Result<T>
    ensures { result ≡ outcome }
{
    if let Err(error) = &outcome {
        *fault = Some(match error.kind() {
            ErrorKind::WouldBlock => ErrorKind::TimedOut.into(),
            _ => *error,
        });
    }
    outcome
}

/// A stream that notes whether what was read last is the end of a marked line, with nothing after it, and the last error.
#[derive(Drop)]
pub struct Marked<S> {
    stream: S,
    is_marked: bool,
    /// The last error of the stream; None if there was none.
    pub(crate) fault: Option<io::Error>,
}

impl<S> Marked<S> {
    /// A stream from which nothing was read.
    pub fn new(stream: S) -> Self
        ensures stream { inner_of result ≡ stream }
        ensures unmarked { notes_mark result ≡ false }
    {
        Marked {
            stream,
            is_marked: false,
            fault: None,
        }
    }

    /// Returns whether the line that was read is marked, and nothing came after it: the other side keeps the connection.
    pub fn is_marked(&self) -> bool
        ensures { result ≡ notes_mark self.now }
    {
        self.is_marked
    }

    /// Returns the stream.
    pub fn into_inner(self) -> S
        ensures { result ≡ inner_of self }
    {
        self.stream
    }
}

impl<S: Read> Read for Marked<S> {
    ghost remaining = { λ m. S.remaining (inner_of m) };

    fn read(&mut self, buf: &mut [u8]) -> io::Result<usize>
        ensures bound { ReadsAtMost result buf.new }
        ensures bytes { ReadConsumes (S.remaining (inner_of self.old)) (S.remaining (inner_of self.new)) result buf.new }
        ensures noted { IfOk result (λ count. IsTrue (notes_mark self.new) ↔ IsMarked (take count buf.new)) }
    {
        let count = noted(self.stream.read(buf), &mut self.fault)?;
        self.is_marked = is_marked(&buf[..count]);
        Ok(count)
    }
}

impl<S: Write> Write for Marked<S> {
    ghost contents = { λ m. S.contents (inner_of m) };

    fn write(&mut self, buf: &[u8]) -> io::Result<usize>
        ensures bound { WritesAtMost result buf.now }
        ensures bytes { WriteAppends (S.contents (inner_of self.old)) (S.contents (inner_of self.new)) result buf.now }
    {
        noted(self.stream.write(buf), &mut self.fault)
    }

    fn flush(&mut self) -> io::Result<()>
        ensures { Keeps (S.contents (inner_of self.old)) (S.contents (inner_of self.new)) }
    {
        self.stream.flush()
    }
}
