//! A reader and a writer that take no memory, a byte at a time.
use std::io;
use std::io::{ErrorKind, Read, Write};
use std::sync::atomic::{AtomicU64, Ordering};

/// No end of bytes, or of room.
pub const ALL: usize = usize::MAX;

/// How many bytes a page holds.
const PAGE: usize = 1024;

/// A writer that fails once it has this many bytes.
#[derive(Clone, Copy)]
pub struct Page<'a> {
    bytes: [u8; PAGE],
    len: usize,
    room: usize,
    /// How many lines were written, those that it did not keep among them.
    pub lines: u64,
    /// Whether it takes a flush, and does not fail then.
    pub can_flush: bool,
    /// Whether it keeps more than its last line.
    pub keeps_all: bool,
    /// Whether a line was written, though it may not be kept, that ends with `out of memory`.
    pub found_out_of_memory: bool,
    /// Where it counts at each flush the lines that are on it by then: those are shown.
    pub shown: Option<&'a AtomicU64>,
}

impl<'a> Page<'a> {
    pub fn new(room: usize) -> Page<'a> {
        Page {
            bytes: [0; PAGE],
            len: 0,
            room,
            lines: 0,
            can_flush: true,
            keeps_all: true,
            found_out_of_memory: false,
            shown: None,
        }
    }

    pub fn as_slice(&self) -> &[u8] {
        self.bytes.get(..self.len).unwrap_or(b"")
    }

    pub fn text(&self) -> &str {
        str::from_utf8(self.as_slice()).unwrap_or("not text")
    }
}

impl<'a> Write for Page<'a> {
    fn write(&mut self, buf: &[u8]) -> io::Result<usize> {
        let Some(&byte) = buf.first() else {
            return Ok(0);
        };
        if !self.keeps_all && self.as_slice().ends_with(b"\n") {
            self.len = 0;
        }
        match self.bytes.get_mut(self.len) {
            Some(place) if self.len < self.room => {
                *place = byte;
                self.len += 1;
                if byte == b'\n' {
                    self.lines = self.lines.saturating_add(1);
                    self.found_out_of_memory |= self.as_slice().ends_with(b"Memory\n");
                }
                Ok(1)
            }
            _ => Err(io::Error::from(ErrorKind::WriteZero)),
        }
    }

    fn flush(&mut self) -> io::Result<()> {
        if let Some(shown) = self.shown {
            shown.store(self.lines, Ordering::SeqCst);
        }
        if self.can_flush {
            Ok(())
        } else {
            Err(io::Error::from(ErrorKind::Other))
        }
    }
}

/// The text of each of many lines.
#[derive(Clone, Copy)]
pub enum Form {
    /// A change, each of another address.
    Change,
    /// That a node is made, each of another address.
    Node,
    /// The same, but that the last has the address of the one before it.
    Again,
    /// That a node pings another; the first line makes the node.
    Ping,
    /// That a node pings itself; the first line makes the node, and the last delivers the first ping.
    Delivery,
    /// That a node takes a change, each of another address; the first line makes the node.
    Take,
}

/// The input of a reader.
#[derive(Clone, Copy)]
pub enum Source<'a> {
    /// Lines, each with its newline.
    Lines(&'a [&'a str]),
    /// This many lines of one form.
    Many(Form, usize),
    /// One line of this many spaces, without a newline.
    Long(usize),
}

/// What a line of a form says before the two numbers of its address and behind them, or all of it; this many come after
/// it.
fn parts(form: Form, is_first: bool, left: usize) -> (&'static str, Option<&'static str>) {
    match form {
        Form::Change => (
            r#"{"address":"10.0."#,
            Some(
                r#":1","incarnationNumber":1,"source":"10.0.0.1:1","sourceIncarnationNumber":1,"status":"alive"}"#,
            ),
        ),
        Form::Again if left == 0 => ("node 10.0.0.1:1 1", None),
        Form::Node | Form::Again => ("node 10.0.", Some(":1 1")),
        _ if is_first => ("node 10.0.0.1:1 1", None),
        Form::Ping => ("send 10.0.0.1:1 10.0.0.2:1", None),
        Form::Delivery if left == 0 => ("deliver 1", None),
        Form::Delivery => ("send 10.0.0.1:1 10.0.0.1:1", None),
        Form::Take => ("take 10.0.0.1:1 10.0.", Some(":2 1 alive")),
    }
}

/// A reader that fails after this many bytes.
#[derive(Clone, Copy)]
pub struct Reader<'a> {
    source: Source<'a>,
    line: usize,
    place: usize,
    left: usize,
    /// The line of many that is read.
    text: Page<'a>,
    /// The counter of the lines that are shown. Each line starts once all before it are answered and shown, and the
    /// reader fails if it is asked for one before that.
    pub shown: Option<&'a AtomicU64>,
}

impl<'a> Reader<'a> {
    pub fn new(source: Source<'a>, left: usize) -> Reader<'a> {
        Reader {
            source,
            line: 0,
            place: 0,
            left,
            text: Page::new(ALL),
            shown: None,
        }
    }

    /// Returns the number of lines that it has started.
    pub fn begun(&self) -> u64 {
        let whole = self.line as u64;
        if self.place > 0 {
            whole.saturating_add(1)
        } else {
            whole
        }
    }

    /// The next byte; none once it has given all.
    pub fn byte(&self) -> Option<u8> {
        match self.source {
            Source::Lines(lines) => {
                let line = lines.get(self.line)?;
                Some(line.as_bytes().get(self.place).copied().unwrap_or(b'\n'))
            }
            Source::Many(_, count) if self.line >= count => None,
            Source::Many(_, _) => Some(
                self.text
                    .as_slice()
                    .get(self.place)
                    .copied()
                    .unwrap_or(b'\n'),
            ),
            Source::Long(count) if self.place < count => Some(b' '),
            Source::Long(_) => None,
        }
    }

    /// Starts a line.
    fn begin(&mut self) -> io::Result<()> {
        if let Some(shown) = self.shown {
            if shown.load(Ordering::SeqCst) != self.line as u64 {
                return Err(io::Error::from(ErrorKind::Other));
            }
        }
        let Source::Many(form, count) = self.source else {
            return Ok(());
        };
        if self.line >= count {
            return Ok(());
        }
        let left = count.wrapping_sub(self.line).wrapping_sub(1);
        let (high, low) = (left / 256, left % 256);
        self.text = Page::new(ALL);
        match parts(form, self.line == 0, left) {
            (front, Some(back)) => write!(self.text, "{front}{high}.{low}{back}"),
            (whole, None) => write!(self.text, "{whole}"),
        }
    }
}

impl<'a> Read for Reader<'a> {
    fn read(&mut self, buf: &mut [u8]) -> io::Result<usize> {
        if self.left == 0 {
            return Err(io::Error::from(ErrorKind::Other));
        }
        if self.place == 0 {
            self.begin()?;
        }
        let (Some(to), Some(byte)) = (buf.first_mut(), self.byte()) else {
            return Ok(0);
        };
        *to = byte;
        self.left = self.left.saturating_sub(1);
        if byte == b'\n' {
            self.line = self.line.wrapping_add(1);
            self.place = 0;
        } else {
            self.place = self.place.wrapping_add(1);
        }
        Ok(1)
    }
}
