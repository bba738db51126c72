//! The log of an agent: lines on standard error, each with its time and the node's address. A thread of their own writes them, so that no other
//! thread waits for a standard error that is not read: lines that find no place are dropped, and counted.
ghost use Rattle.std.specs.Prelude.{◌≡◌, [], IfOk, Some, is_none, string_bytes};
ghost use Rattle.agent_core.specs.LogLines.{IsOneLine};

use crate::counters::Count;
use crate::systems::{Host, System};
use agent_core::{LogCounts, LogLevel, json_line};
use change_core::Address;
use crossbeam_channel::{Receiver, Sender, bounded};
use jiff::Timestamp;
use log::kv::Source;
use log::span::Spans;
use log::{Level, LevelFilter, Line, Log, Logged, Metadata, Record};
use std::alloc::{AllocError, AllocFailed, Global};
use std::fmt::Display;
use std::sync::Arc;
use std::thread::Parker;
use std::time::{Clock, Duration};
use std::{fmt, thread};
use thiserror::Error;

/// The most lines that wait to be written.
const MAX_LINES: usize = 1_024;

/// The most milliseconds that the end of an agent waits for a place among the lines that wait, and then for them to be written.
const MAX_FLUSH: u64 = 1_000;

/// An error for which a log does not start.
#[derive(Clone, Copy, Debug, PartialEq, Eq, Error)]
pub enum LogError {
    /// The system gave no thread.
    #[error("no thread")]
    NoThread,
    /// An allocation failed.
    #[error("out of memory")]
    Memory,
}

impl From<AllocError> for LogError {
    fn from(_: AllocError) -> LogError
        ensures { result ≡ LogError.Memory }
    {
        LogError::Memory
    }
}

impl<T: Drop> From<AllocFailed<T>> for LogError {
    fn from(_: AllocFailed<T>) -> LogError
        ensures { result ≡ LogError.Memory }
    {
        LogError::Memory
    }
}

/// A line of the log, or its end, on the way to standard error.
#[derive(Drop)]
struct Entry {
    /// How many lines were dropped between the line before and this one.
    dropped: u64,
    /// The line, without its newline; None ends the log.
    text: Option<String>,
}

/// A sink of log records. Each line has the time in UTC and the node's address.
#[derive(Drop)]
pub struct Journal<R> {
    rt: R,
    alloc: Global,
    own: Address,
    /// Whether each line is a JSON object.
    is_json: bool,
    /// The number of the level of the log.
    level: Count,
    entries: Sender<Entry>,
    /// The lines that were dropped since the last one that found a place.
    untold: Count,
    /// The lines that were dropped since the agent started.
    dropped: Count,
    /// The parker that is unparked when the last line is written.
    written: Parker,
}

/// A log that threads share, which has written what is at most at its level at that time.
pub type Logger<R> = Logged<R, Arc<Journal<R>, Global>>;

/// A text with the time and the node's address before it.
#[derive(Drop)]
struct Dated<D> {
    time: Option<Timestamp>,
    own: Address,
    text: D,
}

impl<D: Display + Drop> Display for Dated<D> {
    fn fmt<W: fmt::Write>(&self, f: &mut fmt::Formatter<W>) -> fmt::Result {
        if let Some(time) = self.time {
            write!(f, "{time:.3} ")?;
        }
        let own = self.own;
        let text = &self.text;
        write!(f, "{own} {text}")
    }
}

impl<R: Host> Log for Journal<R> {
    ghost target_of = { λ _. Some [] };

    fn enabled(&self, metadata: &Metadata<'_>) -> bool {
        self.has(metadata.level())
    }

    fn log<D: Display, K: Source, S: Spans>(&self, record: &Record<'_, D, K, S>) {
        if !self.has(record.level()) {
            return;
        }
        match self.line(record) {
            Ok(text) => self.put(text),
            Err(_) => self.lose(1),
        }
    }

    fn flush(&self) {}

    fn target(&self) -> &str {
        ""
    }
}

impl<R: Host> Journal<R> {
    /// Returns the level of the log.
    pub fn level(&self) -> LogLevel {
        LogLevel::at(self.level.get())
    }

    /// Sets the level of the log.
    pub fn set_level(&self, level: LogLevel) {
        self.level.set(level.number());
    }

    /// Returns whether the log has what is at a level.
    fn has(&self, level: Level) -> bool {
        level as u64 <= self.level.get()
    }

    /// Returns the line of a record at the present time, without its newline.
    fn line<D: Display, K: Source, S: Spans>(
        &self,
        record: &Record<'_, D, K, S>,
    ) -> Result<String, AllocError> {
        if self.is_json {
            return self.json(record.metadata(), record.args());
        }
        let dated = Dated {
            time: self.time(),
            own: self.own,
            text: Line::new(record),
        };
        format!(in self.alloc; "{dated}")
    }

    /// Returns the line of a message at the present time as JSON, without its newline.
    fn json<D: Display>(&self, metadata: &Metadata<'_>, message: &D) -> Result<String, AllocError>
        ensures { IfOk result (λ line. IsOneLine (string_bytes line)) }
    {
        let time = match self.time() {
            Some(time) => Some(format!(in self.alloc; "{time:.3}")?),
            None => None,
        };
        let message = format!(in self.alloc; "{message}")?;
        json_line(
            self.alloc,
            time.as_deref(),
            self.own,
            metadata.level().as_str(),
            metadata.target(),
            message.as_str(),
        )
    }

    /// Returns the present time; None if there is no clock, or it shows a time after the year 9999.
    fn time(&self) -> Option<Timestamp> {
        let since = self.rt.since_1970().ok()?;
        let millis = i64::try_from(since.as_millis()).ok()?;
        Timestamp::from_millisecond(millis).ok()
    }

    /// Counts lines that were dropped.
    fn lose(&self, lines: u64) {
        self.untold.add(lines);
        self.dropped.add(lines);
    }

    /// Has a line written, or drops it if too many wait.
    fn put(&self, text: String) {
        let dropped = self.untold.take();
        let entry = Entry {
            dropped,
            text: Some(text),
        };
        if self.entries.try_send(&self.rt, entry).is_err() {
            self.untold.add(dropped);
            self.lose(1);
        }
    }

    /// Writes a line to standard error.
    fn write(&self, line: &str) {
        if self.rt.eprintln(line).is_err() {
            self.lose(1);
        }
    }

    /// Writes how many lines were dropped, or leaves it to a later line if it runs out of memory.
    fn write_dropped(&self, dropped: u64) {
        let text = format_args!(
            "{dropped} lines of the log were dropped here: standard error was not read in time"
        );
        let record = Record::new(Metadata::new(Level::Warn, ""), text, (), ());
        match self.line(&record) {
            Ok(line) => self.write(line.as_str()),
            Err(_) => self.untold.add(dropped),
        }
    }

    /// Writes an entry: how many lines were dropped before it, if any, and its line. Returns whether it ends the log.
    fn write_entry(&self, entry: Entry) -> bool
        ensures { result ≡ is_none entry.text }
    {
        let Entry { dropped, text } = entry;
        if dropped > 0 {
            self.write_dropped(dropped);
        }
        match &text {
            Some(text) => self.write(text.as_str()),
            None => self.written.unpark(),
        }
        text.is_none()
    }

    /// Has the lines that wait written, and ends the log; lines that come later are dropped. Waits for two seconds at most.
    pub fn end(&self) {
        let limit = Duration::from_millis(MAX_FLUSH);
        let last = Entry {
            dropped: self.untold.take(),
            text: None,
        };
        if self.entries.send_timeout(&self.rt, last, limit).is_ok() {
            self.written.park_timeout(&self.rt, limit);
        }
    }

    /// Returns how many lines wait, the most that may, and how many were dropped since the agent started.
    pub fn counts(&self) -> LogCounts
        ensures { result.max ≡ MAX_LINES }
    {
        LogCounts {
            used: self.entries.len() as u64,
            max: MAX_LINES as u64,
            dropped: self.dropped.get(),
        }
    }
}

/// Returns the log for another owner.
///
/// # Errors
///
/// - `AllocError`: the log has as many owners as there can be.
pub fn share_log<R: Host>(log: &Logger<R>) -> Result<Logger<R>, AllocError> {
    let journal = Arc::try_clone(log.sink())?;
    Ok(Logged::new(*log.inner(), log.max_level(), journal))
}

/// Writes lines to standard error until one ends the log.
fn write_lines<R: Host>(journal: Arc<Journal<R>, Global>, entries: Receiver<Entry>) {
    let journal = &*journal;
    for _ in journal.rt.forever() {
        let Ok(entry) = entries.recv(&journal.rt) else {
            return;
        };
        if journal.write_entry(entry) {
            return;
        }
    }
}

/// Makes the log of the node at an address, which has written what is at most at a level, perhaps as JSON, and starts the thread that writes it.
///
/// # Errors
///
/// - `NoThread`: the system gave no thread.
/// - `Memory`: out of memory.
pub fn start_log<R: System>(
    rt: &R,
    alloc: Global,
    own: Address,
    level: LevelFilter,
    is_json: bool,
) -> Result<Logger<R>, LogError> {
    let (entries, received) = bounded(alloc, MAX_LINES)?;
    let journal = Journal {
        rt: *rt,
        alloc,
        own,
        is_json,
        level: Count::new(),
        entries,
        untold: Count::new(),
        dropped: Count::new(),
        written: Parker::new(),
    };
    journal.level.set(level as u64);
    let journal = Arc::new(alloc, journal)?;
    let writer = Arc::try_clone(&journal)?;
    let started = thread::spawn(rt, move || write_lines(writer, received));
    let _thread = started.map_err(|_| LogError::NoThread)?;
    Ok(Logged::new(*rt, LevelFilter::Debug, journal))
}
