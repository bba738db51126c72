//! What the agent's process uses of its machine, as Linux tells it in /proc. The first thread looks, since it alone has the files.
use crate::counters::Count;
use agent_core::ProcessCounts;
use reactor::max_descriptors;
use std::alloc::Global;
use std::fs;
use std::fs::Files;
use std::time::Clock;

/// The milliseconds of a tick of the processor's clock in /proc.
const TICK: u64 = 10;

/// Returns the number that is this word of a text, counted from 0.
fn number_at(text: &str, word: usize) -> Option<u64> {
    text.split_ascii_whitespace().nth(word)?.parse().ok()
}

/// Returns the memory that the process holds, in bytes.
fn memory<R: Files>(rt: &(R, Global)) -> Option<u64> {
    let text = fs::read_to_string(rt, "/proc/self/status").ok()?;
    let (_, rest) = text.as_str().split_once("VmRSS:")?;
    number_at(rest, 0)?.checked_mul(1_024)
}

/// Returns the processor time that the process used, in milliseconds.
fn cpu_millis<R: Files>(rt: &(R, Global)) -> Option<u64> {
    let text = fs::read_to_string(rt, "/proc/self/stat").ok()?;
    // (the name of the program before it may have blanks)
    let (_, rest) = text.as_str().rsplit_once(')')?;
    let ticks = number_at(rest, 11)?.checked_add(number_at(rest, 12)?)?;
    ticks.checked_mul(TICK)
}

/// Returns how many descriptors are open, the one by which this is found out left out.
fn descriptors<R: Files + Copy + Drop>(rt: &(R, Global)) -> Option<u64> {
    let names = fs::read_dir(rt, "/proc/self/fd").ok()?;
    (names.count() as u64).checked_sub(1)
}

/// The agent's process, and what it used when that was looked at last.
#[derive(Drop)]
pub struct Process {
    /// When it started, in seconds since 1970; 0 if there was no clock.
    started: u64,
    memory: Count,
    descriptors: Count,
    cpu_millis: Count,
}

impl Process {
    /// Makes the process that starts now.
    pub fn start<C: Clock>(clock: &C) -> Process {
        let started = match clock.since_1970() {
            Ok(since) => since.as_secs(),
            Err(_) => 0,
        };
        Process {
            started,
            memory: Count::new(),
            descriptors: Count::new(),
            cpu_millis: Count::new(),
        }
    }

    /// Looks at what the process uses. What Linux does not tell is 0.
    pub fn look<R: Files + Copy + Drop>(&self, rt: &R, alloc: Global) {
        let rt = (*rt, alloc);
        self.memory.set(memory(&rt).unwrap_or(0));
        self.descriptors.set(descriptors(&rt).unwrap_or(0));
        self.cpu_millis.set(cpu_millis(&rt).unwrap_or(0));
    }

    /// Returns what the process used when that was looked at last.
    pub fn counts(&self) -> ProcessCounts {
        ProcessCounts {
            memory: self.memory.get(),
            descriptors: self.descriptors.get(),
            max_descriptors: max_descriptors().unwrap_or(0),
            cpu_millis: self.cpu_millis.get(),
            started: self.started,
        }
    }
}
