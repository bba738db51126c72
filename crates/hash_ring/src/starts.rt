//! The index of places at which searches of the points start. No contract covers its values: a wrong start costs time
//! alone.
ghost use Rattle.std.specs.Prelude.{◌≡◌, ◌/◌, ◌≤◌, OnOk, vec_len};

use crate::points::Point;
use std::alloc::{AllocError, Global};

/// The number of places of the points' list for each start.
const SPREAD: usize = 16;

/// An index into the points: `counts[i]` is the number of points before part i, of as many equal parts of the range of
/// hashes as the list is long.
#[derive(Drop)]
pub(crate) struct SearchIndex {
    counts: Vec<u32>,
}

/// A state of counting a change of the points: up to which part it is counted, and what it changes from there on,
/// modulo 2^32.
#[derive(Clone, Copy)]
pub(crate) struct CountDelta {
    part: usize,
    change: u32,
}

impl CountDelta {
    pub(crate) fn nothing() -> CountDelta {
        CountDelta { part: 0, change: 0 }
    }

    /// One point more from here on.
    fn one_more(self) -> CountDelta {
        CountDelta {
            part: self.part,
            change: self.change.wrapping_add(1),
        }
    }

    /// One point fewer from here on.
    fn one_fewer(self) -> CountDelta {
        CountDelta {
            part: self.part,
            change: self.change.wrapping_sub(1),
        }
    }
}

impl SearchIndex {
    pub(crate) fn new(alloc: Global) -> SearchIndex {
        SearchIndex {
            counts: Vec::new(alloc),
        }
    }

    /// Fills starts that are empty with others.
    pub(crate) fn fill_as(&mut self, others: &SearchIndex) -> Result<(), AllocError>
        ensures { OnOk result (vec_len others.now.counts ≤ vec_len self.new.counts) }
    {
        self.counts.extend_from_slice(&others.counts)
    }

    /// Makes the list long enough for a number of points. If an allocation fails it is unchanged.
    pub(crate) fn widen(&mut self, points: &[Point], capacity: usize) -> Result<(), AllocError>
        // A failed allocation is not ignored.
        ensures { OnOk result (capacity / 16 ≤ vec_len self.new.counts) }
    {
        let parts = capacity / SPREAD;
        if parts > self.counts.len() {
            self.counts.resize(parts, 0)?;
            self.counts.fill(0);
            self.add(points);
        }
        Ok(())
    }

    /// Counts points that ascend and were added.
    pub(crate) fn add(&mut self, points: &[Point])
        ensures { vec_len self.new.counts ≡ vec_len self.old.counts }
    {
        let mut passed = CountDelta::nothing();
        for point in points {
            passed = self.reach(passed, point.hash).one_more();
        }
        self.finish(passed);
    }

    /// Counts the next of points that ascend and are removed.
    pub(crate) fn take(&mut self, passed: CountDelta, hash: u64) -> CountDelta {
        self.reach(passed, hash).one_fewer()
    }

    /// Completes the count: the parts after the last such point.
    pub(crate) fn finish(&mut self, passed: CountDelta)
        ensures { vec_len self.new.counts ≡ vec_len self.old.counts }
    {
        let parts = self.counts.len();
        raise(&mut self.counts, passed, parts);
    }

    /// Counts what was passed up to the part of the next point's hash.
    fn reach(&mut self, passed: CountDelta, hash: u64) -> CountDelta
        ensures { vec_len self.new.counts ≡ vec_len self.old.counts }
    {
        let part = share(hash, self.counts.len()).saturating_add(1);
        raise(&mut self.counts, passed, part);
        CountDelta {
            part,
            change: passed.change,
        }
    }

    /// The place before the first point of a hash's part, or 0.
    pub(crate) fn before(&self, hash: u64) -> usize {
        let part = share(hash, self.counts.len());
        let start = self.counts.get(part).map_or(0, |count| *count as usize);
        start.saturating_sub(1)
    }
}

/// Adds the change to the counts up to a part.
fn raise(counts: &mut [u32], passed: CountDelta, next: usize) {
    if let Some(between) = counts.get_mut(passed.part..next) {
        for count in between {
            *count = count.wrapping_add(passed.change);
        }
    }
}

/// A number's share of 2^64, out of a count below 2^32.
fn share(number: u64, count: usize) -> usize {
    ((number >> 32).wrapping_mul(count as u64) >> 32) as usize
}
