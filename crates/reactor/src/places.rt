//! The places of a reactor: how many connections are open, and how often there was none for another.
use std::sync::atomic::{AtomicBool, AtomicU64, AtomicUsize, Ordering};

/// The places of a reactor's connections, and what befell those that found none. Its thread and its workers count here; any thread may read.
#[derive(Drop)]
pub struct Places {
    /// The most connections that are open at a time.
    limit: AtomicUsize,
    /// The number of connections that are open: those that wait, and those that are with a worker or on the way to one.
    open: AtomicUsize,
    evicted: AtomicU64,
    failures: AtomicU64,
    is_failing: AtomicBool,
    /// Whether the reactor waits for a place.
    is_wanted: AtomicBool,
}

impl Places {
    /// Makes places that are free, none as long as no limit is set.
    pub fn new() -> Places {
        Places {
            limit: AtomicUsize::new(0),
            open: AtomicUsize::new(0),
            evicted: AtomicU64::new(0),
            failures: AtomicU64::new(0),
            is_failing: AtomicBool::new(false),
            is_wanted: AtomicBool::new(false),
        }
    }

    /// Sets the most connections that are open at a time.
    pub fn set_limit(&self, limit: usize) {
        self.limit.store(limit, Ordering::SeqCst);
    }

    /// Returns the most connections that are open at a time.
    pub fn limit(&self) -> usize {
        self.limit.load(Ordering::SeqCst)
    }

    /// Returns the number of connections that are open.
    pub fn open(&self) -> usize {
        self.open.load(Ordering::SeqCst)
    }

    /// Returns the number of connections that were closed for others.
    pub fn evicted(&self) -> u64 {
        self.evicted.load(Ordering::SeqCst)
    }

    /// Returns how often the system let none be accepted.
    pub fn failures(&self) -> u64 {
        self.failures.load(Ordering::SeqCst)
    }

    /// Returns whether the system let none be accepted when it was last asked.
    pub fn is_failing(&self) -> bool {
        self.is_failing.load(Ordering::SeqCst)
    }

    /// Returns whether none is free for a connection that waits to be accepted, and no other waits that could be closed for it.
    pub fn is_wanted(&self) -> bool {
        self.is_wanted.load(Ordering::SeqCst)
    }

    /// Notes that the reactor waits for a place.
    pub(crate) fn want(&self) {
        self.is_wanted.store(true, Ordering::SeqCst);
    }

    /// Returns whether the reactor waits for a place, and notes that it is woken.
    pub(crate) fn take_wish(&self) -> bool {
        self.is_wanted.swap(false, Ordering::SeqCst)
    }

    /// Returns whether one is free.
    pub(crate) fn has_free(&self) -> bool {
        self.open() < self.limit()
    }

    /// Takes one for a connection. Returns whether one was free.
    pub(crate) fn take(&self) -> bool {
        let (order, limit) = (Ordering::SeqCst, self.limit());
        self.open
            .fetch_update(order, order, |open| {
                if open < limit {
                    open.checked_add(1)
                } else {
                    None
                }
            })
            .is_ok()
    }

    /// Counts connections that were closed.
    pub(crate) fn free(&self, count: usize) {
        self.open.fetch_sub(count, Ordering::SeqCst);
    }

    /// Counts a connection that is closed for another.
    pub(crate) fn evict(&self) {
        self.evicted.fetch_add(1, Ordering::SeqCst);
    }

    /// Notes whether the system lets connections be accepted.
    pub(crate) fn note(&self, is_failing: bool) {
        self.is_failing.store(is_failing, Ordering::SeqCst);
        if is_failing {
            self.failures.fetch_add(1, Ordering::SeqCst);
        }
    }
}
