//! The lot: the connections that wait for their clients, each of which holds a place and no thread.
use crate::places::Places;
use mio::unix::SourceFd;
use mio::{Interest, Poll, Registry, Token, Waker};
use slab::Slab;
use std::alloc::Global;
use std::io;
use std::net::TcpStream;
use std::os::fd::AsRawFd;
use std::sync::atomic::{AtomicBool, Ordering};
use std::sync::{Arc, Mutex, Wait};

/// The token of the waker. Those of the connections are the keys of their slots, of which there are fewer.
pub(crate) const WAKER: Token = Token(usize::MAX);

/// A connection between two visits of a worker.
#[derive(Drop)]
pub struct Connection<K> {
    pub stream: TcpStream,
    /// What the worker keeps with it; None if it has just come, or nothing is to be kept.
    pub kept: Option<K>,
    /// Whether it waits for room to write, and not for something to read.
    pub is_full: bool,
    /// The millisecond at which it is closed if it still waits.
    pub until: u64,
}

/// A connection that waits, and the millisecond since when it does.
#[derive(Drop)]
struct Parked<K> {
    connection: Connection<K>,
    since: u64,
}

/// The connections that wait, each in its slot.
#[derive(Drop)]
struct Slots<K> {
    parked: Slab<Parked<K>>,
    /// Whether none may wait for something to read any more.
    is_closed: bool,
}

/// The lot of a reactor. Its workers park connections in it.
#[derive(Drop)]
pub struct Lot<K> {
    slots: Mutex<Slots<K>>,
    registry: Registry,
    waker: Waker,
    places: Arc<Places, Global>,
    /// The milliseconds for which a connection waits until it may be closed for another.
    least_wait: u64,
    is_ending: AtomicBool,
}

/// Returns the key of the connection that has waited longest, and since this millisecond at least; None if there is none.
fn longest_parked<K>(parked: &Slab<Parked<K>>, latest: u64) -> Option<usize> {
    let mut longest = None;
    let mut least = latest.saturating_add(1);
    for (key, it) in parked.iter() {
        if it.since < least {
            least = it.since;
            longest = Some(key);
        }
    }
    longest
}

impl<K: Drop> Lot<K> {
    /// Makes the lot of a poll, with these places, in which a connection waits for these milliseconds until it may be closed for another.
    ///
    /// # Errors
    ///
    /// - The error of the system, which gave no descriptor.
    pub(crate) fn new(
        alloc: Global,
        poll: &Poll,
        places: Arc<Places, Global>,
        least_wait: u64,
    ) -> io::Result<Self> {
        let slots = Slots {
            parked: Slab::new(alloc),
            is_closed: false,
        };
        Ok(Lot {
            slots: Mutex::new(slots),
            registry: poll.registry().try_clone()?,
            waker: Waker::new(poll.registry(), WAKER)?,
            places,
            least_wait,
            is_ending: AtomicBool::new(false),
        })
    }

    /// Returns its places.
    pub fn places(&self) -> &Places {
        &*self.places
    }

    /// Returns the number of connections that wait.
    pub fn waiting<R: Wait>(&self, rt: &R) -> usize {
        self.slots.lock(rt).parked.len()
    }

    /// Has the reactor end: it closes its listener.
    pub fn end(&self) {
        self.is_ending.store(true, Ordering::SeqCst);
        let _woken = self.waker.wake();
    }

    /// Returns whether the reactor is to end.
    pub fn is_ending(&self) -> bool {
        self.is_ending.load(Ordering::SeqCst)
    }

    /// Frees the places of this number of connections that were closed. Wakes the reactor if it waits for one, or ends.
    fn free(&self, count: usize) {
        if count == 0 {
            return;
        }
        self.places.free(count);
        if self.places.take_wish() || self.is_ending() {
            let _woken = self.waker.wake();
        }
    }

    /// Frees the place of a connection that its worker keeps.
    pub fn release(&self) {
        self.free(1);
    }

    /// Closes a connection.
    pub fn close(&self, stream: TcpStream) {
        drop(stream);
        self.free(1);
    }

    /// Parks a connection at this millisecond, until its client sends something or, if it is full, takes something. It is closed instead if
    /// idle connections are, and if the system or the memory is short.
    pub fn park<R: Wait>(&self, rt: &R, connection: Connection<K>, now: u64) {
        if let Err(connection) = self.try_park(rt, connection, now) {
            self.close(connection.stream);
        }
    }

    /// Parks a connection in a slot, as [`park`](Lot::park) does.
    ///
    /// # Errors
    ///
    /// - The connection, where `park` closes it.
    pub fn try_park<R: Wait>(
        &self,
        rt: &R,
        connection: Connection<K>,
        now: u64,
    ) -> Result<(), Connection<K>> {
        let descriptor = connection.stream.as_raw_fd();
        let interest = if connection.is_full {
            Interest::WRITABLE
        } else {
            Interest::READABLE
        };
        // (locked until it is registered: the reactor finds each connection of which it is told)
        let mut slots = self.slots.lock(rt);
        if slots.is_closed && !connection.is_full {
            return Err(connection);
        }
        let parked = Parked {
            connection,
            since: now,
        };
        let key = match slots.parked.insert(parked) {
            Ok(key) => key,
            Err(refused) => return Err(refused.value.connection),
        };
        let mut source = SourceFd(&descriptor);
        if self
            .registry
            .register(&mut source, Token(key), interest)
            .is_ok()
        {
            return Ok(());
        }
        match slots.parked.try_remove(key) {
            Some(parked) => Err(parked.connection),
            None => Ok(()),
        }
    }

    /// Returns the number of slots, with those that are free.
    pub(crate) fn slots<R: Wait>(&self, rt: &R) -> usize {
        self.slots.lock(rt).parked.capacity()
    }

    /// Has the connection of a slot, which is out of it, watched no longer.
    fn unwatch(&self, parked: Parked<K>) -> Connection<K> {
        let descriptor = parked.connection.stream.as_raw_fd();
        let _gone = self.registry.deregister(&mut SourceFd(&descriptor));
        parked.connection
    }

    /// Takes the connection of a slot out of the lot; None if none is there.
    pub(crate) fn take<R: Wait>(&self, rt: &R, key: usize) -> Option<Connection<K>> {
        let parked = self.slots.lock(rt).parked.try_remove(key)?;
        Some(self.unwatch(parked))
    }

    /// Takes the connection of a slot out of the lot if its time is up at this millisecond.
    pub(crate) fn take_late<R: Wait>(&self, rt: &R, key: usize, now: u64) -> Option<Connection<K>> {
        let mut slots = self.slots.lock(rt);
        if slots.parked.get(key)?.connection.until > now {
            return None;
        }
        let parked = slots.parked.try_remove(key)?;
        drop(slots);
        Some(self.unwatch(parked))
    }

    /// Closes the connections whose time is up at this millisecond.
    pub(crate) fn close_late<R: Wait>(&self, rt: &R, now: u64) {
        let mut slots = self.slots.lock(rt);
        let before = slots.parked.len();
        slots
            .parked
            .retain(|_, parked| parked.connection.until > now);
        let after = slots.parked.len();
        drop(slots);
        self.free(before.saturating_sub(after));
    }

    /// Closes the connection that has waited longest until this millisecond. Returns whether one has for long enough.
    pub(crate) fn close_longest<R: Wait>(&self, rt: &R, now: u64) -> bool {
        let mut slots = self.slots.lock(rt);
        let Some(key) = longest_parked(&slots.parked, now.saturating_sub(self.least_wait)) else {
            return false;
        };
        let longest = slots.parked.try_remove(key);
        drop(slots);
        if longest.is_some() {
            self.places.evict();
            self.free(1);
        }
        longest.is_some()
    }

    /// Takes a place for a connection at this millisecond. If none is free, the connection that has waited longest is closed for it, if it has for
    /// long enough. Returns whether there was one.
    pub fn take_place<R: Wait>(&self, rt: &R, now: u64) -> bool {
        self.places.take() || self.close_longest(rt, now) && self.places.take()
    }

    /// Returns whether another connection may be accepted at this millisecond: a place is free, or one waits that can be closed for it.
    pub(crate) fn may_admit<R: Wait>(&self, rt: &R, now: u64) -> bool {
        let latest = now.saturating_sub(self.least_wait);
        self.places.has_free() || longest_parked(&self.slots.lock(rt).parked, latest).is_some()
    }

    /// Returns whether another connection may be accepted at this millisecond. If not, a place is wanted from now on: the reactor is woken once one is free.
    pub(crate) fn has_room<R: Wait>(&self, rt: &R, now: u64) -> bool {
        let mut has_room = self.may_admit(rt, now);
        if !has_room {
            self.places.want();
            // (once more, since what became free before did not wake it)
            has_room = self.may_admit(rt, now);
        }
        if has_room {
            let _wish = self.places.take_wish();
        }
        has_room
    }

    /// Closes the connections that wait for something to read, and each that is parked for that from now on.
    pub(crate) fn close_idle<R: Wait>(&self, rt: &R) {
        let mut slots = self.slots.lock(rt);
        slots.is_closed = true;
        let before = slots.parked.len();
        slots.parked.retain(|_, parked| parked.connection.is_full);
        let after = slots.parked.len();
        drop(slots);
        self.free(before.saturating_sub(after));
    }
}
