//! The connections of a process to other nodes that are kept between two calls.
ghost use Rattle.std.specs.Prelude.{◌≡◌, ◌<◌, ◌+◌, ◌++◌, ◌∷◌, [], IfSome, IsTrue, false, vec_len, slice_index_or, length, count_by};
ghost use Rattle.kept_links.specs.Pools.{has_room, leads_to};

use change_core::Address;
use std::alloc::Global;
use std::io::{ErrorKind, Read, Write};
use std::net::OpenStream;
use std::sync::atomic::{AtomicU64, Ordering};
use std::sync::{Mutex, Wait};
use std::time::{Clock, Duration, Instant};

/// The most milliseconds for which a connection rests until it is used again. The node at its other end keeps it for longer.
const MAX_REST: u64 = 50;

/// A connection that rests.
#[derive(Drop)]
pub(crate) struct Spare<S> {
    to: Address,
    stream: S,
    since: Instant,
}

/// Connections that rest, the one that has rested longest first.
#[derive(Drop)]
pub struct Pool<S> {
    spares: Mutex<Vec<Spare<S>>>,
    /// The most connections that rest.
    most: usize,
    reused: AtomicU64,
    closed: AtomicU64,
}

/// Returns the index of the connection to an address that has rested shortest; None if none leads there.
fn newest<S>(spares: &[Spare<S>], to: Address) -> Option<usize>
    ensures bound { IfSome result (λ at. at < length spares.now) }
    ensures found { IfSome result (λ at. (spare : Spare S) → (slice_index_or spares.now at spare).to ≡ to) }
{
    for at in (0..spares.len()).rev() {
        if spares[at].to == to {
            return Some(at);
        }
    }
    None
}

/// Takes the connection to an address that has rested shortest; None if none leads there.
fn take_newest<S>(spares: &mut Vec<Spare<S>>, to: Address) -> Option<Spare<S>>
    ensures found { IfSome result (λ spare. spare.to ≡ to) }
    ensures fewer { IfSome result (λ spare. vec_len spares.new + 1 ≡ vec_len spares.old) }
{
    let at = newest(spares.as_slice(), to)?;
    Some(spares.remove(at))
}

/// Returns the number of connections to an address.
fn count_to<S>(spares: &[Spare<S>], to: Address) -> usize
    ensures { result ≡ count_by (leads_to to) spares.now }
{
    spares.iter().filter(|spare| spare.to == to).count()
}

/// Returns whether another connection to an address may rest: there are fewer than `most`, and fewer than half as many to the address.
fn has_room<S>(spares: &[Spare<S>], most: usize, to: Address) -> bool
    ensures { result ≡ has_room spares.now most to }
{
    spares.len() < most && count_to(spares, to) < most - most / 2
}

/// Adds a connection if there is room for it. Returns whether it was added; else it is closed.
fn put<S: Drop>(spares: &mut Vec<Spare<S>>, most: usize, spare: Spare<S>) -> bool
    ensures put { IsTrue result → IsTrue (has_room spares.old.items most spare.to) × (spares.new.items ≡ spares.old.items ++ spare ∷ []) }
    ensures same { result ≡ false → spares.new.items ≡ spares.old.items }
{
    let has_room = has_room(spares.as_slice(), most, spare.to);
    has_room && spares.push(spare).is_ok()
}

/// Returns whether nothing has come over a stream, not even its end.
fn is_silent<S: OpenStream>(stream: &S) -> bool {
    if stream.set_nonblocking(true).is_err() {
        return false;
    }
    let peeked = stream.peek(&mut [0u8; 1]);
    let waits = matches!(peeked, Err(error) if error.kind() == ErrorKind::WouldBlock);
    waits && stream.set_nonblocking(false).is_ok()
}

/// Returns whether a connection has rested for its time, or the clock failed.
fn is_rested<C: Clock, S>(clock: &C, spare: &Spare<S>) -> bool {
    match spare.since.elapsed(clock) {
        Ok(rest) => rest >= Duration::from_millis(MAX_REST),
        Err(_) => true,
    }
}

/// Takes the connection that has rested longest, if its time is up.
fn take_rested<C: Clock, S>(clock: &C, spares: &mut Vec<Spare<S>>) -> Option<Spare<S>> {
    if !is_rested(clock, spares.first()?) {
        return None;
    }
    Some(spares.remove(0))
}

impl<S: Drop> Pool<S> {
    /// A pool that holds no connection yet, and at most this many, and half as many to one address.
    pub fn new(alloc: Global, most: usize) -> Self {
        Pool {
            spares: Mutex::new(Vec::new(alloc)),
            most,
            reused: AtomicU64::new(0),
            closed: AtomicU64::new(0),
        }
    }

    /// Returns the most connections that rest at a time.
    pub fn most(&self) -> usize {
        self.most
    }

    /// Returns the number of connections that rest.
    pub fn resting<R: Wait>(&self, rt: &R) -> usize {
        self.spares.lock(rt).len()
    }

    /// Returns how often a connection that had rested was used again.
    pub fn reused(&self) -> u64 {
        self.reused.load(Ordering::SeqCst)
    }

    /// Returns the number of connections that were closed: for want of a place, after their time, or by the other side.
    pub fn closed(&self) -> u64 {
        self.closed.load(Ordering::SeqCst)
    }

    fn count_closed(&self) {
        self.closed.fetch_add(1, Ordering::SeqCst);
    }
}

impl<S: OpenStream + Drop> Pool<S> {
    /// Takes a connection to an address over which nothing came while it rested; None if there is none. Others are closed.
    pub fn take<R: Wait, C: Clock>(&self, rt: &R, clock: &C, to: Address) -> Option<S> {
        for _ in 0..self.most {
            let spare = take_newest(&mut *self.spares.lock(rt), to)?;
            if !is_rested(clock, &spare) && is_silent(&spare.stream) {
                self.reused.fetch_add(1, Ordering::SeqCst);
                return Some(spare.stream);
            }
            self.count_closed();
        }
        None
    }

    /// Lets a connection to an address rest, from now on. It is closed instead if there is no place, and if the clock fails. Those that have
    /// rested for their time are closed first.
    pub fn keep<R: Wait, C: Clock>(&self, rt: &R, clock: &C, to: Address, stream: S) {
        let Ok(since) = Instant::now(clock) else {
            return self.count_closed();
        };
        self.close_rested(rt, clock);
        let spare = Spare { to, stream, since };
        if !put(&mut *self.spares.lock(rt), self.most, spare) {
            self.count_closed();
        }
    }

    /// Closes the connections that have rested for 50 milliseconds.
    pub fn close_rested<R: Wait, C: Clock>(&self, rt: &R, clock: &C) {
        for _ in 0..self.most {
            let rested = take_rested(clock, &mut *self.spares.lock(rt));
            if rested.is_none() {
                return;
            }
            self.count_closed();
        }
    }
}

/// Connections that rest, as a link uses them.
pub trait Spares {
    ghost use Rattle.std.specs.Prelude.{Option};
    ghost use Rattle.change_core.specs.declared.addresses.Address.{Address};

    /// A connection.
    type Stream: Read + Write + OpenStream + Drop;

    /// One call of `take`: an address, the connection if there is one, and the state before and after. Spares can say by it how often they were
    /// asked for one; a pool that threads share says nothing.
    ghost took: { Address → Option Self.Stream → Self → Self → Type 0 };

    /// Takes a connection to an address that rests; None if there is none.
    fn take<R: Wait, C: Clock>(&mut self, rt: &R, clock: &C, to: Address) -> Option<Self::Stream>
        ensures { took to result self.old self.new };

    /// Lets a connection to an address rest, or closes it.
    fn keep<R: Wait, C: Clock>(&self, rt: &R, clock: &C, to: Address, stream: Self::Stream);
}

impl<'p, S: Read + Write + OpenStream + Drop> Spares for &'p Pool<S> {
    type Stream = S;

    ghost took = { λ _ _ _ _. Unit {0} };

    fn take<R: Wait, C: Clock>(&mut self, rt: &R, clock: &C, to: Address) -> Option<S> {
        let pool: &Pool<S> = *self;
        pool.take(rt, clock, to)
    }

    fn keep<R: Wait, C: Clock>(&self, rt: &R, clock: &C, to: Address, stream: S) {
        let pool: &Pool<S> = *self;
        pool.keep(rt, clock, to, stream);
    }
}
