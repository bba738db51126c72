//! The plays with agents, each made again if an allocation failed.
use crate::agents::Addresses;
use crate::owners::ask_owners;
use crate::requests::{ask_cut, ask_failing};
use crate::shared::is_refused;
use agent::System;
use std::alloc::Global;
use std::env::Env;
use std::fs::Files;
use std::net::{Net, TcpListener, TcpStream};
use std::process::Abort;
use std::random::RandomSource;
use std::sync::Wait;
use std::thread::Threads;
use std::time::Clock;

/// A play with agents.
#[derive(Clone, Copy)]
pub(crate) enum Play {
    /// Three agents, each asked for the same keys.
    Owners,
    /// One agent with a service that fails.
    Failing,
    /// One agent, asked by requests that are cut.
    Cut,
}

/// Plays at addresses behind this one. Returns what is not as it has to be, and no text if all is.
fn amiss_in<R: System + Files>(rt: &R, alloc: Global, which: Play, first: u32) -> &'static str
where
    R::File: Send,
    R::Dir: Send,
{
    let ended = match which {
        Play::Owners => ask_owners(rt, alloc, first),
        Play::Failing => ask_failing(rt, alloc, first),
        Play::Cut => ask_cut(rt, alloc, first),
    };
    match ended {
        Ok(()) => "",
        Err(amiss) => amiss,
    }
}

/// Plays, and again if an allocation failed. Checks that all is as it has to be.
pub(crate) fn check<
    R: Net<Listener = TcpListener, Stream = TcpStream>
        + Threads
        + Wait
        + Clock
        + RandomSource
        + Files
        + Eprint
        + Copy
        + Send
        + Sync
        + 'static
        + Env
        + Abort,
>(rt: &R, alloc: Global, which: Play)
where
    R::File: Send,
    R::Dir: Send,
{
    let held = Addresses::take(rt).expect(rt, "addresses");
    let mut amiss = amiss_in(rt, alloc, which, held.first);
    if !amiss.is_empty() && is_refused(rt) {
        amiss = amiss_in(rt, alloc, which, held.first.saturating_add(8));
    }
    assert!(rt; amiss.is_empty(), "{amiss}");
    drop(held);
}
