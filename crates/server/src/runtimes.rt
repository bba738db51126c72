//! The system that the threads of a server use.

use crate::round_clocks::RoundClock;
use std::thread::Threads;

/// A handle of the system's threads and clock. Each thread has a copy of it.
pub trait Runtime: Threads + RoundClock + Copy + Send + 'static {}

impl<R: Threads + RoundClock + Copy + Send + 'static> Runtime for R {}
