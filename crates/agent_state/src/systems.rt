//! The system that the threads of an agent run on.
use std::net::{Net, TcpListener, TcpStream};
use std::random::RandomSource;
use std::sync::Wait;
use std::thread::Threads;
use std::time::Clock;

/// A system with sockets, waiting, a clock and standard error.
pub trait Host: Net<Listener = TcpListener, Stream = TcpStream> + Wait + Clock + Eprint + Copy {}

impl<R: Net<Listener = TcpListener, Stream = TcpStream> + Wait + Clock + Eprint + Copy> Host
    for R {}

/// A host with threads and random numbers. Each thread has a copy of it.
pub trait System: Host + Threads + RandomSource + Send + Sync + 'static {}

impl<R: Host + Threads + RandomSource + Send + Sync + 'static> System for R {}
