//! Services of the tests, each in a thread of its own: they answer HTTP, one connection after the other, and note what they were asked for.
use crate::agents::{ask, body_of};
use agent::System;
use change_core::Address;
use std::alloc::Global;
use std::io::{Read, Write};
use std::net::{TcpListener, TcpStream};
use std::thread;
use std::thread::JoinHandle;
use transport::socket_address;

/// The body of each request of a key, by which its end is known.
pub(crate) const BODY: &str = "hi";

/// The key of the request that ends a service.
const END: &str = "end";

/// Reads a request of a key. Returns its length; None if none comes.
fn read_request(stream: &mut TcpStream, buf: &mut [u8]) -> Option<usize> {
    let mut count = 0usize;
    for _ in 0..buf.len() {
        let more = stream.read(buf.get_mut(count..)?).ok()?;
        count = count.saturating_add(more);
        let text = str::from_utf8(buf.get(..count)?).ok()?;
        let (_, body) = text.split_once("\r\n\r\n").unwrap_or((text, ""));
        if more == 0 || body == BODY {
            return (more > 0).then_some(count);
        }
    }
    None
}

/// Returns the key that a request names.
fn key_in(request: &[u8]) -> Option<&str> {
    let text = str::from_utf8(request).ok()?;
    let (key, _) = text.strip_prefix("POST /keys/")?.split_once(' ')?;
    Some(key)
}

/// Answers a request of a key by the node of the service and the key; but that of `gone` by nothing, and that of `junk` by what is not HTTP.
fn answer(alloc: Global, stream: &mut TcpStream, node: Address, key: &str) -> Option<()> {
    if key == "gone" {
        return None;
    }
    if key == "junk" {
        return stream.write_all(b"hello\r\n\r\n").ok();
    }
    let body = format!(in alloc; "{node} {key}").ok()?;
    let (body, length) = (body.as_str(), body.len());
    let text = format!(in alloc;
        "HTTP/1.1 200 OK\r\nconnection: close\r\ncontent-length: {length}\r\n\r\n{body}"
    ).ok()?;
    stream.write_all(text.as_bytes()).ok()
}

/// Answers requests until one of the last key comes. Returns the keys of the others in their order, each on a line; None if out of memory.
fn serve(alloc: Global, listener: &TcpListener, node: Address) -> Option<String> {
    let mut asked = String::new(alloc);
    for stream in listener.incoming() {
        let Ok(mut stream) = stream else {
            continue;
        };
        let mut buf = [0; 1_024];
        let Some(count) = read_request(&mut stream, &mut buf) else {
            continue;
        };
        let key = key_in(buf.get(..count)?)?;
        if key != END {
            asked.push_str(key).ok()?;
            asked.push_str("\n").ok()?;
        }
        let _answered = answer(alloc, &mut stream, node, key);
        if key == END {
            return Some(asked);
        }
    }
    None
}

/// A service that was started.
#[derive(Drop)]
pub(crate) struct Service {
    at: Address,
    thread: JoinHandle<Option<String>>,
}

impl Service {
    /// Starts a service of a node at an address; None if an allocation failed or the thread was not made.
    pub(crate) fn start<R: System>(
        rt: &R,
        alloc: Global,
        at: Address,
        node: Address,
    ) -> Option<Service> {
        let listener = TcpListener::bind(rt, socket_address(at)).ok()?;
        let thread = thread::spawn(rt, move || serve(alloc, &listener, node)).ok()?;
        Some(Service { at, thread })
    }

    /// Ends the service. Returns the keys that it was asked for in their order, each on a line; None if it had ended before.
    pub(crate) fn end<R: System>(self, rt: &R, alloc: Global) -> Option<String> {
        let request = format!(in alloc; "POST /keys/{END}").ok()?;
        let answer = ask(rt, alloc, self.at, request.as_str(), BODY)?;
        body_of(answer.as_str())?;
        self.thread.join(rt)
    }
}
