//! What peers say to a server, line by line, and what it makes of that.
use crate::plans::Plan;
use crate::shared::{Running, System, connect, ends_well, spend, start, turn};
use std::io::{ErrorKind, Read, Write};
use std::net::{Shutdown, TcpStream};
use std::time::{Clock, Duration, Instant};
use std::{io, thread};

/// What a peer does once it has said what it says.
#[derive(Clone, Copy)]
pub(crate) enum Close {
    /// It waits.
    Waits,
    /// It will say no more, and waits.
    Ends,
    /// It hangs up, and needs nothing.
    HangsUp,
}

/// What a peer sends, and what it has to receive.
#[derive(Clone, Copy)]
pub(crate) struct Talk {
    /// This many peers are unresponsive in the meantime.
    pub(crate) beside: u32,
    /// It says this many times 1,024 letters.
    pub(crate) blocks: u32,
    /// Then this many letters, each after ten milliseconds.
    pub(crate) drips: u32,
    /// Then this.
    pub(crate) text: &'static str,
    pub(crate) close: Close,
    /// What it has to receive until the server hangs up.
    pub(crate) wanted: &'static str,
    /// After how many milliseconds that is to be at the earliest.
    pub(crate) least: u64,
    /// How often it talks at most if it receives nothing.
    pub(crate) looks: u32,
}

/// A peer that asks a server at 127.0.0.1:29177 for `hi` under `k`.
pub(crate) const ECHO: Talk = Talk {
    beside: 0,
    blocks: 0,
    drips: 0,
    text: "{\"body\":\"hi\",\"keys\":[\"k\"],\"kind\":\"forward\",\"source\":\"127.0.0.1:1\",\"sourceIncarnationNumber\":1}\n",
    close: Close::Waits,
    wanted: "{\"body\":\"127.0.0.1:29177 hi\",\"kind\":\"reply\",\"source\":\"127.0.0.1:29177\",\"sourceIncarnationNumber\":1}\n",
    least: 0,
    looks: 1,
};

/// What it answers to what is not a message.
pub(crate) const MALFORMED: &str =
    "{\"kind\":\"refused\",\"reason\":\"malformed\",\"source\":\"127.0.0.1:29177\",\"sourceIncarnationNumber\":1}\n";

/// Asks for a ping of 127.0.0.1:29170, which does not answer.
pub(crate) const PING_REQ: &str =
    "{\"changes\":[],\"checksum\":\"e3b0c44298fc1c149afbf4c8996fb92427ae41e4649b934ca495991b7852b855\",\"kind\":\"ping-req\",\"source\":\"127.0.0.1:1\",\"sourceIncarnationNumber\":1,\"target\":\"127.0.0.1:29170\"}\n";

/// The answer once that was waited for.
pub(crate) const NOT_REACHED: &str =
    "{\"changes\":[{\"address\":\"127.0.0.1:29177\",\"incarnationNumber\":1,\"source\":\"127.0.0.1:29177\",\"sourceIncarnationNumber\":1,\"status\":\"alive\"}],\"checksum\":\"22662f650744ac3c189b2bd07ecd19225637eb14a4c9e73dd2e46356ac7660b9\",\"kind\":\"ping-req-ack\",\"reached\":false,\"source\":\"127.0.0.1:29177\",\"sourceIncarnationNumber\":1,\"target\":\"127.0.0.1:29170\"}\n";

/// Sends the text, as far as the other side takes it.
fn say<C: Clock, W: Write>(clock: &C, stream: &mut W, talk: &Talk) -> io::Result<()> {
    for _ in 0..talk.blocks {
        stream.write_all(&[b'a'; 1024])?;
    }
    for _ in 0..talk.drips {
        thread::sleep(clock, Duration::from_millis(10));
        stream.write_all(b"a")?;
    }
    stream.write_all(talk.text.as_bytes())
}

/// What a peer receives.
#[derive(Clone, Copy, PartialEq, Eq)]
enum Rest {
    /// What is wanted.
    Wanted,
    /// Nothing, which is not wanted.
    Nothing,
    /// Something else, or the server never hung up.
    Other,
}

/// What comes until the other side hangs up.
fn rest_of<S: Read>(stream: &mut S, wanted: &str) -> Rest {
    let mut left = wanted.as_bytes();
    for _ in 0..1024 {
        let mut place = [0];
        match stream.read(&mut place) {
            Ok(1) => match left.split_first() {
                Some((&byte, behind)) if byte == place[0] => left = behind,
                _ => return Rest::Other,
            },
            Err(fault)
                if !matches!(
                    fault.kind(),
                    ErrorKind::ConnectionReset | ErrorKind::BrokenPipe
                ) => return Rest::Other,
            _ if left.is_empty() => return Rest::Wanted,
            _ if left.len() == wanted.len() => return Rest::Nothing,
            _ => return Rest::Other,
        }
    }
    Rest::Other
}

/// What a peer that talks so receives on a stream.
fn hears<C: Clock>(clock: &C, stream: &mut TcpStream, talk: &Talk) -> Rest {
    let _said = say(clock, stream, talk);
    match talk.close {
        Close::Waits => rest_of(stream, talk.wanted),
        Close::Ends if stream.shutdown(Shutdown::Write).is_ok() => rest_of(stream, talk.wanted),
        Close::Ends => Rest::Other,
        Close::HangsUp => Rest::Wanted,
    }
}

/// Whether a peer receives what it has to, and no earlier. One that receives nothing talks again, as often as it may. None if it was
/// not connected.
fn is_heard(rt: &impl System, server: &Running, talk: &Talk) -> Option<bool> {
    for _ in 0..talk.looks {
        let begun = Instant::now(rt).ok()?;
        let mut stream = connect(rt, server)?;
        let rest = hears(rt, &mut stream, talk);
        drop(stream);
        if rest != Rest::Nothing {
            let spent = begun.elapsed(rt).ok()?;
            return Some(rest == Rest::Wanted && spent >= Duration::from_millis(talk.least));
        }
    }
    None
}

/// Whether a server makes of a talk what it is to make of it; None if a peer was not connected, or out of memory.
fn makes(rt: &impl System, server: &Running, talk: &Talk) -> Option<bool> {
    let mut silent = Vec::new(rt.alloc());
    for _ in 0..talk.beside {
        silent.push(connect(rt, server)?).ok()?;
    }
    is_heard(rt, server, talk)
}

/// The same of each talk, one after the other, where each connection is one of its requests.
fn makes_all(rt: &impl System, server: &Running, requests: u64, talks: &[Talk]) -> bool {
    for talk in talks {
        if makes(rt, server, talk) != Some(true) {
            return false;
        }
    }
    spend(rt, server, requests)
}

/// The same of a server so planned, which ends with all of its page written.
pub(crate) fn serves(rt: &impl System, plan: &Plan, talks: &[Talk]) -> bool {
    let _turn = turn(rt);
    let Some(server) = start(rt, plan) else {
        return false;
    };
    let is_served = makes_all(rt, &server, plan.requests, talks);
    ends_well(rt, server, is_served)
}
