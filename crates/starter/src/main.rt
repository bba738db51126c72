//! A service to begin with: each key is answered by the node that owns it. Edit `Greeter`, and what `serve` asks.
//!
//!     ADDRESS INCARNATION [HOST ..]     runs a node, which joins the hosts; a line of input is a key, whose owner is asked
#![tactic(auto)]

use anyhow::{Context, Result};
use ringpop::{
    Address, Handler, HandlerFault as Fault, Incarnation, Keys, Runtime, Settings, Sha256Hash,
    Text, start,
};
use std::alloc::Global;
use std::net::{Net, TcpListener, TcpStream};
use std::sync::Wait;

/// Answers the requests of the keys that the node at an address owns.
#[derive(Drop)]
struct Greeter {
    address: Address,
}

impl Handler for Greeter {
    // Any answer is allowed: this handler promises nothing of its texts.
    ghost may_handle = { λ _ _ _ _. Unit {0} };

    fn handle<R: Wait>(&self, _: &R, alloc: Global, keys: &Keys, _: &Text) -> Result<Text, Fault> {
        let key = keys.get(0).ok_or(Fault::Failed)?.as_str();
        let answer = format!(in alloc; "hello {key}, from {}", self.address);
        answer.map(Text::from_string).map_err(|_| Fault::Memory)
    }
}

/// Runs a node, and asks the owner of each key that comes, until the input ends.
fn serve<
    R: Net<Listener = TcpListener, Stream = TcpStream> + Runtime + AllocGlobal + Input + Print,
>(rt: &R, settings: &Settings<'_>) -> Result<()> {
    let (alloc, address) = (rt.alloc(), settings.address);
    let (running, mut handles) = start(rt, alloc, Sha256Hash, Greeter { address }, settings)?;
    let mut seat = running.seat(rt, alloc, handles.pop().context("no handle")?)?;
    for key in rt.lines(alloc) {
        let keys = Keys::new(alloc, Text::new(alloc, key?.as_str())?)?;
        match seat.request(keys, Text::new(alloc, "")?) {
            Ok(answer) => println!(rt; "{}", answer.as_str())?,
            Err(error) => println!(rt; "{error}")?,
        }
    }
    running.stop(rt);
    Ok(())
}

fn main(rt: HostRuntime) -> Result<()> {
    let mut words = std::env::args(&rt)?.skip(1);
    let address = Address::parse(words.next().context("give ADDRESS")?.as_str())?;
    let number = words.next().context("give INCARNATION")?.as_str().parse()?;
    let mut hosts = Vec::new(rt.alloc());
    for host in words {
        hosts.push(Address::parse(host.as_str())?)?;
    }
    let settings = Settings {
        hosts: hosts.as_slice(),
        ..Settings::new(
            address,
            Incarnation::new(number).context("bad INCARNATION")?,
        )
    };
    serve(&rt, &settings)
}
