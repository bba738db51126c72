//! Counts the trips of riders, each rider on one node of many. A line of input is a rider.
//!
//!     shards                                three nodes of this process, on 127.0.0.1
//!     shards ADDRESS INCARNATION [HOST ..]  one node, which joins the hosts
#![tactic(auto)]

use anyhow::{Context, Result, ensure};
use ringpop::{
    Address, Handler, HandlerFault as Fault, Incarnation, Keys, RoundClock, Running, Runtime, Seat,
    Settings, Sha256Hash, Text, start,
};
use std::alloc::Global;
use std::collections::{BTreeMap, VecDeque};
use std::net::{Net, TcpListener, TcpStream};
use std::sync::{Mutex, Wait};

/// The handler: the number of trips of each rider, as the node at an address counted them.
#[derive(Drop)]
struct Trips {
    address: Address,
    counts: Mutex<BTreeMap<String, u64>>,
}

impl Handler for Trips {
    // Any answer is allowed: this handler promises nothing of its texts.
    ghost may_handle = { λ _ _ _ _. Unit {0} };

    fn handle<R: Wait>(&self, rt: &R, alloc: Global, keys: &Keys, _: &Text) -> Result<Text, Fault> {
        let rider = keys.get(0).ok_or(Fault::Failed)?.as_str();
        let rider = String::from_str(alloc, rider).map_err(|_| Fault::Memory)?;
        let mut counts = self.counts.lock(rt);
        let count = counts.entry(rider).map_err(|_| Fault::Memory)?.or_insert(0);
        *count = count.saturating_add(1);
        let answer = format!(in alloc; "{count}, counted by {}", self.address);
        answer.map(Text::from_string).map_err(|_| Fault::Memory)
    }
}

/// A node of the service: its server, and the seat by which this thread calls it.
#[derive(Drop)]
struct Node<R: RoundClock> {
    running: Running<Sha256Hash, Trips, R>,
    seat: Seat<R, Sha256Hash, Trips>,
}

impl<R: Net<Listener = TcpListener, Stream = TcpStream> + Runtime + AllocGlobal + Print> Node<R> {
    /// Starts a node, which joins the hosts, and is one of them from then on.
    fn start(rt: &R, address: &str, incarnation: u64, hosts: &mut Vec<Address>) -> Result<Self> {
        let (alloc, address) = (rt.alloc(), Address::parse(address)?);
        let incarnation = Incarnation::new(incarnation).context("bad incarnation")?;
        let counts = Mutex::new(BTreeMap::new(alloc));
        let trips = Trips { address, counts };
        let settings = Settings::new(address, incarnation);
        let (running, mut handles) = start(rt, alloc, Sha256Hash, trips, &settings)?;
        let mut seat = running.seat(rt, alloc, handles.pop().context("no handle")?)?;
        if !hosts.is_empty() {
            ensure!(hosts.len() <= 4_096, "too many hosts");
            seat.join(hosts.as_slice())?;
        }
        hosts.push(address)?;
        Ok(Node { running, seat })
    }

    /// Has the owner of a rider count a trip, whichever node that is, and prints its answer.
    fn count_trip(&mut self, rt: &R, rider: &str) -> Result<()> {
        let keys = Keys::new(rt.alloc(), Text::new(rt.alloc(), rider)?)?;
        match self.seat.request(keys, Text::new(rt.alloc(), "")?) {
            Ok(trips) => println!(rt; "{rider}: trip {}", trips.as_str())?,
            Err(error) => println!(rt; "{rider}: {error}")?,
        }
        Ok(())
    }
}

fn main(rt: HostRuntime) -> Result<()> {
    let (mut hosts, mut nodes) = (Vec::new(rt.alloc()), VecDeque::new(rt.alloc()));
    let mut words = std::env::args(&rt)?.skip(1);
    if let Some(address) = words.next() {
        let incarnation = words.next().context("no incarnation")?.as_str().parse()?;
        for host in words {
            hosts.push(Address::parse(host.as_str())?)?;
        }
        nodes.push_back(Node::start(&rt, address.as_str(), incarnation, &mut hosts)?)?;
        println!(rt; "{address} serves")?;
    } else {
        for address in ["127.0.0.1:29301", "127.0.0.1:29302", "127.0.0.1:29303"] {
            nodes.push_back(Node::start(&rt, address, 1, &mut hosts)?)?;
        }
    }
    for rider in rt.lines(rt.alloc()) {
        let mut node = nodes.pop_front().context("no node")?;
        node.count_trip(&rt, rider?.as_str())?;
        nodes.push_back(node)?;
    }
    for Node { running, .. } in nodes {
        running.stop(&rt);
    }
    Ok(())
}
