//! Servers with their weights, in ascending order of address.
ghost use Rattle.std.specs.Prelude.{◌≡◌, ℕ, ◌<◌, ◌≤◌, ◌↔◌, IsTrue, OnOk, is_some, vec_capacity};
ghost use Rattle.hash_ring.specs.Servers.{AreServers, shares, weight_of, with_server, without};

use crate::sorted::place;
use change_core::{Address, Weight};
use std::alloc::AllocError;

/// A server of a ring.
#[derive(Clone, Copy, Debug, PartialEq, Eq, PartialOrd, Ord)]
pub struct Server {
    /// The address that names it.
    pub address: Address,
    /// The weight: it has as many points as `replicas` times this.
    pub weight: Weight,
}

/// The weight of the server of an address.
pub(crate) fn weight_among(servers: &[Server], address: Address) -> Option<Weight>
    requires { AreServers servers.now }
    ensures { result ≡ weight_of address servers.now }
{
    match servers.binary_search_by_key(&address, |server| server.address) {
        Ok(place) => Some(servers[place].weight),
        Err(_) => None,
    }
}

/// Returns whether the server of an address has at least this weight.
pub(crate) fn has_weight(servers: &[Server], address: Address, weight: Weight) -> bool
    requires { AreServers servers.now }
    ensures { IsTrue result ↔ (weight ≤ shares address servers.now) }
{
    let number = weight.number();
    match weight_among(servers, address) {
        Some(held) => held.number() >= number,
        None => false,
    }
}

/// Removes a server, and returns whether it was there.
pub(crate) fn take_server(servers: &mut Vec<Server>, address: Address) -> bool
    requires { AreServers servers.old.items }
    ensures servers { servers.new.items ≡ without address servers.old.items }
    ensures there { result ≡ is_some (weight_of address servers.old.items) }
    ensures capacity { vec_capacity servers.new ≡ vec_capacity servers.old }
{
    if weight_among(servers, address).is_none() {
        return false;
    }
    servers.retain(|server| server.address != address);
    true
}

/// Adds a server, replacing any other of its address.
pub(crate) fn put_server(servers: &mut Vec<Server>, server: &Server) -> Result<(), AllocError>
    requires servers { AreServers servers.old.items }
    requires weighed { 0 < server.now.weight }
    ensures put { OnOk result (servers.new.items ≡ with_server server.now servers.old.items) }
    ensures servers { OnOk result (AreServers servers.new.items) }
{
    take_server(servers, server.address);
    place(servers, *server)?;
    Ok(())
}
