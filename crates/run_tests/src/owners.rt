//! Three agents in one process, then two, then one: each request is done once, by the service of the node that all name as its key's owner.
use crate::agents::{LOOKS, REPLICAS, Site, ask, body_of, rest};
use crate::plays::{Play, check};
use crate::services::BODY;
use agent::System;
use change_core::{Address, Weight};
use hash_ring::{Ring, Server, Sha256Hash};
use std::alloc::Global;
use std::fs::Files;

/// Keys of which some are asked for.
const KEYS: [&str; 36] = [
    "a", "b", "c", "d", "e", "f", "g", "h", "i", "j", "k", "l", "m", "n", "o", "p", "q", "r", "s",
    "t", "u", "v", "w", "x", "y", "z", "0", "1", "2", "3", "4", "5", "6", "7", "8", "9",
];

/// How many keys of each of the three nodes are asked for.
const EACH: u32 = 4;

/// Starts three agents with their services, at addresses behind this one.
fn start_three<R: System + Files>(rt: &R, alloc: Global, first: u32) -> Option<Vec<Site>>
where
    R::File: Send,
    R::Dir: Send,
{
    let all = [
        first.checked_add(1)?,
        first.checked_add(2)?,
        first.checked_add(3)?,
    ];
    let mut sites = Vec::new(alloc);
    for ip in &all {
        sites.push(Site::start(rt, alloc, *ip, &all)?).ok()?;
    }
    Some(sites)
}

/// Returns the ring of the nodes of these agents.
fn ring_of(alloc: Global, sites: &[Site]) -> Option<Ring<Sha256Hash>> {
    let weight = Weight::new(1)?;
    let mut servers = Vec::new(alloc);
    for site in sites {
        let address = site.own;
        servers.push(Server { address, weight }).ok()?;
    }
    Ring::with_servers(alloc, Sha256Hash, REPLICAS, servers.as_slice()).ok()
}

/// Appends four keys that a node owns.
fn push_keys(keys: &mut Vec<&'static str>, ring: &Ring<Sha256Hash>, own: Address) -> Option<()> {
    let mut left = EACH;
    for key in &KEYS {
        if left > 0 && ring.owner(key.as_bytes()) == Some(own) {
            keys.push(*key).ok()?;
            left = left.saturating_sub(1);
        }
    }
    (left == 0).then_some(())
}

/// Returns keys of which each of these agents' nodes owns four.
fn keys_of(alloc: Global, sites: &[Site]) -> Option<Vec<&'static str>> {
    let ring = ring_of(alloc, sites)?;
    let mut keys = Vec::new(alloc);
    for site in sites {
        push_keys(&mut keys, &ring, site.own)?;
    }
    Some(keys)
}

/// The owners of all keys by a ring, as a question and its answer.
#[derive(Drop)]
struct Named {
    keys: String,
    owners: String,
}

/// Returns the owners of all keys by a ring, as agents are asked for them and name them.
fn named_by(alloc: Global, ring: &Ring<Sha256Hash>) -> Option<Named> {
    let mut keys = String::new(alloc);
    let mut owners = String::from_str(alloc, "{\"owners\":[").ok()?;
    for key in &KEYS {
        let owner = ring.owner(key.as_bytes())?;
        let comma = if keys.is_empty() { "" } else { "," };
        let named = format!(in alloc; "{comma}[\"{owner}\"]").ok()?;
        owners.push_str(named.as_str()).ok()?;
        keys.push_str(*key).ok()?;
        keys.push_str("\n").ok()?;
    }
    owners.push_str("]}\n").ok()?;
    Some(Named { keys, owners })
}

/// Returns whether each agent names the owners of all keys so; None if one has ended.
fn is_agreed<R: System>(rt: &R, alloc: Global, sites: &[Site], named: &Named) -> Option<bool> {
    let (keys, owners) = (named.keys.as_str(), named.owners.as_str());
    for site in sites {
        if site.has_ended() {
            return None;
        }
        if !site.says(rt, alloc, "POST /owners", keys, owners) {
            return Some(false);
        }
    }
    Some(true)
}

/// Waits until the agents name the owners of all keys so. Returns whether they come to.
fn agree<R: System>(rt: &R, alloc: Global, sites: &[Site], named: &Named) -> bool {
    for _ in 0..LOOKS {
        match is_agreed(rt, alloc, sites, named) {
            Some(false) => rest(rt),
            agreed => return agreed == Some(true),
        }
    }
    false
}

/// Returns whether an agent answers a request of a key as the owner's service does, and names the owner.
fn is_answered<R: System>(
    rt: &R,
    alloc: Global,
    site: &Site,
    owner: Address,
    key: &str,
) -> Option<bool> {
    let request = format!(in alloc; "POST /keys/{key}").ok()?;
    let body = format!(in alloc; "{owner} {key}").ok()?;
    let field = format!(in alloc; "\r\nx-ringpop-owner: {owner}\r\n").ok()?;
    let answer = ask(rt, alloc, site.http, request.as_str(), BODY)?;
    let answer = answer.as_str();
    Some(body_of(answer) == Some(body.as_str()) && answer.contains(field.as_str()))
}

/// Gives each agent a request of a key, and notes that the owner's service is to have been asked for it as often. Returns whether each is
/// answered by that service.
fn request<R: System>(
    rt: &R,
    alloc: Global,
    sites: &mut [Site],
    ring: &Ring<Sha256Hash>,
    key: &str,
) -> Option<bool> {
    let owner = ring.owner(key.as_bytes())?;
    let count = sites.len();
    for site in sites.iter() {
        if !is_answered(rt, alloc, site, owner, key)? {
            return Some(false);
        }
    }
    for site in sites.iter_mut() {
        if site.own == owner {
            site.note(key, count)?;
        }
    }
    Some(true)
}

/// Waits until the agents name the owners that their nodes' ring gives all keys, and gives each of them a request of each of these.
fn request_all<R: System>(
    rt: &R,
    alloc: Global,
    sites: &mut [Site],
    keys: &[&'static str],
) -> Result<(), &'static str> {
    let ring = ring_of(alloc, sites).ok_or("no ring")?;
    let named = named_by(alloc, &ring).ok_or("no owners")?;
    if !agree(rt, alloc, sites, &named) {
        return Err("agents name other owners");
    }
    for key in keys {
        if request(rt, alloc, sites, &ring, *key) != Some(true) {
            return Err(*key);
        }
    }
    Ok(())
}

/// Asks agents at addresses behind this one. The error says what is not as it has to be, or is the key of a request that its owner's service did
/// not answer.
pub(crate) fn ask_owners<R: System + Files>(
    rt: &R,
    alloc: Global,
    first: u32,
) -> Result<(), &'static str>
where
    R::File: Send,
    R::Dir: Send,
{
    let mut sites = start_three(rt, alloc, first).ok_or("no three agents")?;
    let keys = keys_of(alloc, sites.as_slice()).ok_or("no keys")?;
    for _ in 0..sites.len() {
        request_all(rt, alloc, sites.as_mut_slice(), keys.as_slice())?;
        let mut last = sites.pop().ok_or("no agent")?;
        if !last.ends_service(rt, alloc) {
            return Err("a service was asked for other keys");
        }
        if !last.stops(rt, alloc) {
            return Err("an agent does not end");
        }
    }
    Ok(())
}

/// Three agents with services. Once all name the owners that the ring of their nodes gives 36 keys, each agent is given a request of each of
/// twelve keys, four of each node: the owner's service answers each with 200, and was asked once for each; no other was. The third agent is
/// stopped and ends: it is the same with the ring of two, and at last with that of one.
#[test]
fn three_agents_have_each_request_done_once_by_one_owner(rt: HostRuntime) {
    check(&rt, rt.alloc(), Play::Owners);
}
