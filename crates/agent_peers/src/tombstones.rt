//! Joins by members that are held as tombstones: no ping meets them, nor does healing.
use crate::hosts::join_one;
use agent_core::Tombstones;
use agent_node::{Agent, Caller, NotedLink};
use agent_state::Host;
use std::alloc::Global;

/// Joins by the next tombstone, if there is one. If it runs, its answer tells how it holds this node, and is refuted if that is wrong; a second Join tells it of
/// that, and by its pings it then hears how it is held itself.
pub fn meet_tombstone<R: Host>(
    agent: &Agent<R>,
    alloc: Global,
    caller: &mut Caller,
    link: &mut NotedLink<'_, R>,
    tombstones: &mut Tombstones,
) {
    let Ok(members) = caller.members(&agent.rt) else {
        return;
    };
    let Some(member) = tombstones.next(members.as_slice()) else {
        return;
    };
    if join_one(agent, alloc, caller, link, member) {
        let _joined = caller.join(&agent.rt, alloc, link, member, agent.now());
        agent.renew(caller);
    }
}
