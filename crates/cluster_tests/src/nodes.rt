//! New nodes. If an allocation fails the call is made again.
use crate::messages::{member, moment};
use crate::shared::{Host, made};
use change_core::{Incarnation, Moment, Sourced};
use hash_ring::SumHash;
use node_core::{Config, NodeState, Received};
use wire_json::Message;

/// The standard configuration, with two points for each unit of weight and this many members.
pub(crate) fn config(max: usize) -> Config {
    let mut config = Config::standard();
    config.replicas = 2;
    config.max_members = max;
    config
}

/// The node 10.0.0.`number`:1 of this configuration that starts at this incarnation and moment.
pub(crate) fn created(
    rt: &impl Host,
    number: u8,
    config: &Config,
    first: Incarnation,
    seed: u64,
    now: Moment,
) -> NodeState<SumHash> {
    let own = member(rt, number);
    made!(
        rt,
        NodeState::new(rt.alloc(), *config, SumHash, own, first, seed, now)
    )
}

/// The node 10.0.0.`number`:1 at 7 with this many members at most.
pub(crate) fn state(rt: &impl Host, number: u8, max: usize) -> NodeState<SumHash> {
    let first = Incarnation::new(7).expect(rt, "an incarnation");
    created(rt, number, &config(max), first, 1, moment(rt, 0))
}

/// Takes a change at moment 0.
pub(crate) fn hear(rt: &impl Host, node: &mut NodeState<SumHash>, told: Sourced) {
    let (given, now) = ([told], moment(rt, 0));
    made!(rt, node.take(&given, now));
}

/// The answer to a message, if there is one.
pub(crate) fn answer_in(received: Received) -> Option<Message> {
    match received {
        Received::Answer(_, answer) => Some(answer),
        other => {
            drop(other);
            None
        }
    }
}
