//! Where a node refuses: a bad configuration, too many members, and allocations that fail.
use crate::calls::Told;
use crate::cli::fakes::{ALL, Page};
use crate::node::played::{answers, check_alike};
use crate::shared::{
    A, B, C, Host, Row, address, batch, check_refused, config, configured, hear, incarnation,
    moment, news, node, put, vec_of,
};
use change_core::Status;
use hash_ring::SumHash;
use node_core::{ConfigField, Event, NodeError, NodeState, StopCause};
use std::io::Write;
use wire_json::Changes;

/// Why no node is made with this many points for each unit of weight.
fn refusal(rt: &impl Host, replicas: u32) -> Option<NodeError> {
    let mut bad = config(4096);
    bad.replicas = replicas;
    let (own, created, start) = (address(rt, A), incarnation(rt, 7), moment(rt, 0));
    NodeState::new(rt.alloc(), bad, SumHash, own, created, 1, start).err()
}

/// 0 and 1,001 points for each server: bad config, replicas.
#[test]
fn no_node_of_a_bad_configuration(rt: HostRuntime) {
    let wanted = Some(NodeError::BadConfig(ConfigField::Replicas));
    assert!(&rt; refusal(&rt, 0) == wanted);
    assert!(&rt; refusal(&rt, 1_001) == wanted);
}

/// Why a call of a node is refused, and the error text.
const TEXTS: [(NodeError, &str); 10] = rows! {
    NodeError::BadConfig(ConfigField::Replicas), "bad configuration: replicas";
    NodeError::Exhausted, "no incarnation is left";
    NodeError::Full, "too many members";
    NodeError::AlreadyLeft, "the node has left already";
    NodeError::NotLeft, "the node has not left";
    NodeError::Busy, "a probe is running";
    NodeError::Spent, "no probe number is left";
    NodeError::StaleProbe, "the probe does not run";
    NodeError::NotAsked, "the helper was not asked";
    NodeError::Memory, "out of memory";
};

/// Each of the ten refusals of a node has its text, as `bad configuration: replicas`.
#[test]
fn each_refusal_has_its_text(rt: HostRuntime) {
    for (refusal, text) in &TEXTS {
        let mut said = Page::new(ALL);
        let _ = write!(said, "{refusal}");
        assert!(rt; said.text() == *text, "{text}");
    }
}

/// Changes about 4,096 addresses from 11.0.0.0 on.
fn strangers(rt: &impl Host) -> Changes {
    let mut given = vec_of(rt, 4096);
    for place in 0..4096u16 {
        let stranger = 0x0b00_0000 + u32::from(place);
        put(rt, &mut given, news(rt, (stranger, 1, Status::Alive)));
    }
    Changes::from_vec(given).ok().expect(rt, "changes")
}

/// One point for each server, and 4,096 changes about unknown addresses in one batch: stopped after 4,095, full.
#[test]
fn stops_at_the_last_of_as_many_as_may_be(rt: HostRuntime) {
    let mut small = config(4096);
    small.replicas = 1;
    let mut node = configured(&rt, &small, SumHash, A, 7);
    let event = Event::Take(strangers(&rt), moment(&rt, 0));
    let is_full = answers(
        &rt,
        &mut node,
        &event,
        Told::Stopped(4_095, StopCause::Full),
    );
    assert!(&rt; is_full && node.len() == 4_096);
}

/// A batch of three.
const THREE: [Row; 3] = rows! { B, 1, Status::Alive; C, 1, Status::Alive; B, 2, Status::Suspect; };

/// A node that takes the three as far as memory lets it is like a new one that takes as many of them.
#[test]
fn a_refused_growth_leaves_the_changes_before_it(rt: HostRuntime) {
    let (mut first, given, now) = (node(&rt, A, 7), batch(&rt, &THREE), moment(&rt, 0));
    let taken = match first.take(given.as_slice(), now) {
        Ok(_) => 3,
        Err(stopped) => {
            check_refused(&rt);
            assert!(&rt; stopped.cause == StopCause::Memory && stopped.taken < 3);
            stopped.taken
        }
    };
    let mut second = node(&rt, A, 7);
    for row in THREE.get(..taken).expect(&rt, "no more than were given") {
        hear(&rt, &mut second, *row, 0);
    }
    check_alike(&rt, &mut first, &mut second);
}
