//! How many hashes a node makes.
use crate::calls::{Call, Told};
use crate::cases::{A_AT_7, HEAVY_A};
use crate::node::played::{begun, is_answered};
use crate::shared::{A, B, C, CountingHash, Host, view};
use change_core::Status;
use node_core::NodeState;
use std::sync::atomic::{AtomicU64, Ordering};

/// A call, its reply, and how many hashes it costs.
type Costly = (Call, Told<'static>, u64);

/// Counts the hashes of calls, one after another.
fn count_calls<'a>(
    rt: &impl Host,
    node: &mut NodeState<CountingHash<'a>>,
    calls: &AtomicU64,
    rows: &[Costly],
) {
    for (call, wanted, hashes) in rows {
        let before = calls.load(Ordering::SeqCst);
        assert!(rt; is_answered(rt, node, *call, *wanted));
        assert!(rt; calls.load(Ordering::SeqCst) == before.wrapping_add(*hashes));
    }
}

const ALTERATIONS: [Costly; 7] = rows! {
    Call::Take((B, 1, Status::Alive), 0), Told::Taken(1, 0), 2;
    Call::Take((B, 1, Status::Suspect), 0), Told::Taken(1, 0), 0;
    Call::Take((B, 2, Status::Alive), 0), Told::Taken(1, 0), 0;
    Call::Take((B, 2, Status::Faulty), 0), Told::Taken(1, 0), 0;
    Call::Take((B, 3, Status::Alive), 0), Told::Taken(1, 0), 2;
    Call::Take((C, 1, Status::Tombstone), 0), Told::Taken(1, 0), 0;
    Call::Owner("key"), Told::Owner(A), 1;
};

/// A hash that counts: a new member costs as many hashes as it has points, suspect to alive none, `owner` one, a view none, its `owner`
/// one.
#[test]
fn an_alteration_hashes_no_more_than_its_points(rt: HostRuntime) {
    let calls = AtomicU64::new(0);
    let mut node = begun(&rt, &A_AT_7, CountingHash { calls: &calls });
    count_calls(&rt, &mut node, &calls, &ALTERATIONS);
    let before = calls.load(Ordering::SeqCst);
    let view = view(&rt, &mut node);
    let made = calls.load(Ordering::SeqCst);
    let _ = view.owner(b"key");
    assert!(&rt; made == before && calls.load(Ordering::SeqCst) == before.wrapping_add(1));
}

/// Alterations of members with a weight, and a timer that runs out.
const WEIGHTY: [Costly; 6] = rows! {
    Call::Take((A, 7, Status::Suspect), 0), Told::Taken(1, 1), 0;
    Call::TakeWeighty((B, 1, Status::Alive), 3), Told::Taken(1, 0), 6;
    Call::TakeWeighty((B, 1, Status::Suspect), 3), Told::Taken(1, 0), 0;
    Call::TakeWeighty((B, 2, Status::Alive), 3), Told::Taken(1, 0), 0;
    Call::TakeWeighty((B, 2, Status::Suspect), 3), Told::Taken(1, 0), 0;
    Call::Expire(5_000), Told::Weighty((B, 2, Status::Faulty), 3), 0;
};

/// A node that was out of memory hashed its points again.
/// The same with weights: A of weight 2 costs four hashes, B of weight 3 six, and suspect, alive again, suspect and faulty by its timer
/// none.
#[test]
fn a_weight_makes_as_many_points(rt: HostRuntime) {
    let calls = AtomicU64::new(0);
    let mut node = begun(&rt, &HEAVY_A, CountingHash { calls: &calls });
    let created = calls.load(Ordering::SeqCst);
    count_calls(&rt, &mut node, &calls, &WEIGHTY);
    assert!(&rt; created == 4 || created == 8);
}
