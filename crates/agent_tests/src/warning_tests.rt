use agent_core::{Notice, Refutations, are_many_addresses, is_admitted, is_live};
use change_core::Moment;

/// A number of addresses, a later one, and whether the later one is reason for a warning.
const ADDRESSES: [(usize, usize, bool); 8] = [
    (0, 2_999, false),
    (2_999, 3_000, true),
    (3_000, 3_099, false),
    (3_099, 3_100, true),
    (3_100, 3_100, false),
    (0, 4_096, true),
    (4_095, 4_096, true),
    (4_096, 4_096, false),
];

/// How many addresses a node holds, whether it knows the one that joins, and whether it lets it.
const JOINS: [(usize, bool, bool); 5] = [
    (1, false, true),
    (3_999, false, true),
    (4_000, false, false),
    (4_000, true, true),
    (4_096, true, true),
];

#[test]
fn warns(rt: HostRuntime) {
    for (before, now, wanted) in &ADDRESSES {
        assert!(rt; are_many_addresses(*before, *now) == *wanted, "{now}");
    }
    for (addresses, is_known, wanted) in &JOINS {
        assert!(rt;
            is_admitted(*addresses, *is_known) == *wanted,
            "{addresses}"
        );
    }
    let mut refutations = Refutations::new();
    for round in 1..=60u32 {
        let is_often = refutations.note(round % 10 == 0 || round > 50);
        // The 50th round ends the first window, with five of its rounds refuted.
        assert!(rt; is_often == (round == 56), "{round}");
    }
}

/// The milliseconds of a moment, whether a node fails then, and whether the log is to say so.
const FAILURES: [(u64, bool, bool); 10] = [
    (0, false, false),
    (5, true, true),
    (6, true, false),
    (7, false, false),
    (10_004, false, false),
    (10_005, false, true),
    (10_006, true, false),
    (20_005, true, true),
    (40_000, true, false),
    (40_001, false, true),
];

#[test]
fn tells_a_change_that_lasts(rt: HostRuntime) {
    let mut notice = Notice::new();
    for (at, is_failing, wanted) in &FAILURES {
        let Some(now) = Moment::new(*at) else {
            unreachable!()
        };
        assert!(rt; notice.note(*is_failing, now) == *wanted, "{at}");
        assert!(rt; notice.is_over(now) == (*at < 5), "{at}");
    }
}

#[test]
fn lives_by_its_rounds(rt: HostRuntime) {
    for (last, now, wanted) in &[
        (0u64, 0u64, true),
        (5, 10_004, true),
        (5, 10_005, false),
        (20_000, 5, true),
        (0, u64::MAX, false),
    ] {
        assert!(rt; is_live(*last, *now) == *wanted, "{last} {now}");
    }
}
