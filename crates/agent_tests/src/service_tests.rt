use agent_core::laws::absences;
use agent_core::{Move, Sight, Watch};

/// A moment, whether the service takes a connection then, whether the node has left before, and what it does.
const RUN: [(u64, bool, bool, Move); 16] = [
    (0, true, false, Move::Stay),
    (9_000, false, false, Move::Stay),
    (9_999, false, false, Move::Stay),
    (10_000, false, false, Move::Leave),
    // (a leave that failed is tried again)
    (10_500, false, false, Move::Leave),
    (11_000, false, true, Move::Stay),
    (12_000, true, true, Move::Rejoin),
    (12_200, true, true, Move::Rejoin),
    (12_500, false, false, Move::Stay),
    (22_199, false, false, Move::Stay),
    (22_200, false, false, Move::Leave),
    (22_400, false, true, Move::Stay),
    // (somebody has it rejoin)
    (23_000, false, false, Move::Stay),
    // (and leave)
    (24_000, false, true, Move::Stay),
    (25_000, true, true, Move::Stay),
    (26_000, true, false, Move::Stay),
];

/// No leave comes sooner than 10 seconds after a moment at which the service took a connection or the node was out.
#[test]
fn follows_its_service(rt: HostRuntime) {
    absences();
    let mut watch = Watch::new(10_000);
    let mut never = Watch::new(0);
    let mut last = 0u64;
    for (now, takes, has_left, wanted) in &RUN {
        let sight = Sight {
            now: *now,
            takes: *takes,
            has_left: *has_left,
        };
        let moved = watch.note(sight);
        assert!(rt; moved == *wanted, "{now}");
        assert!(rt;
            moved != Move::Leave || now.saturating_sub(last) >= 10_000,
            "{now}"
        );
        if *takes || *has_left {
            last = *now;
        }
        assert!(rt; never.note(sight) == Move::Stay, "{now}");
    }
}

#[test]
fn stays_out_where_it_is_told(rt: HostRuntime) {
    absences();
    let mut watch = Watch::new(10_000);
    watch.set_out();
    let found = Sight {
        now: 5,
        takes: true,
        has_left: true,
    };
    assert!(rt; watch.note(found) == Move::Rejoin);
    watch.hold();
    assert!(rt; watch.note(found) == Move::Stay);
    let again = Sight { now: 6, ..found };
    assert!(rt; watch.note(again) == Move::Stay);
}
