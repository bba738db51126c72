ghost use Rattle.std.specs.Prelude.{◌≡◌, ◌+◌};
ghost use Rattle.std.specs.List.Sorted.{IsStrictlyIncreasing};

use crate::given::{check_refused, incarnation, node};
use change_core::{Address, MAX_NUMBER, Moment, Status};
use detector_core::{
    Addresses, DetectorError, Due, Lost, Outcome, Probe, Prober, Running, Said, Timers,
};
use std::env::Env;
use std::process::Abort;

fn moment(rt: &impl Abort, number: u64) -> Moment {
    Moment::new(number).expect(rt, "a moment")
}

fn pair(rt: &impl Abort) -> [Address; 2]
    ensures { IsStrictlyIncreasing result }
{
    [node(rt, 3), node(rt, 5)]
}

fn three(rt: &impl Abort) -> [Address; 3]
    ensures { IsStrictlyIncreasing result }
{
    [node(rt, 2), node(rt, 3), node(rt, 4)]
}

fn four(rt: &impl Abort) -> [Address; 4]
    ensures { IsStrictlyIncreasing result }
{
    [node(rt, 2), node(rt, 3), node(rt, 4), node(rt, 5)]
}

/// A pick. If an allocation fails nothing has changed, and the next try continues.
fn pick(
    rt: &(impl Env + Abort),
    prober: &mut Prober,
    pingable: &[Address],
) -> Result<Option<Probe>, DetectorError>
    requires { IsStrictlyIncreasing pingable.now }
{
    let before = prober.running();
    match prober.next_target(pingable) {
        Err(DetectorError::Memory) => {
            check_refused(rt);
            assert!(rt; prober.running() == before);
            prober.next_target(pingable)
        }
        answer => answer,
    }
}

/// A loss. If an allocation fails nothing has changed, and the next try continues.
fn lose(
    rt: &(impl Env + Abort),
    prober: &mut Prober,
    number: u64,
    pingable: &[Address],
) -> Result<Lost, DetectorError>
    requires { IsStrictlyIncreasing pingable.now }
{
    let before = prober.running();
    match prober.lost(number, pingable) {
        Err(DetectorError::Memory) => {
            check_refused(rt);
            assert!(rt; prober.running() == before);
            prober.lost(number, pingable)
        }
        answer => answer,
    }
}

/// Starts a timer. If the allocation fails nothing has changed, and the next try continues.
fn start(rt: &(impl Env + Abort), timers: &mut Timers, number: u8, next: Status, deadline: u64) {
    let last = moment(rt, MAX_NUMBER);
    let before = (timers.len(), timers.due(last));
    if timers.reserve_one().is_err() {
        check_refused(rt);
        assert!(rt; (timers.len(), timers.due(last)) == before);
        let Ok(()) = timers.reserve_one() else {
            panic!(rt; "no room")
        };
    }
    timers.set(node(rt, number), incarnation(rt, 1), next, deadline);
}

/// The probe that starts.
fn begin(rt: &(impl Env + Abort), prober: &mut Prober, pingable: &[Address]) -> Probe
    requires { IsStrictlyIncreasing pingable.now }
{
    let Ok(Some(probe)) = pick(rt, prober, pingable) else {
        panic!(rt; "nobody to probe")
    };
    probe
}

/// The helpers that are asked where a probe is lost.
fn ask(rt: &(impl Env + Abort), prober: &mut Prober, number: u64, pingable: &[Address]) -> Addresses
    requires { IsStrictlyIncreasing pingable.now }
{
    let Ok(Lost::Ask(helpers)) = lose(rt, prober, number, pingable) else {
        panic!(rt; "nobody to ask")
    };
    helpers
}

/// Picks of these members, each acked.
fn assert_picks(rt: &(impl Env + Abort), prober: &mut Prober, pingable: &[Address], wanted: &[u8])
    requires { IsStrictlyIncreasing pingable.now }
{
    for number in wanted {
        let probe = begin(rt, prober, pingable);
        assert!(rt; probe.target == node(rt, *number));
        assert!(rt; prober.acked(probe.number) == Ok(()));
    }
}

/// A seed, and what is picked by it: of three members, then of four, then of two.
const PICKS: [(u64, [u8; 4], [u8; 4], [u8; 3]); 3] = [
    (7, [3, 4, 2, 4], [3, 2, 3, 5], [5, 3, 5]),
    (1, [4, 2, 3, 2], [4, 3, 2, 5], [3, 3, 5]),
    (7, [3, 4, 2, 4], [3, 2, 3, 5], [5, 3, 5]),
];

/// The numbers were made by a separate program after the published PCG32 and Rust's `rand`: each order holds each of
/// the members that were pingable when it was made, those who left are skipped, and those who came wait.
#[test]
fn picks_follow_from_the_seed(rt: HostRuntime) {
    for (seed, of_three, of_four, of_pair) in &PICKS {
        let mut prober = Prober::new(rt.alloc(), *seed, 2, 0);
        assert_picks(&rt, &mut prober, &three(&rt), of_three);
        assert_picks(&rt, &mut prober, &four(&rt), of_four);
        assert_picks(&rt, &mut prober, &pair(&rt), of_pair);
    }
}

/// Each entry is a seed and two orders of the three; both are picked whole before another is made.
/// Three members and every probe acked: the picks 1 to 3 are the three, and so are the picks 4 to 6.
#[test]
fn two_rounds_hold_each_member(rt: HostRuntime) {
    for (seed, orders) in &[(7, [3, 4, 2, 4, 3, 2]), (1, [4, 2, 3, 2, 4, 3])] {
        let mut prober = Prober::new(rt.alloc(), *seed, 2, 0);
        assert_picks(&rt, &mut prober, &three(&rt), orders);
    }
}

/// Loses its first probe, of this target, asks these helpers, and picks this member next.
fn ask_and_go_on(
    rt: &(impl Env + Abort),
    prober: &mut Prober,
    target: u8,
    wanted: [u8; 2],
    next: u8,
) {
    let pingable = four(rt);
    let probe = begin(rt, prober, &pingable);
    assert!(rt; probe.target == node(rt, target));
    let wanted = [node(rt, wanted[0]), node(rt, wanted[1])];
    assert!(rt; ask(rt, prober, probe.number, &pingable).as_slice() == wanted.as_slice());
    assert!(rt; prober.acked(probe.number) == Ok(()));
    assert_picks(rt, prober, &pingable, &[next]);
}

#[test]
fn helpers_follow_from_the_seed(rt: HostRuntime) {
    ask_and_go_on(&rt, &mut Prober::new(rt.alloc(), 7, 2, 0), 3, [5, 4], 4);
    ask_and_go_on(&rt, &mut Prober::new(rt.alloc(), 1, 2, 0), 5, [2, 4], 2);
}

/// Whether a probe was lost, and there is no helper to ask.
fn asks_nobody(lost: Result<Lost, DetectorError>) -> bool {
    matches!(lost, Ok(Lost::NoHelper))
}

/// The probe is of the only other member.
/// No helpers: a lost probe asks no helper, and no probe runs.
#[test]
fn a_probe_with_nobody_to_ask_ends(rt: HostRuntime) {
    let target = node(&rt, 2);
    let pingable = [target];
    let probe = Some(Probe { number: 1, target });
    let running = Running {
        number: 1,
        target,
        waiting: None,
    };
    for helpers in &[3, 0] {
        let mut prober = Prober::new(rt.alloc(), 1, *helpers, 0);
        assert!(rt; pick(&rt, &mut prober, &pingable) == Ok(probe));
        assert!(rt; pick(&rt, &mut prober, &pingable) == Err(DetectorError::Busy));
        assert!(rt; prober.target_of(1) == Some(target) && prober.running() == Some(running));
        assert!(rt; asks_nobody(prober.lost(1, &pingable)));
        assert!(rt;
            prober.acked(1) == Err(DetectorError::StaleProbe) && prober.running().is_none()
        );
    }
}

/// No helpers: a lost probe asks no helper, and no probe runs.
#[test]
fn no_helper_is_asked_where_none_may_be(rt: HostRuntime) {
    let mut prober = Prober::new(rt.alloc(), 1, 0, 0);
    let pingable = four(&rt);
    let probe = begin(&rt, &mut prober, &pingable);
    assert!(rt; asks_nobody(lose(&rt, &mut prober, probe.number, &pingable)));
    assert!(rt; prober.running().is_none());
}

/// The last probe number was `LIM`: spent.
#[test]
fn numbers_run_out(rt: HostRuntime) {
    let target = node(&rt, 2);
    let mut spent = Prober::new(rt.alloc(), 1, 3, MAX_NUMBER);
    assert!(rt; pick(&rt, &mut spent, &[target]) == Err(DetectorError::Spent));
    let mut prober = Prober::new(rt.alloc(), 1, 3, 7);
    assert!(rt; pick(&rt, &mut prober, &[]) == Ok(None));
    assert!(rt; pick(&rt, &mut prober, &[target]) == Ok(Some(Probe { number: 8, target })));
}

/// The outcome of the helpers' reports, told in the order of asking until they decide. Each answer is foretold.
fn hear(
    rt: &impl Abort,
    prober: &mut Prober,
    number: u64,
    helpers: &[Address],
    words: &[Said; 3],
) -> Outcome {
    let mut outcome = Outcome::Waiting;
    for place in 0..3usize {
        if outcome == Outcome::Waiting {
            let helper = *helpers.get(place).expect(rt, "three helpers");
            let foretold = prober.would_say(number, helper, words[place]);
            let said = prober.helper_said(number, helper, words[place]);
            assert!(rt; foretold == said);
            outcome = said.ok().expect(rt, "a helper");
        }
    }
    outcome
}

/// Reports of three helpers, and the outcome.
const DECIDED: [([Said; 3], Outcome); 5] = rows! {
    [Said::Failed, Said::Failed, Said::Failed], Outcome::Inconclusive;
    [Said::NotReached, Said::Failed, Said::Failed], Outcome::Suspect;
    [Said::Failed, Said::Failed, Said::NotReached], Outcome::Suspect;
    [Said::Reached, Said::Failed, Said::Failed], Outcome::Reached;
    [Said::NotReached, Said::Failed, Said::Reached], Outcome::Reached;
};

/// All of four are asked but the target.
/// A lost probe among four asks the other three. All failed: inconclusive. One that did not reach it, two failed: suspect. The first
/// reached it: reached.
#[test]
fn helpers_decide(rt: HostRuntime) {
    let pingable = four(&rt);
    for (words, wanted) in &DECIDED {
        let mut prober = Prober::new(rt.alloc(), 7, 3, 0);
        let probe = begin(&rt, &mut prober, &pingable);
        let helpers = ask(&rt, &mut prober, probe.number, &pingable);
        assert!(rt; helpers.as_slice().len() == 3);
        for member in &pingable {
            assert!(rt; helpers.as_slice().contains(member) == (*member != probe.target));
        }
        let outcome = hear(&rt, &mut prober, probe.number, helpers.as_slice(), words);
        assert!(rt; outcome == *wanted, "after {words:?}");
        assert!(rt; prober.running().is_none());
    }
}

/// The lesser of two helpers is waited for, which says one word and no other.
/// 16 helpers, members B, C, D: the two others are asked, and the lesser is waited for. It fails twice: waiting, then not asked. Lost
/// again: stale.
#[test]
fn a_helper_answers_once(rt: HostRuntime) {
    let mut prober = Prober::new(rt.alloc(), 7, 16, 0);
    let pingable = three(&rt);
    let Probe { number, target } = begin(&rt, &mut prober, &pingable);
    let unasked = prober.would_say(1, node(&rt, 2), Said::Failed);
    assert!(rt; unasked == Err(DetectorError::NotAsked));
    let helpers = ask(&rt, &mut prober, number, &pingable);
    let helper = helpers
        .as_slice()
        .iter()
        .copied()
        .min()
        .expect(&rt, "a helper");
    assert!(rt; helpers.as_slice().len() == 2 && prober.target_of(2).is_none());
    for member in &pingable {
        assert!(rt; helpers.as_slice().contains(member) == (*member != target));
    }
    let running = prober.running().expect(&rt, "a probe");
    assert!(rt; running.waiting == Some(helper));
    for (number, wanted) in &[
        (2, Err(DetectorError::StaleProbe)),
        (1, Ok(Outcome::Waiting)),
        (1, Err(DetectorError::NotAsked)),
    ] {
        assert!(rt; prober.helper_said(*number, helper, Said::Failed) == *wanted);
    }
    let lost = prober.lost(1, &pingable).err();
    assert!(rt; lost == Some(DetectorError::StaleProbe));
}

/// What is due of a timer about this member, once it has run out.
fn due(rt: &impl Abort, number: u8, next: Status) -> Option<Due> {
    Some(Due {
        address: node(rt, number),
        incarnation: incarnation(rt, 1),
        next,
    })
}

/// The last of three lies beyond the greatest moment; two are cleared.
/// Deadlines 20 of B and 10 of C: none at 9, C at 10, B at 20, and C once B is cleared. A deadline of `LIM` + 1 has not come at `LIM`.
#[test]
fn timers_run_out_at_their_deadlines(rt: HostRuntime) {
    let mut timers = Timers::new(rt.alloc());
    for (number, deadline) in [(2, 20), (3, 10), (4, MAX_NUMBER + 1)] {
        start(&rt, &mut timers, number, Status::Faulty, deadline);
    }
    assert!(rt; timers.due(moment(&rt, 9)).is_none());
    for (now, number) in [(10, 3), (20, 2), (MAX_NUMBER, 2)] {
        let wanted = due(&rt, number, Status::Faulty);
        assert!(rt; timers.due(moment(&rt, now)) == wanted, "at {now}");
    }
    assert!(rt; timers.clear(node(&rt, 2)) && !timers.clear(node(&rt, 2)));
    assert!(rt; timers.due(moment(&rt, 20)) == due(&rt, 3, Status::Faulty));
    timers.clear(node(&rt, 3));
    assert!(rt; timers.due(moment(&rt, MAX_NUMBER)).is_none() && timers.len() == 1);
}

/// Deadlines 5,000 and then 86,405,000 of one member: none a millisecond before, due at each.
#[test]
fn a_timer_is_replaced(rt: HostRuntime) {
    let mut timers = Timers::new(rt.alloc());
    for (next, before, deadline) in [
        (Status::Faulty, 4_999, 5_000),
        (Status::Tombstone, 86_404_999, 86_405_000),
    ] {
        start(&rt, &mut timers, 2, next, deadline);
        assert!(rt;
            timers.len() == 1 && timers.due(moment(&rt, before)).is_none(),
            "at {before}"
        );
        assert!(rt;
            timers.due(moment(&rt, deadline)) == due(&rt, 2, next),
            "at {deadline}"
        );
    }
    let mut cleared = Timers::new(rt.alloc());
    start(&rt, &mut cleared, 2, Status::Faulty, 5_000);
    cleared.clear(node(&rt, 2));
    assert!(rt; cleared.due(moment(&rt, 5_000)).is_none());
}
