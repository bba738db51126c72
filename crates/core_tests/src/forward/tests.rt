use crate::forward::views::{keys, view_of, views_of};
use crate::shared::{A, B, C, CountingHash, Host, Ip, LIMIT, address, made, moment};
use change_core::Status;
use forward_core::{Attempt, ForwardError, MAX_SENDS, Route, Step, route_keys};
use hash_ring::SumHash;
use laws::confined_disagreement;
use node_core::View;
use std::process::Abort;
use std::sync::atomic::{AtomicU64, Ordering};

/// The route to this member.
fn route_to(rt: &impl Abort, ip: Ip) -> Result<Route, ForwardError> {
    Ok(Route::To(address(rt, ip)))
}

/// Keys `zzzz1` and `zzzz2` in one request have diverged. In a view of A that has left, alone: `nobody`.
#[test]
fn one_owner_of_all_keys(rt: HostRuntime) {
    let views = views_of(&rt, Status::Suspect);
    let (three, two, none) = (&views.three, &views.two, &views.none);
    let rows: [(&View<SumHash>, &[&str], Result<Route, ForwardError>); 8] = rows! {
        three, &["zzzz0"], Ok(Route::Here);
        three, &["zzzz1"], route_to(&rt, B);
        three, &["zzzz1", "zzzz1", "zzzz1"], route_to(&rt, B);
        three, &["zzzz1", "zzzz2"], Err(ForwardError::Diverged);
        three, &["zzzz0", "", "zzzz1"], Err(ForwardError::Diverged);
        two, &["zzzz0", ""], Ok(Route::Here);
        two, &["zzzz1", "zzzz2"], route_to(&rt, C);
        none, &["zzzz1", "zzzz2"], Ok(Route::Nobody);
    };
    for (place, (view, texts, wanted)) in rows.iter().enumerate() {
        let keys = keys(&rt, *texts);
        assert!(&rt; route_keys(*view, &keys) == *wanted, "row {place}");
    }
}

/// Checks the owner of two keys by a view, and that C and then A are the owners of the second apart from B.
fn check_owners(rt: &impl Host, view: &View<SumHash>, of_zero: Ip, of_one: Ip) {
    assert!(rt; view.owner(b"zzzz0") == Some(address(rt, of_zero)));
    assert!(rt; view.owner(b"zzzz1") == Some(address(rt, of_one)));
    let named = made!(rt, view.owners(b"zzzz1", 3));
    let mut rest = [C, A].iter();
    for owner in named.as_slice() {
        if *owner != address(rt, B) {
            let next = rest.next().copied().expect(rt, "another");
            assert!(rt; *owner == address(rt, next));
        }
    }
    assert!(rt; rest.next().is_none());
}

/// A holds B as alive, C as faulty. They name different owners of `zzzz1`, of which one is B, and one owner of `zzzz0`. The others have one order.
#[test]
fn views_that_name_two_owners_differ_about_one_of_them(rt: HostRuntime) {
    confined_disagreement::<SumHash>();
    let views = views_of(&rt, Status::Alive);
    check_owners(&rt, &views.three, A, B);
    check_owners(&rt, &views.at_c, A, C);
}

/// A call of an attempt, and what it is to answer.
#[derive(Clone, Copy)]
enum Call<'a> {
    /// `ready`, by this view at this moment.
    Ready(&'a View<SumHash>, u64, Result<Step, ForwardError>),
    /// `failed`, at this moment.
    Failed(u64, Result<(), ForwardError>),
}

/// The step that sends to this member.
fn to(rt: &impl Abort, ip: Ip) -> Result<Step, ForwardError> {
    Ok(Step::Send(address(rt, ip)))
}

/// Makes a call, and checks its answer: a `Send` counts one send, and every other answer none, as that of a refused `ready`, a `Wait`, a
/// `Here` and each `failed`.
fn check_call(rt: &impl Abort, attempt: &mut Attempt, call: &Call) {
    let before = attempt.sends();
    match call {
        Call::Ready(view, now, wanted) => {
            let sends = before.wrapping_add(u32::from(matches!(wanted, Ok(Step::Send(_)))));
            let answer = attempt.ready(*view, moment(rt, *now));
            assert!(rt;
                answer == *wanted && attempt.sends() == sends,
                "ready at {now}"
            );
        }
        Call::Failed(now, wanted) => {
            let answer = attempt.failed(moment(rt, *now));
            assert!(rt;
                answer == *wanted && attempt.sends() == before,
                "failed at {now}"
            );
        }
    }
}

/// Has a new attempt at these keys go through the calls in turn; returns how often it was sent, and how many keys it has. After each call
/// the keys are lent out and taken back, which changes nothing.
fn attempt_of(rt: &impl Host, texts: &[&str], calls: &[Call]) -> (u32, usize) {
    let mut attempt = Attempt::start(keys(rt, texts));
    for call in calls {
        check_call(rt, &mut attempt, call);
        let (keys, lent) = attempt.lend();
        attempt = lent.take_back(keys);
    }
    (attempt.sends(), attempt.keys().len())
}

/// Every send of `zzzz1` fails at once: sent to B at 0, 3,000, 9,000 and 21,000. The fourth failure: retries spent, after four sends.
/// After it `ready` says retries spent, and `failed` not in flight. After each call of an attempt its keys are lent out and taken back,
/// and the next call answers as without that.
#[test]
fn an_attempt_is_sent_four_times(rt: HostRuntime) {
    let views = views_of(&rt, Status::Alive);
    let (three, none) = (&views.three, &views.none);
    let calls = [
        Call::Ready(three, 0, to(&rt, B)),
        Call::Failed(0, Ok(())),
        Call::Ready(three, 2_999, Ok(Step::Wait(3_000))),
        Call::Ready(three, 3_000, to(&rt, B)),
        Call::Failed(3_000, Ok(())),
        Call::Ready(three, 8_999, Ok(Step::Wait(9_000))),
        Call::Ready(three, 9_000, to(&rt, B)),
        Call::Failed(9_000, Ok(())),
        Call::Ready(three, 20_999, Ok(Step::Wait(21_000))),
        Call::Ready(three, 21_000, to(&rt, B)),
        Call::Failed(21_000, Err(ForwardError::RetriesSpent)),
        Call::Ready(three, 50_000, Err(ForwardError::RetriesSpent)),
        Call::Ready(none, 50_000, Err(ForwardError::RetriesSpent)),
        Call::Failed(50_000, Err(ForwardError::NotInFlight)),
    ];
    assert!(&rt; attempt_of(&rt, &["zzzz1"], &calls) == (MAX_SENDS, 1));
}

/// After each call of an attempt its keys are lent out and taken back, and the next call answers as without that. `ready` at 0 sends to
/// B, and again: in flight. `failed` at 0, and again: not in flight. `ready` at 2,999: wait until 3,000. B is faulty in the next view:
/// `ready` at 3,000 sends to C. In a view of C, with A alive and B faulty, a new attempt for `zzzz1` is handled here. In a view of A that
/// has left, alone: `nobody`.
#[test]
fn the_owner_is_looked_up_each_time(rt: HostRuntime) {
    let views = views_of(&rt, Status::Alive);
    let (three, two, at_c, none) = (&views.three, &views.two, &views.at_c, &views.none);
    let calls = [
        Call::Failed(0, Err(ForwardError::NotInFlight)),
        Call::Ready(none, 0, Err(ForwardError::Nobody)),
        Call::Ready(three, 0, to(&rt, B)),
        Call::Ready(none, 0, Err(ForwardError::InFlight)),
        Call::Failed(0, Ok(())),
        Call::Failed(0, Err(ForwardError::NotInFlight)),
        Call::Ready(none, 2_999, Err(ForwardError::Nobody)),
        Call::Ready(three, 2_999, Ok(Step::Wait(3_000))),
        Call::Ready(at_c, 2_999, Ok(Step::Wait(3_000))),
        Call::Ready(at_c, 3_000, Ok(Step::Here)),
        Call::Ready(two, 3_000, to(&rt, C)),
        Call::Ready(two, 9_000, Err(ForwardError::InFlight)),
    ];
    attempt_of(&rt, &["zzzz1"], &calls);
    // an attempt that is this node's, and then another's
    let calls = [
        Call::Ready(at_c, 0, Ok(Step::Here)),
        Call::Ready(two, 0, to(&rt, C)),
    ];
    attempt_of(&rt, &["zzzz1"], &calls);
}

#[test]
fn an_attempt_waits_for_one_owner(rt: HostRuntime) {
    let views = views_of(&rt, Status::Alive);
    let (three, two) = (&views.three, &views.two);
    let calls = [
        Call::Ready(three, 0, Err(ForwardError::Diverged)),
        Call::Ready(two, 0, to(&rt, C)),
        Call::Failed(5, Ok(())),
        Call::Ready(three, 5, Err(ForwardError::Diverged)),
        Call::Ready(two, 5, Ok(Step::Wait(3_005))),
        Call::Ready(two, LIMIT, to(&rt, C)),
        Call::Failed(LIMIT, Ok(())),
        Call::Ready(two, LIMIT, Ok(Step::Wait(9_007_199_254_746_991))),
    ];
    assert!(&rt; attempt_of(&rt, &["zzzz1", "zzzz2"], &calls) == (2, 2));
}

/// Three keys with one owner cost three hashes, as a route and as an attempt, whose second answer is `InFlight`, before any look-up. Of keys
/// that diverge those behind the second owner cost none.
#[test]
fn each_key_is_hashed_once(rt: HostRuntime) {
    let calls = AtomicU64::new(0);
    let hash = CountingHash { calls: &calls };
    let view = view_of(&rt, hash, A, &[(B, Status::Faulty), (C, Status::Alive)]);
    let rows: [(&[&str; 3], Result<Route, ForwardError>, u64); 2] = rows! {
        &["zzzz1", "zzzz2", "zzzy3"], route_to(&rt, C), 3;
        &["zzzz1", "zzzz0", "zzzz2"], Err(ForwardError::Diverged), 2;
    };
    for (texts, wanted, hashes) in &rows {
        let keys = keys(&rt, texts.as_slice());
        let before = calls.load(Ordering::SeqCst);
        assert!(&rt; route_keys(&view, &keys) == *wanted);
        assert!(&rt; calls.load(Ordering::SeqCst) == before.wrapping_add(*hashes));
    }
    let mut attempt = Attempt::start(keys(&rt, &["zzzz1", "zzzz2", "zzzy3"]));
    let before = calls.load(Ordering::SeqCst);
    for wanted in [to(&rt, C), Err(ForwardError::InFlight)] {
        assert!(&rt; attempt.ready(&view, moment(&rt, 0)) == wanted);
        assert!(&rt; calls.load(Ordering::SeqCst) == before.wrapping_add(3));
    }
}
