//! What contracts do not cover: that the calls succeed, that threads take turns, and what a failed allocation leaves.
ghost use Rattle.std.specs.Prelude.{◌≡◌, ◌++◌, ◌∷◌, [], ℕ, Option, IfOk};
ghost use Rattle.std.specs.List.{All, filter_map};
ghost use Rattle.turn_lock.specs.History.{turn};
ghost use Rattle.turn_lock.specs.Passes.{name_of, opening_of, number_of, seen, IsOutside, IsInside};

use std::alloc::Global;
use std::env::Env;
use std::process::Abort;
use std::sync::Wait;
use std::thread;
use std::thread::{Threads, join};
use std::time::{Clock, Duration};
use turn_lock::{CloseError, CloseRefused, LockError, MAX_PASSES, NewError, TurnLock};

mod tally;

use tally::{Entrant, Shared, Tally};

const TRIES: u32 = 10_000;

/// Leaves after a turn that added this number, or none.
fn leave(lock: &Shared, pass: &mut Entrant, tally: Tally, added: Option<u64>)
    ghost entry: { Option ℕ }
    requires inside { IsInside lock.now pass.old }
    requires told { entry ≡ added }
    requires tally { tally.numbers.items ≡ (opening_of lock.now).numbers.items ++ filter_map (λ t. t.entry) (seen pass.old ++ turn (number_of pass.old) added ∷ []) }
    ensures { IsOutside lock.now pass.new }
{
    lock.leave(pass, tally);
}

/// Adds a number.
fn add<R: Wait>(rt: &R, lock: &Shared, pass: &mut Entrant, number: u64) -> Result<(), LockError>
    requires { IsOutside lock.now pass.old }
    ensures { IsOutside lock.now pass.new }
{
    let mut tally = lock.enter(rt, pass)?;
    let added = tally.add(number);
    leave(lock, pass, tally, added);
    Ok(())
}

/// Whether the number was added.
fn has<R: Wait>(rt: &R, lock: &Shared, pass: &mut Entrant, number: u64) -> Result<bool, LockError>
    requires { IsOutside lock.now pass.old }
    ensures { IsOutside lock.now pass.new }
{
    let tally = lock.enter(rt, pass)?;
    let found = tally.numbers.contains(&number);
    leave(lock, pass, tally, None);
    Ok(found)
}

/// Adds a number this many times, and then enters this often at most until it reads the other; whether it did.
fn add_and_look<R: Wait + Clock>(
    rt: &R,
    lock: &Shared,
    mut pass: Entrant,
    own: u64,
    other: u64,
    times: u32,
    tries: u32,
) -> Result<(Entrant, bool), LockError>
    requires { IsOutside lock.now pass }
    ensures { IfOk result (λ r. IsOutside lock.now r.0) }
{
    'adds: for _ in 0..times {
        add(rt, lock, &mut pass, own)?;
    }
    'looks: for _ in 0..tries {
        thread::sleep(rt, Duration::from_millis(1));
        if has(rt, lock, &mut pass, other)? {
            return Ok((pass, true));
        }
    }
    Ok((pass, false))
}

/// A new lock. If out of memory, it is made again.
fn made(
    rt: &(impl Env + Abort),
    alloc: Global,
    name: u64,
    passes: u32,
    turns: u32,
) -> (Shared, Vec<Entrant>)
    ensures passes { All (IsOutside result.0) result.1.items }
    ensures name { name_of result.0 ≡ name }
{
    let lock = again!(
        rt,
        NewError,
        TurnLock::new(
            alloc,
            name,
            Tally::with_room(rt, alloc, 4096),
            passes,
            turns
        )
    );
    lock.ok().expect(rt, "a lock")
}

/// A new lock with two passes, and the list that they came in, now empty.
fn pair(
    rt: &(impl Env + Abort),
    alloc: Global,
    name: u64,
    turns: u32,
) -> (Shared, Entrant, Entrant, Vec<Entrant>)
    ensures passes { IsOutside result.0 result.1 × IsOutside result.0 result.2 }
    ensures name { name_of result.0 ≡ name }
    ensures room { result.3.items ≡ [] }
{
    let (lock, mut passes) = made(rt, alloc, name, 2, turns);
    let (Some(second), Some(first)) = (passes.pop(), passes.pop()) else {
        panic!(rt; "no pass")
    };
    passes.clear();
    (lock, first, second, passes)
}

/// Puts a pass into a list with room for it.
fn put(rt: &impl Abort, passes: &mut Vec<Entrant>, pass: Entrant)
    ensures { passes.new.items ≡ passes.old.items ++ pass ∷ [] }
{
    let Ok(()) = passes.push(pass) else {
        panic!(rt; "no room")
    };
}

/// Closes a lock with its two passes.
fn close_pair(
    rt: &impl Abort,
    lock: Shared,
    first: Entrant,
    second: Entrant,
    mut room: Vec<Entrant>,
) -> Tally
    requires passes { IsOutside lock first × IsOutside lock second }
    requires room { room.items ≡ [] }
{
    put(rt, &mut room, first);
    put(rt, &mut room, second);
    lock.close(room).ok().expect(rt, "it closes")
}

/// `add_and_look` with each pass in its own thread, each for the number that the other adds.
fn add_and_look_in_both<R: Abort + Threads + Wait + Clock + Sync>(
    rt: &R,
    lock: &Shared,
    first: Entrant,
    second: Entrant,
    times: u32,
    tries: u32,
) -> ((Entrant, bool), (Entrant, bool))
    requires { IsOutside lock.now first × IsOutside lock.now second }
    ensures { IsOutside lock.now result.0.0 × IsOutside lock.now result.1.0 }
{
    let (first, second) = join(
        rt,
        move || -> Result<(Entrant, bool), LockError>
            requires { IsOutside lock.now first }
            ensures { IfOk result (λ r. IsOutside lock.entry.now r.0) }
        { add_and_look(rt, lock, first, 1, 2, times, tries) },
        move || -> Result<(Entrant, bool), LockError>
            requires { IsOutside lock.now second }
            ensures { IfOk result (λ r. IsOutside lock.entry.now r.0) }
        { add_and_look(rt, lock, second, 2, 1, times, tries) },
    );
    let (Some(first), Some(second)) = (first.ok(), second.ok()) else {
        panic!(rt; "a turn was refused")
    };
    (first, second)
}

/// Two threads enter a thousand times each and add their number: closing gives 2,000 entries, 1,000 of each.
#[test]
fn two_threads_add_a_thousand_each(rt: HostRuntime) {
    let (lock, first, second, room) = pair(&rt, rt.alloc(), 7, 1000);
    let ((first, _), (second, _)) = add_and_look_in_both(&rt, &lock, first, second, 1000, 0);
    let tally = close_pair(&rt, lock, first, second, room);
    assert!(rt; tally.numbers.len() == 2000 && tally.count(1) == 1000 && tally.count(2) == 1000);
}

/// Two threads each add an entry, and enter again until they read the other's: both read it.
#[test]
fn each_of_two_threads_reads_the_others_entry(rt: HostRuntime) {
    let (lock, first, second, _) = pair(&rt, rt.alloc(), 7, 20_000);
    let ((_, first_reads), (_, second_reads)) = add_and_look_in_both(
        &rt, &lock, first, second, 1, TRIES,
    );
    assert!(rt; first_reads && second_reads);
}

/// Rests inside, and then adds a number.
fn add_late<R: Clock>(rt: &R, lock: &Shared, mut pass: Entrant, mut tally: Tally, number: u64)
    requires inside { IsInside lock.now pass }
    requires tally { tally.numbers.items ≡ (opening_of lock.now).numbers.items ++ filter_map (λ t. t.entry) (seen pass) }
{
    thread::sleep(rt, Duration::from_millis(20));
    let added = tally.add(number);
    leave(lock, &mut pass, tally, added);
}

/// Rests inside with one pass, while the other waits in a second thread; whether the other then reads the number.
fn wait_for_a_number<R: Threads + Wait + Clock + Sync>(
    rt: &R,
    lock: &Shared,
    mut first: Entrant,
    mut second: Entrant,
) -> Result<bool, LockError>
    requires { IsOutside lock.now first × IsOutside lock.now second }
{
    let tally = lock.enter(rt, &mut first)?;
    let ((), found) = join(
        rt,
        move ||
            requires inside { IsInside lock.now first }
            requires tally { tally.numbers.items ≡ (opening_of lock.now).numbers.items ++ filter_map (λ t. t.entry) (seen first) }
        { add_late(rt, lock, first, tally, 5) },
        move || -> Result<bool, LockError>
            requires { IsOutside lock.now second }
        { has(rt, lock, &mut second, 5) },
    );
    found
}

#[test]
fn a_pass_waits_while_another_rests_inside(rt: HostRuntime) {
    let (lock, first, second, _) = pair(&rt, rt.alloc(), 7, 1);
    assert!(rt; wait_for_a_number(&rt, &lock, first, second) == Ok(true));
}

/// 0 passes, 1,025 passes and 0 turns: bad count, and the state comes back.
#[test]
fn counts_out_of_range_hand_the_state_back(rt: HostRuntime) {
    for (passes, turns) in &[(0, 1), (MAX_PASSES + 1, 1), (1, 0)] {
        let mut tally = Tally::with_room(&rt, rt.alloc(), 1);
        tally.add(5);
        let refused = TurnLock::new(rt.alloc(), 7, tally, *passes, *turns).err();
        let Some(NewError::BadCount(tally)) = refused else {
            panic!(rt; "{passes} passes of {turns} turns")
        };
        assert!(rt; tally.count(5) == 1);
    }
}

#[test]
fn a_lock_with_the_most_passes_and_turns_closes(rt: HostRuntime) {
    let (lock, passes) = made(&rt, rt.alloc(), 7, MAX_PASSES, u32::MAX);
    assert!(rt; passes.len() == 1024);
    assert!(rt; lock.close(passes).is_ok());
}

/// Adds a number three times.
fn add_thrice<R: Wait>(rt: &R, lock: &Shared, pass: &mut Entrant) -> [Result<(), LockError>; 3]
    requires { IsOutside lock.now pass.old }
    ensures { IsOutside lock.now pass.new }
{
    let once = add(rt, lock, pass, 1);
    let twice = add(rt, lock, pass, 1);
    [once, twice, add(rt, lock, pass, 1)]
}

/// Two turns: the third entry finds the pass spent.
#[test]
fn a_pass_is_spent_after_its_turns(rt: HostRuntime) {
    let (lock, mut first, second, room) = pair(&rt, rt.alloc(), 7, 2);
    let answers = add_thrice(&rt, &lock, &mut first);
    assert!(rt; answers == [Ok(()), Ok(()), Err(LockError::PassSpent)]);
    let tally = close_pair(&rt, lock, first, second, room);
    assert!(rt; tally.count(1) == 2);
}

/// A pass of another lock, in `enter` and in `close`: foreign pass.
#[test]
#[tactic(auto, unfolding(turn_lock::specs::Passes::IsOutside))]
fn a_pass_of_another_lock_is_refused(rt: HostRuntime) {
    let (lock, first, second, mut passes) = pair(&rt, rt.alloc(), 7, 2);
    let (_other, mut foreign, _, _) = pair(&rt, rt.alloc(), 8, 2);
    let refused = lock.enter(&rt, &mut foreign).err();
    assert!(rt; refused == Some(LockError::ForeignPass));
    put(&rt, &mut passes, first);
    put(&rt, &mut passes, foreign);
    let Err(refused) = lock.close(passes) else {
        panic!(rt; "a pass is foreign")
    };
    assert!(rt; refused.cause == CloseError::ForeignPass && refused.passes.len() == 2);
}

/// Closing with one pass of two: missing pass, lock and pass come back; with both: the state.
#[test]
fn a_lock_does_not_close_without_a_pass(rt: HostRuntime) {
    let (lock, mut first, second, mut passes) = pair(&rt, rt.alloc(), 7, 2);
    let Ok(()) = add(&rt, &lock, &mut first, 5) else {
        panic!(rt; "a turn was refused")
    };
    put(&rt, &mut passes, first);
    let Err(
        CloseRefused {
            lock,
            mut passes,
            cause,
        },
    ) = lock.close(passes)
    else {
        panic!(rt; "a pass is missing")
    };
    assert!(rt; cause == CloseError::MissingPass && passes.len() == 1);
    put(&rt, &mut passes, second);
    let tally = lock.close(passes).ok().expect(&rt, "both passes are there");
    assert!(rt; tally.count(5) == 1);
}
