//! What contracts do not cover: that the calls succeed, and that threads take turns. Worked examples, by one pass or by
//! several.
ghost use Rattle.std.specs.Prelude.{◌≡◌, []};
ghost use Rattle.std.specs.List.{All};
ghost use Rattle.change_core.specs.Address.{address_of};
ghost use Rattle.turn_lock.specs.Passes.{lock_name};
ghost use Rattle.locked_node.specs.Passes.{Fits};

use crate::cases::*;
use crate::locked::nodes::{Caller, Shared, alone, check, check_calls, hear, let_go, pair};
use crate::node::played::{self, begun};
use crate::node::tests::twenty;
use crate::node::view_tests::check_view;
use crate::shared::{A, B, F, Host, Ip, System, Waiter, address, change, made};
use locked_node::{CloseError, LockError, LockedNode, NewError, Status, SumHash, View};
use std::process::Abort;
use std::thread::join;

#[test]
fn a_pass_is_answered_as_by_the_node(rt: HostRuntime) {
    for case in &CASES {
        check(&rt, case);
    }
}

/// Members, their text, the digest and the owners are told if memory is available.
#[test]
fn says_what_it_holds(rt: HostRuntime) {
    check(&rt, &LOOKS_UP);
}

/// A view. If out of memory it is made again.
fn view(rt: &impl Waiter, shared: &Shared, pass: &mut Caller) -> View<SumHash>
    requires { Fits shared.now pass.old }
    ensures { Fits shared.now pass.new }
{
    made!(rt, shared.view(rt, pass).ok().expect(rt, "a turn"))
}

/// By sum, A, B, C: the owners of `zzzz0` and `zzzz1` are A and B, then B is faulty: A and C. A view made before still says A and B. A
/// view names the owners of `zzzz1`: B, C, A.
#[test]
fn a_view_answers_as_the_node_did(rt: HostRuntime) {
    let (shared, mut pass) = alone(&rt);
    check_calls(&rt, &shared, &mut pass, MEETS_TWO);
    let before = view(&rt, &shared, &mut pass);
    check_calls(&rt, &shared, &mut pass, LOSES_ONE);
    check_view(&rt, &before);
    let_go(shared, pass);
}

/// 0 passes, 1,025 passes and 0 turns: bad count, and the node comes back.
#[test]
fn counts_out_of_range_hand_the_node_back(rt: HostRuntime) {
    for (passes, turns) in [(0, 1), (1025, 1), (1, 0)] {
        let node = begun(&rt, &A_AT_7, SumHash);
        let Err(NewError::BadCount(node)) = LockedNode::new(rt.alloc(), node, passes, turns) else {
            panic!(&rt; "{passes} passes of {turns} turns")
        };
        assert!(&rt; node.own() == change(&rt, (A, 7, Status::Alive)));
    }
}

/// Two turns: the third call finds the pass spent.
#[test]
fn a_pass_is_spent_after_its_calls(rt: HostRuntime) {
    let (shared, mut first, mut second, _) = pair(&rt, A, 2);
    hear(&rt, &shared, &mut second, (B, 1, Status::Alive));
    assert!(&rt; shared.len(&rt, &mut first) == Ok(2));
    assert!(&rt; shared.len(&rt, &mut first) == Ok(2));
    assert!(&rt; shared.len(&rt, &mut first) == Err(LockError::PassSpent));
    drop(first);
    let_go(shared, second);
}

/// Checks that the node does not close while a pass is missing, and hands it back with the other.
fn close_too_soon(rt: &impl Abort, shared: Shared, passes: Vec<Caller>) -> (Shared, Vec<Caller>)
    requires { All (Fits shared) passes.items }
    ensures node { result.0 ≡ shared }
    ensures passes { result.1.items ≡ passes.items }
{
    let refused = shared.close(passes).err().expect(rt, "a pass is missing");
    assert!(rt; refused.cause == CloseError::MissingPass && refused.passes.len() == 1);
    (refused.node, refused.passes)
}

/// Of two passes the first takes (B,1,alive), and asks for B: alive at 1. Closing with one pass: missing pass, node and pass come back;
/// with both: the node that holds B.
#[test]
fn a_node_does_not_close_without_a_pass(rt: HostRuntime) {
    let (shared, mut first, second, mut passes) = pair(&rt, A, 9);
    check_calls(&rt, &shared, &mut first, HEARS_OF_B);
    passes.push(first).ok().expect(&rt, "room");
    let (shared, mut passes) = close_too_soon(&rt, shared, passes);
    passes.push(second).ok().expect(&rt, "room");
    let closed = shared.close(passes).ok().expect(&rt, "a node");
    let held = closed.member(address(&rt, B));
    assert!(&rt; matches!(held, Some(entry) if entry.status == Status::Alive));
}

/// What a pass is answered, and the pass.
type Counted = (Result<usize, LockError>, Caller);

fn len(rt: &impl Waiter, shared: &Shared, mut pass: Caller) -> Counted
    requires { Fits shared.now pass }
    ensures { Fits shared.now result.1 }
{
    let answer = shared.len(rt, &mut pass);
    (answer, pass)
}

/// The replies to two threads, and their passes.
fn len_by_two(
    rt: &impl System,
    shared: &Shared,
    first: Caller,
    second: Caller,
) -> (Counted, Counted)
    requires first { Fits shared.now first }
    requires second { Fits shared.now second }
    ensures first { Fits shared.now result.0.1 }
    ensures second { Fits shared.now result.1.1 }
{
    join(
        rt,
        move || -> Counted
            requires { Fits shared.now first }
            ensures { Fits shared.entry.now result.1 }
        { len(rt, shared, first) },
        move || -> Counted
            requires { Fits shared.now second }
            ensures { Fits shared.entry.now result.1 }
        { len(rt, shared, second) },
    )
}

/// A pass of 10.0.0.2:1.
fn foreign_pass(rt: &impl Host) -> Caller
    ensures { lock_name result ≡ address_of 167772162 1 }
{
    let (shared, pass, other, _) = pair(rt, B, 9);
    let_go(shared, other);
    pass
}

/// A list of both passes, in the room that they came in.
fn both(
    rt: &impl Abort,
    shared: &Shared,
    room: Vec<Caller>,
    first: Caller,
    second: Caller,
) -> Vec<Caller>
    requires room { room.items ≡ [] }
    requires first { Fits shared.now first }
    requires second { Fits shared.now second }
    ensures { All (Fits shared.now) result.items }
{
    let mut passes = room;
    passes.push(first).ok().expect(rt, "room");
    passes.push(second).ok().expect(rt, "room");
    passes
}

/// Closing with a pass of another node: foreign pass, and both passes come back.
#[test]
fn a_pass_of_another_node_is_refused(rt: HostRuntime) {
    let (shared, other, own, room) = pair(&rt, A, 9);
    drop(other);
    let foreign = foreign_pass(&rt);
    let (counted, refused) = len_by_two(&rt, &shared, own, foreign);
    assert!(&rt; counted.0 == Ok(1) && refused.0 == Err(LockError::ForeignPass));
    let passes = both(&rt, &shared, room, counted.1, refused.1);
    let open = shared.close(passes).err().expect(&rt, "a refusal");
    assert!(&rt; open.cause == CloseError::ForeignPass && open.passes.len() == 2);
}

/// Takes that a member is alive, and then some of the twenty changes.
fn hear_some(
    rt: &impl Waiter,
    shared: &Shared,
    mut pass: Caller,
    created: Ip,
    order: &[u8],
) -> Caller
    requires { Fits shared.now pass }
    ensures { Fits shared.now result }
{
    hear(rt, shared, &mut pass, (created, 7, Status::Alive));
    for i in order {
        hear(rt, shared, &mut pass, twenty(*i));
    }
    pass
}

/// Two threads take what there is to take, each in its own order.
fn hear_by_two(
    rt: &impl System,
    shared: &Shared,
    first: Caller,
    second: Caller,
    orders: (&[u8], &[u8]),
) -> (Caller, Caller)
    requires first { Fits shared.now first }
    requires second { Fits shared.now second }
    ensures first { Fits shared.now result.0 }
    ensures second { Fits shared.now result.1 }
{
    let (one, other) = orders;
    join(
        rt,
        move || -> Caller
            requires { Fits shared.now first }
            ensures { Fits shared.entry.now result }
        { hear_some(rt, shared, first, F, one) },
        move || -> Caller
            requires { Fits shared.now second }
            ensures { Fits shared.entry.now result }
        { hear_some(rt, shared, second, A, other) },
    )
}

/// Checks a node whose two threads take the twenty changes in these orders, and that both nodes are alive.
fn check_orders(rt: &impl System, own: Ip, orders: (&[u8], &[u8])) {
    let (shared, first, second, room) = pair(rt, own, 1000);
    let (first, second) = hear_by_two(rt, &shared, first, second, orders);
    let passes = both(rt, &shared, room, first, second);
    let mut node = shared.close(passes).ok().expect(rt, "it closes");
    played::check_calls(rt, &mut node, HEARD_TWENTY);
}

/// The same twenty, by two threads on each of two locked nodes.
#[test]
fn nodes_that_two_threads_share_agree(rt: HostRuntime) {
    let up = [1u8, 2, 3, 4, 5, 6, 7, 8, 9, 10];
    let down = [20u8, 19, 18, 17, 16, 15, 14, 13, 12, 11];
    let mixed = [11u8, 1, 12, 2, 13, 3, 14, 4, 15, 5];
    let rest = [20u8, 6, 19, 7, 18, 8, 17, 9, 16, 10];
    check_orders(&rt, A, (&up, &down));
    check_orders(&rt, F, (&mixed, &rest));
}
