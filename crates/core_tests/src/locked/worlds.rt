//! Two shared nodes that tell each other by messages, each with two passes, and are closed; and what their passes read meanwhile.
ghost use Rattle.std.specs.List.{All};
ghost use Rattle.locked_node.specs.Passes.{Fits};

use crate::locked::nodes::{Caller, Shared, pair};
use crate::shared::{A, B, Ip, Waiter, address, check_refused, made, moment};
use laws::{monotonic_reads, shared_world};
use locked_node::{Entry, Message, Received, Status, SumHash};
use std::process::Abort;

/// Reads a member by a pass.
fn read(rt: &impl Waiter, shared: &Shared, pass: &mut Caller, of: Ip) -> Option<Entry>
    requires { Fits shared.now pass.old }
    ensures { Fits shared.now pass.new }
{
    let held = shared.member(rt, pass, address(rt, of));
    held.ok().expect(rt, "a turn")
}

/// The Join of a node. If an allocation failed it is made once more.
fn join_message(rt: &impl Waiter, shared: &Shared, pass: &mut Caller) -> Message
    requires { Fits shared.now pass.old }
    ensures { Fits shared.now pass.new }
{
    made!(rt, shared.join_message(rt, pass).ok().expect(rt, "a turn"))
}

/// The result of receiving a message. If an allocation failed it is received once more.
fn receive(rt: &impl Waiter, shared: &Shared, pass: &mut Caller, message: &Message) -> Received
    requires { Fits shared.now pass.old }
    ensures { Fits shared.now pass.new }
{
    let now = moment(rt, 1);
    let received = match shared.receive(rt, pass, message, now) {
        Ok(Received::Stopped(_) | Received::NoAnswer(_)) => {
            check_refused(rt);
            shared.receive(rt, pass, message, now)
        }
        received => received,
    };
    received.ok().expect(rt, "a turn")
}

/// The answer to a message.
fn answer(rt: &impl Waiter, shared: &Shared, pass: &mut Caller, message: &Message) -> Message
    requires { Fits shared.now pass.old }
    ensures { Fits shared.now pass.new }
{
    let Received::Answer(_, answer) = receive(rt, shared, pass, message) else {
        panic!(rt; "an answer")
    };
    answer
}

/// Closes a node, and checks that it holds both as alive.
fn close(rt: &impl Abort, shared: Shared, first: Caller, second: Caller, mut passes: Vec<Caller>)
    requires first { Fits shared first }
    requires second { Fits shared second }
    requires none { All (Fits shared) passes.items }
{
    passes.push(first).ok().expect(rt, "room");
    passes.push(second).ok().expect(rt, "room");
    let closed = shared.close(passes).ok().expect(rt, "both passes");
    for of in [A, B] {
        let held = closed.member(address(rt, of));
        assert!(rt; matches!(held, Some(entry) if entry.status == Status::Alive));
    }
}

#[test]
fn shared_nodes_join_by_messages_and_read_forward(rt: HostRuntime) {
    shared_world::<SumHash>();
    monotonic_reads::<SumHash>();
    let (one, mut a, mut b, ones) = pair(&rt, A, 20);
    let (two, mut c, mut d, twos) = pair(&rt, B, 20);
    let asked = join_message(&rt, &one, &mut a);
    let joined = answer(&rt, &two, &mut c, &asked);
    assert!(&rt; read(&rt, &one, &mut b, B) == None);
    drop(receive(&rt, &one, &mut b, &joined));
    let after = read(&rt, &one, &mut a, B);
    assert!(&rt; after != None && read(&rt, &one, &mut b, B) == after);
    assert!(&rt; read(&rt, &two, &mut d, A) != None);
    close(&rt, one, a, b, ones);
    close(&rt, two, c, d, twos);
}
