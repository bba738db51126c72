//! Calls with one failing allocation: out of memory is returned if one failed and only then, a link or a handler is
//! asked no more often than else, and the next call succeeds.
ghost use Rattle.locked_node.specs.Passes.{Fits};

use crate::fakes::Mood;
use crate::forwarding::{Asked, Came, HANDLED, HERE, REPLIED, THERE, try_request};
use crate::rounds::{End, Ended, OUT_OF_MEMORY, join_hosts, round_in};
use crate::shared::{
    ALONE, AMONG_ONE, AMONG_THREE, Caller, Host, Shared, Start, check_refused, let_go, made, met,
    share,
};
use change_core::Digest;
use peer_core::ClusterError;

#[test]
fn a_node_is_shared_or_refused_memory(rt: HostRuntime) {
    let (shared, passes) = share(&rt, &ALONE, 2);
    let closed = shared.close(passes).ok().expect(&rt, "it closes");
    drop(closed);
}

/// The digest of what a node holds.
fn digest_of(rt: &impl Host, shared: &Shared, pass: &mut Caller) -> Digest
    requires { Fits shared.now pass.old }
    ensures { Fits shared.now pass.new }
{
    made!(rt, shared.digest(rt, pass).ok().expect(rt, "a turn"))
}

/// Checks how a round ends. If it runs out of memory it has altered nothing, and the next one, which first brings its
/// probe to an end, ends so.
fn check_round(rt: &impl Host, shared: &Shared, pass: &mut Caller, mood: Mood, wanted: Ended)
    requires { Fits shared.now pass.old }
{
    let (wanted_end, wanted_calls, _) = wanted;
    let before = digest_of(rt, shared, pass);
    let first = round_in(rt, shared, pass, (mood, mood));
    let (end, calls, _) = first;
    if end == OUT_OF_MEMORY {
        check_refused(rt);
        assert!(rt; calls <= wanted_calls && digest_of(rt, shared, pass) == before);
        let (next_end, _, _) = round_in(rt, shared, pass, (mood, mood));
        assert!(rt; next_end == wanted_end);
        return;
    }
    assert!(rt; first == wanted);
}

/// The same of a node that starts so.
fn check_first_round(rt: &impl Host, start: &Start, mood: Mood, wanted: Ended) {
    let (shared, mut pass) = met(rt, start);
    check_round(rt, &shared, &mut pass, mood, wanted);
    let_go(shared, pass);
}

#[test]
fn a_round_that_is_refused_memory_alters_nothing(rt: HostRuntime) {
    check_first_round(&rt, &ALONE, Mood::Willing, (Ok(End::Idle), 0, 0));
    check_first_round(&rt, &AMONG_ONE, Mood::Willing, (Ok(End::Reached), 1, 0));
    check_first_round(&rt, &AMONG_ONE, Mood::Broken, (Ok(End::Suspected), 1, 1));
    let inconclusive = (Ok(End::Inconclusive), 3, 3);
    check_first_round(&rt, &AMONG_THREE, Mood::Broken, inconclusive);
}

/// Checks that a join asks both hosts; if it runs out of memory that it has altered nothing, and that the next one
/// does.
fn check_join(rt: &impl Host, shared: &Shared, pass: &mut Caller)
    requires { Fits shared.now pass.old }
{
    let before = digest_of(rt, shared, pass);
    let mut came = join_hosts(rt, shared, pass, true, Mood::Willing);
    let (joined, calls) = came;
    if joined == Err(ClusterError::Memory) {
        check_refused(rt);
        assert!(rt; calls <= 2 && digest_of(rt, shared, pass) == before);
        came = join_hosts(rt, shared, pass, true, Mood::Willing);
    }
    assert!(rt; came == (Ok(2), 2));
}

#[test]
fn a_join_that_is_refused_memory_alters_nothing(rt: HostRuntime) {
    let (shared, mut pass) = met(&rt, &ALONE);
    check_join(&rt, &shared, &mut pass);
    let_go(shared, pass);
}

/// Checks the result of a request, and that it alters nothing. If it runs out of memory it was sent or handled no more
/// than else, and the next one has that result.
fn check_request(rt: &impl Host, shared: &Shared, pass: &mut Caller, asked: &Asked, wanted: Came)
    requires { Fits shared.now pass.old }
{
    let (_, wanted_sent, _, wanted_handled) = wanted;
    let before = digest_of(rt, shared, pass);
    let mut came = try_request(rt, shared, pass, asked);
    let (answer, sent, _, handled) = came;
    if answer == Err(ClusterError::Memory) {
        check_refused(rt);
        assert!(rt; sent <= wanted_sent && handled <= wanted_handled);
        came = try_request(rt, shared, pass, asked);
    }
    assert!(rt; came == wanted && digest_of(rt, shared, pass) == before);
}

/// The same of a node that starts as it says.
fn check_first_request(rt: &impl Host, asked: &Asked, wanted: Came) {
    let (shared, mut pass) = met(rt, &asked.start);
    check_request(rt, &shared, &mut pass, asked, wanted);
    let_go(shared, pass);
}

#[test]
fn a_request_that_is_refused_memory_asks_once(rt: HostRuntime) {
    check_first_request(&rt, &THERE, REPLIED);
    check_first_request(&rt, &HERE, HANDLED);
}
