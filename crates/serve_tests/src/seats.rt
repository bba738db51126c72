//! A seat at a server's node, by which a service calls it.
use crate::plans::{entry, local};
use crate::shared::{System, check_again, turn};
use crate::starts::start_node;
use change_core::{Address, Change, Status};
use cli_net::Echo;
use hash_ring::Sha256Hash;
use peer_core::{LeaveError, RejoinError};
use server::Seat;

/// The port of the node.
const PORT: u16 = 29_187;

/// Whether a node names this owner of a key, and has this entry as its only member.
fn is_seen<R: System>(
    seat: &mut Seat<R, Sha256Hash, Echo>,
    owner: Option<Address>,
    entry: Change,
) -> bool {
    let owned = seat.owner(b"k");
    let Ok(members) = seat.members() else {
        return false;
    };
    owned == Ok(owner) && members.as_slice() == [entry].as_slice()
}

/// Whether a node leaves, once, and owns nothing then.
fn leaves<R: System>(rt: &R, seat: &mut Seat<R, Sha256Hash, Echo>) -> bool {
    let (first, second) = (seat.leave(), seat.leave());
    let is_seen = is_seen(seat, None, entry(rt, PORT, 1, Status::Leave));
    let left = Ok(entry(rt, PORT, 1, Status::Leave));
    is_seen && first == left && second == Err(LeaveError::AlreadyLeft)
}

/// Whether a node that has left comes back, once, at its next incarnation, and owns the key again.
fn comes_back<R: System>(rt: &R, seat: &mut Seat<R, Sha256Hash, Echo>) -> bool {
    let (first, second) = (seat.rejoin(), seat.rejoin());
    let own = Some(local(rt, PORT));
    let is_seen = is_seen(seat, own, entry(rt, PORT, 2, Status::Alive));
    let back = Ok(entry(rt, PORT, 2, Status::Alive));
    is_seen && first == back && second == Err(RejoinError::NotLeft)
}

/// Whether a node that has just started is seen, leaves, and comes back.
fn is_called<R: System>(rt: &R, seat: &mut Seat<R, Sha256Hash, Echo>) -> bool {
    let new = entry(rt, PORT, 1, Status::Alive);
    is_seen(seat, Some(local(rt, PORT)), new) && leaves(rt, seat) && comes_back(rt, seat)
}

/// Whether this is so by a seat at a server, which is started and stopped.
fn is_called_at_a_server(rt: &impl System) -> Option<bool> {
    let (running, handle) = start_node(rt, PORT)?;
    let is_called = match running.seat(rt, rt.alloc(), handle) {
        Ok(mut seat) => is_called(rt, &mut seat),
        Err(_) => false,
    };
    running.stop(rt);
    Some(is_called)
}

/// A seat at a server at 127.0.0.1:29187 names the node as the owner of `k`, and its entry, `alive` at 1, as the only member. It leaves,
/// which gives `leave` at 1, and a second time is refused; then no member owns `k`. It comes back, which gives `alive` at 2, and a second time
/// is refused; then it owns `k` again.
#[test]
fn a_seat_leaves_and_comes_back(rt: HostRuntime) {
    let _turn = turn(&rt);
    check_again!(&rt, is_called_at_a_server(&rt) == Some(true));
}
