use agent_core::{MAX_WAITING, OWNER_SHARE, Refusal, Shares};
use change_core::Address;
use std::alloc::AllocError;
use std::process::Abort;

/// Returns one of a few addresses.
fn owner(rt: &impl Abort, port: u16) -> Address {
    Address::new(1, port).expect(rt, "an address")
}

/// Returns how many of these requests for an owner find a place.
fn take(shares: &mut Shares, owner: Address, requests: u32) -> usize {
    let mut taken = 0usize;
    for _ in 0..requests {
        if shares.take(owner) {
            taken = taken.saturating_add(1);
        }
    }
    taken
}

#[test]
fn spares_the_others(rt: HostRuntime) {
    let made = again!(&rt, AllocError, Shares::new(rt.alloc()));
    let mut shares = made.ok().expect(&rt, "places");
    let (a, b, c, d) = (owner(&rt, 1), owner(&rt, 2), owner(&rt, 3), owner(&rt, 4));
    // One takes half of the places, and each of two others its share.
    assert!(rt; take(&mut shares, a, 500) == MAX_WAITING / 2);
    assert!(rt; take(&mut shares, b, 500) == OWNER_SHARE);
    assert!(rt; take(&mut shares, c, 500) == OWNER_SHARE);
    assert!(rt; shares.len() == MAX_WAITING && !shares.take(d));
    shares.give_back(a);
    // (the place is free, and not for an owner that has its share)
    assert!(rt; !shares.take(a) && !shares.take(b) && shares.take(d));
    for _ in 0..500u32 {
        shares.give_back(a);
        shares.give_back(b);
    }
    assert!(rt; shares.len() == OWNER_SHARE + 1);
}

#[test]
fn refuses_for_an_owner(rt: HostRuntime) {
    let refusal = Refusal::OwnerBusy(owner(&rt, 1));
    let line = again!(&rt, AllocError, refusal.line(rt.alloc()));
    let line = line.ok().expect(&rt, "a line");
    assert!(rt; refusal.status() == 503);
    assert!(rt; line.starts_with("too many requests wait for the owner of this key: "));
}
