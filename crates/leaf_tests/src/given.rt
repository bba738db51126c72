//! What the tests of several crates are given.
ghost use Rattle.std.specs.Prelude.{◌≡◌, ◌+◌};
ghost use Rattle.change_core.specs.Address.{address_of};

use change_core::{Address, Change, Digest, Incarnation, Sourced, Status, Weight};
use std::env::Env;
use std::process::Abort;

pub(crate) const A: &str = "10.0.0.1:1";

pub(crate) const B: &str = "10.0.0.2:1";

pub(crate) const C: &str = "10.0.0.3:1";

/// Checks that an allocation is to fail, as the environment says if `scripts/fail-alloc` runs a test: else a call was out of memory
/// though there was enough. It takes no memory.
pub(crate) fn check_refused(rt: &(impl Env + Abort)) {
    let mut number = [0u8; 32];
    assert!(rt; rt.var("FAIL_ALLOC", &mut number).is_ok());
}

pub(crate) fn address(rt: &impl Abort, text: &str) -> Address {
    Address::parse(text).ok().expect(rt, "an address")
}

/// The member 10.0.0.`number`:1.
pub(crate) fn node(rt: &impl Abort, number: u8) -> Address
    ensures { result ≡ address_of (167772160 + number) 1 }
{
    Address::new(0x0a00_0000 + u32::from(number), 1).expect(rt, "an address")
}

pub(crate) fn incarnation(rt: &impl Abort, number: u64) -> Incarnation {
    Incarnation::new(number).expect(rt, "an incarnation")
}

pub(crate) fn weight(rt: &impl Abort, number: u8) -> Weight {
    Weight::new(number).expect(rt, "a weight")
}

pub(crate) fn digest(rt: &impl Abort, digits: &str) -> Digest {
    Digest::parse(digits).expect(rt, "a digest")
}

/// A change as the tables write it: address, incarnation, status, weight.
pub(crate) fn change(rt: &impl Abort, text: &str, number: u64, status: Status, heavy: u8) -> Change
    ensures { result.status ≡ status }
{
    Change {
        address: address(rt, text),
        incarnation: incarnation(rt, number),
        status,
        weight: weight(rt, heavy),
    }
}

/// A change with a node as its source.
pub(crate) fn said_by(rt: &impl Abort, change: Change, source: Address, number: u64) -> Sourced {
    Sourced {
        change,
        source,
        source_incarnation: incarnation(rt, number),
    }
}

/// Whether this text was written.
pub(crate) fn is_text<E: Drop>(written: Result<String, E>, text: &str) -> bool {
    match written {
        Ok(written) => written.as_str() == text,
        Err(_) => false,
    }
}
