use agent_core::laws::tellings;
use agent_core::{Ring, Telling};
use change_core::{Address, Change, Digest, Incarnation, Moment, Status, Weight};
use std::alloc::{AllocError, Global};
use std::env::Env;
use std::process::Abort;

/// Returns the ring of one server at 10.0.0.1, with this port.
fn ring(rt: &impl Abort, alloc: Global, port: u8) -> Result<Ring, AllocError> {
    let server = Change {
        address: Address::new(0x0a00_0001, u16::from(port)).expect(rt, "an address"),
        incarnation: Incarnation::new(0).expect(rt, "an incarnation"),
        status: Status::Alive,
        weight: Weight::new(1).expect(rt, "a weight"),
    };
    Ok(Ring {
        digest: Digest::new([port; 32]),
        servers: Vec::from_slice(alloc, &[server])?,
    })
}

/// Notes the ring of one server with this port.
fn note(rt: &(impl Abort + Env), alloc: Global, telling: &mut Telling, port: u8) {
    let made = again!(rt, AllocError, ring(rt, alloc, port));
    telling.note(made.ok().expect(rt, "a ring"));
}

/// Returns whether the notice is of a server with this port, and after it of one with that port.
fn tells(rt: &(impl Abort + Env), alloc: Global, telling: &Telling, now: u8, before: u8) -> bool {
    let own = Address::new(0x0a00_0001, 7).expect(rt, "an address");
    let text = again!(rt, AllocError, telling.notice(alloc, own, 100));
    let Some(text) = text.ok().expect(rt, "a notice") else {
        return false;
    };
    let wanted = again!(
        rt,
        AllocError,
        format!(in alloc;
            "{{\"own\":\"10.0.0.1:7\",\"replicas\":100,\"now\":{{\"ring\":\"{}\",\"serving\":[{{\"address\":\"10.0.0.1:{now}\",\"weight\":1}}]}},\"before\":{{\"ring\":\"{}\",\"serving\":[{{\"address\":\"10.0.0.1:{before}\",\"weight\":1}}]}}}}\n",
            digits(rt, now),
            digits(rt, before)
        )
    );
    text.as_str() == wanted.ok().expect(rt, "a text").as_str()
}

/// Returns the digits of the digest of the ring with this port, 1 to 3.
fn digits(rt: &impl Abort, port: u8) -> &'static str {
    match port {
        1 => "0101010101010101010101010101010101010101010101010101010101010101",
        2 => "0202020202020202020202020202020202020202020202020202020202020202",
        3 => "0303030303030303030303030303030303030303030303030303030303030303",
        _ => None.expect(rt, "digits"),
    }
}

/// The moments at which notices fail one after the other, and the milliseconds until the next try.
const FAILURES: [(u64, u64); 7] = [
    (1_000, 250),
    (2_000, 500),
    (3_000, 1_000),
    (4_000, 2_000),
    (5_000, 4_000),
    (6_000, 8_000),
    (7_000, 8_000),
];

/// A ring is told once it is noted, and not again if the next one has its digest. After failures the next try comes 0.25, 0.5, 1, 2, 4, 8 and 8 seconds
/// later. A newer ring replaces one that was not told; one that comes back is told again. A telling in a hurry is due at once.
#[test]
fn tells_the_last_change(rt: HostRuntime) {
    tellings();
    let alloc = rt.alloc();
    let mut telling = Telling::new();
    let start = Moment::beginning();
    assert!(rt; telling.millis_left(start).is_none());
    note(&rt, alloc, &mut telling, 1);
    assert!(rt; telling.millis_left(start) == Some(0) && !tells(&rt, alloc, &telling, 1, 1));
    telling.take();
    note(&rt, alloc, &mut telling, 1);
    assert!(rt; telling.millis_left(start).is_none());
    note(&rt, alloc, &mut telling, 2);
    assert!(rt; tells(&rt, alloc, &telling, 2, 1));
    for (at, pause) in &FAILURES {
        let now = Moment::new(*at).expect(&rt, "a moment");
        telling.fail(now);
        assert!(rt; telling.millis_left(now) == Some(*pause), "{at}");
    }
    // A newer ring replaces the one that was not told, and waits as that would have.
    note(&rt, alloc, &mut telling, 3);
    assert!(rt; tells(&rt, alloc, &telling, 3, 1) && telling.millis_left(start) == Some(15_000));
    // In a hurry it is due now, and after the next failure the first pause comes again.
    telling.hurry();
    assert!(rt; tells(&rt, alloc, &telling, 3, 1) && telling.millis_left(start) == Some(0));
    telling.fail(start);
    assert!(rt; telling.millis_left(start) == Some(250));
    // The application may have taken a notice that failed, so the ring of before is told again.
    note(&rt, alloc, &mut telling, 1);
    assert!(rt; tells(&rt, alloc, &telling, 1, 1));
    telling.take();
    assert!(rt; telling.millis_left(start).is_none());
}
