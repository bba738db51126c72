//! How long a call of a link may take, to the millisecond.
use crate::clocks::{Manner, NEVER, Peer, SILENT, Town, saying};
use crate::shared::{Host, check_refused};
use crate::talks::PING_REQ;
use change_core::Address;
use peer_core::{Link, LinkError};
use transport::TcpLink;
use wire_json::decode;

/// The answer of a peer.
const ANSWER: &str =
    "{\"kind\":\"not-owner\",\"source\":\"10.0.0.1:1\",\"sourceIncarnationNumber\":1}\n";

/// The result of a call: the error, how often the link has failed, and the millisecond at which it was over.
type Called = (Option<LinkError>, u64, u64);

/// Calls a peer of this manner with the message of this line over a link with the standard limits; None if out of
/// memory.
fn call(rt: &impl Host, line: &str, manner: Manner) -> Option<Called> {
    let to = Address::new(0x0a00_0001, 1)?;
    let message = decode(rt.alloc(), line.as_bytes()).ok()?;
    let peer = Peer::new(manner);
    let mut link = TcpLink::new(Town { rt, peer: &peer });
    let fault = link.call(rt, rt.alloc(), to, &message).err();
    Some((fault, link.failures(), peer.now.get()))
}

/// Checks the result of a call, again if out of memory.
fn check(rt: &impl Host, line: &str, manner: Manner, wanted: Called) {
    let mut called = call(rt, line, manner);
    if matches!(called, None | Some((Some(LinkError::Memory), _, _))) {
        check_refused(rt);
        called = call(rt, line, manner);
    }
    let (connects, takes, by) = (manner.connects, manner.takes, manner.by);
    assert!(rt; called == Some(wanted), "{connects}, {takes}, {by}: {line}");
}

/// Checks that the answer of a peer counts if it is whole a millisecond before the limit, and that those peers are left
/// at the limit that are never connected to, take nothing, are unresponsive, slow in one way or another, and done just
/// then.
fn check_limit(rt: &impl Host, line: &str, limit: u64) {
    let answering = saying(ANSWER, limit.saturating_sub(1));
    check(rt, line, answering, (None, 0, answering.by));
    let slow = like! { Manner:
        SILENT { connects: NEVER };
        SILENT { takes: NEVER };
        SILENT;
        SILENT { connects: limit / 5, takes: limit / 50 };
        answering { connects: limit / 5, by: limit.saturating_mul(2) };
        answering { by: limit };
    };
    for &manner in &slow {
        check(rt, line, manner, (Some(LinkError::Io), 1, limit));
    }
}

/// A ping, and a join.
const PING: &str =
    "{\"changes\":[],\"checksum\":\"e3b0c44298fc1c149afbf4c8996fb92427ae41e4649b934ca495991b7852b855\",\"kind\":\"ping\",\"source\":\"10.0.0.9:1\",\"sourceIncarnationNumber\":1}";

const JOIN: &str =
    "{\"changes\":[],\"checksum\":\"e3b0c44298fc1c149afbf4c8996fb92427ae41e4649b934ca495991b7852b855\",\"kind\":\"join\",\"source\":\"10.0.0.9:1\",\"sourceIncarnationNumber\":1}";

/// A link with the standard limits, and a ping (500), a ping-req (1,250) and a join (5,000). A peer whose answer is whole a millisecond
/// before the limit is heard at that moment. One whose answer is whole at the limit, that is never connected to, takes nothing, takes a
/// byte each fiftieth of the limit, says nothing, or sends slowly for twice the limit, is left at the limit, with one failure.
#[test]
fn a_call_has_one_limit_for_all_that_it_waits_for(rt: HostRuntime) {
    check_limit(&rt, PING, 500);
    check_limit(&rt, PING_REQ, 1_250);
    check_limit(&rt, JOIN, 5_000);
}
