//! Members, updates and messages of 10.0.0.1:1 and its like. If an allocation fails the call is made again.
use crate::shared::{Host, made};
use change_core::{Address, Change, Digest, Incarnation, Moment, Sourced, Status, Weight};
use std::process::Abort;
use wire_json::{Changes, Content, Keys, Message, News, Text};

/// The member 10.0.0.`number`:1.
pub(crate) fn member(rt: &impl Abort, number: u8) -> Address {
    Address::new(0x0a00_0000 + u32::from(number), 1).expect(rt, "an address")
}

/// The number of such a member, and 0 of another.
pub(crate) fn number_of(address: Address) -> u32 {
    if address.port() == 1 {
        address.ip().wrapping_sub(0x0a00_0000)
    } else {
        0
    }
}

pub(crate) fn moment(rt: &impl Abort, number: u64) -> Moment {
    Moment::new(number).expect(rt, "a moment")
}

/// A change with weight 1, said by the member itself.
pub(crate) fn news(rt: &impl Abort, number: u8, incarnation: u64, status: Status) -> Sourced {
    let address = member(rt, number);
    let incarnation = Incarnation::new(incarnation).expect(rt, "an incarnation");
    let change = Change {
        address,
        incarnation,
        status,
        weight: Weight::new(1).expect(rt, "a weight"),
    };
    Sourced {
        change,
        source: address,
        source_incarnation: incarnation,
    }
}

/// The digest of no members, and these changes.
pub(crate) fn content(rt: &impl Host, given: &[Sourced]) -> News {
    News {
        checksum: Digest::new([0; 32]),
        changes: made!(rt, Changes::from_slice(rt.alloc(), given)),
    }
}

/// A message of 10.0.0.`number`:1 at 1.
pub(crate) fn message(rt: &impl Abort, number: u8, content: Content) -> Message {
    Message {
        source: member(rt, number),
        source_incarnation: Incarnation::new(1).expect(rt, "an incarnation"),
        content,
    }
}

/// A ping of 10.0.0.`number`:1 with this change.
pub(crate) fn ping(rt: &impl Host, number: u8, told: Sourced) -> Message {
    message(rt, number, Content::Ping(content(rt, &[told])))
}

pub(crate) fn text(rt: &impl Host, words: &str) -> Text {
    made!(rt, Text::new(rt.alloc(), words))
}

/// Two keys.
pub(crate) fn keys(rt: &impl Host, both: (&str, &str)) -> Keys {
    let (first, second) = both;
    let mut keys = made!(rt, Keys::new(rt.alloc(), text(rt, first)));
    made!(rt, keys.push(text(rt, second)));
    keys
}

/// A request for two keys by 10.0.0.2:1, with this body.
pub(crate) fn request(rt: &impl Host, both: (&str, &str), body: &str) -> Message {
    message(rt, 2, Content::Forward(keys(rt, both), text(rt, body)))
}
