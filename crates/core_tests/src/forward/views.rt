//! The nodes' views and the keys that the tests route by. If an allocation fails the call is made again.
use crate::shared::{A, B, C, Host, Ip, config, configured, hear, made, view};
use change_core::Status;
use hash_ring::{PointHash, SumHash};
use node_core::View;
use wire_json::{Keys, Text};

/// The view of a node with these members besides itself.
pub(crate) fn view_of<H: PointHash>(
    rt: &impl Host,
    hash: H,
    own: Ip,
    members: &[(Ip, Status)],
) -> View<H> {
    let mut node = configured(rt, &config(4096), hash, own, 1);
    for (ip, status) in members {
        hear(rt, &mut node, (*ip, 1, *status), 0);
    }
    view(rt, &mut node)
}

/// The view of a node that has left, and knows no other.
fn left(rt: &impl Host) -> View<SumHash> {
    let mut node = configured(rt, &config(4096), SumHash, A, 1);
    made!(rt, node.leave());
    view(rt, &mut node)
}

/// The views of three nodes and of one that has left, by the sum of bytes.
#[derive(Drop)]
pub(crate) struct Views {
    /// Of A, where B is alive and C serves.
    pub(crate) three: View<SumHash>,
    /// Of A, where B is faulty.
    pub(crate) two: View<SumHash>,
    /// Of C, where B is faulty.
    pub(crate) at_c: View<SumHash>,
    /// Of A, which has left.
    pub(crate) none: View<SumHash>,
}

/// The views, the first with C of this status.
pub(crate) fn views_of(rt: &impl Host, status: Status) -> Views {
    let (faulty, alive) = (Status::Faulty, Status::Alive);
    Views {
        three: view_of(rt, SumHash, A, &[(B, alive), (C, status)]),
        two: view_of(rt, SumHash, A, &[(B, faulty), (C, alive)]),
        at_c: view_of(rt, SumHash, C, &[(B, faulty), (A, alive)]),
        none: left(rt),
    }
}

pub(crate) fn text(rt: &impl Host, text: &str) -> Text {
    made!(rt, Text::new(rt.alloc(), text))
}

/// These keys, at least one.
pub(crate) fn keys(rt: &impl Host, texts: &[&str]) -> Keys {
    let first = texts.first().copied().unwrap_or("");
    let mut keys = made!(rt, Keys::new(rt.alloc(), text(rt, first)));
    for one in texts.iter().skip(1) {
        made!(rt, keys.push(text(rt, one)));
    }
    keys
}
