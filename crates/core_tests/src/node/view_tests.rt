//! Views of a node.
use crate::cases::{LOSES_ONE, MEETS_TWO};
use crate::node::played::check_calls;
use crate::shared::{A, B, C, Host, address, made, node, view};
use hash_ring::SumHash;
use node_core::View;

/// Checks a view of three members.
pub(crate) fn check_view(rt: &impl Host, view: &View<SumHash>) {
    let (a, b, c) = (address(rt, A), address(rt, B), address(rt, C));
    let owners = (view.own(), view.owner(b"zzzz0"), view.owner(b"zzzz1"));
    assert!(rt; owners == (a, Some(a), Some(b)));
    let named = made!(rt, view.owners(b"zzzz1", 9));
    assert!(rt; named.as_slice() == [b, c, a].as_slice());
}

/// By sum, A, B, C: the owners of `zzzz0` and `zzzz1` are A and B, then B is faulty: A and C. A view made before still says A and B. A
/// view names the owners of `zzzz1`: B, C, A.
#[test]
fn a_view_stays_as_it_was(rt: HostRuntime) {
    let mut node = node(&rt, A, 7);
    check_calls(&rt, &mut node, MEETS_TWO);
    let before = view(&rt, &mut node);
    check_calls(&rt, &mut node, LOSES_ONE);
    check_view(&rt, &before);
}

/// A second view while nothing changed names the same and takes no memory: it is not asked for again where an allocation failed.
#[test]
fn a_view_of_the_same_ring_takes_no_memory(rt: HostRuntime) {
    let mut node = node(&rt, A, 7);
    check_calls(&rt, &mut node, MEETS_TWO);
    let first = view(&rt, &mut node);
    check_view(&rt, &first);
    drop(first);
    let again = node.view().ok().expect(&rt, "the same view");
    check_view(&rt, &again);
}
