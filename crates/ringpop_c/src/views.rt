//! The views of a node: its ring when the view was made, in which another thread looks keys up.
ghost use Rattle.std.specs.Prelude.{◌≡◌, ◌≢◌, Some, None, IfOk, IfErr, is_some, cond};
ghost use Rattle.node_core.specs.Viewing.{view_of};
ghost use Rattle.ringpop_c.specs.Codes.{code_number};
ghost use Rattle.ringpop_c.specs.Handles.{node_in, view_in};
ghost use Rattle.ringpop_c.specs.Owners.{ViewOwnersBy};
ghost use Rattle.ringpop_c.specs.Steps.{TellsAddress};
ghost use Rattle.ringpop_c.specs.Views.{LooksView, Views, view_owner};

use crate::codes::Code;
use crate::handles::{RingpopNode, RingpopView, with_handle};
use crate::lookups::tell_address;
use crate::owners::{RingpopAddress, tell_owners};
use crate::slots::BoxedView;
use hash_ring::Sha256Hash;
use node_core::NodeState;
use std::alloc::Global;

/// The view of a node, on the heap.
fn make(alloc: Global, node: &mut NodeState<Sha256Hash>) -> Result<Box<BoxedView>, Code>
    ensures same { node.new ≡ node.old }
    ensures seen { IfOk result (λ b. b.value.inner ≡ view_of node.old.node) }
    ensures refusal { IfErr result (λ fault. fault ≡ Code.Memory) }
{
    match node.view() {
        Ok(inner) => match Box::new(alloc, BoxedView { inner }) {
            Ok(boxed) => Ok(boxed),
            Err(_) => Err(Code::Memory),
        },
        Err(_) => Err(Code::Memory),
    }
}

/// Makes the view of a node into an empty handle. It names the owners of keys as the node does now, whatever changes
/// afterwards. Views between two changes of the ring share one copy of it.
///
/// # Errors
///
/// The view's handle is then unchanged.
///
/// - `HasNode`: the view's handle is full.
/// - `NoNode`: the node's handle is empty.
/// - `Memory`: out of memory.
#[unsafe(no_mangle)]
pub extern "C" fn ringpop_view_new(
    alloc: Global,
    view: &mut RingpopView,
    node: &mut RingpopNode,
) -> u32
    ensures made { Views (node_in node.old) (view_in view.old) result (view_in view.new) }
    ensures same { node_in node.new ≡ node_in node.old }
{
    if view.is_full() {
        return Code::HasNode.number();
    }
    with_handle!(alloc, node, |n| match make(alloc, n) {
        Ok(boxed) => {
            view.put(boxed);
            Code::Done
        }
        Err(code) => code,
    })
}

/// Frees the view, and leaves the handle empty.
///
/// # Errors
///
/// - `NoNode`: the handle was empty.
#[unsafe(no_mangle)]
pub extern "C" fn ringpop_view_free(alloc: Global, view: &mut RingpopView) -> u32
    ensures empty { (view_in view.new) ≡ None }
    ensures done { result ≡ cond (is_some (view_in view.old)) (code_number Code.Done) (code_number Code.NoNode) }
{
    match view.take(alloc) {
        Some(boxed) => {
            drop(boxed);
            Code::Done.number()
        }
        None => Code::NoNode.number(),
    }
}

/// The address of the node whose view it is.
///
/// # Errors
///
/// - `NoNode`: the handle is empty.
#[unsafe(no_mangle)]
pub extern "C" fn ringpop_view_own(
    alloc: Global,
    view: &mut RingpopView,
    ip: &mut u32,
    port: &mut u16,
) -> u32
    ensures own { LooksView (λ v answer. TellsAddress (Some v.own) ip.new port.new answer) (view_in view.old) result }
    ensures same { view_in view.new ≡ view_in view.old }
    ensures unchanged { result ≢ code_number Code.Done → (ip.new ≡ ip.old) × (port.new ≡ port.old) }
{
    with_handle!(alloc, view, |v| tell_address(Some(v.own()), ip, port))
}

/// The owner of a key. `Nothing`: no member served.
///
/// # Errors
///
/// - `NoNode`: the handle is empty.
#[unsafe(no_mangle)]
pub extern "C" fn ringpop_view_owner(
    alloc: Global,
    view: &mut RingpopView,
    key: &[u8],
    ip: &mut u32,
    port: &mut u16,
) -> u32
    ensures owner { LooksView (λ v answer. TellsAddress (view_owner v key.now) ip.new port.new answer) (view_in view.old) result }
    ensures same { view_in view.new ≡ view_in view.old }
    ensures unchanged { result ≢ code_number Code.Done → (ip.new ≡ ip.old) × (port.new ≡ port.old) }
{
    with_handle!(alloc, view, |v| tell_address(v.owner(key), ip, port))
}

/// Writes the first `wanted` owners of a key, the owner first, or all servers if there are fewer.
///
/// # Errors
///
/// - `NoNode`: the handle is empty.
/// - `Memory`: out of memory; never if `wanted` is 0 or the view has no server.
/// - `ShortBuffer`: the array is shorter than the list; `count` is the number of owners.
#[unsafe(no_mangle)]
pub extern "C" fn ringpop_view_owners(
    alloc: Global,
    view: &mut RingpopView,
    key: &[u8],
    wanted: usize,
    out: &mut [RingpopAddress],
    count: &mut usize,
) -> u32
    ensures owners { LooksView (ViewOwnersBy key.now wanted (record { before = out.old; after = out.new; count = count.new })) (view_in view.old) result }
    ensures same { view_in view.new ≡ view_in view.old }
    ensures unchanged { result ≢ code_number Code.Done → result ≢ code_number Code.ShortBuffer
        → (out.new ≡ out.old) × (count.new ≡ count.old) }
{
    with_handle!(alloc, view, |v| {
        tell_owners(v.owners(key, wanted), out, count)
    })
}
