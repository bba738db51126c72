//! The value behind the one pointer of a handle: a box, or nothing. Nodes and views have a slot each, since a type that
//! crosses to C may have no type parameter.
ghost use Rattle.std.specs.Prelude.{◌≡◌, Option, Some, None, IsSome};
ghost use Rattle.ringpop_c.specs.Owned.{HeldNode, HeldView, node_coded, view_coded};

use hash_ring::Sha256Hash;
use node_core::{NodeState, View};
use std::alloc::Global;
use std::marker::Model;

/// A node on the heap.
#[derive(Drop)]
pub struct BoxedNode {
    pub inner: NodeState<Sha256Hash>,
}

/// A view on the heap.
#[derive(Drop)]
pub struct BoxedView {
    pub inner: View<Sha256Hash>,
}

/// A slot for a boxed node. Dropping it leaks the box: `into_box` takes it out first.
#[repr(C)]
#[derive(Drop)]
pub struct NodeSlot {
    ptr: *mut u8,
    alloc: Global,
    pub ghost value: { Option HeldNode } by { node_coded },
}

impl Model for NodeSlot {
    ghost use Rattle.ringpop_c.specs.Owned.{node_row, slot_owns};

    ghost also_owns = { λ s. slot_owns node_row s.alloc s.ptr s.value };
}

// SAFETY: it owns nothing, or a box of a node, and both may go to another thread.
unsafe impl Send for NodeSlot {}

impl NodeSlot {
    /// The slot of a box.
    pub(crate) fn from_box(node: Box<BoxedNode>) -> NodeSlot
        ensures { result.value ≡ Some node.value }
    {
        let (ptr, alloc) = Box::into_raw_with_allocator(node);
        NodeSlot {
            ptr: ptr as *mut u8,
            alloc,
        }
    }

    /// The box of a full slot.
    pub(crate) fn into_box(self) -> Box<BoxedNode>
        requires { IsSome self.value }
        ensures { self.value ≡ Some result.value }
    {
        let NodeSlot { ptr, alloc } = self;
        unsafe { Box::from_raw(alloc, ptr as *mut BoxedNode) }
    }

    /// The empty slot.
    pub(crate) fn empty(alloc: Global) -> NodeSlot
        ensures { result.value ≡ None }
    {
        NodeSlot {
            ptr: std::ptr::null_mut(),
            alloc,
        }
    }
}

/// A slot for a boxed view. Dropping it leaks the box: `into_box` takes it out first.
#[repr(C)]
#[derive(Drop)]
pub struct ViewSlot {
    ptr: *mut u8,
    alloc: Global,
    pub ghost value: { Option HeldView } by { view_coded },
}

impl Model for ViewSlot {
    ghost use Rattle.ringpop_c.specs.Owned.{slot_owns, view_row};

    ghost also_owns = { λ s. slot_owns view_row s.alloc s.ptr s.value };
}

// SAFETY: it owns nothing, or a box of a view, and both may go to another thread.
unsafe impl Send for ViewSlot {}

impl ViewSlot {
    /// The slot of a box.
    pub(crate) fn from_box(view: Box<BoxedView>) -> ViewSlot
        ensures { result.value ≡ Some view.value }
    {
        let (ptr, alloc) = Box::into_raw_with_allocator(view);
        ViewSlot {
            ptr: ptr as *mut u8,
            alloc,
        }
    }

    /// The box of a full slot.
    pub(crate) fn into_box(self) -> Box<BoxedView>
        requires { IsSome self.value }
        ensures { self.value ≡ Some result.value }
    {
        let ViewSlot { ptr, alloc } = self;
        unsafe { Box::from_raw(alloc, ptr as *mut BoxedView) }
    }

    /// The empty slot.
    pub(crate) fn empty(alloc: Global) -> ViewSlot
        ensures { result.value ≡ None }
    {
        ViewSlot {
            ptr: std::ptr::null_mut(),
            alloc,
        }
    }
}
