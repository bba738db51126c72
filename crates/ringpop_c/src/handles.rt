//! The handles that C holds, and the one way in which an export reaches the value in a handle.
ghost use Rattle.std.specs.Prelude.{◌≡◌, is_some, false};

use crate::slots::{BoxedNode, BoxedView, NodeSlot, ViewSlot};
use std::alloc::Global;

/// The handle of a node: all zero before the node is made and after it is freed.
#[repr(C)]
#[derive(Drop)]
pub struct RingpopNode {
    slot: NodeSlot,
    full: bool,
    ghost agrees: { full ≡ is_some slot.value },
}

impl RingpopNode {
    ghost use Rattle.std.specs.Prelude.{Some, None, IfSome, IsNone};
    ghost use Rattle.ringpop_c.specs.Handles.{node_in};

    /// Returns whether it holds a node.
    pub(crate) fn is_full(&self) -> bool
        ensures { result ≡ is_some (node_in self.now) }
    {
        self.full
    }

    /// The node, which leaves the handle empty.
    pub(crate) fn take(&mut self, alloc: Global) -> Option<Box<BoxedNode>>
        ensures some { IfSome result (λ b. node_in self.old ≡ Some b.value) }
        ensures none { IsNone result → node_in self.old ≡ None }
        ensures empty { node_in self.new ≡ None }
    {
        if !self.full {
            return None;
        }
        let empty = RingpopNode {
            slot: NodeSlot::empty(alloc),
            full: false,
        };
        let RingpopNode { slot, full: _ } = std::mem::replace(self, empty);
        Some(slot.into_box())
    }

    /// Puts a node into an empty handle.
    pub(crate) fn put(&mut self, node: Box<BoxedNode>)
        requires { node_in self.old ≡ None }
        ensures { node_in self.new ≡ Some node.value }
    {
        *self = RingpopNode {
            slot: NodeSlot::from_box(node),
            full: true,
        };
    }
}

/// The handle of a view: all zero before the view is made and after it is freed.
#[repr(C)]
#[derive(Drop)]
pub struct RingpopView {
    slot: ViewSlot,
    full: bool,
    ghost agrees: { full ≡ is_some slot.value },
}

impl RingpopView {
    ghost use Rattle.std.specs.Prelude.{Some, None, IfSome, IsNone};
    ghost use Rattle.ringpop_c.specs.Handles.{view_in};

    /// Returns whether it holds a view.
    pub(crate) fn is_full(&self) -> bool
        ensures { result ≡ is_some (view_in self.now) }
    {
        self.full
    }

    /// The view, which leaves the handle empty.
    pub(crate) fn take(&mut self, alloc: Global) -> Option<Box<BoxedView>>
        ensures some { IfSome result (λ b. view_in self.old ≡ Some b.value) }
        ensures none { IsNone result → view_in self.old ≡ None }
        ensures empty { view_in self.new ≡ None }
    {
        if !self.full {
            return None;
        }
        let empty = RingpopView {
            slot: ViewSlot::empty(alloc),
            full: false,
        };
        let RingpopView { slot, full: _ } = std::mem::replace(self, empty);
        Some(slot.into_box())
    }

    /// Puts a view into an empty handle.
    pub(crate) fn put(&mut self, view: Box<BoxedView>)
        requires { view_in self.old ≡ None }
        ensures { view_in self.new ≡ Some view.value }
    {
        *self = RingpopView {
            slot: ViewSlot::from_box(view),
            full: true,
        };
    }
}

/// Takes out the value in a handle, evaluates an expression over it, puts it back, and returns the number of the code of
/// the expression; `NoNode` if the handle is empty. It is a macro, since a closure that is not called would leave nothing
/// known of the out pointers that it captures.
macro_rules! with_handle {
    ($alloc:ident, $handle:ident, |$value:ident| $code:expr) => {
        match $handle.take($alloc) {
            Some(mut held) => {
                let $value = &mut held.inner;
                let code: Code = $code;
                $handle.put(held);
                code.number()
            }
            None => Code::NoNode.number(),
        }
    };
}

pub(crate) use with_handle;

/// Takes a type whose values may go to another thread.
fn assert_send<T: Send>() {}

/// Checks that a handle of either kind may go to another thread, one call at a time. A function, since only a call asks for the
/// proof of `Send`, and a constant may not call.
fn assert_handles_are_send() {
    assert_send::<RingpopNode>();
    assert_send::<RingpopView>();
}
