//! One question to another node: the node makes the message, and the link sends it. Each function calls the link at most once.
ghost use Rattle.std.specs.Prelude.{◌≡◌, [], ◌∷◌, IfOk, IfErr};
ghost use Rattle.locked_node.specs.Passes.{Fits, Refuses};
ghost use Rattle.peer_core.specs.Acts.{Makes};
ghost use Rattle.peer_core.specs.Asking.{Applied, Asked, Pinged};
ghost use Rattle.peer_core.specs.Exchanges.{GoesOver, Sent};

use crate::errors::LinkError;
use crate::hearing::{Heard, expect_ack, expect_joined, expect_verdict};
use crate::links::Link;
use change_core::Address;
use hash_ring::PointHash;
use locked_node::{LockedNode, NodePass};
use message_core::Message;
use std::alloc::Global;
use std::sync::Wait;
use turn_lock::LockError;

/// How a node asks its peers: over a link, which waits by the runtime, with memory from the allocator. Only this module
/// reaches the link.
#[derive(Drop)]
pub(crate) struct Peers<'p, R, L> {
    pub(crate) rt: &'p R,
    pub(crate) alloc: Global,
    link: &'p mut L,
}

impl<'p, R: Wait, L: Link> Peers<'p, R, L> {
    /// Joins a runtime, an allocator and a link.
    pub(crate) fn new(rt: &'p R, alloc: Global, link: &'p mut L) -> Self
        ensures same { result.link.ghost_name ≡ link.entry.ghost_name }
        ensures link { result.link.now ≡ link.old }
    {
        Peers { rt, alloc, link }
    }

    /// Sends a message to an address and waits for the answer. The message is used up, so none is sent twice.
    fn send(&mut self, to: Address, message: Message) -> Result<Message, LinkError>
        ensures came { L.may_answer to message result }
        ensures sent { GoesOver L.went to message self.old.link.now self.new.link.now }
        ensures same { self.new.link.ghost_name ≡ self.old.link.ghost_name }
    {
        self.link.call(self.rt, self.alloc, to, &message)
    }
}

/// Pings a target. Returns its Ack, or that there is none. If the lock refuses the pass, nothing is sent.
pub(crate) fn ping<R: Wait, H: PointHash, L: Link>(
    node: &LockedNode<H>,
    pass: &mut NodePass<H>,
    peers: &mut Peers<'_, R, L>,
    target: Address,
) -> Result<Heard, LockError>
    requires { Fits node.now pass.old }
    ensures pinged { IfOk result (λ heard. Makes node.now (Pinged L.may_answer target heard) pass.old pass.new) }
    ensures sent { Sent L.went node.now [] pass.old pass.new peers.old.link peers.new.link }
    ensures refused { IfErr result (λ e. (pass.new ≡ pass.old) × Refuses node.now pass.old e) }
{
    let made = node.ping_to(peers.rt, pass, target)?;
    let Ok(message) = made else {
        return Ok(Heard::OutOfMemory);
    };
    let answer = peers.send(target, message);
    Ok(expect_ack(answer, target))
}

/// Asks a helper to ping a target. Returns its report on the target, or that there is none.
pub(crate) fn send_ping_req<R: Wait, H: PointHash, L: Link>(
    node: &LockedNode<H>,
    pass: &mut NodePass<H>,
    peers: &mut Peers<'_, R, L>,
    helper: Address,
    target: Address,
) -> Result<Heard, LockError>
    requires { Fits node.now pass.old }
    ensures asked { IfOk result (λ heard. Makes node.now (Asked L.may_answer helper target heard) pass.old pass.new) }
    ensures sent { Sent L.went node.now [] pass.old pass.new peers.old.link peers.new.link }
    ensures refused { IfErr result (λ e. (pass.new ≡ pass.old) × Refuses node.now pass.old e) }
{
    let made = node.ping_req_to(peers.rt, pass, helper, target)?;
    let Ok(message) = made else {
        return Ok(Heard::OutOfMemory);
    };
    let answer = peers.send(helper, message);
    Ok(expect_verdict(answer, target))
}

/// Asks a host to admit the node. Returns its Joined, or that there is none.
pub(crate) fn send_join<R: Wait, H: PointHash, L: Link>(
    node: &LockedNode<H>,
    pass: &mut NodePass<H>,
    peers: &mut Peers<'_, R, L>,
    host: Address,
) -> Result<Heard, LockError>
    requires { Fits node.now pass.old }
    ensures applied { IfOk result (λ heard. Makes node.now (Applied L.may_answer host heard) pass.old pass.new) }
    ensures sent { Sent L.went node.now (host ∷ []) pass.old pass.new peers.old.link peers.new.link }
    ensures refused { IfErr result (λ e. (pass.new ≡ pass.old) × Refuses node.now pass.old e) }
{
    let made = node.join_message(peers.rt, pass)?;
    let Ok(message) = made else {
        return Ok(Heard::OutOfMemory);
    };
    let answer = peers.send(host, message);
    Ok(expect_joined(answer))
}
