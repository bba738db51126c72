//! The making and the freeing of a node.
ghost use Rattle.std.specs.Prelude.{◌≡◌, None, IfOk, IfErr, cond, is_some};
ghost use Rattle.change_core.specs.Address.{address_of};
ghost use Rattle.node_core.specs.Configs.{IsConfig};
ghost use Rattle.ringpop_c.specs.Creation.{Begins, CanBegin, IsCreationFault, IsConfigFault, alone, created};
ghost use Rattle.ringpop_c.specs.Codes.{code_number};
ghost use Rattle.ringpop_c.specs.Handles.{node_in};

use crate::codes::Code;
use crate::configs::{RingpopConfig, read_config};
use crate::handles::RingpopNode;
use crate::slots::BoxedNode;
use change_core::{Address, Incarnation, Moment, Weight};
use hash_ring::Sha256Hash;
use node_core::{Config, NodeState};
use std::alloc::Global;

/// A node that is alone in its cluster, on the heap.
fn make(
    alloc: Global,
    config: Config,
    own: Address,
    incarnation: Incarnation,
    seed: u64,
    moment: Moment,
) -> Result<Box<BoxedNode>, Code>
    ensures created { IfOk result (λ b. b.value ≡ alone config own incarnation seed moment) }
    ensures good { IfOk result (λ b. IsConfig config) }
    ensures refusal { IfErr result (λ fault. IsConfigFault config fault) }
{
    match NodeState::new(alloc, config, Sha256Hash, own, incarnation, seed, moment) {
        Ok(inner) => match Box::new(alloc, BoxedNode { inner }) {
            Ok(boxed) => Ok(boxed),
            Err(_) => Err(Code::Memory),
        },
        Err(error) => Err(Code::of_error(error)),
    }
}

/// The node that these arguments ask for, on the heap.
fn begin(
    alloc: Global,
    config: &RingpopConfig,
    ip: u32,
    port: u16,
    incarnation: u64,
    seed: u64,
    moment: u64,
) -> Result<Box<BoxedNode>, Code>
    ensures created { IfOk result (λ b. b.value ≡ created config.now (address_of ip port) incarnation seed moment) }
    ensures good { IfOk result (λ b. CanBegin config.now port incarnation moment) }
    ensures refusal { IfErr result (λ fault. IsCreationFault config.now port incarnation moment fault) }
{
    let Some(own) = Address::new(ip, port) else {
        return Err(Code::BadAddress);
    };
    let Some(incarnation) = Incarnation::new(incarnation) else {
        return Err(Code::BadNumber);
    };
    let Some(moment) = Moment::new(moment) else {
        return Err(Code::BadNumber);
    };
    let Some(weight) = Weight::new(config.weight) else {
        return Err(Code::BadWeight);
    };
    let config = read_config(config, weight);
    make(alloc, config, own, incarnation, seed, moment)
}

/// Makes a node, alone in its cluster, into an empty handle. `seed`, any number, decides its random choices; `moment`, in
/// milliseconds, is the first that it knows.
///
/// # Errors
///
/// The handle is then unchanged.
///
/// - `HasNode`: the handle is full.
/// - `BadAddress`: the port is 0.
/// - `BadNumber`: the incarnation or the moment is over 2^53 - 1.
/// - `BadWeight`: the weight is not one of 1 to 8.
/// - `BadReplicas`, `BadMaxMembers`, `BadSuspectMs`, `BadFaultyMs`, `BadHelpers`, `BadPiggyback`, `BadPerMessage`: the first field
///   of the configuration that is out of its range, in this order.
/// - `Memory`: out of memory.
#[unsafe(no_mangle)]
pub extern "C" fn ringpop_node_new(
    alloc: Global,
    node: &mut RingpopNode,
    config: &RingpopConfig,
    ip: u32,
    port: u16,
    incarnation: u64,
    seed: u64,
    moment: u64,
) -> u32
    ensures step { Begins config.now (address_of ip port) port incarnation seed moment (node_in node.old) result (node_in node.new) }
{
    if node.is_full() {
        return Code::HasNode.number();
    }
    match begin(alloc, config, ip, port, incarnation, seed, moment) {
        Ok(boxed) => {
            node.put(boxed);
            Code::Done.number()
        }
        Err(fault) => fault.number(),
    }
}

/// Frees the node, and leaves the handle empty.
///
/// # Errors
///
/// - `NoNode`: the handle was empty.
#[unsafe(no_mangle)]
pub extern "C" fn ringpop_node_free(alloc: Global, node: &mut RingpopNode) -> u32
    ensures empty { (node_in node.new) ≡ None }
    ensures done { result ≡ cond (is_some (node_in node.old)) (code_number Code.Done) (code_number Code.NoNode) }
{
    match node.take(alloc) {
        Some(boxed) => {
            drop(boxed);
            Code::Done.number()
        }
        None => Code::NoNode.number(),
    }
}
