//! The probes of a node.
ghost use Rattle.std.specs.Prelude.{◌≡◌, ◌≢◌, ◌≤◌, ◌<◌, Some, None, Ok};
ghost use Rattle.change_core.specs.Address.{address_of};
ghost use Rattle.change_core.specs.Numbers.{greatest_number};
ghost use Rattle.ringpop_c.specs.Codes.{code_number};
ghost use Rattle.ringpop_c.specs.Handles.{node_in};
ghost use Rattle.ringpop_c.specs.Probing.{AcksBy, HearsHelper, LosesBy, ProbesBy, TellsLoss, TellsOutcome, TellsProbe, TellsRunning, TellsWaiting, running_in, said_of};
ghost use Rattle.detector_core.specs.declared.asked.Said.{Said};
ghost use Rattle.detector_core.specs.Picks.{running_of};
ghost use Rattle.ringpop_c.specs.Steps.{Does, Looks};

use crate::codes::Code;
use crate::entries::{RingpopEntry, tell_suspicion};
use crate::handles::{RingpopNode, with_handle};
use change_core::{Address, Moment};
use detector_core::{Probe, Running, Said};
use node_core::{NodeError, NodeLost, NodeOutcome};
use std::alloc::Global;

/// Writes the number and the target of a probe that started, or returns the code of the error.
fn tell_probe(
    begun: Result<Option<Probe>, NodeError>,
    number: &mut u64,
    ip: &mut u32,
    port: &mut u16,
) -> Code
    ensures told { TellsProbe begun number.new ip.new port.new result }
    ensures unchanged { result ≢ Code.Done → (number.new ≡ number.old) × (ip.new ≡ ip.old) × (port.new ≡ port.old) }
{
    match begun {
        Ok(Some(pick)) => {
            *number = pick.number;
            *ip = pick.target.ip();
            *port = pick.target.port();
            Code::Done
        }
        Ok(None) => Code::Nothing,
        Err(error) => Code::of_error(error),
    }
}

/// Starts a probe of the next member in turn: writes its number, and the address to ping (SWIM, DSN 2002, section 4.3).
/// `Nothing`: no member is pingable.
///
/// # Errors
///
/// - `NoNode`: the handle is empty.
/// - `Busy`: a probe is running.
/// - `Spent`: no probe number is left.
/// - `Memory`: out of memory; the node is unchanged.
#[unsafe(no_mangle)]
pub extern "C" fn ringpop_node_probe(
    alloc: Global,
    node: &mut RingpopNode,
    number: &mut u64,
    ip: &mut u32,
    port: &mut u16,
) -> u32
    ensures step { Does (ProbesBy number.new ip.new port.new) (node_in node.old) result (node_in node.new) }
    ensures unchanged { result ≢ code_number Code.Done
        → (number.new ≡ number.old) × (ip.new ≡ ip.old) × (port.new ≡ port.old) }
{
    with_handle!(alloc, node, |n| tell_probe(n.probe(), number, ip, port))
}

/// Ends the running probe, whose target answered.
///
/// # Errors
///
/// - `NoNode`: the handle is empty.
/// - `StaleProbe`: the probe of this number is not the running one.
#[unsafe(no_mangle)]
pub extern "C" fn ringpop_node_acked(alloc: Global, node: &mut RingpopNode, number: u64) -> u32
    ensures step { Does (AcksBy number) (node_in node.old) result (node_in node.new) }
{
    with_handle!(alloc, node, |n| Code::of_result(n.acked(number)))
}

/// Writes the entry of the target of a probe that was lost, if it is suspect by that, or returns the code of the error.
fn tell_loss(loss: Result<NodeLost, NodeError>, entry: &mut RingpopEntry) -> Code
    ensures told { TellsLoss loss (record { before = entry.old; after = entry.new }) result }
    ensures unchanged { result ≢ Code.Suspected → entry.new ≡ entry.old }
{
    match &loss {
        Ok(NodeLost::Ask(_)) => Code::Done,
        Ok(NodeLost::Suspect(change)) => tell_suspicion(change, entry),
        Err(error) => Code::of_error(*error),
    }
}

/// Reports that the target of the running probe did not answer by this moment, in milliseconds (SWIM, DSN 2002, section
/// 3.1). `Done`: helpers have to be asked, one after another, as `ringpop_node_waiting` names them. `Suspected`: there
/// are none; the target's entry is written if it was alive.
///
/// # Errors
///
/// - `BadNumber`: the moment is over 2^53 - 1.
/// - `NoNode`: the handle is empty.
/// - `StaleProbe`: the probe of this number is not the running one, or its helpers were asked already.
/// - `Memory`: out of memory; the node is unchanged.
#[unsafe(no_mangle)]
pub extern "C" fn ringpop_node_lost(
    alloc: Global,
    node: &mut RingpopNode,
    number: u64,
    moment: u64,
    entry: &mut RingpopEntry,
) -> u32
    ensures number { greatest_number < moment → result ≡ code_number Code.BadNumber }
    ensures refused { greatest_number < moment → node_in node.new ≡ node_in node.old }
    ensures step { moment ≤ greatest_number
        → Does (LosesBy number moment (record { before = entry.old; after = entry.new })) (node_in node.old) result (node_in node.new) }
    ensures unchanged { result ≢ code_number Code.Suspected → entry.new ≡ entry.old }
{
    let Some(moment) = Moment::new(moment) else {
        return Code::BadNumber.number();
    };
    with_handle!(alloc, node, |n| tell_loss(n.lost(number, moment), entry))
}

/// Writes the number and the target of a probe that runs.
fn tell_running(running: Option<Running>, number: &mut u64, ip: &mut u32, port: &mut u16) -> Code
    ensures told { TellsRunning running number.new ip.new port.new result }
    ensures unchanged { result ≢ Code.Done → (number.new ≡ number.old) × (ip.new ≡ ip.old) × (port.new ≡ port.old) }
{
    match running {
        Some(begun) => {
            *number = begun.number;
            *ip = begun.target.ip();
            *port = begun.target.port();
            Code::Done
        }
        None => Code::Nothing,
    }
}

/// The number and the target of the running probe. `Nothing`: no probe runs.
///
/// # Errors
///
/// - `NoNode`: the handle is empty.
#[unsafe(no_mangle)]
pub extern "C" fn ringpop_node_running(
    alloc: Global,
    node: &mut RingpopNode,
    number: &mut u64,
    ip: &mut u32,
    port: &mut u16,
) -> u32
    ensures told { Looks (λ n answer. TellsRunning (running_of n.probing) number.new ip.new port.new answer) (node_in node.old) result }
    ensures same { node_in node.new ≡ node_in node.old }
    ensures unchanged { result ≢ code_number Code.Done
        → (number.new ≡ number.old) × (ip.new ≡ ip.old) × (port.new ≡ port.old) }
{
    with_handle!(alloc, node, |n| tell_running(n.running(), number, ip, port))
}

/// Writes the number of a probe that runs, and the helper that it waits for.
fn tell_waiting(running: Option<Running>, number: &mut u64, ip: &mut u32, port: &mut u16) -> Code
    ensures told { TellsWaiting running number.new ip.new port.new result }
    ensures unchanged { result ≢ Code.Done → (ip.new ≡ ip.old) × (port.new ≡ port.old) }
    ensures no_probe { running ≡ None → number.new ≡ number.old }
{
    let Some(running) = running else {
        return Code::Nothing;
    };
    *number = running.number;
    match running.waiting {
        Some(helper) => {
            *ip = helper.ip();
            *port = helper.port();
            Code::Done
        }
        None => Code::Nothing,
    }
}

/// Writes the number of the running probe, and the helper of least address that was asked and has not answered.
/// `Nothing`: no probe runs, or it waits for no helper; in the second case its number is written.
///
/// # Errors
///
/// - `NoNode`: the handle is empty.
#[unsafe(no_mangle)]
pub extern "C" fn ringpop_node_waiting(
    alloc: Global,
    node: &mut RingpopNode,
    number: &mut u64,
    ip: &mut u32,
    port: &mut u16,
) -> u32
    ensures told { Looks (λ n answer. TellsWaiting (running_of n.probing) number.new ip.new port.new answer) (node_in node.old) result }
    ensures same { node_in node.new ≡ node_in node.old }
    ensures unchanged { result ≢ code_number Code.Done → (ip.new ≡ ip.old) × (port.new ≡ port.old) }
    ensures no_probe { running_in (node_in node.old) ≡ None → number.new ≡ number.old }
{
    with_handle!(alloc, node, |n| tell_waiting(n.running(), number, ip, port))
}

/// The word of a helper, by its number.
fn read_word(word: u8) -> Option<Said>
    ensures { result ≡ said_of word }
{
    if word == 0 {
        Some(Said::Reached)
    } else if word == 1 {
        Some(Said::NotReached)
    } else if word == 2 {
        Some(Said::Failed)
    } else {
        None
    }
}

/// Writes the outcome of a helper's report: the target's entry, if it is suspect by that, or returns the code of the
/// error.
fn tell_outcome(outcome: Result<NodeOutcome, NodeError>, entry: &mut RingpopEntry) -> Code
    ensures told { TellsOutcome outcome (record { before = entry.old; after = entry.new }) result }
    ensures unchanged { result ≢ Code.Suspected → entry.new ≡ entry.old }
{
    match outcome {
        Ok(NodeOutcome::Waiting) => Code::Waiting,
        Ok(NodeOutcome::Reached) => Code::Done,
        Ok(NodeOutcome::Suspect(change)) => tell_suspicion(&change, entry),
        Ok(NodeOutcome::Inconclusive) => Code::Inconclusive,
        Err(error) => Code::of_error(error),
    }
}

/// Processes a helper's report on the target of the running probe at this moment, in milliseconds: 0, the helper
/// reached it; 1, it did not; 2, the helper failed. `Done`: the target was reached. `Suspected`: every helper has
/// answered, and one did not reach it; its entry is written if it was alive. `Waiting`: another helper has not
/// answered. `Inconclusive`: every helper failed.
///
/// # Errors
///
/// - `BadAddress`: the port of the helper is 0.
/// - `BadWord`: the word is not one of 0 to 2.
/// - `BadNumber`: the moment is over 2^53 - 1.
/// - `NoNode`: the handle is empty.
/// - `StaleProbe`: the probe of this number is not the running one.
/// - `NotAsked`: the helper was not asked, or has answered.
/// - `Memory`: out of memory; the node is unchanged.
#[unsafe(no_mangle)]
pub extern "C" fn ringpop_node_helper_said(
    alloc: Global,
    node: &mut RingpopNode,
    number: u64,
    ip: u32,
    port: u16,
    word: u8,
    moment: u64,
    entry: &mut RingpopEntry,
) -> u32
    ensures address { port ≡ 0 → result ≡ code_number Code.BadAddress }
    ensures address_stays { port ≡ 0 → node_in node.new ≡ node_in node.old }
    ensures word { 0 < port → said_of word ≡ None → result ≡ code_number Code.BadWord }
    ensures word_stays { said_of word ≡ None → node_in node.new ≡ node_in node.old }
    ensures number { (said : Said) → 0 < port → said_of word ≡ Some said → greatest_number < moment → result ≡ code_number Code.BadNumber }
    ensures moment_stays { greatest_number < moment → node_in node.new ≡ node_in node.old }
    ensures step { (said : Said) → 0 < port → said_of word ≡ Some said → moment ≤ greatest_number
        → Does (HearsHelper number (address_of ip port) said moment (record { before = entry.old; after = entry.new })) (node_in node.old) result (node_in node.new) }
    ensures unchanged { result ≢ code_number Code.Suspected → entry.new ≡ entry.old }
{
    let Some(helper) = Address::new(ip, port) else {
        return Code::BadAddress.number();
    };
    let Some(said) = read_word(word) else {
        return Code::BadWord.number();
    };
    let Some(moment) = Moment::new(moment) else {
        return Code::BadNumber.number();
    };
    with_handle!(alloc, node, |n| {
        tell_outcome(n.helper_said(number, helper, said, moment), entry)
    })
}
