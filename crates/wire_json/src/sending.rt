//! Members as they are sent to serde's writer, and the line that is written of them.
ghost use Rattle.std.specs.Prelude.{◌≡◌, ◌∷◌, [], ◌≤◌, Some, IfOk, OnOk, IsOkUnless, IsUtf8};
ghost use Rattle.change_core.specs.Address.{IsAddress, address_text};
ghost use Rattle.change_core.specs.Numbers.{greatest_number};
ghost use Rattle.serde.specs.Event.{Log};
ghost use Rattle.serde_json.specs.Data.{boolean, number, string, unsigned};
ghost use Rattle.serde_json.specs.Events.{SendsValue};
ghost use Rattle.serde_json.specs.Sent.{IsTextOf};
ghost use Rattle.wire_json.specs.Sending.{Sends};

use change_core::{Address, AddressText, Incarnation};
use message_core::{Field, WireError};
use serde::{Serialize, Serializer};
use std::alloc::Global;

/// Sends a field that is a text.
#[inline(always)]
#[tactic(auto, using(crate::proofs::Sent::text_sent))]
pub(crate) fn send_text<S: Serializer>(
    out: &mut S,
    field: Field,
    text: &str,
) -> Result<(), S::Error>
    ensures sent { OnOk result (Sends ((field, string text.now) ∷ []) (S.written out.old) (S.written out.new)) }
    ensures utf8 { IsUtf8 text.now }
{
    out.key(field.name())?;
    Ok(out.str(text)?)
}

/// Sends an element that is a text.
#[inline(always)]
pub(crate) fn send_element<S: Serializer>(out: &mut S, text: &str) -> Result<(), S::Error>
    ensures sent { OnOk result (SendsValue (string text.now) (S.written out.old) (S.written out.new)) }
    ensures utf8 { IsUtf8 text.now }
{
    out.str(text)
}

/// Sends a field that is the text of an address.
#[inline(always)]
pub(crate) fn send_address<S: Serializer>(
    out: &mut S,
    field: Field,
    address: Address,
) -> Result<(), S::Error>
    ensures sent { OnOk result (Sends ((field, string (address_text address)) ∷ [])
        (S.written out.old) (S.written out.new)) }
    ensures valid { IsAddress address }
{
    let text = AddressText::of(address);
    send_text(out, field, text.as_str())
}

/// Sends a field that is a whole number.
#[inline(always)]
#[tactic(auto, using(crate::proofs::Sent::number_sent))]
pub(crate) fn send_number<S: Serializer>(
    out: &mut S,
    field: Field,
    count: u64,
) -> Result<(), S::Error>
    ensures { OnOk result (Sends ((field, number (unsigned count)) ∷ []) (S.written out.old) (S.written out.new)) }
{
    out.key(field.name())?;
    Ok(out.u64(count)?)
}

/// Sends a field that is an incarnation.
#[inline(always)]
pub(crate) fn send_incarnation<S: Serializer>(
    out: &mut S,
    field: Field,
    incarnation: Incarnation,
) -> Result<(), S::Error>
    ensures sent { OnOk result (Sends ((field, number (unsigned incarnation)) ∷ [])
        (S.written out.old) (S.written out.new)) }
    ensures valid { incarnation ≤ greatest_number }
{
    send_number(out, field, incarnation.number())
}

/// Sends a field that is `true` or `false`.
#[inline(always)]
#[tactic(auto, using(crate::proofs::Sent::truth_sent))]
pub(crate) fn send_truth<S: Serializer>(
    out: &mut S,
    field: Field,
    truth: bool,
) -> Result<(), S::Error>
    ensures { OnOk result (Sends ((field, boolean truth) ∷ []) (S.written out.old) (S.written out.new)) }
{
    out.key(field.name())?;
    Ok(out.bool(truth)?)
}

/// The bytes that serde_json writes.
pub(crate) fn written_line<T: Serialize>(alloc: Global, value: &T) -> Result<Vec<u8>, WireError>
    ensures events { IfOk result (λ b. (log : Log) × T.writes value.now (Some []) log × IsTextOf log b.items) }
    ensures err { IsOkUnless result WireError.Memory }
{
    serde_json::to_vec(alloc, value).map_err(|_| WireError::Memory)
}
