//! A change, read by iterating once over the fields of an object.
ghost use Rattle.std.specs.Prelude.{◌≡◌, ◌≤◌, IfSome, OnSome};
ghost use Rattle.serde_json.specs.Data.{string, number, unsigned, Members, no_members, put, object};
ghost use Rattle.serde_json.specs.View.{view, members_view};
ghost use Rattle.change_core.specs.Address.{IsAddress, address_text};
ghost use Rattle.change_core.specs.Numbers.{greatest_number, IsWeight};
ghost use Rattle.change_core.specs.Status.{status_word};
ghost use Rattle.wire_json.specs.Forms.{ChangeForm};
ghost use Rattle.wire_json.specs.Partial.{IsReadOf};

use change_core::{Address, Change, Incarnation, Sourced, Status, Weight};
use serde_json::{Map, Value};

/// The parts of a change that were read so far. The weight is 1 until its field is read.
#[derive(Drop)]
struct PartialChange {
    address: Option<Address>,
    incarnation: Option<Incarnation>,
    source: Option<Address>,
    source_incarnation: Option<Incarnation>,
    status: Option<Status>,
    weight: Option<Weight>,
}

impl PartialChange {
    /// Nothing read.
    fn new() -> Self
        ensures { IsReadOf no_members result }
    {
        PartialChange {
            address: None,
            incarnation: None,
            source: None,
            source_incarnation: None,
            status: None,
            weight: Weight::new(1),
        }
    }

    /// Reads another field. `None` if it is `tombstone`, which is read together with the status alone.
    fn read(&mut self, name: &str, value: &Value) -> Option<()>
        ensures { (ms : Members) → IsReadOf ms self.old
            → OnSome result (IsReadOf (put name.now (view value.now) ms) self.new) }
    {
        match name {
            "address" => self.address = address_of(value),
            "incarnationNumber" => self.incarnation = incarnation_of(value),
            "source" => self.source = address_of(value),
            "sourceIncarnationNumber" => self.source_incarnation = incarnation_of(value),
            "status" => self.status = status_of(value),
            "tombstone" => return None,
            "weight" => self.weight = weight_of(value),
            _ => {}
        }
        Some(())
    }

    /// Returns the change, if each part of it was read.
    fn change(self) -> Option<Sourced>
        ensures { (ms : Members) → IsReadOf ms self → IfSome result (λ c. ChangeForm (object ms) c) }
    {
        Some(Sourced {
            change: Change {
                address: self.address?,
                incarnation: self.incarnation?,
                status: self.status?,
                weight: self.weight?,
            },
            source: self.source?,
            source_incarnation: self.source_incarnation?,
        })
    }
}

/// Returns the change that the fields of an object give, read in one iteration. `None` if they give none, or one of
/// them is `tombstone`.
pub(crate) fn read_at_once(fields: &Map<String, Value>) -> Option<Sourced>
    ensures { IfSome result (λ c. ChangeForm (object (members_view fields.now.entries)) c) }
{
    let mut change = PartialChange::new();
    for (name, value) in fields.iter() {
        change.read(name.as_str(), value)?;
    }
    change.change()
}

fn address_of(value: &Value) -> Option<Address>
    ensures { IfSome result (λ a. (view value.now ≡ string (address_text a)) × IsAddress a) }
{
    Address::parse(value.as_str()?).ok()
}

fn incarnation_of(value: &Value) -> Option<Incarnation>
    ensures { IfSome result (λ n. (view value.now ≡ number (unsigned n)) × (n ≤ greatest_number)) }
{
    Incarnation::new(value.as_u64()?)
}

fn status_of(value: &Value) -> Option<Status>
    ensures { IfSome result (λ s. view value.now ≡ string (status_word s)) }
{
    Status::parse(value.as_str()?)
}

fn weight_of(value: &Value) -> Option<Weight>
    ensures { IfSome result (λ w. (view value.now ≡ number (unsigned w)) × IsWeight w) }
{
    Weight::new(u8::try_from(value.as_u64()?).ok()?)
}
