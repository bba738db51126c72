ghost use Rattle.std.specs.Prelude.{◌≡◌, ◌<◌, [], length, position, IsPermutation, IfOk, IfSome, IfNone, OnErr, Some};
ghost use Rattle.std.specs.List.Sorted.{IsStrictlyIncreasing};
ghost use Rattle.detector_core.specs.Choices.{choices_of, new_order};
ghost use Rattle.detector_core.specs.Order.{is_in, near, drawn_turn, IsNextIn, IsTurn};

use change_core::Address;
use rand::seq::SliceRandom;
use rand_pcg::Pcg32;
use std::alloc::{AllocError, Global};
use std::marker::Model;

/// The current random order of members (SWIM, section 4.3: round-robin probe target selection). Contracts see the rest:
/// the members after the last pick. A member that was skipped has had its turn.
#[derive(Drop)]
pub(crate) struct Order {
    members: Vec<Address>,
    next: usize,
}

impl Model for Order {
    ghost use Rattle.std.specs.Prelude.{ℕ, List, drop, vec_len, ◌≤◌};

    ghost Value = { List ℕ };

    ghost view = { λ o. drop o.next o.members.items };

    ghost invariant = { λ o. o.next ≤ vec_len o.members };
}

impl Order {
    /// Makes an empty order.
    pub(crate) fn new(alloc: Global) -> Self
        ensures { result ≡ [] }
    {
        Order {
            members: Vec::new(alloc),
            next: 0,
        }
    }

    /// A new random order of these members.
    pub(crate) fn shuffled(
        alloc: Global,
        rng: &mut Pcg32,
        members: &[Address],
    ) -> Result<Self, AllocError>
        ensures permutation { IfOk result (λ rest. IsPermutation members.now rest) }
        ensures drawn { IfOk result
            (λ rest. (rest, choices_of rng.new) ≡ new_order members.now (choices_of rng.old)) }
        ensures err { OnErr result (rng.new ≡ rng.old) }
    {
        let mut members = Vec::from_slice(alloc, members)?;
        shuffle(&mut members, rng);
        Ok(Order { members, next: 0 })
    }

    /// Picks the next pingable member of the rest, and skips those before it. If there is none, the rest stays.
    pub(crate) fn take_next(&mut self, pingable: &[Address]) -> Option<Address>
        requires { IsStrictlyIncreasing pingable.now }
        ensures some { IfSome result (λ target. IsNextIn pingable.now self.old target self.new) }
        ensures none { IfNone result (near pingable.now self.old ≡ []) }
        ensures same { IfNone result (self.new ≡ self.old) }
    {
        let passed = first_among(&self.members[self.next..], pingable)?;
        let target = self.members[self.next + passed];
        self.next += passed + 1;
        Some(target)
    }
}

/// Puts members in a random order.
pub(crate) fn shuffle(members: &mut Vec<Address>, rng: &mut Pcg32)
    ensures permutation { IsPermutation members.old.items members.new.items }
    ensures drawn { (members.new.items, choices_of rng.new)
        ≡ new_order members.old.items (choices_of rng.old) }
{
    members.as_mut_slice().shuffle(rng);
}

/// Picks the next member, with a new order if the rest has no pingable one.
pub(crate) fn pick(
    alloc: Global,
    order: &mut Order,
    rng: &mut Pcg32,
    pingable: &[Address],
) -> Result<Address, AllocError>
    requires rising { IsStrictlyIncreasing pingable.now }
    requires some { 0 < length pingable.now }
    ensures turn { IfOk result (λ target. IsTurn pingable.now order.old target order.new) }
    ensures drawn { IfOk result
        (λ target. drawn_turn pingable.now order.old (choices_of rng.old)
        ≡ (Some (target, order.new), choices_of rng.new)) }
    ensures order { OnErr result (order.new ≡ order.old) }
    ensures choices { OnErr result (rng.new ≡ rng.old) }
    ensures out_of_memory { OnErr result (near pingable.now order.old ≡ []) }
{
    match order.take_next(pingable) {
        Some(target) => Ok(target),
        None => {
            let mut fresh = Order::shuffled(alloc, rng, pingable)?;
            let target = fresh.take_next(pingable).unwrap();
            *order = fresh;
            Ok(target)
        }
    }
}

/// Returns the place of the first pingable member.
fn first_among(members: &[Address], pingable: &[Address]) -> Option<usize>
    requires { IsStrictlyIncreasing pingable.now }
    ensures { result ≡ position (is_in pingable.now) members.now }
{
    members.iter().position(|a| is_in(pingable, *a))
}

/// Returns whether a member is in a list that rises.
pub(crate) fn is_in(members: &[Address], address: Address) -> bool
    requires { IsStrictlyIncreasing members.now }
    ensures { result ≡ is_in members.now address }
{
    members.binary_search(&address).is_ok()
}
