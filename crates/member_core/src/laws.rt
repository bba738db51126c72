//! Theorems about verdicts. Each is the contract of a function that does nothing, for every membership and every
//! change.
ghost use Rattle.std.specs.Prelude.{◌≡◌, ◌≢◌, ◌↔◌, ◌<◌, ◌≤◌, false, IsTrue, None, Some, length};
ghost use Rattle.change_core.specs.declared.changes.Change.{Change};
ghost use Rattle.change_core.specs.Members.{greatest, members, is_news};
ghost use Rattle.change_core.specs.Numbers.{greatest_number};
ghost use Rattle.change_core.specs.Refutation.{refutation, is_refuted, log_one};
ghost use Rattle.member_core.specs.declared.verdicts.Verdict.TheVariants.{Old, Take, Refute, Exhausted, Full};
ghost use Rattle.member_core.specs.Membership.{Membership, IsMembership, judged};

/// A change is old if and only if it is not new to the members. The log with an old change gives the same members.
pub fn old_changes()
    ensures no_news { (m : Membership) (c : Change) → IsMembership m.own m.members m.max
        → (judged m c ≡ Old) ↔ (is_news m.members c ≡ false) }
    ensures logged { (m : Membership) (c : Change) → IsMembership m.own m.members m.max
        → judged m c ≡ Old → members (log_one m.own.address m.members c) ≡ m.members }
{}

/// The conditions of the other verdicts. A change that calls for a refutation is refuted by it, or is exhausted if its
/// incarnation is the greatest. It is full if its address is unknown and not the node's own, and there are as many
/// members as allowed. Any other new change is applied. A verdict is about the change that was given.
pub fn verdicts()
    ensures full { (m : Membership) (c : Change) → IsMembership m.own m.members m.max
        → (judged m c ≡ Full) ↔ ((c.address ≢ m.own.address) × (greatest m.members c.address ≡ None) × (length m.members ≡ m.max)) }
    ensures exhausted { (m : Membership) (c : Change) → IsMembership m.own m.members m.max
        → c.incarnation ≤ greatest_number
        → (judged m c ≡ Exhausted) ↔ (IsTrue (is_refuted m.own.address (Some m.own) c) × (c.incarnation ≡ greatest_number)) }
    ensures refuted { (m : Membership) (c given next : Change) → IsMembership m.own m.members m.max
        → (judged m c ≡ Refute given next) ↔ ((given ≡ c) × (next ≡ refutation m.own c)
        × IsTrue (is_refuted m.own.address (Some m.own) c) × (c.incarnation < greatest_number)) }
    ensures taken { (m : Membership) (c given : Change) → IsMembership m.own m.members m.max
        → (judged m c ≡ Take given) ↔ ((given ≡ c) × IsTrue (is_news m.members c)
        × (is_refuted m.own.address (Some m.own) c ≡ false)
        × (greatest m.members c.address ≡ None → length m.members < m.max)) }
{}
