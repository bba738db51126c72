//! Theorems about what this crate defines. Each is the contract of a function that does nothing, for every list of
//! changes and every number; `limits` alone returns the constants, and the orders compare. The contracts of this crate
//! and of those above use the same definitions.
ghost use Rattle.std.specs.Prelude.{◌≡◌, ◌≢◌, ◌⊎◌, ◌↔◌, ℕ, ◌≤◌, List, [], ◌∷◌, ◌++◌, map, length, Some, None, IsTrue, IsSomeAnd};
ghost use Rattle.std.specs.List.{Contains};
ghost use Rattle.std.specs.List.Sorted.{IsStrictlyIncreasing};
ghost use Rattle.std.specs.declared.cmp.Ordering.TheVariants.{Less};
ghost use Rattle.change_core.specs.declared.changes.Change.{Change};
ghost use Rattle.change_core.specs.declared.statuses.Status.{Status};
ghost use Rattle.std.specs.Ordering.{nat_cmp};
ghost use Rattle.change_core.specs.Address.{IsAddress, address_text};
ghost use Rattle.change_core.specs.Ascending.{ascending};
ghost use Rattle.change_core.specs.Change.{Overrides};
ghost use Rattle.change_core.specs.Digest.{IsDigest, digest_digits};
ghost use Rattle.change_core.specs.Edits.{IsInserted, IsReplaced};
ghost use Rattle.change_core.specs.Members.{greatest, members, serving, is_news, IsNews, IsGreatest, IsMemberList, HaveSameChanges, address_of_change, change_text, digest_text};
ghost use Rattle.change_core.specs.Numbers.{greatest_number, greatest_weight, most_members};
ghost use Rattle.change_core.specs.Order.{change_cmp, sourced_cmp};
ghost use Rattle.change_core.specs.Refutation.{refutation, is_refuted, log_one};
ghost use Rattle.change_core.specs.Status.{status_word, IsServing};

use crate::changes::{Change, Sourced};
use crate::numbers::{MAX_MEMBERS, MAX_NUMBER};
use crate::weights::MAX_WEIGHT;
use std::cmp::Ordering;

/// Precedence is one strict total order of the changes about each address: of two that differ one overrides the other.
/// It is the order in which they are sorted, the stronger last. Changes about two addresses are never compared.
pub fn precedence()
    ensures irreflexive { (c : Change) → ¬ Overrides c c }
    ensures asymmetric { (c d : Change) → Overrides c d → ¬ Overrides d c }
    ensures transitive { (c d e : Change) → Overrides c d → Overrides d e → Overrides c e }
    ensures total { (c d : Change) → c.address ≡ d.address
        → (c ≡ d) ⊎ (Overrides c d ⊎ Overrides d c) }
    ensures sorted { (c d : Change) → c.address ≡ d.address
        → (Overrides c d ↔ (change_cmp d c ≡ Less)) }
{}

/// The greatest change about an address is in the list and overrides every other one about the address there. No other
/// change is the greatest, and there is none if and only if no change of the list is about the address.
pub fn greatest_change()
    ensures stands { (L : List Change) (a : ℕ) (c : Change)
        → (greatest L a ≡ Some c) ↔ IsGreatest L a c }
    ensures exceeds_all { (L : List Change) (a : ℕ) (c d : Change)
        → greatest L a ≡ Some c → Contains L d → d.address ≡ a → (c ≡ d) ⊎ Overrides c d }
    ensures unnamed { (L : List Change) (a : ℕ)
        → (greatest L a ≡ None) ↔ ((c : Change) → Contains L c → c.address ≢ a) }
{}

/// The members of a list are the greatest change of each address that it names, ascending by address.
pub fn members_are_greatest()
    ensures exactly { (L : List Change) (c : Change)
        → Contains (members L) c ↔ (greatest L c.address ≡ Some c) }
    ensures ascending { (L : List Change) → IsMemberList (members L) }
    ensures same_greatest { (L : List Change) (a : ℕ) → greatest (members L) a ≡ greatest L a }
{}

/// Member lists are exactly the lists whose addresses strictly increase, and exactly those that are their own members.
/// Two of them that hold the same changes are the same.
pub fn member_lists()
    ensures increasing { (M : List Change)
        → IsMemberList M ↔ IsStrictlyIncreasing (map address_of_change M) }
    ensures own_members { (M : List Change) → IsMemberList M ↔ (members M ≡ M) }
    ensures by_changes { (M N : List Change)
        → IsMemberList M → IsMemberList N → HaveSameChanges M N → M ≡ N }
{}

/// A list sorted with each number once has the numbers of the list, and they strictly increase.
pub fn ascending_lists()
    ensures members { (L : List ℕ) (a : ℕ) → Contains (ascending nat_cmp L) a ↔ Contains L a }
    ensures increasing { (L : List ℕ) → IsStrictlyIncreasing (ascending nat_cmp L) }
{}

/// The members of a list depend on the set of its changes alone: not on their order, their grouping or how often each
/// appears.
pub fn merge()
    ensures members_same { (L K : List Change) → HaveSameChanges L K → members L ≡ members K }
    ensures serving_same { (L K : List Change) → HaveSameChanges L K → serving L ≡ serving K }
    ensures in_any_order { (L K : List Change) → members (L ++ K) ≡ members (K ++ L) }
    ensures grouped_before { (L K : List Change) → members (members L ++ K) ≡ members (L ++ K) }
    ensures grouped_after { (L K : List Change) → members (L ++ members K) ≡ members (L ++ K) }
    ensures grouped_both { (L K : List Change)
        → members (members L ++ members K) ≡ members (L ++ K) }
    ensures repeated { (L : List Change) → members (L ++ L) ≡ members L }
{}

/// Adding one change is an insertion if its address is new, a replacement of the change that it overrides, or nothing.
pub fn one_change_more()
    ensures unknown { (L : List Change) (c : Change) → greatest L c.address ≡ None
        → IsInserted (members L) c (members (L ++ c ∷ [])) }
    ensures newer { (L : List Change) (c d : Change) → greatest L c.address ≡ Some d
        → Overrides c d → IsReplaced (members L) d c (members (L ++ c ∷ [])) }
    ensures old { (L : List Change) (c d : Change) → greatest L c.address ≡ Some d
        → ¬ Overrides c d → members (L ++ c ∷ []) ≡ members L }
{}

/// A change is new to a list if it exceeds every change about its address there. The members of a list decide which
/// changes are new to it.
pub fn news()
    ensures exceeds_all { (L : List Change) (c : Change) → IsTrue (is_news L c) ↔ IsNews L c }
    ensures by_members { (L : List Change) (c : Change) → is_news (members L) c ≡ is_news L c }
{}

/// The serving addresses are those whose greatest change is alive or suspect, ascending, without repetition.
pub fn serving_addresses()
    ensures exactly { (L : List Change) (a : ℕ)
        → Contains (serving L) a ↔ IsSomeAnd (greatest L a) (λ c. IsServing c.status) }
    ensures increasing { (L : List Change) → IsStrictlyIncreasing (serving L) }
{}

/// A change calls for a refutation if it is about the node itself, overrides the node's own entry and has another
/// status. The refutation keeps the status and the weight of the own entry, overrides both the change and the own
/// entry, and is the greatest change about the node directly after it. No refutation follows a change that calls for
/// none.
pub fn refutation_holds()
    ensures exactly { (own : ℕ) (held given : Change) → held.address ≡ own
        → (IsTrue (is_refuted own (Some held) given) ↔ (Overrides given held × (given.status ≢ held.status))) }
    ensures keeps { (held given : Change)
        → ((refutation held given).status ≡ held.status) × ((refutation held given).weight ≡ held.weight) }
    ensures over_given { (own : ℕ) (held given : Change) → held.address ≡ own
        → IsTrue (is_refuted own (Some held) given) → Overrides (refutation held given) given }
    ensures over_held { (own : ℕ) (held given : Change) → held.address ≡ own
        → IsTrue (is_refuted own (Some held) given) → Overrides (refutation held given) held }
    ensures is_held { (own : ℕ) (L : List Change) (held given : Change) → greatest L own ≡ Some held
        → IsTrue (is_refuted own (Some held) given)
        → greatest (log_one own L given) own ≡ Some (refutation held given) }
    ensures unanswered { (own : ℕ) (L : List Change) (given : Change)
        → ¬ IsTrue (is_refuted own (greatest L own) given) → log_one own L given ≡ L ++ given ∷ [] }
{}

/// No two addresses, digests, statuses, changes or lists of changes have one text.
pub fn one_text()
    ensures address { (a b : ℕ) → address_text a ≡ address_text b → a ≡ b }
    ensures digest { (x y : List ℕ) → IsDigest x → IsDigest y
        → digest_digits x ≡ digest_digits y → x ≡ y }
    ensures status { (s t : Status) → status_word s ≡ status_word t → s ≡ t }
    ensures change { (c d : Change) → change_text c ≡ change_text d → c ≡ d }
    ensures changes { (L K : List Change) → digest_text L ≡ digest_text K → L ≡ K }
{}

/// Lengths of texts in bytes: at most 21 of an address, 9 of a status and 48 of a change, 64 of a digest.
pub fn text_lengths()
    ensures address { (a : ℕ) → IsAddress a → length (address_text a) ≤ 21 }
    ensures status { (s : Status) → length (status_word s) ≤ 9 }
    ensures change { (c : Change) → IsAddress c.address → c.incarnation ≤ greatest_number
        → c.weight ≤ greatest_weight → length (change_text c) ≤ 48 }
    ensures digest { (x : List ℕ) → IsDigest x → length (digest_digits x) ≡ 64 }
{}

/// The constants of this crate are the limits that contracts name: the greatest number of members, the greatest
/// incarnation or moment, and the greatest weight.
pub fn limits() -> (usize, u64, u8)
    ensures members { result.0 ≡ most_members }
    ensures number { result.1 ≡ greatest_number }
    ensures weight { result.2 ≡ greatest_weight }
{
    (MAX_MEMBERS, MAX_NUMBER, MAX_WEIGHT)
}

/// Changes are sorted by address, then incarnation, then rank, then weight.
pub fn change_order(one: &Change, other: &Change) -> Ordering
    ensures { result ≡ change_cmp one.now other.now }
{
    one.cmp(other)
}

/// Sourced changes are sorted by change, then source, then the source's incarnation.
pub fn sourced_order(one: &Sourced, other: &Sourced) -> Ordering
    ensures { result ≡ sourced_cmp one.now other.now }
{
    one.cmp(other)
}
