ghost use Rattle.std.specs.Prelude.{List, ◌≡◌, ◌≤◌, ◌<◌, ◌↔◌, ◌∷◌, ◌++◌, [], length, map, IfOk, IsOk, IsSome, OnOk, OnErr, IsOkUnless, IsErrOf, option_map, string_bytes};
ghost use Rattle.change_core.specs.Change.{entry_of};
ghost use Rattle.change_core.specs.Members.{greatest, members, digest_text};
ghost use Rattle.change_core.specs.Numbers.{most_members};
ghost use Rattle.change_core.specs.Refutation.{log_one};
ghost use Rattle.member_core.specs.Membership.{Membership, IsMembership, birth, judged, judged_own, judged_other, put_in, CanCommit, after_put, own_after, own_committed, IsOwnAssertion, said_by};
ghost use Rattle.member_core.specs.Places.{CanPut};
ghost use Rattle.sha2.specs.Sha256.{sha256};

use crate::entries::Entries;
use crate::errors::MemberError;
use crate::verdicts::Verdict;
use change_core::{Address, Change, Digest, Entry, Incarnation, Sourced, Status, Weight};
use std::alloc::Global;
use std::marker::Model;

/// The members as one node holds them, itself among them, always as alive or leave.
///
/// Contracts see its own entry, the member list, the greatest number of members, and for how many more there is room
/// without an allocation. The node refutes a wrong change about itself with a greater incarnation, as in SWIM (DSN
/// 2002, section 4.2); precedence and the other rules are this project's.
#[derive(Drop)]
pub struct Members {
    own: Change,
    entries: Entries,
}

impl Model for Members {
    ghost use Rattle.member_core.specs.Membership.{Membership, IsMembership};

    ghost Value = { Membership };

    ghost view = { λ a. record { own = a.own; members = a.entries.members; max = a.entries.max; room = a.entries.room } };

    ghost invariant = { λ a. IsMembership a.own a.entries.members a.entries.max };
}

impl Members {
    /// Makes the node alone, alive, with room for at most `max` members, from 1 to 4,096.
    ///
    /// # Errors
    ///
    /// - `BadLimit`: `max` is not from 1 to 4,096. This is checked before any allocation.
    /// - `Memory`: out of memory.
    pub fn new(
        alloc: Global,
        own: Address,
        incarnation: Incarnation,
        weight: Weight,
        max: usize,
    ) -> Result<Self, MemberError>
        ensures ok { IfOk result (λ m. (m.own ≡ birth own incarnation weight)
            × (m.members ≡ m.own ∷ []) × (m.max ≡ max)) }
        ensures valid { IfOk result (λ m. IsMembership m.own m.members m.max) }
        ensures limit { IsErrOf result MemberError.BadLimit ↔ (1 ≤ max → max ≤ most_members → ⊥) }
        ensures others { IsErrOf result MemberError.Full → ⊥ }
    {
        let mut entries = Entries::new(alloc, max)?;
        let own = birth(own, incarnation, weight);
        entries.put(&own)?;
        Ok(Members { own, entries })
    }

    /// Returns the verdict on a change. It takes no memory.
    pub fn judge(&self, change: Change) -> Verdict
        ensures { result ≡ judged self.now change }
    {
        if change.address == self.own.address {
            judge_own(&self.own, &change)
        } else {
            judge_other(&self.entries, &change)
        }
    }

    /// Makes room for another entry. It succeeds if there is room already. After an error all is unchanged.
    ///
    /// # Errors
    ///
    /// - `Memory`: out of memory.
    pub fn reserve_one(&mut self) -> Result<(), MemberError>
        ensures ok { OnOk result (0 < self.new.room) }
        ensures kept { self.new ≡ record self.old { room = self.new.room } }
        ensures room { 0 < self.old.room → IsOk result }
        ensures room_stays { self.old.room ≤ self.new.room }
        ensures err { OnErr result (self.new ≡ self.old) }
        ensures refusal { IsOkUnless result MemberError.Memory }
    {
        self.entries.reserve_one()
    }

    /// Writes the entries of the current verdict on a change, which has to be `Take` or `Refute`. For an unknown
    /// address there has to be room. It takes no memory.
    pub fn commit(&mut self, verdict: Verdict)
        requires { CanCommit self.old verdict }
        ensures value { self.new ≡ after_put self.old (own_committed self.old.own verdict) (put_in verdict) self.new.room }
        ensures valid { IsMembership self.new.own self.new.members self.new.max }

        // The members are those of a log with the given change, and directly after it its refutation.
        ensures logged { (given : Change) → judged self.old given ≡ verdict
            → self.new.members ≡ members (log_one self.old.own.address self.old.members given) }
        // What is known takes no room.
        ensures room { (given : Change) → judged self.old given ≡ verdict
            → IsSome (greatest self.old.members given.address) → self.new.room ≡ self.old.room }
    {
        // The proof knows the type's invariant where a field is read.
        let _ = &self.own;
        match verdict {
            Verdict::Take(change) => self.put(&change),
            Verdict::Refute { next, .. } => self.put(&next),
            Verdict::Old | Verdict::Exhausted | Verdict::Full => unreachable!(),
        }
    }

    /// Writes an entry that the node asserts of itself, to leave or to come back: about itself, overriding its entry,
    /// alive or leave. It takes no memory, and no room.
    pub fn commit_own(&mut self, change: Change)
        requires { IsOwnAssertion self.old.own change }
        ensures value { self.new ≡ after_put self.old change (change ∷ []) self.new.room }
        ensures room { self.new.room ≡ self.old.room }
        ensures valid { IsMembership self.new.own self.new.members self.new.max }
    {
        // The proof knows the type's invariant where a field is read.
        let _ = &self.own;
        self.put(&change);
    }

    fn put(&mut self, change: &Change)
        requires { CanPut self.old change.now }
        ensures value { self.new ≡ after_put self.old (own_after self.old.own change.now) (change.now ∷ []) self.new.room }
        ensures room { IsSome (greatest self.old.members change.now.address) → self.new.room ≡ self.old.room }
        ensures valid { IsMembership self.new.own self.new.members self.new.max }
    {
        self.own = own_after(&self.own, change);
        match self.entries.put(change) {
            Ok(_) => {}
            Err(_) => unreachable!(),
        }
    }

    /// Returns the entry of an address.
    pub fn get(&self, address: Address) -> Option<Entry>
        ensures { result ≡ option_map entry_of (greatest self.now.members address) }
    {
        self.entries.find(address).map(|change| change.entry())
    }

    /// The node's own entry, as a change.
    pub fn own(&self) -> Change
        ensures own { result ≡ self.now.own }
        ensures valid { IsMembership self.now.own self.now.members self.now.max }
    {
        self.own
    }

    /// Returns the number of members, the node itself among them.
    pub fn len(&self) -> usize
        ensures count { result ≡ length self.now.members }
        ensures valid { IsMembership self.now.own self.now.members self.now.max }
    {
        self.entries.len()
    }

    /// The members, ascending by address, lent. It takes no memory.
    pub fn as_slice(&self) -> &[Change]
        ensures list { result.now ≡ self.now.members }
        ensures valid { IsMembership self.now.own self.now.members self.now.max }
    {
        self.entries.as_slice()
    }

    /// Returns the members, ascending by address.
    ///
    /// # Errors
    ///
    /// - `Memory`: out of memory.
    pub fn list(&self) -> Result<Vec<Change>, MemberError>
        ensures list { IfOk result (λ v. v.items ≡ self.now.members) }
        ensures refusal { IsOkUnless result MemberError.Memory }
    {
        self.entries.list()
    }

    /// Returns the members as one line of text: address, status word, incarnation, and `*` and the weight if it is over
    /// 1, without spaces, joined by `;`.
    ///
    /// # Errors
    ///
    /// - `Memory`: out of memory.
    pub fn digest_text(&self) -> Result<String, MemberError>
        ensures text { IfOk result (λ s. string_bytes s ≡ digest_text self.now.members) }
        // No other list of changes has the text.
        ensures only { (ms : List Change) → digest_text ms ≡ digest_text self.now.members → ms ≡ self.now.members }
        ensures refusal { IsOkUnless result MemberError.Memory }
    {
        self.entries.text()
    }

    /// Returns the SHA-256 of the digest text (FIPS 180-4).
    ///
    /// # Errors
    ///
    /// - `Memory`: out of memory for the text.
    pub fn digest(&self) -> Result<Digest, MemberError>
        ensures digest { IfOk result (λ d. d.bytes ≡ sha256 (digest_text self.now.members)) }
        ensures refusal { IsOkUnless result MemberError.Memory }
    {
        self.entries.digest()
    }

    /// Returns the digest and keeps it: until a change is written, neither this call nor `digest` computes it again or
    /// allocates.
    ///
    /// # Errors
    ///
    /// - `Memory`: out of memory for the text.
    pub fn keep_digest(&mut self) -> Result<Digest, MemberError>
        ensures digest { IfOk result (λ d. d.bytes ≡ sha256 (digest_text self.old.members)) }
        ensures same { self.new ≡ self.old }
        ensures refusal { IsOkUnless result MemberError.Memory }
    {
        self.entries.keep_digest()
    }

    /// Returns the members, ascending by address, each with the node itself as source, at its incarnation: a full
    /// synchronisation (ringpop-go, package swim).
    ///
    /// # Errors
    ///
    /// - `Memory`: out of memory.
    pub fn full_sync(&self) -> Result<Vec<Sourced>, MemberError>
        ensures list { IfOk result (λ v. v.items ≡ map (said_by self.now.own) self.now.members) }
        ensures refusal { IsOkUnless result MemberError.Memory }
    {
        said_by(self.entries.allocator(), &self.own, self.entries.as_slice())
    }
}

/// Returns the node's own entry after a change is written.
fn own_after(own: &Change, change: &Change) -> Change
    ensures { result ≡ own_after own.now change.now }
{
    if change.address == own.address {
        *change
    } else {
        *own
    }
}

/// A node's first change, about itself.
fn birth(own: Address, incarnation: Incarnation, weight: Weight) -> Change
    ensures { result ≡ birth own incarnation weight }
{
    Change {
        address: own,
        incarnation,
        status: Status::Alive,
        weight,
    }
}

/// Returns the verdict on a change about the node itself.
fn judge_own(own: &Change, change: &Change) -> Verdict
    requires { change.now.address ≡ own.now.address }
    ensures { result ≡ judged_own own.now change.now }
{
    if !change.overrides(own) {
        return Verdict::Old;
    }
    if change.status == own.status {
        return Verdict::Take(*change);
    }
    match change.incarnation.next() {
        None => Verdict::Exhausted,
        Some(incarnation) => Verdict::Refute {
            given: *change,
            next: Change {
                address: own.address,
                incarnation,
                status: own.status,
                weight: own.weight,
            },
        },
    }
}

/// Returns the verdict on a change about another node.
#[tactic(auto, using(crate::proofs::Commits::old_of_other))]
fn judge_other(entries: &Entries, change: &Change) -> Verdict
    ensures { result ≡ judged_other entries.now.members entries.now.max change.now }
{
    match entries.find(change.address) {
        None => {
            if entries.is_full() {
                Verdict::Full
            } else {
                Verdict::Take(*change)
            }
        }
        Some(held) => {
            if change.overrides(&held) {
                Verdict::Take(*change)
            } else {
                Verdict::Old
            }
        }
    }
}

/// Returns each change with the node itself as its source.
fn said_by(alloc: Global, own: &Change, changes: &[Change]) -> Result<Vec<Sourced>, MemberError>
    ensures list { IfOk result (λ v. v.items ≡ map (said_by own.now) changes.now) }
    ensures refusal { IsOkUnless result MemberError.Memory }
{
    let mut said = Vec::with_capacity(alloc, changes.len())?;
    for change in changes {
        said.push_reserved(Sourced {
            change: *change,
            source: own.address,
            source_incarnation: own.incarnation,
        });
    }
    Ok(said)
}
