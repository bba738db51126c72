ghost use Rattle.std.specs.Prelude.{List, ◌≡◌, ◌<◌, ◌≤◌, ◌↔◌, ◌∷◌, ◌++◌, [], length, IfOk, IsTrue, IsOk, IsSome, OnErr, IsOkUnless, IsErrOf, None, option_map, string_bytes};
ghost use Rattle.change_core.specs.Change.{entry_of};
ghost use Rattle.change_core.specs.Members.{greatest, members, is_news, digest_text};
ghost use Rattle.change_core.specs.Numbers.{most_members};
ghost use Rattle.member_core.specs.Table.{IsTable};
ghost use Rattle.sha2.specs.Sha256.{sha256};

use crate::entries::Entries;
use crate::errors::MemberError;
use change_core::{Address, Change, Digest, Entry};
use std::alloc::Global;
use std::marker::Model;

/// The greatest change of each address among all that were applied, ascending by address. The table has no own address.
///
/// Contracts see the member list and the greatest number of members. Entries are kept sorted and looked up by binary
/// search.
#[derive(Drop)]
pub struct MemberTable {
    entries: Entries,
}

impl Model for MemberTable {
    ghost use Rattle.member_core.specs.Table.{Table, IsTable};

    ghost Value = { Table };

    ghost view = { λ a. record { members = a.entries.members; max = a.entries.max } };

    ghost invariant = { λ a. IsTable a.entries.members a.entries.max };
}

impl MemberTable {
    /// Makes an empty table for at most `max` members, from 1 to 4,096. It takes no memory yet.
    ///
    /// # Errors
    ///
    /// - `BadLimit`: `max` is not from 1 to 4,096.
    pub fn new(alloc: Global, max: usize) -> Result<Self, MemberError>
        ensures ok { IfOk result (λ t. (t.members ≡ []) × (t.max ≡ max) × (1 ≤ max) × (max ≤ most_members)) }
        ensures refusal { IsOkUnless result MemberError.BadLimit }
        ensures limit { 1 ≤ max → max ≤ most_members → IsOk result }
    {
        let entries = Entries::new(alloc, max)?;
        Ok(MemberTable { entries })
    }

    /// Applies a change, and returns whether it altered the entry of its address. After an error the table is
    /// unchanged.
    ///
    /// # Errors
    ///
    /// - `Full`: the address is unknown and there are `max` members.
    /// - `Memory`: out of memory; only for an unknown address.
    pub fn take(&mut self, change: Change) -> Result<bool, MemberError>
        ensures ok { IfOk result (λ altered. (altered ≡ is_news self.old.members change)
            × (self.new.members ≡ members (self.old.members ++ change ∷ []))) }
        ensures max { self.new.max ≡ self.old.max }
        ensures fits { length self.new.members ≤ self.new.max }

        // A change about a known address never fails.
        ensures full { IsErrOf result MemberError.Full ↔
            ((greatest self.old.members change.address ≡ None) × (length self.old.members ≡ self.old.max)) }
        ensures known { IsSome (greatest self.old.members change.address) → IsOk result }
        ensures memory { IsErrOf result MemberError.Memory → greatest self.old.members change.address ≡ None }
        ensures others { IsErrOf result MemberError.BadLimit → ⊥ }
        ensures err { OnErr result (self.new ≡ self.old) }
    {
        self.entries.put(&change)
    }

    /// Returns the entry of an address.
    pub fn get(&self, address: Address) -> Option<Entry>
        ensures { result ≡ option_map entry_of (greatest self.now.members address) }
    {
        self.entries.find(address).map(|change| change.entry())
    }

    /// Returns the number of members.
    pub fn len(&self) -> usize
        ensures count { result ≡ length self.now.members }
        ensures valid { IsTable self.now.members self.now.max }
    {
        self.entries.len()
    }

    /// Returns whether the table is empty: no change was applied.
    pub fn is_empty(&self) -> bool
        ensures { IsTrue result ↔ (self.now.members ≡ []) }
    {
        self.entries.as_slice().is_empty()
    }

    /// Returns the members, ascending by address.
    ///
    /// # Errors
    ///
    /// - `Memory`: out of memory; never without members.
    pub fn list(&self) -> Result<Vec<Change>, MemberError>
        ensures list { IfOk result (λ v. v.items ≡ self.now.members) }
        ensures out_of_memory { OnErr result (0 < length self.now.members) }
        ensures refusal { IsOkUnless result MemberError.Memory }
    {
        self.entries.list()
    }

    /// Returns the members as one line of text: address, status word, incarnation, and `*` and the weight if it is over
    /// 1, without spaces, joined by `;`.
    ///
    /// # Errors
    ///
    /// - `Memory`: out of memory; never without members.
    pub fn digest_text(&self) -> Result<String, MemberError>
        ensures text { IfOk result (λ s. string_bytes s ≡ digest_text self.now.members) }
        // No other list of changes has the text.
        ensures only { (ms : List Change) → digest_text ms ≡ digest_text self.now.members → ms ≡ self.now.members }
        ensures out_of_memory { OnErr result (0 < length self.now.members) }
        ensures refusal { IsOkUnless result MemberError.Memory }
    {
        self.entries.text()
    }

    /// Returns the SHA-256 of the digest text (FIPS 180-4).
    ///
    /// # Errors
    ///
    /// - `Memory`: out of memory for the text; never without members.
    pub fn digest(&self) -> Result<Digest, MemberError>
        ensures digest { IfOk result (λ d. d.bytes ≡ sha256 (digest_text self.now.members)) }
        ensures out_of_memory { OnErr result (0 < length self.now.members) }
        ensures refusal { IsOkUnless result MemberError.Memory }
    {
        self.entries.digest()
    }
}
