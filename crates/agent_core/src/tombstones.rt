//! The tombstones by which a node joins, one after the other. A part of a cluster that was cut off for more than a day holds the other part as
//! tombstones, which no ping and no healing meets.
ghost use Rattle.std.specs.Prelude.{◌≡◌, find, option_copied};
ghost use Rattle.agent_core.specs.Tombstones.{after_round, begins_at, first_tombstone, is_past, is_tombstone, last_after, next_tombstone};

use change_core::{Address, Change, Status};

/// The number of rounds from one Join to the next: those of ten meetings of healing.
const ROUNDS: u64 = 100;

/// A record of how many rounds are left before the next Join, and of the address that comes before those that are next.
#[derive(Clone, Copy, Debug)]
pub struct Tombstones {
    pub left: u64,
    pub last: Address,
}

/// Returns whether a member is a tombstone.
fn is_tombstone(member: &Change) -> bool
    ensures { result ≡ is_tombstone member.now }
{
    matches!(member.status, Status::Tombstone)
}

/// Returns whether a member is a tombstone with a greater address than this one.
fn is_past(last: Address, member: &Change) -> bool
    ensures { result ≡ is_past last member.now }
{
    is_tombstone(member) && member.address.number() > last.number()
}

/// Returns the address of the first tombstone among these members.
fn first_tombstone(members: &[Change]) -> Option<Address>
    ensures { result ≡ first_tombstone members.now }
{
    match members.iter().find(|member| is_tombstone(member)) {
        Some(member) => Some(member.address),
        None => None,
    }
}

/// Returns the first tombstone among these members that has a greater address than this one.
fn first_past(last: Address, members: &[Change]) -> Option<&Change>
    ensures { option_copied result ≡ find (is_past last) members.now }
{
    members.iter().find(|member| is_past(last, member))
}

/// Returns the address of the first tombstone after this address among these members or, if there is none, of the first of all.
fn next_tombstone(last: Address, members: &[Change]) -> Option<Address>
    ensures { result ≡ next_tombstone last members.now }
{
    match first_past(last, members) {
        Some(member) => Some(member.address),
        None => first_tombstone(members),
    }
}

impl Tombstones {
    /// Begins for the node of this address: the first Join comes after one of the first hundred rounds, and is sent to the first tombstone past the node. Both
    /// depend on the address, so that not all nodes ask one node in one round.
    pub fn new(own: Address) -> Self
        ensures { result ≡ begins_at own }
    {
        Tombstones {
            left: own.number() % ROUNDS,
            last: own,
        }
    }

    /// Counts a round. Returns whether it is one after which a Join is due, as each hundredth is.
    pub fn after_round(&mut self) -> bool
        ensures { (result, self.new) ≡ after_round self.old }
    {
        if self.left > 0 {
            self.left -= 1;
            return false;
        }
        self.left = ROUNDS - 1;
        true
    }

    /// Returns the tombstone among these members, ascending by address, to which the next Join is sent: the first with a greater address than the one before
    /// or, if there is none, the first of all. None if none of them is a tombstone.
    pub fn next(&mut self, members: &[Change]) -> Option<Address>
        ensures next { result ≡ next_tombstone self.old.last members.now }
        ensures last { self.new.last ≡ last_after self.old.last result }
        ensures left { self.new.left ≡ self.old.left }
    {
        let next = next_tombstone(self.last, members);
        if let Some(address) = next {
            self.last = address;
        }
        next
    }
}
