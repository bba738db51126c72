//! Small worlds in which the premises of theorems of worlds hold, and what the theorems then say of them.
use crate::node::stories::Step::{
    Expires, HoldsEntry, Joins, Leaves, NamesNever, Rejoins, Suspects,
};
use crate::node::stories::{Step, play_all};
use crate::shared::{B, C};
use change_core::Status;
use hash_ring::SumHash;
use laws::{leaver_stays_out, suspicion_has_a_witness};

/// One node probes another and suspects it. A third learns it at moment 1; there it is faulty 5 seconds later, and a tombstone after
/// one more day. It refutes what it is told, and no suspicion is left where that is heard.
const SUSPICION: &[Step] = &rows! {
    Joins(0, 1); HoldsEntry(0, (B, 1, Status::Alive));
    Suspects(0); HoldsEntry(0, (B, 1, Status::Suspect));
    Joins(2, 0); HoldsEntry(2, (B, 1, Status::Suspect));
    Expires(2, 5_000); HoldsEntry(2, (B, 1, Status::Suspect));
    Expires(2, 5_001); HoldsEntry(2, (B, 1, Status::Faulty)); HoldsEntry(0, (B, 1, Status::Suspect));
    Expires(2, 86_405_000); HoldsEntry(2, (B, 1, Status::Faulty));
    Expires(2, 86_405_001); HoldsEntry(2, (B, 1, Status::Tombstone));
    Joins(1, 2); HoldsEntry(1, (B, 2, Status::Alive));
    Joins(0, 1); HoldsEntry(0, (B, 2, Status::Alive));
};

#[test]
fn a_suspicion_is_refuted_or_grows_from_its_witness(rt: HostRuntime) {
    suspicion_has_a_witness::<SumHash>();
    play_all(&rt, 3, &[SUSPICION]);
}

/// One node leaves and tells one of two others. What the other still holds does not bring it back there, but its next incarnation does.
const LEAVER: &[Step] = &rows! {
    Joins(0, 1); Joins(2, 1); Joins(0, 1); HoldsEntry(0, (C, 1, Status::Alive));
    Leaves(2); Joins(2, 0); HoldsEntry(0, (C, 1, Status::Leave)); HoldsEntry(1, (C, 1, Status::Alive));
    Joins(0, 1); Joins(1, 0); HoldsEntry(0, (C, 1, Status::Leave)); NamesNever(0, C);
    Rejoins(2); Joins(2, 0); HoldsEntry(0, (C, 2, Status::Alive));
};

#[test]
fn a_leaver_stays_out_until_it_rejoins(rt: HostRuntime) {
    leaver_stays_out::<SumHash>();
    play_all(&rt, 3, &[LEAVER]);
}
