//! Changes that a node is given, one after another.
ghost use Rattle.std.specs.Prelude.{◌≡◌, ◌≤◌, length, max, IfOk, IfErr};
ghost use Rattle.change_core.specs.Members.{members};
ghost use Rattle.change_core.specs.Numbers.{most_members};
ghost use Rattle.node_core.specs.Log.{log_given};
ghost use Rattle.node_core.specs.Node.{at_moment};
ghost use Rattle.node_core.specs.Taking.{altered_in, refuted_by, TakesOne, StopsOne, TakesAll, TakesFirst, TakeStep, WantsRoomFor, StopsForRoom, taken_of};

use crate::edits::Edit;
use crate::events::{StopCause, Stopped, Taken};
use crate::node::{NodeState, sourced_by_self};
use change_core::{Moment, Sourced};
use hash_ring::PointHash;
use member_core::Verdict;

/// The effect of a change that was processed.
#[derive(Clone, Copy)]
enum Effect {
    /// It is old.
    Unaltered,
    /// It is an entry now.
    Applied,
    /// The node's refutation of it is an entry now.
    Refuted,
}

impl Effect {
    /// Returns how many entries were altered.
    fn altered(&self) -> usize
        ensures value { result ≡ altered_in self.now }
        ensures within { result ≤ 1 }
    {
        match self {
            Effect::Unaltered => 0,
            Effect::Applied | Effect::Refuted => 1,
        }
    }

    /// Returns how many refutations were made.
    fn refuted(&self) -> usize
        ensures value { result ≡ refuted_by self.now }
        ensures within { result ≤ 1 }
    {
        match self {
            Effect::Unaltered | Effect::Applied => 0,
            Effect::Refuted => 1,
        }
    }
}

impl<H: PointHash> NodeState<H> {
    /// Processes changes one after another, at a moment. An old change does nothing; a wrong change about the node
    /// itself is refuted (SWIM, DSN 2002, section 4.2). Returns how many altered an entry, and how many of them were
    /// refuted. At most 4,096 changes may be given.
    ///
    /// # Errors
    ///
    /// The first change that fails stops the batch: those before it are applied completely, the rest not at all; the
    /// moment has passed.
    ///
    /// - `Exhausted`: the change calls for a refutation at an incarnation past the greatest.
    /// - `Full`: its address is unknown, and there are `max_members` members.
    /// - `Memory`: out of memory; only for a change that would alter an entry, and if that takes room: its address is
    ///   unknown or has nothing pending, or it gets points in the ring or a timer.
    pub fn take(&mut self, changes: &[Sourced], moment: Moment) -> Result<Taken, Stopped>
        requires few { length changes.now ≤ most_members }
        ensures step { TakeStep self.old.node changes.now moment result self.new.node }
        ensures members { self.new.node.members
            ≡ members (log_given self.old.node.own self.old.node.members (taken_of changes.now result)) }
        ensures out_of_memory { IfErr result (StopsForRoom self.new.node changes.now) }
    {
        self.advance(moment);
        let taken = self.take_all(changes);
        self.settle();
        taken
    }

    /// Reads the node at a moment, never earlier than the last one.
    pub(crate) fn advance(&mut self, moment: Moment)
        ensures { self.new ≡ record self.old { node = at_moment self.old.node moment } }
    {
        self.moment = later(self.moment, moment);
    }

    fn take_all(&mut self, changes: &[Sourced]) -> Result<Taken, Stopped>
        requires few { length changes.now ≤ most_members }
        ensures settled { members self.old.node.members ≡ self.old.node.members }
        ensures all { IfOk result (λ taken. TakesAll self.old.node changes.now taken self.new.node) }
        ensures first { IfErr result (λ stopped. TakesFirst self.old.node changes.now stopped self.new.node) }
        ensures out_of_memory { IfErr result (StopsForRoom self.new.node changes.now) }
    {
        // The proof knows the type's invariant where a field is read.
        let _ = &self.moment;
        let mut applied = 0;
        let mut refuted = 0;
        for (place, sourced) in changes.iter().enumerate() {
            match self.take_one(sourced) {
                Ok(effect) => {
                    applied += effect.altered();
                    refuted += effect.refuted();
                }
                Err(cause) => return Err(Stopped {
                    taken: place,
                    cause,
                }),
            }
        }
        Ok(Taken { applied, refuted })
    }

    /// Takes one given change into every part, or none in any.
    fn take_one(&mut self, sourced: &Sourced) -> Result<Effect, StopCause>
        ensures ok { IfOk result (λ effect. TakesOne self.old.node sourced.now effect self.new.node) }
        ensures err { IfErr result (λ cause. StopsOne self.old.node sourced.now cause self.new.node) }
        ensures out_of_memory { IfErr result (λ cause. cause ≡ StopCause.Memory → WantsRoomFor self.old.node sourced.now) }
    {
        let verdict = self.members.judge(sourced.change);
        match verdict {
            Verdict::Old => Ok(Effect::Unaltered),
            Verdict::Exhausted => Err(StopCause::Exhausted),
            Verdict::Full => Err(StopCause::Full),
            Verdict::Take(_) => match self.alter(Edit::Judged(verdict), sourced) {
                Ok(()) => Ok(Effect::Applied),
                Err(_) => Err(StopCause::Memory),
            },
            Verdict::Refute { given, next } => {
                let news = sourced_by_self(&next);
                match self.alter(Edit::Judged(Verdict::Refute { given, next }), &news) {
                    Ok(()) => Ok(Effect::Refuted),
                    Err(_) => Err(StopCause::Memory),
                }
            }
        }
    }
}

/// The later of two moments.
pub(crate) fn later(last: Moment, moment: Moment) -> Moment
    ensures { result ≡ max last moment }
{
    if moment.number() > last.number() {
        moment
    } else {
        last
    }
}
