//! A node's probes (SWIM, DSN 2002, section 3.1).
ghost use Rattle.std.specs.Prelude.{◌≡◌, ◌≢◌, ◌<◌, ℕ, [], not, None, Some, Ok, Err, IfErr, IfOk, OnErr, OnOk, IsOk, IsSome, IsOkUnless, IsTrue};
ghost use Rattle.std.specs.List.Sorted.{IsStrictlyIncreasing};
ghost use Rattle.change_core.specs.Members.{greatest};
ghost use Rattle.change_core.specs.Numbers.{greatest_number};
ghost use Rattle.detector_core.specs.Probing.{after_saying, helper_count, unasked_target, would_say};
ghost use Rattle.detector_core.specs.declared.asked.Outcome.{Outcome};
ghost use Rattle.node_core.specs.Node.{at_moment, pingable};
ghost use Rattle.node_core.specs.Probes.{AckedStep, HelperStep, LostDraw, LostStep, ProbeDraw, ProbeStep, put_in, suspicion, suspicion_in};

use crate::errors::NodeError;
use crate::events::{NodeLost, NodeOutcome};
use crate::node::NodeState;
use crate::pingable::{can_ask, list_pingable};
use change_core::{Address, Change, Moment, Status};
use detector_core::{Lost, Outcome, Probe, Said};
use hash_ring::PointHash;
use member_core::Members;

impl<H: PointHash> NodeState<H> {
    /// Starts a probe of the next member in turn, or returns None if no member is pingable (SWIM, section 4.3). After
    /// an error the node is unchanged.
    ///
    /// # Errors
    ///
    /// - `Busy`: a probe runs. This is checked first.
    /// - `Spent`: no probe number is left.
    /// - `Memory`: out of memory, for the list of pingable members or for a new order of them.
    pub fn probe(&mut self) -> Result<Option<Probe>, NodeError>
        ensures step { ProbeStep self.old.node result self.new.node }
        ensures drawn { ProbeDraw self.old.node result self.new.node }
    {
        self.may_probe()?;
        let pingable = self.pingable()?;
        self.pick(&pingable)
    }

    /// Ends a probe whose target was reached. After an error the node is unchanged.
    ///
    /// # Errors
    ///
    /// - `StaleProbe`: it is not the running probe.
    pub fn acked(&mut self, number: u64) -> Result<(), NodeError>
        ensures step { AckedStep self.old.node number result self.new.node }
    {
        self.prober.acked(number)?;
        Ok(())
    }

    /// Ends the direct ping of a probe as lost, at a moment. Returns the members to ask about its target, as many as
    /// the configuration allows or all there are; if there are none the target is suspect. After an error the node is
    /// unchanged.
    ///
    /// # Errors
    ///
    /// - `StaleProbe`: it is not the running probe, or helpers were asked already.
    /// - `Memory`: out of memory, for the helpers or for the suspicion.
    pub fn lost(&mut self, number: u64, moment: Moment) -> Result<NodeLost, NodeError>
        ensures step { LostStep self.old.node number moment result self.new.node }
        ensures drawn { LostDraw self.old.node number result self.new.node }
    {
        let Some(target) = self.prober.unasked_target(number) else {
            return Err(NodeError::StaleProbe);
        };
        if self.can_ask(target) {
            self.ask(number, moment)
        } else {
            self.give_up(number, target, moment)
        }
    }

    /// Records, at a moment, a helper's report on a target. If the verdict is that the target is suspect, the node
    /// holds it so. After an error the node is unchanged.
    ///
    /// # Errors
    ///
    /// - `StaleProbe`: it is not the running probe.
    /// - `NotAsked`: this helper was not asked, or has answered.
    /// - `Memory`: out of memory for the suspicion.
    pub fn helper_said(
        &mut self,
        number: u64,
        helper: Address,
        said: Said,
        moment: Moment,
    ) -> Result<NodeOutcome, NodeError>
        ensures step { HelperStep self.old.node number helper said moment result self.new.node }
    {
        match self.prober.would_say(number, helper, said)? {
            Outcome::Waiting => {
                self.note(number, helper, said, moment);
                Ok(NodeOutcome::Waiting)
            }
            Outcome::Reached => {
                self.note(number, helper, said, moment);
                Ok(NodeOutcome::Reached)
            }
            Outcome::Inconclusive => {
                self.note(number, helper, said, moment);
                Ok(NodeOutcome::Inconclusive)
            }
            Outcome::Suspect => {
                let Some(target) = self.prober.target_of(number) else {
                    unreachable!()
                };
                let change = self.suspect(target, moment)?;
                self.note(number, helper, said, moment);
                Ok(NodeOutcome::Suspect(change))
            }
        }
    }

    /// Checks that a probe could start, if there is a member to ping.
    fn may_probe(&self) -> Result<(), NodeError>
        ensures free { OnOk result ((self.now.node.probing.running ≡ None) × (self.now.node.probing.last < greatest_number)) }
        ensures refusal { IfErr result (λ e. ProbeStep self.now.node (Err e) self.now.node) }
    {
        self.prober.may_begin()?;
        Ok(())
    }

    /// Starts a probe of the next of the pingable members.
    fn pick(&mut self, targets: &[Address]) -> Result<Option<Probe>, NodeError>
        requires { targets.now ≡ pingable self.old.node }
        ensures step { ProbeStep self.old.node result self.new.node }
        ensures drawn { ProbeDraw self.old.node result self.new.node }
    {
        Ok(self.prober.next_target(targets)?)
    }

    /// Asks helpers about the target of a lost probe.
    fn ask(&mut self, number: u64, moment: Moment) -> Result<NodeLost, NodeError>
        requires somebody { (target : ℕ) × (unasked_target self.old.node.probing number ≡ Some target)
            × (0 < helper_count self.old.node.probing (pingable self.old.node) target) }
        ensures step { LostStep self.old.node number moment result self.new.node }
        ensures drawn { LostDraw self.old.node number result self.new.node }
    {
        let pingable = self.pingable()?;
        match self.prober.lost(number, &pingable)? {
            Lost::Ask(helpers) => {
                self.advance(moment);
                Ok(NodeLost::Ask(helpers))
            }
            Lost::NoHelper => unreachable!(),
        }
    }

    /// Ends a lost probe about whose target there is no helper to ask: the target is suspect.
    fn give_up(
        &mut self,
        number: u64,
        target: Address,
        moment: Moment,
    ) -> Result<NodeLost, NodeError>
        requires other { target ≢ self.old.node.own }
        requires unasked { unasked_target self.old.node.probing number ≡ Some target }
        requires no_helper { helper_count self.old.node.probing (pingable self.old.node) target ≡ 0 }
        ensures step { LostStep self.old.node number moment result self.new.node }
        ensures drawn { LostDraw self.old.node number result self.new.node }
    {
        let change = self.suspect(target, moment)?;
        let Ok(()) = self.prober.give_up(number) else {
            unreachable!()
        };
        Ok(NodeLost::Suspect(change))
    }

    /// Returns whether there is a helper to ask about a target.
    fn can_ask(&self, target: Address) -> bool
        ensures some { IsTrue result → 0 < helper_count self.now.node.probing (pingable self.now.node) target }
        ensures none { IsTrue (not result) → helper_count self.now.node.probing (pingable self.now.node) target ≡ 0 }
    {
        let own = self.members.own();
        can_ask(
            self.members.as_slice(),
            own.address,
            target,
            self.config.helpers,
        )
    }

    /// Passes a helper's report to the prober, at a moment.
    fn note(&mut self, number: u64, helper: Address, said: Said, moment: Moment)
        requires { IsOk (would_say self.old.node.probing number helper said) }
        ensures { (outcome : Outcome) → would_say self.old.node.probing number helper said ≡ Ok outcome
            → self.new.node ≡ record (at_moment self.old.node moment) { probing = after_saying self.old.node.probing helper said outcome } }
    {
        self.advance(moment);
        let Ok(_) = self.prober.helper_said(number, helper, said) else {
            unreachable!()
        };
    }

    /// Holds a target as suspect from a moment on, at its incarnation, if it is alive.
    fn suspect(&mut self, target: Address, moment: Moment) -> Result<Option<Change>, NodeError>
        requires other { target ≢ self.old.node.own }
        ensures change { IfOk result (λ change. change ≡ suspicion self.old.node target) }
        ensures put { IfOk result (λ change. self.new.node ≡ put_in (at_moment self.old.node moment) change) }
        ensures err { OnErr result (self.new ≡ self.old) }
        ensures out_of_memory { OnErr result (IsSome (suspicion self.old.node target)) }
        ensures refusal { IsOkUnless result NodeError.Memory }
    {
        let Some(change) = suspicion_of(&self.members, target) else {
            self.advance(moment);
            return Ok(None);
        };
        self.say(&change, moment)?;
        Ok(Some(change))
    }

    /// The serving members but the node itself, ascending.
    fn pingable(&self) -> Result<Vec<Address>, NodeError>
        ensures list { IfOk result (λ v. v.items ≡ pingable self.now.node) }
        ensures rising { IfOk result (λ v. IsStrictlyIncreasing v.items) }
        ensures out_of_memory { OnErr result (pingable self.now.node ≢ []) }
        ensures refusal { IsOkUnless result NodeError.Memory }
    {
        let own = self.members.own();
        list_pingable(self.alloc, self.members.as_slice(), own.address)
    }
}

/// The suspicion of a member that is held as alive, at its incarnation.
fn suspicion_of(members: &Members, target: Address) -> Option<Change>
    ensures { result ≡ suspicion_in (greatest members.now.members target) }
{
    let held = members.get(target)?;
    if held.status != Status::Alive {
        return None;
    }
    Some(Change {
        address: target,
        incarnation: held.incarnation,
        status: Status::Suspect,
        weight: held.weight,
    })
}
