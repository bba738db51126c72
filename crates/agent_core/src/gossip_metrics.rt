//! The metrics of gossip, in the text format of Prometheus (version 0.0.4).
ghost use Rattle.std.specs.Prelude.{◌≡◌, ◌++◌, OnOk, string_bytes};
ghost use Rattle.agent_core.specs.Metrics.{change_samples, round_samples};

use crate::counts::ChangeCounts;
use crate::metrics::Counts;
use crate::samples::push_counter;
use std::alloc::AllocError;

/// Appends the number of rounds by outcome.
pub(crate) fn push_rounds(text: &mut String, counts: &Counts) -> Result<(), AllocError>
    ensures { OnOk result (string_bytes text.new ≡ string_bytes text.old ++ round_samples counts.now) }
{
    push_counter(
        text,
        "ringpop_rounds_total",
        "Rounds of gossip, by outcome.",
        &[
            ("{outcome=\"idle\"}", counts.idle),
            ("{outcome=\"reached\"}", counts.reached),
            ("{outcome=\"suspected\"}", counts.suspected),
            ("{outcome=\"inconclusive\"}", counts.inconclusive),
            ("{outcome=\"error\"}", counts.broken),
        ],
    )?;
    Ok(())
}

/// Appends the numbers of changes of members by the status that they got, and of refutations.
pub(crate) fn push_changes(text: &mut String, changes: &ChangeCounts) -> Result<(), AllocError>
    ensures { OnOk result (string_bytes text.new ≡ string_bytes text.old ++ change_samples changes.now) }
{
    push_counter(
        text,
        "ringpop_member_changes_total",
        "Changes of other members that this node learnt, by the status that they got.",
        &[
            ("{status=\"alive\"}", changes.alive),
            ("{status=\"suspect\"}", changes.suspect),
            ("{status=\"faulty\"}", changes.faulty),
            ("{status=\"leave\"}", changes.leave),
            ("{status=\"tombstone\"}", changes.tombstone),
        ],
    )?;
    push_counter(
        text,
        "ringpop_refutations_total",
        "Rounds after which this node had refuted what others held of it.",
        &[("", changes.refuted)],
    )?;
    Ok(())
}
