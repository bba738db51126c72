//! Calls of one node, and its answers.
ghost use Rattle.std.specs.Prelude.{IfErr, IfOk, IsOkUnless};
ghost use Rattle.cli_core.specs.Simulated.{NodeAnswers, NodeLacks};

use crate::scripts::answers::Answer;
use crate::scripts::faults::ScriptError;
use crate::scripts::lines::Question;
use change_core::{Change, Moment, Sourced};
use hash_ring::PointHash;
use node_core::{NodeError, NodeState};

/// Makes a call of a node, at a moment.
///
/// # Errors
///
/// - `OutOfMemory`: out of memory.
pub fn ask<H: PointHash>(
    node: &mut NodeState<H>,
    moment: Moment,
    question: &Question<'_>,
) -> Result<Answer, ScriptError>
    ensures answer { IfOk result (λ answer. NodeAnswers H.hash_of moment node.old.node question.now answer node.new.node) }
    ensures refusal { IsOkUnless result ScriptError.OutOfMemory }
    ensures memory { IfErr result (λ _. NodeLacks H.hash_of moment node.old.node question.now node.new.node) }
{
    answer_of(node, moment, question).map_err(|_| ScriptError::OutOfMemory)
}

/// Returns a node's answer. The only error is out of memory.
fn answer_of<H: PointHash>(
    node: &mut NodeState<H>,
    moment: Moment,
    question: &Question<'_>,
) -> Result<Answer, NodeError>
    ensures answer { IfOk result (λ answer. NodeAnswers H.hash_of moment node.old.node question.now answer node.new.node) }
    ensures memory { IfErr result (λ _. NodeLacks H.hash_of moment node.old.node question.now node.new.node) }
{
    match question {
        Question::Take(change) => Ok(take(node, moment, change)),
        Question::Leave => match node.leave() {
            Err(NodeError::AlreadyLeft) => Ok(Answer::AlreadyLeft),
            said => Ok(Answer::Said(said?)),
        },
        Question::Rejoin => match node.rejoin() {
            Err(NodeError::NotLeft) => Ok(Answer::NotLeft),
            Err(NodeError::Exhausted) => Ok(Answer::Exhausted),
            said => Ok(Answer::Said(said?)),
        },
        Question::Expire => match node.expire(moment)? {
            Some(change) => Ok(Answer::Said(change)),
            None => Ok(Answer::Nothing),
        },
        Question::Members => Ok(Answer::Members(node.digest_text()?)),
        Question::Digest => Ok(Answer::Digest(node.digest()?)),
        Question::Owners(count, key) => Ok(Answer::Owners(node.owners(key, *count)?)),
    }
}

/// Passes a change to the node with the change's subject as its source.
fn take<H: PointHash>(node: &mut NodeState<H>, moment: Moment, change: &Change) -> Answer
    ensures { NodeAnswers H.hash_of moment node.old.node (Question.Take change.now) result node.new.node }
{
    let given = Sourced {
        change: *change,
        source: change.address,
        source_incarnation: change.incarnation,
    };
    match node.take(&[given], moment) {
        Ok(taken) => Answer::Taken(taken),
        Err(stopped) => Answer::Stopped(stopped),
    }
}
