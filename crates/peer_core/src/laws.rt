//! Theorems about the definitions, each the contract of a function that does nothing.
ghost use Rattle.peer_core.specs.CorrectionProvenance.{CorrectionsRest};
ghost use Rattle.peer_core.specs.Exchanges.{CallsAgree, HealingsCount, SendingsCount};
ghost use Rattle.peer_core.specs.Handling.{between};
ghost use Rattle.peer_core.specs.Handlings.{RequestsHandled, ServingsHandled};
ghost use Rattle.peer_core.specs.HealingProvenance.{HealsRest};
ghost use Rattle.peer_core.specs.MemberErrors.{AnswersAgree};
ghost use Rattle.peer_core.specs.Provenance.{JoinsRest, RoundsRest, ServingsRest};
ghost use Rattle.peer_core.specs.Requests.{RequestsRest};
ghost use Rattle.peer_core.specs.Resending.{ResendingsCount};

use crate::clocks::Clock;
use crate::handlers::HandlerMut;
use crate::links::Link;
use hash_ring::PointHash;

/// Provenance of a round: all that it asserts of others came over the link. A probe is acknowledged directly after the
/// Ack that came from its target was processed, and is lost only after another answer; each helper was named by the
/// last call that reported the probe as lost, and its report is the one that came from it, or it failed. Each moment is
/// that of the round. A round is idle only if no member could be probed, and otherwise its last call ended the probe
/// that it started, in the way that it returns. The error of a round has its cause: the lock refused it, the node's
/// last reply is that error, or the link ran out of memory for the message that the last call made.
pub fn rounds<H, L: Link>()
    ensures { RoundsRest H L.may_answer }
{}

/// A join returns how many of its hosts answered by a Joined that came over the link and was processed at its moment;
/// from each other host another answer came. It processes no other message. The error of a join has its cause: no host
/// joined, which is `NoneJoined`; the lock refused it; or out of memory, in the node's last reply, or in the link for
/// the message that the last call made for one of the hosts.
pub fn joins<H, L: Link>()
    ensures { JoinsRest H L.may_answer }
{}

/// Provenance of healing: all that it processes came over the link at its moment, for a ping or a Join of the node. A
/// member that it pings was listed by the node. Its Joins are the node's own, whose one change is the node's own entry.
/// It makes no other call that changes the node. So also if healing fails.
pub fn healings<H, L: Link>()
    ensures { HealsRest H L.may_answer }
{}

/// A round that corrects its target is a round, of which [`rounds`] holds, and behind it, unless it failed or probed
/// no member, calls of the correction alone: the own entry is asked for, and a Join is the node's own. All that the correction
/// processes is the Joined that came over the link from the target for that Join. If both succeed the result is how the
/// round ended: so also if the target got a Join and another answer came, or none. An error is that of the round, or has its
/// cause in the correction: the lock refused it, or out of memory, in the node's last reply or in the link for the Join.
pub fn corrections<H, L: Link>()
    ensures { CorrectionsRest H L.may_answer }
{}

/// Provenance of an answer to a message. To a Join and a Ping it is a refusal, or the node's answer to exactly that
/// message. To a PingReq it is a refusal, or the node's last reply: this reports to the source that the target was
/// reached only if the target is the node itself, or its Ack came over the link for a ping and was processed, and that
/// it was not only if another answer came. To a Forward it is what one view of the node decides: the handler's answer
/// if the node owns all keys, that another node does, that two keys have different owners or that no member serves; or
/// out of memory for a view. Any other message is refused as unexpected.
pub fn servings<H: PointHash, L: Link, A: HandlerMut>()
    ensures { (old new : A) → ServingsRest H.hash_of L.may_answer (between A.handled old new) }
{}

/// The text of a request is the handler's, if a view of the node shows that the node owns all its keys; or it is that
/// of a Reply that came over the link from the owner of all keys in a view of the node, for a Forward by the node of
/// these keys and this body. The error of a request has its cause: the lock refused it; in a view two keys have
/// different owners, or no member serves; an answer that is a failure came from the owner; the handler failed; or out
/// of memory for a view, in the handler or in the link.
pub fn requests<H: PointHash, L: Link, A: HandlerMut, C: Clock>()
    ensures { (old new : A) → RequestsRest H.hash_of L.may_answer (between A.handled old new).once C.time }
{}

/// Messages over the link in a round, a join, a correction, healing and an answer: the link is called exactly as often as the
/// node made a Ping, a PingReq or a Join in it, and at most as many Joins go out as there are hosts, or pinged members, or two
/// in healing. So also if it ends with an error. Between two states a pass made the same calls: so a contract says of the same calls which they are, and what
/// went over the link for them.
pub fn sendings<H, L: Link>()
    ensures counted { SendingsCount H L.went }
    ensures healed { HealingsCount H L.went }
    ensures agreed { CallsAgree H }
{}

/// Forwards over the link for a request: at most four, of its keys and its body, each by another of the views that the node
/// gave in it, to the owner of the keys in that view, and each but the last was answered by a failure; nothing else. So also
/// if the request ends with an error; if that is `RetriesSpent`, there were four, and all failed.
pub fn resendings<H: PointHash, L: Link, A: HandlerMut>()
    ensures { ResendingsCount H.hash_of L.went A.handled }
{}

/// Calls of the handler. For a message: one, with its keys and its body, if it is a Forward and a view of the node shows
/// that the node owns all keys, and the answer is its result; for any other none. For a request: one at most, and how the request
/// ends. First fewer than four Forwards fail, each by another view. Then the view that the node gave last decides: by it the node owns
/// all keys, and the handler is called, once, and has the result; or one Forward more goes to the owner of the keys by it, from the state
/// in which the last of the others left the link, and the text is that of its Reply, or memory ran out for it. Or the request ends by an
/// error, and nothing more is sent: `RetriesSpent`, if and only if four Forwards failed. In the last two the handler is not called.
pub fn handlings<H: PointHash, L: Link, A: HandlerMut>()
    ensures served { ServingsHandled H.hash_of A.handled L.may_answer }
    ensures requested { RequestsHandled H.hash_of L.went A.handled }
{}

/// The result of a member's single call of its node, with its error converted, is that of the locked node, with its
/// error converted.
pub fn member_answers<T>()
    ensures { AnswersAgree T }
{}
