//! Theorems about the definitions, each the contract of a function that does nothing.
ghost use Rattle.locked_node.specs.Agreement.{ClosedAgree};
ghost use Rattle.locked_node.specs.History.{HistoriesKeepIt};
ghost use Rattle.locked_node.specs.Losses.{LossesAreTakenOnce};
ghost use Rattle.locked_node.specs.Passes.{CallsShowLegal, ClosingShowsLegal, MadeInTurn};

use hash_ring::PointHash;

/// Two closed nodes whose histories' logs hold the same changes hold the same members, with one text and digest, name the
/// same owners of every key, and have the same ring, if they were made with one hash and one number of replica points,
/// whatever their threads did.
pub fn agreement<H: PointHash>()
    ensures { ClosedAgree H.hash_of }
{}

/// The invariant of a node holds before each call of a legal history, and after the last, if it held at the opening.
pub fn kept<H: PointHash>()
    ensures { HistoriesKeepIt H.hash_of }
{}

/// Two steps of a pass, one after the other, are one: the calls of both in turn.
pub fn steps<H>()
    ensures { MadeInTurn H }
{}

/// All that a pass has seen is a history that is legal from the node's opening. So a call that is made shows this of
/// the given pass, however many calls of whatever kind it made before, and closing shows it of every pass.
pub fn legality<H: PointHash>()
    ensures called { CallsShowLegal H.hash_of }
    ensures closed { ClosingShowsLegal H.hash_of }
{}

/// Once a node has accepted that a probe is lost, it returns `StaleProbe` to any pass that reports that loss again,
/// whether the probe's helpers have answered by then or not.
pub fn losses<H: PointHash>()
    ensures { LossesAreTakenOnce H.hash_of }
{}
