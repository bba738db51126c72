//! Theorems about the pending list, which follow from its definitions for every list, with no code to run.
ghost use Rattle.std.specs.Prelude.{◌≡◌, ◌≢◌, ◌≤◌, ◌+◌, ℕ, List, All, length, sum_by};
ghost use Rattle.change_core.specs.declared.changes.Sourced.{Sourced};
ghost use Rattle.gossip_core.specs.declared.pending.Pending.{Pending};
ghost use Rattle.gossip_core.specs.Dissemination.{Dissemination, with_news, IsWhole};
ghost use Rattle.gossip_core.specs.Pending.{issued, counted, OnePerAddress};
ghost use Rattle.gossip_core.specs.Runs.{Event, times_issued, greatest_limit, IsElsewhere};

/// The issued changes are those whose count rises by 1: the counts of all pending changes together grow by as many as
/// are issued.
pub fn issued_count_one_more()
    ensures { (target k : ℕ) (ps : List Pending) → OnePerAddress ps
        → sum_by (λ p. p.count) (counted target k ps) ≡ sum_by (λ p. p.count) ps + length (issued target k ps) }
{}

/// A change is never issued to the node that it came from.
pub fn never_to_its_source()
    ensures { (target k : ℕ) (ps : List Pending) → All (λ s. s.source ≢ target) (issued target k ps) }
{}

/// From one put to the next for its address, a change is issued at most as often as the greatest limit in between.
pub fn issued_within_the_limit()
    ensures { (g : Dissemination) (s : Sourced) (es : List Event) → IsWhole g → All (IsElsewhere s.change.address) es
        → times_issued s.change.address (with_news g s) es ≤ greatest_limit (with_news g s) es }
{}
