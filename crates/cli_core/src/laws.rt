//! Theorems about runs, over all inputs and all texts that may be written of the members.
ghost use Rattle.std.specs.Prelude.{◌≡◌, ◌≤◌, ℕ, List, length};
ghost use Rattle.change_core.specs.declared.changes.Change.{Change};
ghost use Rattle.change_core.specs.Numbers.{greatest_number};
ghost use Rattle.cli_core.specs.Input.{lines_of};
ghost use Rattle.cli_core.specs.Changes.{HaveSameLines, IsFirstFault, IsOutside, IsRefused};
ghost use Rattle.cli_core.specs.Runs.{RunsTo};
ghost use Rattle.cli_core.specs.ScriptLines.{IsCommand, IsSameCommand};
ghost use Rattle.cli_core.specs.declared.faults.LineError.{LineError};
ghost use Rattle.cli_core.specs.declared.faults.RunError.{RunError};
ghost use Rattle.cli_core.specs.declared.scripts.lines.Command.{Command};

/// An input has at most one output. One that has an output is never refused for an error in its lines, and one that is
/// so refused has one such error, at one line. The order of the lines and repetition make no difference.
pub fn one_run()
    ensures one_output { (text : List Change → List ℕ) (input output other : List ℕ)
        → RunsTo text input output → RunsTo text input other → output ≡ other }
    ensures no_fault { (text : List Change → List ℕ) (input output : List ℕ) (fault : RunError)
        → RunsTo text input output → IsRefused input fault → IsOutside fault }
    ensures one_fault { (input : List ℕ) (m n : ℕ) (e f : LineError)
        → IsFirstFault input m e → IsFirstFault input n f
        → ¬ IsOutside (RunError.AtLine m e) → ¬ IsOutside (RunError.AtLine n f)
        → RunError.AtLine m e ≡ RunError.AtLine n f }
    ensures any_order { (text : List Change → List ℕ) (input other output : List ℕ)
        → RunsTo text input output → HaveSameLines (lines_of input) (lines_of other)
        → length (lines_of other) ≤ greatest_number → RunsTo text other output }
{}

/// A line of a script is one command at most.
pub fn one_command()
    ensures { (c d : Command) (line : List ℕ) → IsCommand c line → IsCommand d line → IsSameCommand c d }
{}
