//! Theorems of the names of clusters.
ghost use Rattle.std.specs.Prelude.{◌≡◌, ◌≢◌, ℕ, List};
ghost use Rattle.serde_json.specs.Written.{compact_text};
ghost use Rattle.message_core.specs.declared.messages.Message.{Message};
ghost use Rattle.wire_json.specs.Messages.{message_data};
ghost use Rattle.cluster_names.specs.Names.{IsName, IsPlain, named};

/// A line that has a name is of one cluster and for one line without a name: what a node of a cluster sends, a node of the same cluster reads
/// back, and a node of another one never takes. The line of a message has no name.
pub fn names()
    ensures one { (a : List ℕ) (b : List ℕ) (x : List ℕ) (y : List ℕ) → IsName a → IsName b → IsPlain x → IsPlain y
        → named a x ≡ named b y → (a ≡ b) × (x ≡ y) }
    ensures unnamed { (name : List ℕ) (line : List ℕ) (message : Message) → compact_text (message_data message) ≢ named name line }
{}
