//! The lists that replies and events hold.
ghost use Rattle.std.specs.Prelude.{◌≡◌};

use change_core::Change;
use std::marker::Model;

/// A list of changes, one for each member. Contracts see the list.
#[derive(Debug, Drop)]
pub struct ChangeList {
    changes: Vec<Change>,
}

impl Model for ChangeList {
    ghost use Rattle.std.specs.Prelude.{List};
    ghost use Rattle.change_core.specs.declared.changes.Change.{Change};

    ghost Value = { List Change };

    ghost view = { λ a. a.changes.items };
}

impl ChangeList {
    /// The list of these changes.
    pub fn from_vec(changes: Vec<Change>) -> Self
        ensures { result ≡ changes.items }
    {
        ChangeList { changes }
    }

    /// The changes, in their order.
    pub fn as_slice(&self) -> &[Change]
        ensures { result.now ≡ self.now }
    {
        self.changes.as_slice()
    }
}

/// The bytes of a key. Contracts see the list.
#[derive(Debug, Drop)]
pub struct KeyBytes {
    bytes: Vec<u8>,
}

impl Model for KeyBytes {
    ghost use Rattle.std.specs.Prelude.{ℕ, List};

    ghost Value = { List ℕ };

    ghost view = { λ a. a.bytes.items };
}

impl KeyBytes {
    /// The key of these bytes.
    pub fn from_vec(bytes: Vec<u8>) -> Self
        ensures { result ≡ bytes.items }
    {
        KeyBytes { bytes }
    }

    /// The bytes, in their order.
    pub fn as_slice(&self) -> &[u8]
        ensures { result.now ≡ self.now }
    {
        self.bytes.as_slice()
    }
}
