ghost use Rattle.std.specs.Prelude.{◌≡◌};

use change_core::Address;
use std::marker::Model;

/// A list of addresses. Contracts see the list.
#[derive(Debug, Drop)]
pub struct Addresses {
    addresses: Vec<Address>,
}

impl Model for Addresses {
    ghost use Rattle.std.specs.Prelude.{ℕ, List};

    ghost Value = { List ℕ };

    ghost view = { λ a. a.addresses.items };
}

impl Addresses {
    /// These addresses. It takes no memory.
    pub fn from_vec(addresses: Vec<Address>) -> Self
        ensures { result ≡ addresses.items }
    {
        Addresses { addresses }
    }

    /// The addresses.
    pub fn as_slice(&self) -> &[Address]
        ensures { result.now ≡ self.now }
    {
        self.addresses.as_slice()
    }
}
