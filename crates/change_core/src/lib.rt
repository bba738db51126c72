//! The updates that nodes exchange about one another: addresses, incarnations, statuses, weights and changes, and which
//! of two changes has precedence.
//!
//! The membership of SWIM (Das, Gupta, Motivala, DSN 2002, section 4.2) with the statuses of ringpop-go's package
//! `swim`. Every format, bound and order here is this project's choice. `laws` has the theorems about them.
#![tactic(auto)]

mod addresses;
mod changes;
mod decimals;
mod digests;
mod errors;
mod fixed_texts;
pub mod laws;
mod numbers;
mod statuses;
mod weights;

pub use addresses::Address;
pub use changes::{Change, Entry, Sourced};
pub use decimals::read_number;
pub use digests::Digest;
pub use errors::ChangeError;
pub use fixed_texts::{AddressText, DigestText};
pub use numbers::{Incarnation, MAX_MEMBERS, MAX_NUMBER, Moment};
pub use statuses::Status;
pub use weights::{MAX_WEIGHT, Weight};
