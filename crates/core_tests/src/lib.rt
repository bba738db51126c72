//! The tests of `node_core`, `forward_core`, `locked_node`, `laws`, `cli_core` and `cli_words`. They are in one crate, since a check of it
//! reads the libraries below once.
#![tactic(auto)]

/// The rows of a table, each ended by a semicolon.
#[cfg(test)]
macro_rules! rows {
    ($($($cell:expr),+;)+) => {
        [$(($($cell),+)),+]
    };
}

/// Calls of a node: their name, and rows of a call and what it tells.
#[cfg(test)]
macro_rules! calls {
    ($name:literal: $($call:expr, $told:expr;)+) => {
        ($name, &[$(($call, $told)),+])
    };
}

/// How a node starts, and its calls.
#[cfg(test)]
macro_rules! case {
    ($start:expr, $name:literal: $($call:expr, $told:expr;)+) => {
        ($start, ($name, &[$(($call, $told)),+]))
    };
}

#[cfg(test)]
mod calls;
#[cfg(test)]
mod cases;
#[cfg(test)]
mod cli;
#[cfg(test)]
mod forward;
#[cfg(test)]
mod locked;
#[cfg(test)]
mod node;
#[cfg(test)]
mod shared;
