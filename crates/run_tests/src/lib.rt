//! The tests of `cli_run`: the program's output for arguments and an input, and the text of each error; and those of `agent`: agents in one
//! process.
#![tactic(auto)]

/// The rows of a table, each on a line and ended by a semicolon.
#[cfg(test)]
macro_rules! rows {
    ($($($cell:expr),+;)+) => {
        [$(($($cell),+)),+]
    };
}

#[cfg(test)]
mod agents;
#[cfg(test)]
mod faults;
#[cfg(test)]
mod owners;
#[cfg(test)]
mod plays;
#[cfg(test)]
mod requests;
#[cfg(test)]
mod runs;
#[cfg(test)]
mod services;
#[cfg(test)]
mod shared;
