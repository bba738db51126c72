//! The tests of the crates below the node: what their contracts do not cover. They are in a separate crate, so that a
//! crate is not proved again with its tests.
#![tactic(auto)]

/// What a call answers. It is made again if an allocation failed, which happens only if `scripts/fail-alloc` runs the test.
#[cfg(test)]
macro_rules! again {
    ($rt:expr, $error:ident, $call:expr) => {
        match $call {
            Err($error::Memory) => {
                crate::given::check_refused($rt);
                $call
            }
            answer => answer,
        }
    };
}

/// The rows of a table, each on a line and ended by a semicolon.
#[cfg(test)]
macro_rules! rows {
    ($($($cell:expr),+;)+) => {
        [$(($($cell),+)),+]
    };
}

#[cfg(test)]
mod change_tests;
#[cfg(test)]
mod detector_tests;
#[cfg(test)]
mod given;
#[cfg(test)]
mod gossip_tests;
#[cfg(test)]
mod lock_tests;
#[cfg(test)]
mod member_tests;
#[cfg(test)]
mod ring_tests;
#[cfg(test)]
mod wire_tests;
