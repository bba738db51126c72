//! Tests of an agent's core, for what its contracts do not specify. They are a separate crate, so that the core is not
//! proved again with its tests.
#![tactic(auto)]

/// The result of a call. It is made again if an allocation failed, which happens only if `scripts/fail-alloc` runs the test.
#[cfg(test)]
macro_rules! again {
    ($rt:expr, $error:pat, $call:expr) => {
        match $call {
            Err($error) => {
                crate::refused::check_refused($rt);
                $call
            }
            answer => answer,
        }
    };
}

/// The rows of a table, each on a line and ended by a semicolon.
#[cfg(test)]
macro_rules! rows {
    ($($($cell:expr),+;)+) => {
        [$(($($cell),+)),+]
    };
}

#[cfg(test)]
mod host_list_tests;
#[cfg(test)]
mod log_line_tests;
#[cfg(test)]
mod pack_tests;
#[cfg(test)]
mod page_tests;
#[cfg(test)]
mod parts_tests;
#[cfg(test)]
mod passing_tests;
#[cfg(test)]
mod refusal_tests;
#[cfg(test)]
mod refused;
#[cfg(test)]
mod route_tests;
#[cfg(test)]
mod service_tests;
#[cfg(test)]
mod share_tests;
#[cfg(test)]
mod telling_tests;
#[cfg(test)]
mod text_tests;
#[cfg(test)]
mod warning_tests;
