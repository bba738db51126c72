//! The tests of `line_service`, `server` and `cli_net`.
#![tactic(auto)]

/// The rows of a table, each on a line and ended by a semicolon.
#[cfg(test)]
macro_rules! rows {
    ($($($cell:expr),+;)+) => {
        [$(($($cell),+)),+]
    };
}

/// Values of a type, each on a line and ended by a semicolon: like another one but for the fields that are given.
#[cfg(test)]
macro_rules! like {
    ($kind:ident: $($base:ident $({ $($field:ident: $value:expr),+ })?;)+) => {
        [$($kind { $($($field: $value,)+)? ..$base }),+]
    };
}

#[cfg(test)]
mod answers;
#[cfg(test)]
mod clocks;
#[cfg(test)]
mod connections;
#[cfg(test)]
mod library;
#[cfg(test)]
mod limits;
#[cfg(test)]
mod lines;
#[cfg(test)]
mod names;
#[cfg(test)]
mod peers;
#[cfg(test)]
mod plans;
#[cfg(test)]
mod rounds;
#[cfg(test)]
mod seats;
#[cfg(test)]
mod servers;
#[cfg(test)]
mod shared;
#[cfg(test)]
mod starts;
#[cfg(test)]
mod talks;
