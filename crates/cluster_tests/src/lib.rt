//! The tests of peer_core, transport, cluster_core and kept_links.
#![tactic(auto)]

/// The rows of a table, each on a line and ended by a semicolon.
#[cfg(test)]
macro_rules! rows {
    ($($($cell:expr),+;)+) => {
        [$(($($cell),+)),+]
    };
}

#[cfg(test)]
mod clusters;
#[cfg(test)]
mod fakes;
#[cfg(test)]
mod forwarding;
#[cfg(test)]
mod healing;
#[cfg(test)]
mod interrupted;
#[cfg(test)]
mod kept;
#[cfg(test)]
mod members;
#[cfg(test)]
mod messages;
#[cfg(test)]
mod nodes;
#[cfg(test)]
mod owners;
#[cfg(test)]
mod posts;
#[cfg(test)]
mod refusals;
#[cfg(test)]
mod rounds;
#[cfg(test)]
mod serving;
#[cfg(test)]
mod shared;
#[cfg(test)]
mod tcp;
#[cfg(test)]
mod texts;
#[cfg(test)]
mod worlds;
