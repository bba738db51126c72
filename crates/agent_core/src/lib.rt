//! The core of an agent, a program that joins a cluster for an application in any language and serves HTTP: the action of
//! a request, the application's answer as one text and back, the texts of members, owners, counts and refusals, and what
//! its log warns of. It performs no action itself.
#![tactic(auto)]

mod actions;
mod answers;
mod counts;
mod descriptors;
mod gossip_metrics;
mod host_lists;
mod key_lists;
pub mod laws;
mod levels;
mod log_lines;
mod metrics;
mod packs;
mod pages;
mod parts;
mod passing;
mod questions;
mod refusals;
mod routes;
mod samples;
mod services;
mod shares;
mod tellings;
mod texts;
mod tombstones;
mod verbs;
mod waits;
mod warnings;

pub use actions::Action;
pub use answers::{Answer, Kind};
pub use counts::{
    BUCKETS, ChangeCounts, KeptCounts, LogCounts, PortCounts, ProcessCounts, RefusalCounts,
    StatusCounts, TimeCounts, WaitingCounts, bucket_of,
};
pub use descriptors::{Budget, MAX_NODES, MIN_DESCRIPTORS};
pub use host_lists::{HostsFault, MAX_HOSTS, MAX_HOSTS_BYTES, hosts_in};
pub use key_lists::{KeyList, MAX_LISTED};
pub use levels::{LogLevel, level_line};
pub use log_lines::json_line;
pub use metrics::{Counts, metrics_text};
pub use packs::{MAX_BODY_BYTES, MAX_STATUS, MIN_STATUS, Packed, pack, unpack};
pub use pages::PAGE;
pub use parts::{
    MAX_REQUEST_BYTES, body_in, pack_body, pack_bytes, parts_in, push_part, unpack_bytes,
};
pub use passing::{
    Field, Outgoing, PassedAnswer, PassedRequest, answer_in, answer_of, is_of_connection,
    is_repeatable, join_request, pack_answer, pack_request, push_field, request_in, request_of,
};
pub use questions::{MAX_SECONDS, question_at};
pub use refusals::{Failure, KeyFault, Part, Refusal};
pub use routes::{MAX_KEY_BYTES, MAX_OWNERS, key_of, key_text, route};
pub use services::{Move, Sight, Watch};
pub use shares::{MAX_OWN, MAX_WAITING, OWNER_SHARE, Shares};
pub use tellings::{Ring, Telling};
pub use texts::{digest_line, members_text, on_ring, owners_text, push_owners, ring_text};
pub use tombstones::Tombstones;
pub use verbs::Verb;
pub use waits::wait_of;
pub use warnings::{
    MANY_ADDRESSES, MAX_ADMITTED, Notice, Refutations, are_many_addresses, is_admitted, is_live,
};
