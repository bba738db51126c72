//! The texts of the errors of links and clusters.

use message_core::WireError;
use node_core::ConfigField;
use peer_core::{
    CallError, ClusterError, JoinError, LeaveError, LinkError, RejoinError, RequestError,
    RoundError,
};
use std::alloc::Global;
use std::fmt;
use std::process::Abort;

/// Errors of a cluster, and the error text.
const CLUSTER_ERRORS: [(ClusterError, &str); 20] = rows! {
    ClusterError::NoNode, "no node has the address";
    ClusterError::NoneJoined, "no host joined";
    ClusterError::Diverged, "the keys have different owners";
    ClusterError::Nobody, "nobody serves";
    ClusterError::RetriesSpent, "no retry is left";
    ClusterError::InFlight, "a send is in flight";
    ClusterError::NotInFlight, "no send is in flight";
    ClusterError::HandlerFault, "the handler failed";
    ClusterError::ForeignPass, "foreign pass";
    ClusterError::PassSpent, "pass spent";
    ClusterError::BadConfig(ConfigField::Replicas), "bad configuration: replicas";
    ClusterError::Exhausted, "no incarnation is left";
    ClusterError::Full, "too many members";
    ClusterError::AlreadyLeft, "the node has left already";
    ClusterError::NotLeft, "the node has not left";
    ClusterError::Busy, "a probe is running";
    ClusterError::Spent, "no probe number is left";
    ClusterError::StaleProbe, "the probe does not run";
    ClusterError::NotAsked, "the helper was not asked";
    ClusterError::Memory, "out of memory";
};

/// Errors of a link, and the error text.
const LINK_ERRORS: [(LinkError, &str); 5] = [
    (LinkError::Io, "the link failed"),
    (LinkError::Closed, "the link is closed"),
    (LinkError::Wire(WireError::BadJson), "not JSON"),
    (LinkError::Spent, "the link is spent"),
    (LinkError::Memory, "out of memory"),
];

/// Errors of a member's calls, each with the error of a cluster that it is: the one of the same name.
macro_rules! errors {
    ($kind:ident: $($name:ident)+) => {
        [$(($kind::$name, ClusterError::$name)),+]
    };
}

const ROUND_ERRORS: [(RoundError, ClusterError); 7] =
    errors!(RoundError: ForeignPass PassSpent Busy Spent StaleProbe NotAsked Memory);

const JOIN_ERRORS: [(JoinError, ClusterError); 4] =
    errors!(JoinError: NoneJoined ForeignPass PassSpent Memory);

const REQUEST_ERRORS: [(RequestError, ClusterError); 7] = errors!(RequestError:
    Diverged Nobody RetriesSpent HandlerFault ForeignPass PassSpent Memory);

const CALL_ERRORS: [(CallError, ClusterError); 3] =
    errors!(CallError: ForeignPass PassSpent Memory);

const LEAVE_ERRORS: [(LeaveError, ClusterError); 4] =
    errors!(LeaveError: ForeignPass PassSpent AlreadyLeft Memory);

const REJOIN_ERRORS: [(RejoinError, ClusterError); 5] =
    errors!(RejoinError: ForeignPass PassSpent NotLeft Exhausted Memory);

/// The text of an error of a cluster.
fn text_of(wanted: ClusterError) -> Option<&'static str> {
    for (error, text) in &CLUSTER_ERRORS {
        if *error == wanted {
            return Some(*text);
        }
    }
    None
}

/// Checks that errors of a member have the texts of the errors of a cluster that they are.
fn check_texts<E: fmt::Display>(rt: &impl Abort, alloc: Global, errors: &[(E, ClusterError)]) {
    for (error, wanted) in errors {
        let text = text_of(*wanted).expect(rt, "a text");
        assert!(rt; is_said(alloc, error, text), "{text}");
    }
}

/// Whether this is the text of an error. After a failed allocation it is made again.
fn is_said<E: fmt::Display>(alloc: Global, error: &E, text: &str) -> bool {
    for _ in 0..2 {
        if let Ok(said) = format!(in alloc; "{error}") {
            return said.as_str() == text;
        }
    }
    false
}

/// Each of the twenty refusals of a cluster and the five faults of a link has its text.
#[test]
fn each_error_has_its_text(rt: HostRuntime) {
    for (error, text) in &CLUSTER_ERRORS {
        assert!(rt; is_said(rt.alloc(), error, *text), "{text}");
    }
    for (error, text) in &LINK_ERRORS {
        assert!(rt; is_said(rt.alloc(), error, *text), "{text}");
    }
}

#[test]
fn an_error_of_a_member_has_the_text_of_the_clusters(rt: HostRuntime) {
    let alloc = rt.alloc();
    check_texts(&rt, alloc, &ROUND_ERRORS);
    check_texts(&rt, alloc, &JOIN_ERRORS);
    check_texts(&rt, alloc, &REQUEST_ERRORS);
    check_texts(&rt, alloc, &CALL_ERRORS);
    check_texts(&rt, alloc, &LEAVE_ERRORS);
    check_texts(&rt, alloc, &REJOIN_ERRORS);
}
