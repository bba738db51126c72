use agent_core::laws::rings;
use agent_core::*;
use change_core::{Address, Change, Digest, Incarnation, Status, Weight};
use hash_ring::{Ring, RingError, SumHash};
use std::alloc::{AllocError, Global};
use std::env::Env;
use std::process::Abort;

fn address(rt: &impl Abort, text: &str) -> Address {
    Address::parse(text).ok().expect(rt, "an address")
}

fn member(rt: &impl Abort, text: &str, status: Status, number: u64, weight: u8) -> Change {
    Change {
        address: address(rt, text),
        incarnation: Incarnation::new(number).expect(rt, "an incarnation"),
        status,
        weight: Weight::new(weight).expect(rt, "a weight"),
    }
}

#[test]
fn writes_owners(rt: HostRuntime) {
    let owners = [address(&rt, "10.0.0.1:7946"), address(&rt, "10.0.0.2:1")];
    for (count, wanted) in &[
        (0usize, "{\"owners\":[]}\n"),
        (1, "{\"owners\":[\"10.0.0.1:7946\"]}\n"),
        (2, "{\"owners\":[\"10.0.0.1:7946\",\"10.0.0.2:1\"]}\n"),
    ] {
        assert!(rt; *count <= 2);
        let text = again!(&rt, AllocError, owners_text(rt.alloc(), &owners[..*count]));
        assert!(rt;
            text.ok().expect(&rt, "a text").as_str() == *wanted,
            "{wanted}"
        );
    }
}

#[test]
fn writes_the_owners_of_one_key_of_many(rt: HostRuntime) {
    let owners = [address(&rt, "10.0.0.1:7946"), address(&rt, "10.0.0.2:1")];
    for (hidden, wanted) in &[
        (None, "[\"10.0.0.1:7946\",\"10.0.0.2:1\"]"),
        (Some(owners[1]), "[\"10.0.0.1:7946\",\"10.0.0.2:1\"]"),
        (Some(owners[0]), "null"),
    ] {
        let mut text = String::new(rt.alloc());
        let pushed = again!(
            &rt,
            AllocError,
            {
                text.clear();
                push_owners(&mut text, &owners, *hidden)
            }
        );
        assert!(rt; pushed.is_ok() && text.as_str() == *wanted, "{wanted}");
    }
}

/// The text of the ring of these members with a digest, and the owners of a key by it.
fn ring_of(rt: &(impl Abort + Env), alloc: Global, members: &[Change]) -> (String, Vec<Address>) {
    let digest = Digest::parse(DIGITS).expect(rt, "a digest");
    let own = address(rt, "10.0.0.1:7946");
    let servers = again!(rt, AllocError, on_ring(alloc, members))
        .ok()
        .expect(rt, "servers");
    let text = again!(
        rt,
        AllocError,
        ring_text(alloc, own, &digest, 100, servers.as_slice())
    );
    let owners = again!(rt, RingError::Memory, owners_by(alloc, servers.as_slice()));
    (
        text.ok().expect(rt, "a text"),
        owners.ok().expect(rt, "owners"),
    )
}

/// The owners of `zzzz1` among these, by the sum of bytes and two points for each unit of weight.
fn owners_by(alloc: Global, servers: &[Change]) -> Result<Vec<Address>, RingError> {
    let mut ring = Ring::new(alloc, SumHash, 2)?;
    for server in servers {
        ring.reserve_for(server.address, server.weight)?;
        ring.add(server.address, server.weight);
    }
    ring.owners(b"zzzz1", 3)
}

/// Two lists of members that differ, with one ring: one text, and one list of owners.
#[test]
fn writes_the_ring(rt: HostRuntime) {
    rings();
    let members = [
        member(&rt, "10.0.0.1:7946", Status::Suspect, 7, 1),
        member(&rt, "10.0.0.2:7946", Status::Faulty, 0, 8),
        member(&rt, "10.0.0.3:7946", Status::Alive, 9, 2),
    ];
    let others = [
        member(&rt, "10.0.0.1:7946", Status::Alive, 8, 1),
        member(&rt, "10.0.0.3:7946", Status::Suspect, 5, 2),
        member(&rt, "10.0.0.4:7946", Status::Leave, 1, 3),
    ];
    let (text, owners) = ring_of(&rt, rt.alloc(), &members);
    let wanted =
        "{\"ring\":\"e3b0c44298fc1c149afbf4c8996fb92427ae41e4649b934ca495991b7852b855\",\"own\":\"10.0.0.1:7946\",\"replicas\":100,\"serving\":[{\"address\":\"10.0.0.1:7946\",\"weight\":1},{\"address\":\"10.0.0.3:7946\",\"weight\":2}]}\n";
    assert!(rt; text.as_str() == wanted && owners.len() == 2);
    let (text, same) = ring_of(&rt, rt.alloc(), &others);
    assert!(rt; text.as_str() == wanted && same.as_slice() == owners.as_slice());
}

/// The SHA-256 of the empty text (FIPS 180-4).
const DIGITS: &str = "e3b0c44298fc1c149afbf4c8996fb92427ae41e4649b934ca495991b7852b855";

#[test]
fn writes_members_and_digests(rt: HostRuntime) {
    let digest = Digest::parse(DIGITS).expect(&rt, "a digest");
    let own = address(&rt, "10.0.0.1:7946");
    let members = [
        member(&rt, "10.0.0.1:7946", Status::Alive, 1_790_000_000_000, 1),
        member(&rt, "10.0.0.2:7946", Status::Tombstone, 0, 8),
    ];
    let text = again!(
        &rt,
        AllocError,
        members_text(rt.alloc(), own, &digest, 100, &members)
    );
    let wanted =
        "{\"address\":\"10.0.0.1:7946\",\"digest\":\"e3b0c44298fc1c149afbf4c8996fb92427ae41e4649b934ca495991b7852b855\",\"replicas\":100,\"addresses_used\":2,\"addresses_max\":4096,\"members\":[{\"address\":\"10.0.0.1:7946\",\"status\":\"alive\",\"incarnation\":1790000000000,\"weight\":1},{\"address\":\"10.0.0.2:7946\",\"status\":\"tombstone\",\"incarnation\":0,\"weight\":8}]}\n";
    assert!(rt; text.ok().expect(&rt, "a text").as_str() == wanted);
    let line = again!(&rt, AllocError, digest_line(rt.alloc(), &digest))
        .ok()
        .expect(&rt, "a line");
    assert!(rt;
        line.as_str() == "e3b0c44298fc1c149afbf4c8996fb92427ae41e4649b934ca495991b7852b855\n"
    );
}

#[test]
fn tells_each_level_of_the_log(rt: HostRuntime) {
    for (level, name, line) in &[
        (LogLevel::Off, "off", "log level off, was debug\n"),
        (LogLevel::Error, "error", "log level error, was debug\n"),
        (LogLevel::Warn, "warn", "log level warn, was debug\n"),
        (LogLevel::Info, "info", "log level info, was debug\n"),
        (LogLevel::Debug, "debug", "log level debug, was debug\n"),
    ] {
        let told = again!(
            &rt,
            AllocError,
            level_line(rt.alloc(), *level, Some(LogLevel::Debug))
        );
        assert!(rt; told.ok().expect(&rt, "a line").as_str() == *line);
        assert!(rt; LogLevel::named(name) == Some(*level), "{name}");
        assert!(rt; LogLevel::at(level.number()) == *level, "{name}");
    }
    let told = again!(&rt, AllocError, level_line(rt.alloc(), LogLevel::Off, None));
    assert!(rt; told.ok().expect(&rt, "a line").as_str() == "log level off\n");
}

/// A time in microseconds, and the bucket in which it is counted.
const TIMES: [(u64, usize); 10] = [
    (0, 0),
    (250, 0),
    (251, 1),
    (1_000, 2),
    (1_001, 3),
    (50_000, 5),
    (1_000_000, 8),
    (1_000_001, 9),
    (10_000_001, 11),
    (u64::MAX, 11),
];

const METRICS: &str = "# HELP ringpop_build_info The version of the program, as a label.
# TYPE ringpop_build_info gauge
ringpop_build_info{version=\"1.0.0-dev\"} 1
# HELP ringpop_members Members that the node holds, by status.
# TYPE ringpop_members gauge
ringpop_members{status=\"alive\"} 2
ringpop_members{status=\"suspect\"} 0
ringpop_members{status=\"faulty\"} 1
ringpop_members{status=\"leave\"} 0
ringpop_members{status=\"tombstone\"} 0
# HELP ringpop_addresses_used Addresses that the node holds, those of members that left or died included.
# TYPE ringpop_addresses_used gauge
ringpop_addresses_used 3
# HELP ringpop_addresses_max Addresses that a node can hold.
# TYPE ringpop_addresses_max gauge
ringpop_addresses_max 4096
# HELP ringpop_incarnation The incarnation of the node, in its own entry at the last change of its members.
# TYPE ringpop_incarnation gauge
ringpop_incarnation 1700000000000
# HELP ringpop_digest The first six bytes of the digest of the members at their last change: nodes that agree have one number.
# TYPE ringpop_digest gauge
ringpop_digest 281474976710655
# HELP process_resident_memory_bytes Memory that the process holds.
# TYPE process_resident_memory_bytes gauge
process_resident_memory_bytes 33554432
# HELP process_open_fds Descriptors that are open.
# TYPE process_open_fds gauge
process_open_fds 30
# HELP process_max_fds Descriptors that may be open.
# TYPE process_max_fds gauge
process_max_fds 31
# HELP process_start_time_seconds When the process started, in seconds since 1970.
# TYPE process_start_time_seconds gauge
process_start_time_seconds 1700000000
# HELP process_cpu_seconds_total Processor time that the process used.
# TYPE process_cpu_seconds_total counter
process_cpu_seconds_total 32e-3
# HELP ringpop_requests_total Requests of keys that this agent answered over HTTP, by outcome.
# TYPE ringpop_requests_total counter
ringpop_requests_total{outcome=\"answered\"} 7
ringpop_requests_total{outcome=\"refused\"} 2
ringpop_requests_total{outcome=\"failed\"} 1
# HELP ringpop_handled_total Requests of keys that the service of this agent was to handle, those of other nodes included.
# TYPE ringpop_handled_total counter
ringpop_handled_total 4
# HELP ringpop_forwards_total Sends of a request of a key to another node, repeated ones and those passed on included.
# TYPE ringpop_forwards_total counter
ringpop_forwards_total 3
# HELP ringpop_passed_on_total Requests of other nodes that were passed on to the owner.
# TYPE ringpop_passed_on_total counter
ringpop_passed_on_total 11
# HELP ringpop_answers_total Answers to requests of keys over HTTP, by who made them and by status.
# TYPE ringpop_answers_total counter
ringpop_answers_total{from=\"service\",status=\"2xx\"} 23
ringpop_answers_total{from=\"service\",status=\"3xx\"} 24
ringpop_answers_total{from=\"service\",status=\"4xx\"} 25
ringpop_answers_total{from=\"service\",status=\"5xx\"} 26
ringpop_answers_total{from=\"agent\",status=\"2xx\"} 0
ringpop_answers_total{from=\"agent\",status=\"3xx\"} 27
ringpop_answers_total{from=\"agent\",status=\"4xx\"} 28
ringpop_answers_total{from=\"agent\",status=\"5xx\"} 29
# HELP ringpop_request_seconds Time of requests of keys over HTTP, those to other nodes included.
# TYPE ringpop_request_seconds histogram
ringpop_request_seconds_bucket{le=\"0.00025\"} 1
ringpop_request_seconds_bucket{le=\"0.0005\"} 3
ringpop_request_seconds_bucket{le=\"0.001\"} 5
ringpop_request_seconds_bucket{le=\"0.005\"} 8
ringpop_request_seconds_bucket{le=\"0.01\"} 8
ringpop_request_seconds_bucket{le=\"0.05\"} 8
ringpop_request_seconds_bucket{le=\"0.1\"} 8
ringpop_request_seconds_bucket{le=\"0.5\"} 9
ringpop_request_seconds_bucket{le=\"1\"} 9
ringpop_request_seconds_bucket{le=\"5\"} 9
ringpop_request_seconds_bucket{le=\"10\"} 9
ringpop_request_seconds_bucket{le=\"+Inf\"} 10
ringpop_request_seconds_sum 12345678e-6
ringpop_request_seconds_count 10
# HELP ringpop_application_seconds Time in which the service of this agent answered, or did not.
# TYPE ringpop_application_seconds histogram
ringpop_application_seconds_bucket{le=\"0.00025\"} 0
ringpop_application_seconds_bucket{le=\"0.0005\"} 0
ringpop_application_seconds_bucket{le=\"0.001\"} 0
ringpop_application_seconds_bucket{le=\"0.005\"} 0
ringpop_application_seconds_bucket{le=\"0.01\"} 0
ringpop_application_seconds_bucket{le=\"0.05\"} 0
ringpop_application_seconds_bucket{le=\"0.1\"} 0
ringpop_application_seconds_bucket{le=\"0.5\"} 0
ringpop_application_seconds_bucket{le=\"1\"} 0
ringpop_application_seconds_bucket{le=\"5\"} 0
ringpop_application_seconds_bucket{le=\"10\"} 0
ringpop_application_seconds_bucket{le=\"+Inf\"} 2
ringpop_application_seconds_sum 5e-6
ringpop_application_seconds_count 2
# HELP ringpop_round_seconds Time of rounds of gossip, without the pauses between them.
# TYPE ringpop_round_seconds histogram
ringpop_round_seconds_bucket{le=\"0.00025\"} 0
ringpop_round_seconds_bucket{le=\"0.0005\"} 0
ringpop_round_seconds_bucket{le=\"0.001\"} 0
ringpop_round_seconds_bucket{le=\"0.005\"} 0
ringpop_round_seconds_bucket{le=\"0.01\"} 0
ringpop_round_seconds_bucket{le=\"0.05\"} 0
ringpop_round_seconds_bucket{le=\"0.1\"} 0
ringpop_round_seconds_bucket{le=\"0.5\"} 0
ringpop_round_seconds_bucket{le=\"1\"} 0
ringpop_round_seconds_bucket{le=\"5\"} 0
ringpop_round_seconds_bucket{le=\"10\"} 0
ringpop_round_seconds_bucket{le=\"+Inf\"} 0
ringpop_round_seconds_sum 0e-6
ringpop_round_seconds_count 0
# HELP ringpop_ping_seconds Time from a ping of this node to its answer.
# TYPE ringpop_ping_seconds histogram
ringpop_ping_seconds_bucket{le=\"0.00025\"} 0
ringpop_ping_seconds_bucket{le=\"0.0005\"} 0
ringpop_ping_seconds_bucket{le=\"0.001\"} 0
ringpop_ping_seconds_bucket{le=\"0.005\"} 0
ringpop_ping_seconds_bucket{le=\"0.01\"} 0
ringpop_ping_seconds_bucket{le=\"0.05\"} 0
ringpop_ping_seconds_bucket{le=\"0.1\"} 0
ringpop_ping_seconds_bucket{le=\"0.5\"} 0
ringpop_ping_seconds_bucket{le=\"1\"} 0
ringpop_ping_seconds_bucket{le=\"5\"} 0
ringpop_ping_seconds_bucket{le=\"10\"} 0
ringpop_ping_seconds_bucket{le=\"+Inf\"} 3
ringpop_ping_seconds_sum 4e-6
ringpop_ping_seconds_count 3
# HELP ringpop_rounds_total Rounds of gossip, by outcome.
# TYPE ringpop_rounds_total counter
ringpop_rounds_total{outcome=\"idle\"} 1
ringpop_rounds_total{outcome=\"reached\"} 50
ringpop_rounds_total{outcome=\"suspected\"} 2
ringpop_rounds_total{outcome=\"inconclusive\"} 3
ringpop_rounds_total{outcome=\"error\"} 0
# HELP ringpop_member_changes_total Changes of other members that this node learnt, by the status that they got.
# TYPE ringpop_member_changes_total counter
ringpop_member_changes_total{status=\"alive\"} 33
ringpop_member_changes_total{status=\"suspect\"} 34
ringpop_member_changes_total{status=\"faulty\"} 35
ringpop_member_changes_total{status=\"leave\"} 36
ringpop_member_changes_total{status=\"tombstone\"} 37
# HELP ringpop_refutations_total Rounds after which this node had refuted what others held of it.
# TYPE ringpop_refutations_total counter
ringpop_refutations_total 38
# HELP ringpop_application_failures_total Requests that the service did not answer, or by no answer that can be passed on.
# TYPE ringpop_application_failures_total counter
ringpop_application_failures_total 6
# HELP ringpop_link_failures_total Messages to other nodes whose sending failed, or that got no answer.
# TYPE ringpop_link_failures_total counter
ringpop_link_failures_total 8
# HELP ringpop_allocation_failures_total Requests and rounds that ran out of memory.
# TYPE ringpop_allocation_failures_total counter
ringpop_allocation_failures_total 18446744073709551615
# HELP ringpop_waiting_used Requests of keys that wait for their owner.
# TYPE ringpop_waiting_used gauge
ringpop_waiting_used{owner=\"self\"} 16
ringpop_waiting_used{owner=\"others\"} 17
# HELP ringpop_waiting_max Requests of keys that may wait for their owner.
# TYPE ringpop_waiting_max gauge
ringpop_waiting_max{owner=\"self\"} 96
ringpop_waiting_max{owner=\"others\"} 128
# HELP ringpop_waiting_share Requests that may wait for one other owner while many wait for others.
# TYPE ringpop_waiting_share gauge
ringpop_waiting_share 32
# HELP ringpop_waiting_refused_total Requests of keys that found no place among those that wait.
# TYPE ringpop_waiting_refused_total counter
ringpop_waiting_refused_total 18
# HELP ringpop_kept_connections_used Connections between nodes that wait for the next request, at either end.
# TYPE ringpop_kept_connections_used gauge
ringpop_kept_connections_used{end=\"asking\"} 23
ringpop_kept_connections_used{end=\"answering\"} 24
# HELP ringpop_kept_connections_max Connections between nodes that may wait so, at either end.
# TYPE ringpop_kept_connections_max gauge
ringpop_kept_connections_max{end=\"asking\"} 128
ringpop_kept_connections_max{end=\"answering\"} 25
# HELP ringpop_kept_connections_reused_total Requests to other nodes over connections that were kept.
# TYPE ringpop_kept_connections_reused_total counter
ringpop_kept_connections_reused_total 26
# HELP ringpop_kept_connections_closed_total Connections to other nodes that were kept and then closed.
# TYPE ringpop_kept_connections_closed_total counter
ringpop_kept_connections_closed_total 27
# HELP ringpop_connections_used Connections that are open.
# TYPE ringpop_connections_used gauge
ringpop_connections_used{port=\"http\"} 12
ringpop_connections_used{port=\"node\"} 34
# HELP ringpop_connections_max Connections that may be open.
# TYPE ringpop_connections_max gauge
ringpop_connections_max{port=\"http\"} 10000
ringpop_connections_max{port=\"node\"} 1000
# HELP ringpop_connections_evicted_total Connections that were closed for others.
# TYPE ringpop_connections_evicted_total counter
ringpop_connections_evicted_total{port=\"http\"} 13
ringpop_connections_evicted_total{port=\"node\"} 35
# HELP ringpop_accept_failures_total How often the system let no connection be accepted.
# TYPE ringpop_accept_failures_total counter
ringpop_accept_failures_total{port=\"http\"} 14
ringpop_accept_failures_total{port=\"node\"} 36
# HELP ringpop_workers_used Threads that serve an HTTP connection.
# TYPE ringpop_workers_used gauge
ringpop_workers_used 15
# HELP ringpop_workers_max Threads for HTTP connections.
# TYPE ringpop_workers_max gauge
ringpop_workers_max 256
# HELP ringpop_questions_used Questions about the ring that wait.
# TYPE ringpop_questions_used gauge
ringpop_questions_used 16
# HELP ringpop_questions_max Questions about the ring that may wait.
# TYPE ringpop_questions_max gauge
ringpop_questions_max 1000
# HELP ringpop_log_lines_used Lines of the log that wait to be written.
# TYPE ringpop_log_lines_used gauge
ringpop_log_lines_used 21
# HELP ringpop_log_lines_max Lines of the log that may wait.
# TYPE ringpop_log_lines_max gauge
ringpop_log_lines_max 1024
# HELP ringpop_log_lines_dropped_total Lines of the log that were dropped.
# TYPE ringpop_log_lines_dropped_total counter
ringpop_log_lines_dropped_total 22
# HELP ringpop_service_up Whether the service took a connection when the agent last looked.
# TYPE ringpop_service_up gauge
ringpop_service_up 1
# HELP ringpop_notices_total Notices of the ring to the service, by outcome.
# TYPE ringpop_notices_total counter
ringpop_notices_total{outcome=\"taken\"} 19
ringpop_notices_total{outcome=\"failed\"} 20
# HELP ringpop_notices_untold Whether a ring is still to be told to the service.
# TYPE ringpop_notices_untold gauge
ringpop_notices_untold 1
# HELP ringpop_joins_total Joins that this node asked for, by outcome.
# TYPE ringpop_joins_total counter
ringpop_joins_total{outcome=\"joined\"} 1
ringpop_joins_total{outcome=\"refused\"} 2
ringpop_joins_total{outcome=\"failed\"} 3
# HELP ringpop_messages_refused_total Messages of this node that another one refused.
# TYPE ringpop_messages_refused_total counter
ringpop_messages_refused_total 4
# HELP ringpop_lines_refused_total Lines of other nodes that were refused, by reason.
# TYPE ringpop_lines_refused_total counter
ringpop_lines_refused_total{reason=\"malformed\"} 5
ringpop_lines_refused_total{reason=\"memory\"} 6
ringpop_lines_refused_total{reason=\"cluster\"} 7
";

const COUNTS: Counts = Counts {
    answered: 7,
    refused: 2,
    failed: 1,
    by_services: StatusCounts {
        successes: 23,
        redirections: 24,
        client_errors: 25,
        server_errors: 26,
    },
    by_agents: StatusCounts {
        successes: 0,
        redirections: 27,
        client_errors: 28,
        server_errors: 29,
    },
    requests: TimeCounts {
        micros: 12_345_678,
        buckets: [1, 2, 2, 3, 0, 0, 0, 1, 0, 0, 0, 1],
    },
    application: TimeCounts {
        micros: 5,
        buckets: [0, 0, 0, 0, 0, 0, 0, 0, 0, 0, 0, 2],
    },
    rounds: TimeCounts {
        micros: 0,
        buckets: [0; BUCKETS],
    },
    pings: TimeCounts {
        micros: 4,
        buckets: [0, 0, 0, 0, 0, 0, 0, 0, 0, 0, 0, 3],
    },
    changes: ChangeCounts {
        alive: 33,
        suspect: 34,
        faulty: 35,
        leave: 36,
        tombstone: 37,
        refuted: 38,
    },
    incarnation: 1_700_000_000_000,
    digest: 281_474_976_710_655,
    handled: 4,
    forwards: 3,
    passed_on: 11,
    idle: 1,
    reached: 50,
    suspected: 2,
    inconclusive: 3,
    broken: 0,
    application_failures: 6,
    link_failures: 8,
    allocation_failures: u64::MAX,
    waiting: WaitingCounts {
        own: 16,
        others: 17,
        refused: 18,
    },
    kept: KeptCounts {
        resting: 23,
        max_resting: 128,
        hands: 24,
        max_hands: 25,
        reused: 26,
        closed: 27,
    },
    http: PortCounts {
        used: 12,
        max: 10_000,
        evicted: 13,
        failures: 14,
    },
    node: PortCounts {
        used: 34,
        max: 1_000,
        evicted: 35,
        failures: 36,
    },
    workers_used: 15,
    workers_max: 256,
    questions_used: 16,
    questions_max: 1_000,
    service_up: 1,
    notices_taken: 19,
    notices_failed: 20,
    notices_untold: 1,
    refusals: RefusalCounts {
        joined: 1,
        join_refused: 2,
        join_failed: 3,
        messages: 4,
        malformed: 5,
        memory: 6,
        cluster: 7,
    },
    log: LogCounts {
        used: 21,
        max: 1_024,
        dropped: 22,
    },
    process: ProcessCounts {
        memory: 33_554_432,
        descriptors: 30,
        max_descriptors: 31,
        cpu_millis: 32,
        started: 1_700_000_000,
    },
};

#[test]
fn writes_metrics(rt: HostRuntime) {
    for (micros, bucket) in &TIMES {
        assert!(rt; bucket_of(*micros) == *bucket, "{micros}");
    }
    let members = [
        member(&rt, "10.0.0.1:1", Status::Alive, 1, 1),
        member(&rt, "10.0.0.2:1", Status::Faulty, 1, 1),
        member(&rt, "10.0.0.3:1", Status::Alive, 1, 1),
    ];
    let text = again!(&rt, AllocError, metrics_text(rt.alloc(), &COUNTS, &members));
    assert!(rt; text.ok().expect(&rt, "a text").as_str() == METRICS);
}
