//! The counts of an agent, in the text format of Prometheus (version 0.0.4).
ghost use Rattle.std.specs.Prelude.{◌≡◌, ◌++◌, IfOk, OnOk, count_by, length, string_bytes};
ghost use Rattle.change_core.specs.Status.{rank};
ghost use Rattle.agent_core.specs.Metrics.{answer_samples, build_samples, connection_samples, histogram_samples, holds, kept_samples, limit_texts, link_texts, log_samples, metrics_text, node_samples, node_texts, other_samples, process_samples, refusal_samples, request_samples, service_samples, status_sample, status_samples, waiting_samples, work_texts, worker_samples};

use crate::counts::{
    ChangeCounts, KeptCounts, LogCounts, PortCounts, ProcessCounts, RefusalCounts, StatusCounts,
    TimeCounts, WaitingCounts,
};
use crate::gossip_metrics::{push_changes, push_rounds};
use crate::samples::{push_counter, push_gauge, push_head, push_millis, push_times};
use crate::shares::{MAX_OWN, MAX_WAITING, OWNER_SHARE};
use change_core::{Change, MAX_MEMBERS, Status};
use std::alloc::{AllocError, Global};
use std::fmt::Write;

/// The counts of an agent since it started.
#[derive(Clone, Copy, Debug, PartialEq, Eq)]
pub struct Counts {
    /// Requests of keys that the owner answered, with any status.
    pub answered: u64,
    /// Requests of keys that were refused with a status from 400 to 499.
    pub refused: u64,
    /// Requests of keys that were refused with a status from 500 to 599.
    pub failed: u64,
    /// Answers to requests of keys over HTTP that a service gave, of this node or of another.
    pub by_services: StatusCounts,
    /// Those that an agent gave itself, this one or the owner's.
    pub by_agents: StatusCounts,
    /// The times of requests of keys over HTTP.
    pub requests: TimeCounts,
    /// The times in which this node's application answered, or did not.
    pub application: TimeCounts,
    /// The times of rounds of gossip.
    pub rounds: TimeCounts,
    /// The times of pings that were answered.
    pub pings: TimeCounts,
    pub changes: ChangeCounts,
    /// The incarnation of the node's own entry at the last change of its members.
    pub incarnation: u64,
    /// The first six bytes of the digest of the members at their last change, as a number.
    pub digest: u64,
    /// Requests of keys that this node's application or echo was to handle, those of other nodes among them.
    pub handled: u64,
    /// Sends of a request of a key to another node, repeated ones and those passed on among them.
    pub forwards: u64,
    /// Requests of other nodes that were passed on to the owner.
    pub passed_on: u64,
    /// Rounds of gossip in which no member could be probed.
    pub idle: u64,
    /// Rounds whose target answered its ping, or was reached by a helper.
    pub reached: u64,
    /// Rounds whose target was not reached, by this node or by a helper.
    pub suspected: u64,
    /// Rounds whose target did not answer, and whose helpers all failed.
    pub inconclusive: u64,
    /// Rounds that ended with an error other than out of memory.
    pub broken: u64,
    /// Requests of keys that this node's application was given and did not answer.
    pub application_failures: u64,
    /// Sends to another node that failed.
    pub link_failures: u64,
    /// Allocations that failed.
    pub allocation_failures: u64,
    /// The requests of keys that wait.
    pub waiting: WaitingCounts,
    /// The connections of nodes that are kept.
    pub kept: KeptCounts,
    /// The connections of clients over HTTP.
    pub http: PortCounts,
    /// The connections at the node's port.
    pub node: PortCounts,
    /// The workers that serve one of them.
    pub workers_used: u64,
    /// The workers that there are.
    pub workers_max: u64,
    /// The questions about the ring that wait.
    pub questions_used: u64,
    /// The most that may.
    pub questions_max: u64,
    /// 1 if the service took a connection when it was looked at last, else 0.
    pub service_up: u64,
    /// Notices of the ring that the application took.
    pub notices_taken: u64,
    /// Notices that it did not take, each time that one was sent.
    pub notices_failed: u64,
    /// 1 while it is still to be told of the ring, else 0.
    pub notices_untold: u64,
    pub refusals: RefusalCounts,
    pub log: LogCounts,
    pub process: ProcessCounts,
}

/// Returns the number of members with the status.
fn count_of(members: &[Change], status: Status) -> usize
    ensures { result ≡ count_by (holds status) members.now }
{
    members
        .iter()
        .filter(|member| member.status.rank() == status.rank())
        .count()
}

/// Appends the number of members with the status.
fn push_status(text: &mut String, members: &[Change], status: Status) -> Result<(), AllocError>
    ensures { OnOk result (string_bytes text.new ≡ string_bytes text.old ++ status_sample members.now status) }
{
    let count = count_of(members, status);
    write!(text, "ringpop_members{{status=\"{status}\"}} {count}\n")?;
    Ok(())
}

/// Appends the version.
fn push_build(text: &mut String) -> Result<(), AllocError>
    ensures { OnOk result (string_bytes text.new ≡ string_bytes text.old ++ build_samples) }
{
    push_gauge(
        text,
        "ringpop_build_info",
        "The version of the program, as a label.",
        &[("{version=\"1.0.0-dev\"}", 1)],
    )?;
    Ok(())
}

/// Appends the number of members with each status.
fn push_statuses(text: &mut String, members: &[Change]) -> Result<(), AllocError>
    ensures { OnOk result (string_bytes text.new ≡ string_bytes text.old ++ status_samples members.now) }
{
    push_head(
        text,
        "ringpop_members",
        "gauge",
        "Members that the node holds, by status.",
    )?;
    push_status(text, members, Status::Alive)?;
    push_status(text, members, Status::Suspect)?;
    push_status(text, members, Status::Faulty)?;
    push_status(text, members, Status::Leave)?;
    push_status(text, members, Status::Tombstone)?;
    Ok(())
}

/// Appends the number of addresses used and the most that there can be, the node's own incarnation, and the digest of its members.
fn push_node(text: &mut String, counts: &Counts, addresses: usize) -> Result<(), AllocError>
    ensures { OnOk result (string_bytes text.new ≡ string_bytes text.old ++ node_samples counts.now addresses) }
{
    push_gauge(
        text,
        "ringpop_addresses_used",
        "Addresses that the node holds, those of members that left or died included.",
        &[("", addresses as u64)],
    )?;
    push_gauge(
        text,
        "ringpop_addresses_max",
        "Addresses that a node can hold.",
        &[("", MAX_MEMBERS as u64)],
    )?;
    push_gauge(
        text,
        "ringpop_incarnation",
        "The incarnation of the node, in its own entry at the last change of its members.",
        &[("", counts.incarnation)],
    )?;
    push_gauge(
        text,
        "ringpop_digest",
        "The first six bytes of the digest of the members at their last change: nodes that agree have one number.",
        &[("", counts.digest)],
    )?;
    Ok(())
}

/// Appends the numbers of requests: by outcome, handled here, sent to another node, and passed on.
fn push_requests(text: &mut String, counts: &Counts) -> Result<(), AllocError>
    ensures { OnOk result (string_bytes text.new ≡ string_bytes text.old ++ request_samples counts.now) }
{
    push_counter(
        text,
        "ringpop_requests_total",
        "Requests of keys that this agent answered over HTTP, by outcome.",
        &[
            ("{outcome=\"answered\"}", counts.answered),
            ("{outcome=\"refused\"}", counts.refused),
            ("{outcome=\"failed\"}", counts.failed),
        ],
    )?;
    push_counter(
        text,
        "ringpop_handled_total",
        "Requests of keys that the service of this agent was to handle, those of other nodes included.",
        &[("", counts.handled)],
    )?;
    push_counter(
        text,
        "ringpop_forwards_total",
        "Sends of a request of a key to another node, repeated ones and those passed on included.",
        &[("", counts.forwards)],
    )?;
    push_counter(
        text,
        "ringpop_passed_on_total",
        "Requests of other nodes that were passed on to the owner.",
        &[("", counts.passed_on)],
    )?;
    Ok(())
}

/// Appends the numbers of answers to requests of keys, by who made them and by status.
fn push_answers(text: &mut String, counts: &Counts) -> Result<(), AllocError>
    ensures { OnOk result (string_bytes text.new ≡ string_bytes text.old ++ answer_samples counts.now) }
{
    push_counter(
        text,
        "ringpop_answers_total",
        "Answers to requests of keys over HTTP, by who made them and by status.",
        &[
            (
                "{from=\"service\",status=\"2xx\"}",
                counts.by_services.successes,
            ),
            (
                "{from=\"service\",status=\"3xx\"}",
                counts.by_services.redirections,
            ),
            (
                "{from=\"service\",status=\"4xx\"}",
                counts.by_services.client_errors,
            ),
            (
                "{from=\"service\",status=\"5xx\"}",
                counts.by_services.server_errors,
            ),
            (
                "{from=\"agent\",status=\"2xx\"}",
                counts.by_agents.successes,
            ),
            (
                "{from=\"agent\",status=\"3xx\"}",
                counts.by_agents.redirections,
            ),
            (
                "{from=\"agent\",status=\"4xx\"}",
                counts.by_agents.client_errors,
            ),
            (
                "{from=\"agent\",status=\"5xx\"}",
                counts.by_agents.server_errors,
            ),
        ],
    )?;
    Ok(())
}

/// Appends the numbers of failures: of the application, of links, and of allocations.
fn push_others(text: &mut String, counts: &Counts) -> Result<(), AllocError>
    ensures { OnOk result (string_bytes text.new ≡ string_bytes text.old ++ other_samples counts.now) }
{
    push_counter(
        text,
        "ringpop_application_failures_total",
        "Requests that the service did not answer, or by no answer that can be passed on.",
        &[("", counts.application_failures)],
    )?;
    push_counter(
        text,
        "ringpop_link_failures_total",
        "Messages to other nodes whose sending failed, or that got no answer.",
        &[("", counts.link_failures)],
    )?;
    push_counter(
        text,
        "ringpop_allocation_failures_total",
        "Requests and rounds that ran out of memory.",
        &[("", counts.allocation_failures)],
    )?;
    Ok(())
}

/// Appends the numbers of requests that wait, the most that may, and how many found no place.
fn push_waiting(text: &mut String, waiting: &WaitingCounts) -> Result<(), AllocError>
    ensures { OnOk result (string_bytes text.new ≡ string_bytes text.old ++ waiting_samples waiting.now) }
{
    push_gauge(
        text,
        "ringpop_waiting_used",
        "Requests of keys that wait for their owner.",
        &[
            ("{owner=\"self\"}", waiting.own),
            ("{owner=\"others\"}", waiting.others),
        ],
    )?;
    push_gauge(
        text,
        "ringpop_waiting_max",
        "Requests of keys that may wait for their owner.",
        &[
            ("{owner=\"self\"}", MAX_OWN),
            ("{owner=\"others\"}", MAX_WAITING as u64),
        ],
    )?;
    push_gauge(
        text,
        "ringpop_waiting_share",
        "Requests that may wait for one other owner while many wait for others.",
        &[("", OWNER_SHARE as u64)],
    )?;
    push_counter(
        text,
        "ringpop_waiting_refused_total",
        "Requests of keys that found no place among those that wait.",
        &[("", waiting.refused)],
    )?;
    Ok(())
}

/// Appends the numbers of connections of nodes that are kept, the most that may be, how often they were used again, and how many were closed.
fn push_kept(text: &mut String, kept: &KeptCounts) -> Result<(), AllocError>
    ensures { OnOk result (string_bytes text.new ≡ string_bytes text.old ++ kept_samples kept.now) }
{
    push_gauge(
        text,
        "ringpop_kept_connections_used",
        "Connections between nodes that wait for the next request, at either end.",
        &[
            ("{end=\"asking\"}", kept.resting),
            ("{end=\"answering\"}", kept.hands),
        ],
    )?;
    push_gauge(
        text,
        "ringpop_kept_connections_max",
        "Connections between nodes that may wait so, at either end.",
        &[
            ("{end=\"asking\"}", kept.max_resting),
            ("{end=\"answering\"}", kept.max_hands),
        ],
    )?;
    push_counter(
        text,
        "ringpop_kept_connections_reused_total",
        "Requests to other nodes over connections that were kept.",
        &[("", kept.reused)],
    )?;
    push_counter(
        text,
        "ringpop_kept_connections_closed_total",
        "Connections to other nodes that were kept and then closed.",
        &[("", kept.closed)],
    )?;
    Ok(())
}

/// Appends the numbers of connections at both ports, the most that there may be, and those that found no place.
fn push_connections(
    text: &mut String,
    http: &PortCounts,
    node: &PortCounts,
) -> Result<(), AllocError>
    ensures { OnOk result (string_bytes text.new ≡ string_bytes text.old ++ connection_samples http.now node.now) }
{
    push_gauge(
        text,
        "ringpop_connections_used",
        "Connections that are open.",
        &[
            ("{port=\"http\"}", http.used),
            ("{port=\"node\"}", node.used),
        ],
    )?;
    push_gauge(
        text,
        "ringpop_connections_max",
        "Connections that may be open.",
        &[("{port=\"http\"}", http.max), ("{port=\"node\"}", node.max)],
    )?;
    push_counter(
        text,
        "ringpop_connections_evicted_total",
        "Connections that were closed for others.",
        &[
            ("{port=\"http\"}", http.evicted),
            ("{port=\"node\"}", node.evicted),
        ],
    )?;
    push_counter(
        text,
        "ringpop_accept_failures_total",
        "How often the system let no connection be accepted.",
        &[
            ("{port=\"http\"}", http.failures),
            ("{port=\"node\"}", node.failures),
        ],
    )?;
    Ok(())
}

/// Appends the numbers of workers that serve a connection and of questions about the ring that wait, and the most that there may be.
fn push_workers(text: &mut String, counts: &Counts) -> Result<(), AllocError>
    ensures { OnOk result (string_bytes text.new ≡ string_bytes text.old ++ worker_samples counts.now) }
{
    push_gauge(
        text,
        "ringpop_workers_used",
        "Threads that serve an HTTP connection.",
        &[("", counts.workers_used)],
    )?;
    push_gauge(
        text,
        "ringpop_workers_max",
        "Threads for HTTP connections.",
        &[("", counts.workers_max)],
    )?;
    push_gauge(
        text,
        "ringpop_questions_used",
        "Questions about the ring that wait.",
        &[("", counts.questions_used)],
    )?;
    push_gauge(
        text,
        "ringpop_questions_max",
        "Questions about the ring that may wait.",
        &[("", counts.questions_max)],
    )?;
    Ok(())
}

/// Appends whether the service took a connection when it was looked at last, the numbers of notices of the ring by outcome, and whether one is still to be taken.
fn push_service(text: &mut String, counts: &Counts) -> Result<(), AllocError>
    ensures { OnOk result (string_bytes text.new ≡ string_bytes text.old ++ service_samples counts.now) }
{
    push_gauge(
        text,
        "ringpop_service_up",
        "Whether the service took a connection when the agent last looked.",
        &[("", counts.service_up)],
    )?;
    push_counter(
        text,
        "ringpop_notices_total",
        "Notices of the ring to the service, by outcome.",
        &[
            ("{outcome=\"taken\"}", counts.notices_taken),
            ("{outcome=\"failed\"}", counts.notices_failed),
        ],
    )?;
    push_gauge(
        text,
        "ringpop_notices_untold",
        "Whether a ring is still to be told to the service.",
        &[("", counts.notices_untold)],
    )?;
    Ok(())
}

/// Appends the numbers of joins by outcome, of messages that other nodes refused, and of lines that were refused here.
fn push_refusals(text: &mut String, refusals: &RefusalCounts) -> Result<(), AllocError>
    ensures { OnOk result (string_bytes text.new ≡ string_bytes text.old ++ refusal_samples refusals.now) }
{
    push_counter(
        text,
        "ringpop_joins_total",
        "Joins that this node asked for, by outcome.",
        &[
            ("{outcome=\"joined\"}", refusals.joined),
            ("{outcome=\"refused\"}", refusals.join_refused),
            ("{outcome=\"failed\"}", refusals.join_failed),
        ],
    )?;
    push_counter(
        text,
        "ringpop_messages_refused_total",
        "Messages of this node that another one refused.",
        &[("", refusals.messages)],
    )?;
    push_counter(
        text,
        "ringpop_lines_refused_total",
        "Lines of other nodes that were refused, by reason.",
        &[
            ("{reason=\"malformed\"}", refusals.malformed),
            ("{reason=\"memory\"}", refusals.memory),
            ("{reason=\"cluster\"}", refusals.cluster),
        ],
    )?;
    Ok(())
}

/// Appends the numbers of log lines that wait, the most that may, and those that were dropped.
fn push_log(text: &mut String, log: &LogCounts) -> Result<(), AllocError>
    ensures { OnOk result (string_bytes text.new ≡ string_bytes text.old ++ log_samples log.now) }
{
    push_gauge(
        text,
        "ringpop_log_lines_used",
        "Lines of the log that wait to be written.",
        &[("", log.used)],
    )?;
    push_gauge(
        text,
        "ringpop_log_lines_max",
        "Lines of the log that may wait.",
        &[("", log.max)],
    )?;
    push_counter(
        text,
        "ringpop_log_lines_dropped_total",
        "Lines of the log that were dropped.",
        &[("", log.dropped)],
    )?;
    Ok(())
}

/// Appends what the process uses of the machine, and when it started.
fn push_process(text: &mut String, process: &ProcessCounts) -> Result<(), AllocError>
    ensures { OnOk result (string_bytes text.new ≡ string_bytes text.old ++ process_samples process.now) }
{
    push_gauge(
        text,
        "process_resident_memory_bytes",
        "Memory that the process holds.",
        &[("", process.memory)],
    )?;
    push_gauge(
        text,
        "process_open_fds",
        "Descriptors that are open.",
        &[("", process.descriptors)],
    )?;
    push_gauge(
        text,
        "process_max_fds",
        "Descriptors that may be open.",
        &[("", process.max_descriptors)],
    )?;
    push_gauge(
        text,
        "process_start_time_seconds",
        "When the process started, in seconds since 1970.",
        &[("", process.started)],
    )?;

    push_head(
        text,
        "process_cpu_seconds_total",
        "counter",
        "Processor time that the process used.",
    )?;
    push_millis(text, "process_cpu_seconds_total", process.cpu_millis)?;
    Ok(())
}

/// Appends the times of requests, of the application, of rounds and of pings.
fn push_histograms(text: &mut String, counts: &Counts) -> Result<(), AllocError>
    ensures { OnOk result (string_bytes text.new ≡ string_bytes text.old ++ histogram_samples counts.now) }
{
    push_times(
        text,
        "ringpop_request_seconds",
        "Time of requests of keys over HTTP, those to other nodes included.",
        &counts.requests,
    )?;
    push_times(
        text,
        "ringpop_application_seconds",
        "Time in which the service of this agent answered, or did not.",
        &counts.application,
    )?;
    push_times(
        text,
        "ringpop_round_seconds",
        "Time of rounds of gossip, without the pauses between them.",
        &counts.rounds,
    )?;
    push_times(
        text,
        "ringpop_ping_seconds",
        "Time from a ping of this node to its answer.",
        &counts.pings,
    )?;
    Ok(())
}

/// Appends what a node is, and what it knows of others.
fn push_nodes(text: &mut String, counts: &Counts, members: &[Change]) -> Result<(), AllocError>
    ensures { OnOk result (string_bytes text.new ≡ string_bytes text.old ++ node_texts counts.now members.now) }
{
    push_build(text)?;
    push_statuses(text, members)?;
    push_node(text, counts, members.len())?;
    push_process(text, &counts.process)?;
    Ok(())
}

/// Appends what was asked and done.
fn push_work(text: &mut String, counts: &Counts) -> Result<(), AllocError>
    ensures { OnOk result (string_bytes text.new ≡ string_bytes text.old ++ work_texts counts.now) }
{
    push_requests(text, counts)?;
    push_answers(text, counts)?;
    push_histograms(text, counts)?;
    push_rounds(text, counts)?;
    push_changes(text, &counts.changes)?;
    push_others(text, counts)?;
    Ok(())
}

/// Appends what is held, and of how much.
fn push_limits(text: &mut String, counts: &Counts) -> Result<(), AllocError>
    ensures { OnOk result (string_bytes text.new ≡ string_bytes text.old ++ limit_texts counts.now) }
{
    push_waiting(text, &counts.waiting)?;
    push_kept(text, &counts.kept)?;
    push_connections(text, &counts.http, &counts.node)?;
    push_workers(text, counts)?;
    push_log(text, &counts.log)?;
    Ok(())
}

/// Appends what goes between the node, its service and other nodes.
fn push_links(text: &mut String, counts: &Counts) -> Result<(), AllocError>
    ensures { OnOk result (string_bytes text.new ≡ string_bytes text.old ++ link_texts counts.now) }
{
    push_service(text, counts)?;
    push_refusals(text, &counts.refusals)?;
    Ok(())
}

/// Returns the counts, and the number of members with each status, in the text format of Prometheus.
///
/// # Errors
///
/// - `AllocError`: out of memory.
pub fn metrics_text(
    alloc: Global,
    counts: &Counts,
    members: &[Change],
) -> Result<String, AllocError>
    ensures { IfOk result (λ text. string_bytes text ≡ metrics_text counts.now members.now) }
{
    let mut text = String::new(alloc);
    push_nodes(&mut text, counts, members)?;
    push_work(&mut text, counts)?;
    push_limits(&mut text, counts)?;
    push_links(&mut text, counts)?;
    Ok(text)
}
