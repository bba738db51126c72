//! Requests that HTTP itself refuses, before an agent gets them: the access log has a line for each.
ghost use Rattle.std.specs.Prelude.{◌≡◌};
ghost use Rattle.agent_api.specs.HttpRefusals.{refusal_in, status_in};

use crate::api::Api;
use agent_state::Host;
use http_server::{Reason, Refusal, State};
use log::debug;
use std::net::{IpAddr, Ipv4Addr};

/// Returns the refusal in which a connection that was open has come to this state, if it has.
fn refusal_in(was_open: bool, state: State) -> Option<Refusal>
    ensures { result ≡ refusal_in was_open state }
{
    match state {
        State::Closing(Reason::Refused(refusal)) if was_open => Some(refusal),
        _ => None,
    }
}

/// Returns the status with which HTTP refuses a request for a part of its head that is none.
fn status_of_part(error: http::Error) -> u16
    ensures { result ≡ status_in (Refusal.InvalidPart error) }
{
    match error {
        http::Error::HeaderName | http::Error::MaxSizeReached => 431,
        http::Error::Uri(error) => if error.is_too_long() { 414 } else { 400 },
        http::Error::StatusCode
        | http::Error::Method
        | http::Error::UriParts(_)
        | http::Error::HeaderValue
        | http::Error::OutOfMemory => 400,
    }
}

/// Returns the status with which HTTP refuses a request.
#[tactic(auto, using(crate::proofs::Refusing::status_of_unread))]
fn status_of(refusal: Refusal) -> u16
    ensures { result ≡ status_in refusal }
{
    match refusal {
        Refusal::Unreadable(error) => error.status(),
        Refusal::InvalidPart(error) => status_of_part(error),
        Refusal::BodyTooLarge => 413,
        Refusal::UnknownCoding => 501,
        Refusal::InvalidResponse(_) => 500,
        Refusal::Truncated | Refusal::InvalidHost => 400,
    }
}

/// Logs the refusal in which a connection that was open has come to this state, if it has: the access log knows neither method nor path nor time.
pub fn log_refusal<R: Host>(api: &Api<'_, '_, R>, was_open: bool, state: State) {
    let Some(refusal) = refusal_in(was_open, state) else {
        return;
    };
    let status = status_of(refusal);
    let client = api.client.unwrap_or(IpAddr::V4(Ipv4Addr::UNSPECIFIED));
    debug!(api.agent.log(); "- - {status} agent - ms {client}");
}
