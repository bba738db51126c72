//! HTTP between an agent, its clients and its application: requests and their responses as values, a client's connection from one
//! visit to the next, and a request to the application over a stream. It knows no node, and performs no request.
#![tactic(auto)]

mod exchanges;
mod framings;
mod passing;
mod pumps;
mod replies;
mod requests;
mod responses;
mod visits;

pub use exchanges::{Answer, Asked, Wanted, exchange, read_answer};
pub use framings::Framing;
pub use pumps::{Pause, pump};
pub use replies::Reply;
pub use requests::{action_of, is_of_key, limit_for, names_json, takes_json};
pub use responses::{Form, kind_of, put_refusal, put_reply, refused_body};
pub use visits::{Came, Kept, kept_of, new_connection};
