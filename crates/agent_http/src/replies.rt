//! The replies to requests over HTTP.
ghost use Rattle.std.specs.Prelude.{◌≡◌, IfOk, IfErr};
ghost use Rattle.agent_core.specs.Levels.{level_line};
ghost use Rattle.agent_core.specs.Metrics.{metrics_text};
ghost use Rattle.agent_core.specs.Texts.{digest_line, members_text, owners_text};
ghost use Rattle.agent_core.specs.declared.answers.Kind.{Kind as Content};
ghost use Rattle.agent_http.specs.Replies.{IsOpenText, IsText};

use agent_core::{
    Counts, LogLevel, Refusal, digest_line, level_line, members_text, metrics_text, owners_text,
};
use change_core::{Address, Change, Digest};
use httpdate::HttpDate;
use message_core::Text;
use std::alloc::{AllocError, Global};

/// A reply to a request: an application's answer with its own status, or one with status 200.
#[derive(Debug, Drop)]
pub enum Reply {
    /// An application's answer, as `pack` makes it, and the node that owns the key.
    Handled {
        owner: Address,
        text: Text,
    },
    /// One line of text.
    Line(&'static str),
    /// Text.
    Text(String),
    /// JSON.
    Json(String),
    /// The ring as JSON, its digest, and since when it is this one; None if no clock tells it.
    Ring {
        digest: Digest,
        since: Option<HttpDate>,
        text: String,
    },
    /// The ring has this digest still.
    Unchanged {
        digest: Digest,
    },
    /// The digest of the members, which pages of other sites may read, so that the pages of other agents compare it.
    Digest(String),
    /// The page that shows the ring, as HTML.
    Page,
}

/// Returns the refusal of a request for which memory ran out.
fn out_of_memory(_error: AllocError) -> Refusal
    ensures { result ≡ Refusal.Memory }
{
    Refusal::Memory
}

impl Reply {
    /// Makes the reply that names these owners of a key.
    ///
    /// # Errors
    ///
    /// - `Memory`: out of memory.
    pub fn owners(alloc: Global, owners: &[Address]) -> Result<Reply, Refusal>
        ensures reply { IfOk result (IsText Content.Json (owners_text owners.now)) }
        ensures refused { IfErr result (λ e. e ≡ Refusal.Memory) }
    {
        let text = owners_text(alloc, owners).map_err(out_of_memory)?;
        Ok(Reply::Json(text))
    }

    /// Makes the reply with the members that the node at an address holds, their digest and the number of replicas.
    ///
    /// # Errors
    ///
    /// - `Memory`: out of memory.
    pub fn members(
        alloc: Global,
        own: Address,
        digest: &Digest,
        replicas: u32,
        members: &[Change],
    ) -> Result<Reply, Refusal>
        ensures reply { IfOk result (IsText Content.Json (members_text own digest.now.bytes replicas members.now)) }
        ensures refused { IfErr result (λ e. e ≡ Refusal.Memory) }
    {
        let text = members_text(alloc, own, digest, replicas, members).map_err(out_of_memory)?;
        Ok(Reply::Json(text))
    }

    /// Makes the reply with these counts, and the members by status.
    ///
    /// # Errors
    ///
    /// - `Memory`: out of memory.
    pub fn metrics(alloc: Global, counts: &Counts, members: &[Change]) -> Result<Reply, Refusal>
        ensures reply { IfOk result (IsText Content.Text (metrics_text counts.now members.now)) }
        ensures refused { IfErr result (λ e. e ≡ Refusal.Memory) }
    {
        let text = metrics_text(alloc, counts, members).map_err(out_of_memory)?;
        Ok(Reply::Text(text))
    }

    /// Makes the reply with the level of the log and, if it was changed, the one before.
    ///
    /// # Errors
    ///
    /// - `Memory`: out of memory.
    pub fn level(alloc: Global, level: LogLevel, before: Option<LogLevel>) -> Result<Reply, Refusal>
        ensures reply { IfOk result (IsText Content.Text (level_line level before)) }
        ensures refused { IfErr result (λ e. e ≡ Refusal.Memory) }
    {
        let text = level_line(alloc, level, before).map_err(out_of_memory)?;
        Ok(Reply::Text(text))
    }

    /// Makes the reply with a digest.
    ///
    /// # Errors
    ///
    /// - `Memory`: out of memory.
    pub fn digest(alloc: Global, digest: &Digest) -> Result<Reply, Refusal>
        ensures reply { IfOk result (IsOpenText (digest_line digest.now.bytes)) }
        ensures refused { IfErr result (λ e. e ≡ Refusal.Memory) }
    {
        let text = digest_line(alloc, digest).map_err(out_of_memory)?;
        Ok(Reply::Digest(text))
    }
}
