//! Answers over HTTP: a status, a kind of content and a body.
ghost use Rattle.std.specs.Prelude.{◌≡◌};
ghost use Rattle.agent_core.specs.Refusals.{kind_name};

use crate::pages::PAGE;

/// The kind of a body's content.
#[derive(Clone, Copy, Debug, PartialEq, Eq)]
pub enum Kind {
    Text,
    Json,
    Html,
}

impl Kind {
    /// Returns the content type (RFC 9110, section 8.3).
    pub fn name(self) -> &'static str
        ensures { result.now ≡ kind_name self }
    {
        match self {
            Kind::Text => "text/plain; charset=utf-8",
            Kind::Json => "application/json",
            Kind::Html => "text/html; charset=utf-8",
        }
    }
}

/// An answer over HTTP.
#[derive(Clone, Copy, Debug, PartialEq, Eq)]
pub struct Answer<'a> {
    pub status: u16,
    pub kind: Kind,
    pub body: &'a str,
}

impl Answer<'static> {
    /// Makes an answer with status 200 and a line of text, which ends with its newline.
    pub fn line(line: &'static str) -> Self
        ensures status { result.status ≡ 200 }
        ensures kind { result.kind ≡ Kind.Text }
        ensures body { result.body.now ≡ line.now }
    {
        Answer {
            status: 200,
            kind: Kind::Text,
            body: line,
        }
    }

    /// Makes an answer with status 200 and the page that shows the ring.
    pub fn page() -> Self
        ensures status { result.status ≡ 200 }
        ensures kind { result.kind ≡ Kind.Html }
        ensures body { result.body.now ≡ PAGE.now }
    {
        Answer {
            status: 200,
            kind: Kind::Html,
            body: PAGE,
        }
    }
}
