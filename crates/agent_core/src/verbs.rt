//! The methods of HTTP that an agent serves.
ghost use Rattle.std.specs.Prelude.{◌≡◌};
ghost use Rattle.agent_core.specs.Requests.{verb_name};

/// The method of HTTP (RFC 9110, section 9) that a path takes.
#[derive(Clone, Copy, Debug, PartialEq, Eq)]
pub enum Verb {
    Get,
    Post,
    /// Each of them, at a path that takes both.
    Both,
}

impl Verb {
    /// Returns the method's name in a request, `GET` or `POST`; `GET and POST` for both, which is the method of no request.
    pub fn name(self) -> &'static str
        ensures { result.now ≡ verb_name self }
    {
        match self {
            Verb::Get => "GET",
            Verb::Post => "POST",
            Verb::Both => "GET and POST",
        }
    }
}
