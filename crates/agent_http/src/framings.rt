//! Whether the bytes of a client end between two of its requests (RFC 9112, sections 2.1 and 6).
ghost use Rattle.std.specs.Prelude.{◌≡◌, ◌↔◌, ◌≤◌, ◌<◌, length, IsTrue, IsFalse};
ghost use Rattle.agent_http.specs.Framings.{IsBetween, past};

/// The most bytes of a line that are kept: no length of a body needs more.
const MAX_KEPT: usize = 40;

/// The place in the requests of a client at which the bytes that were read end.
#[derive(Clone, Copy, Debug)]
pub struct Framing {
    /// The start of the line of a head that is read, in lower case, and the number of these bytes.
    line: [u8; MAX_KEPT],
    len: usize,
    /// Whether a head has begun whose lines have not ended.
    has_head: bool,
    /// The bytes of the body that are to come.
    body: u64,
    /// Whether the end of a body is not known: it comes in chunks, or its length is malformed.
    is_lost: bool,
}

/// Returns the number of bytes that the field of a body's length gives; None if it gives none.
fn number_of(text: &[u8]) -> Option<u64> {
    str::from_utf8(text).ok()?.trim().parse().ok()
}

impl Framing {
    /// Makes the place before the first request.
    pub fn new() -> Framing
        ensures { IsBetween result }
    {
        Framing {
            line: [0; MAX_KEPT],
            len: 0,
            has_head: false,
            body: 0,
            is_lost: false,
        }
    }

    /// Returns whether it is between two requests, or before the first.
    pub fn is_between(&self) -> bool
        ensures { IsTrue result ↔ IsBetween self.now }
    {
        !self.is_lost && !self.has_head && self.len == 0 && self.body == 0
    }

    /// Goes on by the bytes that were read.
    #[tactic(auto, using(crate::proofs::Framed::one_more))]
    pub fn take(&mut self, bytes: &[u8])
        ensures lost { IsTrue self.old.is_lost → self.new ≡ self.old }
        ensures body { IsFalse self.old.is_lost → IsFalse self.old.has_head → length bytes.now ≤ self.old.body → self.new ≡ past (length bytes.now) self.old }
    {
        if self.is_lost {
            return;
        }
        for byte in bytes {
            self.take_one(*byte);
        }
    }

    /// Goes on by a byte of a body or of a head.
    fn take_one(&mut self, byte: u8)
        ensures { IsFalse self.old.has_head → 0 < self.old.body → self.new ≡ past 1 self.old }
    {
        if self.body > 0 && !self.has_head {
            self.body -= 1;
        } else {
            self.take_of_head(byte);
        }
    }

    /// Goes on by a byte of a head.
    fn take_of_head(&mut self, byte: u8) {
        match byte {
            b'\n' => self.end_line(),
            b'\r' => {}
            _ => {
                if let Some(place) = self.line.get_mut(self.len) {
                    *place = byte.to_ascii_lowercase();
                    self.len = self.len.saturating_add(1);
                }
            }
        }
    }

    /// Goes on by the end of a line. An empty line ends the head, and means nothing before it.
    fn end_line(&mut self)
        ensures line { self.new.line ≡ self.old.line }
        ensures len { self.new.len ≡ 0 }
        ensures head { IsTrue self.new.has_head ↔ (0 < self.old.len) }
        ensures lost { IsTrue self.old.is_lost → IsTrue self.new.is_lost }
    {
        let line = self.line.get(..self.len).unwrap_or(&[]);
        if let Some(text) = line.strip_prefix(b"content-length:") {
            match number_of(text) {
                Some(size) if self.len < MAX_KEPT => self.body = size,
                _ => self.is_lost = true,
            }
        }
        if line.starts_with(b"transfer-encoding:") {
            self.is_lost = true;
        }
        self.has_head = self.len > 0;
        self.len = 0;
    }
}
