//! A peer that answers as a test needs, lines to read, and a writer.
use change_core::{Address, Digest, Incarnation};
use peer_core::{Link, LinkError};
use std::alloc::Global;
use std::io;
use std::io::{ErrorKind, Read, Write};
use std::sync::Wait;
use wire_json::{Changes, Content, Message, News, decode};

/// What a peer answers to a call, 10.0.0.1:1 if no other is named.
#[derive(Clone, Copy)]
pub(crate) enum Answer {
    /// This line to anything.
    Line(&'static str),
    /// This line to a join.
    Joined(&'static str),
    /// This line to a request, of the node with this IPv4 number.
    Reply(u32, &'static str),
    /// A membership of all that a join has, with this digest.
    Told(&'static str),
    /// It can't be reached.
    Broken,
    /// Out of memory.
    Starved,
}

/// Peers that answer one call after the other. None of another address is reached, none by a further call, and none by a message whose
/// source is not `0.0.0.0:1` at 0.
#[derive(Drop)]
pub(crate) struct Peers {
    pub(crate) answers: &'static [Answer],
    pub(crate) calls: usize,
    pub(crate) failures: u64,
}

/// The message of an answer; None if out of memory for it, or it does not fit the request.
fn message_of(alloc: Global, answer: Answer, content: &Content) -> Option<Message> {
    let line = match (answer, content) {
        (Answer::Line(line), _)
        | (Answer::Joined(line), Content::Join(_))
        | (Answer::Reply(_, line), Content::Forward(_, _)) => line,
        (Answer::Told(digits), Content::Join(news)) => {
            let checksum = Digest::parse(digits)?;
            let changes = Changes::from_slice(alloc, news.changes.as_slice()).ok()?;
            return Some(Message {
                source: Address::new(0x0a00_0001, 1)?,
                source_incarnation: Incarnation::new(7)?,
                content: Content::Joined(News { checksum, changes }),
            });
        }
        _ => return None,
    };
    decode(alloc, line.as_bytes()).ok()
}

impl Link for Peers {
    ghost may_answer = { λ _ _ _. Unit {0} };

    ghost went = { λ _ _ _ _ _. Unit {0} };

    ghost failed = { λ p. p.failures };

    fn failures(&self) -> u64 {
        self.failures
    }

    fn call<R: Wait>(
        &mut self,
        _rt: &R,
        alloc: Global,
        to: Address,
        message: &Message,
    ) -> Result<Message, LinkError> {
        if self.failures == u64::MAX {
            return Err(LinkError::Spent);
        }
        let answer = *self.answers.get(self.calls).unwrap_or(&Answer::Broken);
        self.calls = self.calls.wrapping_add(1);
        let host = match answer {
            Answer::Broken => 0,
            Answer::Reply(host, _) => host,
            _ => 0x0a00_0001,
        };
        // the source of a question is `0.0.0.0:1` at 0
        let is_question = Address::new(0, 1) == Some(message.source)
            && message.source_incarnation.number() == 0;
        if !is_question || Address::new(host, 1) != Some(to) {
            self.failures += 1;
            return Err(LinkError::Io);
        }
        message_of(alloc, answer, &message.content).ok_or(LinkError::Memory)
    }
}

/// A text, this many times, and then another. The reader fails after this many bytes.
#[derive(Drop)]
pub(crate) struct Lines<'a> {
    pub(crate) text: &'a [u8],
    pub(crate) times: usize,
    pub(crate) last: &'a [u8],
    pub(crate) left: usize,
    /// How many bytes of the text were read.
    pub(crate) place: usize,
}

impl<'a> Read for Lines<'a> {
    fn read(&mut self, buf: &mut [u8]) -> io::Result<usize> {
        if self.left == 0 {
            return Err(io::Error::from(ErrorKind::Other));
        }
        let Some(to) = buf.first_mut() else {
            return Ok(0);
        };
        let source = if self.times > 0 { self.text } else { self.last };
        let Some(&byte) = source.get(self.place) else {
            return Ok(0);
        };
        *to = byte;
        self.place += 1;
        if self.times > 0 && self.place == source.len() {
            self.times -= 1;
            self.place = 0;
        }
        self.left -= 1;
        Ok(1)
    }
}

/// A writer that takes this text, and nothing else: what was not written yet.
#[derive(Drop)]
pub(crate) struct Page<'a>(pub(crate) &'a [u8]);

impl<'a> Write for Page<'a> {
    fn write(&mut self, buf: &[u8]) -> io::Result<usize> {
        let Some(&byte) = buf.first() else {
            return Ok(0);
        };
        match self.0.split_first() {
            Some((&next, behind)) if next == byte => {
                self.0 = behind;
                Ok(1)
            }
            _ => Err(io::Error::from(ErrorKind::WriteZero)),
        }
    }

    fn flush(&mut self) -> io::Result<()> {
        Ok(())
    }
}
