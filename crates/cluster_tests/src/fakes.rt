//! A link and a handler that do as a test needs.
use change_core::{Address, Change, Digest, Incarnation, Sourced, Status, Weight};
use peer_core::{Handler, HandlerFault, Link, LinkError};
use std::alloc::Global;
use std::sync::Wait;
use std::sync::atomic::{AtomicU64, Ordering};
use wire_json::{Changes, Content, Keys, Message, News, Text};

/// How a fake answers.
#[derive(Clone, Copy, PartialEq, Eq)]
pub(crate) enum Mood {
    /// As it should.
    Willing,
    /// By something else, or that it failed.
    Failing,
    /// With an error that counts.
    Broken,
    /// Out of memory.
    Starved,
    /// As it should, but a helper has not reached the target.
    Missing,
    /// As it should, but by another node.
    Strange,
    /// As it should, with a change about 10.0.0.9:1.
    Telling,
}

/// A link whose peers all answer in one mood, or the first call in one and the later ones in another: by what is wanted, without
/// changes, where they are willing.
#[derive(Drop)]
pub(crate) struct Fake {
    first: Mood,
    later: Mood,
    /// Whom the last ping was for.
    pub(crate) pinged: Option<Address>,
    pub(crate) calls: u64,
    failures: u64,
}

impl Fake {
    pub(crate) fn new(first: Mood, later: Mood) -> Fake {
        Fake {
            first,
            later,
            pinged: None,
            calls: 0,
            failures: 0,
        }
    }
}

/// That 10.0.0.9:1 is alive at 1; None if there is no such member.
fn told() -> Option<Sourced> {
    let address = Address::new(0x0a00_0009, 1)?;
    let incarnation = Incarnation::new(1)?;
    let change = Change {
        address,
        incarnation,
        status: Status::Alive,
        weight: Weight::new(1)?,
    };
    Some(Sourced {
        change,
        source: address,
        source_incarnation: incarnation,
    })
}

/// The answer that the message needs, in a mood in which there is one, if there is memory for it.
fn fit_answer(mood: Mood, alloc: Global, from: Address, asked: &Message) -> Option<Message> {
    let changes = match mood {
        Mood::Telling => Changes::from_slice(alloc, &[told()?]).ok()?,
        _ => Changes::from_slice(alloc, &[]).ok()?,
    };
    let is_reached = mood != Mood::Missing;
    let news = News {
        checksum: Digest::new([0; 32]),
        changes,
    };
    let content = match &asked.content {
        Content::Join(_) => Content::Joined(news),
        Content::PingReq(_, target) => Content::PingReqAck(news, *target, is_reached),
        Content::Forward(_, body) => Content::Reply(Text::new(alloc, body.as_str()).ok()?),
        _ => Content::Ack(news),
    };
    Some(Message {
        source: from,
        source_incarnation: asked.source_incarnation,
        content,
    })
}

/// The answer of a peer in this mood; None if out of memory for it, or it never answers.
fn answer_in(mood: Mood, alloc: Global, from: Address, asked: &Message) -> Option<Message> {
    match mood {
        Mood::Willing | Mood::Missing | Mood::Telling => fit_answer(mood, alloc, from, asked),
        Mood::Strange => fit_answer(mood, alloc, asked.source, asked),
        Mood::Failing => Some(Message {
            source: from,
            source_incarnation: asked.source_incarnation,
            content: Content::NotOwner,
        }),
        Mood::Broken | Mood::Starved => None,
    }
}

/// Whom the last ping was for, after this message.
fn last_pinged(earlier: Option<Address>, to: Address, message: &Message) -> Option<Address> {
    match &message.content {
        Content::Ping(_) => Some(to),
        _ => earlier,
    }
}

impl Link for Fake {
    ghost may_answer = { λ _ _ _. Unit {0} };

    ghost went = { λ _ _ _ _ _. Unit {0} };

    ghost failed = { λ f. f.failures };

    fn failures(&self) -> u64 {
        self.failures
    }

    fn call<R: Wait>(
        &mut self,
        _rt: &R,
        alloc: Global,
        to: Address,
        message: &Message,
    ) -> Result<Message, LinkError> {
        if self.failures == u64::MAX {
            return Err(LinkError::Spent);
        }
        self.pinged = last_pinged(self.pinged, to, message);
        let mood = if self.calls == 0 {
            self.first
        } else {
            self.later
        };
        self.calls = self.calls.wrapping_add(1);
        if mood == Mood::Broken {
            self.failures += 1;
            return Err(LinkError::Io);
        }
        match answer_in(mood, alloc, to, message) {
            Some(answer) => Ok(answer),
            None => Err(LinkError::Memory),
        }
    }
}

/// This text as an answer, if there is memory for it.
pub(crate) fn worded(alloc: Global, words: &str) -> Result<Text, HandlerFault> {
    match Text::new(alloc, words) {
        Ok(text) => Ok(text),
        Err(_) => Err(HandlerFault::Memory),
    }
}

/// A handler that returns the body of the request, if it is willing.
#[derive(Drop)]
pub(crate) struct Echo {
    pub(crate) mood: Mood,
}

impl Handler for Echo {
    ghost may_handle = { λ _ _ _ _. Unit {0} };

    fn handle<R: Wait>(
        &self,
        _rt: &R,
        alloc: Global,
        _keys: &Keys,
        body: &Text,
    ) -> Result<Text, HandlerFault> {
        match self.mood {
            Mood::Willing => worded(alloc, body.as_str()),
            Mood::Starved => Err(HandlerFault::Memory),
            _ => Err(HandlerFault::Failed),
        }
    }
}

/// The same, willing.
pub(crate) const WILLING: Echo = Echo {
    mood: Mood::Willing,
};

/// A handler that answers so, and counts how often it is asked.
#[derive(Drop)]
pub(crate) struct Counting {
    echo: Echo,
    calls: AtomicU64,
}

impl Counting {
    pub(crate) fn new(mood: Mood) -> Counting {
        Counting {
            echo: Echo { mood },
            calls: AtomicU64::new(0),
        }
    }

    pub(crate) fn calls(&self) -> u64 {
        self.calls.load(Ordering::SeqCst)
    }
}

impl Handler for Counting {
    ghost may_handle = { λ _ _ _ _. Unit {0} };

    fn handle<R: Wait>(
        &self,
        rt: &R,
        alloc: Global,
        keys: &Keys,
        body: &Text,
    ) -> Result<Text, HandlerFault> {
        self.calls.fetch_add(1, Ordering::SeqCst);
        self.echo.handle(rt, alloc, keys, body)
    }
}
