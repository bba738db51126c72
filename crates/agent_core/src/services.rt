//! The watch over the service of a node, the application of an agent: when the node leaves the ring since its service takes no
//! connection, and when it comes back.
ghost use Rattle.std.specs.Prelude.{◌≡◌, true, false};
ghost use Rattle.agent_core.specs.Services.{move_of, watched};

/// The move of a node once its service was observed.
#[derive(Clone, Copy, Debug, PartialEq, Eq)]
pub enum Move {
    /// It stays where it is, in the ring or out of it.
    Stay,
    /// It leaves the ring.
    Leave,
    /// It comes back into the ring.
    Rejoin,
}

/// An observation of a service and of its node at a moment.
#[derive(Clone, Copy, Debug, PartialEq, Eq)]
pub struct Sight {
    /// The moment in milliseconds.
    pub now: u64,
    /// Whether the service took a connection.
    pub takes: bool,
    /// Whether the node is out of the ring, whoever had it leave.
    pub has_left: bool,
}

/// A watch over the service of a node.
#[derive(Clone, Copy, Debug, PartialEq, Eq)]
pub struct Watch {
    /// The milliseconds without a connection after which the node leaves; 0 if it never does.
    pub after: u64,
    /// The last moment, in milliseconds, at which the service took a connection or the node was out of the ring.
    pub since: u64,
    /// Whether the node is out of the ring because of its service, so that it comes back by itself.
    pub is_out: bool,
}

impl Watch {
    /// Makes the watch over the service of a node in the ring, from moment 0 on.
    pub fn new(after: u64) -> Self
        ensures after { result.after ≡ after }
        ensures since { result.since ≡ 0 }
        ensures out { result.is_out ≡ false }
    {
        Watch {
            after,
            since: 0,
            is_out: false,
        }
    }

    /// Notes that the node left because of its service.
    pub fn set_out(&mut self)
        ensures { self.new ≡ record self.old { is_out = true } }
    {
        self.is_out = true;
    }

    /// Notes that somebody had the node leave: it does not come back by itself.
    pub fn hold(&mut self)
        ensures { self.new ≡ record self.old { is_out = false } }
    {
        self.is_out = false;
    }

    /// Notes an observation. Returns what the node does: it leaves if its service took no connection for as long as the watch
    /// says, and comes back if its service takes one and the node left because of that.
    pub fn note(&mut self, sight: Sight) -> Move
        ensures moves { result ≡ move_of self.old sight }
        ensures watch { self.new ≡ watched self.old sight }
    {
        let Sight {
            now,
            takes,
            has_left,
        } = sight;
        let is_long = self.after > 0 && now.saturating_sub(self.since) >= self.after;
        let is_lost = !has_left && !takes && is_long;
        let is_found = has_left && takes && self.is_out;
        if takes || has_left {
            self.since = self.since.max(now);
        }
        self.is_out = is_lost || (self.is_out && has_left);
        if is_lost {
            Move::Leave
        } else if is_found {
            Move::Rejoin
        } else {
            Move::Stay
        }
    }
}
