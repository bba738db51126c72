//! What the log said last of other nodes, of this node's link and of the application, so that it tells a change that lasts,
//! and not each failure.
use crate::counters::Count;
use agent_core::Notice;
use change_core::{Address, Moment};
use std::alloc::Global;
use std::sync::{Mutex, Wait};

/// A record of what the log said last of what is at an address.
#[derive(Clone, Copy, Drop)]
struct Noticed {
    address: Address,
    notice: Notice,
}

/// A list of what the log said last, by address. It has no entry of an address of which it would say no more than a new one.
#[derive(Drop)]
pub struct Notices {
    notices: Mutex<Vec<Noticed>>,
    /// The number of entries.
    count: Count,
}

/// Notes in a list whether what is at an address fails at a moment. Returns whether the log is to say so. If out of memory
/// keeps no note, it is not, so that a failure that goes on is not logged each time.
fn note_in(notices: &mut Vec<Noticed>, address: Address, is_failing: bool, now: Moment) -> bool {
    if let Some(known) = notices.iter_mut().find(|it| it.address == address) {
        return known.notice.note(is_failing, now);
    }
    let mut notice = Notice::new();
    let is_news = notice.note(is_failing, now);
    notices.push(Noticed { address, notice }).is_ok() && is_news
}

impl Notices {
    /// Makes the list of no notice.
    pub fn new(alloc: Global) -> Self {
        Notices {
            notices: Mutex::new(Vec::new(alloc)),
            count: Count::new(),
        }
    }

    /// Notes whether what is at an address fails at a moment. Returns whether the log is to say so: the state is not the one
    /// that it said last, ten seconds before or earlier.
    pub fn note<W: Wait>(&self, rt: &W, address: Address, is_failing: bool, now: Moment) -> bool {
        // (so that nothing is locked while nothing fails)
        if !is_failing && self.count.get() == 0 {
            return false;
        }
        let mut notices = self.notices.lock(rt);
        let is_news = note_in(&mut notices, address, is_failing, now);
        notices.retain(|it| !it.notice.is_over(now));
        self.count.set(notices.len() as u64);
        is_news
    }
}
