//! The ring on its way to the application that is told of it, from the thread of the rounds to a thread of its own.
ghost use Rattle.std.specs.Prelude.{◌≡◌, Bool, IfSome, Option};
ghost use Rattle.agent_core.specs.Tellings.{after_all};
ghost use Rattle.agent_core.specs.declared.tellings.Ring.{Ring};
ghost use Rattle.agent_node.specs.Digests.{ring_digest};
ghost use Rattle.agent_node.specs.Tellings.{events_of};

use crate::digests::ring_digest;
use agent_core::{Ring, Telling, on_ring};
use agent_state::{Count, Flag, Host};
use change_core::{Address, Change, Digest};
use std::alloc::Global;
use std::sync::{Mutex, Wait};
use std::thread::Parker;
use std::time::Duration;
use transport::Deadline;

/// The milliseconds for a notice and its answer, connecting included.
pub const MAX_NOTICE_MILLIS: u64 = 4_000;

/// The ring on its way from the thread of the rounds to the thread that tells the application, and counts of notices.
#[derive(Drop)]
pub struct Teller {
    /// Whether the application is told.
    is_on: bool,
    /// Whether the node was in the ring. Until then nothing is told.
    has_served: Flag,
    /// The ring that was noted last, if the thread has not taken it yet.
    noted: Mutex<Option<Ring>>,
    /// Whether the next notice is to go out now, whatever failed before.
    is_hurried: Flag,
    wake: Parker,
    /// The parker that is unparked when nothing is left to tell.
    all_told: Parker,
    /// The notices that the application answered with a status from 200 to 299.
    pub taken: Count,
    /// The notices that were sent, or were to be, and that it did not answer so.
    pub failed: Count,
    /// 1 while a ring is to be told, else 0.
    pub untold: Count,
}

/// Notes a ring, if one came, and then a hurry, if there is one.
fn pass(telling: &mut Telling, ring: Option<Ring>, hurries: bool)
    ensures { telling.new ≡ after_all telling.old (events_of ring hurries) }
{
    if let Some(ring) = ring {
        telling.note(ring);
    }
    if hurries {
        telling.hurry();
    }
}

impl Teller {
    /// Makes the teller of an application that is told, or is not.
    pub fn new(is_on: bool) -> Self
        ensures { result.is_on ≡ is_on }
    {
        Teller {
            is_on,
            has_served: Flag::new(false),
            noted: Mutex::new(None),
            is_hurried: Flag::new(false),
            wake: Parker::new(),
            all_told: Parker::new(),
            taken: Count::new(),
            failed: Count::new(),
            untold: Count::new(),
        }
    }

    /// Notes the ring of a node with its own address that holds these members, which replaces one that the thread has not taken. Returns its digest;
    /// None if memory runs out, and then nothing is noted. It is not told before the node is in it for the first time.
    pub fn note<R: Wait>(
        &self,
        rt: &R,
        alloc: Global,
        own: Address,
        members: &[Change],
    ) -> Option<Digest>
        ensures digest { IfSome result (λ digest. digest.bytes ≡ ring_digest members.now) }
    {
        let digest = ring_digest(alloc, members).ok()?;
        if self.is_on && self.note_served(own, members) {
            let servers = on_ring(alloc, members).ok()?;
            *self.noted.lock(rt) = Some(Ring { digest, servers });
            self.wake.unpark();
        }
        Some(digest)
    }

    /// Returns whether the node was in the ring, that of these members included.
    fn note_served(&self, own: Address, members: &[Change]) -> bool {
        let serves = members
            .iter()
            .any(|member| member.address == own && member.status.serving());
        if serves {
            self.has_served.set(true);
        }
        self.has_served.get()
    }

    /// Has the next notice go out now, whatever failed before.
    pub fn hurry(&self) {
        self.is_hurried.set(true);
        self.wake.unpark();
    }

    /// Moves the ring that was noted to what is to be told.
    pub fn pass_to<R: Wait>(&self, rt: &R, telling: &mut Telling)
        ensures { (ring : Option Ring) × (hurries : Bool) × (telling.new ≡ after_all telling.old (events_of ring hurries)) }
    {
        let mut noted = self.noted.lock(rt);
        let hurries = self.is_hurried.get();
        if hurries {
            self.is_hurried.set(false);
        }
        pass(telling, noted.take(), hurries);
        self.untold.set(u64::from(telling.next.is_some()));
        if telling.next.is_none() {
            self.all_told.unpark();
        }
    }

    /// Returns whether the ring that was noted last was told.
    fn has_told<R: Wait>(&self, rt: &R) -> bool {
        let noted = self.noted.lock(rt);
        noted.is_none() && self.untold.get() == 0
    }

    /// Waits until the ring that was noted last was told, but no longer than a notice and its answer may take.
    pub fn await_told<R: Host>(&self, rt: &R) {
        let Ok(deadline) = Deadline::after(rt, Duration::from_millis(MAX_NOTICE_MILLIS)) else {
            return;
        };
        for _ in rt.forever() {
            if self.has_told(rt) {
                return;
            }
            let Ok(left) = deadline.left() else {
                return;
            };
            self.all_told.park_timeout(rt, left);
        }
    }

    /// Waits until a ring is noted, or these milliseconds have passed, if there are any. It may return early.
    pub fn wait<R: Wait>(&self, rt: &R, millis: Option<u64>) {
        match millis {
            Some(millis) => self.wake.park_timeout(rt, Duration::from_millis(millis)),
            None => self.wake.park(rt),
        }
    }
}
