ghost use Rattle.std.specs.Prelude.{◌≡◌, ◌≢◌, ◌+◌, ◌<◌, ◌≤◌, ◌⊎◌, ◌↔◌, [], length, IsTrue, IsOk, not, find, nat_le, slice_index_or, OnOk, OnErr, IsOkUnless};
ghost use Rattle.std.specs.Option.{option_copied};
ghost use Rattle.detector_core.specs.Timers.{with_timer, without_timer, due_at, HasTimer, IsAscending, IsPlace, IsTimerAt};

use crate::errors::DetectorError;
use change_core::{Address, Incarnation, Moment, Status};
use std::alloc::Global;
use std::marker::Model;

/// The time at which an entry changes its status next, and the new status. The deadline is in milliseconds, and one
/// past the greatest moment is never reached.
#[derive(Clone, Copy, Debug)]
pub struct Timer {
    pub address: Address,
    pub incarnation: Incarnation,
    pub next: Status,
    pub deadline: u64,
}

/// A timer that has run out: at this incarnation the entry of the address takes the next status.
#[derive(Clone, Copy, Debug, PartialEq, Eq)]
pub struct Due {
    pub address: Address,
    pub incarnation: Incarnation,
    pub next: Status,
}

/// The running timers, at most one for each address. They make a suspect faulty unless it refutes in time (SWIM,
/// section 4.2: suspicion) and a faulty entry a tombstone. Contracts see the list, ascending by address, and for
/// how many more there is room.
#[derive(Drop)]
pub struct Timers {
    timers: Vec<Timer>,
}

impl Model for Timers {
    ghost use Rattle.std.specs.Prelude.{◌-◌, vec_capacity, vec_len};
    ghost use Rattle.detector_core.specs.Timers.{TimerList, IsAscending};

    ghost Value = { TimerList };

    ghost view = { λ t. record {
      timers = t.timers.items;
      room = vec_capacity t.timers - vec_len t.timers;
    } };

    ghost invariant = { λ t. IsAscending t.timers.items };
}

impl Timers {
    /// No timers, and room for none yet.
    pub fn new(alloc: Global) -> Self
        ensures { result ≡ record { timers = []; room = 0 } }
    {
        Timers {
            timers: Vec::new(alloc),
        }
    }

    /// Makes room for another timer. It succeeds if there is room already. After an error nothing has changed.
    ///
    /// # Errors
    ///
    /// - `Memory`: out of memory.
    pub fn reserve_one(&mut self) -> Result<(), DetectorError>
        ensures timers { self.new.timers ≡ self.old.timers }
        ensures room { OnOk result (0 < self.new.room) }
        ensures room_there { 0 < self.old.room → IsOk result }
        ensures room_stays { self.old.room ≤ self.new.room }
        ensures err { OnErr result (self.new ≡ self.old) }
        ensures refusal { IsOkUnless result DetectorError.Memory }
    {
        self.timers.reserve(1)?;
        Ok(())
    }

    /// Starts the timer of an address, replacing the one that runs. It takes no memory: there is room, or the address
    /// has a timer.
    pub fn set(&mut self, address: Address, incarnation: Incarnation, next: Status, deadline: u64)
        requires { (0 < self.old.room) ⊎ HasTimer self.old.timers address }
        ensures timers { self.new.timers ≡ with_timer self.old.timers
            (record { address = address; incarnation = incarnation; next = next; deadline = deadline }) }
        ensures room { self.old.room ≤ self.new.room + 1 }
        ensures replaced { HasTimer self.old.timers address → self.old.room ≤ self.new.room }
    {
        let timer = Timer {
            address,
            incarnation,
            next,
            deadline,
        };
        let place = place_of(&self.timers, address);
        if stands_at(&self.timers, place, address) {
            self.timers[place] = timer;
        } else {
            self.timers.insert(place, timer).unwrap();
        }
    }

    /// Ends the timer of an address, and returns whether it had one. Its room is free for another.
    pub fn clear(&mut self, address: Address) -> bool
        ensures timers { self.new.timers ≡ without_timer self.old.timers address }
        ensures found { IsTrue result ↔ HasTimer self.old.timers address }
        ensures room { self.old.room ≤ self.new.room }
        ensures freed { IsTrue result → self.old.room + 1 ≤ self.new.room }
    {
        let place = place_of(&self.timers, address);
        let found = stands_at(&self.timers, place, address);
        if found {
            self.timers.remove(place);
        }
        found
    }

    /// The first timer, by address, that is at or past its deadline.
    pub fn due(&self, now: Moment) -> Option<Due>
        ensures { result ≡ due_at self.now.timers now }
    {
        let timer = first_due(&self.timers, now.number())?;
        Some(Due {
            address: timer.address,
            incarnation: timer.incarnation,
            next: timer.next,
        })
    }

    /// The number of timers.
    pub fn len(&self) -> usize
        ensures len { result ≡ length self.now.timers }
        ensures ascending { IsAscending self.now.timers }
    {
        self.timers.len()
    }
}

/// The place of the first timer whose address is not below this one.
fn place_of(timers: &[Timer], address: Address) -> usize
    requires { IsAscending timers.now }
    ensures { IsPlace timers.now address result }
{
    timers.partition_point(|t| t.address < address)
}

/// Returns whether the timer at this place is of this address.
fn stands_at(timers: &[Timer], place: usize, address: Address) -> bool
    ensures yes { IsTrue result → IsTimerAt timers.now place address }
    ensures no { IsTrue (not result) → place < length timers.now → (d : Timer)
        → (slice_index_or timers.now place d).address ≢ address }
{
    place < timers.len() && timers[place].address == address
}

/// The first timer at or past its deadline.
fn first_due(timers: &[Timer], now: u64) -> Option<&Timer>
    ensures { option_copied result ≡ find (λ t. nat_le t.deadline now) timers.now }
{
    timers.iter().find(|t| t.deadline <= now)
}
