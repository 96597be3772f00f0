//! A pool without chains, to compare with: each settlement looks at every frame, and each search at one after the other.

use std::alloc::{AllocError, Global};
use sva_frames::{Counts, PENDING, Place, Target};

/// A unit, and what a frame waits for there.
#[derive(Clone, Copy)]
pub struct Wait {
    pub unit: u64,
    pub target: Target,
}

/// A set of cookies with one more. It keeps cookies below 128, which are all that the tests have.
fn with_cookie(set: u128, cookie: u64) -> u128 {
    if cookie < 128 {
        set | (1 << cookie)
    } else {
        set
    }
}

impl Wait {
    /// A set of cookies, with the one that is waited for at a unit, if this waits there for one.
    fn noted_in(&self, set: u128, unit: u64) -> u128 {
        match self.target {
            Target::Cookie(cookie) if self.unit == unit => with_cookie(set, cookie),
            _other => set,
        }
    }
}

/// What the pool keeps of one frame.
#[derive(Drop)]
enum Slot {
    Free,
    Mapped,
    Withheld(Vec<Wait>),
}

impl Slot {
    /// That of a frame which is in no space and has these waits left.
    fn after_waits(left: Vec<Wait>) -> Slot {
        if left.is_empty() {
            Slot::Free
        } else {
            Slot::Withheld(left)
        }
    }

    fn place(&self) -> Place {
        match self {
            Slot::Free => Place::Free,
            Slot::Mapped => Place::Mapped,
            Slot::Withheld(_) => Place::Withheld,
        }
    }

    /// A set of cookies, with the one that the frame waits for at a unit.
    fn noted_in(&self, set: u128, unit: u64) -> u128 {
        let mut all = set;
        if let Slot::Withheld(waits) = self {
            for wait in waits {
                all = wait.noted_in(all, unit);
            }
        }
        all
    }

    /// The wait of this unit with this cookie is done.
    fn settle_cookie(&mut self, unit: u64, cookie: u64) {
        if let Slot::Withheld(waits) = self {
            waits.retain(|wait| wait.unit != unit || wait.target != Target::Cookie(cookie));
            if waits.is_empty() {
                *self = Slot::Free;
            }
        }
    }

    /// The reset of this unit's endpoint has ended.
    fn settle_unit(&mut self, unit: u64) {
        if let Slot::Withheld(waits) = self {
            waits.retain(|wait| wait.unit != unit);
            if waits.is_empty() {
                *self = Slot::Free;
            }
        }
    }
}

/// The frames of a host, by their numbers from 0. A call for a frame that isn't there changes nothing.
#[derive(Drop)]
pub struct PlainPool {
    slots: Vec<Slot>,
}

impl PlainPool {
    pub(crate) fn open(alloc: Global, frames: u32) -> Result<PlainPool, AllocError> {
        let mut slots = Vec::new(alloc);
        for frame in 0..frames {
            slots.push(Slot::Free)?;
        }
        Ok(PlainPool { slots })
    }

    pub(crate) fn take(&mut self) -> Option<usize> {
        for number in 0..self.slots.len() {
            if self.slots[number].place() == Place::Free {
                self.slots[number] = Slot::Mapped;
                return Some(number);
            }
        }
        None
    }

    pub(crate) fn give(&mut self, number: usize) {
        if number < self.slots.len() {
            self.slots[number] = Slot::Free;
        }
    }

    pub(crate) fn withhold(&mut self, number: usize, waits: Vec<Wait>) {
        if number < self.slots.len() {
            self.slots[number] = Slot::after_waits(waits);
        }
    }

    /// The cookies that frames wait for at a unit.
    fn pending(&self, unit: u64) -> u128 {
        let mut all = 0;
        for slot in &self.slots {
            all = slot.noted_in(all, unit);
        }
        all
    }

    /// Whether there are at most as many cookies pending at the wait's unit as may be, with its own.
    fn has_room_for(&self, wait: &Wait) -> bool {
        let pending = self.pending(wait.unit);
        wait.noted_in(pending, wait.unit).count_ones() <= PENDING as u32
    }

    pub(crate) fn has_room(&self, waits: &[Wait]) -> bool {
        for wait in waits {
            if !self.has_room_for(wait) {
                return false;
            }
        }
        true
    }

    pub(crate) fn settle(&mut self, unit: u64, cookie: u64) {
        for slot in &mut self.slots {
            slot.settle_cookie(unit, cookie);
        }
    }

    pub(crate) fn settle_all(&mut self, unit: u64) {
        for slot in &mut self.slots {
            slot.settle_unit(unit);
        }
    }

    pub(crate) fn place(&self, number: usize) -> Option<Place> {
        Some(self.slots.get(number)?.place())
    }

    /// How many frames are at a place.
    fn count(&self, place: Place) -> u32 {
        let mut count: u32 = 0;
        for slot in &self.slots {
            if slot.place() == place {
                count = count.wrapping_add(1);
            }
        }
        count
    }

    pub(crate) fn counts(&self) -> Counts {
        Counts {
            free: self.count(Place::Free),
            mapped: self.count(Place::Mapped),
            withheld: self.count(Place::Withheld),
        }
    }
}
