//! The pool of the frames of a host.

ghost use Rattle.std.specs.Prelude.{◌≡◌, ◌^◌, ◌↔◌, IsTrue, ◌<◌, ◌==◌, ℕ, true, List, Option, Some, None, IfOk, IfSome, IfNone, length, position};
ghost use Rattle.std.specs.Prelude.{count_by, slice_get, slice_set, option_map};

use crate::lane::{Lane, enter_all, open_all};
use crate::ledger::{Ledger, Stage};
use crate::waits::{Target, UNITS, Waits};
use std::alloc::{AllocError, Global};
use std::marker::Model;

/// Where a frame is.
#[derive(Clone, Copy, PartialEq, Eq)]
pub enum Place {
    /// In the pool, to be taken.
    Free,
    /// Handed out by `take`.
    Mapped,
    /// Out of every space, and still waited for at some unit.
    Withheld,
}

/// How many frames are at each place: three numbers whose sum is that of all frames.
#[derive(Clone, Copy, Debug, PartialEq, Eq)]
pub struct Counts {
    /// Frames in the pool, to be taken.
    pub free: u32,
    /// Frames that `take` handed out and that are neither given back nor withheld.
    pub mapped: u32,
    /// Frames that are out of every space and still waited for at some unit.
    pub withheld: u32,
}

/// A frame in hand, which contracts see by its number. It must be spent: given back to its pool, or withheld there.
///
/// A frame doesn't tell its pool: a pool accepts a frame of another one wherever its own frame of that number is mapped.
/// So what a pool says of frames in hand it says of their numbers.
pub struct Frame {
    number: u32,
}

impl Model for Frame {
    ghost use Rattle.std.specs.Prelude.{ℕ};

    ghost Value = { ℕ };

    ghost view = { λ f. f.number };
}

impl Frame {
    /// Its place in the pool, from 0.
    pub fn number(&self) -> u32
        ensures { result ≡ self.now }
    {
        self.number
    }
}

/// The frames of a host, by their numbers from 0.
///
/// Contracts see the list of holdings, one a frame: free, mapped, or withheld with the table of what it still waits
/// for.
///
/// At each unit the frames that wait for the same stand in a chain, so a settlement goes to these and to no other frame.
/// Only `open` takes memory: a cell for each frame and unit, and a place for each cookie that may be pending.
#[derive(Drop)]
pub struct FramePool {
    pub(crate) ledger: Ledger,
    pub(crate) lanes: Vec<Lane>,
}

impl Model for FramePool {
    ghost use Rattle.std.specs.Prelude.{List};
    ghost use Rattle.sva_frames.specs.Frames.{Holding};
    ghost use Rattle.sva_frames.specs.Pool.{holdings_from, IsPool};

    ghost Value = { List Holding };

    ghost view = { λ p. holdings_from 0 p.ledger p.lanes.items };

    ghost invariant = { λ p. IsPool p.ledger p.lanes.items };
}

impl FramePool {
    ghost use Rattle.sva_frames.specs.declared.waits.Target.{Target};
    ghost use Rattle.sva_frames.specs.Frames.{Mapped, Withheld, has_target, after_waits, is_free, is_mapped, is_withheld, place_of};
    ghost use Rattle.sva_frames.specs.Calls.{Give, Withhold, Settle, SettleAll, opened, after, after_take};
    ghost use Rattle.sva_frames.specs.Chains.{IsWanted};
    ghost use Rattle.sva_frames.specs.Room.{HaveRoom};

    /// The pool of `frames` free frames.
    pub fn open(alloc: Global, frames: u32) -> Result<FramePool, AllocError>
        ensures { IfOk result (λ pool. pool ≡ opened frames) }
    {
        let ledger = Ledger::open(alloc, frames)?;
        let lanes = open_all(alloc, frames)?;
        Ok(FramePool { ledger, lanes })
    }

    /// Hands out the free frame of the lowest number, or `None` where none is free.
    pub fn take(&mut self) -> Option<Frame>
        ensures lowest { result ≡ position is_free self.old }
        ensures after { self.new ≡ after_take self.old result }
        ensures mapped { IfSome result (λ frame. slice_get self.new frame ≡ Some Mapped) }
    {
        let number = self.ledger.first_free()?;
        self.ledger.set(number, Stage::Mapped);
        Some(Frame {
            number: number as u32,
        })
    }

    /// Takes a frame back that is in no space and that no endpoint may hold.
    pub fn give(&mut self, frame: Frame)
        requires { slice_get self.old frame ≡ Some Mapped }
        ensures { self.new ≡ after self.old (Give frame) }
    {
        let Frame { number } = frame;
        self.ledger.set(number as usize, Stage::Free);
    }

    /// Takes a frame back that has left its space. It is free once each of its waits is settled, at once if there
    /// are none. A cookie that no frame waits for yet at its unit must find fewer than 64 pending there, as `has_room`
    /// tells.
    pub fn withhold(&mut self, frame: Frame, waits: Waits)
        requires mapped { slice_get self.old frame ≡ Some Mapped }
        requires room { HaveRoom self.old waits }
        ensures { self.new ≡ after self.old (Withhold frame waits) }
    {
        let Frame { number } = frame;
        let left = enter_all(&mut self.lanes, number, &waits.targets);
        self.ledger.set(number as usize, Stage::of(left));
    }

    /// Whether each cookie of these waits is pending at its unit already or finds fewer than 64 pending there.
    pub fn has_room(&self, waits: &Waits) -> bool
        ensures { IsTrue result ↔ HaveRoom self.now waits.now }
    {
        let targets = &waits.targets;
        for unit in 0..UNITS {
            if !self.lanes[unit].has_room(targets[unit]) {
                return false;
            }
        }
        true
    }

    /// Settles the wanted target at a unit, or any, for one frame that waits for it, and tells which.
    fn settle_one(&mut self, unit: usize, wanted: Option<Target>) -> Option<u32>
        ensures kept { IfNone result (self.new ≡ self.old) }
        ensures none { IfNone result ((frame : ℕ) (waits : List (Option Target)) → slice_get self.old frame ≡ Some (Withheld waits)
            → (has_target waits ≡ true) × ((target : Target) → IsWanted wanted target → slice_get waits unit ≡ Some (Some target) → ⊥)) }
        ensures some { IfSome result (λ frame. (waits : List (Option Target)) × (target : Target) × IsWanted wanted target
            × (slice_get self.old frame ≡ Some (Withheld waits)) × (slice_get waits unit ≡ Some (Some target))
            × (self.new ≡ slice_set self.old frame (after_waits (slice_set waits unit None)))) }
    {
        if unit >= self.lanes.len() {
            return None;
        }
        let frame = self.lanes[unit].pop_wanted(wanted)?;
        let stage = self.ledger.get(frame as usize);
        self.ledger.set(frame as usize, stage.lowered());
        Some(frame)
    }

    /// The wait descriptor with this cookie is done at the unit with this number, of 0 to 7: no frame waits for it any
    /// more. It walks the chain of the cookie, and no other frame.
    pub fn settle(&mut self, unit: u64, cookie: u64)
        ensures { self.new ≡ after self.old (Settle unit cookie) }
    {
        let unit = unit as usize;
        while let Some(_) = self.settle_one(unit, Some(Target::Cookie(cookie))) {}
    }

    /// The reset of the endpoint of the unit with this number, of 0 to 7, has ended: no frame waits for this
    /// unit any more. It walks the chains of this unit, one after the other.
    pub fn settle_all(&mut self, unit: u64)
        ensures { self.new ≡ after self.old (SettleAll unit) }
    {
        let unit = unit as usize;
        while let Some(_) = self.settle_one(unit, None) {}
    }

    /// Where the frame of this number is, which is below the number of frames.
    pub fn place(&self, number: u32) -> Place
        requires { number < length self.now }
        ensures { option_map place_of (slice_get self.now number) ≡ Some result }
    {
        self.ledger.get(number as usize).place()
    }

    /// How many frames are at each place.
    pub fn counts(&self) -> Counts
        ensures free { result.free ≡ count_by is_free self.now }
        ensures mapped { result.mapped ≡ count_by is_mapped self.now }
        ensures withheld { result.withheld ≡ count_by is_withheld self.now }
    {
        self.ledger.counts()
    }

    /// How many frames there are: each has a number of 32 bits.
    pub fn len(&self) -> usize
        ensures len { result ≡ length self.now }
        ensures few { length self.now < 2 ^ 32 }
    {
        self.ledger.len()
    }

    /// Whether the pool was opened with no frame at all.
    pub fn is_empty(&self) -> bool
        ensures { result ≡ (length self.now == 0) }
    {
        self.len() == 0
    }
}
