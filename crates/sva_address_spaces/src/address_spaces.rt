//! The frames and the live spaces of a host, put together.

ghost use Rattle.std.specs.Prelude.{◌≡◌, ◌≢◌, ◌≤◌, ◌^◌, ◌↔◌, [], true, None, Err, IfOk, OnOk, OnErr, IsOk, IsTrue, length, option_map};
ghost use Rattle.sva_step.specs.declared.refusals.Refusal.TheVariants as refusal;
ghost use Rattle.sva_step.specs.declared.steps.Step.TheVariants as step;
ghost use Rattle.sva_labels.specs.Moves.{Move, settled_cookie};
ghost use Rattle.sva_labels.specs.Finding.{page_at, pages_of, or_no_pages};
ghost use Rattle.sva_address_spaces.specs.Seen.{page_seen, targets_seen};
ghost use Rattle.sva_address_spaces.specs.Room.{HaveRoom};
ghost use Rattle.sva_address_spaces.specs.Unmapping.{may_unmap, may_unmap_range, frames_of, mapped_of, unmapped, settled};
ghost use Rattle.sva_address_spaces.specs.Asked.{asks_seen, new_pages, may_map_all, maps_of, taken_back};
ghost use Rattle.sva_address_spaces.specs.Steps.{first_address_spaces, Steps, Moves, AllMoves, has_space, Counted};

use crate::asked::{self, MOST_ASKED};
use crate::live::{LiveSpace, place_of};
use crate::pages;
use arrayvec::ArrayVec;
use std::alloc::{AllocError, Global};
use std::marker::Model;
use sva_frames::{Counts, FramePool, Place, Waits};
use sva_prq::Ask;
use sva_space::Space;
use sva_step::{Answer, FrameList, MOST_SPACES, NUMBERS, Refusal};

/// The frames and the live spaces of a host.
///
/// Contracts see what a host keeps of them: the spaces with their pages, the places of frames, and the next number of a
/// space. A step that these alone decide is that step by labels, at each host that keeps them so.
pub struct AddressSpaces {
    alloc: Global,
    pub(crate) pool: FramePool,
    pub(crate) spaces: Vec<LiveSpace>,
    pub(crate) next_space: u64,
}

impl Drop for AddressSpaces {
    fn drop(self) {
        let AddressSpaces {
            alloc: _,
            mut pool,
            mut spaces,
            next_space: _,
        } = self;
        while let Some(live) = spaces.pop() {
            let LiveSpace { number: _, space } = live;
            pages::give_all(space, &mut pool);
        }
        spaces.destroy_empty();
    }
}

impl Model for AddressSpaces {
    ghost use Rattle.sva_address_spaces.specs.Seen.{AddressSpacesSeen};

    ghost Value = { AddressSpacesSeen };

    ghost use Rattle.sva_address_spaces.specs.Inner.{spaces_in, AreAddressSpaces};

    ghost view = { spaces_in };

    ghost invariant = { AreAddressSpaces };
}

impl AddressSpaces {
    /// Each of these frames is free, there is no space, and the first one will have this number.
    pub fn open(alloc: Global, frames: u32, first: u64) -> Result<AddressSpaces, AllocError>
        ensures { IfOk result (λ memory. memory ≡ first_address_spaces frames first) }
    {
        Ok(AddressSpaces {
            alloc,
            pool: FramePool::open(alloc, frames)?,
            spaces: Vec::new(alloc),
            next_space: first,
        })
    }

    /// Begins a space, with the next number.
    pub fn space(&mut self) -> Result<Answer, Refusal>
        ensures { Steps step.Space self.old result self.new }
    {
        if self.spaces.len() >= MOST_SPACES {
            return Err(Refusal::TooManySpaces);
        }
        if self.next_space >= NUMBERS {
            return Err(Refusal::NumbersSpent);
        }
        if self.spaces.reserve(1).is_err() {
            return Err(Refusal::OutOfMemory);
        }
        let number = self.next_space;
        self.next_space += 1;
        self.spaces.push_reserved(LiveSpace {
            number,
            space: Space::new(self.alloc),
        });
        Ok(Answer::Space { space: number })
    }

    /// Maps a page of a space to the lowest free frame.
    pub fn map(&mut self, space: u64, page: u64, write: bool) -> Result<Answer, Refusal>
        ensures { Steps (step.Map space page write) self.old result self.new }
    {
        let Some(place) = place_of(&self.spaces, space) else {
            return Err(Refusal::NoSuchSpace);
        };
        pages::map_page(&mut self.spaces[place].space, &mut self.pool, page, write)
    }

    /// Where a frame is.
    pub fn look(&self, frame: u64) -> Result<Answer, Refusal>
        ensures step { Steps (step.Look frame) self.now result self.now }
        ensures memory { result ≢ Err refusal.OutOfMemory }
    {
        if frame >= self.pool.len() as u64 {
            return Err(Refusal::NoFrame);
        }
        match self.pool.place(frame as u32) {
            Place::Free => Ok(Answer::Free),
            Place::Mapped => Ok(Answer::Mapped),
            Place::Withheld => Ok(Answer::Withheld),
        }
    }

    /// Whether there is a space of this number.
    pub fn has_space(&self, number: u64) -> bool
        ensures { result ≡ has_space self.now number }
    {
        place_of(&self.spaces, number).is_some()
    }

    /// The frame at a page of a space, and whether it may be written; `None` where there is no such space, or the page isn't
    /// mapped.
    pub fn find(&self, space: u64, page: u64) -> Option<(u32, bool)>
        ensures { option_map (λ found. page_seen (page, found)) result ≡ page_at (or_no_pages (pages_of self.now.spaces space)) page }
    {
        let Some(place) = place_of(&self.spaces, space) else {
            return None;
        };
        self.spaces[place].space.find(page)
    }

    /// Ends a space: its frames are free.
    pub fn drop_space(&mut self, number: u64)
        requires { has_space self.old number ≡ true }
        ensures { Moves (Move.DropSpace number) self.old self.new }
    {
        let Some(place) = place_of(&self.spaces, number) else {
            unreachable!();
        };
        let LiveSpace { number: _, space } = self.spaces.remove(place);
        pages::give_all(space, &mut self.pool);
    }

    /// Whether `count` pages of a space in a row may be taken out: the first of `NoSuchSpace`, `BadCount`, `PageRange` and
    /// `NotMapped` that refuses it.
    pub fn may_unmap(&self, space: u64, page: u64, count: u64) -> Result<(), Refusal>
        ensures { result ≡ may_unmap self.now space page count }
    {
        let Some(place) = place_of(&self.spaces, space) else {
            return Err(Refusal::NoSuchSpace);
        };
        pages::may_unmap(&self.spaces[place].space, page, count)
    }

    /// Takes pages of a space in a row out, and answers their frames. Each of these is withheld for the waits, and free where
    /// there are none. A cookie that no frame waits for yet at its unit must find fewer than 64 pending there.
    pub fn unmap(&mut self, space: u64, page: u64, count: u64, waits: &Waits) -> FrameList
        requires may { IsOk (may_unmap self.old space page count) }
        requires room { HaveRoom self.old.places (targets_seen waits.now) }
        ensures frames { result ≡ frames_of self.old space page count }
        ensures after { self.new ≡ unmapped self.old space page count (targets_seen waits.now) }
    {
        let Some(place) = place_of(&self.spaces, space) else {
            unreachable!();
        };
        pages::take_out(
            &mut self.spaces[place].space,
            &mut self.pool,
            page,
            count,
            waits,
        )
    }

    /// Whether a range of 2^`order` pages of a space may be taken out: the first of `NoSuchSpace`, `BadOrder`, `PageRange`,
    /// `NotAligned` and `NothingMapped` that refuses it.
    pub fn may_unmap_range(&self, space: u64, page: u64, order: u64) -> Result<(), Refusal>
        ensures { result ≡ may_unmap_range self.now space page order }
    {
        let Some(place) = place_of(&self.spaces, space) else {
            return Err(Refusal::NoSuchSpace);
        };
        pages::may_unmap_range(&self.spaces[place].space, page, order)
    }

    /// Takes the pages of a range out, those of them that are mapped, and answers how many they are. Their frames are
    /// withheld as by `unmap`.
    pub fn unmap_range(&mut self, space: u64, page: u64, order: u64, waits: &Waits) -> u32
        requires may { IsOk (may_unmap_range self.old space page order) }
        requires room { HaveRoom self.old.places (targets_seen waits.now) }
        ensures frames { result ≡ mapped_of self.old space page (2 ^ order) }
        ensures after { self.new ≡ unmapped self.old space page (2 ^ order) (targets_seen waits.now) }
    {
        let Some(place) = place_of(&self.spaces, space) else {
            unreachable!();
        };
        let count = 1u64 << order;
        pages::take_mapped(
            &mut self.spaces[place].space,
            &mut self.pool,
            page,
            count,
            waits,
        )
    }

    /// Whether the pages that the requests of a job ask for may be mapped, at most 32 requests: the first of `BadVerdict`,
    /// `NoFrame` and `SpaceFull` that refuses it.
    pub fn may_map_all(&self, space: u64, asks: &[Ask]) -> Result<(), Refusal>
        requires there { has_space self.now space ≡ true }
        requires few { length asks.now ≤ 32 }
        ensures { result ≡ may_map_all self.now space (asks_seen asks.now) }
    {
        let Some(place) = place_of(&self.spaces, space) else {
            unreachable!();
        };
        asked::may_map_all(&self.spaces[place].space, &self.pool, asks)
    }

    /// Maps the pages that the requests of a job ask for and that aren't mapped, in order of first filing, to the lowest free
    /// frames in turn, each to be written if a request asks for that. Gives these pages. Where there is no memory for one of
    /// them, nothing changes; where there are none, none is wanted.
    pub fn map_all(
        &mut self,
        space: u64,
        asks: &[Ask],
    ) -> Result<ArrayVec<u64, MOST_ASKED>, AllocError>
        requires there { has_space self.old space ≡ true }
        requires few { length asks.now ≤ 32 }
        requires may { IsOk (may_map_all self.old space (asks_seen asks.now)) }
        ensures pages { IfOk result (λ pages. pages.items ≡ new_pages self.old space (asks_seen asks.now)) }
        ensures after { OnOk result (AllMoves (maps_of self.old space (asks_seen asks.now)) self.old self.new) }
        ensures back { IfOk result (λ pages. taken_back self.new space pages.items ≡ self.old) }
        ensures err { OnErr result (self.new ≡ self.old) }
        ensures none { new_pages self.old space (asks_seen asks.now) ≡ [] → IsOk result }
    {
        let Some(place) = place_of(&self.spaces, space) else {
            unreachable!();
        };
        asked::map_all(&mut self.spaces[place].space, &mut self.pool, asks)
    }

    /// Takes pages of a space out again, the last first, those of them that are mapped: their frames are free.
    pub fn take_back(&mut self, space: u64, pages: &[u64])
        ensures { self.new ≡ taken_back self.old space pages.now }
    {
        let Some(place) = place_of(&self.spaces, space) else {
            return;
        };
        asked::take_back(&mut self.spaces[place].space, &mut self.pool, pages);
    }

    /// Whether each cookie of these waits is pending at its unit already, or finds fewer than 64 pending there.
    pub fn has_room(&self, waits: &Waits) -> bool
        ensures { IsTrue result ↔ HaveRoom self.now.places (targets_seen waits.now) }
    {
        self.pool.has_room(waits)
    }

    /// The wait with this cookie is done at a unit, and no frame waits for it any more. A frame that waits for nothing else
    /// is free.
    pub fn settle(&mut self, unit: u64, cookie: u64)
        ensures { self.new ≡ settled self.old unit (settled_cookie cookie) }
    {
        self.pool.settle(unit, cookie);
    }

    /// A reset has ended, and no frame waits for this unit any more.
    pub fn settle_all(&mut self, unit: u64)
        ensures { self.new ≡ settled self.old unit (λ target. None) }
    {
        self.pool.settle_all(unit);
    }

    /// How many frames are at each place.
    pub fn counts(&self) -> Counts
        ensures { Counted self.now.places result }
    {
        self.pool.counts()
    }

    /// How many frames there are.
    pub fn len(&self) -> usize
        ensures { result ≡ length self.now.places }
    {
        self.pool.len()
    }
}
