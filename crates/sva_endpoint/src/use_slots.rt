//! The slots of the uses of cached translations.

ghost use Rattle.std.specs.Prelude.{◌≡◌, ◌<◌, IfSome, map, position, slice_set, length};
ghost use Rattle.std.specs.List.{list_any};
ghost use Rattle.sva_endpoint.specs.UseSlots.{runs_covered, cut_off};

use crate::coverage::Invalidation;
use arrayvec::ArrayVec;
use std::marker::Model;
use sva_step::USE_SLOTS;

/// A use of a cached translation: translated requests (AT field 10b; PCI Express Base 5.0, section 10.2.1) to one frame.
#[derive(Clone, Copy, Debug, PartialEq, Eq)]
pub struct Use {
    /// The PASID, 1 to 32.
    pub pasid: u32,
    /// The number of the page, below 2^36.
    pub page: u64,
    /// The number of the frame that the translation leads to, below the config's count (at most 4096).
    pub frame: u32,
    /// W: the translation allows writing, beside reading.
    pub write: bool,
}

/// The place of one use.
#[derive(Clone, Copy, Debug, PartialEq, Eq)]
pub enum UseSlot {
    /// No use has the slot.
    Free,
    /// A use that runs.
    Running(Use),
    /// A use that a reset ended: it touches nothing and names no frame, and has its slot until it is told of its end (this
    /// project's own rule).
    Dead,
}

impl UseSlot {
    ghost use Rattle.sva_endpoint.specs.UseSlots.{is_free, runs_under, runs_covered, cut_off};

    fn is_free(&self) -> bool
        ensures { result ≡ is_free self.now }
    {
        matches!(self, UseSlot::Free)
    }

    fn runs_under(&self, pasid: u64) -> bool
        ensures { result ≡ runs_under pasid self.now }
    {
        match self {
            UseSlot::Running(running) => u64::from(running.pasid) == pasid,
            UseSlot::Free | UseSlot::Dead => false,
        }
    }

    fn runs_covered(self, invalidation: &Invalidation) -> bool
        ensures { result ≡ runs_covered invalidation.now self }
    {
        match self {
            UseSlot::Running(running) => invalidation.covers(running.pasid, running.page),
            UseSlot::Free | UseSlot::Dead => false,
        }
    }

    fn cut_off(self) -> UseSlot
        ensures { result ≡ cut_off self }
    {
        match self {
            UseSlot::Free => UseSlot::Free,
            UseSlot::Running(_) | UseSlot::Dead => UseSlot::Dead,
        }
    }
}

/// The slots of uses of an endpoint: 0 to 15 (a limit of this project).
#[derive(Drop)]
pub struct UseSlots {
    slots: ArrayVec<UseSlot, USE_SLOTS>,
}

impl Model for UseSlots {
    ghost use Rattle.std.specs.Prelude.{◌≡◌, List, length};
    ghost use Rattle.sva_endpoint.specs.declared.use_slots.UseSlot.{UseSlot};

    ghost Value = { List UseSlot };

    ghost view = { λ table. table.slots.items };

    ghost invariant = { λ table. length table.slots.items ≡ 16 };
}

impl UseSlots {
    ghost use Rattle.sva_endpoint.specs.UseSlots.{no_uses, slot_at, is_free, runs_under, runs_covered, cut_off};

    /// No use runs.
    pub fn new() -> Self
        ensures { result ≡ no_uses }
    {
        UseSlots {
            slots: ArrayVec::from([UseSlot::Free; USE_SLOTS]),
        }
    }

    /// What is in each slot, of 0 to 15.
    pub fn places(&self) -> &[UseSlot]
        ensures { result.now ≡ self.now }
    {
        self.slots.as_slice()
    }

    /// What is in a slot; one from 16 on is free.
    #[tactic(auto, using(crate::proofs::Places::past_the_end))]
    pub fn at(&self, slot: u64) -> UseSlot
        ensures { result ≡ slot_at self.now slot }
    {
        if slot < self.slots.len() as u64 {
            self.slots[slot as usize]
        } else {
            UseSlot::Free
        }
    }

    /// The lowest slot that no use has, 0 to 15; none where each has one.
    pub fn lowest_free(&self) -> Option<u8>
        ensures found { result ≡ position is_free self.now }
        ensures within { IfSome result (λ slot. slot < 16) }
    {
        self.first_free().map(|slot| slot as u8)
    }

    fn first_free(&self) -> Option<usize>
        ensures found { result ≡ position is_free self.now }
        ensures within { IfSome result (λ slot. slot < 16) }
    {
        self.slots.iter().position(|slot| slot.is_free())
    }

    /// Lets a use run in this slot, 0 to 15.
    pub fn begin(&mut self, slot: u8, begun: Use)
        requires { slot < 16 }
        ensures { self.new ≡ slice_set self.old slot (UseSlot.Running begun) }
    {
        self.slots[slot as usize] = UseSlot::Running(begun);
    }

    /// Frees a slot; one from 16 on stays free.
    #[tactic(auto, using(crate::proofs::Places::past_the_end))]
    pub fn free(&mut self, slot: u64)
        ensures { self.new ≡ slice_set self.old slot UseSlot.Free }
    {
        if slot < self.slots.len() as u64 {
            self.slots[slot as usize] = UseSlot::Free;
        }
    }

    /// Tells whether a use of this PASID runs; a dead one doesn't.
    pub fn runs_under(&self, pasid: u64) -> bool
        ensures { result ≡ list_any (runs_under pasid) self.now }
    {
        self.slots.iter().any(|slot| slot.runs_under(pasid))
    }

    /// Tells for each slot whether a use runs in it that the invalidation covers.
    pub fn covered(&self, invalidation: &Invalidation) -> [bool; USE_SLOTS]
        ensures { result ≡ map (runs_covered invalidation.now) self.now }
    {
        covered_in(self.slots.as_slice(), invalidation)
    }

    /// Ends each running use, as a reset does: its slot is dead until it is freed (this project's own rule).
    pub fn cut_off(&mut self)
        ensures { self.new ≡ map cut_off self.old }
    {
        cut_off_each(self.slots.as_mut_slice());
    }
}

/// Tells for each of these slots whether a use runs in it that the invalidation covers.
fn covered_in(slots: &[UseSlot], invalidation: &Invalidation) -> [bool; USE_SLOTS]
    requires { length slots.now ≡ 16 }
    ensures { result ≡ map (runs_covered invalidation.now) slots.now }
{
    let mut covered = [false; USE_SLOTS];
    for (slot, place) in slots.iter().enumerate() {
        covered[slot] = place.runs_covered(invalidation);
    }
    covered
}

/// Ends each running use of these.
fn cut_off_each(slots: &mut [UseSlot])
    ensures { slots.new ≡ map cut_off slots.old }
{
    for slot in slots.iter_mut() {
        *slot = slot.cut_off();
    }
}
