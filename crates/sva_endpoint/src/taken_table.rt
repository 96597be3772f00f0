//! The invalidations that an endpoint took and hasn't completed yet, by their ITags.

ghost use Rattle.std.specs.Prelude.{◌≡◌, ◌<◌, Some, None, if◌then◌else◌, map, slice_set};
ghost use Rattle.sva_itags.specs.Vector.{is_named};
ghost use Rattle.sva_endpoint.specs.Taken.{without_note};

use crate::coverage::Invalidation;
use arrayvec::ArrayVec;
use std::marker::Model;
use sva_itags::is_tag_named;
use sva_step::{ITAGS, USE_SLOTS};

/// An invalidation that was taken and isn't completed yet (PCI Express Base 5.0, section 10.3).
#[derive(Clone, Copy, Debug, PartialEq, Eq)]
pub struct Taken {
    /// What it covers.
    pub invalidation: Invalidation,
    /// At each slot, 0 to 15: is its use one that it covers, that ran when it was taken and that hasn't ended? It waits
    /// for these uses (this project's own rule).
    pub noted: [bool; USE_SLOTS],
}

impl Taken {
    ghost use Rattle.sva_endpoint.specs.Taken.{waits, without_note};

    fn waits(&self) -> bool
        ensures { result ≡ waits (Some self.now) }
    {
        self.noted.iter().any(|noted| *noted)
    }

    fn without_note(self, slot: u64) -> Taken
        ensures { Some result ≡ without_note slot (Some self) }
    {
        let mut noted = self.noted;
        if slot < noted.len() as u64 {
            noted[slot as usize] = false;
        }
        Taken { noted, ..self }
    }
}

/// What is left under this ITag where those that the vector names are completed.
fn without_named(place: Option<Taken>, vector: u32, itag: usize) -> Option<Taken>
    requires { itag < 32 }
    ensures { result ≡ (if is_named vector itag then None else place) }
{
    if is_tag_named(vector, itag) {
        None
    } else {
        place
    }
}

/// What is left in this place where the use of this slot is noted no more.
fn without_note(place: Option<Taken>, slot: u64) -> Option<Taken>
    ensures { result ≡ without_note slot place }
{
    match place {
        Some(taken) => Some(taken.without_note(slot)),
        None => None,
    }
}

/// The invalidations that an endpoint has taken under the ITags 0 to 31 (PCI Express Base 5.0, section 10.3.1).
#[derive(Drop)]
pub struct TakenTable {
    places: ArrayVec<Option<Taken>, ITAGS>,
}

impl Model for TakenTable {
    ghost use Rattle.std.specs.Prelude.{◌≡◌, List, Option, length};
    ghost use Rattle.sva_endpoint.specs.declared.taken_table.Taken.{Taken};

    ghost Value = { List (Option Taken) };

    ghost view = { λ table. table.places.items };

    ghost invariant = { λ table. length table.places.items ≡ 32 };
}

impl TakenTable {
    ghost use Rattle.sva_endpoint.specs.Taken.{none_taken, are_pending, is_one_waiting, without_named, without_note};

    /// None is taken.
    pub fn new() -> Self
        ensures { result ≡ none_taken }
    {
        TakenTable {
            places: ArrayVec::from([None; ITAGS]),
        }
    }

    /// What is taken under each ITag, of 0 to 31.
    pub fn places(&self) -> &[Option<Taken>]
        ensures { result.now ≡ self.now }
    {
        self.places.as_slice()
    }

    /// Takes an invalidation under this ITag; one from 32 on has no place.
    #[tactic(auto, using(crate::proofs::Places::past_the_end))]
    pub fn take(&mut self, itag: u8, taken: Taken)
        ensures { self.new ≡ slice_set self.old itag (Some taken) }
    {
        let itag = usize::from(itag);
        if itag < self.places.len() {
            self.places[itag] = Some(taken);
        }
    }

    /// Tells whether each ITag that the vector names has an invalidation (ITag Vector of an Invalidate Completion, PCI
    /// Express Base 5.0, section 10.3.2).
    pub fn are_pending(&self, vector: u32) -> bool
        ensures { result ≡ are_pending vector self.now }
    {
        self.places.iter().enumerate().all(|(itag, place)| {
            !is_tag_named(vector, itag) || place.is_some()
        })
    }

    /// Tells whether one of those that the vector names waits for a use that it noted (this project's own rule).
    pub fn is_one_waiting(&self, vector: u32) -> bool
        ensures { result ≡ is_one_waiting vector self.now }
    {
        self.places.iter().enumerate().any(|(itag, place)| match place {
            Some(taken) => is_tag_named(vector, itag) && taken.waits(),
            None => false,
        })
    }

    /// Completes those that the vector names: nothing is taken under their ITags any more.
    pub fn complete(&mut self, vector: u32)
        ensures { self.new ≡ without_named vector self.old }
    {
        for itag in 0..ITAGS {
            self.places[itag] = without_named(self.places[itag], vector, itag);
        }
    }

    /// Forgets the use of this slot, which has ended, wherever it was noted; a slot from 16 on is noted nowhere.
    pub fn forget(&mut self, slot: u64)
        ensures { self.new ≡ map (without_note slot) self.old }
    {
        forget_in_each(self.places.as_mut_slice(), slot);
    }
}

/// Forgets the use of this slot in each of these.
fn forget_in_each(places: &mut [Option<Taken>], slot: u64)
    ensures { places.new ≡ map (without_note slot) places.old }
{
    for place in places.iter_mut() {
        *place = without_note(*place, slot);
    }
}
