//! The tags of a unit.
ghost use Rattle.std.specs.Prelude.{◌≡◌, ℕ, ◌<◌, ◌≤◌, ◌↔◌, length, Some, IsNone, IfSome, IsTrue, is_some, count_by};
ghost use Rattle.sva_itags.specs.Tags.{IsPlace, AreTags, all_free, busy_vector, lowest_free, taken, counted, is_freed, after_completion, completed};
ghost use Rattle.sva_itags.specs.Tags.{freed_vector, IsBusy, Completes};
ghost use Rattle.sva_itags.specs.Vector.{is_named};
ghost use Rattle.sva_itags.specs.Calls.{AlwaysTags, FreedAtItsCount};

use crate::counts::Count;
use crate::vectors::{is_tag_named, with_bit};
use arrayvec::ArrayVec;
use std::marker::Model;
use sva_step::ITAGS;

/// A tag in use, and how many of the completions that it waits for have arrived.
#[derive(Clone, Copy, Debug, PartialEq, Eq)]
pub enum Busy {
    /// None has arrived, so their count isn't known.
    Fresh,
    /// Some have arrived, and not all.
    Counting {
        /// How many it waits for in all: 2 to 8.
        count: u8,
        /// How many have arrived: 1 to 7, fewer than `count`.
        arrived: u8,
    },
}

/// A busy tag once `arrived` completions have come: `None`, and so free, where that is its count.
fn counted_so_far(count: u8, arrived: u8) -> Option<Busy>
    ensures { result ≡ counted count arrived }
{
    if arrived == count {
        None
    } else {
        Some(Busy::Counting { count, arrived })
    }
}

/// A place after a completion that names its tag, or doesn't.
fn after_completion(place: Option<Busy>, named: bool, count: Count) -> Option<Busy>
    requires { IsPlace place }
    ensures { result ≡ after_completion named count place }
{
    let Some(busy) = place else {
        return None;
    };
    if named {
        busy.after_one_more(count)
    } else {
        Some(busy)
    }
}

/// Whether a tag was busy and is free.
fn is_freed(old: Option<Busy>, new: Option<Busy>) -> bool
    ensures { result ≡ is_freed old new }
{
    old.is_some() && new.is_none()
}

impl Busy {
    ghost use Rattle.sva_itags.specs.Tags.{IsWaiting, one_more};

    fn after_one_more(self, count: Count) -> Option<Busy>
        requires { IsWaiting self }
        ensures { result ≡ one_more count self }
    {
        match self {
            Busy::Fresh => counted_so_far(count.get(), 1),
            Busy::Counting { count, arrived } => counted_so_far(count, arrived + 1),
        }
    }
}

/// One completion for each place that `vector` names: the vector of those that it frees.
fn complete_places(places: &mut [Option<Busy>], vector: u32, count: Count) -> u32
    requires { AreTags places.old }
    ensures freed { result ≡ freed_vector vector count places.old }
    ensures places { places.new ≡ completed vector count places.old }
    ensures tags { AreTags places.new }
{
    // That a count is 1 to 8 is known once it has been read.
    let _ = count.get();
    let mut freed = 0;
    for (tag, place) in places.iter_mut().enumerate() {
        let before = *place;
        *place = after_completion(before, is_tag_named(vector, tag), count);
        freed = with_bit(freed, tag, is_freed(before, *place));
    }
    freed
}

/// The index of the first free place.
fn first_free(places: &[Option<Busy>]) -> Option<usize>
    ensures lowest { result ≡ lowest_free places.now }
    ensures within { IfSome result (λ tag. tag < length places.now) }
{
    places.iter().position(|place| place.is_none())
}

/// The 32 tags of a unit. No call takes memory.
#[derive(Drop)]
pub struct Itags {
    pub(crate) places: ArrayVec<Option<Busy>, ITAGS>,
}

impl Model for Itags {
    ghost use Rattle.std.specs.Prelude.{List, Option};
    ghost use Rattle.sva_itags.specs.declared.itags.Busy.{Busy};
    ghost use Rattle.sva_itags.specs.Tags.{AreTags};

    ghost Value = { List (Option Busy) };

    ghost view = { λ t. t.places.items };

    ghost invariant = { λ t. AreTags t.places.items };
}

impl Default for Itags {
    ghost is_default = { λ tags. tags ≡ all_free };

    fn default() -> Self {
        Itags::new()
    }
}

impl Itags {
    /// All tags are free.
    pub fn new() -> Self
        ensures { result ≡ all_free }
    {
        Itags {
            places: ArrayVec::from([None; ITAGS]),
        }
    }

    /// The lowest free tag, 0 to 31, which `take` would take; `None` where 32 are busy.
    pub fn lowest_free(&self) -> Option<u8>
        ensures { result ≡ lowest_free self.now }
    {
        first_free(&self.places).map(|tag| tag as u8)
    }

    /// Takes the lowest free tag, 0 to 31; `None` where 32 are busy.
    pub fn take(&mut self) -> Option<u8>
        ensures tag { result ≡ lowest_free self.old }
        ensures taken { self.new ≡ taken self.old }
        ensures none { IsNone result ↔ (count_by is_some self.old ≡ 32) }
    {
        let Some(tag) = first_free(&self.places) else {
            return None;
        };
        self.places[tag] = Some(Busy::Fresh);
        Some(tag as u8)
    }

    /// Takes this tag, which is the lowest free one, as `lowest_free` tells.
    pub fn take_lowest(&mut self, tag: u8)
        requires { lowest_free self.old ≡ Some tag }
        ensures { self.new ≡ taken self.old }
    {
        self.places[tag as usize] = Some(Busy::Fresh);
    }

    /// A completion has arrived that names the tags of `vector` (bit T stands for tag T, 0 to 31) and bears `count`. Gives
    /// the vector of the tags that it completes; they are free. A bit of a tag that isn't busy is ignored, and the first
    /// completion of a tag fixes its count.
    pub fn arrived(&mut self, vector: u32, count: Count) -> u32
        ensures freed { result ≡ freed_vector vector count self.old }
        ensures places { self.new ≡ completed vector count self.old }
        ensures exactly { (tag : ℕ) → IsTrue (is_named result tag) ↔ Completes vector count self.old tag }
    {
        complete_places(&mut self.places, vector, count)
    }

    /// The vector of the busy tags: bit T stands for tag T, 0 to 31.
    pub fn busy(&self) -> u32
        ensures vector { result ≡ busy_vector self.now }
        ensures exactly { (tag : ℕ) → IsTrue (is_named result tag) ↔ IsBusy self.now tag }
        ensures tags { AreTags self.now }
    {
        let mut busy = 0;
        for (tag, place) in self.places.iter().enumerate() {
            busy = with_bit(busy, tag, place.is_some());
        }
        busy
    }

    /// Frees all tags: the function's reset is done, and no completion of an older request will come.
    pub fn clear(&mut self)
        ensures { self.new ≡ all_free }
    {
        *self = Itags::new();
    }
}

/// What holds after every list of calls: 32 tags, each free or busy with fewer completions than its count; and a tag
/// is busy from the call that takes it, over every list of calls without `clear`, until exactly the completion that brings
/// their number to the first one's count.
pub fn laws()
    ensures tags { AlwaysTags }
    ensures freed { FreedAtItsCount }
{}
