//! Texts, each with how often it came.

ghost use Rattle.std.specs.Prelude.{◌≡◌, ◌+◌, ◌<◌, ◌^◌, [], IfOk, OnOk, length, option_map, slice_get};
ghost use Rattle.sva_race_reports.specs.Kinds.{kinds_of, times, with_text};

use crate::pieces::text_of;
use indexmap::IndexMap;
use std::alloc::{AllocError, Global};
use std::marker::Model;
use sva_race::{Choice, End, Race};
use sva_search::End as Told;

/// Texts, each with how often it came, in the order in which they first came.
#[derive(Drop)]
pub(crate) struct Kinds {
    times: IndexMap<Vec<u8>, u64>,
}

impl Model for Kinds {
    ghost use Rattle.std.specs.Prelude.{map};
    ghost use Rattle.sva_race_reports.specs.Kinds as kinds;

    ghost Value = { kinds.Kinds };

    ghost view = { λ kinds. map (λ entry. (entry.0.items, entry.1)) kinds.times.entries };
}

impl Kinds {
    /// No texts.
    fn new(alloc: Global) -> Self
        ensures { result ≡ [] }
    {
        Kinds {
            times: IndexMap::new(alloc),
        }
    }

    /// How often a text came.
    fn times(&self, text: &[u8]) -> u64
        ensures { result ≡ times text.now self.now }
    {
        self.times.get(text).copied().unwrap_or(0)
    }

    /// A text comes once more.
    fn add(&mut self, text: Vec<u8>) -> Result<(), AllocError>
        requires { times text.items self.old + 1 < 2 ^ 64 }
        ensures { OnOk result (self.new ≡ with_text self.old text.items) }
    {
        let so_far = self.times(text.as_slice());
        if self.times.insert(text, so_far + 1).is_err() {
            return Err(AllocError);
        }
        Ok(())
    }

    /// How many texts there are.
    pub(crate) fn len(&self) -> usize
        ensures { result ≡ length self.now }
    {
        self.times.len()
    }

    /// The text of a place, and how often it came.
    pub(crate) fn at(&self, place: usize) -> Option<(&[u8], u64)>
        ensures { option_map (λ kind. (kind.0.now, kind.1)) result ≡ slice_get self.now place }
    {
        match self.times.get_index(place) {
            Some((text, times)) => Some((text.as_slice(), *times)),
            None => None,
        }
    }
}

/// The texts of the ends of a race, each with how many of them have it.
pub(crate) fn kinds_of(
    alloc: Global,
    race: &Race,
    threads: &[Vec<u8>],
    ends: &[Told<Choice, End>],
) -> Result<Kinds, AllocError>
    ensures { IfOk result (λ kinds. kinds ≡ kinds_of race.now threads.now ends.now) }
{
    let mut kinds = Kinds::new(alloc);
    for place in 0..ends.len() {
        let text = text_of(alloc, race, threads, &ends[place].outcome)?;
        kinds.add(text)?;
    }
    Ok(kinds)
}
