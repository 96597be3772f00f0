//! The cached translations, in the order of their keys.

ghost use Rattle.std.specs.Prelude.{◌≡◌, ◌+◌, ◌<◌, ◌≤◌, ◌^◌, true, if◌then◌else◌};
ghost use Rattle.std.specs.FinMap.{empty, get, insert, remove};

use crate::coverage::Invalidation;
use crate::keys::{CacheKey, Ticks};
use arrayvec::ArrayVec;
use std::cmp::Ordering;
use std::marker::Model;
use sva_step::CACHED;

/// A translation: the frame of a page, and whether it may be written (PCI Express Base 5.0, section 10.2.3).
#[derive(Clone, Copy, Debug, Default, PartialEq, Eq)]
pub struct Translation {
    /// The number of the frame, below the config's count (at most 4096).
    pub frame: u32,
    /// W: writing is allowed, beside reading.
    pub write: bool,
}

/// The translation cache of an endpoint (PCI Express Base 5.0, section 10.2), of at most 64 translations (a limit of this
/// project): for each PASID and page at most one. It is kept in rising order of PASID and page, so that a key is found by at
/// most seven comparisons.
#[derive(Drop)]
pub struct Cache {
    pub(crate) entries: ArrayVec<(CacheKey, Translation), CACHED>,
}

impl Model for Cache {
    ghost use Rattle.std.specs.Prelude.{◌≤◌, T, length};
    ghost use Rattle.std.specs.FinMap.{from_sorted, is_sorted};
    ghost use Rattle.sva_endpoint.specs.Cache.{key_cmp, Translations, translations_code};

    ghost Value = { Translations };

    ghost coded = { translations_code };

    ghost view = { λ cache. from_sorted cache.entries.items };

    ghost invariant = { λ cache. T (is_sorted key_cmp cache.entries.items) × (length cache.entries.items ≤ 64) };
}

impl Cache {
    ghost use Rattle.std.specs.Prelude.{Ok, Err};
    ghost use Rattle.std.specs.FinMap.{contains_key, len};
    ghost use Rattle.sva_endpoint.specs.Cache.{comparisons, has_room_for, place_of, without_covered};

    /// Nothing is cached.
    pub fn new() -> Self
        ensures { result ≡ empty }
    {
        Cache {
            entries: ArrayVec::new(),
        }
    }

    /// Where the key stands in the order of the cached ones, 0 to 63, or else where it would stand, 0 to 64: that is how
    /// many cached keys are smaller. It is found by halves, each comparison being with the middle one of those that are left:
    /// by at most seven, and by at least one where something is cached. Each is a tick more. The ticks have to have room for
    /// them: they are below 2^32.
    pub fn search(&self, key: &CacheKey, ticks: &mut Ticks) -> Result<usize, usize>
        requires { ticks.old + 7 < 2 ^ 32 }
        ensures place { result ≡ (if contains_key self.now key.now then Ok (place_of self.now key.now) else Err (place_of self.now key.now)) }
        ensures counted { ticks.new ≡ ticks.old + comparisons self.now key.now }
        ensures few { ticks.new ≤ ticks.old + 7 }
        ensures reached { 0 < len self.now → ticks.old < ticks.new }
    {
        let entries = self.entries.as_slice();
        let mut low = 0;
        let mut high = entries.len();
        while low < high {
            let middle = low + (high - low) / 2;
            match key.compare(&entries[middle].0, ticks) {
                Ordering::Less => high = middle,
                Ordering::Equal => return Ok(middle),
                Ordering::Greater => low = middle + 1,
            }
        }
        Err(low)
    }

    /// How many cached keys are smaller than this one.
    fn place_of(&self, key: &CacheKey) -> usize
        ensures { result ≡ place_of self.now key.now }
    {
        let mut ticks = Ticks::new();
        match self.search(key, &mut ticks) {
            Ok(place) => place,
            Err(place) => place,
        }
    }

    /// The cached translation of this page of this PASID; none where none is cached.
    pub fn get(&self, pasid: u64, page: u64) -> Option<Translation>
        ensures { result ≡ get self.now (pasid, page) }
    {
        let mut ticks = Ticks::new();
        match self.search(&CacheKey::new(pasid, page), &mut ticks) {
            Ok(place) => Some(self.entries[place].1),
            Err(_) => None,
        }
    }

    /// Tells whether a translation of this page of this PASID can be kept: one is cached that it replaces, or there are
    /// fewer than 64.
    pub fn has_room_for(&self, pasid: u64, page: u64) -> bool
        ensures { result ≡ has_room_for self.now (pasid, page) }
    {
        self.get(pasid, page).is_some() || self.entries.len() < CACHED
    }

    /// Keeps a translation, in place of one of the same page (below 2^36) of the same PASID (1 to 32). There has to be room
    /// for it.
    pub fn insert(&mut self, pasid: u32, page: u64, translation: Translation)
        requires { has_room_for self.old (pasid, page) ≡ true }
        ensures { self.new ≡ insert self.old (pasid, page) translation }
    {
        let key = CacheKey::new(u64::from(pasid), page);
        let mut ticks = Ticks::new();
        match self.search(&key, &mut ticks) {
            Ok(place) => self.entries[place] = (key, translation),
            Err(place) => self.entries.insert(place, (key, translation)),
        }
    }

    /// Lets go of the translation of this page of this PASID, where one is cached.
    pub fn remove(&mut self, pasid: u64, page: u64)
        ensures { self.new ≡ remove self.old (pasid, page) }
    {
        let mut ticks = Ticks::new();
        if let Ok(place) = self.search(&CacheKey::new(pasid, page), &mut ticks) {
            self.entries.remove(place);
        }
    }

    /// Lets go of each translation that the invalidation covers: they are one run of the entries.
    pub fn remove_covered(&mut self, invalidation: &Invalidation)
        ensures { self.new ≡ without_covered invalidation.now self.old }
    {
        let from = self.place_of(&invalidation.first());
        let end = self.place_of(&invalidation.end());
        self.entries.drain(from..end);
    }
}
