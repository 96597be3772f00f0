//! A cache without an order, to compare with: a list that is scanned from its front, entry after entry.

use arrayvec::ArrayVec;
use sva_endpoint::{Invalidation, Translation};
use sva_step::CACHED;

#[derive(Clone, Copy, Default)]
struct Entry {
    pasid: u32,
    page: u64,
    translation: Translation,
}

impl Entry {
    fn is_of(&self, pasid: u64, page: u64) -> bool {
        u64::from(self.pasid) == pasid && self.page == page
    }

    /// By PASID, and then by page.
    fn is_below(&self, pasid: u64, page: u64) -> bool {
        let own = u64::from(self.pasid);
        own < pasid || (own == pasid && self.page < page)
    }
}

/// A cache of at most 64 translations, scanned.
#[derive(Drop)]
pub struct PlainCache {
    entries: ArrayVec<Entry, CACHED>,
}

impl PlainCache {
    pub(crate) fn new() -> Self {
        PlainCache {
            entries: ArrayVec::new(),
        }
    }

    pub(crate) fn get(&self, pasid: u64, page: u64) -> Option<Translation> {
        for entry in self.entries.as_slice() {
            if entry.is_of(pasid, page) {
                return Some(entry.translation);
            }
        }
        None
    }

    /// How many entries are below this one, all counted.
    fn count_below(&self, pasid: u64, page: u64) -> usize {
        let mut count: usize = 0;
        for entry in self.entries.as_slice() {
            if entry.is_below(pasid, page) {
                count = count.wrapping_add(1);
            }
        }
        count
    }

    pub(crate) fn search(&self, pasid: u64, page: u64) -> Result<usize, usize> {
        let place = self.count_below(pasid, page);
        match self.get(pasid, page) {
            Some(_translation) => Ok(place),
            None => Err(place),
        }
    }

    pub(crate) fn has_room_for(&self, pasid: u64, page: u64) -> bool {
        self.get(pasid, page).is_some() || self.entries.len() < CACHED
    }

    /// One for which there is no room isn't kept.
    pub(crate) fn insert(&mut self, pasid: u32, page: u64, translation: Translation) {
        self.remove(u64::from(pasid), page);
        let _ = self.entries.try_push(Entry {
            pasid,
            page,
            translation,
        });
    }

    pub(crate) fn remove(&mut self, pasid: u64, page: u64) {
        self.entries.retain(|entry| !entry.is_of(pasid, page));
    }

    pub(crate) fn remove_covered(&mut self, invalidation: &Invalidation) {
        self.entries
            .retain(|entry| !invalidation.covers(entry.pasid, entry.page));
    }
}
