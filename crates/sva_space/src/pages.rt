//! The pages of an address space, each with its frame.

ghost use Rattle.std.specs.Prelude.{◌≡◌, ◌↔◌, ◌<◌, ◌≤◌, ℕ, [], ◌∷◌, IfSome, IfNone, IfErr, IsSome, IsTrue, OnErr, OnOk, Some, None, find, length, option_map};

use std::alloc::{AllocError, Global};
use std::collections::BTreeMap;
use std::marker::Model;
use sva_frames::Frame;
use sva_step::Refusal;

/// The pages of an address space, each with its frame and whether it may be written.
///
/// Contracts see the list of mappings (page, (frame, write)) in rising order of pages, a frame by its number. A
/// space must be spent: emptied, and closed.
pub struct Space {
    pub(crate) pages: BTreeMap<u64, (Frame, bool)>,
}

impl Model for Space {
    ghost use Rattle.std.specs.Prelude.{ℕ, Bool, List};
    ghost use Rattle.sva_space.specs.Pages.{IsRising};

    ghost Value = { List (ℕ × (ℕ × Bool)) };

    ghost view = { λ s. s.pages.entries };

    ghost invariant = { λ s. IsRising s.pages.entries };
}

impl Space {
    ghost use Rattle.sva_space.specs.Pages.{IsRising, mapping_at, is_between, mappings_between, AllMapped, unmapped_by};
    ghost use Rattle.sva_space.specs.Calls.{Map, Unmap, after};

    /// A space without pages.
    pub fn new(alloc: Global) -> Space
        ensures { result ≡ [] }
    {
        Space {
            pages: BTreeMap::new(alloc),
        }
    }

    /// Maps a page that isn't mapped. Where there is no memory it gives the frame back and changes nothing.
    pub fn map(&mut self, page: u64, frame: Frame, write: bool) -> Result<(), (Frame, AllocError)>
        requires { mapping_at self.old page ≡ None }
        ensures ok { OnOk result (self.new ≡ after self.old (Map page frame write)) }
        ensures err { IfErr result (λ failure. (self.new ≡ self.old) × (failure.0 ≡ frame)) }
        ensures rising { IsRising self.new }
    {
        match self.pages.insert(page, (frame, write)) {
            Ok(before) => {
                let None = before else { unreachable!() };
                Ok(())
            }
            Err(failure) => {
                let (_page, (frame, _write)) = failure.value;
                Err((frame, AllocError))
            }
        }
    }

    /// Maps a page, or says why not: `Mapped` where it is mapped already, and else `OutOfMemory`. Then the frame comes back, and
    /// nothing changes. One search serves for both the question and the mapping.
    pub fn map_new(&mut self, page: u64, frame: Frame, write: bool) -> Result<(), (Frame, Refusal)>
        ensures ok { OnOk result (self.new ≡ after self.old (Map page frame write)) }
        ensures new { OnOk result (mapping_at self.old page ≡ None) }
        ensures same { OnErr result (self.new ≡ self.old) }
        ensures err { IfErr result (λ failure. (failure.0 ≡ frame) × (failure.1 ≡ unmapped_by (mapping_at self.old page))) }
        ensures rising { IsRising self.new }
    {
        let mapping = (frame, write);
        match self.pages.insert(page, mapping) {
            Ok(None) => Ok(()),
            Ok(Some(before)) => {
                let new = self.pages.insert(page, before);
                let Ok(Some((frame, _write))) = new else {
                    unreachable!()
                };
                Err((frame, Refusal::Mapped))
            }
            Err(failure) => {
                let (_page, (frame, _write)) = failure.value;
                Err((frame, Refusal::OutOfMemory))
            }
        }
    }

    /// Takes a page out, and answers its frame and whether it could be written; `None` where it isn't mapped.
    pub fn unmap(&mut self, page: u64) -> Option<(Frame, bool)>
        ensures value { result ≡ mapping_at self.old page }
        ensures after { self.new ≡ after self.old (Unmap page) }
        ensures rising { IsRising self.new }
    {
        self.pages.remove(&page)
    }

    /// The number of the frame at a page, and whether it may be written.
    pub fn find(&self, page: u64) -> Option<(u32, bool)>
        ensures value { result ≡ mapping_at self.now page }
        ensures rising { IsRising self.now }
    {
        match self.pages.get(&page) {
            Some((frame, write)) => Some((frame.number(), *write)),
            None => None,
        }
    }

    /// How many pages are mapped.
    pub fn len(&self) -> usize
        ensures len { result ≡ length self.now }
        ensures rising { IsRising self.now }
    {
        self.pages.len()
    }

    /// Whether no page is mapped.
    pub fn is_empty(&self) -> bool
        ensures { IsTrue result ↔ (self.now ≡ []) }
    {
        self.pages.is_empty()
    }

    /// Takes the lowest page out, and answers it with its frame and whether it could be written.
    pub fn pop_first(&mut self) -> Option<(u64, Frame, bool)>
        ensures some { IfSome result (λ first. self.old ≡ (first.0, (first.1, first.2)) ∷ self.new) }
        ensures after { IfSome result (λ first. self.new ≡ after self.old (Unmap first.0)) }
        ensures none { IfNone result ((self.old ≡ []) × (self.new ≡ [])) }
        ensures rising { IsRising self.new }
    {
        let (page, (frame, write)) = self.pages.pop_first()?;
        Some((page, frame, write))
    }

    /// The lowest mapped page of those from `first` on and below `end`.
    pub fn first_between(&self, first: u64, end: u64) -> Option<u64>
        ensures { result ≡ option_map (λ mapping. mapping.0) (find (is_between first end) self.now) }
    {
        if first > end {
            return None;
        }
        match self.pages.range(first..end).next() {
            Some((page, _)) => Some(*page),
            None => None,
        }
    }

    /// The lowest mapped page of those from `first` on and below `end`, and how many of these are mapped. `None` where
    /// none of them is.
    pub fn mapped_between(&self, first: u64, end: u64) -> Option<(u64, usize)>
        ensures mapped { result ≡ option_map (λ lowest. (lowest.0, length (mappings_between first end self.now)))
            (find (is_between first end) self.now) }
        ensures rising { IsRising self.now }
    {
        let pages = &self.pages;
        if first > end {
            return None;
        }
        let mut mapped = pages.range(first..end);
        let Some((lowest, _)) = mapped.next() else {
            return None;
        };
        Some((*lowest, mapped.count() + 1))
    }

    /// How many pages from `first` on and below `end` are mapped.
    pub fn count_between(&self, first: u64, end: u64) -> usize
        ensures { result ≡ length (mappings_between first end self.now) }
    {
        if first > end {
            return 0;
        }
        self.pages.range(first..end).count()
    }

    /// Whether each page from `first` on and below `end` is mapped.
    pub fn are_mapped(&self, first: u64, end: u64) -> bool
        ensures { IsTrue result ↔ AllMapped first end self.now }
    {
        // The pages rise, which is read of the map itself.
        let _pages = &self.pages;
        self.count_between(first, end) as u64 == end.saturating_sub(first)
    }

    /// Takes the lowest mapped page out of those from `first` on and below `end`, and answers it with its frame and
    /// whether it could be written. None, with nothing changed, where none of them is mapped.
    pub fn unmap_first(&mut self, first: u64, end: u64) -> Option<(u64, Frame, bool)>
        ensures some { IfSome result
            (λ taken. find (is_between first end) self.old ≡ Some (taken.0, (taken.1, taken.2))) }
        ensures after { IfSome result (λ taken. self.new ≡ after self.old (Unmap taken.0)) }
        ensures none { IfNone result ((find (is_between first end) self.old ≡ None) × (self.new ≡ self.old)) }
        ensures rising { IsRising self.new }
    {
        // The pages rise, which is read of the map itself.
        let _pages = &self.pages;
        // Pages are often mapped in a row, and then no search for the lowest one is needed.
        if let Some(taken) = self.unmap_start(first, end) {
            return Some(taken);
        }
        let lowest = self.first_between(first, end)?;
        let (frame, write) = self.unmap(lowest)?;
        Some((lowest, frame, write))
    }

    /// Takes the first page of such a range out, where it is mapped; else nothing changes.
    fn unmap_start(&mut self, first: u64, end: u64) -> Option<(u64, Frame, bool)>
        ensures some { IfSome result
            (λ taken. find (is_between first end) self.old ≡ Some (taken.0, (taken.1, taken.2))) }
        ensures after { IfSome result (λ taken. self.new ≡ after self.old (Unmap taken.0)) }
        ensures none { IfNone result (self.new ≡ self.old) }
        ensures rising { IsRising self.new }
    {
        // Read for the same reason.
        let _pages = &self.pages;
        if first >= end {
            return None;
        }
        let (frame, write) = self.unmap(first)?;
        Some((first, frame, write))
    }

    /// Ends a space without pages.
    pub fn close(self)
        requires { self ≡ [] }
    {
        let Space { pages } = self;
        pages.destroy_empty();
    }
}
