//! Ranges of pages, and the codes by which an Invalidate Request names them.
ghost use Rattle.std.specs.Prelude.{◌≡◌, ℕ, ◌+◌, ◌%◌, ◌^◌, ◌<◌, ◌≤◌};
ghost use Rattle.sva_model.specs.Range.{IsRange, pages_in, is_in};
ghost use Rattle.sva_model.specs.Range as definitions;

use std::marker::Model;
use sva_step::{MOST_ORDER, PAGES};

/// A range of 2^order pages, aligned to its size: order 0 to 9, of page numbers below 2^36. A page has 4096 bytes.
///
/// An Invalidate Request names it by one address field and the bit S (PCI Express Base 5.0, section 10.3.1, with the coding
/// of section 10.2.3.2); 512 pages at most are a limit of this project.
#[derive(Clone, Copy, Debug, PartialEq, Eq)]
pub struct Range {
    base: u64,
    order: u8,
}

impl Model for Range {
    ghost use Rattle.sva_model.specs.Range as definitions;
    ghost use Rattle.sva_model.specs.Range.{IsRange};

    ghost Value = { definitions.Range };

    ghost view = { λ r. record { base = r.base; order = r.order } };

    ghost invariant = { λ r. IsRange (record { base = r.base; order = r.order }) };

    ghost inverse = { λ r. record { base = r.base; order = r.order } };
}

impl Range {
    /// The range of 2^order pages from the page `base` on, which is a multiple of 2^order.
    pub fn new(base: u64, order: u8) -> Self
        requires small { order ≤ 9 }
        requires low { base < 2 ^ 36 }
        requires aligned { base % 2 ^ order ≡ 0 }
        ensures { result ≡ record { base = base; order = order } }
    {
        Range { base, order }
    }

    /// The number of the first page, a multiple of 2^order.
    pub fn base(self) -> u64
        ensures base { result ≡ self.base }
        ensures range { IsRange self }
    {
        self.base
    }

    /// The order: 0 to 9 for 1 to 512 pages.
    pub fn order(self) -> u8
        ensures order { result ≡ self.order }
        ensures range { IsRange self }
    {
        self.order
    }

    /// How many pages there are: 1 to 512. The last is below 2^36.
    pub fn pages(self) -> u64
        ensures pages { result ≡ pages_in self }
        ensures most { result ≤ 512 }
        ensures end { self.base + result ≤ 2 ^ 36 }
    {
        1 << self.order
    }

    /// Tells whether the page with this number is one of the range.
    pub fn contains(self, page: u64) -> bool
        ensures { result ≡ is_in self page }
    {
        page >= self.base && page < self.base + self.pages()
    }

    /// The code of the range: the address field of an Invalidate Request, as a page number, and its bit S. One page is
    /// coded by S clear; 2^(j+1) pages by S set and the base with its j lowest bits set.
    pub fn encode(self) -> (u64, bool)
        ensures page { result.0 ≡ (definitions.encode self).page }
        ensures s { result.1 ≡ (definitions.encode self).s }
    {
        if self.order == 0 {
            (self.base, false)
        } else {
            (self.base + (1 << (self.order - 1)) - 1, true)
        }
    }

    /// The range of a code: none exactly where it would have more than 512 pages (S is set, and so are the nine lowest bits
    /// of the page number), or where the page is 2^36 or more.
    pub fn decode(page: u64, s: bool) -> Option<Self>
        ensures { result ≡ definitions.decode (record { page = page; s = s }) }
    {
        if page >= PAGES {
            return None;
        }
        if !s {
            return Some(Range {
                base: page,
                order: 0,
            });
        }
        let ones = page.trailing_ones() as u8;
        if ones >= MOST_ORDER {
            return None;
        }
        let order = ones + 1;
        Some(Range {
            base: page - page % (1 << order),
            order,
        })
    }
}
