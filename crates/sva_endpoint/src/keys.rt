//! The keys of cached translations, and the count of their comparisons.

ghost use Rattle.std.specs.Prelude.{◌≡◌, ◌+◌, ◌<◌, ◌^◌};
ghost use Rattle.sva_endpoint.specs.Cache.{key_cmp};

use std::cmp::Ordering;
use std::marker::Model;

/// How many comparisons of keys were made. Only a comparison adds to it.
#[derive(Drop)]
pub struct Ticks {
    count: u32,
}

impl Model for Ticks {
    ghost use Rattle.std.specs.Prelude.{ℕ};

    ghost Value = { ℕ };

    ghost view = { λ ticks. ticks.count };
}

impl Ticks {
    /// None was made.
    pub fn new() -> Self
        ensures { result ≡ 0 }
    {
        Ticks { count: 0 }
    }

    /// How many were made.
    pub fn count(&self) -> u32
        ensures { result ≡ self.now }
    {
        self.count
    }
}

/// The key of a cached translation: its PASID, and its page within that. Keys have no equality and no order but `compare`.
#[derive(Clone, Copy, Default)]
pub struct CacheKey {
    pasid: u64,
    page: u64,
}

impl Model for CacheKey {
    ghost use Rattle.sva_endpoint.specs.Cache.{Key};

    ghost Value = { Key };

    ghost view = { λ key. (key.pasid, key.page) };

    ghost inverse = { λ key. record { pasid = key.0; page = key.1 } };
}

impl CacheKey {
    /// The key of this page of this PASID; nothing is cached of a PASID outside 1 to 32, or of a page from 2^36 on.
    pub fn new(pasid: u64, page: u64) -> Self
        ensures { result ≡ (pasid, page) }
    {
        CacheKey { pasid, page }
    }

    /// Compares by PASID, and then by page, and counts it: one more of at most 2^32 - 1.
    pub fn compare(&self, other: &CacheKey, ticks: &mut Ticks) -> Ordering
        requires { ticks.old + 1 < 2 ^ 32 }
        ensures order { result ≡ key_cmp self.now other.now }
        ensures counted { ticks.new ≡ ticks.old + 1 }
    {
        ticks.count += 1;
        self.pasid
            .cmp(&other.pasid)
            .then(self.page.cmp(&other.page))
    }

    /// The PASID and the page, to be shown. A search compares keys by `compare` alone.
    pub(crate) fn numbers(&self) -> (u64, u64)
        ensures { result ≡ self.now }
    {
        (self.pasid, self.page)
    }
}
