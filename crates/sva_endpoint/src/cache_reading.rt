//! What is read of the cached translations beside one by its key.

ghost use Rattle.std.specs.Prelude.{◌≡◌, ◌≤◌, slice_get};
ghost use Rattle.std.specs.FinMap.{entries};

use crate::cached::{Cache, Translation};

impl Cache {
    ghost use Rattle.std.specs.FinMap.{len};

    /// How many translations are cached: at most 64.
    pub fn len(&self) -> usize
        ensures count { result ≡ len self.now }
        ensures most { result ≤ 64 }
    {
        self.entries.len()
    }

    /// The translation at a place in the order of PASID and page, with these two; the first place is 0.
    pub fn at(&self, place: usize) -> Option<((u64, u64), Translation)>
        ensures { result ≡ slice_get (entries self.now) place }
    {
        match self.entries.get(place) {
            Some((key, translation)) => Some((key.numbers(), *translation)),
            None => None,
        }
    }
}
