//! What an invalidation covers.

ghost use Rattle.std.specs.Prelude.{◌≡◌};

use crate::keys::CacheKey;
use sva_msg::Extent;

/// What an Invalidate Request covers: pages of one PASID (PCI Express Base 5.0, section 10.3.1).
#[derive(Clone, Copy, Debug, PartialEq, Eq)]
pub struct Invalidation {
    /// The PASID: 1 to 32 of its 20 bits (PCI Express Base 5.0, section 6.20).
    pub pasid: u32,
    /// Which of its pages.
    pub extent: Extent,
}

impl Invalidation {
    ghost use Rattle.sva_endpoint.specs.Coverage.{covers, first_key, end_key};

    /// Tells whether this page of this PASID is covered.
    pub fn covers(&self, pasid: u32, page: u64) -> bool
        ensures { result ≡ covers self.now pasid page }
    {
        let within = match self.extent {
            Extent::Pages(range) => range.contains(page),
            Extent::All => true,
        };
        self.pasid == pasid && within
    }

    /// The key from which the covered ones are a run.
    pub(crate) fn first(&self) -> CacheKey
        ensures { result ≡ first_key self.now }
    {
        let page = match self.extent {
            Extent::Pages(range) => range.base(),
            Extent::All => 0,
        };
        CacheKey::new(u64::from(self.pasid), page)
    }

    /// The key that ends that run, which isn't covered any more.
    pub(crate) fn end(&self) -> CacheKey
        ensures { result ≡ end_key self.now }
    {
        let pasid = u64::from(self.pasid);
        match self.extent {
            Extent::Pages(range) => CacheKey::new(pasid, range.base() + range.pages()),
            Extent::All => CacheKey::new(pasid + 1, 0),
        }
    }
}
