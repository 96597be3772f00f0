//! What an invalidation covers.

/// What an invalidation covers (PCI Express Base 5.0, section 10.3.1). That a range is aligned, and of a power of two
/// of pages, is for those to see to who write it.
#[derive(Clone, Copy, PartialEq, Eq)]
pub enum Scope {
    /// So many pages of a PASID from one on.
    Pages {
        /// The PASID.
        pasid: usize,
        /// The number of the first page.
        first: u64,
        /// How many pages.
        count: u64,
    },
    /// All pages of a PASID.
    Pasid {
        /// The PASID.
        pasid: usize,
    },
}

impl Scope {
    ghost use Rattle.std.specs.Prelude.{◌≡◌};
    ghost use Rattle.sva_open.specs.World.{covers};

    /// Whether it covers a page under a PASID.
    pub fn covers(&self, pasid: usize, page: u64) -> bool
        ensures { result ≡ covers self.now pasid page }
    {
        match self {
            Scope::Pages {
                pasid: own,
                first,
                count,
            } => *own == pasid && *first <= page && page - *first < *count,
            Scope::Pasid { pasid: own } => *own == pasid,
        }
    }
}
