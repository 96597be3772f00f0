//! What an invalidation is of, and how an Invalidate Request names it.
ghost use Rattle.std.specs.Prelude.{◌≡◌};

use crate::messages::Scope;
use crate::ranges::Range;

/// Which pages of its PASID an invalidation covers (PCI Express Base 5.0, section 10.3.1).
#[derive(Clone, Copy, Debug, PartialEq, Eq)]
pub enum Extent {
    /// Those of a range: 1 to 512 aligned pages.
    Pages(Range),
    /// Every page.
    All,
}

impl Extent {
    ghost use Rattle.sva_msg.specs.Extents.{extent_of, scope_sent};

    /// The pages that the scope of an Invalidate Request names. A code that is that of no range, which this host never sends,
    /// stands for every page, so that nothing is kept that it may have meant (this project's own rule).
    pub fn of(scope: Scope) -> Extent
        ensures { result ≡ extent_of scope }
    {
        match scope {
            Scope::All => Extent::All,
            Scope::Code { page, s } => match Range::decode(page, s) {
                Some(range) => Extent::Pages(range),
                None => Extent::All,
            },
        }
    }

    /// What an Invalidate Request names of it: a range by its code.
    pub fn scope(self) -> Scope
        ensures { result ≡ scope_sent self }
    {
        match self {
            Extent::Pages(range) => {
                let (page, s) = range.encode();
                Scope::Code { page, s }
            }
            Extent::All => Scope::All,
        }
    }
}
