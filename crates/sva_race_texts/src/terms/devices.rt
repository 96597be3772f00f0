//! What an endpoint may do beside its lines.

ghost use Rattle.std.specs.Prelude.{◌≡◌};
ghost use Rattle.sva_race_texts.specs.Budgets.{budget_of};

/// A page request asks to read, to write or both, and has L or not.
pub const MANNERS: u64 = 6;

/// What an endpoint may do beside its lines. These are leave and no duty. What a line does costs nothing of it.
#[derive(Drop)]
pub struct Device {
    /// How many translations it may ask for.
    pub asks: u64,
    /// How many uses of cached translations it may begin.
    pub uses: u64,
    /// How many page requests it may send, but those that finish a begun group.
    pub faults: u64,
    /// Whether it may evict cached translations.
    pub evicts: bool,
    /// The numbers of the pages that it asks for and sends page requests for. The first 1024 of them count.
    pub pages: Vec<u64>,
}

/// What is left to an endpoint of what it may do beside its lines.
#[derive(Clone, Copy, PartialEq, Eq)]
pub struct Budget {
    /// How many translations it may ask for.
    pub asks: u64,
    /// How many uses it may begin.
    pub uses: u64,
    /// How many page requests it may send.
    pub faults: u64,
}

impl Device {
    /// What is left at first.
    pub fn budget(&self) -> Budget
        ensures { result ≡ budget_of self.now }
    {
        Budget {
            asks: self.asks,
            uses: self.uses,
            faults: self.faults,
        }
    }
}
