//! The limits of a world and of its tables. They are this project's own, but where a standard's section stands beside one.

ghost use Rattle.std.specs.Prelude.{◌↔◌, IsTrue};
ghost use Rattle.sva_step.specs.Limits.{AreLimits, Fits};

/// The most endpoints of a world, each with a remapping unit of its own.
pub const MOST_ENDPOINTS: usize = 8;

/// The most frames of a world.
pub const MOST_FRAMES: u64 = 4096;

/// The most workers of a world.
pub const MOST_WORKERS: usize = 4;

/// Page numbers are below this; a page has 4096 bytes.
pub const PAGES: u64 = 1 << 36;

/// The numbers of spaces, bindings, messages and cookies are below this.
pub const NUMBERS: u64 = 1 << 63;

/// The most spaces that live at a time.
pub const MOST_SPACES: usize = 64;

/// The most pages that a space has mapped at a time.
pub const MOST_MAPPED: usize = 1024;

/// The most pages that one `Unmap` takes out of a space.
pub const MOST_PAGES: usize = 48;

/// The greatest order of a range, which has 2^order pages.
pub const MOST_ORDER: u8 = 9;

/// The PASIDs are 1 to this, of 20 bits (PCI Express Base 5.0, section 6.20).
pub const PASIDS: u32 = 32;

/// The places of a table with one for each PASID, and one for PASID 0, which stays empty.
pub const PASID_PLACES: usize = PASIDS as usize + 1;

/// The places of a unit's invalidation queue (Intel VT-d, "Queued Invalidation Interface").
pub const QUEUE_PLACES: usize = 64;

/// The ITags are below this: five bits (PCI Express Base 5.0, section 10.3.1).
pub const ITAGS: usize = 32;

/// An invalidation is completed by at most so many completions (PCI Express Base 5.0, section 10.3.2).
pub const MOST_COMPLETIONS: u64 = 8;

/// The tags of translation requests are below this.
pub const REQUEST_TAGS: usize = 32;

/// The most translations that an endpoint keeps.
pub const CACHED: usize = 64;

/// The use slots of an endpoint are below this.
pub const USE_SLOTS: usize = 16;

/// The most page requests that are outstanding at an endpoint (Outstanding Page Request Allocation, PCI Express Base 5.0,
/// section 10.5.2).
pub const PAGE_REQUESTS: usize = 32;

/// The Page Request Group Indexes in use are below this, of nine bits (PCI Express Base 5.0, section 10.4.1).
pub const GROUPS: usize = 32;

/// How large a world is, and where its numbers begin.
#[derive(Clone, Copy, Debug, PartialEq, Eq)]
pub struct Config {
    /// How many endpoints there are, each with a remapping unit of its own: 1 to 8.
    pub endpoints: u64,
    /// How many frames there are: 1 to 4096.
    pub frames: u64,
    /// How many workers answer page requests: 1 to 4.
    pub workers: u64,
    /// The first number of spaces, of bindings, of messages and of cookies: at most 2^63.
    pub first: u64,
}

impl Config {
    /// Tells that each count is within its limits and that the numbers begin at 2^63 or below.
    pub fn fits(&self) -> bool
        ensures { IsTrue result ↔ Fits self.now }
    {
        (1..=MOST_ENDPOINTS as u64).contains(&self.endpoints)
            && (1..=MOST_FRAMES).contains(&self.frames)
            && (1..=MOST_WORKERS as u64).contains(&self.workers)
            && self.first <= NUMBERS
    }
}

/// The constants are the numbers that the definitions speak of.
pub fn limits_stand()
    ensures { AreLimits }
{}
