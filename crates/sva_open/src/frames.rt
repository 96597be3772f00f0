//! Frames, and what leads to them.

/// How often a frame had been given to another owner, and how often it had been frozen. Each only rises.
#[derive(Clone, Copy, PartialEq, Eq)]
pub struct Tenure {
    /// How often it had been given to another owner.
    pub given: u64,
    /// How often it had been frozen: from then on nobody may write it by what led to it before.
    pub frozen: u64,
}

/// What a page leads to: a frame, as it was when the host set the page.
#[derive(Clone, Copy, PartialEq, Eq)]
pub struct Target {
    /// The frame's number.
    pub frame: usize,
    /// How often it had been given away, and frozen, by then.
    pub tenure: Tenure,
    /// Whether it may be written too.
    pub write: bool,
}

/// A page of a space that leads to a frame.
#[derive(Clone, Copy, PartialEq, Eq)]
pub struct Mapping {
    /// The space.
    pub space: u64,
    /// The number of the page.
    pub page: u64,
    /// What it leads to.
    pub target: Target,
}

impl Mapping {
    ghost use Rattle.std.specs.Prelude.{◌≡◌};
    ghost use Rattle.sva_open.specs.World.{is_page};

    /// Whether it is of this page.
    pub fn is_page(&self, space: u64, page: u64) -> bool
        ensures { result ≡ is_page space page self.now }
    {
        self.space == space && self.page == page
    }
}

/// A translation: what a page under a PASID leads to, for the owner that the PASID had when it was asked for.
#[derive(Clone, Copy, PartialEq, Eq)]
pub struct Translation {
    /// The PASID.
    pub pasid: usize,
    /// The number of the page.
    pub page: u64,
    /// Whose it is.
    pub owner: u64,
    /// What the page leads to.
    pub target: Target,
}

impl Translation {
    ghost use Rattle.std.specs.Prelude.{◌≡◌};
    ghost use Rattle.sva_open.specs.World.{is_of};

    /// Whether it is of this page.
    pub fn is_of(&self, pasid: usize, page: u64) -> bool
        ensures { result ≡ is_of pasid page self.now }
    {
        self.pasid == pasid && self.page == page
    }
}
