//! What is kept of endpoints.

use sva_open::Budget;

/// What an endpoint was told.
#[derive(Drop)]
pub struct DeviceRead {
    /// Whether a line of it was read.
    pub is_told: bool,
    /// How often it may do something by itself.
    pub budget: Budget,
    /// The numbers of the pages that it names; none where they are those of all `pte` lines.
    pub pages: Option<Vec<u64>>,
    /// Whether it may let go of what it holds.
    pub evicts: bool,
    /// Whether it may cease to act.
    pub is_silent: bool,
    /// Whether it may complete an invalidation too early.
    pub lies: bool,
    /// Whether it says that it has stopped only once its page requests are answered.
    pub awaits: bool,
    /// Whether it may be removed, at any moment.
    pub leaves: bool,
}
