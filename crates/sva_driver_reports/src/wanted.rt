//! What is wanted of a driver.

/// What is wanted of a driver that is judged.
#[derive(Clone, Copy, PartialEq, Eq)]
pub struct Wanted {
    /// How many moments each search looks at at most.
    pub most: u64,
    /// Are all findings told, but for what is behind one? Else a nearest one is.
    pub all: bool,
    /// Is of each of all of them its line told alone, and no witness?
    pub lines_alone: bool,
}
