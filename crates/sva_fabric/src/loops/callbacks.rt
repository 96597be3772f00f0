//! What a thread does between two calls of the world. No lock is held then: a call gives back a number or a token, and neither borrows
//! the fabric.

use sva_step::Verdict;

/// What an endpoint does with the frame of a use that runs.
pub trait Device {
    /// Is called after each use that began, with the number of its frame, and whether it writes.
    fn touch(&mut self, frame: u32, write: bool);
}

/// What decides of the jobs that a worker takes.
pub trait Pager {
    /// Is called for each job between its taking and its answer: the number of its binding, the index of its group, and how many page
    /// requests it has.
    fn decide(&mut self, binding: u64, group: u8, pages: u32) -> Verdict;
}
