//! What a line that has a name came to.

use sva_step::{Answer, Refusal};

/// What a named line came to.
#[derive(Clone, Copy)]
pub struct Told {
    /// What its step was answered.
    pub reply: Result<Answer, Refusal>,
    /// The number that its first message got, if it sent one.
    pub first: u64,
    /// The number that the next message got: those from `first` on and below it are its own.
    pub next: u64,
}

/// A line that has a name.
#[derive(Clone, Copy)]
pub struct Given {
    /// The number of the line, from 1 on.
    pub line: u64,
    /// What it came to; nothing as long as lines are only read.
    pub told: Option<Told>,
}
