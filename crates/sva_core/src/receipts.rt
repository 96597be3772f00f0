//! Receipts: what a port is told of its calls.

use sva_step::{Answer, Refusal, Step};

/// What a port is told of one of its calls.
#[derive(Clone, Copy, Debug, PartialEq, Eq)]
pub struct Receipt {
    /// The place of the call's entry in the journal: how many calls were answered before it.
    pub place: u64,
    /// The step that was asked.
    pub step: Step,
    /// What was answered: a refusal is an answer too.
    pub answer: Result<Answer, Refusal>,
}
