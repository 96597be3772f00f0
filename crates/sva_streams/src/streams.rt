//! How a run over a reader and a writer ends.

use thiserror::Error;

/// Why a run over a reader and a writer ended early.
#[derive(Clone, Copy, Debug, PartialEq, Eq, Error)]
pub enum DriveFault {
    /// The reader failed, or its turns were spent.
    #[error("read fault")]
    Read,
    /// The writer failed, or took nothing.
    #[error("write fault")]
    Write,
    /// Memory ran out.
    #[error("out of memory")]
    Memory,
}

/// How a whole run ended.
#[derive(Clone, Copy, Debug, PartialEq, Eq)]
pub enum Outcome {
    /// The steps were run.
    Done,
    /// The report is a line fault or a refused config.
    Faulted,
}
