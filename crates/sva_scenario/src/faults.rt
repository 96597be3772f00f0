//! Why a storm has no audit.

use sva_fabric::FirstBadReceipt;
use thiserror::Error;

/// Why a storm has no audit.
#[derive(Clone, Copy, Debug, PartialEq, Eq, Error)]
pub enum StormFault {
    /// The config is out of its limits. No thread was started.
    #[error("the config is out of its limits")]
    Config,
    /// Memory ran out, or a thread couldn't be started. Those that ran were joined, and their tokens audited.
    #[error("out of memory")]
    Memory,
    /// The audit found a receipt that doesn't stand in the journal, or calls or tokens that don't add up.
    #[error("{0}")]
    Bad(FirstBadReceipt),
}
