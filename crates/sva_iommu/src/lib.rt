//! One remapping unit of the host: its invalidation queue with the ITags, and its page request queue, as the definitions by
//! labels see them.
#![tactic(auto)]

mod orders;
mod reading;
mod units;

pub use sva_msg::Extent;
pub use sva_queue::{Next, Sending};
pub use units::RemappingUnit;
