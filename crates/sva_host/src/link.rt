//! What goes over the link between a host and its endpoints: a unit sends what it was asked for, an endpoint is told to reset
//! itself, and each message that is in flight arrives. Each step is the step by labels.

mod completions;
mod deliveries;
mod markers;
mod page_requests;
mod pumping;
mod requests;
mod resets;

pub use deliveries::deliver;
pub use pumping::pump;
pub use resets::reset;
