//! The invalidation queue of one remapping unit, which owns the unit's invalidation tags.
#![tactic(auto)]

mod descriptors;
mod heads;
mod reading;
mod ring;
mod units;

pub use descriptors::{Descriptor, Pumped, QueueFull};
pub use heads::{Next, Sending};
pub use units::{Unit, laws};
