//! The messages between a host and its endpoints, and those of them that are in flight.
//!
//! Of the order of the link, the definition `stays_behind` over the sorts of message is the one that the world is defined
//! by. What is said here of numbered messages (which sort a kind is, that only messages of one endpoint are ordered, that a
//! smaller number is older) is this crate's own: who builds a world on it shows that it comes to the world's order.
#![tactic(auto)]

mod extents;
mod in_flight;
mod messages;
mod ranges;
mod reading;

pub use extents::Extent;
pub use in_flight::{Bag, Flight, laws};
pub use messages::{Code, CountField, Kind, Message, PageRequest, Scope};
pub use ranges::Range;
