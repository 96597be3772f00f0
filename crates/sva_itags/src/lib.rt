//! The invalidation tags of one unit, and the counting of the completions of each Invalidate Request.
#![tactic(auto)]

mod counts;
mod itags;
mod reading;
mod vectors;

pub use counts::Count;
pub use itags::{Busy, Itags, laws};
pub use vectors::is_tag_named;
