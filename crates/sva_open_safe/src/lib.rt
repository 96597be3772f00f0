//! Whether a moment of the open world is safe, and whether two moments are the same; what is wrong at one, and which
//! of several things is told.
#![tactic(auto)]

mod digests;
mod frames;
mod likeness;
mod matches;
mod owners;
mod plain;
mod safety;
mod sameness;
mod wrongs;

pub use digests::digest;
pub use likeness::alike;
pub use matches::first_wrong;
pub use plain::nothing_reads_pages_asked_for;
pub use safety::is_safe;
pub use sameness::same;
pub use wrongs::{Sort, Thing, Wrong, is_same_wrong};
