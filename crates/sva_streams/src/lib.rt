//! Streams: a reader or a writer whose calls are counted, the reading of a whole one, the writing of a text, and how a run
//! over both ends.
#![tactic(auto)]

mod reading;
mod streams;
mod told;
mod writing;

pub use reading::{MOST_KEPT, MOST_TURNS, read_all};
pub use streams::{DriveFault, Outcome};
pub use told::Told;
pub use writing::write_all;
