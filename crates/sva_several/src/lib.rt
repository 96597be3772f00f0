//! Several texts, each in a file of its own: some are searched, run or read at once, and a line is told of each. And a
//! line on a terminal that is shown in place while something goes on, with the one that says how far a search is.
#![tactic(auto)]

mod driving;
mod given;
mod in_place;
mod metering;
mod naming;
mod progress;
mod reporting;
mod searching;
mod sharing;
mod verdicts;
mod working;

pub use driving::{Wanted, tell_all};
pub use given::{Given, Lack, lack_words};
pub use in_place::InPlace;
pub use metering::{Meter, Searched};
pub use progress::Progress;
pub use reporting::language_of;
pub use searching::{Said, Search};
pub use verdicts::Verdict;
