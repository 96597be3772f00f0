//! What is said of a race: how far a search came, what its ends come to, what that says of each claim, and shortest
//! witnesses as scenarios.
#![tactic(auto)]

mod briefs;
mod claims;
mod ends;
mod exploring;
mod held;
mod judging;
mod kinds;
mod literals;
mod pieces;
mod searching;
mod steps;
mod telling;
mod witnesses;

pub use exploring::explore;
pub use judging::Judged;
pub use searching::{Explored, Wanted, explore_text, explore_to};
