//! The report of a driver that was judged: the verdict, and a shortest witness; a text that is judged, and one whose
//! lines are taken one after another: what is read, and what is written.
#![tactic(auto)]

mod driving;
mod events;
mod findings;
mod fronts;
mod judging;
mod laws;
mod limits;
mod nevers;
mod notes;
mod reports;
mod untaken;
mod wanted;
mod witness;

pub use driving::{judge, run};
pub use judging::{judge_text, run_text};
pub use laws::witnesses_are_told;
pub use reports::Ruling;
pub use wanted::Wanted;
