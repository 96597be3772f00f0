//! Why a step was refused, blocked or withheld: what holds it back where a world is kept, where that stands now, and a
//! step that would be accepted.
#![tactic(auto)]

mod bindings;
mod causes;
mod groups;
mod laws;
mod plain;
mod vectors;
mod whys;

pub use laws::{lines_stand, stuck_stays};
pub use whys::{Explainer, put_why};
