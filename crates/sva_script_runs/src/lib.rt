//! A script that is run: its lines are resolved against the world, and taken as steps.
#![tactic(auto)]

mod in_world;
mod kinds;
mod running;

pub use in_world::InWorld;
pub use kinds::kind_name;
pub use running::{Came, Run, Taken};
