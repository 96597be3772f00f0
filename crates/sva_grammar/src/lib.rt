//! The grammar of scenarios: what config and which steps a text writes, or the first line that can't be read.
#![tactic(auto)]

mod fault_texts;
mod faults;
mod forms;
mod grammar;
mod letters;
mod lines;
mod parsing;
mod single;
mod words;

pub use faults::{Cause, LineFault, ParseFault};
pub use grammar::laws;
pub use parsing::{Scenario, parse};
pub use single::{config, step};
pub use words::{access_in, flags_in, group_in, last_in, number_in, vector_in, verdict_in};
