//! What a host keeps: its parts in one place, seen as the definitions by labels see them. What is read of a binding's stage, what
//! a unit is asked, what is sent and how a stage moves stand here as functions of single parts; the proofs are the laws of what
//! each step leaves of all of them.
#![tactic(auto)]

mod advancing;
mod endpoints;
mod host_state;
mod replying;
mod requests;
mod sending;
mod stage_reading;
pub mod stages;
mod unbinding;
mod unmapping;

pub use advancing::{Course, descriptors_of, is_due, next_course};
pub use endpoints::port;
pub use host_state::{HostState, Port};
pub use replying::{Response, answer_of, code_by};
pub use requests::completion;
pub use sending::send;
pub use stage_reading::{is_live, is_lost, is_quiet};
pub use unbinding::Ending;
pub use unmapping::Plan;
