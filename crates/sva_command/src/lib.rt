//! The command line of svahost: its commands with their options, the files that it names, and its help.
#![tactic(auto)]

mod command;
mod files;
mod help;
mod passages;
mod topics;

pub use command::{Asked, Beside, is_any, parse};
pub use files::{
    Awaited, Kind, Named, Part, Takes, after_of, files_of, jobs_of, named_in, part_of,
};
pub use help::NO_TEXT;
pub use topics::{Called, Topic, help_in, help_on};
