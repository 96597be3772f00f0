//! Scripts that are read: a line, over what is in flight; and a whole one before it is run, its config, its lines, and all
//! that is wrong with them.
#![tactic(auto)]

mod faults;
mod in_flight;
mod lines;
mod reading;
mod resolving;
mod single;
mod writing;

pub use faults::{put_near, put_word, put_wrong, wanted_words};
pub use in_flight::{InFlight, NothingInFlight};
pub use lines::{Lines, end_in, is_too_large};
pub use reading::{
    Desk, config_of, note_name, put_words, read_config, read_line_words, read_script, take_config,
};
pub use single::{judge_name, read_line};
pub use writing::{put_bad_config, put_number, put_reply};
