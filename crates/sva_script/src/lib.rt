//! The language of scripts: scenarios in which steps have names, messages are named by kind, and answers are expected;
//! and the words of its format, of which no name is one, and the nearest to a wrong one is told.
//!
//! A script's line is resolved against what earlier lines were answered: each name becomes the number that it stands
//! for at its place. What is left is a line of a scenario.
#![tactic(auto)]

mod equal;
mod expecting;
mod faults;
mod given;
mod names;
mod nearest;
mod numbers;
mod parts;
mod placed_words;
mod places;
mod reserved;
mod splitting;
mod texts;

pub use equal::is;
pub use expecting::{expect, is_as_expected};
pub use faults::{Stop, Wanted, Wrong, at_word};
pub use given::{Given, Told};
pub use names::{Names, is_name, name_and_nth};
pub use nearest::is_near;
pub use numbers::page_in;
pub use parts::{Parts, name_in, parts_of, split};
pub use placed_words::put_places;
pub use places::{Field, places_of};
pub use reserved::{is_kind, near_answer_word, near_kind, near_refusal, near_step};
pub use texts::{put, put_number};
