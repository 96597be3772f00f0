//! The text of a race: what a race is, the words of its lines by their places, the conditions of its claims, its
//! config, the script before it, its threads, and all that is wrong with its lines.
#![tactic(auto)]

mod atoms;
mod before;
mod behind;
mod claim_lines;
mod claims;
mod counts;
mod devices;
mod faults;
mod kept;
mod limits;
mod literals;
mod pages;
mod possible;
mod readings;
mod roles;
mod steps;
mod terms;
mod texts;
mod threads;
mod words;

pub use faults::{RaceStop, RaceWanted, RaceWrong, first_near, put_fault, word_in, wrong_at};
pub use kept::{Asked, AskedLiteral, Text};
pub use limits::put_limits;
pub use possible::refusals_are_found;
pub use sva_script_reading::{put_near, put_number, put_word};
pub use terms::{
    Act, Atom, Budget, Choice, Claim, Claiming, Count, Device, Line, Literal, MANNERS, Race,
    Verdicts,
};
pub use texts::read_race;
pub use words::{count_of, joined, piece_len, word_at, words_at, words_from};
