//! What a line for a person is made of: a head column, words with numbers, pages, and what is said of one thing; and a
//! listing of what a world keeps, a line for each thing.
#![tactic(auto)]

mod devices;
mod kinds;
mod listings;
mod memory;
mod messages;
mod pieces;
mod units;
mod words;
mod worked;

pub use kinds::{put_kind, put_vector};
pub use listings::put_listing;
pub use pieces::{end_line, put_extent, put_field, put_flags, put_if, put_word};
pub use words::{put_busy, put_stage, put_translation};
pub use worked::worked_listings;
