//! What is said of a text that is wrong, where the text is a file with a name: each line that is wrong begins with the
//! name, its number and, where that is known, the column, as editors and compilers have it; and a text of another
//! language than was asked for is told as such.
#![tactic(auto)]

mod columns;
mod languages;
mod locating;
mod placing;

pub use languages::{Language, Own, language_of};
pub use locating::{located, shown_name};
pub use placing::Placed;
