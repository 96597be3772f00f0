//! What is wrong with a line of a script.

ghost use Rattle.std.specs.Prelude.{◌≡◌};

use crate::places::Field;

/// What was wanted where a line is wrong.
#[derive(Clone, Copy)]
pub enum Wanted {
    /// `config`.
    Config,
    /// The name of a step.
    Step,
    /// What the place asks for.
    Field(Field),
    /// A number of the place: the line of the name has none.
    Number(Field),
    /// No further word.
    NoMore,
    /// The end of the script.
    NoLine,
    /// A name that no line has yet.
    NewName,
    /// A name: a small letter, then letters, digits, `-` and `_`, and no word of the format.
    Name,
    /// An answer behind `=>`.
    Answer,
    /// A word of an answer.
    AnswerWord,
}

/// What is wrong with a line: at which of its words, counted from 0, and what was wanted there. Where the line has no such
/// word, it ends too soon.
#[derive(Clone, Copy)]
pub struct Wrong {
    /// The place of the word.
    pub at: usize,
    /// What was wanted.
    pub wanted: Wanted,
}

/// Why a line can't be taken.
#[derive(Clone, Copy)]
pub enum Stop {
    /// It is wrong.
    Wrong(Wrong),
    /// Memory ran out.
    Memory,
}

/// A line that is wrong at this word.
pub fn at_word(at: usize, wanted: Wanted) -> Wrong
    ensures { result ≡ record { at = at; wanted = wanted } }
{
    Wrong { at, wanted }
}
