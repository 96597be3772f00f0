//! How deep a line stands, and the step in brackets at its end.

ghost use Rattle.std.specs.Prelude.{◌≡◌, ◌++◌, OnOk};
ghost use Rattle.sva_explain.specs.Lines.{below, bracket, bracket_of_two, indent, start};

use std::alloc::AllocError;
use sva_lines::{put_field, put_word};

/// How deep a line stands: what holds a step back is at the first level.
#[derive(Clone, Copy, PartialEq, Eq)]
pub enum Level {
    /// What holds the step back.
    First,
    /// Where that stands.
    Second,
    /// Below that.
    Third,
    /// Below the third.
    Fourth,
    /// Below the fourth.
    Fifth,
    /// Below the fifth, and the deepest.
    Sixth,
}

/// The next level.
pub fn below(level: Level) -> Level
    ensures { result ≡ below level }
{
    match level {
        Level::First => Level::Second,
        Level::Second => Level::Third,
        Level::Third => Level::Fourth,
        Level::Fourth => Level::Fifth,
        Level::Fifth | Level::Sixth => Level::Sixth,
    }
}

/// Appends four spaces for each level.
pub fn put_indent(out: &mut Vec<u8>, level: Level) -> Result<(), AllocError>
    ensures { OnOk result (out.new.items ≡ out.old.items ++ indent level) }
{
    put_word(
        out,
        match level {
            Level::First => "    ",
            Level::Second => "        ",
            Level::Third => "            ",
            Level::Fourth => "                ",
            Level::Fifth => "                    ",
            Level::Sixth => "                        ",
        },
    )
}

/// Appends how a line begins: with a word and a number.
pub fn put_start(out: &mut Vec<u8>, level: Level, word: &str, number: u64) -> Result<(), AllocError>
    ensures { OnOk result (out.new.items ≡ out.old.items ++ start level word.now number) }
{
    put_indent(out, level)?;
    put_field(out, word, number)
}

/// Appends a step of one number in brackets, where that holds. The word begins with a space and the bracket.
pub fn put_bracket(
    out: &mut Vec<u8>,
    holds: bool,
    word: &str,
    number: u64,
) -> Result<(), AllocError>
    ensures { OnOk result (out.new.items ≡ out.old.items ++ bracket holds word.now number) }
{
    if !holds {
        return Ok(());
    }
    put_field(out, word, number)?;
    put_word(out, "]")
}

/// Appends a step of two numbers in brackets, where that holds.
pub fn put_bracket_of_two(
    out: &mut Vec<u8>,
    holds: bool,
    word: &str,
    first: u64,
    second: u64,
) -> Result<(), AllocError>
    ensures { OnOk result (out.new.items ≡ out.old.items ++ bracket_of_two holds word.now first second) }
{
    if !holds {
        return Ok(());
    }
    put_field(out, word, first)?;
    put_field(out, " ", second)?;
    put_word(out, "]")
}
