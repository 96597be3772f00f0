//! Which line a line of a report is of.

ghost use Rattle.std.specs.Prelude.{◌≡◌, ◌<◌, drop, length, option_map, take};
ghost use Rattle.sva_located.specs.Located as spec;

use crate::columns::{begins, space_in};
use sva_grammar::number_in;

/// What is told of a line.
#[derive(Clone, Copy)]
pub struct Placed<'a> {
    /// The line's number, from 1 on. It is 0 where it is told of the text.
    pub number: u64,
    /// What.
    pub told: &'a [u8],
}

/// The digits of a number, without a colon behind them.
fn without_colon(word: &[u8]) -> &[u8]
    ensures { result.now ≡ spec.without_colon word.entry.now }
{
    match word {
        [before @ .., b':'] => before,
        _ => word,
    }
}

/// What is told of the line of a number, which a space parts from it.
fn placed_at(rest: &[u8], space: usize) -> Option<Placed<'_>>
    requires { space < length rest.now }
    ensures { option_map (λ placed. record { number = placed.number; told = placed.told.now }) result ≡ spec.placed_at rest.entry.now space }
{
    match number_in(without_colon(&rest[..space])) {
        Ok(number) => Some(Placed {
            number,
            told: &rest[space + 1..],
        }),
        Err(_) => None,
    }
}

/// Which line a line of a report is of, and what is told of it: it begins with `line` and the number.
pub(crate) fn placed_of(line: &[u8]) -> Option<Placed<'_>>
    ensures { option_map (λ placed. record { number = placed.number; told = placed.told.now }) result ≡ spec.placed_of line.entry.now }
{
    if !begins(line, b"line ") {
        return None;
    }
    let rest = &line[5..];
    match space_in(rest) {
        Some(space) => placed_at(rest, space),
        None => None,
    }
}
