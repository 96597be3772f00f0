//! A line of a script that is read: its name is judged, its step resolved, and its expected answer written.

ghost use Rattle.std.specs.Prelude.{◌≡◌, IfSome, None, OnOk, map, option_map};
ghost use Rattle.sva_script.specs.Lines.{parts_of};
ghost use Rattle.sva_script.specs.Names.{given_of};
ghost use Rattle.sva_script_reading.specs.Lines.{Reads, are_end, expected_in, line_read, named};

use crate::in_flight::InFlight;
use crate::resolving::resolve;
use sva_script::{Names, Stop, Wanted, Wrong, at_word, expect, is, is_name, parts_of};
use sva_step::Step;

/// Reads a line: its step, or `None` for `end => ..`. `plain` is then the line of a scenario that it stands for,
/// `expected` the answer that it expects, a space before each word, or nothing; behind an `Err` they aren't said. Where
/// nothing is in flight, as `NothingInFlight` says, a script is read before it is run.
pub fn read_line<F: InFlight>(
    names: &Names,
    flights: &F,
    words: &[&[u8]],
    plain: &mut Vec<u8>,
    expected: &mut Vec<u8>,
) -> Result<Option<Step>, Stop>
    ensures { Reads (line_read names.now (F.link flights.now) (parts_of (map (λ word. word.now) words.now)))
        plain.new.items expected.new.items result }
{
    plain.clear();
    expected.clear();
    let parts = parts_of(words);
    match judge_name(names, parts.name) {
        Ok(()) => {}
        Err(wrong) => return Err(Stop::Wrong(wrong)),
    }
    let is_last = are_end(parts.step) && parts.expected.is_some();
    let step = if is_last {
        None
    } else {
        match resolve(names, flights, parts.step, parts.step_at, plain) {
            Ok(step) => Some(step),
            Err(stop) => return Err(stop),
        }
    };
    match parts.expected {
        None => Ok(step),
        Some(words) => match expect(names, words, parts.expected_at, expected) {
            Ok(()) => Ok(step),
            Err(stop) => Err(stop),
        },
    }
}

/// Is a line's name one, and new?
pub fn judge_name(names: &Names, name: Option<&[u8]>) -> Result<(), Wrong>
    ensures named { result ≡ named names.now (option_map (λ name. name.now) name.entry) }
    ensures new { OnOk result (IfSome name.entry (λ name. given_of name.now names.now ≡ None)) }
{
    match name {
        None => Ok(()),
        Some(name) => {
            if !is_name(name) {
                Err(at_word(0, Wanted::Name))
            } else if names.get(name).is_some() {
                Err(at_word(0, Wanted::NewName))
            } else {
                Ok(())
            }
        }
    }
}

/// Is it the word `end` alone?
fn are_end(words: &[&[u8]]) -> bool
    ensures { result ≡ are_end (map (λ word. word.now) words.now) }
{
    match words {
        [word] => is(word, b"end"),
        _ => false,
    }
}
