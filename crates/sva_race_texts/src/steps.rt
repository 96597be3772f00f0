//! Whether the words of a step and its name are right.

ghost use Rattle.std.specs.Prelude.{◌≡◌, map, option_map};
ghost use Rattle.sva_script.specs.Names.{given_of};
ghost use Rattle.sva_race_texts.specs.TakingWords.{Judges};
ghost use Rattle.sva_race_texts.specs.Faults.{as_script};
ghost use Rattle.sva_race_texts.specs.Steps.{endpoint_in, is_of_line, is_step, named, step_judged};

use crate::faults::{RaceStop, RaceWanted, RaceWrong, stop_at, wrong_at};
use crate::words::word_at;
use sva_grammar::number_in;
use sva_script::{Field, Names, Stop, Wanted, Wrong, is_name, places_of};
use sva_script_reading::{Desk, NothingInFlight, read_line};

/// An endpoint that the config has.
pub fn endpoint_in(endpoints: u64, at: usize, word: &[u8]) -> Result<u64, RaceWrong>
    ensures { result ≡ endpoint_in endpoints at word.now }
{
    match number_in(word) {
        Ok(endpoint) => {
            if endpoint < endpoints {
                Ok(endpoint)
            } else {
                Err(wrong_at(at, RaceWanted::OfConfig))
            }
        }
        Err(_) => Err(wrong_at(at, RaceWanted::Script(Wanted::Field(Field::Endpoint)))),
    }
}

/// Whether it is the first line that has the name.
fn is_of_line(names: &Names, line: u64, name: &[u8]) -> bool
    ensures { result ≡ is_of_line line (given_of name.now names.now) }
{
    match names.get(name) {
        Some(given) => given.line == line,
        None => false,
    }
}

/// Whether a line's name is one, and the line the first that has it.
pub fn judge_name(names: &Names, line: u64, name: Option<&[u8]>) -> Result<(), RaceWrong>
    ensures { result ≡ named names.now line (option_map (λ name. name.now) name.entry) }
{
    match name {
        None => Ok(()),
        Some(name) => {
            if !is_name(name) {
                Err(wrong_at(0, RaceWanted::Script(Wanted::Name)))
            } else if is_of_line(names, line, name) {
                Ok(())
            } else {
                Err(wrong_at(0, RaceWanted::Script(Wanted::NewName)))
            }
        }
    }
}

/// Whether a word is the name of a step.
pub fn is_step(word: &[u8]) -> bool
    ensures { result ≡ is_step word.now }
{
    match places_of(word) {
        Some(_) => true,
        None => false,
    }
}

/// Whether the words of a step, which begin at `at`, are right wherever the names in them have numbers.
pub fn judge_step(
    names: &Names,
    step: &[&[u8]],
    at: usize,
    desk: &mut Desk<'_>,
) -> Result<(), RaceStop>
    ensures { Judges (step_judged at names.now (map (λ word. word.now) step.now)) result }
{
    if !is_step(word_at(step, 0)) {
        return Err(stop_at(at, RaceWanted::Script(Wanted::Step)));
    }
    match read_line(
        names,
        &NothingInFlight,
        step,
        &mut desk.plain,
        &mut desk.expected,
    ) {
        Ok(_) => Ok(()),
        Err(Stop::Wrong(found)) => place_stop(at, found),
        Err(Stop::Memory) => Err(RaceStop::Memory),
    }
}

/// What is wrong with words by the rules of scripts, where they begin at `at`. No line is so long that the place of a
/// word doesn't fit; if it were, nothing could be said of it.
fn place_stop(at: usize, found: Wrong) -> Result<(), RaceStop>
    ensures { Judges (as_script at found) result }
{
    match at.checked_add(found.at) {
        Some(place) => Err(stop_at(place, RaceWanted::Script(found.wanted))),
        None => Err(RaceStop::Memory),
    }
}
