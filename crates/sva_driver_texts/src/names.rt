//! The names of lines, and of the threads that they are of.

ghost use Rattle.std.specs.Prelude.{◌≡◌, ◌++◌, IfOk, map, option_map};
ghost use Rattle.std.specs.List.{list_any};
ghost use Rattle.sva_driver_words.specs.Awaits.{is_named, line_seen};
ghost use Rattle.sva_driver_texts.specs.Readings as readings;

use std::alloc::{AllocError, Global};
use sva_driver_words::{DriverWanted, DriverWrong, LineRead, wrong_at};
use sva_race_texts::RaceWanted;
use sva_script::{Wanted, is, is_name};

/// Whether a name is awaited otherwise.
fn is_awaited_word(name: &[u8]) -> bool
    ensures { result ≡ readings.is_awaited_word name.now }
{
    is(name, b"stopped")
        || is(name, b"passed")
        || is(name, b"queue")
        || is(name, b"groups")
        || is(name, b"idle")
        || is(name, b"gone")
}

/// Whether a line has the name.
fn has_name(line: &LineRead, name: &[u8]) -> bool
    ensures { result ≡ is_named name.now (line_seen line.now) }
{
    is(line.name.as_slice(), name)
}

/// Whether one of the lines has the name.
fn is_one_named(lines: &[LineRead], name: &[u8]) -> bool
    ensures { result ≡ list_any (λ line. is_named name.now (line_seen line)) lines.now }
{
    lines.iter().any(|line| has_name(line, name))
}

/// Whether a line above has the name.
fn is_given(lines: &[LineRead], name: &[u8]) -> bool
    ensures { result ≡ list_any (is_named name.now) (map line_seen lines.now) }
{
    let given = is_one_named(lines, name);
    given
}

/// Whether a line's name is one, and no line above has it; it is no word behind `await`.
pub(crate) fn judge_name(lines: &[LineRead], name: Option<&[u8]>) -> Result<(), DriverWrong>
    ensures { result ≡ readings.name_judged (map line_seen lines.now) (option_map (λ name. name.now) name.entry) }
{
    match name {
        None => Ok(()),
        Some(name) => {
            if !is_name(name) || is_awaited_word(name) {
                return Err(wrong_at(0, DriverWanted::Race(RaceWanted::Script(Wanted::Name))));
            }
            if is_given(lines, name) {
                return Err(wrong_at(0, DriverWanted::Race(RaceWanted::Script(Wanted::NewName))));
            }
            Ok(())
        }
    }
}

/// A name of its own; an empty one where there is none.
pub(crate) fn own(alloc: Global, name: Option<&[u8]>) -> Result<Vec<u8>, AllocError>
    ensures { IfOk result (λ own. own.items ≡ readings.name_of (option_map (λ name. name.now) name.entry)) }
{
    match name {
        Some(name) => Vec::from_slice(alloc, name),
        None => Ok(Vec::new(alloc)),
    }
}

/// Whether an act is an endpoint's.
fn is_of_endpoint(word: &[u8]) -> bool
    ensures { result ≡ readings.is_of_endpoint word.now }
{
    is(word, b"ask")
        || is(word, b"use")
        || is(word, b"end")
        || is(word, b"evict")
        || is(word, b"fault")
        || is(word, b"finish")
        || is(word, b"pass")
        || is(word, b"quit")
        || is(word, b"gone")
}

/// Whether an act is a unit's.
fn is_of_unit(word: &[u8]) -> bool
    ensures { result ≡ readings.is_of_unit word.now }
{
    is(word, b"pump") || is(word, b"expire") || is(word, b"write") || is(word, b"forget")
}

/// A role with the number of who has it.
fn numbered(alloc: Global, role: &[u8], number: &[u8]) -> Result<Vec<u8>, AllocError>
    ensures { IfOk result (λ name. name.items ≡ role.now ++ number.now) }
{
    let mut name = Vec::from_slice(alloc, role)?;
    name.extend_from_slice(number)?;
    Ok(name)
}

/// The thread of an act by its role.
pub(crate) fn role_of(alloc: Global, word: &[u8], first: &[u8]) -> Result<Vec<u8>, AllocError>
    ensures { IfOk result (λ name. name.items ≡ readings.role_of word.now first.now) }
{
    if is_of_endpoint(word) {
        return numbered(alloc, b"endpoint ", first);
    }
    if is_of_unit(word) {
        return numbered(alloc, b"unit ", first);
    }
    if is(word, b"deliver") {
        return Vec::from_slice(alloc, b"link");
    }
    Vec::from_slice(alloc, b"host")
}
