//! The lines before `race`, and the names of all lines.

ghost use Rattle.std.specs.Prelude.{◌≡◌, ◌+◌, [], IfOk, map};
ghost use Rattle.sva_race_texts.specs.Texts.{before_race, is_race, line_before, names_from, with_before, with_script};
ghost use Rattle.sva_script.specs.Lines.{parts_of};
ghost use Rattle.sva_script_reading.specs.Begins.{lines_from};
ghost use Rattle.sva_script_reading.specs.Lines.{are_end, is_end};

use crate::readings::Reading;
use crate::words::word_at;
use std::alloc::{AllocError, Global};
use sva_script::{Names, is, name_in, parts_of, split};
use sva_script_reading::{Desk, Lines, note_name};

/// The names of all lines.
pub(crate) fn names_of(alloc: Global, from: Lines<'_>) -> Result<Names, AllocError>
    ensures { IfOk result (λ names. names ≡ names_from [] (lines_from (from.entry.number + 1) from.entry.rest.now)) }
{
    let mut lines = from;
    let mut names = Names::new(alloc);
    let mut words = Vec::new(alloc);
    while let Some((number, line)) = lines.next() {
        split(line, &mut words)?;
        note_name(alloc, number, name_in(words.as_slice()), &mut names)?;
    }
    Ok(names)
}

/// Whether a line says `race`.
pub(crate) fn is_race(words: &[&[u8]]) -> bool
    ensures { result ≡ is_race (map (λ word. word.now) words.now) }
{
    is(word_at(words, 0), b"race")
}

/// Whether it is the word `end` alone.
fn are_end(step: &[&[u8]]) -> bool
    ensures { result ≡ are_end (map (λ word. word.now) step.now) }
{
    match step {
        [word] => is(word, b"end"),
        _ => false,
    }
}

/// Whether a line is the last of a script: `end => ..`.
fn is_end(words: &[&[u8]]) -> bool
    ensures { result ≡ is_end (parts_of (map (λ word. word.now) words.now)) }
{
    let parts = parts_of(words);
    are_end(parts.step) && parts.expected.is_some()
}

/// Adds a line before `race` that says something, if it has a step.
fn add_step(
    alloc: Global,
    line: u64,
    words: &[&[u8]],
    reading: &mut Reading,
) -> Result<(), AllocError>
    ensures { IfOk result (λ _. reading.new
        ≡ with_before reading.old line (parts_of (map (λ word. word.now) words.now))) }
{
    if is_end(words) {
        return Ok(());
    }
    let parts = parts_of(words);
    reading.add_line(alloc, line, parts.name, false, parts.step, Vec::new(alloc))
}

/// Adds a line before `race`, if it says something and has a step.
fn add_before(
    alloc: Global,
    line: u64,
    words: &[&[u8]],
    reading: &mut Reading,
) -> Result<(), AllocError>
    ensures { IfOk result (λ _. reading.new ≡ line_before reading.old line (map (λ word. word.now) words.now)) }
{
    if words.is_empty() {
        return Ok(());
    }
    add_step(alloc, line, words, reading)
}

/// Reads the lines up to `race`, as those of a script.
pub(crate) fn read_before(
    alloc: Global,
    from: Lines<'_>,
    reading: &mut Reading,
) -> Result<(), AllocError>
    ensures { IfOk result (λ _. reading.new
        ≡ with_script reading.old (before_race (lines_from (from.entry.number + 1) from.entry.rest.now))) }
{
    let mut lines = from;
    let mut names = Names::new(alloc);
    let mut desk = Desk::new(alloc);
    let mut has_ended = false;
    while let Some((number, line)) = lines.next() {
        split(line, &mut desk.words)?;
        if is_race(desk.words.as_slice()) {
            return Ok(());
        }
        add_before(alloc, number, desk.words.as_slice(), reading)?;
        has_ended = reading.tell_script(alloc, number, has_ended, &mut names, &mut desk)?;
    }
    Ok(())
}
