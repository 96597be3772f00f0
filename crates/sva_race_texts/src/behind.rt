//! The lines from `race` on.

ghost use Rattle.std.specs.Prelude.{◌≡◌, ◌+◌, IfOk, map};
ghost use Rattle.sva_race_texts.specs.Taking.{Takes};
ghost use Rattle.sva_race_texts.specs.Texts.{begins_other, behind_race, behind_words, from_race, is_misspelt};
ghost use Rattle.sva_race_texts.specs.Texts.{is_of_thread, nameless, other_line, race_judged, race_line};
ghost use Rattle.sva_script.specs.Lines.{parts_of};
ghost use Rattle.sva_script_reading.specs.Begins.{lines_from};

use crate::before::is_race;
use crate::claim_lines::take_claim;
use crate::claims::begins_claim;
use crate::faults::{RaceStop, RaceWanted, RaceWrong, stop_at, wrong_at};
use crate::readings::Reading;
use crate::steps::is_step;
use crate::threads::{is_try, take_device, take_heading, take_thread_line, take_workers};
use crate::words::{count_of, word_at};
use std::alloc::{AllocError, Global};
use sva_script::{Names, Wanted, is, name_in, parts_of, split};
use sva_script_reading::{Desk, Lines};
use sva_step::Config;

/// Whether a line has no name.
fn judge_nameless(words: &[&[u8]]) -> Result<(), RaceWrong>
    ensures { result ≡ nameless (parts_of (map (λ word. word.now) words.now)).name }
{
    match name_in(words) {
        None => Ok(()),
        Some(_) => Err(wrong_at(0, RaceWanted::NoName)),
    }
}

/// Whether a line of a thread has this step.
fn is_of_thread(step: &[&[u8]]) -> bool
    ensures { result ≡ is_of_thread (map (λ word. word.now) step.now) }
{
    is_try(step) || is_step(word_at(step, 0))
}

/// Whether a word begins a line that is neither a claim nor of a thread.
fn begins_other(word: &[u8]) -> bool
    ensures { result ≡ begins_other word.now }
{
    is(word, b"thread") || is(word, b"workers") || is(word, b"device")
}

/// Whether a word that begins no line stands behind a name.
fn is_misspelt(words: &[&[u8]]) -> bool
    ensures { result ≡ is_misspelt (parts_of (map (λ word. word.now) words.now)) }
{
    let parts = parts_of(words);
    parts.name.is_some() && !begins_other(word_at(parts.step, 0))
}

/// Takes a line that is neither a claim nor of a thread.
fn take_other(
    alloc: Global,
    config: Config,
    reading: &mut Reading,
    words: &[&[u8]],
) -> Result<(), RaceStop>
    ensures { Takes (other_line config reading.old (map (λ word. word.now) words.now))
        reading.old reading.new result }
{
    let first = word_at(words, 0);
    if is(first, b"thread") {
        return take_heading(alloc, reading, words);
    }
    if is(first, b"workers") {
        return take_workers(reading, words);
    }
    if is(first, b"device") {
        return take_device(alloc, config.endpoints, reading, words);
    }
    Err(stop_at(0, RaceWanted::Line))
}

/// Takes a line behind `race`.
fn take_line(
    alloc: Global,
    config: Config,
    names: &Names,
    reading: &mut Reading,
    line: u64,
    words: &[&[u8]],
    desk: &mut Desk<'_>,
) -> Result<(), RaceStop>
    ensures { Takes (race_line config names.now reading.old line (map (λ word. word.now) words.now)
        (parts_of (map (λ word. word.now) words.now))) reading.old reading.new result }
{
    let parts = parts_of(words);
    if begins_claim(word_at(parts.step, 0)) {
        judge_nameless(words).map_err(RaceStop::Wrong)?;
        return take_claim(alloc, config, names, reading, line, words);
    }
    if reading.has_claims() {
        return Err(stop_at(parts.step_at, RaceWanted::Claim));
    }
    if is_of_thread(parts.step) {
        return take_thread_line(alloc, names, reading, line, words, desk);
    }
    if is_misspelt(words) {
        return Err(stop_at(parts.step_at, RaceWanted::Script(Wanted::Step)));
    }
    judge_nameless(words).map_err(RaceStop::Wrong)?;
    take_other(alloc, config, reading, words)
}

/// Reads the words of a line behind `race`, if it says something.
fn read_words(
    alloc: Global,
    config: Config,
    names: &Names,
    reading: &mut Reading,
    line: u64,
    words: &[&[u8]],
    desk: &mut Desk<'_>,
) -> Result<(), AllocError>
    ensures { IfOk result (λ _. reading.new
        ≡ behind_words config names.now reading.old line (map (λ word. word.now) words.now)) }
{
    if words.is_empty() {
        return Ok(());
    }
    match take_line(alloc, config, names, reading, line, words, desk) {
        Ok(()) => Ok(()),
        Err(RaceStop::Wrong(wrong)) => reading.tell(&wrong, line, words, names),
        Err(RaceStop::Memory) => Err(AllocError),
    }
}

/// Reads the lines behind `race`.
fn read_behind(
    alloc: Global,
    config: Config,
    names: &Names,
    from: Lines<'_>,
    reading: &mut Reading,
) -> Result<(), AllocError>
    ensures { IfOk result (λ _. reading.new
        ≡ behind_race config names.now reading.old (lines_from (from.entry.number + 1) from.entry.rest.now)) }
{
    let mut lines = from;
    let mut words = Vec::new(alloc);
    let mut desk = Desk::new(alloc);
    while let Some((number, line)) = lines.next() {
        split(line, &mut words)?;
        read_words(
            alloc,
            config,
            names,
            reading,
            number,
            words.as_slice(),
            &mut desk,
        )?;
    }
    Ok(())
}

/// Tells it where a word stands behind `race`.
fn judge_race(
    names: &Names,
    reading: &mut Reading,
    line: u64,
    words: &[&[u8]],
) -> Result<(), AllocError>
    ensures { IfOk result (λ _. reading.new
        ≡ race_judged reading.old names.now line (map (λ word. word.now) words.now)) }
{
    if count_of(words) == 1 {
        return Ok(());
    }
    let more = wrong_at(1, RaceWanted::Script(Wanted::NoMore));
    reading.tell(&more, line, words, names)
}

/// Reads the lines from `race` on; those before it are passed over. Where there is none, that is told.
pub(crate) fn read_from_race(
    alloc: Global,
    config: Config,
    names: &Names,
    from: Lines<'_>,
    reading: &mut Reading,
) -> Result<(), AllocError>
    ensures { IfOk result (λ _. reading.new ≡ from_race config names.now reading.old from.entry.number
        (lines_from (from.entry.number + 1) from.entry.rest.now)) }
{
    let mut lines = from;
    let mut words = Vec::new(alloc);
    while let Some((number, line)) = lines.next() {
        split(line, &mut words)?;
        if is_race(words.as_slice()) {
            judge_race(names, reading, number, words.as_slice())?;
            return read_behind(alloc, config, names, lines, reading);
        }
    }
    let none = wrong_at(0, RaceWanted::Race);
    reading.tell(&none, lines.number.saturating_add(1), &[], names)
}
