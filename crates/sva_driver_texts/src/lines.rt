//! The lines of a driver behind its config, one after another.

ghost use Rattle.std.specs.Prelude.{◌≡◌, ◌+◌, IfOk, Result, map};
ghost use Rattle.std.specs.List.{list_any};
ghost use Rattle.std.specs.Str.{bytes_eq};
ghost use Rattle.sva_driver_words.specs.Says.{is_act};
ghost use Rattle.sva_driver_words.specs.Sayings.{SayingSaid, saying_seen};
ghost use Rattle.sva_driver_words.specs.Taking.{Fails, Gives};
ghost use Rattle.sva_driver_texts.specs.Bodies.{lines_seen, worded_seen};
ghost use Rattle.sva_driver_texts.specs.Devices.{device_seen};
ghost use Rattle.sva_driver_texts.specs.Readings as readings;
ghost use Rattle.sva_driver_texts.specs.Readings.{Takes};
ghost use Rattle.sva_driver_words.specs.Faults.{placed};
ghost use Rattle.sva_driver_words.specs.declared.faults.DriverWrong.{DriverWrong};
ghost use Rattle.sva_script.specs.Lines.{parts_of};

use crate::bodies::WordedLine;
use crate::devices::add_parts;
use crate::kept_of_endpoints::DeviceRead;
use crate::readings::{Reading, untold};
use crate::settings::{is_setting, workers_of};
use crate::titles::is_title;
use crate::writing::written_at;
use std::alloc::{AllocError, Global};
use sva_driver_words::{
    DriverStop, DriverWanted, DriverWrong, WrittenWanted, endpoint_at, has_word, judge_end, says,
    wrong_at,
};
use sva_open::Saying;
use sva_race_texts::{RaceWanted, count_of, word_at};
use sva_script::{Names, is, name_in, parts_of};
use sva_step::Config;

/// The words that begin an act.
const ACTS: [&[u8]; 41] = [
    b"pte",
    b"entry",
    b"replace",
    b"start",
    b"stop",
    b"reset",
    b"submit",
    b"await",
    b"serve",
    b"respond",
    b"discard",
    b"close",
    b"open",
    b"skip",
    b"free",
    b"freeze",
    b"lock",
    b"unlock",
    b"mark",
    b"ask",
    b"use",
    b"end",
    b"evict",
    b"fault",
    b"finish",
    b"quit",
    b"pump",
    b"write",
    b"deliver",
    b"forget",
    b"set",
    b"clear",
    b"if",
    b"ats",
    b"pri",
    b"mastering",
    b"gone",
    b"resume",
    b"expire",
    b"barrier",
    b"pass",
];

/// The word that opens a block.
const IF: [&[u8]; 1] = [b"if"];

/// Whether it is one of these words.
fn is_among(words: &[&[u8]], word: &[u8]) -> bool
    ensures { result ≡ list_any (λ act. bytes_eq word.now act.now) words.now }
{
    words.iter().any(|act| is(word, act))
}

/// Whether a word begins an act.
fn is_act(word: &[u8]) -> bool
    ensures { result ≡ is_act word.now }
{
    is_among(&ACTS, word)
}

/// Whether no answer is expected.
fn judge_answer(words: &[&[u8]]) -> Result<(), DriverWrong>
    ensures { result ≡ readings.unanswered (parts_of (map (λ word. word.now) words.now)) }
{
    let parts = parts_of(words);
    if parts.expected.is_some() {
        return Err(wrong_at(parts.step_at + count_of(parts.step), DriverWanted::NoAnswer));
    }
    Ok(())
}

/// What is wrong with words that begin at a place of their line.
fn place_stop(start: usize, why: DriverStop) -> DriverStop
    ensures { (read : Result SayingSaid DriverWrong) → Fails read why → Fails (placed start read) result }
{
    match why {
        DriverStop::Wrong(found) => match start.checked_add(found.at) {
            Some(at) => DriverStop::Wrong(wrong_at(at, found.wanted)),
            None => DriverStop::Memory,
        },
        DriverStop::Memory => DriverStop::Memory,
    }
}

/// What the words of an act say, with the lines above.
fn read_act(
    alloc: Global,
    config: &Config,
    reading: &Reading,
    thread: &[u8],
    words: &[&[u8]],
) -> Result<Saying, DriverStop>
    ensures { Gives saying_seen (readings.act_said config.now reading.now
        (parts_of (map (λ word. word.now) words.now)) thread.now) result }
{
    let parts = parts_of(words);
    match reading.judge_name(parts.name) {
        Ok(()) => {}
        Err(wrong) => return Err(DriverStop::Wrong(wrong)),
    }
    match judge_answer(words) {
        Ok(()) => {}
        Err(wrong) => return Err(DriverStop::Wrong(wrong)),
    }
    match reading.saying_in(alloc, config, thread, parts.step) {
        Ok(saying) => Ok(saying),
        Err(why) => Err(place_stop(parts.step_at, why)),
    }
}

/// Takes the line of an act.
fn take_act(
    alloc: Global,
    config: &Config,
    reading: &mut Reading,
    number: u64,
    words: &[&[u8]],
) -> Result<(), DriverStop>
    ensures { Takes (readings.act_line config.now reading.old number (parts_of (map (λ word. word.now) words.now))
        (readings.thread_of reading.old (parts_of (map (λ word. word.now) words.now)).step))
        reading.old reading.new result }
{
    let parts = parts_of(words);
    let thread = match reading.thread_of(alloc, parts.step) {
        Ok(thread) => thread,
        Err(_) => return Err(DriverStop::Memory),
    };
    match read_act(alloc, config, reading, thread.as_slice(), words) {
        Ok(saying) => match reading.add(alloc, number, parts.name, thread, parts.step, saying) {
            Ok(()) => Ok(()),
            Err(_) => Err(DriverStop::Memory),
        },
        Err(why) => Err(why),
    }
}

/// Takes a line of endpoints that share a unit.
fn take_units(
    alloc: Global,
    config: &Config,
    reading: &mut Reading,
    words: &[&[u8]],
) -> Result<(), DriverStop>
    ensures { Takes (readings.unit_line config.now reading.old (map (λ word. word.now) words.now))
        reading.old reading.new result }
{
    match reading.units_in(alloc, config, words) {
        Ok(units) => match reading.set_units(alloc, units, word_at(words, 0)) {
            Ok(()) => Ok(()),
            Err(_) => Err(DriverStop::Memory),
        },
        Err(why) => Err(why),
    }
}

/// Takes a setting: before the first act, and but for units once; a platform before each other setting.
fn take_setting(
    alloc: Global,
    config: &Config,
    reading: &mut Reading,
    words: &[&[u8]],
) -> Result<(), DriverStop>
    ensures { Takes (readings.set_line config.now reading.old (map (λ word. word.now) words.now))
        reading.old reading.new result }
{
    if reading.has_lines() {
        return Err(DriverStop::Wrong(wrong_at(0, DriverWanted::Earlier)));
    }
    if says(words, 0, b"unit") {
        return take_units(alloc, config, reading, words);
    }
    if reading.is_set(word_at(words, 0)) {
        return Err(DriverStop::Wrong(wrong_at(0, DriverWanted::OneLine)));
    }
    if says(words, 0, b"platform") && reading.has_settings() {
        return Err(DriverStop::Wrong(wrong_at(0, DriverWanted::Ahead)));
    }
    let settings = reading.setting_in(words).map_err(DriverStop::Wrong)?;
    match reading.set_settings(alloc, settings, word_at(words, 0)) {
        Ok(()) => Ok(()),
        Err(_) => Err(DriverStop::Memory),
    }
}

/// Takes a line of workers.
fn take_workers(reading: &mut Reading, words: &[&[u8]]) -> Result<(), DriverStop>
    ensures { Takes (readings.workers_line reading.old (map (λ word. word.now) words.now))
        reading.old reading.new result }
{
    if reading.has_workers() {
        return Err(DriverStop::Wrong(wrong_at(0, DriverWanted::OneLine)));
    }
    let workers = workers_of(words).map_err(DriverStop::Wrong)?;
    reading.set_workers(workers);
    Ok(())
}

/// What an endpoint is told by the parts behind it.
fn read_parts(alloc: Global, words: &[&[u8]]) -> Result<DeviceRead, DriverStop>
    ensures { Gives device_seen (readings.told_by_parts (map (λ word. word.now) words.now)) result }
{
    let mut told = untold();
    told.is_told = true;
    match add_parts(alloc, &mut told, words, 2) {
        Ok(()) => Ok(told),
        Err(why) => Err(why),
    }
}

/// Takes a line of an endpoint.
fn take_device(
    alloc: Global,
    config: &Config,
    reading: &mut Reading,
    words: &[&[u8]],
) -> Result<(), DriverStop>
    ensures { Takes (readings.device_line config.now reading.old (map (λ word. word.now) words.now))
        reading.old reading.new result }
{
    let endpoint = endpoint_at(config, words, 1).map_err(DriverStop::Wrong)?;
    if reading.is_told(endpoint) {
        return Err(DriverStop::Wrong(wrong_at(1, DriverWanted::OneLine)));
    }
    if !has_word(words, 2) {
        return Err(DriverStop::Wrong(wrong_at(2, DriverWanted::Part)));
    }
    match read_parts(alloc, words) {
        Ok(told) => {
            reading.set_device(endpoint, told);
            Ok(())
        }
        Err(why) => Err(why),
    }
}

/// Takes `race`.
fn take_race(reading: &mut Reading, words: &[&[u8]]) -> Result<(), DriverStop>
    ensures { Takes (readings.race_line reading.old (map (λ word. word.now) words.now))
        reading.old reading.new result }
{
    if reading.is_race {
        return Err(DriverStop::Wrong(wrong_at(0, DriverWanted::NoRace)));
    }
    judge_end(words, 1).map_err(DriverStop::Wrong)?;
    reading.set_race();
    Ok(())
}

/// Takes a heading: `thread NAME`.
fn take_heading(alloc: Global, reading: &mut Reading, words: &[&[u8]]) -> Result<(), DriverStop>
    ensures { Takes (readings.heading_line reading.old (map (λ word. word.now) words.now))
        reading.old reading.new result }
{
    let name = word_at(words, 1);
    if !is_title(name) {
        return Err(DriverStop::Wrong(written_at(1, WrittenWanted::Name)));
    }
    judge_end(words, 2).map_err(DriverStop::Wrong)?;
    match reading.head(alloc, name) {
        Ok(()) => Ok(()),
        Err(_) => Err(DriverStop::Memory),
    }
}

/// Takes `else`, or `end` alone: they are of the thread of which an `if` is there.
fn take_branch(alloc: Global, reading: &mut Reading, words: &[&[u8]]) -> Result<(), DriverStop>
    ensures { Takes (readings.branch_line reading.old (map (λ word. word.now) words.now))
        reading.old reading.new result }
{
    let alone = judge_end(words, 1);
    alone.map_err(DriverStop::Wrong)?;
    let thread = match reading.thread_of(alloc, &IF) {
        Ok(thread) => thread,
        Err(_) => return Err(DriverStop::Memory),
    };
    reading.branch(thread.as_slice(), word_at(words, 0))
}

/// Whether a word begins a line of a block that is no act.
fn begins_branch(word: &[u8]) -> bool
    ensures { result ≡ readings.begins_branch word.now }
{
    is(word, b"else") || is(word, b"end")
}

/// Takes a line that is no act.
fn take_other(
    alloc: Global,
    config: &Config,
    reading: &mut Reading,
    words: &[&[u8]],
) -> Result<(), DriverStop>
    ensures { Takes (readings.other_line config.now reading.old (map (λ word. word.now) words.now))
        reading.old reading.new result }
{
    if begins_branch(word_at(words, 0)) {
        return take_branch(alloc, reading, words);
    }
    if says(words, 0, b"workers") {
        return take_workers(reading, words);
    }
    if says(words, 0, b"device") {
        return take_device(alloc, config, reading, words);
    }
    if says(words, 0, b"race") {
        return take_race(reading, words);
    }
    if reading.is_race {
        if says(words, 0, b"thread") {
            return take_heading(alloc, reading, words);
        }
        return Err(DriverStop::Wrong(wrong_at(0, DriverWanted::Behind)));
    }
    if is_setting(word_at(words, 0)) {
        return take_setting(alloc, config, reading, words);
    }
    Err(DriverStop::Wrong(wrong_at(0, DriverWanted::Before)))
}

/// Whether a word begins a line that is no act.
fn begins_other(word: &[u8]) -> bool
    ensures { result ≡ readings.begins_other word.now }
{
    is_setting(word)
        || is(word, b"workers")
        || is(word, b"device")
        || is(word, b"race")
        || is(word, b"thread")
        || begins_branch(word)
}

/// Whether a word that begins no line stands behind a name.
fn is_misspelt(words: &[&[u8]]) -> bool
    ensures { result ≡ readings.is_misspelt (parts_of (map (λ word. word.now) words.now)) }
{
    let parts = parts_of(words);
    parts.name.is_some() && !begins_other(word_at(parts.step, 0))
}

/// Whether a line is `end` alone.
fn is_end(words: &[&[u8]]) -> bool
    ensures { result ≡ readings.is_end (parts_of (map (λ word. word.now) words.now)) }
{
    let parts = parts_of(words);
    says(parts.step, 0, b"end") && !has_word(parts.step, 1) && parts.expected.is_none()
}

/// Whether a line is one of an act.
fn is_of_act(words: &[&[u8]]) -> bool
    ensures { result ≡ readings.is_of_act (parts_of (map (λ word. word.now) words.now)) }
{
    let parts = parts_of(words);
    is_act(word_at(parts.step, 0)) && !is_end(words)
}

/// Takes a line.
fn take_line(
    alloc: Global,
    config: &Config,
    reading: &mut Reading,
    number: u64,
    words: &[&[u8]],
) -> Result<(), DriverStop>
    ensures { Takes (readings.line_by config.now reading.old number (map (λ word. word.now) words.now)
        (parts_of (map (λ word. word.now) words.now))) reading.old reading.new result }
{
    if is_of_act(words) {
        return take_act(alloc, config, reading, number, words);
    }
    if is_misspelt(words) {
        let parts = parts_of(words);
        return Err(DriverStop::Wrong(wrong_at(parts.step_at, DriverWanted::Act)));
    }
    if name_in(words).is_some() {
        return Err(DriverStop::Wrong(wrong_at(0, DriverWanted::Race(RaceWanted::NoName))));
    }
    take_other(alloc, config, reading, words)
}

/// Reads the words of a line, if it says something.
fn read_words(
    alloc: Global,
    config: &Config,
    names: &Names,
    reading: &mut Reading,
    number: u64,
    words: &[&[u8]],
) -> Result<(), AllocError>
    ensures { IfOk result (λ _. reading.new
        ≡ readings.behind_words config.now names.now reading.old number (map (λ word. word.now) words.now)) }
{
    if words.is_empty() {
        return Ok(());
    }
    match take_line(alloc, config, reading, number, words) {
        Ok(()) => Ok(()),
        Err(DriverStop::Wrong(wrong)) => {
            reading.note_wrong_block(alloc, number, words)?;
            reading.tell(&wrong, number, words, names)
        }
        Err(DriverStop::Memory) => Err(AllocError),
    }
}

/// Reads a line.
fn read_line(
    alloc: Global,
    config: &Config,
    names: &Names,
    line: &WordedLine<'_>,
    reading: &mut Reading,
) -> Result<(), AllocError>
    ensures { IfOk result (λ _. reading.new ≡ readings.behind_words config.now names.now reading.old
        (worded_seen line.now).0 (worded_seen line.now).1) }
{
    read_words(
        alloc,
        config,
        names,
        reading,
        line.number,
        line.words.as_slice(),
    )
}

/// Reads the lines behind the config, one after another.
fn read_each(
    alloc: Global,
    config: &Config,
    names: &Names,
    lines: &[WordedLine<'_>],
    reading: &mut Reading,
) -> Result<(), AllocError>
    ensures { IfOk result (λ _. reading.new
        ≡ readings.behind_lines config.now names.now reading.old (lines_seen lines.now)) }
{
    for line in lines {
        read_line(alloc, config, names, line, reading)?;
    }
    Ok(())
}

/// Reads the lines behind the config. Behind the last of them each block is told that is open.
pub fn read_lines(
    alloc: Global,
    config: &Config,
    names: &Names,
    lines: &[WordedLine<'_>],
    reading: &mut Reading,
) -> Result<(), AllocError>
    ensures { IfOk result (λ _. reading.new
        ≡ readings.behind_all config.now names.now reading.old (lines_seen lines.now)) }
{
    read_each(alloc, config, names, lines, reading)?;
    reading.tell_open(names)
}
