//! The lines behind `race` that are no claims.

ghost use Rattle.std.specs.Prelude.{◌≡◌, ◌≤◌, IfOk, map, option_map};
ghost use Rattle.sva_race_texts.specs.Taking.{Takes};
ghost use Rattle.sva_race_texts.specs.Threads.{device_at, device_line, heading_line, is_try, line_of};
ghost use Rattle.sva_race_texts.specs.Threads.{thread_line, tries, unanswered, verdicts_of, with_verdict, workers_line};
ghost use Rattle.sva_script.specs.Lines.{parts_of};
ghost use Rattle.sva_grammar.specs.Grammar.{verdict};

use crate::devices::read_device;
use crate::faults::{RaceStop, RaceWanted, RaceWrong, stop_at, wrong_at};
use crate::readings::Reading;
use crate::steps::{endpoint_in, judge_name, judge_step};
use crate::terms::Verdicts;
use crate::words::{count_of, judge_end, word_at, words_from};
use std::alloc::{AllocError, Global};
use sva_grammar::verdict_in;
use sva_script::{Field, Names, Wanted, is, is_name, parts_of};
use sva_script_reading::Desk;
use sva_step::Verdict;

/// Whether a step is only tried.
pub(crate) fn is_try(step: &[&[u8]]) -> bool
    ensures { result ≡ is_try (map (λ word. word.now) step.now) }
{
    is(word_at(step, 0), b"try")
}

/// How many words stand before a step.
fn tries(step: &[&[u8]]) -> usize
    ensures tries { result ≡ tries (map (λ word. word.now) step.now) }
    ensures few { result ≤ 1 }
{
    if is_try(step) { 1 } else { 0 }
}

/// Whether no answer is expected.
fn judge_answer(words: &[&[u8]]) -> Result<(), RaceWrong>
    ensures { result ≡ unanswered (parts_of (map (λ word. word.now) words.now)) }
{
    let parts = parts_of(words);
    if parts.expected.is_some() {
        return Err(wrong_at(parts.step_at + count_of(parts.step), RaceWanted::NoAnswer));
    }
    Ok(())
}

/// Takes a line of a thread.
pub(crate) fn take_thread_line(
    alloc: Global,
    names: &Names,
    reading: &mut Reading,
    line: u64,
    words: &[&[u8]],
    desk: &mut Desk<'_>,
) -> Result<(), RaceStop>
    ensures { Takes (thread_line names.now reading.old line (parts_of (map (λ word. word.now) words.now)))
        reading.old reading.new result }
{
    let parts = parts_of(words);
    judge_name(names, line, parts.name).map_err(RaceStop::Wrong)?;
    let before = tries(parts.step);
    let step = words_from(parts.step, before);
    judge_step(names, step, parts.step_at + before, desk)?;
    judge_answer(words).map_err(RaceStop::Wrong)?;
    match add(alloc, reading, line, parts.name, is_try(parts.step), step) {
        Ok(()) => Ok(()),
        Err(_) => Err(RaceStop::Memory),
    }
}

/// Adds a line of a thread.
fn add(
    alloc: Global,
    reading: &mut Reading,
    line: u64,
    name: Option<&[u8]>,
    is_try: bool,
    step: &[&[u8]],
) -> Result<(), AllocError>
    ensures { IfOk result (λ _. reading.new ≡ line_of reading.old line (option_map (λ name. name.now) name.entry) is_try
        (map (λ word. word.now) step.now)) }
{
    let thread = reading.thread_of(alloc, step)?;
    reading.add_line(alloc, line, name, is_try, step, thread)
}

/// Takes a heading: `thread NAME`.
pub(crate) fn take_heading(
    alloc: Global,
    reading: &mut Reading,
    words: &[&[u8]],
) -> Result<(), RaceStop>
    ensures { Takes (heading_line reading.old (map (λ word. word.now) words.now))
        reading.old reading.new result }
{
    let name = word_at(words, 1);
    if !is_name(name) {
        return Err(stop_at(1, RaceWanted::Script(Wanted::Name)));
    }
    judge_end(words, 0, 2).map_err(RaceStop::Wrong)?;
    match reading.head(alloc, name) {
        Ok(()) => Ok(()),
        Err(_) => Err(RaceStop::Memory),
    }
}

/// Verdicts with the one that a word writes.
fn with_verdict(at: usize, verdicts: Verdicts, word: &[u8]) -> Result<Verdicts, RaceWrong>
    ensures { result ≡ with_verdict at verdicts (verdict word.now) }
{
    match verdict_in(word) {
        Ok(Verdict::Success) => Ok(Verdicts {
            success: true,
            ..verdicts
        }),
        Ok(Verdict::Invalid) => Ok(Verdicts {
            invalid: true,
            ..verdicts
        }),
        Ok(Verdict::Failure) => Ok(Verdicts {
            failure: true,
            ..verdicts
        }),
        Err(_) => Err(wrong_at(at, RaceWanted::Script(Wanted::Field(Field::Verdict)))),
    }
}

/// The verdicts of a line of workers.
fn verdicts_of(words: &[&[u8]]) -> Result<Verdicts, RaceWrong>
    ensures { result ≡ verdicts_of (map (λ word. word.now) words.now) }
{
    if count_of(words) < 2 {
        return Err(wrong_at(1, RaceWanted::Script(Wanted::Field(Field::Verdict))));
    }
    let mut verdicts = Verdicts {
        success: false,
        invalid: false,
        failure: false,
    };
    for place in 1..words.len() {
        match with_verdict(place, verdicts, words[place]) {
            Ok(more) => verdicts = more,
            Err(wrong) => return Err(wrong),
        }
    }
    Ok(verdicts)
}

/// Takes a line of workers.
pub(crate) fn take_workers(reading: &mut Reading, words: &[&[u8]]) -> Result<(), RaceStop>
    ensures { Takes (workers_line reading.old (map (λ word. word.now) words.now))
        reading.old reading.new result }
{
    if reading.has_verdicts() {
        return Err(stop_at(0, RaceWanted::OneWorkers));
    }
    let verdicts = verdicts_of(words).map_err(RaceStop::Wrong)?;
    reading.set_verdicts(verdicts);
    Ok(())
}

/// Takes a line of a device.
pub(crate) fn take_device(
    alloc: Global,
    endpoints: u64,
    reading: &mut Reading,
    words: &[&[u8]],
) -> Result<(), RaceStop>
    ensures { Takes (device_line endpoints reading.old (map (λ word. word.now) words.now))
        reading.old reading.new result }
{
    let endpoint = endpoint_in(endpoints, 1, word_at(words, 1)).map_err(RaceStop::Wrong)?;
    take_device_at(alloc, reading, words, endpoint as usize)
}

/// Takes a line of a device behind its endpoint.
fn take_device_at(
    alloc: Global,
    reading: &mut Reading,
    words: &[&[u8]],
    endpoint: usize,
) -> Result<(), RaceStop>
    ensures { Takes (device_at reading.old (map (λ word. word.now) words.now) endpoint)
        reading.old reading.new result }
{
    if reading.has_device(endpoint) {
        return Err(stop_at(1, RaceWanted::NewEndpoint));
    }
    let device = read_device(alloc, words)?;
    reading.set_device(endpoint, device);
    Ok(())
}
