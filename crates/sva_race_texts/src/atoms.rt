//! The atoms of a condition.

ghost use Rattle.std.specs.Prelude.{◌≡◌, ◌+◌, ◌<◌, ◌≤◌, ◌^◌, IfOk, length, map, position};
ghost use Rattle.sva_grammar.specs.Grammar.{number};
ghost use Rattle.sva_script.specs.Expect.{expected_of};
ghost use Rattle.sva_script_reading.specs.Begins.{joined_words};
ghost use Rattle.sva_race_texts.specs.Conditions.{answer_judged, atom_of, done_of, endpoint_if, endpoint_place};
ghost use Rattle.sva_race_texts.specs.Conditions.{is_not, is_of, judged, literal_of, look_at, nots, place_of};
ghost use Rattle.sva_race_texts.specs.Conditions.{times_by, times_of};
ghost use Rattle.sva_race_texts.specs.Conditions.{usable_of, would_of};
ghost use Rattle.sva_race_texts.specs.Seen.{atom_seen, has_name, line_seen, literal_seen};
ghost use Rattle.sva_race_texts.specs.Seen.AtomSaid.{WouldSaid};
ghost use Rattle.sva_race_texts.specs.TakingWords.{Gives, Judges};

use crate::faults::{RaceStop, RaceWanted, RaceWrong, stop_at, wrong_at};
use crate::possible::{has_name, judge_frame, judge_refusal};
use crate::steps::{endpoint_in, is_step, judge_step};
use crate::terms::{Atom, Line, Literal};
use crate::words::{count_of, joined, judge_end, word_at, words_from};
use std::alloc::{AllocError, Global};
use sva_grammar::number_in;
use sva_script::{Names, Stop, expect, is, parts_of};
use sva_script_reading::Desk;
use sva_step::Config;

/// The place of the first line that has the name.
fn line_of(lines: &[Line], name: &[u8]) -> Option<usize>
    ensures { result ≡ position (λ line. has_name name.now (line_seen line)) lines.now }
{
    lines.iter().position(|line| has_name(line, name))
}

/// The place of the line of a name; 0 where none has it.
fn place_of(lines: &[Line], name: &[u8]) -> usize
    ensures { result ≡ place_of (map line_seen lines.now) name.now }
{
    match line_of(lines, name) {
        Some(place) => place,
        None => 0,
    }
}

/// An atom `done NAME`, whose words begin at `at`.
fn read_done(names: &Names, lines: &[Line], words: &[&[u8]], at: usize) -> Result<Atom, RaceStop>
    requires { at + length words.now + 3 < 2 ^ 64 }
    ensures { Gives atom_seen (done_of names.now (map line_seen lines.now) at
        (map (λ word. word.now) words.now)) result }
{
    let name = word_at(words, 1);
    if names.get(name).is_none() {
        return Err(stop_at(at + 1, RaceWanted::LineName));
    }
    judge_end(words, at, 2).map_err(RaceStop::Wrong)?;
    Ok(Atom::Done {
        line: place_of(lines, name),
    })
}

/// The first word of the step that looks at a frame.
const LOOK: &[u8] = b"look";

/// The words of the step that looks at a frame.
fn look_at<'a>(alloc: Global, frame: &'a [u8]) -> Result<Vec<&'a [u8]>, AllocError>
    ensures { IfOk result (λ words. map (λ word. word.now) words.items ≡ look_at frame.now) }
{
    let mut words = Vec::new(alloc);
    words.push(LOOK)?;
    words.push(frame)?;
    Ok(words)
}

/// Which of its words is the endpoint of an atom `usable F E` or `usable F at E`: the one behind `at`, if that stands
/// behind F.
fn endpoint_place(words: &[&[u8]]) -> usize
    ensures place { result ≡ endpoint_place (map (λ word. word.now) words.now) }
    ensures bounds { 2 ≤ result × result ≤ 3 }
{
    if is(word_at(words, 2), b"at") { 3 } else { 2 }
}

/// The endpoint of an atom `usable F E` or `usable F at E`, whose words begin at `at`; none where F is the last word.
fn endpoint_if(endpoints: u64, words: &[&[u8]], at: usize) -> Result<Option<u64>, RaceWrong>
    requires { at + length words.now + 3 < 2 ^ 64 }
    ensures { result ≡ endpoint_if endpoints at (map (λ word. word.now) words.now) }
{
    if 2 < count_of(words) {
        let place = endpoint_place(words);
        match endpoint_in(endpoints, at + place, word_at(words, place)) {
            Ok(endpoint) => Ok(Some(endpoint)),
            Err(wrong) => Err(wrong),
        }
    } else {
        Ok(None)
    }
}

/// An atom `usable F`, `usable F E` or `usable F at E`, whose words begin at `at`.
fn read_usable(
    alloc: Global,
    config: Config,
    names: &Names,
    lines: &[Line],
    words: &[&[u8]],
    at: usize,
) -> Result<Atom, RaceStop>
    requires { at + length words.now + 3 < 2 ^ 64 }
    ensures { Gives atom_seen (usable_of config names.now (map line_seen lines.now) at
        (map (λ word. word.now) words.now)) result }
{
    let look = match look_at(alloc, word_at(words, 1)) {
        Ok(look) => look,
        Err(_) => return Err(RaceStop::Memory),
    };
    let mut desk = Desk::new(alloc);
    judge_step(names, look.as_slice(), at, &mut desk)?;
    judge_frame(config.frames, lines, at + 1, word_at(words, 1)).map_err(RaceStop::Wrong)?;
    let endpoint = endpoint_if(config.endpoints, words, at).map_err(RaceStop::Wrong)?;
    judge_end(words, at, endpoint_place(words) + 1).map_err(RaceStop::Wrong)?;
    match joined(alloc, look.as_slice()) {
        Ok(look) => Ok(Atom::Usable { endpoint, look }),
        Err(_) => Err(RaceStop::Memory),
    }
}

/// Whether the words of an expected answer, which begin at `at`, are right by themselves.
fn judge_words(alloc: Global, names: &Names, words: &[&[u8]], at: usize) -> Result<(), RaceStop>
    requires { at + length words.now < 2 ^ 64 }
    ensures { Judges (judged (expected_of at names.now (map (λ word. word.now) words.now))) result }
{
    let mut text = Vec::new(alloc);
    match expect(names, words, at, &mut text) {
        Ok(()) => Ok(()),
        Err(Stop::Wrong(found)) => Err(stop_at(found.at, RaceWanted::Script(found.wanted))),
        Err(Stop::Memory) => Err(RaceStop::Memory),
    }
}

/// Whether an answer, whose words begin at `at`, is one that there is.
fn judge_answer(alloc: Global, names: &Names, words: &[&[u8]], at: usize) -> Result<(), RaceStop>
    requires { at + length words.now < 2 ^ 64 }
    ensures { Judges (answer_judged at names.now (map (λ word. word.now) words.now)) result }
{
    judge_words(alloc, names, words, at)?;
    judge_refusal(words, at).map_err(RaceStop::Wrong)?;
    Ok(())
}

/// An atom `NAME is ANSWER`, whose words begin at `at`.
fn read_answered(
    alloc: Global,
    names: &Names,
    lines: &[Line],
    words: &[&[u8]],
    at: usize,
) -> Result<Atom, RaceStop>
    requires { at + length words.now + 3 < 2 ^ 64 }
    ensures { Gives atom_seen (is_of names.now (map line_seen lines.now) at (map (λ word. word.now) words.now)) result }
{
    if !is(word_at(words, 1), b"is") {
        return Err(stop_at(at + 1, RaceWanted::Is));
    }
    let answer = words_from(words, 2);
    judge_answer(alloc, names, answer, at + 2)?;
    match joined(alloc, answer) {
        Ok(answer) => Ok(Atom::Is {
            line: place_of(lines, word_at(words, 0)),
            answer,
        }),
        Err(_) => Err(RaceStop::Memory),
    }
}

/// How often, by the word at `at`.
fn times_in(at: usize, word: &[u8]) -> Result<u64, RaceWrong>
    ensures { result ≡ times_by at (number word.now) }
{
    match number_in(word) {
        Ok(times) => Ok(times),
        Err(_) => Err(wrong_at(at, RaceWanted::Amount)),
    }
}

/// An atom `times N ANSWER`, whose words begin at `at`.
fn read_times(alloc: Global, names: &Names, words: &[&[u8]], at: usize) -> Result<Atom, RaceStop>
    requires { at + length words.now + 3 < 2 ^ 64 }
    ensures { Gives atom_seen (times_of names.now at (map (λ word. word.now) words.now)) result }
{
    let times = times_in(at + 1, word_at(words, 1)).map_err(RaceStop::Wrong)?;
    let answer = words_from(words, 2);
    judge_answer(alloc, names, answer, at + 2)?;
    match joined(alloc, answer) {
        Ok(answer) => Ok(Atom::Times { times, answer }),
        Err(_) => Err(RaceStop::Memory),
    }
}

/// What a step, with these words, would be answered, in these words.
fn would(alloc: Global, step: &[&[u8]], answer: &[&[u8]]) -> Result<Atom, AllocError>
    ensures { IfOk result (λ atom. atom_seen atom ≡ WouldSaid (joined_words (map (λ word. word.now) step.now))
        (joined_words (map (λ word. word.now) answer.now))) }
{
    Ok(Atom::Would {
        step: joined(alloc, step)?,
        answer: joined(alloc, answer)?,
    })
}

/// An atom `STEP => ANSWER`, whose words begin at `at`. The step is judged alone: `end =>` is none.
fn read_would(alloc: Global, names: &Names, words: &[&[u8]], at: usize) -> Result<Atom, RaceStop>
    requires { at + length words.now + 3 < 2 ^ 64 }
    ensures { Gives atom_seen (would_of names.now at (map (λ word. word.now) words.now)) result }
{
    let parts = parts_of(words);
    let mut desk = Desk::new(alloc);
    judge_step(names, parts.step, at, &mut desk)?;
    let Some(answer) = parts.expected else {
        return Err(stop_at(at + count_of(words), RaceWanted::Arrow));
    };
    judge_answer(alloc, names, answer, at + parts.expected_at)?;
    match would(alloc, parts.step, answer) {
        Ok(atom) => Ok(atom),
        Err(_) => Err(RaceStop::Memory),
    }
}

/// An atom, whose words begin at `at`.
fn read_atom(
    alloc: Global,
    config: Config,
    names: &Names,
    lines: &[Line],
    words: &[&[u8]],
    at: usize,
) -> Result<Atom, RaceStop>
    requires { at + length words.now + 3 < 2 ^ 64 }
    ensures { Gives atom_seen (atom_of config names.now (map line_seen lines.now) at
        (map (λ word. word.now) words.now)) result }
{
    let first = word_at(words, 0);
    if is(first, b"done") {
        return read_done(names, lines, words, at);
    }
    if is(first, b"usable") {
        return read_usable(alloc, config, names, lines, words, at);
    }
    if is(first, b"times") {
        return read_times(alloc, names, words, at);
    }
    if is_step(first) {
        return read_would(alloc, names, words, at);
    }
    if names.get(first).is_some() {
        return read_answered(alloc, names, lines, words, at);
    }
    Err(stop_at(at, RaceWanted::Atom))
}

/// Whether it is that an atom doesn't hold.
fn is_not(words: &[&[u8]]) -> bool
    ensures { result ≡ is_not (map (λ word. word.now) words.now) }
{
    is(word_at(words, 0), b"not")
}

/// How many words stand before the atom.
fn nots(words: &[&[u8]]) -> usize
    ensures nots { result ≡ nots (map (λ word. word.now) words.now) }
    ensures few { result ≤ 1 }
{
    if is_not(words) { 1 } else { 0 }
}

/// An atom behind `not`, or alone; the words begin at `at`.
pub(crate) fn read_literal(
    alloc: Global,
    config: Config,
    names: &Names,
    lines: &[Line],
    words: &[&[u8]],
    at: usize,
) -> Result<Literal, RaceStop>
    requires { at + length words.now + 4 < 2 ^ 64 }
    ensures { Gives literal_seen (literal_of config names.now (map line_seen lines.now) at
        (map (λ word. word.now) words.now)) result }
{
    let before = nots(words);
    let rest = words_from(words, before);
    let atom = read_atom(alloc, config, names, lines, rest, at + before)?;
    Ok(Literal {
        is_not: is_not(words),
        atom,
    })
}
