//! What an atom may come true of: frames that there are, and refusals that a step may be answered.

ghost use Rattle.std.specs.Prelude.{◌≡◌, ◌+◌, ◌<◌, ◌==◌, ◌^◌, Some, find, length, map};
ghost use Rattle.std.specs.List.{list_any};
ghost use Rattle.sva_grammar.specs.Grammar.{number};
ghost use Rattle.sva_script.specs.Expect.{is_wanted};
ghost use Rattle.sva_script.specs.Names.{name_and_nth};
ghost use Rattle.sva_step.specs.Refusals.{number_of};
ghost use Rattle.sva_race_texts.specs.Possible as possible;
ghost use Rattle.sva_race_texts.specs.Seen.{has_name, line_seen};

use crate::faults::{RaceWanted, RaceWrong, wrong_at};
use crate::terms::Line;
use crate::words::word_at;
use sva_grammar::{Cause, number_in};
use sva_script::{is, name_and_nth};
use sva_step::Refusal;

/// Whether a line has the name.
pub(crate) fn has_name(line: &Line, name: &[u8]) -> bool
    ensures { result ≡ has_name name.now (line_seen line.now) }
{
    match &line.name {
        Some(own) => is(name, own.as_slice()),
        None => false,
    }
}

/// Whether a text begins with another.
fn begins(text: &[u8], with: &[u8]) -> bool
    ensures { result ≡ possible.begins text.now with.now }
{
    with.len() <= text.len() && is(&text[..with.len()], with)
}

/// Whether it is the text of a step that is answered frames.
fn gives_frames(text: &[u8]) -> bool
    ensures { result ≡ possible.gives_frames text.now }
{
    begins(text, b"map ") || begins(text, b"use ") || begins(text, b"unmap ")
}

/// Whether it is the line of the name, and is answered no frames.
fn is_frameless(line: &Line, name: &[u8]) -> bool
    ensures { result ≡ possible.is_frameless name.now (line_seen line.now) }
{
    has_name(line, name) && !gives_frames(line.text.as_slice())
}

/// Whether one of the lines is that of the name, and is answered no frames.
fn is_one_frameless(lines: &[Line], name: &[u8]) -> bool
    ensures { result ≡ list_any (λ line. possible.is_frameless name.now (line_seen line)) lines.now }
{
    lines.iter().any(|line| is_frameless(line, name))
}

/// The same of what lines say.
fn is_frameless_in(lines: &[Line], name: &[u8]) -> bool
    ensures { result ≡ list_any (possible.is_frameless name.now) (map line_seen lines.now) }
{
    let found = is_one_frameless(lines, name);
    found
}

/// Whether a word is the name of a line that is answered no frames.
fn is_named_wrong(lines: &[Line], word: &[u8]) -> bool
    ensures { result ≡ possible.is_named_wrong (map line_seen lines.now) (name_and_nth word.now) }
{
    match name_and_nth(word) {
        None => false,
        Some((name, _)) => is_frameless_in(lines, name),
    }
}

/// Whether a word stands for no frame of so many.
fn is_no_frame(frames: u64, lines: &[Line], word: &[u8]) -> bool
    ensures { result ≡ possible.is_no_frame frames (map line_seen lines.now) word.now (number word.now) }
{
    match number_in(word) {
        Ok(frame) => frames <= frame,
        Err(_) => is_named_wrong(lines, word),
    }
}

/// Whether a word, which stands at `at`, may stand for one of so many frames.
pub(crate) fn judge_frame(
    frames: u64,
    lines: &[Line],
    at: usize,
    word: &[u8],
) -> Result<(), RaceWrong>
    ensures { result ≡ possible.frame_judged frames (map line_seen lines.now) at word.now }
{
    if is_no_frame(frames, lines, word) {
        return Err(wrong_at(at, RaceWanted::Frame));
    }
    Ok(())
}

/// All refusals.
const REFUSALS: [Refusal; 43] = [
    Refusal::BadConfig,
    Refusal::NoSuchEndpoint,
    Refusal::NoSuchSpace,
    Refusal::TooManySpaces,
    Refusal::PageRange,
    Refusal::Mapped,
    Refusal::NotMapped,
    Refusal::NoFrame,
    Refusal::SpaceFull,
    Refusal::AlreadyBound,
    Refusal::NoPasid,
    Refusal::StillBound,
    Refusal::NoSuchBinding,
    Refusal::NotLive,
    Refusal::NotYet,
    Refusal::QueueFull,
    Refusal::Resetting,
    Refusal::NotStarted,
    Refusal::NoTag,
    Refusal::NotHeld,
    Refusal::ReadOnly,
    Refusal::NoUseSlot,
    Refusal::NoSuchUse,
    Refusal::NoCredit,
    Refusal::NoSuchGroup,
    Refusal::PriDisabled,
    Refusal::NotPending,
    Refusal::InUse,
    Refusal::BadCount,
    Refusal::NotStopping,
    Refusal::Busy,
    Refusal::NoSuchMessage,
    Refusal::Overtakes,
    Refusal::NoSuchWorker,
    Refusal::HandsFull,
    Refusal::NoJob,
    Refusal::BadVerdict,
    Refusal::NumbersSpent,
    Refusal::OutOfMemory,
    Refusal::BadOrder,
    Refusal::NotAligned,
    Refusal::NothingMapped,
    Refusal::BadPasid,
];

/// The number of a refusal.
fn number_of(refusal: Refusal) -> u64
    ensures { result ≡ number_of refusal }
{
    u64::from(refusal.number())
}

/// The one of some refusals that has the number.
fn refusal_among(refusals: &[Refusal], number: u64) -> Option<Refusal>
    ensures { result ≡ find (λ refusal. number_of refusal == number) refusals.now }
{
    refusals
        .iter()
        .find(|refusal| number_of(**refusal) == number)
        .copied()
}

/// The refusal of a number.
fn refusal_of(number: u64) -> Option<Refusal>
    ensures { result ≡ possible.refusal_of number }
{
    refusal_among(&REFUSALS, number)
}

/// Each refusal is found by its number, so no claim is wrong that tells one as it is answered.
pub fn refusals_are_found()
    ensures { (refusal : Refusal) → possible.refusal_of (number_of refusal) ≡ Some refusal }
{}

/// Whether a name is as it is wanted; `_` is any.
fn is_wanted(name: &[u8], own: &[u8]) -> bool
    ensures { result ≡ is_wanted name.now own.now }
{
    is(name, b"_") || is(name, own)
}

/// Whether a number, which stands at `at`, is that of a refusal, and the word behind it its name.
fn judge_number(at: usize, name: &[u8], read: Result<u64, Cause>) -> Result<(), RaceWrong>
    requires { at + 1 < 2 ^ 64 }
    ensures { result ≡ possible.number_judged at name.now read }
{
    let Ok(number) = read else {
        return Err(wrong_at(at, RaceWanted::RefusalNumber));
    };
    let Some(refusal) = refusal_of(number) else {
        return Err(wrong_at(at, RaceWanted::RefusalNumber));
    };
    if is_wanted(name, refusal.name().as_bytes()) {
        return Ok(());
    }
    Err(wrong_at(at + 1, RaceWanted::RefusalName(refusal)))
}

/// Whether the words behind `refused`, which begin at `at`, are a refusal's number and its name.
fn judge_pair(words: &[&[u8]], at: usize) -> Result<(), RaceWrong>
    requires { at + length words.now < 2 ^ 64 }
    ensures { result ≡ possible.pair_judged at (map (λ word. word.now) words.now) }
{
    match words {
        [] => Err(wrong_at(at, RaceWanted::RefusalNumber)),
        [word, rest @ ..] => {
            if is(word, b"_") {
                return Ok(());
            }
            judge_number(at, word_at(rest, 0), number_in(word))
        }
    }
}

/// Whether an answer, whose words begin at `at`, is of no refusal, or of one that there is.
pub(crate) fn judge_refusal(words: &[&[u8]], at: usize) -> Result<(), RaceWrong>
    requires { at + length words.now < 2 ^ 64 }
    ensures { result ≡ possible.refusal_judged at (map (λ word. word.now) words.now) }
{
    match words {
        [] => Ok(()),
        [word, rest @ ..] => {
            if is(word, b"refused") {
                return judge_pair(rest, at + 1);
            }
            Ok(())
        }
    }
}
