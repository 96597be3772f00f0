//! Expected answers: their words, and whether an answer is as expected.

ghost use Rattle.std.specs.Prelude.{◌≡◌, ◌+◌, ◌<◌, ◌^◌, length, map};
ghost use Rattle.sva_grammar.specs.Grammar.{words_of};
ghost use Rattle.sva_script.specs.Expect.{are_as_expected, expected_of, is_said, is_wanted, named_behind, place_after, place_behind, said_word};
ghost use Rattle.sva_script.specs.Pieces.{PutsRead, spaced};

use crate::equal::is;
use crate::faults::{Stop, Wanted, Wrong, at_word};
use crate::names::{Names, begins_name};
use crate::placed_words::named_in;
use crate::places::Field;
use crate::reserved::{is_answer_word, is_refusal};
use crate::splitting::first_part;
use crate::texts::{put, put_number};
use sva_grammar::number_in;

/// Appends the words of an expected answer, a space before each, and each name as the number that it stands for there. `_`
/// stays: it is any word. What `out` has behind an `Err` isn't said.
pub fn expect(names: &Names, words: &[&[u8]], at: usize, out: &mut Vec<u8>) -> Result<(), Stop>
    requires { at + length words.now < 2 ^ 64 }
    ensures { PutsRead (expected_of at names.now (map (λ word. word.now) words.now)) out.old.items out.new.items result }
{
    if words.is_empty() {
        return Err(Stop::Wrong(at_word(at, Wanted::Answer)));
    }
    let mut place = None;
    for index in 0..words.len() {
        match put_said(names, place, words[index], at + index, out) {
            Ok(()) => {}
            Err(stop) => return Err(stop),
        }
        place = place_after(place, words[index]);
    }
    Ok(())
}

/// What a number behind this word is. Of frames there may be several, of all else one.
fn place_after(place: Option<Field>, word: &[u8]) -> Option<Field>
    ensures { result ≡ place_after place word.now }
{
    if is_answer_word(word) {
        place_behind(word)
    } else {
        match place {
            Some(Field::Frame) => place,
            _ => None,
        }
    }
}

/// Appends a space, and a word of an expected answer.
fn put_said(
    names: &Names,
    place: Option<Field>,
    word: &[u8],
    at: usize,
    out: &mut Vec<u8>,
) -> Result<(), Stop>
    ensures { PutsRead (spaced (said_word at names.now place word.now)) out.old.items out.new.items result }
{
    match put(out, b" ") {
        Ok(()) => put_said_word(names, place, word, at, out),
        Err(stop) => Err(stop),
    }
}

/// Appends a word of an expected answer, a name as the number that it stands for.
fn put_said_word(
    names: &Names,
    place: Option<Field>,
    word: &[u8],
    at: usize,
    out: &mut Vec<u8>,
) -> Result<(), Stop>
    ensures { PutsRead (said_word at names.now place word.now) out.old.items out.new.items result }
{
    if is_said(word) {
        return put(out, word);
    }
    match named_behind(names, place, word, at) {
        Ok(number) => put_number(out, number),
        Err(wrong) => Err(Stop::Wrong(wrong)),
    }
}

/// Is the word said as it stands: of an answer, `_`, a number, or the name of a refusal?
fn is_said(word: &[u8]) -> bool
    ensures { result ≡ is_said word.now }
{
    is_answer_word(word) || is(word, b"_") || number_in(word).is_ok() || is_refusal(word)
}

/// The number that a name stands for in an answer.
fn named_behind(names: &Names, place: Option<Field>, word: &[u8], at: usize) -> Result<u64, Wrong>
    ensures { result ≡ named_behind at names.now place word.now }
{
    match place {
        None => Err(at_word(at, Wanted::AnswerWord)),
        Some(place) => {
            if begins_name(word) {
                named_in(names, place, word, at)
            } else {
                Err(at_word(at, Wanted::AnswerWord))
            }
        }
    }
}

/// What a number behind a word of an answer is.
#[tactic(auto, unfolding(crate::specs::Expect::place_behind))]
fn place_behind(word: &[u8]) -> Option<Field>
    ensures { result ≡ place_behind word.now }
{
    if is(word, b"space") {
        return Some(Field::Space);
    }
    if is(word, b"bearer") {
        return Some(Field::Space);
    }
    if is(word, b"frame") {
        return Some(Field::Frame);
    }
    if is(word, b"free") {
        return Some(Field::Frame);
    }
    if is(word, b"withheld") {
        return Some(Field::Frame);
    }
    if is(word, b"binding") {
        return Some(Field::Binding);
    }
    if is(word, b"pasid") {
        return Some(Field::Pasid);
    }
    if is(word, b"itag") {
        return Some(Field::Itag);
    }
    if is(word, b"tag") {
        return Some(Field::Tag);
    }
    if is(word, b"use") {
        return Some(Field::Slot);
    }
    if is(word, b"group") {
        return Some(Field::Group);
    }
    None
}

/// Is an answer as expected: the same words, where `_` is any one?
pub fn is_as_expected(expected: &[u8], answer: &[u8]) -> bool
    ensures { result ≡ are_as_expected (words_of expected.now) (words_of answer.now) }
{
    let mut expected = expected;
    let mut answer = answer;
    while let Some((wanted, more)) = first_part(expected, b' ') {
        let Some((word, rest)) = first_part(answer, b' ') else {
            return false;
        };
        if !is_wanted(wanted, word) {
            return false;
        }
        expected = more;
        answer = rest;
    }
    first_part(answer, b' ').is_none() && is_wanted(expected, answer)
}

/// Is a word as it is wanted?
fn is_wanted(wanted: &[u8], word: &[u8]) -> bool
    ensures { result ≡ is_wanted wanted.now word.now }
{
    is(wanted, b"_") || is(wanted, word)
}
