//! The words of a line, by their places.

ghost use Rattle.std.specs.Prelude.{◌≡◌, ◌+◌, ◌-◌, ◌∷◌, ◌<◌, ◌≤◌, ◌^◌, [], IfNone, IfOk, IfSome, drop, length, map};
ghost use Rattle.std.specs.Prelude.{position, take};
ghost use Rattle.std.specs.Str.{bytes_eq};
ghost use Rattle.sva_race_texts.specs.Faults.{no_more};
ghost use Rattle.sva_race_texts.specs.Words.{pieces, word_at};
ghost use Rattle.sva_script_reading.specs.Begins.{joined_words};

use crate::faults::{RaceWanted, RaceWrong, word_in, wrong_at};
use std::alloc::{AllocError, Global};
use sva_script::{Wanted, is};
use sva_script_reading::put_words;

/// What stands where a line has no word.
const NO_WORD: &[u8] = b"";

/// The word at a place, or an empty one.
pub fn word_at<'a>(words: &[&'a [u8]], at: usize) -> &'a [u8]
    ensures { result.now ≡ word_at at (map (λ word. word.now) words.now) }
{
    match word_in(words, at) {
        Some(word) => word,
        None => NO_WORD,
    }
}

/// How many words there are.
pub fn count_of(words: &[&[u8]]) -> usize
    ensures said { result ≡ length (map (λ word. word.now) words.now) }
    ensures count { result ≡ length words.now }
{
    words.len()
}

/// The words behind so many.
pub fn words_from<'w, 'a>(words: &'w [&'a [u8]], count: usize) -> &'w [&'a [u8]]
    ensures words { map (λ word. word.now) result.now ≡ drop count (map (λ word. word.now) words.now) }
    ensures count { length result.now ≡ length words.now - count }
{
    let start = count.min(words.len());
    &words[start..]
}

/// Words as one text, a space between two.
pub fn joined(alloc: Global, words: &[&[u8]]) -> Result<Vec<u8>, AllocError>
    ensures { IfOk result (λ text. text.items ≡ joined_words (map (λ word. word.now) words.now)) }
{
    let mut text = Vec::new(alloc);
    put_words(&mut text, words)?;
    Ok(text)
}

/// Whether no word stands behind so many; the words begin at `at`.
pub fn judge_end(words: &[&[u8]], at: usize, count: usize) -> Result<(), RaceWrong>
    requires { at + count < 2 ^ 64 }
    ensures { result ≡ no_more at count (map (λ word. word.now) words.now) }
{
    if count < count_of(words) {
        return Err(wrong_at(at + count, RaceWanted::Script(Wanted::NoMore)));
    }
    Ok(())
}

/// Where the first word is that is this one.
fn place_in(words: &[&[u8]], separator: &[u8]) -> Option<usize>
    ensures at { result ≡ position (λ word. bytes_eq word.now separator.now) words.now }
    ensures within { IfSome result (λ place. place < length words.now) }
{
    words.iter().position(|word| is(word, separator))
}

/// So many words from a place on.
pub fn words_at<'w, 'a>(words: &'w [&'a [u8]], start: usize, count: usize) -> &'w [&'a [u8]]
    requires { start + count ≤ length words.now }
    ensures words { map (λ word. word.now) result.now ≡ take count (drop start (map (λ word. word.now) words.now)) }
    ensures count { length result.now ≡ count }
{
    &words[start..start + count]
}

/// How many words from a place on stand before the first separator there.
pub fn piece_len(words: &[&[u8]], start: usize, separator: &[u8]) -> Option<usize>
    ensures some { IfSome result (λ count. pieces separator.now (drop start (map (λ word. word.now) words.now))
        ≡ take count (drop start (map (λ word. word.now) words.now))
        ∷ pieces separator.now (drop (start + (count + 1)) (map (λ word. word.now) words.now))) }
    ensures within { IfSome result (λ count. start + count < length words.now) }
    ensures none { IfNone result (pieces separator.now (drop start (map (λ word. word.now) words.now))
        ≡ drop start (map (λ word. word.now) words.now) ∷ []) }
{
    match place_in(words_from(words, start), separator) {
        Some(count) => Some(count),
        None => None,
    }
}
