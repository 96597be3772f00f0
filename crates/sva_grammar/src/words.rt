//! The words of a line, and the numbers, vectors and choices that they write.

ghost use Rattle.std.specs.Prelude.{◌≡◌, ◌≢◌, ◌==◌, ◌<◌, ◌≤◌, ◌+◌, ◌*◌, ◌^◌, [], ◌∷◌, length, map, slice_index_or, true, false, IfSome, IfNone};
ghost use Rattle.std.specs.Char.{is_ascii_digit, digit_value};
ghost use Rattle.sva_grammar.specs.Grammar.{access, begins_number, flags, group, is_last, is_skipped, is_vector, is_vector_digit, number, one_number, vector};
ghost use Rattle.sva_grammar.specs.Grammar.{verdict, word, words_of, has_words, has_words_or};
ghost use Rattle.sva_grammar.specs.Places.{ends_word, in_places, line_in, line_len, word_len};
ghost use Rattle.std.specs.Str.{bytes_eq};

use crate::faults::Cause;
use std::marker::Model;
use sva_step::Verdict;

/// How many words of a line have a place: no form has more.
const MOST_PLACES: usize = 7;

/// A line with its words: one space stands between two.
#[derive(Drop)]
pub struct Words<'a> {
    line: &'a [u8],
    /// How many words the line has.
    count: usize,
    /// The first of them. A place for which there is none has the empty word.
    places: [&'a [u8]; MOST_PLACES],
}

impl<'a> Model for Words<'a> {
    ghost use Rattle.std.specs.Prelude.{ℕ, List, ◌≡◌, length, map};

    ghost Value = { List ℕ };

    ghost use Rattle.sva_grammar.specs.Grammar.{words_of};
    ghost use Rattle.sva_grammar.specs.Places.{in_places};

    ghost view = { λ w. w.line.now };

    ghost invariant = { λ w. record {
      counted : w.count ≡ length (words_of w.line.now);
      placed : map (λ word. word.now) w.places ≡ in_places 7 (words_of w.line.now);
    } };
}

impl<'a> Words<'a> {
    ghost use Rattle.sva_grammar.specs.Grammar.{lines_of};

    /// The empty line.
    pub(crate) fn new() -> Self
        ensures { result ≡ [] }
    {
        let line: &'a [u8] = &[];
        Words {
            line,
            count: 1,
            places: [line; MOST_PLACES],
        }
    }

    /// Takes the first line of a text in the place of the line before, and returns how long it is.
    pub(crate) fn take_first(&mut self, text: &'a [u8]) -> usize
        ensures line { self.new ≡ line_in text.now }
        ensures len { result ≡ line_len text.now }
        ensures within { result ≤ length text.now }
    {
        let (count, len) = find_words(text, &mut self.places);
        self.count = count;
        self.line = &text[..len];
        len
    }

    /// Takes the first line of a text in the place of the line before, and returns what follows it.
    pub(crate) fn take_line(&mut self, text: &'a [u8]) -> &'a [u8]
        requires { 0 < length text.now }
        ensures lines { lines_of text.now ≡ self.new ∷ lines_of result.now }
        ensures shorter { length result.now < length text.now }
    {
        let len = self.take_first(text);
        if len == text.len() {
            return &[];
        }
        &text[len + 1..]
    }

    /// Does the line say nothing?
    pub(crate) fn is_skipped(&self) -> bool
        ensures { result ≡ is_skipped self.now }
    {
        match self.line {
            [] => true,
            [first, ..] => *first == b'#',
        }
    }

    /// Has the line so many words?
    pub(crate) fn has(&self, count: usize) -> bool
        ensures { result ≡ (length (words_of self.now) == count) }
    {
        self.count == count
    }

    /// The word at a place, or the empty word where there is none.
    pub(crate) fn word(&self, place: usize) -> &'a [u8]
        ensures { result.now ≡ word place (words_of self.now) }
    {
        if place < MOST_PLACES {
            return self.places[place];
        }
        // No form has a word so far behind.
        let mut words = self.line.split(|byte| *byte == b' ');
        words.nth(place).unwrap_or(&[])
    }

    /// Is this the line's first word?
    pub(crate) fn begins_with(&self, name: &[u8]) -> bool
        ensures { result ≡ bytes_eq (word 0 (words_of self.now)) name.now }
    {
        let word = self.word(0);
        // Most names have another length.
        word.len() == name.len() && word == name
    }

    /// The first letter of the line's first word, or 0 where that is empty.
    pub(crate) fn letter(&self) -> u8
        ensures { result ≡ slice_index_or (word 0 (words_of self.now)) 0 0 }
    {
        match self.word(0) {
            [] => 0,
            [letter, ..] => *letter,
        }
    }

    /// `WordCount` unless the line has so many words.
    pub(crate) fn exactly(&self, count: usize) -> Result<(), Cause>
        ensures { result ≡ has_words count (words_of self.now) }
    {
        if self.has(count) {
            Ok(())
        } else {
            Err(Cause::WordCount)
        }
    }

    /// `WordCount` unless the line has one of two numbers of words.
    pub(crate) fn either(&self, count: usize, other: usize) -> Result<(), Cause>
        ensures { result ≡ has_words_or count other (words_of self.now) }
    {
        if self.has(count) || self.has(other) {
            Ok(())
        } else {
            Err(Cause::WordCount)
        }
    }

    /// The number that the word at a place writes, or `BadWord`.
    pub(crate) fn number(&self, place: usize) -> Result<u64, Cause>
        ensures { result ≡ number (word place (words_of self.now)) }
    {
        number_in(self.word(place))
    }

    /// The number of a line that has one word beside its name.
    #[tactic(auto, unfolding(crate::specs::Grammar::one_number))]
    pub(crate) fn one_number(&self) -> Result<u64, Cause>
        ensures { result ≡ one_number (words_of self.now) }
    {
        self.exactly(2)?;
        self.number(1)
    }

    /// Whether the word at a place allows writing, or `BadWord`.
    pub(crate) fn access(&self, place: usize) -> Result<bool, Cause>
        ensures { result ≡ access (word place (words_of self.now)) }
    {
        access_in(self.word(place))
    }

    /// The bits R and W that the word at a place writes, or `BadWord`.
    pub(crate) fn flags(&self, place: usize) -> Result<(bool, bool), Cause>
        ensures { result ≡ flags (word place (words_of self.now)) }
    {
        flags_in(self.word(place))
    }

    /// The group that the word at a place names, none for a new one, or `BadWord`.
    pub(crate) fn group(&self, place: usize) -> Result<Option<u64>, Cause>
        ensures { result ≡ group (word place (words_of self.now)) }
    {
        group_in(self.word(place))
    }

    /// Whether the word at a place says that a page request is the last of its group, or `BadWord`.
    pub(crate) fn is_last(&self, place: usize) -> Result<bool, Cause>
        ensures { result ≡ is_last (word place (words_of self.now)) }
    {
        last_in(self.word(place))
    }

    /// What a worker decides by the word at a place, or `BadWord`.
    pub(crate) fn verdict(&self, place: usize) -> Result<Verdict, Cause>
        ensures { result ≡ verdict (word place (words_of self.now)) }
    {
        verdict_in(self.word(place))
    }

    /// The vector that the word at a place writes, or `BadWord`.
    pub(crate) fn vector(&self, place: usize) -> Result<u32, Cause>
        ensures { result ≡ vector (word place (words_of self.now)) }
    {
        vector_in(self.word(place))
    }
}

/// How many words the first line of a text has, and how long it is; its first words get their places.
fn find_words<'a>(text: &'a [u8], places: &mut [&'a [u8]; MOST_PLACES]) -> (usize, usize)
    ensures count { result.0 ≡ length (words_of (line_in text.now)) }
    ensures len { result.1 ≡ line_len text.now }
    ensures within { result.1 ≤ length text.now }
    ensures placed { map (λ word. word.now) places.new ≡ in_places 7 (words_of (line_in text.now)) }
{
    let none: &'a [u8] = &[];
    *places = [none; MOST_PLACES];
    let mut count = 0;
    let mut start = 0;
    loop {
        let end = start + word_len(&text[start..]);
        if count < MOST_PLACES {
            places[count] = &text[start..end];
        }
        count += 1;
        if ends_line(text, end) {
            return (count, end);
        }
        start = end + 1;
    }
}

/// Does a line end here: at an LF, or at the end of the text?
fn ends_line(text: &[u8], at: usize) -> bool
    requires { at ≤ length text.now }
    ensures yes { result ≡ true → at < length text.now → slice_index_or text.now at 0 ≡ 10 }
    ensures no { result ≡ false → (at < length text.now) × (slice_index_or text.now at 0 ≢ 10) }
{
    at == text.len() || text[at] == b'\n'
}

/// How long the first word of a text is.
fn word_len(text: &[u8]) -> usize
    ensures len { result ≡ word_len text.now }
    ensures within { result ≤ length text.now }
{
    match text.iter().position(|byte| ends_word(*byte)) {
        Some(end) => end,
        None => text.len(),
    }
}

/// Does the byte end a word?
fn ends_word(byte: u8) -> bool
    ensures { result ≡ ends_word byte }
{
    // Most bytes are above both.
    byte <= b' ' && (byte == b' ' || byte == b'\n')
}

/// A number: decimal digits without a leading zero, below 2^64.
pub fn number_in(word: &[u8]) -> Result<u64, Cause>
    ensures { result ≡ number word.now }
{
    if !begins_number(word) {
        return Err(Cause::BadWord);
    }
    let mut value = 0;
    for byte in word {
        let Some(more) = with_digit(value, *byte) else {
            return Err(Cause::BadWord);
        };
        value = more;
    }
    Ok(value)
}

/// A number with one more digit behind it; none where the byte is no digit, or the number doesn't fit 64 bits.
fn with_digit(value: u64, byte: u8) -> Option<u64>
    ensures some { IfSome result (λ more. (is_ascii_digit byte ≡ true) × (more ≡ value * 10 + digit_value byte)) }
    ensures none { IfNone result (is_ascii_digit byte ≡ true → 2 ^ 64 ≤ value * 10 + digit_value byte) }
{
    if !byte.is_ascii_digit() {
        return None;
    }
    value.checked_mul(10)?.checked_add(u64::from(byte - b'0'))
}

/// Does the word begin with a digit other than 0, or is it 0 alone?
fn begins_number(word: &[u8]) -> bool
    ensures { result ≡ begins_number word.now }
{
    match word {
        [] => false,
        [first] => first.is_ascii_digit(),
        [first, ..] => first.is_ascii_digit() && *first != b'0',
    }
}

/// `w` allows writing, `r` doesn't.
#[tactic(auto, unfolding(crate::specs::Grammar::access))]
pub fn access_in(word: &[u8]) -> Result<bool, Cause>
    ensures { result ≡ access word.now }
{
    if word == b"w".as_slice() {
        Ok(true)
    } else if word == b"r".as_slice() {
        Ok(false)
    } else {
        Err(Cause::BadWord)
    }
}

/// `r` asks to read, `w` to write, `rw` for both.
#[tactic(auto, unfolding(crate::specs::Grammar::flags))]
pub fn flags_in(word: &[u8]) -> Result<(bool, bool), Cause>
    ensures { result ≡ flags word.now }
{
    if word == b"r".as_slice() {
        Ok((true, false))
    } else if word == b"w".as_slice() {
        Ok((false, true))
    } else if word == b"rw".as_slice() {
        Ok((true, true))
    } else {
        Err(Cause::BadWord)
    }
}

/// `new`, or a group's index.
#[tactic(auto, unfolding(crate::specs::Grammar::group))]
pub fn group_in(word: &[u8]) -> Result<Option<u64>, Cause>
    ensures { result ≡ group word.now }
{
    if word == b"new".as_slice() {
        Ok(None)
    } else {
        let index = number_in(word)?;
        Ok(Some(index))
    }
}

/// `last`, or `more` where more requests of the group follow.
#[tactic(auto, unfolding(crate::specs::Grammar::is_last))]
pub fn last_in(word: &[u8]) -> Result<bool, Cause>
    ensures { result ≡ is_last word.now }
{
    if word == b"last".as_slice() {
        Ok(true)
    } else if word == b"more".as_slice() {
        Ok(false)
    } else {
        Err(Cause::BadWord)
    }
}

/// `success`, `invalid` or `failure`.
#[tactic(auto, unfolding(crate::specs::Grammar::verdict))]
pub fn verdict_in(word: &[u8]) -> Result<Verdict, Cause>
    ensures { result ≡ verdict word.now }
{
    if word == b"success".as_slice() {
        Ok(Verdict::Success)
    } else if word == b"invalid".as_slice() {
        Ok(Verdict::Invalid)
    } else if word == b"failure".as_slice() {
        Ok(Verdict::Failure)
    } else {
        Err(Cause::BadWord)
    }
}

/// A vector: eight hexadecimal digits in lower case.
pub fn vector_in(word: &[u8]) -> Result<u32, Cause>
    ensures { result ≡ vector word.now }
{
    if !is_vector(word) {
        return Err(Cause::BadWord);
    }
    let mut value = 0;
    for byte in word {
        value = value * 16 + u32::from(vector_digit(*byte));
    }
    Ok(value)
}

/// What a digit of a vector is worth.
fn vector_digit(byte: u8) -> u8
    requires { is_vector_digit byte ≡ true }
    ensures { result ≡ digit_value byte }
{
    if byte.is_ascii_digit() {
        byte - b'0'
    } else {
        byte - b'a' + 10
    }
}

/// Is the word eight hexadecimal digits in lower case?
fn is_vector(word: &[u8]) -> bool
    ensures { result ≡ is_vector word.now }
{
    word.len() == 8 && word.iter().all(|byte| is_vector_digit(*byte))
}

/// Is the byte a digit, or a letter from a to f?
fn is_vector_digit(byte: u8) -> bool
    ensures { result ≡ is_vector_digit byte }
{
    byte.is_ascii_digit() || matches!(byte, b'a'..=b'f')
}
