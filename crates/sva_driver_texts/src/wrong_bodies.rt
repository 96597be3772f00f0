//! What is wrong with the lines of definitions, calls and repeats.

ghost use Rattle.std.specs.Prelude.{◌≡◌, [], Some, map, option_map, position};
ghost use Rattle.sva_driver_texts.specs.Bodies.{defined_seen};
ghost use Rattle.sva_driver_texts.specs.WrittenOut as writes;

use crate::bodies::Definition;
use crate::settings::is_setting;
use crate::titles::{begins_parameter, is_among, is_parameter, is_title};
use crate::writing::{Writing, written_at};
use sva_driver_words::{
    DriverWanted, DriverWrong, WrittenWanted, has_word, says, times_at, wrong_at,
};
use sva_race_texts::{RaceWanted, count_of, word_at, words_from};
use sva_script::{Wanted, is, name_in};

/// A line's words behind its name.
pub(crate) fn behind_name<'w, 'a>(words: &'w [&'a [u8]]) -> &'w [&'a [u8]]
    ensures { map (λ word. word.now) result.now ≡ writes.behind_name (map (λ word. word.now) words.now) }
{
    if name_in(words).is_some() {
        return words_from(words, 1);
    }
    words
}

/// Whether a line is `end` by itself.
pub(crate) fn is_bare_end(words: &[&[u8]]) -> bool
    ensures { result ≡ writes.is_bare_end (map (λ word. word.now) words.now) }
{
    count_of(words) == 1 && says(words, 0, b"end")
}

/// Whether a word begins a definition, a repeat or a call.
pub(crate) fn begins_own(word: &[u8]) -> bool
    ensures { result ≡ writes.begins_own word.now }
{
    is(word, b"def") || is(word, b"repeat") || is(word, b"call")
}

/// Whether a word begins a line that stands in no body.
fn is_outside(word: &[u8]) -> bool
    ensures { result ≡ writes.is_outside word.now }
{
    is_setting(word)
        || is(word, b"workers")
        || is(word, b"device")
        || is(word, b"race")
        || is(word, b"thread")
}

/// What is wrong at a word that is one too many.
fn one_more(at: usize) -> Option<DriverWrong>
    ensures { result ≡ writes.one_more at }
{
    Some(wrong_at(at, DriverWanted::Race(RaceWanted::Script(Wanted::NoMore))))
}

/// What is wrong with a parameter behind those above it.
fn parameter_wrong(above: &[&[u8]], word: &[u8]) -> Option<DriverWrong>
    ensures { result ≡ writes.parameter_wrong (map (λ own. own.now) above.now) word.now }
{
    if above.len() >= 16 {
        return Some(written_at(18, WrittenWanted::FewParameters));
    }
    let at = above.len() + 2;
    if !is_parameter(word) {
        return Some(written_at(at, WrittenWanted::Parameter));
    }
    if is_among(above, word) {
        return Some(written_at(at, WrittenWanted::NewParameter));
    }
    None
}

/// What is wrong with the parameters of a definition.
fn parameters_wrong(words: &[&[u8]]) -> Option<DriverWrong>
    ensures { result ≡ writes.parameters_wrong [] (map (λ word. word.now) words.now) }
{
    for at in 0..words.len() {
        if let Some(wrong) = parameter_wrong(&words[..at], words[at]) {
            return Some(wrong);
        }
    }
    None
}

/// What is wrong with `repeat N`.
fn repeat_wrong(words: &[&[u8]]) -> Option<DriverWrong>
    ensures { result ≡ writes.repeat_wrong (map (λ word. word.now) words.now) }
{
    match times_at(words, 1) {
        Err(wrong) => Some(wrong),
        Ok(_) => if has_word(words, 2) {
            one_more(2)
        } else {
            None
        },
    }
}

/// What is wrong with a call of a definition.
fn call_by(words: &[&[u8]], defined: &Definition<'_>) -> Option<DriverWrong>
    ensures { result ≡ writes.call_by (map (λ word. word.now) words.now) (Some (defined_seen defined.now)) }
{
    let count = count_of(words);
    let wanted = defined.parameters.len();
    if count >= 2 && count - 2 == wanted {
        return None;
    }
    if count >= 2 && count - 2 > wanted {
        return one_more(wanted + 2);
    }
    Some(written_at(count, WrittenWanted::Given))
}

/// The first word that begins with `$` and is no parameter of a definition.
fn stray_in(words: &[&[u8]], parameters: &[&[u8]]) -> Option<DriverWrong>
    ensures { result ≡ writes.stray_in (map (λ word. word.now) words.now)
        (Some (map (λ own. own.now) parameters.now)) }
{
    match stray_place(words, parameters) {
        Some(place) => Some(written_at(place, WrittenWanted::OwnParameter)),
        None => None,
    }
}

/// Whether a word begins with `$` and is none of these parameters.
fn is_stray(parameters: &[&[u8]], word: &[u8]) -> bool
    ensures { result ≡ writes.is_stray (map (λ own. own.now) parameters.now) word.now }
{
    begins_parameter(word) && !is_among(parameters, word)
}

/// The place of the first such word.
fn stray_place(words: &[&[u8]], parameters: &[&[u8]]) -> Option<usize>
    ensures { result ≡ position (writes.is_stray (map (λ own. own.now) parameters.now))
        (map (λ word. word.now) words.now) }
{
    let place = lent_stray_place(words, parameters);
    place
}

/// The place of the first such word, as they are lent.
fn lent_stray_place(words: &[&[u8]], parameters: &[&[u8]]) -> Option<usize>
    ensures { result ≡ position (λ word. writes.is_stray (map (λ own. own.now) parameters.now) word.now) words.now }
{
    words.iter().position(|word| is_stray(parameters, word))
}

/// The definition of a name.
pub(crate) fn definition_of<'d, 'a>(
    defined: &'d [Definition<'a>],
    name: &[u8],
) -> Option<&'d Definition<'a>>
    ensures { option_map (λ own. defined_seen own.now) result
        ≡ writes.definition_of (map defined_seen defined.now) name.now }
{
    for own in defined {
        if is(own.name, name) {
            return Some(own);
        }
    }
    None
}

impl<'a> Writing<'a> {
    /// Whether a body or an `if` is open.
    fn is_in_block(&self) -> bool
        ensures { result ≡ writes.is_in_block self.now }
    {
        self.around.len() > 0 || self.body.ifs > 0
    }

    /// What is wrong with `def NAME [PARAMETER ..]`.
    fn def_wrong(&self, words: &[&[u8]]) -> Option<DriverWrong>
        ensures { result ≡ writes.def_wrong self.now (map (λ word. word.now) words.now) }
    {
        if self.is_in_block() {
            return Some(written_at(0, WrittenWanted::NoBlock));
        }
        if !is_title(word_at(words, 1)) {
            return Some(written_at(1, WrittenWanted::Name));
        }
        if self.known.get(word_at(words, 1)).is_some() {
            return Some(written_at(1, WrittenWanted::NewName));
        }
        parameters_wrong(words_from(words, 2))
    }

    /// What is wrong with `call NAME [WORD ..]`.
    fn call_wrong(&self, words: &[&[u8]]) -> Option<DriverWrong>
        ensures { result ≡ writes.call_wrong self.now (map (λ word. word.now) words.now) }
    {
        match definition_of(self.defined.as_slice(), word_at(words, 1)) {
            Some(defined) => call_by(words, defined),
            None => Some(written_at(1, WrittenWanted::Defined)),
        }
    }

    /// The first word of a line that begins with `$` and is no parameter of the definition in which it stands.
    fn stray_in(&self, words: &[&[u8]]) -> Option<DriverWrong>
        ensures { result ≡ writes.stray_in (map (λ word. word.now) words.now) self.now.parameters }
    {
        match &self.parameters {
            Some(parameters) => stray_in(words, parameters.as_slice()),
            None => None,
        }
    }

    /// What is wrong with a definition, a repeat or a call.
    fn own_wrong(&self, words: &[&[u8]]) -> Option<DriverWrong>
        ensures { result ≡ writes.own_wrong self.now (map (λ word. word.now) words.now) }
    {
        if says(words, 0, b"def") {
            return self.def_wrong(words);
        }
        if let Some(wrong) = self.stray_in(words) {
            return Some(wrong);
        }
        if says(words, 0, b"call") {
            return self.call_wrong(words);
        }
        repeat_wrong(words)
    }

    /// What is wrong with another line.
    fn other_wrong(&self, words: &[&[u8]]) -> Option<DriverWrong>
        ensures { result ≡ writes.other_wrong self.now (map (λ word. word.now) words.now) }
    {
        if self.around.len() > 0 && is_outside(word_at(words, 0)) {
            return Some(written_at(0, WrittenWanted::InBody));
        }
        self.stray_in(words)
    }

    /// What is wrong with a line, as far as definitions, calls and repeats go.
    pub(crate) fn line_wrong(&self, words: &[&[u8]]) -> Option<DriverWrong>
        ensures { result ≡ writes.line_wrong self.now (map (λ word. word.now) words.now) }
    {
        if begins_own(word_at(words, 0)) {
            return self.own_wrong(words);
        }
        if begins_own(word_at(behind_name(words), 0)) {
            return Some(wrong_at(0, DriverWanted::Race(RaceWanted::NoName)));
        }
        self.other_wrong(words)
    }
}
