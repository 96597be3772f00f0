//! Which language a text is in.

ghost use Rattle.std.specs.Prelude.{◌≡◌, IfOk, map};
ghost use Rattle.sva_located.specs.Languages as languages;

use std::alloc::{AllocError, Global};
use sva_script::{is, split};
use sva_script_reading::Lines;

/// A language of texts.
#[derive(Clone, Copy, PartialEq, Eq)]
pub enum Language {
    /// Scenarios.
    Scenario,
    /// Scripts.
    Script,
    /// Races.
    Race,
    /// Drivers.
    Driver,
}

/// Whose own word a word is.
#[derive(Clone, Copy, PartialEq, Eq)]
pub enum Own {
    /// An act of a driver, and no step.
    Driver,
    /// A step, and no act of a driver.
    Script,
}

/// Whether a word is an act of a driver, and no step: one of those that nearly every driver has.
fn is_of_drivers(word: &[u8]) -> bool
    ensures { result ≡ languages.is_of_drivers word.now }
{
    is(word, b"pte") || is(word, b"entry") || is(word, b"start") || is(word, b"submit")
}

/// Whether a word is a step, and no act of a driver: one of those that nearly every script has.
fn is_of_scripts(word: &[u8]) -> bool
    ensures { result ≡ languages.is_of_scripts word.now }
{
    is(word, b"space") || is(word, b"map") || is(word, b"bind")
}

/// Whose own word a word is.
fn own_of(word: &[u8]) -> Option<Own>
    ensures { result ≡ languages.own_of word.now }
{
    if is_of_drivers(word) {
        Some(Own::Driver)
    } else if is_of_scripts(word) {
        Some(Own::Script)
    } else {
        None
    }
}

/// Whether a word names its line: a colon ends it.
fn is_label(word: &[u8]) -> bool
    ensures { result ≡ languages.is_label word.now }
{
    !word.is_empty() && word[word.len() - 1] == b':'
}

/// The word of a line that says what it is: the first, or the one behind the line's name.
fn head_of<'a>(words: &[&'a [u8]]) -> &'a [u8]
    ensures { result.now ≡ languages.head_of (map (λ word. word.now) words.now) }
{
    match words {
        [] => b"",
        [first] => *first,
        [first, second, ..] => { if is_label(*first) { *second } else { *first } }
    }
}

/// Whose own word stands first in a text.
fn first_own(alloc: Global, text: &[u8]) -> Result<Option<Own>, AllocError>
    ensures { IfOk result (λ own. own ≡ languages.first_own_in text.now) }
{
    let mut lines = Lines::new(text);
    let mut words = Vec::new(alloc);
    while let Some((_number, line)) = lines.next() {
        split(line, &mut words)?;
        let own = own_of(head_of(words.as_slice()));
        if own.is_some() {
            return Ok(own);
        }
    }
    Ok(None)
}

/// Whether a line of a text says `race`.
fn has_race(alloc: Global, text: &[u8]) -> Result<bool, AllocError>
    ensures { IfOk result (λ has. has ≡ languages.has_race_in text.now) }
{
    let mut lines = Lines::new(text);
    let mut words = Vec::new(alloc);
    while let Some((_number, line)) = lines.next() {
        split(line, &mut words)?;
        if is(head_of(words.as_slice()), b"race") {
            return Ok(true);
        }
    }
    Ok(false)
}

/// The language of a text by its first own word, and by whether it has a `race`.
fn language_by(own: Option<Own>, has_race: bool) -> Option<Language>
    ensures { result ≡ languages.language_by own has_race }
{
    match own {
        None => None,
        Some(Own::Driver) => Some(Language::Driver),
        Some(Own::Script) if has_race => Some(Language::Race),
        Some(Own::Script) => Some(Language::Script),
    }
}

/// The language that a text is in, as far as its words tell: by the first that is an act of a driver and no step, or a
/// step and no act; and of steps it is a race where a line says `race`.
pub fn language_of(alloc: Global, text: &[u8]) -> Result<Option<Language>, AllocError>
    ensures { IfOk result (λ language. language ≡ languages.language_of text.now) }
{
    let own = first_own(alloc, text)?;
    let has_race = has_race(alloc, text)?;
    Ok(language_by(own, has_race))
}

/// The language of a text where another one is wanted: a scenario is a script.
pub(crate) fn other_of(wanted: Language, found: Option<Language>) -> Option<Language>
    ensures { result ≡ languages.other_of wanted found }
{
    match (wanted, found) {
        (Language::Scenario | Language::Script, Some(Language::Script)) => None,
        (Language::Race, Some(Language::Race)) => None,
        (Language::Driver, Some(Language::Driver)) => None,
        _ => found,
    }
}
