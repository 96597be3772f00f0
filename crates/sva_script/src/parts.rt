//! The words of a line, and its parts: a name, a step, and what the step is expected to be answered.

ghost use Rattle.std.specs.Prelude.{◌≡◌, ◌+◌, ◌<◌, ◌≤◌, ◌++◌, None, length, map, option_map, position, IfSome, OnOk};
ghost use Rattle.sva_script.specs.Lines.{begins_comment, expected_begins, is_arrow, name_before, parts_of, said_alone, script_words, step_begins};
ghost use Rattle.sva_script.specs.Lines.{unnamed_parts};

use crate::equal::is;
use crate::splitting::first_part;
use std::alloc::AllocError;

/// What stands between a step and its expected answer.
const ARROW: &[u8] = b"=>";

/// The parts of a line that says something.
#[derive(Clone, Copy)]
pub struct Parts<'w, 'a> {
    /// The word before the step, without its colon.
    pub name: Option<&'a [u8]>,
    /// The words of the step.
    pub step: &'w [&'a [u8]],
    /// At which of the line's words the step begins.
    pub step_at: usize,
    /// The words behind `=>`, where there is one.
    pub expected: Option<&'w [&'a [u8]]>,
    /// At which of the line's words the expected answer begins, where there is one.
    pub expected_at: usize,
}

/// The words of a line, in the place of those of the line before. One space or more separate two words, and a word that
/// begins with `#` begins a comment, which isn't said. Where memory is refused, `words` has some of them.
pub fn split<'a>(line: &'a [u8], words: &mut Vec<&'a [u8]>) -> Result<(), AllocError>
    ensures { OnOk result (map (λ word. word.now) words.new.items ≡ script_words line.now) }
{
    words.clear();
    let mut rest = line;
    while let Some((word, more)) = first_part(rest, b' ') {
        if begins_comment(word) {
            return Ok(());
        }
        put_said(words, word)?;
        rest = more;
    }
    if begins_comment(rest) {
        return Ok(());
    }
    put_said(words, rest)
}

/// Does the word begin a comment?
fn begins_comment(word: &[u8]) -> bool
    ensures { result ≡ begins_comment word.now }
{
    match word {
        [] => false,
        [first, ..] => *first == b'#',
    }
}

/// Notes a word, unless it is empty.
fn put_said<'a>(words: &mut Vec<&'a [u8]>, word: &'a [u8]) -> Result<(), AllocError>
    ensures { OnOk result (map (λ word. word.now) words.new.items ≡ map (λ word. word.now) words.old.items ++ said_alone word.now) }
{
    if word.is_empty() {
        return Ok(());
    }
    match words.push(word) {
        Ok(()) => Ok(()),
        Err(_) => Err(AllocError),
    }
}

/// The name that a word writes before a step: the word without the colon that ends it.
fn name_before(word: &[u8]) -> Option<&[u8]>
    ensures { option_map (λ name. name.now) result ≡ name_before word.now }
{
    if word.is_empty() || word[word.len() - 1] != b':' {
        return None;
    }
    Some(&word[..word.len() - 1])
}

/// Where the first arrow among the words is.
fn arrow_in(words: &[&[u8]]) -> Option<usize>
    ensures at { result ≡ position (λ word. is_arrow word.now) words.now }
    ensures within { IfSome result (λ arrow. arrow < length words.now) }
{
    words.iter().position(|word| is(word, ARROW))
}

/// The parts of a line's words.
pub fn parts_of<'w, 'a>(words: &'w [&'a [u8]]) -> Parts<'w, 'a>
    ensures name { option_map (λ name. name.now) result.name ≡ (parts_of (map (λ word. word.now) words.now)).name }
    ensures step { map (λ word. word.now) result.step.now ≡ (parts_of (map (λ word. word.now) words.now)).step }
    ensures expected { option_map (λ expected. map (λ word. word.now) expected.now) result.expected
        ≡ (parts_of (map (λ word. word.now) words.now)).expected }
    ensures step_at { result.step_at ≡ step_begins (parts_of (map (λ word. word.now) words.now)) }
    ensures expected_at { IfSome result.expected (λ expected. result.expected_at ≡ expected_begins (parts_of (map (λ word. word.now) words.now))) }
    ensures step_within { result.step_at + length result.step.now ≤ length words.now }
    ensures expected_within { IfSome result.expected (λ expected. result.expected_at + length expected.now ≤ length words.now) }
{
    match words {
        [] => unnamed_parts(None, words, 0),
        [first, rest @ ..] => match name_before(first) {
            None => unnamed_parts(None, words, 0),
            Some(name) => unnamed_parts(Some(name), rest, 1),
        },
    }
}

/// The name of a line's words, without its colon, where they have one.
pub fn name_in<'a>(words: &[&'a [u8]]) -> Option<&'a [u8]>
    ensures { option_map (λ name. name.now) result ≡ (parts_of (map (λ word. word.now) words.now)).name }
{
    match words {
        [] => None,
        [first, ..] => name_before(first),
    }
}

/// The parts of the words behind a name, or of all, which begin at `at`.
fn unnamed_parts<'w, 'a>(name: Option<&'a [u8]>, words: &'w [&'a [u8]], at: usize) -> Parts<'w, 'a>
    requires { at ≤ 1 }
    ensures name { option_map (λ name. name.now) result.name ≡ option_map (λ name. name.now) name.entry }
    ensures step { map (λ word. word.now) result.step.now ≡ (unnamed_parts None (map (λ word. word.now) words.now)).step }
    ensures expected { option_map (λ expected. map (λ word. word.now) expected.now) result.expected
        ≡ (unnamed_parts None (map (λ word. word.now) words.now)).expected }
    ensures step_at { result.step_at ≡ at }
    ensures expected_at { IfSome result.expected (λ expected. result.expected_at ≡ at + length result.step.now + 1) }
    ensures step_within { at + length result.step.now ≤ at + length words.now }
    ensures expected_within { IfSome result.expected (λ expected. result.expected_at + length expected.now ≤ at + length words.now) }
{
    match arrow_in(words) {
        Some(arrow) => Parts {
            name,
            step: &words[..arrow],
            step_at: at,
            expected: Some(&words[arrow + 1..]),
            expected_at: at + arrow + 1,
        },
        None => Parts {
            name,
            step: words,
            step_at: at,
            expected: None,
            expected_at: at,
        },
    }
}
