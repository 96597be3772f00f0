//! A body that is written out: each parameter is the word that the call has in its place.

ghost use Rattle.std.specs.Prelude.{◌≡◌, ◌++◌, ◌+◌, ◌<◌, IfNone, IfOk, IfSome, Some, map, position};
ghost use Rattle.std.specs.Str.{bytes_eq};
ghost use Rattle.sva_driver_texts.specs.Bodies.{defined_seen, lines_seen, worded_seen};
ghost use Rattle.sva_driver_texts.specs.WrittenOut as writes;

use crate::bodies::{Definition, WordedLine};
use std::alloc::{AllocError, Global};
use sva_script::is;

/// The place of a word among words.
fn place_in(words: &[&[u8]], word: &[u8]) -> Option<usize>
    ensures { result ≡ position (λ own. bytes_eq own word.now) (map (λ own. own.now) words.now) }
{
    let place = lent_place(words, word);
    place
}

/// The place of a word among words, as they are lent.
fn lent_place(words: &[&[u8]], word: &[u8]) -> Option<usize>
    ensures { result ≡ position (λ own. bytes_eq own.now word.now) words.now }
{
    words.iter().position(|own| is(own, word))
}

/// The word at a place, if there is one; else another.
fn word_or<'a>(words: &[&'a [u8]], place: usize, other: &'a [u8]) -> &'a [u8]
    ensures { result.now ≡ writes.put_at (map (λ word. word.now) words.now) other.now (Some place) }
{
    match words.get(place) {
        Some(word) => word,
        None => other,
    }
}

/// The word that stands for another: the one that is given in the place of a parameter, or itself.
fn put_in<'a>(parameters: &[&'a [u8]], given: &[&'a [u8]], word: &'a [u8]) -> &'a [u8]
    ensures { result.now ≡ writes.put_in (map (λ own. own.now) parameters.now) (map (λ word. word.now) given.now)
        word.now }
{
    match place_in(parameters, word) {
        Some(place) => word_or(given, place, word),
        None => word,
    }
}

/// The words of a line, with those that are given.
fn put_words<'a>(
    alloc: Global,
    parameters: &[&'a [u8]],
    given: &[&'a [u8]],
    words: &[&'a [u8]],
) -> Result<Vec<&'a [u8]>, AllocError>
    ensures { IfOk result (λ put. map (λ word. word.now) put.items
        ≡ map (writes.put_in (map (λ own. own.now) parameters.now) (map (λ word. word.now) given.now))
        (map (λ word. word.now) words.now)) }
{
    let mut put = Vec::new(alloc);
    for word in words {
        put.push(put_in(parameters, given, word))?;
    }
    Ok(put)
}

/// A line, with the words that are given.
fn put_line<'a>(
    alloc: Global,
    parameters: &[&'a [u8]],
    given: &[&'a [u8]],
    line: &WordedLine<'a>,
) -> Result<WordedLine<'a>, AllocError>
    ensures { IfOk result (λ put. worded_seen put ≡ writes.put_line (map (λ own. own.now) parameters.now)
        (map (λ word. word.now) given.now) (worded_seen line.now)) }
{
    let words = put_words(alloc, parameters, given, line.words.as_slice())?;
    Ok(WordedLine {
        number: line.number,
        words,
    })
}

/// The lines of a definition, with the words that a call gives.
pub(crate) fn put_lines<'a>(
    alloc: Global,
    defined: &Definition<'a>,
    given: &[&'a [u8]],
) -> Result<Vec<WordedLine<'a>>, AllocError>
    ensures { IfOk result (λ put. lines_seen put.items
        ≡ writes.put_lines (defined_seen defined.now) (map (λ word. word.now) given.now)) }
{
    let mut put = Vec::new(alloc);
    for line in defined.lines.as_slice() {
        put.push(put_line(alloc, defined.parameters.as_slice(), given, line)?)?;
    }
    Ok(put)
}

/// A copy of a line.
fn copied<'a>(alloc: Global, line: &WordedLine<'a>) -> Result<WordedLine<'a>, AllocError>
    ensures { IfOk result (λ own. worded_seen own ≡ worded_seen line.now) }
{
    let words = Vec::from_slice(alloc, line.words.as_slice())?;
    Ok(WordedLine {
        number: line.number,
        words,
    })
}

/// Appends copies of lines.
pub(crate) fn append<'a>(
    alloc: Global,
    to: &mut Vec<WordedLine<'a>>,
    lines: &[WordedLine<'a>],
) -> Result<(), AllocError>
    ensures { IfOk result (λ _. lines_seen to.new.items ≡ lines_seen to.old.items ++ lines_seen lines.now) }
{
    for line in lines {
        to.push(copied(alloc, line)?)?;
    }
    Ok(())
}

/// How many bytes are left behind some words; `None` where there are too few.
fn left_behind_words(words: &[&[u8]], bytes: u64) -> Option<u64>
    ensures some { IfSome result (λ left. left + writes.size_of_words (map (λ word. word.now) words.now) ≡ bytes) }
    ensures none { IfNone result (bytes < writes.size_of_words (map (λ word. word.now) words.now)) }
{
    let mut left = bytes;
    for word in words {
        let size = word.len() as u64;
        if size >= left {
            return None;
        }
        left = left - size - 1;
    }
    Some(left)
}

/// How many bytes are left behind lines; `None` where there are too few.
pub(crate) fn left_behind(lines: &[WordedLine<'_>], bytes: u64) -> Option<u64>
    ensures some { IfSome result (λ left. left + writes.size_of (lines_seen lines.now) ≡ bytes) }
    ensures none { IfNone result (bytes < writes.size_of (lines_seen lines.now)) }
{
    let mut left = bytes;
    for line in lines {
        match left_behind_words(line.words.as_slice(), left) {
            Some(less) => left = less,
            None => return None,
        }
    }
    Some(left)
}
