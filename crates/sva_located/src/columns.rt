//! Where in a line the word stands that is told wrong.

ghost use Rattle.std.specs.Prelude.{◌≡◌, ◌==◌, ◌++◌, ◌<◌, ◌≤◌, IfOk, IfSome, OnOk, length, position, take, true};
ghost use Rattle.sva_located.specs.Columns as columns;

use std::alloc::{AllocError, Global};
use sva_script::is;
use sva_script_reading::{Lines, put_word};

/// The line of a text that has a number, from 1 on; where there is none, an empty one.
pub(crate) fn line_at(text: &[u8], wanted: u64) -> &[u8]
    ensures { result.now ≡ columns.line_at wanted text.entry.now }
{
    let mut lines = Lines::new(text);
    while let Some((number, line)) = lines.next() {
        if number == wanted {
            return line;
        }
    }
    b""
}

/// Whether a text begins with another.
pub(crate) fn begins(text: &[u8], with: &[u8]) -> bool
    ensures begins { result ≡ columns.begins text.now with.now }
    ensures within { result ≡ true → length with.now ≤ length text.now }
{
    with.len() <= text.len() && is(&text[..with.len()], with)
}

/// Where the first space of a text is.
pub(crate) fn space_in(text: &[u8]) -> Option<usize>
    ensures at { result ≡ position (λ byte. byte == 32) text.now }
    ensures within { IfSome result (λ at. at < length text.now) }
{
    text.iter().position(|byte| *byte == b' ')
}

/// A line up to its first space.
fn word_in(line: &[u8]) -> &[u8]
    ensures { result.now ≡ columns.word_in line.entry.now }
{
    match space_in(line) {
        Some(end) => &line[..end],
        None => line,
    }
}

/// A word as it is told: `'WORD': `.
fn quoted(alloc: Global, word: &[u8]) -> Result<Vec<u8>, AllocError>
    ensures { IfOk result (λ told. told.items ≡ columns.quoted word.now) }
{
    let mut told = Vec::from_slice(alloc, b"'")?;
    put_word(&mut told, word)?;
    told.extend_from_slice(b"': ")?;
    Ok(told)
}

/// Whether a word begins here, and is the one that is told.
fn is_told(alloc: Global, told: &[u8], begins_word: bool, rest: &[u8]) -> Result<bool, AllocError>
    ensures { IfOk result (λ is. is ≡ columns.is_told told.now begins_word rest.now) }
{
    if !begins_word {
        return Ok(false);
    }
    let quoted = quoted(alloc, word_in(rest))?;
    Ok(begins(told, quoted.as_slice()))
}

/// Appends a column, if it is one.
fn put_column(found: &mut Vec<u64>, is_one: bool, column: u64) -> Result<(), AllocError>
    ensures { OnOk result (found.new.items ≡ found.old.items ++ columns.column_if is_one column) }
{
    if is_one {
        found.push(column)?;
    }
    Ok(())
}

/// The columns, from 1 on, at which the word that is told begins in a line.
fn columns_of(alloc: Global, told: &[u8], line: &[u8]) -> Result<Vec<u64>, AllocError>
    ensures { IfOk result (λ found. found.items ≡ columns.columns_from told.now 0 true line.now) }
{
    let mut found = Vec::new(alloc);
    let mut begins_word = true;
    for place in 0..line.len() {
        let is_one = is_told(alloc, told, begins_word, &line[place..])?;
        put_column(&mut found, is_one, place as u64 + 1)?;
        begins_word = line[place] == b' ';
    }
    Ok(found)
}

/// The only one of some columns.
fn only(found: &[u64]) -> Option<u64>
    ensures { result ≡ columns.only found.now }
{
    match found {
        [column] => Some(*column),
        _ => None,
    }
}

/// At which column of a line stands what is told of it, as far as that is known: behind its last byte, where it ends
/// too early; else where the word begins that is told, if it stands there once.
pub(crate) fn column_of(alloc: Global, told: &[u8], line: &[u8]) -> Result<Option<u64>, AllocError>
    ensures { IfOk result (λ column. column ≡ columns.column_of told.now line.now) }
{
    if begins(told, b"end of line: ") {
        return Ok(Some(line.len() as u64 + 1));
    }
    let found = columns_of(alloc, told, line)?;
    Ok(only(found.as_slice()))
}
