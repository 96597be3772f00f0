//! A report of wrong lines, each behind its file, its number and its column.

ghost use Rattle.std.specs.Prelude.{◌≡◌, ◌++◌, ◌+◌, IfOk, OnOk};
ghost use Rattle.sva_located.specs.Languages as languages;
ghost use Rattle.sva_located.specs.Located as spec;

use crate::columns::{column_of, line_at};
use crate::languages::{Language, language_of, other_of};
use crate::placing::{Placed, placed_of};
use std::alloc::{AllocError, Global};
use sva_script::is;
use sva_script_reading::{Lines, put_number};

/// How many wrong lines of a file are told.
const MOST_LINES: u64 = 20;

/// The name of a file as it is told: that of standard input, `-`, as `<stdin>`.
pub fn shown_name(name: &[u8]) -> &[u8]
    ensures { result.now ≡ spec.shown_name name.entry.now }
{
    if is(name, b"-") { b"<stdin>" } else { name }
}

/// What a text in a language is called, and the command that takes it.
fn language_words(language: Language) -> &'static str
    ensures { result.now ≡ spec.language_words language }
{
    match language {
        Language::Scenario => ":1:1: error: this is a scenario: svahost replay ",
        Language::Script => ":1:1: error: this is a script: svahost test ",
        Language::Race => ":1:1: error: this is a race: svahost explore ",
        Language::Driver => ":1:1: error: this is a driver: svahost judge ",
    }
}

/// Appends that a file is in another language than was asked for.
fn put_other(out: &mut Vec<u8>, name: &[u8], language: Language) -> Result<(), AllocError>
    ensures { OnOk result (out.new.items ≡ out.old.items ++ spec.other_text name.now language) }
{
    out.extend_from_slice(shown_name(name))?;
    out.extend_from_slice(language_words(language).as_bytes())?;
    out.extend_from_slice(name)?;
    out.extend_from_slice(b"\n")
}

/// Appends a column, where it is known.
fn put_column(out: &mut Vec<u8>, column: Option<u64>) -> Result<(), AllocError>
    ensures { OnOk result (out.new.items ≡ out.old.items ++ spec.column_text column) }
{
    match column {
        None => Ok(()),
        Some(column) => {
            out.extend_from_slice(b":")?;
            put_number(out, column)
        }
    }
}

/// Appends a line's number and its column; of what is told of the whole text, none.
fn put_place(
    alloc: Global,
    out: &mut Vec<u8>,
    text: &[u8],
    placed: &Placed<'_>,
) -> Result<(), AllocError>
    ensures { OnOk result (out.new.items ≡ out.old.items ++ spec.place_text text.now (record { number = placed.now.number; told = placed.now.told.now })) }
{
    if placed.number == 0 {
        return Ok(());
    }
    let column = column_of(alloc, placed.told, line_at(text, placed.number))?;
    out.extend_from_slice(b":")?;
    put_number(out, placed.number)?;
    put_column(out, column)
}

/// Appends what is told of a line.
fn put_placed(
    alloc: Global,
    out: &mut Vec<u8>,
    name: &[u8],
    text: &[u8],
    placed: &Placed<'_>,
) -> Result<(), AllocError>
    ensures { OnOk result (out.new.items ≡ out.old.items ++ spec.placed_text name.now text.now (record { number = placed.now.number; told = placed.now.told.now })) }
{
    out.extend_from_slice(name)?;
    put_place(alloc, out, text, placed)?;
    out.extend_from_slice(b": error: ")?;
    out.extend_from_slice(placed.told)?;
    out.extend_from_slice(b"\n")
}

/// Appends a line of a report, behind so many that are each of a line: one that is of none as it is, and no more than 20
/// others.
fn put_line(
    alloc: Global,
    out: &mut Vec<u8>,
    name: &[u8],
    text: &[u8],
    count: u64,
    line: &[u8],
) -> Result<u64, AllocError>
    ensures { IfOk result (λ next. (next ≡ spec.count_behind count line.now)
        × (out.new.items ≡ out.old.items ++ spec.line_text name.now text.now count line.now)) }
{
    match placed_of(line) {
        None => {
            out.extend_from_slice(line)?;
            out.extend_from_slice(b"\n")?;
            Ok(count)
        }
        Some(placed) => {
            if count < MOST_LINES {
                put_placed(alloc, out, name, text, &placed)?;
            }
            Ok(count.saturating_add(1))
        }
    }
}

/// Appends how many wrong lines aren't told, if there are some.
fn put_more(out: &mut Vec<u8>, name: &[u8], count: u64) -> Result<(), AllocError>
    ensures { OnOk result (out.new.items ≡ out.old.items ++ spec.more_text name.now count) }
{
    if count <= MOST_LINES {
        return Ok(());
    }
    out.extend_from_slice(name)?;
    out.extend_from_slice(b": error: wrong lines behind these: ")?;
    put_number(out, count - MOST_LINES)?;
    out.extend_from_slice(b"\n")
}

/// Appends the lines of a report.
fn put_lines(
    alloc: Global,
    out: &mut Vec<u8>,
    name: &[u8],
    text: &[u8],
    report: &[u8],
) -> Result<(), AllocError>
    ensures { OnOk result (out.new.items ≡ out.old.items ++ spec.lines_text name.now text.now report.now) }
{
    let mut lines = Lines::new(report);
    let mut count: u64 = 0;
    while let Some((_number, line)) = lines.next() {
        count = put_line(alloc, out, name, text, count, line)?;
    }
    put_more(out, name, count)
}

/// What is said of a file that is wrong, of which the report of its text is this; `-` names standard input. Where its words are those of another
/// language than was asked for, that is said alone. Else each line of the report that is of a line of the text begins
/// with the file's name, the number, and the column where it is known, and is marked as an error; no more than 20 of
/// them are told, and behind them how many more there are.
pub fn located(
    alloc: Global,
    wanted: Language,
    name: &[u8],
    text: &[u8],
    report: &[u8],
) -> Result<Vec<u8>, AllocError>
    ensures { IfOk result (λ out. out.items ≡ spec.located wanted name.now text.now report.now) }
{
    let mut out = Vec::new(alloc);
    let found = language_of(alloc, text)?;
    match other_of(wanted, found) {
        Some(other) => put_other(&mut out, name, other)?,
        None => put_lines(alloc, &mut out, shown_name(name), text, report)?,
    }
    Ok(out)
}
