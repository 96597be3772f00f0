//! The events of a witness in a report, and what the line of one says.

ghost use Rattle.std.specs.Prelude.{◌≡◌, ◌+◌, ◌==◌, ◌≤◌, ◌<◌, drop, length, map, option_map, position, IfSome, OnOk};
ghost use Rattle.sva_script.specs.Lines.{begins_comment};
ghost use Rattle.sva_script_reading.specs.Begins.{lines_from};
ghost use Rattle.sva_charts.specs.Witnesses as witnesses;

use std::alloc::{AllocError, Global};
use sva_script::{is, split};
use sva_script_reading::Lines;

/// The first line of a report.
pub(crate) fn first_line(report: &[u8]) -> &[u8]
    ensures { result.now ≡ witnesses.first_line report.entry.now }
{
    let mut lines = Lines::new(report);
    match lines.next() {
        Some((_number, line)) => line,
        None => b"",
    }
}

/// Whether a line is the one before the events of a witness.
fn is_race(line: &[u8]) -> bool
    ensures { result ≡ witnesses.is_race line.now }
{
    is(line, b"# race")
}

/// The lines of a report behind `# race`, where there is that: the events of its witness.
pub(crate) fn events_in(report: &[u8]) -> Option<Lines<'_>>
    ensures { option_map (λ lines. lines_from (lines.number + 1) lines.rest.now) result
        ≡ witnesses.events_in report.entry.now }
{
    let mut lines = Lines::new(report);
    while let Some((_number, line)) = lines.next() {
        if is_race(line) {
            return Some(lines);
        }
    }
    None
}

/// The lines of events, to be drawn.
pub(crate) fn event_lines<'a>(
    alloc: Global,
    events: Lines<'a>,
) -> Result<Vec<&'a [u8]>, AllocError> {
    let mut lines = events;
    let mut all = Vec::new(alloc);
    while let Some((_number, line)) = lines.next() {
        all.push(line)?;
    }
    Ok(all)
}

/// Where a byte stands first, if it is there.
fn position_of(byte: u8, text: &[u8]) -> Option<usize>
    ensures at { result ≡ position (λ one. one == byte) text.now }
    ensures within { IfSome result (λ place. place < length text.now) }
{
    text.iter().position(|one| *one == byte)
}

/// Where a byte stands first, or the end.
fn place_of(byte: u8, text: &[u8]) -> usize
    ensures place { result ≡ witnesses.place_of byte text.now }
    ensures within { result ≤ length text.now }
{
    match position_of(byte, text) {
        Some(place) => place,
        None => text.len(),
    }
}

/// What stands behind so many bytes.
fn dropped(count: usize, text: &[u8]) -> &[u8]
    ensures { result.now ≡ drop count text.entry.now }
{
    if text.len() < count {
        return &text[text.len()..];
    }
    &text[count..]
}

/// What stands before a byte.
fn up_to(byte: u8, text: &[u8]) -> &[u8]
    ensures { result.now ≡ witnesses.up_to byte text.entry.now }
{
    &text[..place_of(byte, text)]
}

/// What stands behind so many bytes that begin with this one.
fn behind(byte: u8, count: usize, text: &[u8]) -> &[u8]
    requires { count ≤ 7 }
    ensures { result.now ≡ witnesses.behind byte count text.entry.now }
{
    dropped(place_of(byte, text) + count, text)
}

/// Whether the line of an event is a comment.
fn is_comment(line: &[u8]) -> bool
    ensures { result ≡ begins_comment line.now }
{
    match line {
        [] => false,
        [first, ..] => *first == b'#',
    }
}

/// Who acts, by the line of an event.
pub(crate) fn who_in(line: &[u8]) -> &[u8]
    ensures { result.now ≡ witnesses.who_in line.entry.now }
{
    if is_comment(line) {
        up_to(b':', dropped(2, line))
    } else {
        behind(b'#', 2, line)
    }
}

/// What the line of an event says, with a comment behind it, or not.
fn said_in(line: &[u8]) -> &[u8]
    ensures { result.now ≡ witnesses.said_if (begins_comment line.entry.now) line.entry.now }
{
    if is_comment(line) {
        behind(b':', 2, line)
    } else {
        line
    }
}

/// The words of an event, in the place of those of the one before.
pub(crate) fn split_event<'a>(line: &'a [u8], words: &mut Vec<&'a [u8]>) -> Result<(), AllocError>
    ensures { OnOk result (map (λ word. word.now) words.new.items ≡ witnesses.words_in line.now) }
{
    split(said_in(line), words)
}

/// The number of the line that an event takes, as it is written; nothing, where it takes none.
pub(crate) fn number_in(line: &[u8]) -> &[u8]
    ensures { result.now ≡ witnesses.number_in line.entry.now }
{
    behind(b',', 7, who_in(line))
}

/// The thread of an event's line, or who acts by itself.
pub(crate) fn actor_in(line: &[u8]) -> &[u8] {
    up_to(b',', who_in(line))
}
