//! The rows of a driver's chart: one for each event of its witness.

ghost use Rattle.std.specs.Prelude.{◌≡◌, ◌++◌, ◌+◌, ◌∷◌, OnOk, flat_map, map, option_map, replicate, slice_get};
ghost use Rattle.sva_script_reading.specs.Begins.{lines_from};
ghost use Rattle.sva_driver_words.specs.Pieces.{and_number};
ghost use Rattle.sva_charts.specs.Witnesses as witnesses;

use crate::events::{first_line, number_in, split_event};
use crate::sketch::{Drawn, Head, Sign, Sketch};
use std::alloc::{AllocError, Global};
use sva_driver_words::{access_text, kind_text, put_one};
use sva_open::{Message, Target, kind_of};
use sva_script_reading::{Lines, put_number, put_word};

fn byte_of(sign: Sign) -> u8
    ensures { result ≡ witnesses.sign_byte sign }
{
    match sign {
        Sign::Blank => b' ',
        Sign::Rail => b':',
        Sign::Lane => b'|',
        Sign::Dash => b'-',
        Sign::Dot => b'o',
        Sign::Queue => b'q',
        Sign::Start => b'.',
        Sign::End => b'\'',
        Sign::Left => b'<',
        Sign::Right => b'>',
        Sign::Lost => b'x',
    }
}

/// Appends a sign.
fn put_sign(out: &mut Vec<u8>, sign: Sign) -> Result<(), AllocError>
    ensures { OnOk result (out.new.items ≡ out.old.items ++ witnesses.sign_text sign) }
{
    out.push(byte_of(sign))?;
    Ok(())
}

/// Appends signs.
fn put_signs(out: &mut Vec<u8>, signs: &[Sign]) -> Result<(), AllocError>
    ensures { OnOk result (out.new.items ≡ out.old.items ++ witnesses.signs_text signs.now) }
{
    for sign in signs {
        put_sign(out, *sign)?;
    }
    Ok(())
}

/// Appends so many blanks.
fn put_blanks(out: &mut Vec<u8>, count: usize) -> Result<(), AllocError>
    ensures { OnOk result (out.new.items ≡ out.old.items ++ replicate count 32) }
{
    for _column in 0..count {
        out.extend_from_slice(b" ")?;
    }
    Ok(())
}

/// Appends a text in a column, and a space.
fn put_cell(out: &mut Vec<u8>, width: usize, text: &[u8]) -> Result<(), AllocError>
    ensures { OnOk result (out.new.items ≡ out.old.items ++ witnesses.cell width text.now) }
{
    out.extend_from_slice(text)?;
    put_blanks(out, width.saturating_sub(text.len()))?;
    out.extend_from_slice(b" ")
}

/// Appends where a completion leads.
fn put_target(out: &mut Vec<u8>, target: &Option<Target>) -> Result<(), AllocError>
    ensures { OnOk result (out.new.items ≡ out.old.items ++ witnesses.target_text target.now) }
{
    match target {
        None => out.extend_from_slice(b": no frame"),
        Some(target) => {
            out.extend_from_slice(b": frame")?;
            put_one(out, target.frame as u64)?;
            out.extend_from_slice(access_text(target.write).as_bytes())
        }
    }
}

/// Appends where a message leads, if it is a completion.
fn put_led(out: &mut Vec<u8>, message: &Message) -> Result<(), AllocError>
    ensures { OnOk result (out.new.items ≡ out.old.items ++ witnesses.led_text message.now) }
{
    match message {
        Message::Completion { target, .. } => put_target(out, target),
        _ => Ok(()),
    }
}

/// Appends a message that an event sends.
fn put_sent(out: &mut Vec<u8>, message: &Message) -> Result<(), AllocError>
    ensures { OnOk result (out.new.items ≡ out.old.items ++ witnesses.sent_text message.now) }
{
    out.extend_from_slice(b"  -> ")?;
    out.extend_from_slice(kind_text(kind_of(message)).as_bytes())?;
    put_led(out, message)
}

/// Appends the messages that an event sends.
fn put_all_sent(out: &mut Vec<u8>, sent: &[Message]) -> Result<(), AllocError>
    ensures { OnOk result (out.new.items ≡ out.old.items ++ flat_map witnesses.sent_text sent.now) }
{
    for message in sent {
        put_sent(out, message)?;
    }
    Ok(())
}

/// Appends a word behind a space.
fn put_spaced(out: &mut Vec<u8>, word: &[u8]) -> Result<(), AllocError>
    ensures { OnOk result (out.new.items ≡ out.old.items ++ (32 ∷ word.now)) }
{
    out.extend_from_slice(b" ")?;
    out.extend_from_slice(word)
}

/// Appends words, a space before each.
fn put_words(out: &mut Vec<u8>, words: &[&[u8]]) -> Result<(), AllocError>
    ensures { OnOk result (out.new.items ≡ out.old.items ++ witnesses.words_text (map (λ word. word.now) words.now)) }
{
    for word in words {
        put_spaced(out, word)?;
    }
    Ok(())
}

/// Appends what an event sends: behind it, or in a line of its own.
fn put_sent_behind(out: &mut Vec<u8>, more: &[Sign], sent: &[Message]) -> Result<(), AllocError>
    ensures { OnOk result (out.new.items ≡ out.old.items ++ witnesses.sent_behind more.now sent.now) }
{
    match more {
        [] => {}
        [_first, ..] => {
            out.extend_from_slice(b"\n")?;
            put_cell(out, 5, b"")?;
            put_cell(out, 5, b"")?;
            put_signs(out, more)?;
        }
    }
    put_all_sent(out, sent)?;
    out.extend_from_slice(b"\n")
}

/// Appends the number of an event and that of its line.
fn put_front(alloc: Global, out: &mut Vec<u8>, number: u64, line: &[u8]) -> Result<(), AllocError>
    ensures { OnOk result (out.new.items ≡ out.old.items ++ witnesses.front_of number line.now) }
{
    let mut text = Vec::new(alloc);
    put_number(&mut text, number)?;
    put_cell(out, 5, text.as_slice())?;
    put_cell(out, 5, number_in(line))
}

/// What is drawn of the event at a place, if anything is.
fn drawn_at(rows: &[Drawn], place: usize) -> Option<&Drawn>
    ensures { option_map (λ drawn. drawn.now) result ≡ slice_get rows.entry.now place }
{
    rows.get(place)
}

/// Appends the row of an event, of which this is drawn.
fn put_row(
    alloc: Global,
    out: &mut Vec<u8>,
    number: u64,
    line: &[u8],
    drawn: Option<&Drawn>,
) -> Result<(), AllocError>
    ensures { OnOk result (out.new.items ≡ out.old.items
        ++ witnesses.row_text number line.now (option_map (λ drawn. drawn.now) drawn.entry)) }
{
    let mut words = Vec::new(alloc);
    split_event(line, &mut words)?;
    put_front(alloc, out, number, line)?;
    match drawn {
        None => {
            put_words(out, words.as_slice())?;
            out.extend_from_slice(b"\n")
        }
        Some(drawn) => {
            put_signs(out, drawn.signs.as_slice())?;
            put_words(out, words.as_slice())?;
            put_sent_behind(out, drawn.more.as_slice(), drawn.sent.as_slice())
        }
    }
}

/// Appends a row for each event.
fn put_rows(
    alloc: Global,
    out: &mut Vec<u8>,
    rows: &[Drawn],
    events: Lines<'_>,
) -> Result<(), AllocError>
    ensures { OnOk result (out.new.items ≡ out.old.items
        ++ witnesses.rows_from rows.now 0 (lines_from (events.entry.number + 1) events.entry.rest.now)) }
{
    let mut lines = events;
    let mut place = 0;
    while let Some((_number, line)) = lines.next() {
        put_row(alloc, out, place as u64 + 1, line, drawn_at(rows, place))?;
        place += 1;
    }
    Ok(())
}

/// Appends numbers, a space before each.
fn put_numbers(out: &mut Vec<u8>, numbers: &[usize]) -> Result<(), AllocError>
    ensures { OnOk result (out.new.items ≡ out.old.items ++ flat_map and_number numbers.now) }
{
    for number in numbers {
        put_one(out, *number as u64)?;
    }
    Ok(())
}

/// Appends the head of a rail.
fn put_head(out: &mut Vec<u8>, head: &Head) -> Result<(), AllocError>
    ensures { OnOk result (out.new.items ≡ out.old.items ++ witnesses.head_text head.now) }
{
    put_blanks(out, head.blanks)?;
    put_word(out, head.name.as_slice())?;
    put_numbers(out, head.numbers.as_slice())
}

/// Appends the heads of rails.
fn put_rails(out: &mut Vec<u8>, heads: &[Head]) -> Result<(), AllocError>
    ensures { OnOk result (out.new.items ≡ out.old.items ++ flat_map witnesses.head_text heads.now) }
{
    for head in heads {
        put_head(out, head)?;
    }
    Ok(())
}

/// Appends the heads of columns and rails.
fn put_heads(out: &mut Vec<u8>, heads: &[Head]) -> Result<(), AllocError>
    ensures { OnOk result (out.new.items ≡ out.old.items ++ witnesses.heads_text heads.now) }
{
    put_cell(out, 5, b"event")?;
    put_cell(out, 5, b"line")?;
    put_rails(out, heads)?;
    out.extend_from_slice(b"\n")
}

/// Appends a chart: the first line of a report, and a row for each event.
pub(crate) fn put_sketched(
    alloc: Global,
    out: &mut Vec<u8>,
    report: &[u8],
    events: Lines<'_>,
    sketch: &Sketch,
) -> Result<(), AllocError>
    ensures { OnOk result (out.new.items ≡ out.old.items ++ witnesses.charted report.now sketch.now
        (lines_from (events.entry.number + 1) events.entry.rest.now)) }
{
    out.extend_from_slice(first_line(report))?;
    out.extend_from_slice(b"\n")?;
    put_heads(out, sketch.heads.as_slice())?;
    put_rows(alloc, out, sketch.rows.as_slice(), events)?;
    Ok(())
}
