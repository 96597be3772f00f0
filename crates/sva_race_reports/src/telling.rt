//! The lines of the ends.

ghost use Rattle.std.specs.Prelude.{◌≡◌, ◌++◌, ◌+◌, ◌<◌, ◌^◌, [], OnOk, get_or, length};
ghost use Rattle.sva_lines.specs.Pieces.{rows};
ghost use Rattle.sva_race_reports.specs.Kinds.{counted_text, end_texts, kind_line, kind_line_if, kinds_text, left_out};
ghost use Rattle.sva_race_reports.specs.Kinds.{left_out_if, most_told};

use crate::kinds::{Kinds, kinds_of};
use std::alloc::{AllocError, Global};
use sva_race::{Choice, End, Race};
use sva_script_reading::put_number;
use sva_search::End as Told;

/// So many texts are told where the list is to be short.
const MOST_TOLD: usize = 20;

/// Appends a count, with the word for one or for more.
pub fn put_counted(out: &mut Vec<u8>, count: usize, one: &str, more: &str) -> Result<(), AllocError>
    ensures { OnOk result (out.new.items ≡ out.old.items ++ counted_text count one.now more.now) }
{
    put_number(out, count as u64)?;
    out.extend_from_slice(b" ")?;
    out.extend_from_slice(if count == 1 {
        one.as_bytes()
    } else {
        more.as_bytes()
    })
}

/// Appends the line of a text that so many ends have.
fn put_kind(out: &mut Vec<u8>, place: usize, text: &[u8], times: u64) -> Result<(), AllocError>
    requires { place + 1 < 2 ^ 64 }
    ensures { OnOk result (out.new.items ≡ out.old.items ++ kind_line place (text.now, times)) }
{
    out.extend_from_slice(b"end ")?;
    put_number(out, place as u64 + 1)?;
    out.extend_from_slice(b": ")?;
    out.extend_from_slice(text)?;
    out.extend_from_slice(b" (")?;
    put_counted(out, times as usize, "moment", "moments")?;
    out.extend_from_slice(b")\n")
}

/// Appends that line, unless the list is to be short and has enough.
fn put_kind_if(
    out: &mut Vec<u8>,
    few_ends: bool,
    place: usize,
    text: &[u8],
    times: u64,
) -> Result<(), AllocError>
    requires { place + 1 < 2 ^ 64 }
    ensures { OnOk result (out.new.items ≡ out.old.items ++ kind_line_if few_ends place (text.now, times)) }
{
    if few_ends && place >= MOST_TOLD {
        return Ok(());
    }
    put_kind(out, place, text, times)
}

/// Appends the line of the text of a place.
fn put_at(out: &mut Vec<u8>, few_ends: bool, kinds: &Kinds, place: usize) -> Result<(), AllocError>
    requires within { place < length kinds.now }
    requires number { place + 1 < 2 ^ 64 }
    ensures { OnOk result (out.new.items
        ≡ out.old.items ++ kind_line_if few_ends place (get_or kinds.now place ([], 0))) }
{
    match kinds.at(place) {
        Some((text, times)) => put_kind_if(out, few_ends, place, text, times),
        None => Ok(()),
    }
}

/// Appends the lines of texts.
fn put_lines(out: &mut Vec<u8>, few_ends: bool, kinds: &Kinds) -> Result<(), AllocError>
    ensures { OnOk result (out.new.items ≡ out.old.items ++ rows (kind_line_if few_ends) 0 kinds.now) }
{
    for place in 0..kinds.len() {
        put_at(out, few_ends, kinds, place)?;
    }
    Ok(())
}

/// Appends how many texts are left out.
fn put_left_out(out: &mut Vec<u8>, count: usize) -> Result<(), AllocError>
    ensures { OnOk result (out.new.items ≡ out.old.items ++ left_out count) }
{
    out.extend_from_slice(b"ends left out: ")?;
    put_number(out, count as u64)?;
    out.extend_from_slice(b"\n")
}

/// Appends that, if any are.
fn put_left_out_if(out: &mut Vec<u8>, few_ends: bool, kinds: usize) -> Result<(), AllocError>
    ensures { OnOk result (out.new.items ≡ out.old.items ++ left_out_if few_ends kinds) }
{
    if few_ends && kinds > MOST_TOLD {
        put_left_out(out, kinds - MOST_TOLD)
    } else {
        Ok(())
    }
}

/// Appends what the ends of a race come to: a line for each text, in the order in which the first end that has it was
/// found, with how many ends have it. A short list has the first 20, and how many more there are.
///
/// Of each line behind `race` a text has what it was answered, or that it waits, if it has a name; else that its thread
/// waits there, where it does. Behind these are the counts of the frames. `threads` has the name of each line's thread.
pub fn put_end_texts(
    alloc: Global,
    out: &mut Vec<u8>,
    race: &Race,
    threads: &[Vec<u8>],
    few_ends: bool,
    ends: &[Told<Choice, End>],
) -> Result<(), AllocError>
    ensures { OnOk result (out.new.items ≡ out.old.items ++ end_texts race.now threads.now few_ends ends.now) }
{
    let kinds = kinds_of(alloc, race, threads, ends)?;
    put_lines(out, few_ends, &kinds)?;
    put_left_out_if(out, few_ends, kinds.len())
}
