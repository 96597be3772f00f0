//! What an end of a race comes to, as a text.

ghost use Rattle.std.specs.Prelude.{◌≡◌, ◌++◌, [], IfOk, None, OnOk, codes, count_by, decimal, if◌then◌else◌, map, option_map};
ghost use Rattle.std.specs.Prelude.{slice_get, slice_index_or};
ghost use Rattle.sva_frames.specs.Reading.{holding_of};
ghost use Rattle.sva_address_spaces.specs.Seen.{places_seen};
ghost use Rattle.sva_address_spaces.specs.Steps.{is_mapped_place, is_withheld_place};
ghost use Rattle.sva_labels.specs.Finding.{is_free};
ghost use Rattle.sva_lines.specs.Pieces.{rows};
ghost use Rattle.sva_race.specs.Moments.{is_next, was_taken};
ghost use Rattle.sva_reports.specs.Counts.{counts_at};
ghost use Rattle.sva_race_reports.specs.Ends.{end_text, named_piece, nameless_piece, piece, piece_by};

use std::alloc::{AllocError, Global};
use sva_race::{End, Line, Race};
use sva_script::Told;
use sva_script_reading::{put_number, put_reply};
use sva_snapshot::Held;

/// Whether the line of a place was taken. One that there isn't was.
fn was_taken(end: &End, place: usize) -> bool
    ensures { result ≡ was_taken end.now place }
{
    end.taken.get(place).copied().unwrap_or(true)
}

/// Whether it is the next line of its thread.
fn is_next(end: &End, place: usize, line: &Line) -> bool
    ensures { result ≡ is_next end.now place line.now }
{
    if was_taken(end, place) {
        return false;
    }
    match line.after {
        None => true,
        Some(before) => was_taken(end, before),
    }
}

/// What a line with a name came to, if it was taken.
fn told_at(end: &End, place: usize) -> Option<Told>
    ensures { result ≡ slice_index_or end.now.told place None }
{
    match end.told.get(place) {
        Some(told) => *told,
        None => None,
    }
}

/// Appends what a line with a name was answered, or that it waits.
fn put_named(out: &mut Vec<u8>, name: &[u8], told: Option<Told>) -> Result<(), AllocError>
    ensures { OnOk result (out.new.items ≡ out.old.items ++ named_piece name.now told) }
{
    out.extend_from_slice(name)?;
    match told {
        None => out.extend_from_slice(b" waits; "),
        Some(told) => {
            out.extend_from_slice(b" ")?;
            put_reply(out, &told.reply)?;
            out.extend_from_slice(b"; ")
        }
    }
}

/// Appends that a thread waits at a line, where that is its next.
fn put_waits(out: &mut Vec<u8>, is_next: bool, thread: &[u8], line: u64) -> Result<(), AllocError>
    ensures { OnOk result (out.new.items ≡ out.old.items
        ++ (if is_next then thread.now ++ codes " waits at line " ++ decimal line ++ codes "; " else [])) }
{
    if !is_next {
        return Ok(());
    }
    out.extend_from_slice(thread)?;
    out.extend_from_slice(b" waits at line ")?;
    put_number(out, line)?;
    out.extend_from_slice(b"; ")
}

/// Appends that, if there is such a thread.
fn put_nameless(
    out: &mut Vec<u8>,
    is_next: bool,
    thread: Option<&Vec<u8>>,
    line: u64,
) -> Result<(), AllocError>
    ensures { OnOk result (out.new.items
        ≡ out.old.items ++ nameless_piece is_next (option_map (λ thread. thread.now) thread.entry) line) }
{
    match thread {
        Some(thread) => put_waits(out, is_next, thread.as_slice(), line),
        None => Ok(()),
    }
}

/// Appends what is said of the line of a place.
fn put_piece_by(
    out: &mut Vec<u8>,
    threads: &[Vec<u8>],
    end: &End,
    place: usize,
    line: &Line,
) -> Result<(), AllocError>
    ensures { OnOk result (out.new.items
        ≡ out.old.items ++ piece_by threads.now end.now place line.now line.now.name) }
{
    match &line.name {
        Some(name) => put_named(out, name.as_slice(), told_at(end, place)),
        None => put_nameless(
            out,
            is_next(end, place, line),
            threads.get(place),
            line.number,
        ),
    }
}

/// Appends what is said of the line of a place, if it stands behind `race`.
fn put_piece(
    out: &mut Vec<u8>,
    race: &Race,
    threads: &[Vec<u8>],
    end: &End,
    place: usize,
    line: &Line,
) -> Result<(), AllocError>
    ensures { OnOk result (out.new.items ≡ out.old.items ++ piece race.now threads.now end.now place line.now) }
{
    if place < race.before {
        return Ok(());
    }
    put_piece_by(out, threads, end, place, line)
}

/// Appends what is said of these lines.
fn put_pieces(
    out: &mut Vec<u8>,
    race: &Race,
    threads: &[Vec<u8>],
    end: &End,
    lines: &[Line],
) -> Result<(), AllocError>
    ensures { OnOk result (out.new.items ≡ out.old.items ++ rows (piece race.now threads.now end.now) 0 lines.now) }
{
    for (place, line) in lines.iter().enumerate() {
        put_piece(out, race, threads, end, place, line)?;
    }
    Ok(())
}

/// How many frames are free.
fn free(frames: &[Held]) -> usize
    ensures { result ≡ count_by is_free (places_seen (map holding_of frames.now)) }
{
    frames
        .iter()
        .filter(|held| matches!(held, Held::Free))
        .count()
}

/// How many frames are mapped.
fn mapped(frames: &[Held]) -> usize
    ensures { result ≡ count_by is_mapped_place (places_seen (map holding_of frames.now)) }
{
    frames
        .iter()
        .filter(|held| matches!(held, Held::Mapped))
        .count()
}

/// How many frames are withheld.
fn withheld(frames: &[Held]) -> usize
    ensures { result ≡ count_by is_withheld_place (places_seen (map holding_of frames.now)) }
{
    frames
        .iter()
        .filter(|held| matches!(held, Held::Withheld { .. }))
        .count()
}

/// Appends the counts of the frames.
fn put_frames(out: &mut Vec<u8>, end: &End) -> Result<(), AllocError>
    ensures { OnOk result (out.new.items ≡ out.old.items ++ counts_at end.now.wire) }
{
    let frames = end.kept.frames.as_slice();
    out.extend_from_slice(b"free ")?;
    put_number(out, free(frames) as u64)?;
    out.extend_from_slice(b" mapped ")?;
    put_number(out, mapped(frames) as u64)?;
    out.extend_from_slice(b" withheld ")?;
    put_number(out, withheld(frames) as u64)
}

/// The text of an end.
pub(crate) fn text_of(
    alloc: Global,
    race: &Race,
    threads: &[Vec<u8>],
    end: &End,
) -> Result<Vec<u8>, AllocError>
    ensures { IfOk result (λ text. text.items ≡ end_text race.now threads.now end.now) }
{
    let mut text = Vec::new(alloc);
    put_pieces(&mut text, race, threads, end, race.lines.as_slice())?;
    put_frames(&mut text, end)?;
    Ok(text)
}
