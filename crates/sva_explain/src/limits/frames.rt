//! Frames of which too few are free, spaces that have too many pages, and pages that are mapped.

ghost use Rattle.std.specs.Prelude.{◌≡◌, ◌++◌, None, OnOk, Some, flat_map, map, option_copied, option_map};
ghost use Rattle.std.specs.List.{find, list_any};
ghost use Rattle.sva_address_spaces.specs.Seen.{pages_seen, places_seen};
ghost use Rattle.sva_frames.specs.Reading.{holding_of};
ghost use Rattle.sva_labels.specs.Finding.{held_by, pages_in};
ghost use Rattle.sva_labels.specs.Replying.{space_of_job};
ghost use Rattle.sva_explain.specs.Frames.{each_space, frames_lines, free_if, free_line, full_of_job};
ghost use Rattle.sva_explain.specs.Frames.{most_pages_line, no_frame, number_where, numbers_line, of_job, pages_if, pages_line};
ghost use Rattle.sva_explain.specs.Frames.{mapped, mapped_line, space_full, space_if, taken_out_text, to_map_line};
ghost use Rattle.sva_explain.specs.Frames.{unmap_text, withheld_by, withheld_if, withheld_line, withheld_lines};
ghost use Rattle.sva_lines.specs.Pieces.{rows};
ghost use Rattle.sva_lines.specs.Words.{is_free, is_withheld};
ghost use Rattle.sva_snapshot.specs.Shown.{job_shown, space_shown};
ghost use Rattle.sva_explain.specs.Units.{held_seen};

use crate::blockers::{Level, put_bracket_of_two, put_held, put_indent, put_invalid, put_start};
use crate::enabled::{binding_of, can_unmap, held_by, mapping_at, pages_in};
use crate::limits::pages::put_new_pages;
use std::alloc::AllocError;
use sva_lines::{end_line, put_field, put_if, put_word};
use sva_snapshot::{Held, Job, Mapping, Snapshot, Space};
use sva_step::Step;

/// Appends in brackets that a page is taken out, where it would be accepted.
fn put_taken_out(
    out: &mut Vec<u8>,
    snapshot: &Snapshot,
    space: u64,
    page: u64,
) -> Result<(), AllocError>
    ensures { OnOk result (out.new.items ≡ out.old.items ++ taken_out_text snapshot.now space page) }
{
    let holds = can_unmap(snapshot, space, page);
    put_bracket_of_two(out, holds, " [unmap ", space, page)
}

/// Appends the same of the first page of these.
fn put_unmap(
    out: &mut Vec<u8>,
    snapshot: &Snapshot,
    space: u64,
    pages: &[Mapping],
) -> Result<(), AllocError>
    ensures { OnOk result (out.new.items ≡ out.old.items ++ unmap_text snapshot.now space (pages_seen pages.now)) }
{
    match pages.first() {
        None => Ok(()),
        Some(mapping) => put_taken_out(out, snapshot, space, mapping.page),
    }
}

/// Appends how many pages a space has.
fn put_pages(
    out: &mut Vec<u8>,
    snapshot: &Snapshot,
    space: u64,
    pages: &[Mapping],
) -> Result<(), AllocError>
    ensures { OnOk result (out.new.items ≡ out.old.items ++ pages_line snapshot.now space (pages_seen pages.now)) }
{
    put_start(out, Level::First, "pages of space ", space)?;
    put_field(out, ": ", pages.len() as u64)?;
    put_unmap(out, snapshot, space, pages)?;
    end_line(out)
}

/// Appends the line of a space, if it has pages.
fn put_pages_if(
    out: &mut Vec<u8>,
    snapshot: &Snapshot,
    space: u64,
    pages: &[Mapping],
) -> Result<(), AllocError>
    ensures { OnOk result (out.new.items ≡ out.old.items ++ pages_if snapshot.now space (pages_seen pages.now)) }
{
    if pages.is_empty() {
        return Ok(());
    }
    put_pages(out, snapshot, space, pages)
}

/// Appends the lines of those of some spaces that have pages.
fn put_spaces_among(
    out: &mut Vec<u8>,
    snapshot: &Snapshot,
    spaces: &[Space],
) -> Result<(), AllocError>
    ensures { OnOk result (out.new.items ≡ out.old.items
        ++ flat_map (space_if snapshot.now) (map space_shown spaces.now)) }
{
    for space in spaces {
        put_pages_if(out, snapshot, space.number, space.pages.as_slice())?;
    }
    Ok(())
}

/// Appends the lines of the spaces that have pages.
fn put_each_space(out: &mut Vec<u8>, snapshot: &Snapshot) -> Result<(), AllocError>
    ensures { OnOk result (out.new.items ≡ out.old.items ++ each_space snapshot.now) }
{
    put_spaces_among(out, snapshot, snapshot.spaces.as_slice())
}

/// Appends a number, where something holds.
fn put_number_where(out: &mut Vec<u8>, holds: bool, number: u64) -> Result<(), AllocError>
    ensures { OnOk result (out.new.items ≡ out.old.items ++ number_where holds number) }
{
    if !holds {
        return Ok(());
    }
    put_field(out, " ", number)
}

/// Is the frame free?
fn is_free(held: &Held) -> bool
    ensures { result ≡ is_free (held_seen held.now) }
{
    matches!(held, Held::Free)
}

/// Is it withheld?
fn is_withheld(held: &Held) -> bool
    ensures { result ≡ is_withheld (held_seen held.now) }
{
    matches!(held, Held::Withheld { .. })
}

/// Is one of these frames free?
fn is_some_free(frames: &[Held]) -> bool
    ensures { result ≡ list_any is_free (map held_seen frames.now) }
{
    for held in frames {
        if is_free(held) {
            return true;
        }
    }
    false
}

/// Appends the numbers of the free frames among these.
fn put_free(out: &mut Vec<u8>, frames: &[Held]) -> Result<(), AllocError>
    ensures { OnOk result (out.new.items ≡ out.old.items ++ rows free_if 0 (map held_seen frames.now)) }
{
    for (frame, held) in frames.iter().enumerate() {
        put_number_where(out, is_free(held), frame as u64)?;
    }
    Ok(())
}

/// Appends which frames are free.
fn put_free_line(out: &mut Vec<u8>, frames: &[Held]) -> Result<(), AllocError>
    ensures { OnOk result (out.new.items ≡ out.old.items ++ free_line (map held_seen frames.now)) }
{
    put_indent(out, Level::First)?;
    if is_some_free(frames) {
        put_word(out, "frames that are free:")?;
        put_free(out, frames)?;
    } else {
        put_word(out, "no frame is free")?;
    }
    end_line(out)
}

/// The first withheld frame among these.
fn first_withheld(frames: &[Held]) -> Option<&Held>
    ensures { option_map held_seen (option_copied result) ≡ find is_withheld (map held_seen frames.now) }
{
    for held in frames {
        if is_withheld(held) {
            return Some(held);
        }
    }
    None
}

/// Appends the numbers of the withheld frames among these.
fn put_withheld(out: &mut Vec<u8>, frames: &[Held]) -> Result<(), AllocError>
    ensures { OnOk result (out.new.items ≡ out.old.items ++ rows withheld_if 0 (map held_seen frames.now)) }
{
    for (frame, held) in frames.iter().enumerate() {
        put_number_where(out, is_withheld(held), frame as u64)?;
    }
    Ok(())
}

/// Appends which frames are withheld.
fn put_withheld_line(out: &mut Vec<u8>, frames: &[Held]) -> Result<(), AllocError>
    ensures { OnOk result (out.new.items ≡ out.old.items ++ withheld_line (map held_seen frames.now)) }
{
    put_indent(out, Level::First)?;
    put_word(out, "frames that are withheld:")?;
    put_withheld(out, frames)?;
    put_word(out, "; the first waits:")?;
    end_line(out)
}

/// Appends which frames of these are free.
fn put_free_among(out: &mut Vec<u8>, frames: &[Held]) -> Result<(), AllocError>
    ensures { OnOk result (out.new.items ≡ out.old.items ++ free_line (places_seen (map holding_of frames.now))) }
{
    put_free_line(out, frames)
}

/// Appends which frames of these are withheld.
fn put_withheld_among(out: &mut Vec<u8>, frames: &[Held]) -> Result<(), AllocError>
    ensures { OnOk result (out.new.items ≡ out.old.items ++ withheld_line (places_seen (map holding_of frames.now))) }
{
    put_withheld_line(out, frames)
}

/// The first withheld frame of these.
fn withheld_among(frames: &[Held]) -> Option<&Held>
    ensures { option_map held_seen (option_copied result)
        ≡ find is_withheld (places_seen (map holding_of frames.now)) }
{
    first_withheld(frames)
}

/// Appends which frames are withheld, and what the first of them waits for.
fn put_withheld_with(out: &mut Vec<u8>, snapshot: &Snapshot, first: &Held) -> Result<(), AllocError>
    ensures { OnOk result (out.new.items ≡ out.old.items
        ++ withheld_by snapshot.now (Some (held_seen first.now))) }
{
    put_withheld_among(out, snapshot.frames.as_slice())?;
    put_held(out, snapshot, first)
}

/// Appends the same, if a frame is withheld.
fn put_withheld_lines(out: &mut Vec<u8>, snapshot: &Snapshot) -> Result<(), AllocError>
    ensures { OnOk result (out.new.items ≡ out.old.items ++ withheld_lines snapshot.now) }
{
    match withheld_among(snapshot.frames.as_slice()) {
        None => Ok(()),
        Some(first) => put_withheld_with(out, snapshot, first),
    }
}

/// Appends which frames are free.
fn put_free_places(out: &mut Vec<u8>, snapshot: &Snapshot) -> Result<(), AllocError>
    ensures { OnOk result (out.new.items ≡ out.old.items ++ free_line snapshot.now.places) }
{
    put_free_among(out, snapshot.frames.as_slice())
}

/// Appends which frames are free and withheld, and which spaces have pages.
fn put_frames_lines(out: &mut Vec<u8>, snapshot: &Snapshot) -> Result<(), AllocError>
    ensures { OnOk result (out.new.items ≡ out.old.items ++ frames_lines snapshot.now) }
{
    put_free_places(out, snapshot)?;
    put_withheld_lines(out, snapshot)?;
    put_each_space(out, snapshot)
}

/// Appends the pages that a success would map.
fn put_to_map(
    out: &mut Vec<u8>,
    snapshot: &Snapshot,
    worker: u64,
    job: &Job,
) -> Result<(), AllocError>
    ensures { OnOk result (out.new.items ≡ out.old.items ++ to_map_line snapshot.now worker (job_shown job.now)) }
{
    put_indent(out, Level::First)?;
    put_word(out, "pages to be mapped:")?;
    put_new_pages(out, snapshot, job)?;
    put_invalid(out, snapshot, worker)?;
    end_line(out)
}

/// Appends those of the job in a worker's hand.
fn put_to_map_of(out: &mut Vec<u8>, snapshot: &Snapshot, worker: u64) -> Result<(), AllocError>
    ensures { OnOk result (out.new.items ≡ out.old.items
        ++ of_job (to_map_line snapshot.now worker) (held_by snapshot.now worker)) }
{
    match held_by(snapshot, worker) {
        None => Ok(()),
        Some(job) => put_to_map(out, snapshot, worker, job),
    }
}

/// Appends which numbers frames have.
fn put_numbers(out: &mut Vec<u8>, frames: &[Held]) -> Result<(), AllocError>
    ensures { OnOk result (out.new.items ≡ out.old.items
        ++ numbers_line (places_seen (map holding_of frames.now))) }
{
    let count = frames.len() as u64;
    put_start(out, Level::First, "frames have numbers below ", count)?;
    end_line(out)
}

/// Appends which frames a step lacks, and who has them.
pub fn put_no_frame(out: &mut Vec<u8>, snapshot: &Snapshot, step: &Step) -> Result<(), AllocError>
    ensures { OnOk result (out.new.items ≡ out.old.items ++ no_frame snapshot.now step.now) }
{
    match step {
        Step::Reply { worker, .. } => {
            put_to_map_of(out, snapshot, *worker)?;
            put_frames_lines(out, snapshot)
        }
        Step::Look { .. } => put_numbers(out, snapshot.frames.as_slice()),
        _ => put_frames_lines(out, snapshot),
    }
}

/// Appends how many pages a space may have.
fn put_most_pages(out: &mut Vec<u8>) -> Result<(), AllocError>
    ensures { OnOk result (out.new.items ≡ out.old.items ++ most_pages_line) }
{
    put_indent(out, Level::First)?;
    put_word(out, "a space has 1024 pages at most")?;
    end_line(out)
}

/// Appends how many pages the space of a number has.
fn put_pages_at(out: &mut Vec<u8>, snapshot: &Snapshot, space: u64) -> Result<(), AllocError>
    ensures { OnOk result (out.new.items ≡ out.old.items
        ++ pages_line snapshot.now space (pages_in snapshot.now space)) }
{
    put_pages(out, snapshot, space, pages_in(snapshot, space))
}

/// The number of the space for which a job asks; 0 where its binding is released.
fn space_of_job(snapshot: &Snapshot, job: &Job) -> u64
    ensures { result ≡ space_of_job snapshot.now (job_shown job.now) }
{
    match binding_of(snapshot, job.binding) {
        None => 0,
        Some(binding) => binding.space,
    }
}

/// Appends how many pages the space of a job has.
fn put_pages_of_job(out: &mut Vec<u8>, snapshot: &Snapshot, job: &Job) -> Result<(), AllocError>
    ensures { OnOk result (out.new.items ≡ out.old.items
        ++ pages_line snapshot.now (space_of_job snapshot.now (job_shown job.now))
        (pages_in snapshot.now (space_of_job snapshot.now (job_shown job.now)))) }
{
    put_pages_at(out, snapshot, space_of_job(snapshot, job))
}

/// Appends the pages that a success would map, and how many its space has.
fn put_full_of_job(
    out: &mut Vec<u8>,
    snapshot: &Snapshot,
    worker: u64,
    job: &Job,
) -> Result<(), AllocError>
    ensures { OnOk result (out.new.items ≡ out.old.items ++ full_of_job snapshot.now worker (job_shown job.now)) }
{
    put_to_map(out, snapshot, worker, job)?;
    put_pages_of_job(out, snapshot, job)
}

/// Appends the same of the job in a worker's hand.
fn put_full_of(out: &mut Vec<u8>, snapshot: &Snapshot, worker: u64) -> Result<(), AllocError>
    ensures { OnOk result (out.new.items ≡ out.old.items
        ++ of_job (full_of_job snapshot.now worker) (held_by snapshot.now worker)) }
{
    match held_by(snapshot, worker) {
        None => Ok(()),
        Some(job) => put_full_of_job(out, snapshot, worker, job),
    }
}

/// Appends how many pages the space of a step has, and may have.
pub fn put_space_full(out: &mut Vec<u8>, snapshot: &Snapshot, step: &Step) -> Result<(), AllocError>
    ensures { OnOk result (out.new.items ≡ out.old.items ++ space_full snapshot.now step.now) }
{
    put_most_pages(out)?;
    match step {
        Step::Map { space, .. } => put_pages_at(out, snapshot, *space),
        Step::Reply { worker, .. } => put_full_of(out, snapshot, *worker),
        _ => Ok(()),
    }
}

/// Appends the line of a page that is mapped.
fn put_mapped_line(
    out: &mut Vec<u8>,
    snapshot: &Snapshot,
    space: u64,
    page: u64,
    frame: u32,
    write: bool,
) -> Result<(), AllocError>
    ensures { OnOk result (out.new.items ≡ out.old.items
        ++ mapped_line snapshot.now space (record { page = page; frame = frame; write = write })) }
{
    put_start(out, Level::First, "page ", page)?;
    put_field(out, " of space ", space)?;
    put_field(out, " is mapped: frame ", u64::from(frame))?;
    put_if(out, write, " w")?;
    put_taken_out(out, snapshot, space, page)?;
    end_line(out)
}

/// Appends the frame to which the page of a step leads.
pub fn put_mapped(out: &mut Vec<u8>, snapshot: &Snapshot, step: &Step) -> Result<(), AllocError>
    ensures { OnOk result (out.new.items ≡ out.old.items ++ mapped snapshot.now step.now) }
{
    match step {
        Step::Map { space, page, .. } => match mapping_at(snapshot, *space, *page) {
            None => Ok(()),
            Some(it) => put_mapped_line(out, snapshot, *space, it.page, it.frame, it.write),
        },
        _ => Ok(()),
    }
}
