//! ITags that are busy: the uses for which an invalidation waits.

ghost use Rattle.std.specs.Prelude.{◌≡◌, ◌++◌, None, OnOk, map, option_map, slice_index_or};
ghost use Rattle.sva_iommu.specs.Seen.{busy_seen};
ghost use Rattle.sva_labels.specs.Finding.{taken_at, use_at};
ghost use Rattle.sva_lines.specs.Pieces.{rows};
ghost use Rattle.sva_parts_by_labels.specs.Device.{slot_seen, taken_seen};
ghost use Rattle.sva_snapshot.specs.Shown.{endpoint_shown};
ghost use Rattle.sva_explain.specs.Units.{busy_if, busy_lines, end_text, finish_text, taken_line, taken_lines};
ghost use Rattle.sva_explain.specs.Units.{taken_text, use_text, waits_for_lines, waits_if, waits_line};

use crate::blockers::levels::{Level, below, put_bracket_of_two, put_indent, put_start};
use crate::blockers::link::{Topic, put_about};
use crate::enabled::{can_end, can_finish, taken_at, vector_of};
use std::alloc::AllocError;
use sva_lines::{end_line, put_busy, put_extent, put_field, put_translation, put_vector, put_word};
use sva_snapshot::{Busy, Endpoint, Snapshot, Taken, UseSlot};

/// Appends what a use is of.
pub fn put_use(out: &mut Vec<u8>, place: &UseSlot) -> Result<(), AllocError>
    ensures { OnOk result (out.new.items ≡ out.old.items ++ use_text (slot_seen place.now)) }
{
    match place {
        UseSlot::Free | UseSlot::Dead => Ok(()),
        UseSlot::Running(used) => {
            put_word(out, ":")?;
            put_translation(
                out,
                u64::from(used.pasid),
                used.page,
                used.frame,
                used.write,
            )
        }
    }
}

/// Appends what the use in a slot is of, of these slots.
fn put_use_at(out: &mut Vec<u8>, slots: &[UseSlot], slot: u64) -> Result<(), AllocError>
    ensures { OnOk result (out.new.items ≡ out.old.items
        ++ use_text (slice_index_or (map slot_seen slots.now) slot None)) }
{
    match slots.get(slot as usize) {
        None => Ok(()),
        Some(place) => put_use(out, place),
    }
}

/// Appends what the use in a slot of the endpoint is of.
fn put_use_of(out: &mut Vec<u8>, part: &Endpoint, slot: u64) -> Result<(), AllocError>
    ensures { OnOk result (out.new.items ≡ out.old.items
        ++ use_text (use_at (endpoint_shown part.now).device slot)) }
{
    put_use_at(out, part.device.slots.as_slice(), slot)
}

/// Appends the end of a use in brackets.
pub fn put_end(
    out: &mut Vec<u8>,
    snapshot: &Snapshot,
    endpoint: u64,
    slot: u64,
) -> Result<(), AllocError>
    ensures { OnOk result (out.new.items ≡ out.old.items ++ end_text snapshot.now endpoint slot) }
{
    let holds = can_end(snapshot, endpoint, slot);
    put_bracket_of_two(out, holds, " [end ", endpoint, slot)
}

/// Appends the line of a use for which an invalidation waits.
fn put_waits(
    out: &mut Vec<u8>,
    level: Level,
    snapshot: &Snapshot,
    endpoint: u64,
    part: &Endpoint,
    itag: u64,
    slot: u64,
) -> Result<(), AllocError>
    ensures { OnOk result (out.new.items ≡ out.old.items
        ++ waits_line level snapshot.now endpoint (endpoint_shown part.now) itag slot) }
{
    put_start(out, level, "itag ", itag)?;
    put_field(out, " waits for use ", slot)?;
    put_use_of(out, part, slot)?;
    put_end(out, snapshot, endpoint, slot)?;
    end_line(out)
}

/// Appends the line of a use, if the invalidation noted it.
fn put_waits_if(
    out: &mut Vec<u8>,
    level: Level,
    snapshot: &Snapshot,
    endpoint: u64,
    part: &Endpoint,
    itag: u64,
    slot: u64,
    noted: bool,
) -> Result<(), AllocError>
    ensures { OnOk result (out.new.items ≡ out.old.items
        ++ waits_if level snapshot.now endpoint (endpoint_shown part.now) itag slot noted) }
{
    if noted {
        put_waits(out, level, snapshot, endpoint, part, itag, slot)
    } else {
        Ok(())
    }
}

/// Appends the lines of the uses that are noted in these slots.
fn put_each_wait(
    out: &mut Vec<u8>,
    level: Level,
    snapshot: &Snapshot,
    endpoint: u64,
    part: &Endpoint,
    itag: u64,
    slots: &[bool],
) -> Result<(), AllocError>
    ensures { OnOk result (out.new.items ≡ out.old.items
        ++ rows (waits_if level snapshot.now endpoint (endpoint_shown part.now) itag) 0 slots.now) }
{
    for (slot, noted) in slots.iter().enumerate() {
        put_waits_if(
            out,
            level,
            snapshot,
            endpoint,
            part,
            itag,
            slot as u64,
            *noted,
        )?;
    }
    Ok(())
}

/// Appends the lines of the uses that an invalidation noted.
pub fn put_waits_for(
    out: &mut Vec<u8>,
    level: Level,
    snapshot: &Snapshot,
    endpoint: u64,
    part: &Endpoint,
    itag: u64,
    taken: &Taken,
) -> Result<(), AllocError>
    ensures { OnOk result (out.new.items ≡ out.old.items
        ++ waits_for_lines level snapshot.now endpoint (endpoint_shown part.now) itag (taken_seen taken.now)) }
{
    put_each_wait(out, level, snapshot, endpoint, part, itag, &taken.noted)
}

/// Appends that the endpoint finishes an invalidation, in brackets, where that would be accepted.
fn put_finish(
    out: &mut Vec<u8>,
    snapshot: &Snapshot,
    endpoint: u64,
    itag: u64,
) -> Result<(), AllocError>
    ensures { OnOk result (out.new.items ≡ out.old.items ++ finish_text snapshot.now endpoint itag) }
{
    let vector = vector_of(itag);
    if !can_finish(snapshot, endpoint, vector) {
        return Ok(());
    }
    put_field(out, " [finish ", endpoint)?;
    put_word(out, " ")?;
    put_vector(out, vector)?;
    put_word(out, " 1]")
}

/// Appends that the endpoint has taken an invalidation.
fn put_taken_text(
    out: &mut Vec<u8>,
    level: Level,
    endpoint: u64,
    taken: &Taken,
) -> Result<(), AllocError>
    ensures { OnOk result (out.new.items ≡ out.old.items ++ taken_text level endpoint (taken_seen taken.now)) }
{
    put_indent(out, level)?;
    put_field(out, "endpoint ", endpoint)?;
    put_field(
        out,
        " has taken it: pasid ",
        u64::from(taken.invalidation.pasid),
    )?;
    put_extent(out, taken.invalidation.extent)
}

/// Appends the line of an invalidation that the endpoint has taken.
fn put_taken_line(
    out: &mut Vec<u8>,
    level: Level,
    snapshot: &Snapshot,
    endpoint: u64,
    itag: u64,
    taken: &Taken,
) -> Result<(), AllocError>
    ensures { OnOk result (out.new.items ≡ out.old.items
        ++ taken_line level snapshot.now endpoint itag (taken_seen taken.now)) }
{
    put_taken_text(out, level, endpoint, taken)?;
    put_finish(out, snapshot, endpoint, itag)?;
    end_line(out)
}

/// Appends the lines of an invalidation that the endpoint has taken.
fn put_taken(
    out: &mut Vec<u8>,
    level: Level,
    snapshot: &Snapshot,
    endpoint: u64,
    part: &Endpoint,
    itag: u64,
) -> Result<(), AllocError>
    ensures { OnOk result (out.new.items ≡ out.old.items
        ++ taken_lines level snapshot.now endpoint (endpoint_shown part.now) itag
        (taken_at (endpoint_shown part.now).device itag)) }
{
    let Some(taken) = taken_at(&part.device, itag) else {
        return Ok(());
    };
    put_taken_line(out, level, snapshot, endpoint, itag, taken)?;
    put_waits_for(out, below(level), snapshot, endpoint, part, itag, taken)
}

/// Appends the lines of an ITag, if it is busy.
fn put_busy_if(
    out: &mut Vec<u8>,
    level: Level,
    snapshot: &Snapshot,
    unit: u64,
    part: &Endpoint,
    itag: u64,
    place: &Option<Busy>,
) -> Result<(), AllocError>
    ensures { OnOk result (out.new.items ≡ out.old.items
        ++ busy_if level snapshot.now unit (endpoint_shown part.now) itag (option_map busy_seen place.now)) }
{
    let Some(busy) = place else {
        return Ok(());
    };
    put_indent(out, level)?;
    put_field(out, "itag ", itag)?;
    put_word(out, " is busy")?;
    put_busy(out, busy)?;
    end_line(out)?;
    put_about(out, below(level), snapshot, unit, Topic::Itag(itag))?;
    put_taken(out, below(level), snapshot, unit, part, itag)
}

/// Appends the lines of the ITags that are busy.
pub(crate) fn put_busy_itags(
    out: &mut Vec<u8>,
    level: Level,
    snapshot: &Snapshot,
    unit: u64,
    part: &Endpoint,
) -> Result<(), AllocError>
    ensures { OnOk result (out.new.items ≡ out.old.items
        ++ busy_lines level snapshot.now unit (endpoint_shown part.now)) }
{
    for (itag, place) in part.unit.busy.as_slice().iter().enumerate() {
        put_busy_if(out, level, snapshot, unit, part, itag as u64, place)?;
    }
    Ok(())
}
