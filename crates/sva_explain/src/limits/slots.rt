//! Use slots that are all taken.

ghost use Rattle.std.specs.Prelude.{◌≡◌, ◌++◌, OnOk, map};
ghost use Rattle.sva_explain.specs.Slots.{each_slot, no_slot, no_slot_lines, slot_if, slot_line, slots_line};
ghost use Rattle.sva_parts_by_labels.specs.Device.{slot_seen};
ghost use Rattle.sva_snapshot.specs.Shown.{endpoint_shown};

use crate::blockers::{Level, put_end, put_indent, put_start, put_use};
use crate::enabled::part_at;
use std::alloc::AllocError;
use sva_lines::{end_line, put_field, put_word};
use sva_snapshot::{Endpoint, Snapshot, UseSlot};
use sva_step::Step;

/// Appends the line of a use.
fn put_slot(
    out: &mut Vec<u8>,
    snapshot: &Snapshot,
    endpoint: u64,
    slot: u64,
    stands: &str,
    place: &UseSlot,
) -> Result<(), AllocError>
    ensures { OnOk result (out.new.items ≡ out.old.items
        ++ slot_line snapshot.now endpoint slot stands.now (slot_seen place.now)) }
{
    put_indent(out, Level::Second)?;
    put_field(out, "use ", slot)?;
    put_word(out, stands)?;
    put_use(out, place)?;
    put_end(out, snapshot, endpoint, slot)?;
    end_line(out)
}

/// Appends the line of a use, if the slot is taken.
fn put_slot_if(
    out: &mut Vec<u8>,
    snapshot: &Snapshot,
    endpoint: u64,
    slot: u64,
    place: &UseSlot,
) -> Result<(), AllocError>
    ensures { OnOk result (out.new.items ≡ out.old.items
        ++ slot_if snapshot.now endpoint slot (slot_seen place.now)) }
{
    match place {
        UseSlot::Free => Ok(()),
        UseSlot::Running(_) => put_slot(out, snapshot, endpoint, slot, " runs", place),
        UseSlot::Dead => put_slot(out, snapshot, endpoint, slot, " is dead", place),
    }
}

/// Appends the lines of the uses.
fn put_each_slot(
    out: &mut Vec<u8>,
    snapshot: &Snapshot,
    endpoint: u64,
    part: &Endpoint,
) -> Result<(), AllocError>
    ensures { OnOk result (out.new.items ≡ out.old.items
        ++ each_slot snapshot.now endpoint (endpoint_shown part.now)) }
{
    for (slot, place) in part.device.slots.as_slice().iter().enumerate() {
        put_slot_if(out, snapshot, endpoint, slot as u64, place)?;
    }
    Ok(())
}

/// Appends that no slot is free.
fn put_slots_line(out: &mut Vec<u8>, level: Level, endpoint: u64) -> Result<(), AllocError>
    ensures { OnOk result (out.new.items ≡ out.old.items ++ slots_line level endpoint) }
{
    put_start(
        out,
        level,
        "all 16 use slots are taken at endpoint ",
        endpoint,
    )?;
    end_line(out)
}

/// Appends that no slot is free, and the uses.
fn put_no_slot_lines(
    out: &mut Vec<u8>,
    snapshot: &Snapshot,
    endpoint: u64,
    part: &Endpoint,
) -> Result<(), AllocError>
    ensures { OnOk result (out.new.items ≡ out.old.items
        ++ no_slot_lines snapshot.now endpoint (endpoint_shown part.now)) }
{
    put_slots_line(out, Level::First, endpoint)?;
    put_each_slot(out, snapshot, endpoint, part)
}

/// Appends the uses that leave no slot to a step.
pub fn put_no_slot(out: &mut Vec<u8>, snapshot: &Snapshot, step: &Step) -> Result<(), AllocError>
    ensures { OnOk result (out.new.items ≡ out.old.items ++ no_slot snapshot.now step.now) }
{
    match step {
        Step::BeginUse { endpoint, .. } => match part_at(snapshot, *endpoint) {
            None => Ok(()),
            Some(part) => put_no_slot_lines(out, snapshot, *endpoint, part),
        },
        _ => Ok(()),
    }
}
