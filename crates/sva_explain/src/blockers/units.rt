//! Units: a reset, a queue whose head is blocked, waits that aren't done, a queue without room.

ghost use Rattle.std.specs.Prelude.{◌≡◌, ◌++◌, OnOk};
ghost use Rattle.sva_snapshot.specs.Shown.{endpoint_shown};
ghost use Rattle.sva_explain.specs.Units.{blocked_lines, in_reset_lines, is_stuck, no_itag_lines, pump_lines};
ghost use Rattle.sva_explain.specs.Units.{pump_text, requests_line, reset_if, room_lines, wait_blocked_lines, wait_if};
ghost use Rattle.sva_explain.specs.Units.{wait_lines, count_text, full_line, no_room_lines, queued_text, wait_line};

use crate::blockers::itags::put_busy_itags;
use crate::blockers::levels::{Level, below, put_bracket, put_indent, put_start};
use crate::blockers::link::{Topic, put_about};
use crate::enabled::{can_pump, can_serve, has_room, is_full, is_some_busy};
use std::alloc::AllocError;
use sva_lines::{end_line, put_field, put_word};
use sva_snapshot::{Descriptor, Endpoint, Snapshot};

/// Appends the lines of a unit in reset.
pub fn put_in_reset(
    out: &mut Vec<u8>,
    level: Level,
    snapshot: &Snapshot,
    unit: u64,
) -> Result<(), AllocError>
    ensures { OnOk result (out.new.items ≡ out.old.items ++ in_reset_lines level snapshot.now unit) }
{
    put_indent(out, level)?;
    put_field(out, "unit ", unit)?;
    put_word(out, " is in reset")?;
    end_line(out)?;
    put_about(out, below(level), snapshot, unit, Topic::Reset)
}

/// Appends the lines of a unit, if it is in reset.
pub fn put_reset_if(
    out: &mut Vec<u8>,
    level: Level,
    snapshot: &Snapshot,
    unit: u64,
    part: &Endpoint,
) -> Result<(), AllocError>
    ensures { OnOk result (out.new.items ≡ out.old.items
        ++ reset_if level snapshot.now unit (endpoint_shown part.now)) }
{
    if part.unit.is_open {
        Ok(())
    } else {
        put_in_reset(out, level, snapshot, unit)
    }
}

/// Appends how many page requests wait, if some do.
fn put_requests(
    out: &mut Vec<u8>,
    level: Level,
    snapshot: &Snapshot,
    unit: u64,
    part: &Endpoint,
) -> Result<(), AllocError>
    ensures { OnOk result (out.new.items ≡ out.old.items
        ++ requests_line level snapshot.now unit (endpoint_shown part.now)) }
{
    if part.page_queue.is_empty() {
        return Ok(());
    }
    put_indent(out, level)?;
    put_field(out, "page requests wait at unit ", unit)?;
    put_field(out, ": ", part.page_queue.len() as u64)?;
    put_bracket(out, can_serve(snapshot, unit), " [serve ", unit)?;
    end_line(out)
}

/// Appends the lines of all ITags, if none is free.
fn put_no_itag(
    out: &mut Vec<u8>,
    level: Level,
    snapshot: &Snapshot,
    unit: u64,
    part: &Endpoint,
) -> Result<(), AllocError>
    ensures { OnOk result (out.new.items ≡ out.old.items
        ++ no_itag_lines level snapshot.now unit (endpoint_shown part.now)) }
{
    if !is_full(&part.unit) {
        return Ok(());
    }
    put_indent(out, level)?;
    put_field(out, "no itag of unit ", unit)?;
    put_word(out, " is free")?;
    end_line(out)?;
    put_busy_itags(out, below(level), snapshot, unit, part)
}

/// Appends what blocks a wait.
fn put_wait_blocked(
    out: &mut Vec<u8>,
    level: Level,
    snapshot: &Snapshot,
    unit: u64,
    part: &Endpoint,
    drain: bool,
) -> Result<(), AllocError>
    ensures { OnOk result (out.new.items ≡ out.old.items
        ++ wait_blocked_lines level snapshot.now unit (endpoint_shown part.now) drain) }
{
    put_busy_itags(out, level, snapshot, unit, part)?;
    if drain {
        put_requests(out, level, snapshot, unit, part)
    } else {
        Ok(())
    }
}

/// Appends what blocks the head of the queue.
pub fn put_blocked(
    out: &mut Vec<u8>,
    level: Level,
    snapshot: &Snapshot,
    unit: u64,
    part: &Endpoint,
) -> Result<(), AllocError>
    ensures { OnOk result (out.new.items ≡ out.old.items
        ++ blocked_lines level snapshot.now unit (endpoint_shown part.now) (endpoint_shown part.now).unit.queue) }
{
    match part.unit.queue.as_slice().first() {
        None => Ok(()),
        Some(Descriptor::Range { .. }) | Some(Descriptor::Pasid { .. }) => {
            put_no_itag(out, level, snapshot, unit, part)
        }
        Some(Descriptor::Wait { drain, .. }) => {
            put_wait_blocked(out, level, snapshot, unit, part, *drain)
        }
    }
}

/// Is there no head, or is it blocked?
fn is_stuck(part: &Endpoint) -> bool
    ensures { result ≡ is_stuck (endpoint_shown part.now) (endpoint_shown part.now).unit.queue }
{
    match part.unit.queue.as_slice().first() {
        None => true,
        Some(Descriptor::Range { .. }) | Some(Descriptor::Pasid { .. }) => is_full(&part.unit),
        Some(Descriptor::Wait { drain, .. }) => {
            is_some_busy(&part.unit) || (*drain && !part.page_queue.is_empty())
        }
    }
}

/// Appends a turn of the queue in brackets, where that takes the head.
fn put_pump(
    out: &mut Vec<u8>,
    snapshot: &Snapshot,
    unit: u64,
    part: &Endpoint,
) -> Result<(), AllocError>
    ensures { OnOk result (out.new.items ≡ out.old.items ++ pump_text snapshot.now unit (endpoint_shown part.now)) }
{
    let holds = can_pump(snapshot, unit) && !is_stuck(part);
    put_bracket(out, holds, " [pump ", unit)
}

/// Appends why a unit doesn't take its head.
fn put_pump_lines(
    out: &mut Vec<u8>,
    level: Level,
    snapshot: &Snapshot,
    unit: u64,
    part: &Endpoint,
) -> Result<(), AllocError>
    ensures { OnOk result (out.new.items ≡ out.old.items
        ++ pump_lines level snapshot.now unit (endpoint_shown part.now)) }
{
    if part.unit.is_open {
        put_blocked(out, level, snapshot, unit, part)
    } else {
        put_in_reset(out, level, snapshot, unit)
    }
}

/// Appends the line of a wait.
fn put_wait_line(
    out: &mut Vec<u8>,
    level: Level,
    snapshot: &Snapshot,
    unit: u64,
    part: &Endpoint,
    cookie: u64,
) -> Result<(), AllocError>
    ensures { OnOk result (out.new.items ≡ out.old.items
        ++ wait_line level snapshot.now unit (endpoint_shown part.now) cookie) }
{
    put_start(out, level, "wait ", cookie)?;
    put_field(out, " of unit ", unit)?;
    put_word(out, " isn't done")?;
    put_pump(out, snapshot, unit, part)?;
    end_line(out)
}

/// Appends the lines of a wait.
pub(crate) fn put_wait(
    out: &mut Vec<u8>,
    level: Level,
    snapshot: &Snapshot,
    unit: u64,
    part: &Endpoint,
    cookie: u64,
) -> Result<(), AllocError>
    ensures { OnOk result (out.new.items ≡ out.old.items
        ++ wait_lines level snapshot.now unit (endpoint_shown part.now) cookie) }
{
    put_wait_line(out, level, snapshot, unit, part, cookie)?;
    put_pump_lines(out, below(level), snapshot, unit, part)
}

/// Appends the lines of a wait, if it isn't done.
pub fn put_wait_if(
    out: &mut Vec<u8>,
    level: Level,
    snapshot: &Snapshot,
    unit: u64,
    part: &Endpoint,
    cookie: u64,
) -> Result<(), AllocError>
    ensures { OnOk result (out.new.items ≡ out.old.items
        ++ wait_if level snapshot.now unit (endpoint_shown part.now) cookie) }
{
    if cookie < part.unit.front {
        Ok(())
    } else {
        put_wait(out, level, snapshot, unit, part, cookie)
    }
}

/// Appends how many descriptors are queued.
fn put_queued(out: &mut Vec<u8>, part: &Endpoint) -> Result<(), AllocError>
    ensures { OnOk result (out.new.items ≡ out.old.items ++ queued_text (endpoint_shown part.now)) }
{
    put_field(out, " has ", part.unit.queue.len() as u64)
}

/// Appends how many descriptors are queued, and how many more are to be.
fn put_counts(out: &mut Vec<u8>, part: &Endpoint, needed: u64) -> Result<(), AllocError>
    ensures { OnOk result (out.new.items ≡ out.old.items ++ count_text (endpoint_shown part.now) needed) }
{
    put_queued(out, part)?;
    put_field(out, " descriptors queued, and ", needed)
}

/// Appends the line of a queue that has too little room.
fn put_full_line(
    out: &mut Vec<u8>,
    level: Level,
    snapshot: &Snapshot,
    unit: u64,
    part: &Endpoint,
    needed: u64,
) -> Result<(), AllocError>
    ensures { OnOk result (out.new.items ≡ out.old.items
        ++ full_line level snapshot.now unit (endpoint_shown part.now) needed) }
{
    put_start(out, level, "unit ", unit)?;
    put_counts(out, part, needed)?;
    put_word(out, " more don't fit into 64")?;
    put_pump(out, snapshot, unit, part)?;
    end_line(out)
}

/// Appends the lines of a queue that has too little room.
fn put_no_room(
    out: &mut Vec<u8>,
    level: Level,
    snapshot: &Snapshot,
    unit: u64,
    part: &Endpoint,
    needed: u64,
) -> Result<(), AllocError>
    ensures { OnOk result (out.new.items ≡ out.old.items
        ++ no_room_lines level snapshot.now unit (endpoint_shown part.now) needed) }
{
    put_full_line(out, level, snapshot, unit, part, needed)?;
    put_pump_lines(out, below(level), snapshot, unit, part)
}

/// Appends the lines of a queue, if so many descriptors don't fit in.
pub fn put_room(
    out: &mut Vec<u8>,
    level: Level,
    snapshot: &Snapshot,
    unit: u64,
    part: &Endpoint,
    needed: u64,
) -> Result<(), AllocError>
    ensures { OnOk result (out.new.items ≡ out.old.items
        ++ room_lines level snapshot.now unit (endpoint_shown part.now) needed) }
{
    if has_room(&part.unit, needed) {
        Ok(())
    } else {
        put_no_room(out, level, snapshot, unit, part, needed)
    }
}
