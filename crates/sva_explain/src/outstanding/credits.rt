//! What only a reset helps: page requests that are disabled, and 32 of them that are outstanding.

ghost use Rattle.std.specs.Prelude.{◌≡◌, ◌++◌, OnOk, map};
ghost use Rattle.std.specs.List.{list_any};
ghost use Rattle.sva_lines.specs.Pieces.{rows};
ghost use Rattle.sva_parts_by_labels.specs.Device.{group_seen};
ghost use Rattle.sva_snapshot.specs.Shown.{device_shown, endpoint_shown};
ghost use Rattle.sva_explain.specs.Tables.{all_unfinished_text, credit_if, credit_line, credit_lines, credit_text};
ghost use Rattle.sva_explain.specs.Tables.{disabled_if, due_if, due_line, due_lines, is_due, reset_text};

use crate::blockers::{Level, below, put_bracket, put_indent, put_reset_if, put_start};
use crate::enabled::{can_reset, has_no_credit};
use crate::outstanding::jobs::put_on_its_way;
use std::alloc::AllocError;
use sva_lines::{end_line, put_field, put_word};
use sva_snapshot::{Device, Endpoint, GroupPlace, Snapshot};

/// Appends a reset in brackets.
fn put_reset(out: &mut Vec<u8>, snapshot: &Snapshot, endpoint: u64) -> Result<(), AllocError>
    ensures { OnOk result (out.new.items ≡ out.old.items ++ reset_text snapshot.now endpoint) }
{
    put_bracket(out, can_reset(snapshot, endpoint), " [reset ", endpoint)
}

/// Appends the line that says that no page requests may be sent, if that is so.
pub fn put_disabled(
    out: &mut Vec<u8>,
    level: Level,
    snapshot: &Snapshot,
    endpoint: u64,
    device: &Device,
) -> Result<(), AllocError>
    ensures { OnOk result (out.new.items ≡ out.old.items
        ++ disabled_if level snapshot.now endpoint (device_shown device.now)) }
{
    if device.is_enabled {
        return Ok(());
    }
    put_indent(out, level)?;
    put_field(out, "page requests are disabled at endpoint ", endpoint)?;
    put_word(out, ": only a reset helps")?;
    put_reset(out, snapshot, endpoint)?;
    end_line(out)
}

/// Is the response to a group still to come?
fn is_due(place: &GroupPlace) -> bool
    ensures { result ≡ is_due (group_seen place.now) }
{
    matches!(place, GroupPlace::Out { .. } | GroupPlace::Stale { .. })
}

/// Is the response to some group still to come?
fn is_some_due(groups: &[GroupPlace]) -> bool
    ensures { result ≡ list_any is_due (map group_seen groups.now) }
{
    for place in groups {
        if is_due(place) {
            return true;
        }
    }
    false
}

/// Appends the line of a group whose response is still to come.
fn put_due_line(out: &mut Vec<u8>, level: Level, index: u64) -> Result<(), AllocError>
    ensures { OnOk result (out.new.items ≡ out.old.items ++ due_line level index) }
{
    put_start(out, level, "group ", index)?;
    put_word(out, " awaits its response")?;
    end_line(out)
}

/// Appends the lines of a group whose response is still to come.
fn put_due_lines(
    out: &mut Vec<u8>,
    level: Level,
    snapshot: &Snapshot,
    endpoint: u64,
    part: &Endpoint,
    index: u64,
) -> Result<(), AllocError>
    ensures { OnOk result (out.new.items ≡ out.old.items
        ++ due_lines level snapshot.now endpoint (endpoint_shown part.now) index) }
{
    put_due_line(out, level, index)?;
    put_on_its_way(out, below(level), snapshot, endpoint, part, index)
}

/// Appends the lines of a group, if its response is still to come.
fn put_due_if(
    out: &mut Vec<u8>,
    level: Level,
    snapshot: &Snapshot,
    endpoint: u64,
    part: &Endpoint,
    index: u64,
    place: &GroupPlace,
) -> Result<(), AllocError>
    ensures { OnOk result (out.new.items ≡ out.old.items
        ++ due_if level snapshot.now endpoint (endpoint_shown part.now) index (group_seen place.now)) }
{
    if is_due(place) {
        put_due_lines(out, level, snapshot, endpoint, part, index)
    } else {
        Ok(())
    }
}

/// Appends the lines of the groups whose response is still to come.
fn put_due(
    out: &mut Vec<u8>,
    level: Level,
    snapshot: &Snapshot,
    endpoint: u64,
    part: &Endpoint,
) -> Result<(), AllocError>
    ensures { OnOk result (out.new.items ≡ out.old.items
        ++ rows (due_if level snapshot.now endpoint (endpoint_shown part.now)) 0
        (endpoint_shown part.now).device.groups) }
{
    for (index, place) in part.device.groups.as_slice().iter().enumerate() {
        put_due_if(out, level, snapshot, endpoint, part, index as u64, place)?;
    }
    Ok(())
}

/// Appends that only a reset helps.
fn put_all_unfinished(
    out: &mut Vec<u8>,
    snapshot: &Snapshot,
    endpoint: u64,
) -> Result<(), AllocError>
    ensures { OnOk result (out.new.items ≡ out.old.items ++ all_unfinished_text snapshot.now endpoint) }
{
    put_word(out, ", all of unfinished groups: only a reset helps")?;
    put_reset(out, snapshot, endpoint)
}

/// Appends that only a reset helps, where no response is due.
fn put_credit_text(
    out: &mut Vec<u8>,
    snapshot: &Snapshot,
    endpoint: u64,
    device: &Device,
) -> Result<(), AllocError>
    ensures { OnOk result (out.new.items ≡ out.old.items
        ++ credit_text snapshot.now endpoint (device_shown device.now)) }
{
    if is_some_due(device.groups.as_slice()) {
        Ok(())
    } else {
        put_all_unfinished(out, snapshot, endpoint)
    }
}

/// Appends the line that says that no page request is left.
fn put_credit_line(
    out: &mut Vec<u8>,
    level: Level,
    snapshot: &Snapshot,
    endpoint: u64,
    device: &Device,
) -> Result<(), AllocError>
    ensures { OnOk result (out.new.items ≡ out.old.items
        ++ credit_line level snapshot.now endpoint (device_shown device.now)) }
{
    put_start(
        out,
        level,
        "32 page requests are outstanding at endpoint ",
        endpoint,
    )?;
    put_credit_text(out, snapshot, endpoint, device)?;
    end_line(out)
}

/// Appends that no page request is left, the groups whose response is due, and a reset of the unit.
fn put_credit_lines(
    out: &mut Vec<u8>,
    level: Level,
    snapshot: &Snapshot,
    endpoint: u64,
    part: &Endpoint,
) -> Result<(), AllocError>
    ensures { OnOk result (out.new.items ≡ out.old.items
        ++ credit_lines level snapshot.now endpoint (endpoint_shown part.now)) }
{
    put_credit_line(out, level, snapshot, endpoint, &part.device)?;
    put_due(out, below(level), snapshot, endpoint, part)?;
    put_reset_if(out, below(level), snapshot, endpoint, part)
}

/// Appends the same, if no page request is left.
pub fn put_credit(
    out: &mut Vec<u8>,
    level: Level,
    snapshot: &Snapshot,
    endpoint: u64,
    part: &Endpoint,
) -> Result<(), AllocError>
    ensures { OnOk result (out.new.items ≡ out.old.items
        ++ credit_if level snapshot.now endpoint (endpoint_shown part.now)) }
{
    if has_no_credit(part.device.groups.as_slice()) {
        put_credit_lines(out, level, snapshot, endpoint, part)
    } else {
        Ok(())
    }
}
