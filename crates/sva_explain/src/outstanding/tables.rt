//! The tables of an endpoint: unfinished groups, tags that are out, uses that run, PASIDs that aren't on.

ghost use Rattle.std.specs.Prelude.{◌≡◌, ◌++◌, OnOk, flat_map, map};
ghost use Rattle.sva_parts_by_labels.specs.Device.{group_seen, slot_seen, tag_seen};
ghost use Rattle.sva_snapshot.specs.Shown.{binding_shown, endpoint_shown};
ghost use Rattle.sva_explain.specs.Tables.{bearer_if, busy_pasid_lines, last_text, not_started_lines, off_lines};
ghost use Rattle.sva_explain.specs.Tables.{tag_if, tag_lines, unfinished_if, unfinished_lines, use_if};
ghost use Rattle.sva_explain.specs.Tables.{bearer_line, ending_line, unfinished_group_lines};
ghost use Rattle.sva_explain.specs.Tables.{unfinished_line, use_lines};

use crate::blockers::{
    Level, Topic, below, put_about, put_bracket_of_two, put_indent, put_out, put_reset_if,
    put_start, put_use,
};
use crate::enabled::{can_end, can_finish_group, is_unfinished, is_use_of, pasid_state};
use crate::outstanding::credits::{put_credit, put_disabled};
use std::alloc::AllocError;
use sva_lines::{end_line, put_field, put_if, put_stage, put_word};
use sva_snapshot::{Binding, Endpoint, GroupPlace, PasidState, RequestTag, Snapshot, UseSlot};

/// Appends the last request of a group in brackets.
fn put_last(
    out: &mut Vec<u8>,
    snapshot: &Snapshot,
    endpoint: u64,
    pasid: u64,
    index: u64,
) -> Result<(), AllocError>
    ensures { OnOk result (out.new.items ≡ out.old.items ++ last_text snapshot.now endpoint pasid index) }
{
    if !can_finish_group(snapshot, endpoint, pasid, index) {
        return Ok(());
    }
    put_field(out, " [fault ", endpoint)?;
    put_field(out, " ", pasid)?;
    put_field(out, " 0 r ", index)?;
    put_word(out, " last]")
}

/// Appends the line of a group that is unfinished.
fn put_unfinished_line(
    out: &mut Vec<u8>,
    level: Level,
    snapshot: &Snapshot,
    endpoint: u64,
    pasid: u64,
    index: u64,
) -> Result<(), AllocError>
    ensures { OnOk result (out.new.items ≡ out.old.items
        ++ unfinished_line level snapshot.now endpoint pasid index) }
{
    put_indent(out, level)?;
    put_field(out, "group ", index)?;
    put_word(out, " isn't finished")?;
    put_last(out, snapshot, endpoint, pasid, index)?;
    end_line(out)
}

/// Appends the lines of a group that is unfinished.
fn put_unfinished_group(
    out: &mut Vec<u8>,
    level: Level,
    snapshot: &Snapshot,
    endpoint: u64,
    part: &Endpoint,
    pasid: u64,
    index: u64,
) -> Result<(), AllocError>
    ensures { OnOk result (out.new.items ≡ out.old.items
        ++ unfinished_group_lines level snapshot.now endpoint (endpoint_shown part.now) pasid index) }
{
    put_unfinished_line(out, level, snapshot, endpoint, pasid, index)?;
    put_disabled(out, below(level), snapshot, endpoint, &part.device)?;
    put_credit(out, below(level), snapshot, endpoint, part)
}

/// Appends the lines of a group, if it is unfinished.
pub fn put_unfinished_if(
    out: &mut Vec<u8>,
    level: Level,
    snapshot: &Snapshot,
    endpoint: u64,
    part: &Endpoint,
    pasid: u64,
    index: u64,
    place: &GroupPlace,
) -> Result<(), AllocError>
    ensures { OnOk result (out.new.items ≡ out.old.items
        ++ unfinished_if level snapshot.now endpoint (endpoint_shown part.now) pasid index (group_seen place.now)) }
{
    if is_unfinished(place, pasid) {
        put_unfinished_group(out, level, snapshot, endpoint, part, pasid, index)
    } else {
        Ok(())
    }
}

/// Appends the lines of the unfinished groups of a PASID.
fn put_unfinished(
    out: &mut Vec<u8>,
    level: Level,
    snapshot: &Snapshot,
    endpoint: u64,
    part: &Endpoint,
    pasid: u64,
) -> Result<(), AllocError>
    ensures { OnOk result (out.new.items ≡ out.old.items
        ++ unfinished_lines level snapshot.now endpoint (endpoint_shown part.now) pasid) }
{
    for (index, place) in part.device.groups.as_slice().iter().enumerate() {
        put_unfinished_if(
            out,
            level,
            snapshot,
            endpoint,
            part,
            pasid,
            index as u64,
            place,
        )?;
    }
    Ok(())
}

/// Appends the lines of a tag, if a request of the PASID is out under it.
fn put_tag_if(
    out: &mut Vec<u8>,
    level: Level,
    snapshot: &Snapshot,
    endpoint: u64,
    part: &Endpoint,
    pasid: u64,
    tag: u64,
    place: &RequestTag,
) -> Result<(), AllocError>
    ensures { OnOk result (out.new.items ≡ out.old.items
        ++ tag_if level snapshot.now endpoint (endpoint_shown part.now) pasid tag (tag_seen place.now)) }
{
    let (of, page, is_doomed) = match place {
        RequestTag::Free => return Ok(()),
        RequestTag::Out { pasid, page } => (*pasid, *page, false),
        RequestTag::Doomed { pasid, page } => (*pasid, *page, true),
    };
    if u64::from(of) == pasid {
        put_out(
            out, level, snapshot, endpoint, part, tag, of, page, is_doomed,
        )
    } else {
        Ok(())
    }
}

/// Appends the lines of the requests of a PASID that are out.
fn put_tags(
    out: &mut Vec<u8>,
    level: Level,
    snapshot: &Snapshot,
    endpoint: u64,
    part: &Endpoint,
    pasid: u64,
) -> Result<(), AllocError>
    ensures { OnOk result (out.new.items ≡ out.old.items
        ++ tag_lines level snapshot.now endpoint (endpoint_shown part.now) pasid) }
{
    for (tag, place) in part.device.tags.as_slice().iter().enumerate() {
        put_tag_if(
            out, level, snapshot, endpoint, part, pasid, tag as u64, place,
        )?;
    }
    Ok(())
}

/// Appends the line of a use, if it is one of the PASID that runs.
fn put_use_if(
    out: &mut Vec<u8>,
    level: Level,
    snapshot: &Snapshot,
    endpoint: u64,
    pasid: u64,
    slot: u64,
    place: &UseSlot,
) -> Result<(), AllocError>
    ensures { OnOk result (out.new.items ≡ out.old.items
        ++ use_if level snapshot.now endpoint pasid slot (slot_seen place.now)) }
{
    if !is_use_of(place, pasid) {
        return Ok(());
    }
    put_indent(out, level)?;
    put_field(out, "use ", slot)?;
    put_word(out, " runs")?;
    put_use(out, place)?;
    let holds = can_end(snapshot, endpoint, slot);
    put_bracket_of_two(out, holds, " [end ", endpoint, slot)?;
    end_line(out)
}

/// Appends the lines of the uses of a PASID.
fn put_uses(
    out: &mut Vec<u8>,
    level: Level,
    snapshot: &Snapshot,
    endpoint: u64,
    part: &Endpoint,
    pasid: u64,
) -> Result<(), AllocError>
    ensures { OnOk result (out.new.items ≡ out.old.items
        ++ use_lines level snapshot.now endpoint (endpoint_shown part.now) pasid) }
{
    for (slot, place) in part.device.slots.as_slice().iter().enumerate() {
        put_use_if(out, level, snapshot, endpoint, pasid, slot as u64, place)?;
    }
    Ok(())
}

/// Appends the lines of each group, tag and use that keeps a PASID busy.
pub fn put_busy_pasid(
    out: &mut Vec<u8>,
    level: Level,
    snapshot: &Snapshot,
    endpoint: u64,
    part: &Endpoint,
    pasid: u64,
) -> Result<(), AllocError>
    ensures { OnOk result (out.new.items ≡ out.old.items
        ++ busy_pasid_lines level snapshot.now endpoint (endpoint_shown part.now) pasid) }
{
    put_unfinished(out, level, snapshot, endpoint, part, pasid)?;
    put_tags(out, level, snapshot, endpoint, part, pasid)?;
    put_uses(out, level, snapshot, endpoint, part, pasid)
}

/// Appends the line of a binding that bears a PASID.
fn put_bearer_line(out: &mut Vec<u8>, level: Level, binding: &Binding) -> Result<(), AllocError>
    ensures { OnOk result (out.new.items ≡ out.old.items ++ bearer_line level (binding_shown binding.now)) }
{
    put_indent(out, level)?;
    put_field(out, "binding ", binding.binding)?;
    put_word(out, " is")?;
    put_stage(out, binding.stage)?;
    end_line(out)
}

/// Appends the line of a binding, if it bears the PASID at the endpoint.
fn put_bearer_if(
    out: &mut Vec<u8>,
    endpoint: u64,
    pasid: u64,
    binding: &Binding,
) -> Result<(), AllocError>
    ensures { OnOk result (out.new.items ≡ out.old.items ++ bearer_if endpoint pasid (binding_shown binding.now)) }
{
    if binding.endpoint == endpoint && u64::from(binding.pasid) == pasid {
        put_bearer_line(out, Level::Second, binding)
    } else {
        Ok(())
    }
}

/// Appends the line of the binding among these that bears the PASID at the endpoint.
fn put_bearer(
    out: &mut Vec<u8>,
    endpoint: u64,
    pasid: u64,
    bindings: &[Binding],
) -> Result<(), AllocError>
    ensures { OnOk result (out.new.items ≡ out.old.items
        ++ flat_map (bearer_if endpoint pasid) (map binding_shown bindings.now)) }
{
    for binding in bindings {
        put_bearer_if(out, endpoint, pasid, binding)?;
    }
    Ok(())
}

/// Appends where the start of a PASID that is off stands.
fn put_off(
    out: &mut Vec<u8>,
    snapshot: &Snapshot,
    endpoint: u64,
    pasid: u64,
) -> Result<(), AllocError>
    ensures { OnOk result (out.new.items ≡ out.old.items ++ off_lines snapshot.now endpoint pasid) }
{
    put_indent(out, Level::First)?;
    put_field(out, "pasid ", pasid)?;
    put_field(out, " is off at endpoint ", endpoint)?;
    end_line(out)?;
    put_about(out, Level::Second, snapshot, endpoint, Topic::Start(pasid))?;
    put_bearer(out, endpoint, pasid, snapshot.bindings.as_slice())
}

/// Appends the line of a PASID that is stopping.
fn put_ending(out: &mut Vec<u8>, level: Level, endpoint: u64, pasid: u64) -> Result<(), AllocError>
    ensures { OnOk result (out.new.items ≡ out.old.items ++ ending_line level endpoint pasid) }
{
    put_start(out, level, "pasid ", pasid)?;
    put_field(out, " is stopping at endpoint ", endpoint)?;
    put_word(out, ": nothing new begins under it")?;
    end_line(out)
}

/// Appends how a PASID stands that isn't on.
pub fn put_not_started(
    out: &mut Vec<u8>,
    snapshot: &Snapshot,
    endpoint: u64,
    part: &Endpoint,
    pasid: u64,
) -> Result<(), AllocError>
    ensures { OnOk result (out.new.items ≡ out.old.items
        ++ not_started_lines snapshot.now endpoint (endpoint_shown part.now) pasid) }
{
    match pasid_state(&part.device, pasid) {
        PasidState::On => Ok(()),
        PasidState::Off => put_off(out, snapshot, endpoint, pasid),
        PasidState::Stopping => put_ending(out, Level::First, endpoint, pasid),
    }
}
