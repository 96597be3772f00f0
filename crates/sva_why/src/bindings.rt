//! Bindings: what they lack to go on.

ghost use Rattle.std.specs.Prelude.{◌≡◌, ◌++◌, OnOk, flat_map, map};
ghost use Rattle.sva_model.specs.Wire.StageWire.{DrainingWire};
ghost use Rattle.sva_snapshot.specs.Shown.{binding_shown, endpoint_shown, stage_shown};
ghost use Rattle.sva_why.specs.Bindings.{binding_line, bound_if, bound_lines, descriptors_of};
ghost use Rattle.sva_why.specs.Bindings.{full_lines, is_unbound_next, marker_lines, not_yet_by, stays_lines};
ghost use Rattle.sva_why.specs.Bindings.{binding_text, going_if, going_lines, marker_line, marker_of_lines};
ghost use Rattle.sva_why.specs.Bindings.{borne_lines, kept_lines, on_link_lines, quit_text, stays_of};

use crate::groups::put_open;
use std::alloc::AllocError;
use sva_explain::{
    Level, Topic, below, can_quit, part_at, put_about, put_advance, put_bearer, put_bracket_of_two,
    put_busy_pasid, put_reset_if, put_room, put_start, put_unbind, put_wait_if,
};
use sva_lines::{end_line, put_field, put_stage, put_word};
use sva_snapshot::{Binding, Endpoint, Snapshot, Stage};

/// Appends the stage of a binding.
fn put_binding_text(out: &mut Vec<u8>, level: Level, binding: &Binding) -> Result<(), AllocError>
    ensures { OnOk result (out.new.items ≡ out.old.items ++ binding_text level (binding_shown binding.now)) }
{
    put_start(out, level, "binding ", binding.binding)?;
    put_field(out, " at endpoint ", binding.endpoint)?;
    put_word(out, " is")?;
    put_stage(out, binding.stage)
}

/// Appends the line of a binding.
fn put_binding(
    out: &mut Vec<u8>,
    level: Level,
    snapshot: &Snapshot,
    binding: &Binding,
) -> Result<(), AllocError>
    ensures { OnOk result (out.new.items ≡ out.old.items
        ++ binding_line level snapshot.now (binding_shown binding.now)) }
{
    put_binding_text(out, level, binding)?;
    put_unbind(out, snapshot, binding.binding)?;
    put_advance(out, snapshot, binding.binding)?;
    end_line(out)
}

/// Appends a quit in brackets.
fn put_quit(
    out: &mut Vec<u8>,
    snapshot: &Snapshot,
    endpoint: u64,
    pasid: u64,
) -> Result<(), AllocError>
    ensures { OnOk result (out.new.items ≡ out.old.items ++ quit_text snapshot.now endpoint pasid) }
{
    let holds = can_quit(snapshot, endpoint, pasid);
    put_bracket_of_two(out, holds, " [quit ", endpoint, pasid)
}

/// Appends the line of a marker that hasn't come.
fn put_marker_line(
    out: &mut Vec<u8>,
    level: Level,
    snapshot: &Snapshot,
    endpoint: u64,
    pasid: u64,
) -> Result<(), AllocError>
    ensures { OnOk result (out.new.items ≡ out.old.items ++ marker_line level snapshot.now endpoint pasid) }
{
    put_start(out, level, "the marker of pasid ", pasid)?;
    put_field(out, " hasn't come from endpoint ", endpoint)?;
    put_quit(out, snapshot, endpoint, pasid)?;
    end_line(out)
}

/// Appends the marker or the stop of a PASID that is in flight.
fn put_on_link(
    out: &mut Vec<u8>,
    level: Level,
    snapshot: &Snapshot,
    endpoint: u64,
    pasid: u64,
) -> Result<(), AllocError>
    ensures { OnOk result (out.new.items ≡ out.old.items ++ on_link_lines level snapshot.now endpoint pasid) }
{
    put_about(out, level, snapshot, endpoint, Topic::Marker(pasid))?;
    put_about(out, level, snapshot, endpoint, Topic::Stop(pasid))
}

/// Appends where the marker of a PASID is, or what keeps it back.
fn put_marker_of(
    out: &mut Vec<u8>,
    level: Level,
    snapshot: &Snapshot,
    endpoint: u64,
    pasid: u64,
    part: &Endpoint,
) -> Result<(), AllocError>
    ensures { OnOk result (out.new.items ≡ out.old.items
        ++ marker_of_lines level snapshot.now endpoint pasid (endpoint_shown part.now)) }
{
    put_marker_line(out, level, snapshot, endpoint, pasid)?;
    put_on_link(out, below(level), snapshot, endpoint, pasid)?;
    put_busy_pasid(out, below(level), snapshot, endpoint, part, pasid)
}

/// Appends where the marker of a binding is, or what keeps it back.
fn put_marker(
    out: &mut Vec<u8>,
    level: Level,
    snapshot: &Snapshot,
    binding: &Binding,
    part: &Endpoint,
) -> Result<(), AllocError>
    ensures { OnOk result (out.new.items ≡ out.old.items
        ++ marker_lines level snapshot.now (binding_shown binding.now) (endpoint_shown part.now)) }
{
    put_marker_of(
        out,
        level,
        snapshot,
        binding.endpoint,
        u64::from(binding.pasid),
        part,
    )
}

/// Appends what a draining binding waits for.
fn put_draining(
    out: &mut Vec<u8>,
    level: Level,
    snapshot: &Snapshot,
    binding: &Binding,
    part: &Endpoint,
    cookie: u64,
) -> Result<(), AllocError>
    ensures { OnOk result (out.new.items ≡ out.old.items
        ++ not_yet_by level snapshot.now (binding_shown binding.now) (endpoint_shown part.now)
        (DrainingWire cookie)) }
{
    put_wait_if(out, level, snapshot, binding.endpoint, part, cookie)?;
    put_open(
        out,
        level,
        snapshot,
        binding.endpoint,
        part,
        binding.binding,
    )
}

/// Appends what the stage of a binding waits for.
pub(crate) fn put_not_yet(
    out: &mut Vec<u8>,
    level: Level,
    snapshot: &Snapshot,
    binding: &Binding,
    part: &Endpoint,
) -> Result<(), AllocError>
    ensures { OnOk result (out.new.items ≡ out.old.items
        ++ not_yet_by level snapshot.now (binding_shown binding.now) (endpoint_shown part.now)
        (binding_shown binding.now).stage) }
{
    match binding.stage {
        Stage::Live | Stage::Lost => put_binding(out, level, snapshot, binding),
        Stage::Stopping { marked: true } | Stage::Quiet => Ok(()),
        Stage::Stopping { marked: false } => put_marker(out, level, snapshot, binding, part),
        Stage::Draining { cookie } => put_draining(out, level, snapshot, binding, part, cookie),
        Stage::Invalidating { cookie } => {
            put_wait_if(out, level, snapshot, binding.endpoint, part, cookie)
        }
    }
}

/// How many descriptors a stage submits as it goes on.
fn descriptors_of(stage: Stage) -> u64
    ensures { result ≡ descriptors_of (stage_shown stage) }
{
    match stage {
        Stage::Stopping { .. } => 1,
        Stage::Draining { .. } => 2,
        Stage::Live | Stage::Invalidating { .. } | Stage::Quiet | Stage::Lost => 0,
    }
}

/// Appends the lines of the queue, if the descriptors of the stage don't fit in.
pub(crate) fn put_full(
    out: &mut Vec<u8>,
    level: Level,
    snapshot: &Snapshot,
    binding: &Binding,
    part: &Endpoint,
) -> Result<(), AllocError>
    ensures { OnOk result (out.new.items ≡ out.old.items
        ++ full_lines level snapshot.now (binding_shown binding.now) (endpoint_shown part.now)) }
{
    put_room(
        out,
        level,
        snapshot,
        binding.endpoint,
        part,
        descriptors_of(binding.stage),
    )
}

/// Is an unbinding its next step?
fn is_unbound_next(stage: Stage) -> bool
    ensures { result ≡ is_unbound_next (stage_shown stage) }
{
    matches!(stage, Stage::Live | Stage::Lost)
}

/// Appends what a binding lacks to go on to its next stage.
fn put_going(
    out: &mut Vec<u8>,
    level: Level,
    snapshot: &Snapshot,
    binding: &Binding,
    part: &Endpoint,
) -> Result<(), AllocError>
    ensures { OnOk result (out.new.items ≡ out.old.items
        ++ going_lines level snapshot.now (binding_shown binding.now) (endpoint_shown part.now)) }
{
    put_not_yet(out, level, snapshot, binding, part)?;
    put_full(out, level, snapshot, binding, part)
}

/// Appends what a binding lacks to go on, unless an unbinding is its next step.
fn put_going_if(
    out: &mut Vec<u8>,
    level: Level,
    snapshot: &Snapshot,
    binding: &Binding,
    part: &Endpoint,
) -> Result<(), AllocError>
    ensures { OnOk result (out.new.items ≡ out.old.items
        ++ going_if level snapshot.now (binding_shown binding.now) (endpoint_shown part.now)) }
{
    if is_unbound_next(binding.stage) {
        Ok(())
    } else {
        put_going(out, level, snapshot, binding, part)
    }
}

/// Appends why a binding doesn't go on.
fn put_stays(
    out: &mut Vec<u8>,
    level: Level,
    snapshot: &Snapshot,
    binding: &Binding,
    part: &Endpoint,
) -> Result<(), AllocError>
    ensures { OnOk result (out.new.items ≡ out.old.items
        ++ stays_lines level snapshot.now (binding_shown binding.now) (endpoint_shown part.now)) }
{
    put_reset_if(out, level, snapshot, binding.endpoint, part)?;
    put_going_if(out, level, snapshot, binding, part)
}

/// Appends why a binding doesn't go on, below its line.
fn put_stays_of(out: &mut Vec<u8>, snapshot: &Snapshot, binding: &Binding) -> Result<(), AllocError>
    ensures { OnOk result (out.new.items ≡ out.old.items ++ stays_of snapshot.now (binding_shown binding.now)) }
{
    match part_at(snapshot, binding.endpoint) {
        None => Ok(()),
        Some(part) => put_stays(out, Level::Second, snapshot, binding, part),
    }
}

/// Appends the lines of a binding: its stage, and why it doesn't go on.
pub(crate) fn put_kept(
    out: &mut Vec<u8>,
    snapshot: &Snapshot,
    binding: &Binding,
) -> Result<(), AllocError>
    ensures { OnOk result (out.new.items ≡ out.old.items ++ kept_lines snapshot.now (binding_shown binding.now)) }
{
    put_binding(out, Level::First, snapshot, binding)?;
    put_stays_of(out, snapshot, binding)
}

/// Appends the same with its space and PASID.
pub(crate) fn put_borne(
    out: &mut Vec<u8>,
    snapshot: &Snapshot,
    binding: &Binding,
) -> Result<(), AllocError>
    ensures { OnOk result (out.new.items ≡ out.old.items ++ borne_lines snapshot.now (binding_shown binding.now)) }
{
    put_bearer(out, Level::First, snapshot, binding)?;
    put_stays_of(out, snapshot, binding)
}

/// Appends the lines of a binding, if it is of the space.
fn put_bound_if(
    out: &mut Vec<u8>,
    snapshot: &Snapshot,
    space: u64,
    binding: &Binding,
) -> Result<(), AllocError>
    ensures { OnOk result (out.new.items ≡ out.old.items
        ++ bound_if snapshot.now space (binding_shown binding.now)) }
{
    if binding.space == space {
        put_kept(out, snapshot, binding)
    } else {
        Ok(())
    }
}

/// Appends the lines of those of some bindings that are of the space.
fn put_bound_among(
    out: &mut Vec<u8>,
    snapshot: &Snapshot,
    space: u64,
    bindings: &[Binding],
) -> Result<(), AllocError>
    ensures { OnOk result (out.new.items ≡ out.old.items
        ++ flat_map (bound_if snapshot.now space) (map binding_shown bindings.now)) }
{
    for binding in bindings {
        put_bound_if(out, snapshot, space, binding)?;
    }
    Ok(())
}

/// Appends the lines of the bindings of a space.
pub(crate) fn put_bound(
    out: &mut Vec<u8>,
    snapshot: &Snapshot,
    space: u64,
) -> Result<(), AllocError>
    ensures { OnOk result (out.new.items ≡ out.old.items ++ bound_lines snapshot.now space) }
{
    put_bound_among(out, snapshot, space, snapshot.bindings.as_slice())
}
