//! What is said of a range that was taken out: which frames are withheld, and what they wait for.

ghost use Rattle.std.specs.Prelude.{◌≡◌, ◌++◌, ◌-◌, OnOk, if◌then◌else◌, map, option_map};
ghost use Rattle.std.specs.Prelude.{None, slice_index_or};
ghost use Rattle.sva_address_spaces.specs.Seen.{places_seen, target_seen};
ghost use Rattle.sva_frames.specs.Reading.{holding_of};
ghost use Rattle.sva_labels.specs.Moves.{target_by, target_by_stage};
ghost use Rattle.sva_explain.specs.Ranges.{awaited_at, differs_at, frame_if, frames_line, is_same_target};
ghost use Rattle.sva_explain.specs.Ranges.{range_lines, target_at, target_behind, waits_so, withheld_range};
ghost use Rattle.sva_lines.specs.Pieces.{rows};
ghost use Rattle.sva_model.specs.Wire.TargetWire.{Cookie, ResetEnd};
ghost use Rattle.sva_snapshot.specs.Shown.{binding_shown, endpoint_shown, stage_shown, unit_shown};
ghost use Rattle.sva_explain.specs.Units.{held_seen};

use crate::blockers::{Level, put_indent, put_target};
use crate::enabled::{bound_at, part_at};
use std::alloc::AllocError;
use sva_lines::{end_line, put_field, put_word};
use sva_snapshot::{Binding, Endpoint, Held, Snapshot, Stage, Target, Unit};
use sva_step::Step;

/// A wait of the unit; or the end of its reset, which ends the wait.
fn awaited(unit: &Unit, cookie: u64) -> Target
    ensures { target_seen result ≡ (if (unit_shown unit.now).is_open then Cookie cookie else ResetEnd) }
{
    if unit.is_open {
        Target::Cookie(cookie)
    } else {
        Target::ResetEnd
    }
}

/// What a frame waits for at a unit, by the stage of its space's binding there.
fn target_by_stage(unit: &Unit, cookie: u64, stage: Stage) -> Option<Target>
    ensures { option_map target_seen result ≡ target_by_stage (unit_shown unit.now) cookie (stage_shown stage) }
{
    match stage {
        Stage::Quiet | Stage::Lost => None,
        Stage::Invalidating { cookie: own } => {
            if own < unit.front {
                None
            } else {
                Some(awaited(unit, own))
            }
        }
        Stage::Live | Stage::Stopping { .. } | Stage::Draining { .. } => {
            Some(awaited(unit, cookie))
        }
    }
}

/// What a frame waits for at a unit, by the binding of its space there.
fn target_by(unit: &Unit, cookie: u64, binding: &Option<Binding>) -> Option<Target>
    ensures { option_map target_seen result
        ≡ target_by (unit_shown unit.now) cookie (option_map binding_shown binding.now) }
{
    match binding {
        None => None,
        Some(binding) => target_by_stage(unit, cookie, binding.stage),
    }
}

/// What a frame of the space that was withheld last waits for at a unit.
fn target_behind(snapshot: &Snapshot, space: u64, endpoint: u64, part: &Endpoint) -> Option<Target>
    ensures { option_map target_seen result ≡ target_behind snapshot.now space endpoint (endpoint_shown part.now) }
{
    let newest = part.unit.waits_end.saturating_sub(1);
    target_by(&part.unit, newest, &bound_at(snapshot, endpoint, space))
}

/// What such a frame waits for at the unit of a number; nothing where there is none.
fn target_at(snapshot: &Snapshot, space: u64, unit: u64) -> Option<Target>
    ensures { option_map target_seen result ≡ target_at snapshot.now space unit }
{
    match part_at(snapshot, unit) {
        None => None,
        Some(part) => target_behind(snapshot, space, unit, part),
    }
}

/// Is it the same that is awaited?
fn is_same_target(one: &Option<Target>, other: &Option<Target>) -> bool
    ensures { result ≡ is_same_target (option_map target_seen one.now) (option_map target_seen other.now) }
{
    match (one, other) {
        (None, None) => true,
        (Some(Target::Cookie(one)), Some(Target::Cookie(other))) => *one == *other,
        (Some(Target::ResetEnd), Some(Target::ResetEnd)) => true,
        _ => false,
    }
}

/// What a frame that waits for these waits for at a unit.
fn own_target(targets: &[Option<Target>], unit: u64) -> Option<Target>
    ensures { option_map target_seen result ≡ slice_index_or (map (option_map target_seen) targets.now) unit None }
{
    match targets.get(unit as usize) {
        None => None,
        Some(target) => *target,
    }
}

/// Does a frame that waits for these wait at a unit for something else than the frames of the range?
fn differs_at(snapshot: &Snapshot, space: u64, targets: &[Option<Target>], unit: u64) -> bool
    ensures { result ≡ differs_at snapshot.now space (map (option_map target_seen) targets.now) unit }
{
    let theirs = target_at(snapshot, space, unit);
    let own = own_target(targets, unit);
    !is_same_target(&theirs, &own)
}

/// Does it wait at each unit for what they wait for?
fn waits_so(snapshot: &Snapshot, space: u64, targets: &[Option<Target>]) -> bool
    ensures { result ≡ waits_so snapshot.now space (map (option_map target_seen) targets.now) }
{
    for unit in 0..8 {
        if differs_at(snapshot, space, targets, unit) {
            return false;
        }
    }
    true
}

/// Appends the number of a frame, if it waits so.
fn put_frame_if(
    out: &mut Vec<u8>,
    snapshot: &Snapshot,
    space: u64,
    frame: u64,
    held: &Held,
) -> Result<(), AllocError>
    ensures { OnOk result (out.new.items ≡ out.old.items
        ++ frame_if snapshot.now space frame (held_seen held.now)) }
{
    match held {
        Held::Free | Held::Mapped => Ok(()),
        Held::Withheld { targets } => {
            if waits_so(snapshot, space, targets) {
                put_field(out, " ", frame)
            } else {
                Ok(())
            }
        }
    }
}

/// Appends the numbers of those of some frames that wait so.
fn put_frames_among(
    out: &mut Vec<u8>,
    snapshot: &Snapshot,
    space: u64,
    frames: &[Held],
) -> Result<(), AllocError>
    ensures { OnOk result (out.new.items ≡ out.old.items
        ++ rows (frame_if snapshot.now space) 0 (map held_seen frames.now)) }
{
    for (frame, held) in frames.iter().enumerate() {
        put_frame_if(out, snapshot, space, frame as u64, held)?;
    }
    Ok(())
}

/// The same, as the definitions have the frames.
fn put_frames(
    out: &mut Vec<u8>,
    snapshot: &Snapshot,
    space: u64,
    frames: &[Held],
) -> Result<(), AllocError>
    ensures { OnOk result (out.new.items ≡ out.old.items
        ++ rows (frame_if snapshot.now space) 0 (places_seen (map holding_of frames.now))) }
{
    put_frames_among(out, snapshot, space, frames)
}

/// Appends which frames wait so.
fn put_frames_line(
    out: &mut Vec<u8>,
    level: Level,
    snapshot: &Snapshot,
    space: u64,
) -> Result<(), AllocError>
    ensures { OnOk result (out.new.items ≡ out.old.items ++ frames_line level snapshot.now space) }
{
    put_indent(out, level)?;
    put_word(out, "frames that wait:")?;
    put_frames(out, snapshot, space, snapshot.frames.as_slice())?;
    end_line(out)
}

/// Appends what such a frame waits for at a unit.
fn put_awaited(
    out: &mut Vec<u8>,
    snapshot: &Snapshot,
    space: u64,
    endpoint: u64,
    part: &Endpoint,
) -> Result<(), AllocError>
    ensures { OnOk result (out.new.items ≡ out.old.items
        ++ awaited_at snapshot.now space endpoint (endpoint_shown part.now)) }
{
    let target = target_behind(snapshot, space, endpoint, part);
    put_target(out, snapshot, endpoint, &target)
}

/// Appends what such a frame waits for at each of these units.
fn put_awaited_among(
    out: &mut Vec<u8>,
    snapshot: &Snapshot,
    space: u64,
    endpoints: &[Endpoint],
) -> Result<(), AllocError>
    ensures { OnOk result (out.new.items ≡ out.old.items
        ++ rows (awaited_at snapshot.now space) 0 (map endpoint_shown endpoints.now)) }
{
    for (endpoint, part) in endpoints.iter().enumerate() {
        put_awaited(out, snapshot, space, endpoint as u64, part)?;
    }
    Ok(())
}

/// Appends what the frames of a range of a space wait for at each unit.
fn put_each_awaited(out: &mut Vec<u8>, snapshot: &Snapshot, space: u64) -> Result<(), AllocError>
    ensures { OnOk result (out.new.items ≡ out.old.items ++ rows (awaited_at snapshot.now space) 0 snapshot.now.parts) }
{
    put_awaited_among(out, snapshot, space, snapshot.endpoints.as_slice())
}

/// Appends which frames of a range of a space are withheld, and what they wait for.
fn put_range_lines(out: &mut Vec<u8>, snapshot: &Snapshot, space: u64) -> Result<(), AllocError>
    ensures { OnOk result (out.new.items ≡ out.old.items ++ range_lines snapshot.now space) }
{
    put_frames_line(out, Level::First, snapshot, space)?;
    put_each_awaited(out, snapshot, space)
}

/// Appends which frames a step withheld by taking a range out, and what they wait for. The snapshot is taken behind the
/// step. Frames of older unmappings that wait for just the same stand with them.
pub fn put_withheld_range(
    out: &mut Vec<u8>,
    snapshot: &Snapshot,
    step: &Step,
) -> Result<(), AllocError>
    ensures { OnOk result (out.new.items ≡ out.old.items ++ withheld_range snapshot.now step.now) }
{
    match step {
        Step::UnmapRange { space, .. } => put_range_lines(out, snapshot, *space),
        _ => Ok(()),
    }
}
