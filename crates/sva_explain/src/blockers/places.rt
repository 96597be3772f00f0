//! Frames: what a withheld one waits for.

ghost use Rattle.std.specs.Prelude.{◌≡◌, ◌++◌, OnOk, Some, map, option_copied, option_map, slice_get};
ghost use Rattle.sva_address_spaces.specs.Seen.{places_seen, target_seen};
ghost use Rattle.sva_frames.specs.Reading.{holding_of};
ghost use Rattle.sva_lines.specs.Pieces.{rows};
ghost use Rattle.sva_explain.specs.Units.{place_lines, target_lines, held_seen};

use crate::blockers::levels::Level;
use crate::blockers::units::{put_in_reset, put_wait};
use crate::enabled::part_at;
use std::alloc::AllocError;
use sva_snapshot::{Held, Snapshot, Target};

/// Appends what a frame waits for at a unit.
pub fn put_target(
    out: &mut Vec<u8>,
    snapshot: &Snapshot,
    unit: u64,
    target: &Option<Target>,
) -> Result<(), AllocError>
    ensures { OnOk result (out.new.items ≡ out.old.items
        ++ target_lines snapshot.now unit (option_map target_seen target.now)) }
{
    match target {
        None => Ok(()),
        Some(Target::Cookie(cookie)) => match part_at(snapshot, unit) {
            None => Ok(()),
            Some(part) => put_wait(out, Level::First, snapshot, unit, part, *cookie),
        },
        Some(Target::ResetEnd) => put_in_reset(out, Level::First, snapshot, unit),
    }
}

/// Appends what a frame waits for at each unit.
fn put_targets(
    out: &mut Vec<u8>,
    snapshot: &Snapshot,
    targets: &[Option<Target>],
) -> Result<(), AllocError>
    ensures { OnOk result (out.new.items ≡ out.old.items
        ++ rows (target_lines snapshot.now) 0 (map (option_map target_seen) targets.now)) }
{
    for (unit, target) in targets.iter().enumerate() {
        put_target(out, snapshot, unit as u64, target)?;
    }
    Ok(())
}

/// Appends what a frame waits for, if it is withheld.
pub fn put_held(out: &mut Vec<u8>, snapshot: &Snapshot, held: &Held) -> Result<(), AllocError>
    ensures { OnOk result (out.new.items ≡ out.old.items
        ++ place_lines snapshot.now (Some (held_seen held.now))) }
{
    match held {
        Held::Free | Held::Mapped => Ok(()),
        Held::Withheld { targets } => put_targets(out, snapshot, targets),
    }
}

/// Where the frame of a number is, of these frames.
fn frame_at(frames: &[Held], frame: u64) -> Option<&Held>
    ensures { option_map held_seen (option_copied result) ≡ slice_get (map held_seen frames.now) frame }
{
    frames.get(frame as usize)
}

/// The same, as the definitions have the frames.
fn frame_among(frames: &[Held], frame: u64) -> Option<&Held>
    ensures { option_map held_seen (option_copied result) ≡ slice_get (places_seen (map holding_of frames.now)) frame }
{
    frame_at(frames, frame)
}

/// Appends what the frame of a number waits for, if it is withheld.
pub fn put_place(out: &mut Vec<u8>, snapshot: &Snapshot, frame: u64) -> Result<(), AllocError>
    ensures { OnOk result (out.new.items ≡ out.old.items
        ++ place_lines snapshot.now (slice_get snapshot.now.places frame)) }
{
    match frame_among(snapshot.frames.as_slice(), frame) {
        None => Ok(()),
        Some(held) => put_held(out, snapshot, held),
    }
}
