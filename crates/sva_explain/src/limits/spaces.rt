//! Spaces of which too many are live.

ghost use Rattle.std.specs.Prelude.{◌≡◌, ◌++◌, OnOk, flat_map, map};
ghost use Rattle.sva_explain.specs.Spaces.{spaces_line, too_many, unbound_if, unbound_line};
ghost use Rattle.sva_snapshot.specs.Shown.{space_shown};

use crate::blockers::{Level, put_indent};
use crate::enabled::can_drop;
use std::alloc::AllocError;
use sva_lines::{end_line, put_field, put_word};
use sva_snapshot::{Snapshot, Space};

/// Appends the line of a space that may go.
fn put_unbound(out: &mut Vec<u8>, level: Level, space: u64) -> Result<(), AllocError>
    ensures { OnOk result (out.new.items ≡ out.old.items ++ unbound_line level space) }
{
    put_indent(out, level)?;
    put_field(out, "space ", space)?;
    put_word(out, " isn't bound")?;
    put_field(out, " [drop ", space)?;
    put_word(out, "]")?;
    end_line(out)
}

/// Appends the line of a space, if it may go.
fn put_unbound_if(out: &mut Vec<u8>, snapshot: &Snapshot, space: &Space) -> Result<(), AllocError>
    ensures { OnOk result (out.new.items ≡ out.old.items ++ unbound_if snapshot.now (space_shown space.now)) }
{
    if can_drop(snapshot, space.number) {
        put_unbound(out, Level::Second, space.number)
    } else {
        Ok(())
    }
}

/// Appends the lines of those of some spaces that may go.
fn put_unbound_among(
    out: &mut Vec<u8>,
    snapshot: &Snapshot,
    spaces: &[Space],
) -> Result<(), AllocError>
    ensures { OnOk result (out.new.items ≡ out.old.items
        ++ flat_map (unbound_if snapshot.now) (map space_shown spaces.now)) }
{
    for space in spaces {
        put_unbound_if(out, snapshot, space)?;
    }
    Ok(())
}

/// Appends the lines of those spaces that may go.
fn put_each_unbound(out: &mut Vec<u8>, snapshot: &Snapshot) -> Result<(), AllocError>
    ensures { OnOk result (out.new.items ≡ out.old.items ++ flat_map (unbound_if snapshot.now) snapshot.now.spaces) }
{
    put_unbound_among(out, snapshot, snapshot.spaces.as_slice())
}

/// Appends that 64 spaces are live.
fn put_spaces_line(out: &mut Vec<u8>, level: Level) -> Result<(), AllocError>
    ensures { OnOk result (out.new.items ≡ out.old.items ++ spaces_line level) }
{
    put_indent(out, level)?;
    put_word(out, "64 spaces are live")?;
    end_line(out)
}

/// Appends that 64 spaces are live, and which of them may go.
pub fn put_too_many(out: &mut Vec<u8>, snapshot: &Snapshot) -> Result<(), AllocError>
    ensures { OnOk result (out.new.items ≡ out.old.items ++ too_many snapshot.now) }
{
    put_spaces_line(out, Level::First)?;
    put_each_unbound(out, snapshot)
}
