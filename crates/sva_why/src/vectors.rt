//! The ITags that a vector names.

ghost use Rattle.std.specs.Prelude.{◌≡◌, ◌++◌, OnOk, option_map};
ghost use Rattle.sva_lines.specs.Pieces.{rows};
ghost use Rattle.sva_parts_by_labels.specs.Device.{taken_seen};
ghost use Rattle.sva_snapshot.specs.Shown.{endpoint_shown};
ghost use Rattle.sva_why.specs.Vectors.{free_or_out_lines, none_named_line, not_pending_line};
ghost use Rattle.sva_why.specs.Vectors.{in_use_if, in_use_lines, not_pending_if, not_pending_lines};

use std::alloc::AllocError;
use sva_explain::{
    Level, Topic, below, is_set, names_none, put_about, put_indent, put_reset_if, put_start,
    put_waits_for,
};
use sva_lines::{end_line, put_word};
use sva_snapshot::{Endpoint, Snapshot, Taken};

/// Appends the line of an ITag that the endpoint hasn't taken.
fn put_not_pending_line(out: &mut Vec<u8>, level: Level, itag: u64) -> Result<(), AllocError>
    ensures { OnOk result (out.new.items ≡ out.old.items ++ not_pending_line level itag) }
{
    put_start(out, level, "itag ", itag)?;
    put_word(out, " isn't pending")?;
    end_line(out)
}

/// Appends the lines of an ITag that the endpoint hasn't taken.
fn put_free_or_out(
    out: &mut Vec<u8>,
    level: Level,
    snapshot: &Snapshot,
    endpoint: u64,
    part: &Endpoint,
    itag: u64,
) -> Result<(), AllocError>
    ensures { OnOk result (out.new.items ≡ out.old.items
        ++ free_or_out_lines level snapshot.now endpoint (endpoint_shown part.now) itag) }
{
    put_not_pending_line(out, level, itag)?;
    put_about(out, below(level), snapshot, endpoint, Topic::Itag(itag))?;
    put_reset_if(out, below(level), snapshot, endpoint, part)
}

/// Appends the lines of an ITag, if the vector names it and the endpoint hasn't taken it.
fn put_not_pending_if(
    out: &mut Vec<u8>,
    snapshot: &Snapshot,
    endpoint: u64,
    part: &Endpoint,
    vector: u32,
    itag: u64,
    place: &Option<Taken>,
) -> Result<(), AllocError>
    ensures { OnOk result (out.new.items ≡ out.old.items
        ++ not_pending_if snapshot.now endpoint (endpoint_shown part.now) vector itag
        (option_map taken_seen place.now)) }
{
    if place.is_some() {
        return Ok(());
    }
    if is_set(vector, itag) {
        put_free_or_out(out, Level::First, snapshot, endpoint, part, itag)
    } else {
        Ok(())
    }
}

/// Appends the lines of the ITags that a vector names, and that the endpoint hasn't taken.
fn put_each_not_pending(
    out: &mut Vec<u8>,
    snapshot: &Snapshot,
    endpoint: u64,
    part: &Endpoint,
    vector: u32,
) -> Result<(), AllocError>
    ensures { OnOk result (out.new.items ≡ out.old.items
        ++ rows (not_pending_if snapshot.now endpoint (endpoint_shown part.now) vector) 0
        (endpoint_shown part.now).device.taken) }
{
    for (itag, place) in part.device.taken.as_slice().iter().enumerate() {
        put_not_pending_if(out, snapshot, endpoint, part, vector, itag as u64, place)?;
    }
    Ok(())
}

/// Appends that a vector names no ITag.
fn put_none_named(out: &mut Vec<u8>, level: Level) -> Result<(), AllocError>
    ensures { OnOk result (out.new.items ≡ out.old.items ++ none_named_line level) }
{
    put_indent(out, level)?;
    put_word(out, "the vector names no itag")?;
    end_line(out)
}

/// Appends why a vector may not be finished.
pub(crate) fn put_not_pending(
    out: &mut Vec<u8>,
    snapshot: &Snapshot,
    endpoint: u64,
    part: &Endpoint,
    vector: u32,
) -> Result<(), AllocError>
    ensures { OnOk result (out.new.items ≡ out.old.items
        ++ not_pending_lines snapshot.now endpoint (endpoint_shown part.now) vector) }
{
    if names_none(vector) {
        put_none_named(out, Level::First)
    } else {
        put_each_not_pending(out, snapshot, endpoint, part, vector)
    }
}

/// Appends the uses for which an ITag waits, if the vector names it.
fn put_in_use_if(
    out: &mut Vec<u8>,
    snapshot: &Snapshot,
    endpoint: u64,
    part: &Endpoint,
    vector: u32,
    itag: u64,
    place: &Option<Taken>,
) -> Result<(), AllocError>
    ensures { OnOk result (out.new.items ≡ out.old.items
        ++ in_use_if snapshot.now endpoint (endpoint_shown part.now) vector itag (option_map taken_seen place.now)) }
{
    let Some(taken) = place else {
        return Ok(());
    };
    if is_set(vector, itag) {
        put_waits_for(out, Level::First, snapshot, endpoint, part, itag, taken)
    } else {
        Ok(())
    }
}

/// Appends the uses for which the ITags of a vector wait.
pub(crate) fn put_in_use(
    out: &mut Vec<u8>,
    snapshot: &Snapshot,
    endpoint: u64,
    part: &Endpoint,
    vector: u32,
) -> Result<(), AllocError>
    ensures { OnOk result (out.new.items ≡ out.old.items
        ++ in_use_lines snapshot.now endpoint (endpoint_shown part.now) vector) }
{
    for (itag, place) in part.device.taken.as_slice().iter().enumerate() {
        put_in_use_if(out, snapshot, endpoint, part, vector, itag as u64, place)?;
    }
    Ok(())
}
