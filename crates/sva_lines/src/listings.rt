//! The listing.

ghost use Rattle.std.specs.Prelude.{◌≡◌, ◌++◌, OnOk};
ghost use Rattle.sva_lines.specs.Listing.{listing_of, memory_lines, port_lines, work_lines};
ghost use Rattle.sva_lines.specs.Memory.{frames_line};

use crate::devices::put_endpoints;
use crate::memory::{put_bindings, put_counts, put_frames, put_spaces};
use crate::messages::put_messages;
use crate::units::{put_hands, put_jobs, put_units};
use std::alloc::AllocError;
use sva_snapshot::Snapshot;

/// Appends the lines of spaces, withheld frames and bindings.
fn put_memory(out: &mut Vec<u8>, snapshot: &Snapshot) -> Result<(), AllocError>
    ensures { OnOk result (out.new.items ≡ out.old.items ++ memory_lines snapshot.now) }
{
    put_spaces(out, snapshot.spaces.as_slice())?;
    put_frames(out, snapshot.frames.as_slice())?;
    put_bindings(out, snapshot.bindings.as_slice())
}

/// Appends the lines of the endpoints, then of their units.
fn put_ports(out: &mut Vec<u8>, snapshot: &Snapshot) -> Result<(), AllocError>
    ensures { OnOk result (out.new.items ≡ out.old.items ++ port_lines snapshot.now) }
{
    put_endpoints(out, snapshot.endpoints.as_slice())?;
    put_units(out, snapshot.endpoints.as_slice())
}

/// Appends the lines of jobs, and of what workers have in hand.
fn put_work(out: &mut Vec<u8>, snapshot: &Snapshot) -> Result<(), AllocError>
    ensures { OnOk result (out.new.items ≡ out.old.items ++ work_lines snapshot.now) }
{
    put_jobs(out, snapshot.jobs.as_slice())?;
    put_hands(out, snapshot.hands.as_slice())
}

/// Appends the line of how many frames are free, mapped and withheld.
fn put_frame_counts(out: &mut Vec<u8>, snapshot: &Snapshot) -> Result<(), AllocError>
    ensures { OnOk result (out.new.items ≡ out.old.items ++ frames_line snapshot.now.places) }
{
    put_counts(out, snapshot.frames.as_slice())
}

/// Appends the listing of what a world keeps: a line for each thing, and none for what is free, off or empty.
///
/// A line has a head of 12 bytes or more, as `endpoint 0`, and then how the thing stands: spaces with their pages,
/// frames that are withheld with what they wait for, bindings, the tables of the endpoints, their units, jobs, what
/// workers have in hand, messages in flight with what holds them back, and how many frames are free, mapped and
/// withheld. An error says that there is no memory for it; then a part of the listing may be appended.
pub fn put_listing(out: &mut Vec<u8>, snapshot: &Snapshot) -> Result<(), AllocError>
    ensures { OnOk result (out.new.items ≡ out.old.items ++ listing_of snapshot.now) }
{
    put_memory(out, snapshot)?;
    put_ports(out, snapshot)?;
    put_work(out, snapshot)?;
    put_messages(out, snapshot)?;
    put_frame_counts(out, snapshot)
}
