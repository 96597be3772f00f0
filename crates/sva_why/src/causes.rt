//! What is said of a refused step.

ghost use Rattle.std.specs.Prelude.{◌≡◌, ◌++◌, ◌+◌, ◌^◌, ◌≤◌, OnOk, map};
ghost use Rattle.sva_address_spaces.specs.Seen.{pages_seen};
ghost use Rattle.sva_lines.specs.Pieces.{rows};
ghost use Rattle.sva_snapshot.specs.Shown.{endpoint_shown};
ghost use Rattle.sva_step.specs.declared.steps.Step.TheVariants as steps;
ghost use Rattle.sva_why.specs.Causes.{already_bound, bad_verdict, busy, disabled, endpoint_of, full_if, in_use};
ghost use Rattle.sva_why.specs.Causes.{no_credit, not_live, not_mapped, not_pending, not_started, not_started_at};
ghost use Rattle.sva_why.specs.Causes.{not_stopping, not_stopping_at, not_yet, overtakes};
ghost use Rattle.sva_why.specs.Causes.{queue_full, refused_lines, resetting, still_bound, unmap_full_lines};
ghost use Rattle.sva_why.specs.Causes.{unmapped_if, unmapped_lines};

use crate::bindings::{put_borne, put_bound, put_full, put_kept, put_not_yet};
use crate::groups::put_read_only;
use crate::plain::put_plain;
use crate::vectors::{put_in_use, put_not_pending};
use std::alloc::AllocError;
use sva_explain::{
    Level, Topic, binding_of, bound_at, flight_of, held_by, is_mapped, pages_in, part_at,
    put_about, put_busy_pasid, put_credit, put_disabled, put_hands_full, put_in_reset, put_indent,
    put_mapped, put_no_frame, put_no_job, put_no_pasid, put_no_slot, put_no_tag, put_not_held,
    put_not_started, put_older, put_room, put_space_full, put_too_many, submits,
};
use sva_lines::{end_line, put_field, put_word};
use sva_snapshot::{Endpoint, Mapping, Snapshot};
use sva_step::{MOST_PAGES, PAGES, Refusal, Step};

/// Appends the line of a page, if it isn't mapped.
fn put_unmapped_if(out: &mut Vec<u8>, pages: &[Mapping], page: u64) -> Result<(), AllocError>
    ensures { OnOk result (out.new.items ≡ out.old.items ++ unmapped_if (pages_seen pages.now) page) }
{
    if is_mapped(pages, page) {
        return Ok(());
    }
    put_indent(out, Level::First)?;
    put_field(out, "page ", page)?;
    put_word(out, " isn't mapped")?;
    end_line(out)
}

/// Appends the lines of the pages in a row that aren't mapped.
fn put_unmapped(
    out: &mut Vec<u8>,
    pages: &[Mapping],
    page: u64,
    count: u64,
) -> Result<(), AllocError>
    requires { page + count ≤ 2 ^ 63 }
    ensures { OnOk result (out.new.items ≡ out.old.items ++ unmapped_lines (pages_seen pages.now) page count) }
{
    for offset in 0..count {
        put_unmapped_if(out, pages, page + offset)?;
    }
    Ok(())
}

/// Appends the lines of the pages that keep others from being taken out.
fn put_not_mapped(out: &mut Vec<u8>, snapshot: &Snapshot, step: &Step) -> Result<(), AllocError>
    ensures { OnOk result (out.new.items ≡ out.old.items ++ not_mapped snapshot.now step.now) }
{
    match step {
        Step::Unmap { space, page, count } => {
            if *count > MOST_PAGES as u64 || *page > PAGES {
                return Ok(());
            }
            put_unmapped(out, pages_in(snapshot, *space), *page, *count)
        }
        _ => Ok(()),
    }
}

/// Appends the lines of the bindings that keep a space.
fn put_still_bound(out: &mut Vec<u8>, snapshot: &Snapshot, step: &Step) -> Result<(), AllocError>
    ensures { OnOk result (out.new.items ≡ out.old.items ++ still_bound snapshot.now step.now) }
{
    match step {
        Step::DropSpace { space } => put_bound(out, snapshot, *space),
        _ => Ok(()),
    }
}

/// Appends what the stage of a binding waits for.
fn put_not_yet_of(out: &mut Vec<u8>, snapshot: &Snapshot, step: &Step) -> Result<(), AllocError>
    ensures { OnOk result (out.new.items ≡ out.old.items ++ not_yet snapshot.now step.now) }
{
    match step {
        Step::Advance { binding } => put_not_yet_at(out, snapshot, *binding),
        _ => Ok(()),
    }
}

/// Appends what the stage of the binding of a number waits for.
fn put_not_yet_at(out: &mut Vec<u8>, snapshot: &Snapshot, number: u64) -> Result<(), AllocError>
    ensures { OnOk result (out.new.items ≡ out.old.items ++ not_yet snapshot.now (steps.Advance number)) }
{
    let Some(binding) = binding_of(snapshot, number) else {
        return Ok(());
    };
    match part_at(snapshot, binding.endpoint) {
        None => Ok(()),
        Some(part) => put_not_yet(out, Level::First, snapshot, &binding, part),
    }
}

/// Appends the lines of a unit, if it is to get descriptors and lacks the room for them.
fn put_full_if(
    out: &mut Vec<u8>,
    snapshot: &Snapshot,
    space: u64,
    needed: u64,
    unit: u64,
    part: &Endpoint,
) -> Result<(), AllocError>
    ensures { OnOk result (out.new.items ≡ out.old.items
        ++ full_if snapshot.now space needed unit (endpoint_shown part.now)) }
{
    if submits(snapshot, space, unit) {
        put_room(out, Level::First, snapshot, unit, part, needed)
    } else {
        Ok(())
    }
}

/// Appends the lines of those of some units that are to get descriptors and lack the room for them.
fn put_full_among(
    out: &mut Vec<u8>,
    snapshot: &Snapshot,
    space: u64,
    needed: u64,
    endpoints: &[Endpoint],
) -> Result<(), AllocError>
    ensures { OnOk result (out.new.items ≡ out.old.items
        ++ rows (full_if snapshot.now space needed) 0 (map endpoint_shown endpoints.now)) }
{
    for (unit, part) in endpoints.iter().enumerate() {
        put_full_if(out, snapshot, space, needed, unit as u64, part)?;
    }
    Ok(())
}

/// Appends the lines of the units that are to get descriptors of an unmapping and lack the room for them.
fn put_unmap_full(
    out: &mut Vec<u8>,
    snapshot: &Snapshot,
    space: u64,
    needed: u64,
) -> Result<(), AllocError>
    ensures { OnOk result (out.new.items ≡ out.old.items ++ unmap_full_lines snapshot.now space needed) }
{
    put_full_among(out, snapshot, space, needed, snapshot.endpoints.as_slice())
}

/// Appends the lines of the unit of a binding, if it lacks the room for its descriptors.
fn put_full_at(out: &mut Vec<u8>, snapshot: &Snapshot, number: u64) -> Result<(), AllocError>
    ensures { OnOk result (out.new.items ≡ out.old.items ++ queue_full snapshot.now (steps.Advance number)) }
{
    let Some(binding) = binding_of(snapshot, number) else {
        return Ok(());
    };
    match part_at(snapshot, binding.endpoint) {
        None => Ok(()),
        Some(part) => put_full(out, Level::First, snapshot, &binding, part),
    }
}

/// Appends the lines of the units that lack room.
fn put_queue_full(out: &mut Vec<u8>, snapshot: &Snapshot, step: &Step) -> Result<(), AllocError>
    ensures { OnOk result (out.new.items ≡ out.old.items ++ queue_full snapshot.now step.now) }
{
    match step {
        Step::Unmap { space, count, .. } => {
            if *count > MOST_PAGES as u64 {
                return Ok(());
            }
            put_unmap_full(out, snapshot, *space, *count + 1)
        }
        Step::UnmapRange { space, .. } => put_unmap_full(out, snapshot, *space, 2),
        Step::Advance { binding } => put_full_at(out, snapshot, *binding),
        _ => Ok(()),
    }
}

/// Appends how a PASID stands at an endpoint.
fn put_not_started_at(
    out: &mut Vec<u8>,
    snapshot: &Snapshot,
    endpoint: u64,
    pasid: u64,
) -> Result<(), AllocError>
    ensures { OnOk result (out.new.items ≡ out.old.items ++ not_started_at snapshot.now endpoint pasid) }
{
    match part_at(snapshot, endpoint) {
        None => Ok(()),
        Some(part) => put_not_started(out, snapshot, endpoint, part, pasid),
    }
}

/// Appends how the PASID of a step stands.
fn put_not_started_of(out: &mut Vec<u8>, snapshot: &Snapshot, step: &Step) -> Result<(), AllocError>
    ensures { OnOk result (out.new.items ≡ out.old.items ++ not_started snapshot.now step.now) }
{
    match step {
        Step::Ask {
            endpoint,
            pasid,
            ..
        }
        | Step::BeginUse {
            endpoint,
            pasid,
            ..
        }
        | Step::Fault {
            endpoint,
            pasid,
            ..
        } => put_not_started_at(out, snapshot, *endpoint, *pasid),
        _ => Ok(()),
    }
}

/// Appends the ITags of a vector that aren't pending.
fn put_not_pending_of(out: &mut Vec<u8>, snapshot: &Snapshot, step: &Step) -> Result<(), AllocError>
    ensures { OnOk result (out.new.items ≡ out.old.items ++ not_pending snapshot.now step.now) }
{
    match step {
        Step::Finish {
            endpoint,
            vector,
            ..
        } => match part_at(snapshot, *endpoint) {
            None => Ok(()),
            Some(part) => put_not_pending(out, snapshot, *endpoint, part, *vector),
        },
        _ => Ok(()),
    }
}

/// Appends the uses for which the ITags of a vector wait.
fn put_in_use_of(out: &mut Vec<u8>, snapshot: &Snapshot, step: &Step) -> Result<(), AllocError>
    ensures { OnOk result (out.new.items ≡ out.old.items ++ in_use snapshot.now step.now) }
{
    match step {
        Step::Finish {
            endpoint,
            vector,
            ..
        } => match part_at(snapshot, *endpoint) {
            None => Ok(()),
            Some(part) => put_in_use(out, snapshot, *endpoint, part, *vector),
        },
        _ => Ok(()),
    }
}

/// Appends what keeps a PASID from being quit.
fn put_busy_of(out: &mut Vec<u8>, snapshot: &Snapshot, step: &Step) -> Result<(), AllocError>
    ensures { OnOk result (out.new.items ≡ out.old.items ++ busy snapshot.now step.now) }
{
    match step {
        Step::Quit { endpoint, pasid } => match part_at(snapshot, *endpoint) {
            None => Ok(()),
            Some(part) => { put_busy_pasid(out, Level::First, snapshot, *endpoint, part, *pasid) }
        },
        _ => Ok(()),
    }
}

/// Appends the older messages that hold a message back.
fn put_overtakes(out: &mut Vec<u8>, snapshot: &Snapshot, step: &Step) -> Result<(), AllocError>
    ensures { OnOk result (out.new.items ≡ out.old.items ++ overtakes snapshot.now step.now) }
{
    match step {
        Step::Deliver { message } => match flight_of(snapshot, *message) {
            None => Ok(()),
            Some(flight) => put_older(out, snapshot, &flight),
        },
        _ => Ok(()),
    }
}

/// Appends the requests that ask to write a page which is mapped read-only.
fn put_bad_verdict(out: &mut Vec<u8>, snapshot: &Snapshot, step: &Step) -> Result<(), AllocError>
    ensures { OnOk result (out.new.items ≡ out.old.items ++ bad_verdict snapshot.now step.now) }
{
    match step {
        Step::Reply { worker, .. } => match held_by(snapshot, *worker) {
            None => Ok(()),
            Some(job) => put_read_only(out, snapshot, *worker, job),
        },
        _ => Ok(()),
    }
}

/// The endpoint of the binding of a number.
fn endpoint_of_number(snapshot: &Snapshot, number: u64) -> Option<u64>
    ensures { result ≡ endpoint_of snapshot.now (steps.Unbind number) }
{
    match binding_of(snapshot, number) {
        None => None,
        Some(binding) => Some(binding.endpoint),
    }
}

/// The endpoint of a step, or of its binding.
fn endpoint_of(snapshot: &Snapshot, step: &Step) -> Option<u64>
    ensures { result ≡ endpoint_of snapshot.now step.now }
{
    match step {
        Step::Bind { endpoint, .. }
        | Step::Pump { endpoint }
        | Step::Serve { endpoint }
        | Step::Reset { endpoint }
        | Step::Fault { endpoint, .. } => Some(*endpoint),
        Step::Unbind { binding } | Step::Advance { binding } => {
            endpoint_of_number(snapshot, *binding)
        }
        _ => None,
    }
}

/// Appends the reset that a step waits for.
fn put_resetting(
    out: &mut Vec<u8>,
    snapshot: &Snapshot,
    endpoint: Option<u64>,
) -> Result<(), AllocError>
    ensures { OnOk result (out.new.items ≡ out.old.items ++ resetting snapshot.now endpoint) }
{
    match endpoint {
        None => Ok(()),
        Some(endpoint) => put_in_reset(out, Level::First, snapshot, endpoint),
    }
}

/// Appends that page requests are disabled.
fn put_disabled_at(
    out: &mut Vec<u8>,
    snapshot: &Snapshot,
    endpoint: Option<u64>,
) -> Result<(), AllocError>
    ensures { OnOk result (out.new.items ≡ out.old.items ++ disabled snapshot.now endpoint) }
{
    let Some(endpoint) = endpoint else {
        return Ok(());
    };
    match part_at(snapshot, endpoint) {
        None => Ok(()),
        Some(part) => put_disabled(out, Level::First, snapshot, endpoint, &part.device),
    }
}

/// Appends the groups whose response is due.
fn put_no_credit(
    out: &mut Vec<u8>,
    snapshot: &Snapshot,
    endpoint: Option<u64>,
) -> Result<(), AllocError>
    ensures { OnOk result (out.new.items ≡ out.old.items ++ no_credit snapshot.now endpoint) }
{
    let Some(endpoint) = endpoint else {
        return Ok(());
    };
    match part_at(snapshot, endpoint) {
        None => Ok(()),
        Some(part) => put_credit(out, Level::First, snapshot, endpoint, part),
    }
}

/// Appends that a PASID isn't told to stop, and its stop that is in flight.
fn put_not_stopping_at(
    out: &mut Vec<u8>,
    snapshot: &Snapshot,
    endpoint: u64,
    pasid: u64,
) -> Result<(), AllocError>
    ensures { OnOk result (out.new.items ≡ out.old.items ++ not_stopping_at snapshot.now endpoint pasid) }
{
    put_plain(out, Refusal::NotStopping)?;
    put_about(out, Level::Second, snapshot, endpoint, Topic::Stop(pasid))
}

/// Appends the same of the PASID of a step.
fn put_not_stopping(out: &mut Vec<u8>, snapshot: &Snapshot, step: &Step) -> Result<(), AllocError>
    ensures { OnOk result (out.new.items ≡ out.old.items ++ not_stopping snapshot.now step.now) }
{
    match step {
        Step::Quit { endpoint, pasid } => put_not_stopping_at(out, snapshot, *endpoint, *pasid),
        _ => Ok(()),
    }
}

/// Appends the binding of a space at an endpoint that keeps it from being bound there.
fn put_already_bound(out: &mut Vec<u8>, snapshot: &Snapshot, step: &Step) -> Result<(), AllocError>
    ensures { OnOk result (out.new.items ≡ out.old.items ++ already_bound snapshot.now step.now) }
{
    match step {
        Step::Bind { endpoint, space } => match bound_at(snapshot, *endpoint, *space) {
            None => Ok(()),
            Some(found) => put_borne(out, snapshot, &found),
        },
        _ => Ok(()),
    }
}

/// Appends the binding that isn't live.
fn put_not_live(out: &mut Vec<u8>, snapshot: &Snapshot, step: &Step) -> Result<(), AllocError>
    ensures { OnOk result (out.new.items ≡ out.old.items ++ not_live snapshot.now step.now) }
{
    match step {
        Step::Unbind { binding } => match binding_of(snapshot, *binding) {
            None => Ok(()),
            Some(found) => put_kept(out, snapshot, &found),
        },
        _ => Ok(()),
    }
}

/// Appends what refuses a step.
pub(crate) fn put_refused(
    out: &mut Vec<u8>,
    snapshot: &Snapshot,
    step: &Step,
    refusal: Refusal,
) -> Result<(), AllocError>
    ensures { OnOk result (out.new.items ≡ out.old.items ++ refused_lines snapshot.now step.now refusal) }
{
    match refusal {
        Refusal::NotMapped => put_not_mapped(out, snapshot, step),
        Refusal::StillBound => put_still_bound(out, snapshot, step),
        Refusal::NotYet => put_not_yet_of(out, snapshot, step),
        Refusal::QueueFull => put_queue_full(out, snapshot, step),
        Refusal::NotStarted => put_not_started_of(out, snapshot, step),
        Refusal::NotPending => put_not_pending_of(out, snapshot, step),
        Refusal::InUse => put_in_use_of(out, snapshot, step),
        Refusal::Busy => put_busy_of(out, snapshot, step),
        Refusal::Overtakes => put_overtakes(out, snapshot, step),
        Refusal::BadVerdict => put_bad_verdict(out, snapshot, step),
        Refusal::Resetting => put_resetting(out, snapshot, endpoint_of(snapshot, step)),
        Refusal::PriDisabled => put_disabled_at(out, snapshot, endpoint_of(snapshot, step)),
        Refusal::NoCredit => put_no_credit(out, snapshot, endpoint_of(snapshot, step)),
        Refusal::NotHeld => put_not_held(out, snapshot, step),
        Refusal::NoTag => put_no_tag(out, snapshot, step),
        Refusal::NoUseSlot => put_no_slot(out, snapshot, step),
        Refusal::HandsFull => put_hands_full(out, snapshot, step),
        Refusal::NoJob => put_no_job(out, snapshot, step),
        Refusal::TooManySpaces => put_too_many(out, snapshot),
        Refusal::NoFrame => put_no_frame(out, snapshot, step),
        Refusal::SpaceFull => put_space_full(out, snapshot, step),
        Refusal::NoPasid => put_no_pasid(out, snapshot),
        Refusal::NotStopping => put_not_stopping(out, snapshot, step),
        Refusal::AlreadyBound => put_already_bound(out, snapshot, step),
        Refusal::NotLive => put_not_live(out, snapshot, step),
        Refusal::Mapped => put_mapped(out, snapshot, step),
        other => put_plain(out, other),
    }
}
