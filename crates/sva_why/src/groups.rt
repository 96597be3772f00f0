//! Groups of page requests that the host has open, and jobs in hands.

ghost use Rattle.std.specs.Prelude.{◌≡◌, ◌++◌, None, OnOk, Some, flat_map, map, slice_index_or};
ghost use Rattle.sva_address_spaces.specs.Seen.{pages_seen};
ghost use Rattle.sva_parts_by_labels.specs.Device.{group_seen};
ghost use Rattle.sva_prq.specs.Job.{ask_seen};
ghost use Rattle.sva_snapshot.specs.Shown.{endpoint_shown, host_group_shown, job_shown};
ghost use Rattle.sva_why.specs.Groups.{open_if, open_lines, read_only_if, read_only_lines, unfinished_at, where_lines};

use std::alloc::AllocError;
use sva_explain::{
    Level, below, is_read_only_at, pages_of_job, put_indent, put_invalid, put_job_of, put_unfiled,
    put_unfinished_if,
};
use sva_lines::{end_line, put_field, put_word};
use sva_snapshot::{Ask, Endpoint, GroupPlace, HostGroup, Job, Mapping, Snapshot};

/// Appends the lines of the endpoint's group that is at the index, if it is unfinished.
fn put_unfinished_place(
    out: &mut Vec<u8>,
    level: Level,
    snapshot: &Snapshot,
    endpoint: u64,
    part: &Endpoint,
    index: u64,
    place: &GroupPlace,
) -> Result<(), AllocError>
    ensures { OnOk result (out.new.items ≡ out.old.items
        ++ unfinished_at level snapshot.now endpoint (endpoint_shown part.now) index (group_seen place.now)) }
{
    let pasid = match place {
        GroupPlace::Free => return Ok(()),
        GroupPlace::Collecting { pasid, .. }
        | GroupPlace::Out { pasid, .. }
        | GroupPlace::Stale { pasid, .. } => u64::from(*pasid),
    };
    put_unfinished_if(out, level, snapshot, endpoint, part, pasid, index, place)
}

/// Appends the lines of the endpoint's group of the index, of these groups, if it is unfinished.
fn put_unfinished_at(
    out: &mut Vec<u8>,
    level: Level,
    snapshot: &Snapshot,
    endpoint: u64,
    part: &Endpoint,
    index: u64,
    groups: &[GroupPlace],
) -> Result<(), AllocError>
    ensures { OnOk result (out.new.items ≡ out.old.items
        ++ unfinished_at level snapshot.now endpoint (endpoint_shown part.now) index
        (slice_index_or (map group_seen groups.now) index None)) }
{
    match groups.get(index as usize) {
        None => Ok(()),
        Some(place) => put_unfinished_place(out, level, snapshot, endpoint, part, index, place),
    }
}

/// Appends where an open group stands.
fn put_where(
    out: &mut Vec<u8>,
    level: Level,
    snapshot: &Snapshot,
    endpoint: u64,
    part: &Endpoint,
    group: &HostGroup,
) -> Result<(), AllocError>
    ensures { OnOk result (out.new.items ≡ out.old.items
        ++ where_lines level snapshot.now endpoint (endpoint_shown part.now) (host_group_shown group.now)) }
{
    let index = u64::from(group.index);
    put_job_of(out, level, snapshot, group)?;
    put_unfiled(out, level, snapshot, endpoint, part, index)?;
    let groups = part.device.groups.as_slice();
    put_unfinished_at(out, level, snapshot, endpoint, part, index, groups)
}

/// Appends the lines of an open group, if it is of the binding.
fn put_open_if(
    out: &mut Vec<u8>,
    level: Level,
    snapshot: &Snapshot,
    endpoint: u64,
    part: &Endpoint,
    binding: u64,
    group: &HostGroup,
) -> Result<(), AllocError>
    ensures { OnOk result (out.new.items ≡ out.old.items
        ++ open_if level snapshot.now endpoint (endpoint_shown part.now) binding (host_group_shown group.now)) }
{
    if group.binding != binding {
        return Ok(());
    }
    put_indent(out, level)?;
    put_field(out, "group ", u64::from(group.index))?;
    put_field(out, " of binding ", group.binding)?;
    put_word(out, " isn't answered")?;
    end_line(out)?;
    put_where(out, below(level), snapshot, endpoint, part, group)
}

/// Appends the lines of those of some open groups that are of the binding.
fn put_open_among(
    out: &mut Vec<u8>,
    level: Level,
    snapshot: &Snapshot,
    endpoint: u64,
    part: &Endpoint,
    binding: u64,
    groups: &[HostGroup],
) -> Result<(), AllocError>
    ensures { OnOk result (out.new.items ≡ out.old.items
        ++ flat_map (open_if level snapshot.now endpoint (endpoint_shown part.now) binding)
        (map host_group_shown groups.now)) }
{
    for group in groups {
        put_open_if(out, level, snapshot, endpoint, part, binding, group)?;
    }
    Ok(())
}

/// Appends the lines of the open groups of a binding.
pub(crate) fn put_open(
    out: &mut Vec<u8>,
    level: Level,
    snapshot: &Snapshot,
    endpoint: u64,
    part: &Endpoint,
    binding: u64,
) -> Result<(), AllocError>
    ensures { OnOk result (out.new.items ≡ out.old.items
        ++ open_lines level snapshot.now endpoint (endpoint_shown part.now) binding) }
{
    let groups = part.host_groups.as_slice();
    put_open_among(out, level, snapshot, endpoint, part, binding, groups)
}

/// Appends the line of a request, if it asks to write a page that is mapped read-only.
fn put_read_only_if(
    out: &mut Vec<u8>,
    snapshot: &Snapshot,
    worker: u64,
    pages: &[Mapping],
    ask: &Ask,
) -> Result<(), AllocError>
    ensures { OnOk result (out.new.items ≡ out.old.items
        ++ read_only_if snapshot.now worker (pages_seen pages.now) (ask_seen ask.now)) }
{
    if !ask.write || !is_read_only_at(pages, ask.page) {
        return Ok(());
    }
    put_indent(out, Level::First)?;
    put_field(out, "page ", ask.page)?;
    put_word(out, " is mapped read-only, and a request asks to write it")?;
    put_invalid(out, snapshot, worker)?;
    end_line(out)
}

/// Appends the lines of the requests that ask to write a page which is mapped read-only.
fn put_each_read_only(
    out: &mut Vec<u8>,
    snapshot: &Snapshot,
    worker: u64,
    pages: &[Mapping],
    asks: &[Ask],
) -> Result<(), AllocError>
    ensures { OnOk result (out.new.items ≡ out.old.items
        ++ flat_map (read_only_if snapshot.now worker (pages_seen pages.now)) (map ask_seen asks.now)) }
{
    for ask in asks {
        put_read_only_if(out, snapshot, worker, pages, ask)?;
    }
    Ok(())
}

/// Appends the lines of the requests of a job that ask to write a page which is mapped read-only.
pub(crate) fn put_read_only(
    out: &mut Vec<u8>,
    snapshot: &Snapshot,
    worker: u64,
    job: &Job,
) -> Result<(), AllocError>
    ensures { OnOk result (out.new.items ≡ out.old.items
        ++ read_only_lines snapshot.now worker (Some (job_shown job.now))) }
{
    let pages = pages_of_job(snapshot, job);
    put_each_read_only(out, snapshot, worker, pages, job.asks.as_slice())
}
