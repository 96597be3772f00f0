//! Groups of page requests on the way to a response: jobs in hands and in the queue, requests that aren't filed.

ghost use Rattle.std.specs.Prelude.{◌≡◌, ◌++◌, OnOk, flat_map, map, option_map};
ghost use Rattle.sva_labels.specs.Moves.{is_of_job};
ghost use Rattle.sva_lines.specs.Pieces.{rows};
ghost use Rattle.sva_msg.specs.Seen.{page_request_seen};
ghost use Rattle.sva_snapshot.specs.Shown.{endpoint_shown, host_group_shown, job_shown};
ghost use Rattle.sva_explain.specs.Jobs.{hand_if, job_at_if, job_if, job_lines, on_its_way_lines};
ghost use Rattle.sva_explain.specs.Jobs.{request_if, take_if, unfiled_lines};

use crate::blockers::{Level, Topic, put_about, put_bracket, put_indent, put_invalid};
use crate::enabled::{can_serve, can_take};
use std::alloc::AllocError;
use sva_lines::{end_line, put_field, put_word};
use sva_snapshot::{Endpoint, HostGroup, Job, PageRequest, Snapshot};

/// Is it the job of the group?
fn is_of_job(job: &Job, group: &HostGroup) -> bool
    ensures { result ≡ is_of_job (job_shown job.now) (host_group_shown group.now) }
{
    group.binding == job.binding && group.index == job.index
}

/// Appends the line of a worker, if it has the job of the group in hand.
fn put_hand_if(
    out: &mut Vec<u8>,
    level: Level,
    snapshot: &Snapshot,
    group: &HostGroup,
    worker: u64,
    hand: &Option<Job>,
) -> Result<(), AllocError>
    ensures { OnOk result (out.new.items ≡ out.old.items
        ++ hand_if level snapshot.now (host_group_shown group.now) worker (option_map job_shown hand.now)) }
{
    let Some(job) = hand else {
        return Ok(());
    };
    if !is_of_job(job, group) {
        return Ok(());
    }
    put_indent(out, level)?;
    put_field(out, "worker ", worker)?;
    put_word(out, " has it in hand")?;
    put_invalid(out, snapshot, worker)?;
    end_line(out)
}

/// Appends the line of the worker that has the job of the group in hand.
fn put_hands(
    out: &mut Vec<u8>,
    level: Level,
    snapshot: &Snapshot,
    group: &HostGroup,
    hands: &[Option<Job>],
) -> Result<(), AllocError>
    ensures { OnOk result (out.new.items ≡ out.old.items
        ++ rows (hand_if level snapshot.now (host_group_shown group.now)) 0 (map (option_map job_shown) hands.now)) }
{
    for (worker, hand) in hands.iter().enumerate() {
        put_hand_if(out, level, snapshot, group, worker as u64, hand)?;
    }
    Ok(())
}

/// Appends that a worker takes a job, in brackets, where that would be accepted.
fn put_take_if(
    out: &mut Vec<u8>,
    snapshot: &Snapshot,
    worker: u64,
    hand: &Option<Job>,
) -> Result<(), AllocError>
    ensures { OnOk result (out.new.items ≡ out.old.items
        ++ take_if snapshot.now worker (option_map job_shown hand.now)) }
{
    let holds = hand.is_none() && can_take(snapshot, worker);
    put_bracket(out, holds, " [take ", worker)
}

/// Appends for each worker that it takes a job, in brackets, where that would be accepted.
fn put_takes(
    out: &mut Vec<u8>,
    snapshot: &Snapshot,
    hands: &[Option<Job>],
) -> Result<(), AllocError>
    ensures { OnOk result (out.new.items ≡ out.old.items
        ++ rows (take_if snapshot.now) 0 (map (option_map job_shown) hands.now)) }
{
    for (worker, hand) in hands.iter().enumerate() {
        put_take_if(out, snapshot, worker as u64, hand)?;
    }
    Ok(())
}

/// Appends the line of a job that is queued, if it is that of the group.
fn put_job_if(
    out: &mut Vec<u8>,
    level: Level,
    snapshot: &Snapshot,
    group: &HostGroup,
    job: &Job,
) -> Result<(), AllocError>
    ensures { OnOk result (out.new.items ≡ out.old.items
        ++ job_if level snapshot.now (host_group_shown group.now) (job_shown job.now)) }
{
    if !is_of_job(job, group) {
        return Ok(());
    }
    put_indent(out, level)?;
    put_word(out, "no worker has taken it")?;
    put_takes(out, snapshot, snapshot.hands.as_slice())?;
    end_line(out)
}

/// Appends the line of the queued job of the group.
fn put_jobs(
    out: &mut Vec<u8>,
    level: Level,
    snapshot: &Snapshot,
    group: &HostGroup,
    jobs: &[Job],
) -> Result<(), AllocError>
    ensures { OnOk result (out.new.items ≡ out.old.items
        ++ flat_map (job_if level snapshot.now (host_group_shown group.now)) (map job_shown jobs.now)) }
{
    for job in jobs {
        put_job_if(out, level, snapshot, group, job)?;
    }
    Ok(())
}

/// Appends where the job of a group is, if there is one: in a hand, or in the job queue.
pub fn put_job_of(
    out: &mut Vec<u8>,
    level: Level,
    snapshot: &Snapshot,
    group: &HostGroup,
) -> Result<(), AllocError>
    ensures { OnOk result (out.new.items ≡ out.old.items
        ++ job_lines level snapshot.now (host_group_shown group.now)) }
{
    put_hands(out, level, snapshot, group, snapshot.hands.as_slice())?;
    put_jobs(out, level, snapshot, group, snapshot.jobs.as_slice())
}

/// Appends the line of a page request that waits, if it is of the group's index.
fn put_request_if(
    out: &mut Vec<u8>,
    level: Level,
    snapshot: &Snapshot,
    endpoint: u64,
    index: u64,
    request: &PageRequest,
) -> Result<(), AllocError>
    ensures { OnOk result (out.new.items ≡ out.old.items
        ++ request_if level snapshot.now endpoint index (page_request_seen request.now)) }
{
    if u64::from(request.index) != index {
        return Ok(());
    }
    put_indent(out, level)?;
    put_field(out, "a page request of it waits at unit ", endpoint)?;
    put_bracket(out, can_serve(snapshot, endpoint), " [serve ", endpoint)?;
    end_line(out)
}

/// Appends the lines of the page requests of the group's index that wait.
fn put_requests(
    out: &mut Vec<u8>,
    level: Level,
    snapshot: &Snapshot,
    endpoint: u64,
    index: u64,
    requests: &[PageRequest],
) -> Result<(), AllocError>
    ensures { OnOk result (out.new.items ≡ out.old.items
        ++ flat_map (request_if level snapshot.now endpoint index) (map page_request_seen requests.now)) }
{
    for request in requests {
        put_request_if(out, level, snapshot, endpoint, index, request)?;
    }
    Ok(())
}

/// Appends the lines of the page requests of an index that aren't filed: in the page request queue, and on the link.
pub fn put_unfiled(
    out: &mut Vec<u8>,
    level: Level,
    snapshot: &Snapshot,
    endpoint: u64,
    part: &Endpoint,
    index: u64,
) -> Result<(), AllocError>
    ensures { OnOk result (out.new.items ≡ out.old.items
        ++ unfiled_lines level snapshot.now endpoint (endpoint_shown part.now) index) }
{
    let requests = part.page_queue.as_slice();
    put_requests(out, level, snapshot, endpoint, index, requests)?;
    put_about(out, level, snapshot, endpoint, Topic::Asks(index))
}

/// Appends where the job of a group is, if the group has the index.
fn put_job_at_if(
    out: &mut Vec<u8>,
    level: Level,
    snapshot: &Snapshot,
    index: u64,
    group: &HostGroup,
) -> Result<(), AllocError>
    ensures { OnOk result (out.new.items ≡ out.old.items
        ++ job_at_if level snapshot.now index (host_group_shown group.now)) }
{
    if u64::from(group.index) == index {
        put_job_of(out, level, snapshot, group)
    } else {
        Ok(())
    }
}

/// Appends where the job of the group of an index is, of these groups.
fn put_job_at(
    out: &mut Vec<u8>,
    level: Level,
    snapshot: &Snapshot,
    index: u64,
    groups: &[HostGroup],
) -> Result<(), AllocError>
    ensures { OnOk result (out.new.items ≡ out.old.items
        ++ flat_map (job_at_if level snapshot.now index) (map host_group_shown groups.now)) }
{
    for group in groups {
        put_job_at_if(out, level, snapshot, index, group)?;
    }
    Ok(())
}

/// Appends where the group of an index stands on the way to its response.
pub(crate) fn put_on_its_way(
    out: &mut Vec<u8>,
    level: Level,
    snapshot: &Snapshot,
    endpoint: u64,
    part: &Endpoint,
    index: u64,
) -> Result<(), AllocError>
    ensures { OnOk result (out.new.items ≡ out.old.items
        ++ on_its_way_lines level snapshot.now endpoint (endpoint_shown part.now) index) }
{
    put_job_at(out, level, snapshot, index, part.host_groups.as_slice())?;
    put_unfiled(out, level, snapshot, endpoint, part, index)?;
    put_about(out, level, snapshot, endpoint, Topic::Responds(index))
}
