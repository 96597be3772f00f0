//! The units, the jobs and what workers have in hand.

ghost use Rattle.std.specs.Prelude.{◌≡◌, ◌++◌, OnOk, flat_map, map, option_map};
ghost use Rattle.sva_iommu.specs.Seen.{busy_seen, descriptor_seen};
ghost use Rattle.sva_lines.specs.Pieces.{rows};
ghost use Rattle.sva_lines.specs.Units.{busy_lines, descriptor_text, filed_line, hand_lines};
ghost use Rattle.sva_lines.specs.Units.{job_line, job_text, queued_line, request_line};
ghost use Rattle.sva_lines.specs.Units.{unit_line, unit_lines};
ghost use Rattle.sva_msg.specs.Seen.{page_request_seen};
ghost use Rattle.sva_snapshot.specs.Shown.{endpoint_shown, host_group_shown, job_shown, unit_shown};

use crate::pieces::{
    end_line, put_asks, put_field, put_head, put_if, put_plain_head, put_range, put_request,
    put_word,
};
use crate::words::put_busy;
use std::alloc::AllocError;
use sva_snapshot::{Busy, Descriptor, Endpoint, HostGroup, Job, PageRequest, Unit};

/// Appends the line of a unit itself.
fn put_unit(out: &mut Vec<u8>, number: u64, unit: &Unit) -> Result<(), AllocError>
    ensures { OnOk result (out.new.items ≡ out.old.items ++ unit_line number (unit_shown unit.now)) }
{
    put_head(out, "unit ", number)?;
    put_word(out, if unit.is_open { " open" } else { " in reset" })?;
    put_field(out, ", waits done below ", unit.front)?;
    end_line(out)
}

/// Appends what a descriptor asks for.
fn put_descriptor(out: &mut Vec<u8>, descriptor: &Descriptor) -> Result<(), AllocError>
    ensures { OnOk result (out.new.items ≡ out.old.items ++ descriptor_text (descriptor_seen descriptor.now)) }
{
    match descriptor {
        Descriptor::Range { pasid, range } => {
            put_range(out, *range)?;
            put_field(out, " of pasid ", u64::from(*pasid))
        }
        Descriptor::Pasid { pasid } => put_field(out, " all pages of pasid ", u64::from(*pasid)),
        Descriptor::Wait { cookie, drain } => {
            put_field(out, " wait ", *cookie)?;
            put_if(out, *drain, " drain")
        }
    }
}

/// Appends the line of a descriptor in the queue.
fn put_queued(out: &mut Vec<u8>, unit: u64, descriptor: &Descriptor) -> Result<(), AllocError>
    ensures { OnOk result (out.new.items ≡ out.old.items ++ queued_line unit (descriptor_seen descriptor.now)) }
{
    put_head(out, "unit ", unit)?;
    put_word(out, " queued")?;
    put_descriptor(out, descriptor)?;
    end_line(out)
}

/// Appends the lines of an invalidation queue, the head first.
fn put_queue(out: &mut Vec<u8>, unit: u64, queue: &[Descriptor]) -> Result<(), AllocError>
    ensures { OnOk result (out.new.items ≡ out.old.items
        ++ flat_map (queued_line unit) (map descriptor_seen queue.now)) }
{
    for descriptor in queue {
        put_queued(out, unit, descriptor)?;
    }
    Ok(())
}

/// Appends the line of an ITag that is busy.
fn put_busy_itag(
    out: &mut Vec<u8>,
    unit: u64,
    itag: u64,
    place: &Option<Busy>,
) -> Result<(), AllocError>
    ensures { OnOk result (out.new.items ≡ out.old.items ++ busy_lines unit itag (option_map busy_seen place.now)) }
{
    let Some(busy) = place else {
        return Ok(());
    };
    put_head(out, "unit ", unit)?;
    put_field(out, " itag ", itag)?;
    put_word(out, " busy")?;
    put_busy(out, busy)?;
    end_line(out)
}

/// Appends the lines of the ITags that are busy.
fn put_busy_itags(out: &mut Vec<u8>, unit: u64, busy: &[Option<Busy>]) -> Result<(), AllocError>
    ensures { OnOk result (out.new.items ≡ out.old.items
        ++ rows (busy_lines unit) 0 (map (option_map busy_seen) busy.now)) }
{
    for (itag, place) in busy.iter().enumerate() {
        put_busy_itag(out, unit, itag as u64, place)?;
    }
    Ok(())
}

/// Appends the line of a page request that waits.
fn put_waiting(out: &mut Vec<u8>, unit: u64, request: &PageRequest) -> Result<(), AllocError>
    ensures { OnOk result (out.new.items ≡ out.old.items ++ request_line unit (page_request_seen request.now)) }
{
    put_head(out, "unit ", unit)?;
    put_word(out, " page-request")?;
    put_request(out, request)?;
    end_line(out)
}

/// Appends the lines of a page request queue, the oldest first.
fn put_page_queue(out: &mut Vec<u8>, unit: u64, requests: &[PageRequest]) -> Result<(), AllocError>
    ensures { OnOk result (out.new.items ≡ out.old.items
        ++ flat_map (request_line unit) (map page_request_seen requests.now)) }
{
    for request in requests {
        put_waiting(out, unit, request)?;
    }
    Ok(())
}

/// Appends the line of a group that the host has open.
fn put_filed_group(out: &mut Vec<u8>, unit: u64, group: &HostGroup) -> Result<(), AllocError>
    ensures { OnOk result (out.new.items ≡ out.old.items ++ filed_line unit (host_group_shown group.now)) }
{
    put_head(out, "unit ", unit)?;
    put_field(out, " group ", u64::from(group.index))?;
    put_field(out, " binding ", group.binding)?;
    put_word(out, if group.is_whole { " whole" } else { " part" })?;
    put_asks(out, group.asks.as_slice())?;
    end_line(out)
}

/// Appends the lines of the groups that the host has open.
fn put_filed(out: &mut Vec<u8>, unit: u64, groups: &[HostGroup]) -> Result<(), AllocError>
    ensures { OnOk result (out.new.items ≡ out.old.items
        ++ flat_map (filed_line unit) (map host_group_shown groups.now)) }
{
    for group in groups {
        put_filed_group(out, unit, group)?;
    }
    Ok(())
}

/// Appends the lines of a unit.
fn put_unit_of(out: &mut Vec<u8>, unit: u64, endpoint: &Endpoint) -> Result<(), AllocError>
    ensures { OnOk result (out.new.items ≡ out.old.items ++ unit_lines unit (endpoint_shown endpoint.now)) }
{
    put_unit(out, unit, &endpoint.unit)?;
    put_queue(out, unit, endpoint.unit.queue.as_slice())?;
    put_busy_itags(out, unit, endpoint.unit.busy.as_slice())?;
    put_page_queue(out, unit, endpoint.page_queue.as_slice())?;
    put_filed(out, unit, endpoint.host_groups.as_slice())
}

/// Appends the lines of the units.
pub(crate) fn put_units(out: &mut Vec<u8>, endpoints: &[Endpoint]) -> Result<(), AllocError>
    ensures { OnOk result (out.new.items ≡ out.old.items ++ rows unit_lines 0 (map endpoint_shown endpoints.now)) }
{
    for (number, endpoint) in endpoints.iter().enumerate() {
        put_unit_of(out, number as u64, endpoint)?;
    }
    Ok(())
}

/// Appends what a job is.
fn put_job_text(out: &mut Vec<u8>, job: &Job) -> Result<(), AllocError>
    ensures { OnOk result (out.new.items ≡ out.old.items ++ job_text (job_shown job.now)) }
{
    put_field(out, " endpoint ", job.endpoint)?;
    put_field(out, " binding ", job.binding)?;
    put_field(out, " group ", u64::from(job.index))?;
    put_asks(out, job.asks.as_slice())
}

/// Appends the line of a job that no worker has taken.
fn put_job(out: &mut Vec<u8>, job: &Job) -> Result<(), AllocError>
    ensures { OnOk result (out.new.items ≡ out.old.items ++ job_line (job_shown job.now)) }
{
    put_plain_head(out, "job")?;
    put_job_text(out, job)?;
    end_line(out)
}

/// Appends the lines of the jobs that no worker has taken.
pub(crate) fn put_jobs(out: &mut Vec<u8>, jobs: &[Job]) -> Result<(), AllocError>
    ensures { OnOk result (out.new.items ≡ out.old.items ++ flat_map job_line (map job_shown jobs.now)) }
{
    for job in jobs {
        put_job(out, job)?;
    }
    Ok(())
}

/// Appends the line of a worker that has a job in hand.
fn put_hand(out: &mut Vec<u8>, worker: u64, hand: &Option<Job>) -> Result<(), AllocError>
    ensures { OnOk result (out.new.items ≡ out.old.items ++ hand_lines worker (option_map job_shown hand.now)) }
{
    let Some(job) = hand else {
        return Ok(());
    };
    put_head(out, "worker ", worker)?;
    put_job_text(out, job)?;
    end_line(out)
}

/// Appends the lines of the workers that have a job in hand.
pub(crate) fn put_hands(out: &mut Vec<u8>, hands: &[Option<Job>]) -> Result<(), AllocError>
    ensures { OnOk result (out.new.items ≡ out.old.items ++ rows hand_lines 0 (map (option_map job_shown) hands.now)) }
{
    for (worker, hand) in hands.iter().enumerate() {
        put_hand(out, worker as u64, hand)?;
    }
    Ok(())
}
