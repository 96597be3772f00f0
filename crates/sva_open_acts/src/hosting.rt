//! What the host does with entries, messages and its unit.

ghost use Rattle.std.specs.Prelude.{◌≡◌, IfOk, Some, filter, is_some, position, slice_get};
ghost use Rattle.std.specs.List.{list_any};
ghost use Rattle.sva_search.specs.Rules.{IsStep};
ghost use Rattle.sva_open.specs.Host as host;
ghost use Rattle.sva_open.specs.Finding as finding;
ghost use Rattle.sva_open.specs.Units.{is_drain, is_wait, is_waiting, isnt_out};

use crate::order::goes_up;
use std::alloc::AllocError;
use sva_open::{
    Arrived, Descriptor, Filed, Issued, Message, Part, Received, Request, Row, Sent, Work, drop_at,
    is_use,
};
use sva_step::QUEUE_PLACES;

pub(crate) fn set_entry(part: &mut Part, pasid: usize, space: u64) -> Result<bool, AllocError>
    ensures { IfOk result (λ done.
        IsStep (host.set_entry part.old pasid space (slice_get part.old.rows pasid)) done part.old part.new) }
{
    let Some(row) = part.row(pasid) else {
        return Ok(false);
    };
    let row = row.entered(space)?;
    part.set_row(pasid, row);
    Ok(true)
}

pub(crate) fn replace(part: &mut Part, pasid: usize, space: u64) -> bool
    ensures { IsStep (host.replace part.old pasid space (slice_get part.old.rows pasid)) result part.old part.new }
{
    let Some(row) = part.row(pasid) else {
        return false;
    };
    part.set_row(pasid, row.leading_to(space));
    true
}

pub(crate) fn clear_entry(part: &mut Part, pasid: usize) -> bool
    ensures { IsStep (host.clear_entry part.old pasid (slice_get part.old.rows pasid)) result part.old part.new }
{
    let Some(row) = part.row(pasid) else {
        return false;
    };
    part.set_row(pasid, Row { entry: None, ..row });
    true
}

pub(crate) fn free_pasid(part: &mut Part, pasid: usize) -> Result<bool, AllocError>
    ensures { IfOk result (λ done.
        IsStep (host.free_pasid part.old pasid (slice_get part.old.rows pasid)) done part.old part.new) }
{
    let Some(row) = part.row(pasid) else {
        return Ok(false);
    };
    let row = row.with_next_owner()?;
    part.set_row(pasid, row);
    Ok(true)
}

pub(crate) fn start(part: &mut Part, pasid: usize) -> Result<bool, AllocError>
    ensures { IfOk result (λ done.
        IsStep (host.start part.old pasid (slice_get part.old.rows pasid)) done part.old part.new) }
{
    let Some(row) = part.row(pasid) else {
        return Ok(false);
    };
    let time = part.time;
    part.send(row.owner, time, Message::Start { pasid })?;
    Ok(true)
}

pub(crate) fn stop(part: &mut Part, pasid: usize) -> Result<bool, AllocError>
    ensures { IfOk result (λ done.
        IsStep (host.stop part.old pasid (slice_get part.old.rows pasid)) done part.old part.new) }
{
    let Some(row) = part.row(pasid) else {
        return Ok(false);
    };
    let time = part.time;
    part.set_row(
        pasid,
        Row {
            answer: None,
            ..row
        },
    );
    part.send(row.owner, time, Message::Stop { pasid })?;
    Ok(true)
}

pub(crate) fn reset(part: &mut Part) -> Result<bool, AllocError>
    ensures { IfOk result (λ done. IsStep (Some (host.reset part.old)) done part.old part.new) }
{
    let time = part.time;
    part.send(0, time, Message::Reset)?;
    Ok(true)
}

pub(crate) fn submit(part: &mut Part, descriptors: &[Descriptor]) -> Result<bool, AllocError>
    ensures { IfOk result (λ done. IsStep (host.submit part.old descriptors.now) done part.old part.new) }
{
    if !may_submit(part, descriptors) {
        return Ok(false);
    }
    part.queue.extend_from_slice(descriptors)?;
    Ok(true)
}

fn may_submit(part: &Part, descriptors: &[Descriptor]) -> bool
    ensures { result ≡ host.may_submit part.now descriptors.now }
{
    part.is_open
        && part.queue.len() <= QUEUE_PLACES
        && descriptors.len() <= QUEUE_PLACES - part.queue.len()
}

pub(crate) fn close(part: &mut Part) -> bool
    ensures { IsStep (host.close part.old) result part.old part.new }
{
    if !part.is_open {
        return false;
    }
    part.is_open = false;
    keep_drains(&mut part.received);
    part.arrived.clear();
    part.filed.clear();
    true
}

pub(crate) fn reopen(part: &mut Part) -> bool
    ensures { IsStep (host.reopen part.old) result part.old part.new }
{
    if part.is_open {
        return false;
    }
    part.is_open = true;
    part.queue.clear();
    part.issued.clear();
    part.is_stalled = false;
    part.received.clear();
    true
}

/// The place of the head of the invalidation queue: of the first that isn't out already.
fn head_place(queue: &[Descriptor]) -> Option<usize>
    ensures { result ≡ position isnt_out queue.now }
{
    queue.iter().position(|one| one.isnt_out())
}

/// Takes out the head of the invalidation queue.
pub(crate) fn skip(part: &mut Part) -> bool
    ensures { IsStep (host.skip part.old (position isnt_out part.old.queue)) result part.old part.new }
{
    match head_place(part.queue.as_slice()) {
        None => false,
        Some(place) => {
            drop_at(&mut part.queue, place);
            true
        }
    }
}

pub(crate) fn await_wait(part: &Part, name: usize) -> bool
    ensures { IsStep (host.await_wait part.now name) result part.now part.now }
{
    !(is_queued(part.queue.as_slice(), name)
        || (is_issued(part.issued.as_slice(), name) || is_received(part.received.as_slice(), name)))
}

pub(crate) fn await_stopped(part: &mut Part, pasid: usize) -> bool
    ensures { IsStep (host.await_stopped part.old pasid (slice_get part.old.rows pasid)) result part.old part.new }
{
    let Some(row) = part.row(pasid) else {
        return false;
    };
    if row.answer.is_none() {
        return false;
    }
    part.set_row(
        pasid,
        Row {
            answer: None,
            ..row
        },
    );
    true
}

pub(crate) fn await_queue(part: &Part) -> bool
    ensures { IsStep (host.await_queue part.now) result part.now part.now }
{
    part.arrived.len() == 0
}

pub(crate) fn await_queue_of(part: &Part, pasid: usize) -> bool
    ensures { IsStep (host.await_queue_of part.now pasid) result part.now part.now }
{
    !has_arrived(part.arrived.as_slice(), pasid)
}

pub(crate) fn await_groups(part: &Part, pasid: Option<usize>) -> bool
    ensures { IsStep (host.await_groups part.now pasid) result part.now part.now }
{
    !is_filed(part.filed.as_slice(), pasid)
}

pub(crate) fn await_resets(part: &Part) -> bool
    ensures { IsStep (host.await_resets part.now) result part.now part.now }
{
    !is_resetting(part.flight.as_slice())
}

pub(crate) fn await_idle(part: &Part) -> bool
    ensures { IsStep (host.await_idle part.now) result part.now part.now }
{
    !is_any_out(part.requests.as_slice()) && !is_any_running(part.works.as_slice())
}

pub(crate) fn await_gone(part: &Part) -> bool
    ensures { IsStep (host.await_gone part.now) result part.now part.now }
{
    part.is_gone && !is_any_going_up(part.flight.as_slice())
}

fn is_queued(queue: &[Descriptor], name: usize) -> bool
    ensures { result ≡ list_any (is_wait name) queue.now }
{
    queue.iter().any(|one| one.is_wait(name))
}

fn is_issued(issued: &[Issued], name: usize) -> bool
    ensures { result ≡ list_any (is_waiting name) issued.now }
{
    issued.iter().any(|one| one.is_waiting(name))
}

fn is_received(received: &[Received], name: usize) -> bool
    ensures { result ≡ list_any (is_drain name) received.now }
{
    received.iter().any(|one| one.is_drain(name))
}

/// Takes out the page requests that were received.
fn keep_drains(received: &mut Vec<Received>)
    ensures { received.new.items ≡ filter host.is_drain_of_any received.old.items }
{
    received.retain(|one| !one.is_request());
}

fn has_arrived(arrived: &[Arrived], pasid: usize) -> bool
    ensures { result ≡ list_any (host.has_arrived pasid) arrived.now }
{
    arrived.iter().any(|one| one.request.pasid == pasid)
}

fn is_filed(filed: &[Filed], pasid: Option<usize>) -> bool
    ensures { result ≡ list_any (host.is_whole_under pasid) filed.now }
{
    filed.iter().any(|one| one.is_whole_under(pasid))
}

fn is_of_reset(one: &Sent) -> bool
    ensures { result ≡ host.is_of_reset one.now }
{
    matches!(one.message, Message::Reset | Message::ResetDone)
}

fn is_resetting(flight: &[Sent]) -> bool
    ensures { result ≡ list_any host.is_of_reset flight.now }
{
    flight.iter().any(|one| is_of_reset(one))
}

/// Whether a translation request is out.
fn is_any_out(requests: &[Option<Request>]) -> bool
    ensures { result ≡ list_any is_some requests.now }
{
    requests.iter().any(|request| request.is_some())
}

/// Whether a use runs.
fn is_any_running(works: &[Work]) -> bool
    ensures { result ≡ list_any finding.is_use works.now }
{
    works.iter().any(|one| is_use(one))
}

/// Whether something is on its way up.
fn is_any_going_up(flight: &[Sent]) -> bool
    ensures { result ≡ list_any host.is_going_up flight.now }
{
    flight.iter().any(|one| goes_up(&one.message))
}
