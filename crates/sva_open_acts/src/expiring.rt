//! Invalidations that run out of time.

ghost use Rattle.std.specs.Prelude.{◌≡◌, ◌++◌, IfOk, Some, drop, filter, is_none, position, slice_get};
ghost use Rattle.std.specs.List.{list_any};
ghost use Rattle.sva_search.specs.Rules.{IsStep};
ghost use Rattle.sva_open.specs.Host as host;
ghost use Rattle.sva_open.specs.Units as unit;

use crate::loose::{bars_all, takes_any};
use crate::pumping::{drop_out, free_itag, may_pass, takes};
use std::alloc::AllocError;
use sva_open::{
    Descriptor, Issued, Message, Part, Sent, Settings, Timeouts, Work, before, drop_at,
};

/// An invalidation runs out of time, where its endpoint doesn't answer it and the unit has taken all that it can.
pub(crate) fn expire(
    part: &mut Part,
    settings: &Settings,
    itag: usize,
    silent: bool,
) -> Result<bool, AllocError>
    ensures { IfOk result (λ done. IsStep (unit.expire settings.now part.old itag silent) done part.old part.new) }
{
    if !may_expire(part, settings, itag, silent) {
        return Ok(false);
    }
    run_out(part, settings, itag)?;
    Ok(true)
}

/// A unit that has stopped at a time-out goes on, and one whose page request queue has overflowed writes into it again.
pub(crate) fn resume(part: &mut Part) -> bool
    ensures { IsStep (Some (host.resume part.old)) result part.old part.new }
{
    part.is_stalled = false;
    part.has_overflowed = false;
    true
}

fn may_expire(part: &Part, settings: &Settings, itag: usize, silent: bool) -> bool
    ensures { result ≡ unit.may_expire settings.now part.now itag silent }
{
    (is_timed(settings.timeouts) && takes(part))
        && (takes_none(part, settings)
            && (is_sent_to(part.issued.as_slice(), part.endpoint, itag)
                && is_unanswered(part, itag, silent)))
}

/// Whether an invalidation of the endpoint's translations is out under an ITag.
fn is_sent_to(issued: &[Issued], endpoint: usize, itag: usize) -> bool
    ensures { result ≡ list_any (unit.is_sent_to endpoint itag) issued.now }
{
    issued.iter().any(|one| one.is_sent_to(endpoint, itag))
}

fn is_timed(timeouts: Timeouts) -> bool
    ensures { result ≡ unit.is_timed timeouts }
{
    !matches!(timeouts, Timeouts::Off)
}

fn stalls(timeouts: Timeouts) -> bool
    ensures { result ≡ unit.stalls timeouts }
{
    matches!(timeouts, Timeouts::Stop)
}

/// Whether the unit can take nothing from its queue now.
fn takes_none(part: &Part, settings: &Settings) -> bool
    ensures { result ≡ unit.takes_none settings.now part.now }
{
    if settings.is_loose {
        return !takes_any(part, settings);
    }
    head_stays(part, settings)
}

fn head_stays(part: &Part, settings: &Settings) -> bool
    ensures { result ≡ is_none (unit.pump settings.now part.now) }
{
    if !(!settings.is_loose && takes(part)) {
        return true;
    }
    match part.queue.get(0).copied() {
        None => true,
        Some(Descriptor::Device { .. }) => free_itag(part.issued.as_slice()).is_none(),
        Some(Descriptor::Translations { .. }) => false,
        Some(Descriptor::Entry { .. }) => false,
        Some(Descriptor::Wait { drain, fence, .. }) => !may_pass(part, settings, drain, fence),
        Some(Descriptor::Out { .. }) => true,
    }
}

/// Whether a message is the invalidation of an ITag, or its completion.
fn is_sent_of(itag: usize, one: &Sent) -> bool
    ensures { result ≡ unit.is_sent_of itag one.now }
{
    match one.message {
        Message::Invalidate { itag: own, .. } => own == itag,
        Message::Invalidated { itag: own } => own == itag,
        _ => false,
    }
}

fn is_completion_of(itag: usize, one: &Sent) -> bool
    ensures { result ≡ unit.is_completion_of itag one.now }
{
    match one.message {
        Message::Invalidated { itag: own } => own == itag,
        _ => false,
    }
}

/// Whether an endpoint has taken the invalidation of an ITag.
fn is_taken_of(itag: usize, work: &Work) -> bool
    ensures { result ≡ unit.is_taken_of itag work.now }
{
    match work {
        Work::Use(_) | Work::Draining(_) => false,
        Work::Taken { itag: own, .. } => *own == itag,
    }
}

fn is_any_sent_of(flight: &[Sent], itag: usize) -> bool
    ensures { result ≡ list_any (unit.is_sent_of itag) flight.now }
{
    flight.iter().any(|one| is_sent_of(itag, one))
}

fn is_any_completion_of(flight: &[Sent], itag: usize) -> bool
    ensures { result ≡ list_any (unit.is_completion_of itag) flight.now }
{
    flight.iter().any(|one| is_completion_of(itag, one))
}

fn is_any_taken_of(works: &[Work], itag: usize) -> bool
    ensures { result ≡ list_any (unit.is_taken_of itag) works.now }
{
    works.iter().any(|work| is_taken_of(itag, work))
}

/// Whether nobody answers an invalidation.
fn is_unanswered(part: &Part, itag: usize, silent: bool) -> bool
    ensures { result ≡ unit.is_unanswered part.now itag silent }
{
    if silent {
        return !is_any_completion_of(part.flight.as_slice(), itag);
    }
    !(is_any_sent_of(part.flight.as_slice(), itag) || is_any_taken_of(part.works.as_slice(), itag))
}

/// What becomes of the unit and its link where an invalidation has run out of time.
fn run_out(part: &mut Part, settings: &Settings, itag: usize) -> Result<(), AllocError>
    ensures { IfOk result (λ _. part.new ≡ unit.expired settings.now part.old itag) }
{
    let head = part.queue.get(0).copied();
    let is_barred = bars(part, settings, head);
    abort_waits(&mut part.aborted, part.issued.as_slice())?;
    if settings.is_loose {
        abort_fetched(&mut part.aborted, part.queue.as_slice(), settings)?;
        leave_unfetched(&mut part.queue, settings, itag)?;
    } else if is_barred {
        abort_head(&mut part.aborted, head)?;
        drop_at(&mut part.queue, 0);
    }
    drop_sent(&mut part.flight, itag);
    drop_taken(&mut part.works, itag);
    keep_sent(&mut part.issued, itag);
    part.is_stalled = stalls(settings.timeouts);
    Ok(())
}

/// Whether the head is a fence that awaits what is out.
fn bars(part: &Part, settings: &Settings, head: Option<Descriptor>) -> bool
    ensures { result ≡ unit.bars settings.now part.now head }
{
    match head {
        Some(Descriptor::Wait { fence, .. }) => {
            (settings.all_fence || fence) && !(part.issued.len() == 0)
        }
        _ => false,
    }
}

/// Notes the waits that have left the queue and aren't done.
fn abort_waits(aborted: &mut Vec<usize>, issued: &[Issued]) -> Result<(), AllocError>
    ensures { IfOk result (λ _. aborted.new.items ≡ aborted.old.items ++ unit.waits_in issued.now) }
{
    for one in issued {
        abort(aborted, one)?;
    }
    Ok(())
}

/// Notes one that is a wait.
fn abort(aborted: &mut Vec<usize>, one: &Issued) -> Result<(), AllocError>
    ensures { IfOk result (λ _. aborted.new.items ≡ aborted.old.items ++ unit.wait_in one.now) }
{
    if let Issued::Waiting { name, .. } = one {
        aborted.push(*name)?;
    }
    Ok(())
}

/// Notes the head, where it is a wait.
fn abort_head(aborted: &mut Vec<usize>, head: Option<Descriptor>) -> Result<(), AllocError>
    ensures { IfOk result (λ _. aborted.new.items ≡ aborted.old.items ++ unit.name_of head) }
{
    if let Some(Descriptor::Wait { name, .. }) = head {
        aborted.push(name)?;
    }
    Ok(())
}

/// Whether it is a fence.
fn is_fence(settings: &Settings, one: Option<Descriptor>) -> bool
    ensures { result ≡ unit.is_fence settings.now one }
{
    match one {
        Some(Descriptor::Wait { fence, .. }) => settings.all_fence || fence,
        _ => false,
    }
}

/// The place of the first descriptor that bars all behind it.
fn first_bar(queue: &[Descriptor], settings: &Settings) -> Option<usize>
    ensures { result ≡ position (unit.bars_all settings.now) queue.now }
{
    queue.iter().position(|one| bars_all(settings, one))
}

/// How many descriptors a unit has fetched that doesn't take them in order.
fn fetched(queue: &[Descriptor], settings: &Settings) -> usize
    ensures { result ≡ unit.fetched settings.now queue.now }
{
    match first_bar(queue, settings) {
        None => queue.len(),
        Some(place) => {
            if is_fence(settings, queue.get(place).copied()) {
                place + 1
            } else {
                place
            }
        }
    }
}

/// Notes the waits that a unit has fetched which doesn't take them in order.
fn abort_fetched(
    aborted: &mut Vec<usize>,
    queue: &[Descriptor],
    settings: &Settings,
) -> Result<(), AllocError>
    ensures { IfOk result (λ _. aborted.new.items
        ≡ aborted.old.items ++ unit.waits_among (unit.fetched settings.now queue.now) queue.now) }
{
    abort_all(aborted, before(queue, fetched(queue, settings)))
}

/// Notes those that are waits.
fn abort_all(aborted: &mut Vec<usize>, queue: &[Descriptor]) -> Result<(), AllocError>
    ensures { IfOk result (λ _. aborted.new.items ≡ aborted.old.items ++ unit.waits_of queue.now) }
{
    for one in queue {
        abort_head(aborted, Some(*one))?;
    }
    Ok(())
}

/// What stands from a place on.
fn behind(queue: &[Descriptor], place: usize) -> &[Descriptor]
    ensures { result.now ≡ drop place queue.now }
{
    if place <= queue.len() {
        queue.split_at(place).1
    } else {
        queue.split_at(queue.len()).1
    }
}

fn drop_waits(queue: &mut Vec<Descriptor>)
    ensures { queue.new.items ≡ filter unit.isnt_wait queue.old.items }
{
    queue.retain(|one| !one.is_any_wait());
}

/// Takes out the waits among so many.
fn drop_waits_among(queue: &mut Vec<Descriptor>, many: usize) -> Result<(), AllocError>
    ensures { IfOk result (λ _. queue.new.items ≡ unit.without_waits many queue.old.items) }
{
    let alloc = *queue.allocator();
    let rest = Vec::from_slice(alloc, behind(queue.as_slice(), many))?;
    queue.truncate(many);
    drop_waits(queue);
    queue.extend_from_slice(rest.as_slice())?;
    Ok(())
}

/// Takes out the waits that a unit has fetched which doesn't take them in order, and the place of an ITag.
fn leave_unfetched(
    queue: &mut Vec<Descriptor>,
    settings: &Settings,
    itag: usize,
) -> Result<(), AllocError>
    ensures { IfOk result (λ _. queue.new.items
        ≡ filter (unit.isnt_out_of itag)
        (unit.without_waits (unit.fetched settings.now queue.old.items) queue.old.items)) }
{
    let many = fetched(queue.as_slice(), settings);
    drop_waits_among(queue, many)?;
    drop_out(queue, itag);
    Ok(())
}

fn drop_sent(flight: &mut Vec<Sent>, itag: usize)
    ensures { flight.new.items ≡ filter (unit.isnt_sent_of itag) flight.old.items }
{
    flight.retain(|one| !is_sent_of(itag, one));
}

fn drop_taken(works: &mut Vec<Work>, itag: usize)
    ensures { works.new.items ≡ filter (unit.isnt_taken_of itag) works.old.items }
{
    works.retain(|one| !is_taken_of(itag, one));
}

/// Keeps the invalidations but that of an ITag.
fn keep_sent(issued: &mut Vec<Issued>, itag: usize)
    ensures { issued.new.items ≡ filter (unit.is_other_sent itag) issued.old.items }
{
    issued.retain(|one| one.is_sent() && !one.has_itag(itag));
}
