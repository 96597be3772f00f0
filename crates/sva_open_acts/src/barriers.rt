//! A barrier: how it is sent, comes, is passed, and is awaited.

ghost use Rattle.std.specs.Prelude.{◌≡◌, IfOk, Some, map, slice_get, suc, take};
ghost use Rattle.std.specs.List.{list_any};
ghost use Rattle.sva_search.specs.Rules.{IsStep};
ghost use Rattle.sva_open.specs.Devices as device;
ghost use Rattle.sva_open.specs.Host as host;
ghost use Rattle.sva_open.specs.declared.works.Work.TheVariants.{Draining};

use crate::finishing::{is_unended, is_using};
use std::alloc::AllocError;
use sva_open::{Barrier, Group, Message, Part, Request, Sent, Stopped, Work, before, drop_at};

// ---- The host

pub(crate) fn send_barrier(part: &mut Part, barrier: Barrier) -> Result<bool, AllocError>
    ensures { IfOk result (λ done. IsStep (Some (host.barrier part.old barrier)) done part.old part.new) }
{
    let time = part.time;
    part.send(0, time, Message::Barrier(barrier))?;
    Ok(true)
}

/// Whether a thread awaits it: its own, or one that was sent before all threads.
fn is_for(pasid: usize, thread: usize, barrier: &Barrier) -> bool
    ensures { result ≡ host.is_for pasid thread barrier.now }
{
    barrier.pasid == pasid && (barrier.thread == thread || barrier.thread == 0)
}

fn is_of_barrier(pasid: usize, thread: usize, one: &Sent) -> bool
    ensures { result ≡ host.is_of_barrier pasid thread one.now }
{
    match &one.message {
        Message::Barrier(barrier) => is_for(pasid, thread, barrier),
        Message::Passed(barrier) => is_for(pasid, thread, barrier),
        Message::Start { .. }
        | Message::Stop { .. }
        | Message::Reset
        | Message::Completion { .. }
        | Message::Invalidate { .. }
        | Message::Response { .. }
        | Message::Request { .. }
        | Message::Invalidated { .. }
        | Message::PageRequest(_)
        | Message::Marker { .. }
        | Message::Status { .. }
        | Message::ResetDone => false,
    }
}

fn drains(pasid: usize, thread: usize, work: &Work) -> bool
    ensures { result ≡ host.drains pasid thread work.now }
{
    match work {
        Work::Draining(barrier) => is_for(pasid, thread, barrier),
        Work::Use(_) | Work::Taken { .. } => false,
    }
}

fn is_any_flying(flight: &[Sent], pasid: usize, thread: usize) -> bool
    ensures { result ≡ list_any (host.is_of_barrier pasid thread) flight.now }
{
    flight.iter().any(|one| is_of_barrier(pasid, thread, one))
}

fn is_any_draining(works: &[Work], pasid: usize, thread: usize) -> bool
    ensures { result ≡ list_any (host.drains pasid thread) works.now }
{
    works.iter().any(|work| drains(pasid, thread, work))
}

pub(crate) fn await_passed(part: &Part, pasid: usize, thread: usize) -> bool
    ensures { IsStep (host.await_passed part.now pasid thread) result part.now part.now }
{
    !(is_any_flying(part.flight.as_slice(), pasid, thread)
        || is_any_draining(part.works.as_slice(), pasid, thread))
}

// ---- What comes to the endpoint

/// Notes it at what is under way of its PASID, and has it awaited behind all that the endpoint is at.
pub(crate) fn bar(part: &mut Part, barrier: Barrier) -> Result<(), AllocError>
    ensures { IfOk result (λ _. part.new ≡ device.barred part.old barrier) }
{
    note_asked(part.requests.as_mut_slice(), &barrier);
    note_begun(part.groups.as_mut_slice(), &barrier);
    part.works.push(Work::Draining(barrier))?;
    Ok(())
}

fn asked_noted(request: Option<Request>, barrier: &Barrier) -> Option<Request>
    ensures { result ≡ device.asked_noted barrier.now request }
{
    match request {
        None => None,
        Some(request) => Some(request.noted_by(barrier)),
    }
}

fn note_asked(requests: &mut [Option<Request>], barrier: &Barrier)
    ensures { requests.new ≡ map (device.asked_noted barrier.now) requests.old }
{
    for request in requests.iter_mut() {
        *request = asked_noted(*request, barrier);
    }
}

fn begun_noted(group: Option<Group>, barrier: &Barrier) -> Option<Group>
    ensures { result ≡ device.begun_noted barrier.now group }
{
    match group {
        None => None,
        Some(group) => Some(group.noted_by(barrier)),
    }
}

fn note_begun(groups: &mut [Option<Group>], barrier: &Barrier)
    ensures { groups.new ≡ map (device.begun_noted barrier.now) groups.old }
{
    for group in groups.iter_mut() {
        *group = begun_noted(*group, barrier);
    }
}

// ---- It is passed

pub(crate) fn pass(part: &mut Part, stopped: Stopped, place: usize) -> Result<bool, AllocError>
    ensures { IfOk result (λ done.
        IsStep (device.pass stopped part.old place (slice_get part.old.works place)) done part.old part.new) }
{
    match part.works.get(place).copied() {
        Some(Work::Draining(barrier)) => pass_barrier(part, stopped, place, barrier),
        Some(Work::Use(_)) => Ok(false),
        Some(Work::Taken { .. }) => Ok(false),
        None => Ok(false),
    }
}

fn pass_barrier(
    part: &mut Part,
    stopped: Stopped,
    place: usize,
    barrier: Barrier,
) -> Result<bool, AllocError>
    ensures { IfOk result (λ done.
        IsStep (device.pass stopped part.old place (Some (Draining barrier))) done part.old part.new) }
{
    if is_held_up(part, place, &barrier) {
        return Ok(false);
    }
    drop_at(&mut part.works, place);
    say_passed(part, stopped, barrier)?;
    Ok(true)
}

fn say_passed(part: &mut Part, stopped: Stopped, barrier: Barrier) -> Result<(), AllocError>
    ensures { IfOk result (λ _. part.new ≡ device.passed stopped part.old barrier) }
{
    let time = part.time;
    match stopped {
        Stopped::Marker => part.send(0, time, Message::Passed(barrier)),
        Stopped::Status => part.send(0, time, Message::Passed(barrier)),
        Stopped::Known => Ok(()),
    }
}

fn is_held_up(part: &Part, place: usize, barrier: &Barrier) -> bool
    ensures { result ≡ device.is_held_up part.now place barrier.now }
{
    let with_it = to_here(part.works.as_slice(), place);
    is_using(before(part.works.as_slice(), place), barrier.pasid)
        || (has_asked_before(part.requests.as_slice(), with_it, barrier.pasid)
            || has_begun_before(part.groups.as_slice(), with_it, part.awaits, barrier.pasid))
}

/// What stands up to a place, and there.
fn to_here(works: &[Work], place: usize) -> &[Work]
    ensures { result.now ≡ take (suc place) works.now }
{
    if place < works.len() {
        before(works, place + 1)
    } else {
        works
    }
}

fn is_barrier(name: usize, work: &Work) -> bool
    ensures { result ≡ device.is_barrier name work.now }
{
    match work {
        Work::Draining(barrier) => barrier.name == name,
        Work::Use(_) | Work::Taken { .. } => false,
    }
}

fn has_barrier(works: &[Work], name: usize) -> bool
    ensures { result ≡ list_any (device.is_barrier name) works.now }
{
    works.iter().any(|work| is_barrier(name, work))
}

/// Whether what has noted this is older than the last of these barriers.
fn is_older(works: &[Work], noted: Option<usize>) -> bool
    ensures { result ≡ device.is_older works.now noted }
{
    match noted {
        None => false,
        Some(name) => has_barrier(works, name),
    }
}

fn is_asked_before(request: &Option<Request>, works: &[Work], pasid: usize) -> bool
    ensures { result ≡ device.is_asked_before works.now pasid request.now }
{
    match request {
        None => false,
        Some(request) => request.pasid == pasid && is_older(works, request.noted),
    }
}

fn has_asked_before(requests: &[Option<Request>], works: &[Work], pasid: usize) -> bool
    ensures { result ≡ list_any (device.is_asked_before works.now pasid) requests.now }
{
    requests
        .iter()
        .any(|request| is_asked_before(request, works, pasid))
}

fn is_begun_before(group: &Option<Group>, works: &[Work], awaits: bool, pasid: usize) -> bool
    ensures { result ≡ device.is_begun_before works.now awaits pasid group.now }
{
    match group {
        None => false,
        Some(its) => is_unended(group, awaits, pasid) && is_older(works, its.noted),
    }
}

fn has_begun_before(groups: &[Option<Group>], works: &[Work], awaits: bool, pasid: usize) -> bool
    ensures { result ≡ list_any (device.is_begun_before works.now awaits pasid) groups.now }
{
    groups
        .iter()
        .any(|group| is_begun_before(group, works, awaits, pasid))
}
