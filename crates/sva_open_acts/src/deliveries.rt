//! What comes of a message that is delivered.

ghost use Rattle.std.specs.Prelude.{◌≡◌, IfOk, map, slice_get};
ghost use Rattle.sva_search.specs.Rules.{IsStep};
ghost use Rattle.sva_open.specs.Devices as device;
ghost use Rattle.sva_open.specs.Units.{answered_stop};
ghost use Rattle.sva_open.specs.Links as link;

use crate::answering::{answer, put_translation};
use crate::barriers::bar;
use crate::order::{goes_up, may_deliver};
use crate::pumping::{complete_itag, drop_covered};
use crate::receiving::queue;
use std::alloc::AllocError;
use sva_open::{
    Arrived, Mapping, Message, PageRequest, Part, Received, Request, Row, Scope, Sent, Settings,
    State, Target, Translation, Work, drop_at, set_at,
};

pub(crate) fn deliver(
    part: &mut Part,
    settings: &Settings,
    mappings: &[Mapping],
    place: usize,
) -> Result<bool, AllocError>
    ensures { IfOk result (λ done.
        IsStep (link.deliver settings.now mappings.now part.old place (slice_get part.old.flight place))
        done part.old part.new) }
{
    let Some(one) = part.flight.get(place).copied() else {
        return Ok(false);
    };
    if !may_deliver(settings.link, part.flight.as_slice(), place, &one.message) {
        return Ok(false);
    }
    drop_at(&mut part.flight, place);
    take_in(part, settings, mappings, &one)?;
    Ok(true)
}

/// Whether a message is dropped, since it goes down to an endpoint that is gone.
fn is_lost(part: &Part, message: &Message) -> bool
    ensures { result ≡ link.is_lost part.now message.now }
{
    part.is_gone && !goes_up(message)
}

fn take_in(
    part: &mut Part,
    settings: &Settings,
    mappings: &[Mapping],
    one: &Sent,
) -> Result<(), AllocError>
    ensures { IfOk result (λ _. part.new ≡ link.taken_in settings.now mappings.now part.old one.now) }
{
    if is_lost(part, &one.message) {
        return Ok(());
    }
    receive(part, settings, mappings, one)
}

fn receive(
    part: &mut Part,
    settings: &Settings,
    mappings: &[Mapping],
    one: &Sent,
) -> Result<(), AllocError>
    ensures { IfOk result (λ _.
        part.new ≡ link.received settings.now mappings.now part.old one.now one.now.message) }
{
    match one.message {
        Message::Start { pasid } => {
            tell(part, pasid, State::On, one.owner);
            Ok(())
        }
        Message::Stop { pasid } => {
            tell_to_stop(part, pasid, one.owner);
            Ok(())
        }
        Message::Reset => take_reset(part, settings),
        Message::Completion { tag, target, .. } => complete(part, tag, target),
        Message::Invalidate { itag, scope } => invalidate(part, itag, scope),
        Message::Response { index, fails, .. } => {
            end_group(part, index, fails);
            Ok(())
        }
        Message::Request { tag, pasid, page } => {
            if part.is_open {
                answer(part, settings, mappings, one, tag, pasid, page)
            } else {
                Ok(())
            }
        }
        Message::Invalidated { itag } => {
            if part.is_open {
                complete_itag(part, itag)
            } else {
                Ok(())
            }
        }
        Message::PageRequest(request) => arrive(part, settings, one, request),
        Message::Marker { pasid } => {
            if part.is_open {
                answer_stop(part, pasid, one.owner);
            }
            Ok(())
        }
        Message::Status { pasid } => {
            answer_stop(part, pasid, one.owner);
            Ok(())
        }
        Message::ResetDone => Ok(()),
        Message::Barrier(barrier) => bar(part, barrier),
        Message::Passed(_) => Ok(()),
    }
}

fn tell(part: &mut Part, pasid: usize, state: State, owner: u64)
    ensures { part.new ≡ link.told part.old pasid state owner (slice_get part.old.rows pasid) }
{
    let Some(row) = part.row(pasid) else {
        return;
    };
    part.set_row(
        pasid,
        Row {
            state,
            user: owner,
            ..row
        },
    );
}

fn tell_to_stop(part: &mut Part, pasid: usize, owner: u64)
    ensures { part.new ≡ link.told_to_stop part.old pasid owner (slice_get part.old.rows pasid) }
{
    let Some(row) = part.row(pasid) else {
        return;
    };
    tell(part, pasid, row.state.stopped(), owner);
}

fn answer_stop(part: &mut Part, pasid: usize, owner: u64)
    ensures { part.new ≡ answered_stop part.old pasid owner (slice_get part.old.rows pasid) }
{
    let Some(row) = part.row(pasid) else {
        return;
    };
    part.set_row(
        pasid,
        Row {
            answer: Some(owner),
            ..row
        },
    );
}

/// A page request comes to the unit.
fn arrive(
    part: &mut Part,
    settings: &Settings,
    one: &Sent,
    request: PageRequest,
) -> Result<(), AllocError>
    ensures { IfOk result (λ _.
        part.new ≡ link.if_open part.old (link.arrive settings.now part.old one.now request)) }
{
    if !part.is_open {
        return Ok(());
    }
    let arrived = Arrived {
        endpoint: part.endpoint,
        request,
        owner: one.owner,
        number: one.number,
    };
    if settings.drain_empties {
        return queue(part, settings, arrived);
    }
    part.received.push(Received::Request(arrived))?;
    Ok(())
}

fn complete(part: &mut Part, tag: usize, target: Option<Target>) -> Result<(), AllocError>
    ensures { IfOk result (λ _.
        part.new ≡ device.complete part.old tag target (slice_get part.old.requests tag)) }
{
    let request = match part.requests.get(tag).copied() {
        None => return Ok(()),
        Some(None) => return Ok(()),
        Some(Some(request)) => request,
    };
    set_at(&mut part.requests, tag, None);
    hold(&mut part.held, &request, target)
}

fn invalidate(part: &mut Part, itag: usize, scope: Scope) -> Result<(), AllocError>
    ensures { IfOk result (λ _. part.new ≡ device.invalidated part.old itag scope) }
{
    if !part.has_ats {
        return Ok(());
    }
    drop_covered(&mut part.held, &scope);
    doom(part.requests.as_mut_slice(), &scope);
    part.works.push(Work::Taken { itag, scope })?;
    Ok(())
}

fn end_group(part: &mut Part, index: usize, fails: bool)
    ensures { part.new ≡ device.end_group part.old index fails }
{
    set_at(&mut part.groups, index, None);
    part.is_enabled = part.is_enabled && !fails;
}

fn take_reset(part: &mut Part, settings: &Settings) -> Result<(), AllocError>
    ensures { IfOk result (λ _. part.new ≡ device.reset_taken settings.now part.old) }
{
    let Some(time) = part.time.checked_add(1) else {
        return Err(AllocError);
    };
    switch_off(part.rows.as_mut_slice());
    part.requests.clear();
    part.held.clear();
    part.works.clear();
    part.groups.clear();
    part.is_enabled = true;
    part.has_ats = !settings.clears_controls;
    part.has_requests = !settings.clears_controls;
    part.is_master = !settings.clears_controls;
    part.time = time;
    part.send(0, time, Message::ResetDone)
}

/// Holds what a completion has brought, unless its request is doomed.
fn hold(
    held: &mut Vec<Translation>,
    request: &Request,
    target: Option<Target>,
) -> Result<(), AllocError>
    ensures { IfOk result (λ _. held.new.items ≡ device.held_after held.old.items request.now target) }
{
    let Some(target) = target else {
        return Ok(());
    };
    if request.is_doomed {
        return Ok(());
    }
    put_translation(
        held,
        Translation {
            pasid: request.pasid,
            page: request.page,
            owner: request.owner,
            target,
        },
    )
}

fn doomed(request: Option<Request>, scope: &Scope) -> Option<Request>
    ensures { result ≡ device.doomed scope.now request }
{
    match request {
        None => None,
        Some(request) => Some(request.doomed_by(scope)),
    }
}

/// Dooms the requests that an invalidation covers.
fn doom(requests: &mut [Option<Request>], scope: &Scope)
    ensures { requests.new ≡ map (device.doomed scope.now) requests.old }
{
    for request in requests.iter_mut() {
        *request = doomed(*request, scope);
    }
}

fn switched_off(row: Row) -> Row
    ensures { result ≡ device.switched_off row }
{
    Row {
        state: State::Off,
        ..row
    }
}

/// Turns each PASID off.
pub(crate) fn switch_off(rows: &mut [Row])
    ensures { rows.new ≡ map device.switched_off rows.old }
{
    for row in rows.iter_mut() {
        *row = switched_off(*row);
    }
}
