//! What an endpoint ends: invalidations, and the use of a PASID.

ghost use Rattle.std.specs.Prelude.{◌≡◌, IfOk, Some, slice_get};
ghost use Rattle.std.specs.List.{list_any};
ghost use Rattle.sva_search.specs.Rules.{IsStep};
ghost use Rattle.sva_open.specs.Devices as device;
ghost use Rattle.sva_open.specs.declared.works.Work.TheVariants.{Taken};

use std::alloc::AllocError;
use sva_open::{Group, Message, Part, Request, Row, Scope, State, Stopped, Work, before, drop_at};

pub(crate) fn finish(part: &mut Part, place: usize) -> Result<bool, AllocError>
    ensures { IfOk result (λ done.
        IsStep (device.finish part.old place (slice_get part.old.works place)) done part.old part.new) }
{
    match part.works.get(place).copied() {
        Some(Work::Taken { itag, scope }) => finish_taken(part, place, itag, &scope),
        Some(Work::Use(_)) => Ok(false),
        Some(Work::Draining(_)) => Ok(false),
        None => Ok(false),
    }
}

fn finish_taken(
    part: &mut Part,
    place: usize,
    itag: usize,
    scope: &Scope,
) -> Result<bool, AllocError>
    ensures { IfOk result (λ done.
        IsStep (device.finish part.old place (Some (Taken itag scope.now))) done part.old part.new) }
{
    if !(part.lies || !is_used(before(part.works.as_slice(), place), scope)) {
        return Ok(false);
    }
    let time = part.time;
    drop_at(&mut part.works, place);
    part.send(0, time, Message::Invalidated { itag })?;
    Ok(true)
}

pub(crate) fn quit(part: &mut Part, stopped: Stopped, pasid: usize) -> Result<bool, AllocError>
    ensures { IfOk result (λ done.
        IsStep (device.quit stopped part.old pasid (slice_get part.old.rows pasid)) done part.old part.new) }
{
    let Some(row) = part.row(pasid) else {
        return Ok(false);
    };
    if !(row.state.is_stopping() && !is_busy(part, pasid)) {
        return Ok(false);
    }
    say_stopped(part, stopped, pasid, row)?;
    Ok(true)
}

fn is_busy(part: &Part, pasid: usize) -> bool
    ensures { result ≡ device.is_busy part.now pasid }
{
    has_unended(part.groups.as_slice(), part.awaits, pasid)
        || has_asked(part.requests.as_slice(), pasid)
        || is_using(part.works.as_slice(), pasid)
}

fn say_stopped(part: &mut Part, stopped: Stopped, pasid: usize, row: Row) -> Result<(), AllocError>
    ensures { IfOk result (λ _. part.new ≡ device.said stopped part.old pasid row) }
{
    let time = part.time;
    let off = Row {
        state: State::Off,
        ..row
    };
    match stopped {
        Stopped::Marker => {
            part.set_row(pasid, off);
            part.send(row.user, time, Message::Marker { pasid })
        }
        Stopped::Status => {
            part.set_row(pasid, off);
            part.send(row.user, time, Message::Status { pasid })
        }
        Stopped::Known => {
            part.set_row(
                pasid,
                Row {
                    answer: Some(row.user),
                    ..off
                },
            );
            Ok(())
        }
    }
}

/// Whether one of these is a use of what is covered.
fn is_used(works: &[Work], scope: &Scope) -> bool
    ensures { result ≡ list_any (device.is_use_of scope.now) works.now }
{
    works.iter().any(|one| one.is_use_of(scope))
}

pub(crate) fn is_unended(group: &Option<Group>, awaits: bool, pasid: usize) -> bool
    ensures { result ≡ device.is_unended awaits pasid group.now }
{
    match group {
        None => false,
        Some(group) => group.is_unended(awaits, pasid),
    }
}

fn has_unended(groups: &[Option<Group>], awaits: bool, pasid: usize) -> bool
    ensures { result ≡ list_any (device.is_unended awaits pasid) groups.now }
{
    groups.iter().any(|group| is_unended(group, awaits, pasid))
}

fn asks_under(request: &Option<Request>, pasid: usize) -> bool
    ensures { result ≡ device.asks_under pasid request.now }
{
    match request {
        None => false,
        Some(request) => request.pasid == pasid,
    }
}

fn has_asked(requests: &[Option<Request>], pasid: usize) -> bool
    ensures { result ≡ list_any (device.asks_under pasid) requests.now }
{
    requests.iter().any(|request| asks_under(request, pasid))
}

pub(crate) fn is_using(works: &[Work], pasid: usize) -> bool
    ensures { result ≡ list_any (device.is_use_under pasid) works.now }
{
    works.iter().any(|one| one.is_use_under(pasid))
}
