//! What a unit has received: page requests, and the waits that drain them; and what it makes of one whose turn has come.

ghost use Rattle.std.specs.Prelude.{◌≡◌, IfOk, drop, position, slice_get};
ghost use Rattle.std.specs.List.{list_any};
ghost use Rattle.sva_search.specs.Rules.{IsStep};
ghost use Rattle.sva_open.specs.Units as unit;

use std::alloc::AllocError;
use sva_open::{Arrived, Message, Part, Received, Settings, drop_at, drop_first};

/// A wait whose invalidations are done is done, or stands behind the page requests that it drains.
pub(crate) fn wait(part: &mut Part, name: usize, drain: bool) -> Result<(), AllocError>
    ensures { IfOk result (λ _. part.new ≡ unit.waited part.old name drain) }
{
    if drain && has_request(part.received.as_slice()) {
        part.received.push(Received::Drain { name })?;
    }
    Ok(())
}

/// Whether there is no room in the page request queue.
fn is_full(places: Option<usize>, has_overflowed: bool, count: usize) -> bool
    ensures { result ≡ unit.is_full places has_overflowed count }
{
    match places {
        None => false,
        Some(places) => has_overflowed || places <= count,
    }
}

/// Drops a page request, and answers it where it is the last of its group.
fn drop_request(part: &mut Part, one: Arrived) -> Result<(), AllocError>
    ensures { IfOk result (λ _. part.new ≡ unit.overflowed part.old one) }
{
    part.has_overflowed = true;
    if one.request.last {
        let response = Message::Response {
            index: one.request.index,
            fails: false,
            filed: true,
        };
        part.send(0, one.number, response)?;
    }
    Ok(())
}

/// A page request comes into the page request queue, or is dropped where there is no room.
pub(crate) fn queue(part: &mut Part, settings: &Settings, one: Arrived) -> Result<(), AllocError>
    ensures { IfOk result (λ _. part.new ≡ unit.queued settings.now part.old one) }
{
    if is_full(settings.places, part.has_overflowed, part.arrived.len()) {
        return drop_request(part, one);
    }
    part.arrived.push(one)?;
    Ok(())
}

/// Writes the oldest page request into the page request queue, or drops it where there is no room.
pub(crate) fn write(part: &mut Part, settings: &Settings) -> Result<bool, AllocError>
    ensures { IfOk result (λ done.
        IsStep (unit.write settings.now part.old (slice_get part.old.received 0)) done part.old part.new) }
{
    match part.received.get(0).copied() {
        Some(Received::Request(one)) => {
            drop_at(&mut part.received, 0);
            drop_drains(&mut part.received);
            queue(part, settings, one)?;
            Ok(true)
        }
        Some(Received::Drain { .. }) => Ok(false),
        None => Ok(false),
    }
}

fn has_request(received: &[Received]) -> bool
    ensures { result ≡ list_any unit.is_received received.now }
{
    received.iter().any(|one| one.is_request())
}

fn first_request(received: &[Received]) -> Option<usize>
    ensures { result ≡ position unit.is_received received.now }
{
    received.iter().position(|one| one.is_request())
}

/// Takes out the waits that are done.
fn drop_drains(received: &mut Vec<Received>)
    ensures { received.new.items ≡ unit.without_drains received.old.items }
{
    match first_request(received.as_slice()) {
        None => received.clear(),
        Some(place) => drop_first(received, place),
    }
}
