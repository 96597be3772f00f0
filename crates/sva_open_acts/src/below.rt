//! Endpoints below one unit: at which of them something is done, and what the others see of it.

ghost use Rattle.std.specs.Prelude.{◌≡◌, ◌&&◌, IfOk, None, map, slice_get};
ghost use Rattle.std.specs.List.{list_any};
ghost use Rattle.sva_open.specs.Below as below;
ghost use Rattle.sva_open.specs.Host.{is_whole_under};

use crate::pumping::{drop_covered, drop_entry};
use std::alloc::AllocError;
use sva_open::{Arrived, Descriptor, LocalAct, Part, Received, named_or};

fn is_one(unit: Option<usize>, other: Option<usize>) -> bool
    ensures { result ≡ below.is_one unit other }
{
    match unit {
        None => false,
        Some(unit) => match other {
            None => false,
            Some(other) => unit == other,
        },
    }
}

/// Whether another endpoint stands below the unit of an endpoint.
fn is_beside(units: &[usize], endpoint: usize, other: usize) -> bool
    ensures { result ≡ below.is_beside units.now endpoint other }
{
    other != endpoint && is_one(units.get(endpoint).copied(), units.get(other).copied())
}

fn of_descriptor(endpoint: usize, head: Option<Descriptor>) -> usize
    ensures { result ≡ below.of_descriptor endpoint head }
{
    match head {
        None => endpoint,
        Some(Descriptor::Device { endpoint: own, .. }) => own,
        Some(Descriptor::Translations { endpoint: own, .. }) => named_or(endpoint, own),
        Some(Descriptor::Entry { endpoint: own, .. }) => named_or(endpoint, own),
        Some(Descriptor::Wait { .. }) => endpoint,
        Some(Descriptor::Out { .. }) => endpoint,
    }
}

fn of_arrived(endpoint: usize, oldest: Option<Arrived>) -> usize
    ensures { result ≡ below.of_arrived endpoint oldest }
{
    match oldest {
        None => endpoint,
        Some(one) => one.endpoint,
    }
}

fn of_received(endpoint: usize, oldest: Option<Received>) -> usize
    ensures { result ≡ below.of_received endpoint oldest }
{
    match oldest {
        None => endpoint,
        Some(Received::Drain { .. }) => endpoint,
        Some(Received::Request(one)) => one.endpoint,
    }
}

fn about_part(endpoint: usize, act: &LocalAct, part: &Part) -> usize
    ensures { result ≡ below.about_part endpoint (below.matter_of act.now) part.now }
{
    match act {
        LocalAct::Pump => of_descriptor(endpoint, part.queue.get(0).copied()),
        LocalAct::PumpAt { place } => of_descriptor(endpoint, part.queue.get(*place).copied()),
        LocalAct::Serve => of_arrived(endpoint, part.arrived.get(0).copied()),
        LocalAct::Write => of_received(endpoint, part.received.get(0).copied()),
        _ => endpoint,
    }
}

/// At which endpoint an act is done.
pub(crate) fn about(units: &[usize], endpoint: usize, act: &LocalAct, parts: &[Part]) -> usize
    ensures { result ≡ below.about units.now endpoint act.now (slice_get parts.now endpoint) }
{
    if units.is_empty() {
        return endpoint;
    }
    match parts.get(endpoint) {
        None => endpoint,
        Some(part) => about_part(endpoint, act, part),
    }
}

/// What an endpoint sees of its unit is what another one sees of it.
fn see(other: &mut Part, by: &Part) -> Result<(), AllocError>
    ensures { IfOk result (λ _. other.new ≡ below.seen by.now other.old) }
{
    let alloc = *other.queue.allocator();
    other.is_open = by.is_open;
    other.is_stalled = by.is_stalled;
    other.has_overflowed = by.has_overflowed;
    other.queue = Vec::from_slice(alloc, by.queue.as_slice())?;
    other.issued = Vec::from_slice(alloc, by.issued.as_slice())?;
    other.aborted = Vec::from_slice(alloc, by.aborted.as_slice())?;
    other.received = Vec::from_slice(alloc, by.received.as_slice())?;
    other.arrived = Vec::from_slice(alloc, by.arrived.as_slice())?;
    Ok(())
}

/// What the unit keeps of another endpoint is struck too.
fn strike(other: &mut Part, head: Option<Descriptor>)
    ensures { other.new ≡ below.struck head other.old }
{
    match head {
        Some(
            Descriptor::Translations {
                endpoint: None,
                scope,
            },
        ) => drop_covered(&mut other.kept, &scope),
        Some(
            Descriptor::Entry {
                endpoint: None,
                pasid,
            },
        ) => drop_entry(&mut other.kept_entries, pasid),
        _ => {}
    }
}

/// The place in the queue that an act is about.
fn place_of(act: &LocalAct) -> usize
    ensures { result ≡ below.place_of act.now }
{
    match act {
        LocalAct::PumpAt { place } => *place,
        _ => 0,
    }
}

/// What stands at the place that an act is about, of the queue that an endpoint sees.
pub(crate) fn head_of(act: &LocalAct, parts: &[Part], endpoint: usize) -> Option<Descriptor>
    ensures { result ≡ below.head_of act.now (slice_get parts.now endpoint) }
{
    match parts.get(endpoint) {
        None => None,
        Some(part) => part.queue.get(place_of(act)).copied(),
    }
}

fn taken_by(act: &LocalAct, head: Option<Descriptor>) -> Option<Descriptor>
    ensures { result ≡ below.taken_by act.now head }
{
    match act {
        LocalAct::Pump | LocalAct::PumpAt { .. } => head,
        _ => None,
    }
}

fn closes(act: &LocalAct) -> bool
    ensures { result ≡ below.closes act.now }
{
    matches!(act, LocalAct::Close)
}

/// What an act leaves of another endpoint below the unit.
fn leave_beside(
    other: &mut Part,
    act: &LocalAct,
    head: Option<Descriptor>,
    after: &Part,
) -> Result<(), AllocError>
    ensures { IfOk result (λ _. other.new ≡ below.left act.now head after.now other.old) }
{
    see(other, after)?;
    strike(other, taken_by(act, head));
    if closes(act) {
        other.filed.clear();
    }
    Ok(())
}

fn leave_at(
    other: &mut Part,
    units: &[usize],
    endpoint: usize,
    act: &LocalAct,
    head: Option<Descriptor>,
    after: &Part,
) -> Result<(), AllocError>
    ensures { IfOk result (λ _. other.new ≡ below.left_at units.now endpoint act.now head after.now other.old) }
{
    if is_beside(units, endpoint, other.endpoint) {
        return leave_beside(other, act, head, after);
    }
    Ok(())
}

/// What an act at an endpoint leaves of all.
pub(crate) fn tell(
    parts: &mut Vec<Part>,
    units: &[usize],
    endpoint: usize,
    act: &LocalAct,
    head: Option<Descriptor>,
    after: &Part,
) -> Result<(), AllocError>
    ensures { IfOk result (λ _.
        parts.new.items ≡ map (below.left_at units.now endpoint act.now head after.now) parts.old.items) }
{
    for place in 0..parts.len() {
        leave_at(&mut parts[place], units, endpoint, act, head, after)?;
    }
    Ok(())
}

fn has_whole(part: &Part) -> bool
    ensures { result ≡ list_any (is_whole_under None) part.now.filed }
{
    part.filed.iter().any(|one| one.is_whole_under(None))
}

fn awaits_all(act: &LocalAct) -> bool
    ensures { result ≡ below.awaits_all act.now }
{
    match act {
        LocalAct::AwaitGroups { pasid: None } => true,
        _ => false,
    }
}

fn holds_up(units: &[usize], endpoint: usize, other: &Part) -> bool
    ensures { result ≡ below.holds_up units.now endpoint other.now }
{
    is_beside(units, endpoint, other.endpoint) && has_whole(other)
}

fn has_any_whole(parts: &[Part], units: &[usize], endpoint: usize) -> bool
    ensures { result ≡ list_any (below.holds_up units.now endpoint) parts.now }
{
    parts.iter().any(|other| holds_up(units, endpoint, other))
}

/// Whether another endpoint below the unit holds an act up.
pub(crate) fn is_held_up(parts: &[Part], units: &[usize], endpoint: usize, act: &LocalAct) -> bool
    ensures { result ≡ below.awaits_all act.now && list_any (below.holds_up units.now endpoint) parts.now }
{
    awaits_all(act) && has_any_whole(parts, units, endpoint)
}

/// Whether an act changes what endpoints below one unit see of it.
pub(crate) fn is_of_unit(act: &LocalAct) -> bool
    ensures { result ≡ below.is_of_unit act.now }
{
    matches!(
        act,
        LocalAct::Submit { .. }
            | LocalAct::Close
            | LocalAct::Reopen
            | LocalAct::Skip
            | LocalAct::Resume
            | LocalAct::Serve
            | LocalAct::Pump
            | LocalAct::PumpAt { .. }
            | LocalAct::Expire { .. }
            | LocalAct::Write
            | LocalAct::Deliver { .. }
    )
}
