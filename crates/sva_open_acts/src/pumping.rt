//! What a unit does by itself.

ghost use Rattle.std.specs.Prelude.{◌≡◌, IfOk, None, Some, filter, position, slice_get};
ghost use Rattle.std.specs.List.{list_any};
ghost use Rattle.sva_step.specs.Limits;
ghost use Rattle.sva_search.specs.Rules.{IsStep};
ghost use Rattle.sva_open.specs.World.{without_covered};
ghost use Rattle.sva_open.specs.Units as unit;
ghost use Rattle.sva_open.specs.declared.descriptors.Descriptor.TheVariants.{Wait};

use crate::receiving::wait;
use std::alloc::AllocError;
use sva_open::{
    Descriptor, Issued, KeptEntry, Message, Part, Scope, Settings, Translation, drop_at,
};
use sva_step::ITAGS;

/// Whether a unit takes anything from its queue.
pub(crate) fn takes(part: &Part) -> bool
    ensures { result ≡ unit.takes part.now }
{
    part.is_open && !part.is_stalled
}

pub(crate) fn pump(part: &mut Part, settings: &Settings) -> Result<bool, AllocError>
    ensures { IfOk result (λ done. IsStep (unit.pump settings.now part.old) done part.old part.new) }
{
    if !(!settings.is_loose && takes(part)) {
        return Ok(false);
    }
    let head = part.queue.get(0).copied();
    pump_head(part, settings, head)
}

fn pump_head(
    part: &mut Part,
    settings: &Settings,
    head: Option<Descriptor>,
) -> Result<bool, AllocError>
    ensures { IfOk result (λ done. IsStep (unit.pump_head settings.now part.old head) done part.old part.new) }
{
    match head {
        None => Ok(false),
        Some(Descriptor::Device { scope, .. }) => issue(part, scope),
        Some(Descriptor::Translations { scope, .. }) => {
            drop_at(&mut part.queue, 0);
            drop_covered(&mut part.kept, &scope);
            Ok(true)
        }
        Some(Descriptor::Entry { pasid, .. }) => {
            drop_at(&mut part.queue, 0);
            drop_entry(&mut part.kept_entries, pasid);
            Ok(true)
        }
        Some(Descriptor::Wait { name, drain, fence }) => pass(part, settings, name, drain, fence),
        Some(Descriptor::Out { .. }) => Ok(false),
    }
}

fn issue(part: &mut Part, scope: Scope) -> Result<bool, AllocError>
    ensures { IfOk result (λ done.
        IsStep (unit.issue part.old scope (unit.free_itag part.old.issued Limits.itags 0)) done part.old part.new) }
{
    let Some(itag) = free_itag(part.issued.as_slice()) else {
        return Ok(false);
    };
    let time = part.time;
    drop_at(&mut part.queue, 0);
    let endpoint = part.endpoint;
    part.issued.push(Issued::Sent { endpoint, itag })?;
    part.send(0, time, Message::Invalidate { itag, scope })?;
    Ok(true)
}

fn pass(
    part: &mut Part,
    settings: &Settings,
    name: usize,
    drain: bool,
    fence: bool,
) -> Result<bool, AllocError>
    ensures { IfOk result (λ done.
        IsStep (unit.pump_head settings.now part.old (Some (Wait name drain fence))) done part.old part.new) }
{
    if !may_pass(part, settings, drain, fence) {
        return Ok(false);
    }
    leave(part, name, drain)?;
    Ok(true)
}

/// A wait leaves the queue: it is done, or stands behind what it covers.
fn leave(part: &mut Part, name: usize, drain: bool) -> Result<(), AllocError>
    ensures { IfOk result (λ _. part.new ≡ unit.pass part.old name drain) }
{
    let is_out = is_out_before(part.issued.as_slice(), part.issued.len());
    drop_at(&mut part.queue, 0);
    if is_out {
        part.issued.push(Issued::Waiting { name, drain })?;
        return Ok(());
    }
    wait(part, name, drain)
}

/// Whether an invalidation is out that stands directly before a place.
fn is_out_before(issued: &[Issued], place: usize) -> bool
    ensures { result ≡ unit.is_out_before issued.now place }
{
    if place == 0 {
        return false;
    }
    match issued.get(place - 1) {
        None => false,
        Some(one) => one.is_sent(),
    }
}

pub(crate) fn may_pass(part: &Part, settings: &Settings, drain: bool, fence: bool) -> bool
    ensures { result ≡ unit.may_pass settings.now part.now drain fence }
{
    !(settings.refuses_drain && drain)
        && ((!(settings.all_fence || fence) || part.issued.len() == 0)
            && (!(settings.drain_empties && drain) || part.arrived.len() == 0))
}

pub(crate) fn forget_entry(part: &mut Part, place: usize) -> bool
    ensures { IsStep (unit.forget_entry part.old place (slice_get part.old.kept_entries place)) result part.old part.new }
{
    let Some(_kept) = part.kept_entries.get(place).copied() else {
        return false;
    };
    drop_at(&mut part.kept_entries, place);
    true
}

pub(crate) fn forget(part: &mut Part, place: usize) -> bool
    ensures { IsStep (unit.forget part.old place (slice_get part.old.kept place)) result part.old part.new }
{
    let Some(_kept) = part.kept.get(place).copied() else {
        return false;
    };
    drop_at(&mut part.kept, place);
    true
}

/// Frees an ITag.
pub(crate) fn complete_itag(part: &mut Part, itag: usize) -> Result<(), AllocError>
    ensures { IfOk result (λ _. part.new ≡ unit.complete_itag part.old itag) }
{
    drop_out(&mut part.queue, itag);
    match itag_place(part.issued.as_slice(), itag) {
        None => Ok(()),
        Some(place) => complete_at(part, place),
    }
}

fn complete_at(part: &mut Part, place: usize) -> Result<(), AllocError>
    ensures { IfOk result (λ _. part.new ≡ unit.completed_at part.old (Some place)) }
{
    let is_out = is_out_before(part.issued.as_slice(), place);
    drop_at(&mut part.issued, place);
    let next = part.issued.get(place).copied();
    settle(part, place, is_out, next)
}

/// Takes out the wait that stands at a place, if nothing that it covers is out.
fn settle(
    part: &mut Part,
    place: usize,
    is_out: bool,
    next: Option<Issued>,
) -> Result<(), AllocError>
    ensures { IfOk result (λ _. part.new ≡ unit.settled part.old place is_out next) }
{
    if is_out {
        return Ok(());
    }
    match next {
        Some(Issued::Waiting { name, drain }) => {
            drop_at(&mut part.issued, place);
            wait(part, name, drain)
        }
        Some(Issued::Sent { .. }) => Ok(()),
        None => Ok(()),
    }
}

/// Takes out the place of an invalidation that was sent out of order.
pub(crate) fn drop_out(queue: &mut Vec<Descriptor>, itag: usize)
    ensures { queue.new.items ≡ filter (unit.isnt_out_of itag) queue.old.items }
{
    queue.retain(|one| one.isnt_out_of(itag));
}

/// The place of the invalidation that has an ITag.
fn itag_place(issued: &[Issued], itag: usize) -> Option<usize>
    ensures { result ≡ position (unit.has_itag itag) issued.now }
{
    issued.iter().position(|one| one.has_itag(itag))
}

fn is_busy(issued: &[Issued], itag: usize) -> bool
    ensures { result ≡ list_any (unit.has_itag itag) issued.now }
{
    issued.iter().any(|one| one.has_itag(itag))
}

/// The lowest free ITag.
pub(crate) fn free_itag(issued: &[Issued]) -> Option<usize>
    ensures { result ≡ unit.free_itag issued.now Limits.itags 0 }
{
    for itag in 0..ITAGS {
        if !is_busy(issued, itag) {
            return Some(itag);
        }
    }
    None
}

/// Takes out what an invalidation covers.
pub(crate) fn drop_covered(list: &mut Vec<Translation>, scope: &Scope)
    ensures { list.new.items ≡ without_covered scope.now list.old.items }
{
    list.retain(|one| !scope.covers(one.pasid, one.page));
}

/// Takes out the entry of a PASID.
pub(crate) fn drop_entry(list: &mut Vec<KeptEntry>, pasid: usize)
    ensures { list.new.items ≡ unit.without_entry pasid list.old.items }
{
    list.retain(|one| one.pasid != pasid);
}
