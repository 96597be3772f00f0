//! What a unit takes from its queue out of order.

ghost use Rattle.std.specs.Prelude.{◌≡◌, ◌&&◌, IfOk, is_some, length};
ghost use Rattle.std.specs.List.{list_any};
ghost use Rattle.sva_step.specs.Limits;
ghost use Rattle.sva_search.specs.Rules.{IsStep};
ghost use Rattle.sva_open.specs.Units as unit;
ghost use Rattle.sva_open.specs.declared.descriptors.Descriptor.TheVariants.{Wait};

use crate::pumping::{drop_covered, drop_entry, free_itag, may_pass, takes};
use crate::receiving::wait;
use std::alloc::AllocError;
use sva_open::{Descriptor, Issued, Message, Part, Scope, Settings, before, drop_at, set_at};

/// Whether a unit takes descriptors now, and not in the order of the queue.
fn takes_loose(part: &Part, settings: &Settings) -> bool
    ensures { result ≡ settings.now.is_loose && unit.takes part.now }
{
    settings.is_loose && takes(part)
}

/// Takes the descriptor at a place, where none before it bars it.
pub(crate) fn pump_at(
    part: &mut Part,
    settings: &Settings,
    place: usize,
) -> Result<bool, AllocError>
    ensures { IfOk result (λ done. IsStep (unit.pump_at settings.now part.old place) done part.old part.new) }
{
    if !takes_loose(part, settings) {
        return Ok(false);
    }
    let one = part.queue.get(place).copied();
    pump_there(part, settings, place, one)
}

fn pump_there(
    part: &mut Part,
    settings: &Settings,
    place: usize,
    one: Option<Descriptor>,
) -> Result<bool, AllocError>
    ensures { IfOk result (λ done. IsStep (unit.pump_there settings.now part.old place one) done part.old part.new) }
{
    let Some(one) = one else {
        return Ok(false);
    };
    if is_barred(part.queue.as_slice(), settings, place, &one) {
        return Ok(false);
    }
    pump_one(part, settings, place, one)
}

fn pump_one(
    part: &mut Part,
    settings: &Settings,
    place: usize,
    one: Descriptor,
) -> Result<bool, AllocError>
    ensures { IfOk result (λ done. IsStep (unit.pump_one settings.now part.old place one) done part.old part.new) }
{
    match one {
        Descriptor::Device { scope, .. } => issue_at(part, place, scope),
        Descriptor::Translations { scope, .. } => {
            drop_at(&mut part.queue, place);
            drop_covered(&mut part.kept, &scope);
            Ok(true)
        }
        Descriptor::Entry { pasid, .. } => {
            drop_at(&mut part.queue, place);
            drop_entry(&mut part.kept_entries, pasid);
            Ok(true)
        }
        Descriptor::Wait { name, drain, fence } => pass_at(
            part, settings, place, name, drain, fence,
        ),
        Descriptor::Out { .. } => Ok(false),
    }
}

/// Sends an invalidation of the endpoint's translations, and keeps its place.
fn issue_at(part: &mut Part, place: usize, scope: Scope) -> Result<bool, AllocError>
    ensures { IfOk result (λ done.
        IsStep (unit.issue_at part.old place scope (unit.free_itag part.old.issued Limits.itags 0))
        done part.old part.new) }
{
    let Some(itag) = free_itag(part.issued.as_slice()) else {
        return Ok(false);
    };
    let time = part.time;
    let endpoint = part.endpoint;
    set_at(&mut part.queue, place, Descriptor::Out { itag });
    part.issued.push(Issued::Sent { endpoint, itag })?;
    part.send(0, time, Message::Invalidate { itag, scope })?;
    Ok(true)
}

fn pass_at(
    part: &mut Part,
    settings: &Settings,
    place: usize,
    name: usize,
    drain: bool,
    fence: bool,
) -> Result<bool, AllocError>
    ensures { IfOk result (λ done.
        IsStep (unit.pump_one settings.now part.old place (Wait name drain fence)) done part.old part.new) }
{
    if !may_pass_at(part, settings, place, drain, fence) {
        return Ok(false);
    }
    drop_at(&mut part.queue, place);
    wait(part, name, drain)?;
    Ok(true)
}

/// Whether a descriptor bars all behind it.
pub(crate) fn bars_all(settings: &Settings, one: &Descriptor) -> bool
    ensures { result ≡ unit.bars_all settings.now one.now }
{
    match one {
        Descriptor::Wait { drain, fence, .. } => {
            (settings.all_fence || *fence) || (settings.refuses_drain && *drain)
        }
        _ => false,
    }
}

/// Whether one is of a kind that waits for an earlier one of another kind.
fn bars_kind(one: &Descriptor, earlier: &Descriptor) -> bool
    ensures { result ≡ unit.bars_kind one.now earlier.now }
{
    match one {
        Descriptor::Device { .. } => matches!(earlier, Descriptor::Translations { .. }),
        Descriptor::Translations { .. } => matches!(earlier, Descriptor::Entry { .. }),
        _ => false,
    }
}

fn bars_one(settings: &Settings, one: &Descriptor, earlier: &Descriptor) -> bool
    ensures { result ≡ unit.bars_one settings.now one.now earlier.now }
{
    bars_all(settings, earlier) || bars_kind(one, earlier)
}

fn is_any_bar(queue: &[Descriptor], settings: &Settings, one: &Descriptor) -> bool
    ensures { result ≡ list_any (unit.bars_one settings.now one.now) queue.now }
{
    queue.iter().any(|earlier| bars_one(settings, one, earlier))
}

/// Whether one that stands before a place bars another there.
fn is_barred(queue: &[Descriptor], settings: &Settings, place: usize, one: &Descriptor) -> bool
    ensures { result ≡ unit.is_barred settings.now queue.now place one.now }
{
    is_any_bar(before(queue, place), settings, one)
}

fn is_wait_there(one: Option<Descriptor>) -> bool
    ensures { result ≡ unit.is_wait_there one }
{
    match one {
        None => false,
        Some(one) => one.is_any_wait(),
    }
}

/// Whether all is done that a wait at a place covers.
fn covers_none(queue: &[Descriptor], place: usize, fence: bool) -> bool
    ensures { result ≡ unit.covers_none fence queue.now place }
{
    if place == 0 {
        return true;
    }
    !fence && is_wait_there(queue.get(place - 1).copied())
}

fn may_pass_at(part: &Part, settings: &Settings, place: usize, drain: bool, fence: bool) -> bool
    ensures { result ≡ unit.may_pass_at settings.now part.now place drain fence }
{
    may_pass(part, settings, drain, fence)
        && covers_none(part.queue.as_slice(), place, settings.all_fence || fence)
}

fn may_pump_one(part: &Part, settings: &Settings, place: usize, one: &Descriptor) -> bool
    ensures { result ≡ is_some (unit.pump_one settings.now part.now place one.now) }
{
    match one {
        Descriptor::Device { .. } => free_itag(part.issued.as_slice()).is_some(),
        Descriptor::Translations { .. } => true,
        Descriptor::Entry { .. } => true,
        Descriptor::Wait { drain, fence, .. } => may_pass_at(part, settings, place, *drain, *fence),
        Descriptor::Out { .. } => false,
    }
}

fn may_pump_there(part: &Part, settings: &Settings, place: usize, one: Option<Descriptor>) -> bool
    ensures { result ≡ is_some (unit.pump_there settings.now part.now place one) }
{
    let Some(one) = one else {
        return false;
    };
    if is_barred(part.queue.as_slice(), settings, place, &one) {
        return false;
    }
    may_pump_one(part, settings, place, &one)
}

/// Whether the descriptor at a place may be taken.
fn may_pump_at(part: &Part, settings: &Settings, place: usize) -> bool
    ensures { result ≡ is_some (unit.pump_at settings.now part.now place) }
{
    if !takes_loose(part, settings) {
        return false;
    }
    may_pump_there(part, settings, place, part.queue.get(place).copied())
}

/// Whether any may be taken.
pub(crate) fn takes_any(part: &Part, settings: &Settings) -> bool
    ensures { result ≡ unit.takes_any settings.now part.now (length part.now.queue) 0 }
{
    for place in 0..part.queue.len() {
        if may_pump_at(part, settings, place) {
            return true;
        }
    }
    false
}
