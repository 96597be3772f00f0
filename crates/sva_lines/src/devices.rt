//! The endpoints.

ghost use Rattle.std.specs.Prelude.{◌≡◌, ◌++◌, OnOk, false, flat_map, map, not, option_map};
ghost use Rattle.std.specs.List.{list_any};
ghost use Rattle.sva_lines.specs.Devices.{cached_line, device_lines, disabled_lines, endpoint_lines};
ghost use Rattle.sva_lines.specs.Devices.{group_line, group_lines, noted_text};
ghost use Rattle.sva_lines.specs.Devices.{pasid_lines, slot_texts, tag_lines, taken_lines};
ghost use Rattle.sva_lines.specs.Devices.{use_lines};
ghost use Rattle.sva_lines.specs.Pieces.{listed, rows};
ghost use Rattle.sva_parts_by_labels.specs.Device.{group_seen, pasid_seen, slot_seen, tag_seen, taken_seen};
ghost use Rattle.sva_snapshot.specs.Shown.{cached_shown, device_shown, endpoint_shown};

use crate::pieces::{end_line, put_extent, put_field, put_head, put_if, put_word};
use crate::words::put_translation;
use std::alloc::AllocError;
use sva_snapshot::{Cached, Device, Endpoint, GroupPlace, PasidState, RequestTag, Taken, UseSlot};

/// Appends the line of a PASID that isn't off.
fn put_pasid(
    out: &mut Vec<u8>,
    endpoint: u64,
    pasid: u64,
    state: PasidState,
) -> Result<(), AllocError>
    ensures { OnOk result (out.new.items ≡ out.old.items ++ pasid_lines endpoint pasid (pasid_seen state)) }
{
    let word = match state {
        PasidState::Off => return Ok(()),
        PasidState::On => " on",
        PasidState::Stopping => " stopping",
    };
    put_head(out, "endpoint ", endpoint)?;
    put_field(out, " pasid ", pasid)?;
    put_word(out, word)?;
    end_line(out)
}

/// Appends the lines of the PASIDs; the first is PASID 1.
fn put_pasids(out: &mut Vec<u8>, endpoint: u64, states: &[PasidState]) -> Result<(), AllocError>
    ensures { OnOk result (out.new.items ≡ out.old.items
        ++ rows (pasid_lines endpoint) 1 (map pasid_seen states.now)) }
{
    for (place, state) in states.iter().enumerate() {
        put_pasid(out, endpoint, place as u64 + 1, *state)?;
    }
    Ok(())
}

/// Appends the line of a cached translation.
fn put_cached(out: &mut Vec<u8>, endpoint: u64, cached: &Cached) -> Result<(), AllocError>
    ensures { OnOk result (out.new.items ≡ out.old.items ++ cached_line endpoint (cached_shown cached.now)) }
{
    put_head(out, "endpoint ", endpoint)?;
    put_word(out, " cached")?;
    put_translation(out, cached.pasid, cached.page, cached.frame, cached.write)?;
    end_line(out)
}

/// Appends the lines of the cached translations.
fn put_cache(out: &mut Vec<u8>, endpoint: u64, cache: &[Cached]) -> Result<(), AllocError>
    ensures { OnOk result (out.new.items ≡ out.old.items
        ++ flat_map (cached_line endpoint) (map cached_shown cache.now)) }
{
    for cached in cache {
        put_cached(out, endpoint, cached)?;
    }
    Ok(())
}

/// Appends the line of a tag whose translation request is out.
fn put_tag(out: &mut Vec<u8>, endpoint: u64, tag: u64, place: &RequestTag) -> Result<(), AllocError>
    ensures { OnOk result (out.new.items ≡ out.old.items ++ tag_lines endpoint tag (tag_seen place.now)) }
{
    let (pasid, page, is_doomed) = match place {
        RequestTag::Free => return Ok(()),
        RequestTag::Out { pasid, page } => (*pasid, *page, false),
        RequestTag::Doomed { pasid, page } => (*pasid, *page, true),
    };
    put_head(out, "endpoint ", endpoint)?;
    put_field(out, " tag ", tag)?;
    put_field(out, " pasid ", u64::from(pasid))?;
    put_field(out, " page ", page)?;
    put_if(out, is_doomed, " doomed")?;
    end_line(out)
}

/// Appends the lines of the translation requests that are out.
fn put_tags(out: &mut Vec<u8>, endpoint: u64, tags: &[RequestTag]) -> Result<(), AllocError>
    ensures { OnOk result (out.new.items ≡ out.old.items ++ rows (tag_lines endpoint) 0 (map tag_seen tags.now)) }
{
    for (tag, place) in tags.iter().enumerate() {
        put_tag(out, endpoint, tag as u64, place)?;
    }
    Ok(())
}

/// Appends the line of a use.
fn put_use(out: &mut Vec<u8>, endpoint: u64, slot: u64, place: &UseSlot) -> Result<(), AllocError>
    ensures { OnOk result (out.new.items ≡ out.old.items ++ use_lines endpoint slot (slot_seen place.now)) }
{
    match place {
        UseSlot::Free => Ok(()),
        UseSlot::Running(used) => {
            put_head(out, "endpoint ", endpoint)?;
            put_field(out, " use ", slot)?;
            put_translation(
                out,
                u64::from(used.pasid),
                used.page,
                used.frame,
                used.write,
            )?;
            end_line(out)
        }
        UseSlot::Dead => {
            put_head(out, "endpoint ", endpoint)?;
            put_field(out, " use ", slot)?;
            put_word(out, " dead")?;
            end_line(out)
        }
    }
}

/// Appends the lines of the uses.
fn put_uses(out: &mut Vec<u8>, endpoint: u64, slots: &[UseSlot]) -> Result<(), AllocError>
    ensures { OnOk result (out.new.items ≡ out.old.items ++ rows (use_lines endpoint) 0 (map slot_seen slots.now)) }
{
    for (slot, place) in slots.iter().enumerate() {
        put_use(out, endpoint, slot as u64, place)?;
    }
    Ok(())
}

/// Appends the slots that are noted, with commas between them.
fn put_slots(out: &mut Vec<u8>, slots: &[bool]) -> Result<(), AllocError>
    ensures { OnOk result (out.new.items ≡ out.old.items ++ listed false (slot_texts 0 slots.now)) }
{
    let mut is_begun = false;
    for (slot, noted) in slots.iter().enumerate() {
        if *noted {
            put_field(out, if is_begun { "," } else { "" }, slot as u64)?;
            is_begun = true;
        }
    }
    Ok(())
}

/// Is a slot noted?
fn is_some_noted(slots: &[bool]) -> bool
    ensures { result ≡ list_any (λ noted. noted) slots.now }
{
    slots.iter().any(|noted| *noted)
}

/// Appends the uses for which an invalidation waits, if it waits for one.
fn put_noted(out: &mut Vec<u8>, slots: &[bool]) -> Result<(), AllocError>
    ensures { OnOk result (out.new.items ≡ out.old.items ++ noted_text slots.now) }
{
    if is_some_noted(slots) {
        put_word(out, " uses {")?;
        put_slots(out, slots)?;
        put_word(out, "}")
    } else {
        Ok(())
    }
}

/// Appends the line of an ITag whose invalidation the endpoint has taken.
fn put_itag(
    out: &mut Vec<u8>,
    endpoint: u64,
    itag: u64,
    place: &Option<Taken>,
) -> Result<(), AllocError>
    ensures { OnOk result (out.new.items ≡ out.old.items
        ++ taken_lines endpoint itag (option_map taken_seen place.now)) }
{
    let Some(taken) = place else {
        return Ok(());
    };
    put_head(out, "endpoint ", endpoint)?;
    put_field(out, " itag ", itag)?;
    put_field(out, " pasid ", u64::from(taken.invalidation.pasid))?;
    put_extent(out, taken.invalidation.extent)?;
    put_noted(out, &taken.noted)?;
    end_line(out)
}

/// Appends the lines of the invalidations that the endpoint has taken.
fn put_itags(out: &mut Vec<u8>, endpoint: u64, taken: &[Option<Taken>]) -> Result<(), AllocError>
    ensures { OnOk result (out.new.items ≡ out.old.items
        ++ rows (taken_lines endpoint) 0 (map (option_map taken_seen) taken.now)) }
{
    for (itag, place) in taken.iter().enumerate() {
        put_itag(out, endpoint, itag as u64, place)?;
    }
    Ok(())
}

/// Appends the line of a group of page requests, by the word for its state.
fn put_group_line(
    out: &mut Vec<u8>,
    endpoint: u64,
    index: u64,
    pasid: u32,
    word: &str,
    requests: u8,
) -> Result<(), AllocError>
    ensures { OnOk result (out.new.items ≡ out.old.items ++ group_line endpoint index pasid word.now requests) }
{
    put_head(out, "endpoint ", endpoint)?;
    put_field(out, " group ", index)?;
    put_field(out, " pasid ", u64::from(pasid))?;
    put_field(out, word, u64::from(requests))?;
    end_line(out)
}

/// Appends the line of a group of page requests.
fn put_group(
    out: &mut Vec<u8>,
    endpoint: u64,
    index: u64,
    place: &GroupPlace,
) -> Result<(), AllocError>
    ensures { OnOk result (out.new.items ≡ out.old.items ++ group_lines endpoint index (group_seen place.now)) }
{
    match place {
        GroupPlace::Free => Ok(()),
        GroupPlace::Collecting { pasid, requests } => {
            put_group_line(out, endpoint, index, *pasid, " collecting ", *requests)
        }
        GroupPlace::Out { pasid, requests } => {
            put_group_line(out, endpoint, index, *pasid, " awaiting ", *requests)
        }
        GroupPlace::Stale { pasid, requests } => {
            put_group_line(out, endpoint, index, *pasid, " stale ", *requests)
        }
    }
}

/// Appends the lines of the groups of page requests.
fn put_groups(out: &mut Vec<u8>, endpoint: u64, groups: &[GroupPlace]) -> Result<(), AllocError>
    ensures { OnOk result (out.new.items ≡ out.old.items
        ++ rows (group_lines endpoint) 0 (map group_seen groups.now)) }
{
    for (index, place) in groups.iter().enumerate() {
        put_group(out, endpoint, index as u64, place)?;
    }
    Ok(())
}

/// Appends the line that says that no page requests may be sent.
fn put_disabled(out: &mut Vec<u8>, endpoint: u64, is_enabled: bool) -> Result<(), AllocError>
    ensures { OnOk result (out.new.items ≡ out.old.items ++ disabled_lines endpoint (not is_enabled)) }
{
    if is_enabled {
        return Ok(());
    }
    put_head(out, "endpoint ", endpoint)?;
    put_word(out, " page requests disabled")?;
    end_line(out)
}

/// Appends the lines of an endpoint.
fn put_device(out: &mut Vec<u8>, endpoint: u64, device: &Device) -> Result<(), AllocError>
    ensures { OnOk result (out.new.items ≡ out.old.items ++ device_lines endpoint (device_shown device.now)) }
{
    put_pasids(out, endpoint, device.pasids.as_slice())?;
    put_cache(out, endpoint, device.cache.as_slice())?;
    put_tags(out, endpoint, device.tags.as_slice())?;
    put_uses(out, endpoint, device.slots.as_slice())?;
    put_itags(out, endpoint, device.taken.as_slice())?;
    put_groups(out, endpoint, device.groups.as_slice())?;
    put_disabled(out, endpoint, device.is_enabled)
}

/// Appends the lines of the endpoints.
pub(crate) fn put_endpoints(out: &mut Vec<u8>, endpoints: &[Endpoint]) -> Result<(), AllocError>
    ensures { OnOk result (out.new.items ≡ out.old.items ++ rows endpoint_lines 0 (map endpoint_shown endpoints.now)) }
{
    for (number, endpoint) in endpoints.iter().enumerate() {
        put_device(out, number as u64, &endpoint.device)?;
    }
    Ok(())
}
