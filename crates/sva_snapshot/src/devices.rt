//! The device of an endpoint: its tables and its cache.

ghost use Rattle.std.specs.Prelude.{◌≡◌, IfOk, drop, map};
ghost use Rattle.sva_parts_by_labels.specs.Device.{cache_seen, device_seen};
ghost use Rattle.sva_snapshot.specs.Shown.{cached_shown, device_shown};

use std::alloc::{AllocError, Global};
use sva_endpoint::{Cache, GroupPlace, PasidState, RequestTag, Taken, UseSlot};

/// A cached translation.
#[derive(Clone, Copy, PartialEq, Eq)]
pub struct Cached {
    /// The PASID, 1 to 32.
    pub pasid: u64,
    /// The number of the page.
    pub page: u64,
    /// The number of the frame.
    pub frame: u32,
    /// Writing is allowed, beside reading.
    pub write: bool,
}

/// What an endpoint keeps itself.
#[derive(Drop, Clone, PartialEq, Eq)]
pub struct Device {
    /// By PASID, from 1 on: the state of PASID P is at P - 1.
    pub pasids: Vec<PasidState>,
    /// By tag.
    pub tags: Vec<RequestTag>,
    /// In rising order of PASID and page.
    pub cache: Vec<Cached>,
    /// By slot.
    pub slots: Vec<UseSlot>,
    /// By ITag.
    pub taken: Vec<Option<Taken>>,
    /// By Page Request Group Index.
    pub groups: Vec<GroupPlace>,
    /// Page requests may be sent.
    pub is_enabled: bool,
}

/// The cached translations, in rising order of PASID and page.
fn cache_of(alloc: Global, cache: &Cache) -> Result<Vec<Cached>, AllocError>
    ensures { IfOk result (λ translations. map cached_shown translations.items ≡ cache_seen cache.now) }
{
    let mut translations = Vec::new(alloc);
    for place in 0..cache.len() {
        let Some(((pasid, page), translation)) = cache.at(place) else {
            unreachable!();
        };
        translations.push(Cached {
            pasid,
            page,
            frame: translation.frame,
            write: translation.write,
        })?;
    }
    Ok(translations)
}

/// The states of the PASIDs from 1 on.
fn pasids_of(alloc: Global, states: &[PasidState]) -> Result<Vec<PasidState>, AllocError>
    ensures { IfOk result (λ pasids. pasids.items ≡ drop 1 states.now) }
{
    if states.is_empty() {
        return Ok(Vec::new(alloc));
    }
    Vec::from_slice(alloc, &states[1..])
}

/// The device of an endpoint.
pub(crate) fn device_of(
    alloc: Global,
    endpoint: &sva_endpoint::Endpoint,
) -> Result<Device, AllocError>
    ensures { IfOk result (λ device. device_shown device ≡ device_seen endpoint.now) }
{
    Ok(Device {
        pasids: pasids_of(alloc, endpoint.pasids())?,
        tags: Vec::from_slice(alloc, endpoint.tags())?,
        cache: cache_of(alloc, endpoint.cache())?,
        slots: Vec::from_slice(alloc, endpoint.uses())?,
        taken: Vec::from_slice(alloc, endpoint.taken())?,
        groups: Vec::from_slice(alloc, endpoint.groups())?,
        is_enabled: endpoint.is_enabled(),
    })
}
