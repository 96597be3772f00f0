//! The completion of invalidations that an endpoint has taken: would it be accepted?

ghost use Rattle.std.specs.Prelude.{◌≡◌, ◌&&◌, None, is_none, is_some, map, option_copied, option_map, slice_index_or};
ghost use Rattle.std.specs.List.{list_any};
ghost use Rattle.sva_explain.specs.Accepted.{is_accepted};
ghost use Rattle.sva_labels.specs.Finding.{taken_at, waits_for_use};
ghost use Rattle.sva_model.specs.Labels.{is_set};
ghost use Rattle.sva_model.specs.Words.{any_below};
ghost use Rattle.sva_parts_by_labels.specs.Device.{taken_seen};
ghost use Rattle.sva_snapshot.specs.Shown.{device_shown};
ghost use Rattle.sva_step.specs.declared.steps.Step.TheVariants as step;

use crate::enabled::lookups::{lacks_one, part_at};
use crate::enabled::vectors::{is_set, names_none};
use sva_snapshot::{Device, Snapshot, Taken};

/// The invalidation of an ITag among these that were taken.
fn taken_among(taken: &[Option<Taken>], itag: u64) -> Option<&Taken>
    ensures { option_map taken_seen (option_copied result)
        ≡ slice_index_or (map (option_map taken_seen) taken.now) itag None }
{
    match taken.get(itag as usize) {
        None => None,
        Some(place) => place.as_ref(),
    }
}

/// The invalidation of an ITag that an endpoint has taken.
pub fn taken_at(device: &Device, itag: u64) -> Option<&Taken>
    ensures { option_map taken_seen (option_copied result) ≡ taken_at (device_shown device.now) itag }
{
    taken_among(device.taken.as_slice(), itag)
}

/// Is a use noted among these?
fn is_some_noted(slots: &[bool]) -> bool
    ensures { result ≡ list_any (λ noted. noted) slots.now }
{
    for noted in slots {
        if *noted {
            return true;
        }
    }
    false
}

/// Does the invalidation of an ITag wait for a use? One that wasn't taken waits for none.
fn waits_for_use(device: &Device, itag: u64) -> bool
    ensures { result ≡ waits_for_use (taken_at (device_shown device.now) itag) }
{
    match taken_at(device, itag) {
        None => false,
        Some(taken) => is_some_noted(&taken.noted),
    }
}

/// Is the ITag one that the vector names, and of which none was taken?
fn is_named_untaken(device: &Device, vector: u32, itag: u64) -> bool
    ensures { result ≡ (is_set vector itag && is_none (taken_at (device_shown device.now) itag)) }
{
    is_set(vector, itag) && taken_at(device, itag).is_none()
}

/// Is it one that the vector names, and whose invalidation waits for a use?
fn is_named_waiting(device: &Device, vector: u32, itag: u64) -> bool
    ensures { result ≡ (is_set vector itag && waits_for_use (taken_at (device_shown device.now) itag)) }
{
    is_set(vector, itag) && waits_for_use(device, itag)
}

/// Does the vector name an ITag of which none was taken?
fn names_untaken(device: &Device, vector: u32) -> bool
    ensures { result
        ≡ any_below 32 (λ itag. is_set vector itag && is_none (taken_at (device_shown device.now) itag)) }
{
    for itag in 0..32 {
        if is_named_untaken(device, vector, itag) {
            return true;
        }
    }
    false
}

/// Does the vector name an ITag whose invalidation waits for a use?
fn names_waiting(device: &Device, vector: u32) -> bool
    ensures { result
        ≡ any_below 32 (λ itag. is_set vector itag && waits_for_use (taken_at (device_shown device.now) itag)) }
{
    for itag in 0..32 {
        if is_named_waiting(device, vector, itag) {
            return true;
        }
    }
    false
}

/// Would it be accepted that the endpoint finishes what the vector names, by one completion?
pub fn can_finish(snapshot: &Snapshot, endpoint: u64, vector: u32) -> bool
    ensures { result ≡ is_accepted snapshot.now (step.Finish endpoint vector 1) }
{
    match part_at(snapshot, endpoint) {
        None => false,
        Some(part) => {
            !names_none(vector)
                && !names_untaken(&part.device, vector)
                && !names_waiting(&part.device, vector)
                && !lacks_one(snapshot.next_message)
        }
    }
}
