//! Steps that would be accepted now. Each answer is that of the definitions: no cause refuses the step.

ghost use Rattle.std.specs.Prelude.{◌≡◌, ◌<◌, None, Some, false, is_none, is_some, map, nat_le, slice_index_or, true};
ghost use Rattle.std.specs.List.{list_any};
ghost use Rattle.sva_labels.specs.Causes.{is_busy_pasid, sends_invalidate};
ghost use Rattle.sva_labels.specs.Finding.{has_unfinished_group, is_request_of, is_use_of, lowest_label};
ghost use Rattle.sva_labels.specs.Finding.{outstanding, pasid_state, requests_in};
ghost use Rattle.sva_labels.specs.Replying.{responds};
ghost use Rattle.sva_model.specs.State.PasidState.{Off};
ghost use Rattle.sva_parts_by_labels.specs.Device.{group_seen, pasid_seen, slot_seen, tag_seen};
ghost use Rattle.sva_snapshot.specs.Shown.{device_shown, job_shown, unit_shown};
ghost use Rattle.sva_step.specs.declared.steps.Step.TheVariants as step;
ghost use Rattle.sva_step.specs.declared.steps.Verdict.TheVariants as verdict;
ghost use Rattle.sva_explain.specs.Accepted.{is_accepted};

use crate::enabled::lookups::{
    binding_of, flight_of, has_open_group_at, has_room_at, held_by, is_bound, is_done_at, is_full,
    is_open, is_space, lacks_one, part_at,
};
use sva_snapshot::{
    Binding, Descriptor, Device, Endpoint, GroupPlace, Job, Kind, PasidState, RequestTag, Snapshot,
    Stage, Unit, UseSlot, held_back_by,
};
use sva_step::{PAGE_REQUESTS, PAGES};

/// Would a delivery be accepted?
pub fn can_deliver(snapshot: &Snapshot, number: u64) -> bool
    ensures { result ≡ is_accepted snapshot.now (step.Deliver number) }
{
    let Some(flight) = flight_of(snapshot, number) else {
        return false;
    };
    if held_back_by(&flight, snapshot.in_flight.as_slice()).is_some() {
        return false;
    }
    match flight.message.kind {
        Kind::Reset => !lacks_one(snapshot.next_message),
        Kind::Request { .. } => {
            !is_open(snapshot, flight.message.endpoint) || !lacks_one(snapshot.next_message)
        }
        _ => true,
    }
}

/// Would a turn of the invalidation queue send a message?
fn sends_invalidate(unit: &Unit) -> bool
    ensures { result ≡ sends_invalidate (unit_shown unit.now) }
{
    match unit.queue.as_slice().first() {
        Some(Descriptor::Range { .. }) | Some(Descriptor::Pasid { .. }) => !is_full(unit),
        Some(Descriptor::Wait { .. }) | None => false,
    }
}

/// Would a turn of the invalidation queue be accepted?
pub fn can_pump(snapshot: &Snapshot, endpoint: u64) -> bool
    ensures { result ≡ is_accepted snapshot.now (step.Pump endpoint) }
{
    match part_at(snapshot, endpoint) {
        None => false,
        Some(part) => {
            part.unit.is_open && !(sends_invalidate(&part.unit) && lacks_one(snapshot.next_message))
        }
    }
}

/// Would the filing of a page request be accepted?
pub fn can_serve(snapshot: &Snapshot, endpoint: u64) -> bool
    ensures { result ≡ is_accepted snapshot.now (step.Serve endpoint) }
{
    match part_at(snapshot, endpoint) {
        None => false,
        Some(part) => part.unit.is_open,
    }
}

/// Would a reset be accepted?
pub fn can_reset(snapshot: &Snapshot, endpoint: u64) -> bool
    ensures { result ≡ is_accepted snapshot.now (step.Reset endpoint) }
{
    match part_at(snapshot, endpoint) {
        None => false,
        Some(part) => part.unit.is_open && !lacks_one(snapshot.next_message),
    }
}

/// Would it be accepted that the worker takes a job?
pub fn can_take(snapshot: &Snapshot, worker: u64) -> bool
    ensures { result ≡ is_accepted snapshot.now (step.Take worker) }
{
    (worker as usize) < snapshot.hands.len()
        && held_by(snapshot, worker).is_none()
        && !snapshot.jobs.is_empty()
}

/// Is a response sent to the job, whatever the verdict?
fn responds(snapshot: &Snapshot, job: &Job) -> bool
    ensures { result ≡ responds snapshot.now (job_shown job.now) }
{
    match binding_of(snapshot, job.binding) {
        None => false,
        Some(binding) => {
            is_open(snapshot, job.endpoint)
                && matches!(
                    binding.stage,
                    Stage::Live | Stage::Stopping { .. } | Stage::Draining { .. }
                )
        }
    }
}

/// Would the verdict Invalid be accepted of the worker?
pub fn can_answer_invalid(snapshot: &Snapshot, worker: u64) -> bool
    ensures { result ≡ is_accepted snapshot.now (step.Reply worker verdict.Invalid) }
{
    match held_by(snapshot, worker) {
        None => false,
        Some(job) => !(responds(snapshot, job) && lacks_one(snapshot.next_message)),
    }
}

/// Has some use the slot, of these?
fn has_use_at(slots: &[UseSlot], slot: u64) -> bool
    ensures { result ≡ is_some (slice_index_or (map slot_seen slots.now) slot None) }
{
    match slots.get(slot as usize) {
        None => false,
        Some(place) => !matches!(place, UseSlot::Free),
    }
}

/// Would the end of a use be accepted?
pub fn can_end(snapshot: &Snapshot, endpoint: u64, slot: u64) -> bool
    ensures { result ≡ is_accepted snapshot.now (step.EndUse endpoint slot) }
{
    match part_at(snapshot, endpoint) {
        None => false,
        Some(part) => has_use_at(part.device.slots.as_slice(), slot),
    }
}

/// The state at a place of these; off past their end.
fn state_at(states: &[PasidState], place: u64) -> PasidState
    ensures { pasid_seen result ≡ slice_index_or (map pasid_seen states.now) place Off }
{
    match states.get(place as usize) {
        None => PasidState::Off,
        Some(state) => *state,
    }
}

/// The state of a PASID; one outside 1 to 32 is off.
pub fn pasid_state(device: &Device, pasid: u64) -> PasidState
    ensures { pasid_seen result ≡ pasid_state (device_shown device.now) pasid }
{
    if pasid == 0 {
        return PasidState::Off;
    }
    state_at(device.pasids.as_slice(), pasid - 1)
}

/// Is the group unfinished, and of the PASID?
pub fn is_unfinished(place: &GroupPlace, pasid: u64) -> bool
    ensures { result ≡ has_unfinished_group pasid (group_seen place.now) }
{
    match place {
        GroupPlace::Collecting { pasid: of, .. } => u64::from(*of) == pasid,
        GroupPlace::Free | GroupPlace::Out { .. } | GroupPlace::Stale { .. } => false,
    }
}

/// Is a request of the PASID out under the tag?
pub fn is_request_of(place: &RequestTag, pasid: u64) -> bool
    ensures { result ≡ is_request_of pasid (tag_seen place.now) }
{
    match place {
        RequestTag::Free => false,
        RequestTag::Out { pasid: of, .. } | RequestTag::Doomed { pasid: of, .. } => {
            u64::from(*of) == pasid
        }
    }
}

/// Does a use of the PASID run in the slot?
pub fn is_use_of(place: &UseSlot, pasid: u64) -> bool
    ensures { result ≡ is_use_of pasid (slot_seen place.now) }
{
    match place {
        UseSlot::Running(used) => u64::from(used.pasid) == pasid,
        UseSlot::Free | UseSlot::Dead => false,
    }
}

/// Has the PASID an unfinished group?
fn has_group(groups: &[GroupPlace], pasid: u64) -> bool
    ensures { result ≡ list_any (has_unfinished_group pasid) (map group_seen groups.now) }
{
    for place in groups {
        if is_unfinished(place, pasid) {
            return true;
        }
    }
    false
}

/// Has the PASID a request that is out?
fn has_request(tags: &[RequestTag], pasid: u64) -> bool
    ensures { result ≡ list_any (is_request_of pasid) (map tag_seen tags.now) }
{
    for place in tags {
        if is_request_of(place, pasid) {
            return true;
        }
    }
    false
}

/// Has the PASID a use that runs?
fn has_use(slots: &[UseSlot], pasid: u64) -> bool
    ensures { result ≡ list_any (is_use_of pasid) (map slot_seen slots.now) }
{
    for place in slots {
        if is_use_of(place, pasid) {
            return true;
        }
    }
    false
}

/// Has the PASID a group, a request or a use?
fn is_busy_pasid(device: &Device, pasid: u64) -> bool
    ensures { result ≡ is_busy_pasid (device_shown device.now) pasid }
{
    has_group(device.groups.as_slice(), pasid)
        || has_request(device.tags.as_slice(), pasid)
        || has_use(device.slots.as_slice(), pasid)
}

/// Is each tag taken, of these?
fn are_all_out(tags: &[RequestTag]) -> bool
    ensures { result ≡ is_none (lowest_label (map tag_seen tags.now)) }
{
    for place in tags {
        if matches!(place, RequestTag::Free) {
            return false;
        }
    }
    true
}

/// Would a translation request be accepted?
pub fn can_ask(snapshot: &Snapshot, endpoint: u64, pasid: u64, page: u64) -> bool
    ensures { result ≡ is_accepted snapshot.now (step.Ask endpoint pasid page) }
{
    match part_at(snapshot, endpoint) {
        None => false,
        Some(part) => {
            page < PAGES
                && matches!(pasid_state(&part.device, pasid), PasidState::On)
                && !are_all_out(part.device.tags.as_slice())
                && !lacks_one(snapshot.next_message)
        }
    }
}

/// Would it be accepted that a space goes?
pub fn can_drop(snapshot: &Snapshot, space: u64) -> bool
    ensures { result ≡ is_accepted snapshot.now (step.DropSpace space) }
{
    is_space(snapshot, space) && !is_bound(snapshot, space)
}

/// Would a quit be accepted?
pub fn can_quit(snapshot: &Snapshot, endpoint: u64, pasid: u64) -> bool
    ensures { result ≡ is_accepted snapshot.now (step.Quit endpoint pasid) }
{
    match part_at(snapshot, endpoint) {
        None => false,
        Some(part) => {
            matches!(pasid_state(&part.device, pasid), PasidState::Stopping)
                && !is_busy_pasid(&part.device, pasid)
                && !lacks_one(snapshot.next_message)
        }
    }
}

/// How many requests were sent of the group.
fn requests_in(place: &GroupPlace) -> u128
    ensures count { result ≡ requests_in (group_seen place.now) }
    ensures few { result < 256 }
{
    match place {
        GroupPlace::Free => 0,
        GroupPlace::Collecting { requests, .. }
        | GroupPlace::Out { requests, .. }
        | GroupPlace::Stale { requests, .. } => u128::from(*requests),
    }
}

/// Are 32 page requests outstanding or more, so that none is left?
pub fn has_no_credit(groups: &[GroupPlace]) -> bool
    ensures { result ≡ nat_le 32 (outstanding (map group_seen groups.now)) }
{
    let mut sent: u128 = 0;
    for place in groups {
        sent += requests_in(place);
    }
    sent >= PAGE_REQUESTS as u128
}

/// Would the last request of a group be accepted, of whatever page?
pub fn can_finish_group(snapshot: &Snapshot, endpoint: u64, pasid: u64, index: u64) -> bool
    ensures { result ≡ is_accepted snapshot.now (step.Fault endpoint pasid 0 true false (Some index) true) }
{
    let Some(part) = part_at(snapshot, endpoint) else {
        return false;
    };
    !matches!(pasid_state(&part.device, pasid), PasidState::Off)
        && !has_no_credit(part.device.groups.as_slice())
        && has_group_at(part.device.groups.as_slice(), pasid, index)
        && part.device.is_enabled
        && !lacks_one(snapshot.next_message)
}

/// Is the group of the index unfinished, and of the PASID?
fn has_group_at(groups: &[GroupPlace], pasid: u64, index: u64) -> bool
    ensures { result ≡ has_unfinished_group pasid (slice_index_or (map group_seen groups.now) index None) }
{
    match groups.get(index as usize) {
        None => false,
        Some(place) => is_unfinished(place, pasid),
    }
}

/// Would an unbinding be accepted?
pub fn can_unbind(snapshot: &Snapshot, number: u64) -> bool
    ensures { result ≡ is_accepted snapshot.now (step.Unbind number) }
{
    let Some(binding) = binding_of(snapshot, number) else {
        return false;
    };
    match binding.stage {
        Stage::Lost => true,
        Stage::Live => is_open(snapshot, binding.endpoint) && !lacks_one(snapshot.next_message),
        Stage::Stopping { .. }
        | Stage::Draining { .. }
        | Stage::Invalidating { .. }
        | Stage::Quiet => false,
    }
}

/// Would an advance be accepted?
pub fn can_advance(snapshot: &Snapshot, number: u64) -> bool
    ensures { result ≡ is_accepted snapshot.now (step.Advance number) }
{
    let Some(binding) = binding_of(snapshot, number) else {
        return false;
    };
    let endpoint = binding.endpoint;
    match binding.stage {
        Stage::Quiet => true,
        Stage::Live | Stage::Lost => false,
        Stage::Stopping { marked } => {
            is_open(snapshot, endpoint)
                && marked
                && has_room_at(snapshot, endpoint, 1)
                && !lacks_one(snapshot.next_cookie)
        }
        Stage::Draining { cookie } => {
            is_open(snapshot, endpoint)
                && is_done_at(snapshot, endpoint, cookie)
                && !has_open_group_at(snapshot, endpoint, binding.binding)
                && has_room_at(snapshot, endpoint, 2)
                && !lacks_one(snapshot.next_cookie)
        }
        Stage::Invalidating { cookie } => {
            is_open(snapshot, endpoint) && is_done_at(snapshot, endpoint, cookie)
        }
    }
}
