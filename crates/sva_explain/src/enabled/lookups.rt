//! What numbers and labels find in a snapshot.

ghost use Rattle.std.specs.Prelude.{◌≡◌, ◌==◌, ◌&&◌, None, is_none, is_some, map, option_copied, option_map, slice_get};
ghost use Rattle.std.specs.Prelude.{slice_index_or, unwrap_or};
ghost use Rattle.std.specs.List.{find, list_any};
ghost use Rattle.sva_address_spaces.specs.Seen.{page_seen, pages_seen};
ghost use Rattle.sva_labels.specs.Causes.{lacks};
ghost use Rattle.sva_labels.specs.Finding.{binding_of, bound_at, flight_of, has_open_group, has_room, held_by};
ghost use Rattle.sva_labels.specs.Finding.{is_bound, is_mapped, is_space};
ghost use Rattle.sva_labels.specs.Finding.{idle, or_no_pages, pages_of};
ghost use Rattle.sva_labels.specs.Finding.{is_some_busy, is_wait_done, lowest_label, page_at, pages_in, part_of};
ghost use Rattle.sva_labels.specs.Finding.{submits, unit_of};
ghost use Rattle.sva_labels.specs.Replying.{is_read_only_at, pages_of_job};
ghost use Rattle.sva_snapshot.specs.Shown.{binding_shown, endpoint_shown, flight_shown, job_shown, space_shown};
ghost use Rattle.sva_snapshot.specs.Shown.{unit_shown};

use sva_snapshot::{Binding, Endpoint, Flight, Job, Mapping, Snapshot, Space, Stage, Unit};
use sva_step::{NUMBERS, QUEUE_PLACES};

/// Are fewer numbers left than are needed, this being the next?
pub fn lacks_one(next: u64) -> bool
    ensures { result ≡ lacks next 1 }
{
    next >= NUMBERS
}

/// The endpoint of a number among these, with its unit.
fn part_among(endpoints: &[Endpoint], endpoint: u64) -> Option<&Endpoint>
    ensures { option_map endpoint_shown (option_copied result) ≡ slice_get (map endpoint_shown endpoints.now) endpoint }
{
    endpoints.get(endpoint as usize)
}

/// The endpoint of a number, with its unit.
pub fn part_at(snapshot: &Snapshot, endpoint: u64) -> Option<&Endpoint>
    ensures found { option_map endpoint_shown (option_copied result) ≡ slice_get snapshot.now.parts endpoint }
    ensures part { unwrap_or (option_map endpoint_shown (option_copied result)) idle ≡ part_of snapshot.now endpoint }
{
    part_among(snapshot.endpoints.as_slice(), endpoint)
}

/// Is the unit of an endpoint open?
pub fn is_open(snapshot: &Snapshot, endpoint: u64) -> bool
    ensures { result ≡ (unit_of snapshot.now endpoint).is_open }
{
    match part_at(snapshot, endpoint) {
        None => true,
        Some(part) => part.unit.is_open,
    }
}

/// Do so many descriptors fit into the queue?
pub fn has_room(unit: &Unit, needed: u64) -> bool
    ensures { result ≡ has_room (unit_shown unit.now) needed }
{
    unit.queue.len() <= QUEUE_PLACES && needed <= (QUEUE_PLACES - unit.queue.len()) as u64
}

/// Do so many descriptors fit into the queue of an endpoint's unit?
pub fn has_room_at(snapshot: &Snapshot, endpoint: u64, needed: u64) -> bool
    ensures { result ≡ has_room (unit_of snapshot.now endpoint) needed }
{
    match part_at(snapshot, endpoint) {
        None => needed <= QUEUE_PLACES as u64,
        Some(part) => has_room(&part.unit, needed),
    }
}

/// Is the wait done at the unit of an endpoint?
pub fn is_done_at(snapshot: &Snapshot, endpoint: u64, cookie: u64) -> bool
    ensures { result ≡ is_wait_done (unit_of snapshot.now endpoint) cookie }
{
    match part_at(snapshot, endpoint) {
        None => false,
        Some(part) => cookie < part.unit.front,
    }
}

/// Has the binding an open group at an endpoint?
pub fn has_open_group_at(snapshot: &Snapshot, endpoint: u64, binding: u64) -> bool
    ensures { result ≡ has_open_group (part_of snapshot.now endpoint) binding }
{
    match part_at(snapshot, endpoint) {
        None => false,
        Some(part) => has_open_group(part, binding),
    }
}

/// Has the binding an open group there?
fn has_open_group(part: &Endpoint, binding: u64) -> bool
    ensures { result ≡ has_open_group (endpoint_shown part.now) binding }
{
    for group in part.host_groups.as_slice() {
        if group.binding == binding {
            return true;
        }
    }
    false
}

/// Is an ITag busy?
pub fn is_some_busy(unit: &Unit) -> bool
    ensures { result ≡ is_some_busy (unit_shown unit.now) }
{
    for place in unit.busy.as_slice() {
        if place.is_some() {
            return true;
        }
    }
    false
}

/// Is no ITag free?
pub fn is_full(unit: &Unit) -> bool
    ensures { result ≡ is_none (lowest_label (unit_shown unit.now).busy) }
{
    for place in unit.busy.as_slice() {
        if place.is_none() {
            return false;
        }
    }
    true
}

/// The message of a number among these.
fn flight_among(flights: &[Flight], number: u64) -> Option<Flight>
    ensures { option_map flight_shown result ≡ find (λ flight. flight.number == number) (map flight_shown flights.now) }
{
    for flight in flights {
        if flight.number == number {
            return Some(*flight);
        }
    }
    None
}

/// The message of a number, if it is in flight.
pub fn flight_of(snapshot: &Snapshot, number: u64) -> Option<Flight>
    ensures { option_map flight_shown result ≡ flight_of snapshot.now number }
{
    flight_among(snapshot.in_flight.as_slice(), number)
}

/// The binding of a number among these.
fn binding_among(bindings: &[Binding], number: u64) -> Option<Binding>
    ensures { option_map binding_shown result
        ≡ find (λ binding. binding.binding == number) (map binding_shown bindings.now) }
{
    for binding in bindings {
        if binding.binding == number {
            return Some(*binding);
        }
    }
    None
}

/// The binding of a number, if it isn't released.
pub fn binding_of(snapshot: &Snapshot, number: u64) -> Option<Binding>
    ensures { option_map binding_shown result ≡ binding_of snapshot.now number }
{
    binding_among(snapshot.bindings.as_slice(), number)
}

/// The binding of a space at an endpoint among these.
fn bound_among(bindings: &[Binding], endpoint: u64, space: u64) -> Option<Binding>
    ensures { option_map binding_shown result
        ≡ find (λ binding. binding.endpoint == endpoint && binding.space == space) (map binding_shown bindings.now) }
{
    for binding in bindings {
        if binding.endpoint == endpoint && binding.space == space {
            return Some(*binding);
        }
    }
    None
}

/// The binding of a space at an endpoint, if there is one.
pub fn bound_at(snapshot: &Snapshot, endpoint: u64, space: u64) -> Option<Binding>
    ensures { option_map binding_shown result ≡ bound_at snapshot.now endpoint space }
{
    bound_among(snapshot.bindings.as_slice(), endpoint, space)
}

/// Does the unit of an endpoint get descriptors where pages of the space are taken out?
pub fn submits(snapshot: &Snapshot, space: u64, endpoint: u64) -> bool
    ensures { result ≡ submits snapshot.now space endpoint }
{
    let Some(binding) = bound_at(snapshot, endpoint, space) else {
        return false;
    };
    is_open(snapshot, endpoint)
        && matches!(
            binding.stage,
            Stage::Live | Stage::Stopping { .. } | Stage::Draining { .. }
        )
}

/// The mapped pages of the space of a number among these; none where there is no such space.
fn pages_among(spaces: &[Space], number: u64) -> &[Mapping]
    ensures { pages_seen result.now ≡ or_no_pages (pages_of (map space_shown spaces.now) number) }
{
    for space in spaces {
        if space.number == number {
            return space.pages.as_slice();
        }
    }
    &[]
}

/// The mapped pages of the space of a number, in rising order; none where there is no such space.
pub fn pages_in(snapshot: &Snapshot, number: u64) -> &[Mapping]
    ensures { pages_seen result.now ≡ pages_in snapshot.now number }
{
    pages_among(snapshot.spaces.as_slice(), number)
}

/// Is there a space of a number among these?
fn is_space_among(spaces: &[Space], number: u64) -> bool
    ensures { result ≡ is_some (pages_of (map space_shown spaces.now) number) }
{
    for space in spaces {
        if space.number == number {
            return true;
        }
    }
    false
}

/// Is it the number of a live space?
pub(crate) fn is_space(snapshot: &Snapshot, number: u64) -> bool
    ensures { result ≡ is_space snapshot.now number }
{
    is_space_among(snapshot.spaces.as_slice(), number)
}

/// Is a binding of a space among these?
fn is_bound_among(bindings: &[Binding], space: u64) -> bool
    ensures { result ≡ list_any (λ binding. binding.space == space) (map binding_shown bindings.now) }
{
    for binding in bindings {
        if binding.space == space {
            return true;
        }
    }
    false
}

/// Is a space bound, at any endpoint?
pub(crate) fn is_bound(snapshot: &Snapshot, space: u64) -> bool
    ensures { result ≡ is_bound snapshot.now space }
{
    is_bound_among(snapshot.bindings.as_slice(), space)
}

/// The mapped pages of the space for which a job asks.
pub fn pages_of_job<'a>(snapshot: &'a Snapshot, job: &Job) -> &'a [Mapping]
    ensures { pages_seen result.now ≡ pages_of_job snapshot.now (job_shown job.now) }
{
    match binding_of(snapshot, job.binding) {
        None => pages_in(snapshot, 0),
        Some(binding) => pages_in(snapshot, binding.space),
    }
}

/// What stands at a page among these.
fn mapping_among(pages: &[Mapping], page: u64) -> Option<Mapping>
    ensures { option_map page_seen result ≡ page_at (pages_seen pages.now) page }
{
    for mapping in pages {
        if mapping.page == page {
            return Some(*mapping);
        }
    }
    None
}

/// What stands at a page of the space of a number.
pub fn mapping_at(snapshot: &Snapshot, space: u64, page: u64) -> Option<Mapping>
    ensures { option_map page_seen result ≡ page_at (pages_in snapshot.now space) page }
{
    mapping_among(pages_in(snapshot, space), page)
}

/// Is the page mapped among these?
pub fn is_mapped(pages: &[Mapping], page: u64) -> bool
    ensures { result ≡ is_mapped (pages_seen pages.now) page }
{
    for mapping in pages {
        if mapping.page == page {
            return true;
        }
    }
    false
}

/// Is the page mapped read-only among these?
pub fn is_read_only_at(pages: &[Mapping], page: u64) -> bool
    ensures { result ≡ is_read_only_at (page_at (pages_seen pages.now) page) }
{
    for mapping in pages {
        if mapping.page == page {
            return !mapping.write;
        }
    }
    false
}

/// The job in a worker's hand.
pub fn held_by(snapshot: &Snapshot, worker: u64) -> Option<&Job>
    ensures { option_map job_shown (option_copied result) ≡ held_by snapshot.now worker }
{
    held_among(snapshot.hands.as_slice(), worker)
}

/// The job in the hand of a worker, of these hands.
fn held_among(hands: &[Option<Job>], worker: u64) -> Option<&Job>
    ensures { option_map job_shown (option_copied result)
        ≡ slice_index_or (map (option_map job_shown) hands.now) worker None }
{
    match hands.get(worker as usize) {
        None => None,
        Some(hand) => hand.as_ref(),
    }
}
