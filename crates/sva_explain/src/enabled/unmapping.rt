//! A page that could be taken out of its space.

ghost use Rattle.std.specs.Prelude.{◌≡◌, ◌&&◌, ◌+◌, if◌then◌else◌, length, map, nat_lt, not};
ghost use Rattle.sva_explain.specs.Accepted.{is_accepted};
ghost use Rattle.sva_labels.specs.Causes.{lacks, queue_full, waits_needed};
ghost use Rattle.sva_labels.specs.Finding.{has_room, is_mapped, is_space, pages_in, submits, unit_of};
ghost use Rattle.sva_model.specs.Words.{any_below, count_below};
ghost use Rattle.sva_snapshot.specs.Shown.{endpoint_shown};
ghost use Rattle.sva_step.specs.Limits;
ghost use Rattle.sva_step.specs.declared.steps.Step.TheVariants as step;

use crate::enabled::lookups::{has_room_at, is_mapped, is_space, pages_in, submits};
use sva_snapshot::{Endpoint, Snapshot};
use sva_step::{NUMBERS, PAGES};

/// Does the unit of an endpoint get descriptors, where pages of the space are taken out, and lack the room for so many?
fn lacks_room(snapshot: &Snapshot, space: u64, needed: u64, endpoint: u64) -> bool
    ensures { result
        ≡ (submits snapshot.now space endpoint && not (has_room (unit_of snapshot.now endpoint) needed)) }
{
    submits(snapshot, space, endpoint) && !has_room_at(snapshot, endpoint, needed)
}

/// Does one of so many lack the room?
fn is_some_full(snapshot: &Snapshot, space: u64, needed: u64, count: u64) -> bool
    ensures { result
        ≡ any_below count (λ endpoint.
        submits snapshot.now space endpoint && not (has_room (unit_of snapshot.now endpoint) needed)) }
{
    for endpoint in 0..count {
        if lacks_room(snapshot, space, needed, endpoint) {
            return true;
        }
    }
    false
}

/// 1 where something holds, else 0.
fn one_if(holds: bool) -> u64
    ensures { result ≡ (if holds then 1 else 0) }
{
    if holds { 1 } else { 0 }
}

/// How many of so many get descriptors.
fn submitting(snapshot: &Snapshot, space: u64, count: u64) -> u64
    ensures { result ≡ count_below count (submits snapshot.now space) }
{
    let mut found = 0;
    for endpoint in 0..count {
        found += one_if(submits(snapshot, space, endpoint));
    }
    found
}

/// Are fewer numbers left than are needed, this being the next?
fn lacks(next: u64, needed: u64) -> bool
    ensures { result ≡ lacks next needed }
{
    next > NUMBERS || needed > NUMBERS - next
}

/// How many endpoints are there?
fn endpoint_count(endpoints: &[Endpoint]) -> u64
    ensures { result ≡ length (map endpoint_shown endpoints.now) }
{
    endpoints.len() as u64
}

/// Is there room for an invalidation and a wait at each unit that gets them, and a number for each wait?
fn may_submit(snapshot: &Snapshot, space: u64) -> bool
    ensures { result
        ≡ (not (queue_full snapshot.now space 2).0
        && not (lacks snapshot.now.next_cookie (waits_needed snapshot.now space))) }
{
    let count = endpoint_count(snapshot.endpoints.as_slice());
    !is_some_full(snapshot, space, 2, count)
        && !lacks(snapshot.next_cookie, submitting(snapshot, space, count))
}

/// Is it a page of a live space, and mapped?
fn is_page_of(snapshot: &Snapshot, space: u64, page: u64) -> bool
    ensures { result
        ≡ (is_space snapshot.now space
        && (not (nat_lt Limits.page_numbers (page + 1)) && is_mapped (pages_in snapshot.now space) page)) }
{
    is_space(snapshot, space) && page < PAGES && is_mapped(pages_in(snapshot, space), page)
}

/// Would it be accepted that a page is taken out of its space?
pub fn can_unmap(snapshot: &Snapshot, space: u64, page: u64) -> bool
    ensures { result ≡ is_accepted snapshot.now (step.Unmap space page 1) }
{
    is_page_of(snapshot, space, page) && may_submit(snapshot, space)
}
