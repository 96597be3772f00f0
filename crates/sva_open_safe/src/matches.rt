//! Tables that would be walked, and messages that would be taken for others.

ghost use Rattle.std.specs.Prelude.{◌≡◌, ◌↔◌, ◌&&◌, None, position, slice_get, true};
ghost use Rattle.sva_open.specs.Checks.{is_freed, is_safe};
ghost use Rattle.sva_open_safe.specs.Wrongs as wrongs;

use crate::frames::{answers, frames_wrong, if_so, or_else};
use crate::owners::{goes, left};
use crate::wrongs::{Sort, Wrong};
use sva_open::{
    Arrived, Entry, Filed, Group, KeptEntry, Message, Open, Part, Request, Row, Sent, Settings,
};

fn is_freed(freed: &[u64], space: u64) -> bool
    ensures { result ≡ is_freed freed.now space }
{
    freed.iter().any(|one| *one == space)
}

fn entry_walked(freed: &[u64], endpoint: usize, pasid: usize, entry: Option<Entry>) -> Option<Wrong>
    ensures { result ≡ wrongs.entry_walked freed.now endpoint pasid entry }
{
    match entry {
        None => None,
        Some(entry) => if_so(
            is_freed(freed, entry.space),
            Wrong::Walks {
                endpoint,
                space: entry.space,
                kept: false,
                pasid,
            },
        ),
    }
}

fn is_walked(freed: &[u64], row: &Row) -> bool
    ensures { result ≡ wrongs.is_walked freed.now row.now }
{
    entry_walked(freed, 0, 0, row.entry).is_some()
}

fn row_walked(freed: &[u64], endpoint: usize, pasid: usize, row: Option<Row>) -> Option<Wrong>
    ensures { result ≡ wrongs.row_walked freed.now endpoint pasid row }
{
    match row {
        None => None,
        Some(row) => entry_walked(freed, endpoint, pasid, row.entry),
    }
}

fn walked_at(freed: &[u64], rows: &[Row]) -> Option<usize>
    ensures { result ≡ position (wrongs.is_walked freed.now) rows.now }
{
    rows.iter().position(|row| is_walked(freed, row))
}

fn rows_walked(freed: &[u64], endpoint: usize, part: &Part) -> Option<Wrong>
    ensures { result ≡ wrongs.rows_walked freed.now endpoint part.now
        (position (wrongs.is_walked freed.now) part.now.rows) }
{
    match walked_at(freed, part.rows.as_slice()) {
        None => None,
        Some(pasid) => row_walked(freed, endpoint, pasid, part.rows.get(pasid).copied()),
    }
}

fn kept_walked(freed: &[u64], endpoint: usize, kept: KeptEntry) -> Option<Wrong>
    ensures { result ≡ wrongs.kept_walked freed.now endpoint kept }
{
    if_so(
        is_freed(freed, kept.entry.space),
        Wrong::Walks {
            endpoint,
            space: kept.entry.space,
            kept: true,
            pasid: kept.pasid,
        },
    )
}

fn group_met(
    allows_none: bool,
    endpoint: usize,
    index: usize,
    filed: bool,
    number: u64,
    group: Option<Option<Group>>,
) -> Option<Wrong>
    ensures { result ≡ wrongs.group_met allows_none endpoint index filed number group }
{
    match group {
        None => if_so(!allows_none, Wrong::NoGroup { endpoint, index }),
        Some(None) => if_so(!allows_none, Wrong::NoGroup { endpoint, index }),
        Some(Some(group)) => {
            if both(filed, number == group.number) {
                if_so(!group.is_finished, Wrong::Unfinished { endpoint, index })
            } else {
                Some(Wrong::OtherGroup { endpoint, index })
            }
        }
    }
}

fn both(one: bool, other: bool) -> bool
    ensures { result ≡ one && other }
{
    one && other
}

/// Whether nothing is wrong with a response that finds no group.
fn may_find_none(settings: &Settings, part: &Part) -> bool
    ensures { result ≡ wrongs.may_find_none settings.now part.now }
{
    settings.allows_no_group || part.is_gone
}

fn one_met(settings: &Settings, part: &Part, endpoint: usize, sent: Sent) -> Option<Wrong>
    ensures { result ≡ wrongs.one_met settings.now part.now endpoint sent }
{
    match sent.message {
        Message::Response { index, filed, .. } => group_met(
            may_find_none(settings, part),
            endpoint,
            index,
            filed,
            sent.number,
            part.groups.get(index).copied(),
        ),
        _ => None,
    }
}

fn joined_by(endpoint: usize, one: Arrived, filed: Filed) -> Option<Wrong>
    ensures { result ≡ wrongs.joined_by endpoint one filed }
{
    if_so(
        filed.is_joined(&one.request) && filed.number != one.number,
        Wrong::Joins {
            endpoint,
            pasid: one.request.pasid,
            index: one.request.index,
        },
    )
}

fn request_met(
    endpoint: usize,
    tag: usize,
    timely: bool,
    page: u64,
    request: Option<Option<Request>>,
) -> Option<Wrong>
    ensures { result ≡ wrongs.request_met endpoint tag timely page request }
{
    match request {
        None => None,
        Some(None) => None,
        Some(Some(request)) => if_so(
            !answers(timely, page, &request),
            Wrong::OtherRequest { endpoint, tag },
        ),
    }
}

fn answer_met(part: &Part, endpoint: usize, sent: Sent) -> Option<Wrong>
    ensures { result ≡ wrongs.answer_met part.now endpoint sent }
{
    match sent.message {
        Message::Completion { tag, page, .. } => request_met(
            endpoint,
            tag,
            sent.number == part.time,
            page,
            part.requests.get(tag).copied(),
        ),
        _ => None,
    }
}

fn first_walked(freed: &[u64], endpoint: usize, list: &[KeptEntry]) -> Option<Wrong>
    ensures { result ≡ wrongs.first_in (wrongs.kept_walked freed.now endpoint) list.now }
{
    for place in 0..list.len() {
        match kept_walked(freed, endpoint, list[place]) {
            Some(wrong) => return Some(wrong),
            None => {}
        }
    }
    None
}

fn space_served(domains: &[u64], endpoint: usize, pasid: usize, space: Option<u64>) -> Option<Wrong>
    ensures { result ≡ wrongs.space_served domains.now endpoint pasid space }
{
    match space {
        None => None,
        Some(space) => if_so(
            is_freed(domains, space),
            Wrong::Serves {
                endpoint,
                space,
                pasid,
            },
        ),
    }
}

/// Of a whole group that a worker has to serve.
fn filed_served(
    settings: &Settings,
    domains: &[u64],
    endpoint: usize,
    filed: Filed,
) -> Option<Wrong>
    ensures { result ≡ wrongs.filed_served settings.now domains.now endpoint filed }
{
    if settings.has_workers && filed.is_whole {
        space_served(domains, endpoint, filed.pasid, filed.space)
    } else {
        None
    }
}

fn first_served(
    settings: &Settings,
    domains: &[u64],
    endpoint: usize,
    list: &[Filed],
) -> Option<Wrong>
    ensures { result ≡ wrongs.first_in (wrongs.filed_served settings.now domains.now endpoint) list.now }
{
    for place in 0..list.len() {
        match filed_served(settings, domains, endpoint, list[place]) {
            Some(wrong) => return Some(wrong),
            None => {}
        }
    }
    None
}

fn first_response(settings: &Settings, part: &Part, endpoint: usize, list: &[Sent]) -> Option<Wrong>
    ensures { result ≡ wrongs.first_in (wrongs.one_met settings.now part.now endpoint) list.now }
{
    for place in 0..list.len() {
        match one_met(settings, part, endpoint, list[place]) {
            Some(wrong) => return Some(wrong),
            None => {}
        }
    }
    None
}

fn first_answer(part: &Part, endpoint: usize, list: &[Sent]) -> Option<Wrong>
    ensures { result ≡ wrongs.first_in (wrongs.answer_met part.now endpoint) list.now }
{
    for place in 0..list.len() {
        match answer_met(part, endpoint, list[place]) {
            Some(wrong) => return Some(wrong),
            None => {}
        }
    }
    None
}

fn first_joined(endpoint: usize, one: Arrived, list: &[Filed]) -> Option<Wrong>
    ensures { result ≡ wrongs.first_in (wrongs.joined_by endpoint one) list.now }
{
    for place in 0..list.len() {
        match joined_by(endpoint, one, list[place]) {
            Some(wrong) => return Some(wrong),
            None => {}
        }
    }
    None
}

fn walks(now: &Open, endpoint: usize, part: &Part) -> Option<Wrong>
    ensures { result ≡ wrongs.walks now.now.settings now.now.freed now.now.domains endpoint part.now }
{
    let freed = now.freed.as_slice();
    or_else(
        rows_walked(freed, endpoint, part),
        or_else(
            first_walked(freed, endpoint, part.kept_entries.as_slice()),
            first_served(
                &now.settings,
                now.domains.as_slice(),
                endpoint,
                part.filed.as_slice(),
            ),
        ),
    )
}

fn joins(endpoint: usize, part: &Part) -> Option<Wrong>
    ensures { result ≡ wrongs.joins part.now endpoint (slice_get part.now.arrived 0) }
{
    match part.arrived.get(0).copied() {
        None => None,
        Some(one) if one.endpoint == part.endpoint => {
            first_joined(endpoint, one, part.filed.as_slice())
        }
        Some(_) => None,
    }
}

/// What is wrong at an endpoint, of a sort.
fn wrong_at(now: &Open, sort: Sort, endpoint: usize, part: &Part) -> Option<Wrong>
    ensures { result ≡ wrongs.wrong_at now.now sort endpoint part.now }
{
    match sort {
        Sort::Freed => frames_wrong(Sort::Freed, now, endpoint, part),
        Sort::Frozen => frames_wrong(Sort::Frozen, now, endpoint, part),
        Sort::Left => left(&now.settings, endpoint, part),
        Sort::Goes => goes(endpoint, part),
        Sort::Walks => walks(now, endpoint, part),
        Sort::Responses => first_response(&now.settings, part, endpoint, part.flight.as_slice()),
        Sort::Joins => joins(endpoint, part),
        Sort::Requests => first_answer(part, endpoint, part.flight.as_slice()),
    }
}

/// What is wrong first, of a sort, at these endpoints.
fn first_among(now: &Open, sort: Sort, parts: &[Part]) -> Option<Wrong>
    ensures { result ≡ wrongs.first_from now.now sort 0 parts.now }
{
    for endpoint in 0..parts.len() {
        match wrong_at(now, sort, endpoint, &parts[endpoint]) {
            Some(wrong) => return Some(wrong),
            None => {}
        }
    }
    None
}

/// What is wrong first, of a sort.
fn first_of(now: &Open, sort: Sort) -> Option<Wrong>
    ensures { result ≡ wrongs.first_of now.now sort }
{
    first_among(now, sort, now.parts.as_slice())
}

/// The first thing that is wrong at a moment, by the order in which they are told. There is none exactly where the
/// moment is safe.
pub fn first_wrong(now: &Open) -> Option<Wrong>
    ensures first { result ≡ wrongs.first_wrong now.now }
    ensures safe { (result ≡ None) ↔ (is_safe now.now ≡ true) }
{
    or_else(
        first_of(now, Sort::Freed),
        or_else(
            first_of(now, Sort::Frozen),
            or_else(
                first_of(now, Sort::Left),
                or_else(
                    first_of(now, Sort::Goes),
                    or_else(
                        first_of(now, Sort::Walks),
                        or_else(
                            first_of(now, Sort::Responses),
                            or_else(first_of(now, Sort::Joins), first_of(now, Sort::Requests)),
                        ),
                    ),
                ),
            ),
        ),
    )
}
