//! Whether a moment is safe.

ghost use Rattle.std.specs.Prelude.{◌≡◌, ◌↔◌, IsTrue, is_none, slice_get};
ghost use Rattle.std.specs.List.{list_all, list_any};
ghost use Rattle.sva_open.specs.Checks as check;
ghost use Rattle.sva_open.specs.Safe.{IsSafe};
ghost use Rattle.sva_open.specs.World.{group_at};

use sva_open::{
    Arrived, Entry, Filed, KeptEntry, Message, Open, Part, Received, Request, Row, Sent, Settings,
    Target, Tenure, Translation, Work,
};

/// Whether nobody else has been given the frame since a page led to it so.
fn is_current(frames: &[Tenure], target: &Target) -> bool
    ensures { result ≡ check.is_current frames.now target.now }
{
    match frames.get(target.frame).copied() {
        None => false,
        Some(now) => target.tenure.given == now.given
            && (!target.write || target.tenure.frozen == now.frozen),
    }
}

/// Whether it is the owner that the PASID has.
fn is_present(part: &Part, pasid: usize, owner: u64) -> bool
    ensures { result ≡ check.is_present part.now pasid owner }
{
    match part.row(pasid) {
        None => false,
        Some(row) => owner == row.owner,
    }
}

fn is_good(frames: &[Tenure], part: &Part, translation: &Translation) -> bool
    ensures { result ≡ check.is_good frames.now part.now translation.now }
{
    is_current(frames, &translation.target)
        && is_present(part, translation.pasid, translation.owner)
}

fn is_good_work(frames: &[Tenure], part: &Part, work: &Work) -> bool
    ensures { result ≡ check.is_good_work frames.now part.now work.now }
{
    match work {
        Work::Use(translation) => is_good(frames, part, translation),
        Work::Taken { .. } | Work::Draining(_) => true,
    }
}

fn is_good_request(part: &Part, request: &Option<Request>) -> bool
    ensures { result ≡ check.is_good_request part.now request.now }
{
    match request {
        None => true,
        Some(request) => request.is_doomed || is_present(part, request.pasid, request.owner),
    }
}

fn may_be_held(frames: &[Tenure], target: &Option<Target>) -> bool
    ensures { result ≡ check.may_be_held frames.now target.now }
{
    match target {
        None => true,
        Some(target) => is_current(frames, target),
    }
}

/// Whether a completion answers the request that has its tag, and its translation may be held.
fn is_its_own(
    frames: &[Tenure],
    part: &Part,
    one: &Sent,
    tag: usize,
    page: u64,
    target: &Option<Target>,
) -> bool
    ensures { result ≡ check.is_its_own frames.now part.now one.now page target.now (slice_get part.now.requests tag) }
{
    match part.requests.get(tag).copied() {
        None => true,
        Some(None) => true,
        Some(Some(request)) => (one.number == part.time && page == request.page)
            && (request.is_doomed || may_be_held(frames, target)),
    }
}

/// Whether there is a group under an index, of this number, and it is finished.
fn is_its_end(part: &Part, index: usize, number: u64) -> bool
    ensures { result ≡ check.is_its_end number (slice_get part.now.groups index) }
{
    match part.groups.get(index).copied() {
        None => false,
        Some(None) => false,
        Some(Some(group)) => number == group.number && group.is_finished,
    }
}

/// Whether there is no group under an index.
fn has_no_group(part: &Part, index: usize) -> bool
    ensures { result ≡ is_none (group_at (slice_get part.now.groups index)) }
{
    match part.groups.get(index).copied() {
        None => true,
        Some(None) => true,
        Some(Some(_group)) => false,
    }
}

/// Whether a response ends no group, and the platform allows that, or the endpoint is gone.
fn ends_none(settings: &Settings, part: &Part, index: usize) -> bool
    ensures { result ≡ check.ends_none settings.now part.now index }
{
    (settings.allows_no_group || part.is_gone) && has_no_group(part, index)
}

/// Whether a message in flight would be taken for what it is of.
fn is_right(settings: &Settings, frames: &[Tenure], part: &Part, one: &Sent) -> bool
    ensures { result ≡ check.is_right_sent settings.now frames.now part.now one.now }
{
    match &one.message {
        Message::Start { pasid } => part.is_gone || is_present(part, *pasid, one.owner),
        Message::Stop { pasid } => part.is_gone || is_present(part, *pasid, one.owner),
        Message::Completion { tag, page, target } => {
            is_its_own(frames, part, one, *tag, *page, target)
        }
        Message::Response { index, filed, .. } => (*filed && is_its_end(part, *index, one.number))
            || ends_none(settings, part, *index),
        Message::PageRequest(request) => !part.is_open
            || is_present(part, request.pasid, one.owner),
        Message::Marker { pasid } => !part.is_open || is_present(part, *pasid, one.owner),
        Message::Status { pasid } => is_present(part, *pasid, one.owner),
        Message::Reset
        | Message::Invalidate { .. }
        | Message::Request { .. }
        | Message::Invalidated { .. }
        | Message::ResetDone
        | Message::Barrier(_)
        | Message::Passed(_) => true,
    }
}

/// Whether a page request doesn't join another group than its own.
fn joins_own(one: &Arrived, filed: &Filed) -> bool
    ensures { result ≡ check.joins_own one.now filed.now }
{
    !filed.is_joined(&one.request) || filed.number == one.number
}

fn all_join_own(filed: &[Filed], one: &Arrived) -> bool
    ensures { result ≡ list_all (check.joins_own one.now) filed.now }
{
    filed.iter().all(|group| joins_own(one, group))
}

fn joins_own_group(part: &Part) -> bool
    ensures { result ≡ check.joins_own_group part.now.endpoint part.now.filed (slice_get part.now.arrived 0) }
{
    match part.arrived.get(0) {
        None => true,
        Some(one) => one.endpoint != part.endpoint || all_join_own(part.filed.as_slice(), one),
    }
}

fn is_freed(freed: &[u64], space: u64) -> bool
    ensures { result ≡ check.is_freed freed.now space }
{
    freed.iter().any(|one| *one == space)
}

/// Whether a page request is of the endpoint's present owner, or another endpoint's.
fn is_good_arrived(part: &Part, one: &Arrived) -> bool
    ensures { result ≡ check.is_good_arrived part.now one.now }
{
    one.endpoint != part.endpoint || is_present(part, one.request.pasid, one.owner)
}

fn is_good_received(part: &Part, received: &Received) -> bool
    ensures { result ≡ check.is_good_received part.now received.now }
{
    match received {
        Received::Request(one) => is_good_arrived(part, one),
        Received::Drain { .. } => true,
    }
}

fn is_space_there(domains: &[u64], space: Option<u64>) -> bool
    ensures { result ≡ check.is_space_there domains.now space }
{
    match space {
        None => true,
        Some(space) => !is_freed(domains, space),
    }
}

/// Whether a whole group is served for its owner, by a space whose domain is there.
fn is_good_filed(domains: &[u64], part: &Part, filed: &Filed) -> bool
    ensures { result ≡ check.is_good_filed domains.now part.now filed.now }
{
    !filed.is_whole
        || (is_present(part, filed.pasid, filed.owner) && is_space_there(domains, filed.space))
}

fn is_good_entry(freed: &[u64], part: &Part, kept: &KeptEntry) -> bool
    ensures { result ≡ check.is_good_entry freed.now part.now kept.now }
{
    is_present(part, kept.pasid, kept.entry.owner) && !is_freed(freed, kept.entry.space)
}

fn is_entry_owned(freed: &[u64], row: &Row, entry: &Option<Entry>) -> bool
    ensures { result ≡ check.is_entry_owned freed.now row.now entry.now }
{
    match entry {
        None => true,
        Some(entry) => entry.owner == row.owner && !is_freed(freed, entry.space),
    }
}

fn is_answer_owned(row: &Row, answer: &Option<u64>) -> bool
    ensures { result ≡ check.is_answer_owned row.now answer.now }
{
    match answer {
        None => true,
        Some(owner) => *owner == row.owner,
    }
}

fn is_owned(freed: &[u64], row: &Row) -> bool
    ensures { result ≡ check.is_owned freed.now row.now }
{
    is_entry_owned(freed, row, &row.entry)
        && (is_answer_owned(row, &row.answer) && (row.state.is_off() || row.user == row.owner))
}

fn is_held_good(frames: &[Tenure], part: &Part) -> bool
    ensures { result ≡ list_all (check.is_good frames.now part.now) part.now.held }
{
    part.held.iter().all(|one| is_good(frames, part, one))
}

fn are_works_good(frames: &[Tenure], part: &Part) -> bool
    ensures { result ≡ list_all (check.is_good_work frames.now part.now) part.now.works }
{
    part.works.iter().all(|one| is_good_work(frames, part, one))
}

fn are_requests_good(part: &Part) -> bool
    ensures { result ≡ list_all (check.is_good_request part.now) part.now.requests }
{
    part.requests.iter().all(|one| is_good_request(part, one))
}

fn is_flight_right(settings: &Settings, frames: &[Tenure], part: &Part) -> bool
    ensures { result ≡ list_all (check.is_right_sent settings.now frames.now part.now) part.now.flight }
{
    part.flight
        .iter()
        .all(|one| is_right(settings, frames, part, one))
}

fn are_arrived_good(part: &Part) -> bool
    ensures { result ≡ list_all (check.is_good_arrived part.now) part.now.arrived }
{
    part.arrived.iter().all(|one| is_good_arrived(part, one))
}

fn are_received_good(part: &Part) -> bool
    ensures { result ≡ list_all (check.is_good_received part.now) part.now.received }
{
    part.received.iter().all(|one| is_good_received(part, one))
}

fn are_all_filed_good(domains: &[u64], part: &Part) -> bool
    ensures { result ≡ list_all (check.is_good_filed domains.now part.now) part.now.filed }
{
    part.filed
        .iter()
        .all(|one| is_good_filed(domains, part, one))
}

fn are_filed_good(settings: &Settings, domains: &[u64], part: &Part) -> bool
    ensures { result ≡ check.are_good_filed settings.now domains.now part.now }
{
    !settings.has_workers || are_all_filed_good(domains, part)
}

fn is_safe_for_workers(settings: &Settings, domains: &[u64], part: &Part) -> bool
    ensures { result ≡ check.is_safe_for_workers settings.now domains.now part.now }
{
    are_received_good(part) && are_filed_good(settings, domains, part)
}

fn is_kept_good(part: &Part) -> bool
    ensures { result ≡ list_all (check.is_good_kept part.now) part.now.kept }
{
    part.kept
        .iter()
        .all(|one| is_present(part, one.pasid, one.owner))
}

fn are_entries_good(freed: &[u64], part: &Part) -> bool
    ensures { result ≡ list_all (check.is_good_entry freed.now part.now) part.now.kept_entries }
{
    part.kept_entries
        .iter()
        .all(|one| is_good_entry(freed, part, one))
}

fn are_rows_owned(freed: &[u64], part: &Part) -> bool
    ensures { result ≡ list_all (check.is_owned freed.now) part.now.rows }
{
    part.rows.iter().all(|row| is_owned(freed, row))
}

fn is_safe_part(
    settings: &Settings,
    frames: &[Tenure],
    freed: &[u64],
    domains: &[u64],
    part: &Part,
) -> bool
    ensures { result ≡ check.is_safe_part settings.now frames.now freed.now domains.now part.now }
{
    is_safe_device(frames, part)
        && (is_safe_unit(freed, part)
            && (is_safe_for_workers(settings, domains, part)
                && (is_flight_right(settings, frames, part) && are_rows_owned(freed, part))))
}

fn is_safe_device(frames: &[Tenure], part: &Part) -> bool
    ensures { result ≡ check.is_safe_device frames.now part.now }
{
    is_held_good(frames, part) && (are_works_good(frames, part) && are_requests_good(part))
}

fn is_safe_unit(freed: &[u64], part: &Part) -> bool
    ensures { result ≡ check.is_safe_unit freed.now part.now }
{
    are_arrived_good(part)
        && (joins_own_group(part) && (is_kept_good(part) && are_entries_good(freed, part)))
}

fn are_parts_safe(
    settings: &Settings,
    frames: &[Tenure],
    freed: &[u64],
    domains: &[u64],
    parts: &[Part],
) -> bool
    ensures { result ≡ list_all (check.is_safe_part settings.now frames.now freed.now domains.now) parts.now }
{
    parts.iter().all(|part| is_safe_part(settings, frames, freed, domains, part))
}

/// Whether a moment is safe: no endpoint may still use a frame that has another owner, and nothing of a PASID, and no
/// message, would be taken for another owner's.
pub fn is_safe(now: &Open) -> bool
    ensures test { result ≡ check.is_safe now.now }
    ensures safe { IsTrue result ↔ IsSafe now.now }
{
    are_parts_safe(
        &now.settings,
        now.frames.as_slice(),
        now.freed.as_slice(),
        now.domains.as_slice(),
        now.parts.as_slice(),
    )
}
