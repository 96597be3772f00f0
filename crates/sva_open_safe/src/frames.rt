//! Frames that may still be used.

ghost use Rattle.std.specs.Prelude.{◌≡◌, slice_get};
ghost use Rattle.sva_open.specs.World.{or_else};
ghost use Rattle.sva_open_safe.specs.Wrongs as wrongs;

use crate::wrongs::{Sort, Thing, Wrong};
use sva_open::{Message, Open, Part, Request, Sent, Target, Tenure, Translation, Work};

/// What is wrong, if it is so.
pub(crate) fn if_so(so: bool, wrong: Wrong) -> Option<Wrong>
    ensures { result ≡ wrongs.if_so so wrong }
{
    if so { Some(wrong) } else { None }
}

/// The first of two that is there.
pub(crate) fn or_else(one: Option<Wrong>, other: Option<Wrong>) -> Option<Wrong>
    ensures { result ≡ or_else one other }
{
    match one {
        Some(wrong) => Some(wrong),
        None => other,
    }
}

fn is_given_away(target: Target, now: Option<Tenure>) -> bool
    ensures { result ≡ wrongs.is_given_away target now }
{
    match now {
        None => true,
        Some(now) => target.tenure.given != now.given,
    }
}

fn is_frozen(target: Target, now: Option<Tenure>) -> bool
    ensures { result ≡ wrongs.is_frozen target now }
{
    match now {
        None => true,
        Some(now) => target.write && target.tenure.frozen != now.frozen,
    }
}

fn leads_wrong(sort: Sort, now: &Open, target: Target) -> bool
    ensures { result ≡ wrongs.leads_wrong sort now.now target }
{
    let tenure = now.frames.get(target.frame).copied();
    match sort {
        Sort::Freed => is_given_away(target, tenure),
        _ => is_frozen(target, tenure),
    }
}

fn frame_wrong(
    sort: Sort,
    endpoint: usize,
    thing: Thing,
    target: Target,
    page: u64,
    pasid: usize,
) -> Wrong
    ensures { result ≡ wrongs.frame_wrong sort endpoint thing target page pasid }
{
    let frame = target.frame;
    match sort {
        Sort::Freed => Wrong::Freed {
            endpoint,
            frame,
            thing,
            page,
            pasid,
        },
        _ => Wrong::Frozen {
            endpoint,
            frame,
            thing,
            page,
            pasid,
        },
    }
}

/// What is wrong with a target that a page under a PASID leads to.
fn target_wrong(
    sort: Sort,
    now: &Open,
    endpoint: usize,
    thing: Thing,
    target: Target,
    page: u64,
    pasid: usize,
) -> Option<Wrong>
    ensures { result ≡ wrongs.target_wrong sort now.now endpoint thing target page pasid }
{
    if_so(
        leads_wrong(sort, now, target),
        frame_wrong(sort, endpoint, thing, target, page, pasid),
    )
}

fn held_wrong(sort: Sort, now: &Open, endpoint: usize, held: Translation) -> Option<Wrong>
    ensures { result ≡ wrongs.held_wrong sort now.now endpoint held }
{
    target_wrong(
        sort,
        now,
        endpoint,
        Thing::Held,
        held.target,
        held.page,
        held.pasid,
    )
}

fn work_wrong(sort: Sort, now: &Open, endpoint: usize, work: Work) -> Option<Wrong>
    ensures { result ≡ wrongs.work_wrong sort now.now endpoint work }
{
    match work {
        Work::Use(used) => target_wrong(
            sort,
            now,
            endpoint,
            Thing::Running,
            used.target,
            used.page,
            used.pasid,
        ),
        Work::Taken { .. } | Work::Draining(_) => None,
    }
}

/// Whether a completion of a page answers a request.
pub(crate) fn answers(timely: bool, page: u64, request: &Request) -> bool
    ensures { result ≡ wrongs.answers timely page request.now }
{
    timely && page == request.page
}

fn arrives_wrong(
    sort: Sort,
    now: &Open,
    endpoint: usize,
    timely: bool,
    page: u64,
    target: Target,
    request: Option<Option<Request>>,
) -> Option<Wrong>
    ensures { result ≡ wrongs.arrives_wrong sort now.now endpoint timely page target request }
{
    match request {
        None => None,
        Some(None) => None,
        Some(Some(request)) => {
            if answers(timely, page, &request) && !request.is_doomed {
                target_wrong(
                    sort,
                    now,
                    endpoint,
                    Thing::Completion,
                    target,
                    request.page,
                    request.pasid,
                )
            } else {
                None
            }
        }
    }
}

fn sent_wrong(sort: Sort, now: &Open, endpoint: usize, part: &Part, sent: Sent) -> Option<Wrong>
    ensures { result ≡ wrongs.sent_wrong sort now.now endpoint part.now sent }
{
    match sent.message {
        Message::Completion {
            tag,
            page,
            target: Some(target),
        } => arrives_wrong(
            sort,
            now,
            endpoint,
            sent.number == part.time,
            page,
            target,
            part.requests.get(tag).copied(),
        ),
        _ => None,
    }
}

fn first_held(sort: Sort, now: &Open, endpoint: usize, list: &[Translation]) -> Option<Wrong>
    ensures { result ≡ wrongs.first_in (wrongs.held_wrong sort now.now endpoint) list.now }
{
    for place in 0..list.len() {
        match held_wrong(sort, now, endpoint, list[place]) {
            Some(wrong) => return Some(wrong),
            None => {}
        }
    }
    None
}

fn first_used(sort: Sort, now: &Open, endpoint: usize, list: &[Work]) -> Option<Wrong>
    ensures { result ≡ wrongs.first_in (wrongs.work_wrong sort now.now endpoint) list.now }
{
    for place in 0..list.len() {
        match work_wrong(sort, now, endpoint, list[place]) {
            Some(wrong) => return Some(wrong),
            None => {}
        }
    }
    None
}

fn first_sent(sort: Sort, now: &Open, endpoint: usize, part: &Part, list: &[Sent]) -> Option<Wrong>
    ensures { result ≡ wrongs.first_in (wrongs.sent_wrong sort now.now endpoint part.now) list.now }
{
    for place in 0..list.len() {
        match sent_wrong(sort, now, endpoint, part, list[place]) {
            Some(wrong) => return Some(wrong),
            None => {}
        }
    }
    None
}

/// The first frame of an endpoint that may still be used or written.
pub(crate) fn frames_wrong(sort: Sort, now: &Open, endpoint: usize, part: &Part) -> Option<Wrong>
    ensures { result ≡ wrongs.frames_wrong sort now.now endpoint part.now }
{
    or_else(
        first_held(sort, now, endpoint, part.held.as_slice()),
        or_else(
            first_used(sort, now, endpoint, part.works.as_slice()),
            first_sent(sort, now, endpoint, part, part.flight.as_slice()),
        ),
    )
}
