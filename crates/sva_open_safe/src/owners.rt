//! What is there of an earlier owner of a PASID.

ghost use Rattle.std.specs.Prelude.{◌≡◌, position};
ghost use Rattle.sva_open_safe.specs.Wrongs as wrongs;

use crate::frames::{if_so, or_else};
use crate::wrongs::{Thing, Wrong};
use sva_open::{
    Arrived, Filed, KeptEntry, Message, Part, Received, Request, Row, Sent, Settings, Translation,
    Work,
};

/// What is told of something of an owner of a PASID, if that isn't its present one.
fn left_of(part: &Part, endpoint: usize, thing: Thing, pasid: usize, owner: u64) -> Option<Wrong>
    ensures { result ≡ wrongs.left_of part.now endpoint thing pasid owner }
{
    let present = match part.rows.get(pasid).copied() {
        None => false,
        Some(row) => owner == row.owner,
    };
    if_so(
        !present,
        Wrong::Left {
            endpoint,
            thing,
            pasid,
        },
    )
}

fn held_left(part: &Part, endpoint: usize, held: Translation) -> Option<Wrong>
    ensures { result ≡ wrongs.held_left part.now endpoint held }
{
    left_of(part, endpoint, Thing::Held, held.pasid, held.owner)
}

fn work_left(part: &Part, endpoint: usize, work: Work) -> Option<Wrong>
    ensures { result ≡ wrongs.work_left part.now endpoint work }
{
    match work {
        Work::Use(used) => left_of(part, endpoint, Thing::Running, used.pasid, used.owner),
        Work::Taken { .. } | Work::Draining(_) => None,
    }
}

fn request_left(part: &Part, endpoint: usize, request: Option<Request>) -> Option<Wrong>
    ensures { result ≡ wrongs.request_left part.now endpoint request }
{
    match request {
        None => None,
        Some(request) => {
            if request.is_doomed {
                None
            } else {
                left_of(part, endpoint, Thing::Request, request.pasid, request.owner)
            }
        }
    }
}

/// Of a message that the unit drops where it is closed.
fn upward_left(
    part: &Part,
    endpoint: usize,
    thing: Thing,
    pasid: usize,
    owner: u64,
) -> Option<Wrong>
    ensures { result ≡ wrongs.upward_left part.now endpoint thing pasid owner }
{
    if part.is_open {
        left_of(part, endpoint, thing, pasid, owner)
    } else {
        None
    }
}

/// Of a message that is dropped where the endpoint is gone.
fn downward_left(
    part: &Part,
    endpoint: usize,
    thing: Thing,
    pasid: usize,
    owner: u64,
) -> Option<Wrong>
    ensures { result ≡ wrongs.downward_left part.now endpoint thing pasid owner }
{
    if part.is_gone {
        None
    } else {
        left_of(part, endpoint, thing, pasid, owner)
    }
}

fn one_left(part: &Part, endpoint: usize, thing: Thing, sent: Sent) -> Option<Wrong>
    ensures { result ≡ wrongs.one_left part.now endpoint thing sent }
{
    match (thing, sent.message) {
        (Thing::Start, Message::Start { pasid }) => downward_left(
            part, endpoint, thing, pasid, sent.owner,
        ),
        (Thing::Stop, Message::Stop { pasid }) => downward_left(
            part, endpoint, thing, pasid, sent.owner,
        ),
        (Thing::PageRequest, Message::PageRequest(request)) => upward_left(
            part,
            endpoint,
            thing,
            request.pasid,
            sent.owner,
        ),
        (Thing::Marker, Message::Marker { pasid }) => upward_left(
            part, endpoint, thing, pasid, sent.owner,
        ),
        (Thing::Status, Message::Status { pasid }) => left_of(
            part, endpoint, thing, pasid, sent.owner,
        ),
        _ => None,
    }
}

fn arrived_left(part: &Part, endpoint: usize, one: Arrived) -> Option<Wrong>
    ensures { result ≡ wrongs.arrived_left part.now endpoint one }
{
    if one.endpoint != part.endpoint {
        return None;
    }
    left_of(part, endpoint, Thing::Queued, one.request.pasid, one.owner)
}

fn received_left(part: &Part, endpoint: usize, received: Received) -> Option<Wrong>
    ensures { result ≡ wrongs.received_left part.now endpoint received }
{
    match received {
        Received::Request(one) if one.endpoint == part.endpoint => left_of(
            part,
            endpoint,
            Thing::Received,
            one.request.pasid,
            one.owner,
        ),
        Received::Request(_) => None,
        Received::Drain { .. } => None,
    }
}

/// Of a whole group that a worker has to serve.
fn filed_left(settings: &Settings, part: &Part, endpoint: usize, filed: Filed) -> Option<Wrong>
    ensures { result ≡ wrongs.filed_left settings.now part.now endpoint filed }
{
    if settings.has_workers && filed.is_whole {
        left_of(part, endpoint, Thing::Filed, filed.pasid, filed.owner)
    } else {
        None
    }
}

fn kept_entry_left(part: &Part, endpoint: usize, kept: KeptEntry) -> Option<Wrong>
    ensures { result ≡ wrongs.kept_entry_left part.now endpoint kept }
{
    left_of(
        part,
        endpoint,
        Thing::KeptEntry,
        kept.pasid,
        kept.entry.owner,
    )
}

fn kept_left(part: &Part, endpoint: usize, kept: Translation) -> Option<Wrong>
    ensures { result ≡ wrongs.kept_left part.now endpoint kept }
{
    left_of(part, endpoint, Thing::Kept, kept.pasid, kept.owner)
}

fn first_held(part: &Part, endpoint: usize, list: &[Translation]) -> Option<Wrong>
    ensures { result ≡ wrongs.first_in (wrongs.held_left part.now endpoint) list.now }
{
    for place in 0..list.len() {
        match held_left(part, endpoint, list[place]) {
            Some(wrong) => return Some(wrong),
            None => {}
        }
    }
    None
}

fn first_used(part: &Part, endpoint: usize, list: &[Work]) -> Option<Wrong>
    ensures { result ≡ wrongs.first_in (wrongs.work_left part.now endpoint) list.now }
{
    for place in 0..list.len() {
        match work_left(part, endpoint, list[place]) {
            Some(wrong) => return Some(wrong),
            None => {}
        }
    }
    None
}

fn first_asked(part: &Part, endpoint: usize, list: &[Option<Request>]) -> Option<Wrong>
    ensures { result ≡ wrongs.first_in (wrongs.request_left part.now endpoint) list.now }
{
    for place in 0..list.len() {
        match request_left(part, endpoint, list[place]) {
            Some(wrong) => return Some(wrong),
            None => {}
        }
    }
    None
}

fn first_arrived(part: &Part, endpoint: usize, list: &[Arrived]) -> Option<Wrong>
    ensures { result ≡ wrongs.first_in (wrongs.arrived_left part.now endpoint) list.now }
{
    for place in 0..list.len() {
        match arrived_left(part, endpoint, list[place]) {
            Some(wrong) => return Some(wrong),
            None => {}
        }
    }
    None
}

fn first_received(part: &Part, endpoint: usize, list: &[Received]) -> Option<Wrong>
    ensures { result ≡ wrongs.first_in (wrongs.received_left part.now endpoint) list.now }
{
    for place in 0..list.len() {
        match received_left(part, endpoint, list[place]) {
            Some(wrong) => return Some(wrong),
            None => {}
        }
    }
    None
}

fn first_filed(settings: &Settings, part: &Part, endpoint: usize, list: &[Filed]) -> Option<Wrong>
    ensures { result ≡ wrongs.first_in (wrongs.filed_left settings.now part.now endpoint) list.now }
{
    for place in 0..list.len() {
        match filed_left(settings, part, endpoint, list[place]) {
            Some(wrong) => return Some(wrong),
            None => {}
        }
    }
    None
}

fn first_kept_entry(part: &Part, endpoint: usize, list: &[KeptEntry]) -> Option<Wrong>
    ensures { result ≡ wrongs.first_in (wrongs.kept_entry_left part.now endpoint) list.now }
{
    for place in 0..list.len() {
        match kept_entry_left(part, endpoint, list[place]) {
            Some(wrong) => return Some(wrong),
            None => {}
        }
    }
    None
}

fn first_kept(part: &Part, endpoint: usize, list: &[Translation]) -> Option<Wrong>
    ensures { result ≡ wrongs.first_in (wrongs.kept_left part.now endpoint) list.now }
{
    for place in 0..list.len() {
        match kept_left(part, endpoint, list[place]) {
            Some(wrong) => return Some(wrong),
            None => {}
        }
    }
    None
}

fn first_sent(part: &Part, endpoint: usize, thing: Thing, list: &[Sent]) -> Option<Wrong>
    ensures { result ≡ wrongs.first_in (wrongs.one_left part.now endpoint thing) list.now }
{
    for place in 0..list.len() {
        match one_left(part, endpoint, thing, list[place]) {
            Some(wrong) => return Some(wrong),
            None => {}
        }
    }
    None
}

fn is_other(owner: u64, own: Option<u64>) -> bool
    ensures { result ≡ wrongs.is_other owner own }
{
    match own {
        None => false,
        Some(own) => own != owner,
    }
}

fn is_answer_left(row: &Row) -> bool
    ensures { result ≡ wrongs.is_answer_left row.now }
{
    is_other(row.owner, row.answer)
}

fn is_entry_left(row: &Row) -> bool
    ensures { result ≡ wrongs.is_entry_left row.now }
{
    match row.entry {
        None => false,
        Some(entry) => entry.owner != row.owner,
    }
}

fn answer_left_at(rows: &[Row]) -> Option<usize>
    ensures { result ≡ position wrongs.is_answer_left rows.now }
{
    rows.iter().position(|row| is_answer_left(row))
}

fn answer_left(endpoint: usize, part: &Part) -> Option<Wrong>
    ensures { result ≡ wrongs.answer_left endpoint part.now }
{
    match answer_left_at(part.rows.as_slice()) {
        None => None,
        Some(pasid) => Some(Wrong::Left {
            endpoint,
            thing: Thing::Answer,
            pasid,
        }),
    }
}

fn entry_left_at(rows: &[Row]) -> Option<usize>
    ensures { result ≡ position wrongs.is_entry_left rows.now }
{
    rows.iter().position(|row| is_entry_left(row))
}

fn entry_left(endpoint: usize, part: &Part) -> Option<Wrong>
    ensures { result ≡ wrongs.entry_left endpoint part.now }
{
    match entry_left_at(part.rows.as_slice()) {
        None => None,
        Some(pasid) => Some(Wrong::Left {
            endpoint,
            thing: Thing::Entry,
            pasid,
        }),
    }
}

fn device_left(endpoint: usize, part: &Part) -> Option<Wrong>
    ensures { result ≡ wrongs.device_left endpoint part.now }
{
    or_else(
        first_held(part, endpoint, part.held.as_slice()),
        or_else(
            first_used(part, endpoint, part.works.as_slice()),
            first_asked(part, endpoint, part.requests.as_slice()),
        ),
    )
}

fn flight_left(part: &Part, endpoint: usize, thing: Thing) -> Option<Wrong>
    ensures { result ≡ wrongs.flight_left part.now endpoint thing }
{
    first_sent(part, endpoint, thing, part.flight.as_slice())
}

fn sent_left(endpoint: usize, part: &Part) -> Option<Wrong>
    ensures { result ≡ wrongs.sent_left endpoint part.now }
{
    or_else(
        flight_left(part, endpoint, Thing::Start),
        or_else(
            flight_left(part, endpoint, Thing::Stop),
            or_else(
                flight_left(part, endpoint, Thing::PageRequest),
                or_else(
                    first_received(part, endpoint, part.received.as_slice()),
                    or_else(
                        first_arrived(part, endpoint, part.arrived.as_slice()),
                        or_else(
                            flight_left(part, endpoint, Thing::Marker),
                            flight_left(part, endpoint, Thing::Status),
                        ),
                    ),
                ),
            ),
        ),
    )
}

fn host_left(settings: &Settings, endpoint: usize, part: &Part) -> Option<Wrong>
    ensures { result ≡ wrongs.host_left settings.now endpoint part.now }
{
    or_else(
        answer_left(endpoint, part),
        or_else(
            entry_left(endpoint, part),
            or_else(
                first_kept_entry(part, endpoint, part.kept_entries.as_slice()),
                or_else(
                    first_kept(part, endpoint, part.kept.as_slice()),
                    first_filed(settings, part, endpoint, part.filed.as_slice()),
                ),
            ),
        ),
    )
}

/// What is there first of an earlier owner of a PASID.
pub(crate) fn left(settings: &Settings, endpoint: usize, part: &Part) -> Option<Wrong>
    ensures { result ≡ wrongs.left settings.now endpoint part.now }
{
    or_else(
        device_left(endpoint, part),
        or_else(
            sent_left(endpoint, part),
            host_left(settings, endpoint, part),
        ),
    )
}

fn is_going(row: &Row) -> bool
    ensures { result ≡ wrongs.is_going row.now }
{
    !(row.state.is_off() || row.user == row.owner)
}

fn going_at(rows: &[Row]) -> Option<usize>
    ensures { result ≡ position wrongs.is_going rows.now }
{
    rows.iter().position(|row| is_going(row))
}

/// The first PASID under which an endpoint goes on for an earlier owner.
pub(crate) fn goes(endpoint: usize, part: &Part) -> Option<Wrong>
    ensures { result ≡ wrongs.goes endpoint part.now }
{
    match going_at(part.rows.as_slice()) {
        None => None,
        Some(pasid) => Some(Wrong::Goes { endpoint, pasid }),
    }
}
