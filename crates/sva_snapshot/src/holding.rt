//! Which messages in flight hold others back, by the order of the link.

ghost use Rattle.std.specs.Prelude.{◌≡◌, find, is_some, map, option_map};
ghost use Rattle.std.specs.List.{list_any};
ghost use Rattle.sva_labels.specs.Finding.{holds_back, kind_of};
ghost use Rattle.sva_model.specs.LinkOrder.{is_order_down, is_page_request, stays_behind};
ghost use Rattle.sva_parts_by_labels.specs.Flights.{kind_seen};
ghost use Rattle.sva_snapshot.specs.Shown.{flight_shown};

use crate::flights::Flight;
use sva_msg::Kind;

/// Must a start, a stop or a reset not overtake a message of this kind?
fn is_order_down(kind: &Kind) -> bool
    ensures { result ≡ is_order_down (kind_of (kind_seen kind.now)) }
{
    matches!(
        kind,
        Kind::Start { .. }
            | Kind::Stop { .. }
            | Kind::Reset
            | Kind::Invalidate { .. }
            | Kind::Response { .. }
    )
}

/// Is it a page request?
fn is_page_request(kind: &Kind) -> bool
    ensures { result ≡ is_page_request (kind_of (kind_seen kind.now)) }
{
    matches!(kind, Kind::PageRequest(_))
}

/// Must a message of one kind not overtake an older one of another, at one endpoint?
fn stays_behind(newer: &Kind, older: &Kind) -> bool
    ensures { result ≡ stays_behind (kind_of (kind_seen newer.now)) (kind_of (kind_seen older.now)) }
{
    match newer {
        Kind::PageRequest(request) => request.last && is_page_request(older),
        Kind::Marker { .. } => is_page_request(older),
        Kind::Start { .. } | Kind::Stop { .. } | Kind::Reset => is_order_down(older),
        Kind::ResetDone => true,
        Kind::Completion { .. }
        | Kind::Invalidate { .. }
        | Kind::Response { .. }
        | Kind::Request { .. }
        | Kind::Invalidated { .. } => false,
    }
}

/// Does one message hold another back?
pub fn holds_back(newer: &Flight, older: &Flight) -> bool
    ensures { result ≡ holds_back (flight_shown newer.now) (flight_shown older.now) }
{
    older.number < newer.number
        && older.message.endpoint == newer.message.endpoint
        && stays_behind(&newer.message.kind, &older.message.kind)
}

/// The number of the oldest message that holds a message back.
pub fn held_back_by(flight: &Flight, flights: &[Flight]) -> Option<u64>
    ensures oldest { result ≡ option_map (λ older. older.number)
        (find (holds_back (flight_shown flight.now)) (map flight_shown flights.now)) }
    ensures any { is_some result ≡ list_any (holds_back (flight_shown flight.now)) (map flight_shown flights.now) }
{
    for older in flights {
        if holds_back(flight, older) {
            return Some(older.number);
        }
    }
    None
}
