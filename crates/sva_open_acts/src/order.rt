//! The permitted order of a link.

ghost use Rattle.std.specs.Prelude.{◌≡◌, take};
ghost use Rattle.std.specs.List.{list_any};
ghost use Rattle.sva_open.specs.Order as order;

use sva_open::{Link, Message, Sent, before};

/// Whether it is sent by the endpoint.
pub(crate) fn goes_up(message: &Message) -> bool
    ensures { result ≡ order.goes_up message.now }
{
    match message {
        Message::Start { .. }
        | Message::Stop { .. }
        | Message::Reset
        | Message::Completion { .. }
        | Message::Invalidate { .. }
        | Message::Response { .. }
        | Message::Barrier(_) => false,
        Message::Request { .. }
        | Message::Invalidated { .. }
        | Message::PageRequest(_)
        | Message::Marker { .. }
        | Message::Status { .. }
        | Message::ResetDone
        | Message::Passed(_) => true,
    }
}

fn is_completion(message: &Message) -> bool
    ensures { result ≡ order.is_completion message.now }
{
    matches!(message, Message::Completion { .. })
}

fn is_page_request(message: &Message) -> bool
    ensures { result ≡ order.is_page_request message.now }
{
    matches!(message, Message::PageRequest(_))
}

fn is_posted(message: &Message) -> bool
    ensures { result ≡ order.is_posted message.now }
{
    !matches!(
        message,
        Message::Request { .. } | Message::Completion { .. }
    )
}

/// Whether a message doesn't overtake an older one, by the link's own rules.
fn stays_behind(message: &Message, older: &Message) -> bool
    ensures { result ≡ order.stays_behind message.now older.now }
{
    match message {
        Message::PageRequest(request) => request.last && is_page_request(older),
        Message::Marker { .. } => is_page_request(older),
        Message::Start { .. } => !goes_up(older) && !is_completion(older),
        Message::Stop { .. } => !goes_up(older) && !is_completion(older),
        Message::Barrier(_) => !goes_up(older) && !is_completion(older),
        Message::Reset => !goes_up(older) && !is_completion(older),
        Message::ResetDone => true,
        Message::Completion { .. }
        | Message::Invalidate { .. }
        | Message::Response { .. }
        | Message::Request { .. }
        | Message::Invalidated { .. }
        | Message::Status { .. }
        | Message::Passed(_) => false,
    }
}

fn is_same_way(one: &Message, other: &Message) -> bool
    ensures { result ≡ order.is_same_way one.now other.now }
{
    (goes_up(one) && goes_up(other)) || (!goes_up(one) && !goes_up(other))
}

/// Whether a message doesn't overtake an older one.
fn holds_back(link: Link, message: &Message, older: &Sent) -> bool
    ensures { result ≡ order.holds_back link message.now older.now }
{
    match link {
        Link::Free => stays_behind(message, &older.message),
        Link::Posted => stays_behind(message, &older.message)
            || (is_same_way(message, &older.message) && is_posted(&older.message)),
    }
}

/// Whether one of these holds a message back.
fn is_held_back(link: Link, message: &Message, older: &[Sent]) -> bool
    ensures { result ≡ list_any (order.holds_back link message.now) older.now }
{
    older.iter().any(|one| holds_back(link, message, one))
}

/// Whether the message at a place may be delivered.
pub(crate) fn may_deliver(link: Link, flight: &[Sent], place: usize, message: &Message) -> bool
    ensures { result ≡ order.may_deliver link flight.now place message.now }
{
    !is_held_back(link, message, before(flight, place))
}
