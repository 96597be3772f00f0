//! Messages by their kinds and their age.

ghost use Rattle.std.specs.Prelude.{◌≡◌, ℕ, Some};
ghost use Rattle.sva_parts_by_labels.specs.Flights.{kind_seen, flight_seen};
ghost use Rattle.sva_script_reading.specs.Messages.{is_of, kind_word, link_of, newest, oldest, oldest_of};

use sva_core::World;
use sva_msg::{Kind, Message};

/// The word for a kind of message.
pub fn kind_name(kind: &Kind) -> &'static str
    ensures { result.now ≡ kind_word (kind_seen kind.now) }
{
    match kind {
        Kind::Start { .. } => "start",
        Kind::Stop { .. } => "stop",
        Kind::Reset => "reset",
        Kind::Completion { .. } => "completion",
        Kind::Invalidate { .. } => "invalidate",
        Kind::Response { .. } => "response",
        Kind::Request { .. } => "request",
        Kind::Invalidated { .. } => "invalidated",
        Kind::PageRequest(_) => "page-request",
        Kind::Marker { .. } => "marker",
        Kind::ResetDone => "reset-done",
    }
}

/// Is the message of this kind and of this endpoint?
fn is_of(message: &Message, kind: &[u8], endpoint: u64) -> bool
    ensures { (number : ℕ) → result ≡ is_of kind.now endpoint (flight_seen (number, message.now)) }
{
    message.endpoint == endpoint && kind_name(&message.kind).as_bytes() == kind
}

/// The number of the oldest message in flight of a kind and an endpoint; where there is none, the number that the next
/// message gets, which no message in flight has.
pub(crate) fn oldest_of(world: &World, kind: &[u8], endpoint: u64) -> u64
    ensures { result ≡ oldest_of (link_of (Some world.now)) kind.now endpoint }
{
    for place in 0..world.messages() {
        if let Some((number, message)) = world.message(place) {
            if is_of(&message, kind, endpoint) {
                return number;
            }
        }
    }
    world.next_message()
}

/// The number of the oldest message in flight; where there is none, the number that the next message gets.
pub(crate) fn oldest(world: &World) -> u64
    ensures { result ≡ oldest (link_of (Some world.now)) }
{
    match world.message(0) {
        Some((number, _)) => number,
        None => world.next_message(),
    }
}

/// The number of the newest message in flight; where there is none, the number that the next message gets.
pub(crate) fn newest(world: &World) -> u64
    ensures { result ≡ newest (link_of (Some world.now)) }
{
    match world.message(world.messages().saturating_sub(1)) {
        Some((number, _)) => number,
        None => world.next_message(),
    }
}
