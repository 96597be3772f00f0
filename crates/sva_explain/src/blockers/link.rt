//! The messages in flight that hold something back.

ghost use Rattle.std.specs.Prelude.{◌≡◌, ◌++◌, OnOk, flat_map, map};
ghost use Rattle.sva_labels.specs.Finding.{holds_back};
ghost use Rattle.sva_parts_by_labels.specs.Flights.{kind_seen};
ghost use Rattle.sva_snapshot.specs.Shown.{flight_shown};
ghost use Rattle.sva_explain.specs.Link.{about_if, about_lines, is_about, link_text, message_line, older_if};
ghost use Rattle.sva_explain.specs.Link.{older_lines};

use crate::blockers::levels::{Level, put_bracket, put_indent};
use crate::enabled::{can_deliver, is_set};
use std::alloc::AllocError;
use sva_lines::{end_line, put_field, put_kind, put_word};
use sva_snapshot::{Flight, Kind, Snapshot, held_back_by, holds_back};

/// What a message may be about.
#[derive(Clone, Copy, PartialEq, Eq)]
pub enum Topic {
    /// The start of a PASID.
    Start(u64),
    /// The stop of a PASID.
    Stop(u64),
    /// The marker of a PASID.
    Marker(u64),
    /// A reset, or its end.
    Reset,
    /// An invalidation, by its ITag.
    Itag(u64),
    /// A translation request, by its tag.
    Tag(u64),
    /// The page requests of a group, by its index.
    Asks(u64),
    /// The response to a group, by its index.
    Responds(u64),
}

/// Is a message about it?
fn is_about(topic: Topic, kind: &Kind) -> bool
    ensures { result ≡ is_about topic (kind_seen kind.now) }
{
    match (topic, kind) {
        (Topic::Start(pasid), Kind::Start { pasid: of }) => u64::from(*of) == pasid,
        (Topic::Stop(pasid), Kind::Stop { pasid: of }) => u64::from(*of) == pasid,
        (Topic::Marker(pasid), Kind::Marker { pasid: of }) => u64::from(*of) == pasid,
        (Topic::Reset, Kind::Reset) => true,
        (Topic::Reset, Kind::ResetDone) => true,
        (Topic::Itag(itag), Kind::Invalidate { itag: of, .. }) => u64::from(*of) == itag,
        (Topic::Itag(itag), Kind::Invalidated { vector, .. }) => is_set(*vector, itag),
        (Topic::Tag(tag), Kind::Request { tag: of, .. }) => u64::from(*of) == tag,
        (Topic::Tag(tag), Kind::Completion { tag: of, .. }) => u64::from(*of) == tag,
        (Topic::Asks(index), Kind::PageRequest(request)) => u64::from(request.index) == index,
        (Topic::Responds(index), Kind::Response { index: of, .. }) => u64::from(*of) == index,
        _ => false,
    }
}

/// Appends the delivery in brackets, or which message holds it back.
fn put_link(out: &mut Vec<u8>, snapshot: &Snapshot, flight: &Flight) -> Result<(), AllocError>
    ensures { OnOk result (out.new.items ≡ out.old.items ++ link_text snapshot.now (flight_shown flight.now)) }
{
    if can_deliver(snapshot, flight.number) {
        return put_bracket(out, true, " [deliver ", flight.number);
    }
    match held_back_by(flight, snapshot.in_flight.as_slice()) {
        None => Ok(()),
        Some(older) => put_field(out, ", behind ", older),
    }
}

/// Appends the line of a message.
fn put_message(
    out: &mut Vec<u8>,
    level: Level,
    stands: &str,
    snapshot: &Snapshot,
    flight: &Flight,
) -> Result<(), AllocError>
    ensures { OnOk result (out.new.items ≡ out.old.items
        ++ message_line level stands.now snapshot.now (flight_shown flight.now)) }
{
    put_indent(out, level)?;
    put_field(out, "message ", flight.number)?;
    put_word(out, stands)?;
    put_kind(out, &flight.message.kind)?;
    put_link(out, snapshot, flight)?;
    end_line(out)
}

/// Appends the line of a message, if it is one of the endpoint, and about that.
fn put_about_if(
    out: &mut Vec<u8>,
    level: Level,
    snapshot: &Snapshot,
    endpoint: u64,
    topic: Topic,
    flight: &Flight,
) -> Result<(), AllocError>
    ensures { OnOk result (out.new.items ≡ out.old.items
        ++ about_if level snapshot.now endpoint topic (flight_shown flight.now)) }
{
    if flight.message.endpoint == endpoint && is_about(topic, &flight.message.kind) {
        put_message(out, level, " is in flight:", snapshot, flight)
    } else {
        Ok(())
    }
}

/// Appends the lines of those of some messages that are of the endpoint, and about that.
fn put_about_among(
    out: &mut Vec<u8>,
    level: Level,
    snapshot: &Snapshot,
    endpoint: u64,
    topic: Topic,
    flights: &[Flight],
) -> Result<(), AllocError>
    ensures { OnOk result (out.new.items ≡ out.old.items
        ++ flat_map (about_if level snapshot.now endpoint topic) (map flight_shown flights.now)) }
{
    for flight in flights {
        put_about_if(out, level, snapshot, endpoint, topic, flight)?;
    }
    Ok(())
}

/// Appends the lines of the messages of an endpoint that are about something.
pub fn put_about(
    out: &mut Vec<u8>,
    level: Level,
    snapshot: &Snapshot,
    endpoint: u64,
    topic: Topic,
) -> Result<(), AllocError>
    ensures { OnOk result (out.new.items ≡ out.old.items ++ about_lines level snapshot.now endpoint topic) }
{
    let flights = snapshot.in_flight.as_slice();
    put_about_among(out, level, snapshot, endpoint, topic, flights)
}

/// Appends the line of a message, if it holds another back.
fn put_older_if(
    out: &mut Vec<u8>,
    snapshot: &Snapshot,
    flight: &Flight,
    older: &Flight,
) -> Result<(), AllocError>
    ensures { OnOk result (out.new.items ≡ out.old.items
        ++ older_if snapshot.now (flight_shown flight.now) (flight_shown older.now)) }
{
    if holds_back(flight, older) {
        put_message(out, Level::First, " is older:", snapshot, older)
    } else {
        Ok(())
    }
}

/// Appends the lines of those of some messages that hold a message back.
fn put_older_among(
    out: &mut Vec<u8>,
    snapshot: &Snapshot,
    flight: &Flight,
    flights: &[Flight],
) -> Result<(), AllocError>
    ensures { OnOk result (out.new.items ≡ out.old.items
        ++ flat_map (older_if snapshot.now (flight_shown flight.now)) (map flight_shown flights.now)) }
{
    for older in flights {
        put_older_if(out, snapshot, flight, older)?;
    }
    Ok(())
}

/// Appends the lines of the messages that hold a message back.
pub fn put_older(out: &mut Vec<u8>, snapshot: &Snapshot, flight: &Flight) -> Result<(), AllocError>
    ensures { OnOk result (out.new.items ≡ out.old.items ++ older_lines snapshot.now (flight_shown flight.now)) }
{
    put_older_among(out, snapshot, flight, snapshot.in_flight.as_slice())
}
