//! The messages in flight.

ghost use Rattle.std.specs.Prelude.{◌≡◌, ◌++◌, OnOk, flat_map, map};
ghost use Rattle.sva_lines.specs.Listing.{message_lines};
ghost use Rattle.sva_lines.specs.Messages.{message_line, standing_text};
ghost use Rattle.sva_snapshot.specs.Shown.{flight_shown};

use crate::kinds::put_kind;
use crate::pieces::{end_line, put_field, put_head, put_word};
use std::alloc::AllocError;
use sva_snapshot::{Flight, Snapshot, held_back_by};

/// Appends whether a message may be delivered, or what holds it back.
fn put_standing(out: &mut Vec<u8>, snapshot: &Snapshot, flight: &Flight) -> Result<(), AllocError>
    ensures { OnOk result (out.new.items ≡ out.old.items ++ standing_text snapshot.now (flight_shown flight.now)) }
{
    match held_back_by(flight, snapshot.in_flight.as_slice()) {
        None => put_word(out, ", may be delivered"),
        Some(older) => put_field(out, ", behind ", older),
    }
}

/// Appends the line of a message.
fn put_message(out: &mut Vec<u8>, snapshot: &Snapshot, flight: &Flight) -> Result<(), AllocError>
    ensures { OnOk result (out.new.items ≡ out.old.items ++ message_line snapshot.now (flight_shown flight.now)) }
{
    put_head(out, "message ", flight.number)?;
    put_field(out, " endpoint ", flight.message.endpoint)?;
    put_kind(out, &flight.message.kind)?;
    put_standing(out, snapshot, flight)?;
    end_line(out)
}

/// Appends the lines of some of the messages.
fn put_flights(out: &mut Vec<u8>, snapshot: &Snapshot, flights: &[Flight]) -> Result<(), AllocError>
    ensures { OnOk result (out.new.items ≡ out.old.items
        ++ flat_map (message_line snapshot.now) (map flight_shown flights.now)) }
{
    for flight in flights {
        put_message(out, snapshot, flight)?;
    }
    Ok(())
}

/// Appends the lines of the messages in flight, the oldest first.
pub(crate) fn put_messages(out: &mut Vec<u8>, snapshot: &Snapshot) -> Result<(), AllocError>
    ensures { OnOk result (out.new.items ≡ out.old.items ++ message_lines snapshot.now) }
{
    put_flights(out, snapshot, snapshot.in_flight.as_slice())
}
