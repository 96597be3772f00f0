//! The messages in flight.

ghost use Rattle.std.specs.Prelude.{◌≡◌, IfOk, map};
ghost use Rattle.sva_parts_by_labels.specs.Flights.{flights_seen};
ghost use Rattle.sva_snapshot.specs.Shown.{flight_shown};

use std::alloc::{AllocError, Global};
use sva_msg::{Bag, Message};

/// A message in flight.
#[derive(Clone, Copy, PartialEq, Eq)]
pub struct Flight {
    /// Its number.
    pub number: u64,
    /// The message as it was sent.
    pub message: Message,
}

/// The messages in flight, the oldest first.
pub(crate) fn flights_of(alloc: Global, bag: &Bag) -> Result<Vec<Flight>, AllocError>
    ensures { IfOk result (λ flights. map flight_shown flights.items ≡ flights_seen bag.now) }
{
    let mut flights = Vec::new(alloc);
    for place in 0..bag.len() {
        let Some((number, message)) = bag.at(place) else {
            unreachable!();
        };
        flights.push(Flight { number, message })?;
    }
    Ok(flights)
}
