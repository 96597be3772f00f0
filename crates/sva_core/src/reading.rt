//! What is read of the messages in flight, and the host.

ghost use Rattle.std.specs.Prelude.{◌≡◌, ◌==◌, ◌≤◌, ◌^◌, find, length, option_map, slice_get};
ghost use Rattle.sva_host.specs.Flights.{flight_at, flight_seen};

use crate::world::World;
use sva_host::Host;
use sva_msg::Message;

impl World {
    /// The host with all that it keeps.
    pub fn host(&self) -> &Host
        ensures { result.now ≡ self.now }
    {
        &self.host
    }

    /// The number that the next message gets, at most 2^63.
    pub fn next_message(&self) -> u64
        ensures next { result ≡ self.now.next_message }
        ensures most { result ≤ 2 ^ 63 }
    {
        self.host.next_message()
    }

    /// How many messages are in flight.
    pub fn messages(&self) -> usize
        ensures { result ≡ length self.now.in_flight }
    {
        self.host.messages()
    }

    /// The message in flight at a place in the order of age, with its number: the oldest is at 0.
    pub fn message(&self, place: usize) -> Option<(u64, Message)>
        ensures { option_map flight_seen result ≡ slice_get self.now.in_flight place }
    {
        self.host.message(place)
    }

    /// The message in flight with this number.
    pub fn message_of(&self, number: u64) -> Option<Message>
        ensures { flight_at number result ≡ find (λ flight. flight.number == number) self.now.in_flight }
    {
        self.host.message_of(number)
    }
}
