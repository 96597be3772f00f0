//! What is read of the messages in flight, and the parts.

ghost use Rattle.std.specs.Prelude.{◌≡◌, ◌==◌, ◌≤◌, ◌^◌, find, length, option_map, slice_get};
ghost use Rattle.sva_parts_by_labels.specs.Flights.{flight_at, flight_seen};
ghost use Rattle.sva_host.specs.Seen.{with_job_table};

use crate::host::Host;
use sva_host_state::HostState;
use sva_msg::Message;
use sva_prq::JobTable;

impl Host {
    /// What is kept but for the jobs, the table of jobs, and how many workers there are: at most 4.
    pub fn parts(&self) -> (&HostState, &JobTable, u64)
        ensures whole { with_job_table result.2 result.1.now result.0.now ≡ self.now }
        ensures most { result.2 ≤ 4 }
    {
        (&self.state, &self.job_table, self.workers)
    }

    /// The number that the next message gets, at most 2^63.
    pub fn next_message(&self) -> u64
        ensures next { result ≡ self.now.next_message }
        ensures most { result ≤ 2 ^ 63 }
    {
        self.state.in_flight.next()
    }

    /// How many messages are in flight.
    pub fn messages(&self) -> usize
        ensures { result ≡ length self.now.in_flight }
    {
        self.state.in_flight.len()
    }

    /// The message in flight at a place in the order of age, with its number: the oldest is at 0.
    pub fn message(&self, place: usize) -> Option<(u64, Message)>
        ensures { option_map flight_seen result ≡ slice_get self.now.in_flight place }
    {
        self.state.in_flight.at(place)
    }

    /// The message in flight with this number.
    pub fn message_of(&self, number: u64) -> Option<Message>
        ensures { flight_at number result ≡ find (λ flight. flight.number == number) self.now.in_flight }
    {
        self.state.in_flight.get(number)
    }
}
