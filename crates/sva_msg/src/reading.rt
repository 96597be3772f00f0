//! What is read of the messages in flight beside one by its number.

ghost use Rattle.std.specs.Prelude.{◌≡◌, ◌≤◌, ◌^◌, length, slice_get};
ghost use Rattle.sva_msg.specs.Bag.{IsNumbered};

use crate::in_flight::Bag;
use crate::messages::Message;

impl Bag {
    /// The number that the next message gets, at most 2^63.
    pub fn next(&self) -> u64
        ensures next { result ≡ self.now.next }
        ensures most { result ≤ 2 ^ 63 }
    {
        self.next
    }

    /// How many messages are in flight.
    pub fn len(&self) -> usize
        ensures { result ≡ length self.now.messages }
    {
        self.messages.len()
    }

    /// The message at a place in the order of age, with its number: the oldest is at 0.
    pub fn at(&self, place: usize) -> Option<(u64, Message)>
        ensures { result ≡ slice_get self.now.messages place }
    {
        match self.messages.get_index(place) {
            Some((number, message)) => Some((*number, *message)),
            None => None,
        }
    }
}
