//! The messages in flight between a host and its endpoints, and which of them the link may deliver.
ghost use Rattle.std.specs.Prelude.{◌≡◌, ◌+◌, ◌-◌, ◌<◌, ◌≤◌, ◌^◌, ◌↔◌, [], ◌∷◌, ◌++◌, nat_eq, take, length, IsTrue, IfOk, IfSome, OnOk, OnErr, Some, None};
ghost use Rattle.std.specs.Prelude.{option_map};
ghost use Rattle.std.specs.List.{list_any};
ghost use Rattle.indexmap.specs.IndexMap.{get, spare};
ghost use Rattle.sva_msg.specs.Bag.{InFlight, IsNumbered, MayDeliver, opened, message_at, must_follow, with_sent, without};
ghost use Rattle.sva_msg.specs.Flight.{IsIn, IsAt};
ghost use Rattle.sva_msg.specs.Laws.{Always, GivesNumbersOnce, LosesNone, KeepsOrder, NeverStops};

use crate::messages::Message;
use indexmap::IndexMap;
use std::alloc::{AllocError, Global};
use std::marker::Model;
use sva_step::NUMBERS;

/// A message in flight, as it was found in its bag.
#[derive(Clone, Copy)]
pub struct Flight {
    /// Its number.
    pub number: u64,
    /// Its place among the messages in flight: how many older ones there are.
    pub place: usize,
    /// The message.
    pub message: Message,
}

/// The messages in flight, each under its number, in order of age.
///
/// Numbers are given in the order of sending, so a smaller one is older. They lie below 2^63, and none is given twice.
#[derive(Drop)]
pub struct Bag {
    pub(crate) messages: IndexMap<u64, Message>,
    pub(crate) next: u64,
}

impl Model for Bag {
    ghost use Rattle.sva_msg.specs.Bag.{InFlight, IsNumbered};

    ghost Value = { InFlight };

    ghost view = { λ b. record { messages = b.messages.entries; next = b.next } };

    ghost invariant = { λ b. IsNumbered (record { messages = b.messages.entries; next = b.next }) };
}

impl Bag {
    /// No messages. The first that is sent will have the number `first`, at most 2^63.
    pub fn new(alloc: Global, first: u64) -> Self
        requires { first ≤ 2 ^ 63 }
        ensures { result ≡ opened first }
    {
        Bag {
            messages: IndexMap::new(alloc),
            next: first,
        }
    }

    /// How many numbers are left below 2^63.
    pub fn left(&self) -> u64
        ensures left { result ≡ 2 ^ 63 - self.now.next }
        ensures numbered { IsNumbered self.now }
    {
        NUMBERS - self.next
    }

    /// Sends `copies` copies of a message, 1 to 8, and gives the number of the first; the numbers of the others follow it.
    /// `left` tells whether so many numbers are left. Where memory is refused, nothing is sent and the bag is as before.
    pub fn send(&mut self, message: Message, copies: u64) -> Result<u64, AllocError>
        requires at_least_one { 1 ≤ copies }
        requires at_most_eight { copies ≤ 8 }
        requires left { self.old.next + copies ≤ 2 ^ 63 }
        ensures first { IfOk result (λ first. first ≡ self.old.next) }
        ensures sent { OnOk result (self.new ≡ with_sent self.old message copies) }
        ensures err { OnErr result (self.new ≡ self.old) }
    {
        self.messages.reserve(copies as usize)?;
        let first = self.next;
        for number in first..first + copies {
            insert_reserved(&mut self.messages, number, &message);
        }
        self.next = first + copies;
        Ok(first)
    }

    /// The message in flight with this number.
    pub fn get(&self, number: u64) -> Option<Message>
        ensures message { result ≡ message_at self.now number }
        ensures numbered { IsNumbered self.now }
    {
        self.messages.get(&number).copied()
    }

    /// The message in flight with this number, and its place among those in flight.
    pub fn find(&self, number: u64) -> Option<Flight>
        ensures message { option_map (λ flight. flight.message) result ≡ message_at self.now number }
        ensures found { IfSome result (λ flight. (flight.number ≡ number) × IsIn self.now flight) }
        ensures numbered { IsNumbered self.now }
    {
        let Some((place, _number, message)) = self.messages.get_full(&number) else {
            return None;
        };
        Some(Flight {
            number,
            place,
            message: *message,
        })
    }

    /// Whether the message with this number is in flight and may be delivered now.
    ///
    /// Of the older messages in flight of its endpoint, a page request with L and a marker overtake no page request; a
    /// start, a stop and a reset overtake, of those to the endpoint, a translation completion alone; a reset-done
    /// overtakes none. Nothing else is ordered. These are this project's own rules, in place of the ordering rules of
    /// PCI Express Base 5.0, section 2.4.
    pub fn may_deliver(&self, number: u64) -> bool
        ensures { IsTrue result ↔ MayDeliver self.now number }
    {
        let Some(flight) = self.find(number) else {
            return false;
        };
        self.may_deliver_found(&flight)
    }

    /// The same of a message that was found, and stands there still.
    pub fn may_deliver_found(&self, flight: &Flight) -> bool
        requires { IsIn self.now flight.now }
        ensures { IsTrue result ↔ MayDeliver self.now flight.now.number }
    {
        // Most kinds may overtake any message, and then none is looked at.
        if !flight.message.kind.is_ordered() {
            return true;
        }
        !self.overtakes(flight)
    }

    /// Whether the message would overtake an older one, which stands ahead of it, that it must not overtake.
    fn overtakes(&self, flight: &Flight) -> bool
        requires { flight.now.place ≤ length self.now.messages }
        ensures ahead { result ≡ list_any (λ e. must_follow flight.now.message e.1) (take flight.now.place self.now.messages) }
        ensures numbered { IsNumbered self.now }
    {
        let Some(older) = self.messages.get_range(..flight.place) else {
            unreachable!()
        };
        older
            .iter()
            .any(|(_, other)| flight.message.must_follow(other))
    }

    /// Takes out the message with this number, and keeps the order of the others. `may_deliver` is the test.
    pub fn deliver(&mut self, number: u64) -> Message
        requires { MayDeliver self.old number }
        ensures message { message_at self.old number ≡ Some result }
        ensures taken { self.new ≡ without self.old number }
    {
        let Some(flight) = self.find(number) else {
            unreachable!()
        };
        self.deliver_found(&flight);
        flight.message
    }

    /// Takes out a message that was found, and stands there still. `may_deliver_found` is the test.
    pub fn deliver_found(&mut self, flight: &Flight)
        requires stands { IsAt self.old flight.now }
        requires may { MayDeliver self.old flight.now.number }
        ensures { self.new ≡ without self.old flight.now.number }
    {
        self.messages.shift_remove_index(flight.place);
    }
}

/// Puts a message with a new number last, where room is reserved for it.
fn insert_reserved(messages: &mut IndexMap<u64, Message>, number: u64, message: &Message)
    requires new { get nat_eq messages.old number ≡ None }
    requires room { 0 < spare messages.old }
    ensures entries { messages.new.entries ≡ messages.old.entries ++ (number, message.now) ∷ [] }
    ensures room { spare messages.old ≤ spare messages.new + 1 }
{
    let Ok(None) = messages.insert(number, *message) else {
        unreachable!()
    };
}

/// What holds of a bag after every list of its calls, each of which meets its condition.
///
/// The numbers given rise strictly from the first and lie below 2^63, so none is given twice. Each message that was sent
/// was delivered or is in flight, once and not both, and there is no other. None was delivered before an older one that
/// it must not overtake. The oldest message in flight may always be delivered.
pub fn laws()
    ensures numbers { Always GivesNumbersOnce }
    ensures none_lost { Always LosesNone }
    ensures order { Always KeepsOrder }
    ensures never_stops { Always NeverStops }
{}
