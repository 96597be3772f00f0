//! The tickets that an endpoint's thread has in hand.

ghost use Rattle.std.specs.Prelude.{◌≡◌, ◌+◌, ◌<◌, ◌≤◌, [], length, slice_get, vec_len, vec_capacity, is_some, IfSome};
ghost use Rattle.sva_fabric.specs.LoopTokens.{has_ticket};

use crate::tokens::UseTicket;
use std::alloc::Global;
use sva_core::Ledgers;
use sva_step::USE_SLOTS;

/// How many tickets are in hand at most: as many as an endpoint has use slots.
pub const MOST_TICKETS: usize = USE_SLOTS;

/// The place of the ticket of a use slot.
pub(crate) fn place_of<C: Ledgers>(
    tickets: &[UseTicket<C>],
    endpoint: u64,
    slot: u64,
) -> Option<usize>
    ensures is_there { is_some result ≡ has_ticket endpoint slot tickets.now }
    ensures place { IfSome result (λ place. (place < length tickets.now)
        × IfSome (slice_get tickets.now place) (λ ticket. (ticket.endpoint ≡ endpoint) × (ticket.slot ≡ slot))) }
{
    for place in 0..tickets.len() {
        let ticket = &tickets[place];
        if ticket.endpoint() == endpoint && u64::from(ticket.slot()) == slot {
            return Some(place);
        }
    }
    None
}

/// The tickets of a loop: at most 16.
pub struct Tickets<C: Ledgers> {
    pub tickets: Vec<UseTicket<C>>,
    ghost few: { vec_len tickets ≤ 16 },
}

impl<C: Ledgers> Tickets<C> {
    /// None yet. Their places are reserved by whoever plays with them.
    pub fn new(alloc: Global) -> Tickets<C>
        ensures { result.tickets.items ≡ [] }
    {
        Tickets {
            tickets: Vec::new(alloc),
        }
    }
}

/// Puts some tickets to others, for which there is room.
pub(crate) fn append<C: Ledgers>(from: Vec<UseTicket<C>>, into: &mut Vec<UseTicket<C>>)
    requires { vec_len into.old + vec_len from ≤ vec_capacity into.old }
    ensures len { vec_len into.new ≡ vec_len into.old + vec_len from }
    ensures capacity { vec_capacity into.new ≡ vec_capacity into.old }
{
    let mut from = from;
    while let Some(ticket) = from.pop() {
        into.push_reserved(ticket);
    }
    from.destroy_empty();
}

/// Puts the tickets of a loop to others, for which there is room.
pub fn append_tickets<C: Ledgers>(tickets: Tickets<C>, into: &mut Vec<UseTicket<C>>)
    requires { vec_len into.old + 16 ≤ vec_capacity into.old }
    ensures len { vec_len into.new ≤ vec_len into.old + 16 }
    ensures capacity { vec_capacity into.new ≡ vec_capacity into.old }
{
    let Tickets { tickets } = tickets;
    append(tickets, into);
}
