//! The calls of all ports, and the parts of tokens, put together again.

ghost use Rattle.std.specs.Prelude.{◌≡◌, ◌+◌, length};
ghost use Rattle.sva_fabric.specs.Audits.{states_of, calls_of, held_by, used_by};

use crate::port::Port;
use crate::ports::Ports;
use crate::tokens::{Lease, Leaving, Tokens, UseTicket};
use std::sync::ledger::Share;
use sva_core::{Bindings, Ledgers, Uses};

/// One share that counts the calls of all ports.
#[tactic(auto, using(crate::proofs::Sums::length_both, crate::proofs::Sums::calls_append))]
pub(crate) fn gather<C: Ledgers>(ports: Ports<C>) -> Share<C>
    ensures parts { result.parts ≡ length (states_of ports) }
    ensures amount { result.amount ≡ calls_of (states_of ports) }
{
    let Ports {
        host,
        link,
        service,
        endpoints,
        workers,
    } = ports;
    let mut all = host.into_calls();
    all.merge(link.into_calls());
    all.merge(service.into_calls());
    gather_row(&mut all, endpoints);
    gather_row(&mut all, workers);
    all
}

/// Adds the shares of several ports.
#[tactic(auto, using(crate::proofs::Sums::length_both, crate::proofs::Sums::calls_append))]
fn gather_row<C: Ledgers>(all: &mut Share<C>, ports: Vec<Port<C>>)
    ensures parts { all.new.parts ≡ all.old.parts + length ports.items }
    ensures amount { all.new.amount ≡ all.old.amount + calls_of ports.items }
{
    let mut ports = ports;
    while let Some(port) = ports.pop() {
        all.merge(port.into_calls());
    }
}

/// Spends tokens: their parts are gathered in two shares.
pub(crate) fn gather_tokens<C: Ledgers>(
    held: &mut Share<Bindings<C>>,
    used: &mut Share<Uses<C>>,
    tokens: Tokens<C>,
)
    ensures held { held.new.amount ≡ held.old.amount + held_by tokens }
    ensures used { used.new.amount ≡ used.old.amount + used_by tokens }
{
    let Tokens {
        leases,
        leavings,
        tickets,
    } = tokens;
    gather_leases(held, leases);
    gather_leavings(held, leavings);
    gather_tickets(used, tickets);
}

fn gather_leases<C: Ledgers>(held: &mut Share<Bindings<C>>, leases: Vec<Lease<C>>)
    ensures { held.new.amount ≡ held.old.amount + length leases.items }
{
    let mut leases = leases;
    while let Some(lease) = leases.pop() {
        let Lease {
            binding: _,
            pasid: _,
            part,
        } = lease;
        part.gather(held);
    }
    leases.destroy_empty();
}

fn gather_leavings<C: Ledgers>(held: &mut Share<Bindings<C>>, leavings: Vec<Leaving<C>>)
    ensures { held.new.amount ≡ held.old.amount + length leavings.items }
{
    let mut leavings = leavings;
    while let Some(leaving) = leavings.pop() {
        let Leaving { binding: _, part } = leaving;
        part.gather(held);
    }
    leavings.destroy_empty();
}

fn gather_tickets<C: Ledgers>(used: &mut Share<Uses<C>>, tickets: Vec<UseTicket<C>>)
    ensures { used.new.amount ≡ used.old.amount + length tickets.items }
{
    let mut tickets = tickets;
    while let Some(ticket) = tickets.pop() {
        let UseTicket {
            endpoint: _,
            slot: _,
            frame: _,
            part,
        } = ticket;
        part.gather(used);
    }
    tickets.destroy_empty();
}
