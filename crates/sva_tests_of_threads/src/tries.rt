//! One try of a line, with the tokens that it makes, moves or spends.

ghost use Rattle.std.specs.Prelude.{◌<◌, length, IfSome};

use crate::worlds::answered;
use std::process::Abort;
use std::sync::Wait;
use sva_fabric::{Fabric, Fault, Lease, Leaving, Ledgers, Moved, Port, Tokens, UseTicket};
use sva_step::Step;

/// One try of a line. Tells whether it was accepted. A line whose token isn't in hand isn't.
pub(crate) fn try_line<C: Ledgers, R: Wait + Abort>(
    rt: &R,
    fabric: &Fabric<C>,
    port: &mut Port<C>,
    tokens: &mut Tokens<C>,
    line: &Step,
) -> bool {
    if line.is_plain() {
        return answered(rt, fabric, port, line).is_ok();
    }
    let Tokens {
        leases,
        leavings,
        tickets,
    } = tokens;
    match line {
        Step::Bind { endpoint, space } => binds(rt, fabric, port, leases, *endpoint, *space),
        Step::Unbind { binding } => unbinds(rt, fabric, port, leases, leavings, *binding),
        Step::Advance { binding } => advances(rt, fabric, port, leavings, *binding),
        Step::BeginUse {
            endpoint,
            pasid,
            page,
            write,
        } => begins(rt, fabric, port, tickets, *endpoint, *pasid, *page, *write),
        Step::EndUse { endpoint, slot } => ends(rt, fabric, port, tickets, *endpoint, *slot),
        _ => false,
    }
}

/// A call made, moved or spent no token: it was refused.
fn refused<R: Abort>(rt: &R, fault: &Fault) -> bool {
    match fault {
        Fault::Refused { .. } => false,
        _ => panic!(rt; "it is answered"),
    }
}

/// The place of the lease of a binding.
fn lease_of<C: Ledgers>(leases: &[Lease<C>], binding: u64) -> Option<usize>
    ensures { IfSome result (λ place. place < length leases.now) }
{
    for place in 0..leases.len() {
        if leases[place].binding() == binding {
            return Some(place);
        }
    }
    None
}

/// The place of the leaving of a binding.
fn leaving_of<C: Ledgers>(leavings: &[Leaving<C>], binding: u64) -> Option<usize>
    ensures { IfSome result (λ place. place < length leavings.now) }
{
    for place in 0..leavings.len() {
        if leavings[place].binding() == binding {
            return Some(place);
        }
    }
    None
}

/// The place of the ticket of a use slot.
fn ticket_of<C: Ledgers>(tickets: &[UseTicket<C>], slot: u64) -> Option<usize>
    ensures { IfSome result (λ place. place < length tickets.now) }
{
    for place in 0..tickets.len() {
        if u64::from(tickets[place].slot()) == slot {
            return Some(place);
        }
    }
    None
}

fn binds<C: Ledgers, R: Wait + Abort>(
    rt: &R,
    fabric: &Fabric<C>,
    port: &mut Port<C>,
    leases: &mut Vec<Lease<C>>,
    endpoint: u64,
    space: u64,
) -> bool {
    assert!(rt; leases.reserve(1).is_ok());
    match fabric.bind(rt, port, endpoint, space) {
        Ok(lease) => {
            leases.push_reserved(lease);
            true
        }
        Err(fault) => refused(rt, &fault),
    }
}

fn unbinds<C: Ledgers, R: Wait + Abort>(
    rt: &R,
    fabric: &Fabric<C>,
    port: &mut Port<C>,
    leases: &mut Vec<Lease<C>>,
    leavings: &mut Vec<Leaving<C>>,
    binding: u64,
) -> bool {
    let Some(place) = lease_of(leases.as_slice(), binding) else {
        return false;
    };
    assert!(rt; leavings.reserve(1).is_ok());
    let lease = leases.swap_remove(place);
    match fabric.unbind(rt, port, lease) {
        Ok(leaving) => {
            leavings.push_reserved(leaving);
            true
        }
        Err((lease, fault)) => {
            leases.push_reserved(lease);
            refused(rt, &fault)
        }
    }
}

fn advances<C: Ledgers, R: Wait + Abort>(
    rt: &R,
    fabric: &Fabric<C>,
    port: &mut Port<C>,
    leavings: &mut Vec<Leaving<C>>,
    binding: u64,
) -> bool {
    let Some(place) = leaving_of(leavings.as_slice(), binding) else {
        return false;
    };
    let leaving = leavings.swap_remove(place);
    match fabric.advance(rt, port, leaving) {
        Ok(Moved::Again(leaving)) => {
            leavings.push_reserved(leaving);
            true
        }
        Ok(Moved::Gone) => true,
        Err((leaving, fault)) => {
            leavings.push_reserved(leaving);
            refused(rt, &fault)
        }
    }
}

fn begins<C: Ledgers, R: Wait + Abort>(
    rt: &R,
    fabric: &Fabric<C>,
    port: &mut Port<C>,
    tickets: &mut Vec<UseTicket<C>>,
    endpoint: u64,
    pasid: u64,
    page: u64,
    write: bool,
) -> bool {
    assert!(rt; tickets.reserve(1).is_ok());
    match fabric.begin(rt, port, endpoint, pasid, page, write) {
        Ok(ticket) => {
            tickets.push_reserved(ticket);
            true
        }
        Err(fault) => refused(rt, &fault),
    }
}

fn ends<C: Ledgers, R: Wait + Abort>(
    rt: &R,
    fabric: &Fabric<C>,
    port: &mut Port<C>,
    tickets: &mut Vec<UseTicket<C>>,
    endpoint: u64,
    slot: u64,
) -> bool {
    let Some(place) = ticket_of(tickets.as_slice(), slot) else {
        return false;
    };
    let ticket = tickets.swap_remove(place);
    assert!(rt; ticket.endpoint() == endpoint);
    match fabric.end(rt, port, ticket) {
        Ok(_) => true,
        Err((ticket, fault)) => {
            tickets.push_reserved(ticket);
            refused(rt, &fault)
        }
    }
}
