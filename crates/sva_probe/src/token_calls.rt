//! Steps on a shared world, with the tokens in hand.

ghost use Rattle.std.specs.Prelude.{◌<◌, length, IfSome};

use std::sync::Wait;
use sva_fabric::{
    Fabric, Fault, Lease, Leaving, Ledgers, Moved, Port, StepFault, Tokens, UseTicket,
};
use sva_step::{Answer, Refusal, Step};

/// What became of a call.
enum Call {
    /// It was answered or refused: the port's last receipt tells how.
    Told,
    /// Memory lacked, so nothing was asked.
    Lacked,
    /// Its token isn't in hand, so nothing was asked.
    NoToken,
    /// The port isn't of this world, or there is no place for the token.
    Astray,
}

/// Takes a step by its call: its answer or refusal, or none where the call went astray. It asks for no memory itself, so each want of memory
/// is the call's. Where its token isn't in hand it is told as of a binding that isn't there: want of memory left it unmade.
pub(crate) fn take<C: Ledgers, R: Wait>(
    fabric: &Fabric<C>,
    rt: &R,
    port: &mut Port<C>,
    tokens: &mut Tokens<C>,
    step: &Step,
) -> Option<Result<Answer, Refusal>> {
    match make_call(fabric, rt, port, tokens, step) {
        Call::Told => port.last().map(|receipt| receipt.answer),
        Call::Lacked => Some(Err(Refusal::OutOfMemory)),
        Call::NoToken => Some(Err(Refusal::NoSuchBinding)),
        Call::Astray => None,
    }
}

/// Makes the call of a step.
fn make_call<C: Ledgers, R: Wait>(
    fabric: &Fabric<C>,
    rt: &R,
    port: &mut Port<C>,
    tokens: &mut Tokens<C>,
    step: &Step,
) -> Call {
    if step.is_plain() {
        return match fabric.step(rt, port, step) {
            Ok(_) => Call::Told,
            Err(StepFault::Memory) => Call::Lacked,
            Err(StepFault::Strayed(_)) => Call::Astray,
        };
    }
    match step {
        Step::Bind { endpoint, space } => {
            bind(fabric, rt, port, &mut tokens.leases, *endpoint, *space)
        }
        Step::Unbind { binding } => unbind(fabric, rt, port, tokens, *binding),
        Step::Advance { binding } => advance(fabric, rt, port, &mut tokens.leavings, *binding),
        Step::BeginUse {
            endpoint,
            pasid,
            page,
            write,
        } => {
            let tickets = &mut tokens.tickets;
            begin(fabric, rt, port, tickets, *endpoint, *pasid, *page, *write)
        }
        Step::EndUse { endpoint, slot } => {
            end(fabric, rt, port, &mut tokens.tickets, *endpoint, *slot)
        }
        _ => Call::Astray,
    }
}

/// What became of a call that made, moved or spent no token.
fn call_after(fault: &Fault) -> Call {
    match fault {
        Fault::Refused { .. } => Call::Told,
        Fault::Memory => Call::Lacked,
        Fault::Strayed(_) => Call::Astray,
    }
}

/// Binds, and keeps the lease. Its place was reserved before the first step.
fn bind<C: Ledgers, R: Wait>(
    fabric: &Fabric<C>,
    rt: &R,
    port: &mut Port<C>,
    leases: &mut Vec<Lease<C>>,
    endpoint: u64,
    space: u64,
) -> Call {
    if leases.len() >= leases.capacity() {
        return Call::Astray;
    }
    match fabric.bind(rt, port, endpoint, space) {
        Ok(lease) => {
            leases.push_reserved(lease);
            Call::Told
        }
        Err(fault) => call_after(&fault),
    }
}

/// Begins to take a binding back, whose lease becomes a leaving. Its place was reserved before the first step.
fn unbind<C: Ledgers, R: Wait>(
    fabric: &Fabric<C>,
    rt: &R,
    port: &mut Port<C>,
    tokens: &mut Tokens<C>,
    binding: u64,
) -> Call {
    let Tokens {
        leases,
        leavings,
        ..
    } = tokens;
    let Some(place) = lease_of(leases.as_slice(), binding) else {
        return Call::NoToken;
    };
    if leavings.len() >= leavings.capacity() {
        return Call::Astray;
    }
    let lease = leases.swap_remove(place);
    match fabric.unbind(rt, port, lease) {
        Ok(leaving) => {
            leavings.push_reserved(leaving);
            Call::Told
        }
        Err((lease, fault)) => {
            leases.push_reserved(lease);
            call_after(&fault)
        }
    }
}

/// Moves a binding on.
fn advance<C: Ledgers, R: Wait>(
    fabric: &Fabric<C>,
    rt: &R,
    port: &mut Port<C>,
    leavings: &mut Vec<Leaving<C>>,
    binding: u64,
) -> Call {
    let Some(place) = leaving_of(leavings.as_slice(), binding) else {
        return Call::NoToken;
    };
    let leaving = leavings.swap_remove(place);
    match fabric.advance(rt, port, leaving) {
        Ok(Moved::Again(leaving)) => {
            leavings.push_reserved(leaving);
            Call::Told
        }
        Ok(Moved::Gone) => Call::Told,
        Err((leaving, fault)) => {
            leavings.push_reserved(leaving);
            call_after(&fault)
        }
    }
}

/// Begins a use, and keeps its ticket. Its place was reserved before the first step.
fn begin<C: Ledgers, R: Wait>(
    fabric: &Fabric<C>,
    rt: &R,
    port: &mut Port<C>,
    tickets: &mut Vec<UseTicket<C>>,
    endpoint: u64,
    pasid: u64,
    page: u64,
    write: bool,
) -> Call {
    if tickets.len() >= tickets.capacity() {
        return Call::Astray;
    }
    match fabric.begin(rt, port, endpoint, pasid, page, write) {
        Ok(ticket) => {
            tickets.push_reserved(ticket);
            Call::Told
        }
        Err(fault) => call_after(&fault),
    }
}

/// Ends a use.
fn end<C: Ledgers, R: Wait>(
    fabric: &Fabric<C>,
    rt: &R,
    port: &mut Port<C>,
    tickets: &mut Vec<UseTicket<C>>,
    endpoint: u64,
    slot: u64,
) -> Call {
    let Some(place) = ticket_of(tickets.as_slice(), endpoint, slot) else {
        return Call::NoToken;
    };
    let ticket = tickets.swap_remove(place);
    match fabric.end(rt, port, ticket) {
        Ok(_) => Call::Told,
        Err((ticket, fault)) => {
            tickets.push_reserved(ticket);
            call_after(&fault)
        }
    }
}

/// The place of the lease of a binding.
fn lease_of<C: Ledgers>(leases: &[Lease<C>], binding: u64) -> Option<usize>
    ensures { IfSome result (λ place. place < length leases.now) }
{
    for place in 0..leases.len() {
        if leases[place].binding() == binding {
            return Some(place);
        }
    }
    None
}

/// The place of the leaving of a binding.
fn leaving_of<C: Ledgers>(leavings: &[Leaving<C>], binding: u64) -> Option<usize>
    ensures { IfSome result (λ place. place < length leavings.now) }
{
    for place in 0..leavings.len() {
        if leavings[place].binding() == binding {
            return Some(place);
        }
    }
    None
}

/// The place of the ticket of a use slot.
fn ticket_of<C: Ledgers>(tickets: &[UseTicket<C>], endpoint: u64, slot: u64) -> Option<usize>
    ensures { IfSome result (λ place. place < length tickets.now) }
{
    for place in 0..tickets.len() {
        let ticket = &tickets[place];
        if ticket.endpoint() == endpoint && u64::from(ticket.slot()) == slot {
            return Some(place);
        }
    }
    None
}
