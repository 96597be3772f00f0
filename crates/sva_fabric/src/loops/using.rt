//! The loop of an endpoint.

ghost use Rattle.std.specs.Prelude.{◌≡◌, ◌-◌, ◌≤◌, [], vec_len, vec_capacity};
ghost use Rattle.sva_step.specs.declared.steps.Step.TheVariants as step;
ghost use Rattle.sva_fabric.specs.LoopTokens.{tokens_of_tickets};
ghost use Rattle.sva_fabric.specs.Plays.{HasPlayed, IsTurn, turn_by, turn_after_fault};

use crate::fabric::Fabric;
use crate::faults::Fault;
use crate::loops::callbacks::Device;
use crate::loops::endings::{Ended, Spent, Turn};
use crate::loops::spending::spend;
use crate::loops::tickets::{MOST_TICKETS, place_of};
use crate::port::Port;
use crate::tokens::UseTicket;
use std::alloc::Global;
use std::sync::Wait;
use std::thread::yield_now;
use sva_core::{Ledgers, Receipt, StepFault};
use sva_step::Step;

/// Plays the lines of a script in their order, each until it is accepted, in as many turns as are given. A use that begins is touched by
/// the device, and its ticket is kept until its line ends it: 16 at most, whose places are reserved before the first turn. With 16 in
/// hand the line of a use is passed over in a turn without a call, and so is a line whose ticket isn't in hand, or that binds, unbinds or advances:
/// that changes nothing, so it is passed over until no turn is left. Want of memory ends the loop, and so does a port whose last receipt doesn't stand.
/// A turn in which nothing was accepted lets other threads run.
pub fn endpoint_loop<C: Ledgers, R: Wait, D: Device>(
    fabric: &Fabric<C>,
    rt: &R,
    alloc: Global,
    port: &mut Port<C>,
    device: &mut D,
    script: &[Step],
    turns: u64,
) -> Ended<C>
    ensures played { HasPlayed C.config script.now (turns - result.turns_left) result.turns_left result.out_of_memory port.old port.new
        (tokens_of_tickets []) (tokens_of_tickets result.tickets.items) }
    ensures turns { result.turns_left ≤ turns }
    ensures few { vec_len result.tickets ≤ 16 }
{
    let mut tickets = Vec::new(alloc);
    let Spent {
        turns_left,
        out_of_memory,
    } = play(fabric, rt, port, device, script, turns, &mut tickets);
    Ended {
        turns_left,
        out_of_memory,
        tickets,
    }
}

/// Plays the lines with the tickets in hand.
pub fn play<C: Ledgers, R: Wait, D: Device>(
    fabric: &Fabric<C>,
    rt: &R,
    port: &mut Port<C>,
    device: &mut D,
    script: &[Step],
    turns: u64,
    tickets: &mut Vec<UseTicket<C>>,
) -> Spent
    requires { vec_len tickets.old ≤ 16 }
    ensures played { HasPlayed C.config script.now (turns - result.turns_left) result.turns_left result.out_of_memory port.old port.new
        (tokens_of_tickets tickets.old.items) (tokens_of_tickets tickets.new.items) }
    ensures turns { result.turns_left ≤ turns }
    ensures few { vec_len tickets.new ≤ 16 }
{
    if tickets.reserve(MOST_TICKETS).is_err() {
        return Spent {
            turns_left: turns,
            out_of_memory: true,
        };
    }
    let mut accepted = 0;
    spend!(
        turn in turns, line of script.get(accepted) => take_turn(fabric, rt, port, device, line, tickets),
        accepted += 1
    )
}

/// One try of a line.
fn take_turn<C: Ledgers, R: Wait, D: Device>(
    fabric: &Fabric<C>,
    rt: &R,
    port: &mut Port<C>,
    device: &mut D,
    line: &Step,
    tickets: &mut Vec<UseTicket<C>>,
) -> Turn
    requires few { vec_len tickets.old ≤ 16 }
    requires room { 16 ≤ vec_capacity tickets.old }
    ensures turn { IsTurn C.config line.now port.old port.new
        (tokens_of_tickets tickets.old.items) (tokens_of_tickets tickets.new.items) result }
    ensures few { vec_len tickets.new ≤ 16 }
    ensures room { vec_capacity tickets.new ≡ vec_capacity tickets.old }
{
    if line.is_plain() {
        return turn_of(fabric.step(rt, port, line));
    }
    match line {
        Step::BeginUse {
            endpoint,
            pasid,
            page,
            write,
        } => begin_use(
            fabric, rt, port, device, tickets, *endpoint, *pasid, *page, *write,
        ),
        Step::EndUse { endpoint, slot } => end_use(fabric, rt, port, tickets, *endpoint, *slot),
        _ => Turn::Again,
    }
}

/// One try to begin a use, which the device touches then.
fn begin_use<C: Ledgers, R: Wait, D: Device>(
    fabric: &Fabric<C>,
    rt: &R,
    port: &mut Port<C>,
    device: &mut D,
    tickets: &mut Vec<UseTicket<C>>,
    endpoint: u64,
    pasid: u64,
    page: u64,
    write: bool,
) -> Turn
    requires few { vec_len tickets.old ≤ 16 }
    requires room { 16 ≤ vec_capacity tickets.old }
    ensures turn { IsTurn C.config (step.BeginUse endpoint pasid page write) port.old port.new
        (tokens_of_tickets tickets.old.items) (tokens_of_tickets tickets.new.items) result }
    ensures few { vec_len tickets.new ≤ 16 }
    ensures room { vec_capacity tickets.new ≡ vec_capacity tickets.old }
{
    if tickets.len() >= MOST_TICKETS {
        return Turn::Again;
    }
    match fabric.begin(rt, port, endpoint, pasid, page, write) {
        Ok(ticket) => {
            device.touch(ticket.frame(), write);
            tickets.push_reserved(ticket);
            Turn::Accepted
        }
        Err(fault) => turn_after(&fault),
    }
}

/// One try to end the use of a slot.
fn end_use<C: Ledgers, R: Wait>(
    fabric: &Fabric<C>,
    rt: &R,
    port: &mut Port<C>,
    tickets: &mut Vec<UseTicket<C>>,
    endpoint: u64,
    slot: u64,
) -> Turn
    ensures turn { IsTurn C.config (step.EndUse endpoint slot) port.old port.new
        (tokens_of_tickets tickets.old.items) (tokens_of_tickets tickets.new.items) result }
    ensures few { vec_len tickets.new ≤ vec_len tickets.old }
    ensures room { vec_capacity tickets.new ≡ vec_capacity tickets.old }
{
    let Some(place) = place_of(tickets.as_slice(), endpoint, slot) else {
        return Turn::Again;
    };
    let ticket = tickets.swap_remove(place);
    match fabric.end(rt, port, ticket) {
        Ok(_) => Turn::Accepted,
        Err((ticket, fault)) => {
            tickets.push_reserved(ticket);
            turn_after(&fault)
        }
    }
}

/// What becomes of a turn whose plain step was asked.
pub(crate) fn turn_of(asked: Result<Receipt, StepFault>) -> Turn
    ensures { result ≡ turn_by asked }
{
    match asked {
        Ok(receipt) => match receipt.answer {
            Ok(_) => Turn::Accepted,
            Err(_) => Turn::Again,
        },
        Err(StepFault::Memory) => Turn::Memory,
        Err(StepFault::Strayed(_)) => Turn::Strayed,
    }
}

/// What becomes of a turn whose call made, moved or spent no token.
pub(crate) fn turn_after(fault: &Fault) -> Turn
    ensures { result ≡ turn_after_fault fault.now }
{
    match fault {
        Fault::Refused { .. } => Turn::Again,
        Fault::Memory => Turn::Memory,
        Fault::Strayed(_) => Turn::Strayed,
    }
}
