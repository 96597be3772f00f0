//! The host's thread.

ghost use Rattle.std.specs.Prelude.{◌≡◌, ◌-◌, ◌<◌, ◌≤◌, List, true, length, slice_get, is_some, IfSome};
ghost use Rattle.sva_step.specs.declared.steps.Step.TheVariants as step;
ghost use Rattle.sva_fabric.specs.TokenNumbers.{LeaseNumbers};
ghost use Rattle.sva_fabric.specs.LoopTokens.{has_lease, has_leaving, tokens_of_bindings};
ghost use Rattle.sva_fabric.specs.Plays.{HasPlayed, IsTry, IsTurn};

use crate::fabric::Fabric;
use crate::loops::endings::{Spent, Turn};
use crate::loops::spending::spend;
use crate::loops::using::{turn_after, turn_of};
use crate::port::Port;
use crate::tokens::{Lease, Leaving, Moved};
use std::sync::Wait;
use std::thread::yield_now;
use sva_core::Ledgers;
use sva_step::Step;

/// The bindings that the host's thread has in hand.
pub struct BindingTokens<C: Ledgers> {
    pub leases: Vec<Lease<C>>,
    pub leavings: Vec<Leaving<C>>,
}

/// The place of the lease of a binding.
fn lease_of<C: Ledgers>(leases: &[Lease<C>], binding: u64) -> Option<usize>
    ensures is_there { is_some result ≡ has_lease binding leases.now }
    ensures place { IfSome result (λ place. (place < length leases.now) × IfSome (slice_get leases.now place) (λ lease. lease.binding ≡ binding)) }
{
    for place in 0..leases.len() {
        if leases[place].binding() == binding {
            return Some(place);
        }
    }
    None
}

/// The place of the leaving of a binding.
fn leaving_of<C: Ledgers>(leavings: &[Leaving<C>], binding: u64) -> Option<usize>
    ensures is_there { is_some result ≡ has_leaving binding leavings.now }
    ensures place { IfSome result (λ place. (place < length leavings.now) × IfSome (slice_get leavings.now place) (λ leaving. leaving ≡ binding)) }
{
    for place in 0..leavings.len() {
        if leavings[place].binding() == binding {
            return Some(place);
        }
    }
    None
}

/// Plays the host's lines in their order, each until it is accepted.
pub fn host<C: Ledgers, R: Wait>(
    fabric: &Fabric<C>,
    rt: &R,
    port: &mut Port<C>,
    script: &[Step],
    turns: u64,
    tokens: &mut BindingTokens<C>,
) -> Spent
    ensures played { HasPlayed C.config script.now (turns - result.turns_left) result.turns_left result.out_of_memory port.old port.new
        (tokens_of_bindings tokens.old.leases.items tokens.old.leavings.items)
        (tokens_of_bindings tokens.new.leases.items tokens.new.leavings.items) }
    ensures memory { result.out_of_memory ≡ true → result.turns_left < turns }
    ensures turns { result.turns_left ≤ turns }
{
    let mut accepted = 0;
    spend!(
        turn in turns, line of script.get(accepted) => host_turn(fabric, rt, port, line, tokens),
        accepted += 1
    )
}

/// One try of a line.
fn host_turn<C: Ledgers, R: Wait>(
    fabric: &Fabric<C>,
    rt: &R,
    port: &mut Port<C>,
    line: &Step,
    tokens: &mut BindingTokens<C>,
) -> Turn
    ensures { IsTurn C.config line.now port.old port.new
        (tokens_of_bindings tokens.old.leases.items tokens.old.leavings.items)
        (tokens_of_bindings tokens.new.leases.items tokens.new.leavings.items) result }
{
    if line.is_plain() {
        return turn_of(fabric.step(rt, port, line));
    }
    let BindingTokens { leases, leavings } = tokens;
    match line {
        Step::Bind { endpoint, space } => bind(fabric, rt, port, leases, *endpoint, *space),
        Step::Unbind { binding } => unbind(fabric, rt, port, leases, leavings, *binding),
        Step::Advance { binding } => advance(fabric, rt, port, leavings, *binding),
        _ => Turn::Again,
    }
}

/// One try to bind. The lease's place is reserved before the call.
fn bind<C: Ledgers, R: Wait>(
    fabric: &Fabric<C>,
    rt: &R,
    port: &mut Port<C>,
    leases: &mut Vec<Lease<C>>,
    endpoint: u64,
    space: u64,
) -> Turn
    ensures { IsTry C.config (step.Bind endpoint space) port.old port.new 0 0 result }
{
    if leases.reserve(1).is_err() {
        return Turn::Memory;
    }
    match fabric.bind(rt, port, endpoint, space) {
        Ok(lease) => {
            leases.push_reserved(lease);
            Turn::Accepted
        }
        Err(fault) => turn_after(&fault),
    }
}

/// One try to begin to take a binding back. The leaving's place is reserved before the call.
fn unbind<C: Ledgers, R: Wait>(
    fabric: &Fabric<C>,
    rt: &R,
    port: &mut Port<C>,
    leases: &mut Vec<Lease<C>>,
    leavings: &mut Vec<Leaving<C>>,
    binding: u64,
) -> Turn
    ensures { IsTurn C.config (step.Unbind binding) port.old port.new
        (tokens_of_bindings leases.old.items leavings.old.items) (tokens_of_bindings leases.new.items leavings.new.items) result }
{
    let Some(place) = lease_of(leases.as_slice(), binding) else {
        return Turn::Again;
    };
    if leavings.reserve(1).is_err() {
        return Turn::Memory;
    }
    let lease = leases.swap_remove(place);
    match fabric.unbind(rt, port, lease) {
        Ok(leaving) => {
            leavings.push_reserved(leaving);
            Turn::Accepted
        }
        Err((lease, fault)) => {
            leases.push_reserved(lease);
            turn_after(&fault)
        }
    }
}

/// One try to move a binding on.
fn advance<C: Ledgers, R: Wait>(
    fabric: &Fabric<C>,
    rt: &R,
    port: &mut Port<C>,
    leavings: &mut Vec<Leaving<C>>,
    binding: u64,
) -> Turn
    ensures { (leases : List LeaseNumbers) → IsTurn C.config (step.Advance binding) port.old port.new
        (tokens_of_bindings leases leavings.old.items) (tokens_of_bindings leases leavings.new.items) result }
{
    let Some(place) = leaving_of(leavings.as_slice(), binding) else {
        return Turn::Again;
    };
    let leaving = leavings.swap_remove(place);
    match fabric.advance(rt, port, leaving) {
        Ok(Moved::Again(leaving)) => {
            leavings.push_reserved(leaving);
            Turn::Accepted
        }
        Ok(Moved::Gone) => Turn::Accepted,
        Err((leaving, fault)) => {
            leavings.push_reserved(leaving);
            turn_after(&fault)
        }
    }
}
