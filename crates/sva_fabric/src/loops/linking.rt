//! The threads of the link and of the service.

ghost use Rattle.std.specs.Prelude.{◌≡◌, ◌-◌, ◌≤◌, true};
ghost use Rattle.sva_step.specs.Steps.{is_plain};
ghost use Rattle.sva_fabric.specs.Asks.{HasDelivered, HasServed, IsAsked, service_at};

use crate::fabric::Fabric;
use crate::loops::endings::{Spent, Turn};
use crate::loops::spending::spend;
use crate::loops::using::turn_of;
use crate::port::Port;
use std::sync::Wait;
use std::thread::yield_now;
use sva_core::Ledgers;
use sva_step::Step;

/// Asks a step that needs no token once.
fn ask<C: Ledgers, R: Wait>(fabric: &Fabric<C>, rt: &R, port: &mut Port<C>, step: &Step) -> Turn
    requires plain { is_plain step.now ≡ true }
    ensures asked { IsAsked C.config step.now port.old port.new result }
{
    turn_of(fabric.step(rt, port, step))
}

/// Delivers the messages by their numbers, from 0 on, each tried until it is accepted.
pub fn link<C: Ledgers, R: Wait>(
    fabric: &Fabric<C>,
    rt: &R,
    port: &mut Port<C>,
    turns: u64,
) -> Spent
    ensures delivered { HasDelivered C.config (turns - result.turns_left) result.turns_left result.out_of_memory port.old port.new }
    ensures turns { result.turns_left ≤ turns }
{
    let mut message = 0;
    spend!(turn in turns => ask(fabric, rt, port, &Step::Deliver { message }), message += 1)
}

/// What the service does in a turn: it pumps and serves each endpoint in turn. A world has one endpoint at least.
fn service_step(turn: u64, endpoints: u64) -> Step
    ensures plain { is_plain result ≡ true }
    ensures step { result ≡ service_at turn endpoints }
{
    let endpoint = turn / 2 % endpoints.max(1);
    if turn % 2 == 0 {
        Step::Pump { endpoint }
    } else {
        Step::Serve { endpoint }
    }
}

/// Pumps and serves each of the endpoints in turn.
pub fn service<C: Ledgers, R: Wait>(
    fabric: &Fabric<C>,
    rt: &R,
    port: &mut Port<C>,
    endpoints: u64,
    turns: u64,
) -> Spent
    ensures served { HasServed C.config endpoints (turns - result.turns_left) result.turns_left result.out_of_memory port.old port.new }
    ensures turns { result.turns_left ≤ turns }
{
    spend!(turn in turns => ask(fabric, rt, port, &service_step(turn, endpoints)), {})
}
