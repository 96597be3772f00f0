//! The threads of the host and of the endpoints, which play lines. What each owns while it plays is in its state: a thread's result can't
//! be a token. Where it has run, the state's type says what its loop says.

ghost use Rattle.std.specs.Prelude.{◌≡◌, ◌+◌, ◌≤◌, ◌<◌, false, vec_len, vec_capacity};
ghost use Rattle.sva_fabric.specs.Receipts.{new_port};
ghost use Rattle.sva_scenario.specs.Lines.{lines_of_owner};
ghost use Rattle.sva_fabric.specs.Ends.{lacks};
ghost use Rattle.sva_scenario.specs.Played.{IsOfEndpoint, IsOfHost};
ghost use Rattle.sva_scenario.specs.declared.lines.Owner.TheVariants as owner;

use crate::lines::Lines;
use crate::plan::Plan;
use std::alloc::Global;
use std::marker::{Model, PhantomData};
use std::sync::Wait;
use sva_fabric::{
    BindingTokens, Device, Fabric, Ledgers, Port, Spent, Tickets, UseTicket, append_tickets, host,
    play,
};

/// The host's thread.
pub(crate) struct HostThread<C: Ledgers, S: Plan> {
    port: Port<C>,
    lines: Lines,
    turns: u64,
    tokens: BindingTokens<C>,
    /// none before it has run
    spent: Option<Spent>,
    plan: PhantomData<S>,
}

impl<C: Ledgers, S: Plan> Model for HostThread<C, S> {
    ghost use Rattle.std.specs.Prelude.{◌≡◌, [], IfNone};
    ghost use Rattle.sva_scenario.specs.Lines.{lines_of_owner};
    ghost use Rattle.sva_scenario.specs.Played.{ThreadView, IsThread, PlaysAsHost};
    ghost use Rattle.sva_scenario.specs.declared.lines.Owner.TheVariants as owner;

    ghost Value = { ThreadView };

    ghost view = { λ t. record { port = t.port; spent = t.spent } };

    ghost invariant = { λ t. (t.turns ≡ S.turns) × (t.lines ≡ lines_of_owner owner.Host S.steps)
        × IfNone t.spent ((t.tokens.leases.items ≡ []) × (t.tokens.leavings.items ≡ []))
        × IsThread 0 S.turns (PlaysAsHost C.config S.steps t.tokens.leases.items t.tokens.leavings.items) t.spent t.port };
}

impl<C: Ledgers, S: Plan> HostThread<C, S> {
    /// One that has so many turns, and hasn't run.
    pub(crate) fn new(alloc: Global, port: Port<C>, lines: Lines, turns: u64) -> HostThread<C, S>
        requires port { port ≡ new_port 0 }
        requires lines { lines ≡ lines_of_owner owner.Host S.steps }
        requires turns { turns ≡ S.turns }
    {
        HostThread {
            port,
            lines,
            turns,
            tokens: BindingTokens {
                leases: Vec::new(alloc),
                leavings: Vec::new(alloc),
            },
            spent: None,
            plan: PhantomData,
        }
    }

    /// Plays the host's lines, if it hasn't run.
    pub(crate) fn run<R: Wait>(&mut self, rt: &R, fabric: &Fabric<C>) {
        let HostThread {
            port,
            lines,
            turns,
            tokens,
            spent,
            ..
        } = self;
        let None = *spent else {
            return;
        };
        *spent = Some(host(fabric, rt, port, lines.as_slice(), *turns, tokens));
    }

    /// Takes it apart. Tells whether it wanted memory.
    pub(crate) fn leave(self) -> (Port<C>, BindingTokens<C>, bool)
        ensures lacking { result.2 ≡ lacks self.spent }
        ensures played { result.2 ≡ false → IsOfHost C.config S.steps S.turns result.0 }
    {
        let HostThread {
            port,
            lines: _,
            turns: _,
            tokens,
            spent,
            plan: _,
        } = self;
        (port, tokens, Spent::lacks(spent))
    }
}

/// The thread of an endpoint, with its device.
pub(crate) struct EndpointThread<C: Ledgers, S: Plan, D> {
    endpoint: u64,
    port: Port<C>,
    lines: Lines,
    device: D,
    turns: u64,
    tickets: Tickets<C>,
    /// none before it has run
    spent: Option<Spent>,
    plan: PhantomData<S>,
}

impl<C: Ledgers, S: Plan, D> Model for EndpointThread<C, S, D> {
    ghost use Rattle.std.specs.Prelude.{◌≡◌, ◌+◌, ◌<◌, [], IfNone};
    ghost use Rattle.sva_scenario.specs.Lines.{lines_of_owner};
    ghost use Rattle.sva_scenario.specs.Played.{ThreadView, IsThread, PlaysAsEndpoint};
    ghost use Rattle.sva_scenario.specs.declared.lines.Owner.TheVariants as owner;

    ghost Value = { ThreadView };

    ghost view = { λ t. record { port = t.port; spent = t.spent } };

    ghost invariant = { λ t. (t.turns ≡ S.turns) × (t.lines ≡ lines_of_owner (owner.Endpoint t.endpoint) S.steps)
        × (t.endpoint < C.config.endpoints) × IfNone t.spent (t.tickets.tickets.items ≡ [])
        × IsThread (3 + t.endpoint) S.turns (PlaysAsEndpoint C.config S.steps t.endpoint t.tickets.tickets.items) t.spent t.port };
}

impl<C: Ledgers, S: Plan, D: Device + Drop> EndpointThread<C, S, D> {
    /// One that has so many turns, and hasn't run.
    pub(crate) fn new(
        alloc: Global,
        endpoint: u64,
        port: Port<C>,
        lines: Lines,
        device: D,
        turns: u64,
    ) -> EndpointThread<C, S, D>
        requires below { endpoint < C.config.endpoints }
        requires port { port ≡ new_port (3 + endpoint) }
        requires lines { lines ≡ lines_of_owner (owner.Endpoint endpoint) S.steps }
        requires turns { turns ≡ S.turns }
        ensures { result.port ≡ port }
    {
        EndpointThread {
            endpoint,
            port,
            lines,
            device,
            turns,
            tickets: Tickets::new(alloc),
            spent: None,
            plan: PhantomData,
        }
    }

    /// Plays the endpoint's lines, if it hasn't run.
    pub(crate) fn run<R: Wait>(&mut self, rt: &R, fabric: &Fabric<C>) {
        let EndpointThread {
            port,
            lines,
            device,
            turns,
            tickets: Tickets { tickets },
            spent,
            ..
        } = self;
        let None = *spent else {
            return;
        };
        *spent = Some(play(fabric, rt, port, device, lines.as_slice(), *turns, tickets));
    }

    /// Takes it apart: its tickets are put to others, for which there is room. Tells whether it wanted memory.
    pub(crate) fn leave(self, tickets: &mut Vec<UseTicket<C>>) -> (Port<C>, bool)
        requires { vec_len tickets.old + 16 ≤ vec_capacity tickets.old }
        ensures lacking { result.1 ≡ lacks self.spent }
        ensures played { result.1 ≡ false → IsOfEndpoint C.config S.steps S.turns result.0 }
        ensures len { vec_len tickets.new ≤ vec_len tickets.old + 16 }
        ensures capacity { vec_capacity tickets.new ≡ vec_capacity tickets.old }
    {
        let EndpointThread {
            endpoint: _,
            port,
            lines: _,
            device: _,
            turns: _,
            tickets: in_hand,
            spent,
            plan: _,
        } = self;
        append_tickets(in_hand, tickets);
        (port, Spent::lacks(spent))
    }
}
