//! The threads of the link, of the service and of the workers, which play no lines and have no tokens. Where one has run, its type says what
//! its loop says.

ghost use Rattle.std.specs.Prelude.{◌≡◌, ◌+◌, ◌<◌, false};
ghost use Rattle.sva_fabric.specs.Receipts.{new_port};
ghost use Rattle.sva_fabric.specs.Ends.{lacks};
ghost use Rattle.sva_scenario.specs.Played.{IsOfLink, IsOfService, IsOfWorker};

use crate::plan::Plan;
use std::marker::{Model, PhantomData};
use std::sync::Wait;
use sva_fabric::{Fabric, Ledgers, Pager, Port, Spent, answer_jobs, link, service};

/// The link's thread.
#[derive(Drop)]
pub(crate) struct LinkThread<C: Ledgers, S: Plan> {
    port: Port<C>,
    turns: u64,
    /// none before it has run
    spent: Option<Spent>,
    plan: PhantomData<S>,
}

impl<C: Ledgers, S: Plan> Model for LinkThread<C, S> {
    ghost use Rattle.std.specs.Prelude.{◌≡◌};
    ghost use Rattle.sva_fabric.specs.Asks.{HasDelivered};
    ghost use Rattle.sva_scenario.specs.Played.{ThreadView, IsThread};

    ghost Value = { ThreadView };

    ghost view = { λ t. record { port = t.port; spent = t.spent } };

    ghost invariant = { λ t. (t.turns ≡ S.turns) × IsThread 1 S.turns (HasDelivered C.config) t.spent t.port };
}

impl<C: Ledgers, S: Plan> LinkThread<C, S> {
    /// One that has so many turns, and hasn't run.
    pub(crate) fn new(port: Port<C>, turns: u64) -> LinkThread<C, S>
        requires port { port ≡ new_port 1 }
        requires turns { turns ≡ S.turns }
    {
        LinkThread {
            port,
            turns,
            spent: None,
            plan: PhantomData,
        }
    }

    /// Delivers the messages, if it hasn't run.
    pub(crate) fn run<R: Wait>(&mut self, rt: &R, fabric: &Fabric<C>) {
        let LinkThread {
            port,
            turns,
            spent,
            ..
        } = self;
        let None = *spent else {
            return;
        };
        *spent = Some(link(fabric, rt, port, *turns));
    }

    /// Takes it apart. Tells whether it wanted memory.
    pub(crate) fn leave(self) -> (Port<C>, bool)
        ensures lacking { result.1 ≡ lacks self.spent }
        ensures played { result.1 ≡ false → IsOfLink C.config S.turns result.0 }
    {
        (self.port, Spent::lacks(self.spent))
    }
}

/// The service's thread, for so many endpoints.
#[derive(Drop)]
pub(crate) struct ServiceThread<C: Ledgers, S: Plan> {
    endpoints: u64,
    port: Port<C>,
    turns: u64,
    /// none before it has run
    spent: Option<Spent>,
    plan: PhantomData<S>,
}

impl<C: Ledgers, S: Plan> Model for ServiceThread<C, S> {
    ghost use Rattle.std.specs.Prelude.{◌≡◌};
    ghost use Rattle.sva_fabric.specs.Asks.{HasServed};
    ghost use Rattle.sva_scenario.specs.Played.{ThreadView, IsThread};

    ghost Value = { ThreadView };

    ghost view = { λ t. record { port = t.port; spent = t.spent } };

    ghost invariant = { λ t. (t.endpoints ≡ C.config.endpoints) × (t.turns ≡ S.turns)
        × IsThread 2 S.turns (HasServed C.config C.config.endpoints) t.spent t.port };
}

impl<C: Ledgers, S: Plan> ServiceThread<C, S> {
    /// One that has so many turns, and hasn't run.
    pub(crate) fn new(endpoints: u64, port: Port<C>, turns: u64) -> ServiceThread<C, S>
        requires endpoints { endpoints ≡ C.config.endpoints }
        requires port { port ≡ new_port 2 }
        requires turns { turns ≡ S.turns }
    {
        ServiceThread {
            endpoints,
            port,
            turns,
            spent: None,
            plan: PhantomData,
        }
    }

    /// Pumps and serves, if it hasn't run.
    pub(crate) fn run<R: Wait>(&mut self, rt: &R, fabric: &Fabric<C>) {
        let ServiceThread {
            endpoints,
            port,
            turns,
            spent,
            ..
        } = self;
        let None = *spent else {
            return;
        };
        *spent = Some(service(fabric, rt, port, *endpoints, *turns));
    }

    /// Takes it apart. Tells whether it wanted memory.
    pub(crate) fn leave(self) -> (Port<C>, bool)
        ensures lacking { result.1 ≡ lacks self.spent }
        ensures played { result.1 ≡ false → IsOfService C.config S.turns result.0 }
    {
        (self.port, Spent::lacks(self.spent))
    }
}

/// The thread of a worker, with its pager.
#[derive(Drop)]
pub(crate) struct WorkerThread<C: Ledgers, S: Plan, P> {
    worker: u64,
    port: Port<C>,
    pager: P,
    turns: u64,
    /// none before it has run
    spent: Option<Spent>,
    plan: PhantomData<S>,
}

impl<C: Ledgers, S: Plan, P> Model for WorkerThread<C, S, P> {
    ghost use Rattle.std.specs.Prelude.{◌≡◌, ◌+◌, ◌<◌};
    ghost use Rattle.sva_fabric.specs.Jobs.{HasAnswered};
    ghost use Rattle.sva_scenario.specs.Played.{ThreadView, IsThread};

    ghost Value = { ThreadView };

    ghost view = { λ t. record { port = t.port; spent = t.spent } };

    ghost invariant = { λ t. (t.turns ≡ S.turns) × (t.worker < C.config.workers)
        × IsThread (3 + C.config.endpoints + t.worker) S.turns (HasAnswered C.config t.worker) t.spent t.port };
}

impl<C: Ledgers, S: Plan, P: Pager + Drop> WorkerThread<C, S, P> {
    /// One that has so many turns, and hasn't run.
    pub(crate) fn new(worker: u64, port: Port<C>, pager: P, turns: u64) -> WorkerThread<C, S, P>
        requires below { worker < C.config.workers }
        requires port { port ≡ new_port (3 + C.config.endpoints + worker) }
        requires turns { turns ≡ S.turns }
    {
        WorkerThread {
            worker,
            port,
            pager,
            turns,
            spent: None,
            plan: PhantomData,
        }
    }

    /// Takes and answers jobs, if it hasn't run.
    pub(crate) fn run<R: Wait>(&mut self, rt: &R, fabric: &Fabric<C>) {
        let WorkerThread {
            worker,
            port,
            pager,
            turns,
            spent,
            ..
        } = self;
        let None = *spent else {
            return;
        };
        *spent = Some(answer_jobs(fabric, rt, port, *worker, pager, *turns));
    }

    /// Takes it apart. Tells whether it wanted memory.
    pub(crate) fn leave(self) -> (Port<C>, bool)
        ensures lacking { result.1 ≡ lacks self.spent }
        ensures played { result.1 ≡ false → IsOfWorker C.config S.turns result.0 }
    {
        (self.port, Spent::lacks(self.spent))
    }
}
