//! The threads of a storm: who calls by which port, and how they are started, joined and taken apart.

ghost use Rattle.std.specs.Prelude.{◌≡◌, ◌+◌, ◌*◌, ◌<◌, ◌≤◌, false, length, vec_len, vec_capacity, IfOk};
ghost use Rattle.sva_step.specs.Limits.{Fits};
ghost use Rattle.sva_fabric.specs.Audits.{new_ports, states_of};
ghost use Rattle.sva_fabric.specs.Receipts.{new_ports_from};
ghost use Rattle.sva_scenario.specs.Lines.{lines_of_endpoints};
ghost use Rattle.sva_scenario.specs.Played.{AreEach, IsOfEndpoint, IsOfWorker};
ghost use Rattle.sva_scenario.specs.Roles.{AreRoles};
ghost use Rattle.sva_scenario.specs.Lacks.{any_lacks, ArePartsPlayed, one_lacks};

use crate::line_threads::{EndpointThread, HostThread};
use crate::lines::Lines;
use crate::plan::Plan;
use crate::roles::Roles;
use crate::round_threads::{LinkThread, ServiceThread, WorkerThread};
use std::alloc::{AllocError, Global};
use std::slice::IterMut;
use std::sync::Wait;
use std::thread;
use std::thread::{Scope, Threads};
use sva_fabric::{
    BindingTokens, Device, Fabric, Ledgers, MOST_TICKETS, Pager, Port, Ports, Tokens, UseTicket,
};

/// The threads of a storm, with the memory that is wanted once they are joined: it is taken before any of them is started.
pub(crate) struct ThreadStates<C: Ledgers, S: Plan, D, P> {
    host: HostThread<C, S>,
    link: LinkThread<C, S>,
    service: ServiceThread<C, S>,
    /// by their numbers, as those of the workers
    endpoints: Vec<EndpointThread<C, S, D>>,
    workers: Vec<WorkerThread<C, S, P>>,
    room: Room<C>,
    ghost endpoint_ports: { vec_len endpoints ≤ vec_capacity room.endpoints },
    ghost worker_ports: { vec_len workers ≤ vec_capacity room.workers },
    ghost tickets: { vec_len endpoints * 16 ≤ vec_capacity room.tickets },
}

/// Room for the ports of the endpoints and of the workers, and for the tickets that are left.
pub(crate) struct Room<C: Ledgers> {
    endpoints: Vec<Port<C>>,
    workers: Vec<Port<C>>,
    tickets: Vec<UseTicket<C>>,
    ghost no_endpoints: { vec_len endpoints ≡ 0 },
    ghost no_workers: { vec_len workers ≡ 0 },
    ghost no_tickets: { vec_len tickets ≡ 0 },
}

impl<C: Ledgers, S: Plan, D: Device + Drop, P: Pager + Drop> ThreadStates<C, S, D, P> {
    /// The threads by the ports of a new world, with their roles and so many turns each.
    pub(crate) fn new(
        alloc: Global,
        ports: Ports<C>,
        roles: Roles<D, P>,
        turns: u64,
    ) -> Result<ThreadStates<C, S, D, P>, AllocError>
        requires fits { Fits C.config }
        requires ports { states_of ports ≡ new_ports C.config }
        requires endpoints { vec_len ports.endpoints ≡ C.config.endpoints }
        requires workers { vec_len ports.workers ≡ C.config.workers }
        requires roles { AreRoles C.config S.steps roles }
        requires turns { turns ≡ S.turns }
        ensures endpoints { IfOk result (λ threads. vec_len threads.endpoints ≡ C.config.endpoints) }
        ensures workers { IfOk result (λ threads. vec_len threads.workers ≡ C.config.workers) }
    {
        let count = ports.endpoints.len();
        let workers = Vec::with_capacity(alloc, ports.workers.len())?;
        let (endpoints, tickets) = reserved(alloc, count)?;
        let Ports {
            host,
            link,
            service,
            endpoints: endpoint_ports,
            workers: worker_ports,
        } = ports;
        let (endpoints, endpoint_ports) = endpoint_threads(
            alloc,
            endpoint_ports,
            roles.endpoints,
            roles.devices,
            turns,
            endpoints,
        );
        let (workers, worker_ports) = worker_threads(worker_ports, roles.pagers, turns, workers);
        Ok(ThreadStates {
            host: HostThread::new(alloc, host, roles.host, turns),
            link: LinkThread::new(link, turns),
            service: ServiceThread::new(count as u64, service, turns),
            endpoints,
            workers,
            room: Room {
                endpoints: endpoint_ports,
                workers: worker_ports,
                tickets,
            },
        })
    }

    /// Starts each thread, and joins those that were started. One that can't be started hasn't run, and its state tells so.
    pub(crate) fn run<R: Threads + Wait + Sync>(&mut self, rt: &R, fabric: &Fabric<C>)
    where
        C: Send + Sync,
        S: Send,
        D: Send,
        P: Send,
        ensures endpoints { vec_len self.new.endpoints ≡ vec_len self.old.endpoints }
        ensures workers { vec_len self.new.workers ≡ vec_len self.old.workers }
    {
        let ThreadStates {
            host,
            link,
            service,
            endpoints,
            workers,
            ..
        } = self;
        let endpoints = endpoints.as_mut_slice();
        let workers = workers.as_mut_slice();
        run_all(rt, fabric, host, link, service, endpoints, workers);
    }

    /// Takes all threads apart: their ports in their order, the tokens that are left, and whether a thread wanted memory.
    pub(crate) fn into_parts(self) -> (Ports<C>, Tokens<C>, bool)
        ensures lacking { result.2 ≡ any_lacks self.host self.link self.service self.endpoints.items self.workers.items }
        ensures played { result.2 ≡ false → ArePartsPlayed C.config S.steps S.turns result.0 }
        ensures endpoints { vec_len result.0.endpoints ≡ vec_len self.endpoints }
        ensures workers { vec_len result.0.workers ≡ vec_len self.workers }
    {
        let ThreadStates {
            host,
            link,
            service,
            endpoints,
            workers,
            room,
        } = self;
        let (host, BindingTokens { leases, leavings }, host_lacks) = host.leave();
        let (link, link_lacks) = link.leave();
        let (service, service_lacks) = service.leave();
        let Room {
            endpoints: mut endpoint_ports,
            workers: mut worker_ports,
            mut tickets,
        } = room;
        let endpoint_lacks = leave_endpoints(endpoints, &mut endpoint_ports, &mut tickets);
        let worker_lacks = leave_workers(workers, &mut worker_ports);
        let ports = Ports {
            host,
            link,
            service,
            endpoints: endpoint_ports,
            workers: worker_ports,
        };
        let tokens = Tokens {
            leases,
            leavings,
            tickets,
        };
        let lacking = host_lacks | link_lacks | service_lacks | endpoint_lacks | worker_lacks;
        (ports, tokens, lacking)
    }
}

/// Memory for the threads of so many endpoints, and for the tickets that they leave.
fn reserved<C: Ledgers, S: Plan, D>(
    alloc: Global,
    count: usize,
) -> Result<(Vec<EndpointThread<C, S, D>>, Vec<UseTicket<C>>), AllocError>
    requires few { count ≤ 1000 }
    ensures threads { IfOk result (λ r. (vec_len r.0 ≡ 0) × (count ≤ vec_capacity r.0)) }
    ensures tickets { IfOk result (λ r. (vec_len r.1 ≡ 0) × (count * 16 ≤ vec_capacity r.1)) }
{
    let threads = Vec::with_capacity(alloc, count)?;
    match Vec::with_capacity(alloc, count * MOST_TICKETS) {
        Ok(tickets) => Ok((threads, tickets)),
        Err(AllocError) => {
            threads.destroy_empty();
            Err(AllocError)
        }
    }
}

/// The threads of the endpoints by their ports, in their order, and the room that the ports had. A row of what can't be let go is made and
/// taken apart from its end, and then turned round.
fn endpoint_threads<C: Ledgers, S: Plan, D: Device + Drop>(
    alloc: Global,
    ports: Vec<Port<C>>,
    lines: Vec<Lines>,
    devices: Vec<D>,
    turns: u64,
    room: Vec<EndpointThread<C, S, D>>,
) -> (Vec<EndpointThread<C, S, D>>, Vec<Port<C>>)
    requires count { vec_len ports ≡ C.config.endpoints }
    requires ports { ports.items ≡ new_ports_from 3 (vec_len ports) }
    requires lines { lines.items ≡ lines_of_endpoints S.steps (vec_len ports) }
    requires line_count { vec_len lines ≡ vec_len ports }
    requires devices { vec_len devices ≡ vec_len ports }
    requires turns { turns ≡ S.turns }
    requires none { vec_len room ≡ 0 }
    requires room { vec_len ports ≤ vec_capacity room }
    ensures threads { vec_len result.0 ≡ vec_len ports }
    ensures none { vec_len result.1 ≡ 0 }
    ensures room { vec_len ports ≤ vec_capacity result.1 }
{
    let (mut ports, mut lines, mut devices, mut threads) = (ports, lines, devices, room);
    while let Some(port) = ports.pop() {
        let (Some(own), Some(device)) = (lines.pop(), devices.pop()) else {
            unreachable!()
        };
        let endpoint = ports.len() as u64;
        threads.push_reserved(EndpointThread::new(alloc, endpoint, port, own, device, turns));
    }
    threads.as_mut_slice().reverse();
    (threads, ports)
}

/// The threads of the workers by their ports, in their order, and the room that the ports had.
fn worker_threads<C: Ledgers, S: Plan, P: Pager + Drop>(
    ports: Vec<Port<C>>,
    pagers: Vec<P>,
    turns: u64,
    room: Vec<WorkerThread<C, S, P>>,
) -> (Vec<WorkerThread<C, S, P>>, Vec<Port<C>>)
    requires count { vec_len ports ≡ C.config.workers }
    requires ports { ports.items ≡ new_ports_from (3 + C.config.endpoints) (vec_len ports) }
    requires pagers { vec_len pagers ≡ vec_len ports }
    requires turns { turns ≡ S.turns }
    requires none { vec_len room ≡ 0 }
    requires room { vec_len ports ≤ vec_capacity room }
    ensures threads { vec_len result.0 ≡ vec_len ports }
    ensures none { vec_len result.1 ≡ 0 }
    ensures room { vec_len ports ≤ vec_capacity result.1 }
{
    let (mut ports, mut pagers, mut threads) = (ports, pagers, room);
    while let Some(port) = ports.pop() {
        let Some(pager) = pagers.pop() else {
            unreachable!()
        };
        let worker = ports.len() as u64;
        threads.push_reserved(WorkerThread::new(worker, port, pager, turns));
    }
    threads.as_mut_slice().reverse();
    (threads, ports)
}

/// Starts a thread for each, and joins those that were started.
fn run_all<
    C: Ledgers + Send + Sync,
    S: Plan + Send,
    R: Threads + Wait + Sync,
    D: Device + Send + Drop,
    P: Pager + Send + Drop,
>(
    rt: &R,
    fabric: &Fabric<C>,
    host: &mut HostThread<C, S>,
    link: &mut LinkThread<C, S>,
    service: &mut ServiceThread<C, S>,
    endpoints: &mut [EndpointThread<C, S, D>],
    workers: &mut [WorkerThread<C, S, P>],
) {
    let endpoints = endpoints.iter_mut();
    let workers = workers.iter_mut();
    thread::scope(thread::scope_env(), rt, move |scope| {
        start_singles(scope, rt, fabric, host, link, service);
        start_endpoints(scope, rt, fabric, endpoints);
        start_workers(scope, rt, fabric, workers);
    });
}

/// Starts the threads of the host, of the link and of the service.
fn start_singles<'s, E, C, S, R>(
    scope: &Scope<'s, E>,
    rt: &'s R,
    fabric: &'s Fabric<C>,
    host: &'s mut HostThread<C, S>,
    link: &'s mut LinkThread<C, S>,
    service: &'s mut ServiceThread<C, S>,
)
where
    C: Ledgers + Send + Sync,
    S: Plan + Send,
    R: Threads + Wait + Sync,
{
    let _ = scope.spawn(move || host.run(rt, fabric));
    let _ = scope.spawn(move || link.run(rt, fabric));
    let _ = scope.spawn(move || service.run(rt, fabric));
}

/// Starts a thread for each endpoint.
fn start_endpoints<'s, E, C, S, R, D>(
    scope: &Scope<'s, E>,
    rt: &'s R,
    fabric: &'s Fabric<C>,
    threads: IterMut<'s, EndpointThread<C, S, D>>,
)
where
    C: Ledgers + Send + Sync,
    S: Plan + Send,
    R: Threads + Wait + Sync,
    D: Device + Send + Drop,
{
    for thread in threads {
        let _ = scope.spawn(move || thread.run(rt, fabric));
    }
}

/// Starts a thread for each worker.
fn start_workers<'s, E, C, S, R, P>(
    scope: &Scope<'s, E>,
    rt: &'s R,
    fabric: &'s Fabric<C>,
    threads: IterMut<'s, WorkerThread<C, S, P>>,
)
where
    C: Ledgers + Send + Sync,
    S: Plan + Send,
    R: Threads + Wait + Sync,
    P: Pager + Send + Drop,
{
    for thread in threads {
        let _ = scope.spawn(move || thread.run(rt, fabric));
    }
}

/// Takes the threads of the endpoints apart: their ports in their order. Tells whether one of them wanted memory.
fn leave_endpoints<C: Ledgers, S: Plan, D: Device + Drop>(
    threads: Vec<EndpointThread<C, S, D>>,
    ports: &mut Vec<Port<C>>,
    tickets: &mut Vec<UseTicket<C>>,
) -> bool
    requires none { vec_len ports.old ≡ 0 }
    requires ports { vec_len threads ≤ vec_capacity ports.old }
    requires tickets { vec_len tickets.old + vec_len threads * 16 ≤ vec_capacity tickets.old }
    ensures lacking { result ≡ one_lacks threads.items }
    ensures played { result ≡ false → AreEach (IsOfEndpoint C.config S.steps S.turns) ports.new.items }
    ensures ports { vec_len ports.new ≡ vec_len threads }
{
    let mut threads = threads;
    let mut lacking = false;
    while let Some(thread) = threads.pop() {
        let (port, lacks) = thread.leave(tickets);
        lacking |= lacks;
        ports.push_reserved(port);
    }
    threads.destroy_empty();
    ports.as_mut_slice().reverse();
    lacking
}

/// Takes the threads of the workers apart: their ports in their order. Tells whether one of them wanted memory.
fn leave_workers<C: Ledgers, S: Plan, P: Pager + Drop>(
    threads: Vec<WorkerThread<C, S, P>>,
    ports: &mut Vec<Port<C>>,
) -> bool
    requires none { vec_len ports.old ≡ 0 }
    requires ports { vec_len threads ≤ vec_capacity ports.old }
    ensures lacking { result ≡ one_lacks threads.items }
    ensures played { result ≡ false → AreEach (IsOfWorker C.config S.turns) ports.new.items }
    ensures ports { vec_len ports.new ≡ vec_len threads }
{
    let mut threads = threads;
    let mut lacking = false;
    while let Some(thread) = threads.pop() {
        let (port, lacks) = thread.leave();
        lacking |= lacks;
        ports.push_reserved(port);
    }
    ports.as_mut_slice().reverse();
    lacking
}
