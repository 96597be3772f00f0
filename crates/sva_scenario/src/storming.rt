//! A storm: a scenario that is played by threads, and the audit that ends it.

ghost use Rattle.std.specs.Prelude.{◌≡◌, ◌≢◌, ◌↔◌, ◌+◌, vec_len, true, IfOk, IfErr, Ok, Err};
ghost use Rattle.sva_step.specs.Limits.{Fits};
ghost use Rattle.sva_scenario.specs.Lacks.{any_lacks};
ghost use Rattle.sva_scenario.specs.Roles.{AreRoles};
ghost use Rattle.sva_scenario.specs.Storms.{HasFinished, IsFound};
ghost use Rattle.sva_scenario.specs.declared.faults.StormFault.TheVariants as storm_fault;

use crate::faults::StormFault;
use crate::plan::Plan;
use crate::roles::Roles;
use crate::threads::ThreadStates;
use std::alloc::Global;
use std::marker::Brand;
use std::sync::Wait;
use std::thread::Threads;
use sva_fabric::{Audit, Blanks, Device, Fabric, Ledgers, Pager};
use sva_grammar::Scenario;

/// Plays a scenario by threads: one for the host, one for the link, one for the service, one for each endpoint and one for each worker.
/// Each has so many turns. Host and endpoints play their lines in order, each line until it is accepted; the other lines are skipped. The
/// link delivers the messages by their numbers; the service pumps and serves each endpoint in turn; the workers take jobs and answer
/// them. At the end the audit compares all receipts with the journal. There is a device for each endpoint, and a pager for each worker.
/// Where there is an audit, good or bad, each of its ports was called by the loop of its own thread, to that loop's end.
pub fn storm<R: Threads + Wait + Sync, D: Device + Send + Drop, P: Pager + Send + Drop>(
    rt: &R,
    alloc: Global,
    scenario: &Scenario,
    turns: u64,
    devices: Vec<D>,
    pagers: Vec<P>,
) -> Result<Audit, StormFault>
    requires devices { Fits scenario.now.config → vec_len devices ≡ scenario.now.config.endpoints }
    requires pagers { Fits scenario.now.config → vec_len pagers ≡ scenario.now.config.workers }
    ensures config { (result ≡ Err storm_fault.Config) ↔ (Fits scenario.now.config → ⊥) }
    ensures audit { IfOk result (λ audit. HasFinished scenario.now.config scenario.now.steps turns (Ok audit)) }
    ensures frames { IfOk result (λ audit. audit.free + audit.mapped + audit.withheld ≡ scenario.now.config.frames) }
    ensures bad { IfErr result (λ fault. IsFound scenario.now.config scenario.now.steps turns fault) }
{
    if !scenario.config.fits() {
        return Err(StormFault::Config);
    }
    let Ok(roles) = Roles::new(alloc, scenario.steps.as_slice(), devices, pagers) else {
        return Err(StormFault::Memory);
    };
    let blanks = Blanks::new(&scenario.config);
    play_all::<Brand, Brand, R, D, P>(rt, alloc, scenario, turns, roles, blanks)
}

/// The storm on the fabric whose calls are counted by this blank.
fn play_all<
    C: Ledgers + Send + Sync,
    S: Plan + Send,
    R: Threads + Wait + Sync,
    D: Device + Send + Drop,
    P: Pager + Send + Drop,
>(
    rt: &R,
    alloc: Global,
    scenario: &Scenario,
    turns: u64,
    roles: Roles<D, P>,
    blanks: Blanks,
) -> Result<Audit, StormFault>
    requires name { blanks.calls.name ≡ C.name }
    requires parts { blanks.calls.parts ≡ C.parts }
    requires ports { blanks.calls.parts ≡ 3 + scenario.now.config.endpoints + scenario.now.config.workers }
    requires bindings { blanks.bindings.name ≡ C.bindings }
    requires uses { blanks.uses.name ≡ C.uses }
    requires config { C.config ≡ scenario.now.config }
    requires fits { Fits scenario.now.config }
    requires steps { S.steps ≡ scenario.now.steps }
    requires turns { turns ≡ S.turns }
    requires roles { AreRoles C.config S.steps roles }
    ensures config { result ≢ Err storm_fault.Config }
    ensures audit { IfOk result (λ audit. HasFinished C.config S.steps S.turns (Ok audit)) }
    ensures bad { IfErr result (λ fault. IsFound C.config S.steps S.turns fault) }
{
    let Ok((fabric, ports)) = Fabric::<C>::open(alloc, scenario.config, blanks) else {
        return Err(StormFault::Memory);
    };
    let Ok(mut threads) = ThreadStates::<C, S, D, P>::new(alloc, ports, roles, turns) else {
        return Err(StormFault::Memory);
    };
    threads.run(rt, &fabric);
    settle(fabric, threads)
}

/// Ends a storm: its threads are taken apart, and their receipts and tokens audited. The audit is told where each thread has run, and
/// none wanted memory.
fn settle<C: Ledgers, S: Plan, D: Device + Drop, P: Pager + Drop>(
    fabric: Fabric<C>,
    threads: ThreadStates<C, S, D, P>,
) -> Result<Audit, StormFault>
    requires parts { C.parts ≡ 3 + C.config.endpoints + C.config.workers }
    requires endpoints { vec_len threads.endpoints ≡ C.config.endpoints }
    requires workers { vec_len threads.workers ≡ C.config.workers }
    ensures config { result ≢ Err storm_fault.Config }
    ensures audit { IfOk result (λ audit. HasFinished C.config S.steps S.turns (Ok audit)) }
    ensures bad { IfErr result (λ fault. IsFound C.config S.steps S.turns fault) }
    ensures lacking { any_lacks threads.host threads.link threads.service threads.endpoints.items threads.workers.items ≡ true
        → result ≡ Err storm_fault.Memory }
    ensures memory { result ≡ Err storm_fault.Memory
        → any_lacks threads.host threads.link threads.service threads.endpoints.items threads.workers.items ≡ true }
{
    let (ports, tokens, lacking) = threads.into_parts();
    let audit = fabric.finish(ports, tokens);
    if lacking {
        return Err(StormFault::Memory);
    }
    match audit {
        Ok(audit) => Ok(audit),
        Err(bad) => Err(StormFault::Bad(bad)),
    }
}
