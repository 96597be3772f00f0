//! New ports.

ghost use Rattle.std.specs.Prelude.{◌≡◌, ◌+◌, ◌^◌, ◌<◌, ◌≤◌, vec_len, IfOk, OnOk};
ghost use Rattle.sva_step.specs.Limits.{Fits};
ghost use Rattle.sva_fabric.specs.Receipts.{new_ports_from};
ghost use Rattle.sva_fabric.specs.Audits.{states_of, new_ports};

use crate::port::Port;
use crate::ports::Ports;
use std::alloc::{AllocError, Global};
use std::sync::ledger::Share;
use sva_core::Ledgers;
use sva_step::Config;

/// The ports for a config, of which nothing was asked. Each takes a part of the share.
pub(crate) fn open_ports<C: Ledgers>(
    alloc: Global,
    config: &Config,
    calls: Share<C>,
) -> Result<Ports<C>, AllocError>
    requires fits { Fits config.now }
    requires parts { calls.parts ≡ 3 + config.now.endpoints + config.now.workers }
    requires none { calls.amount ≡ 0 }
    ensures states { IfOk result (λ ports. states_of ports ≡ new_ports config.now) }
    ensures ports { IfOk result (λ ports. (vec_len ports.endpoints ≡ config.now.endpoints) × (vec_len ports.workers ≡ config.now.workers)) }
{
    let mut calls = calls;
    let endpoints = row(alloc, 3, config.endpoints, &mut calls)?;
    let workers = row(alloc, 3 + config.endpoints, config.workers, &mut calls)?;
    Ok(Ports {
        host: Port::new(alloc, 0, calls.split_off(1, 0)),
        link: Port::new(alloc, 1, calls.split_off(1, 0)),
        service: Port::new(alloc, 2, calls),
        endpoints,
        workers,
    })
}

/// So many ports, numbered from this number on.
#[tactic(auto, using(crate::proofs::Sums::new_ports_none, crate::proofs::Sums::new_ports_next))]
fn row<C: Ledgers>(
    alloc: Global,
    first: u64,
    count: u64,
    calls: &mut Share<C>,
) -> Result<Vec<Port<C>>, AllocError>
    requires few { first + count < 2 ^ 63 }
    requires parts { count ≤ calls.old.parts }
    requires none { calls.old.amount ≡ 0 }
    ensures ports { IfOk result (λ ports. ports.items ≡ new_ports_from first count) }
    ensures len { IfOk result (λ ports. vec_len ports ≡ count) }
    ensures left { OnOk result (calls.new.parts + count ≡ calls.old.parts) }
    ensures still { OnOk result (calls.new.amount ≡ 0) }
{
    let mut ports = Vec::with_capacity(alloc, count as usize)?;
    for index in 0..count {
        ports.push_reserved(Port::new(alloc, first + index, calls.split_off(1, 0)));
    }
    Ok(ports)
}
