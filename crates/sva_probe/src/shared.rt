//! A scenario on a world under a lock, each step by the port of its own part.

ghost use Rattle.std.specs.Prelude.{◌≡◌, ◌+◌};
ghost use Rattle.sva_step.specs.Limits.{Fits};

use crate::parts::{Part, part_of};
use crate::token_calls::take;
use crate::{Fault, Taken, Wanted};
use std::alloc::{AllocError, Global};
use std::marker::Brand;
use std::sync::Wait;
use sva_fabric::{Blanks, Fabric, Ledgers, Port, Ports, Tokens};
use sva_frames::Counts;
use sva_step::{Answer, Config, Refusal, Step};

/// Takes the steps on a new shared world. The audit, which compares the receipts of all ports, has to be good in the end.
pub(crate) fn take_shared<R: Wait>(
    rt: &R,
    alloc: Global,
    config: Config,
    steps: &[Step],
) -> Result<Taken, Fault> {
    if !config.fits() {
        return Err(Fault::Config);
    }
    let blanks = Blanks::new(&config);
    take_on::<Brand, R>(rt, alloc, config, steps, blanks)
}

/// The same on the world of these blanks.
fn take_on<C: Ledgers, R: Wait>(
    rt: &R,
    alloc: Global,
    config: Config,
    steps: &[Step],
    blanks: Blanks,
) -> Result<Taken, Fault>
    requires config { config ≡ C.config }
    requires name { blanks.calls.name ≡ C.name }
    requires parts { blanks.calls.parts ≡ C.parts }
    requires ports { Fits config → blanks.calls.parts ≡ 3 + config.endpoints + config.workers }
    requires bindings { blanks.bindings.name ≡ C.bindings }
    requires uses { blanks.uses.name ≡ C.uses }
{
    let (fabric, ports) = match Fabric::<C>::open(alloc, config, blanks) {
        Ok(opened) => opened,
        Err(Refusal::BadConfig) => return Err(Fault::Config),
        Err(_) => return Err(Fault::Memory(Wanted::Open)),
    };
    let mut ports = ports;
    let mut tokens = Tokens::new(alloc);
    let mut answers = Vec::new(alloc);
    let ended = match reserve_places(&mut tokens, &mut answers, steps.len()) {
        Ok(()) => take_each(&fabric, rt, &mut ports, &mut tokens, steps, &mut answers),
        Err(_) => Err(Fault::Memory(Wanted::Places)),
    };
    let audit = fabric.finish(ports, tokens);
    ended?;
    match audit {
        Ok(audit) => Ok(Taken {
            answers,
            counts: Counts {
                free: audit.free,
                mapped: audit.mapped,
                withheld: audit.withheld,
            },
        }),
        Err(_) => Err(Fault::Astray),
    }
}

/// Reserves places for the tokens and answers of so many steps, so that no step asks for one.
fn reserve_places<C: Ledgers>(
    tokens: &mut Tokens<C>,
    answers: &mut Vec<Result<Answer, Refusal>>,
    count: usize,
) -> Result<(), AllocError> {
    let Tokens {
        leases,
        leavings,
        tickets,
    } = tokens;
    leases.reserve(count)?;
    leavings.reserve(count)?;
    tickets.reserve(count)?;
    answers.reserve(count)
}

/// Takes the steps one after another. The places of the answers are reserved before the first.
fn take_each<C: Ledgers, R: Wait>(
    fabric: &Fabric<C>,
    rt: &R,
    ports: &mut Ports<C>,
    tokens: &mut Tokens<C>,
    steps: &[Step],
    answers: &mut Vec<Result<Answer, Refusal>>,
) -> Result<(), Fault> {
    for step in steps {
        let Some(answer) = take_by_part(fabric, rt, ports, tokens, step) else {
            return Err(Fault::Astray);
        };
        if answers.push(answer).is_err() {
            return Err(Fault::Memory(Wanted::Places));
        }
    }
    Ok(())
}

/// Takes a step by the port of its own part: by the host's where the number is of none.
fn take_by_part<C: Ledgers, R: Wait>(
    fabric: &Fabric<C>,
    rt: &R,
    ports: &mut Ports<C>,
    tokens: &mut Tokens<C>,
    step: &Step,
) -> Option<Result<Answer, Refusal>> {
    let Ports {
        host,
        link,
        service,
        endpoints,
        workers,
    } = ports;
    match part_of(step) {
        Part::Host => take(fabric, rt, host, tokens, step),
        Part::Link => take(fabric, rt, link, tokens, step),
        Part::Service => take(fabric, rt, service, tokens, step),
        Part::Endpoint(number) => take_by(fabric, rt, endpoints, number, host, tokens, step),
        Part::Worker(number) => take_by(fabric, rt, workers, number, host, tokens, step),
    }
}

/// Takes a step by the port of this number, or by the host's where there is none.
fn take_by<C: Ledgers, R: Wait>(
    fabric: &Fabric<C>,
    rt: &R,
    ports: &mut Vec<Port<C>>,
    number: u64,
    host: &mut Port<C>,
    tokens: &mut Tokens<C>,
    step: &Step,
) -> Option<Result<Answer, Refusal>> {
    match ports.get_mut(number as usize) {
        Some(port) => take(fabric, rt, port, tokens, step),
        None => take(fabric, rt, host, tokens, step),
    }
}
