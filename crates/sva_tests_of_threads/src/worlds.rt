//! A world of its own for each test, and calls whose contracts are forgotten, so that the tests on them are cheap.

ghost use Rattle.std.specs.Prelude.{◌≡◌, true};
ghost use Rattle.sva_step.specs.Steps.{is_plain};

use crate::binding_and_use::tokens_spent;
use crate::counting::counted;
use crate::threads::{at_once, in_turns};
use std::alloc::Global;
use std::marker::Brand;
use std::process::Abort;
use std::sync::Wait;
use std::thread::Threads;
use sva_fabric::{Audit, Blanks, Fabric, Ledgers, Port, Tokens};
use sva_step::{Answer, Config, Refusal, Step};

/// Two endpoints, four frames and one worker.
pub(crate) const CONFIG: Config = Config {
    endpoints: 2,
    frames: 4,
    workers: 1,
    first: 0,
};

/// What is tried on a world.
#[derive(Clone, Copy)]
pub(crate) enum Tried {
    Turns,
    Looks,
    Counts,
    Tokens,
}

pub(crate) fn map(page: u64) -> Step
    ensures { is_plain result ≡ true }
{
    Step::Map {
        space: 0,
        page,
        write: true,
    }
}

/// What a plain step is answered.
pub(crate) fn answered<C: Ledgers, R: Wait + Abort>(
    rt: &R,
    fabric: &Fabric<C>,
    port: &mut Port<C>,
    step: &Step,
) -> Result<Answer, Refusal>
    requires { is_plain step.now ≡ true }
{
    match fabric.step(rt, port, step) {
        Ok(receipt) => receipt.answer,
        Err(_) => panic!(rt; "it is answered"),
    }
}

/// A plain step that is accepted with this answer.
pub(crate) fn takes<C: Ledgers, R: Wait + Abort>(
    rt: &R,
    fabric: &Fabric<C>,
    port: &mut Port<C>,
    step: Step,
    answer: Answer,
)
    requires { is_plain step ≡ true }
{
    assert!(rt; answered(rt, fabric, port, &step) == Ok(answer));
}

/// Tries it on a world, whose audit is good.
fn tried_on<C: Ledgers + Send + Sync, R: Threads + Wait + Abort + Sync>(
    rt: &R,
    alloc: Global,
    tried: Tried,
    blanks: Blanks,
) -> Audit
    requires name { blanks.calls.name ≡ C.name }
    requires parts { (blanks.calls.parts ≡ C.parts) × (blanks.calls.parts ≡ 6) }
    requires bindings { blanks.bindings.name ≡ C.bindings }
    requires uses { blanks.uses.name ≡ C.uses }
    requires config { C.config ≡ CONFIG }
{
    let Ok((fabric, mut ports)) = Fabric::<C>::open(alloc, CONFIG, blanks) else {
        panic!(rt; "it opens");
    };
    let mut tokens = Tokens::new(alloc);
    match tried {
        Tried::Turns => in_turns(rt, &fabric, &mut ports),
        Tried::Looks => at_once(rt, &fabric, &mut ports),
        Tried::Counts => counted(rt, &fabric, &mut ports),
        Tried::Tokens => tokens_spent(rt, alloc, &fabric, &mut ports, &mut tokens),
    }
    match fabric.finish(ports, tokens) {
        Ok(audit) => audit,
        Err(_) => panic!(rt; "its audit is good"),
    }
}

/// Does a world of its own on which it is tried have this audit?
pub(crate) fn ends_so<R: Threads + Wait + Abort + Sync>(
    rt: &R,
    alloc: Global,
    tried: Tried,
    audit: Audit,
) -> bool {
    tried_on::<Brand, R>(rt, alloc, tried, Blanks::new(&CONFIG)) == audit
}
