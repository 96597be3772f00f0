//! A receipt that doesn't stand in the journal.

ghost use Rattle.std.specs.Prelude.{◌≡◌, ◌<◌};

use crate::worlds::CONFIG;
use std::alloc::Global;
use std::marker::Brand;
use std::process::Abort;
use std::sync::ledger::Share;
use sva_fabric::{Blanks, CallTokens, Entry, Ledgers, Receipt, Running, StepFault, Strayed};
use sva_step::{Answer, Step};

/// The receipt of a first space.
fn made() -> Receipt {
    Receipt {
        place: 0,
        step: Step::Space,
        answer: Ok(Answer::Space { space: 0 }),
    }
}

/// The call of port 1 that it is of.
fn call() -> Entry {
    Entry {
        port: 1,
        step: Step::Space,
        answer: Ok(Answer::Space { space: 0 }),
    }
}

/// A space, for a port whose last receipt is this one.
fn begins<C: Ledgers>(
    running: &mut Running<C>,
    port: u64,
    last: Option<Receipt>,
    calls: &mut Share<C>,
) -> Result<Receipt, StepFault>
    requires { 0 < calls.old.parts }
    ensures { calls.new.parts ≡ calls.old.parts }
{
    running.step(port, last, calls, &mut CallTokens::none(), &Step::Space)
}

/// Strays port 3 with the receipt, since this stands in its place?
fn strays<C: Ledgers>(running: &mut Running<C>, calls: &mut Share<C>, found: Option<Entry>) -> bool
    requires { 0 < calls.old.parts }
    ensures { calls.new.parts ≡ calls.old.parts }
{
    let strayed = begins(running, 3, Some(made()), calls);
    strayed == Err(StepFault::Strayed(Strayed { place: 0, found }))
}

/// Are no counts told to port 1 with the receipt, since nothing stands in its place?
fn tells_none<C: Ledgers>(running: &Running<C>) -> bool {
    let found = None;
    running.counts(1, Some(made())) == Err(Strayed { place: 0, found })
}

fn tried<C: Ledgers>(rt: &impl Abort, alloc: Global, blanks: Blanks)
    requires name { blanks.calls.name ≡ C.name }
    requires parts { (blanks.calls.parts ≡ C.parts) × (blanks.calls.parts ≡ 6) }
    requires bindings { blanks.bindings.name ≡ C.bindings }
    requires uses { blanks.uses.name ≡ C.uses }
    requires config { C.config ≡ CONFIG }
{
    let (books, mut share) = blanks.open::<C>();
    let Ok(mut running) = Running::<C>::open(alloc, CONFIG, books) else {
        panic!(rt; "it opens");
    };
    assert!(rt; tells_none(&running));
    assert!(rt; strays(&mut running, &mut share, None));
    assert!(rt; begins(&mut running, 1, None, &mut share) == Ok(made()));
    assert!(rt; strays(&mut running, &mut share, Some(call())));
    assert!(rt; begins(&mut running, 1, Some(made()), &mut share).is_ok());
    running.compare(&mut share);
}

#[test]
fn a_receipt_that_does_not_stand(rt: HostRuntime) {
    tried::<Brand>(&rt, rt.alloc(), Blanks::new(&CONFIG))
}
