//! What each refusal says of which a line without numbers is told.

use std::alloc::{AllocError, Global};
use std::process::Abort;
use sva_core::World;
use sva_snapshot::explain;
use sva_step::{Config, Refusal, Step};
use sva_why::Explainer;

/// These refusals, and their lines. The other 26 say what holds the step back, where it is so: runs/scripts has 16 of
/// them, and examples/why has QueueFull, NoTag, NoUseSlot, TooManySpaces, NoCredit, NoFrame, NotStopping, Mapped,
/// AlreadyBound and NotLive.
static PLAIN: [(Refusal, &str); 17] = [
    (
        Refusal::BadConfig,
        "    endpoints are 1 to 8, frames 1 to 4096, workers 1 to 4\n",
    ),
    (
        Refusal::NoSuchEndpoint,
        "    the config has no endpoint of this number\n",
    ),
    (Refusal::NoSuchSpace, "    no live space has this number\n"),
    (Refusal::PageRange, "    pages are below 2^36\n"),
    (
        Refusal::NoSuchBinding,
        "    no unreleased binding has this number\n",
    ),
    (
        Refusal::ReadOnly,
        "    the translation that is held allows no write\n",
    ),
    (
        Refusal::NoSuchUse,
        "    the use slot is free, or none of 0 to 15\n",
    ),
    (
        Refusal::NoSuchGroup,
        "    the group is none of the pasid that still gets requests\n",
    ),
    (
        Refusal::BadCount,
        "    completions are counted 1 to 8, and pages taken out 1 to 48 at a time\n",
    ),
    (
        Refusal::NoSuchMessage,
        "    no message in flight has this number\n",
    ),
    (
        Refusal::NoSuchWorker,
        "    the config has no worker of this number\n",
    ),
    (
        Refusal::NumbersSpent,
        "    too few numbers are left below 2^63\n",
    ),
    (Refusal::OutOfMemory, "    there is no memory for it\n"),
    (Refusal::BadOrder, "    the order of a range is 0 to 9\n"),
    (
        Refusal::NotAligned,
        "    the first page is no multiple of the range's size\n",
    ),
    (
        Refusal::NothingMapped,
        "    no page of the range is mapped\n",
    ),
    (Refusal::BadPasid, "    pasids are 1 to 32\n"),
];

/// A world in which nothing was done yet.
fn opened<R: Abort>(rt: &R, alloc: Global) -> World {
    let config = Config {
        endpoints: 1,
        frames: 1,
        workers: 1,
        first: 0,
    };
    match World::open(alloc, config) {
        Ok(world) => world,
        Err(_) => panic!(rt; "the config is within its limits"),
    }
}

/// What is said of a step that is refused so.
fn said(alloc: Global, world: &World, refusal: Refusal) -> Result<Vec<u8>, AllocError> {
    let mut out = Vec::new(alloc);
    explain::<Explainer>(&mut out, alloc, world, &Step::Space, &Err(refusal))?;
    Ok(out)
}

#[test]
fn refusals_without_numbers(rt: HostRuntime) {
    let world = opened(&rt, rt.alloc());
    for (refusal, line) in &PLAIN {
        match said(rt.alloc(), &world, *refusal) {
            Ok(text) => assert!(rt; text.as_slice() == line.as_bytes(), "{line}"),
            Err(_refused) => panic!(&rt; "out of memory"),
        }
    }
}
