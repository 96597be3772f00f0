//! Each form of a step's line. runs/commands has lines that miss it by a word.

use std::alloc::{AllocError, Global};
use std::process::Abort;
use sva_grammar::{ParseFault, parse};
use sva_step::{Step, Verdict};

/// A scenario of this step's line alone.
fn scenario_of(alloc: Global, line: &str) -> Result<Vec<u8>, AllocError> {
    let mut text = Vec::from_slice(alloc, b"config 1 4 1\n")?;
    text.extend_from_slice(line.as_bytes())?;
    Ok(text)
}

/// Does the line write this step?
fn is_read(alloc: Global, line: &str, step: &Step) -> Result<bool, AllocError> {
    let text = scenario_of(alloc, line)?;
    match parse(alloc, text.as_slice()) {
        Ok(scenario) => Ok(scenario.steps.as_slice() == [*step].as_slice()),
        Err(ParseFault::Line(_)) => Ok(false),
        Err(ParseFault::Memory) => Err(AllocError),
    }
}

/// Each line writes its step.
fn read_all<R: Abort + AllocGlobal>(rt: &R, lines: &[(&str, Step)]) -> Result<(), AllocError> {
    for (line, step) in lines {
        assert!(rt; is_read(rt.alloc(), line, step)?, "{line}");
    }
    Ok(())
}

/// Of space 2 and its page 16.
static STEPS_OF_SPACES: [(&str, Step); 9] = [
    ("space", Step::Space),
    ("drop 2", Step::DropSpace { space: 2 }),
    (
        "map 2 16 w",
        Step::Map {
            space: 2,
            page: 16,
            write: true,
        },
    ),
    (
        "map 2 16 r",
        Step::Map {
            space: 2,
            page: 16,
            write: false,
        },
    ),
    (
        "unmap 2 16",
        Step::Unmap {
            space: 2,
            page: 16,
            count: 1,
        },
    ),
    (
        "unmap 2 16 48",
        Step::Unmap {
            space: 2,
            page: 16,
            count: 48,
        },
    ),
    (
        "unmapr 2 16 4",
        Step::UnmapRange {
            space: 2,
            page: 16,
            order: 4,
        },
    ),
    ("look 5", Step::Look { frame: 5 }),
    ("bearer 32", Step::Bearer { pasid: 32 }),
];

#[test]
fn reads_steps_of_spaces(rt: HostRuntime) -> Result<(), AllocError> {
    read_all(&rt, &STEPS_OF_SPACES)
}

/// Of endpoint 1, space 2, binding 3 and worker 0.
static STEPS_OF_BINDINGS: [(&str, Step); 7] = [
    (
        "bind 1 2",
        Step::Bind {
            endpoint: 1,
            space: 2,
        },
    ),
    ("unbind 3", Step::Unbind { binding: 3 }),
    ("advance 3", Step::Advance { binding: 3 }),
    ("pump 1", Step::Pump { endpoint: 1 }),
    ("serve 1", Step::Serve { endpoint: 1 }),
    ("reset 1", Step::Reset { endpoint: 1 }),
    ("take 0", Step::Take { worker: 0 }),
];

#[test]
fn reads_steps_of_bindings(rt: HostRuntime) -> Result<(), AllocError> {
    read_all(&rt, &STEPS_OF_BINDINGS)
}

/// Of endpoint 1 and its PASID 32.
static STEPS_OF_ENDPOINTS: [(&str, Step); 7] = [
    (
        "ask 1 32 16",
        Step::Ask {
            endpoint: 1,
            pasid: 32,
            page: 16,
        },
    ),
    (
        "use 1 32 16 r",
        Step::BeginUse {
            endpoint: 1,
            pasid: 32,
            page: 16,
            write: false,
        },
    ),
    (
        "use 1 32 16 w",
        Step::BeginUse {
            endpoint: 1,
            pasid: 32,
            page: 16,
            write: true,
        },
    ),
    (
        "end 1 15",
        Step::EndUse {
            endpoint: 1,
            slot: 15,
        },
    ),
    (
        "evict 1 32 16",
        Step::Evict {
            endpoint: 1,
            pasid: 32,
            page: 16,
        },
    ),
    (
        "quit 1 32",
        Step::Quit {
            endpoint: 1,
            pasid: 32,
        },
    ),
    (
        "deliver 18446744073709551615",
        Step::Deliver { message: u64::MAX },
    ),
];

#[test]
fn reads_steps_of_endpoints(rt: HostRuntime) -> Result<(), AllocError> {
    read_all(&rt, &STEPS_OF_ENDPOINTS)
}

static REPLIES: [(&str, Step); 3] = [
    (
        "answer 3 success",
        Step::Reply {
            worker: 3,
            verdict: Verdict::Success,
        },
    ),
    (
        "answer 3 invalid",
        Step::Reply {
            worker: 3,
            verdict: Verdict::Invalid,
        },
    ),
    (
        "answer 3 failure",
        Step::Reply {
            worker: 3,
            verdict: Verdict::Failure,
        },
    ),
];

#[test]
fn reads_replies(rt: HostRuntime) -> Result<(), AllocError> {
    read_all(&rt, &REPLIES)
}

/// Of endpoint 1 and its PASID 32, for each of the three flags, for a new group and for one that has begun.
static PAGE_REQUESTS: [(&str, Step); 4] = [
    (
        "fault 1 32 16 r new more",
        Step::Fault {
            endpoint: 1,
            pasid: 32,
            page: 16,
            read: true,
            write: false,
            group: None,
            last: false,
        },
    ),
    (
        "fault 1 32 16 w new last",
        Step::Fault {
            endpoint: 1,
            pasid: 32,
            page: 16,
            read: false,
            write: true,
            group: None,
            last: true,
        },
    ),
    (
        "fault 1 32 16 rw 0 more",
        Step::Fault {
            endpoint: 1,
            pasid: 32,
            page: 16,
            read: true,
            write: true,
            group: Some(0),
            last: false,
        },
    ),
    (
        "fault 1 32 16 r 31 last",
        Step::Fault {
            endpoint: 1,
            pasid: 32,
            page: 16,
            read: true,
            write: false,
            group: Some(31),
            last: true,
        },
    ),
];

#[test]
fn reads_page_requests(rt: HostRuntime) -> Result<(), AllocError> {
    read_all(&rt, &PAGE_REQUESTS)
}

/// Bit T stands for ITag T: the ITags 0, 1 and 3 are written `0000000b`.
static VECTORS: [(&str, Step); 6] = [
    (
        "finish 1 0000000b 2",
        Step::Finish {
            endpoint: 1,
            vector: 0b1011,
            count: 2,
        },
    ),
    (
        "finish 1 00000000 2",
        Step::Finish {
            endpoint: 1,
            vector: 0,
            count: 2,
        },
    ),
    (
        "finish 1 00000001 2",
        Step::Finish {
            endpoint: 1,
            vector: 1,
            count: 2,
        },
    ),
    (
        "finish 1 80000000 2",
        Step::Finish {
            endpoint: 1,
            vector: 0x8000_0000,
            count: 2,
        },
    ),
    (
        "finish 1 0123abcd 2",
        Step::Finish {
            endpoint: 1,
            vector: 0x0123_abcd,
            count: 2,
        },
    ),
    (
        "finish 1 ffffffff 2",
        Step::Finish {
            endpoint: 1,
            vector: u32::MAX,
            count: 2,
        },
    ),
];

#[test]
fn reads_vectors(rt: HostRuntime) -> Result<(), AllocError> {
    read_all(&rt, &VECTORS)
}
