//! What a job asks for is mapped, and taken back.

use crate::address_spaces::memories::{Call, Wait, counts, make_each, open, unmapped};
use arrayvec::ArrayVec;
use std::alloc::Global;
use std::process::Abort;
use sva_address_spaces::{AddressSpaces, MOST_ASKED};
use sva_prq::Ask;
use sva_step::{Answer, Refusal};

fn ask(page: u64, write: bool) -> Ask {
    Ask {
        page,
        read: true,
        write,
    }
}

/// Maps what a job asks for where that is permitted. Where memory is refused once, nothing has changed, and the same call
/// again maps it.
fn map_all<R: Abort>(
    rt: &R,
    memory: &mut AddressSpaces,
    space: u64,
    asks: &[Ask],
) -> ArrayVec<u64, MOST_ASKED> {
    let before = memory.counts();
    assert!(rt; memory.has_space(space) && asks.len() <= MOST_ASKED);
    assert!(rt; memory.may_map_all(space, asks).is_ok());
    if let Ok(pages) = memory.map_all(space, asks) {
        return pages;
    }
    assert!(rt; memory.counts() == before);
    match memory.map_all(space, asks) {
        Ok(pages) => pages,
        Err(_) => panic!(rt; "memory is refused once"),
    }
}

/// Whether a job that asks for these pages of space 0 is refused, and for this cause.
fn is_refused(memory: &AddressSpaces, asks: &[Ask], why: Refusal) -> bool {
    memory.has_space(0) && asks.len() <= MOST_ASKED && memory.may_map_all(0, asks) == Err(why)
}

/// Space 0, whose page 17 has frame 1.
static ONE_MAPPED: [Call; 4] = [
    Call::Space(0),
    Call::Map(0, 16, true, 0),
    Call::Map(0, 17, true, 1),
    Call::Unmap(0, 16, 1, Wait::Nothing, &[0]),
];

/// A job asks for pages 30, 17 and 21 of space 0, and for page 30 once more, to be written: pages 30 and 21 are mapped, page 21 not to
/// be written.
fn map_job<R: Abort>(rt: &R, memory: &mut AddressSpaces) {
    let asks = [
        ask(30, false),
        ask(17, false),
        ask(21, false),
        ask(30, true),
    ];
    let pages = map_all(rt, memory, 0, &asks);
    assert!(rt; pages.as_slice() == [30, 21].as_slice());
}

/// Page 17 is mapped, and frame 1 is its own; the job's pages 30 and 21 get frames 0 and 2.
fn job_mapped<R: Abort>(rt: &R, alloc: Global) -> AddressSpaces {
    let mut memory = open(rt, alloc, 4, 0);
    make_each(rt, &mut memory, "one page", &ONE_MAPPED);
    map_job(rt, &mut memory);
    memory
}

/// Whether a job may write a page of space 0.
fn may_write(memory: &AddressSpaces, page: u64) -> bool {
    memory.has_space(0) && memory.may_map_all(0, &[ask(page, true)]).is_ok()
}

/// Whether a job is refused that would write page 21, and one for which there are too few frames.
fn refuses(memory: &AddressSpaces) -> bool {
    let too_many = [ask(40, true), ask(41, true), ask(21, false)];
    is_refused(memory, &[ask(21, true)], Refusal::BadVerdict)
        && is_refused(memory, &too_many, Refusal::NoFrame)
}

#[test]
fn maps_what_a_job_asks_for(rt: HostRuntime) {
    let memory = job_mapped(&rt, rt.alloc());
    assert!(rt; memory.counts() == counts(1, 3, 0));
    assert!(rt; may_write(&memory, 30) && refuses(&memory));
}

#[test]
fn takes_back_what_a_job_mapped(rt: HostRuntime) {
    let mut memory = job_mapped(&rt, rt.alloc());
    memory.take_back(0, &[21, 50]);
    assert!(rt; memory.look(2) == Ok(Answer::Free));
    assert!(rt; unmapped(&mut memory, 0, 30, 1, Wait::Nothing).len() == 1);
    assert!(rt; memory.counts() == counts(3, 1, 0));
}
