//! Runs of calls of the address spaces of a host, with their frames.

use crate::asserted::holds;
use std::alloc::Global;
use std::process::Abort;
use sva_address_spaces::AddressSpaces;
use sva_frames::{Counts, Place, Target, Waits};
use sva_step::{Answer, FrameList, Refusal};

pub(crate) fn counts(free: u32, mapped: u32, withheld: u32) -> Counts {
    Counts {
        free,
        mapped,
        withheld,
    }
}

/// Opens a memory. Where it is refused once, the same call again opens it.
pub(crate) fn open<R: Abort>(rt: &R, alloc: Global, frames: u32, first: u64) -> AddressSpaces {
    match AddressSpaces::open(alloc, frames, first) {
        Ok(memory) => memory,
        Err(_) => match AddressSpaces::open(alloc, frames, first) {
            Ok(memory) => memory,
            Err(_) => panic!(rt; "memory is refused once"),
        },
    }
}

/// Begins a space. Where memory is refused once, nothing has changed, and the same call again is answered.
fn space<R: Abort>(rt: &R, memory: &mut AddressSpaces) -> Result<Answer, Refusal> {
    let before = memory.counts();
    let result = memory.space();
    if result != Err(Refusal::OutOfMemory) {
        return result;
    }
    assert!(rt; memory.counts() == before);
    memory.space()
}

/// Maps a page, in the same way.
fn map<R: Abort>(
    rt: &R,
    memory: &mut AddressSpaces,
    space: u64,
    page: u64,
    write: bool,
) -> Result<Answer, Refusal> {
    let before = memory.counts();
    let result = memory.map(space, page, write);
    if result != Err(Refusal::OutOfMemory) {
        return result;
    }
    assert!(rt; memory.counts() == before);
    memory.map(space, page, write)
}

/// What an unmapping has to wait for.
#[derive(Clone, Copy)]
pub(crate) enum Wait {
    Nothing,
    /// A cookie at unit 0.
    Cookie(u64),
    /// A cookie at another unit.
    CookieAtUnit1(u64),
    CookieAtUnit7(u64),
    /// A cookie at unit 1, and the end of unit 2's reset.
    CookieAndReset(u64),
}

/// A call of a memory, and what it has to answer.
#[derive(Clone, Copy)]
pub(crate) enum Call {
    /// A space begins, of this number.
    Space(u64),
    /// So many spaces begin, with the numbers from 0 on.
    SpaceEach(u64),
    NoSpace(Refusal),
    Drop(u64),
    /// A space, a page and whether it may be written, and its frame.
    Map(u64, u64, bool, u32),
    /// So many pages of a space, from 0 on, and the first of their frames.
    MapEach(u64, u32, u32),
    NoMap(u64, u64, Refusal),
    /// A space, a page, a count, and the frames that they had.
    Unmap(u64, u64, u64, Wait, &'static [u32]),
    /// So many pages of space 0, from 0 on, each of which waits for a cookie of its own at unit 0.
    UnmapEach(u64),
    NoUnmap(u64, u64, u64, Refusal),
    /// A space, a page and an order, and how many frames.
    UnmapRange(u64, u64, u64, Wait, u32),
    NoUnmapRange(u64, u64, u64, Refusal),
    Settle(u64, u64),
    SettleAll(u64),
    /// How many frames are free, mapped and withheld.
    Count(u32, u32, u32),
    Look(u64, Place),
    NoLook(u64, Refusal),
    Find(u64, u64, Option<(u32, bool)>),
    HasSpace(u64, bool),
    HasRoom(Wait, bool),
}

fn waits_of(wait: Wait) -> Waits {
    let mut waits = Waits::new();
    match wait {
        Wait::Nothing => {}
        Wait::Cookie(cookie) => waits.push(0, Target::Cookie(cookie)),
        Wait::CookieAtUnit1(cookie) => waits.push(1, Target::Cookie(cookie)),
        Wait::CookieAtUnit7(cookie) => waits.push(7, Target::Cookie(cookie)),
        Wait::CookieAndReset(cookie) => {
            waits.push(1, Target::Cookie(cookie));
            waits.push(2, Target::ResetEnd);
        }
    }
    waits
}

fn begins<R: Abort>(rt: &R, memory: &mut AddressSpaces, number: u64) -> bool {
    space(rt, memory) == Ok(Answer::Space { space: number })
}

fn begins_each<R: Abort>(rt: &R, memory: &mut AddressSpaces, spaces: u64) -> bool {
    for number in 0..spaces {
        if !begins(rt, memory, number) {
            return false;
        }
    }
    true
}

fn drops(memory: &mut AddressSpaces, number: u64) -> bool {
    if !memory.has_space(number) {
        return false;
    }
    memory.drop_space(number);
    true
}

fn maps<R: Abort>(
    rt: &R,
    memory: &mut AddressSpaces,
    (space, page, write): (u64, u64, bool),
    frame: u32,
) -> bool {
    map(rt, memory, space, page, write) == Ok(Answer::Frame { frame })
}

fn maps_each<R: Abort>(
    rt: &R,
    memory: &mut AddressSpaces,
    space: u64,
    pages: u32,
    first: u32,
) -> bool {
    for page in 0..pages {
        if !maps(
            rt,
            memory,
            (space, u64::from(page), true),
            first.wrapping_add(page),
        ) {
            return false;
        }
    }
    true
}

/// Takes pages out where that is permitted and there is room for the waits.
pub(crate) fn unmapped(
    memory: &mut AddressSpaces,
    space: u64,
    page: u64,
    count: u64,
    wait: Wait,
) -> FrameList {
    let waits = waits_of(wait);
    if memory.may_unmap(space, page, count).is_err() || !memory.has_room(&waits) {
        return FrameList::new();
    }
    memory.unmap(space, page, count, &waits)
}

fn unmaps_each(memory: &mut AddressSpaces, pages: u64) -> bool {
    for page in 0..pages {
        if unmapped(memory, 0, page, 1, Wait::Cookie(page)).len() != 1 {
            return false;
        }
    }
    true
}

/// Takes a range out, in the same way.
fn unmapped_range(
    memory: &mut AddressSpaces,
    space: u64,
    page: u64,
    order: u64,
    wait: Wait,
) -> Option<u32> {
    let waits = waits_of(wait);
    if memory.may_unmap_range(space, page, order).is_err() || !memory.has_room(&waits) {
        return None;
    }
    Some(memory.unmap_range(space, page, order, &waits))
}

/// Makes a call that may change the memory.
fn make<R: Abort>(rt: &R, memory: &mut AddressSpaces, call: Call) -> bool {
    match call {
        Call::Space(number) => begins(rt, memory, number),
        Call::SpaceEach(spaces) => begins_each(rt, memory, spaces),
        Call::NoSpace(why) => space(rt, memory) == Err(why),
        Call::Drop(number) => drops(memory, number),
        Call::Map(space, page, write, frame) => maps(rt, memory, (space, page, write), frame),
        Call::MapEach(space, pages, first) => maps_each(rt, memory, space, pages, first),
        Call::NoMap(space, page, why) => map(rt, memory, space, page, true) == Err(why),
        _other => unmaps(memory, call),
    }
}

/// Makes a call that takes pages out or settles waits.
fn unmaps(memory: &mut AddressSpaces, call: Call) -> bool {
    match call {
        Call::Unmap(space, page, count, wait, frames) => {
            unmapped(memory, space, page, count, wait).as_slice() == frames
        }
        Call::UnmapEach(pages) => unmaps_each(memory, pages),
        Call::UnmapRange(space, page, order, wait, frames) => {
            unmapped_range(memory, space, page, order, wait) == Some(frames)
        }
        Call::Settle(unit, cookie) => {
            memory.settle(unit, cookie);
            true
        }
        Call::SettleAll(unit) => {
            memory.settle_all(unit);
            true
        }
        _reading => answers(memory, call),
    }
}

fn answer_of(place: Place) -> Answer {
    match place {
        Place::Free => Answer::Free,
        Place::Mapped => Answer::Mapped,
        Place::Withheld => Answer::Withheld,
    }
}

/// Whether a call that changes nothing answers as it has to.
fn answers(memory: &AddressSpaces, call: Call) -> bool {
    match call {
        Call::NoUnmap(space, page, count, why) => memory.may_unmap(space, page, count) == Err(why),
        Call::NoUnmapRange(space, page, order, why) => {
            memory.may_unmap_range(space, page, order) == Err(why)
        }
        Call::Count(free, mapped, withheld) => memory.counts() == counts(free, mapped, withheld),
        Call::Look(frame, place) => memory.look(frame) == Ok(answer_of(place)),
        Call::NoLook(frame, why) => memory.look(frame) == Err(why),
        Call::Find(space, page, found) => memory.find(space, page) == found,
        Call::HasSpace(space, is_there) => memory.has_space(space) == is_there,
        Call::HasRoom(wait, has_room) => memory.has_room(&waits_of(wait)) == has_room,
        _change => false,
    }
}

/// Makes the calls one after another.
pub(crate) fn make_each<R: Abort>(rt: &R, memory: &mut AddressSpaces, what: &str, calls: &[Call]) {
    for place in 0..calls.len() {
        holds(rt, make(rt, memory, calls[place]), what, place);
    }
}

/// Makes the calls of a memory, and then others.
fn run<R: Abort>(rt: &R, mut memory: AddressSpaces, what: &str, before: &[Call], calls: &[Call]) {
    make_each(rt, &mut memory, what, before);
    make_each(rt, &mut memory, what, calls);
}

/// One space, whose pages 16, 17 and 20 are mapped to frames 0, 1 and 2.
const THREE_MAPPED: [Call; 4] = [
    Call::Space(0),
    Call::Map(0, 16, true, 0),
    Call::Map(0, 17, true, 1),
    Call::Map(0, 20, true, 2),
];

const NOBODY_WAITS: [Call; 5] = [
    Call::Unmap(0, 16, 2, Wait::Nothing, &[0, 1]),
    Call::Count(3, 1, 0),
    Call::NoUnmap(0, 16, 2, Refusal::NotMapped),
    Call::UnmapRange(0, 16, 4, Wait::Nothing, 1),
    Call::Count(4, 0, 0),
];

const TWO_UNITS_WAIT: [Call; 9] = [
    Call::Unmap(0, 16, 2, Wait::CookieAndReset(5), &[0, 1]),
    Call::Count(1, 1, 2),
    Call::Look(0, Place::Withheld),
    Call::Settle(1, 4),
    Call::Settle(2, 5),
    Call::SettleAll(2),
    Call::Count(1, 1, 2),
    Call::Settle(1, 5),
    Call::Count(3, 1, 0),
];

const RANGE_WAITS: [Call; 5] = [
    Call::UnmapRange(0, 16, 2, Wait::CookieAtUnit7(9), 2),
    Call::Count(1, 1, 2),
    Call::NoUnmapRange(0, 16, 2, Refusal::NothingMapped),
    Call::Settle(7, 9),
    Call::Count(3, 1, 0),
];

/// The pages at both ends of a range go, mapped in falling order; those beside it stay.
const WHOLE_RANGE: [Call; 12] = [
    Call::Space(0),
    Call::Map(0, 32, true, 0),
    Call::Map(0, 31, true, 1),
    Call::Map(0, 16, true, 2),
    Call::Map(0, 15, true, 3),
    Call::UnmapRange(0, 16, 4, Wait::Nothing, 2),
    Call::Find(0, 32, Some((0, true))),
    Call::Find(0, 31, None),
    Call::Find(0, 16, None),
    Call::Find(0, 15, Some((3, true))),
    Call::Count(2, 2, 0),
    Call::NoUnmapRange(0, 16, 4, Refusal::NothingMapped),
];

const REFUSED_UNMAPPINGS: [Call; 12] = [
    Call::NoUnmap(1, 16, 0, Refusal::NoSuchSpace),
    Call::NoUnmap(0, 68719476736, 0, Refusal::BadCount),
    Call::NoUnmap(0, 16, 49, Refusal::BadCount),
    Call::NoUnmap(0, 68719476735, 2, Refusal::PageRange),
    Call::NoUnmap(0, 16, 3, Refusal::NotMapped),
    Call::NoUnmapRange(1, 16, 10, Refusal::NoSuchSpace),
    Call::NoUnmapRange(0, 17, 10, Refusal::BadOrder),
    Call::NoUnmapRange(0, 68719476735, 1, Refusal::PageRange),
    Call::NoUnmapRange(0, 17, 1, Refusal::NotAligned),
    Call::NoUnmapRange(0, 18, 1, Refusal::NothingMapped),
    Call::UnmapRange(0, 16, 1, Wait::Nothing, 2),
    Call::Count(3, 1, 0),
];

const SIXTY_FOUR_COOKIES: [Call; 7] = [
    Call::Space(0),
    Call::MapEach(0, 64, 0),
    Call::UnmapEach(64),
    Call::Count(1, 0, 64),
    Call::HasRoom(Wait::Cookie(63), true),
    Call::HasRoom(Wait::Cookie(64), false),
    Call::HasRoom(Wait::CookieAtUnit1(64), true),
];

const TWO_SPACES: [Call; 11] = [
    Call::Space(7),
    Call::Space(8),
    Call::HasSpace(7, true),
    Call::HasSpace(8, true),
    Call::HasSpace(0, false),
    Call::Map(8, 16, true, 0),
    Call::Map(7, 16, false, 1),
    Call::Count(1, 2, 0),
    Call::Look(1, Place::Mapped),
    Call::Look(2, Place::Free),
    Call::NoLook(3, Refusal::NoFrame),
];

const REFUSED_MAPS: [Call; 6] = [
    Call::NoMap(0, 68719476736, Refusal::NoSuchSpace),
    Call::Space(0),
    Call::NoMap(0, 68719476736, Refusal::PageRange),
    Call::Map(0, 68719476735, true, 0),
    Call::NoMap(0, 68719476735, Refusal::Mapped),
    Call::NoMap(0, 16, Refusal::NoFrame),
];

const DROPPED_SPACE: [Call; 11] = [
    Call::Space(0),
    Call::Space(1),
    Call::Map(0, 16, true, 0),
    Call::Map(1, 16, true, 1),
    Call::Map(0, 17, true, 2),
    Call::Drop(0),
    Call::HasSpace(0, false),
    Call::Count(3, 1, 0),
    Call::Look(1, Place::Mapped),
    Call::Look(2, Place::Free),
    Call::Space(2),
];

const LAST_NUMBER: [Call; 2] = [
    Call::Space(9223372036854775807),
    Call::NoSpace(Refusal::NumbersSpent),
];

const SIXTY_FOUR_SPACES: [Call; 2] = [Call::SpaceEach(64), Call::NoSpace(Refusal::TooManySpaces)];

/// Five spaces of twelve pages, for which each list and tree grows at least once.
const MANY_PAGES: [Call; 9] = [
    Call::SpaceEach(5),
    Call::MapEach(0, 12, 0),
    Call::MapEach(1, 12, 12),
    Call::MapEach(2, 12, 24),
    Call::MapEach(3, 12, 36),
    Call::MapEach(4, 12, 48),
    Call::Count(4, 60, 0),
    Call::Drop(2),
    Call::Count(16, 48, 0),
];

/// What each run shows, the frames of its memory and the number of its first space, its first calls, and its others.
static RUNS: [(&str, u32, u64, &[Call], &[Call]); 12] = [
    (
        "frees what nobody waits for",
        4,
        0,
        &THREE_MAPPED,
        &NOBODY_WAITS,
    ),
    (
        "withholds until all is settled",
        4,
        0,
        &THREE_MAPPED,
        &TWO_UNITS_WAIT,
    ),
    ("withholds a range", 4, 0, &THREE_MAPPED, &RANGE_WAITS),
    ("takes a range from end to end", 4, 0, &[], &WHOLE_RANGE),
    (
        "refuses an unmapping in order",
        4,
        0,
        &THREE_MAPPED,
        &REFUSED_UNMAPPINGS,
    ),
    (
        "has room for 64 cookies at a unit",
        65,
        0,
        &[],
        &SIXTY_FOUR_COOKIES,
    ),
    ("begins maps and looks", 3, 7, &[], &TWO_SPACES),
    ("refuses a map in order", 1, 0, &[], &REFUSED_MAPS),
    ("drops a space with its frames", 4, 0, &[], &DROPPED_SPACE),
    (
        "spends the last number",
        1,
        9223372036854775807,
        &[],
        &LAST_NUMBER,
    ),
    ("has 64 spaces", 1, 0, &[], &SIXTY_FOUR_SPACES),
    ("goes on where memory was refused", 64, 0, &[], &MANY_PAGES),
];

#[test]
fn answers_each_run_of_calls(rt: HostRuntime) {
    for place in 0..RUNS.len() {
        let (what, frames, first, before, calls) = RUNS[place];
        let memory = open(&rt, rt.alloc(), frames, first);
        run(&rt, memory, what, before, calls);
    }
}

#[test]
fn has_as_many_frames_as_it_was_opened_with(rt: HostRuntime) {
    assert!(rt; open(&rt, rt.alloc(), 3, 7).len() == 3);
}
