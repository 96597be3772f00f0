//! Runs of calls of a pool of frames.

use crate::asserted::holds;
use std::alloc::Global;
use std::process::Abort;
use sva_frames::{Counts, Frame, FramePool, PENDING, Place, Target, UNITS, Waits};

/// Opens a pool of so many frames. Where memory is refused once, the same call again opens it.
pub(crate) fn open<R: Abort>(rt: &R, alloc: Global, frames: u32) -> FramePool {
    match FramePool::open(alloc, frames) {
        Ok(pool) => pool,
        Err(_refused) => FramePool::open(alloc, frames).expect(rt, "memory is refused once"),
    }
}

/// Gives a frame back to its pool.
pub(crate) fn give<R: Abort>(rt: &R, pool: &mut FramePool, frame: Frame) {
    let number = frame.number();
    assert!(rt; (number as usize) < pool.len());
    match pool.place(number) {
        Place::Mapped => pool.give(frame),
        _other => panic!(rt; "a frame was given back before"),
    }
}

/// A call of a pool, and what it has to answer.
#[derive(Clone, Copy)]
enum Call {
    /// The lowest free frame is withheld until these targets are settled at their units. Its number, or `None` where no
    /// frame is free or a unit has no room.
    Withhold(&'static [(usize, Target)], Option<u32>),
    /// So many frames are withheld, each until a cookie of its own is settled at a unit; both count from 0.
    WithholdInTurn(usize, u32),
    /// So many frames, from 0 on, are withheld until the same targets are settled.
    WithholdAlike(&'static [(usize, Target)], u32),
    /// A frame is taken, and given back. Its number, and the counts while it is in hand.
    TakeAndGive(u32, Counts),
    Settle(u64, u64),
    SettleAll(u64),
    /// Where a frame is.
    Look(u32, Place),
    /// How many frames are free, and how many withheld. None is mapped.
    Count(u32, u32),
    /// Whether there is room for these waits.
    AskRoom(&'static [(usize, Target)], bool),
    /// Whether the pool was opened with no frame.
    AskEmpty(bool),
}

/// The place of a frame, where the pool has one of that number.
pub(crate) fn place(pool: &FramePool, number: u32) -> Option<Place> {
    if (number as usize) < pool.len() {
        Some(pool.place(number))
    } else {
        None
    }
}

/// The waits for these targets, each at the unit of its place.
pub(crate) fn waits_of(targets: &[Option<Target>; UNITS]) -> Waits {
    let mut waits = Waits::new();
    for unit in 0..UNITS {
        if let Some(target) = targets[unit] {
            waits.push(unit as u64, target);
        }
    }
    waits
}

/// The waits for these targets at their units, each of 0 to 7.
fn waits_for(targets_by_unit: &[(usize, Target)]) -> Waits {
    let mut targets = [None; UNITS];
    for pair in targets_by_unit {
        let (unit, target) = *pair;
        if unit < UNITS {
            targets[unit] = Some(target);
        }
    }
    waits_of(&targets)
}

/// Takes the lowest free frame and withholds it; where a unit has no room it is given back. Its number, and whether it is withheld.
pub(crate) fn withhold_or_give(pool: &mut FramePool, waits: Waits) -> Option<(u32, bool)> {
    let frame = pool.take()?;
    let number = frame.number();
    if pool.has_room(&waits) {
        pool.withhold(frame, waits);
        Some((number, true))
    } else {
        pool.give(frame);
        Some((number, false))
    }
}

/// Withholds the lowest free frame, and answers its number. Where a unit has no room the frame is given back.
fn withhold_lowest(pool: &mut FramePool, waits: Waits) -> Option<u32> {
    match withhold_or_give(pool, waits) {
        Some((number, true)) => Some(number),
        _other => None,
    }
}

/// Withholds so many frames, each for a cookie of its own at a unit, and tells whether each had the number of its cookie.
fn withhold_in_turn(pool: &mut FramePool, unit: usize, frames: u32) -> bool {
    for frame in 0..frames {
        let waits = waits_for(&[(unit, Target::Cookie(u64::from(frame)))]);
        if withhold_lowest(pool, waits) != Some(frame) {
            return false;
        }
    }
    true
}

/// Withholds so many frames with copies of the same waits, and tells whether they were those from 0 on.
fn withhold_alike(pool: &mut FramePool, targets: &[(usize, Target)], frames: u32) -> bool {
    let waits = waits_for(targets);
    for frame in 0..frames {
        if withhold_lowest(pool, waits.copied()) != Some(frame) {
            return false;
        }
    }
    true
}

/// Takes a frame and gives it back; its number, and the counts while it is in hand.
fn take_and_give(pool: &mut FramePool) -> Option<(u32, Counts)> {
    let frame = pool.take()?;
    let found = (frame.number(), pool.counts());
    pool.give(frame);
    Some(found)
}

/// Counts of frames of which none is mapped.
fn unmapped(free: u32, withheld: u32) -> Counts {
    Counts {
        free,
        mapped: 0,
        withheld,
    }
}

/// Makes a call that may change the pool, and tells whether it answers as it has to.
fn answers(pool: &mut FramePool, call: Call) -> bool {
    match call {
        Call::Withhold(targets, number) => withhold_lowest(pool, waits_for(targets)) == number,
        Call::WithholdInTurn(unit, frames) => withhold_in_turn(pool, unit, frames),
        Call::WithholdAlike(targets, frames) => withhold_alike(pool, targets, frames),
        Call::TakeAndGive(number, counts) => take_and_give(pool) == Some((number, counts)),
        Call::Settle(unit, cookie) => {
            pool.settle(unit, cookie);
            true
        }
        Call::SettleAll(unit) => {
            pool.settle_all(unit);
            true
        }
        _reading => tells(pool, call),
    }
}

/// Whether a call that changes nothing answers as it has to.
fn tells(pool: &FramePool, call: Call) -> bool {
    match call {
        Call::Look(number, found) => place(pool, number) == Some(found),
        Call::Count(free, withheld) => pool.counts() == unmapped(free, withheld),
        Call::AskRoom(targets, has_room) => pool.has_room(&waits_for(targets)) == has_room,
        Call::AskEmpty(is_empty) => pool.is_empty() == is_empty,
        _change => false,
    }
}

/// Makes the calls one after another.
fn make<R: Abort>(rt: &R, pool: &mut FramePool, what: &str, calls: &[Call]) {
    for place in 0..calls.len() {
        holds(rt, answers(pool, calls[place]), what, place);
    }
}

/// Opens a pool of so many frames, and makes the calls.
fn run<R: Abort>(rt: &R, alloc: Global, what: &str, frames: u32, calls: &[Call]) {
    let mut pool = open(rt, alloc, frames);
    make(rt, &mut pool, what, calls);
}

#[test]
fn waits_tell_whether_they_are_empty(rt: HostRuntime) {
    let mut waits = Waits::new();
    assert!(rt; waits.is_empty());
    waits.push(1, Target::Cookie(6));
    waits.push(0, Target::ResetEnd);
    assert!(rt; !waits.is_empty());
    assert!(rt; !waits.copied().is_empty());
}

const TWO_UNITS: [Call; 8] = [
    Call::Withhold(&[(0, Target::Cookie(5)), (1, Target::Cookie(6))], Some(0)),
    Call::Settle(0, 5),
    Call::Settle(1, 5),
    Call::Look(0, Place::Withheld),
    Call::Settle(1, 6),
    Call::Look(0, Place::Free),
    Call::Withhold(&[], Some(0)),
    Call::Look(0, Place::Free),
];

/// A reset and a cookie, then another cookie of the same unit, then both cookies. What is settled: the unit's cookie, then
/// another unit's, one that nobody waits for, and the reset's end.
const THREE_FRAMES: [Call; 17] = [
    Call::Withhold(&[(2, Target::ResetEnd), (3, Target::Cookie(9))], Some(0)),
    Call::Withhold(&[(2, Target::Cookie(7))], Some(1)),
    Call::Withhold(&[(3, Target::Cookie(9)), (2, Target::Cookie(7))], Some(2)),
    Call::Withhold(&[(3, Target::Cookie(9)), (2, Target::Cookie(7))], None),
    Call::Count(0, 3),
    Call::Settle(2, 7),
    Call::Count(1, 2),
    Call::Look(1, Place::Free),
    Call::Settle(3, 9),
    Call::Look(2, Place::Free),
    Call::Look(0, Place::Withheld),
    Call::Settle(2, 9),
    Call::SettleAll(3),
    Call::Count(2, 1),
    Call::SettleAll(2),
    Call::Count(3, 0),
    Call::AskEmpty(false),
];

const LOWEST_FIRST: [Call; 6] = [
    Call::Withhold(&[(7, Target::ResetEnd)], Some(0)),
    Call::TakeAndGive(
        1,
        Counts {
            free: 0,
            mapped: 1,
            withheld: 1,
        },
    ),
    Call::Count(1, 1),
    Call::SettleAll(7),
    Call::Count(2, 0),
    Call::Withhold(&[], Some(0)),
];

/// Both frames get the same waits.
const TWO_ALIKE: [Call; 9] = [
    Call::Withhold(&[(7, Target::Cookie(27)), (0, Target::Cookie(20))], Some(0)),
    Call::Withhold(&[(7, Target::Cookie(27)), (0, Target::Cookie(20))], Some(1)),
    Call::Settle(0, 20),
    Call::Settle(7, 20),
    Call::Look(0, Place::Withheld),
    Call::Look(1, Place::Withheld),
    Call::Settle(7, 27),
    Call::Look(0, Place::Free),
    Call::Look(1, Place::Free),
];

const EVERYWHERE: [(usize, Target); UNITS] = [
    (0, Target::Cookie(30)),
    (1, Target::Cookie(30)),
    (2, Target::Cookie(30)),
    (3, Target::Cookie(30)),
    (4, Target::Cookie(30)),
    (5, Target::Cookie(30)),
    (6, Target::Cookie(30)),
    (7, Target::Cookie(30)),
];

/// The middle one of three frames in the chain of unit 5 waits at all eight units.
const EIGHT_UNITS: [Call; 19] = [
    Call::Withhold(&[(5, Target::Cookie(30))], Some(0)),
    Call::Withhold(&EVERYWHERE, Some(1)),
    Call::Withhold(&[(5, Target::Cookie(30))], Some(2)),
    Call::Settle(5, 30),
    Call::Count(2, 1),
    Call::Settle(0, 30),
    Call::Look(1, Place::Withheld),
    Call::Settle(1, 30),
    Call::Look(1, Place::Withheld),
    Call::Settle(2, 30),
    Call::Look(1, Place::Withheld),
    Call::Settle(3, 30),
    Call::Look(1, Place::Withheld),
    Call::Settle(4, 30),
    Call::Look(1, Place::Withheld),
    Call::Settle(6, 30),
    Call::Look(1, Place::Withheld),
    Call::Settle(7, 30),
    Call::Count(3, 0),
];

/// A frame joins the chain of a cookie that isn't the newest of its unit.
const OLDER_CHAIN: [Call; 11] = [
    Call::Withhold(&[(2, Target::Cookie(11))], Some(0)),
    Call::Withhold(&[(2, Target::Cookie(12))], Some(1)),
    Call::Withhold(&[(2, Target::Cookie(13))], Some(2)),
    Call::Withhold(&[(2, Target::Cookie(11))], Some(3)),
    Call::Settle(2, 12),
    Call::Count(1, 3),
    Call::Look(1, Place::Free),
    Call::Settle(2, 11),
    Call::Look(0, Place::Free),
    Call::Look(3, Place::Free),
    Call::Look(2, Place::Withheld),
];

/// A unit has room for as many cookies as may be pending there, and for each of these again.
const SIXTY_FOUR_PENDING: [Call; 7] = [
    Call::WithholdInTurn(6, PENDING as u32),
    Call::Count(36, 64),
    Call::AskRoom(&[(6, Target::Cookie(64))], false),
    Call::AskRoom(&[(6, Target::Cookie(40))], true),
    Call::AskRoom(&[(7, Target::Cookie(64))], true),
    Call::Settle(6, 40),
    Call::AskRoom(&[(6, Target::Cookie(64))], true),
];

/// A pool of more frames than one word of its summary names finds the lowest free one past all others.
const LAST_OF_MANY: [Call; 6] = [
    Call::WithholdAlike(&[(0, Target::Cookie(1))], 4199),
    Call::Withhold(&[], Some(4199)),
    Call::Count(1, 4199),
    Call::Settle(0, 1),
    Call::Count(4200, 0),
    Call::Withhold(&[(0, Target::Cookie(2))], Some(0)),
];

/// What each run shows, the frames of its pool, and its calls.
static RUNS: [(&str, u32, &[Call]); 8] = [
    ("waits for both units", 4, &TWO_UNITS),
    ("settles in turn", 3, &THREE_FRAMES),
    ("takes the lowest", 2, &LOWEST_FIRST),
    ("two frames wait alike", 2, &TWO_ALIKE),
    ("waits at eight units", 3, &EIGHT_UNITS),
    ("joins an older chain", 4, &OLDER_CHAIN),
    ("has room for the pending", 100, &SIXTY_FOUR_PENDING),
    ("takes the last of many", 4200, &LAST_OF_MANY),
];

#[test]
fn answers_each_run_of_calls(rt: HostRuntime) {
    for place in 0..RUNS.len() {
        let (what, frames, calls) = RUNS[place];
        run(&rt, rt.alloc(), what, frames, calls);
    }
}
