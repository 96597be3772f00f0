//! Ten thousand calls, each made at a pool and at its plain form, with equal answers.
use crate::asserted::holds;
use crate::frames::plain::{PlainPool, Wait};
use crate::frames::pools::{give, open, place, waits_of, withhold_or_give};
use std::alloc::{AllocError, Global};
use std::process::Abort;
use sva_frames::{Frame, FramePool, Target, UNITS, Waits};

/// Numbers from a fixed seed: a linear congruential generator with the multiplier and increment of Knuth's MMIX, of
/// which the upper bits are given out.
#[derive(Drop)]
struct Numbers {
    state: u64,
}

impl Numbers {
    /// The next number, below a bound; 0 where the bound is.
    fn below(&mut self, bound: u64) -> u64 {
        self.state = self
            .state
            .wrapping_mul(6_364_136_223_846_793_005)
            .wrapping_add(1_442_695_040_888_963_407);
        match bound {
            0 => 0,
            _ => (self.state >> 33) % bound,
        }
    }

    /// What a frame waits for at one unit: mostly nothing.
    fn target(&mut self) -> Option<Target> {
        match self.below(8) {
            0 => Some(Target::ResetEnd),
            1 | 2 => Some(Target::Cookie(self.below(90))),
            _ => None,
        }
    }
}

/// The waits of a frame, for the new pool and for the plain one.
fn some_waits(alloc: Global, numbers: &mut Numbers) -> Result<(Waits, Vec<Wait>), AllocError> {
    let mut targets = [None; UNITS];
    let mut plain = Vec::new(alloc);
    for unit in 0..UNITS {
        targets[unit] = numbers.target();
        if let Some(target) = targets[unit] {
            let unit = unit as u64;
            plain.push(Wait { unit, target })?;
        }
    }
    Ok((waits_of(&targets), plain))
}

/// How often a run met what it has to meet: counted as the pool answers.
#[derive(Drop)]
struct Met {
    /// Frames for whose waits there was room.
    withheld: u32,
    /// Frames that were given back, since there was no room for their waits.
    crowded: u32,
    /// Takes that found no free frame.
    empty: u32,
    /// Settlements that freed more than one frame.
    freed_many: u32,
}

impl Met {
    /// Notes what `withhold_or_give` answered.
    fn note(&mut self, made: Option<(u32, bool)>) {
        match made {
            Some((_number, true)) => self.withheld = self.withheld.wrapping_add(1),
            Some((_number, false)) => self.crowded = self.crowded.wrapping_add(1),
            None => self.empty = self.empty.wrapping_add(1),
        }
    }

    /// Notes a take that found no free frame.
    fn note_empty(&mut self) {
        self.empty = self.empty.wrapping_add(1);
    }

    /// Notes a settlement, before and after which so many frames are free.
    fn note_settled(&mut self, before: u32, after: u32) {
        if after.saturating_sub(before) > 1 {
            self.freed_many = self.freed_many.wrapping_add(1);
        }
    }

    /// Whether the run met each of these often enough to compare it.
    fn is_enough(&self) -> bool {
        self.withheld >= 1_000 && self.crowded >= 1 && self.empty >= 100 && self.freed_many >= 100
    }
}

/// A pool and a plain one, of which the same calls are made.
#[derive(Drop)]
struct Twins {
    pool: FramePool,
    plain: PlainPool,
    numbers: Numbers,
    met: Met,
}

/// The number of a frame, if one was taken.
fn number_of(taken: &Option<Frame>) -> Option<usize> {
    match taken {
        Some(frame) => Some(frame.number() as usize),
        None => None,
    }
}

impl Twins {
    fn new(pool: FramePool, plain: PlainPool) -> Twins {
        Twins {
            pool,
            plain,
            numbers: Numbers { state: 2026 },
            met: Met {
                withheld: 0,
                crowded: 0,
                empty: 0,
                freed_many: 0,
            },
        }
    }

    /// Gives a frame back that was taken of both.
    fn give<R: Abort>(&mut self, rt: &R, frame: Frame) {
        let number = frame.number() as usize;
        give(rt, &mut self.pool, frame);
        self.plain.give(number);
    }

    /// Takes a frame of both.
    fn take<R: Abort>(&mut self, rt: &R) -> Option<Frame> {
        let taken = self.pool.take();
        if taken.is_none() {
            self.met.note_empty();
        }
        assert!(rt; self.plain.take() == number_of(&taken));
        taken
    }

    /// Does the same with the plain pool, and tells whether that took the frame which the pool did.
    fn withhold_plain(&mut self, made: Option<(u32, bool)>, waits: Vec<Wait>) -> bool {
        let taken = self.plain.take();
        let Some((number, is_withheld)) = made else {
            return taken.is_none();
        };
        let number = number as usize;
        if is_withheld {
            self.plain.withhold(number, waits);
        } else {
            self.plain.give(number);
        }
        taken == Some(number)
    }

    /// Takes the lowest free frame of both and withholds it, or gives it back where there is no room for it. Whether both say the same.
    fn withhold(&mut self, waits: Waits, plain_waits: Vec<Wait>) -> bool {
        let have_room = self.pool.has_room(&waits) == self.plain.has_room(&plain_waits);
        let made = withhold_or_give(&mut self.pool, waits);
        self.met.note(made);
        self.withhold_plain(made, plain_waits) && have_room
    }

    /// The same for the next numbers.
    fn withhold_next<R: Abort>(&mut self, rt: &R, alloc: Global) {
        let (waits, plain_waits) = some_waits(alloc, &mut self.numbers).expect(rt, "memory");
        assert!(rt; self.withhold(waits, plain_waits));
    }

    fn settle(&mut self, unit: u64) {
        let cookie = self.numbers.below(90);
        let before = self.pool.counts().free;
        self.pool.settle(unit, cookie);
        self.plain.settle(unit, cookie);
        self.met.note_settled(before, self.pool.counts().free);
    }

    fn settle_all(&mut self, unit: u64) {
        self.pool.settle_all(unit);
        self.plain.settle_all(unit);
    }

    /// Gives the frame that is in hand, or takes one.
    fn give_or_take<R: Abort>(&mut self, rt: &R, hand: Option<Frame>) -> Option<Frame> {
        match hand {
            Some(frame) => {
                self.give(rt, frame);
                None
            }
            None => self.take(rt),
        }
    }

    /// Whether both count the same, and have the frame of this number at the same place.
    fn are_same(&self, number: u32) -> bool {
        self.pool.counts() == self.plain.counts()
            && place(&self.pool, number) == self.plain.place(number as usize)
    }
}

/// One call of both, by the next numbers. Of the frames at most one is in hand.
fn call_both<R: Abort>(
    rt: &R,
    alloc: Global,
    twins: &mut Twins,
    hand: Option<Frame>,
) -> Option<Frame> {
    let unit = twins.numbers.below(8);
    match twins.numbers.below(100) {
        0 => twins.settle_all(unit),
        1..=44 => twins.settle(unit),
        45..=54 => return twins.give_or_take(rt, hand),
        _ => twins.withhold_next(rt, alloc),
    }
    hand
}

/// So many calls of both, after each of which another frame is compared; the frame that is in hand at their end is given back.
fn call_each<R: Abort>(rt: &R, alloc: Global, twins: &mut Twins, calls: u32) {
    let mut hand = None;
    for call in 0..calls {
        hand = call_both(rt, alloc, twins, hand);
        holds(rt, twins.are_same(call % FRAMES), "call", call as usize);
    }
    if let Some(frame) = hand {
        twins.give(rt, frame);
    }
}

const FRAMES: u32 = 600;

/// Ten thousand calls find equal answers from the pool and from the plain one.
#[test]
fn answers_as_the_plain_pool(rt: HostRuntime) {
    let pool = open(&rt, rt.alloc(), FRAMES);
    let plain = PlainPool::open(rt.alloc(), FRAMES).expect(&rt, "memory");
    let mut twins = Twins::new(pool, plain);
    call_each(&rt, rt.alloc(), &mut twins, 10_000);
    // The calls were of all kinds.
    assert!(rt; twins.met.is_enough());
}
