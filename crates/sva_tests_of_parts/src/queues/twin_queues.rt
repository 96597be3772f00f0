//! Ten thousand calls, each made at a unit and at its plain form, with equal answers; and more with all tags busy.
ghost use Rattle.std.specs.Prelude.{◌≤◌, ◌<◌, ◌^◌, All};
ghost use Rattle.sva_queue.specs.Cookies.{AreRising, number_after, HasNumber};

use crate::asserted::holds;
use crate::queues::plain;
use std::process::Abort;
use sva_itags::Count;
use sva_msg::Range;
use sva_queue::{Descriptor, Pumped, Unit};

/// Numbers that look random: xorshift with 64 bits (Marsaglia, "Xorshift RNGs", 13, 7, 17).
#[derive(Drop)]
struct Numbers {
    state: u64,
}

impl Numbers {
    fn next(&mut self) -> u64 {
        self.state ^= self.state << 13;
        self.state ^= self.state >> 7;
        self.state ^= self.state << 17;
        self.state
    }
}

/// A unit, its plain form, and the next cookie, which is above all that were submitted.
#[derive(Drop)]
struct Twins {
    unit: Unit,
    plain: plain::Unit,
    cookie: u64,
    ghost above: { unit.back ≤ cookie },
}

impl Twins {
    fn new() -> Self {
        Twins {
            unit: Unit::new(),
            plain: plain::Unit::new(),
            cookie: 0,
        }
    }

    /// Submits at both, if they are open; `next` is the next cookie then.
    fn submit(&mut self, descriptors: &[Descriptor], next: u64) -> bool
        requires numbers { All HasNumber descriptors.now }
        requires rising { AreRising self.old.cookie descriptors.now }
        requires next { number_after self.old.cookie descriptors.now ≤ next }
    {
        if !self.unit.is_open() {
            return true;
        }
        let _in_order = self.unit.front();
        let are_same = self.unit.submit(descriptors) == self.plain.submit(descriptors);
        self.cookie = next;
        are_same
    }

    fn submit_some(&mut self, number: u64) -> bool {
        let cookie = self.cookie;
        if cookie >= 1 << 62 {
            return false;
        }
        let pasid = ((number >> 8) % 32 + 1) as u32;
        let Some(range) = Range::decode(number >> 28, (number >> 20) & 1 == 1) else {
            return true;
        };
        let some = Descriptor::Range { pasid, range };
        let all = Descriptor::Pasid { pasid };
        let drain = (number >> 16) & 1 == 1;
        let wait = Descriptor::Wait { cookie, drain };
        let second = Descriptor::Wait {
            cookie: cookie + 2,
            drain: !drain,
        };
        match (number >> 17) % 6 {
            0 => self.submit(&[some], cookie),
            1 => self.submit(&[wait], cookie + 1),
            2 => self.submit(&[some, wait], cookie + 1),
            3 => self.submit(&[all, wait, some, second], cookie + 3),
            4 => self.submit(&[some; 8], cookie),
            _ => self.submit(&[], cookie),
        }
    }

    /// A reset of both begins.
    fn begin_reset(&mut self) {
        self.unit.begin_reset();
        self.plain.begin_reset();
    }

    /// The reset of both has ended.
    fn end_reset(&mut self) {
        self.unit.end_reset();
        self.plain.end_reset();
    }

    /// Submits a range at both and pumps; whether the answers were the same.
    fn sends_one_more(&mut self) -> bool {
        let range = Range::new(16, 0);
        let cookie = self.cookie;
        self.submit(&[Descriptor::Range { pasid: 1, range }], cookie)
            && self.unit.pump(false) == self.plain.pump(false)
    }

    /// Whether all tags are busy and both answer that the head has to stay.
    fn are_blocked(&self) -> bool {
        self.unit.busy() == u32::MAX
            && self.unit.next(true) == Pumped::Blocked
            && self.plain.next(true) == Pumped::Blocked
    }

    /// One call at both, which the number chooses; whether the answers were the same.
    fn call(&mut self, number: u64) -> bool {
        let flag = (number >> 8) & 1 == 1;
        match number % 64 {
            0 => {
                self.begin_reset();
                true
            }
            1..=3 => {
                self.end_reset();
                true
            }
            4..=23 => self.submit_some(number),
            24..=43 => self.unit.pump(flag) == self.plain.pump(flag),
            _ => {
                let vector = (number >> 32) as u32;
                let count = if flag {
                    1
                } else {
                    ((number >> 9) % 8 + 1) as u8
                };
                let count = Count::new(count);
                self.unit.arrived(vector, count) == self.plain.arrived(vector, count)
            }
        }
    }

    /// Whether both give the same to every reader.
    fn are_same(&self) -> bool {
        self.unit.room() == self.plain.room()
            && self.unit.head() == self.plain.head()
            && self.unit.is_open() == self.plain.is_open()
            && self.unit.front() == self.plain.front()
            && self.unit.busy() == self.plain.busy()
            && self.unit.next(true) == self.plain.next(true)
            && self.unit.next(false) == self.plain.next(false)
    }
}

/// So many calls at both, by the next numbers.
fn call_both<R: Abort>(rt: &R, twins: &mut Twins, numbers: &mut Numbers, calls: u32) {
    for call in 0..calls {
        let are_alike = twins.call(numbers.next()) && twins.are_same();
        holds(rt, are_alike, "call", call as usize);
    }
}

/// From a reset on, ranges are submitted and sent, and no completion comes: 32 are sent, 64 fill the queue, and four find it full.
fn fill<R: Abort>(rt: &R, twins: &mut Twins) {
    twins.begin_reset();
    twins.end_reset();
    for range in 0..100 {
        holds(
            rt,
            twins.sends_one_more() && twins.are_same(),
            "range",
            range,
        );
    }
}

#[test]
fn ten_thousand_calls(rt: HostRuntime) {
    let mut twins = Twins::new();
    let mut numbers = Numbers {
        state: 0x9e37_79b9_7f4a_7c15,
    };
    call_both(&rt, &mut twins, &mut numbers, 10_000);
    // The calls were of all kinds: many waits were done, and many were made void.
    assert!(rt; twins.unit.front() > 1_000);
    // None of them found 32 busy tags: a thousand more begin with these.
    fill(&rt, &mut twins);
    assert!(rt; twins.are_blocked() && twins.unit.room() == 0);
    call_both(&rt, &mut twins, &mut numbers, 1_000);
}
