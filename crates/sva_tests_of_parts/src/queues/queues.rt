//! Runs of calls of an invalidation queue with its ITags.

ghost use Rattle.std.specs.Prelude.{◌≡◌};

use crate::asserted::holds;
use std::process::Abort;
use std::test::Fail;
use sva_itags::Count;
use sva_msg::Range;
use sva_queue::{Descriptor, Pumped, QueueFull, Unit};

/// A call of a unit, and what it answers.
#[derive(Clone, Copy)]
enum Call {
    Next(bool, Pumped),
    Pump(bool, Pumped),
    /// The vector, the count and the vector of the tags that are free by it.
    Arrive(u32, u8, u32),
    /// The place of the head among the descriptors that were submitted.
    Head(Option<usize>),
    Busy(u32),
    Front(u64),
    Room(usize),
    Open(bool),
    /// How many descriptors are submitted, and whether they are taken.
    Submit(u8, bool),
    BeginReset,
    EndReset,
}

fn arrives(unit: &mut Unit, vector: u32, count: u8) -> Option<u32> {
    if count == 0 || count > 8 {
        return None;
    }
    Some(unit.arrived(vector, Count::new(count)))
}

fn has_head(unit: &Unit, submitted: &[Descriptor], place: Option<usize>) -> bool {
    match place {
        Some(place) => unit.head() == submitted.get(place).copied(),
        None => unit.head().is_none(),
    }
}

fn answers(unit: &mut Unit, submitted: &[Descriptor], call: Call) -> bool {
    match call {
        Call::Next(prq_empty, pumped) => unit.next(prq_empty) == pumped,
        Call::Pump(prq_empty, pumped) => unit.pump(prq_empty) == pumped,
        Call::Arrive(vector, count, freed) => arrives(unit, vector, count) == Some(freed),
        Call::Head(place) => has_head(unit, submitted, place),
        Call::Busy(vector) => unit.busy() == vector,
        Call::Front(front) => unit.front() == front,
        Call::Room(room) => unit.room() == room,
        Call::Open(is_open) => unit.is_open() == is_open,
        Call::Submit(count, is_taken) => submits(unit, count) == is_taken,
        Call::BeginReset => {
            unit.begin_reset();
            true
        }
        Call::EndReset => {
            unit.end_reset();
            true
        }
    }
}

/// Makes the calls of a unit to which these descriptors were submitted.
fn run(rt: &impl Abort, unit: &mut Unit, submitted: &[Descriptor], calls: &[Call]) {
    for place in 0..calls.len() {
        holds(rt, answers(unit, submitted, calls[place]), "call", place);
    }
}

/// Submits one, two or 64 descriptors that aren't waits, and tells whether they were taken.
fn submits(unit: &mut Unit, count: u8) -> bool {
    if !unit.is_open() {
        return false;
    }
    match count {
        1 => unit.submit(&[Descriptor::Pasid { pasid: 1 }]) == Ok(()),
        2 => unit.submit(&[Descriptor::Pasid { pasid: 1 }; 2]) == Ok(()),
        _ => {
            let range = Range::new(16, 0);
            unit.submit(&[Descriptor::Range { pasid: 1, range }; 64]) == Ok(())
        }
    }
}

/// 64 descriptors fit in, and no other until the first one is sent.
static FULL: [Call; 9] = [
    Call::Submit(64, true),
    Call::Room(0),
    Call::Submit(1, false),
    Call::Submit(2, false),
    Call::Head(Some(0)),
    Call::Pump(true, Pumped::Issued(0)),
    Call::Room(1),
    Call::Submit(2, false),
    Call::Submit(1, true),
];

#[test]
fn holds_64_descriptors(rt: HostRuntime) {
    let range = Range::new(16, 0);
    let first = [Descriptor::Range { pasid: 1, range }];
    run(&rt, &mut Unit::new(), &first, &FULL);
}

fn wait(cookie: u64, drain: bool) -> Descriptor
    ensures { result ≡ Descriptor.Wait cookie drain }
{
    Descriptor::Wait { cookie, drain }
}

static TAG_AND_DRAIN: [Call; 8] = [
    Call::Pump(false, Pumped::Issued(0)),
    Call::Pump(false, Pumped::Blocked),
    Call::Arrive(1, 1, 1),
    Call::Pump(false, Pumped::Blocked),
    Call::Front(0),
    Call::Pump(true, Pumped::Done(7)),
    Call::Front(8),
    Call::Pump(true, Pumped::Idle),
];

#[test]
fn waits_for_tag_and_drain(rt: HostRuntime) {
    let mut unit = Unit::default();
    let range = Range::new(16, 2);
    let descriptors = [Descriptor::Range { pasid: 1, range }, wait(7, true)];
    assert!(rt; unit.submit(&descriptors) == Ok(()));
    run(&rt, &mut unit, &descriptors, &TAG_AND_DRAIN);
}

#[test]
fn says_that_the_queue_is_full(rt: HostRuntime) -> Result<(), Fail> {
    let text = format!(in rt.alloc(); "{QueueFull}")?;
    assert!(rt; text.as_str() == "the invalidation queue is full");
    Ok(())
}

/// Both tags wait for two; tag 0 has its second when tag 1 has its first. The wait with cookie 4 is void by the reset, and
/// isn't told to be done while the unit is in reset.
static UNTIL_A_RESET: [Call; 27] = [
    Call::Next(false, Pumped::Issued(0)),
    Call::Pump(false, Pumped::Issued(0)),
    Call::Head(Some(1)),
    Call::Pump(false, Pumped::Issued(1)),
    Call::Pump(true, Pumped::Blocked),
    Call::Arrive(0b01, 2, 0),
    Call::Arrive(0b11, 2, 0b01),
    Call::Busy(0b10),
    Call::Pump(true, Pumped::Blocked),
    Call::Arrive(0b10, 2, 0b10),
    Call::Front(0),
    Call::Pump(false, Pumped::Done(0)),
    Call::Front(1),
    Call::Pump(false, Pumped::Issued(0)),
    Call::Head(Some(4)),
    Call::Pump(true, Pumped::Blocked),
    Call::BeginReset,
    Call::Open(false),
    Call::Head(None),
    Call::Busy(0b01),
    Call::Pump(true, Pumped::Idle),
    Call::Front(1),
    Call::EndReset,
    Call::Open(true),
    Call::Busy(0),
    Call::Front(5),
    Call::Room(64),
];

#[test]
fn goes_in_order_until_a_reset(rt: HostRuntime) {
    let mut unit = Unit::new();
    let page = Descriptor::Range {
        pasid: 1,
        range: Range::new(17, 0),
    };
    let other = Descriptor::Range {
        pasid: 1,
        range: Range::new(32, 3),
    };
    let all = Descriptor::Pasid { pasid: 1 };
    let descriptors = [page, other, wait(0, false), all, wait(4, true)];
    assert!(rt; unit.submit(&descriptors) == Ok(()));
    run(&rt, &mut unit, &descriptors, &UNTIL_A_RESET);
}
