//! Runs of calls of the ITags of a unit.

use crate::asserted::holds;
use std::process::Abort;
use sva_itags::{Count, Itags};

/// A call of tags, and what it has to answer.
#[derive(Clone, Copy)]
enum Call {
    /// So many tags are taken, the lowest from this one on.
    Take(u8, u8),
    /// No tag is free.
    TakeNone,
    /// A completion of these tags with this count, and the tags that are free by it.
    Arrive(u32, u8, u32),
    /// The same so often, and none is free by it.
    ArriveAgain(u32, u8, u8),
    Busy(u32),
    Lowest(Option<u8>),
    Clear,
}

/// Takes so many tags, and tells whether they were the ones from the first on.
fn takes(tags: &mut Itags, first: u8, count: u8) -> bool {
    for place in 0..count {
        if tags.take() != Some(first.wrapping_add(place)) {
            return false;
        }
    }
    true
}

/// The tags that are free by a completion.
fn arrives(tags: &mut Itags, vector: u32, count: u8) -> Option<u32> {
    if count == 0 || count > 8 {
        return None;
    }
    Some(tags.arrived(vector, Count::new(count)))
}

/// Is no tag free by so many completions?
fn arrives_again(tags: &mut Itags, vector: u32, count: u8, times: u8) -> bool {
    for _time in 0..times {
        if arrives(tags, vector, count) != Some(0) {
            return false;
        }
    }
    true
}

/// Makes a call, and tells whether it answers as it has to.
fn answers(tags: &mut Itags, call: Call) -> bool {
    match call {
        Call::Take(first, count) => takes(tags, first, count),
        Call::TakeNone => tags.take().is_none(),
        Call::Arrive(vector, count, freed) => arrives(tags, vector, count) == Some(freed),
        Call::ArriveAgain(vector, count, times) => arrives_again(tags, vector, count, times),
        Call::Busy(vector) => tags.busy() == vector,
        Call::Lowest(tag) => tags.lowest_free() == tag,
        Call::Clear => {
            tags.clear();
            true
        }
    }
}

/// Makes the calls one after another.
fn run<R: Abort>(rt: &R, mut tags: Itags, calls: &[Call]) {
    for place in 0..calls.len() {
        holds(rt, answers(&mut tags, calls[place]), "call", place);
    }
}

static TWO_COMPLETIONS: [Call; 6] = [
    Call::Take(0, 4),
    Call::Arrive(0x0000_000b, 2, 0),
    Call::Arrive(0x0000_000b, 2, 0x0000_000b),
    Call::Busy(0x0000_0004),
    Call::Lowest(Some(0)),
    Call::Take(0, 1),
];

#[test]
fn frees_at_the_last_completion(rt: HostRuntime) {
    run(&rt, Itags::new(), &TWO_COMPLETIONS);
}

/// All tags are taken. Two are free at once, the lowest and the highest, and then named once more; tags 1 and 2 wait for three,
/// and tag 1 has its second under another count, so that it is free with its third and tag 2 one later; tag 3 waits for eight.
static ALL_TAGS: [Call; 16] = [
    Call::Take(0, 32),
    Call::TakeNone,
    Call::Busy(0xffff_ffff),
    Call::Arrive(0x8000_0001, 1, 0x8000_0001),
    Call::Arrive(0x8000_0001, 1, 0),
    Call::Arrive(0x0000_0006, 3, 0),
    Call::Arrive(0x0000_0002, 1, 0),
    Call::Arrive(0x0000_0006, 3, 0x0000_0002),
    Call::Arrive(0x0000_000e, 8, 0x0000_0004),
    Call::ArriveAgain(0x0000_0008, 8, 6),
    Call::Arrive(0x0000_0008, 1, 0x0000_0008),
    Call::Busy(0x7fff_fff0),
    Call::Take(0, 4),
    Call::Take(31, 1),
    Call::Clear,
    Call::Busy(0),
];

#[test]
fn goes_by_the_first_count(rt: HostRuntime) {
    run(&rt, Itags::default(), &ALL_TAGS);
}

#[test]
fn a_count_of_eight_is_written_as_0(rt: HostRuntime) {
    assert!(rt; Count::from_field(0).get() == 8 && Count::new(8).field() == 0);
}
