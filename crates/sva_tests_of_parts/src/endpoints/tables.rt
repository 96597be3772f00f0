//! Runs of calls of each of an endpoint's tables.

use crate::asserted::holds;
use std::process::Abort;
use sva_endpoint::{
    Extent, GroupPlace, GroupTable, Invalidation, PasidState, PasidStates, RequestTag, RequestTags,
    Taken, TakenTable, Use, UseSlot, UseSlots,
};
use sva_msg::Range;

fn in_range(range: Range) -> Invalidation {
    Invalidation {
        pasid: 1,
        extent: Extent::Pages(range),
    }
}

static STATES: [(u64, PasidState); 6] = [
    (0, PasidState::Off),
    (1, PasidState::Off),
    (2, PasidState::Stopping),
    (32, PasidState::On),
    (33, PasidState::Off),
    (u64::MAX, PasidState::Off),
];

static SET_ON: [u32; 4] = [0, 32, 33, u32::MAX];

/// PASID 32 is on, and PASID 2 stops.
fn two_pasids() -> PasidStates {
    let mut states = PasidStates::new();
    for place in 0..SET_ON.len() {
        states.set(SET_ON[place], PasidState::On);
    }
    states.set(2, PasidState::Stopping);
    states
}

#[test]
fn pasids_are_1_to_32(rt: HostRuntime) {
    let states = two_pasids();
    for place in 0..STATES.len() {
        let (pasid, state) = STATES[place];
        holds(&rt, states.state_of(pasid) == state, "state", place);
    }
}

/// The label of PASID 32, where it isn't off.
fn last_label(states: &PasidStates) -> Option<u32> {
    if states.state_of(32).is_off() {
        return None;
    }
    Some(states.label(32))
}

/// Is a state told to be on, and to be stopping?
fn is_told(state: PasidState, on: bool, stopping: bool) -> bool {
    state.is_on() == on && state.is_stopping() == stopping
}

#[test]
fn states_are_told_apart(rt: HostRuntime) {
    let states = two_pasids();
    assert!(rt; is_told(states.state_of(32), true, false));
    assert!(rt; is_told(states.state_of(2), false, true));
    assert!(rt; last_label(&states) == Some(32));
}

/// A call of request tags, and what it has to answer.
#[derive(Clone, Copy)]
enum TagCall {
    Lowest(Option<u8>),
    /// A tag is taken for a page, under PASID 1.
    Take(u8, u64),
    /// The requests for this page alone are doomed.
    DoomPage16,
    Asks(u64, bool),
    Free(u8, RequestTag),
}

fn takes(tags: &mut RequestTags, tag: u8, page: u64) -> bool {
    if tag >= 32 {
        return false;
    }
    tags.take(tag, 1, page);
    true
}

fn tags_answer(tags: &mut RequestTags, call: TagCall) -> bool {
    match call {
        TagCall::Lowest(tag) => tags.lowest_free() == tag,
        TagCall::Take(tag, page) => takes(tags, tag, page),
        TagCall::DoomPage16 => {
            tags.doom(&in_range(Range::new(16, 0)));
            true
        }
        TagCall::Asks(pasid, are_there) => tags.asks_under(pasid) == are_there,
        TagCall::Free(tag, was) => tags.free(tag) == was,
    }
}

static DOOMED: [TagCall; 14] = [
    TagCall::Lowest(Some(0)),
    TagCall::Take(0, 16),
    TagCall::Take(1, 17),
    TagCall::DoomPage16,
    TagCall::Lowest(Some(2)),
    TagCall::Asks(1, true),
    TagCall::Asks(2, false),
    TagCall::Free(1, RequestTag::Out { pasid: 1, page: 17 }),
    TagCall::Asks(1, true),
    TagCall::Free(32, RequestTag::Free),
    TagCall::Free(0, RequestTag::Doomed { pasid: 1, page: 16 }),
    TagCall::Free(0, RequestTag::Free),
    TagCall::Asks(1, false),
    TagCall::Lowest(Some(0)),
];

#[test]
fn a_doomed_request_keeps_its_tag(rt: HostRuntime) {
    let mut tags = RequestTags::new();
    for place in 0..DOOMED.len() {
        holds(&rt, tags_answer(&mut tags, DOOMED[place]), "call", place);
    }
}

/// A call of slots, and what it has to answer.
#[derive(Clone, Copy)]
enum SlotCall {
    Lowest(Option<u8>),
    /// A use of a page begins in a slot.
    Begin(u8, u64),
    Runs(u64, bool),
    At(u64, UseSlot),
    /// The slot whose use alone an invalidation of page 17 covers.
    Covered(usize),
    CutOff,
    Free(u64),
}

fn begun(page: u64) -> Use {
    Use {
        pasid: 1,
        page,
        frame: 3,
        write: false,
    }
}

fn begins(uses: &mut UseSlots, slot: u8, page: u64) -> bool {
    if slot >= 16 {
        return false;
    }
    uses.begin(slot, begun(page));
    true
}

/// Does an invalidation of page 17 cover the use in this slot, and no other?
fn covers(uses: &UseSlots, slot: usize) -> bool {
    let covered = uses.covered(&in_range(Range::new(17, 0)));
    for place in 0..16 {
        if covered[place] != (place == slot) {
            return false;
        }
    }
    true
}

fn slots_answer(uses: &mut UseSlots, call: SlotCall) -> bool {
    match call {
        SlotCall::Lowest(slot) => uses.lowest_free() == slot,
        SlotCall::Begin(slot, page) => begins(uses, slot, page),
        SlotCall::Runs(pasid, is_so) => uses.runs_under(pasid) == is_so,
        SlotCall::At(slot, found) => uses.at(slot) == found,
        SlotCall::Covered(slot) => covers(uses, slot),
        SlotCall::CutOff => {
            uses.cut_off();
            true
        }
        SlotCall::Free(slot) => {
            uses.free(slot);
            true
        }
    }
}

/// Makes the calls of new slots.
fn use_slots<R: Abort>(rt: &R, calls: &[SlotCall]) {
    let mut uses = UseSlots::new();
    for place in 0..calls.len() {
        holds(rt, slots_answer(&mut uses, calls[place]), "call", place);
    }
}

/// Uses of pages 16 and 17 run in slots 0 and 15.
static RUNNING: [SlotCall; 8] = [
    SlotCall::Lowest(Some(0)),
    SlotCall::Begin(0, 16),
    SlotCall::Begin(15, 17),
    SlotCall::Runs(1, true),
    SlotCall::Runs(2, false),
    SlotCall::At(
        0,
        UseSlot::Running(Use {
            pasid: 1,
            page: 16,
            frame: 3,
            write: false,
        }),
    ),
    SlotCall::At(16, UseSlot::Free),
    SlotCall::Covered(15),
];

#[test]
fn a_use_runs_in_its_slot(rt: HostRuntime) {
    use_slots(&rt, &RUNNING);
}

static CUT_OFF: [SlotCall; 10] = [
    SlotCall::Begin(0, 16),
    SlotCall::Begin(15, 17),
    SlotCall::CutOff,
    SlotCall::Runs(1, false),
    SlotCall::Lowest(Some(1)),
    SlotCall::At(0, UseSlot::Dead),
    SlotCall::At(1, UseSlot::Free),
    SlotCall::Free(0),
    SlotCall::At(0, UseSlot::Free),
    SlotCall::At(15, UseSlot::Dead),
];

#[test]
fn a_use_that_is_cut_off_keeps_its_slot(rt: HostRuntime) {
    use_slots(&rt, &CUT_OFF);
}

/// A call of invalidations that were taken, and what it has to answer.
#[derive(Clone, Copy)]
enum TakenCall {
    /// An ITag, and whether the use in slot 3 is noted.
    Take(u8, bool),
    Pending(u32, bool),
    Waiting(u32, bool),
    Forget(u64),
    Complete(u32),
}

/// What is taken of page 16, by which a use in slot 3 is noted or none.
fn taken(is_noted: bool) -> Taken {
    let mut noted = [false; 16];
    noted[3] = is_noted;
    Taken {
        invalidation: in_range(Range::new(16, 0)),
        noted,
    }
}

fn taken_answer(table: &mut TakenTable, call: TakenCall) -> bool {
    match call {
        TakenCall::Pending(vector, are) => return table.are_pending(vector) == are,
        TakenCall::Waiting(vector, is_one) => return table.is_one_waiting(vector) == is_one,
        TakenCall::Take(itag, is_noted) => table.take(itag, taken(is_noted)),
        TakenCall::Forget(slot) => table.forget(slot),
        TakenCall::Complete(vector) => table.complete(vector),
    }
    true
}

static NOTED: [TakenCall; 13] = [
    TakenCall::Take(31, true),
    TakenCall::Take(0, false),
    TakenCall::Pending(0x8000_0001, true),
    TakenCall::Pending(0x8000_0003, false),
    TakenCall::Waiting(0x8000_0001, true),
    TakenCall::Waiting(1, false),
    TakenCall::Forget(4),
    TakenCall::Waiting(0x8000_0000, true),
    TakenCall::Forget(3),
    TakenCall::Waiting(0x8000_0000, false),
    TakenCall::Complete(0x8000_0000),
    TakenCall::Pending(1, true),
    TakenCall::Pending(0x8000_0000, false),
];

#[test]
fn an_invalidation_waits_for_the_uses_it_noted(rt: HostRuntime) {
    let mut table = TakenTable::new();
    for place in 0..NOTED.len() {
        holds(&rt, taken_answer(&mut table, NOTED[place]), "call", place);
    }
}

/// A call of groups, and what it has to answer.
#[derive(Clone, Copy)]
enum GroupCall {
    /// The group of the lowest free index, which is this one, begins under PASID 1; whether by its last request.
    Begin(u8, bool),
    Extend(u8, bool),
    Collecting(u64, bool),
    Unfinished(u64, u64, Option<u8>),
    Outstanding(u8),
    /// The groups of a PASID that are out are stale.
    MakeStale(u32),
    /// An index is free, at which no group went on.
    Free(u8, GroupPlace),
}

fn begins_group(groups: &mut GroupTable, index: u8, last: bool) -> bool {
    if groups.outstanding() >= 32 {
        return false;
    }
    let lowest = groups.lowest_free();
    groups.begin(lowest, 1, last);
    lowest == index
}

fn extends_group(groups: &mut GroupTable, index: u8, last: bool) -> bool {
    if index >= 32 || groups.outstanding() >= 32 {
        return false;
    }
    groups.extend(index, last);
    true
}

fn frees_group(groups: &mut GroupTable, index: u8, was: GroupPlace) -> bool {
    let found = groups.free(index);
    found == was && !found.is_collecting(1)
}

fn groups_answer(groups: &mut GroupTable, call: GroupCall) -> bool {
    match call {
        GroupCall::Begin(index, last) => begins_group(groups, index, last),
        GroupCall::Extend(index, last) => extends_group(groups, index, last),
        GroupCall::Collecting(pasid, is_so) => groups.is_collecting(pasid) == is_so,
        GroupCall::Unfinished(index, pasid, found) => groups.unfinished(index, pasid) == found,
        GroupCall::Outstanding(requests) => groups.outstanding() == requests,
        GroupCall::MakeStale(pasid) => {
            groups.make_stale(pasid);
            true
        }
        GroupCall::Free(index, was) => frees_group(groups, index, was),
    }
}

/// Makes the calls of no groups.
fn use_groups<R: Abort>(rt: &R, calls: &[GroupCall]) {
    let mut groups = GroupTable::new();
    for place in 0..calls.len() {
        holds(rt, groups_answer(&mut groups, calls[place]), "call", place);
    }
}

/// The group of index 0 goes on, and that of index 1 has had its last request.
static GOES_ON: [GroupCall; 10] = [
    GroupCall::Begin(0, false),
    GroupCall::Begin(1, true),
    GroupCall::Collecting(1, true),
    GroupCall::Collecting(2, false),
    GroupCall::Unfinished(0, 1, Some(0)),
    GroupCall::Unfinished(0, 2, None),
    GroupCall::Unfinished(1, 1, None),
    GroupCall::Extend(0, true),
    GroupCall::Collecting(1, false),
    GroupCall::Outstanding(3),
];

#[test]
fn a_group_goes_on_until_its_last_request(rt: HostRuntime) {
    use_groups(&rt, &GOES_ON);
}

static STALE: [GroupCall; 7] = [
    GroupCall::Begin(0, false),
    GroupCall::Begin(1, true),
    GroupCall::Extend(0, true),
    GroupCall::MakeStale(1),
    GroupCall::Free(
        0,
        GroupPlace::Stale {
            pasid: 1,
            requests: 2,
        },
    ),
    GroupCall::Free(32, GroupPlace::Free),
    GroupCall::Outstanding(1),
];

#[test]
fn a_group_keeps_its_requests_until_it_is_free(rt: HostRuntime) {
    use_groups(&rt, &STALE);
}
