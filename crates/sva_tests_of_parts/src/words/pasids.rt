//! Runs of calls of the table of bindings, and of the stages of a binding.

use crate::words::binding_calls::{Call, Move, Seen, bearer, begin, end_by_reset, run};
use sva_pasid::{Stage, Table};

/// Binding 9 begins, and bears PASID 4.
const BEGUN: [Call; 3] = [
    Call::BeginEach(3),
    Call::Begin(3, 70, 9, 4),
    Call::Stage(9, Some(Seen::Live)),
];

const STOPPING: [Call; 9] = [
    Call::Move(9, Move::Stop),
    Call::Stage(9, Some(Seen::Stopping(false))),
    Call::Move(9, Move::Drain(70)),
    Call::Stage(9, Some(Seen::Stopping(false))),
    Call::Move(9, Move::Mark),
    Call::Stage(9, Some(Seen::Stopping(true))),
    Call::Move(9, Move::Reset),
    Call::Stage(9, Some(Seen::Quiet)),
    Call::Release(9, 4),
];

/// Binding 9 has stopped, its marker was noted, and it drains under a cookie.
const DRAINING: [Call; 6] = [
    Call::BeginEach(3),
    Call::Begin(3, 70, 9, 4),
    Call::Move(9, Move::Stop),
    Call::Move(9, Move::Mark),
    Call::Move(9, Move::Drain(71)),
    Call::Stage(9, Some(Seen::Draining(71, false))),
];

const NOT_DRAINED: [Call; 5] = [
    Call::Move(9, Move::Invalidate(72, false)),
    Call::Stage(9, Some(Seen::Draining(71, false))),
    Call::Move(9, Move::Reset),
    Call::Stage(9, Some(Seen::Quiet)),
    Call::Release(9, 4),
];

const OPEN_GROUP: [Call; 6] = [
    Call::Move(9, Move::Wait),
    Call::Stage(9, Some(Seen::Draining(71, true))),
    Call::Move(9, Move::Invalidate(73, true)),
    Call::Stage(9, Some(Seen::Draining(71, true))),
    Call::Move(9, Move::Reset),
    Call::Release(9, 4),
];

/// Binding 9 has drained, no group is open, and its PASID is invalidated under a cookie.
const INVALIDATING: [Call; 8] = [
    Call::BeginEach(3),
    Call::Begin(3, 70, 9, 4),
    Call::Move(9, Move::Stop),
    Call::Move(9, Move::Mark),
    Call::Move(9, Move::Drain(71)),
    Call::Move(9, Move::Wait),
    Call::Move(9, Move::Invalidate(74, false)),
    Call::Stage(9, Some(Seen::Invalidating(74, false))),
];

const NOT_INVALIDATED: [Call; 2] = [
    Call::Move(9, Move::Settle),
    Call::Stage(9, Some(Seen::Invalidating(74, false))),
];

const INVALIDATED: [Call; 6] = [
    Call::Move(9, Move::Wait),
    Call::Stage(9, Some(Seen::Invalidating(74, true))),
    Call::Move(9, Move::Settle),
    Call::Stage(9, Some(Seen::Quiet)),
    Call::Release(9, 4),
    Call::Count(3),
];

/// Binding 1 was in use, and binding 9 was being ended.
const CUT_OFF: [Call; 8] = [
    Call::Move(1, Move::Lose),
    Call::Stage(1, Some(Seen::Lost)),
    Call::Move(1, Move::Settle),
    Call::Stage(1, Some(Seen::Quiet)),
    Call::Release(1, 2),
    Call::Move(9, Move::Reset),
    Call::Stage(9, Some(Seen::Quiet)),
    Call::Release(9, 4),
];

const SPACES_AND_PASIDS: [Call; 17] = [
    Call::Begin(0, 70, 0, 1),
    Call::Begin(1, 71, 1, 2),
    Call::Begin(1, 70, 2, 1),
    Call::Bearer(1, Some((70, 2))),
    Call::Bearer(2, Some((71, 1))),
    Call::Bearer(0, None),
    Call::Bearer(33, None),
    Call::End(0),
    Call::Bearer(1, Some((70, 1))),
    Call::Lowest(70, Some(1)),
    Call::Lowest(72, Some(3)),
    Call::End(2),
    Call::Bearer(1, None),
    Call::Bound(70, false),
    Call::Lowest(72, Some(1)),
    Call::Bound(71, true),
    Call::Lowest(71, Some(2)),
];

const ALL_PASIDS: [Call; 7] = [
    Call::BeginEach(32),
    Call::Lowest(32, None),
    Call::Lowest(31, Some(32)),
    Call::End(6),
    Call::Count(31),
    Call::Lowest(32, Some(7)),
    Call::Lowest(31, Some(32)),
];

const PLACES: [Call; 9] = [
    Call::Begin(3, 70, 20, 1),
    Call::Begin(4, 70, 21, 1),
    Call::Begin(4, 71, 22, 2),
    Call::Find(21, Some(21)),
    Call::Find(23, None),
    Call::FindUnder(4, 1, Some(21)),
    Call::FindUnder(3, 2, None),
    Call::FindBetween(4, 71, Some(22)),
    Call::FindBetween(3, 71, None),
];

const RESET: [Call; 9] = [
    Call::Begin(3, 70, 20, 1),
    Call::Begin(4, 70, 21, 1),
    Call::Begin(3, 71, 22, 2),
    Call::Move(22, Move::Stop),
    Call::Reset(3),
    Call::Stage(20, Some(Seen::Lost)),
    Call::Stage(21, Some(Seen::Live)),
    Call::Stage(22, Some(Seen::Quiet)),
    Call::Count(3),
];

/// What each run shows, its first calls, and its others.
static RUNS: [(&str, &[Call], &[Call]); 10] = [
    ("stops until its marker is noted", &BEGUN, &STOPPING),
    ("drains until its wait is done", &DRAINING, &NOT_DRAINED),
    ("drains until no group is open", &DRAINING, &OPEN_GROUP),
    (
        "invalidates until its wait is done",
        &INVALIDATING,
        &NOT_INVALIDATED,
    ),
    ("is quiet and released once", &INVALIDATING, &INVALIDATED),
    ("each move by reset", &INVALIDATING, &CUT_OFF),
    ("one pasid for each space", &SPACES_AND_PASIDS, &[]),
    ("all pasids are borne", &ALL_PASIDS, &[]),
    ("finds places", &PLACES, &[]),
    ("a reset moves the bindings of its endpoint", &RESET, &[]),
];

#[test]
fn answers_each_run_of_calls(rt: HostRuntime) {
    for place in 0..RUNS.len() {
        let (what, first, then) = RUNS[place];
        run(&rt, rt.alloc(), what, first, then);
    }
}

#[test]
fn a_binding_is_taken_back(rt: HostRuntime) {
    let mut table = Table::new(rt.alloc());
    let _pasid = begin(&rt, &mut table, 3, 70, 20);
    let _pasid = begin(&rt, &mut table, 4, 70, 21);
    table.take_back(21);
    assert!(rt; bearer(&table, 1) == Some((70, 1)) && table.len() == 1);
    table.take_back(20);
    assert!(rt; table.is_empty() && bearer(&table, 1).is_none());
}

#[test]
fn a_place_has_its_endpoint_space_and_stage(rt: HostRuntime) {
    let mut table = Table::new(rt.alloc());
    assert!(rt; begin(&rt, &mut table, 3, 8, 20) == 1);
    let (endpoint, space, stage) = table.at(0);
    assert!(rt; (endpoint, space, stage.binding(), stage.pasid()) == (3, 8, 20, 1));
}

#[test]
fn a_place_stays_while_its_stage_is_in_hand(rt: HostRuntime) {
    let mut table = Table::new(rt.alloc());
    let _pasid = begin(&rt, &mut table, 3, 8, 20);
    let stage = match table.take(20) {
        Some(Stage::Live(live)) => Stage::Stopping(live.stop()),
        _other => panic!(rt; "a binding begins live"),
    };
    assert!(rt; table.len() == 1 && table.place(20).is_some() && table.lowest(9) == Some(2));
    match table.take(20) {
        Some(_stage) => panic!(rt; "the place is empty"),
        None => table.put(20, stage),
    }
    end_by_reset(&rt, &mut table, 20);
    assert!(rt; table.is_empty());
}
