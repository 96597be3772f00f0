//! The calls of the table of bindings, and the moves of the stages of a binding, each with what it has to answer.

ghost use Rattle.std.specs.Prelude.{◌≡◌, ◌++◌, ◌∷◌, []};
ghost use Rattle.sva_pasid.specs.Places.{begun};
ghost use Rattle.sva_pasid.specs.Stages.{numbers_of};
ghost use Rattle.sva_pasid.specs.States.{numbers_of_stop, numbers_of_wait};

use crate::asserted::holds;
use std::alloc::Global;
use std::process::Abort;
use sva_pasid::{Draining, Invalidating, Live, Lost, Quiet, Stage, Stopping, Table, TableEntry};

/// Begins a binding under a PASID that the test counts on being free. Where memory is refused once, nothing has changed,
/// and the same call again begins it.
pub(crate) fn begin<R: Abort>(
    rt: &R,
    table: &mut Table,
    endpoint: u64,
    space: u64,
    binding: u64,
) -> u32
    ensures { table.new ≡ table.old ++ begun endpoint space binding result ∷ [] }
{
    assert!(rt; table.lowest(space).is_some());
    assert!(rt; table.place(binding).is_none());
    let (len, lowest) = (table.len(), table.lowest(space));
    match table.begin(endpoint, space, binding) {
        Ok(pasid) => pasid,
        Err(_refused) => {
            assert!(rt; table.len() == len && table.lowest(space) == lowest);
            table
                .begin(endpoint, space, binding)
                .expect(rt, "memory is refused once")
        }
    }
}

/// What is done with the stage of a binding. A stage that has no such move, or to which it isn't due, stays.
#[derive(Clone, Copy)]
pub(crate) enum Move {
    Stop,
    Mark,
    /// Under a cookie.
    Drain(u64),
    /// What it waits for is done.
    Wait,
    /// Under a cookie, and whether a group is open.
    Invalidate(u64, bool),
    Settle,
    Lose,
    Reset,
}

fn move_live(live: Live, how: Move) -> Stage
    ensures { numbers_of result ≡ live }
{
    match how {
        Move::Stop => Stage::Stopping(live.stop()),
        Move::Lose => Stage::Lost(live.lost()),
        _other => Stage::Live(live),
    }
}

fn move_stopping(stopping: Stopping, how: Move) -> Stage
    ensures { numbers_of result ≡ numbers_of_stop stopping }
{
    match how {
        Move::Mark => Stage::Stopping(stopping.mark()),
        Move::Drain(cookie) => match stopping.drain(cookie) {
            Ok(draining) => Stage::Draining(draining),
            Err(stopping) => Stage::Stopping(stopping),
        },
        Move::Reset => Stage::Quiet(stopping.by_reset()),
        _other => Stage::Stopping(stopping),
    }
}

fn move_draining(draining: Draining, how: Move) -> Stage
    ensures { numbers_of result ≡ numbers_of_wait draining }
{
    match how {
        Move::Wait => Stage::Draining(draining.waited()),
        Move::Invalidate(cookie, is_open) => match draining.invalidate(cookie, is_open) {
            Ok(invalidating) => Stage::Invalidating(invalidating),
            Err(draining) => Stage::Draining(draining),
        },
        Move::Reset => Stage::Quiet(draining.by_reset()),
        _other => Stage::Draining(draining),
    }
}

fn move_invalidating(invalidating: Invalidating, how: Move) -> Stage
    ensures { numbers_of result ≡ numbers_of_wait invalidating }
{
    match how {
        Move::Wait => Stage::Invalidating(invalidating.waited()),
        Move::Settle => match invalidating.quiet() {
            Ok(quiet) => Stage::Quiet(quiet),
            Err(invalidating) => Stage::Invalidating(invalidating),
        },
        Move::Reset => Stage::Quiet(invalidating.by_reset()),
        _other => Stage::Invalidating(invalidating),
    }
}

fn move_lost(lost: Lost, how: Move) -> Stage
    ensures { numbers_of result ≡ lost }
{
    match how {
        Move::Settle => Stage::Quiet(lost.quiet()),
        _other => Stage::Lost(lost),
    }
}

fn move_stage(stage: Stage, how: Move) -> Stage
    ensures { numbers_of result ≡ numbers_of stage }
{
    match stage {
        Stage::Live(live) => move_live(live, how),
        Stage::Stopping(stopping) => move_stopping(stopping, how),
        Stage::Draining(draining) => move_draining(draining, how),
        Stage::Invalidating(invalidating) => move_invalidating(invalidating, how),
        Stage::Quiet(quiet) => Stage::Quiet(quiet),
        Stage::Lost(lost) => move_lost(lost, how),
    }
}

/// What a stage that is cut off comes to.
fn quieted(stage: Stage) -> Quiet
    ensures { result ≡ numbers_of stage }
{
    match stage {
        Stage::Live(live) => live.lost().quiet(),
        Stage::Stopping(stopping) => stopping.by_reset(),
        Stage::Draining(draining) => draining.by_reset(),
        Stage::Invalidating(invalidating) => invalidating.by_reset(),
        Stage::Quiet(quiet) => quiet,
        Stage::Lost(lost) => lost.quiet(),
    }
}

/// Ends a binding that is in its place, as a reset does.
pub(crate) fn end_by_reset<R: Abort>(rt: &R, table: &mut Table, binding: u64) {
    match table.take(binding) {
        Some(stage) => table.end(quieted(stage).release()),
        None => panic!(rt; "the binding has a stage in its place"),
    }
}

/// Takes a stage out of its place, and puts what it moves to back.
fn moves(table: &mut Table, binding: u64, how: Move) -> bool {
    match table.take(binding) {
        Some(stage) => {
            table.put(binding, move_stage(stage, how));
            true
        }
        None => false,
    }
}

/// Ends a binding that is quiet, and tells whether what was released has its number and this PASID.
fn releases(table: &mut Table, binding: u64, pasid: u32) -> bool {
    match table.take(binding) {
        Some(Stage::Quiet(quiet)) => {
            let released = quiet.release();
            let numbers = (released.binding(), released.pasid());
            table.end(released);
            numbers == (binding, pasid)
        }
        Some(stage) => {
            table.put(binding, stage);
            false
        }
        None => false,
    }
}

/// The bearer of a PASID, as a pair.
pub(crate) fn bearer(table: &Table, pasid: u32) -> Option<(u64, u64)> {
    match table.bearer(pasid) {
        Some(bearer) => Some((bearer.space, bearer.bindings)),
        None => None,
    }
}

fn number(place: Option<&TableEntry>) -> Option<u64> {
    place.map(|place| place.binding)
}

/// What is seen of a stage.
#[derive(Clone, Copy, PartialEq, Eq)]
pub(crate) enum Seen {
    Live,
    /// Whether its marker was noted.
    Stopping(bool),
    /// The cookie that it waits for, and whether that wait is done.
    Draining(u64, bool),
    Invalidating(u64, bool),
    Quiet,
    Lost,
}

fn look(stage: &Stage) -> Seen {
    match stage {
        Stage::Live(_) => Seen::Live,
        Stage::Stopping(stopping) => Seen::Stopping(stopping.is_marked()),
        Stage::Draining(draining) => Seen::Draining(draining.cookie(), draining.is_waited()),
        Stage::Invalidating(invalidating) => {
            Seen::Invalidating(invalidating.cookie(), invalidating.is_waited())
        }
        Stage::Quiet(_) => Seen::Quiet,
        Stage::Lost(_) => Seen::Lost,
    }
}

/// What is seen of the stage in a binding's place, if it has the numbers of that place.
fn stage(table: &Table, binding: u64) -> Option<Seen> {
    let place = table.place(binding)?;
    let stage = place.stage.as_ref()?;
    let own = (place.binding, place.pasid);
    if (stage.binding(), stage.pasid()) == own {
        Some(look(stage))
    } else {
        None
    }
}

/// A call of a table, and what it has to answer.
#[derive(Clone, Copy)]
pub(crate) enum Call {
    /// A binding begins at an endpoint and a space, and bears this PASID.
    Begin(u64, u64, u64, u32),
    /// So many bindings begin, each of the space of its number, and bear the PASIDs from 1 on.
    BeginEach(u64),
    End(u64),
    /// The stage of a binding moves.
    Move(u64, Move),
    /// A quiet binding is released, and bore this PASID.
    Release(u64, u32),
    Reset(u64),
    Bearer(u32, Option<(u64, u64)>),
    Lowest(u64, Option<u32>),
    Bound(u64, bool),
    Find(u64, Option<u64>),
    FindUnder(u64, u32, Option<u64>),
    FindBetween(u64, u64, Option<u64>),
    Stage(u64, Option<Seen>),
    Count(usize),
}

/// Begins so many bindings, and tells whether they bear the PASIDs from 1 on.
fn begin_each<R: Abort>(rt: &R, table: &mut Table, bindings: u64) -> bool {
    for number in 0..bindings {
        let pasid = begin(rt, table, number % 8, number, number);
        if u64::from(pasid) != number + 1 {
            return false;
        }
    }
    true
}

/// Makes a call that may change the table.
fn make<R: Abort>(rt: &R, table: &mut Table, call: Call) -> bool {
    match call {
        Call::Begin(endpoint, space, binding, pasid) => {
            begin(rt, table, endpoint, space, binding) == pasid
        }
        Call::BeginEach(bindings) => begin_each(rt, table, bindings),
        Call::End(binding) => {
            end_by_reset(rt, table, binding);
            true
        }
        Call::Move(binding, how) => moves(table, binding, how),
        Call::Release(binding, pasid) => releases(table, binding, pasid),
        Call::Reset(endpoint) => {
            table.by_reset(endpoint);
            true
        }
        _reading => answers(table, call),
    }
}

/// Whether a call that changes nothing answers as it has to.
fn answers(table: &Table, call: Call) -> bool {
    match call {
        Call::Bearer(pasid, found) => bearer(table, pasid) == found,
        Call::Lowest(space, pasid) => table.lowest(space) == pasid,
        Call::Bound(space, is_bound) => table.is_bound(space) == is_bound,
        Call::Find(binding, found) => number(table.place(binding)) == found,
        Call::FindUnder(endpoint, pasid, found) => {
            number(table.place_under(endpoint, pasid)) == found
        }
        Call::FindBetween(endpoint, space, found) => {
            number(table.place_between(endpoint, space)) == found
        }
        Call::Stage(binding, found) => stage(table, binding) == found,
        Call::Count(bindings) => table.len() == bindings,
        _change => false,
    }
}

/// Makes the calls one after another.
fn make_each<R: Abort>(rt: &R, table: &mut Table, what: &str, calls: &[Call]) {
    for place in 0..calls.len() {
        holds(rt, make(rt, table, calls[place]), what, place);
    }
}

/// Makes the calls of a new table, and then others.
pub(crate) fn run<R: Abort>(rt: &R, alloc: Global, what: &str, first: &[Call], then: &[Call]) {
    let mut table = Table::new(alloc);
    make_each(rt, &mut table, what, first);
    make_each(rt, &mut table, what, then);
}
