//! The moves of a binding's stage, each taken out of its place in the table and put back there.

ghost use Rattle.std.specs.Prelude.{◌≡◌, ℕ, true, false, not, Some};
ghost use Rattle.sva_model.specs.Wire.StageWire.{StoppingWire, DrainingWire, InvalidatingWire, QuietWire};
ghost use Rattle.sva_labels.specs.Finding.{is_wait_done};
ghost use Rattle.sva_pasid.specs.Moves.{Kind as kind};
ghost use Rattle.sva_pasid.specs.Places.{stage_of};
ghost use Rattle.sva_pasid.specs.States.{Stop, Wait, drain_of, invalidation_of, quiet_of};
ghost use Rattle.sva_pasid.specs.declared.stages.Stage.TheVariants as stage;
ghost use Rattle.sva_host_state.specs.Stages.{IsIn, IsSeenIn, MovesTo, MovesIf, Goes, GoesOn, stage_drained, stage_invalidated, stage_settled, told_by};

use sva_iommu::RemappingUnit;
use sva_pasid::{Draining, Invalidating, Stage, Table};

/// The space of a binding that is in use is taken back from its endpoint: the stop is sent.
pub fn stop(bindings: &mut Table, binding: u64)
    requires { IsIn kind.live binding bindings.old }
    ensures { MovesTo (StoppingWire false) binding bindings.old bindings.new }
{
    match bindings.take(binding) {
        Some(Stage::Live(live)) => bindings.put(binding, Stage::Stopping(live.stop())),
        _other => unreachable!(),
    }
}

/// A binding that a reset cut off while it was in use has nothing left to wait for.
pub fn settle_lost(bindings: &mut Table, binding: u64)
    requires { IsIn kind.lost binding bindings.old }
    ensures { MovesTo QuietWire binding bindings.old bindings.new }
{
    match bindings.take(binding) {
        Some(Stage::Lost(lost)) => bindings.put(binding, Stage::Quiet(lost.quiet())),
        _other => unreachable!(),
    }
}

/// The marker of a binding that is being stopped has come, and is noted.
pub fn mark(bindings: &mut Table, binding: u64)
    requires { IsIn kind.stopping binding bindings.old }
    ensures { MovesTo (StoppingWire true) binding bindings.old bindings.new }
{
    match bindings.take(binding) {
        Some(Stage::Stopping(stopping)) => bindings.put(binding, Stage::Stopping(stopping.mark())),
        _other => unreachable!(),
    }
}

/// A binding whose marker is noted waits for the drain of its page requests, by the wait with this cookie. Tells whether it
/// is noted: else the binding stays as it is.
pub fn drain(bindings: &mut Table, binding: u64, cookie: u64) -> bool
    requires { IsIn kind.stopping binding bindings.old }
    ensures noted { IsSeenIn (StoppingWire result) binding bindings.old }
    ensures moves { MovesIf result (DrainingWire cookie) binding bindings.old bindings.new }
    ensures exactly { (own : Stop) → stage_of binding bindings.old ≡ Some (stage.Stopping own)
        → GoesOn stage_drained (drain_of own cookie) binding result bindings.old bindings.new }
{
    match bindings.take(binding) {
        Some(Stage::Stopping(stopping)) => match stopping.drain(cookie) {
            Ok(draining) => {
                bindings.put(binding, Stage::Draining(draining));
                true
            }
            Err(stopping) => {
                bindings.put(binding, Stage::Stopping(stopping));
                false
            }
        },
        _other => unreachable!(),
    }
}

/// A binding whose page requests are drained waits for the invalidation of its PASID, by the wait with this cookie. Tells
/// whether it goes on: where this unit hasn't done its wait, or a group of it is open, it stays as it is.
pub fn invalidate(
    bindings: &mut Table,
    unit: &RemappingUnit,
    binding: u64,
    cookie: u64,
    groups_open: bool,
) -> bool
    requires { IsIn kind.draining binding bindings.old }
    ensures due { (own : ℕ) → IsSeenIn (DrainingWire own) binding bindings.old → is_wait_done unit.now.unit own ≡ true → result ≡ not groups_open }
    ensures moves { MovesIf result (InvalidatingWire cookie) binding bindings.old bindings.new }
    ensures exactly { (own : Wait) → stage_of binding bindings.old ≡ Some (stage.Draining own)
        → GoesOn stage_invalidated (invalidation_of (told_by unit.now.unit own) cookie groups_open) binding result bindings.old bindings.new }
{
    match bindings.take(binding) {
        Some(Stage::Draining(draining)) => match drained(draining, unit).invalidate(
            cookie,
            groups_open,
        ) {
            Ok(invalidating) => {
                bindings.put(binding, Stage::Invalidating(invalidating));
                true
            }
            Err(draining) => {
                bindings.put(binding, Stage::Draining(draining));
                false
            }
        },
        _other => unreachable!(),
    }
}

/// The state is told that its wait is done, where this unit has done it.
fn drained(draining: Draining, unit: &RemappingUnit) -> Draining
    ensures { result ≡ told_by unit.now.unit draining }
{
    if unit.is_wait_done(draining.cookie()) {
        draining.waited()
    } else {
        draining
    }
}

/// A binding whose PASID is invalidated has nothing left to wait for. Tells whether it goes on: where this unit hasn't done
/// its wait, it stays as it is.
pub fn settle(bindings: &mut Table, unit: &RemappingUnit, binding: u64) -> bool
    requires { IsIn kind.invalidating binding bindings.old }
    ensures due { (own : ℕ) → IsSeenIn (InvalidatingWire own) binding bindings.old → is_wait_done unit.now.unit own ≡ true → result ≡ true }
    ensures moves { MovesIf result QuietWire binding bindings.old bindings.new }
    ensures exactly { (own : Wait) → stage_of binding bindings.old ≡ Some (stage.Invalidating own)
        → GoesOn stage_settled (quiet_of (told_by unit.now.unit own)) binding result bindings.old bindings.new }
{
    match bindings.take(binding) {
        Some(Stage::Invalidating(invalidating)) => match invalidated(invalidating, unit).quiet() {
            Ok(quiet) => {
                bindings.put(binding, Stage::Quiet(quiet));
                true
            }
            Err(invalidating) => {
                bindings.put(binding, Stage::Invalidating(invalidating));
                false
            }
        },
        _other => unreachable!(),
    }
}

/// The state is told that its wait is done, where this unit has done it.
fn invalidated(invalidating: Invalidating, unit: &RemappingUnit) -> Invalidating
    ensures { result ≡ told_by unit.now.unit invalidating }
{
    if unit.is_wait_done(invalidating.cookie()) {
        invalidating.waited()
    } else {
        invalidating
    }
}

/// A binding of which its endpoint holds nothing ends. Its PASID is free if no other binding is under it.
pub fn release(bindings: &mut Table, binding: u64)
    requires { IsIn kind.quiet binding bindings.old }
    ensures { Goes binding bindings.old bindings.new }
{
    match bindings.take(binding) {
        Some(Stage::Quiet(quiet)) => bindings.end(quiet.release()),
        _other => unreachable!(),
    }
}
