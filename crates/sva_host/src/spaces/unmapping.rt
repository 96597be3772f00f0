//! Pages that are taken out of a space: the units get their descriptors by a plan, and the frames wait for what it says.

ghost use Rattle.std.specs.Prelude.{◌≢◌, Err};
ghost use Rattle.sva_step.specs.declared.refusals.Refusal.TheVariants as refusal;
ghost use Rattle.sva_step.specs.declared.steps.Step.TheVariants as step;
ghost use Rattle.sva_labels.specs.Sound.{IsSound};
ghost use Rattle.sva_host_state.specs.Steps.{ByLabels};

use sva_host_state::{HostState, Plan};
use sva_step::{Answer, Refusal};

/// Takes pages of a space in a row out: the units are asked to invalidate them, and their frames are free once every
/// endpoint that may use them has answered.
pub fn unmap(host: &mut HostState, space: u64, page: u64, count: u64) -> Result<Answer, Refusal>
    requires { IsSound host.old }
    ensures step { ByLabels host.old (step.Unmap space page count) result host.new }
    ensures memory { result ≢ Err refusal.OutOfMemory }
{
    host.address_spaces.may_unmap(space, page, count)?;
    let plan = Plan::new(host, space, count + 1)?;
    plan.submit(host, page, count, 0);
    let frames = host.address_spaces.unmap(space, page, count, &plan.waits);
    if plan.waits.is_empty() {
        Ok(Answer::FreeFrames { frames })
    } else {
        Ok(Answer::WithheldFrames { frames })
    }
}

/// Takes the pages of a range out, those of its 2^`order` pages that are mapped. Their frames are free as after `unmap`.
pub fn unmap_range(
    host: &mut HostState,
    space: u64,
    page: u64,
    order: u64,
) -> Result<Answer, Refusal>
    requires { IsSound host.old }
    ensures step { ByLabels host.old (step.UnmapRange space page order) result host.new }
    ensures memory { result ≢ Err refusal.OutOfMemory }
{
    host.address_spaces.may_unmap_range(space, page, order)?;
    let plan = Plan::new(host, space, 2)?;
    plan.submit(host, page, 1, order as u8);
    let frames = host
        .address_spaces
        .unmap_range(space, page, order, &plan.waits);
    if plan.waits.is_empty() {
        Ok(Answer::RangeFree { frames })
    } else {
        Ok(Answer::RangeWithheld { frames })
    }
}
