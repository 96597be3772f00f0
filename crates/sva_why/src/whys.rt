//! What holds a step back.

ghost use Rattle.std.specs.Prelude.{◌≡◌, ◌++◌, OnOk};
ghost use Rattle.sva_why.specs.Unheld.{nothing_said};
ghost use Rattle.sva_why.specs.Why.{blocked, first_lines, looked, why_of};

use crate::causes::put_refused;
use std::alloc::AllocError;
use sva_explain::{Level, part_at, put_blocked, put_place, put_withheld_range};
use sva_snapshot::{Explains, Snapshot};
use sva_step::{Answer, Refusal, Step};

/// Appends what blocks the head of a queue.
fn put_blocked_of(out: &mut Vec<u8>, snapshot: &Snapshot, step: &Step) -> Result<(), AllocError>
    ensures { OnOk result (out.new.items ≡ out.old.items ++ blocked snapshot.now step.now) }
{
    match step {
        Step::Pump { endpoint } => match part_at(snapshot, *endpoint) {
            None => Ok(()),
            Some(part) => put_blocked(out, Level::First, snapshot, *endpoint, part),
        },
        _ => Ok(()),
    }
}

/// Appends what the frame waits for at which a step looked.
fn put_looked(out: &mut Vec<u8>, snapshot: &Snapshot, step: &Step) -> Result<(), AllocError>
    ensures { OnOk result (out.new.items ≡ out.old.items ++ looked snapshot.now step.now) }
{
    match step {
        Step::Look { frame } => put_place(out, snapshot, *frame),
        _ => Ok(()),
    }
}

/// Appends what the first of some frames waits for.
fn put_first(out: &mut Vec<u8>, snapshot: &Snapshot, frames: &[u32]) -> Result<(), AllocError>
    ensures { OnOk result (out.new.items ≡ out.old.items ++ first_lines snapshot.now frames.now) }
{
    match frames.first() {
        None => Ok(()),
        Some(frame) => put_place(out, snapshot, u64::from(*frame)),
    }
}

/// Appends what holds a step back that was answered so: a line for each thing, indented by four spaces for each level.
/// The snapshot is taken behind the step. Of a step that isn't held back nothing is said.
///
/// A line at the first level names what makes the cause of a refusal hold, or blocks the head of a queue, or is awaited
/// by a frame; a line below says where that stands. A step in brackets would be accepted. An error says that there is
/// no memory for it; then a part may be appended.
pub fn put_why(
    out: &mut Vec<u8>,
    snapshot: &Snapshot,
    step: &Step,
    reply: &Result<Answer, Refusal>,
) -> Result<(), AllocError>
    ensures { OnOk result (out.new.items ≡ out.old.items ++ why_of snapshot.now step.now reply.now) }
{
    match reply {
        Err(refusal) => put_refused(out, snapshot, step, *refusal),
        Ok(Answer::Blocked) => put_blocked_of(out, snapshot, step),
        Ok(Answer::Withheld) => put_looked(out, snapshot, step),
        Ok(Answer::WithheldFrames { frames }) => put_first(out, snapshot, frames.as_slice()),
        Ok(Answer::RangeWithheld { .. }) => put_withheld_range(out, snapshot, step),
        Ok(_) => Ok(()),
    }
}

/// What explains to reports why a step is held back: `put_why`.
pub struct Explainer;

impl Explains for Explainer {
    ghost explained = { why_of };

    ghost silent = { nothing_said };

    fn put_explained(
        out: &mut Vec<u8>,
        snapshot: &Snapshot,
        step: &Step,
        reply: &Result<Answer, Refusal>,
    ) -> Result<(), AllocError> {
        put_why(out, snapshot, step, reply)
    }
}
