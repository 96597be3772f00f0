//! What explains to a report why a step is held back. It is handed in, so that no report waits for it.

ghost use Rattle.std.specs.Prelude.{◌≡◌, ◌++◌, OnOk};
ghost use Rattle.sva_snapshot.specs.Explaining.{Explaining, IsSilent, is_held};

use crate::snapshots::Snapshot;
use crate::taking::snapshot;
use std::alloc::{AllocError, Global};
use sva_core::World;
use sva_step::{Answer, Refusal, Step};

/// Is a step held back: is it refused or blocked, or are frames withheld?
pub fn is_held(reply: &Result<Answer, Refusal>) -> bool
    ensures { result ≡ is_held reply.now }
{
    match reply {
        Err(_) => true,
        Ok(answer) => matches!(
            answer,
            Answer::Blocked
                | Answer::Withheld
                | Answer::WithheldFrames { .. }
                | Answer::RangeWithheld { .. }
        ),
    }
}

/// What explains why a step is held back. A report appends just what it says, whatever that is.
pub trait Explains {
    /// What it says of a step that was answered so, where this is kept behind the step.
    ghost explained: { Explaining };

    /// Appends that, where the snapshot is taken behind the step. An error says that there is no memory for it; then a
    /// part may be appended.
    fn put_explained(
        out: &mut Vec<u8>,
        snapshot: &Snapshot,
        step: &Step,
        reply: &Result<Answer, Refusal>,
    ) -> Result<(), AllocError>
        ensures { OnOk result (out.new.items ≡ out.old.items ++ explained snapshot.now step.now reply.now) };

    /// Of a step that isn't held back it says nothing.
    ghost silent: { IsSilent explained };
}

/// Appends what holds back, where a world is now, a step that it answered so.
fn explain_held<E: Explains>(
    out: &mut Vec<u8>,
    alloc: Global,
    world: &World,
    step: &Step,
    reply: &Result<Answer, Refusal>,
) -> Result<(), AllocError>
    ensures { OnOk result (out.new.items ≡ out.old.items ++ E.explained world.now step.now reply.now) }
{
    let kept = snapshot(alloc, world)?;
    E::put_explained(out, &kept, step, reply)
}

/// Appends what holds a step back that a world answered so, where that world is behind the step. What the world keeps is
/// read only where the step is held back.
pub fn explain<E: Explains>(
    out: &mut Vec<u8>,
    alloc: Global,
    world: &World,
    step: &Step,
    reply: &Result<Answer, Refusal>,
) -> Result<(), AllocError>
    ensures { OnOk result (out.new.items ≡ out.old.items ++ E.explained world.now step.now reply.now) }
{
    if is_held(reply) {
        explain_held::<E>(out, alloc, world, step, reply)
    } else {
        Ok(())
    }
}
