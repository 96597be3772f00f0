//! A world taken through a list of steps.

ghost use Rattle.std.specs.Prelude.{◌≡◌, ◌↔◌, IfOk, IfErr, Err};
ghost use Rattle.sva_step.specs.declared.limits.Config.{Config};
ghost use Rattle.sva_step.specs.declared.refusals.Refusal.TheVariants as refusal;
ghost use Rattle.sva_model.specs.State.PasidRule.{PerSpace};
ghost use Rattle.sva_model.specs.Claims.{Fits};
ghost use Rattle.sva_model.specs.State.{opened};
ghost use Rattle.sva_core.specs.Reached.{Ran, IsOpenRefusal};
ghost use Rattle.sva_core.specs.Headline.{RunAgrees};

use crate::world::World;
use std::alloc::Global;
use sva_step::{Answer, Config, Refusal, Step};

/// Opens a world and takes the steps one after another: the world at the end, and an answer for each step. The agreement
/// holds after exactly the steps that were taken, and their answers are those of the definitions. A step that was
/// answered `OutOfMemory` changed nothing, and is one that takes memory. The fault is `BadConfig` where the config is
/// out of its limits; else `OutOfMemory` where there is no memory for the world or for the list of answers. An answer takes
/// some 200 bytes, since a list of frames has room for 48.
pub fn run(
    alloc: Global,
    config: Config,
    steps: &[Step],
) -> Result<(World, Vec<Result<Answer, Refusal>>), Refusal>
    ensures ok { IfOk result (λ ran. Ran (opened PerSpace config) steps.now ran.1.items ran.0) }
    ensures agreed { IfOk result (λ ran. RunAgrees config steps.now ran.1.items ran.0) }
    ensures bad { (result ≡ Err refusal.BadConfig) ↔ (Fits config → ⊥) }
    ensures memory { IfErr result IsOpenRefusal }
{
    let mut world = World::open(alloc, config)?;
    let mut answers = Vec::new(alloc);
    if answers.reserve(steps.len()).is_err() {
        return Err(Refusal::OutOfMemory);
    }
    for step in steps {
        answers.push_reserved(world.apply(step));
    }
    Ok((world, answers))
}
