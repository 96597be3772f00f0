//! What all threads of one storm have in common, by a type parameter.

use std::marker::Brand;

/// The plan of a storm: the lines of its scenario, and how many turns each thread has. Whoever starts the storm picks it, so the type of a
/// thread can say what was played by its port.
pub(crate) trait Plan {
    ghost use Rattle.std.specs.Prelude.{ℕ, List};
    ghost use Rattle.sva_step.specs.declared.steps.Step.{Step};

    ghost steps: { List Step };

    ghost turns: { ℕ };
}

impl Plan for Brand {
    ghost use Rattle.std.specs.Prelude.{[]};

    ghost steps = { [] };

    ghost turns = { 0 };
}
