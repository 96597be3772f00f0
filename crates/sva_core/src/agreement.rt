//! The headline of the program.

ghost use Rattle.sva_model.specs.Wire.{Wire};
ghost use Rattle.sva_core.specs.Reached.{IsReached};
ghost use Rattle.sva_core.specs.Headline.{IsAgreed, RunsAgree};

/// The headline by itself, as a law of every world of the program; `World::open`, `World::apply`, `World::counts` and `run`
/// each promise it of what they leave (`agreed`). `agrees`: whichever list leads to what a world keeps, the definitions agree after that very list:
/// each translation that an endpoint may still use is the present one of its own unreleased binding or leads to a withheld
/// frame; page requests and responses are matched to the binding that asked; a frame is withheld exactly until each
/// endpoint bound at its unmapping has answered or been reset; and the cases that can't occur don't. `runs`: what `run`
/// answers, and the world that it gives, are those of the definitions after exactly the steps that it took, which are all
/// but those that had no memory, and the agreement holds there.
pub fn headline()
    ensures agrees { (seen : Wire) (reached : IsReached seen) → IsAgreed seen reached }
    ensures runs { RunsAgree }
{}
