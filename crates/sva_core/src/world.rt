//! The world, and one step of it.

ghost use Rattle.std.specs.Prelude.{◌≡◌, ◌≢◌, ◌↔◌, IfOk, IfErr, OnErr, Err};
ghost use Rattle.sva_step.specs.declared.limits.Config.{Config};
ghost use Rattle.sva_step.specs.declared.refusals.Refusal.TheVariants as refusal;
ghost use Rattle.sva_model.specs.State.PasidRule.{PerSpace};
ghost use Rattle.sva_model.specs.Claims.{Fits};
ghost use Rattle.sva_model.specs.State.{opened};
ghost use Rattle.sva_model.specs.Wire.{wire};
ghost use Rattle.sva_core.specs.Reached.{Follows, IsReached, IsOpenRefusal, CountsOf, AddsUp};
ghost use Rattle.sva_core.specs.Headline.{IsAgreed};
ghost use Rattle.sva_host.specs.Applied.{TakesNoMemory};
ghost use Rattle.sva_host.specs.Steps.{ByLabels};
ghost use Rattle.sva_labels.specs.Host.{first_wire};
ghost use Rattle.sva_address_spaces.specs.Steps.{Counted};

use std::alloc::Global;
use std::marker::Model;
use sva_frames::Counts;
use sva_host::Host;
use sva_step::{Answer, Config, Refusal, Step};

/// A host with its endpoints and the link between them. Contracts see what all of it keeps of the records, and that some
/// list of steps leads there.
#[derive(Drop)]
pub struct World {
    pub(crate) host: Host,
}

impl Model for World {
    ghost use Rattle.sva_model.specs.Wire.{Wire};
    ghost use Rattle.sva_core.specs.Reached.{IsReached};

    ghost Value = { Wire };

    ghost view = { λ world. world.host };

    ghost invariant = { λ world. IsReached world.host };
}

impl World {
    /// The world of a config in which nothing has happened; the agreement holds there. A config out of its limits is
    /// `BadConfig`; the only other refusal is `OutOfMemory`.
    pub fn open(alloc: Global, config: Config) -> Result<World, Refusal>
        ensures ok { IfOk result (λ world. (Fits config) × (world ≡ wire (opened PerSpace config))) }
        ensures labels { IfOk result (λ world. world ≡ first_wire config) }
        ensures agreed { IfOk result (λ world. (reached : IsReached world) → IsAgreed world reached) }
        ensures bad { (result ≡ Err refusal.BadConfig) ↔ (Fits config → ⊥) }
        ensures memory { IfErr result IsOpenRefusal }
    {
        if !config.fits() {
            return Err(Refusal::BadConfig);
        }
        match Host::open(alloc, config) {
            Ok(host) => Ok(World { host }),
            Err(_) => Err(Refusal::OutOfMemory),
        }
    }

    /// Takes one step, and the agreement holds after it, whichever list of steps leads there. A refused step changes
    /// nothing. `OutOfMemory` is answered where a growth is refused; the contract says that the definitions accept the
    /// step then, and that a step whose room was made before never answers so.
    pub fn apply(&mut self, step: &Step) -> Result<Answer, Refusal>
        ensures step { Follows self.old step.now result self.new }
        ensures labels { ByLabels self.old step.now result self.new }
        ensures refused { OnErr result (self.new ≡ self.old) }
        ensures reached { IsReached self.new }
        ensures agreed { (reached : IsReached self.new) → IsAgreed self.new reached }
        ensures memory { TakesNoMemory self.old step.now → result ≢ Err refusal.OutOfMemory }
    {
        self.host.apply(step)
    }

    /// How many frames are free, mapped and withheld. Together they are all frames of the config.
    pub fn counts(&self) -> Counts
        ensures counts { CountsOf self.now result }
        ensures labels { Counted self.now.places result }
        ensures adds_up { AddsUp self.now result }
        ensures reached { IsReached self.now }
        ensures agreed { (reached : IsReached self.now) → IsAgreed self.now reached }
    {
        self.host.counts()
    }
}
