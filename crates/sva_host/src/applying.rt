//! One step, of whatever kind.

ghost use Rattle.std.specs.Prelude.{◌≢◌, Err};
ghost use Rattle.sva_step.specs.declared.refusals.Refusal.TheVariants as refusal;
ghost use Rattle.sva_labels.specs.Sound.{IsSound};
ghost use Rattle.sva_labels.specs.Sound.{HaveSpaces};
ghost use Rattle.sva_host_state.specs.Steps.{ByLabels};
ghost use Rattle.sva_host.specs.Applied.{AsksNoJobTable, TakesNoMemory};

use crate::host::Host;
use crate::host_steps::apply_at_host;
use sva_step::{Answer, Refusal, Step};

impl Host {
    /// Takes a step that asks neither groups nor jobs nor hands: these stay as they are.
    fn apply_apart(&mut self, step: &Step) -> Result<Answer, Refusal>
        requires sound { IsSound self.old }
        requires apart { AsksNoJobTable step.now }
        ensures step { ByLabels self.old step.now result self.new }
        ensures memory { TakesNoMemory self.old step.now → result ≢ Err refusal.OutOfMemory }
    {
        apply_at_host(&mut self.state, step)
    }

    /// Takes a step. A refused step changes nothing. `OutOfMemory` is answered where a growth is refused.
    pub fn apply(&mut self, step: &Step) -> Result<Answer, Refusal>
        requires sound { IsSound self.old }
        requires spaces { HaveSpaces self.old }
        ensures step { ByLabels self.old step.now result self.new }
        ensures memory { TakesNoMemory self.old step.now → result ≢ Err refusal.OutOfMemory }
    {
        match *step {
            Step::Advance { binding } => self.advance(binding),
            Step::Serve { endpoint } => self.serve(endpoint),
            Step::Reset { endpoint } => self.reset(endpoint),
            Step::Take { worker } => self.take(worker),
            Step::Reply { worker, verdict } => self.reply(worker, verdict),
            _ => self.apply_apart(step),
        }
    }
}
