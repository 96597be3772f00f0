//! A binding that was unbound goes on, stage by stage, until it is released.

ghost use Rattle.std.specs.Prelude.{◌≢◌, Err};
ghost use Rattle.sva_step.specs.declared.refusals.Refusal.TheVariants as refusal;
ghost use Rattle.sva_step.specs.declared.steps.Step.TheVariants as step;
ghost use Rattle.sva_labels.specs.Sound.{IsSound};
ghost use Rattle.sva_host_state.specs.Steps.{ByLabels};

use crate::host::Host;
use sva_step::{Answer, Refusal};

impl Host {
    /// A binding that was unbound goes on to its next stage, where what it waits for has come. `NoSuchBinding` where it isn't
    /// there, `Resetting` where its unit is in reset and it isn't Quiet, `NotYet` where the Stop Marker or the wait has not come,
    /// or where its page requests are being drained and a group of it isn't answered; `QueueFull` and `NumbersSpent` where the
    /// unit has no room for the descriptors or no cookie is left. No memory is taken.
    pub(crate) fn advance(&mut self, binding: u64) -> Result<Answer, Refusal>
        requires { IsSound self.old }
        ensures step { ByLabels self.old (step.Advance binding) result self.new }
        ensures memory { result ≢ Err refusal.OutOfMemory }
    {
        let groups_open = self.job_table.open_of(binding);
        crate::bindings::advance(&mut self.state, binding, groups_open)
    }
}
