//! Resets of endpoints (a function level reset, PCI Express Base 5.0, section 6.6.2).

ghost use Rattle.sva_step.specs.declared.steps.Step.TheVariants as step;
ghost use Rattle.sva_host_state.specs.Steps.{ByLabels};

use crate::host::Host;
use sva_step::{Answer, Refusal};

impl Host {
    /// Begins a function level reset of an endpoint: the queues of its unit are emptied, its groups of page requests are no more
    /// open, and its jobs are off the queue; a job in a hand stays there. The unit isn't open until the endpoint has said that
    /// the reset is done. `NoSuchEndpoint` where the endpoint isn't there, `Resetting` where its unit is in reset already,
    /// `NumbersSpent` where no number is left for the Reset, and `OutOfMemory` where a growth is refused.
    pub(crate) fn reset(&mut self, endpoint: u64) -> Result<Answer, Refusal>
        ensures { ByLabels self.old (step.Reset endpoint) result self.new }
    {
        let answer = crate::link::reset(&mut self.state, endpoint)?;
        self.job_table.drop_unit(endpoint);
        Ok(answer)
    }
}
