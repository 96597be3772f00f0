//! Page requests (PCI Express Base 5.0, section 10.4.1) that are filed.

ghost use Rattle.std.specs.Prelude.{◌≡◌, ◌≢◌, Err, []};
ghost use Rattle.sva_step.specs.declared.refusals.Refusal.TheVariants as refusal;
ghost use Rattle.sva_step.specs.declared.steps.Step.TheVariants as step;
ghost use Rattle.sva_labels.specs.Finding.{part_of};
ghost use Rattle.sva_labels.specs.Sound.{IsSound};
ghost use Rattle.sva_host_state.specs.Steps.{ByLabels};

use crate::host::Host;
use sva_step::{Answer, Refusal};

impl Host {
    /// Files the oldest page request that waits at the unit of an endpoint, under the binding that bears its PASID; with the last
    /// one of its group a job is made, behind all others. `NoSuchEndpoint` where the endpoint isn't there, `Resetting` where its
    /// unit is in reset, and `OutOfMemory` where a growth is refused; none is asked for where no page request waits.
    pub(crate) fn serve(&mut self, endpoint: u64) -> Result<Answer, Refusal>
        requires { IsSound self.old }
        ensures step { ByLabels self.old (step.Serve endpoint) result self.new }
        ensures memory { (part_of self.old endpoint).page_queue ≡ [] → result ≢ Err refusal.OutOfMemory }
    {
        crate::spaces::may_serve(&self.state, endpoint)?;
        let Some(request) = crate::spaces::first_request(&self.state, endpoint) else {
            return Ok(Answer::Empty);
        };
        let Some(binding) = crate::spaces::bearer_at(&self.state, endpoint, request.pasid) else {
            unreachable!()
        };
        if self.job_table.reserve(endpoint).is_err() {
            return Err(Refusal::OutOfMemory);
        }
        crate::spaces::take_request(&mut self.state, endpoint);
        if self.job_table.file(endpoint, binding, request) {
            Ok(Answer::Job)
        } else {
            Ok(Answer::Part)
        }
    }
}
