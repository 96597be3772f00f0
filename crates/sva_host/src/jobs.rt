//! The steps of workers and their jobs.

ghost use Rattle.std.specs.Prelude.{◌≢◌, Err};
ghost use Rattle.sva_step.specs.declared.steps.Step.TheVariants as step;
ghost use Rattle.sva_step.specs.declared.refusals.Refusal.TheVariants as refusal;
ghost use Rattle.sva_host_state.specs.Steps.{ByLabels};

use crate::host::Host;
use sva_step::{Answer, Refusal};

impl Host {
    /// A worker takes the oldest job that waits.
    pub(crate) fn take(&mut self, worker: u64) -> Result<Answer, Refusal>
        ensures step { ByLabels self.old (step.Take worker) result self.new }
        ensures memory { result ≢ Err refusal.OutOfMemory }
    {
        if worker >= self.workers {
            return Err(Refusal::NoSuchWorker);
        }
        let hand = worker as usize;
        if self.job_table.held(hand).is_some() {
            return Err(Refusal::HandsFull);
        }
        if self.job_table.queued() == 0 {
            return Err(Refusal::NoJob);
        }
        self.job_table.take(hand);
        let Some(job) = self.job_table.held(hand) else {
            unreachable!()
        };
        Ok(Answer::JobTaken {
            binding: job.binding(),
            group: job.index(),
            pages: job.asks().len() as u32,
        })
    }
}
