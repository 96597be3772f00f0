//! The answers of workers to the jobs that they hold.

ghost use Rattle.std.specs.Prelude.{◌≡◌, ◌≢◌, Ok, Err};
ghost use Rattle.sva_step.specs.declared.answers.Answer.TheVariants as answer;
ghost use Rattle.sva_step.specs.declared.refusals.Refusal.TheVariants as refusal;
ghost use Rattle.sva_step.specs.declared.steps.Step.TheVariants as step;
ghost use Rattle.sva_labels.specs.Host.{reply_of};
ghost use Rattle.sva_labels.specs.Sound.{IsSound};
ghost use Rattle.sva_labels.specs.Sound.{HaveSpaces};
ghost use Rattle.sva_host_state.specs.Steps.{ByLabels};

use crate::host::Host;
use sva_step::{Answer, Refusal, Verdict};

impl Host {
    /// A worker answers the job that it holds: its hand is empty then, and the group of the job isn't open any more. A verdict of
    /// Success maps each page that the job asks for and that isn't mapped. Where the binding is cut off, quiet or released, or
    /// the unit is in reset, nothing is sent, and no memory is taken. `NoSuchWorker` where the worker isn't there, and `NoJob`
    /// where it holds none; a job that is refused stays in its hand.
    pub(crate) fn reply(&mut self, worker: u64, verdict: Verdict) -> Result<Answer, Refusal>
        requires sound { IsSound self.old }
        requires spaces { HaveSpaces self.old }
        ensures step { ByLabels self.old (step.Reply worker verdict) result self.new }
        ensures memory { reply_of self.old (step.Reply worker verdict) ≡ Ok answer.Dropped → result ≢ Err refusal.OutOfMemory }
    {
        if worker >= self.workers {
            return Err(Refusal::NoSuchWorker);
        }
        let hand = worker as usize;
        let Some(job) = self.job_table.held(hand) else {
            return Err(Refusal::NoJob);
        };
        let answer = crate::spaces::respond(&mut self.state, job, verdict)?;
        self.job_table.let_go(hand);
        Ok(answer)
    }
}
