//! Workers' hands: one that is full, and one that is empty.

ghost use Rattle.std.specs.Prelude.{◌≡◌, ◌++◌, OnOk};
ghost use Rattle.sva_explain.specs.Hands.{empty_line, hand_line, hand_text, hands_full, no_job, no_job_line};
ghost use Rattle.sva_snapshot.specs.Shown.{job_shown};

use crate::blockers::{Level, put_bracket, put_indent, put_invalid, put_start};
use crate::enabled::{can_take, held_by};
use std::alloc::AllocError;
use sva_lines::{end_line, put_field, put_word};
use sva_snapshot::{Job, Snapshot};
use sva_step::Step;

/// Appends which job a worker has.
fn put_hand_text(out: &mut Vec<u8>, level: Level, worker: u64, job: &Job) -> Result<(), AllocError>
    ensures { OnOk result (out.new.items ≡ out.old.items ++ hand_text level worker (job_shown job.now)) }
{
    put_indent(out, level)?;
    put_field(out, "worker ", worker)?;
    put_field(out, " has group ", u64::from(job.index))?;
    put_field(out, " of binding ", job.binding)
}

/// Appends the line of a job in a worker's hand.
fn put_hand_line(
    out: &mut Vec<u8>,
    level: Level,
    snapshot: &Snapshot,
    worker: u64,
    job: &Job,
) -> Result<(), AllocError>
    ensures { OnOk result (out.new.items ≡ out.old.items ++ hand_line level snapshot.now worker (job_shown job.now)) }
{
    put_hand_text(out, level, worker, job)?;
    put_word(out, " in hand")?;
    put_invalid(out, snapshot, worker)?;
    end_line(out)
}

/// Appends the job that keeps a worker from taking another.
pub fn put_hands_full(out: &mut Vec<u8>, snapshot: &Snapshot, step: &Step) -> Result<(), AllocError>
    ensures { OnOk result (out.new.items ≡ out.old.items ++ hands_full snapshot.now step.now) }
{
    match step {
        Step::Take { worker } => match held_by(snapshot, *worker) {
            None => Ok(()),
            Some(job) => put_hand_line(out, Level::First, snapshot, *worker, job),
        },
        _ => Ok(()),
    }
}

/// Appends the line of a worker whose hand is empty.
fn put_empty(
    out: &mut Vec<u8>,
    level: Level,
    snapshot: &Snapshot,
    worker: u64,
) -> Result<(), AllocError>
    ensures { OnOk result (out.new.items ≡ out.old.items ++ empty_line level snapshot.now worker) }
{
    put_start(out, level, "worker ", worker)?;
    put_word(out, " has no job in hand")?;
    put_bracket(out, can_take(snapshot, worker), " [take ", worker)?;
    end_line(out)
}

/// Appends that no job is queued.
fn put_none_queued(out: &mut Vec<u8>, level: Level) -> Result<(), AllocError>
    ensures { OnOk result (out.new.items ≡ out.old.items ++ no_job_line level) }
{
    put_indent(out, level)?;
    put_word(out, "no job is queued")?;
    end_line(out)
}

/// Appends that there is no job for a step: none is queued, or none in the worker's hand.
pub fn put_no_job(out: &mut Vec<u8>, snapshot: &Snapshot, step: &Step) -> Result<(), AllocError>
    ensures { OnOk result (out.new.items ≡ out.old.items ++ no_job snapshot.now step.now) }
{
    match step {
        Step::Reply { worker, .. } => put_empty(out, Level::First, snapshot, *worker),
        _ => put_none_queued(out, Level::First),
    }
}
