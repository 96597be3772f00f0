//! The loop of a worker.

ghost use Rattle.std.specs.Prelude.{◌≡◌, ◌-◌, ◌≤◌, false, vec_len, is_some, IfSome};
ghost use Rattle.sva_fabric.specs.Jobs.{HasAnswered, IsJobTurn, is_left, verdict_after};

use crate::fabric::Fabric;
use crate::loops::callbacks::Pager;
use crate::loops::endings::{Ended, Spent, Turn};
use crate::loops::spending::spend;
use crate::loops::using::turn_of;
use crate::port::Port;
use std::alloc::Global;
use std::sync::Wait;
use std::thread::yield_now;
use sva_core::{Ledgers, StepFault};
use sva_step::{Answer, Step, Verdict};

/// Takes jobs as a worker, has the pager decide of each, and answers so, in as many turns as are given: a taking and an answer are a turn
/// each. A success that is refused is answered `Invalid`; any other refused call is tried again. Want of memory ends the loop, and so
/// does a port whose last receipt doesn't stand. A refused call lets other threads run. There are no tickets.
pub fn fault_loop<C: Ledgers, R: Wait, P: Pager>(
    fabric: &Fabric<C>,
    rt: &R,
    alloc: Global,
    port: &mut Port<C>,
    worker: u64,
    pager: &mut P,
    turns: u64,
) -> Ended<C>
    ensures turns { result.turns_left ≤ turns }
    ensures none { vec_len result.tickets ≡ 0 }
    ensures answered { HasAnswered C.config worker (turns - result.turns_left) result.turns_left result.out_of_memory port.old port.new }
{
    let Spent {
        turns_left,
        out_of_memory,
    } = answer_jobs(fabric, rt, port, worker, pager, turns);
    Ended {
        turns_left,
        out_of_memory,
        tickets: Vec::new(alloc),
    }
}

/// Takes and answers jobs.
pub fn answer_jobs<C: Ledgers, R: Wait, P: Pager>(
    fabric: &Fabric<C>,
    rt: &R,
    port: &mut Port<C>,
    worker: u64,
    pager: &mut P,
    turns: u64,
) -> Spent
    ensures turns { result.turns_left ≤ turns }
    ensures answered { HasAnswered C.config worker (turns - result.turns_left) result.turns_left result.out_of_memory port.old port.new }
{
    let mut decided = None;
    spend!(turn in turns => take_turn(fabric, rt, port, worker, pager, &mut decided), {})
}

/// One turn: a job is taken, or the one in hand is answered as was decided.
fn take_turn<C: Ledgers, R: Wait, P: Pager>(
    fabric: &Fabric<C>,
    rt: &R,
    port: &mut Port<C>,
    worker: u64,
    pager: &mut P,
    decided: &mut Option<Verdict>,
) -> Turn
    ensures { IsJobTurn C.config worker port.old port.new (is_some decided.old) (is_some decided.new) result }
{
    let Some(verdict) = *decided else {
        return take_job(fabric, rt, port, worker, pager, decided);
    };
    let ended = turn_of(fabric.step(rt, port, &Step::Reply { worker, verdict }));
    *decided = left_to_answer(verdict, ended);
    ended
}

/// One try to take a job, of which the pager decides.
fn take_job<C: Ledgers, R: Wait, P: Pager>(
    fabric: &Fabric<C>,
    rt: &R,
    port: &mut Port<C>,
    worker: u64,
    pager: &mut P,
    decided: &mut Option<Verdict>,
) -> Turn
    requires { is_some decided.old ≡ false }
    ensures { IsJobTurn C.config worker port.old port.new false (is_some decided.new) result }
{
    let receipt = match fabric.step(rt, port, &Step::Take { worker }) {
        Ok(receipt) => receipt,
        Err(StepFault::Memory) => return Turn::Memory,
        Err(StepFault::Strayed(_)) => return Turn::Strayed,
    };
    let Ok(
        Answer::JobTaken {
            binding,
            group,
            pages,
        },
    ) = receipt.answer
    else {
        return Turn::Again;
    };
    *decided = Some(pager.decide(binding, group, pages));
    Turn::Accepted
}

/// What is left to be answered after an answer's turn. A success that was refused is `Invalid` at the next try.
fn left_to_answer(verdict: Verdict, ended: Turn) -> Option<Verdict>
    ensures left { is_some result ≡ is_left ended }
    ensures invalid { IfSome result (λ v. v ≡ verdict_after verdict ended) }
{
    match ended {
        Turn::Accepted => None,
        Turn::Again if verdict == Verdict::Success => Some(Verdict::Invalid),
        _ => Some(verdict),
    }
}
