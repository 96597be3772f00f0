//! The table of jobs: the groups, the queue of jobs, and the hands of the workers.

ghost use Rattle.std.specs.Prelude.{◌≡◌, ◌<◌, length, None, OnOk, OnErr, IsOk, option_copied};
ghost use Rattle.sva_prq.specs.Groups.{is_open};
ghost use Rattle.sva_prq.specs.JobTable.{no_jobs, with_room, CanFile, filed, hand, taken, after_answer, without_unit, is_job_of_other_unit as is_apart};

use crate::group_table::Groups;
use crate::jobs::Job;
use std::alloc::{AllocError, Global};
use std::collections::VecDeque;
use std::marker::Model;
use sva_msg::PageRequest;
use sva_step::MOST_WORKERS;

/// The page request groups that are open at the host, the jobs that whole groups make, and the hands of the workers that
/// answer them. Jobs form one queue over all units, first in, first out, and a worker holds one job at most. Only `reserve`
/// takes memory.
#[derive(Drop)]
pub struct JobTable {
    pub(crate) groups: Groups,
    /// The jobs that no worker has taken, the oldest first.
    pub(crate) jobs: VecDeque<Job>,
    /// How many jobs more fit into `jobs` as it is.
    room: usize,
    /// By worker.
    pub(crate) hands: [Option<Job>; MOST_WORKERS],
}

impl Model for JobTable {
    ghost use Rattle.std.specs.Prelude.{◌+◌, ◌≤◌};
    ghost use Rattle.std.specs.VecDeque.{deque_len, deque_capacity};
    ghost use Rattle.sva_prq.specs.JobTable.{JobTable as Serving};

    ghost Value = { Serving };

    ghost view = { λ s. record { groups = s.groups; jobs = s.jobs.items; room = s.room; hands = s.hands } };

    ghost invariant = { λ s. deque_len s.jobs + s.room ≤ deque_capacity s.jobs };
}

/// Whether the job is of another unit than this.
fn is_job_of_other_unit(job: &Job, unit: u64) -> bool
    ensures { result ≡ is_apart unit job.now }
{
    job.unit() != unit
}

impl JobTable {
    /// No groups, no jobs, and empty hands.
    pub fn new(alloc: Global) -> Self
        ensures { result ≡ no_jobs }
    {
        JobTable {
            groups: Groups::new(alloc),
            jobs: VecDeque::new(alloc),
            room: 0,
            hands: [None, None, None, None],
        }
    }

    /// Makes room for one page request more of this unit, whether it begins a group, makes a job, or both. An error changes
    /// nothing.
    pub fn reserve(&mut self, unit: u64) -> Result<(), AllocError>
        ensures ok { OnOk result (self.new ≡ with_room self.old) }
        ensures err { OnErr result (self.new ≡ self.old) }
        ensures succeeds { 0 < self.old.room → 0 < self.old.groups.room → IsOk result }
    {
        if self.room > 0 {
            return self.groups.reserve(unit);
        }
        self.jobs.reserve(1)?;
        self.groups.reserve(unit)?;
        self.room = 1;
        Ok(())
    }

    /// Files a page request that came at this unit under a binding, for which `reserve` has made room, and tells whether that
    /// makes a job. A job goes behind all others.
    pub fn file(&mut self, unit: u64, binding: u64, request: PageRequest) -> bool
        requires { CanFile self.old unit binding request }
        ensures new { self.new ≡ filed self.old unit binding request }
        ensures job { result ≡ request.last }
    {
        let Some(job) = self.groups.file(unit, binding, request) else {
            return false;
        };
        self.jobs.push_back_reserved(job);
        self.room -= 1;
        true
    }

    /// How many jobs wait for a worker.
    pub fn queued(&self) -> usize
        ensures { result ≡ length self.now.jobs }
    {
        self.jobs.len()
    }

    /// The job in the hand of this worker, below 4.
    pub fn held(&self, worker: usize) -> Option<&Job>
        requires { worker < 4 }
        ensures { option_copied result ≡ hand self.now worker }
    {
        self.hands[worker].as_ref()
    }

    /// This worker, below 4, takes the oldest job into its hand. That `held` tells none, and `queued` at least one, is the
    /// caller's condition.
    pub fn take(&mut self, worker: usize)
        requires worker { worker < 4 }
        requires empty { hand self.old worker ≡ None }
        requires queued { 0 < length self.old.jobs }
        ensures { self.new ≡ taken self.old worker }
    {
        let job = self.jobs.pop_front();
        self.hands[worker] = job;
        self.room += 1;
    }

    /// The job in the hand of this worker, below 4, is answered, or nobody waits for its answer: the group of the job is at
    /// its end, if it is still there, and the hand is empty.
    pub fn let_go(&mut self, worker: usize)
        requires { worker < 4 }
        ensures { self.new ≡ after_answer self.old worker }
    {
        let hand = &mut self.hands[worker];
        if let Some(job) = hand.take() {
            self.groups.answered(&job);
        }
    }

    /// Whether the binding has a group that is neither answered nor dropped with its unit, a job in a hand included.
    pub fn open_of(&self, binding: u64) -> bool
        ensures { result ≡ is_open binding self.now.groups }
    {
        self.groups.open_of(binding)
    }

    /// Ends all groups of a unit and takes its jobs off the queue. A job of it in a hand stays there, and its answer ends no
    /// group.
    pub fn drop_unit(&mut self, unit: u64)
        ensures { self.new ≡ without_unit self.old unit }
    {
        self.groups.drop_unit(unit);
        let before = self.jobs.len();
        self.jobs.retain(|job| is_job_of_other_unit(job, unit));
        self.room += before - self.jobs.len();
    }
}
