//! Runs of calls of a table of jobs.

use crate::asserted::holds;
use std::alloc::Global;
use std::process::Abort;
use sva_msg::PageRequest;
use sva_prq::JobTable;

/// A read request for a page that is a group of its own.
const WHOLE: PageRequest = PageRequest {
    pasid: 1,
    index: 3,
    page: 10,
    read: true,
    write: false,
    last: true,
};

/// A call of a table of jobs, and what it has to answer.
#[derive(Clone, Copy)]
enum Call {
    /// The job is taken into hand 2.
    Take,
    /// The job is in hand 2.
    Held,
    /// The job in hand 2 is let go.
    LetGo,
    /// The unit of the job is dropped.
    DropUnit,
    /// How many jobs are queued, and whether binding 7 has an open group.
    Count(usize, bool),
}

/// A table of jobs with a job of unit 5 and binding 7 in its queue.
fn with_job<R: Abort>(rt: &R, alloc: Global) -> JobTable {
    let mut job_table = JobTable::new(alloc);
    job_table.reserve(5).expect(rt, "memory");
    let made = job_table.file(5, 7, WHOLE);
    assert!(rt; made);
    job_table
}

/// Takes the job into hand 2, if there is one and the hand is empty.
fn takes(job_table: &mut JobTable) -> bool {
    if job_table.queued() == 0 || job_table.held(2).is_some() {
        return false;
    }
    job_table.take(2);
    true
}

/// Is the job in hand 2?
fn is_held(job_table: &JobTable) -> bool {
    match job_table.held(2) {
        Some(job) => (job.unit(), job.binding(), job.index()) == (5, 7, 3),
        None => false,
    }
}

/// Makes a call, and tells whether it answers as it has to.
fn answers(job_table: &mut JobTable, call: Call) -> bool {
    match call {
        Call::Take => takes(job_table),
        Call::Held => is_held(job_table),
        Call::LetGo => {
            job_table.let_go(2);
            job_table.held(2).is_none()
        }
        Call::DropUnit => {
            job_table.drop_unit(5);
            true
        }
        Call::Count(queued, is_open) => {
            job_table.queued() == queued && job_table.open_of(7) == is_open
        }
    }
}

/// Makes the calls of a table of jobs with a job.
fn run<R: Abort>(rt: &R, alloc: Global, calls: &[Call]) {
    let mut job_table = with_job(rt, alloc);
    for place in 0..calls.len() {
        holds(rt, answers(&mut job_table, calls[place]), "call", place);
    }
}

static ONE_JOB: [Call; 6] = [
    Call::Count(1, true),
    Call::Take,
    Call::Count(0, true),
    Call::Held,
    Call::LetGo,
    Call::Count(0, false),
];

/// A job is queued, taken and let go.
#[test]
fn one_job(rt: HostRuntime) {
    run(&rt, rt.alloc(), &ONE_JOB);
}

static UNIT_GONE: [Call; 5] = [
    Call::Take,
    Call::DropUnit,
    Call::Held,
    Call::Count(0, false),
    Call::LetGo,
];

/// A reset takes the unit's job off the queue, and leaves the one in a hand.
#[test]
fn a_job_in_a_hand_stays(rt: HostRuntime) {
    run(&rt, rt.alloc(), &UNIT_GONE);
}
