//! The open groups of page requests, and the jobs.

ghost use Rattle.std.specs.Prelude.{◌≡◌, IfOk, filter, map, option_map, take};
ghost use Rattle.sva_prq.specs.Groups.{is_of_unit};
ghost use Rattle.sva_parts_by_labels.specs.JobTable.{group_seen, hands_seen, job_seen, jobs_seen};
ghost use Rattle.sva_snapshot.specs.Shown.{host_group_shown, job_shown};

use std::alloc::{AllocError, Global};
use sva_prq::{Ask, Group, JobTable};

/// A group of page requests that the host has open.
#[derive(Drop, Clone, PartialEq, Eq)]
pub struct HostGroup {
    /// The number of the binding under which it is filed.
    pub binding: u64,
    /// Its Page Request Group Index.
    pub index: u8,
    /// What its requests ask for, in order of filing.
    pub asks: Vec<Ask>,
    /// Its last request is filed.
    pub is_whole: bool,
}

/// A job: a whole group, to be answered.
#[derive(Drop, Clone, PartialEq, Eq)]
pub struct Job {
    /// The number of the endpoint.
    pub endpoint: u64,
    /// The number of the binding under which its group is filed.
    pub binding: u64,
    /// The Page Request Group Index.
    pub index: u8,
    /// What the requests ask for, in order of filing.
    pub asks: Vec<Ask>,
}

/// An open group.
fn group_of(alloc: Global, group: &Group) -> Result<HostGroup, AllocError>
    ensures { IfOk result (λ shown. host_group_shown shown ≡ group_seen group.now) }
{
    Ok(HostGroup {
        binding: group.binding(),
        index: group.index(),
        asks: Vec::from_slice(alloc, group.asks())?,
        is_whole: group.is_whole(),
    })
}

/// Those of the open groups that are of a unit, in their order.
pub(crate) fn groups_of(
    alloc: Global,
    groups: &[Group],
    unit: u64,
) -> Result<Vec<HostGroup>, AllocError>
    ensures { IfOk result (λ own. map host_group_shown own.items
        ≡ map group_seen (filter (is_of_unit unit) groups.now)) }
{
    let mut own = Vec::new(alloc);
    for group in groups {
        if group.unit() == unit {
            own.push(group_of(alloc, group)?)?;
        }
    }
    Ok(own)
}

/// A job.
fn job_of(alloc: Global, job: &sva_prq::Job) -> Result<Job, AllocError>
    ensures { IfOk result (λ shown. job_shown shown ≡ job_seen job.now) }
{
    Ok(Job {
        endpoint: job.unit(),
        binding: job.binding(),
        index: job.index(),
        asks: Vec::from_slice(alloc, job.asks())?,
    })
}

/// The jobs that no worker has taken, the oldest first.
pub(crate) fn jobs_of(alloc: Global, table: &JobTable) -> Result<Vec<Job>, AllocError>
    ensures { IfOk result (λ jobs. map job_shown jobs.items ≡ jobs_seen table.now) }
{
    let mut jobs = Vec::new(alloc);
    for place in 0..table.queued() {
        let Some(job) = table.job(place) else {
            unreachable!();
        };
        jobs.push(job_of(alloc, job)?)?;
    }
    Ok(jobs)
}

/// What is in a hand.
fn hand_of(alloc: Global, hand: &Option<sva_prq::Job>) -> Result<Option<Job>, AllocError>
    ensures { IfOk result (λ shown. option_map job_shown shown ≡ option_map job_seen hand.now) }
{
    match hand {
        Some(job) => Ok(Some(job_of(alloc, job)?)),
        None => Ok(None),
    }
}

/// The first hands, so many of them; all where there are no more.
fn first_of(hands: &[Option<sva_prq::Job>], workers: usize) -> &[Option<sva_prq::Job>]
    ensures { result.now ≡ take workers hands.now }
{
    if workers < hands.len() {
        &hands[..workers]
    } else {
        hands
    }
}

/// What is in these hands.
fn all_of(alloc: Global, hands: &[Option<sva_prq::Job>]) -> Result<Vec<Option<Job>>, AllocError>
    ensures { IfOk result (λ own. map (option_map job_shown) own.items ≡ map (option_map job_seen) hands.now) }
{
    let mut own = Vec::new(alloc);
    for hand in hands {
        own.push(hand_of(alloc, hand)?)?;
    }
    Ok(own)
}

/// What is in the hands of so many workers.
pub(crate) fn hands_of(
    alloc: Global,
    table: &JobTable,
    workers: u64,
) -> Result<Vec<Option<Job>>, AllocError>
    ensures { IfOk result (λ own. map (option_map job_shown) own.items ≡ hands_seen workers table.now) }
{
    all_of(alloc, first_of(table.hands(), workers as usize))
}
