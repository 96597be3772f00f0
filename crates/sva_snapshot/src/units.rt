//! The unit of an endpoint: its invalidation queue with the ITags, and its page request queue.

ghost use Rattle.std.specs.Prelude.{◌≡◌, IfOk};
ghost use Rattle.sva_iommu.specs.Seen.{unit_seen};
ghost use Rattle.sva_snapshot.specs.Shown.{unit_shown};

use std::alloc::{AllocError, Global};
use sva_itags::Busy;
use sva_msg::PageRequest;
use sva_prq::PageQueue;
use sva_queue::Descriptor;
use sva_step::QUEUE_PLACES;

/// The invalidation queue of a unit, with the ITags.
#[derive(Drop, Clone, PartialEq, Eq)]
pub struct Unit {
    /// It is open, and not in reset.
    pub is_open: bool,
    /// The descriptors that are queued, the head first.
    pub queue: Vec<Descriptor>,
    /// By ITag: none where it is free.
    pub busy: Vec<Option<Busy>>,
    /// The number after the greatest cookie that the unit has taken.
    pub front: u64,
    /// The number after the greatest cookie that was submitted.
    pub waits_end: u64,
}

/// The descriptors that are queued, the head first.
fn descriptors_of(alloc: Global, unit: &sva_queue::Unit) -> Result<Vec<Descriptor>, AllocError>
    ensures { IfOk result (λ descriptors. descriptors.items ≡ unit.now.descriptors) }
{
    let mut descriptors = Vec::new(alloc);
    for place in 0..QUEUE_PLACES - unit.room() {
        let Some(descriptor) = unit.at(place) else {
            unreachable!();
        };
        descriptors.push(descriptor)?;
    }
    Ok(descriptors)
}

/// The invalidation queue of a unit.
pub(crate) fn unit_of(alloc: Global, unit: &sva_queue::Unit) -> Result<Unit, AllocError>
    ensures { IfOk result (λ shown. unit_shown shown ≡ unit_seen unit.now) }
{
    Ok(Unit {
        is_open: unit.is_open(),
        queue: descriptors_of(alloc, unit)?,
        busy: Vec::from_slice(alloc, unit.tags())?,
        front: unit.front(),
        waits_end: unit.back(),
    })
}

/// The page requests that wait, the oldest first.
pub(crate) fn requests_of(alloc: Global, queue: &PageQueue) -> Result<Vec<PageRequest>, AllocError>
    ensures { IfOk result (λ requests. requests.items ≡ queue.now) }
{
    let mut requests = Vec::new(alloc);
    for place in 0..queue.len() {
        let Some(request) = queue.at(place) else {
            unreachable!();
        };
        requests.push(request)?;
    }
    Ok(requests)
}
