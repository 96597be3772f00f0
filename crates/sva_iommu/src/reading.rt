//! What is read of a remapping unit: its two queues.

ghost use Rattle.std.specs.Prelude.{◌≡◌, map};
ghost use Rattle.sva_msg.specs.Seen.{page_request_seen};
ghost use Rattle.sva_iommu.specs.Seen.{unit_seen};

use crate::units::RemappingUnit;
use sva_prq::PageQueue;

impl RemappingUnit {
    /// The invalidation queue, with the ITags.
    pub fn queue(&self) -> &sva_queue::Unit
        ensures { unit_seen result.now ≡ self.now.unit }
    {
        &self.queue
    }

    /// The page request queue.
    pub fn requests(&self) -> &PageQueue
        ensures { map page_request_seen result.now ≡ self.now.page_queue }
    {
        &self.requests
    }
}
