//! A remapping unit.
ghost use Rattle.std.specs.Prelude.{◌≡◌, ◌+◌, ◌*◌, ◌%◌, ◌^◌, ◌<◌, ◌≤◌, ◌==◌, suc, true, false, option_map};
ghost use Rattle.std.specs.Prelude.{◌++◌, [], ◌∷◌, length, map, drop, slice_get, All};
ghost use Rattle.sva_queue.specs.Cookies.{AreRising, HasNumber, number_after};
ghost use Rattle.sva_model.specs.Wire.Descriptor.{PasidDescriptor, WaitDescriptor};
ghost use Rattle.sva_labels.specs.Finding.{has_room, is_wait_done};
ghost use Rattle.sva_labels.specs.Moves.{descriptors_for, with_descriptors};
ghost use Rattle.sva_queue.specs.declared.heads.Next.TheVariants as Next;

use crate::orders::orders_for;
use std::marker::Model;
use sva_itags::Count;
use sva_msg::{PageRequest, Range};
use sva_prq::PageQueue;
use sva_queue::{Descriptor, Next, Sending};

/// One remapping unit of the host: its invalidation queue, the ITags of the Invalidate Requests that it sent, and its page
/// request queue (Intel VT-d, "Queued Invalidation Interface" and "Page Request Queue"). It is seen as the definitions by
/// labels see it. No call takes memory.
#[derive(Drop)]
pub struct RemappingUnit {
    pub(crate) queue: sva_queue::Unit,
    pub(crate) requests: PageQueue,
}

impl Model for RemappingUnit {
    ghost use Rattle.sva_iommu.specs.Seen.{UnitSeen, seen};

    ghost Value = { UnitSeen };

    ghost view = { λ u. seen u.queue u.requests };
}

impl Default for RemappingUnit {
    ghost use Rattle.sva_iommu.specs.Seen.{idle};

    ghost is_default = { λ unit. unit ≡ idle };

    fn default() -> Self {
        RemappingUnit::new()
    }
}

impl RemappingUnit {
    ghost use Rattle.sva_iommu.specs.Seen.{descriptor_seen, idle, with_unit};
    ghost use Rattle.sva_msg.specs.Seen.{page_request_seen};
    ghost use Rattle.sva_iommu.specs.Pumping.{next_of, IsPump, unit_sent, unit_passed};
    ghost use Rattle.sva_iommu.specs.Changes.{freed_by, unit_completed, with_requests, reset_begun, unit_reopened};

    /// An open unit that nothing was asked of: its queues are empty, and all its ITags are free.
    pub fn new() -> Self
        ensures { result ≡ idle }
    {
        RemappingUnit {
            queue: sva_queue::Unit::new(),
            requests: PageQueue::new(),
        }
    }

    /// Whether the unit is open, and not in reset.
    pub fn is_open(&self) -> bool
        ensures { result ≡ self.now.unit.is_open }
    {
        self.queue.is_open()
    }

    /// Whether so many descriptors fit into the 64 places of the invalidation queue beside those that are in it.
    pub fn has_room(&self, descriptors: u64) -> bool
        ensures { result ≡ has_room self.now.unit descriptors }
    {
        descriptors <= self.queue.room() as u64
    }

    /// Whether a wait that was submitted, with this cookie, is done: its cookie is below the front.
    pub fn is_wait_done(&self, cookie: u64) -> bool
        ensures { result ≡ is_wait_done self.now.unit cookie }
    {
        cookie < self.queue.front()
    }

    /// Puts these descriptors at the end of the queue.
    fn submit(&mut self, descriptors: &[Descriptor])
        requires opened { self.old.unit.is_open ≡ true }
        requires room { length self.old.unit.queue + length descriptors.now ≤ 64 }
        requires numbers { All HasNumber descriptors.now }
        requires rising { AreRising self.old.unit.waits_end descriptors.now }
        ensures { self.new ≡ with_unit self.old (record self.old.unit {
          queue = self.old.unit.queue ++ map descriptor_seen descriptors.now;
          waits_end = number_after self.old.unit.waits_end descriptors.now;
        }) }
    {
        // That the cookies in the queue rise is known once the front has been read.
        let _ = self.queue.front();
        let Ok(()) = self.queue.submit(descriptors) else {
            unreachable!()
        };
    }

    /// What an unmapping asks of an open unit: invalidates `count` ranges of 2^order pages of a PASID, one behind another from
    /// `page` on, and waits for them with this cookie. `has_room` tells whether they fit.
    pub fn submit_ranges(&mut self, pasid: u32, page: u64, count: u64, order: u8, cookie: u64)
        requires opened { self.old.unit.is_open ≡ true }
        requires room { has_room self.old.unit (suc count) ≡ true }
        requires small { order ≤ 9 }
        requires aligned { page % 2 ^ order ≡ 0 }
        requires low { page + count * 2 ^ order ≤ 2 ^ 36 }
        requires later { self.old.unit.waits_end ≤ cookie }
        requires number { cookie < 2 ^ 63 }
        ensures { self.new ≡ with_unit self.old (with_descriptors self.old.unit (descriptors_for pasid page count order cookie) cookie) }
    {
        if count == 1 {
            self.submit_range(pasid, page, order, cookie);
            return;
        }
        let orders = orders_for(pasid, page, count, order, cookie);
        self.submit(&orders);
    }

    /// The same of one range, with no room for others.
    fn submit_range(&mut self, pasid: u32, page: u64, order: u8, cookie: u64)
        requires opened { self.old.unit.is_open ≡ true }
        requires room { has_room self.old.unit 2 ≡ true }
        requires small { order ≤ 9 }
        requires aligned { page % 2 ^ order ≡ 0 }
        requires low { page < 2 ^ 36 }
        requires later { self.old.unit.waits_end ≤ cookie }
        requires number { cookie < 2 ^ 63 }
        ensures { self.new ≡ with_unit self.old (with_descriptors self.old.unit (descriptors_for pasid page 1 order cookie) cookie) }
    {
        let range = Range::new(page, order);
        self.submit(&[
            Descriptor::Range { pasid, range },
            Descriptor::Wait {
                cookie,
                drain: false,
            },
        ]);
    }

    /// Asks an open unit for a drain of its page request queue: a wait with this cookie that is done only once that queue is
    /// empty (Intel VT-d, "Page Request Drain"). `has_room` of 1 tells whether it fits.
    pub fn submit_drain(&mut self, cookie: u64)
        requires opened { self.old.unit.is_open ≡ true }
        requires room { has_room self.old.unit 1 ≡ true }
        requires later { self.old.unit.waits_end ≤ cookie }
        requires number { cookie < 2 ^ 63 }
        ensures { self.new ≡ with_unit self.old (with_descriptors self.old.unit (WaitDescriptor cookie true ∷ []) cookie) }
    {
        self.submit(&[Descriptor::Wait {
            cookie,
            drain: true,
        }]);
    }

    /// Asks an open unit to invalidate all pages of a PASID, and to wait for that with this cookie. `has_room` of 2 tells
    /// whether they fit.
    pub fn submit_pasid(&mut self, pasid: u32, cookie: u64)
        requires opened { self.old.unit.is_open ≡ true }
        requires room { has_room self.old.unit 2 ≡ true }
        requires later { self.old.unit.waits_end ≤ cookie }
        requires number { cookie < 2 ^ 63 }
        ensures { self.new ≡ with_unit self.old (with_descriptors self.old.unit (PasidDescriptor pasid ∷ WaitDescriptor cookie false ∷ []) cookie) }
    {
        self.submit(&[
            Descriptor::Pasid { pasid },
            Descriptor::Wait {
                cookie,
                drain: false,
            },
        ]);
    }

    /// What becomes of the head of the invalidation queue; nothing changes. An invalidation goes to the endpoint under the
    /// lowest ITag that is free, and stays where none is. A wait is done where no ITag is busy and, with its drain flag, no page
    /// request waits; else it stays.
    pub fn next(&self) -> Next
        ensures next { result ≡ next_of self.now }
        ensures pump { IsPump self.now result }
    {
        self.queue.look(self.requests.is_empty())
    }

    /// The invalidation at the head, which `next` gave, goes to the endpoint: it is taken off, and its ITag is busy.
    pub fn send(&mut self, sending: Sending)
        requires { next_of self.old ≡ Next.Send sending }
        ensures { self.new ≡ with_unit self.old (unit_sent self.old.unit sending.itag) }
    {
        self.queue.send(sending.itag);
    }

    /// The wait at the head is done, with the cookie that `next` gave: it is taken off, and the front is behind it.
    pub fn pass(&mut self, cookie: u64)
        requires { next_of self.old ≡ Next.Pass cookie }
        ensures { self.new ≡ with_unit self.old (unit_passed self.old.unit cookie) }
    {
        self.queue.pass(cookie);
    }

    /// Completions have arrived that name the ITags of `vector` (bit T stands for ITag T, 0 to 31) and bear `count`. Gives how
    /// many of the ITags are free by it, 0 to 32. An ITag that isn't busy is ignored, and the first completion of an ITag fixes
    /// its count (PCI Express Base 5.0, section 10.3.2).
    pub fn complete(&mut self, vector: u32, count: Count) -> u32
        ensures freed { result ≡ freed_by self.old.unit vector count }
        ensures unit { self.new ≡ with_unit self.old (unit_completed self.old.unit vector count) }
    {
        // That there are 32 ITags is known once the busy ones have been read.
        let _ = self.queue.busy();
        self.queue.arrived(vector, count).count_ones()
    }

    /// A page request arrives, behind those that wait. At most 31 may wait (the 32 places of the queue are this project's own
    /// choice).
    pub fn arrive(&mut self, request: PageRequest)
        requires { length self.old.page_queue < 32 }
        ensures { self.new ≡ with_requests self.old (self.old.page_queue ++ page_request_seen request ∷ []) }
    {
        self.requests.arrive(request);
    }

    /// The oldest page request that waits, if one does.
    pub fn first_request(&self) -> Option<PageRequest>
        ensures { option_map page_request_seen result ≡ slice_get self.now.page_queue 0 }
    {
        self.requests.head()
    }

    /// Takes out the oldest page request that waits, if one does.
    pub fn take_request(&mut self) -> Option<PageRequest>
        ensures first { option_map page_request_seen result ≡ slice_get self.old.page_queue 0 }
        ensures rest { self.new ≡ with_requests self.old (drop 1 self.old.page_queue) }
    {
        self.requests.serve()
    }

    /// A reset of the endpoint begins: both queues are emptied, and the unit isn't open. The busy ITags stay busy, and the
    /// front stays.
    pub fn reset(&mut self)
        ensures { self.new ≡ reset_begun self.old }
    {
        self.queue.begin_reset();
        self.requests.clear();
    }

    /// The reset has ended: the unit is open, all its ITags are free, and the front is past all waits that were submitted.
    pub fn reopen(&mut self)
        requires { self.old.unit.is_open ≡ false }
        ensures { self.new ≡ with_unit self.old (unit_reopened self.old.unit) }
    {
        // That there are 32 ITags is known once the busy ones have been read.
        let _ = self.queue.busy();
        self.queue.end_reset();
    }
}
