//! A unit whose queue is a list that is moved up at each pump, and whose front is found by looking at all cookies. It stands
//! for comparison: tests alone use it.

use arrayvec::ArrayVec;
use sva_itags::{Count, Itags};
use sva_queue::{Descriptor, Pumped, QueueFull};
use sva_step::QUEUE_PLACES;

/// The larger of two numbers.
fn larger(one: u64, other: u64) -> u64 {
    if one < other { other } else { one }
}

/// The invalidation queue of one remapping unit and the tags of the Invalidate Requests that it sent.
#[derive(Drop)]
pub struct Unit {
    queue: ArrayVec<Descriptor, QUEUE_PLACES>,
    tags: Itags,
    is_open: bool,
    front: u64,
    void: u64,
}

impl Unit {
    /// An open unit with an empty queue; all its tags are free.
    pub(crate) fn new() -> Self {
        Unit {
            queue: ArrayVec::new(),
            tags: Itags::new(),
            is_open: true,
            front: 0,
            void: 0,
        }
    }

    /// Puts all of the descriptors at the end of the queue, or none where they don't fit.
    pub(crate) fn submit(&mut self, descriptors: &[Descriptor]) -> Result<(), QueueFull> {
        match self.queue.try_extend_from_slice(descriptors) {
            Ok(()) => Ok(()),
            Err(_) => Err(QueueFull),
        }
    }

    /// How many descriptors fit in beside those that are queued.
    pub(crate) fn room(&self) -> usize {
        self.queue.remaining_capacity()
    }

    /// The descriptor that is next.
    pub(crate) fn head(&self) -> Option<Descriptor> {
        self.queue.first().copied()
    }

    /// Whether the unit is in no reset.
    pub(crate) fn is_open(&self) -> bool {
        self.is_open
    }

    /// The number after the greatest cookie that was taken, or that a reset made void which has ended.
    pub(crate) fn front(&self) -> u64 {
        self.front
    }

    /// What `pump` would answer.
    pub(crate) fn next(&self, prq_empty: bool) -> Pumped {
        match self.head() {
            None => Pumped::Idle,
            Some(Descriptor::Wait { cookie, drain }) => {
                if self.busy() == 0 && (!drain || prq_empty) {
                    Pumped::Done(cookie)
                } else {
                    Pumped::Blocked
                }
            }
            Some(Descriptor::Range { .. } | Descriptor::Pasid { .. }) => {
                match self.tags.lowest_free() {
                    Some(tag) => Pumped::Issued(tag),
                    None => Pumped::Blocked,
                }
            }
        }
    }

    /// Takes the head off where it can go.
    pub(crate) fn pump(&mut self, prq_empty: bool) -> Pumped {
        let answer = self.next(prq_empty);
        match answer {
            Pumped::Issued(_) => {
                let _invalidation = self.queue.pop_at(0);
                let _tag = self.tags.take();
            }
            Pumped::Done(cookie) => {
                let _wait = self.queue.pop_at(0);
                self.front = larger(self.front, cookie.wrapping_add(1));
            }
            Pumped::Blocked | Pumped::Idle => {}
        }
        answer
    }

    /// A completion has arrived. Gives the vector of the tags that it completes.
    pub(crate) fn arrived(&mut self, vector: u32, count: Count) -> u32 {
        self.tags.arrived(vector, count)
    }

    /// The vector of the busy tags.
    pub(crate) fn busy(&self) -> u32 {
        self.tags.busy()
    }

    /// A reset of the function begins.
    pub(crate) fn begin_reset(&mut self) {
        for descriptor in &self.queue {
            if let Descriptor::Wait { cookie, .. } = *descriptor {
                self.void = larger(self.void, cookie.wrapping_add(1));
            }
        }
        self.queue.clear();
        self.is_open = false;
    }

    /// The reset has ended.
    pub(crate) fn end_reset(&mut self) {
        self.tags.clear();
        self.front = larger(self.front, self.void);
        self.is_open = true;
    }
}
