//! The page request queue of a remapping unit (Intel VT-d, "Page Request Queue").

ghost use Rattle.std.specs.Prelude.{◌≡◌, ◌+◌, ◌<◌, ◌↔◌, [], ◌∷◌, ◌++◌, length, drop, IsTrue, IsNone, slice_get};

use arrayvec::ArrayVec;
use std::marker::Model;
use sva_msg::PageRequest;
use sva_step::PAGE_REQUESTS;

/// The places of a page request queue: as many as page requests may be outstanding at its endpoint.
const PLACES: usize = PAGE_REQUESTS;

/// A page request as it lies in the table, whose unused places hold blank ones.
#[derive(Clone, Copy)]
pub struct Arrival {
    pub(crate) request: PageRequest,
}

impl Model for Arrival {
    ghost use Rattle.sva_msg.specs.declared.messages.PageRequest.{PageRequest};

    ghost Value = { PageRequest };

    ghost view = { λ a. a.request };

    ghost inverse = { λ r. record { request = r } };
}

impl Default for Arrival {
    ghost use Rattle.sva_prq.specs.Queue.{blank};

    ghost is_default = { λ a. a ≡ blank };

    fn default() -> Self {
        Arrival {
            request: PageRequest {
                pasid: 0,
                index: 0,
                page: 0,
                read: false,
                write: false,
                last: false,
            },
        }
    }
}

/// The page request queue of a remapping unit (Intel VT-d, "Page Request Queue"): 32 places, first in, first out. It is
/// seen as the list of the requests that wait, the oldest first. No call takes memory.
#[derive(Drop)]
pub struct PageQueue {
    pub(crate) waiting: ArrayVec<Arrival, PLACES>,
}

impl Model for PageQueue {
    ghost use Rattle.std.specs.Prelude.{List};
    ghost use Rattle.sva_msg.specs.declared.messages.PageRequest.{PageRequest};

    ghost Value = { List PageRequest };

    ghost view = { λ q. q.waiting.items };
}

impl PageQueue {
    /// An empty queue.
    pub fn new() -> Self
        ensures { result ≡ [] }
    {
        PageQueue {
            waiting: ArrayVec::new(),
        }
    }

    /// A page request arrives, behind those that wait. `room` tells whether there is a place.
    pub fn arrive(&mut self, request: PageRequest)
        requires { length self.old < 32 }
        ensures { self.new ≡ self.old ++ request ∷ [] }
    {
        self.waiting.push(Arrival { request });
    }

    /// How many of the 32 places are free.
    pub fn room(&self) -> usize
        ensures { result + length self.now ≡ 32 }
    {
        self.waiting.remaining_capacity()
    }

    /// The oldest request, if there is one.
    pub fn head(&self) -> Option<PageRequest>
        ensures { result ≡ slice_get self.now 0 }
    {
        let arrival = self.waiting.first()?;
        Some(arrival.request)
    }

    /// Takes out the oldest request, if there is one.
    pub fn serve(&mut self) -> Option<PageRequest>
        ensures oldest { result ≡ slice_get self.old 0 }
        ensures rest { self.new ≡ drop 1 self.old }
        ensures empty { IsNone result ↔ (self.old ≡ []) }
    {
        let arrival = self.waiting.pop_at(0)?;
        Some(arrival.request)
    }

    /// Whether no request waits.
    pub fn is_empty(&self) -> bool
        ensures { IsTrue result ↔ (self.now ≡ []) }
    {
        self.waiting.is_empty()
    }

    /// Takes out all requests.
    pub fn clear(&mut self)
        ensures { self.new ≡ [] }
    {
        self.waiting.clear();
    }
}
