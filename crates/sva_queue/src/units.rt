//! A unit: its queue and its tags.
ghost use Rattle.std.specs.Prelude.{◌≡◌, ℕ, ◌+◌, ◌≤◌, ◌↔◌, Bool, true, length, All, IsOk, OnOk, OnErr, slice_get, [], ◌∷◌};
ghost use Rattle.sva_itags.specs.Tags.{AreTags, busy_vector, freed_vector, lowest_free};
ghost use Rattle.sva_queue.specs.Cookies.{AreRising, number_after, HasNumber};
ghost use Rattle.sva_queue.specs.Calls.{AlwaysFits, FirstInFirstOut, DoneBehind, TagsByCalls};
ghost use Rattle.sva_queue.specs.Fronts.{AlwaysInOrder, PendingFromFront, DoneBelowFront};

use crate::descriptors::{Descriptor, Pumped, QueueFull};
use crate::heads::{Next, Sending};
use crate::ring::Ring;
use std::marker::Model;
use sva_itags::{Count, Itags};
use sva_msg::Extent;

/// The number after the cookie of a wait; `first` for an invalidation.
fn number_after_one(first: u64, descriptor: Descriptor) -> u64
    requires { HasNumber descriptor }
    ensures { result ≡ number_after first (descriptor ∷ []) }
{
    match descriptor {
        Descriptor::Wait { cookie, .. } => cookie + 1,
        Descriptor::Range { .. } | Descriptor::Pasid { .. } => first,
    }
}

/// The number after the cookie of the last wait; `first` where there is no wait.
fn number_after(first: u64, descriptors: &[Descriptor]) -> u64
    requires { All HasNumber descriptors.now }
    ensures { result ≡ number_after first descriptors.now }
{
    let mut number = first;
    for descriptor in descriptors {
        number = number_after_one(number, *descriptor);
    }
    number
}

/// The invalidation queue of one remapping unit and the tags of the Invalidate Requests that it sent. Descriptors leave
/// the queue in the order of their submission, and a wait only where no tag is busy. By its front a submitter knows which of
/// its waits are done. No call takes memory.
#[derive(Drop)]
pub struct Unit {
    pub(crate) queue: Ring,
    pub(crate) tags: Itags,
    is_open: bool,
    front: u64,
    pub(crate) back: u64,
}

impl Model for Unit {
    ghost use Rattle.sva_queue.specs.Queue.{Queue, InOrder, queue_of};

    ghost Value = { Queue };

    ghost view = { λ u. queue_of u.queue u.tags u.is_open u.front u.back };

    ghost invariant = { λ u. InOrder (queue_of u.queue u.tags u.is_open u.front u.back) };
}

impl Default for Unit {
    ghost use Rattle.sva_queue.specs.Queue.{empty};

    ghost is_default = { λ unit. unit ≡ empty };

    fn default() -> Self {
        Unit::new()
    }
}

impl Unit {
    ghost use Rattle.sva_queue.specs.Queue.{InOrder, empty, room_of, with_more, submitted, is_idle, is_complete, next_of};
    ghost use Rattle.sva_queue.specs.Queue.{pumped, after_answer, with_completion, reset_begun, reset_ended};
    ghost use Rattle.sva_queue.specs.Heads.{look_of, send_next, IsAnswered};
    ghost use Rattle.sva_queue.specs.Calls.{IsWaitDone};

    /// An open unit with an empty queue; all its tags are free.
    pub fn new() -> Self
        ensures { result ≡ empty }
    {
        Unit {
            queue: Ring::new(),
            tags: Itags::new(),
            is_open: true,
            front: 0,
            back: 0,
        }
    }

    /// Puts all of the descriptors at the end of the queue, in their order; or none, where they don't fit into its 64
    /// places. Asks that the unit is open, and that the cookies are below 2^63, at least `front()`, above those that are
    /// queued, and rise.
    pub fn submit(&mut self, descriptors: &[Descriptor]) -> Result<(), QueueFull>
        requires opened { self.old.is_open ≡ true }
        requires numbers { All HasNumber descriptors.now }
        requires rising { AreRising (number_after self.old.front self.old.descriptors) descriptors.now }
        ensures fits { IsOk result ↔ (length self.old.descriptors + length descriptors.now ≤ 64) }
        ensures ok { OnOk result (self.new ≡ with_more descriptors.now self.old) }
        ensures err { OnErr result (self.new ≡ self.old) }
        ensures queue { self.new ≡ submitted descriptors.now self.old }
    {
        if descriptors.len() > self.room() {
            return Err(QueueFull);
        }
        self.queue.extend(descriptors);
        self.back = number_after(self.back, descriptors);
        Ok(())
    }

    /// How many descriptors fit into the queue beside those that are in it, 0 to 64.
    pub fn room(&self) -> usize
        ensures room { result ≡ room_of self.now }
        ensures whole { result + length self.now.descriptors ≡ 64 }
    {
        self.queue.room()
    }

    /// The descriptor that is next, if the queue isn't empty.
    pub fn head(&self) -> Option<Descriptor>
        ensures { result ≡ slice_get self.now.descriptors 0 }
    {
        self.queue.first()
    }

    /// The number after the greatest cookie that the unit has taken, 0 at first; the end of a reset, and not its beginning,
    /// raises it past the cookies that the reset made void. So a submitted wait is queued, or void by a reset that hasn't
    /// ended, exactly where its cookie is `front()` or more. At most 2^63.
    pub fn front(&self) -> u64
        ensures front { result ≡ self.now.front }
        ensures order { InOrder self.now }
    {
        self.front
    }

    /// Whether the unit is open, and not in reset.
    pub fn is_open(&self) -> bool
        ensures { result ≡ self.now.is_open }
    {
        self.is_open
    }

    fn is_idle(&self) -> bool
        ensures { result ≡ is_idle self.now.tags }
    {
        self.busy() == 0
    }

    /// Whether a wait at the head is complete.
    fn is_complete(&self, prq_empty: bool, drain: bool) -> bool
        ensures { result ≡ is_complete self.now prq_empty drain }
    {
        self.is_idle() && (!drain || prq_empty)
    }

    /// An invalidation under the lowest tag that is free; blocked where none is.
    fn under_tag(&self, pasid: u32, extent: Extent) -> Next
        ensures { result ≡ send_next pasid extent (lowest_free self.now.tags) }
    {
        match self.tags.lowest_free() {
            Some(itag) => Next::Send(Sending {
                itag,
                pasid,
                extent,
            }),
            None => Next::Blocked,
        }
    }

    /// What becomes of the head; nothing changes. An invalidation takes the lowest free tag, a wait goes where no tag is busy
    /// and, with its drain flag, `prq_empty` says that the unit's page request queue is empty. That is the caller's word: the
    /// unit itself knows nothing of that queue. `send` and `pass` do what this has told.
    pub fn look(&self, prq_empty: bool) -> Next
        ensures { result ≡ look_of self.now prq_empty }
    {
        let Some(head) = self.head() else {
            return Next::Idle;
        };
        match &head {
            Descriptor::Range { pasid, range } => self.under_tag(*pasid, Extent::Pages(*range)),
            Descriptor::Pasid { pasid } => self.under_tag(*pasid, Extent::All),
            Descriptor::Wait { cookie, drain } => {
                if self.is_complete(prq_empty, *drain) {
                    Next::Pass(*cookie)
                } else {
                    Next::Blocked
                }
            }
        }
    }

    /// What `pump` would answer; nothing changes.
    pub fn next(&self, prq_empty: bool) -> Pumped
        ensures { result ≡ next_of self.now prq_empty }
    {
        self.look(prq_empty).pumped()
    }

    /// The invalidation at the head is sent under this tag, as `look` told: it is taken off, and the tag is busy. It is the
    /// `pump` that answers so.
    pub fn send(&mut self, itag: u8)
        requires { IsAnswered self.old (Pumped.Issued itag) }
        ensures { self.new ≡ after_answer (Pumped.Issued itag) self.old }
    {
        self.queue.drop_first();
        self.tags.take_lowest(itag);
    }

    /// The wait at the head, with this cookie, is done, as `look` told: it is taken off, and the front is behind it. It is
    /// the `pump` that answers so.
    pub fn pass(&mut self, cookie: u64)
        requires { IsAnswered self.old (Pumped.Done cookie) }
        ensures { self.new ≡ after_answer (Pumped.Done cookie) self.old }
    {
        self.queue.drop_first();
        self.front = cookie + 1;
    }

    /// Takes the head off where it can go, as `look` tells.
    pub fn pump(&mut self, prq_empty: bool) -> Pumped
        ensures answer { result ≡ next_of self.old prq_empty }
        ensures done { (cookie : ℕ) → (result ≡ Pumped.Done cookie) ↔ IsWaitDone self.old prq_empty cookie }
        ensures queue { self.new ≡ pumped prq_empty self.old }
    {
        match self.look(prq_empty) {
            Next::Send(sending) => {
                self.send(sending.itag);
                Pumped::Issued(sending.itag)
            }
            Next::Pass(cookie) => {
                self.pass(cookie);
                Pumped::Done(cookie)
            }
            Next::Blocked => Pumped::Blocked,
            Next::Idle => Pumped::Idle,
        }
    }

    /// A completion has arrived that names the tags of `vector` (bit T stands for tag T, 0 to 31) and bears `count`. Gives
    /// the vector of the tags that it completes; they are free.
    pub fn arrived(&mut self, vector: u32, count: Count) -> u32
        ensures freed { result ≡ freed_vector vector count self.old.tags }
        ensures queue { self.new ≡ with_completion vector count self.old }
    {
        self.tags.arrived(vector, count)
    }

    /// The vector of the busy tags: bit T stands for tag T, 0 to 31.
    pub fn busy(&self) -> u32
        ensures vector { result ≡ busy_vector self.now.tags }
        ensures tags { AreTags self.now.tags }
    {
        self.tags.busy()
    }

    /// A reset of the function begins: the queue is emptied, and its waits are void. The busy tags stay busy, and the front
    /// stays.
    pub fn begin_reset(&mut self)
        ensures { self.new ≡ reset_begun self.old }
    {
        self.queue.clear();
        self.is_open = false;
    }

    /// The reset has ended: all tags are free, the unit is open, and the front is past the cookies that the reset made void.
    /// At a unit that is open already the front stays.
    pub fn end_reset(&mut self)
        ensures { self.new ≡ reset_ended self.old }
    {
        self.tags.clear();
        if !self.is_open {
            self.front = self.back;
        }
        self.is_open = true;
    }
}

/// What holds after every list of calls: at most 64 descriptors are queued; they leave in the order of their submission;
/// where a wait is done, each invalidation ahead of it was issued and its tag freed since, or a reset took it out;
/// nothing but completions and the end of a reset frees a tag; the cookies that are queued rise from the front on; a wait
/// that was submitted is queued, or void by a reset that hasn't ended, exactly where its cookie is the front or more; and one
/// that no reset made void is done exactly where its cookie is below the front.
pub fn laws()
    ensures fits { AlwaysFits }
    ensures order { FirstInFirstOut }
    ensures waits { DoneBehind }
    ensures tags { TagsByCalls }
    ensures cookies { AlwaysInOrder }
    ensures pending { PendingFromFront }
    ensures done { DoneBelowFront }
{}
