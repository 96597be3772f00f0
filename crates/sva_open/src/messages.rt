//! The messages on a link.

use crate::frames::Target;
use crate::scopes::Scope;

/// A page request (PCI Express Base 5.0, section 10.4.1).
#[derive(Clone, Copy, PartialEq, Eq)]
pub struct PageRequest {
    /// The PASID.
    pub pasid: usize,
    /// The Page Request Group Index.
    pub index: usize,
    /// The number of the page.
    pub page: u64,
    /// Whether it is to be written.
    pub write: bool,
    /// Whether it is the last of its group.
    pub last: bool,
}

/// A barrier: the endpoint is to drain a PASID, which it doesn't stop.
#[derive(Clone, Copy, PartialEq, Eq)]
pub struct Barrier {
    /// The PASID.
    pub pasid: usize,
    /// The thread of the line that sent it; 0, where that stands before all threads.
    pub thread: usize,
    /// Its name, which no other barrier has: the place of that line.
    pub name: usize,
}

/// A message between an endpoint and its host or unit.
#[derive(Clone, Copy, PartialEq, Eq)]
pub enum Message {
    /// Down: the endpoint may use a PASID.
    Start {
        /// The PASID.
        pasid: usize,
    },
    /// Down: the endpoint is to stop using a PASID.
    Stop {
        /// The PASID.
        pasid: usize,
    },
    /// Down: a reset (PCI Express Base 5.0, section 6.6.2).
    Reset,
    /// Down: a Translation Completion (section 10.2.3).
    Completion {
        /// The tag of the request that it answers.
        tag: usize,
        /// The page that was asked for. On a real link no completion bears it: it is here to be spoken of.
        page: u64,
        /// What the page leads to, if anything.
        target: Option<Target>,
    },
    /// Down: an Invalidate Request (section 10.3.1).
    Invalidate {
        /// The ITag.
        itag: usize,
        /// What it covers.
        scope: Scope,
    },
    /// Down: a Page Request Group Response (section 10.4.2).
    Response {
        /// The Page Request Group Index.
        index: usize,
        /// Whether its code is Response Failure.
        fails: bool,
        /// Whether a group was filed that it answers.
        filed: bool,
    },
    /// Up: a Translation Request (section 10.2.2).
    Request {
        /// The tag.
        tag: usize,
        /// The PASID.
        pasid: usize,
        /// The number of the page.
        page: u64,
    },
    /// Up: an Invalidate Completion (section 10.3.2) of one ITag, the only one of its invalidation.
    Invalidated {
        /// The ITag.
        itag: usize,
    },
    /// Up: a page request.
    PageRequest(PageRequest),
    /// Up: a Stop Marker (section 10.4.1).
    Marker {
        /// The PASID that was quit.
        pasid: usize,
    },
    /// Up: a posted write which says that a PASID was quit.
    Status {
        /// The PASID that was quit.
        pasid: usize,
    },
    /// Up: a reset is done.
    ResetDone,
    /// Down: a barrier.
    Barrier(Barrier),
    /// Up: a posted write which says that a barrier was passed.
    Passed(Barrier),
}

/// A message in flight.
#[derive(Clone, Copy, PartialEq, Eq)]
pub struct Sent {
    /// The message.
    pub message: Message,
    /// The owner that its PASID had when it was sent; of a completion, when its translation was asked for; 0 of what
    /// is known by a number or a name of its own.
    pub owner: u64,
    /// Of a page request or a response, the number of its group; of any other message, how many resets had come to
    /// the endpoint when what it is of began.
    pub number: u64,
}
