//! What becomes of the head of an invalidation queue.
ghost use Rattle.std.specs.Prelude.{◌≡◌};
ghost use Rattle.sva_queue.specs.Heads.{pumped_of};

use crate::descriptors::Pumped;
use sva_msg::{Extent, Kind};

/// An invalidation that goes to the endpoint.
#[derive(Clone, Copy, Debug, PartialEq, Eq)]
pub struct Sending {
    /// The ITag of its Invalidate Request, 0 to 31 (PCI Express Base 5.0, section 10.3.1).
    pub itag: u8,
    /// The PASID: 1 to 32 of its 20 bits (PCI Express Base 5.0, section 6.20).
    pub pasid: u32,
    /// Which of its pages.
    pub extent: Extent,
}

impl Sending {
    ghost use Rattle.sva_msg.specs.Extents.{scope_sent};

    /// The Invalidate Request.
    pub fn message(self) -> Kind
        ensures { result ≡ Kind.Invalidate self.itag self.pasid (scope_sent self.extent) }
    {
        Kind::Invalidate {
            itag: self.itag,
            pasid: self.pasid,
            scope: self.extent.scope(),
        }
    }
}

/// What becomes of the head of an invalidation queue.
#[derive(Clone, Copy, Debug, PartialEq, Eq)]
pub enum Next {
    /// The queue is empty.
    Idle,
    /// The head has to stay: no ITag is free for an invalidation, or a wait isn't done.
    Blocked,
    /// The invalidation at the head goes to the endpoint.
    Send(Sending),
    /// The wait at the head, with this cookie, below 2^63, is done.
    Pass(u64),
}

impl Next {
    /// What a pump answers of it.
    pub(crate) fn pumped(self) -> Pumped
        ensures { result ≡ pumped_of self }
    {
        match self {
            Next::Idle => Pumped::Idle,
            Next::Blocked => Pumped::Blocked,
            Next::Send(sending) => Pumped::Issued(sending.itag),
            Next::Pass(cookie) => Pumped::Done(cookie),
        }
    }
}
