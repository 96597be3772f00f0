//! What is put into an invalidation queue, and what comes of it.

use std::error::Error;
use std::fmt;
use sva_msg::Range;

/// What the host asks of a unit (Intel VT-d, "Queued Invalidation Interface").
#[derive(Clone, Copy, Debug, PartialEq, Eq)]
pub enum Descriptor {
    /// Invalidate a range of pages of a PASID; one page is a range of order 0.
    Range {
        /// The PASID: 1 to 32 of its 20 bits (PCI Express Base 5.0, section 6.20).
        pasid: u32,
        /// The pages: 1 to 512 of them.
        range: Range,
    },
    /// Invalidate all pages of a PASID.
    Pasid {
        /// The PASID: 1 to 32 of its 20 bits (PCI Express Base 5.0, section 6.20).
        pasid: u32,
    },
    /// Wait for all invalidations ahead of it.
    Wait {
        /// The number by which its submitter knows it again, below 2^63.
        cookie: u64,
        /// Waits until the page request queue is empty too (Intel VT-d, "Page Request Drain").
        drain: bool,
    },
}

/// A wait that nothing asked for: what the unused places of a table hold.
impl Default for Descriptor {
    ghost use Rattle.std.specs.Prelude.{◌≡◌, false};
    ghost use Rattle.sva_queue.specs.declared.descriptors.Descriptor.TheVariants.{Wait};

    ghost is_default = { λ descriptor. descriptor ≡ Wait 0 false };

    fn default() -> Self {
        Descriptor::Wait {
            cookie: 0,
            drain: false,
        }
    }
}

/// What a unit has done with the head of its queue.
#[derive(Clone, Copy, Debug, PartialEq, Eq)]
pub enum Pumped {
    /// An invalidation was taken off; an Invalidate Request with this ITag, 0 to 31, is to be sent.
    Issued(u8),
    /// The wait with this cookie, below 2^63, was taken off: all that was ahead of it is complete.
    Done(u64),
    /// The head has to stay: no tag is free for an invalidation, or a wait isn't complete.
    Blocked,
    /// The queue is empty.
    Idle,
}

/// The descriptors don't fit into the queue.
#[derive(Clone, Copy, Debug, PartialEq, Eq)]
pub struct QueueFull;

impl fmt::Display for QueueFull {
    fn fmt<W: fmt::Write>(&self, f: &mut fmt::Formatter<W>) -> fmt::Result {
        f.write_str("the invalidation queue is full")
    }
}

impl Error for QueueFull {}
