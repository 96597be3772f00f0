//! A job: a whole page request group, with what its requests ask for.

ghost use Rattle.std.specs.Prelude.{◌≡◌, ◌≤◌, length};

use arrayvec::ArrayVec;
use std::marker::Model;
use sva_step::PAGE_REQUESTS;

/// What one page request of a group asks for.
#[derive(Clone, Copy, Debug, Default, PartialEq, Eq)]
pub struct Ask {
    /// The number of the page, below 2^36.
    pub page: u64,
    /// R: the page is to be read.
    pub read: bool,
    /// W: the page is to be written.
    pub write: bool,
}

/// A whole page request group, to be answered by one response (PCI Express Base 5.0, section 10.4.2).
#[derive(Drop)]
pub struct Job {
    pub(crate) unit: u64,
    pub(crate) binding: u64,
    pub(crate) index: u8,
    pub(crate) asks: ArrayVec<Ask, PAGE_REQUESTS>,
    /// The serial of its group, and the key under which the group is kept while it is open. The key is no part of what
    /// a job is seen as: a wrong one costs time alone.
    pub(crate) serial: u64,
    pub(crate) key: usize,
}

impl Model for Job {
    ghost use Rattle.sva_prq.specs.Job.{Job as WholeGroup};

    ghost Value = { WholeGroup };

    ghost view = { λ j. record { unit = j.unit; binding = j.binding; index = j.index; asks = j.asks.items; serial = j.serial } };
}

impl Job {
    /// The number of the unit at which the requests came.
    pub fn unit(&self) -> u64
        ensures { result ≡ self.now.unit }
    {
        self.unit
    }

    /// The number of the binding under which the requests were filed.
    pub fn binding(&self) -> u64
        ensures { result ≡ self.now.binding }
    {
        self.binding
    }

    /// The Page Request Group Index under which the requests came.
    pub fn index(&self) -> u8
        ensures { result ≡ self.now.index }
    {
        self.index
    }

    /// What the requests ask for, in order of filing: at most 32.
    pub fn asks(&self) -> &[Ask]
        ensures asks { result.now ≡ self.now.asks }
        ensures most { length result.now ≤ 32 }
    {
        self.asks.as_slice()
    }

    /// The serial of its group.
    pub(crate) fn serial(&self) -> u64
        ensures { result ≡ self.now.serial }
    {
        self.serial
    }
}
