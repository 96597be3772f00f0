//! What the test of each step gives, and its call takes.

ghost use Rattle.std.specs.Prelude.{◌≡◌};
ghost use Rattle.sva_model.specs.StateChanges.{count_field};

use crate::use_slots::Use;
use sva_itags::Count;
use sva_msg::{CountField, Kind, PageRequest};
use sva_step::Answer;

/// A translation request that an endpoint may send (PCI Express Base 5.0, section 10.2.2).
#[derive(Clone, Copy, Debug, PartialEq, Eq)]
pub struct Asking {
    /// The lowest free request tag, 0 to 31 (a limit of this project).
    pub tag: u8,
    /// The PASID, 1 to 32.
    pub pasid: u32,
    /// The number of the page, below 2^36.
    pub page: u64,
}

impl Asking {
    /// The Translation Request that is to be sent.
    pub fn kind(&self) -> Kind
        ensures { result ≡ Kind.Request self.now.tag self.now.pasid self.now.page }
    {
        let Asking { tag, pasid, page } = *self;
        Kind::Request { tag, pasid, page }
    }
}

/// A use of a cached translation that an endpoint may begin.
#[derive(Clone, Copy, Debug, PartialEq, Eq)]
pub struct Using {
    /// The lowest free slot, 0 to 15 (a limit of this project).
    pub slot: u8,
    /// The use: it may write where the translation allows it, whatever was asked.
    pub begun: Use,
}

/// What an endpoint asks for by a page request (PCI Express Base 5.0, section 10.4.1).
#[derive(Clone, Copy, Debug, PartialEq, Eq)]
pub struct Fault {
    /// The PASID, 1 to 32 of its 20 bits (PCI Express Base 5.0, section 6.20); one outside them is off.
    pub pasid: u64,
    /// The number of the page, of 4096 bytes, below 2^36; one from 2^36 on is out of range.
    pub page: u64,
    /// R: the page is to be read.
    pub read: bool,
    /// W: the page is to be written.
    pub write: bool,
    /// The index, 0 to 31, of the unfinished group that goes on; none where a new group begins.
    pub group: Option<u64>,
    /// L: this is the last request of its group.
    pub last: bool,
}

impl Fault {
    /// The Page Request, under this label of its PASID and this index.
    pub(crate) fn request(&self, pasid: u32, index: u8) -> PageRequest
        ensures { result ≡ record { pasid = pasid; index = index; page = self.now.page; read = self.now.read; write = self.now.write; last = self.now.last } }
    {
        let Fault {
            page,
            read,
            write,
            last,
            ..
        } = *self;
        PageRequest {
            pasid,
            index,
            page,
            read,
            write,
            last,
        }
    }
}

/// A page request that an endpoint may send (PCI Express Base 5.0, section 10.4.1).
#[derive(Clone, Copy, Debug, PartialEq, Eq)]
pub struct Faulting {
    /// Whether it begins a group, under the lowest free index; else it goes on with an unfinished one.
    pub begins: bool,
    /// The Page Request that is to be sent.
    pub request: PageRequest,
}

impl Faulting {
    /// The Page Request as a kind of message.
    pub fn kind(&self) -> Kind
        ensures { result ≡ Kind.PageRequest self.now.request }
    {
        Kind::PageRequest(self.request)
    }
}

/// Invalidations that an endpoint may complete (PCI Express Base 5.0, section 10.3.2).
#[derive(Clone, Copy, Debug, PartialEq, Eq)]
pub struct Finishing {
    /// The ITag Vector: bit T names the invalidation of ITag T.
    pub vector: u32,
    /// How many Invalidate Completions are to be sent, 1 to 8.
    pub count: Count,
}

impl Finishing {
    /// Each of the completions: the ITag Vector, and the count in its Completion Count field, where 8 is written 0.
    pub fn kind(&self) -> Kind
        ensures { result ≡ Kind.Invalidated self.now.vector (count_field self.now.count) }
    {
        Kind::Invalidated {
            vector: self.vector,
            count: CountField::new(self.count.field()),
        }
    }
}

/// A PASID that an endpoint may stop using (PCI Express Base 5.0, section 6.20).
#[derive(Clone, Copy, Debug, PartialEq, Eq)]
pub struct Quitting {
    /// The PASID, 1 to 32.
    pub pasid: u32,
}

impl Quitting {
    /// The Stop Marker that is to be sent.
    pub fn kind(&self) -> Kind
        ensures { result ≡ Kind.Marker self.now.pasid }
    {
        Kind::Marker { pasid: self.pasid }
    }
}

/// What an endpoint made of a message.
#[derive(Clone, Copy)]
pub struct Received {
    /// What came of it.
    pub answer: Answer,
}
