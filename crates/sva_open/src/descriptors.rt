//! What a unit has in its queues.

ghost use Rattle.std.specs.Prelude.{◌≡◌};
ghost use Rattle.sva_open.specs.Below.{named_or};

use crate::messages::PageRequest;
use crate::scopes::Scope;

/// What stands in an invalidation queue (Intel VT-d, "Queued Invalidation Interface").
#[derive(Clone, Copy, PartialEq, Eq)]
pub enum Descriptor {
    /// An invalidation of an endpoint's translations.
    Device {
        /// The endpoint.
        endpoint: usize,
        /// What it covers.
        scope: Scope,
    },
    /// An invalidation of the translations that the unit keeps.
    Translations {
        /// The endpoint of which it keeps them; each below the unit, where none is named.
        endpoint: Option<usize>,
        /// What it covers.
        scope: Scope,
    },
    /// An invalidation of the PASID table entry that the unit keeps.
    Entry {
        /// The endpoint of which it keeps it; each below the unit, where none is named.
        endpoint: Option<usize>,
        /// The PASID.
        pasid: usize,
    },
    /// A wait.
    Wait {
        /// By which whoever submits it knows it.
        name: usize,
        /// Whether it drains the page request queue.
        drain: bool,
        /// Whether it is a fence.
        fence: bool,
    },
    /// The place of an invalidation of an endpoint's translations that a unit has sent out of order, and that isn't
    /// answered. No driver submits one.
    Out {
        /// Its ITag.
        itag: usize,
    },
}

/// The endpoint that a descriptor names, or this one, where it names none.
pub fn named_or(endpoint: usize, own: Option<usize>) -> usize
    ensures { result ≡ named_or endpoint own }
{
    match own {
        None => endpoint,
        Some(own) => own,
    }
}

impl Descriptor {
    ghost use Rattle.std.specs.Prelude.{◌≡◌};
    ghost use Rattle.sva_open.specs.Units.{is_any_wait, is_wait, isnt_out, isnt_out_of};

    /// Whether it is a wait of this name.
    pub fn is_wait(&self, name: usize) -> bool
        ensures { result ≡ is_wait name self.now }
    {
        match self {
            Descriptor::Wait { name: own, .. } => *own == name,
            _ => false,
        }
    }

    /// Whether it is a wait.
    pub fn is_any_wait(&self) -> bool
        ensures { result ≡ is_any_wait self.now }
    {
        matches!(self, Descriptor::Wait { .. })
    }

    /// Whether it is still to be taken: it isn't the place of an invalidation that was sent.
    pub fn isnt_out(&self) -> bool
        ensures { result ≡ isnt_out self.now }
    {
        !matches!(self, Descriptor::Out { .. })
    }

    /// Whether it is anything but the place of the invalidation that has this ITag.
    pub fn isnt_out_of(&self, itag: usize) -> bool
        ensures { result ≡ isnt_out_of itag self.now }
    {
        match self {
            Descriptor::Out { itag: own } => *own != itag,
            _ => true,
        }
    }
}

/// What has left an invalidation queue and isn't done, in order.
#[derive(Clone, Copy, PartialEq, Eq)]
pub enum Issued {
    /// An invalidation of an endpoint's translations.
    Sent {
        /// The endpoint.
        endpoint: usize,
        /// Its ITag, which is busy.
        itag: usize,
    },
    /// A wait that is done once the ITags between the wait before it and itself are free.
    Waiting {
        /// Its name.
        name: usize,
        /// Whether it drains what has been received by then.
        drain: bool,
    },
}

impl Issued {
    ghost use Rattle.std.specs.Prelude.{◌≡◌};
    ghost use Rattle.sva_open.specs.Units.{has_itag, is_sent, is_sent_to, is_waiting};

    /// Whether it is an invalidation.
    pub fn is_sent(&self) -> bool
        ensures { result ≡ is_sent self.now }
    {
        matches!(self, Issued::Sent { .. })
    }

    /// Whether it is the invalidation that has this ITag.
    pub fn has_itag(&self, itag: usize) -> bool
        ensures { result ≡ has_itag itag self.now }
    {
        match self {
            Issued::Sent { itag: own, .. } => *own == itag,
            Issued::Waiting { .. } => false,
        }
    }

    /// Whether it is the invalidation of an endpoint's translations that has this ITag.
    pub fn is_sent_to(&self, endpoint: usize, itag: usize) -> bool
        ensures { result ≡ is_sent_to endpoint itag self.now }
    {
        match self {
            Issued::Sent {
                endpoint: own,
                itag: other,
            } => *own == endpoint && *other == itag,
            Issued::Waiting { .. } => false,
        }
    }

    /// Whether it is a wait of this name.
    pub fn is_waiting(&self, name: usize) -> bool
        ensures { result ≡ is_waiting name self.now }
    {
        match self {
            Issued::Sent { .. } => false,
            Issued::Waiting { name: own, .. } => *own == name,
        }
    }
}

/// A page request in a unit's page request queue.
#[derive(Clone, Copy, PartialEq, Eq)]
pub struct Arrived {
    /// The endpoint that sent it.
    pub endpoint: usize,
    /// The page request.
    pub request: PageRequest,
    /// The owner that its PASID had when its group began.
    pub owner: u64,
    /// The number of its group.
    pub number: u64,
}

/// What a unit has received and not written into its page request queue.
#[derive(Clone, Copy, PartialEq, Eq)]
pub enum Received {
    /// A page request.
    Request(Arrived),
    /// A wait that drains: it is done once what stands before it is written.
    Drain {
        /// Its name.
        name: usize,
    },
}

impl Received {
    ghost use Rattle.std.specs.Prelude.{◌≡◌};
    ghost use Rattle.sva_open.specs.Units.{is_drain, is_received};

    /// Whether it is a page request.
    pub fn is_request(&self) -> bool
        ensures { result ≡ is_received self.now }
    {
        matches!(self, Received::Request(_))
    }

    /// Whether it is a wait of this name.
    pub fn is_drain(&self, name: usize) -> bool
        ensures { result ≡ is_drain name self.now }
    {
        match self {
            Received::Request(_) => false,
            Received::Drain { name: own } => *own == name,
        }
    }
}

/// A group of page requests that is filed and not answered.
#[derive(Clone, Copy, PartialEq, Eq)]
pub struct Filed {
    /// The PASID.
    pub pasid: usize,
    /// The Page Request Group Index.
    pub index: usize,
    /// Its number, by which it is told from another group of its index.
    pub number: u64,
    /// Whether its last request is filed.
    pub is_whole: bool,
    /// The owner that its PASID had when it began.
    pub owner: u64,
    /// The space that its PASID had when its last request was filed, if any: by this workers serve it.
    pub space: Option<u64>,
}

impl Filed {
    ghost use Rattle.std.specs.Prelude.{◌≡◌};
    ghost use Rattle.sva_open.specs.Host.{is_group, is_joined, is_partial_under, is_under, is_whole_under};

    /// Whether it is a group of this PASID, or of any where none is named.
    pub fn is_under(&self, pasid: Option<usize>) -> bool
        ensures { result ≡ is_under pasid self.now }
    {
        match pasid {
            None => true,
            Some(pasid) => self.pasid == pasid,
        }
    }

    /// Whether it is whole, and of this PASID, or of any where none is named.
    pub fn is_whole_under(&self, pasid: Option<usize>) -> bool
        ensures { result ≡ is_whole_under pasid self.now }
    {
        self.is_whole && self.is_under(pasid)
    }

    /// Whether it isn't whole, and is of this PASID, or of any where none is named.
    pub fn is_partial_under(&self, pasid: Option<usize>) -> bool
        ensures { result ≡ is_partial_under pasid self.now }
    {
        !self.is_whole && self.is_under(pasid)
    }

    /// Whether it is a group of this PASID and index.
    pub fn is_group(&self, pasid: usize, index: usize) -> bool
        ensures { result ≡ is_group pasid index self.now }
    {
        self.pasid == pasid && self.index == index
    }

    /// Whether a page request joins it.
    pub fn is_joined(&self, request: &PageRequest) -> bool
        ensures { result ≡ is_joined request.now self.now }
    {
        !self.is_whole && self.is_group(request.pasid, request.index)
    }
}
