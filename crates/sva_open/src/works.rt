//! What an endpoint has begun and not ended.

ghost use Rattle.std.specs.Prelude.{◌≡◌};
ghost use Rattle.sva_open.specs.Devices.{noted_by};

use crate::frames::Translation;
use crate::messages::Barrier;
use crate::scopes::Scope;

/// A translation request that is out (PCI Express Base 5.0, section 10.2).
#[derive(Clone, Copy, PartialEq, Eq)]
pub struct Request {
    /// The PASID.
    pub pasid: usize,
    /// The number of the page.
    pub page: u64,
    /// Whose it is.
    pub owner: u64,
    /// Whether an invalidation has covered it meanwhile: its answer will be thrown away.
    pub is_doomed: bool,
    /// The first barrier of its PASID that has come since it went out, by name.
    pub noted: Option<usize>,
}

impl Request {
    ghost use Rattle.std.specs.Prelude.{◌≡◌};
    ghost use Rattle.sva_open.specs.Devices.{doomed_by, request_noted};

    /// The request after an invalidation.
    pub fn doomed_by(self, scope: &Scope) -> Request
        ensures { result ≡ doomed_by scope.now self }
    {
        Request {
            is_doomed: self.is_doomed || scope.covers(self.pasid, self.page),
            ..self
        }
    }

    /// The request behind a barrier.
    pub fn noted_by(self, barrier: &Barrier) -> Request
        ensures { result ≡ request_noted barrier.now self }
    {
        Request {
            noted: noted_by(self.pasid, self.noted, barrier),
            ..self
        }
    }
}

/// A group of page requests that isn't answered (section 10.4).
#[derive(Clone, Copy, PartialEq, Eq)]
pub struct Group {
    /// The PASID.
    pub pasid: usize,
    /// Whose it is.
    pub owner: u64,
    /// By which it is told from another group of its index. Nobody sees it.
    pub number: u64,
    /// Whether its last request was sent.
    pub is_finished: bool,
    /// The first barrier of its PASID that has come since it began, by name.
    pub noted: Option<usize>,
}

impl Group {
    ghost use Rattle.std.specs.Prelude.{◌≡◌, Some};
    ghost use Rattle.sva_open.specs.Devices.{group_noted, is_unended};

    /// Whether it is of a PASID, and has to end before the endpoint says that it has stopped: with its last request,
    /// or with its response where the endpoint awaits that.
    pub fn is_unended(&self, awaits: bool, pasid: usize) -> bool
        ensures { result ≡ is_unended awaits pasid (Some self.now) }
    {
        (awaits || !self.is_finished) && self.pasid == pasid
    }

    /// The group behind a barrier.
    pub fn noted_by(self, barrier: &Barrier) -> Group
        ensures { result ≡ group_noted barrier.now self }
    {
        Group {
            noted: noted_by(self.pasid, self.noted, barrier),
            ..self
        }
    }
}

/// What is noted of a PASID once a barrier has come: the first one.
fn noted_by(pasid: usize, noted: Option<usize>, barrier: &Barrier) -> Option<usize>
    ensures { result ≡ noted_by barrier.now pasid noted }
{
    match noted {
        Some(name) => Some(name),
        None => {
            if pasid == barrier.pasid {
                Some(barrier.name)
            } else {
                None
            }
        }
    }
}

/// What an endpoint is at: a use of a translation, an invalidation that was taken and isn't completed, or a barrier
/// that has come and isn't passed.
#[derive(Clone, Copy, PartialEq, Eq)]
pub enum Work {
    /// A use that runs.
    Use(Translation),
    /// An invalidation. It is completed once the uses that began before it, of what it covers, have ended (section
    /// 10.3.3).
    Taken {
        /// Its ITag.
        itag: usize,
        /// What it covers.
        scope: Scope,
    },
    /// A barrier. It is passed once all that was under way of its PASID when it came has ended.
    Draining(Barrier),
}

impl Work {
    ghost use Rattle.std.specs.Prelude.{◌≡◌};
    ghost use Rattle.sva_open.specs.Devices.{is_use_of, is_use_under};

    /// Whether it is a use of what is covered.
    pub fn is_use_of(&self, scope: &Scope) -> bool
        ensures { result ≡ is_use_of scope.now self.now }
    {
        match self {
            Work::Use(used) => scope.covers(used.pasid, used.page),
            Work::Taken { .. } | Work::Draining(_) => false,
        }
    }

    /// Whether it is a use under a PASID.
    pub fn is_use_under(&self, pasid: usize) -> bool
        ensures { result ≡ is_use_under pasid self.now }
    {
        match self {
            Work::Use(used) => used.pasid == pasid,
            Work::Taken { .. } | Work::Draining(_) => false,
        }
    }
}
