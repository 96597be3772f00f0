//! The state of a binding whose stop was sent.

ghost use Rattle.std.specs.Prelude.{◌≡◌, true, false, IfOk, IfErr};
ghost use Rattle.sva_pasid.specs.States.{Stop, marked_stop, drain_of, numbers_of_stop};

use crate::states::wait::Wait;
use crate::states::{Draining, Quiet};
use std::marker::Model;

/// The stop was sent. Until the marker is noted (Stop Marker: PCI Express Base 5.0, section 10.4.1), page requests
/// under the PASID may still come.
pub struct Stopping {
    pub(crate) binding: u64,
    pub(crate) pasid: u32,
    pub(crate) marked: bool,
}

impl Model for Stopping {
    ghost Value = { Stop };

    ghost view = { λ stopping. record { binding = stopping.binding; pasid = stopping.pasid; marked = stopping.marked } };
}

impl Stopping {
    /// Whether the marker was noted.
    pub fn is_marked(&self) -> bool
        ensures { result ≡ self.now.marked }
    {
        self.marked
    }

    /// The marker came, and is noted.
    pub fn mark(self) -> Stopping
        ensures { result ≡ marked_stop self }
    {
        let Stopping {
            binding,
            pasid,
            marked: _,
        } = self;
        Stopping {
            binding,
            pasid,
            marked: true,
        }
    }

    /// Goes on to wait for the wait descriptor with this cookie, which drains the page requests (Intel VT-d,
    /// "Invalidation Wait Descriptor"). Ok exactly where the marker was noted; an Err gives the state back.
    pub fn drain(self, cookie: u64) -> Result<Draining, Stopping>
        ensures value { result ≡ drain_of self cookie }
        ensures ok { IfOk result (λ draining. (self.marked ≡ true)
            × (draining ≡ record { binding = self.binding; pasid = self.pasid; cookie = cookie; waited = false })) }
        ensures err { IfErr result (λ stopping. (self.marked ≡ false) × (stopping ≡ self)) }
    {
        if !self.marked {
            return Err(self);
        }
        let Stopping {
            binding,
            pasid,
            marked: _,
        } = self;
        Ok(Draining {
            wait: Wait::new(binding, pasid, cookie),
        })
    }

    /// A function level reset emptied the endpoint: there is nothing left to wait for.
    pub fn by_reset(self) -> Quiet
        ensures { result ≡ numbers_of_stop self }
    {
        let Stopping {
            binding,
            pasid,
            marked: _,
        } = self;
        Quiet { binding, pasid }
    }
}
