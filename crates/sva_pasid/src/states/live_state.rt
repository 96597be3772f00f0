//! The state of a binding that is in use.

ghost use Rattle.std.specs.Prelude.{◌≡◌};
ghost use Rattle.sva_pasid.specs.States.{Numbers, stop_of};

use crate::states::{Lost, Stopping};
use std::marker::Model;

/// The binding is in use: its endpoint may ask for translations and hold them. Only the table makes one, as a binding
/// begins.
pub struct Live {
    pub(crate) binding: u64,
    pub(crate) pasid: u32,
}

impl Model for Live {
    ghost Value = { Numbers };

    ghost view = { λ live. record { binding = live.binding; pasid = live.pasid } };
}

impl Live {
    pub(crate) fn new(binding: u64, pasid: u32) -> Live
        ensures { result ≡ record { binding = binding; pasid = pasid } }
    {
        Live { binding, pasid }
    }

    /// The space is to be taken back from the endpoint: the stop is sent.
    pub fn stop(self) -> Stopping
        ensures { result ≡ stop_of self }
    {
        let Live { binding, pasid } = self;
        Stopping {
            binding,
            pasid,
            marked: false,
        }
    }

    /// A function level reset emptied the endpoint while the binding was in use.
    pub fn lost(self) -> Lost
        ensures { result ≡ self }
    {
        let Live { binding, pasid } = self;
        Lost { binding, pasid }
    }

    /// The binding is as if it had not begun: nothing was sent of it.
    pub(crate) fn take_back(self) {
        let Live {
            binding: _,
            pasid: _,
        } = self;
    }
}
