//! The state of a binding whose endpoint was reset while it was in use.

ghost use Rattle.std.specs.Prelude.{◌≡◌};
ghost use Rattle.sva_pasid.specs.States.{Numbers};

use crate::states::Quiet;
use std::marker::Model;

/// A function level reset emptied the endpoint while the binding was in use. The space wasn't taken back yet.
pub struct Lost {
    pub(crate) binding: u64,
    pub(crate) pasid: u32,
}

impl Model for Lost {
    ghost Value = { Numbers };

    ghost view = { λ lost. record { binding = lost.binding; pasid = lost.pasid } };
}

impl Lost {
    /// The space is taken back: nothing has to be sent.
    pub fn quiet(self) -> Quiet
        ensures { result ≡ self }
    {
        let Lost { binding, pasid } = self;
        Quiet { binding, pasid }
    }
}
