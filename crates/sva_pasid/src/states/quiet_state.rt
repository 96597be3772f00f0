//! The state of a binding of which its endpoint holds nothing.

ghost use Rattle.std.specs.Prelude.{◌≡◌};
ghost use Rattle.sva_pasid.specs.States.{Numbers};

use crate::states::Released;
use std::marker::Model;

/// The endpoint holds nothing of the binding and sends nothing for it. The PASID isn't free yet.
pub struct Quiet {
    pub(crate) binding: u64,
    pub(crate) pasid: u32,
}

impl Model for Quiet {
    ghost Value = { Numbers };

    ghost view = { λ quiet. record { binding = quiet.binding; pasid = quiet.pasid } };
}

impl Quiet {
    /// Releases the binding: gives its number and its PASID, as they were when it began.
    pub fn release(self) -> Released
        ensures { result ≡ self }
    {
        let Quiet { binding, pasid } = self;
        Released { binding, pasid }
    }
}
