//! What a binding leaves that is over.

ghost use Rattle.std.specs.Prelude.{◌≡◌};
ghost use Rattle.sva_pasid.specs.States.{Numbers};

use std::marker::Model;

/// The binding is over. The table takes this value for the binding's place and frees the PASID; only `Quiet` makes one.
pub struct Released {
    pub(crate) binding: u64,
    pub(crate) pasid: u32,
}

impl Model for Released {
    ghost Value = { Numbers };

    ghost view = { λ released. record { binding = released.binding; pasid = released.pasid } };
}

impl Released {
    /// The number of the binding.
    pub fn binding(&self) -> u64
        ensures { result ≡ self.now.binding }
    {
        self.binding
    }

    /// The PASID that the binding bore, of 20 bits.
    pub fn pasid(&self) -> u32
        ensures { result ≡ self.now.pasid }
    {
        self.pasid
    }

    /// Called where the place of the binding goes.
    pub(crate) fn spend(self) {
        let Released {
            binding: _,
            pasid: _,
        } = self;
    }
}
