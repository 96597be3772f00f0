//! Why a call with a token failed.

use std::convert::From;
use sva_core::{StepFault, Strayed};
use sva_step::Refusal;

/// Why a call made, moved or spent no token.
#[derive(Clone, Copy, Debug, PartialEq, Eq)]
pub enum Fault {
    /// The step was refused. The port has a receipt of it.
    Refused {
        /// The refusal.
        refusal: Refusal,
    },
    /// Memory lacked. Nothing has changed.
    Memory,
    /// The port's last receipt doesn't stand in the journal. Nothing has changed.
    Strayed(Strayed),
}

impl From<StepFault> for Fault {
    ghost use Rattle.std.specs.Prelude.{◌≡◌};
    ghost use Rattle.sva_fabric.specs.Tokens.{fault_of_step};

    ghost from_gives = { λ fault given. given ≡ fault_of_step fault };

    fn from(fault: StepFault) -> Fault {
        match fault {
            StepFault::Memory => Fault::Memory,
            StepFault::Strayed(strayed) => Fault::Strayed(strayed),
        }
    }
}
