//! The tokens that a call spends or makes.

ghost use Rattle.std.specs.Prelude.{◌≡◌};
ghost use Rattle.sva_core.specs.Books.{count_of, no_token, one_binding, one_use};

use crate::ledgers::{Bindings, Ledgers, Uses};
use crate::token_book::Part;
use std::marker::Model;

/// The tokens that a call has in hand: of one binding at most, and of one use at most. Contracts see of how many.
#[derive(Drop)]
pub struct CallTokens<C: Ledgers> {
    pub(crate) binding: Option<Part<Bindings<C>>>,
    pub(crate) used: Option<Part<Uses<C>>>,
}

impl<C: Ledgers> Model for CallTokens<C> {
    ghost use Rattle.sva_core.specs.Books.{TokenCounts, count_of};

    ghost Value = { TokenCounts };

    ghost view = { λ h. record { bindings = count_of h.binding; uses = count_of h.used } };
}

impl<C: Ledgers> CallTokens<C> {
    /// No token.
    pub fn none() -> CallTokens<C>
        ensures { result ≡ no_token }
    {
        CallTokens {
            binding: None,
            used: None,
        }
    }

    /// The token of a binding.
    pub fn of_binding(part: Part<Bindings<C>>) -> CallTokens<C>
        ensures { result ≡ one_binding }
    {
        CallTokens {
            binding: Some(part),
            used: None,
        }
    }

    /// The token of a use.
    pub fn of_use(part: Part<Uses<C>>) -> CallTokens<C>
        ensures { result ≡ one_use }
    {
        CallTokens {
            binding: None,
            used: Some(part),
        }
    }

    /// The token of a binding, if it is in hand.
    pub fn into_binding(self) -> Option<Part<Bindings<C>>>
        ensures { count_of result ≡ self.bindings }
    {
        self.binding
    }

    /// The token of a use, if it is in hand.
    pub fn into_use(self) -> Option<Part<Uses<C>>>
        ensures { count_of result ≡ self.uses }
    {
        self.used
    }
}
