//! What is counted of a world.

ghost use Rattle.std.specs.Prelude.{◌≡◌, ◌+◌, ◌<◌, ◌≤◌};
ghost use Rattle.sva_core.specs.Journal.{bindings_of, uses_of};
ghost use Rattle.sva_core.specs.Books.{MayReach};

use crate::call_tokens::CallTokens;
use crate::journal::Journaled;
use crate::ledgers::{Bindings, Ledgers, Uses};
use crate::token_book::TokenBook;
use std::marker::Model;
use std::sync::ledger::{Book, Share};

/// The books of a world's calls, of its unreleased bindings and of its taken use slots. Contracts see the three numbers: each is what the
/// shares of all ports, or of all tokens, add up to.
#[derive(Drop)]
pub struct Books<C: Ledgers> {
    calls: Book<C>,
    bindings: TokenBook<Bindings<C>>,
    uses: TokenBook<Uses<C>>,
}

impl<C: Ledgers> Model for Books<C> {
    ghost use Rattle.sva_core.specs.Books.{Totals};

    ghost Value = { Totals };

    ghost view = { λ b. record { calls = b.calls.total; bindings = b.bindings; uses = b.uses } };
}

impl<C: Ledgers> Books<C> {
    /// Books that were opened apart.
    pub(crate) fn new(
        calls: Book<C>,
        bindings: TokenBook<Bindings<C>>,
        uses: TokenBook<Uses<C>>,
    ) -> Books<C>
        ensures { result ≡ record { calls = calls.total; bindings = bindings; uses = uses } }
    {
        Books {
            calls,
            bindings,
            uses,
        }
    }

    /// Counts a call that was answered. What it made is in hand then, and what it spent no longer.
    pub(crate) fn note(
        &mut self,
        journaled: &Journaled,
        calls: &mut Share<C>,
        held: &mut CallTokens<C>,
    )
        requires part { 0 < calls.old.parts }
        requires bindings { MayReach self.old.bindings (bindings_of journaled.now) held.old.bindings }
        requires uses { MayReach self.old.uses (uses_of journaled.now) held.old.uses }
        ensures totals { self.new ≡ record { calls = self.old.calls + 1; bindings = bindings_of journaled.now; uses = uses_of journaled.now } }
        ensures amount { calls.new.amount ≡ calls.old.amount + 1 }
        ensures parts { calls.new.parts ≡ calls.old.parts }
        ensures bindings { held.new.bindings + self.old.bindings ≡ held.old.bindings + bindings_of journaled.now }
        ensures uses { held.new.uses + self.old.uses ≡ held.old.uses + uses_of journaled.now }
    {
        self.calls.add(calls, 1);
        self.bindings.reach(journaled.bindings(), &mut held.binding);
        self.uses.reach(journaled.uses(), &mut held.used);
    }

    /// Tells how a share of the ledger of calls stands to their number.
    pub(crate) fn compare(&mut self, calls: &mut Share<C>)
        ensures same { self.new ≡ self.old }
        ensures parts { calls.new.parts ≡ calls.old.parts }
        ensures amount { calls.new.amount ≡ calls.old.amount }
        ensures some { calls.old.amount ≤ self.old.calls }
        ensures all { calls.old.parts ≡ C.parts → calls.old.amount ≡ self.old.calls }
    {
        self.calls.audit(calls);
    }

    /// Shares of no part, to gather those of tokens in.
    pub(crate) fn empty_shares(&mut self) -> (Share<Bindings<C>>, Share<Uses<C>>)
        ensures same { self.new ≡ self.old }
        ensures parts { (result.0.parts ≡ 0) × (result.1.parts ≡ 0) }
        ensures bindings { result.0.amount ≡ 0 }
        ensures uses { result.1.amount ≡ 0 }
    {
        (self.bindings.gathered(), self.uses.gathered())
    }

    /// Spends what tokens had in hand, which is of no more than there are.
    pub(crate) fn spend(&mut self, held: Share<Bindings<C>>, used: Share<Uses<C>>)
        ensures same { self.new ≡ self.old }
        ensures held { held.amount ≤ self.old.bindings }
        ensures used { used.amount ≤ self.old.uses }
    {
        self.bindings.compare(held);
        self.uses.compare(used);
    }
}
