//! What lies under the lock.

ghost use Rattle.std.specs.Prelude.{◌≡◌, ◌↔◌, ◌+◌, ◌^◌, ◌<◌, ◌≤◌, true, false, length, slice_get, IfOk, IfErr, IfSome, IfNone, OnOk, OnErr, Some, Err};
ghost use Rattle.sva_step.specs.declared.refusals.Refusal.TheVariants as refusal;
ghost use Rattle.sva_step.specs.Limits.{Fits};
ghost use Rattle.sva_core.specs.Reached.{IsOpenRefusal};
ghost use Rattle.sva_core.specs.Journal.{IsLegal, CountsOf, bindings_of, uses_of, entry_of, with_entry, empty_of};
ghost use Rattle.sva_core.specs.Suiting.{Suits};
ghost use Rattle.sva_core.specs.Receipts.{Stands, IsAnsweredAt, IsRefusedAt, HasStrayed};
ghost use Rattle.sva_core.specs.Books.{no_totals, IsHandedIn, IsHandedOut};

use crate::books::Books;
use crate::call_tokens::CallTokens;
use crate::journal::{Entry, Journaled};
use crate::ledgers::{Bindings, Ledgers, Uses};
use crate::receipts::Receipt;
use std::alloc::Global;
use std::marker::Model;
use std::sync::ledger::Share;
use sva_frames::Counts;
use sva_step::{Config, Refusal, Step};

/// Why a call was not answered. Nothing has changed.
#[derive(Clone, Copy, Debug, PartialEq, Eq)]
pub enum StepFault {
    /// Memory lacked.
    Memory,
    /// The port's last receipt doesn't stand in the journal.
    Strayed(Strayed),
}

/// The port's last receipt doesn't stand in the journal.
#[derive(Clone, Copy, Debug, PartialEq, Eq)]
pub struct Strayed {
    /// The place that the receipt names.
    pub place: u64,
    /// What stands there instead.
    pub found: Option<Entry>,
}

/// A journaled world, as it lies under the lock of a `Fabric`, with its books: the journal is as long as the shares of the ports add up to,
/// its world has as many unreleased bindings and taken use slots as there are tokens of them, and its config is the one of the type.
#[derive(Drop)]
pub struct Running<C: Ledgers> {
    journaled: Journaled,
    books: Books<C>,
}

impl<C: Ledgers> Model for Running<C> {
    ghost use Rattle.std.specs.Prelude.{◌≡◌};
    ghost use Rattle.sva_core.specs.Journal.{History};
    ghost use Rattle.sva_core.specs.Books.{totals_of};

    ghost Value = { History };

    ghost view = { λ r. r.journaled };

    ghost invariant = { λ r. (r.books ≡ totals_of r.journaled) × (r.journaled.config ≡ C.config) };
}

impl<C: Ledgers> Running<C> {
    /// A new world of a config, of which nothing was asked, with books in which nothing stands. A config out of its limits is
    /// `BadConfig`; the only other refusal is `OutOfMemory`.
    pub fn open(alloc: Global, config: Config, books: Books<C>) -> Result<Running<C>, Refusal>
        requires config { config ≡ C.config }
        requires none { books ≡ no_totals }
        ensures ok { IfOk result (λ r. (Fits config) × (r ≡ empty_of config)) }
        ensures bad { (result ≡ Err refusal.BadConfig) ↔ (Fits config → ⊥) }
        ensures memory { IfErr result IsOpenRefusal }
    {
        let journaled = Journaled::open(alloc, config)?;
        Ok(Running { journaled, books })
    }

    /// Takes one step for a port whose last receipt is this one. The receipt is compared with the journal first; where it doesn't
    /// stand there, the answer is `Strayed`. A call that is answered counts in the port's share, and what it makes is in hand then, and
    /// what it spends no longer.
    pub fn step(
        &mut self,
        port: u64,
        last: Option<Receipt>,
        calls: &mut Share<C>,
        held: &mut CallTokens<C>,
        step: &Step,
    ) -> Result<Receipt, StepFault>
        requires part { 0 < calls.old.parts }
        requires held { IsHandedIn step.now held.old }
        ensures answered { IfOk result (λ r. IsAnsweredAt self.old port last step.now r) }
        ensures journal { IfOk result (λ r. self.new ≡ with_entry self.old (entry_of port r.step r.answer)) }
        ensures err { OnErr result (self.new ≡ self.old) }
        ensures fault { IfErr result (λ f. IsRefusedAt self.old.entries port last f) }
        ensures legal { IsLegal self.new }
        ensures config { self.new.config ≡ C.config }
        ensures suits { IfOk result (λ r. Suits step.now r.answer) }
        ensures counted { OnOk result (calls.new.amount ≡ calls.old.amount + 1) }
        ensures uncounted { OnErr result (calls.new.amount ≡ calls.old.amount) }
        ensures parts { calls.new.parts ≡ calls.old.parts }
        ensures handed { IfOk result (λ r. IsHandedOut held.old held.new r.answer) }
        ensures unhanded { OnErr result (held.new ≡ held.old) }
    {
        let place = self.journaled.calls();
        if let Err(strayed) = self.holds(port, last) {
            return Err(StepFault::Strayed(strayed));
        }
        let Ok(entry) = self.journaled.perform(port, step) else {
            return Err(StepFault::Memory);
        };
        self.books.note(&self.journaled, calls, held);
        Ok(Receipt {
            place,
            step: entry.step,
            answer: entry.answer,
        })
    }

    /// How many frames are free, mapped and withheld. The receipt is compared with the journal as by `step`.
    pub fn counts(&self, port: u64, last: Option<Receipt>) -> Result<Counts, Strayed>
        ensures counts { IfOk result (CountsOf self.now) }
        ensures stands { OnOk result (IfSome last (λ l. Stands self.now.entries port l)) }
        ensures fault { IfErr result (HasStrayed self.now.entries port last) }
        ensures legal { IsLegal self.now }
        ensures config { self.now.config ≡ C.config }
    {
        let counts = self.journaled.counts();
        self.holds(port, last)?;
        Ok(counts)
    }

    /// A share with every part of the ledger counts each call of the journal, and no share more than there are. Nothing changes.
    pub fn compare(&mut self, calls: &mut Share<C>)
        ensures same { self.new ≡ self.old }
        ensures parts { calls.new.parts ≡ calls.old.parts }
        ensures amount { calls.new.amount ≡ calls.old.amount }
        ensures some { calls.new.amount ≤ length self.new.entries }
        ensures all { calls.new.parts ≡ C.parts → calls.new.amount ≡ length self.new.entries }
    {
        self.books.compare(calls);
    }

    /// Shares of no part, to gather those of tokens in. Nothing changes.
    pub fn empty_shares(&mut self) -> (Share<Bindings<C>>, Share<Uses<C>>)
        ensures same { self.new ≡ self.old }
        ensures parts { (result.0.parts ≡ 0) × (result.1.parts ≡ 0) }
        ensures bindings { result.0.amount ≡ 0 }
        ensures uses { result.1.amount ≡ 0 }
    {
        self.books.empty_shares()
    }

    /// Spends what tokens had in hand: it is of no more than the unreleased bindings and the taken use slots. Nothing changes.
    pub fn spend(&mut self, held: Share<Bindings<C>>, used: Share<Uses<C>>)
        ensures same { self.new ≡ self.old }
        ensures held { held.amount ≤ bindings_of self.new }
        ensures used { used.amount ≤ uses_of self.new }
    {
        self.books.spend(held, used);
    }

    /// The journaled world, without its books.
    pub fn journaled(&self) -> &Journaled
        ensures same { result.now ≡ self.now }
        ensures config { self.now.config ≡ C.config }
    {
        &self.journaled
    }

    /// Compares a port's last receipt with the journal.
    fn holds(&self, port: u64, last: Option<Receipt>) -> Result<(), Strayed>
        ensures stands { OnOk result (IfSome last (λ l. Stands self.now.entries port l)) }
        ensures fault { IfErr result (HasStrayed self.now.entries port last) }
    {
        let Some(receipt) = last else {
            return Ok(());
        };
        if self.journaled.stands(port, &receipt) {
            return Ok(());
        }
        Err(Strayed {
            place: receipt.place,
            found: self.journaled.at(receipt.place),
        })
    }
}
