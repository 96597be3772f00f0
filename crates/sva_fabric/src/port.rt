//! A port: what a thread calls the shared world by.

ghost use Rattle.std.specs.Prelude.{◌≡◌, length};
ghost use Rattle.sva_fabric.specs.Receipts.{last_of, AreRising, new_port};

use std::alloc::Global;
use std::marker::Model;
use std::sync::ledger::Share;
use sva_core::{Ledgers, Receipt};

/// What one thread calls a `Fabric` by. It keeps a receipt of each call that was answered. Contracts see the number and the
/// receipts, whose places rise. Its share of the ledger counts the calls.
#[derive(Drop)]
pub struct Port<C: Ledgers> {
    pub(crate) number: u64,
    pub(crate) receipts: Vec<Receipt>,
    pub(crate) calls: Share<C>,
}

impl<C: Ledgers> Model for Port<C> {
    ghost use Rattle.std.specs.Prelude.{◌≡◌, length};
    ghost use Rattle.sva_fabric.specs.Receipts.{PortState, AreRising};

    ghost Value = { PortState };

    ghost view = { λ p. record { number = p.number; receipts = p.receipts.items } };

    ghost invariant = { λ p. AreRising p.receipts.items × (p.calls.parts ≡ 1) × (p.calls.amount ≡ length p.receipts.items) };
}

impl<C: Ledgers> Port<C> {
    /// A port of which nothing was asked.
    pub(crate) fn new(alloc: Global, number: u64, calls: Share<C>) -> Port<C>
        requires part { calls.parts ≡ 1 }
        requires none { calls.amount ≡ 0 }
        ensures { result ≡ new_port number }
    {
        Port {
            number,
            receipts: Vec::new(alloc),
            calls,
        }
    }

    /// The port's number, which its entries in the journal have.
    pub fn number(&self) -> u64
        ensures { result ≡ self.now.number }
    {
        self.number
    }

    /// How many of its calls were answered.
    pub fn calls(&self) -> u64
        ensures { result ≡ length self.now.receipts }
    {
        self.receipts.len() as u64
    }

    /// The receipt of the last call.
    pub fn last(&self) -> Option<Receipt>
        ensures { result ≡ last_of self.now.receipts }
    {
        self.receipts.last().copied()
    }

    /// The port's share of the ledger, without the port.
    pub(crate) fn into_calls(self) -> Share<C>
        ensures part { result.parts ≡ 1 }
        ensures amount { result.amount ≡ length self.receipts }
    {
        self.calls
    }

    /// The receipts of all calls, in the order in which they were made.
    pub fn receipts(&self) -> &[Receipt]
        ensures exact { result.now ≡ self.now.receipts }
        ensures rising { AreRising self.now.receipts }
    {
        self.receipts.as_slice()
    }
}
