//! What all values of one shared world have in common, by a type parameter.

use std::marker::{Brand, PhantomData};
use std::sync::ledger::Ledger;

/// One shared world: the ledger of its calls, its config, and the names of the ledgers of its bindings and uses. What lies under the lock,
/// the fabric, the ports and the tokens have one such parameter, so none of them stands for another world's. Whoever opens the world
/// picks it, by the blanks of its ledgers and by its config.
pub trait Ledgers: Ledger {
    ghost use Rattle.std.specs.Prelude.{ℕ};
    ghost use Rattle.sva_step.specs.declared.limits.Config.{Config};

    ghost config: { Config };

    ghost bindings: { ℕ };

    ghost uses: { ℕ };
}

impl Ledgers for Brand {
    ghost config = { record { endpoints = 0; frames = 0; workers = 0; first = 0 } };

    ghost bindings = { 0 };

    ghost uses = { 0 };
}

/// The ledger of a world's unreleased bindings.
pub struct Bindings<C: Ledgers> {
    marker: PhantomData<C>,
}

impl<C: Ledgers> Ledger for Bindings<C> {
    ghost use Rattle.sva_core.specs.Books.{all_parts};

    ghost name = { C.bindings };

    ghost parts = { all_parts };
}

/// The ledger of a world's taken use slots.
pub struct Uses<C: Ledgers> {
    marker: PhantomData<C>,
}

impl<C: Ledgers> Ledger for Uses<C> {
    ghost use Rattle.sva_core.specs.Books.{all_parts};

    ghost name = { C.uses };

    ghost parts = { all_parts };
}
