//! The blanks of a world's ledgers.

ghost use Rattle.std.specs.Prelude.{◌≡◌, ◌+◌};
ghost use Rattle.sva_step.specs.Limits.{Fits};
ghost use Rattle.sva_core.specs.Books.{all_parts, no_totals};

use crate::books::Books;
use crate::ledgers::Ledgers;
use crate::token_book::TokenBook;
use std::sync::ledger::{Blank, Share};
use sva_step::Config;

/// The blanks of the three ledgers of one world.
#[derive(Drop)]
pub struct Blanks {
    /// Of its calls: a part for each port.
    pub calls: Blank,
    /// Of its unreleased bindings: a part for each that there may be.
    pub bindings: Blank,
    /// Of its taken use slots, as of bindings.
    pub uses: Blank,
    ghost for_bindings: { bindings.parts ≡ all_parts },
    ghost for_uses: { uses.parts ≡ all_parts },
}

impl Blanks {
    /// Those for a world of a config. Of a config out of its limits the parts for calls say nothing.
    pub fn new(config: &Config) -> Blanks
        ensures { Fits config.now → result.calls.parts ≡ 3 + config.now.endpoints + config.now.workers }
    {
        Blanks {
            calls: Blank::new(ports_of(config)),
            bindings: Blank::new(u64::MAX),
            uses: Blank::new(u64::MAX),
        }
    }

    /// The books of a world, in which nothing stands, and one share with each part of its calls.
    pub fn open<C: Ledgers>(self) -> (Books<C>, Share<C>)
        requires name { self.calls.name ≡ C.name }
        requires parts { self.calls.parts ≡ C.parts }
        requires bindings { self.bindings.name ≡ C.bindings }
        requires uses { self.uses.name ≡ C.uses }
        ensures none { result.0 ≡ no_totals }
        ensures parts { result.1.parts ≡ C.parts }
        ensures amount { result.1.amount ≡ 0 }
    {
        let Blanks {
            calls,
            bindings,
            uses,
        } = self;
        let (calls, shares) = calls.open::<C>();
        let books = Books::new(calls, TokenBook::open(bindings), TokenBook::open(uses));
        (books, shares)
    }
}

/// How many ports a world of a config has. Each needs a part of the ledger of calls. Of a config out of its limits the number says nothing.
pub fn ports_of(config: &Config) -> u64
    ensures { Fits config.now → result ≡ 3 + config.now.endpoints + config.now.workers }
{
    config
        .endpoints
        .saturating_add(config.workers)
        .saturating_add(3)
}
