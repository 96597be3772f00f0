//! A set of numbers that finds its lowest quickly.

ghost use Rattle.std.specs.Prelude.{◌≡◌, ◌≢◌, ◌<◌, ◌≤◌, ◌*◌, ◌/◌, ℕ, cond, length, IfOk, IfNone, IfSome};

use crate::bits::{BitSet, WORD};
use std::alloc::{AllocError, Global};
use std::marker::Model;

/// A set of numbers that finds its lowest without a look at each word: a second set has the places of the words that
/// aren't 0. For 4096 numbers these are 64 words and one. Contracts see the words.
#[derive(Drop)]
pub struct FreeSet {
    numbers: BitSet,
    summary: BitSet,
}

impl Model for FreeSet {
    ghost use Rattle.std.specs.Prelude.{ℕ, List};
    ghost use Rattle.sva_frames.specs.Numbers.{IsSummary};

    ghost Value = { List ℕ };

    ghost view = { λ s. s.numbers };

    ghost invariant = { λ s. IsSummary s.numbers s.summary };
}

impl FreeSet {
    ghost use Rattle.sva_frames.specs.Numbers.{has};

    /// All numbers below a bound.
    pub(crate) fn below(alloc: Global, bound: u32) -> Result<FreeSet, AllocError>
        ensures below { IfOk result (λ set. (number : ℕ) → number < bound → has set number ≡ 1) }
        ensures above { IfOk result (λ set. (number : ℕ) → bound ≤ number → has set number ≡ 0) }
        ensures room { IfOk result (λ set. bound ≤ 64 * length set) }
    {
        let mut set = FreeSet::open(alloc, bound)?;
        for number in 0..bound as usize {
            set.put(number, true);
        }
        Ok(set)
    }

    /// The empty set with room for the numbers below a bound.
    fn open(alloc: Global, bound: u32) -> Result<FreeSet, AllocError>
        ensures empty { IfOk result (λ set. (number : ℕ) → has set number ≡ 0) }
        ensures room { IfOk result (λ set. bound ≤ 64 * length set) }
    {
        let numbers = BitSet::open(alloc, bound)?;
        let summary = BitSet::open(alloc, numbers.len() as u32)?;
        Ok(FreeSet { numbers, summary })
    }

    /// Enters a number, or takes it out.
    pub(crate) fn put(&mut self, number: usize, is_in: bool)
        requires { number / 64 < length self.old }
        ensures same { has self.new number ≡ cond is_in 1 0 }
        ensures others { (other : ℕ) → other ≢ number → has self.new other ≡ has self.old other }
        ensures length { length self.new ≡ length self.old }
    {
        let place = number / WORD;
        self.numbers.put(number, is_in);
        let is_empty = self.numbers.is_empty_at(place);
        self.summary.put(place, !is_empty);
    }

    /// The lowest number, if there is one.
    pub(crate) fn lowest(&self) -> Option<usize>
        ensures none { IfNone result ((number : ℕ) → has self.now number ≡ 0) }
        ensures some { IfSome result (λ lowest. (has self.now lowest ≡ 1) × ((number : ℕ) → number < lowest → has self.now number ≡ 0)) }
    {
        let place = self.summary.lowest()?;
        self.numbers.lowest_at(place)
    }
}
