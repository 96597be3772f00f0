//! Sets of numbers, a bit for each number.

ghost use Rattle.std.specs.Prelude.{◌≡◌, ◌≢◌, ◌==◌, ◌<◌, ◌+◌, ◌/◌, ℕ, cond, IfOk, IfNone, IfSome, length, replicate, slice_index};
ghost use Rattle.std.specs.Int.{bit_at};

use std::alloc::{AllocError, Global};
use std::marker::Model;

/// How many bits a word has.
pub const WORD: usize = 64;

/// A set of numbers below a bound. Contracts see its words: a number is bit `number % 64` of word `number / 64`.
#[derive(Drop)]
pub struct BitSet {
    words: Vec<u64>,
}

impl Model for BitSet {
    ghost use Rattle.std.specs.Prelude.{ℕ, List, length, ◌^◌, ◌≤◌};

    ghost Value = { List ℕ };

    ghost view = { λ s. s.words.items };

    ghost invariant = { λ s. length s.words.items ≤ 2 ^ 26 };
}

impl BitSet {
    ghost use Rattle.sva_frames.specs.Numbers.{has};

    /// The empty set with room for the numbers below a bound, a word for each 64 of them.
    pub(crate) fn open(alloc: Global, bound: u32) -> Result<BitSet, AllocError>
        ensures { IfOk result (λ set. set ≡ replicate ((bound + 63) / 64) 0) }
    {
        let words = (bound as usize + (WORD - 1)) / WORD;
        Ok(BitSet {
            words: vec![in alloc; 0; words]?,
        })
    }

    /// How many words there are.
    pub(crate) fn len(&self) -> usize
        ensures { result ≡ length self.now }
    {
        self.words.len()
    }

    /// Whether no number of the word at a place is in the set.
    pub(crate) fn is_empty_at(&self, place: usize) -> bool
        requires { place < length self.now }
        ensures { result ≡ (slice_index self.now place == 0) }
    {
        self.words[place] == 0
    }

    /// Enters a number, or takes it out.
    pub(crate) fn put(&mut self, number: usize, is_in: bool)
        requires { number / 64 < length self.old }
        ensures same { has self.new number ≡ cond is_in 1 0 }
        ensures others { (other : ℕ) → other ≢ number → has self.new other ≡ has self.old other }
        ensures words { (place : ℕ) → place ≢ number / 64 → slice_index self.new place ≡ slice_index self.old place }
        ensures length { length self.new ≡ length self.old }
    {
        let place = number / WORD;
        let word = with_bit(self.words[place], number % WORD, is_in);
        self.words[place] = word;
    }

    /// The lowest number of the word at a place, if any of them is in the set.
    pub(crate) fn lowest_at(&self, place: usize) -> Option<usize>
        requires { place < length self.now }
        ensures none { IfNone result (slice_index self.now place ≡ 0) }
        ensures some { IfSome result (λ lowest. (lowest / 64 ≡ place) × (has self.now lowest ≡ 1)
            × ((number : ℕ) → number / 64 ≡ place → number < lowest → has self.now number ≡ 0)) }
    {
        let bit = lowest_bit(self.words[place])?;
        Some(place * WORD + bit)
    }

    /// The lowest number, if there is one. It looks at one word after the other.
    pub(crate) fn lowest(&self) -> Option<usize>
        ensures none { IfNone result ((number : ℕ) → has self.now number ≡ 0) }
        ensures some { IfSome result (λ lowest. (has self.now lowest ≡ 1) × ((number : ℕ) → number < lowest → has self.now number ≡ 0)) }
    {
        for place in 0..self.words.len() {
            if !self.is_empty_at(place) {
                return self.lowest_at(place);
            }
        }
        None
    }
}

/// The word with a bit set, or cleared.
fn with_bit(word: u64, bit: usize, is_set: bool) -> u64
    requires { bit < 64 }
    ensures same { bit_at result bit ≡ cond is_set 1 0 }
    ensures others { (other : ℕ) → other < 64 → other ≢ bit → bit_at result other ≡ bit_at word other }
{
    if is_set {
        word | (1 << bit)
    } else {
        word & !(1 << bit)
    }
}

/// The place of the lowest bit that is set.
fn lowest_bit(word: u64) -> Option<usize>
    ensures none { IfNone result (word ≡ 0) }
    ensures some { IfSome result (λ lowest. (lowest < 64) × (bit_at word lowest ≡ 1) × ((bit : ℕ) → bit < lowest → bit_at word bit ≡ 0)) }
{
    if word == 0 {
        return None;
    }
    Some(word.trailing_zeros() as usize)
}
