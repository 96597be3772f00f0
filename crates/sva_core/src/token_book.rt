//! How many tokens of one kind there are.

ghost use Rattle.std.specs.Prelude.{◌≡◌, ◌+◌, ◌<◌, ◌≤◌, ◌^◌};
ghost use Rattle.sva_core.specs.Books.{all_parts, count_of, MayReach};

use std::marker::Model;
use std::sync::ledger::{Blank, Book, Ledger, Share};

/// What a token has of its ledger: one part, with an amount of one.
#[derive(Drop)]
pub struct Part<L: Ledger> {
    share: Share<L>,
    ghost part: { share.parts ≡ 1 },
    ghost amount: { share.amount ≡ 1 },
}

impl<L: Ledger> Part<L> {
    /// Puts the part to others.
    pub fn gather(self, gathered: &mut Share<L>)
        ensures { gathered.new.amount ≡ gathered.old.amount + 1 }
    {
        gathered.merge(self.share);
    }
}

/// The book of one kind of token. The parts of those that aren't made lie here. Contracts see how many there are.
#[derive(Drop)]
pub(crate) struct TokenBook<L: Ledger> {
    count: u64,
    made: Book<L>,
    spare: Share<L>,
}

impl<L: Ledger> Model for TokenBook<L> {
    ghost use Rattle.std.specs.Prelude.{◌≡◌, ◌+◌, ℕ};
    ghost use Rattle.sva_core.specs.Books.{all_parts};

    ghost Value = { ℕ };

    ghost view = { λ s. s.count };

    ghost invariant = { λ s. (s.made.total ≡ s.count) × (s.spare.amount ≡ 0) × (s.spare.parts + s.count ≡ all_parts) };
}

impl<L: Ledger> TokenBook<L> {
    /// No token is made yet.
    pub(crate) fn open(blank: Blank) -> TokenBook<L>
        requires name { blank.name ≡ L.name }
        requires parts { blank.parts ≡ L.parts }
        requires all { blank.parts ≡ all_parts }
        ensures { result ≡ 0 }
    {
        let (made, spare) = blank.open::<L>();
        TokenBook {
            count: 0,
            made,
            spare,
        }
    }

    /// Makes the part of one token more.
    fn make(&mut self) -> Part<L>
        requires room { self.old + 1 < 2 ^ 64 }
        ensures { self.new ≡ self.old + 1 }
    {
        self.made.add(&mut self.spare, 1);
        self.count += 1;
        Part {
            share: self.spare.split_off(1, 1),
        }
    }

    /// Takes the part of a token back, which is spent.
    fn take_back(&mut self, part: Part<L>)
        ensures { self.new + 1 ≡ self.old }
    {
        let mut share = part.share;
        self.made.sub(&mut share, 1);
        self.count -= 1;
        self.spare.merge(share);
    }

    /// Makes a token, or takes the one in hand back, so that there are so many.
    pub(crate) fn reach(&mut self, count: u64, held: &mut Option<Part<L>>)
        requires { MayReach self.old count (count_of held.old) }
        ensures count { self.new ≡ count }
        ensures held { count_of held.new + self.old ≡ count_of held.old + count }
    {
        if self.count < count {
            *held = Some(self.make());
        } else if self.count > count {
            if let Some(part) = held.take() {
                self.take_back(part);
            }
        }
    }

    /// A share of no part, to gather parts in.
    pub(crate) fn gathered(&mut self) -> Share<L>
        ensures same { self.new ≡ self.old }
        ensures parts { result.parts ≡ 0 }
        ensures amount { result.amount ≡ 0 }
    {
        self.spare.empty()
    }

    /// There are no fewer tokens than were gathered.
    pub(crate) fn compare(&mut self, gathered: Share<L>)
        ensures same { self.new ≡ self.old }
        ensures some { gathered.amount ≤ self.old }
    {
        let mut gathered = gathered;
        self.made.audit(&mut gathered);
    }
}
