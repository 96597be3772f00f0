//! The frames that an `Unmap` took out of a space.

ghost use Rattle.std.specs.Prelude.{◌≡◌, ℕ, ◌-◌, ◌<◌, ◌≤◌, List, [], ◌∷◌, ◌++◌, length, take, drop, replicate, ◌↔◌, IsTrue, nat_eq};
ghost use Rattle.std.specs.Cmp.{partial_equiv_from_equiv};
ghost use Rattle.std.specs.Cmp.Lexicographic.{pointwise};
ghost use Rattle.std.proofs.lemmas.Cmp.{nat_list_eq_equiv};

use crate::limits::MOST_PAGES;
use std::marker::Model;

/// The frames that an `Unmap` took out of a space, in the order of their pages: a fixed table of at most 48.
#[derive(Clone, Copy, Debug)]
pub struct FrameList {
    frames: [u32; MOST_PAGES],
    len: usize,
}

impl Model for FrameList {
    ghost use Rattle.std.specs.Prelude.{ℕ, List, length};

    ghost Value = { List ℕ };

    ghost use Rattle.sva_step.specs.FrameTable.{frames_of, table_of, IsFrameTable, table_of-frames_of};

    ghost view = { frames_of };

    ghost invariant = { IsFrameTable };

    ghost inverse = { table_of };

    ghost inverse_ok = { table_of-frames_of };
}

impl FrameList {
    /// No frames.
    pub fn new() -> Self
        ensures { result ≡ [] }
    {
        FrameList {
            frames: [0; MOST_PAGES],
            len: 0,
        }
    }

    /// Adds a frame behind the others, which are fewer than 48.
    pub fn push(&mut self, frame: u32)
        requires { length self.old < 48 }
        ensures { self.new ≡ self.old ++ frame ∷ [] }
    {
        self.frames[self.len] = frame;
        self.len += 1;
    }

    /// How many frames there are, at most 48.
    pub fn len(&self) -> usize
        ensures exact { result ≡ length self.now }
        ensures most { result ≤ 48 }
    {
        self.as_slice().len()
    }

    /// Tells that there are no frames.
    pub fn is_empty(&self) -> bool
        ensures { IsTrue result ↔ (self.now ≡ []) }
    {
        self.len == 0
    }

    /// The frames, in the order in which they were pushed.
    pub fn as_slice(&self) -> &[u32]
        ensures exact { result.now ≡ self.now }
        ensures most { length result.now ≤ 48 }
    {
        &self.frames[..self.len]
    }
}

impl Default for FrameList {
    ghost is_default = { λ frames. frames ≡ [] };

    fn default() -> Self {
        FrameList::new()
    }
}

impl PartialEq for FrameList {
    ghost eq = { pointwise nat_eq };

    ghost laws = { partial_equiv_from_equiv nat_list_eq_equiv };

    fn eq(&self, other: &Self) -> bool {
        self.as_slice() == other.as_slice()
    }
}

impl Eq for FrameList {
    ghost laws = { nat_list_eq_equiv };
}
