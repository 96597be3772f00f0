//! The places of a queue.

ghost use Rattle.std.specs.Prelude.{◌≡◌, ◌+◌, ◌<◌, ◌≤◌, [], ◌∷◌, ◌++◌, length, drop, slice_get};

use crate::descriptors::Descriptor;
use arrayvec::ArrayVec;
use std::marker::Model;
use sva_step::QUEUE_PLACES;

/// Up to 64 descriptors, first in, first out. They lie in a table of 64 places, from the place `head` on and round the table's
/// end; what is in it never moves.
#[derive(Drop)]
pub struct Ring {
    places: ArrayVec<Descriptor, QUEUE_PLACES>,
    head: usize,
    len: usize,
}

impl Model for Ring {
    ghost use Rattle.std.specs.Prelude.{◌≡◌, ◌<◌, ◌≤◌, List, length};
    ghost use Rattle.sva_queue.specs.declared.descriptors.Descriptor.{Descriptor};
    ghost use Rattle.sva_queue.specs.Ring.{window};

    ghost Value = { List Descriptor };

    ghost view = { λ r. window r.head r.len r.places.items };

    ghost invariant = { λ r. (length r.places.items ≡ 64) × (r.head < 64) × (r.len ≤ 64) };
}

impl Ring {
    /// An empty queue.
    pub(crate) fn new() -> Self
        ensures { result ≡ [] }
    {
        Ring {
            places: ArrayVec::from([Descriptor::default(); QUEUE_PLACES]),
            head: 0,
            len: 0,
        }
    }

    /// How many of the 64 places are free.
    pub(crate) fn room(&self) -> usize
        ensures { result + length self.now ≡ 64 }
    {
        QUEUE_PLACES - self.len
    }

    /// The first descriptor, if there is one.
    pub(crate) fn first(&self) -> Option<Descriptor>
        ensures { result ≡ slice_get self.now 0 }
    {
        if self.len == 0 {
            None
        } else {
            Some(self.places[self.head])
        }
    }

    /// The descriptor at a place, the first one at 0; none from the last one on.
    pub(crate) fn at(&self, place: usize) -> Option<Descriptor>
        ensures { result ≡ slice_get self.now place }
    {
        if place < self.len {
            Some(self.places[(self.head + place) % QUEUE_PLACES])
        } else {
            None
        }
    }

    /// Puts a descriptor behind the last one.
    pub(crate) fn push(&mut self, descriptor: Descriptor)
        requires { length self.old < 64 }
        ensures { self.new ≡ self.old ++ descriptor ∷ [] }
    {
        let place = (self.head + self.len) % QUEUE_PLACES;
        self.places[place] = descriptor;
        self.len += 1;
    }

    /// Puts descriptors behind the last one, in their order.
    pub(crate) fn extend(&mut self, descriptors: &[Descriptor])
        requires { length self.old + length descriptors.now ≤ 64 }
        ensures { self.new ≡ self.old ++ descriptors.now }
    {
        for descriptor in descriptors {
            self.push(*descriptor);
        }
    }

    /// Takes the first descriptor out; nothing where there is none.
    pub(crate) fn drop_first(&mut self)
        ensures { self.new ≡ drop 1 self.old }
    {
        if self.len > 0 {
            self.head = (self.head + 1) % QUEUE_PLACES;
            self.len -= 1;
        }
    }

    /// Takes all descriptors out.
    pub(crate) fn clear(&mut self)
        ensures { self.new ≡ [] }
    {
        self.len = 0;
    }
}
