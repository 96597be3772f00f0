//! What is read of a unit beside the head of its queue.

ghost use Rattle.std.specs.Prelude.{◌≡◌, slice_get};

use crate::descriptors::Descriptor;
use crate::units::Unit;
use sva_itags::Busy;

impl Unit {
    /// The descriptor at a place of the queue, the head at 0; none behind the last one.
    pub fn at(&self, place: usize) -> Option<Descriptor>
        ensures { result ≡ slice_get self.now.descriptors place }
    {
        self.queue.at(place)
    }

    /// What is known of the completions of each tag, of 0 to 31; none of one that is free.
    pub fn tags(&self) -> &[Option<Busy>]
        ensures { result.now ≡ self.now.tags }
    {
        self.tags.places()
    }

    /// The number after the greatest cookie that was submitted, 0 at first.
    pub fn back(&self) -> u64
        ensures { result ≡ self.now.back }
    {
        self.back
    }
}
