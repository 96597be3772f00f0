//! What is read of the spaces and the frames: all of them.

ghost use Rattle.std.specs.Prelude.{◌≡◌};
ghost use Rattle.sva_address_spaces.specs.Seen.{places_seen};
ghost use Rattle.sva_address_spaces.specs.Lives.{spaces_seen};

use crate::address_spaces::AddressSpaces;
use crate::live::LiveSpace;
use sva_frames::FramePool;

impl AddressSpaces {
    /// The live spaces with their numbers, in the order in which they began.
    pub fn spaces(&self) -> &[LiveSpace]
        ensures { spaces_seen result.now ≡ self.now.spaces }
    {
        self.spaces.as_slice()
    }

    /// The frames.
    pub fn pool(&self) -> &FramePool
        ensures { places_seen result.now ≡ self.now.places }
    {
        &self.pool
    }

    /// The number that the next space gets.
    pub fn next_space(&self) -> u64
        ensures { result ≡ self.now.next_space }
    {
        self.next_space
    }
}
