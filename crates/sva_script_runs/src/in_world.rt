//! What is in flight in a world, for lines that name a message by its age or by its kind.

ghost use Rattle.std.specs.Prelude.{Some};
ghost use Rattle.sva_script_reading.specs.Messages.{link_of};

use crate::kinds::{newest, oldest, oldest_of};
use sva_core::World;
use sva_script_reading::InFlight;

/// What is in flight in a world.
#[derive(Drop)]
pub struct InWorld<'a> {
    /// The world.
    pub world: &'a World,
}

impl<'a> InFlight for InWorld<'a> {
    ghost link = { λ it. link_of (Some it.world.now) };

    fn oldest_of_kind(&self, kind: &[u8], endpoint: u64) -> u64 {
        oldest_of(self.world, kind, endpoint)
    }

    fn oldest_message(&self) -> u64 {
        oldest(self.world)
    }

    fn newest_message(&self) -> u64 {
        newest(self.world)
    }
}
