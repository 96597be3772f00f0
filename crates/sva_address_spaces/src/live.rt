//! The live spaces, by their numbers.

ghost use Rattle.std.specs.Prelude.{◌≡◌, position};
ghost use Rattle.sva_address_spaces.specs.Lives.{is_of};

use sva_space::Space;

/// A live space with its number.
pub struct LiveSpace {
    pub number: u64,
    pub space: Space,
}

/// Where the space of this number stands.
pub(crate) fn place_of(lives: &[LiveSpace], number: u64) -> Option<usize>
    ensures { result ≡ position (is_of number) lives.now }
{
    lives.iter().position(|live| live.number == number)
}
