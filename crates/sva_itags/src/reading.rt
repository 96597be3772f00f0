//! What is read of the tags: all of their places.

ghost use Rattle.std.specs.Prelude.{◌≡◌};

use crate::itags::{Busy, Itags};

impl Itags {
    /// What is known of the completions of each tag, of 0 to 31; none of one that is free.
    pub fn places(&self) -> &[Option<Busy>]
        ensures { result.now ≡ self.now }
    {
        self.places.as_slice()
    }
}
