//! What is read of the table of bindings: all of its places.

ghost use Rattle.std.specs.Prelude.{◌≡◌};

use crate::places::TableEntry;
use crate::tables::Table;

impl Table {
    /// The places of the bindings that are not released, in the order in which they began.
    pub fn places(&self) -> &[TableEntry]
        ensures { result.now ≡ self.now }
    {
        self.places.as_slice()
    }
}
