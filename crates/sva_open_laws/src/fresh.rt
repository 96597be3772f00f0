//! The law of the numbers of groups.

ghost use Rattle.sva_open_laws.specs.Fresh.{NumbersAreFresh};

/// The number of a group that begins is above those of all that is left of older groups of its index: in flight,
/// received, in the page request queue, and filed; and no group of that index is there. So what is of an older group is
/// never taken for what is of a newer one.
pub fn numbers_are_fresh()
    ensures { NumbersAreFresh }
{}
