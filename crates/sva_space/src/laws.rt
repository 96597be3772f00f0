//! The laws of an address space, over every list of its calls.

ghost use Rattle.sva_space.specs.Laws.{Rising, FiniteMap, Owned, LowestFirst, LowestBetween};

/// What holds of a space after every list of permitted calls.
pub fn space_laws()
    ensures rising { Rising }
    ensures finite_map { FiniteMap }
    ensures owned { Owned }
    ensures lowest_first { LowestFirst }
    ensures lowest_between { LowestBetween }
{}
