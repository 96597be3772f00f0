//! The law of the codes of ranges.

ghost use Rattle.sva_model.specs.Ranges.{AreCodes};

/// The codes of ranges: a range is read from its own code, two ranges have two codes, and a code is none of a range exactly
/// where its page is 2^36 or more or the range would have more than 512 pages. What is read is a range within its limits,
/// and has that code. A page is in a range exactly where its number, its low bits cleared, is the range's base.
pub fn codes()
    ensures { AreCodes }
{}
