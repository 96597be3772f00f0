//! What the lines of `why` say of causes, and what only a reset helps.

ghost use Rattle.sva_why.specs.Standing.{LinesStand};
ghost use Rattle.sva_why.specs.Stuck.{StuckStays};

/// A line stands wherever its cause holds: each thing that makes the cause hold has its line.
pub fn lines_stand()
    ensures { LinesStand }
{}

/// An unfinished group at an endpoint whose page requests are disabled stays so by each step but the delivery of a reset,
/// or of a response to it.
pub fn stuck_stays()
    ensures { StuckStays }
{}
