//! What holds after every list of calls: functions with no work, whose contracts are laws about the definitions.

ghost use Rattle.sva_pasid.specs.Moves.{MovesByTable, TableByMoves, KeepsNumbers, QuietAfterUnbinding};
ghost use Rattle.sva_pasid.specs.Calls.{AlwaysTable, SharedBySpace, AlwaysAwaited, KeptUntilEnd, LivesByTable, TakenBack, ResetByMoves};
ghost use Rattle.sva_pasid.specs.Places.{LowestIsLeast};

/// What holds after every list of moves of a binding: each is a row of the stage table or leaves the stage, and each row
/// is a move; the binding's number and PASID stay; and without a reset it is quiet or released only after the stop, the marker, the
/// wait with drain, the invalidation with no group open, and the wait behind it, in this order.
pub fn laws_of_moves()
    ensures table { MovesByTable }
    ensures rows { TableByMoves }
    ensures numbers { KeepsNumbers }
    ensures unbinding { QuietAfterUnbinding }
{}

/// What holds after every list of calls of a table, with moves of the stages in hand in between: two places are of two
/// bindings, and bear the same PASID of 1 to 32 exactly where they are of the same space; what is in hand can always be
/// put back or ended; a PASID goes to another space only after the end of the last binding that bore it; each binding
/// begins live, goes by the stage table alone and ends released, or is taken back while it is live; a binding that began
/// last and is taken back leaves the table as it was; and a reset moves a stage in its place as its own move does.
pub fn laws_of_tables()
    ensures table { AlwaysTable }
    ensures shared { SharedBySpace }
    ensures awaited { AlwaysAwaited }
    ensures kept { KeptUntilEnd }
    ensures lives { LivesByTable }
    ensures taken_back { TakenBack }
    ensures reset { ResetByMoves }
    ensures lowest { LowestIsLeast }
{}
