//! The laws of a pool of frames, over every list of its calls.

ghost use Rattle.sva_frames.specs.Laws.{Divided, WithheldWaits, LowestFree, MappedInHand, FreeAtOnce, WithheldUntilSettled, FreeWhenSettled, SettlesWaits};

/// What holds of a pool after every list of permitted calls.
pub fn frame_laws()
    ensures divided { Divided }
    ensures withheld { WithheldWaits }
    ensures lowest { LowestFree }
    ensures in_hand { MappedInHand }
    ensures at_once { FreeAtOnce }
    ensures until_settled { WithheldUntilSettled }
    ensures when_settled { FreeWhenSettled }
    ensures settles { SettlesWaits }
{}
