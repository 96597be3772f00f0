//! The open world without asks, and without faults.

ghost use Rattle.sva_open_laws.specs.OccasionRows.{
  BothAreAsked,
  LessIsAwaited,
  PlacesMove,
  TimesMeet,
  UnitsAreSeen,
};
ghost use Rattle.sva_open_laws.specs.Occasions.{
  AreAlwaysSafeApart,
  AreFirstSafeApart,
  AreFoundApart,
  AreLeftOut,
  AreRunsApart,
  AreRunsSafeApart,
  AreSafeApart,
  IsOccasionLaw,
};

/// What an ask makes, and what a fault makes, only ever bars other acts. Each act that is permitted is one of the world
/// without asks, and of that without faults, or none there, and leaves there what is left so of what it leaves; so do
/// acts one after another. A moment is safe exactly where it is so without asks, and without faults; so is each moment
/// through which acts lead. From the first moment on, whatever acts come, all are safe exactly where they are so
/// whatever come but asks, and whatever come but faults; and what isn't safe is found by no more acts without the one
/// or the other. Asked are that endpoints below one unit see one, as they always do, and of faults that invalidations
/// don't run out of time where drains need an empty page request queue.
pub fn occasions_stand_alone()
    ensures out { AreLeftOut }
    ensures acts { IsOccasionLaw }
    ensures safe { AreSafeApart }
    ensures runs { AreRunsApart }
    ensures along { AreRunsSafeApart }
    ensures always { AreAlwaysSafeApart }
    ensures first { AreFirstSafeApart }
    ensures found { AreFoundApart }
{}

/// What would be false: that a work has the same place without asks; that nothing is permitted without asks, or without
/// faults, but what is so of the whole; that an invalidation runs out of time without faults where it does with them,
/// whatever drains need; that it doesn't matter whether endpoints see one unit; and that one of both is enough.
pub fn rows_of_occasions()
    ensures places { PlacesMove }
    ensures less { LessIsAwaited }
    ensures times { TimesMeet }
    ensures units { UnitsAreSeen }
    ensures both { BothAreAsked }
{}
