//! The law of the ends of races.

ghost use Rattle.sva_script_laws.specs.Ends.{EachActLowers, EndsAreThere, LinesAreTakenOnce, NoneIsEndless};

/// Each race comes to an end. A line is taken once, and whatever else is permitted lowers a measure of what host,
/// endpoints and link have yet to do. So no list of choices is endless, and from each moment some list leads to one at
/// which nothing is permitted: what is said of all ends is said of some.
pub fn each_race_ends()
    ensures lines { LinesAreTakenOnce }
    ensures lowers { EachActLowers }
    ensures endless { NoneIsEndless }
    ensures ends { EndsAreThere }
{}
