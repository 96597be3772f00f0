//! The laws of what is said of a driver that is unsafe, or stuck.

ghost use Rattle.sva_driver_reports.specs.Witnesses.{EndsAreTold, FindingsAreTold, LeaksAreTold, WitnessesAreTold};

/// Where a text is judged as unsafe, its report has a witness: behind the line that counts its events, and says what is
/// wrong behind them, and behind its front, a line for each event of a list as short as any, in order. Each event is
/// permitted at the moment to which those before it lead, and its line tells what it is there; what is told as wrong
/// is the first thing that is at the moment to which all lead. Or the text is told as unsafe at the first of its lines
/// before `race` behind which something is wrong. So is one whose lines are taken one after another, at the first of
/// all of them. Where a text is judged as stuck, its report has such a list too, as short as any, to an end at which a
/// line waits; and the line that is told is what waits there. Where all findings are wanted, each has such a witness,
/// one behind the other: all that is wrong where a list leads that was tried, each once.
pub fn witnesses_are_told()
    ensures witness { WitnessesAreTold }
    ensures findings { FindingsAreTold }
    ensures leak { LeaksAreTold }
    ensures end { EndsAreTold }
{}
