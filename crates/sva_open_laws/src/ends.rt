//! The laws of the ends of drivers.

ghost use Rattle.sva_open_laws.specs.Ends.{EachEventLowers, EndsAreThere, ListsAreBounded, NeverStuckIsDone};
ghost use Rattle.sva_open_laws.specs.Ends.{TextsGoForward};
ghost use Rattle.sva_open_laws.specs.Weights.{AnswersAreFree, EachActIsPaid};

/// What there is in the open world weighs more than all that it may come to: whatever endpoints, units, workers and the
/// link do by themselves leaves less, and what another act adds is below its price, where each endpoint stands at its
/// number, also of endpoints that share units. A response to a group that is filed has none.
pub fn each_act_is_paid()
    ensures acts { EachActIsPaid }
    ensures answers { AnswersAreFree }
{}

/// Each driver comes to an end, where its threads go on with lines further down, and its endpoints stand at their
/// numbers. Each event that is permitted lowers a measure, so no list of events is longer than what the driver's start
/// measures; and from each moment some list leads to one at which nothing is permitted. So where a driver is never
/// stuck, each list can be led on until each thread has taken its last line.
pub fn each_driver_ends()
    ensures lowers { EachEventLowers }
    ensures bounded { ListsAreBounded }
    ensures ends { EndsAreThere }
    ensures done { NeverStuckIsDone }
{}

/// The threads of each driver that is read from a text go on with lines further down, and its endpoints stand at their
/// numbers.
pub fn texts_go_forward()
    ensures { TextsGoForward }
{}
