//! The law of witnesses: each is a scenario, whose replay comes to the moment that was found.

ghost use Rattle.sva_script_laws.specs.Witnesses.{WitnessesReplay};

/// A witness of a race that was read, written as a scenario, is one that a replay takes, unless it is too large: it has
/// the race's config, and the steps of the lines before the race and of the choices, in order. Its report has their
/// answers, and last the counts of the moment to which the choices lead.
pub fn witnesses_replay()
    ensures { WitnessesReplay }
{}
