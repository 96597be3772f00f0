//! The laws of scripts and races. Of scripts: what the scenario is, what its report has, and what tests and traces have
//! of that. Of races: each witness is a scenario, what is called usable is what the headline does, and each ends.
#![tactic(auto)]

mod ends;
mod usable;
mod witnesses;

ghost use Rattle.sva_script_laws.specs.Plains.{PlainsAreSame, PlainsStay, ScenariosArePlain, UnfitIsTold};
ghost use Rattle.sva_script_laws.specs.Replays.{ScriptsReplay};
ghost use Rattle.sva_script_laws.specs.Tests.{NoneIsSkipped, TestsCompare, TestsPass};
ghost use Rattle.sva_script_laws.specs.Traces.{TracesAnswer};

pub use ends::each_race_ends;
pub use usable::usable_is_the_headlines;
pub use witnesses::witnesses_replay;

/// The scenario of a script is one that a replay takes, and its report has, line by line, the answers with which the
/// script's lines were resolved, and at its end the counts.
pub fn scripts_replay()
    ensures { ScriptsReplay }
{}

/// A scenario that a replay runs, read as a script, is its own plain scenario, byte for byte; only an LF that its last
/// line lacks is put there, unless that makes it too large. It is the same scenario, with the same report. The plain
/// scenario of any script is its own. Where the config is out of its limits, what the report says is said in its place.
pub fn scenarios_are_plain()
    ensures bytes { ScenariosArePlain }
    ensures same { PlainsAreSame }
    ensures again { PlainsStay }
    ensures unfit { UnfitIsTold }
{}

/// Of a script that has a scenario, a test compares what its lines expect with the lines of that one's report, each at
/// its own place. It passes exactly where all are met, and says how many these are; else it tells the first that isn't,
/// and what holds its step back. No line that says what it expects is passed over.
pub fn tests_compare()
    ensures compares { TestsCompare }
    ensures passes { TestsPass }
    ensures all { NoneIsSkipped }
{}

/// Of a script that has a scenario, the trace has a row for each step of that, in order, with the number of its line in
/// the script and the answer that stands at its place in the report, and last the report's counts. Where that is wanted,
/// lines of what holds the step back stand behind its row.
pub fn traces_answer()
    ensures { TracesAnswer }
{}
