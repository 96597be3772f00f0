//! The parts of a world with one endpoint and one worker, each by the number of its port, and which lines are whose.

use std::alloc::Global;
use std::process::Abort;
use sva_grammar::parse;
use sva_step::{Config, Step};

/// A line of a part.
#[derive(Clone, Copy)]
pub(crate) struct Line {
    /// How many lines of all parts stand before it.
    pub(crate) place: u64,
    /// What it asks.
    pub(crate) step: Step,
}

/// How many parts there are.
pub(crate) const PARTS: u64 = 5;

const HOST: u64 = 0;

pub(crate) const LINK: u64 = 1;

const SERVICE: u64 = 2;

const ENDPOINT: u64 = 3;

const WORKER: u64 = 4;

/// One endpoint, four frames and one worker.
pub(crate) const ONE: Config = Config {
    endpoints: 1,
    frames: 4,
    workers: 1,
    first: 0,
};

/// The steps of a text for a world of a config.
pub(crate) fn steps_of<R: Abort>(rt: &R, alloc: Global, text: &str, config: Config) -> Vec<Step> {
    let Ok(scenario) = parse(alloc, text.as_bytes()) else {
        panic!(rt; "it can be read");
    };
    assert!(rt; scenario.config == config);
    scenario.steps
}

/// Whose line it is.
pub(crate) fn part_of(step: &Step) -> u64 {
    match step {
        Step::Deliver { .. } => LINK,
        Step::Pump { .. } | Step::Serve { .. } => SERVICE,
        Step::Take { .. } | Step::Reply { .. } => WORKER,
        Step::Ask { .. }
        | Step::BeginUse { .. }
        | Step::EndUse { .. }
        | Step::Evict { .. }
        | Step::Fault { .. }
        | Step::Finish { .. }
        | Step::Quit { .. } => ENDPOINT,
        _ => HOST,
    }
}

/// The first lines of a part, at most so many.
pub(crate) fn lines_of<R: Abort>(
    rt: &R,
    alloc: Global,
    steps: &[Step],
    part: u64,
    most: usize,
) -> Vec<Line> {
    let mut lines = Vec::new(alloc);
    for place in 0..steps.len() {
        let step = steps[place];
        if part_of(&step) == part && lines.len() < most {
            let line = Line {
                place: place as u64,
                step,
            };
            assert!(rt; lines.push(line).is_ok());
        }
    }
    lines
}

const DELIVERIES: &str = "config 1 4 1
deliver 0
deliver 1
deliver 2
deliver 3
deliver 4
deliver 5
deliver 6
deliver 7
deliver 8
deliver 9
deliver 10
";

const SERVICES: &str = "config 1 4 1\npump 0\nserve 0\n";

const JOBS: &str = "config 1 4 1\ntake 0\nanswer 0 success\nanswer 0 invalid\n";

/// What a part does in its turns, whatever its lines are.
pub(crate) fn turns_of<R: Abort>(rt: &R, alloc: Global, part: u64) -> Vec<Step> {
    let text = match part {
        LINK => DELIVERIES,
        SERVICE => SERVICES,
        WORKER => JOBS,
        _ => return Vec::new(alloc),
    };
    steps_of(rt, alloc, text, ONE)
}
