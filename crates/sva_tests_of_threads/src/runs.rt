//! The runs that are cut, at three paces: line by line, a few lines at the same time, and each part as fast as it can.

use crate::cutting::{Left, cut_all};
use crate::lines::{ONE, steps_of};
use crate::thread_states::Pace;
use std::alloc::Global;
use std::process::Abort;
use std::sync::Wait;
use std::thread::Threads;
use sva_step::Step;

/// runs/invalidations/taken-while-a-use-runs.sva: the endpoint takes an invalidation and never finishes it.
const TAKEN_IN_USE: &str = "config 1 4 1
space
map 0 16 w
bind 0 0
deliver 0
ask 0 1 16
deliver 1
deliver 2
use 0 1 16 w
unmap 0 16
pump 0
deliver 3
";

/// runs/resets/silent-for-a-hundred-pumps.sva: what stands before its hundred pumps,
const SILENT: &str = "config 1 4 1
space
map 0 16 w
bind 0 0
deliver 0
ask 0 1 16
deliver 1
deliver 2
use 0 1 16 w
unmap 0 16
pump 0
deliver 3
";

/// and what stands behind them.
const RESETS: &str = "config 1 4 1
look 0
reset 0
pump 0
deliver 4
look 0
deliver 5
look 0
end 0 0
";

/// runs/resets/job-in-hand.sva
const JOB_IN_HAND: &str = "config 1 4 1
space
bind 0 0
deliver 0
fault 0 1 32 rw new last
deliver 1
serve 0
take 0
reset 0
deliver 2
deliver 3
unbind 0
advance 0
bind 0 0
deliver 4
fault 0 1 33 r new last
deliver 5
serve 0
answer 0 success
take 0
answer 0 success
deliver 6
";

/// runs/unbinding/stale-group.sva
const STALE_GROUP: &str = "config 1 4 1
space
bind 0 0
deliver 0
fault 0 1 32 r new last
unbind 0
deliver 2
quit 0 1
deliver 3
deliver 1
deliver 3
advance 0
pump 0
serve 0
pump 0
advance 0
take 0
answer 0 success
advance 0
pump 0
deliver 5
finish 0 00000001 1
deliver 6
pump 0
advance 0
advance 0
bind 0 0
deliver 7
deliver 4
deliver 7
fault 0 1 32 r new last
";

/// The paces of so many lines.
fn paces(lines: u64) -> [Pace; 3] {
    let by_line = Pace {
        places: 1,
        tries: 20,
        turns: 20,
        phases: lines,
    };
    let by_four = Pace {
        places: 4,
        tries: 300,
        turns: 100,
        phases: lines.wrapping_add(3) / 4,
    };
    let at_once = Pace {
        places: lines,
        tries: 300,
        turns: 3000,
        phases: 1,
    };
    [by_line, by_four, at_once]
}

/// Cuts so many steps at each pace, and tells what was left line by line.
fn cuts<R: Threads + Wait + Abort + Sync>(
    rt: &R,
    alloc: Global,
    steps: &[Step],
    lines: u64,
) -> Left {
    // There is a cut for each line, and one for each of the five parts before its lines.
    let cuts = lines.wrapping_add(5);
    let [by_line, by_four, at_once] = paces(lines);
    assert!(rt; cut_all(rt, alloc, steps, by_four).0 == cuts);
    assert!(rt; cut_all(rt, alloc, steps, at_once).0 == cuts);
    let (found, left) = cut_all(rt, alloc, steps, by_line);
    assert!(rt; found == cuts);
    left
}

#[test]
fn taken_in_use(rt: HostRuntime) {
    let steps = steps_of(&rt, rt.alloc(), TAKEN_IN_USE, ONE);
    let left = cuts(&rt, rt.alloc(), steps.as_slice(), 11);
    // The use runs where it began: with the host silent behind the binding or the unmapping, the link behind the completion or the
    // invalidation, the service behind none or its one line, the endpoint behind the use, and with the worker silent.
    assert!(rt; left.held == 8 && left.dead == 0);
}

/// The steps with the hundred pumps.
fn silent_steps<R: Abort>(rt: &R, alloc: Global) -> Vec<Step> {
    let mut steps = steps_of(rt, alloc, SILENT, ONE);
    for _pump in 0..100 {
        assert!(rt; steps.push(Step::Pump { endpoint: 0 }).is_ok());
    }
    let resets = steps_of(rt, alloc, RESETS, ONE);
    for step in resets.iter() {
        assert!(rt; steps.push(*step).is_ok());
    }
    steps
}

#[test]
fn silent_for_a_hundred_pumps(rt: HostRuntime) {
    let steps = silent_steps(&rt, rt.alloc());
    let left = cuts(&rt, rt.alloc(), steps.as_slice(), 119);
    // The endpoint ends its use, but where it is silent behind its beginning: the reset has ended it then.
    assert!(rt; left.held == 0 && left.dead == 1);
}

#[test]
fn job_in_hand(rt: HostRuntime) {
    let steps = steps_of(&rt, rt.alloc(), JOB_IN_HAND, ONE);
    let left = cuts(&rt, rt.alloc(), steps.as_slice(), 21);
    assert!(rt; left.held == 0 && left.dead == 0);
}

#[test]
fn stale_group(rt: HostRuntime) {
    let steps = steps_of(&rt, rt.alloc(), STALE_GROUP, ONE);
    let left = cuts(&rt, rt.alloc(), steps.as_slice(), 30);
    assert!(rt; left.held == 0 && left.dead == 0);
}
