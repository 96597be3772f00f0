//! svahost for C: a text in, a report out. What callers owe stands in include/svahost.h. No clause here asks for
//! anything, since nothing checks a caller that isn't Rattle.
//!
//! In each function `text` is the text, of any bytes, and `report` the buffer for what the definitions say of it.
//! `needed` takes the length of the whole report in bytes, and 0 where memory ran out; the buffer is as it was then.
//! The result is a status of `statuses`.
#![tactic(auto)]

ghost use Rattle.std.specs.Prelude.{◌≡◌};
ghost use Rattle.sva_c.specs.Buffers.{Gives, check_said, replay_said};
ghost use Rattle.sva_c.specs.Searches.{Explores, Judges, Runs};
ghost use Rattle.sva_script_reports.specs.Scripts.{plain_of, test_of};
ghost use Rattle.sva_script_reports.specs.Shows.{show_of};
ghost use Rattle.sva_why.specs.Why.{why_of};

mod handing;
mod statuses;

use crate::handing::{explored_status, hand_over, lack, nearest, ruled_status, status_of};
use std::alloc::Global;
use sva_driver_reports::{judge_text, run_text};
use sva_race_reports::{Wanted, explore_text};
use sva_reports::{check_text, report_text};
use sva_script_reports::{plain, show, test};
use sva_search::Unwatched;
use sva_streams::Told;
use sva_why::Explainer;

/// The report of a scenario, as `replay` prints it.
#[unsafe(no_mangle)]
pub extern "C" fn sva_c_replay(
    alloc: Global,
    text: &[u8],
    report: &mut [u8],
    needed: &mut usize,
) -> u32
    ensures { Gives (replay_said text.now) report.old report.new needed.new result }
{
    let mut writer = Told::new(Vec::new(alloc));
    match report_text(alloc, text, &mut writer) {
        Ok(outcome) => hand_over(
            writer.inner().as_slice(),
            status_of(outcome),
            report,
            needed,
        ),
        Err(_) => lack(needed),
    }
}

/// How many steps a scenario has, as `check` prints it.
#[unsafe(no_mangle)]
pub extern "C" fn sva_c_check(
    alloc: Global,
    text: &[u8],
    report: &mut [u8],
    needed: &mut usize,
) -> u32
    ensures { Gives (check_said text.now) report.old report.new needed.new result }
{
    let mut writer = Told::new(Vec::new(alloc));
    match check_text(alloc, text, &mut writer) {
        Ok(outcome) => hand_over(
            writer.inner().as_slice(),
            status_of(outcome),
            report,
            needed,
        ),
        Err(_) => lack(needed),
    }
}

/// Whether a script's answers are as expected, as `test` prints it.
#[unsafe(no_mangle)]
pub extern "C" fn sva_c_test(
    alloc: Global,
    text: &[u8],
    report: &mut [u8],
    needed: &mut usize,
) -> u32
    ensures { Gives (test_of why_of text.now) report.old report.new needed.new result }
{
    let mut said = Vec::new(alloc);
    match test::<Explainer>(alloc, text, &mut said) {
        Ok(outcome) => hand_over(said.as_slice(), status_of(outcome), report, needed),
        Err(_) => lack(needed),
    }
}

/// The scenario that a script stands for, as `plain` prints it.
#[unsafe(no_mangle)]
pub extern "C" fn sva_c_plain(
    alloc: Global,
    text: &[u8],
    report: &mut [u8],
    needed: &mut usize,
) -> u32
    ensures { Gives (plain_of text.now) report.old report.new needed.new result }
{
    let mut said = Vec::new(alloc);
    match plain(alloc, text, &mut said) {
        Ok(outcome) => hand_over(said.as_slice(), status_of(outcome), report, needed),
        Err(_) => lack(needed),
    }
}

/// What the host keeps behind a script's last line, as `show` prints it.
#[unsafe(no_mangle)]
pub extern "C" fn sva_c_show(
    alloc: Global,
    text: &[u8],
    report: &mut [u8],
    needed: &mut usize,
) -> u32
    ensures { Gives (show_of text.now) report.old report.new needed.new result }
{
    let mut said = Vec::new(alloc);
    match show(alloc, text, &mut said) {
        Ok(outcome) => hand_over(said.as_slice(), status_of(outcome), report, needed),
        Err(_) => lack(needed),
    }
}

/// Whether each permitted order of a driver is safe, as `judge` prints it. At most so many moments are looked at, but for
/// the first, which is looked at in any case.
#[unsafe(no_mangle)]
pub extern "C" fn sva_c_judge(
    alloc: Global,
    text: &[u8],
    most: u64,
    report: &mut [u8],
    needed: &mut usize,
) -> u32
    ensures { Judges text.now most report.old report.new needed.new result }
{
    let mut said = Vec::new(alloc);
    match judge_text(alloc, nearest(most), text, &mut said, &mut Unwatched) {
        Ok(ruling) => hand_over(said.as_slice(), ruled_status(ruling), report, needed),
        Err(_) => lack(needed),
    }
}

/// Whether something is wrong behind a line of a driver whose lines are taken one after another, as `judge --run`
/// prints it.
#[unsafe(no_mangle)]
pub extern "C" fn sva_c_run(
    alloc: Global,
    text: &[u8],
    report: &mut [u8],
    needed: &mut usize,
) -> u32
    ensures { Runs text.now report.old report.new needed.new result }
{
    let mut said = Vec::new(alloc);
    match run_text(alloc, text, &mut said) {
        Ok(ruling) => hand_over(said.as_slice(), ruled_status(ruling), report, needed),
        Err(_) => lack(needed),
    }
}

/// What every permitted order of a race comes to, as `explore` prints it. At most so many moments are looked at, but for
/// the first, which is looked at in any case.
#[unsafe(no_mangle)]
pub extern "C" fn sva_c_explore(
    alloc: Global,
    text: &[u8],
    most: u64,
    report: &mut [u8],
    needed: &mut usize,
) -> u32
    ensures { Explores text.now most report.old report.new needed.new result }
{
    let mut said = Vec::new(alloc);
    let wanted = Wanted {
        most,
        whys: false,
        few_ends: false,
        is_brief: false,
    };
    match explore_text::<Explainer, Unwatched>(alloc, wanted, text, &mut said, &mut Unwatched) {
        Ok(judged) => hand_over(said.as_slice(), explored_status(judged), report, needed),
        Err(_) => lack(needed),
    }
}
