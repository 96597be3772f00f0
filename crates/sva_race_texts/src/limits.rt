//! What is said of a config that is out of its limits.

ghost use Rattle.std.specs.Prelude.{◌≡◌, ◌+◌, ◌++◌, OnOk};
ghost use Rattle.sva_race_texts.specs.Limits.{count_wrong, is_within, limits_text};
ghost use Rattle.sva_script_reading.specs.Begins.{lines_from};

use crate::faults::{RaceWanted, RaceWrong, put_fault, wrong_at};
use std::alloc::{AllocError, Global};
use sva_script::{Names, split};
use sva_script_reading::Lines;
use sva_step::{Config, MOST_ENDPOINTS, MOST_FRAMES, MOST_WORKERS};

/// Whether a count is 1 to so many.
fn is_within(most: u64, count: u64) -> bool
    ensures { result ≡ is_within most count }
{
    1 <= count && count <= most
}

/// The first count that is out of its limits, as a word of the config's line.
fn count_wrong(config: &Config) -> RaceWrong
    ensures { result ≡ count_wrong config.now }
{
    if !is_within(MOST_ENDPOINTS as u64, config.endpoints) {
        wrong_at(1, RaceWanted::EndpointCount)
    } else if !is_within(MOST_FRAMES, config.frames) {
        wrong_at(2, RaceWanted::FrameCount)
    } else {
        wrong_at(3, RaceWanted::WorkerCount)
    }
}

/// Appends which count of a config is out of its limits, with a line end: `line 1: '9': wanted 1 to 8 endpoints`. The
/// config is the first of these lines that says something.
pub fn put_limits(
    alloc: Global,
    config: &Config,
    from: Lines<'_>,
    out: &mut Vec<u8>,
) -> Result<(), AllocError>
    ensures { OnOk result (out.new.items ≡ out.old.items
        ++ limits_text config.now (lines_from (from.entry.number + 1) from.entry.rest.now)) }
{
    let none = Names::new(alloc);
    let wrong = count_wrong(config);
    let mut lines = from;
    let mut words = Vec::new(alloc);
    while let Some((number, line)) = lines.next() {
        split(line, &mut words)?;
        if !words.is_empty() {
            return put_fault(out, &wrong, number, words.as_slice(), &none);
        }
    }
    put_fault(out, &wrong, 0, &[], &none)
}
