//! The command `storm`, with a device and a pager of its own.

ghost use Rattle.std.specs.Prelude.{◌≡◌, ◌⊎◌, ◌≤◌, vec_len, IfErr, IfOk, IfSome, OnOk};
ghost use Rattle.std.specs.Io.KnownBytes.{IsAtEnd};
ghost use Rattle.sva_step.specs.Limits.{Fits};
ghost use Rattle.sva_streams.specs.declared.reading.TheConstants.{MOST_TURNS};
ghost use Rattle.sva_scenario.specs.StormReports.{HasFoundFrames, StormsOf};
ghost use Rattle.sva_streams.specs.Streams.{IsNew};

use std::alloc::{AllocError, Global};
use std::io::{Read, Write};
use std::sync::Wait;
use std::thread::Threads;
use sva_scenario::{
    Device, DriveFault, Outcome, Pager, Scenario, StormFault, Told, read_scenario, report_audit,
    storm,
};
use sva_step::Verdict;

/// The program's own device and pager: a use touches nothing, and each job is answered `success`.
#[derive(Clone, Copy)]
struct Idle;

impl Device for Idle {
    fn touch(&mut self, _frame: u32, _write: bool) {}
}

impl Pager for Idle {
    fn decide(&mut self, _binding: u64, _group: u8, _pages: u32) -> Verdict {
        Verdict::Success
    }
}

/// Reads a scenario to its end, plays it by threads, each of which has so many turns, and writes what the audit says: `audit
/// ok` and `frames N`, or `audit bad`. A line fault, or a config out of its limits, is written as in a report, and no thread is
/// started. `Faulted` tells that it isn't `audit ok`. After `Write` a prefix of the text was written, after `Read` nothing; so after
/// `Memory`, where there was a scenario to be played.
pub(crate) fn drive_storm<X: Threads + Wait + Sync, R: Read, W: Write>(
    rt: &X,
    alloc: Global,
    turns: u64,
    reader: &mut Told<R>,
    writer: &mut Told<W>,
) -> Result<Outcome, DriveFault>
    requires reader { IsNew reader.old }
    requires writer { IsNew writer.old }
    ensures report { IfSome (R.remaining reader.old.inner)
        (λ input. StormsOf input turns (W.contents writer.old.inner) (W.contents writer.new.inner) result) }
    ensures end { OnOk result ((reader.new.failures ≡ 0) × IsAtEnd (R.remaining reader.new.inner) × (writer.new.failures ≡ 0)) }
    ensures read { result ≡ Err DriveFault.Read → (writer.new ≡ writer.old)
        × ((reader.new.failures ≡ 1) ⊎ ((reader.new.failures ≡ 0) × (reader.new.calls ≡ MOST_TURNS))) }
    ensures write { result ≡ Err DriveFault.Write → (reader.new.failures ≡ 0) × (writer.new.failures ≡ 1) }
    ensures memory { result ≡ Err DriveFault.Memory → (reader.new.failures ≡ 0) × (writer.new.failures ≡ 0) }
    ensures turns { reader.new.calls ≤ MOST_TURNS }
{
    let Some(scenario) = read_scenario(alloc, reader, writer)? else {
        return Ok(Outcome::Faulted);
    };
    let found = play(rt, alloc, &scenario, turns)?;
    report_audit(alloc, found, writer)
}

/// Plays a scenario by threads: the frames that the audit found, the sum of its own counts, or none where it found a bad receipt. A config
/// out of its limits has no storm; it is told before.
fn play<X: Threads + Wait + Sync>(
    rt: &X,
    alloc: Global,
    scenario: &Scenario,
    turns: u64,
) -> Result<Option<u64>, DriveFault>
    requires { Fits scenario.now.config }
    ensures found { IfOk result (λ found. HasFoundFrames scenario.now.config scenario.now.steps turns found) }
    ensures memory { IfErr result (λ fault. fault ≡ DriveFault.Memory) }
{
    let Ok(devices) = idlers(alloc, scenario.config.endpoints) else {
        return Err(DriveFault::Memory);
    };
    let Ok(pagers) = idlers(alloc, scenario.config.workers) else {
        return Err(DriveFault::Memory);
    };
    match storm(rt, alloc, scenario, turns, devices, pagers) {
        Ok(audit) => {
            let frames = u64::from(audit.free)
                + u64::from(audit.mapped)
                + u64::from(audit.withheld);
            Ok(Some(frames))
        }
        Err(StormFault::Bad(_)) => Ok(None),
        Err(StormFault::Memory) => Err(DriveFault::Memory),
        Err(StormFault::Config) => unreachable!(),
    }
}

/// So many devices or pagers.
fn idlers(alloc: Global, count: u64) -> Result<Vec<Idle>, AllocError>
    ensures { IfOk result (λ all. vec_len all ≡ count) }
{
    let mut all = Vec::new(alloc);
    for _ in 0..count {
        all.push(Idle)?;
    }
    Ok(all)
}
