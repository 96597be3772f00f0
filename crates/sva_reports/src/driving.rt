//! The run of a scenario, with its report.

ghost use Rattle.std.specs.Prelude.{◌≡◌, ◌↔◌, ◌⊎◌, ◌<◌, ◌≤◌, [], length, IsTrue, IfOk, IfSome, OnOk, if◌then◌else◌};
ghost use Rattle.std.specs.Io.KnownBytes.{IsAtEnd};
ghost use Rattle.sva_core.specs.Reached.{Follows};
ghost use Rattle.sva_streams.specs.declared.reading.TheConstants.{MOST_TURNS};
ghost use Rattle.sva_reports.specs.Report.{outcome_of, report_of, script_report, ReportsFrom};
ghost use Rattle.sva_grammar.specs.Configs.{is_fit};
ghost use Rattle.sva_grammar.specs.Replies.{reply_text};
ghost use Rattle.sva_streams.specs.Streams.{IsNew, Tells, Writes};

use crate::report::{flush, hold_reply, write_end, write_reply};
use crate::scenarios::scenario_or_fault;
use std::alloc::Global;
use std::io::{Read, Write};
use sva_core::World;
use sva_step::{Answer, Config, Refusal, Step};
use sva_streams::{DriveFault, Outcome, Told, read_all};

/// Reads a scenario to its end, runs its steps, and writes its report, many lines at a time. `Faulted` tells that it is a
/// line fault or a refused config. After `Write` or `Memory` a prefix of the report was written, after `Read` nothing.
/// The first want of memory ends the run, also where a step meets it.
pub fn drive<R: Read, W: Write>(
    alloc: Global,
    reader: &mut Told<R>,
    writer: &mut Told<W>,
) -> Result<Outcome, DriveFault>
    requires reader { IsNew reader.old }
    requires writer { IsNew writer.old }
    ensures report { IfSome (R.remaining reader.old.inner)
        (λ input. Writes (W.contents writer.old.inner) (W.contents writer.new.inner) (report_of input) result) }
    ensures outcome { IfOk result (λ outcome. IfSome (R.remaining reader.old.inner) (λ input. outcome ≡ outcome_of input)) }
    ensures end { OnOk result ((reader.new.failures ≡ 0) × IsAtEnd (R.remaining reader.new.inner) × (writer.new.failures ≡ 0)) }
    ensures read { result ≡ Err DriveFault.Read → (writer.new ≡ writer.old)
        × ((reader.new.failures ≡ 1) ⊎ ((reader.new.failures ≡ 0) × (reader.new.calls ≡ MOST_TURNS))) }
    ensures write { result ≡ Err DriveFault.Write → (reader.new.failures ≡ 0) × (writer.new.failures ≡ 1) }
    ensures memory { result ≡ Err DriveFault.Memory → (reader.new.failures ≡ 0) × (writer.new.failures ≡ 0) }
    ensures whole { result ≡ Err DriveFault.Write → IsAtEnd (R.remaining reader.new.inner) }
    ensures asked { 0 < reader.new.calls }
    ensures turns { reader.new.calls ≤ MOST_TURNS }
{
    let text = read_all(alloc, reader)?;
    report_text(alloc, text.as_slice(), writer)
}

/// Runs the steps of a scenario's text, and writes its report. `Faulted` tells that it is a line fault or a refused
/// config. After `Write` or `Memory` a prefix of the report was written; `Read` isn't answered.
pub fn report_text<W: Write>(
    alloc: Global,
    text: &[u8],
    writer: &mut Told<W>,
) -> Result<Outcome, DriveFault>
    requires { IsNew writer.old }
    ensures report { Writes (W.contents writer.old.inner) (W.contents writer.new.inner) (report_of text.now) result }
    ensures outcome { IfOk result (λ outcome. outcome ≡ outcome_of text.now) }
    ensures told { Tells writer.old writer.new result }
{
    let Some(scenario) = scenario_or_fault(alloc, text, writer)? else {
        return Ok(Outcome::Faulted);
    };
    report_script(alloc, scenario.config, scenario.steps.as_slice(), writer)
}

/// Writes the report of a scenario.
fn report_script<W: Write>(
    alloc: Global,
    config: Config,
    steps: &[Step],
    writer: &mut Told<W>,
) -> Result<Outcome, DriveFault>
    requires new { IsNew writer.old }
    requires few { length steps.now ≤ 65536 }
    ensures report { Writes (W.contents writer.old.inner) (W.contents writer.new.inner)
        (script_report (record { config = config; steps = steps.now })) result }
    ensures outcome { IfOk result (λ outcome. outcome ≡ (if is_fit config then Outcome.Done else Outcome.Faulted)) }
    ensures told { Tells writer.old writer.new result }
{
    match World::open(alloc, config) {
        Ok(mut world) => report_steps(&mut Vec::new(alloc), &mut world, steps, writer),
        Err(Refusal::BadConfig) => {
            write_reply(&mut Vec::new(alloc), &Err(Refusal::BadConfig), writer)?;
            Ok(Outcome::Faulted)
        }
        Err(_) => Err(DriveFault::Memory),
    }
}

/// Takes the steps, and writes a line for each and that of the counts, many at a time. In `held` stand those that are not
/// written yet, and at the beginning none.
fn report_steps<W: Write>(
    held: &mut Vec<u8>,
    world: &mut World,
    steps: &[Step],
    writer: &mut Told<W>,
) -> Result<Outcome, DriveFault>
    requires new { IsNew writer.old }
    requires few { length steps.now ≤ 65536 }
    requires nothing { held.old.items ≡ [] }
    ensures report { ReportsFrom world.old steps.now (W.contents writer.old.inner) (W.contents writer.new.inner) result }
    ensures outcome { IfOk result (λ outcome. outcome ≡ Outcome.Done) }
    ensures told { Tells writer.old writer.new result }
{
    for step in steps {
        let reply = take_step(world, step);
        if lacks_memory(&reply) {
            flush(held, writer)?;
            return Err(DriveFault::Memory);
        }
        hold_reply(held, &reply, writer)?;
    }
    write_end(held, &world.counts(), writer)?;
    Ok(Outcome::Done)
}

/// Takes a step. What is answered has a short text.
fn take_step(world: &mut World, step: &Step) -> Result<Answer, Refusal>
    ensures step { Follows world.old step.now result world.new }
    ensures short { length (reply_text result) ≤ 1024 }
{
    world.apply(step)
}

/// Was the step refused for want of memory?
fn lacks_memory(reply: &Result<Answer, Refusal>) -> bool
    ensures { IsTrue result ↔ (reply.now ≡ Err Refusal.OutOfMemory) }
{
    matches!(reply, Err(Refusal::OutOfMemory))
}
