//! What stands before and behind a storm: its scenario is read and judged, and what its audit says is written. The storm itself is
//! between them, and is called by whoever has the leave to start threads and to wait; neither of these two waits.

ghost use Rattle.std.specs.Prelude.{◌≡◌, ◌⊎◌, ◌<◌, ◌≤◌, IfOk, IfSome, OnOk};
ghost use Rattle.std.specs.Io.KnownBytes.{IsAtEnd};
ghost use Rattle.sva_step.specs.Limits.{Fits};
ghost use Rattle.sva_streams.specs.declared.reading.TheConstants.{MOST_TURNS};
ghost use Rattle.sva_grammar.specs.Configs.{is_fit};
ghost use Rattle.sva_scenario.specs.StormReports.{JudgedBy, JudgedOf, audit_outcome, audit_text};
ghost use Rattle.sva_streams.specs.Streams.{IsNew, Tells, Writes};

use std::alloc::Global;
use std::io::{Read, Write};
use sva_grammar::Scenario;
use sva_reports::{scenario_or_fault, write_audit, write_bad_audit, write_reply};
use sva_step::Refusal;
use sva_streams::{DriveFault, Outcome, Told, read_all};

/// Reads a scenario to its end, and hands it out to be played. A line fault, or a config out of its limits, is written as in a report, and
/// there is none to be played then. After `Write` or `Memory` a prefix of that line was written, after `Read` nothing.
pub fn read_scenario<R: Read, W: Write>(
    alloc: Global,
    reader: &mut Told<R>,
    writer: &mut Told<W>,
) -> Result<Option<Scenario>, DriveFault>
    requires reader { IsNew reader.old }
    requires writer { IsNew writer.old }
    ensures judged { IfSome (R.remaining reader.old.inner)
        (λ input. JudgedOf input (W.contents writer.old.inner) (W.contents writer.new.inner) result) }
    ensures fits { IfOk result (λ found. IfSome found (λ script. Fits script.config × (writer.new ≡ writer.old))) }
    ensures end { OnOk result ((reader.new.failures ≡ 0) × IsAtEnd (R.remaining reader.new.inner) × (writer.new.failures ≡ 0)) }
    ensures read { result ≡ Err DriveFault.Read → (writer.new ≡ writer.old)
        × ((reader.new.failures ≡ 1) ⊎ ((reader.new.failures ≡ 0) × (reader.new.calls ≡ MOST_TURNS))) }
    ensures write { result ≡ Err DriveFault.Write → (reader.new.failures ≡ 0) × (writer.new.failures ≡ 1) }
    ensures memory { result ≡ Err DriveFault.Memory → (reader.new.failures ≡ 0) × (writer.new.failures ≡ 0) }
    ensures whole { result ≡ Err DriveFault.Write → IsAtEnd (R.remaining reader.new.inner) }
    ensures asked { 0 < reader.new.calls }
    ensures turns { reader.new.calls ≤ MOST_TURNS }
{
    let text = read_all(alloc, reader)?;
    judge(alloc, text.as_slice(), writer)
}

/// Hands out the scenario of a text, or writes why there is none to be played.
fn judge<W: Write>(
    alloc: Global,
    text: &[u8],
    writer: &mut Told<W>,
) -> Result<Option<Scenario>, DriveFault>
    requires { IsNew writer.old }
    ensures judged { JudgedOf text.now (W.contents writer.old.inner) (W.contents writer.new.inner) result }
    ensures fits { IfOk result (λ found. IfSome found (λ script. Fits script.config × (writer.new ≡ writer.old))) }
    ensures told { Tells writer.old writer.new result }
{
    let Some(scenario) = scenario_or_fault(alloc, text, writer)? else {
        return Ok(None);
    };
    let mut line = Vec::new(alloc);
    hand_out(&mut line, scenario, writer)
}

/// Hands out a scenario whose config is within its limits. Of another that is written.
fn hand_out<W: Write>(
    line: &mut Vec<u8>,
    scenario: Scenario,
    writer: &mut Told<W>,
) -> Result<Option<Scenario>, DriveFault>
    requires { IsNew writer.old }
    ensures judged { JudgedBy (is_fit scenario.config) scenario (W.contents writer.old.inner) (W.contents writer.new.inner) result }
    ensures fits { IfOk result (λ found. IfSome found (λ script. Fits script.config × (writer.new ≡ writer.old))) }
    ensures told { Tells writer.old writer.new result }
{
    if scenario.config.fits() {
        return Ok(Some(scenario));
    }
    write_reply(line, &Err(Refusal::BadConfig), writer)?;
    Ok(None)
}

/// Writes what the audit of a storm says: `audit ok` and `frames N`, N the frames that it found, or `audit bad` where it found none.
/// `Faulted` tells that it isn't `audit ok`. After `Write` a prefix of the text was written, after `Memory` nothing.
pub fn report_audit<W: Write>(
    alloc: Global,
    found: Option<u64>,
    writer: &mut Told<W>,
) -> Result<Outcome, DriveFault>
    requires { IsNew writer.old }
    ensures report { Writes (W.contents writer.old.inner) (W.contents writer.new.inner) (audit_text found) result }
    ensures outcome { IfOk result (λ outcome. outcome ≡ audit_outcome found) }
    ensures told { Tells writer.old writer.new result }
    ensures memory { result ≡ Err DriveFault.Memory → writer.new ≡ writer.old }
{
    let mut line = Vec::new(alloc);
    match found {
        Some(frames) => {
            write_audit(&mut line, frames, writer)?;
            Ok(Outcome::Done)
        }
        None => {
            write_bad_audit(&mut line, writer)?;
            Ok(Outcome::Faulted)
        }
    }
}
