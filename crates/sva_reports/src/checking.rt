//! The check of a scenario: how many steps it has.

ghost use Rattle.std.specs.Prelude.{◌≡◌, ◌⊎◌, ◌<◌, ◌≤◌, IfOk, IfSome, OnOk};
ghost use Rattle.std.specs.Io.KnownBytes.{IsAtEnd};
ghost use Rattle.sva_streams.specs.declared.reading.TheConstants.{MOST_TURNS};
ghost use Rattle.sva_reports.specs.Report.{check_of, check_outcome_of};
ghost use Rattle.sva_streams.specs.Streams.{IsNew, Tells, Writes};

use crate::report::write_steps;
use crate::scenarios::scenario_or_fault;
use std::alloc::Global;
use std::io::{Read, Write};
use sva_streams::{DriveFault, Outcome, Told, read_all};

/// Reads a scenario to its end, and writes how many steps it has, `steps K`, or its line fault. No step is run, and the
/// limits of the config aren't asked. `Faulted` tells that there is a line fault. After `Write` or `Memory` a prefix of
/// that line was written, after `Read` nothing.
pub fn check<R: Read, W: Write>(
    alloc: Global,
    reader: &mut Told<R>,
    writer: &mut Told<W>,
) -> Result<Outcome, DriveFault>
    requires reader { IsNew reader.old }
    requires writer { IsNew writer.old }
    ensures report { IfSome (R.remaining reader.old.inner)
        (λ input. Writes (W.contents writer.old.inner) (W.contents writer.new.inner) (check_of input) result) }
    ensures outcome { IfOk result (λ outcome. IfSome (R.remaining reader.old.inner) (λ input. outcome ≡ check_outcome_of input)) }
    ensures end { OnOk result ((reader.new.failures ≡ 0) × IsAtEnd (R.remaining reader.new.inner) × (writer.new.failures ≡ 0)) }
    ensures read { result ≡ Err DriveFault.Read → (writer.new ≡ writer.old)
        × ((reader.new.failures ≡ 1) ⊎ ((reader.new.failures ≡ 0) × (reader.new.calls ≡ MOST_TURNS))) }
    ensures write { result ≡ Err DriveFault.Write → (reader.new.failures ≡ 0) × (writer.new.failures ≡ 1) }
    ensures memory { result ≡ Err DriveFault.Memory → (reader.new.failures ≡ 0) × (writer.new.failures ≡ 0) }
    ensures whole { result ≡ Err DriveFault.Write → IsAtEnd (R.remaining reader.new.inner) }
    ensures asked { 0 < reader.new.calls }
    ensures turns { reader.new.calls ≤ MOST_TURNS }
{
    let text = read_all(alloc, reader)?;
    check_text(alloc, text.as_slice(), writer)
}

/// Writes how many steps a scenario's text has, or its line fault, which `Faulted` tells. After `Write` or `Memory` a
/// prefix of that line was written; `Read` isn't answered.
pub fn check_text<W: Write>(
    alloc: Global,
    text: &[u8],
    writer: &mut Told<W>,
) -> Result<Outcome, DriveFault>
    requires { IsNew writer.old }
    ensures report { Writes (W.contents writer.old.inner) (W.contents writer.new.inner) (check_of text.now) result }
    ensures outcome { IfOk result (λ outcome. outcome ≡ check_outcome_of text.now) }
    ensures told { Tells writer.old writer.new result }
{
    let Some(scenario) = scenario_or_fault(alloc, text, writer)? else {
        return Ok(Outcome::Faulted);
    };
    let mut line = Vec::new(alloc);
    write_steps(&mut line, scenario.steps.as_slice().len(), writer)?;
    Ok(Outcome::Done)
}
