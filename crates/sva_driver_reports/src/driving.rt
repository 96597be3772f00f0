//! The command that judges a driver, and the one that takes its lines one after another.

ghost use Rattle.std.specs.Prelude.{◌≡◌, ◌⊎◌, ◌≤◌, IfSome, OnOk};
ghost use Rattle.std.specs.Io.KnownBytes.{IsAtEnd};
ghost use Rattle.sva_streams.specs.declared.reading.TheConstants.{MOST_TURNS};
ghost use Rattle.sva_streams.specs.Streams.{IsNew, Tells};
ghost use Rattle.sva_driver_reports.specs.Judged.{Judges, Runs};

use crate::judging::{judge_text, run_text};
use crate::reports::Ruling;
use crate::wanted::Wanted;
use std::alloc::Global;
use std::io::{Read, Write};
use sva_search::Watch;
use sva_streams::{DriveFault, Told, read_all, write_all};

/// Reads a driver to its end, and writes what comes of judging it, as `judge_text` has it. After `Write` a prefix of the
/// text was written, after `Read` or `Memory` nothing. The watch is told before that how far the search is.
pub fn judge<R: Read, W: Write, P: Watch>(
    alloc: Global,
    wanted: Wanted,
    reader: &mut Told<R>,
    writer: &mut Told<W>,
    watch: &mut P,
) -> Result<Option<Ruling>, DriveFault>
    requires reader { IsNew reader.old }
    requires writer { IsNew writer.old }
    ensures judged { IfSome (R.remaining reader.old.inner)
        (λ input. Judges input wanted (W.contents writer.old.inner) (W.contents writer.new.inner) result) }
    ensures end { OnOk result ((reader.new.failures ≡ 0) × IsAtEnd (R.remaining reader.new.inner) × (writer.new.failures ≡ 0)) }
    ensures read { result ≡ Err DriveFault.Read → (writer.new ≡ writer.old)
        × ((reader.new.failures ≡ 1) ⊎ ((reader.new.failures ≡ 0) × (reader.new.calls ≡ MOST_TURNS))) }
    ensures write { result ≡ Err DriveFault.Write → (reader.new.failures ≡ 0) × (writer.new.failures ≡ 1) }
    ensures memory { result ≡ Err DriveFault.Memory → (reader.new.failures ≡ 0) × (writer.new.failures ≡ 0) }
    ensures turns { reader.new.calls ≤ MOST_TURNS }
{
    let text = read_all(alloc, reader)?;
    tell_judged(alloc, wanted, text.as_slice(), writer, watch)
}

/// Writes what comes of judging a driver.
fn tell_judged<W: Write, P: Watch>(
    alloc: Global,
    wanted: Wanted,
    text: &[u8],
    writer: &mut Told<W>,
    watch: &mut P,
) -> Result<Option<Ruling>, DriveFault>
    requires { IsNew writer.old }
    ensures judged { Judges text.now wanted (W.contents writer.old.inner) (W.contents writer.new.inner) result }
    ensures told { Tells writer.old writer.new result }
{
    let mut out = Vec::new(alloc);
    match judge_text(alloc, wanted, text, &mut out, watch) {
        Ok(said) => {
            write_all(writer, out.as_slice())?;
            Ok(said)
        }
        Err(_) => Err(DriveFault::Memory),
    }
}

/// Reads a driver to its end, and writes what comes of taking its lines one after another, as `run_text` has it. After
/// `Write` a prefix of the text was written, after `Read` or `Memory` nothing.
pub fn run<R: Read, W: Write>(
    alloc: Global,
    reader: &mut Told<R>,
    writer: &mut Told<W>,
) -> Result<Option<Ruling>, DriveFault>
    requires reader { IsNew reader.old }
    requires writer { IsNew writer.old }
    ensures run { IfSome (R.remaining reader.old.inner)
        (λ input. Runs input (W.contents writer.old.inner) (W.contents writer.new.inner) result) }
    ensures end { OnOk result ((reader.new.failures ≡ 0) × IsAtEnd (R.remaining reader.new.inner) × (writer.new.failures ≡ 0)) }
    ensures read { result ≡ Err DriveFault.Read → (writer.new ≡ writer.old)
        × ((reader.new.failures ≡ 1) ⊎ ((reader.new.failures ≡ 0) × (reader.new.calls ≡ MOST_TURNS))) }
    ensures write { result ≡ Err DriveFault.Write → (reader.new.failures ≡ 0) × (writer.new.failures ≡ 1) }
    ensures memory { result ≡ Err DriveFault.Memory → (reader.new.failures ≡ 0) × (writer.new.failures ≡ 0) }
    ensures turns { reader.new.calls ≤ MOST_TURNS }
{
    let text = read_all(alloc, reader)?;
    tell_run(alloc, text.as_slice(), writer)
}

/// Writes what comes of taking the lines of a driver one after another.
fn tell_run<W: Write>(
    alloc: Global,
    text: &[u8],
    writer: &mut Told<W>,
) -> Result<Option<Ruling>, DriveFault>
    requires { IsNew writer.old }
    ensures run { Runs text.now (W.contents writer.old.inner) (W.contents writer.new.inner) result }
    ensures told { Tells writer.old writer.new result }
{
    let mut out = Vec::new(alloc);
    match run_text(alloc, text, &mut out) {
        Ok(said) => {
            write_all(writer, out.as_slice())?;
            Ok(said)
        }
        Err(_) => Err(DriveFault::Memory),
    }
}
