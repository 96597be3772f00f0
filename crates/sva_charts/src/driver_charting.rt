//! A driver is judged, and its witness drawn.

ghost use Rattle.std.specs.Prelude.{◌≡◌, ◌⊎◌, ◌≤◌, [], IfOk, IfSome, OnOk};
ghost use Rattle.std.specs.Io.KnownBytes.{IsAtEnd};
ghost use Rattle.sva_streams.specs.declared.reading.TheConstants.{MOST_TURNS};
ghost use Rattle.sva_streams.specs.Streams.{IsNew, Tells};
ghost use Rattle.sva_charts.specs.Witnesses as witnesses;

use crate::events::events_in;
use crate::sketching::sketch;
use crate::witness_rows::put_sketched;
use std::alloc::{AllocError, Global};
use std::io::{Read, Write};
use sva_driver_reports::{Ruling, Wanted, judge_text};
use sva_search::Watch;
use sva_streams::{DriveFault, Told, read_all, write_all};

/// Reads a driver to its end, judges it and writes the chart of its witness, as `driver_chart_text` has it. After `Write` a
/// prefix of the text was written, after `Read` or `Memory` nothing. The watch is told before that how far the search is.
pub fn chart_driver<R: Read, W: Write, P: Watch>(
    alloc: Global,
    most: u64,
    reader: &mut Told<R>,
    writer: &mut Told<W>,
    watch: &mut P,
) -> Result<Option<Ruling>, DriveFault>
    requires reader { IsNew reader.old }
    requires writer { IsNew writer.old }
    ensures charted { IfSome (R.remaining reader.old.inner)
        (λ input. witnesses.ChartsDriver input most (W.contents writer.old.inner) (W.contents writer.new.inner) result) }
    ensures end { OnOk result ((reader.new.failures ≡ 0) × IsAtEnd (R.remaining reader.new.inner) × (writer.new.failures ≡ 0)) }
    ensures read { result ≡ Err DriveFault.Read → (writer.new ≡ writer.old)
        × ((reader.new.failures ≡ 1) ⊎ ((reader.new.failures ≡ 0) × (reader.new.calls ≡ MOST_TURNS))) }
    ensures write { result ≡ Err DriveFault.Write → (reader.new.failures ≡ 0) × (writer.new.failures ≡ 1) }
    ensures memory { result ≡ Err DriveFault.Memory → (reader.new.failures ≡ 0) × (writer.new.failures ≡ 0) }
    ensures turns { reader.new.calls ≤ MOST_TURNS }
{
    let text = read_all(alloc, reader)?;
    tell_charted(alloc, most, text.as_slice(), writer, watch)
}

/// Writes the chart of a driver's witness.
fn tell_charted<W: Write, P: Watch>(
    alloc: Global,
    most: u64,
    text: &[u8],
    writer: &mut Told<W>,
    watch: &mut P,
) -> Result<Option<Ruling>, DriveFault>
    requires { IsNew writer.old }
    ensures charted { witnesses.ChartsDriver text.now most (W.contents writer.old.inner) (W.contents writer.new.inner) result }
    ensures told { Tells writer.old writer.new result }
{
    let mut out = Vec::new(alloc);
    match driver_chart_text(alloc, most, text, &mut out, watch) {
        Ok(said) => {
            write_all(writer, out.as_slice())?;
            Ok(said)
        }
        Err(_) => Err(DriveFault::Memory),
    }
}

fn wanted_of(most: u64) -> Wanted
    ensures { result ≡ witnesses.wanted_of most }
{
    Wanted {
        most,
        all: false,
        lines_alone: false,
    }
}

/// Judges a driver, each search by so many moments at most, and writes what `judge` says of it. Where that has a witness, its
/// first line alone is written, and below it a row for each event of the witness: its number, the number of the line
/// that it takes, and its text. What is drawn between these isn't claimed.
pub fn driver_chart_text<P: Watch>(
    alloc: Global,
    most: u64,
    text: &[u8],
    out: &mut Vec<u8>,
    watch: &mut P,
) -> Result<Option<Ruling>, AllocError>
    requires { out.old.items ≡ [] }
    ensures { IfOk result (λ said. witnesses.IsTextCharted text.now most said out.new.items) }
{
    let mut report = Vec::new(alloc);
    let said = judge_text(alloc, wanted_of(most), text, &mut report, watch)?;
    put_chart(alloc, text, report.as_slice(), out)?;
    Ok(said)
}

/// Writes the chart of a report on a driver.
fn put_chart(alloc: Global, text: &[u8], report: &[u8], out: &mut Vec<u8>) -> Result<(), AllocError>
    requires { out.old.items ≡ [] }
    ensures { OnOk result (witnesses.IsChartOf report.now out.new.items) }
{
    match events_in(report) {
        None => out.extend_from_slice(report),
        Some(events) => {
            let sketch = sketch(alloc, text, report, events)?;
            put_sketched(alloc, out, report, events, &sketch)?;
            Ok(())
        }
    }
}
