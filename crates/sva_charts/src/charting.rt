//! The command: a script in, its chart out.

ghost use Rattle.std.specs.Prelude.{◌≡◌, ◌⊎◌, ◌<◌, ◌≤◌, [], IfOk, IfSome, OnOk};
ghost use Rattle.std.specs.Io.KnownBytes.{IsAtEnd};
ghost use Rattle.sva_charts.specs.Charts.{Charts, IsChart};
ghost use Rattle.sva_streams.specs.declared.reading.TheConstants.{MOST_TURNS};
ghost use Rattle.sva_streams.specs.Streams.{IsNew, Tells};
ghost use Rattle.sva_script_reports.specs.Shows.{show_of};

use crate::collecting::{Rows, collect};
use crate::lines::put_lines;
use crate::picture::put_picture;
use crate::places::Places;
use std::alloc::{AllocError, Global};
use std::io::{Read, Write};
use sva_streams::{DriveFault, MOST_TURNS, Outcome, Told, read_all, write_all};

/// How a chart is drawn.
#[derive(Clone, Copy, PartialEq, Eq)]
pub enum Drawing {
    /// By signs, a line or two for each step.
    Text,
    /// As a picture: an SVG file.
    Svg,
}

/// Reads a script to its end, and draws its run. Where a line is wrong, or the config out of its limits, that is written
/// instead, as `show` does, and the result is `Faulted`. After `Write` a prefix of the text was written, after `Memory` or
/// `Read` nothing. Nothing is claimed of the drawing.
pub fn chart<R: Read, W: Write>(
    alloc: Global,
    drawing: Drawing,
    reader: &mut Told<R>,
    writer: &mut Told<W>,
) -> Result<Outcome, DriveFault>
    requires reader { IsNew reader.old }
    requires writer { IsNew writer.old }
    ensures charted { IfSome (R.remaining reader.old.inner)
        (λ input. Charts input (W.contents writer.old.inner) (W.contents writer.new.inner) result) }
    ensures end { OnOk result ((reader.new.failures ≡ 0) × IsAtEnd (R.remaining reader.new.inner) × (writer.new.failures ≡ 0)) }
    ensures read { result ≡ Err DriveFault.Read → (writer.new ≡ writer.old)
        × ((reader.new.failures ≡ 1) ⊎ ((reader.new.failures ≡ 0) × (reader.new.calls ≡ MOST_TURNS))) }
    ensures write { result ≡ Err DriveFault.Write → (reader.new.failures ≡ 0) × (writer.new.failures ≡ 1) }
    ensures memory { result ≡ Err DriveFault.Memory → (reader.new.failures ≡ 0) × (writer.new.failures ≡ 0) }
    ensures asked { 0 < reader.new.calls }
    ensures turns { reader.new.calls ≤ MOST_TURNS }
{
    let text = read_all(alloc, reader)?;
    write_chart(alloc, drawing, text.as_slice(), writer)
}

/// Writes the chart of a script.
fn write_chart<W: Write>(
    alloc: Global,
    drawing: Drawing,
    text: &[u8],
    writer: &mut Told<W>,
) -> Result<Outcome, DriveFault>
    requires { IsNew writer.old }
    ensures charted { Charts text.now (W.contents writer.old.inner) (W.contents writer.new.inner) result }
    ensures told { Tells writer.old writer.new result }
{
    let mut out = Vec::new(alloc);
    match put_chart(alloc, drawing, text, &mut out) {
        Ok(outcome) => {
            write_all(writer, out.as_slice())?;
            Ok(outcome)
        }
        Err(_) => Err(DriveFault::Memory),
    }
}

/// Draws the run of a script, or says what is wrong with it.
fn put_chart(
    alloc: Global,
    drawing: Drawing,
    text: &[u8],
    out: &mut Vec<u8>,
) -> Result<Outcome, AllocError>
    requires { out.old.items ≡ [] }
    ensures { IfOk result (λ outcome. IsChart (show_of text.now) (record { text = out.new.items; outcome = outcome })) }
{
    match collect(alloc, text, out)? {
        None => Ok(Outcome::Faulted),
        Some(run) => {
            draw(alloc, drawing, &run, out)?;
            Ok(Outcome::Done)
        }
    }
}

/// Draws a run.
fn draw(alloc: Global, drawing: Drawing, run: &Rows, out: &mut Vec<u8>) -> Result<(), AllocError> {
    let places = Places::of(alloc, run.rows.as_slice())?;
    match drawing {
        Drawing::Text => put_lines(alloc, run, &places, out),
        Drawing::Svg => put_picture(alloc, run, &places, out),
    }
}
