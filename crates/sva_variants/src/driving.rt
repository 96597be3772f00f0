//! The command that asks something of a driver beside its verdict.

ghost use Rattle.std.specs.Prelude.{◌≡◌, ◌⊎◌, ◌≤◌, IfSome, OnOk};
ghost use Rattle.std.specs.Io.KnownBytes.{IsAtEnd};
ghost use Rattle.sva_streams.specs.declared.reading.TheConstants.{MOST_TURNS};
ghost use Rattle.sva_streams.specs.Streams.{IsNew, Tells};
ghost use Rattle.sva_variants.specs.Questions.{TellsVaried};

use crate::asking::{Question, varied_text};
use std::alloc::Global;
use std::io::{Read, Write};
use sva_driver_reports::Ruling;
use sva_search::Watch;
use sva_streams::{DriveFault, Told, read_all, write_all};

/// Reads a driver to its end, and writes what is said of it and of other texts, as `varied_text` has it. After `Write` a
/// prefix of the text was written, after `Read` or `Memory` nothing. The watch is told before that how far each search
/// is.
pub fn vary<R: Read, W: Write, P: Watch>(
    alloc: Global,
    question: Question,
    most: u64,
    reader: &mut Told<R>,
    writer: &mut Told<W>,
    watch: &mut P,
) -> Result<Option<Ruling>, DriveFault>
    requires reader { IsNew reader.old }
    requires writer { IsNew writer.old }
    ensures varied { IfSome (R.remaining reader.old.inner)
        (λ input. TellsVaried question input most (W.contents writer.old.inner) (W.contents writer.new.inner) result) }
    ensures end { OnOk result ((reader.new.failures ≡ 0) × IsAtEnd (R.remaining reader.new.inner) × (writer.new.failures ≡ 0)) }
    ensures read { result ≡ Err DriveFault.Read → (writer.new ≡ writer.old)
        × ((reader.new.failures ≡ 1) ⊎ ((reader.new.failures ≡ 0) × (reader.new.calls ≡ MOST_TURNS))) }
    ensures write { result ≡ Err DriveFault.Write → (reader.new.failures ≡ 0) × (writer.new.failures ≡ 1) }
    ensures memory { result ≡ Err DriveFault.Memory → (reader.new.failures ≡ 0) × (writer.new.failures ≡ 0) }
    ensures turns { reader.new.calls ≤ MOST_TURNS }
{
    let text = read_all(alloc, reader)?;
    tell(alloc, question, most, text.as_slice(), writer, watch)
}

/// Writes what is said of a driver and of other texts.
fn tell<W: Write, P: Watch>(
    alloc: Global,
    question: Question,
    most: u64,
    text: &[u8],
    writer: &mut Told<W>,
    watch: &mut P,
) -> Result<Option<Ruling>, DriveFault>
    requires { IsNew writer.old }
    ensures varied { TellsVaried question text.now most (W.contents writer.old.inner) (W.contents writer.new.inner) result }
    ensures told { Tells writer.old writer.new result }
{
    let mut out = Vec::new(alloc);
    match varied_text(alloc, question, most, text, &mut out, watch) {
        Ok(said) => {
            write_all(writer, out.as_slice())?;
            Ok(said)
        }
        Err(_) => Err(DriveFault::Memory),
    }
}
