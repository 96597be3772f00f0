//! The commands that read a script to its end before they say anything.

ghost use Rattle.std.specs.Prelude.{◌≡◌, ◌⊎◌, ◌<◌, ◌≤◌, [], IfSome, OnOk};
ghost use Rattle.std.specs.Io.KnownBytes.{IsAtEnd};
ghost use Rattle.sva_streams.specs.declared.reading.TheConstants.{MOST_TURNS};
ghost use Rattle.sva_streams.specs.Streams.{IsNew, Tells};
ghost use Rattle.sva_script_reading.specs.Said.{Prints};
ghost use Rattle.sva_script_reports.specs.Prints.{said_of};
ghost use Rattle.sva_script_reading.specs.Said.{IsSaid};

use crate::plain_lines::plain;
use crate::showing::show;
use crate::testing::test;
use crate::whying::why;
use std::alloc::{AllocError, Global};
use std::io::{Read, Write};
use sva_snapshot::Explains;
use sva_streams::{DriveFault, Outcome, Told, read_all, write_all};

/// What is said of a script.
#[derive(Clone, Copy, PartialEq, Eq)]
pub enum Saying {
    /// The scenario that it stands for.
    Plain,
    /// Whether its answers are as expected.
    Test,
    /// What the host keeps behind its last line.
    Show,
    /// What holds its steps back that were refused, blocked or withheld.
    Why,
}

/// Reads a script to its end, and writes what is said of it. `Faulted` tells that a line is wrong, the config out of its
/// limits, or an answer not as expected. After `Write` or `Memory` a prefix of the text was written, after `Read` nothing.
pub fn print<E: Explains, R: Read, W: Write>(
    alloc: Global,
    saying: Saying,
    reader: &mut Told<R>,
    writer: &mut Told<W>,
) -> Result<Outcome, DriveFault>
    requires reader { IsNew reader.old }
    requires writer { IsNew writer.old }
    ensures printed { IfSome (R.remaining reader.old.inner)
        (λ input. Prints (said_of E.explained saying input) (W.contents writer.old.inner) (W.contents writer.new.inner) result) }
    ensures end { OnOk result ((reader.new.failures ≡ 0) × IsAtEnd (R.remaining reader.new.inner) × (writer.new.failures ≡ 0)) }
    ensures read { result ≡ Err DriveFault.Read → (writer.new ≡ writer.old)
        × ((reader.new.failures ≡ 1) ⊎ ((reader.new.failures ≡ 0) × (reader.new.calls ≡ MOST_TURNS))) }
    ensures write { result ≡ Err DriveFault.Write → (reader.new.failures ≡ 0) × (writer.new.failures ≡ 1) }
    ensures memory { result ≡ Err DriveFault.Memory → (reader.new.failures ≡ 0) × (writer.new.failures ≡ 0) }
    ensures whole { result ≡ Err DriveFault.Write → IsAtEnd (R.remaining reader.new.inner) }
    ensures asked { 0 < reader.new.calls }
    ensures turns { reader.new.calls ≤ MOST_TURNS }
{
    let text = read_all(alloc, reader)?;
    print_text::<E, W>(alloc, saying, text.as_slice(), writer)
}

/// Writes what is said of a script.
fn print_text<E: Explains, W: Write>(
    alloc: Global,
    saying: Saying,
    text: &[u8],
    writer: &mut Told<W>,
) -> Result<Outcome, DriveFault>
    requires { IsNew writer.old }
    ensures printed { Prints (said_of E.explained saying text.now) (W.contents writer.old.inner) (W.contents writer.new.inner) result }
    ensures told { Tells writer.old writer.new result }
{
    let mut out = Vec::new(alloc);
    match say::<E>(alloc, saying, text, &mut out) {
        Ok(outcome) => {
            write_all(writer, out.as_slice())?;
            Ok(outcome)
        }
        Err(_) => Err(DriveFault::Memory),
    }
}

/// Appends what is said of a script.
fn say<E: Explains>(
    alloc: Global,
    saying: Saying,
    text: &[u8],
    out: &mut Vec<u8>,
) -> Result<Outcome, AllocError>
    requires { out.old.items ≡ [] }
    ensures { IsSaid (said_of E.explained saying text.now) out.new.items result }
{
    match saying {
        Saying::Plain => plain(alloc, text, out),
        Saying::Test => test::<E>(alloc, text, out),
        Saying::Show => show(alloc, text, out),
        Saying::Why => why::<E>(alloc, text, out),
    }
}
