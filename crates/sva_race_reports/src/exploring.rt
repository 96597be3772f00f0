//! The command that explores a race.

ghost use Rattle.std.specs.Prelude.{◌≡◌, ◌⊎◌, ◌<◌, ◌≤◌, IfSome, OnOk};
ghost use Rattle.std.specs.Io.KnownBytes.{IsAtEnd};
ghost use Rattle.sva_streams.specs.declared.reading.TheConstants.{MOST_TURNS};
ghost use Rattle.sva_streams.specs.Streams.{IsNew, Tells};
ghost use Rattle.sva_race_reports.specs.Explored.{Explores};

use crate::judging::Judged;
use crate::searching::{Wanted, explore_text};
use std::alloc::Global;
use std::io::{Read, Write};
use sva_search::Watch;
use sva_snapshot::Explains;
use sva_streams::{DriveFault, Told, read_all, write_all};

/// Reads a race to its end, and writes what comes of exploring it, as `explore_text` has it. After `Write` a prefix of the
/// text was written, after `Read` or `Memory` nothing. The watch is told before that how far the search is.
pub fn explore<E: Explains, R: Read, W: Write, P: Watch>(
    alloc: Global,
    wanted: Wanted,
    reader: &mut Told<R>,
    writer: &mut Told<W>,
    watch: &mut P,
) -> Result<Option<Judged>, DriveFault>
    requires reader { IsNew reader.old }
    requires writer { IsNew writer.old }
    ensures explored { IfSome (R.remaining reader.old.inner)
        (λ input. Explores E.explained input wanted (W.contents writer.old.inner) (W.contents writer.new.inner) result) }
    ensures end { OnOk result ((reader.new.failures ≡ 0) × IsAtEnd (R.remaining reader.new.inner) × (writer.new.failures ≡ 0)) }
    ensures read { result ≡ Err DriveFault.Read → (writer.new ≡ writer.old)
        × ((reader.new.failures ≡ 1) ⊎ ((reader.new.failures ≡ 0) × (reader.new.calls ≡ MOST_TURNS))) }
    ensures write { result ≡ Err DriveFault.Write → (reader.new.failures ≡ 0) × (writer.new.failures ≡ 1) }
    ensures memory { result ≡ Err DriveFault.Memory → (reader.new.failures ≡ 0) × (writer.new.failures ≡ 0) }
    ensures turns { reader.new.calls ≤ MOST_TURNS }
{
    let text = read_all(alloc, reader)?;
    tell::<E, W, P>(alloc, wanted, text.as_slice(), writer, watch)
}

/// Writes what comes of exploring a race.
fn tell<E: Explains, W: Write, P: Watch>(
    alloc: Global,
    wanted: Wanted,
    text: &[u8],
    writer: &mut Told<W>,
    watch: &mut P,
) -> Result<Option<Judged>, DriveFault>
    requires { IsNew writer.old }
    ensures explored { Explores E.explained text.now wanted (W.contents writer.old.inner) (W.contents writer.new.inner) result }
    ensures told { Tells writer.old writer.new result }
{
    let mut out = Vec::new(alloc);
    match explore_text::<E, P>(alloc, wanted, text, &mut out, watch) {
        Ok(judged) => {
            write_all(writer, out.as_slice())?;
            Ok(judged)
        }
        Err(_) => Err(DriveFault::Memory),
    }
}
