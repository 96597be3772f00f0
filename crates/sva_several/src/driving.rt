//! Several texts that are searched, and what is written of them.

ghost use Rattle.std.specs.Prelude.{◌≡◌, IfOk};
ghost use Rattle.sva_streams.specs.Streams.{IsNew, Tells};
ghost use Rattle.sva_several.specs.Told.{IsReport, TellsAll};

use crate::given::Given;
use crate::metering::Meter;
use crate::reporting::report;
use crate::searching::{Said, Search};
use crate::verdicts::status_of;
use crate::working::search_all;
use std::alloc::{AllocError, Global};
use std::io::Write;
use std::thread::Threads;
use sva_streams::{DriveFault, Told, write_all};

/// What is wanted of several texts.
#[derive(Clone, Copy, PartialEq, Eq)]
pub struct Wanted {
    /// What is done with each.
    pub search: Search,
    /// How many are searched at once at most. 0 is as 1.
    pub jobs: u64,
    /// Whether they are a part of a list.
    pub is_part: bool,
}

/// The report of files that were searched, and the status.
fn report_all<X: Threads + Sync, M: Meter>(
    rt: &X,
    alloc: Global,
    wanted: Wanted,
    names: &[String],
    texts: &[Given],
    meter: &M,
) -> Result<(Vec<u8>, u8), AllocError>
    ensures { IfOk result (λ made. IsReport wanted names.now texts.now made.0.items made.1) }
{
    let search = wanted.search;
    let found = search_all(rt, alloc, search, wanted.jobs, texts, meter);
    meter.end();
    let all = found?;
    let out = report(alloc, search, wanted.is_part, names, texts, all.as_slice())?;
    Ok((out, status_of(search, all.as_slice())))
}

/// Searches the texts of files, some at once, and writes of each, behind the name of its file, what is said of it, or why it
/// can't be read; and last, unless they are a part of a list, how many there are of each verdict. The status is given. How
/// many are searched at once says nothing else of them. After `Write` a prefix of that was written, after `Memory` nothing.
pub fn tell_all<X: Threads + Sync, W: Write, M: Meter>(
    rt: &X,
    alloc: Global,
    wanted: Wanted,
    names: &[String],
    texts: &[Given],
    writer: &mut Told<W>,
    meter: &M,
) -> Result<u8, DriveFault>
    requires { IsNew writer.old }
    ensures told { TellsAll wanted names.now texts.now (W.contents writer.old.inner) (W.contents writer.new.inner) result }
    ensures tells { Tells writer.old writer.new result }
{
    match report_all(rt, alloc, wanted, names, texts, meter) {
        Ok((out, status)) => match write_all(writer, out.as_slice()) {
            Ok(()) => Ok(status),
            Err(fault) => Err(fault),
        },
        Err(_) => Err(DriveFault::Memory),
    }
}
