//! What a call leaves in its caller's hands.

ghost use Rattle.std.specs.Prelude.{◌≡◌};
ghost use Rattle.sva_c.specs.Buffers.{IsHandedOver, status_of};
ghost use Rattle.sva_c.specs.Searches.{explored_status, nearest, ruled_status};

use crate::statuses::{CUT_OFF, DONE, FAILS, FAULTED, NO_MEMORY, TOO_SMALL};
use sva_driver_reports::{Ruling, Wanted};
use sva_race_reports::Judged;
use sva_streams::Outcome;

/// Puts as much of a report into a buffer as fits, and tells how long it is. The status is `ended`, that of the run, or
/// `TOO_SMALL` where the report doesn't fit.
pub(crate) fn hand_over(said: &[u8], ended: u32, report: &mut [u8], needed: &mut usize) -> u32
    ensures { IsHandedOver said.now ended report.old report.new needed.new result }
{
    *needed = said.len();
    let count = report.len().min(said.len());
    report[..count].copy_from_slice(&said[..count]);
    if count < said.len() { TOO_SMALL } else { ended }
}

/// Tells that memory ran out.
pub(crate) fn lack(needed: &mut usize) -> u32
    ensures length { needed.new ≡ 0 }
    ensures status { result ≡ NO_MEMORY }
{
    *needed = 0;
    NO_MEMORY
}

/// How a run of steps is told.
pub(crate) fn status_of(outcome: Outcome) -> u32
    ensures { result ≡ status_of outcome }
{
    match outcome {
        Outcome::Done => DONE,
        Outcome::Faulted => FAULTED,
    }
}

/// That of a driver a nearest finding is wanted, with its witness.
pub(crate) fn nearest(most: u64) -> Wanted
    ensures { result ≡ nearest most }
{
    Wanted {
        most,
        all: false,
        lines_alone: false,
    }
}

/// How it is told what is said of a driver.
pub(crate) fn ruled_status(said: Option<Ruling>) -> u32
    ensures { result ≡ ruled_status said }
{
    match said {
        None => FAULTED,
        Some(Ruling::Safe | Ruling::Untried | Ruling::Right) => DONE,
        Some(Ruling::Unsafe | Ruling::UnsafeSoFar | Ruling::Stuck) => FAILS,
        Some(Ruling::CutOff) => CUT_OFF,
    }
}

/// How it is told what is said of all claims of a race together.
pub(crate) fn explored_status(judged: Option<Judged>) -> u32
    ensures { result ≡ explored_status judged }
{
    match judged {
        None => FAULTED,
        Some(Judged::Holds) => DONE,
        Some(Judged::Fails) => FAILS,
        Some(Judged::Unknown) => CUT_OFF,
    }
}
