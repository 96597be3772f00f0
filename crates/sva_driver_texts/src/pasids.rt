//! How many PASIDs an endpoint has to have, by the lines that were read.

ghost use Rattle.std.specs.Prelude.{◌≡◌, map};
ghost use Rattle.sva_driver_words.specs.Awaits.{line_seen};
ghost use Rattle.sva_driver_words.specs.Sayings.{saying_seen};
ghost use Rattle.sva_driver_texts.specs.Pasids as seen;

use sva_driver_words::LineRead;
use sva_open::{Act, Condition, LocalAct, Saying};

/// No PASID is as high: they are 0 to 32.
const PASIDS_END: usize = 33;

fn or_zero(pasid: Option<usize>) -> usize
    ensures { result ≡ seen.or_zero pasid }
{
    match pasid {
        None => 0,
        Some(pasid) => pasid,
    }
}

/// The PASID that an act at an endpoint is of, or 0 if it is of none: there is a PASID 0 in any case.
fn pasid_of(act: &LocalAct) -> usize
    ensures { result ≡ seen.pasid_of act.now }
{
    match act {
        LocalAct::SetEntry { pasid, .. } => *pasid,
        LocalAct::Replace { pasid, .. } => *pasid,
        LocalAct::ClearEntry { pasid } => *pasid,
        LocalAct::Start { pasid } => *pasid,
        LocalAct::Stop { pasid } => *pasid,
        LocalAct::Barrier { barrier } => barrier.pasid,
        LocalAct::AwaitStopped { pasid } => *pasid,
        LocalAct::AwaitPassed { pasid, .. } => *pasid,
        LocalAct::AwaitQueueOf { pasid } => *pasid,
        LocalAct::AwaitGroups { pasid } => or_zero(*pasid),
        LocalAct::Respond { pasid, .. } => *pasid,
        LocalAct::RespondAll { pasid, .. } => or_zero(*pasid),
        LocalAct::Discard { pasid } => or_zero(*pasid),
        LocalAct::FreePasid { pasid } => *pasid,
        LocalAct::Ask { pasid, .. } => *pasid,
        LocalAct::Use { pasid, .. } => *pasid,
        LocalAct::Evict { pasid, .. } => *pasid,
        LocalAct::Fault { pasid, .. } => *pasid,
        LocalAct::Quit { pasid } => *pasid,
        LocalAct::Reset
        | LocalAct::Submit { .. }
        | LocalAct::Close
        | LocalAct::Reopen
        | LocalAct::Skip
        | LocalAct::Resume
        | LocalAct::AwaitWait { .. }
        | LocalAct::AwaitQueue
        | LocalAct::AwaitResets
        | LocalAct::Turn { .. }
        | LocalAct::AwaitIdle
        | LocalAct::AwaitGone
        | LocalAct::Serve
        | LocalAct::End { .. }
        | LocalAct::More { .. }
        | LocalAct::Finish { .. }
        | LocalAct::Pass { .. }
        | LocalAct::Leave
        | LocalAct::Pump
        | LocalAct::PumpAt { .. }
        | LocalAct::Expire { .. }
        | LocalAct::Write
        | LocalAct::ForgetEntry { .. }
        | LocalAct::Forget { .. }
        | LocalAct::Deliver { .. } => 0,
    }
}

/// The same of what a line looks at.
fn pasid_looked_at(condition: Condition) -> usize
    ensures { result ≡ seen.pasid_looked_at condition }
{
    match condition {
        Condition::Flag { .. } | Condition::Gone { .. } => 0,
        Condition::Overflowed { .. } | Condition::Failed { .. } => 0,
        Condition::Present { pasid, .. } => pasid,
        Condition::Stopped { pasid, .. } => pasid,
        Condition::Filed { pasid, .. } => or_zero(pasid),
        Condition::Queued { pasid, .. } => or_zero(pasid),
    }
}

/// The same of what a line says.
fn pasid_at(saying: &Saying) -> usize
    ensures { result ≡ seen.pasid_at (saying_seen saying.now) }
{
    match saying {
        Saying::Does { act } => match act {
            Act::At { act, .. } => pasid_of(act),
            Act::Mark
            | Act::SetPage { .. }
            | Act::ClearPage { .. }
            | Act::FreeFrame { .. }
            | Act::Freeze { .. }
            | Act::FreeSpace { .. }
            | Act::FreeDomain { .. } => 0,
        },
        Saying::Names { .. }
        | Saying::AwaitsLine { .. }
        | Saying::AwaitsWaits { .. }
        | Saying::Locks { .. }
        | Saying::Unlocks { .. }
        | Saying::Sets { .. } => 0,
        Saying::Looks { condition, .. } => pasid_looked_at(*condition),
    }
}

/// The higher one of two.
fn higher(one: usize, other: usize) -> usize
    ensures { result ≡ seen.higher one other }
{
    if one < other { other } else { one }
}

/// The highest PASID that a line names.
fn highest_pasid(lines: &[LineRead]) -> usize
    ensures { result ≡ seen.highest_by 0 (map line_seen lines.now) }
{
    let mut highest = 0;
    for line in lines {
        highest = higher(highest, pasid_at(&line.saying));
    }
    highest
}

/// The PASIDs of an endpoint are below this: one more than the highest that a line names.
pub(crate) fn pasids_of(lines: &[LineRead]) -> usize
    ensures { result ≡ seen.pasids_of (map line_seen lines.now) }
{
    let highest = highest_pasid(lines);
    if highest < PASIDS_END {
        highest + 1
    } else {
        PASIDS_END
    }
}
