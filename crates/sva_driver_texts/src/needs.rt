//! What a line needs so that it is permitted.

ghost use Rattle.std.specs.Prelude.{◌≡◌};
ghost use Rattle.sva_driver_texts.specs.Needs.{need_at, need_named, need_of, need_of_act};

use sva_driver_words::Need;
use sva_open::{Act, LocalAct, Named, Saying};

/// What an act at an endpoint needs.
fn need_at(act: &LocalAct) -> Need
    ensures { result ≡ need_at act.now }
{
    match act {
        LocalAct::SetEntry { .. }
        | LocalAct::Replace { .. }
        | LocalAct::ClearEntry { .. }
        | LocalAct::Start { .. }
        | LocalAct::Stop { .. }
        | LocalAct::Barrier { .. }
        | LocalAct::Reset
        | LocalAct::Resume
        | LocalAct::Turn { .. }
        | LocalAct::Respond { .. }
        | LocalAct::RespondAll { .. }
        | LocalAct::Discard { .. }
        | LocalAct::FreePasid { .. } => Need::Nothing,
        LocalAct::Submit { .. } => Need::Room,
        LocalAct::Close => Need::OpenUnit,
        LocalAct::Reopen => Need::ClosedUnit,
        LocalAct::Skip => Need::Descriptor,
        LocalAct::AwaitWait { .. } => Need::Done,
        LocalAct::AwaitStopped { .. } => Need::Stopped,
        LocalAct::AwaitPassed { .. } => Need::Passed,
        LocalAct::AwaitQueue => Need::EmptyQueue,
        LocalAct::AwaitQueueOf { .. } => Need::NoneQueued,
        LocalAct::AwaitGroups { .. } => Need::Answered,
        LocalAct::AwaitResets => Need::ResetsDone,
        LocalAct::AwaitIdle => Need::Quiet,
        LocalAct::AwaitGone => Need::Gone,
        LocalAct::Serve => Need::Queued,
        LocalAct::Ask { .. } => Need::On,
        LocalAct::Use { .. } => Need::Usable,
        LocalAct::End { .. } => Need::Running,
        LocalAct::Evict { .. } => Need::Held,
        LocalAct::Fault { .. } => Need::Enabled,
        LocalAct::More { .. } => Need::Unfinished,
        LocalAct::Finish { .. } => Need::Covered,
        LocalAct::Pass { .. } => Need::Drained,
        LocalAct::Quit { .. } => Need::Idle,
        LocalAct::Leave => Need::There,
        LocalAct::Pump => Need::Head,
        LocalAct::PumpAt { .. } => Need::Unbarred,
        LocalAct::Expire { .. } => Need::Unanswered,
        LocalAct::Write => Need::Received,
        LocalAct::ForgetEntry { .. } => Need::KeptEntry,
        LocalAct::Forget { .. } => Need::KeptTranslation,
        LocalAct::Deliver { .. } => Need::Deliverable,
    }
}

/// What an act needs. One in memory is always permitted, and so is one that does nothing.
fn need_of_act(act: &Act) -> Need
    ensures { result ≡ need_of_act act.now }
{
    match act {
        Act::At { act, .. } => need_at(act),
        _ => Need::Nothing,
    }
}

/// What it needs that something is done with what a line names.
fn need_named(named: &Named) -> Need
    ensures { result ≡ need_named named.now }
{
    match named {
        Named::Deliver { .. } => Need::Deliverable,
        Named::End { .. } => Need::Running,
        Named::Finish { .. } => Need::Covered,
        Named::Pass { .. } => Need::Drained,
        Named::More { .. } => Need::Unfinished,
        Named::ForgetEntry { .. } => Need::KeptEntry,
        Named::Forget { .. } => Need::KeptTranslation,
    }
}

/// What a line needs. A line above was taken already. One that sets a flag or looks is always permitted.
pub(crate) fn need_of(saying: &Saying) -> Need
    ensures { result ≡ need_of saying.now }
{
    match saying {
        Saying::Does { act } => need_of_act(act),
        Saying::Names { named, .. } => need_named(named),
        Saying::AwaitsLine { .. } | Saying::Sets { .. } | Saying::Looks { .. } => Need::Nothing,
        Saying::AwaitsWaits { .. } => Need::Done,
        Saying::Locks { .. } => Need::FreeLock,
        Saying::Unlocks { .. } => Need::TakenLock,
    }
}
