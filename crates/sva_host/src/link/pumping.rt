//! The step of a unit.

ghost use Rattle.std.specs.Prelude.{◌≡◌, ◌≢◌, false, Ok, Err};
ghost use Rattle.sva_step.specs.declared.answers.Answer.TheVariants as answer;
ghost use Rattle.sva_step.specs.declared.refusals.Refusal.TheVariants as refusal;
ghost use Rattle.sva_step.specs.declared.steps.Step.TheVariants as step;
ghost use Rattle.sva_labels.specs.Finding.{unit_of};
ghost use Rattle.sva_labels.specs.Causes.{sends_invalidate};
ghost use Rattle.sva_host_state.specs.Heads.{IsHead};
ghost use Rattle.sva_host_state.specs.Steps.{ByLabels};

use sva_host_state::{HostState, port, send};
use sva_iommu::{Next, Sending};
use sva_step::{Answer, Refusal};

/// The invalidation at the head of a unit's queue goes to the endpoint.
fn send_head(host: &mut HostState, at: usize, sending: Sending) -> Result<Answer, Refusal>
    requires { IsHead host.old at (Next.Send sending) }
    ensures { ByLabels host.old (step.Pump at) result host.new }
{
    let head = sending;
    let itag = sending.itag;
    send(&mut host.in_flight, at as u64, sending.message(), 1)?;
    host.ports[at].unit.send(head);
    Ok(Answer::Itag { itag })
}

/// The wait at the head of a unit's queue is done. A frame that waits for nothing else is free.
fn pass_head(host: &mut HostState, at: usize, cookie: u64)
    requires { IsHead host.old at (Next.Pass cookie) }
    ensures { ByLabels host.old (step.Pump at) (Ok answer.WaitDone) host.new }
{
    host.ports[at].unit.pass(cookie);
    host.address_spaces.settle(at as u64, cookie);
}

/// The unit of an endpoint goes on with the head of its invalidation queue: an invalidation goes to the endpoint under
/// the lowest ITag that is free, and stays where none is; a wait is done where no ITag is busy and, with its drain flag,
/// no page request waits, else it stays. A frame that waits for this wait alone is free then. `NoSuchEndpoint` where the
/// endpoint isn't there, `Resetting` where its unit is in reset, and where an invalidation is to be sent `NumbersSpent`
/// where no number is left for it, and `OutOfMemory` where a growth is refused.
pub fn pump(host: &mut HostState, endpoint: u64) -> Result<Answer, Refusal>
    ensures step { ByLabels host.old (step.Pump endpoint) result host.new }
    ensures memory { sends_invalidate (unit_of host.old endpoint) ≡ false → result ≢ Err refusal.OutOfMemory }
{
    let at = port(host, endpoint)?;
    if !host.ports[at].unit.is_open() {
        return Err(Refusal::Resetting);
    }
    match host.ports[at].unit.next() {
        Next::Idle => Ok(Answer::Idle),
        Next::Blocked => Ok(Answer::Blocked),
        Next::Send(sending) => send_head(host, at, sending),
        Next::Pass(cookie) => {
            pass_head(host, at, cookie);
            Ok(Answer::WaitDone)
        }
    }
}
