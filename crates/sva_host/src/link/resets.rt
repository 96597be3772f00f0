//! Resets of endpoints (a function level reset, PCI Express Base 5.0, section 6.6.2).

ghost use Rattle.std.specs.Prelude.{◌≢◌, Err};
ghost use Rattle.sva_step.specs.declared.refusals.Refusal.TheVariants as refusal;
ghost use Rattle.sva_step.specs.declared.steps.Step.TheVariants as step;
ghost use Rattle.sva_labels.specs.Sound.{IsSound};
ghost use Rattle.sva_host_state.specs.Arriving.{IsArriving, StandsAt};
ghost use Rattle.sva_host_state.specs.Steps.{ByLabels};

use sva_host_state::{HostState, port, send};
use sva_msg::{Flight, Kind, Message};
use sva_step::{Answer, Refusal};

/// Begins a function level reset of an endpoint: the queues of its unit are emptied, the unit isn't open until the endpoint
/// has said that the reset is done, and the endpoint is told by a Reset. `NoSuchEndpoint` where the endpoint isn't there,
/// `Resetting` where its unit is in reset already, `NumbersSpent` where no number is left for the Reset, and `OutOfMemory`
/// where a growth is refused.
pub fn reset(host: &mut HostState, endpoint: u64) -> Result<Answer, Refusal>
    ensures { ByLabels host.old (step.Reset endpoint) result host.new }
{
    let at = port(host, endpoint)?;
    if !host.ports[at].unit.is_open() {
        return Err(Refusal::Resetting);
    }
    send(&mut host.in_flight, endpoint, Kind::Reset, 1)?;
    host.ports[at].unit.reset();
    Ok(Answer::Resetting)
}

/// A Reset arrives at its endpoint, which keeps nothing but the slots of its uses, and says that the reset is done.
/// `NumbersSpent` where no number is left for that message, and `OutOfMemory` where a growth is refused.
pub(crate) fn reset_arrives(host: &mut HostState, flight: &Flight) -> Result<Answer, Refusal>
    requires sound { IsSound host.old }
    requires arriving { IsArriving host.old flight.now.number flight.now.message.endpoint Kind.Reset }
    requires there { StandsAt host.old flight.now }
    ensures { ByLabels host.old (step.Deliver flight.now.number) result host.new }
{
    let endpoint = flight.message.endpoint;
    send(&mut host.in_flight, endpoint, Kind::ResetDone, 1)?;
    host.in_flight.deliver_found(flight);
    let at = endpoint as usize;
    let received = host.ports[at].device.receive(Message {
        endpoint,
        kind: Kind::Reset,
    });
    Ok(received.answer)
}

/// An endpoint has said that its reset is done: its unit is open, its bindings are cut off, and no frame waits for it.
pub(crate) fn reset_done_arrives(host: &mut HostState, flight: &Flight) -> Result<Answer, Refusal>
    requires sound { IsSound host.old }
    requires arriving { IsArriving host.old flight.now.number flight.now.message.endpoint Kind.ResetDone }
    requires there { StandsAt host.old flight.now }
    ensures step { ByLabels host.old (step.Deliver flight.now.number) result host.new }
    ensures memory { result ≢ Err refusal.OutOfMemory }
{
    let endpoint = flight.message.endpoint;
    host.in_flight.deliver_found(flight);
    let at = endpoint as usize;
    host.ports[at].unit.reopen();
    host.bindings.by_reset(endpoint);
    host.address_spaces.settle_all(endpoint);
    Ok(Answer::ResetDone)
}
