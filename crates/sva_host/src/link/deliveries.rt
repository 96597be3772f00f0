//! Deliveries of messages.

ghost use Rattle.std.specs.Prelude.{◌≡◌, ◌≢◌, false, Ok, Err};
ghost use Rattle.sva_step.specs.declared.refusals.Refusal.TheVariants as refusal;
ghost use Rattle.sva_step.specs.declared.steps.Step.TheVariants as step;
ghost use Rattle.sva_labels.specs.Finding.{flight_of};
ghost use Rattle.sva_labels.specs.Sound.{IsSound};
ghost use Rattle.sva_host_state.specs.Flights.{kind_seen};
ghost use Rattle.sva_host_state.specs.Arriving.{IsArriving, StandsAt, answers};
ghost use Rattle.sva_host_state.specs.Steps.{ByLabels, IsDown};

use crate::link::completions::invalidated_arrives;
use crate::link::markers::marker_arrives;
use crate::link::page_requests::page_request_arrives;
use crate::link::requests::request_arrives;
use crate::link::resets::{reset_arrives, reset_done_arrives};
use sva_host_state::HostState;
use sva_msg::{Flight, Kind};
use sva_step::{Answer, Refusal};

/// Delivers the message of this number. `NoSuchMessage` where none is in flight under it, and `Overtakes` where an older
/// one of its endpoint holds it back. A Reset and, at an open unit, a Translation Request are answered by a message:
/// `NumbersSpent` where no number is left for that, and `OutOfMemory` where a growth is refused.
pub fn deliver(host: &mut HostState, message: u64) -> Result<Answer, Refusal>
    requires { IsSound host.old }
    ensures step { ByLabels host.old (step.Deliver message) result host.new }
    ensures memory { answers host.old (flight_of host.old message) ≡ false → result ≢ Err refusal.OutOfMemory }
{
    let Some(flight) = host.in_flight.find(message) else {
        return Err(Refusal::NoSuchMessage);
    };
    if !host.in_flight.may_deliver_found(&flight) {
        return Err(Refusal::Overtakes);
    }
    match &flight.message.kind {
        Kind::Reset => reset_arrives(host, &flight),
        Kind::Request { tag, pasid, page } => request_arrives(host, &flight, *tag, *pasid, *page),
        Kind::Invalidated { vector, count } => invalidated_arrives(host, &flight, *vector, *count),
        Kind::PageRequest(request) => page_request_arrives(host, &flight, *request),
        Kind::Marker { pasid } => marker_arrives(host, &flight, *pasid),
        Kind::ResetDone => reset_done_arrives(host, &flight),
        Kind::Start { .. }
        | Kind::Stop { .. }
        | Kind::Completion { .. }
        | Kind::Invalidate { .. }
        | Kind::Response { .. } => Ok(goes_down(host, &flight)),
    }
}

/// An endpoint gets a message of its host that is no Reset.
fn goes_down(host: &mut HostState, flight: &Flight) -> Answer
    requires sound { IsSound host.old }
    requires arriving { IsArriving host.old flight.now.number flight.now.message.endpoint flight.now.message.kind }
    requires there { StandsAt host.old flight.now }
    requires down { IsDown (kind_seen flight.now.message.kind) }
    ensures { ByLabels host.old (step.Deliver flight.now.number) (Ok result) host.new }
{
    let sent = flight.message;
    let at = sent.endpoint as usize;
    host.in_flight.deliver_found(flight);
    let received = host.ports[at].device.receive(sent);
    received.answer
}
