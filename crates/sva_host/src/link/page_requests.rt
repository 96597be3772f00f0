//! Page requests, as they arrive (PCI Express Base 5.0, section 10.4.1).

ghost use Rattle.std.specs.Prelude.{◌≢◌, Err};
ghost use Rattle.sva_step.specs.declared.refusals.Refusal.TheVariants as refusal;
ghost use Rattle.sva_step.specs.declared.steps.Step.TheVariants as step;
ghost use Rattle.sva_labels.specs.Sound.{IsSound};
ghost use Rattle.sva_host_state.specs.Arriving.{IsArriving, StandsAt};
ghost use Rattle.sva_host_state.specs.Steps.{ByLabels};

use sva_host_state::HostState;
use sva_msg::{Flight, Kind, PageRequest};
use sva_step::{Answer, Refusal};

/// A page request arrives at the unit of its endpoint, behind those that wait there; at a unit in reset it is dropped.
pub(crate) fn page_request_arrives(
    host: &mut HostState,
    flight: &Flight,
    request: PageRequest,
) -> Result<Answer, Refusal>
    requires sound { IsSound host.old }
    requires arriving { IsArriving host.old flight.now.number flight.now.message.endpoint (Kind.PageRequest request) }
    requires there { StandsAt host.old flight.now }
    ensures step { ByLabels host.old (step.Deliver flight.now.number) result host.new }
    ensures memory { result ≢ Err refusal.OutOfMemory }
{
    host.in_flight.deliver_found(flight);
    let at = flight.message.endpoint as usize;
    if !host.ports[at].unit.is_open() {
        return Ok(Answer::Dropped);
    }
    host.ports[at].unit.arrive(request);
    Ok(Answer::Queued)
}
