//! Stop Markers (PCI Express Base 5.0, section 10.4.1).

ghost use Rattle.std.specs.Prelude.{◌≢◌, Err};
ghost use Rattle.sva_step.specs.declared.refusals.Refusal.TheVariants as refusal;
ghost use Rattle.sva_step.specs.declared.steps.Step.TheVariants as step;
ghost use Rattle.sva_labels.specs.Sound.{IsSound};
ghost use Rattle.sva_host_state.specs.Arriving.{IsArriving, StandsAt};
ghost use Rattle.sva_host_state.specs.Steps.{ByLabels};

use sva_host_state::{HostState, stages};
use sva_msg::{Flight, Kind};
use sva_step::{Answer, Refusal};

/// A Stop Marker arrives at the unit of its endpoint: it is noted of the binding that bears the PASID there, which waits for
/// it. At a unit in reset it is dropped.
pub(crate) fn marker_arrives(
    host: &mut HostState,
    flight: &Flight,
    pasid: u32,
) -> Result<Answer, Refusal>
    requires sound { IsSound host.old }
    requires arriving { IsArriving host.old flight.now.number flight.now.message.endpoint (Kind.Marker pasid) }
    requires there { StandsAt host.old flight.now }
    ensures step { ByLabels host.old (step.Deliver flight.now.number) result host.new }
    ensures memory { result ≢ Err refusal.OutOfMemory }
{
    host.in_flight.deliver_found(flight);
    let endpoint = flight.message.endpoint;
    if !host.ports[endpoint as usize].unit.is_open() {
        return Ok(Answer::Dropped);
    }
    let Some(place) = host.bindings.place_under(endpoint, pasid) else {
        unreachable!();
    };
    let binding = place.binding;
    stages::mark(&mut host.bindings, binding);
    Ok(Answer::Marked)
}
