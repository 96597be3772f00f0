//! Completions of invalidations, as they arrive (PCI Express Base 5.0, section 10.3.2).

ghost use Rattle.std.specs.Prelude.{◌≢◌, Err};
ghost use Rattle.sva_step.specs.declared.refusals.Refusal.TheVariants as refusal;
ghost use Rattle.sva_step.specs.declared.steps.Step.TheVariants as step;
ghost use Rattle.sva_labels.specs.Sound.{IsSound};
ghost use Rattle.sva_msg.specs.declared.messages.Kind.TheVariants as kind;
ghost use Rattle.sva_host_state.specs.Arriving.{IsArriving, StandsAt};
ghost use Rattle.sva_host_state.specs.Steps.{ByLabels};

use sva_host_state::HostState;
use sva_itags::Count;
use sva_msg::{CountField, Flight};
use sva_step::{Answer, Refusal};

/// Completions arrive of the invalidations that this vector names, bit T for ITag T, and are counted at the unit of their
/// endpoint; at a unit in reset they are dropped.
pub(crate) fn invalidated_arrives(
    host: &mut HostState,
    flight: &Flight,
    vector: u32,
    count: CountField,
) -> Result<Answer, Refusal>
    requires sound { IsSound host.old }
    requires arriving { IsArriving host.old flight.now.number flight.now.message.endpoint (kind.Invalidated vector count) }
    requires there { StandsAt host.old flight.now }
    ensures step { ByLabels host.old (step.Deliver flight.now.number) result host.new }
    ensures memory { result ≢ Err refusal.OutOfMemory }
{
    host.in_flight.deliver_found(flight);
    let at = flight.message.endpoint as usize;
    if !host.ports[at].unit.is_open() {
        return Ok(Answer::Dropped);
    }
    let freed = host.ports[at]
        .unit
        .complete(vector, Count::from_field(count.get()));
    Ok(Answer::Freed { count: freed as u8 })
}
