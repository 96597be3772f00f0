//! The unbinding of a space from an endpoint.

ghost use Rattle.std.specs.Prelude.{◌≡◌, ◌≢◌, Some, Err};
ghost use Rattle.sva_step.specs.declared.refusals.Refusal.TheVariants as refusal;
ghost use Rattle.sva_step.specs.declared.steps.Step.TheVariants as step;
ghost use Rattle.sva_model.specs.Wire.{BindingWire};
ghost use Rattle.sva_model.specs.Wire.StageWire.{LostWire};
ghost use Rattle.sva_labels.specs.Finding.{binding_of};
ghost use Rattle.sva_labels.specs.Sound.{IsSound};
ghost use Rattle.sva_host_state.specs.Steps.{ByLabels};
ghost use Rattle.sva_host_state.specs.Unbinding.{MayUnbind};

use sva_host_state::{Ending, HostState, is_live, is_lost, send, stages};
use sva_msg::Kind;
use sva_step::{Answer, Refusal};

/// What refuses the unbinding: the first cause that holds, if one does. Else how the binding is unbound.
fn may_unbind(host: &HostState, binding: u64) -> Result<Ending, Refusal>
    requires { IsSound host.now }
    ensures { MayUnbind host.now binding result }
{
    let Some(place) = host.bindings.place(binding) else {
        return Err(Refusal::NoSuchBinding);
    };
    if is_lost(&place.stage) {
        return Ok(Ending::AtOnce);
    }
    if !is_live(&place.stage) {
        return Err(Refusal::NotLive);
    }
    if !host.ports[place.endpoint as usize].unit.is_open() {
        return Err(Refusal::Resetting);
    }
    if host.in_flight.left() == 0 {
        return Err(Refusal::NumbersSpent);
    }
    Ok(Ending::ByStop {
        endpoint: place.endpoint,
        pasid: place.pasid,
    })
}

/// Unbinds a space from an endpoint. The endpoint is told to stop the PASID; but where a reset has cut the binding off,
/// nothing is sent, and no memory is taken.
pub fn unbind(host: &mut HostState, binding: u64) -> Result<Answer, Refusal>
    requires { IsSound host.old }
    ensures step { ByLabels host.old (step.Unbind binding) result host.new }
    ensures memory { (b : BindingWire) → binding_of host.old binding ≡ Some b → b.stage ≡ LostWire → result ≢ Err refusal.OutOfMemory }
{
    let Ending::ByStop { endpoint, pasid } = may_unbind(host, binding)? else {
        stages::settle_lost(&mut host.bindings, binding);
        return Ok(Answer::Quiet);
    };
    send(&mut host.in_flight, endpoint, Kind::Stop { pasid }, 1)?;
    stages::stop(&mut host.bindings, binding);
    Ok(Answer::Stopping)
}
