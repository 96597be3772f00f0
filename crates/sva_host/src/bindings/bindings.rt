//! The steps of bindings.

ghost use Rattle.std.specs.Prelude.{◌≢◌, Err};
ghost use Rattle.sva_step.specs.declared.refusals.Refusal.TheVariants as refusal;
ghost use Rattle.sva_step.specs.declared.steps.Step.TheVariants as step;
ghost use Rattle.sva_labels.specs.Sound.{IsSound};
ghost use Rattle.sva_host_state.specs.Steps.{ByLabels, MayStep};

use sva_host_state::{HostState, port, send};
use sva_msg::Kind;
use sva_step::{Answer, NUMBERS, PASIDS, Refusal};

/// What refuses a binding of the space to the endpoint: the first cause that holds, if one does.
fn may_bind(host: &HostState, endpoint: u64, space: u64) -> Result<(), Refusal>
    ensures { MayStep host.now (step.Bind endpoint space) result }
{
    let at = port(host, endpoint)?;
    if !host.address_spaces.has_space(space) {
        return Err(Refusal::NoSuchSpace);
    }
    if !host.ports[at].unit.is_open() {
        return Err(Refusal::Resetting);
    }
    if host.bindings.place_between(endpoint, space).is_some() {
        return Err(Refusal::AlreadyBound);
    }
    if host.bindings.lowest(space).is_none() {
        return Err(Refusal::NoPasid);
    }
    if host.next_binding >= NUMBERS {
        return Err(Refusal::NumbersSpent);
    }
    if host.in_flight.left() == 0 {
        return Err(Refusal::NumbersSpent);
    }
    Ok(())
}

/// Binds a space to an endpoint, under the PASID that it bears or the lowest that is free, and tells the endpoint to
/// start it.
pub fn bind(host: &mut HostState, endpoint: u64, space: u64) -> Result<Answer, Refusal>
    requires { IsSound host.old }
    ensures { ByLabels host.old (step.Bind endpoint space) result host.new }
{
    may_bind(host, endpoint, space)?;
    let binding = host.next_binding;
    let Ok(pasid) = host.bindings.begin(endpoint, space, binding) else {
        return Err(Refusal::OutOfMemory);
    };
    if send(&mut host.in_flight, endpoint, Kind::Start { pasid }, 1).is_err() {
        host.bindings.take_back(binding);
        return Err(Refusal::OutOfMemory);
    }
    host.next_binding += 1;
    Ok(Answer::Binding { binding, pasid })
}

/// Which space bears a PASID, and how many bindings are under it. `BadPasid` where it is not 1 to 32.
pub fn bearer(host: &HostState, pasid: u64) -> Result<Answer, Refusal>
    requires { IsSound host.now }
    ensures step { ByLabels host.now (step.Bearer pasid) result host.now }
    ensures memory { result ≢ Err refusal.OutOfMemory }
{
    if pasid == 0 {
        return Err(Refusal::BadPasid);
    }
    if pasid > u64::from(PASIDS) {
        return Err(Refusal::BadPasid);
    }
    match host.bindings.bearer(pasid as u32) {
        None => Ok(Answer::NoBearer),
        Some(bearer) => Ok(Answer::Bearer {
            space: bearer.space,
            bindings: bearer.bindings as u32,
        }),
    }
}
