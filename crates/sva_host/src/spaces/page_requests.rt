//! Page requests (PCI Express Base 5.0, section 10.4.1) that wait at the units.

ghost use Rattle.std.specs.Prelude.{◌≡◌, ◌<◌, drop, length, option_map, slice_get};
ghost use Rattle.sva_step.specs.declared.steps.Step.TheVariants as step;
ghost use Rattle.sva_model.specs.Wire.{BindingWire};
ghost use Rattle.sva_labels.specs.Finding.{bearer, part_of};
ghost use Rattle.sva_labels.specs.Moves.{with_part};
ghost use Rattle.sva_msg.specs.Seen.{page_request_seen};
ghost use Rattle.sva_host_state.specs.Steps.{MayStep};

use sva_host_state::{HostState, port};
use sva_msg::PageRequest;
use sva_step::Refusal;

/// What refuses that a page request is filed: `NoSuchEndpoint` where the endpoint isn't there, `Resetting` where its unit is
/// in reset.
pub fn may_serve(host: &HostState, endpoint: u64) -> Result<(), Refusal>
    ensures { MayStep host.now (step.Serve endpoint) result }
{
    let at = port(host, endpoint)?;
    if host.ports[at].unit.is_open() {
        Ok(())
    } else {
        Err(Refusal::Resetting)
    }
}

/// The number of the binding that bears a PASID at an endpoint, below 2^63; `None` where none bears it there.
pub fn bearer_at(host: &HostState, endpoint: u64, pasid: u32) -> Option<u64>
    ensures { result ≡ option_map (λ (b : BindingWire). b.binding) (bearer host.now endpoint pasid) }
{
    match host.bindings.place_under(endpoint, pasid) {
        Some(place) => Some(place.binding),
        None => None,
    }
}

/// The oldest page request that waits at the unit of this endpoint, which is there; `None` where none waits.
pub fn first_request(host: &HostState, endpoint: u64) -> Option<PageRequest>
    requires { endpoint < length host.now.parts }
    ensures { option_map page_request_seen result ≡ slice_get (part_of host.now endpoint).page_queue 0 }
{
    host.ports[endpoint as usize].unit.first_request()
}

/// Takes out the oldest page request that waits at the unit of this endpoint, which is there. Nothing changes where none
/// waits.
pub fn take_request(host: &mut HostState, endpoint: u64)
    requires { endpoint < length host.old.parts }
    ensures { host.new ≡ with_part host.old endpoint (record (part_of host.old endpoint) { page_queue = drop 1 (part_of host.old endpoint).page_queue }) }
{
    let _request = host.ports[endpoint as usize].unit.take_request();
}
