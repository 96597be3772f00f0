//! Where an endpoint stands.

ghost use Rattle.sva_host_state.specs.Steps.{PortFor};

use crate::host_state::HostState;
use sva_step::Refusal;

/// Where the endpoint of this number stands; `NoSuchEndpoint` where it isn't there.
pub fn port(host: &HostState, endpoint: u64) -> Result<usize, Refusal>
    ensures { PortFor host.now endpoint result }
{
    if endpoint >= host.ports.len() as u64 {
        return Err(Refusal::NoSuchEndpoint);
    }
    Ok(endpoint as usize)
}
