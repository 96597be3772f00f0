//! The parts of a host.

ghost use Rattle.std.specs.Prelude.{◌≡◌, ◌≤◌, ◌^◌, IfOk, replicate};
ghost use Rattle.sva_labels.specs.Host.{first_wire};
ghost use Rattle.sva_host_state.specs.Inner.{new_port};

use std::alloc::{AllocError, Global};
use std::marker::Model;
use sva_address_spaces::AddressSpaces;
use sva_endpoint::Endpoint;
use sva_iommu::RemappingUnit;
use sva_msg::Bag;
use sva_pasid::Table;
use sva_step::Config;

/// An endpoint with the remapping unit that serves it.
#[derive(Drop)]
pub struct Port {
    pub device: Endpoint,
    pub unit: RemappingUnit,
}

impl Default for Port {
    ghost is_default = { λ port. port ≡ new_port };

    fn default() -> Self {
        Port {
            device: Endpoint::new(),
            unit: RemappingUnit::new(),
        }
    }
}

/// What a host keeps. Contracts see all of it by numbers and labels. Its fields are public, since the steps stand in the crates
/// above: a function that writes a part shows that its endpoints are sound and that each stage of a binding stands in its place.
#[derive(Drop)]
pub struct HostState {
    /// The frames and the live spaces.
    pub address_spaces: AddressSpaces,
    /// The bindings that aren't released, with their stages.
    pub bindings: Table,
    /// The endpoints, each with its unit.
    pub ports: Vec<Port>,
    /// The messages between host and endpoints.
    pub in_flight: Bag,
    /// How many workers there are.
    pub workers: u64,
    /// The number of the next binding.
    pub next_binding: u64,
    /// The cookie of the next wait.
    pub next_cookie: u64,
}

impl Model for HostState {
    ghost use Rattle.sva_model.specs.Wire.{Wire};

    ghost Value = { Wire };

    ghost use Rattle.sva_host_state.specs.Inner.{wire_of, IsHostState};

    ghost view = { wire_of };

    ghost invariant = { IsHostState };
}

impl HostState {
    /// What the host of a config keeps, in which nothing has happened: it has no space, each frame is free, nothing is bound,
    /// and nothing is in flight.
    pub fn open(alloc: Global, config: Config) -> Result<HostState, AllocError>
        requires first { config.first ≤ 2 ^ 63 }
        requires frames { config.frames ≤ 4096 }
        requires endpoints { config.endpoints ≤ 8 }
        ensures { IfOk result (λ state. state ≡ first_wire config) }
    {
        Ok(HostState {
            address_spaces: AddressSpaces::open(alloc, config.frames as u32, config.first)?,
            bindings: Table::new(alloc),
            ports: new_ports(alloc, config.endpoints)?,
            in_flight: Bag::new(alloc, config.first),
            workers: config.workers,
            next_binding: config.first,
            next_cookie: config.first,
        })
    }
}

/// So many endpoints that do nothing yet, each with a unit of which nothing was asked.
fn new_ports(alloc: Global, count: u64) -> Result<Vec<Port>, AllocError>
    ensures { IfOk result (λ ports. ports.items ≡ replicate count new_port) }
{
    let mut ports = Vec::with_capacity(alloc, count as usize)?;
    for _number in 0..count {
        ports.push(Port::default())?;
    }
    Ok(ports)
}
