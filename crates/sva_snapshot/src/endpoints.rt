//! The endpoints, each with its unit.

ghost use Rattle.std.specs.Prelude.{◌≡◌, IfOk, map};
ghost use Rattle.sva_host_state.specs.Inner.{part_seen};
ghost use Rattle.sva_core.specs.HostSeen.{parts_with};
ghost use Rattle.sva_snapshot.specs.Shown.{endpoint_shown, own_groups, part_with};

use crate::devices::{Device, device_of};
use crate::jobs::{HostGroup, groups_of};
use crate::units::{Unit, requests_of, unit_of};
use std::alloc::{AllocError, Global};
use sva_host_state::Port;
use sva_msg::PageRequest;
use sva_prq::Group;

/// An endpoint with its unit, and the groups of page requests that the host has open for it.
#[derive(Drop, Clone, PartialEq, Eq)]
pub struct Endpoint {
    /// What the endpoint keeps itself.
    pub device: Device,
    /// The invalidation queue.
    pub unit: Unit,
    /// The page requests that wait, the oldest first.
    pub page_queue: Vec<PageRequest>,
    /// The open groups, in the order in which they began.
    pub host_groups: Vec<HostGroup>,
}

/// An endpoint, with those of the open groups that are its own.
fn endpoint_of(
    alloc: Global,
    port: &Port,
    groups: &[Group],
    number: u64,
) -> Result<Endpoint, AllocError>
    ensures { IfOk result (λ endpoint. endpoint_shown endpoint
        ≡ part_with (own_groups groups.now number) (part_seen port.now)) }
{
    Ok(Endpoint {
        device: device_of(alloc, &port.device)?,
        unit: unit_of(alloc, port.unit.queue())?,
        page_queue: requests_of(alloc, port.unit.requests())?,
        host_groups: groups_of(alloc, groups, number)?,
    })
}

/// The endpoints, by number.
pub(crate) fn endpoints_of(
    alloc: Global,
    ports: &[Port],
    groups: &[Group],
) -> Result<Vec<Endpoint>, AllocError>
    ensures { IfOk result (λ endpoints. map endpoint_shown endpoints.items
        ≡ parts_with (own_groups groups.now) (map part_seen ports.now)) }
{
    let mut endpoints = Vec::new(alloc);
    for (number, port) in ports.iter().enumerate() {
        endpoints.push(endpoint_of(alloc, port, groups, number as u64)?)?;
    }
    Ok(endpoints)
}
