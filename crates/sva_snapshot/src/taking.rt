//! How a snapshot is taken.

ghost use Rattle.std.specs.Prelude.{◌≡◌, IfOk};
ghost use Rattle.sva_core.specs.HostSeen.{with_job_table};

use crate::bindings::bindings_of;
use crate::endpoints::endpoints_of;
use crate::flights::flights_of;
use crate::jobs::{hands_of, jobs_of};
use crate::snapshots::Snapshot;
use crate::spaces::{frames_of, spaces_of};
use std::alloc::{AllocError, Global};
use sva_core::World;
use sva_host_state::HostState;
use sva_prq::JobTable;

/// What a host keeps with its table of jobs, with so many workers.
fn snapshot_of(
    alloc: Global,
    state: &HostState,
    table: &JobTable,
    workers: u64,
) -> Result<Snapshot, AllocError>
    ensures { IfOk result (λ snapshot. snapshot ≡ with_job_table workers table.now state.now) }
{
    let groups = table.groups().list(alloc)?;
    Ok(Snapshot {
        spaces: spaces_of(alloc, state.address_spaces.spaces())?,
        frames: frames_of(alloc, state.address_spaces.pool())?,
        bindings: bindings_of(alloc, state.bindings.places())?,
        endpoints: endpoints_of(alloc, state.ports.as_slice(), groups.as_slice())?,
        jobs: jobs_of(alloc, table)?,
        hands: hands_of(alloc, table, workers)?,
        in_flight: flights_of(alloc, &state.in_flight)?,
        next_space: state.address_spaces.next_space(),
        next_binding: state.next_binding,
        next_message: state.in_flight.next(),
        next_cookie: state.next_cookie,
    })
}

/// Everything that the world keeps. An error says that there is no memory for it.
pub fn snapshot(alloc: Global, world: &World) -> Result<Snapshot, AllocError>
    ensures { IfOk result (λ snapshot. snapshot ≡ world.now) }
{
    let (state, table, workers) = world.host().parts();
    snapshot_of(alloc, state, table, workers)
}
