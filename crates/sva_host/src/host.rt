//! What a host with its table of jobs keeps.

ghost use Rattle.std.specs.Prelude.{◌≡◌, ◌≤◌, ◌^◌, IfOk};
ghost use Rattle.sva_labels.specs.Host.{first_wire};
ghost use Rattle.sva_address_spaces.specs.Steps.{Counted};

use std::alloc::{AllocError, Global};
use std::marker::Model;
use sva_frames::Counts;
use sva_host_state::HostState;
use sva_prq::JobTable;
use sva_step::Config;

/// A host with its endpoints, the link between them, and the table of jobs of their page requests. Contracts see what all of it keeps
/// by numbers and labels.
#[derive(Drop)]
pub struct Host {
    pub(crate) state: HostState,
    pub(crate) job_table: JobTable,
    /// How many workers there are: at most 4.
    pub(crate) workers: u64,
}

impl Model for Host {
    ghost use Rattle.sva_model.specs.Wire.{Wire};
    ghost use Rattle.sva_host.specs.Inner.{wire_of, IsHost};

    ghost Value = { Wire };

    ghost view = { wire_of };

    ghost invariant = { IsHost };
}

impl Host {
    /// The host of a config, in which nothing has happened: it has no space, each frame is free, nothing is bound, nothing is in
    /// flight, no page request is filed, and no worker has a job.
    pub fn open(alloc: Global, config: Config) -> Result<Host, AllocError>
        requires first { config.first ≤ 2 ^ 63 }
        requires frames { config.frames ≤ 4096 }
        requires endpoints { config.endpoints ≤ 8 }
        requires workers { config.workers ≤ 4 }
        ensures { IfOk result (λ host. host ≡ first_wire config) }
    {
        Ok(Host {
            state: HostState::open(alloc, config)?,
            job_table: JobTable::new(alloc),
            workers: config.workers,
        })
    }

    /// How many frames are at each place.
    pub fn counts(&self) -> Counts
        ensures { Counted self.now.places result }
    {
        crate::spaces::counts(&self.state)
    }
}
