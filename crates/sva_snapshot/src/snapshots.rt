//! The snapshot.

use crate::bindings::Binding;
use crate::endpoints::Endpoint;
use crate::flights::Flight;
use crate::jobs::Job;
use crate::spaces::Space;
use std::marker::Model;
use sva_frames::Held;

/// Everything that a world keeps, by numbers and labels. Contracts see it as the wire of the world.
#[derive(Drop)]
pub struct Snapshot {
    /// The live spaces, in the order in which they began.
    pub spaces: Vec<Space>,
    /// Where each frame is, by its number, and what it waits for.
    pub frames: Vec<Held>,
    /// The bindings that are not released, in the order in which they began.
    pub bindings: Vec<Binding>,
    /// The endpoints with their units, by number.
    pub endpoints: Vec<Endpoint>,
    /// The jobs that no worker has taken, the oldest first.
    pub jobs: Vec<Job>,
    /// What each worker has in its hand.
    pub hands: Vec<Option<Job>>,
    /// The messages in flight, the oldest first.
    pub in_flight: Vec<Flight>,
    /// The number of the next space.
    pub next_space: u64,
    /// The number of the next binding.
    pub next_binding: u64,
    /// The number of the next message.
    pub next_message: u64,
    /// The cookie of the next wait.
    pub next_cookie: u64,
}

impl Model for Snapshot {
    ghost use Rattle.sva_model.specs.Wire.{Wire};

    ghost Value = { Wire };

    ghost use Rattle.sva_snapshot.specs.Inner.{wire_of};

    ghost view = { wire_of };
}
