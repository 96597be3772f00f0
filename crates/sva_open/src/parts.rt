//! An endpoint with its unit and its link.

ghost use Rattle.std.specs.Prelude.{◌≡◌, IfOk, slice_get};
ghost use Rattle.sva_open.specs.World.{sent, with_row};

use crate::descriptors::{Arrived, Descriptor, Filed, Issued, Received};
use crate::frames::Translation;
use crate::lists::set_at;
use crate::messages::{Message, Sent};
use crate::rows::{KeptEntry, Row};
use crate::works::{Group, Request, Work};
use std::alloc::AllocError;
use std::marker::Model;

/// An endpoint with its unit and its link.
#[derive(Drop)]
pub struct Part {
    pub endpoint: usize,
    pub rows: Vec<Row>,
    pub requests: Vec<Option<Request>>,
    pub held: Vec<Translation>,
    pub works: Vec<Work>,
    pub groups: Vec<Option<Group>>,
    pub is_enabled: bool,
    pub has_ats: bool,
    pub has_requests: bool,
    pub is_master: bool,
    pub is_gone: bool,
    pub lies: bool,
    pub awaits: bool,
    pub time: u64,
    pub flight: Vec<Sent>,
    pub is_open: bool,
    pub queue: Vec<Descriptor>,
    pub issued: Vec<Issued>,
    pub aborted: Vec<usize>,
    pub is_stalled: bool,
    pub has_overflowed: bool,
    pub kept_entries: Vec<KeptEntry>,
    pub kept: Vec<Translation>,
    pub received: Vec<Received>,
    pub arrived: Vec<Arrived>,
    pub filed: Vec<Filed>,
}

impl Model for Part {
    ghost use Rattle.sva_open.specs.World as world;

    ghost Value = { world.Part };

    ghost view = { λ part. record {
      endpoint = part.endpoint;
      rows = part.rows.items;
      requests = part.requests.items;
      held = part.held.items;
      works = part.works.items;
      groups = part.groups.items;
      is_enabled = part.is_enabled;
      has_ats = part.has_ats;
      has_requests = part.has_requests;
      is_master = part.is_master;
      is_gone = part.is_gone;
      lies = part.lies;
      awaits = part.awaits;
      time = part.time;
      flight = part.flight.items;
      is_open = part.is_open;
      queue = part.queue.items;
      issued = part.issued.items;
      aborted = part.aborted.items;
      is_stalled = part.is_stalled;
      has_overflowed = part.has_overflowed;
      kept_entries = part.kept_entries.items;
      kept = part.kept.items;
      received = part.received.items;
      arrived = part.arrived.items;
      filed = part.filed.items;
    } };
}

impl Part {
    /// What there is of a PASID.
    pub fn row(&self, pasid: usize) -> Option<Row>
        ensures { result ≡ slice_get self.now.rows pasid }
    {
        self.rows.get(pasid).copied()
    }

    /// Replaces what there is of a PASID.
    pub fn set_row(&mut self, pasid: usize, row: Row)
        ensures { self.new ≡ with_row self.old pasid row }
    {
        set_at(&mut self.rows, pasid, row);
    }

    /// Sends a message.
    pub fn send(&mut self, owner: u64, number: u64, message: Message) -> Result<(), AllocError>
        ensures { IfOk result (λ _. self.new ≡ sent self.old owner number message) }
    {
        self.flight.push(Sent {
            message,
            owner,
            number,
        })?;
        Ok(())
    }
}
