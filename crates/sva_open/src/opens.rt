//! The open world.

use crate::frames::{Mapping, Tenure};
use crate::parts::Part;
use crate::settings::Settings;
use std::marker::Model;

/// The open world: memory, and endpoints with their units and links.
#[derive(Drop)]
pub struct Open {
    pub settings: Settings,
    pub mappings: Vec<Mapping>,
    pub frames: Vec<Tenure>,
    pub freed: Vec<u64>,
    pub domains: Vec<u64>,
    pub parts: Vec<Part>,
    pub units: Vec<usize>,
}

impl Model for Open {
    ghost use Rattle.sva_open.specs.World as world;

    ghost Value = { world.Open };

    ghost view = { λ now. record {
      settings = now.settings;
      mappings = now.mappings.items;
      frames = now.frames.items;
      freed = now.freed.items;
      domains = now.domains.items;
      parts = now.parts.items;
      units = now.units.items;
    } };
}
