//! The columns of a chart: for each endpoint that a row names a block with two rails, that of its host and its own.

use crate::places::{Places, Rail};
use std::alloc::{AllocError, Global};
use sva_step::MOST_ENDPOINTS;

/// How far apart things stand.
#[derive(Clone, Copy)]
pub(crate) struct Spacing {
    /// The two rails of an endpoint, without lanes.
    pub(crate) base: usize,
    /// More for each of its lanes.
    pub(crate) lane: usize,
    /// The last rail of an endpoint and the first of the next.
    pub(crate) gap: usize,
}

/// Where the rails of an endpoint are.
#[derive(Clone, Copy)]
pub(crate) struct Block {
    pub(crate) endpoint: u64,
    pub(crate) host: usize,
    pub(crate) device: usize,
}

/// The blocks, in the order of their endpoints.
#[derive(Drop)]
pub(crate) struct Blocks {
    pub(crate) blocks: Vec<Block>,
}

impl Blocks {
    /// The blocks of a run, the first of which begins at `left`.
    pub(crate) fn of(
        alloc: Global,
        places: &Places,
        left: usize,
        spacing: Spacing,
    ) -> Result<Self, AllocError> {
        let mut blocks = Vec::new(alloc);
        let mut host = left;
        for endpoint in 0..MOST_ENDPOINTS as u64 {
            if places.names(endpoint) {
                let lanes = spacing.lane.saturating_mul(places.lanes(endpoint));
                let device = host.saturating_add(spacing.base).saturating_add(lanes);
                blocks.push(Block {
                    endpoint,
                    host,
                    device,
                })?;
                host = device.saturating_add(spacing.gap);
            }
        }
        Ok(Blocks { blocks })
    }

    /// Where a rail is.
    pub(crate) fn at(&self, rail: Rail) -> Option<usize> {
        for block in self.blocks.as_slice() {
            if block.endpoint == rail.endpoint {
                return Some(if rail.is_host {
                    block.host
                } else {
                    block.device
                });
            }
        }
        None
    }

    /// Where the last rail is.
    pub(crate) fn end(&self) -> Option<usize> {
        Some(self.blocks.as_slice().last()?.device)
    }
}
