//! The bindings that are not released.

ghost use Rattle.std.specs.Prelude.{◌≡◌, IfOk, map};
ghost use Rattle.sva_parts_by_labels.specs.Bindings.{binding_seen, bindings_seen, stage_or_quiet};
ghost use Rattle.sva_snapshot.specs.Shown.{binding_shown, stage_shown};

use std::alloc::{AllocError, Global};
use sva_pasid::TableEntry;

/// The stage of a binding.
#[derive(Clone, Copy, PartialEq, Eq)]
pub enum Stage {
    /// In use.
    Live,
    /// The stop was sent.
    Stopping {
        /// The Stop Marker is noted.
        marked: bool,
    },
    /// Its page requests are drained.
    Draining {
        /// The cookie of the wait for that.
        cookie: u64,
    },
    /// Its PASID is invalidated.
    Invalidating {
        /// The cookie of the wait for that.
        cookie: u64,
    },
    /// The endpoint holds nothing of it.
    Quiet,
    /// A reset cut it off while it was in use.
    Lost,
}

/// A binding that is not released.
#[derive(Clone, Copy, PartialEq, Eq)]
pub struct Binding {
    /// The number of its endpoint.
    pub endpoint: u64,
    /// The number of its space.
    pub space: u64,
    /// Its own number.
    pub binding: u64,
    /// The PASID that it bears, 1 to 32.
    pub pasid: u32,
    /// Its stage.
    pub stage: Stage,
}

/// The stage of a place; an empty place counts as quiet.
fn stage_of(stage: &Option<sva_pasid::Stage>) -> Stage
    ensures { stage_shown result ≡ stage_or_quiet stage.now }
{
    match stage {
        Some(sva_pasid::Stage::Live(_)) => Stage::Live,
        Some(sva_pasid::Stage::Stopping(stopping)) => Stage::Stopping {
            marked: stopping.is_marked(),
        },
        Some(sva_pasid::Stage::Draining(draining)) => Stage::Draining {
            cookie: draining.cookie(),
        },
        Some(sva_pasid::Stage::Invalidating(invalidating)) => Stage::Invalidating {
            cookie: invalidating.cookie(),
        },
        Some(sva_pasid::Stage::Quiet(_)) => Stage::Quiet,
        Some(sva_pasid::Stage::Lost(_)) => Stage::Lost,
        None => Stage::Quiet,
    }
}

/// The binding of a place.
fn binding_of(place: &TableEntry) -> Binding
    ensures { binding_shown result ≡ binding_seen place.now }
{
    Binding {
        endpoint: place.endpoint,
        space: place.space,
        binding: place.binding,
        pasid: place.pasid,
        stage: stage_of(&place.stage),
    }
}

/// The bindings, in the order in which they began.
pub(crate) fn bindings_of(alloc: Global, places: &[TableEntry]) -> Result<Vec<Binding>, AllocError>
    ensures { IfOk result (λ bindings. map binding_shown bindings.items ≡ bindings_seen places.now) }
{
    let mut bindings = Vec::new(alloc);
    for place in places {
        bindings.push(binding_of(place))?;
    }
    Ok(bindings)
}
