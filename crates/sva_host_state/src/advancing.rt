//! What a binding that was unbound does next on its way out.

ghost use Rattle.std.specs.Prelude.{◌≡◌};
ghost use Rattle.sva_parts_by_labels.specs.Bindings.{binding_seen, stage_or_quiet};
ghost use Rattle.sva_host_state.specs.Advancing.{course_by, is_due, descriptors_of};

use sva_iommu::RemappingUnit;
use sva_pasid::{Stage, TableEntry};

/// What a binding does next.
#[derive(Drop)]
pub enum Course {
    /// Its unit drains the page requests of its endpoint.
    Drain { endpoint: u64 },
    /// Its unit invalidates the PASID at its endpoint.
    Invalidate { endpoint: u64, pasid: u32 },
    /// Its endpoint holds nothing of it any longer.
    Settle { endpoint: u64 },
    /// It is over.
    Release,
}

/// What the binding of this place does next.
pub fn next_course(place: &TableEntry) -> Course
    ensures { result ≡ course_by (binding_seen place.now) (stage_or_quiet place.now.stage) }
{
    match &place.stage {
        Some(Stage::Stopping(_)) => Course::Drain {
            endpoint: place.endpoint,
        },
        Some(Stage::Draining(_)) => Course::Invalidate {
            endpoint: place.endpoint,
            pasid: place.pasid,
        },
        Some(Stage::Invalidating(_)) => Course::Settle {
            endpoint: place.endpoint,
        },
        _ => Course::Release,
    }
}

/// Whether what the binding waits for has come: the marker, or at this unit a wait. `groups_open` tells whether a group of page
/// requests of the binding isn't answered, which holds it up while it is drained.
pub fn is_due(unit: &RemappingUnit, stage: &Option<Stage>, groups_open: bool) -> bool
    ensures { result ≡ is_due unit.now.unit groups_open (stage_or_quiet stage.now) }
{
    match stage {
        Some(Stage::Live(_)) => false,
        Some(Stage::Stopping(stopping)) => stopping.is_marked(),
        Some(Stage::Draining(draining)) => unit.is_wait_done(draining.cookie()) && !groups_open,
        Some(Stage::Invalidating(invalidating)) => unit.is_wait_done(invalidating.cookie()),
        Some(Stage::Quiet(_)) => true,
        Some(Stage::Lost(_)) => false,
        None => true,
    }
}

/// How many descriptors the unit gets where the binding goes on.
pub fn descriptors_of(stage: &Option<Stage>) -> u64
    ensures { result ≡ descriptors_of (stage_or_quiet stage.now) }
{
    match stage {
        Some(Stage::Stopping(_)) => 1,
        Some(Stage::Draining(_)) => 2,
        _ => 0,
    }
}
