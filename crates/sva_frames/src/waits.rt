//! What a frame waits for, unit by unit.

ghost use Rattle.sva_frames.specs.Frames.{has_target};
ghost use Rattle.std.specs.Prelude.{◌≡◌, ◌↔◌, IsTrue, false, Some, None, replicate, slice_get, slice_set};

use std::alloc::AllocError;
use std::marker::Model;
use sva_step::{MOST_ENDPOINTS, QUEUE_PLACES};

/// How many remapping units a host has at most: one for each endpoint. Their numbers are below it.
pub const UNITS: usize = MOST_ENDPOINTS;

/// How many different cookies frames wait for at one unit at most: as many as its queue has places for waits.
pub const PENDING: usize = QUEUE_PLACES;

/// What a frame waits for at one unit.
#[derive(Clone, Copy, PartialEq, Eq)]
pub enum Target {
    /// That the wait descriptor with this cookie is done (Intel VT-d, "Queued Invalidation Interface").
    Cookie(u64),
    /// That the reset of the unit's endpoint, which has begun, ends.
    ResetEnd,
}

/// What a frame waits for: pairs of a unit and a target, at most one at each unit.
///
/// Contracts see the table by units, a place for each of the eight: its target, if there is one.
#[derive(Drop)]
pub struct Waits {
    pub(crate) targets: [Option<Target>; UNITS],
}

impl Model for Waits {
    ghost use Rattle.std.specs.Prelude.{List, Option, length, ◌≡◌};
    ghost use Rattle.sva_frames.specs.declared.waits.Target.{Target};
    ghost use Rattle.sva_frames.specs.declared.waits.TheConstants.{UNITS};

    ghost Value = { List (Option Target) };

    ghost view = { λ w. w.targets };

    ghost invariant = { λ w. length w.targets ≡ UNITS };
}

impl Clone for Waits {
    ghost use Rattle.std.specs.Prelude.{⊤};

    ghost is_clone = { λ waits copy. copy ≡ waits };

    ghost is_infallible = { λ _. ⊤ };

    fn clone(&self) -> Result<Waits, AllocError> {
        Ok(self.copied())
    }
}

impl Waits {
    /// Nothing to wait for.
    pub fn new() -> Waits
        ensures { result ≡ replicate UNITS None }
    {
        Waits {
            targets: [None; UNITS],
        }
    }

    /// The same once more, for another frame.
    pub fn copied(&self) -> Waits
        ensures { result ≡ self.now }
    {
        Waits {
            targets: self.targets,
        }
    }

    /// Adds a target at a unit, one of the eight, that has none yet.
    pub fn push(&mut self, unit: u64, target: Target)
        requires { slice_get self.old unit ≡ Some None }
        ensures { self.new ≡ slice_set self.old unit (Some target) }
    {
        let targets = &mut self.targets;
        targets[unit as usize] = Some(target);
    }

    /// Whether there is nothing to wait for.
    pub fn is_empty(&self) -> bool
        ensures { IsTrue result ↔ (has_target self.now ≡ false) }
    {
        !has_target(&self.targets)
    }
}

/// Whether some unit has a target.
fn has_target(targets: &[Option<Target>]) -> bool
    ensures { result ≡ has_target targets.now }
{
    targets.iter().any(|target| target.is_some())
}
