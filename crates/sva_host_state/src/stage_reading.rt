//! What is read of the stage of a binding.

ghost use Rattle.std.specs.Prelude.{◌≡◌};
ghost use Rattle.sva_labels.specs.Finding.{is_before_invalidating, is_live};
ghost use Rattle.sva_parts_by_labels.specs.Bindings.{stage_or_quiet};
ghost use Rattle.sva_host_state.specs.Advancing.{is_quiet};
ghost use Rattle.sva_host_state.specs.Unbinding.{is_lost};

use sva_pasid::Stage;

/// Whether the binding is in use, and isn't being taken back.
pub fn is_live(stage: &Option<Stage>) -> bool
    ensures { result ≡ is_live (stage_or_quiet stage.now) }
{
    matches!(stage, Some(Stage::Live(_)))
}

/// Whether a reset cut the binding off while it was in use.
pub fn is_lost(stage: &Option<Stage>) -> bool
    ensures { result ≡ is_lost (stage_or_quiet stage.now) }
{
    matches!(stage, Some(Stage::Lost(_)))
}

/// Whether the endpoint holds nothing of the binding.
pub fn is_quiet(stage: &Option<Stage>) -> bool
    ensures { result ≡ is_quiet (stage_or_quiet stage.now) }
{
    matches!(stage, Some(Stage::Quiet(_)) | None)
}

/// Whether the binding is in use yet, is being stopped or is being drained.
pub(crate) fn is_before_invalidating(stage: &Option<Stage>) -> bool
    ensures { result ≡ is_before_invalidating (stage_or_quiet stage.now) }
{
    match stage {
        Some(Stage::Live(_)) => true,
        Some(Stage::Stopping(_)) => true,
        Some(Stage::Draining(_)) => true,
        Some(Stage::Invalidating(_)) => false,
        Some(Stage::Quiet(_)) => false,
        Some(Stage::Lost(_)) => false,
        None => false,
    }
}
