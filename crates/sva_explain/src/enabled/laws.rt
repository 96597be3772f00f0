//! What the definitions say of accepted steps.

ghost use Rattle.sva_explain.specs.Accepted.{AcceptedAreAnswered};

/// A step that no cause refuses is answered, and not refused.
pub fn accepted_are_answered()
    ensures { AcceptedAreAnswered }
{}
