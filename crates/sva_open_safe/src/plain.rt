//! What nothing of the open world reads.

ghost use Rattle.sva_open_safe.specs.Plain.{AreReadPlain, IsSafeReadPlain};

/// No act reads of which page a page request is, or whether that is to be written, and whether a moment is safe
/// doesn't hang on it.
pub fn nothing_reads_pages_asked_for()
    ensures acts { AreReadPlain }
    ensures safe { IsSafeReadPlain }
{}
