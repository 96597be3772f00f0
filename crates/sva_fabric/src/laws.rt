//! The law of audits.

ghost use Rattle.sva_fabric.specs.Once.{AuditsTellOnce};

/// Where an audit finds nothing wrong the journal is what the ports' receipts tell, each once: at each place stands the entry of a
/// receipt, and no other receipt names that place.
pub fn audits_tell_once()
    ensures { AuditsTellOnce }
{}
