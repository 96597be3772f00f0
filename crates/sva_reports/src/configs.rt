//! The law of the report's test of a config.

ghost use Rattle.sva_reports.specs.Report.{ConfigsAreTested};

/// What holds of the report's test of a config: it takes one for fit exactly where it is within its limits.
pub fn laws()
    ensures configs { ConfigsAreTested }
{}
