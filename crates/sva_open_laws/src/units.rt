//! The law of shared units.

ghost use Rattle.sva_open_laws.specs.OneUnit.{AlwaysSeeOneUnit};

/// Whatever acts come, each endpoint stands at its number, and what endpoints below one unit see of it is the same: its
/// queues, what is out, what it has received, and whether it is open.
pub fn endpoints_see_one_unit()
    ensures { AlwaysSeeOneUnit }
{}
