//! The stage of a binding: the enum of its six states.

ghost use Rattle.std.specs.Prelude.{◌≡◌};

use crate::states::{Draining, Invalidating, Live, Lost, Quiet, Released, Stopping};

/// The state that a binding is in until it is released. A stage must be spent, as the states must.
pub enum Stage {
    Live(Live),
    Stopping(Stopping),
    Draining(Draining),
    Invalidating(Invalidating),
    Quiet(Quiet),
    Lost(Lost),
}

impl Stage {
    ghost use Rattle.sva_pasid.specs.Stages.{numbers_of, reset_of, at_reset};

    /// The number of the binding.
    pub fn binding(&self) -> u64
        ensures { result ≡ (numbers_of self.now).binding }
    {
        match self {
            Stage::Live(live) => live.binding,
            Stage::Stopping(stopping) => stopping.binding,
            Stage::Draining(draining) => draining.wait.binding,
            Stage::Invalidating(invalidating) => invalidating.wait.binding,
            Stage::Quiet(quiet) => quiet.binding,
            Stage::Lost(lost) => lost.binding,
        }
    }

    /// The PASID that the binding bears, of 20 bits.
    pub fn pasid(&self) -> u32
        ensures { result ≡ (numbers_of self.now).pasid }
    {
        match self {
            Stage::Live(live) => live.pasid,
            Stage::Stopping(stopping) => stopping.pasid,
            Stage::Draining(draining) => draining.wait.pasid,
            Stage::Invalidating(invalidating) => invalidating.wait.pasid,
            Stage::Quiet(quiet) => quiet.pasid,
            Stage::Lost(lost) => lost.pasid,
        }
    }

    /// The stage after a function level reset of the endpoint.
    pub(crate) fn by_reset(self) -> Stage
        ensures { result ≡ reset_of self }
    {
        match self.reset() {
            Ok(quiet) => Stage::Quiet(quiet),
            Err(lost) => Stage::Lost(lost),
        }
    }

    /// Ends the binding as a function level reset does, by way of `Quiet`.
    pub(crate) fn release_by_reset(self) -> Released
        ensures { result ≡ numbers_of self }
    {
        match self.reset() {
            Ok(quiet) => quiet.release(),
            Err(lost) => lost.quiet().release(),
        }
    }

    /// What a function level reset leaves: `Quiet`, or `Lost` where the binding was in use and wasn't unbound yet.
    fn reset(self) -> Result<Quiet, Lost>
        ensures stage { at_reset result ≡ reset_of self }
        ensures numbers { numbers_of (at_reset result) ≡ numbers_of self }
    {
        match self {
            Stage::Live(live) => Err(live.lost()),
            Stage::Stopping(stopping) => Ok(stopping.by_reset()),
            Stage::Draining(draining) => Ok(draining.by_reset()),
            Stage::Invalidating(invalidating) => Ok(invalidating.by_reset()),
            Stage::Quiet(quiet) => Ok(quiet),
            Stage::Lost(lost) => Err(lost),
        }
    }
}
