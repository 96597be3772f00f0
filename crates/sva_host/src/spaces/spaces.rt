//! The steps of spaces and frames.

ghost use Rattle.std.specs.Prelude.{◌≢◌, Err};
ghost use Rattle.sva_step.specs.declared.refusals.Refusal.TheVariants as refusal;
ghost use Rattle.sva_step.specs.declared.steps.Step.TheVariants as step;
ghost use Rattle.sva_address_spaces.specs.Steps.{Counted};
ghost use Rattle.sva_host_state.specs.Steps.{ByLabels};

use sva_frames::Counts;
use sva_host_state::HostState;
use sva_step::{Answer, Refusal};

/// Begins a space, with the next number.
pub fn space(host: &mut HostState) -> Result<Answer, Refusal>
    ensures { ByLabels host.old step.Space result host.new }
{
    host.address_spaces.space()
}

/// Ends a space that is bound nowhere: its frames are free.
pub fn drop_space(host: &mut HostState, space: u64) -> Result<Answer, Refusal>
    ensures step { ByLabels host.old (step.DropSpace space) result host.new }
    ensures memory { result ≢ Err refusal.OutOfMemory }
{
    if !host.address_spaces.has_space(space) {
        return Err(Refusal::NoSuchSpace);
    }
    if host.bindings.is_bound(space) {
        return Err(Refusal::StillBound);
    }
    host.address_spaces.drop_space(space);
    Ok(Answer::Gone)
}

/// Maps a page of a space to the lowest free frame.
pub fn map(host: &mut HostState, space: u64, page: u64, write: bool) -> Result<Answer, Refusal>
    ensures { ByLabels host.old (step.Map space page write) result host.new }
{
    host.address_spaces.map(space, page, write)
}

/// Where a frame is.
pub fn look(host: &HostState, frame: u64) -> Result<Answer, Refusal>
    ensures step { ByLabels host.now (step.Look frame) result host.now }
    ensures memory { result ≢ Err refusal.OutOfMemory }
{
    host.address_spaces.look(frame)
}

/// How many frames are at each place.
pub fn counts(host: &HostState) -> Counts
    ensures { Counted host.now.places result }
{
    host.address_spaces.counts()
}
