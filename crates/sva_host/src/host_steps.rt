//! The steps that a host takes without its table of jobs.

ghost use Rattle.std.specs.Prelude.{◌≢◌, Err};
ghost use Rattle.sva_step.specs.declared.refusals.Refusal.TheVariants as refusal;
ghost use Rattle.sva_labels.specs.Sound.{IsSound};
ghost use Rattle.sva_host_state.specs.Steps.{ByLabels};
ghost use Rattle.sva_host.specs.Applied.{AsksNoJobTable, IsForPages, TakesNoMemory};

use sva_endpoint::Fault;
use sva_host_state::HostState;
use sva_step::{Answer, Refusal, Step};

/// Takes a step by which an endpoint asks for a page, or uses one. It stands apart since all eighteen steps in one `match` make
/// a function of some seventy lines.
fn apply_for_pages(state: &mut HostState, step: &Step) -> Result<Answer, Refusal>
    requires { IsForPages step.now }
    ensures step { ByLabels state.old step.now result state.new }
    ensures memory { TakesNoMemory state.old step.now → result ≢ Err refusal.OutOfMemory }
{
    match *step {
        Step::Ask {
            endpoint,
            pasid,
            page,
        } => crate::endpoints::ask(state, endpoint, pasid, page),
        Step::BeginUse {
            endpoint,
            pasid,
            page,
            write,
        } => crate::endpoints::begin_use(state, endpoint, pasid, page, write),
        Step::Fault {
            endpoint,
            pasid,
            page,
            read,
            write,
            group,
            last,
        } => {
            let fault = Fault {
                pasid,
                page,
                read,
                write,
                group,
                last,
            };
            crate::endpoints::fault(state, endpoint, &fault)
        }
        _ => unreachable!(),
    }
}

/// Takes a step that asks neither groups nor jobs nor hands. A refused step changes nothing.
pub(crate) fn apply_at_host(state: &mut HostState, step: &Step) -> Result<Answer, Refusal>
    requires sound { IsSound state.old }
    requires apart { AsksNoJobTable step.now }
    ensures step { ByLabels state.old step.now result state.new }
    ensures memory { TakesNoMemory state.old step.now → result ≢ Err refusal.OutOfMemory }
{
    match *step {
        Step::Space => crate::spaces::space(state),
        Step::DropSpace { space } => crate::spaces::drop_space(state, space),
        Step::Map { space, page, write } => crate::spaces::map(state, space, page, write),
        Step::Unmap { space, page, count } => crate::spaces::unmap(state, space, page, count),
        Step::UnmapRange { space, page, order } => crate::spaces::unmap_range(
            state, space, page, order,
        ),
        Step::Look { frame } => crate::spaces::look(state, frame),
        Step::Bind { endpoint, space } => crate::bindings::bind(state, endpoint, space),
        Step::Unbind { binding } => crate::bindings::unbind(state, binding),
        Step::Bearer { pasid } => crate::bindings::bearer(state, pasid),
        Step::Pump { endpoint } => crate::link::pump(state, endpoint),
        Step::Deliver { message } => crate::link::deliver(state, message),
        Step::EndUse { endpoint, slot } => crate::endpoints::end_use(state, endpoint, slot),
        Step::Evict {
            endpoint,
            pasid,
            page,
        } => crate::endpoints::evict(state, endpoint, pasid, page),
        Step::Finish {
            endpoint,
            vector,
            count,
        } => crate::endpoints::finish(state, endpoint, vector, count),
        Step::Quit { endpoint, pasid } => crate::endpoints::quit(state, endpoint, pasid),
        _ => apply_for_pages(state, step),
    }
}
