//! Translation requests, as they arrive (PCI Express Base 5.0, sections 10.2.2 and 10.2.3).

ghost use Rattle.std.specs.Prelude.{◌≡◌, ◌≢◌, false, Err, option_map};
ghost use Rattle.sva_step.specs.declared.refusals.Refusal.TheVariants as refusal;
ghost use Rattle.sva_step.specs.declared.steps.Step.TheVariants as step;
ghost use Rattle.sva_labels.specs.Finding.{bearer, unit_of};
ghost use Rattle.sva_labels.specs.Outcomes.{found_for};
ghost use Rattle.sva_labels.specs.Sound.{IsSound};
ghost use Rattle.sva_msg.specs.declared.messages.Kind.TheVariants as kind;
ghost use Rattle.sva_host_state.specs.Seen.{page_seen};
ghost use Rattle.sva_host_state.specs.Arriving.{IsArriving, StandsAt};
ghost use Rattle.sva_host_state.specs.Steps.{ByLabels};

use sva_host_state::{HostState, completion, is_live, send};
use sva_msg::Flight;
use sva_step::{Answer, Refusal};

/// What the binding that bears a PASID at an endpoint has at a page: its frame, and whether it may be written. Nothing where
/// there is none, it isn't Live, or its space doesn't map the page.
fn translation(host: &HostState, endpoint: u64, pasid: u32, page: u64) -> Option<(u32, bool)>
    ensures { option_map (λ at. page_seen (page, at)) result ≡ found_for host.now page (bearer host.now endpoint pasid) }
{
    let Some(place) = host.bindings.place_under(endpoint, pasid) else {
        return None;
    };
    if !is_live(&place.stage) {
        return None;
    }
    host.address_spaces.find(place.space, page)
}

/// A Translation Request arrives, and is answered from the space of the binding that bears its PASID at the endpoint; at a
/// unit in reset it is dropped. `NumbersSpent` where no number is left for the completion, and `OutOfMemory` where a growth
/// is refused: then the request stays in flight.
pub(crate) fn request_arrives(
    host: &mut HostState,
    flight: &Flight,
    tag: u8,
    pasid: u32,
    page: u64,
) -> Result<Answer, Refusal>
    requires sound { IsSound host.old }
    requires arriving { IsArriving host.old flight.now.number flight.now.message.endpoint (kind.Request tag pasid page) }
    requires there { StandsAt host.old flight.now }
    ensures step { ByLabels host.old (step.Deliver flight.now.number) result host.new }
    ensures memory { (unit_of host.old flight.now.message.endpoint).is_open ≡ false → result ≢ Err refusal.OutOfMemory }
{
    let endpoint = flight.message.endpoint;
    let at = endpoint as usize;
    if !host.ports[at].unit.is_open() {
        host.in_flight.deliver_found(flight);
        return Ok(Answer::Dropped);
    }
    let found = translation(host, endpoint, pasid, page);
    send(&mut host.in_flight, endpoint, completion(tag, found), 1)?;
    host.in_flight.deliver_found(flight);
    Ok(Answer::Completion)
}
