//! The answers to page request groups (Page Request Group Response: PCI Express Base 5.0, section 10.4.2).
ghost use Rattle.std.specs.Prelude.{◌≡◌, ◌≢◌, ◌<◌, true, false, Some, Err, length};
ghost use Rattle.sva_step.specs.declared.refusals.Refusal.TheVariants as refusal;
ghost use Rattle.sva_model.specs.Wire.{BindingWire};
ghost use Rattle.sva_labels.specs.Finding.{binding_of, is_space};
ghost use Rattle.sva_labels.specs.Replying.{responds};
ghost use Rattle.sva_labels.specs.Sound.{IsSound, IsJob};
ghost use Rattle.sva_host_state.specs.Flights.{code_seen};
ghost use Rattle.sva_host_state.specs.JobTable.{job_seen};
ghost use Rattle.sva_host_state.specs.Steps.{Does};
ghost use Rattle.sva_host_state.specs.Replying.{RespondsBy, responded_of, succeeded, turned_down};

use sva_host_state::{HostState, Response, answer_of, code_by, send};
use sva_msg::{Code, Kind};
use sva_prq::Job;
use sva_step::{Answer, Refusal, Verdict};

/// The response that a job gets, if it gets one: none at a unit in reset, nor where its binding is released, cut off or
/// quiet.
fn response_to(host: &HostState, job: &Job, verdict: Verdict) -> Option<Response>
    requires { job.now.unit < length host.now.parts }
    ensures { RespondsBy host.now (job_seen job.now) verdict result }
{
    let place = host.bindings.place(job.binding())?;
    if !host.ports[job.unit() as usize].unit.is_open() {
        return None;
    }
    let code = code_by(&place.stage, verdict)?;
    Some(Response {
        space: place.space,
        pasid: place.pasid,
        code,
    })
}

/// Answers a job by a code that maps nothing.
fn turn_down(host: &mut HostState, job: &Job, pasid: u32, code: Code) -> Result<Answer, Refusal>
    ensures { Does (turned_down host.old (job_seen job.now) pasid (code_seen code)) host.old result host.new }
{
    let response = Kind::Response {
        pasid,
        index: job.index(),
        code,
    };
    send(&mut host.in_flight, job.unit(), response, 1)?;
    Ok(answer_of(code))
}

/// Maps what a job asks for, and answers it by Success. What is mapped is taken back where there is no memory for the
/// response.
fn succeed(host: &mut HostState, job: &Job, space: u64, pasid: u32) -> Result<Answer, Refusal>
    requires { is_space host.old space ≡ true }
    ensures { Does (succeeded host.old (job_seen job.now) space pasid) host.old result host.new }
{
    let asks = job.asks();
    host.address_spaces.may_map_all(space, asks)?;
    if host.in_flight.left() == 0 {
        return Err(Refusal::NumbersSpent);
    }
    let Ok(pages) = host.address_spaces.map_all(space, asks) else {
        return Err(Refusal::OutOfMemory);
    };
    let response = Kind::Response {
        pasid,
        index: job.index(),
        code: Code::Success,
    };
    if send(&mut host.in_flight, job.unit(), response, 1).is_err() {
        host.address_spaces.take_back(space, &pages);
        return Err(Refusal::OutOfMemory);
    }
    Ok(Answer::Success {
        pages: pages.len() as u32,
    })
}

/// What is answered to a job: a verdict of Success maps each page that the job asks for and that isn't mapped, and the
/// endpoint gets the response code. Where the binding isn't in use any more, it is Invalid Request, and where it is cut off,
/// quiet or released, or the unit is in reset, nothing is sent.
///
/// What else a reply does is another's: it takes the job out of its hand, and ends its group.
pub fn respond(host: &mut HostState, job: &Job, verdict: Verdict) -> Result<Answer, Refusal>
    requires sound { IsSound host.old }
    requires job { IsJob host.old (job_seen job.now) }
    requires space { (b : BindingWire) → binding_of host.old job.now.binding ≡ Some b → is_space host.old b.space ≡ true }
    ensures step { Does (responded_of host.old (job_seen job.now) verdict) host.old result host.new }
    ensures memory { responds host.old (job_seen job.now) ≡ false → result ≢ Err refusal.OutOfMemory }
{
    let Some(response) = response_to(host, job, verdict) else {
        return Ok(Answer::Dropped);
    };
    match response.code {
        Code::Success => succeed(host, job, response.space, response.pasid),
        Code::InvalidRequest => turn_down(host, job, response.pasid, Code::InvalidRequest),
        Code::ResponseFailure => turn_down(host, job, response.pasid, Code::ResponseFailure),
    }
}
