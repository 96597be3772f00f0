//! The steps of an endpoint.

ghost use Rattle.std.specs.Prelude.{◌≢◌, Err};
ghost use Rattle.sva_step.specs.declared.refusals.Refusal.TheVariants as refusal;
ghost use Rattle.sva_step.specs.declared.steps.Step.TheVariants as step;
ghost use Rattle.sva_host_state.specs.Steps.{ByLabels};

use sva_endpoint::Fault;
use sva_host_state::{HostState, port, send};
use sva_step::{Answer, Refusal};

/// An endpoint asks for a translation of this page under this PASID.
pub fn ask(host: &mut HostState, endpoint: u64, pasid: u64, page: u64) -> Result<Answer, Refusal>
    ensures { ByLabels host.old (step.Ask endpoint pasid page) result host.new }
{
    let at = port(host, endpoint)?;
    let asking = host.ports[at].device.may_ask(pasid, page)?;
    send(&mut host.in_flight, endpoint, asking.kind(), 1)?;
    host.ports[at].device.ask(asking);
    Ok(Answer::Tag { tag: asking.tag })
}

/// An endpoint begins a use of the translation of this page that it holds, to write or only to read.
pub fn begin_use(
    host: &mut HostState,
    endpoint: u64,
    pasid: u64,
    page: u64,
    write: bool,
) -> Result<Answer, Refusal>
    ensures step { ByLabels host.old (step.BeginUse endpoint pasid page write) result host.new }
    ensures memory { result ≢ Err refusal.OutOfMemory }
{
    let at = port(host, endpoint)?;
    let using = host.ports[at].device.may_begin_use(pasid, page, write)?;
    host.ports[at].device.begin_use(using);
    Ok(Answer::Use {
        slot: using.slot,
        frame: using.begun.frame,
    })
}

/// An endpoint ends the use in this slot, or is told that a reset ended it.
pub fn end_use(host: &mut HostState, endpoint: u64, slot: u64) -> Result<Answer, Refusal>
    ensures step { ByLabels host.old (step.EndUse endpoint slot) result host.new }
    ensures memory { result ≢ Err refusal.OutOfMemory }
{
    let at = port(host, endpoint)?;
    let answer = host.ports[at].device.may_end_use(slot)?;
    host.ports[at].device.end_use(slot);
    Ok(answer)
}

/// An endpoint lets go of the translation of this page that it holds.
pub fn evict(host: &mut HostState, endpoint: u64, pasid: u64, page: u64) -> Result<Answer, Refusal>
    ensures step { ByLabels host.old (step.Evict endpoint pasid page) result host.new }
    ensures memory { result ≢ Err refusal.OutOfMemory }
{
    let at = port(host, endpoint)?;
    host.ports[at].device.may_evict(pasid, page)?;
    host.ports[at].device.evict(pasid, page);
    Ok(Answer::Evicted)
}

/// An endpoint sends this page request.
pub fn fault(host: &mut HostState, endpoint: u64, fault: &Fault) -> Result<Answer, Refusal>
    ensures { ByLabels host.old
        (step.Fault endpoint fault.now.pasid fault.now.page fault.now.read fault.now.write fault.now.group fault.now.last)
        result host.new }
{
    let at = port(host, endpoint)?;
    let faulting = host.ports[at].device.may_fault(fault)?;
    send(&mut host.in_flight, endpoint, faulting.kind(), 1)?;
    host.ports[at].device.fault(faulting);
    Ok(Answer::Group {
        group: faulting.request.index,
    })
}

/// An endpoint completes the invalidations that this vector names, bit T for ITag T, by so many completions, 1 to 8.
pub fn finish(
    host: &mut HostState,
    endpoint: u64,
    vector: u32,
    count: u64,
) -> Result<Answer, Refusal>
    ensures { ByLabels host.old (step.Finish endpoint vector count) result host.new }
{
    let at = port(host, endpoint)?;
    let finishing = host.ports[at].device.may_finish(vector, count)?;
    let copies = finishing.count.get();
    send(
        &mut host.in_flight,
        endpoint,
        finishing.kind(),
        u64::from(copies),
    )?;
    host.ports[at].device.finish(finishing);
    Ok(Answer::Sent { count: copies })
}

/// An endpoint has stopped using this PASID, and says so.
pub fn quit(host: &mut HostState, endpoint: u64, pasid: u64) -> Result<Answer, Refusal>
    ensures { ByLabels host.old (step.Quit endpoint pasid) result host.new }
{
    let at = port(host, endpoint)?;
    let quitting = host.ports[at].device.may_quit(pasid)?;
    send(&mut host.in_flight, endpoint, quitting.kind(), 1)?;
    host.ports[at].device.quit(quitting);
    Ok(Answer::Marker)
}
