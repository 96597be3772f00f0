//! What each act leaves of the world.

ghost use Rattle.std.specs.Prelude.{◌≡◌, IfOk, slice_get};
ghost use Rattle.sva_search.specs.Rules.{IsStep};
ghost use Rattle.sva_open.specs.Acts as acts;
ghost use Rattle.sva_open.specs.Acts.{next_open, next_part};
ghost use Rattle.sva_open.specs.Below.{shared_by, told, with_told};

use crate::asking::{ask, begin_use, end_use, evict, fault, more};
use crate::barriers::{await_passed, pass, send_barrier};
use crate::below::{about, head_of, is_held_up, is_of_unit, tell};
use crate::controls::{leave, turn};
use crate::deliveries::deliver;
use crate::expiring::{expire, resume};
use crate::finishing::{finish, quit};
use crate::hosting::{
    await_gone, await_groups, await_idle, await_queue, await_queue_of, await_resets, await_stopped,
    await_wait, clear_entry, close, free_pasid, reopen, replace, reset, set_entry, skip, start,
    stop, submit,
};
use crate::loose::pump_at;
use crate::pumping::{forget, forget_entry, pump};
use crate::receiving::write;
use crate::serving::{discard, respond, respond_all, serve};
use std::alloc::AllocError;
use sva_open::{Act, Descriptor, LocalAct, Mapping, Open, Part, Settings, Target, Tenure, set_at};

/// Does an act where it is permitted, and says whether it is. Else nothing changes.
fn act_at_part(
    part: &mut Part,
    settings: &Settings,
    mappings: &[Mapping],
    act: &LocalAct,
) -> Result<bool, AllocError>
    ensures { IfOk result (λ done.
        IsStep (next_part settings.now mappings.now part.old act.now) done part.old part.new) }
{
    match act {
        LocalAct::SetEntry { pasid, space } => set_entry(part, *pasid, *space),
        LocalAct::Replace { pasid, space } => Ok(replace(part, *pasid, *space)),
        LocalAct::ClearEntry { pasid } => Ok(clear_entry(part, *pasid)),
        LocalAct::Start { pasid } => start(part, *pasid),
        LocalAct::Stop { pasid } => stop(part, *pasid),
        LocalAct::Barrier { barrier } => send_barrier(part, *barrier),
        LocalAct::Reset => reset(part),
        LocalAct::Submit { descriptors } => submit(part, descriptors.as_slice()),
        LocalAct::Close => Ok(close(part)),
        LocalAct::Reopen => Ok(reopen(part)),
        LocalAct::Skip => Ok(skip(part)),
        LocalAct::Resume => Ok(resume(part)),
        LocalAct::AwaitWait { name } => Ok(await_wait(part, *name)),
        LocalAct::AwaitStopped { pasid } => Ok(await_stopped(part, *pasid)),
        LocalAct::AwaitPassed { pasid, thread } => Ok(await_passed(part, *pasid, *thread)),
        LocalAct::AwaitQueue => Ok(await_queue(part)),
        LocalAct::AwaitQueueOf { pasid } => Ok(await_queue_of(part, *pasid)),
        LocalAct::AwaitGroups { pasid } => Ok(await_groups(part, *pasid)),
        LocalAct::AwaitResets => Ok(await_resets(part)),
        LocalAct::Turn { control, on } => {
            turn(part, *control, *on);
            Ok(true)
        }
        LocalAct::AwaitIdle => Ok(await_idle(part)),
        LocalAct::AwaitGone => Ok(await_gone(part)),
        LocalAct::Serve => serve(part),
        LocalAct::Respond {
            pasid,
            index,
            fails,
        } => {
            respond(part, *pasid, *index, *fails)?;
            Ok(true)
        }
        LocalAct::RespondAll { pasid, fails } => {
            respond_all(part, *pasid, *fails)?;
            Ok(true)
        }
        LocalAct::Discard { pasid } => {
            discard(part, *pasid);
            Ok(true)
        }
        LocalAct::FreePasid { pasid } => free_pasid(part, *pasid),
        LocalAct::Ask { pasid, page } => ask(part, *pasid, *page),
        LocalAct::Use { pasid, page } => begin_use(part, *pasid, *page),
        LocalAct::End { place } => Ok(end_use(part, *place)),
        LocalAct::Evict { pasid, page } => Ok(evict(part, *pasid, *page)),
        LocalAct::Fault {
            pasid,
            page,
            write,
            last,
        } => fault(part, *pasid, *page, *write, *last),
        LocalAct::More {
            index,
            page,
            write,
            last,
        } => more(part, *index, *page, *write, *last),
        LocalAct::Finish { place } => finish(part, *place),
        LocalAct::Pass { place } => pass(part, settings.stopped, *place),
        LocalAct::Quit { pasid } => quit(part, settings.stopped, *pasid),
        LocalAct::Leave => Ok(leave(part)),
        LocalAct::Pump => pump(part, settings),
        LocalAct::PumpAt { place } => pump_at(part, settings, *place),
        LocalAct::Expire { itag, silent } => expire(part, settings, *itag, *silent),
        LocalAct::Write => write(part, settings),
        LocalAct::ForgetEntry { place } => Ok(forget_entry(part, *place)),
        LocalAct::Forget { place } => Ok(forget(part, *place)),
        LocalAct::Deliver { place } => deliver(part, settings, mappings, *place),
    }
}

/// Does an act where it is permitted, and says whether it is. Else nothing changes. After an error, of memory or of
/// numbers that have come to their end, nothing is said of the world.
pub fn act(now: &mut Open, act: &Act) -> Result<bool, AllocError>
    ensures { IfOk result (λ done. IsStep (next_open now.old act.now) done now.old now.new) }
{
    match act {
        Act::Mark => Ok(true),
        Act::SetPage {
            space,
            page,
            frame,
            write,
        } => set_page(now, *space, *page, *frame, *write),
        Act::ClearPage { space, page } => {
            drop_page(&mut now.mappings, *space, *page);
            Ok(true)
        }
        Act::FreeFrame { frame } => free_frame(now, *frame),
        Act::Freeze { frame } => freeze(now, *frame),
        Act::FreeSpace { space } => {
            now.freed.push(*space)?;
            Ok(true)
        }
        Act::FreeDomain { space } => {
            now.domains.push(*space)?;
            Ok(true)
        }
        Act::At { endpoint, act } => {
            let endpoint = about(now.units.as_slice(), *endpoint, act, now.parts.as_slice());
            done_at(now, endpoint, act)
        }
    }
}

/// The same with what the others see of it that stand below the same unit.
fn done_at(now: &mut Open, endpoint: usize, act: &LocalAct) -> Result<bool, AllocError>
    ensures { IfOk result (λ done. IsStep (acts.done_at now.old endpoint act.now) done now.old now.new) }
{
    if now.units.is_empty() {
        return act_at(now, endpoint, act);
    }
    shared_at(now, endpoint, act)
}

fn shared_at(now: &mut Open, endpoint: usize, act: &LocalAct) -> Result<bool, AllocError>
    ensures { IfOk result (λ done.
        IsStep (shared_by now.old.units endpoint act.now now.old.parts (acts.at_endpoint now.old endpoint act.now))
        done now.old now.new) }
{
    if is_held_up(now.parts.as_slice(), now.units.as_slice(), endpoint, act) {
        return Ok(false);
    }
    let head = head_of(act, now.parts.as_slice(), endpoint);
    let done = act_at(now, endpoint, act)?;
    if done && is_of_unit(act) {
        tell_all(now, endpoint, act, head)?;
    }
    Ok(done)
}

fn tell_all(
    now: &mut Open,
    endpoint: usize,
    act: &LocalAct,
    head: Option<Descriptor>,
) -> Result<(), AllocError>
    ensures { IfOk result (λ _. now.new ≡ with_told now.old.units endpoint act.now head now.old) }
{
    let Open {
        settings: _,
        mappings: _,
        frames: _,
        freed: _,
        domains: _,
        parts,
        units,
    } = now;
    tell_parts(parts, units.as_slice(), endpoint, act, head)?;
    Ok(())
}

/// What an endpoint has now is told to all.
fn tell_parts(
    parts: &mut Vec<Part>,
    units: &[usize],
    endpoint: usize,
    act: &LocalAct,
    head: Option<Descriptor>,
) -> Result<(), AllocError>
    ensures { IfOk result (λ _.
        parts.new.items ≡ told units.now endpoint act.now head (slice_get parts.old.items endpoint) parts.old.items) }
{
    let alloc = *parts.allocator();
    let after = match parts.get(endpoint) {
        None => return Ok(()),
        Some(part) => part.copy(alloc)?,
    };
    tell(parts, units, endpoint, act, head, &after)?;
    Ok(())
}

fn act_at(now: &mut Open, endpoint: usize, act: &LocalAct) -> Result<bool, AllocError>
    ensures { IfOk result (λ done. IsStep (acts.at_endpoint now.old endpoint act.now) done now.old now.new) }
{
    let Open {
        settings,
        mappings,
        frames: _,
        freed: _,
        domains: _,
        parts,
        units: _,
    } = now;
    let done = act_in(parts, settings, mappings.as_slice(), endpoint, act)?;
    Ok(done)
}

#[tactic(auto, using(crate::proofs::Stepped::acted, crate::proofs::Stepped::past))]
fn act_in(
    parts: &mut Vec<Part>,
    settings: &Settings,
    mappings: &[Mapping],
    endpoint: usize,
    act: &LocalAct,
) -> Result<bool, AllocError>
    ensures { IfOk result (λ done.
        IsStep (acts.parts_after settings.now mappings.now parts.old.items endpoint act.now
        (slice_get parts.old.items endpoint)) done parts.old.items parts.new.items) }
{
    if endpoint >= parts.len() {
        return Ok(false);
    }
    let done = act_at_part(&mut parts[endpoint], settings, mappings, act)?;
    Ok(done)
}

fn set_page(
    now: &mut Open,
    space: u64,
    page: u64,
    frame: usize,
    write: bool,
) -> Result<bool, AllocError>
    ensures { IfOk result (λ done.
        IsStep (acts.set_page now.old space page frame write (slice_get now.old.frames frame))
        done now.old now.new) }
{
    let Some(tenure) = now.frames.get(frame).copied() else {
        return Ok(false);
    };
    drop_page(&mut now.mappings, space, page);
    now.mappings.push(Mapping {
        space,
        page,
        target: Target {
            frame,
            tenure,
            write,
        },
    })?;
    Ok(true)
}

fn free_frame(now: &mut Open, frame: usize) -> Result<bool, AllocError>
    ensures { IfOk result (λ done.
        IsStep (acts.free_frame now.old frame (slice_get now.old.frames frame)) done now.old now.new) }
{
    let Some(tenure) = now.frames.get(frame).copied() else {
        return Ok(false);
    };
    let Some(given) = tenure.given.checked_add(1) else {
        return Err(AllocError);
    };
    set_at(&mut now.frames, frame, Tenure { given, ..tenure });
    Ok(true)
}

fn freeze(now: &mut Open, frame: usize) -> Result<bool, AllocError>
    ensures { IfOk result (λ done.
        IsStep (acts.freeze now.old frame (slice_get now.old.frames frame)) done now.old now.new) }
{
    let Some(tenure) = now.frames.get(frame).copied() else {
        return Ok(false);
    };
    let Some(frozen) = tenure.frozen.checked_add(1) else {
        return Err(AllocError);
    };
    set_at(&mut now.frames, frame, Tenure { frozen, ..tenure });
    Ok(true)
}

/// Takes out a page.
fn drop_page(mappings: &mut Vec<Mapping>, space: u64, page: u64)
    ensures { mappings.new.items ≡ acts.without_page space page mappings.old.items }
{
    mappings.retain(|one| !one.is_page(space, page));
}
