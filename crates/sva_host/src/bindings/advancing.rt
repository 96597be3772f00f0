//! A binding that was unbound goes on, stage by stage, until it is released.

ghost use Rattle.std.specs.Prelude.{◌≢◌, Bool, Ok, Err};
ghost use Rattle.sva_step.specs.declared.refusals.Refusal.TheVariants as refusal;
ghost use Rattle.sva_labels.specs.Sound.{IsSound};
ghost use Rattle.sva_host_state.specs.declared.advancing.Course.TheVariants as course;
ghost use Rattle.sva_host_state.specs.Advancing.{MayAdvance, AdvancesBy};

use sva_host_state::{Course, HostState, descriptors_of, is_due, is_quiet, next_course, stages};
use sva_step::{Answer, NUMBERS, Refusal};

/// What refuses the advance: the first cause that holds, if one does. Else what the binding does next.
fn may_advance(host: &HostState, binding: u64, groups_open: bool) -> Result<Course, Refusal>
    requires { IsSound host.now }
    ensures { MayAdvance host.now groups_open binding result }
{
    let Some(place) = host.bindings.place(binding) else {
        return Err(Refusal::NoSuchBinding);
    };
    if is_quiet(&place.stage) {
        return Ok(next_course(place));
    }
    let unit = &host.ports[place.endpoint as usize].unit;
    if !unit.is_open() {
        return Err(Refusal::Resetting);
    }
    if !is_due(unit, &place.stage, groups_open) {
        return Err(Refusal::NotYet);
    }
    let descriptors = descriptors_of(&place.stage);
    if descriptors == 0 {
        return Ok(next_course(place));
    }
    if !unit.has_room(descriptors) {
        return Err(Refusal::QueueFull);
    }
    if host.next_cookie >= NUMBERS {
        return Err(Refusal::NumbersSpent);
    }
    Ok(next_course(place))
}

/// The unit is asked for a drain of its page requests, for which the binding waits. `NotYet` where the state itself has no
/// marker noted.
fn drain(host: &mut HostState, endpoint: u64, binding: u64) -> Result<Answer, Refusal>
    requires sound { IsSound host.old }
    requires may { (groups_open : Bool) × MayAdvance host.old groups_open binding (Ok (course.Drain endpoint)) }
    ensures step { (groups_open : Bool) → AdvancesBy host.old groups_open binding result host.new }
    ensures memory { result ≢ Err refusal.OutOfMemory }
{
    let cookie = host.next_cookie;
    if !stages::drain(&mut host.bindings, binding, cookie) {
        return Err(Refusal::NotYet);
    }
    host.ports[endpoint as usize].unit.submit_drain(cookie);
    host.next_cookie = cookie + 1;
    Ok(Answer::Draining)
}

/// The unit is asked to invalidate the PASID at the endpoint, for which the binding waits. `NotYet` where the state itself
/// finds its wait not done, or a group open.
fn invalidate(
    host: &mut HostState,
    endpoint: u64,
    pasid: u32,
    binding: u64,
    groups_open: bool,
) -> Result<Answer, Refusal>
    requires sound { IsSound host.old }
    requires may { MayAdvance host.old groups_open binding (Ok (course.Invalidate endpoint pasid)) }
    ensures step { AdvancesBy host.old groups_open binding result host.new }
    ensures memory { result ≢ Err refusal.OutOfMemory }
{
    let cookie = host.next_cookie;
    let unit = &host.ports[endpoint as usize].unit;
    if !stages::invalidate(&mut host.bindings, unit, binding, cookie, groups_open) {
        return Err(Refusal::NotYet);
    }
    host.ports[endpoint as usize]
        .unit
        .submit_pasid(pasid, cookie);
    host.next_cookie = cookie + 1;
    Ok(Answer::Invalidating)
}

/// The endpoint holds nothing of the binding any longer. `NotYet` where the state itself finds its wait not done.
fn settle(host: &mut HostState, endpoint: u64, binding: u64) -> Result<Answer, Refusal>
    requires sound { IsSound host.old }
    requires may { (groups_open : Bool) × MayAdvance host.old groups_open binding (Ok (course.Settle endpoint)) }
    ensures step { (groups_open : Bool) → AdvancesBy host.old groups_open binding result host.new }
    ensures memory { result ≢ Err refusal.OutOfMemory }
{
    let unit = &host.ports[endpoint as usize].unit;
    if !stages::settle(&mut host.bindings, unit, binding) {
        return Err(Refusal::NotYet);
    }
    Ok(Answer::Quiet)
}

/// A binding that was unbound goes on to its next stage, where what it waits for has come. `NoSuchBinding` where it isn't
/// there, `Resetting` where its unit is in reset and it isn't Quiet, `NotYet` where the Stop Marker or the wait has not come,
/// or where its page requests are being drained and a group of it isn't answered (`groups_open`, which the table of jobs
/// tells); `QueueFull` and `NumbersSpent` where the unit has no room for the descriptors or no cookie is left. No memory is
/// taken.
pub fn advance(host: &mut HostState, binding: u64, groups_open: bool) -> Result<Answer, Refusal>
    requires { IsSound host.old }
    ensures step { AdvancesBy host.old groups_open binding result host.new }
    ensures memory { result ≢ Err refusal.OutOfMemory }
{
    match may_advance(host, binding, groups_open)? {
        Course::Drain { endpoint } => drain(host, endpoint, binding),
        Course::Invalidate { endpoint, pasid } => {
            invalidate(host, endpoint, pasid, binding, groups_open)
        }
        Course::Settle { endpoint } => settle(host, endpoint, binding),
        Course::Release => {
            stages::release(&mut host.bindings, binding);
            Ok(Answer::Released)
        }
    }
}
