//! What a whole search says never happened, although a budget or a line allows it.

ghost use Rattle.std.specs.Prelude.{◌≡◌, ◌++◌, OnOk, Some, slice_get};
ghost use Rattle.sva_driver_texts.specs.Budgets as budgets;
ghost use Rattle.sva_driver_reports.specs.Nevers as nevers;

use crate::fronts::put_if;
use crate::untaken::{put_untaken, untaken};
use std::alloc::{AllocError, Global};
use sva_driver_texts::Text;
use sva_driver_words::{put_endpoint, put_one};
use sva_judge::{Fact, Looked};
use sva_open::{Act, Budget, Device, Line, LocalAct, Named, Saying};

/// Whether it is a fact of an endpoint that has a translation, or sends a page request.
fn is_trial(fact: Fact) -> bool
    ensures { result ≡ nevers.is_trial fact }
{
    matches!(fact, Fact::Holds { .. } | Fact::Faults { .. })
}

/// Whether an endpoint ever had a translation, or sent a page request.
pub(crate) fn is_tried(looked: &[Looked]) -> bool
    ensures { result ≡ nevers.is_tried looked.now }
{
    looked.iter().any(|one| one.is_met && is_trial(one.fact))
}

fn is_budgeted(fact: Fact, budget: Budget) -> bool
    ensures { result ≡ nevers.is_budgeted fact budget }
{
    match fact {
        Fact::Holds { .. } => 0 < budget.asks,
        Fact::Uses { .. } => 0 < budget.uses,
        Fact::Faults { .. } => 0 < budget.faults,
        Fact::Leads { .. } | Fact::Taken { .. } => false,
    }
}

fn has_budget(fact: Fact, devices: &[Device], endpoint: usize) -> bool
    ensures { result ≡ nevers.has_budget fact (slice_get devices.now endpoint) }
{
    match devices.get(endpoint) {
        None => false,
        Some(device) => is_budgeted(fact, device.budget),
    }
}

fn is_ask(act: &LocalAct) -> bool
    ensures { result ≡ budgets.is_ask act.now }
{
    matches!(act, LocalAct::Ask { .. })
}

fn is_use(act: &LocalAct) -> bool
    ensures { result ≡ nevers.is_use act.now }
{
    matches!(act, LocalAct::Use { .. })
}

fn is_fault(act: &LocalAct) -> bool
    ensures { result ≡ nevers.is_fault act.now }
{
    matches!(act, LocalAct::Fault { .. })
}

/// Whether it is the act by which a fact of an endpoint comes.
fn is_act_of(fact: Fact, act: &LocalAct) -> bool
    ensures { result ≡ nevers.is_act_of fact act.now }
{
    match fact {
        Fact::Holds { .. } => is_ask(act),
        Fact::Uses { .. } => is_use(act),
        Fact::Faults { .. } => is_fault(act),
        Fact::Leads { .. } | Fact::Taken { .. } => false,
    }
}

/// Whether a group goes on with a page request.
fn is_more(named: Named) -> bool
    ensures { result ≡ nevers.is_more named }
{
    matches!(named, Named::More { .. })
}

fn is_named_by(fact: Fact, named: Named) -> bool
    ensures { result ≡ nevers.is_named_by fact named }
{
    match fact {
        Fact::Faults { .. } => is_more(named),
        Fact::Holds { .. } | Fact::Uses { .. } | Fact::Leads { .. } | Fact::Taken { .. } => false,
    }
}

/// Whether a line asks, uses, or sends a page request there.
fn does(endpoint: usize, fact: Fact, saying: &Saying) -> bool
    ensures { result ≡ nevers.does endpoint fact saying.now }
{
    match saying {
        Saying::Does { act } => match act {
            Act::At { endpoint: own, act } => *own == endpoint && is_act_of(fact, act),
            Act::Mark
            | Act::SetPage { .. }
            | Act::ClearPage { .. }
            | Act::FreeFrame { .. }
            | Act::Freeze { .. }
            | Act::FreeSpace { .. }
            | Act::FreeDomain { .. } => false,
        },
        Saying::Names {
            endpoint: own,
            named,
        } => *own == endpoint && is_named_by(fact, *named),
        Saying::AwaitsLine { .. }
        | Saying::AwaitsWaits { .. }
        | Saying::Locks { .. }
        | Saying::Unlocks { .. }
        | Saying::Sets { .. }
        | Saying::Looks { .. } => false,
    }
}

fn is_done(lines: &[Line], endpoint: usize, fact: Fact) -> bool
    ensures { result ≡ nevers.is_done lines.now endpoint fact }
{
    lines.iter().any(|line| does(endpoint, fact, &line.saying))
}

/// Whether a budget or a line allows it.
fn is_possible(devices: &[Device], lines: &[Line], endpoint: usize, fact: Fact) -> bool
    ensures { result ≡ nevers.is_possible devices.now lines.now endpoint fact }
{
    has_budget(fact, devices, endpoint) || is_done(lines, endpoint, fact)
}

/// Appends what never happened at an endpoint.
fn put_what(out: &mut Vec<u8>, endpoint: usize, what: &[u8]) -> Result<(), AllocError>
    ensures { OnOk result (out.new.items ≡ out.old.items ++ nevers.what_text endpoint what.now) }
{
    put_endpoint(out, b"never: endpoint", endpoint)?;
    out.extend_from_slice(what)?;
    Ok(())
}

/// Appends what never happened at an endpoint, where it might.
fn put_at(
    out: &mut Vec<u8>,
    devices: &[Device],
    lines: &[Line],
    endpoint: usize,
    fact: Fact,
    what: &[u8],
) -> Result<(), AllocError>
    ensures { OnOk result (out.new.items
        ≡ out.old.items ++ nevers.endpoint_text devices.now lines.now endpoint fact what.now) }
{
    if is_possible(devices, lines, endpoint, fact) {
        return put_what(out, endpoint, what);
    }
    Ok(())
}

/// What a line does with a frame.
fn giving_text(saying: &Saying) -> &'static [u8]
    ensures { result.now ≡ nevers.giving_text saying.now }
{
    match saying {
        Saying::Does {
            act: Act::Freeze { .. },
        } => b" freezes, at any endpoint\n",
        _ => b" gives away, at any endpoint\n",
    }
}

/// Appends that no translation ever led to a frame that a line gives away or freezes.
fn put_line_frame(out: &mut Vec<u8>, frame: usize, line: &Line) -> Result<(), AllocError>
    ensures { OnOk result (out.new.items ≡ out.old.items ++ nevers.frame_text frame (Some line.now)) }
{
    out.extend_from_slice(b"never: a translation to frame")?;
    put_one(out, frame as u64)?;
    out.extend_from_slice(b", which line")?;
    put_one(out, line.number)?;
    out.extend_from_slice(giving_text(&line.saying))
}

/// The same, of the line at a place.
fn put_frame(
    out: &mut Vec<u8>,
    frame: usize,
    lines: &[Line],
    place: usize,
) -> Result<(), AllocError>
    ensures { OnOk result (out.new.items
        ≡ out.old.items ++ nevers.frame_text frame (slice_get lines.now place)) }
{
    match lines.get(place) {
        None => Ok(()),
        Some(line) => put_line_frame(out, frame, line),
    }
}

/// Appends that something never happened, where it might. Of lines that were never taken nothing is said here: they
/// are told together.
fn put_never_of(
    out: &mut Vec<u8>,
    devices: &[Device],
    lines: &[Line],
    fact: Fact,
) -> Result<(), AllocError>
    ensures { OnOk result (out.new.items ≡ out.old.items ++ nevers.never_of devices.now lines.now fact) }
{
    match fact {
        Fact::Holds { endpoint } => put_at(
            out,
            devices,
            lines,
            endpoint,
            fact,
            b" holds a translation\n",
        ),
        Fact::Uses { endpoint } => put_at(
            out,
            devices,
            lines,
            endpoint,
            fact,
            b" uses a translation\n",
        ),
        Fact::Faults { endpoint } => put_at(
            out,
            devices,
            lines,
            endpoint,
            fact,
            b" sends a page request\n",
        ),
        Fact::Leads { line, frame } => put_frame(out, frame, lines, line),
        Fact::Taken { .. } => Ok(()),
    }
}

/// Appends that a fact was not met, where it might have been.
fn put_never(
    out: &mut Vec<u8>,
    devices: &[Device],
    lines: &[Line],
    one: &Looked,
) -> Result<(), AllocError>
    ensures { OnOk result (out.new.items
        ≡ out.old.items ++ nevers.never_text devices.now lines.now one.now) }
{
    if one.is_met {
        return Ok(());
    }
    put_never_of(out, devices, lines, one.fact)
}

/// Appends each of the facts that was not met, where it might have been.
fn put_each(
    out: &mut Vec<u8>,
    devices: &[Device],
    lines: &[Line],
    looked: &[Looked],
) -> Result<(), AllocError>
    ensures { OnOk result (out.new.items
        ≡ out.old.items ++ nevers.nevers_from devices.now lines.now looked.now) }
{
    for place in 0..looked.len() {
        put_never(out, devices, lines, &looked[place])?;
    }
    Ok(())
}

/// Appends that no endpoint ever had a translation or sent a page request, where none did.
pub(crate) fn put_untried(out: &mut Vec<u8>, tried: bool) -> Result<(), AllocError>
    ensures { OnOk result (out.new.items ≡ out.old.items ++ nevers.untried_text tried) }
{
    put_if(
        out,
        !tried,
        b", but no endpoint ever held a translation or sent a page request",
    )
}

/// Appends what never happened, although a budget or a line allows it, and which lines were never taken.
pub(crate) fn put_nevers(
    alloc: Global,
    out: &mut Vec<u8>,
    text: &Text,
    looked: &[Looked],
) -> Result<(), AllocError>
    ensures { OnOk result (out.new.items ≡ out.old.items ++ nevers.nevers_text text.now looked.now) }
{
    if !is_tried(looked) {
        return Ok(());
    }
    let lines = text.driver.lines.as_slice();
    let never = untaken(alloc, text.driver.taken.as_slice(), lines, looked)?;
    put_each(out, text.driver.devices.as_slice(), lines, looked)?;
    put_untaken(out, never.as_slice())?;
    Ok(())
}
