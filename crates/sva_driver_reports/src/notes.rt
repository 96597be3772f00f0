//! What endpoints may do by themselves, and what they are at where a line waits.

ghost use Rattle.std.specs.Prelude.{◌≡◌, ◌++◌, OnOk, slice_get};
ghost use Rattle.sva_judge.specs.Choices as choices;
ghost use Rattle.sva_driver_words.specs.Pieces.{with_endpoint};
ghost use Rattle.sva_driver_reports.specs.Reports as reports;
ghost use Rattle.sva_driver_reports.specs.Witness.{said_if};

use crate::fronts::put_if;
use crate::witness::put_line_who;
use std::alloc::AllocError;
use sva_driver_texts::{Text, is_pageless, is_unasked, is_unstarted};
use sva_driver_words::{put_counted, put_endpoint, put_one};
use sva_judge::Spot;
use sva_open::{Conduct, Device, Group, Line, Part, Row};

/// Appends what can't be made of a budget, and why.
fn put_unmade(
    out: &mut Vec<u8>,
    lines: &[Line],
    endpoint: usize,
    device: &Device,
) -> Result<(), AllocError>
    ensures { OnOk result (out.new.items
        ≡ out.old.items ++ reports.unmade_text lines.now endpoint device.now) }
{
    if is_unstarted(lines, endpoint, device) {
        return out.extend_from_slice(b"; none can be made: no line starts a PASID there");
    }
    let pageless = is_pageless(device);
    let unasked = is_unasked(lines, endpoint, device);
    put_if(
        out,
        pageless,
        b"; no ask or fault can be made: it has no page",
    )?;
    put_if(out, unasked, b"; no use can be made: nothing asks there")
}

/// Appends what an endpoint may do by itself, and what can't be made of it.
fn put_within(
    out: &mut Vec<u8>,
    lines: &[Line],
    endpoint: usize,
    device: &Device,
    conduct: Conduct,
) -> Result<(), AllocError>
    ensures { OnOk result (out.new.items
        ≡ out.old.items ++ reports.within_text lines.now endpoint device.now conduct) }
{
    put_endpoint(out, b"within endpoint", endpoint)?;
    out.extend_from_slice(b": ")?;
    put_counted(out, device.budget.asks, "ask", "asks")?;
    out.extend_from_slice(b", ")?;
    put_counted(out, device.budget.uses, "use", "uses")?;
    out.extend_from_slice(b", ")?;
    put_counted(out, device.budget.faults, "fault", "faults")?;
    put_if(out, device.evicts, b", evicts")?;
    put_if(out, device.is_silent, b", silent")?;
    put_if(out, conduct.lies, b", lies")?;
    put_if(out, conduct.awaits, b", awaits")?;
    put_if(out, device.leaves, b", leaves")?;
    put_unmade(out, lines, endpoint, device)?;
    out.extend_from_slice(b"\n")?;
    Ok(())
}

fn conduct_in(parts: &[Part], endpoint: usize) -> Conduct
    ensures { result ≡ reports.conduct_in (slice_get parts.now endpoint) }
{
    match parts.get(endpoint) {
        None => Conduct {
            lies: false,
            awaits: false,
        },
        Some(part) => Conduct {
            lies: part.lies,
            awaits: part.awaits,
        },
    }
}

/// Appends what an endpoint may do by itself, behind a mark.
fn put_marked(
    out: &mut Vec<u8>,
    mark: &[u8],
    parts: &[Part],
    lines: &[Line],
    endpoint: usize,
    device: &Device,
) -> Result<(), AllocError>
    ensures { OnOk result (out.new.items ≡ out.old.items
        ++ reports.marked_text mark.now parts.now lines.now endpoint device.now) }
{
    out.extend_from_slice(mark)?;
    put_within(out, lines, endpoint, device, conduct_in(parts, endpoint))
}

/// Appends what each endpoint may do by itself, each line behind a mark.
fn put_all_budgets(
    out: &mut Vec<u8>,
    mark: &[u8],
    parts: &[Part],
    lines: &[Line],
    devices: &[Device],
) -> Result<(), AllocError>
    ensures { OnOk result (out.new.items
        ≡ out.old.items ++ reports.budgets_from mark.now parts.now lines.now 0 devices.now) }
{
    for endpoint in 0..devices.len() {
        put_marked(out, mark, parts, lines, endpoint, &devices[endpoint])?;
    }
    Ok(())
}

/// Appends what each endpoint may do by itself, each line behind a mark.
pub(crate) fn put_budgets(out: &mut Vec<u8>, mark: &[u8], text: &Text) -> Result<(), AllocError>
    ensures { OnOk result (out.new.items ≡ out.old.items ++ reports.budgets_text mark.now text.now) }
{
    put_all_budgets(
        out,
        mark,
        text.driver.start.parts.as_slice(),
        text.driver.lines.as_slice(),
        text.driver.devices.as_slice(),
    )
}

/// Appends that a PASID is to stop, if it is.
fn put_stopping(
    out: &mut Vec<u8>,
    endpoint: usize,
    pasid: usize,
    row: &Row,
) -> Result<(), AllocError>
    ensures { OnOk result (out.new.items ≡ out.old.items ++ reports.stopping_text endpoint pasid row.now) }
{
    if !row.state.is_stopping() {
        return Ok(());
    }
    put_endpoint(out, b"# endpoint", endpoint)?;
    out.extend_from_slice(b" is told to stop PASID")?;
    put_one(out, pasid as u64)?;
    out.extend_from_slice(b"\n")
}

fn put_rows(out: &mut Vec<u8>, endpoint: usize, rows: &[Row]) -> Result<(), AllocError>
    ensures { OnOk result (out.new.items ≡ out.old.items ++ reports.rows_from endpoint 0 rows.now) }
{
    for pasid in 0..rows.len() {
        put_stopping(out, endpoint, pasid, &rows[pasid])?;
    }
    Ok(())
}

fn finished_text(is_finished: bool) -> &'static str
    ensures { result.now ≡ reports.finished_text is_finished }
{
    if is_finished {
        ", which isn't answered\n"
    } else {
        ", which isn't finished\n"
    }
}

/// Appends a group, if there is one.
fn put_group(
    out: &mut Vec<u8>,
    endpoint: usize,
    index: usize,
    group: Option<Group>,
) -> Result<(), AllocError>
    ensures { OnOk result (out.new.items ≡ out.old.items ++ reports.group_text endpoint index group) }
{
    let Some(group) = group else {
        return Ok(());
    };
    put_endpoint(out, b"# endpoint", endpoint)?;
    out.extend_from_slice(b" has group")?;
    put_one(out, index as u64)?;
    out.extend_from_slice(b" of PASID")?;
    put_one(out, group.pasid as u64)?;
    out.extend_from_slice(finished_text(group.is_finished).as_bytes())?;
    Ok(())
}

fn put_groups(
    out: &mut Vec<u8>,
    endpoint: usize,
    groups: &[Option<Group>],
) -> Result<(), AllocError>
    ensures { OnOk result (out.new.items ≡ out.old.items ++ reports.groups_from endpoint 0 groups.now) }
{
    for index in 0..groups.len() {
        put_group(out, endpoint, index, groups[index])?;
    }
    Ok(())
}

/// Appends what is off at an endpoint, where it is.
fn put_off(out: &mut Vec<u8>, endpoint: usize, is_on: bool, what: &[u8]) -> Result<(), AllocError>
    ensures { OnOk result (out.new.items ≡ out.old.items ++ reports.off_text endpoint is_on what.now) }
{
    if is_on {
        return Ok(());
    }
    put_endpoint(out, b"# endpoint", endpoint)?;
    out.extend_from_slice(what)
}

/// Appends what is turned off at an endpoint, and whether it is gone.
fn put_turned(
    out: &mut Vec<u8>,
    endpoint: usize,
    has_ats: bool,
    has_requests: bool,
    is_master: bool,
    is_gone: bool,
) -> Result<(), AllocError>
    ensures { OnOk result (out.new.items
        ≡ out.old.items ++ reports.turned_text endpoint has_ats has_requests is_master is_gone) }
{
    put_off(
        out,
        endpoint,
        has_ats,
        b" has ATS off, and answers no invalidation that comes\n",
    )?;
    put_off(out, endpoint, has_requests, b" has page requests off\n")?;
    put_off(out, endpoint, is_master, b" has bus mastering off\n")?;
    put_off(out, endpoint, !is_gone, b" is gone, and answers nothing\n")?;
    Ok(())
}

/// Appends what something of an endpoint is at, where it is.
fn put_where(
    out: &mut Vec<u8>,
    so: bool,
    of: &[u8],
    endpoint: usize,
    what: &[u8],
) -> Result<(), AllocError>
    ensures { OnOk result (out.new.items
        ≡ out.old.items ++ said_if so (with_endpoint of.now endpoint ++ what.now)) }
{
    if !so {
        return Ok(());
    }
    put_endpoint(out, of, endpoint)?;
    out.extend_from_slice(what)
}

/// Appends that the unit of an endpoint has stopped at a time-out, where it has.
fn put_stalled(out: &mut Vec<u8>, endpoint: usize, is_stalled: bool) -> Result<(), AllocError>
    ensures { OnOk result (out.new.items ≡ out.old.items ++ reports.stalled_text endpoint is_stalled) }
{
    put_where(
        out,
        is_stalled,
        b"# unit of endpoint",
        endpoint,
        b" has stopped at a time-out\n",
    )
}

/// Appends what an endpoint is at, and its unit.
fn put_part(out: &mut Vec<u8>, endpoint: usize, part: &Part) -> Result<(), AllocError>
    ensures { OnOk result (out.new.items ≡ out.old.items ++ reports.part_text endpoint part.now) }
{
    put_rows(out, endpoint, part.rows.as_slice())?;
    put_groups(out, endpoint, part.groups.as_slice())?;
    put_off(
        out,
        endpoint,
        part.is_enabled,
        b" may send no page request: a response was a Response Failure\n",
    )?;
    put_turned(
        out,
        endpoint,
        part.has_ats,
        part.has_requests,
        part.is_master,
        part.is_gone,
    )?;
    put_stalled(out, endpoint, part.is_stalled)?;
    Ok(())
}

/// Appends what each endpoint is at.
fn put_parts(out: &mut Vec<u8>, parts: &[Part]) -> Result<(), AllocError>
    ensures { OnOk result (out.new.items ≡ out.old.items ++ reports.parts_from 0 parts.now) }
{
    for endpoint in 0..parts.len() {
        put_part(out, endpoint, &parts[endpoint])?;
    }
    Ok(())
}

/// Appends what each endpoint is at, at a spot.
pub(crate) fn put_state(out: &mut Vec<u8>, spot: &Spot) -> Result<(), AllocError>
    ensures { OnOk result (out.new.items ≡ out.old.items ++ reports.parts_from 0 spot.now.world.parts) }
{
    put_parts(out, spot.world.parts.as_slice())
}

/// Whether a line is the next one of its thread.
fn is_next(spot: &Spot, place: usize, line: &Line) -> bool
    ensures { result ≡ choices.is_next spot.now place line.now }
{
    match spot.at.get(line.thread) {
        Some(Some(next)) => *next == place,
        _ => false,
    }
}

/// Appends that a line waits for ever.
fn put_forever(out: &mut Vec<u8>, thread: &[u8], number: u64) -> Result<(), AllocError>
    ensures { OnOk result (out.new.items ≡ out.old.items ++ reports.forever_text thread.now number) }
{
    put_line_who(out, thread, number)?;
    out.extend_from_slice(b", waits for ever")
}

/// Whether the line at a place waits.
fn waits_at(text: &Text, spot: &Spot, place: usize, line: &Line) -> bool
    ensures { result ≡ reports.waits_by spot.now place line.now (slice_get text.now.said.items place) }
{
    match text.said.get(place) {
        None => false,
        Some(_said) => is_next(spot, place, line),
    }
}

/// The place of the first line that waits, of these.
fn waiting_place(text: &Text, spot: &Spot, lines: &[Line]) -> Option<usize>
    ensures { result ≡ reports.waiting_place text.now spot.now 0 lines.now }
{
    for place in 0..lines.len() {
        if waits_at(text, spot, place, &lines[place]) {
            return Some(place);
        }
    }
    None
}

/// Appends that the line at a place waits for ever.
fn put_waiting_at(out: &mut Vec<u8>, text: &Text, place: usize) -> Result<(), AllocError>
    ensures { OnOk result (out.new.items ≡ out.old.items
        ++ reports.waiting_told (slice_get text.now.driver.lines.items place) (slice_get text.now.said.items place)) }
{
    let Some(line) = text.driver.lines.get(place) else {
        return Ok(());
    };
    let Some(said) = text.said.get(place) else {
        return Ok(());
    };
    put_forever(out, said.thread.as_slice(), line.number)
}

/// Appends the first line that waits.
pub(crate) fn put_waiting(out: &mut Vec<u8>, text: &Text, spot: &Spot) -> Result<(), AllocError>
    ensures { OnOk result (out.new.items ≡ out.old.items ++ reports.waiting_text text.now spot.now) }
{
    match waiting_place(text, spot, text.driver.lines.as_slice()) {
        None => Ok(()),
        Some(place) => put_waiting_at(out, text, place),
    }
}

/// Appends that a line waits too.
fn put_too(out: &mut Vec<u8>, thread: &[u8], number: u64) -> Result<(), AllocError>
    ensures { OnOk result (out.new.items ≡ out.old.items ++ reports.too_text thread.now number) }
{
    out.extend_from_slice(b"# ")?;
    put_line_who(out, thread, number)?;
    out.extend_from_slice(b", waits too\n")
}

/// Appends that the line at a place waits too, if it does and stands behind the first one.
fn put_other(
    out: &mut Vec<u8>,
    text: &Text,
    spot: &Spot,
    first: usize,
    place: usize,
    line: &Line,
) -> Result<(), AllocError>
    ensures { OnOk result (out.new.items ≡ out.old.items
        ++ reports.other_text spot.now first place line.now (slice_get text.now.said.items place)) }
{
    let Some(said) = text.said.get(place) else {
        return Ok(());
    };
    if first < place && is_next(spot, place, line) {
        return put_too(out, said.thread.as_slice(), line.number);
    }
    Ok(())
}

/// Appends each line behind the first one that waits too, of these.
fn put_others_behind(
    out: &mut Vec<u8>,
    text: &Text,
    spot: &Spot,
    first: usize,
    lines: &[Line],
) -> Result<(), AllocError>
    ensures { OnOk result (out.new.items
        ≡ out.old.items ++ reports.others_from text.now spot.now first 0 lines.now) }
{
    for place in 0..lines.len() {
        put_other(out, text, spot, first, place, &lines[place])?;
    }
    Ok(())
}

/// Appends the other lines that wait.
pub(crate) fn put_others(out: &mut Vec<u8>, text: &Text, spot: &Spot) -> Result<(), AllocError>
    ensures { OnOk result (out.new.items ≡ out.old.items ++ reports.others_text text.now spot.now) }
{
    let lines = text.driver.lines.as_slice();
    match waiting_place(text, spot, lines) {
        None => Ok(()),
        Some(first) => put_others_behind(out, text, spot, first, lines),
    }
}
