//! A translation that isn't held, and request tags that are all out.

ghost use Rattle.std.specs.Prelude.{◌≡◌, ◌++◌, OnOk, Some, map};
ghost use Rattle.sva_explain.specs.Tags.{ask_text, asked_if, asked_lines, each_out, no_tag, no_tag_lines, not_held};
ghost use Rattle.sva_explain.specs.Tags.{not_held_at, not_held_line, not_held_lines, out_if, tags_line};
ghost use Rattle.sva_parts_by_labels.specs.Device.{tag_seen};
ghost use Rattle.sva_snapshot.specs.Shown.{endpoint_shown};

use crate::blockers::{Level, put_indent, put_out, put_start};
use crate::enabled::{can_ask, part_at};
use std::alloc::AllocError;
use sva_lines::{end_line, put_field, put_word};
use sva_snapshot::{Endpoint, RequestTag, Snapshot};
use sva_step::Step;

/// Appends a translation request in brackets, where it would be accepted.
fn put_ask(
    out: &mut Vec<u8>,
    snapshot: &Snapshot,
    endpoint: u64,
    pasid: u64,
    page: u64,
) -> Result<(), AllocError>
    ensures { OnOk result (out.new.items ≡ out.old.items ++ ask_text snapshot.now endpoint pasid page) }
{
    if !can_ask(snapshot, endpoint, pasid, page) {
        return Ok(());
    }
    put_field(out, " [ask ", endpoint)?;
    put_field(out, " ", pasid)?;
    put_field(out, " ", page)?;
    put_word(out, "]")
}

/// Appends the line of a page whose translation isn't held.
fn put_not_held_line(
    out: &mut Vec<u8>,
    level: Level,
    snapshot: &Snapshot,
    endpoint: u64,
    pasid: u64,
    page: u64,
) -> Result<(), AllocError>
    ensures { OnOk result (out.new.items ≡ out.old.items
        ++ not_held_line level snapshot.now endpoint pasid page) }
{
    put_indent(out, level)?;
    put_field(out, "endpoint ", endpoint)?;
    put_field(out, " holds no translation of page ", page)?;
    put_field(out, " under pasid ", pasid)?;
    put_ask(out, snapshot, endpoint, pasid, page)?;
    end_line(out)
}

/// Appends the lines of a request that is out, if it is for the page.
fn put_asked_as(
    out: &mut Vec<u8>,
    snapshot: &Snapshot,
    endpoint: u64,
    part: &Endpoint,
    pasid: u64,
    page: u64,
    tag: u64,
    of: u32,
    at: u64,
    is_doomed: bool,
) -> Result<(), AllocError>
    ensures { OnOk result (out.new.items ≡ out.old.items
        ++ asked_if snapshot.now endpoint (endpoint_shown part.now) pasid page tag
        (Some (record { pasid = of; page = at; is_doomed = is_doomed }))) }
{
    if u64::from(of) == pasid && at == page {
        put_out(
            out,
            Level::Second,
            snapshot,
            endpoint,
            part,
            tag,
            of,
            at,
            is_doomed,
        )
    } else {
        Ok(())
    }
}

/// Appends the lines of a tag, if a request for the page is out under it.
fn put_asked_if(
    out: &mut Vec<u8>,
    snapshot: &Snapshot,
    endpoint: u64,
    part: &Endpoint,
    pasid: u64,
    page: u64,
    tag: u64,
    place: &RequestTag,
) -> Result<(), AllocError>
    ensures { OnOk result (out.new.items ≡ out.old.items
        ++ asked_if snapshot.now endpoint (endpoint_shown part.now) pasid page tag (tag_seen place.now)) }
{
    match place {
        RequestTag::Free => Ok(()),
        RequestTag::Out {
            pasid: of,
            page: at,
        } => put_asked_as(
            out, snapshot, endpoint, part, pasid, page, tag, *of, *at, false,
        ),
        RequestTag::Doomed {
            pasid: of,
            page: at,
        } => put_asked_as(
            out, snapshot, endpoint, part, pasid, page, tag, *of, *at, true,
        ),
    }
}

/// Appends the lines of the requests for a page that are out.
fn put_asked(
    out: &mut Vec<u8>,
    snapshot: &Snapshot,
    endpoint: u64,
    part: &Endpoint,
    pasid: u64,
    page: u64,
) -> Result<(), AllocError>
    ensures { OnOk result (out.new.items ≡ out.old.items
        ++ asked_lines snapshot.now endpoint (endpoint_shown part.now) pasid page) }
{
    for (tag, place) in part.device.tags.as_slice().iter().enumerate() {
        put_asked_if(
            out, snapshot, endpoint, part, pasid, page, tag as u64, place,
        )?;
    }
    Ok(())
}

/// Appends what an endpoint lacks that holds no translation of a page.
fn put_not_held_lines(
    out: &mut Vec<u8>,
    snapshot: &Snapshot,
    endpoint: u64,
    pasid: u64,
    page: u64,
    part: &Endpoint,
) -> Result<(), AllocError>
    ensures { OnOk result (out.new.items ≡ out.old.items
        ++ not_held_lines snapshot.now endpoint pasid page (endpoint_shown part.now)) }
{
    put_not_held_line(out, Level::First, snapshot, endpoint, pasid, page)?;
    put_asked(out, snapshot, endpoint, part, pasid, page)
}

/// Appends the same of the endpoint of a number.
fn put_not_held_at(
    out: &mut Vec<u8>,
    snapshot: &Snapshot,
    endpoint: u64,
    pasid: u64,
    page: u64,
) -> Result<(), AllocError>
    ensures { OnOk result (out.new.items ≡ out.old.items ++ not_held_at snapshot.now endpoint pasid page) }
{
    match part_at(snapshot, endpoint) {
        None => Ok(()),
        Some(part) => put_not_held_lines(out, snapshot, endpoint, pasid, page, part),
    }
}

/// Appends which translation a step lacks, and where the requests for it are.
pub fn put_not_held(out: &mut Vec<u8>, snapshot: &Snapshot, step: &Step) -> Result<(), AllocError>
    ensures { OnOk result (out.new.items ≡ out.old.items ++ not_held snapshot.now step.now) }
{
    match step {
        Step::BeginUse {
            endpoint,
            pasid,
            page,
            ..
        }
        | Step::Evict {
            endpoint,
            pasid,
            page,
        } => put_not_held_at(out, snapshot, *endpoint, *pasid, *page),
        _ => Ok(()),
    }
}

/// Appends the lines of a request that is out, below another line.
fn put_out_second(
    out: &mut Vec<u8>,
    snapshot: &Snapshot,
    endpoint: u64,
    part: &Endpoint,
    tag: u64,
    of: u32,
    at: u64,
    is_doomed: bool,
) -> Result<(), AllocError>
    ensures { OnOk result (out.new.items ≡ out.old.items
        ++ out_if snapshot.now endpoint (endpoint_shown part.now) tag
        (Some (record { pasid = of; page = at; is_doomed = is_doomed }))) }
{
    put_out(
        out,
        Level::Second,
        snapshot,
        endpoint,
        part,
        tag,
        of,
        at,
        is_doomed,
    )
}

/// Appends the lines of a tag, if a request is out under it.
fn put_out_if(
    out: &mut Vec<u8>,
    snapshot: &Snapshot,
    endpoint: u64,
    part: &Endpoint,
    tag: u64,
    place: &RequestTag,
) -> Result<(), AllocError>
    ensures { OnOk result (out.new.items ≡ out.old.items
        ++ out_if snapshot.now endpoint (endpoint_shown part.now) tag (tag_seen place.now)) }
{
    match place {
        RequestTag::Free => Ok(()),
        RequestTag::Out { pasid, page } => put_out_second(
            out, snapshot, endpoint, part, tag, *pasid, *page, false,
        ),
        RequestTag::Doomed { pasid, page } => put_out_second(
            out, snapshot, endpoint, part, tag, *pasid, *page, true,
        ),
    }
}

/// Appends the lines of the requests that are out.
fn put_each_out(
    out: &mut Vec<u8>,
    snapshot: &Snapshot,
    endpoint: u64,
    part: &Endpoint,
) -> Result<(), AllocError>
    ensures { OnOk result (out.new.items ≡ out.old.items
        ++ each_out snapshot.now endpoint (endpoint_shown part.now)) }
{
    for (tag, place) in part.device.tags.as_slice().iter().enumerate() {
        put_out_if(out, snapshot, endpoint, part, tag as u64, place)?;
    }
    Ok(())
}

/// Appends that no tag is free.
fn put_tags_line(out: &mut Vec<u8>, level: Level, endpoint: u64) -> Result<(), AllocError>
    ensures { OnOk result (out.new.items ≡ out.old.items ++ tags_line level endpoint) }
{
    put_start(
        out,
        level,
        "all 32 request tags are out at endpoint ",
        endpoint,
    )?;
    end_line(out)
}

/// Appends that no tag is free, and where the requests are.
fn put_no_tag_lines(
    out: &mut Vec<u8>,
    snapshot: &Snapshot,
    endpoint: u64,
    part: &Endpoint,
) -> Result<(), AllocError>
    ensures { OnOk result (out.new.items ≡ out.old.items
        ++ no_tag_lines snapshot.now endpoint (endpoint_shown part.now)) }
{
    put_tags_line(out, Level::First, endpoint)?;
    put_each_out(out, snapshot, endpoint, part)
}

/// Appends where the requests are that leave no tag to a step.
pub fn put_no_tag(out: &mut Vec<u8>, snapshot: &Snapshot, step: &Step) -> Result<(), AllocError>
    ensures { OnOk result (out.new.items ≡ out.old.items ++ no_tag snapshot.now step.now) }
{
    match step {
        Step::Ask { endpoint, .. } => match part_at(snapshot, *endpoint) {
            None => Ok(()),
            Some(part) => put_no_tag_lines(out, snapshot, *endpoint, part),
        },
        _ => Ok(()),
    }
}
