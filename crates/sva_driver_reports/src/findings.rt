//! What is wrong at a moment, in words.

ghost use Rattle.std.specs.Prelude.{◌≡◌, ◌++◌, OnOk};
ghost use Rattle.sva_driver_reports.specs.Findings as findings;

use std::alloc::AllocError;
use sva_driver_words::{put_endpoint, put_one};
use sva_open_safe::{Thing, Wrong};

fn thing_text(thing: Thing) -> &'static str
    ensures { result.now ≡ findings.thing_text thing }
{
    match thing {
        Thing::Held => "held translation",
        Thing::Running => "running use",
        Thing::Completion => "completion in flight",
        Thing::Request => "request that is out",
        Thing::Start => "start in flight",
        Thing::Stop => "stop in flight",
        Thing::PageRequest => "page request in flight",
        Thing::Received => "page request that the unit has received",
        Thing::Queued => "page request in the queue",
        Thing::Marker => "marker in flight",
        Thing::Status => "status in flight",
        Thing::Answer => "answer to a stop",
        Thing::Entry => "entry",
        Thing::KeptEntry => "kept entry",
        Thing::Kept => "kept translation",
        Thing::Filed => "filed group",
    }
}

/// Appends what leads to a frame.
fn put_leads(out: &mut Vec<u8>, thing: Thing, page: u64, pasid: usize) -> Result<(), AllocError>
    ensures { OnOk result (out.new.items ≡ out.old.items ++ findings.leads_text thing page pasid) }
{
    out.extend_from_slice(thing_text(thing).as_bytes())?;
    out.extend_from_slice(b" of page")?;
    put_one(out, page)?;
    out.extend_from_slice(b" (PASID")?;
    put_one(out, pasid as u64)?;
    out.extend_from_slice(b")")
}

/// Appends an endpoint of which something is said.
fn put_of(out: &mut Vec<u8>, endpoint: usize) -> Result<(), AllocError>
    ensures { OnOk result (out.new.items ≡ out.old.items ++ findings.of_endpoint endpoint) }
{
    put_endpoint(out, b"endpoint", endpoint)?;
    out.extend_from_slice(b": ")
}

/// Appends what may be done with a frame.
fn put_frame(
    out: &mut Vec<u8>,
    endpoint: usize,
    may: &[u8],
    is: &[u8],
    frame: usize,
    thing: Thing,
    page: u64,
    pasid: usize,
) -> Result<(), AllocError>
    ensures { OnOk result (out.new.items
        ≡ out.old.items ++ findings.frame_text endpoint may.now is.now frame thing page pasid) }
{
    put_endpoint(out, b"endpoint", endpoint)?;
    out.extend_from_slice(may)?;
    put_one(out, frame as u64)?;
    out.extend_from_slice(is)?;
    put_leads(out, thing, page, pasid)
}

fn put_left(
    out: &mut Vec<u8>,
    endpoint: usize,
    thing: Thing,
    pasid: usize,
) -> Result<(), AllocError>
    ensures { OnOk result (out.new.items
        ≡ out.old.items ++ findings.left_text endpoint thing pasid) }
{
    put_of(out, endpoint)?;
    out.extend_from_slice(thing_text(thing).as_bytes())?;
    out.extend_from_slice(b" of an earlier owner of PASID")?;
    put_one(out, pasid as u64)
}

fn put_goes(out: &mut Vec<u8>, endpoint: usize, pasid: usize) -> Result<(), AllocError>
    ensures { OnOk result (out.new.items ≡ out.old.items ++ findings.goes_text endpoint pasid) }
{
    put_endpoint(out, b"endpoint", endpoint)?;
    out.extend_from_slice(b" still uses PASID")?;
    put_one(out, pasid as u64)?;
    out.extend_from_slice(b" for an earlier owner")
}

fn entry_text(kept: bool) -> &'static str
    ensures { result.now ≡ findings.entry_text kept }
{
    if kept {
        "a kept entry of PASID"
    } else {
        "the entry of PASID"
    }
}

fn put_walks(
    out: &mut Vec<u8>,
    endpoint: usize,
    space: u64,
    kept: bool,
    pasid: usize,
) -> Result<(), AllocError>
    ensures { OnOk result (out.new.items ≡ out.old.items ++ findings.walks_text endpoint space kept pasid) }
{
    put_endpoint(out, b"unit", endpoint)?;
    out.extend_from_slice(b" may still walk the table of space")?;
    put_one(out, space)?;
    out.extend_from_slice(b", whose memory has another owner: ")?;
    out.extend_from_slice(entry_text(kept).as_bytes())?;
    put_one(out, pasid as u64)
}

fn put_serves(
    out: &mut Vec<u8>,
    endpoint: usize,
    space: u64,
    pasid: usize,
) -> Result<(), AllocError>
    ensures { OnOk result (out.new.items ≡ out.old.items ++ findings.serves_text endpoint space pasid) }
{
    out.extend_from_slice(b"a worker may still serve a group of endpoint")?;
    put_one(out, endpoint as u64)?;
    out.extend_from_slice(b" by the domain of space")?;
    put_one(out, space)?;
    out.extend_from_slice(b", which was freed: a filed group of PASID")?;
    put_one(out, pasid as u64)
}

fn put_response(
    out: &mut Vec<u8>,
    endpoint: usize,
    index: usize,
    found: &[u8],
    end: &[u8],
) -> Result<(), AllocError>
    ensures { OnOk result (out.new.items
        ≡ out.old.items ++ findings.response_text endpoint index found.now end.now) }
{
    put_of(out, endpoint)?;
    out.extend_from_slice(b"a response in flight would find ")?;
    out.extend_from_slice(found)?;
    put_one(out, index as u64)?;
    out.extend_from_slice(end)
}

fn put_joins(
    out: &mut Vec<u8>,
    endpoint: usize,
    pasid: usize,
    index: usize,
) -> Result<(), AllocError>
    ensures { OnOk result (out.new.items ≡ out.old.items ++ findings.joins_text endpoint pasid index) }
{
    put_of(out, endpoint)?;
    out.extend_from_slice(b"a page request of PASID")?;
    put_one(out, pasid as u64)?;
    out.extend_from_slice(b" would join group")?;
    put_one(out, index as u64)?;
    out.extend_from_slice(b", which isn't its own")?;
    Ok(())
}

fn put_request(out: &mut Vec<u8>, endpoint: usize, tag: usize) -> Result<(), AllocError>
    ensures { OnOk result (out.new.items ≡ out.old.items ++ findings.request_text endpoint tag) }
{
    put_of(out, endpoint)?;
    out.extend_from_slice(
        b"a completion in flight would be taken for the answer to another request, under tag",
    )?;
    put_one(out, tag as u64)
}

/// Appends what is wrong.
pub fn put_wrong(out: &mut Vec<u8>, wrong: Wrong) -> Result<(), AllocError>
    ensures { OnOk result (out.new.items ≡ out.old.items ++ findings.wrong_text wrong) }
{
    match wrong {
        Wrong::Freed {
            endpoint,
            frame,
            thing,
            page,
            pasid,
        } => put_frame(
            out,
            endpoint,
            b" may still use frame",
            b", which has another owner: ",
            frame,
            thing,
            page,
            pasid,
        ),
        Wrong::Frozen {
            endpoint,
            frame,
            thing,
            page,
            pasid,
        } => put_frame(
            out,
            endpoint,
            b" may still write frame",
            b", which was frozen: ",
            frame,
            thing,
            page,
            pasid,
        ),
        Wrong::Left {
            endpoint,
            thing,
            pasid,
        } => put_left(out, endpoint, thing, pasid),
        Wrong::Goes { endpoint, pasid } => put_goes(out, endpoint, pasid),
        Wrong::Walks {
            endpoint,
            space,
            kept,
            pasid,
        } => put_walks(out, endpoint, space, kept, pasid),
        Wrong::Serves {
            endpoint,
            space,
            pasid,
        } => put_serves(out, endpoint, space, pasid),
        Wrong::NoGroup { endpoint, index } => put_response(out, endpoint, index, b"no group", b""),
        Wrong::OtherGroup { endpoint, index } => put_response(
            out,
            endpoint,
            index,
            b"another group",
            b" than its own",
        ),
        Wrong::Unfinished { endpoint, index } => put_response(
            out,
            endpoint,
            index,
            b"group",
            b" unfinished",
        ),
        Wrong::Joins {
            endpoint,
            pasid,
            index,
        } => put_joins(out, endpoint, pasid, index),
        Wrong::OtherRequest { endpoint, tag } => put_request(out, endpoint, tag),
    }
}
