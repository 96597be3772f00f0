//! What link, units, workers and endpoints do, as lines that are read as the same acts.

ghost use Rattle.std.specs.Prelude.{◌≡◌, ◌++◌, OnOk, Some, count_by, slice_get, take};
ghost use Rattle.sva_open.specs.Finding as finding;
ghost use Rattle.sva_driver_reports.specs.Events as events;

use std::alloc::AllocError;
use sva_driver_words::{
    access_text, code_text, kind_text, last_text, put_endpoint, put_older, put_one, put_page,
    put_pasid,
};
use sva_open::{
    Kind, LocalAct, Part, Sent, Work, before, is_draining, is_of_kind, is_taken, is_use, kind_of,
};

fn count_messages(flight: &[Sent], kind: Kind) -> usize
    ensures { result ≡ count_by (finding.is_of_kind kind) flight.now }
{
    flight.iter().filter(|sent| is_of_kind(kind, sent)).count()
}

fn count_uses(works: &[Work]) -> usize
    ensures { result ≡ count_by finding.is_use works.now }
{
    works.iter().filter(|work| is_use(work)).count()
}

fn count_taken(works: &[Work]) -> usize
    ensures { result ≡ count_by finding.is_taken works.now }
{
    works.iter().filter(|work| is_taken(work)).count()
}

fn count_draining(works: &[Work]) -> usize
    ensures { result ≡ count_by finding.is_draining works.now }
{
    works.iter().filter(|work| is_draining(work)).count()
}

/// How many messages of a kind are older than the one at a place.
fn older_messages(flight: &[Sent], place: usize, kind: Kind) -> usize
    ensures { result ≡ count_by (finding.is_of_kind kind) (take place flight.now) }
{
    count_messages(before(flight, place), kind)
}

/// How many uses are older than the one at a place.
fn older_uses(works: &[Work], place: usize) -> usize
    ensures { result ≡ count_by finding.is_use (take place works.now) }
{
    count_uses(before(works, place))
}

/// How many invalidations are older than the one at a place.
fn older_taken(works: &[Work], place: usize) -> usize
    ensures { result ≡ count_by finding.is_taken (take place works.now) }
{
    count_taken(before(works, place))
}

/// How many barriers are older than the one at a place.
fn older_draining(works: &[Work], place: usize) -> usize
    ensures { result ≡ count_by finding.is_draining (take place works.now) }
{
    count_draining(before(works, place))
}

/// Appends a delivery of a message.
fn put_message(
    out: &mut Vec<u8>,
    part: &Part,
    endpoint: usize,
    place: usize,
    sent: &Sent,
) -> Result<(), AllocError>
    ensures { OnOk result (out.new.items
        ≡ out.old.items ++ events.delivered_text part.now endpoint place (Some sent.now)) }
{
    let kind = kind_of(&sent.message);
    out.extend_from_slice(b"deliver ")?;
    put_endpoint(out, kind_text(kind).as_bytes(), endpoint)?;
    put_older(out, older_messages(part.flight.as_slice(), place, kind))?;
    Ok(())
}

/// Appends a delivery.
fn put_delivered(
    out: &mut Vec<u8>,
    part: &Part,
    endpoint: usize,
    place: usize,
) -> Result<(), AllocError>
    ensures { OnOk result (out.new.items
        ≡ out.old.items ++ events.delivered_text part.now endpoint place (slice_get part.now.flight place)) }
{
    let Some(sent) = part.flight.get(place) else {
        return Ok(());
    };
    put_message(out, part, endpoint, place, sent)
}

/// Appends a page request that goes on with a group of a PASID.
fn put_more_of(
    out: &mut Vec<u8>,
    endpoint: usize,
    pasid: usize,
    index: usize,
    page: u64,
    write: bool,
    last: bool,
) -> Result<(), AllocError>
    ensures { OnOk result (out.new.items ≡ out.old.items ++ events.more_text endpoint pasid index page write last) }
{
    put_page(out, b"fault", endpoint, pasid, page)?;
    out.extend_from_slice(access_text(write).as_bytes())?;
    put_one(out, index as u64)?;
    out.extend_from_slice(last_text(last).as_bytes())
}

/// Appends a page request that goes on with a group.
fn put_more(
    out: &mut Vec<u8>,
    part: &Part,
    endpoint: usize,
    index: usize,
    page: u64,
    write: bool,
    last: bool,
) -> Result<(), AllocError>
    ensures { OnOk result (out.new.items ≡ out.old.items
        ++ events.more_request endpoint index page write last (slice_get part.now.groups index)) }
{
    let Some(Some(group)) = part.groups.get(index).copied() else {
        return Ok(());
    };
    put_more_of(out, endpoint, group.pasid, index, page, write, last)
}

/// Appends what a unit drops of an entry.
fn put_entry_forgotten(
    out: &mut Vec<u8>,
    part: &Part,
    endpoint: usize,
    place: usize,
) -> Result<(), AllocError>
    ensures { OnOk result (out.new.items
        ≡ out.old.items ++ events.entry_forgotten endpoint (slice_get part.now.kept_entries place)) }
{
    let Some(kept) = part.kept_entries.get(place) else {
        return Ok(());
    };
    put_pasid(out, b"forget", endpoint, kept.pasid)
}

/// Appends what a unit drops of a page.
fn put_page_forgotten(
    out: &mut Vec<u8>,
    part: &Part,
    endpoint: usize,
    place: usize,
) -> Result<(), AllocError>
    ensures { OnOk result (out.new.items
        ≡ out.old.items ++ events.page_forgotten endpoint (slice_get part.now.kept place)) }
{
    let Some(kept) = part.kept.get(place) else {
        return Ok(());
    };
    put_page(out, b"forget", endpoint, kept.pasid, kept.page)
}

/// Appends the answer of a worker.
fn put_response(
    out: &mut Vec<u8>,
    endpoint: usize,
    pasid: usize,
    index: usize,
    fails: bool,
) -> Result<(), AllocError>
    ensures { OnOk result (out.new.items ≡ out.old.items ++ events.response_text endpoint pasid index fails) }
{
    put_page(out, b"respond", endpoint, pasid, index as u64)?;
    out.extend_from_slice(code_text(fails).as_bytes())
}

/// Appends a page request that begins a group.
fn put_fault(
    out: &mut Vec<u8>,
    endpoint: usize,
    pasid: usize,
    page: u64,
    write: bool,
    last: bool,
) -> Result<(), AllocError>
    ensures { OnOk result (out.new.items ≡ out.old.items ++ events.begun_text endpoint pasid page write last) }
{
    put_page(out, b"fault", endpoint, pasid, page)?;
    out.extend_from_slice(access_text(write).as_bytes())?;
    out.extend_from_slice(b" new")?;
    out.extend_from_slice(last_text(last).as_bytes())
}

/// Appends that an invalidation runs out of time.
fn put_expired(out: &mut Vec<u8>, endpoint: usize, itag: usize) -> Result<(), AllocError>
    ensures { OnOk result (out.new.items ≡ out.old.items ++ events.expired_text endpoint itag) }
{
    put_endpoint(out, b"expire", endpoint)?;
    put_one(out, itag as u64)
}

/// Appends an act that comes by itself.
pub(crate) fn put_act(
    out: &mut Vec<u8>,
    part: &Part,
    endpoint: usize,
    act: &LocalAct,
) -> Result<(), AllocError>
    ensures { OnOk result (out.new.items ≡ out.old.items ++ events.local_text part.now endpoint act.now) }
{
    match act {
        LocalAct::Deliver { place } => put_delivered(out, part, endpoint, *place),
        LocalAct::Pump => put_endpoint(out, b"pump", endpoint),
        LocalAct::PumpAt { place } => put_pasid(out, b"pump", endpoint, *place),
        LocalAct::Expire { itag, .. } => put_expired(out, endpoint, *itag),
        LocalAct::Write => put_endpoint(out, b"write", endpoint),
        LocalAct::Serve => put_endpoint(out, b"serve", endpoint),
        LocalAct::Respond {
            pasid,
            index,
            fails,
        } => put_response(out, endpoint, *pasid, *index, *fails),
        LocalAct::End { place } => {
            put_endpoint(out, b"end", endpoint)?;
            put_older(out, older_uses(part.works.as_slice(), *place))
        }
        LocalAct::Finish { place } => {
            put_endpoint(out, b"finish", endpoint)?;
            put_older(out, older_taken(part.works.as_slice(), *place))
        }
        LocalAct::Pass { place } => {
            put_endpoint(out, b"pass", endpoint)?;
            put_older(out, older_draining(part.works.as_slice(), *place))
        }
        LocalAct::Quit { pasid } => put_pasid(out, b"quit", endpoint, *pasid),
        LocalAct::Leave => put_endpoint(out, b"gone", endpoint),
        LocalAct::More {
            index,
            page,
            write,
            last,
        } => put_more(out, part, endpoint, *index, *page, *write, *last),
        LocalAct::Ask { pasid, page } => put_page(out, b"ask", endpoint, *pasid, *page),
        LocalAct::Use { pasid, page } => put_page(out, b"use", endpoint, *pasid, *page),
        LocalAct::Fault {
            pasid,
            page,
            write,
            last,
        } => put_fault(out, endpoint, *pasid, *page, *write, *last),
        LocalAct::Evict { pasid, page } => put_page(out, b"evict", endpoint, *pasid, *page),
        LocalAct::ForgetEntry { place } => put_entry_forgotten(out, part, endpoint, *place),
        LocalAct::Forget { place } => put_page_forgotten(out, part, endpoint, *place),
        LocalAct::SetEntry { .. }
        | LocalAct::Replace { .. }
        | LocalAct::ClearEntry { .. }
        | LocalAct::Start { .. }
        | LocalAct::Stop { .. }
        | LocalAct::Barrier { .. }
        | LocalAct::Reset
        | LocalAct::Submit { .. }
        | LocalAct::Close
        | LocalAct::Reopen
        | LocalAct::Skip
        | LocalAct::Resume
        | LocalAct::AwaitWait { .. }
        | LocalAct::AwaitStopped { .. }
        | LocalAct::AwaitPassed { .. }
        | LocalAct::AwaitQueue
        | LocalAct::AwaitQueueOf { .. }
        | LocalAct::AwaitGroups { .. }
        | LocalAct::AwaitResets
        | LocalAct::Turn { .. }
        | LocalAct::AwaitIdle
        | LocalAct::AwaitGone
        | LocalAct::RespondAll { .. }
        | LocalAct::Discard { .. }
        | LocalAct::FreePasid { .. } => Ok(()),
    }
}
