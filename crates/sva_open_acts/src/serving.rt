//! What the host does with page requests.

ghost use Rattle.std.specs.Prelude.{◌≡◌, ◌++◌, IfOk, None, Some, filter, map, position, slice_get};
ghost use Rattle.sva_search.specs.Rules.{IsStep};
ghost use Rattle.sva_open.specs.Host as host;
ghost use Rattle.sva_open.specs.Host.{filed_at, filing, is_group, is_joined, respond, respond_at, serve};

use std::alloc::AllocError;
use sva_open::{Arrived, Filed, Message, PageRequest, Part, Sent, drop_at, set_at};

pub(crate) fn serve(part: &mut Part) -> Result<bool, AllocError>
    ensures { IfOk result (λ done. IsStep (serve part.old (slice_get part.old.arrived 0)) done part.old part.new) }
{
    let Some(one) = part.arrived.get(0).copied() else {
        return Ok(false);
    };
    let space = space_of(part, one.request.pasid);
    file(&mut part.filed, &one, space)?;
    drop_at(&mut part.arrived, 0);
    Ok(true)
}

pub(crate) fn respond(
    part: &mut Part,
    pasid: usize,
    index: usize,
    fails: bool,
) -> Result<(), AllocError>
    ensures { IfOk result (λ _. part.new ≡ respond part.old pasid index fails) }
{
    match group_place(part.filed.as_slice(), pasid, index) {
        None => respond_to_none(part, index, fails),
        Some(place) => respond_at(part, index, fails, place),
    }
}

fn respond_to_none(part: &mut Part, index: usize, fails: bool) -> Result<(), AllocError>
    ensures { IfOk result (λ _. part.new ≡ respond_at part.old index fails None) }
{
    part.send(
        0,
        0,
        Message::Response {
            index,
            fails,
            filed: false,
        },
    )
}

fn respond_at(part: &mut Part, index: usize, fails: bool, place: usize) -> Result<(), AllocError>
    ensures { IfOk result (λ _. part.new ≡ respond_at part.old index fails (Some place)) }
{
    let Some(filed) = part.filed.get(place).copied() else {
        return respond_to_none(part, index, fails);
    };
    drop_at(&mut part.filed, place);
    part.send(
        0,
        filed.number,
        Message::Response {
            index,
            fails,
            filed: true,
        },
    )
}

/// The place of the unfinished group that a page request joins.
fn joined(filed: &[Filed], request: &PageRequest) -> Option<usize>
    ensures { result ≡ position (is_joined request.now) filed.now }
{
    filed.iter().position(|one| one.is_joined(request))
}

/// The place of the first group of a PASID and index.
fn group_place(filed: &[Filed], pasid: usize, index: usize) -> Option<usize>
    ensures { result ≡ position (is_group pasid index) filed.now }
{
    filed.iter().position(|one| one.is_group(pasid, index))
}

/// The space that a PASID has.
fn space_of(part: &Part, pasid: usize) -> Option<u64>
    ensures { result ≡ host.space_of (slice_get part.now.rows pasid) }
{
    match part.row(pasid) {
        None => None,
        Some(row) => row.space,
    }
}

fn filing_of(one: &Arrived, space: Option<u64>) -> Filed
    ensures { result ≡ filing space one.now }
{
    Filed {
        pasid: one.request.pasid,
        index: one.request.index,
        number: one.number,
        is_whole: one.request.last,
        owner: one.owner,
        space,
    }
}

/// Files a page request.
fn file(filed: &mut Vec<Filed>, one: &Arrived, space: Option<u64>) -> Result<(), AllocError>
    ensures { IfOk result (λ _.
        filed.new.items ≡ filed_at filed.old.items (filing space one.now)
        (position (is_joined one.now.request) filed.old.items)) }
{
    let filing = filing_of(one, space);
    match joined(filed.as_slice(), &one.request) {
        None => {
            filed.push(filing)?;
            Ok(())
        }
        Some(place) => {
            set_at(filed, place, filing);
            Ok(())
        }
    }
}

/// Answers each whole group, of one PASID or of all.
pub(crate) fn respond_all(
    part: &mut Part,
    pasid: Option<usize>,
    fails: bool,
) -> Result<(), AllocError>
    ensures { IfOk result (λ _. part.new ≡ host.respond_all part.old pasid fails) }
{
    answer_whole(&mut part.flight, part.filed.as_slice(), pasid, fails)?;
    drop_whole(&mut part.filed, pasid);
    Ok(())
}

fn answer_to(filed: &Filed, fails: bool) -> Sent
    ensures { result ≡ host.answer_to fails filed.now }
{
    Sent {
        message: Message::Response {
            index: filed.index,
            fails,
            filed: true,
        },
        owner: 0,
        number: filed.number,
    }
}

fn answer_whole(
    flight: &mut Vec<Sent>,
    filed: &[Filed],
    pasid: Option<usize>,
    fails: bool,
) -> Result<(), AllocError>
    ensures { IfOk result (λ _.
        flight.new.items
        ≡ flight.old.items ++ map (host.answer_to fails) (filter (host.is_whole_under pasid) filed.now)) }
{
    for one in filed {
        if one.is_whole_under(pasid) {
            flight.push(answer_to(one, fails))?;
        }
    }
    Ok(())
}

fn drop_whole(filed: &mut Vec<Filed>, pasid: Option<usize>)
    ensures { filed.new.items ≡ filter (host.isnt_whole_under pasid) filed.old.items }
{
    filed.retain(|one| !one.is_whole_under(pasid));
}

/// Drops each group that isn't whole, of one PASID or of all.
pub(crate) fn discard(part: &mut Part, pasid: Option<usize>)
    ensures { part.new ≡ host.discard part.old pasid }
{
    drop_partial(&mut part.filed, pasid);
}

fn drop_partial(filed: &mut Vec<Filed>, pasid: Option<usize>)
    ensures { filed.new.items ≡ filter (host.isnt_partial_under pasid) filed.old.items }
{
    filed.retain(|one| !one.is_partial_under(pasid));
}
