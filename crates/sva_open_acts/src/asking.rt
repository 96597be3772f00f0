//! What an endpoint begins, and lets go of.

ghost use Rattle.std.specs.Prelude.{◌≡◌, IfOk, find, option_copied, position, slice_get};
ghost use Rattle.sva_search.specs.Rules.{IsStep};
ghost use Rattle.sva_open.specs.World.{is_of};
ghost use Rattle.sva_open.specs.Devices as device;

use std::alloc::AllocError;
use sva_open::{
    Group, Message, PageRequest, Part, Request, Row, Translation, Work, drop_at, lowest_free, put,
    set_at,
};

/// Whether it sends memory requests under a PASID that need a translation.
fn may_access(part: &Part, row: &Row) -> bool
    ensures { result ≡ device.may_access part.now row.now }
{
    row.state.is_used() && (part.has_ats && part.is_master)
}

pub(crate) fn ask(part: &mut Part, pasid: usize, page: u64) -> Result<bool, AllocError>
    ensures { IfOk result (λ done.
        IsStep (device.ask part.old pasid page (slice_get part.old.rows pasid)) done part.old part.new) }
{
    let Some(row) = part.row(pasid) else {
        return Ok(false);
    };
    if !may_access(part, &row) {
        return Ok(false);
    }
    let time = part.time;
    let tag = put(
        &mut part.requests,
        Request {
            pasid,
            page,
            owner: row.user,
            is_doomed: false,
            noted: None,
        },
    )?;
    part.send(row.user, time, Message::Request { tag, pasid, page })?;
    Ok(true)
}

pub(crate) fn begin_use(part: &mut Part, pasid: usize, page: u64) -> Result<bool, AllocError>
    ensures { IfOk result (λ done. IsStep (device.use_of part.old pasid page) done part.old part.new) }
{
    let Some(row) = part.row(pasid) else {
        return Ok(false);
    };
    let Some(translation) = find_translation(part.held.as_slice(), pasid, page) else {
        return Ok(false);
    };
    if !may_access(part, &row) {
        return Ok(false);
    }
    part.works.push(Work::Use(translation))?;
    Ok(true)
}

pub(crate) fn end_use(part: &mut Part, place: usize) -> bool
    ensures { IsStep (device.end_use part.old place (slice_get part.old.works place)) result part.old part.new }
{
    match part.works.get(place).copied() {
        Some(Work::Use(_)) => {
            drop_at(&mut part.works, place);
            true
        }
        Some(Work::Taken { .. }) => false,
        Some(Work::Draining(_)) => false,
        None => false,
    }
}

pub(crate) fn evict(part: &mut Part, pasid: usize, page: u64) -> bool
    ensures { IsStep (device.evict part.old (position (is_of pasid page) part.old.held)) result part.old part.new }
{
    let Some(place) = place_of_translation(part.held.as_slice(), pasid, page) else {
        return false;
    };
    drop_at(&mut part.held, place);
    true
}

/// Whether it begins groups of page requests under a PASID.
fn may_fault(part: &Part, row: &Row) -> bool
    ensures { result ≡ device.may_fault part.now row.now }
{
    row.state.is_used() && (part.is_enabled && part.has_requests)
}

pub(crate) fn fault(
    part: &mut Part,
    pasid: usize,
    page: u64,
    write: bool,
    last: bool,
) -> Result<bool, AllocError>
    ensures { IfOk result (λ done.
        IsStep
        (device.fault part.old pasid page write last (device.fresh_number part.old) (slice_get part.old.rows pasid))
        done part.old part.new) }
{
    let Some(row) = part.row(pasid) else {
        return Ok(false);
    };
    if !may_fault(part, &row) {
        return Ok(false);
    }
    let index = lowest_free(part.groups.as_slice());
    let number = part.number_above(index)?;
    let group = Group {
        pasid,
        owner: row.user,
        number,
        is_finished: last,
        noted: None,
    };
    put(&mut part.groups, group)?;
    let request = PageRequest {
        pasid,
        index,
        page,
        write,
        last,
    };
    part.send(row.user, number, Message::PageRequest(request))?;
    Ok(true)
}

pub(crate) fn more(
    part: &mut Part,
    index: usize,
    page: u64,
    write: bool,
    last: bool,
) -> Result<bool, AllocError>
    ensures { IfOk result (λ done.
        IsStep (device.more part.old index page write last (slice_get part.old.groups index)) done part.old part.new) }
{
    let group = match part.groups.get(index).copied() {
        None => return Ok(false),
        Some(None) => return Ok(false),
        Some(Some(group)) => group,
    };
    if !(!group.is_finished && part.is_enabled) {
        return Ok(false);
    }
    set_at(
        &mut part.groups,
        index,
        Some(Group {
            is_finished: last,
            ..group
        }),
    );
    let request = PageRequest {
        pasid: group.pasid,
        index,
        page,
        write,
        last,
    };
    part.send(group.owner, group.number, Message::PageRequest(request))?;
    Ok(true)
}

/// The translation of a page that is among these.
pub(crate) fn find_translation(list: &[Translation], pasid: usize, page: u64) -> Option<Translation>
    ensures { result ≡ find (is_of pasid page) list.now }
{
    list.iter().find(|one| one.is_of(pasid, page)).copied()
}

/// The place of the translation of a page.
fn place_of_translation(list: &[Translation], pasid: usize, page: u64) -> Option<usize>
    ensures { result ≡ position (is_of pasid page) list.now }
{
    list.iter().position(|one| one.is_of(pasid, page))
}
