//! What endpoints may do by themselves, by the lines that were read.

ghost use Rattle.std.specs.Prelude.{◌≡◌, ◌==◌, ◌++◌, IfOk, flat_map, if◌then◌else◌, map, option_map};
ghost use Rattle.std.specs.List.{list_any};
ghost use Rattle.std.specs.Option.{unwrap_or};
ghost use Rattle.sva_driver_words.specs.Awaits.{line_seen};
ghost use Rattle.sva_driver_words.specs.Sayings.{saying_seen};
ghost use Rattle.sva_driver_texts.specs.Devices as devices;
ghost use Rattle.sva_driver_texts.specs.Plans as plans;

use crate::kept_of_endpoints::DeviceRead;
use std::alloc::{AllocError, Global};
use sva_driver_words::LineRead;
use sva_open::{Act, Device, Fault, LocalAct, Page, Saying};

/// Whether a list has a number.
fn has(list: &[u64], number: u64) -> bool
    ensures { result ≡ list_any (λ own. own == number) list.now }
{
    list.iter().any(|own| *own == number)
}

/// Adds a number, unless the list has it.
fn add(list: &mut Vec<u64>, number: Option<u64>) -> Result<(), AllocError>
    ensures { IfOk result (λ _. list.new.items ≡ plans.with_number list.old.items number) }
{
    match number {
        None => Ok(()),
        Some(number) => {
            if has(list.as_slice(), number) {
                return Ok(());
            }
            list.push(number)?;
            Ok(())
        }
    }
}

/// The page that a `pte` line names.
fn page_set(saying: &Saying) -> Option<u64>
    ensures { result ≡ plans.page_set (saying_seen saying.now) }
{
    match saying {
        Saying::Does { act } => match act {
            Act::SetPage { page, .. } => Some(*page),
            Act::Mark
            | Act::ClearPage { .. }
            | Act::FreeFrame { .. }
            | Act::Freeze { .. }
            | Act::FreeSpace { .. }
            | Act::FreeDomain { .. }
            | Act::At { .. } => None,
        },
        Saying::Names { .. }
        | Saying::AwaitsLine { .. }
        | Saying::AwaitsWaits { .. }
        | Saying::Locks { .. }
        | Saying::Unlocks { .. }
        | Saying::Sets { .. }
        | Saying::Looks { .. } => None,
    }
}

/// The pages that lines name.
fn pages_set(alloc: Global, lines: &[LineRead]) -> Result<Vec<u64>, AllocError>
    ensures { IfOk result (λ pages. pages.items ≡ plans.pages_set (map line_seen lines.now)) }
{
    let mut pages = Vec::new(alloc);
    for line in lines {
        add(&mut pages, page_set(&line.saying))?;
    }
    Ok(pages)
}

/// The PASID that an act at an endpoint starts, if that is the one.
fn started_by(is_there: bool, act: &LocalAct) -> Option<u64>
    ensures { result ≡ plans.started_by is_there act.now }
{
    match act {
        LocalAct::Start { pasid } => { if is_there { Some(*pasid as u64) } else { None } }
        LocalAct::SetEntry { .. }
        | LocalAct::Replace { .. }
        | LocalAct::ClearEntry { .. }
        | LocalAct::Stop { .. }
        | LocalAct::Barrier { .. }
        | LocalAct::Reset
        | LocalAct::Submit { .. }
        | LocalAct::Close
        | LocalAct::Reopen
        | LocalAct::Skip
        | LocalAct::Resume
        | LocalAct::AwaitWait { .. }
        | LocalAct::AwaitStopped { .. }
        | LocalAct::AwaitPassed { .. }
        | LocalAct::AwaitQueue
        | LocalAct::AwaitQueueOf { .. }
        | LocalAct::AwaitGroups { .. }
        | LocalAct::AwaitResets
        | LocalAct::Turn { .. }
        | LocalAct::AwaitIdle
        | LocalAct::AwaitGone
        | LocalAct::Serve
        | LocalAct::Respond { .. }
        | LocalAct::RespondAll { .. }
        | LocalAct::Discard { .. }
        | LocalAct::FreePasid { .. }
        | LocalAct::Ask { .. }
        | LocalAct::Use { .. }
        | LocalAct::End { .. }
        | LocalAct::Evict { .. }
        | LocalAct::Fault { .. }
        | LocalAct::More { .. }
        | LocalAct::Finish { .. }
        | LocalAct::Pass { .. }
        | LocalAct::Quit { .. }
        | LocalAct::Leave
        | LocalAct::Pump
        | LocalAct::PumpAt { .. }
        | LocalAct::Expire { .. }
        | LocalAct::Write
        | LocalAct::ForgetEntry { .. }
        | LocalAct::Forget { .. }
        | LocalAct::Deliver { .. } => None,
    }
}

/// The PASID that a line starts at an endpoint.
fn started_at(endpoint: usize, saying: &Saying) -> Option<u64>
    ensures { result ≡ plans.started_at endpoint (saying_seen saying.now) }
{
    match saying {
        Saying::Does { act } => match act {
            Act::At { endpoint: own, act } => started_by(*own == endpoint, act),
            Act::Mark
            | Act::SetPage { .. }
            | Act::ClearPage { .. }
            | Act::FreeFrame { .. }
            | Act::Freeze { .. }
            | Act::FreeSpace { .. }
            | Act::FreeDomain { .. } => None,
        },
        Saying::Names { .. }
        | Saying::AwaitsLine { .. }
        | Saying::AwaitsWaits { .. }
        | Saying::Locks { .. }
        | Saying::Unlocks { .. }
        | Saying::Sets { .. }
        | Saying::Looks { .. } => None,
    }
}

/// The PASIDs that lines start at an endpoint.
fn pasids_started(
    alloc: Global,
    endpoint: usize,
    lines: &[LineRead],
) -> Result<Vec<u64>, AllocError>
    ensures { IfOk result (λ pasids. pasids.items ≡ plans.pasids_started endpoint (map line_seen lines.now)) }
{
    let mut pasids = Vec::new(alloc);
    for line in lines {
        add(&mut pasids, started_at(endpoint, &line.saying))?;
    }
    Ok(pasids)
}

/// Adds each page under a PASID.
fn add_under(list: &mut Vec<Page>, pages: &[u64], pasid: u64) -> Result<(), AllocError>
    ensures { IfOk result (λ _. list.new.items ≡ list.old.items ++ plans.under_one pages.now pasid) }
{
    for page in pages {
        list.push(Page {
            pasid: pasid as usize,
            page: *page,
        })?;
    }
    Ok(())
}

/// Each page under each PASID.
fn under(alloc: Global, pasids: &[u64], pages: &[u64]) -> Result<Vec<Page>, AllocError>
    ensures { IfOk result (λ list. list.items ≡ plans.under pasids.now pages.now) }
{
    let mut list = Vec::new(alloc);
    for pasid in pasids {
        add_under(&mut list, pages, *pasid)?;
    }
    Ok(list)
}

fn begun(page: Page, write: bool, last: bool) -> Fault
    ensures { result ≡ plans.begun page write last }
{
    Fault {
        pasid: page.pasid,
        page: page.page,
        write,
        last,
    }
}

/// Adds the page requests of a page that may begin a group.
fn add_begun(list: &mut Vec<Fault>, page: Page) -> Result<(), AllocError>
    ensures { IfOk result (λ _. list.new.items ≡ list.old.items ++ plans.begun_at page) }
{
    list.push(begun(page, false, true))?;
    list.push(begun(page, true, true))?;
    list.push(begun(page, false, false))?;
    list.push(begun(page, true, false))?;
    Ok(())
}

/// The page requests that may begin a group.
fn begun_by(alloc: Global, pages: &[Page]) -> Result<Vec<Fault>, AllocError>
    ensures { IfOk result (λ list. list.items ≡ plans.begun_by pages.now) }
{
    let mut list = Vec::new(alloc);
    for page in pages {
        add_begun(&mut list, *page)?;
    }
    Ok(list)
}

/// The numbers of the pages of an endpoint: those that it names, or those of all `pte` lines.
fn numbers_of(
    alloc: Global,
    lines: &[LineRead],
    device: &DeviceRead,
) -> Result<Vec<u64>, AllocError>
    ensures { IfOk result (λ pages. pages.items
        ≡ unwrap_or (devices.device_seen device.now).pages (plans.pages_set (map line_seen lines.now))) }
{
    match &device.pages {
        Some(pages) => Vec::from_slice(alloc, pages.as_slice()),
        None => pages_set(alloc, lines),
    }
}

/// The pages of an endpoint.
fn pages_of(
    alloc: Global,
    lines: &[LineRead],
    endpoint: usize,
    device: &DeviceRead,
) -> Result<Vec<Page>, AllocError>
    ensures { IfOk result (λ pages. pages.items
        ≡ plans.pages_of (map line_seen lines.now) endpoint (devices.device_seen device.now)) }
{
    let numbers = numbers_of(alloc, lines, device)?;
    let pasids = pasids_started(alloc, endpoint, lines)?;
    under(alloc, pasids.as_slice(), numbers.as_slice())
}

/// What an endpoint may do by itself.
fn planned(
    alloc: Global,
    lines: &[LineRead],
    endpoint: usize,
    device: &DeviceRead,
) -> Result<Device, AllocError>
    ensures { IfOk result (λ own. plans.device_seen own
        ≡ plans.planned (map line_seen lines.now) endpoint (devices.device_seen device.now)) }
{
    let pages = pages_of(alloc, lines, endpoint, device)?;
    let faults = begun_by(alloc, pages.as_slice())?;
    Ok(Device {
        budget: device.budget,
        pages,
        faults,
        evicts: device.evicts,
        is_silent: device.is_silent,
        leaves: device.leaves,
    })
}

/// What each endpoint may do by itself.
pub(crate) fn all_planned(
    alloc: Global,
    lines: &[LineRead],
    told: &[DeviceRead],
) -> Result<Vec<Device>, AllocError>
    ensures { IfOk result (λ list. map plans.device_seen list.items
        ≡ plans.planned_from (map line_seen lines.now) 0 (map devices.device_seen told.now)) }
{
    let mut list = Vec::new(alloc);
    for endpoint in 0..told.len() {
        let own = planned(alloc, lines, endpoint, &told[endpoint])?;
        list.push(own)?;
    }
    Ok(list)
}
