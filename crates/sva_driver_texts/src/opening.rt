//! The driver of what was read, before its first line.

ghost use Rattle.std.specs.Prelude.{◌≡◌, IfOk, None, false, length, map, replicate, slice_index_or};
ghost use Rattle.sva_open.specs.World.{opened};
ghost use Rattle.sva_driver_words.specs.Awaits.{line_seen};
ghost use Rattle.sva_driver_texts.specs.Devices.{device_seen};
ghost use Rattle.sva_driver_texts.specs.Texts as texts;
ghost use Rattle.sva_driver_texts.specs.Texts.{conduct_of};
ghost use Rattle.sva_driver_texts.specs.Ways.{way_seen};

use crate::kept::Said;
use crate::kept_of_endpoints::DeviceRead;
use crate::pasids::pasids_of;
use crate::plans::all_planned;
use crate::readings::Reading;
use crate::ways::{Way, ways_of};
use std::alloc::{AllocError, Global};
use sva_driver_words::LineRead;
use sva_open::{Conduct, Driver, Line, Open, Settings, Workers};
use sva_step::Config;

/// So many times `false`.
fn falses(alloc: Global, count: usize) -> Result<Vec<bool>, AllocError>
    ensures { IfOk result (λ list. list.items ≡ replicate count false) }
{
    let mut list = Vec::new(alloc);
    for _place in 0..count {
        list.push(false)?;
    }
    Ok(list)
}

/// The conduct of each endpoint.
fn conducts_of(alloc: Global, devices: &[DeviceRead]) -> Result<Vec<Conduct>, AllocError>
    ensures { IfOk result (λ conducts. conducts.items ≡ map (λ device. conduct_of (device_seen device)) devices.now) }
{
    let mut conducts = Vec::new(alloc);
    for device in devices {
        conducts.push(Conduct {
            lies: device.lies,
            awaits: device.awaits,
        })?;
    }
    Ok(conducts)
}

/// The world in which nothing was done yet.
fn opened_by(
    alloc: Global,
    config: &Config,
    settings: Settings,
    devices: &[DeviceRead],
    units: &[usize],
    pasids: usize,
) -> Result<Open, AllocError>
    ensures { IfOk result (λ now. now
        ≡ opened settings (map (λ device. conduct_of (device_seen device)) devices.now) units.now pasids
        config.now.frames) }
{
    let conducts = conducts_of(alloc, devices)?;
    Open::new(
        alloc,
        settings,
        conducts.as_slice(),
        units,
        pasids,
        config.frames as usize,
    )
}

fn workers_or(workers: Option<Workers>) -> Workers
    ensures { result ≡ texts.workers_or workers }
{
    match workers {
        Some(workers) => workers,
        None => Workers {
            are_there: false,
            answer: false,
            fail: false,
        },
    }
}

/// The settings, by whether there are workers.
fn with_workers(settings: Settings, workers: Workers) -> Settings
    ensures { result ≡ texts.with_workers settings workers }
{
    Settings {
        has_workers: workers.are_there,
        ..settings
    }
}

/// The way of the line at a place.
fn way_at(ways: &[Way], place: usize) -> Way
    ensures { result ≡ slice_index_or ways.now place (record { thread = 0; next = None; other = None }) }
{
    match ways.get(place) {
        Some(way) => *way,
        None => Way {
            thread: 0,
            next: None,
            other: None,
        },
    }
}

/// The lines, as they are judged, each with its way, and what is told of each.
fn lines_of(
    alloc: Global,
    read: Vec<LineRead>,
    ways: &[Way],
) -> Result<(Vec<Line>, Vec<Said>), AllocError>
    requires { length ways.now ≡ length read.items }
    ensures lines { IfOk result (λ lists. map texts.done_seen lists.0.items
        ≡ map (λ line. texts.done_of (line_seen line)) read.items) }
    ensures ways { IfOk result (λ lists. map way_seen lists.0.items ≡ ways.now) }
    ensures said { IfOk result (λ lists. map texts.told_seen lists.1.items
        ≡ map (λ line. texts.told_of (line_seen line)) read.items) }
{
    let mut lines = Vec::new(alloc);
    let mut all = Vec::new(alloc);
    for line in read {
        let LineRead {
            number,
            under: _,
            name: _,
            thread,
            text,
            saying,
        } = line;
        let way = way_at(ways, lines.len());
        lines.push(Line {
            number,
            thread: way.thread,
            next: way.next,
            other: way.other,
            saying,
        })?;
        all.push(Said { thread, text })?;
    }
    Ok((lines, all))
}

/// The driver before its first line, and what is told of each line.
pub fn opening_of(
    alloc: Global,
    config: &Config,
    reading: Reading,
) -> Result<(Driver, Vec<Said>), AllocError>
    ensures driver { IfOk result (λ made. texts.IsOpening config.now reading made.0) }
    ensures said { IfOk result (λ made. map texts.told_seen made.1.items ≡ map texts.told_of reading.lines) }
{
    let Reading {
        heading: _,
        is_race: _,
        lines: read,
        before: _,
        locks,
        flags,
        blocks: _,
        settings,
        set: _,
        units,
        workers,
        devices: told,
        said: _,
        told: _,
    } = reading;
    let own = told.as_slice();
    let acts = read.as_slice();
    let shared = units.as_slice();
    let pasids = pasids_of(acts);
    let workers = workers_or(workers);
    let settings = with_workers(settings, workers);
    let start = opened_by(alloc, config, settings, own, shared, pasids)?;
    let devices = all_planned(alloc, acts, own)?;
    let taken = falses(alloc, acts.len())?;
    let (at, ways) = ways_of(alloc, acts)?;
    let locked = falses(alloc, locks.len())?;
    let flags = falses(alloc, flags.len())?;
    let (lines, said) = lines_of(alloc, read, ways.as_slice())?;
    Ok((
        Driver {
            start,
            lines,
            taken,
            at,
            locked,
            flags,
            devices,
            workers,
        },
        said,
    ))
}
