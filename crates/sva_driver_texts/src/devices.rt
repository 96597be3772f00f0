//! What an endpoint is told.

ghost use Rattle.std.specs.Prelude.{◌≡◌, ◌+◌, ◌<◌, ◌^◌, ◌++◌, ◌∷◌, [], OnOk, map};
ghost use Rattle.sva_driver_texts.specs.Devices as devices;
ghost use Rattle.sva_driver_texts.specs.Devices.{device_seen};
ghost use Rattle.sva_driver_words.specs.Taking.{Gives};
ghost use Rattle.sva_driver_words.specs.Fields.{page_at};

use crate::kept_of_endpoints::DeviceRead;
use std::alloc::{AllocError, Global};
use sva_driver_words::{DriverStop, DriverWanted, DriverWrong, count_at, page_at, says, wrong_at};
use sva_open::Budget;

/// A budget with what a word counts.
fn counted(budget: Budget, count: u64, words: &[&[u8]], at: usize) -> Result<Budget, DriverWrong>
    ensures { result ≡ devices.counted budget count at (map (λ word. word.now) words.now) }
{
    if says(words, at, b"asks") {
        return Ok(Budget {
            asks: count,
            ..budget
        });
    }
    if says(words, at, b"uses") {
        return Ok(Budget {
            uses: count,
            ..budget
        });
    }
    if says(words, at, b"faults") {
        return Ok(Budget {
            faults: count,
            ..budget
        });
    }
    Err(wrong_at(at, DriverWanted::Counted))
}

fn push_page(pages: &mut Vec<u64>, page: u64) -> Result<(), AllocError>
    ensures { OnOk result (pages.new.items ≡ pages.old.items ++ page ∷ []) }
{
    match pages.push(page) {
        Ok(()) => Ok(()),
        Err(_) => Err(AllocError),
    }
}

/// Adds the page of a place.
fn add_page(pages: &mut Vec<u64>, words: &[&[u8]], at: usize) -> Result<(), DriverStop>
    ensures { devices.AddsPage (page_at at (map (λ word. word.now) words.now)) pages.old.items pages.new.items result }
{
    match page_at(words, at) {
        Ok(page) => match push_page(pages, page) {
            Ok(()) => Ok(()),
            Err(_) => Err(DriverStop::Memory),
        },
        Err(wrong) => Err(DriverStop::Wrong(wrong)),
    }
}

/// The pages from a place on.
fn pages_from(alloc: Global, words: &[&[u8]], at: usize) -> Result<Vec<u64>, DriverStop>
    ensures { Gives devices.items_of (devices.pages_from at (map (λ word. word.now) words.now)) result }
{
    let mut pages = Vec::new(alloc);
    for place in at..words.len() {
        match add_page(&mut pages, words, place) {
            Ok(()) => {}
            Err(stop) => return Err(stop),
        }
    }
    Ok(pages)
}

/// Whether a word says alone what the endpoint may do.
fn is_flag(words: &[&[u8]], at: usize) -> bool
    ensures { result ≡ devices.is_flag at (map (λ word. word.now) words.now) }
{
    says(words, at, b"evicts")
        || says(words, at, b"silent")
        || says(words, at, b"lies")
        || says(words, at, b"awaits")
        || says(words, at, b"leaves")
}

/// The endpoint with what such a word says.
fn set_flag(device: &mut DeviceRead, words: &[&[u8]], at: usize)
    ensures { device_seen device.new ≡ devices.flagged (device_seen device.old) at (map (λ word. word.now) words.now) }
{
    if says(words, at, b"evicts") {
        device.evicts = true;
    } else if says(words, at, b"silent") {
        device.is_silent = true;
    } else if says(words, at, b"lies") {
        device.lies = true;
    } else if says(words, at, b"awaits") {
        device.awaits = true;
    } else {
        device.leaves = true;
    }
}

/// Adds what a number with its word says.
fn add_count(device: &mut DeviceRead, words: &[&[u8]], at: usize) -> Result<(), DriverWrong>
    requires { at + 1 < 2 ^ 64 }
    ensures { devices.Sets (devices.with_count (device_seen device.old) at (map (λ word. word.now) words.now))
        (device_seen device.new) result }
{
    let count = count_at(words, at)?;
    let budget = counted(device.budget, count, words, at + 1)?;
    device.budget = budget;
    Ok(())
}

/// Adds what a word says, unless it was read with the one before it.
fn add_word(
    was_read: bool,
    device: &mut DeviceRead,
    words: &[&[u8]],
    at: usize,
) -> Result<(), DriverWrong>
    requires { at + 1 < 2 ^ 64 }
    ensures { devices.Sets (devices.word_of was_read (device_seen device.old) at (map (λ word. word.now) words.now))
        (device_seen device.new) result }
{
    if was_read {
        return Ok(());
    }
    if is_flag(words, at) {
        set_flag(device, words, at);
        return Ok(());
    }
    add_count(device, words, at)
}

/// Whether the next word is read with this one.
fn reads_next(was_read: bool, words: &[&[u8]], at: usize) -> bool
    ensures { result ≡ devices.reads_next was_read at (map (λ word. word.now) words.now) }
{
    !was_read && !is_flag(words, at)
}

/// Whether pages stand behind a word.
fn begins_pages(was_read: bool, words: &[&[u8]], at: usize) -> bool
    ensures { result ≡ devices.begins_pages was_read at (map (λ word. word.now) words.now) }
{
    !was_read && says(words, at, b"pages")
}

/// Adds the pages from a place on.
fn add_pages(
    alloc: Global,
    device: &mut DeviceRead,
    words: &[&[u8]],
    at: usize,
) -> Result<(), DriverStop>
    ensures { devices.Adds (devices.with_pages (device_seen device.old) at (map (λ word. word.now) words.now))
        (device_seen device.new) result }
{
    match pages_from(alloc, words, at) {
        Ok(pages) => {
            device.pages = Some(pages);
            Ok(())
        }
        Err(stop) => Err(stop),
    }
}

/// Adds the parts from a place on.
pub(crate) fn add_parts(
    alloc: Global,
    device: &mut DeviceRead,
    words: &[&[u8]],
    start: usize,
) -> Result<(), DriverStop>
    ensures { devices.Adds (devices.parts_from (device_seen device.old) start (map (λ word. word.now) words.now))
        (device_seen device.new) result }
{
    let mut was_read = false;
    for at in start..words.len() {
        if begins_pages(was_read, words, at) {
            return add_pages(alloc, device, words, at + 1);
        }
        match add_word(was_read, device, words, at) {
            Ok(()) => {}
            Err(wrong) => return Err(DriverStop::Wrong(wrong)),
        }
        was_read = reads_next(was_read, words, at);
    }
    Ok(())
}
