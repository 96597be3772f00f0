//! The pages that the lines of a race name, and what its endpoints may do.

ghost use Rattle.std.specs.Prelude.{◌≡◌, ◌+◌, ◌<◌, ◌==◌, ◌^◌, IfOk, IfSome, length, map, option_map, position};
ghost use Rattle.std.specs.List.{list_any};
ghost use Rattle.std.specs.Option.{unwrap_or};
ghost use Rattle.sva_script.specs.Lines.{script_words};
ghost use Rattle.sva_race_texts.specs.Seen.{line_seen};
ghost use Rattle.sva_race_texts.specs.Devices.{has_of, has_seen, is_page, line_if, may_be_silent, named_pages, page_named};
ghost use Rattle.sva_race_texts.specs.Devices.{page_place, with_page};

use crate::devices::{DeviceLine, page_of};
use crate::terms::{Device, Line};
use crate::words::word_at;
use std::alloc::{AllocError, Global};
use sva_script::{Field, places_of, split};

fn is_page(field: Field) -> bool
    ensures { result ≡ is_page field }
{
    matches!(field, Field::Page)
}

/// The place of the first field that is a page.
fn page_field(fields: &[Field]) -> Option<usize>
    ensures at { result ≡ position is_page fields.now }
    ensures within { IfSome result (λ place. place < length fields.now) }
{
    fields.iter().position(|field| is_page(*field))
}

/// Where the page stands among the words behind a step's name.
fn page_place(step: &[u8]) -> Option<usize>
    ensures at { result ≡ page_place step.now }
    ensures small { IfSome result (λ place. place + 1 < 2 ^ 64) }
{
    match places_of(step) {
        Some(fields) => page_field(fields),
        None => None,
    }
}

/// The page that a step names.
fn page_named(words: &[&[u8]]) -> Option<u64>
    ensures { result ≡ page_named (map (λ word. word.now) words.now) }
{
    match page_place(word_at(words, 0)) {
        Some(place) => page_of(word_at(words, place + 1)),
        None => None,
    }
}

fn has_page(pages: &[u64], page: u64) -> bool
    ensures { result ≡ list_any (λ other. other == page) pages.now }
{
    pages.iter().any(|other| *other == page)
}

/// Appends a page, where it isn't there.
fn add_page(pages: &mut Vec<u64>, page: Option<u64>) -> Result<(), AllocError>
    ensures { IfOk result (λ _. pages.new.items ≡ with_page pages.old.items page) }
{
    let Some(page) = page else {
        return Ok(());
    };
    if has_page(pages.as_slice(), page) {
        return Ok(());
    }
    pages.push(page)?;
    Ok(())
}

/// Appends the page that a line names, where it isn't there.
fn add_named(alloc: Global, pages: &mut Vec<u64>, line: &Line) -> Result<(), AllocError>
    ensures { IfOk result (λ _. pages.new.items
        ≡ with_page pages.old.items (page_named (script_words (line_seen line.now).text))) }
{
    let mut words = Vec::new(alloc);
    split(line.text.as_slice(), &mut words)?;
    add_page(pages, page_named(words.as_slice()))
}

/// The pages that lines name, each once.
pub(crate) fn named_pages(alloc: Global, lines: &[Line]) -> Result<Vec<u64>, AllocError>
    ensures { IfOk result (λ pages. pages.items ≡ named_pages (map line_seen lines.now)) }
{
    let mut pages = Vec::new(alloc);
    for place in 0..lines.len() {
        add_named(alloc, &mut pages, &lines[place])?;
    }
    Ok(pages)
}

/// A device's own pages, or else those that are named.
fn pages_or(alloc: Global, pages: &Option<Vec<u64>>, named: &[u64]) -> Result<Vec<u64>, AllocError>
    ensures { IfOk result (λ all. all.items ≡ unwrap_or (option_map (λ pages. pages.items) pages.now) named.now) }
{
    match pages {
        Some(pages) => Vec::from_slice(alloc, pages.as_slice()),
        None => Vec::from_slice(alloc, named),
    }
}

/// What an endpoint may do, by the line of its device, if it has one.
fn device_by(alloc: Global, named: &[u64], line: &Option<DeviceLine>) -> Result<Device, AllocError>
    ensures { IfOk result (λ device. has_seen device ≡ has_of named.now (line_if line.now)) }
{
    match line {
        Some(line) => Ok(Device {
            asks: line.asks,
            uses: line.uses,
            faults: line.faults,
            evicts: line.evicts,
            pages: pages_or(alloc, &line.pages, named)?,
        }),
        None => Ok(Device {
            asks: 0,
            uses: 0,
            faults: 0,
            evicts: false,
            pages: Vec::new(alloc),
        }),
    }
}

/// What each endpoint may do.
pub(crate) fn devices_of(
    alloc: Global,
    named: &[u64],
    lines: &[Option<DeviceLine>],
) -> Result<Vec<Device>, AllocError>
    ensures { IfOk result (λ devices. map has_seen devices.items
        ≡ map (λ line. has_of named.now (line_if line)) lines.now) }
{
    let mut devices = Vec::new(alloc);
    for place in 0..lines.len() {
        let device = device_by(alloc, named, &lines[place])?;
        devices.push(device)?;
    }
    Ok(devices)
}

fn may_be_silent(line: &Option<DeviceLine>) -> bool
    ensures { result ≡ may_be_silent (line_if line.now) }
{
    match line {
        Some(line) => line.is_silent,
        None => false,
    }
}

/// Of each endpoint, whether it may fall silent.
pub(crate) fn silent_of(
    alloc: Global,
    lines: &[Option<DeviceLine>],
) -> Result<Vec<bool>, AllocError>
    ensures { IfOk result (λ silent. silent.items ≡ map (λ line. may_be_silent (line_if line)) lines.now) }
{
    let mut silent = Vec::new(alloc);
    for place in 0..lines.len() {
        silent.push(may_be_silent(&lines[place]))?;
    }
    Ok(silent)
}
