//! A text as a driver.

ghost use Rattle.std.specs.Prelude.{◌≡◌, ◌+◌, ◌++◌, [], IfOk, OnOk, length, slice_get};
ghost use Rattle.sva_judge.specs.Spots as spots;
ghost use Rattle.sva_driver_texts.specs.Texts as texts;
ghost use Rattle.sva_script_reading.specs.Begins.{lines_from};
ghost use Rattle.sva_race_texts.specs.Texts.{names_from};

use crate::first::take_lines;
use crate::kept::{Begun, Halt, Read, Said, Text};
use crate::lines::read_lines;
use crate::needs::need_of;
use crate::opening::opening_of;
use crate::readings::Reading;
use crate::written_out::write_out;
use std::alloc::{AllocError, Global};
use sva_driver_words::{DriverWanted, put_fault, wrong_at};
use sva_judge::{Spot, start};
use sva_open::{Driver, Line};
use sva_race_texts::{RaceWanted, put_limits};
use sva_script::{Names, name_in, split};
use sva_script_reading::{Desk, Lines, is_too_large, note_name, take_config};
use sva_step::Config;

/// Said of a text that is too large.
const TOO_LARGE: &[u8] = b"line 0: the driver has more than 1048576 bytes or 65536 lines\n";

/// The names of all lines.
fn names_of(alloc: Global, from: Lines<'_>) -> Result<Names, AllocError>
    ensures { IfOk result (λ names. names
        ≡ names_from [] (lines_from (from.entry.number + 1) from.entry.rest.now)) }
{
    let mut lines = from;
    let mut names = Names::new(alloc);
    let mut words = Vec::new(alloc);
    while let Some((number, line)) = lines.next() {
        split(line, &mut words)?;
        note_name(alloc, number, name_in(words.as_slice()), &mut names)?;
    }
    Ok(names)
}

/// The number behind that of the last line.
fn next_number(from: Lines<'_>) -> u64
    requires { from.number ≡ 0 }
    ensures { result ≡ length (lines_from (from.entry.number + 1) from.entry.rest.now) + 1 }
{
    let mut lines = from;
    while let Some(_line) = lines.next() {}
    lines.number + 1
}

/// What was read, before its first line is taken; or `None`, where something is said of its lines.
fn read_of(
    alloc: Global,
    config: Config,
    names: Names,
    next: u64,
    reading: Reading,
    out: &mut Vec<u8>,
) -> Result<Option<Read>, AllocError>
    requires { out.old.items ≡ [] }
    ensures { IfOk result (λ found. texts.ReadsText (texts.right_or_said
        (record { config = config; known = names; next = next; reading = reading })) found out.new.items) }
{
    if !reading.said.is_empty() {
        out.extend_from_slice(reading.said.as_slice())?;
        return Ok(None);
    }
    let is_race = reading.is_race;
    let before = reading.before;
    let (opening, said) = opening_of(alloc, &config, reading)?;
    Ok(Some(Read {
        config,
        names,
        next,
        is_race,
        before,
        opening,
        said,
    }))
}

/// Reads all lines of a text, and those behind the config, with a config that is within its limits; of another that is
/// told.
fn read_all(
    alloc: Global,
    config: Config,
    all: Lines<'_>,
    lines: Lines<'_>,
    out: &mut Vec<u8>,
) -> Result<Option<Read>, AllocError>
    requires none { out.old.items ≡ [] }
    requires first { all.number ≡ 0 }
    ensures { IfOk result (λ found. texts.ReadsText (texts.driver_with config
        (lines_from (all.entry.number + 1) all.entry.rest.now)
        (lines_from (lines.entry.number + 1) lines.entry.rest.now)) found out.new.items) }
{
    if !config.fits() {
        put_limits(alloc, &config, all, out)?;
        return Ok(None);
    }
    let Some(written) = write_out(alloc, lines, out)? else {
        return Ok(None);
    };
    let names = names_of(alloc, all)?;
    let next = next_number(all);
    let mut reading = Reading::nothing(alloc, &config)?;
    read_lines(alloc, &config, &names, written.as_slice(), &mut reading)?;
    read_of(alloc, config, names, next, reading, out)
}

/// Reads a driver, before its first line is taken; or gives `None`, with all that is wrong with its lines in `out`, a
/// line each. What is wrong with the config is told alone.
pub fn read_text(alloc: Global, text: &[u8], out: &mut Vec<u8>) -> Result<Option<Read>, AllocError>
    requires { out.old.items ≡ [] }
    ensures { IfOk result (λ found. texts.ReadsText (texts.driver_of text.now) found out.new.items) }
{
    if is_too_large(text) {
        out.extend_from_slice(TOO_LARGE)?;
        return Ok(None);
    }
    let all = Lines::new(text);
    let mut lines = all;
    let mut desk = Desk::new(alloc);
    let none = Names::new(alloc);
    match take_config(&mut lines, &mut desk, &none, out)? {
        Some(config) => read_all(alloc, config, all, lines, out),
        None => Ok(None),
    }
}

/// Tells of a line that it isn't permitted where it stands, and what it needs.
fn tell_refused(
    alloc: Global,
    names: &Names,
    line: &Line,
    said: &Said,
    out: &mut Vec<u8>,
) -> Result<(), AllocError>
    ensures { OnOk result (out.new.items
        ≡ out.old.items ++ texts.refused_text names.now (Some line.now) (Some said.now)) }
{
    let mut words = Vec::new(alloc);
    split(said.text.as_slice(), &mut words)?;
    let wrong = wrong_at(0, DriverWanted::Permitted(need_of(&line.saying)));
    put_fault(out, &wrong, line.number, words.as_slice(), names)
}

/// Tells of the line at a place that it isn't permitted where it stands.
pub fn put_refused(
    alloc: Global,
    read: &Read,
    place: usize,
    out: &mut Vec<u8>,
) -> Result<(), AllocError>
    ensures { OnOk result (out.new.items ≡ out.old.items ++ texts.refused_at read.now place) }
{
    let Some(line) = read.opening.lines.get(place) else {
        return Ok(());
    };
    let Some(said) = read.said.get(place) else {
        return Ok(());
    };
    tell_refused(alloc, &read.names, line, said, out)
}

/// Tells that there is no `race`.
fn put_missing(read: &Read, out: &mut Vec<u8>) -> Result<(), AllocError>
    ensures { OnOk result (out.new.items ≡ out.old.items ++ texts.race_missing read.now) }
{
    let wrong = wrong_at(0, DriverWanted::Race(RaceWanted::Race));
    put_fault(out, &wrong, read.next, &[], &read.names)
}

/// A driver behind its first lines.
fn behind(opening: Driver, spot: Spot) -> Driver
    ensures { texts.IsBehind opening spot result }
{
    let Driver {
        start: _,
        lines,
        taken: _,
        at: _,
        locked: _,
        flags: _,
        devices,
        workers,
    } = opening;
    let Spot {
        world,
        taken,
        at,
        locked,
        flags,
        left: _,
    } = spot;
    Driver {
        start: world,
        lines,
        taken,
        at,
        locked,
        flags,
        devices,
        workers,
    }
}

/// What was read, behind the lines before `race`.
fn text_of(read: Read, opened: Spot, spot: Spot) -> Text
    ensures config { result.config ≡ read.config }
    ensures opened { result.opened ≡ opened }
    ensures before { result.before ≡ read.before }
    ensures said { result.said ≡ read.said }
    ensures driver { texts.IsBehind read.opening spot result.driver }
{
    let Read {
        config,
        names: _,
        next: _,
        is_race: _,
        before,
        opening,
        said,
    } = read;
    Text {
        config,
        driver: behind(opening, spot),
        opened,
        before,
        said,
    }
}

/// Takes the lines before `race`.
fn take_first(alloc: Global, read: Read, out: &mut Vec<u8>) -> Result<Begun, AllocError>
    requires { out.old.items ≡ [] }
    ensures { IfOk result (λ begun. texts.StandsBy read read.is_race begun out.new.items) }
{
    if !read.is_race {
        put_missing(&read, out)?;
        return Ok(Begun::Faulted);
    }
    match take_lines(alloc, &read.opening, read.before)? {
        Ok(spot) => {
            let opened = start(alloc, &read.opening)?;
            Ok(Begun::Stands {
                text: text_of(read, opened, spot),
            })
        }
        Err(Halt::Refused { place }) => {
            put_refused(alloc, &read, place, out)?;
            Ok(Begun::Faulted)
        }
        Err(Halt::Leaks { number, wrong }) => Ok(Begun::Leaks { number, wrong }),
    }
}

/// Reads a driver, and takes its lines before `race`. Where its lines are wrong, or one isn't permitted where it stands,
/// that is in `out`; nothing is else.
pub fn read_driver(alloc: Global, text: &[u8], out: &mut Vec<u8>) -> Result<Begun, AllocError>
    requires { out.old.items ≡ [] }
    ensures { IfOk result (λ begun. texts.ReadsDriver (texts.driver_of text.now) begun out.new.items) }
{
    match read_text(alloc, text, out)? {
        None => Ok(Begun::Faulted),
        Some(read) => take_first(alloc, read, out),
    }
}
