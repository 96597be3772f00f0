//! A text as a race.

ghost use Rattle.std.specs.Prelude.{◌≡◌, ◌+◌, ◌++◌, [], IfOk};
ghost use Rattle.sva_race_texts.specs.Texts.{ReadsRace, race_of, race_with, right_or_said, verdicts_or};
ghost use Rattle.sva_script_reading.specs.Begins.{lines_from};

use crate::before::{names_of, read_before};
use crate::behind::read_from_race;
use crate::counts::counts_of;
use crate::kept::Text;
use crate::limits::put_limits;
use crate::pages::{devices_of, named_pages, silent_of};
use crate::readings::Reading;
use crate::terms::{Claim, Race, Verdicts};
use std::alloc::{AllocError, Global};
use sva_script::Names;
use sva_script_reading::{Desk, Lines, is_too_large, take_config};
use sva_step::Config;

/// Said of a text that is too large.
const TOO_LARGE: &[u8] = b"line 0: the race has more than 1048576 bytes or 65536 lines\n";

/// How workers answer by themselves: by success, unless it is said otherwise.
fn verdicts_or(verdicts: Option<Verdicts>) -> Verdicts
    ensures { result ≡ verdicts_or verdicts }
{
    match verdicts {
        Some(verdicts) => verdicts,
        None => Verdicts {
            success: true,
            invalid: false,
            failure: false,
        },
    }
}

/// Claims, and behind them others.
fn with_others(claims: Vec<Claim>, others: Vec<Claim>) -> Result<Vec<Claim>, AllocError>
    ensures { IfOk result (λ all. all.items ≡ claims.items ++ others.items) }
{
    let mut all = claims;
    let mut more = others;
    all.append(&mut more)?;
    Ok(all)
}

/// What was read as a race, with so many lines before it; or `None`, where something is said of its lines.
fn text_of(
    alloc: Global,
    config: Config,
    before: usize,
    reading: Reading,
    out: &mut Vec<u8>,
) -> Result<Option<Text>, AllocError>
    requires { out.old.items ≡ [] }
    ensures { IfOk result (λ found. ReadsRace (right_or_said
        (record { config = config; before = before; reading = reading })) found out.new.items) }
{
    if !reading.said.is_empty() {
        out.extend_from_slice(reading.said.as_slice())?;
        return Ok(None);
    }
    let Reading {
        heading: _,
        lines,
        threads,
        verdicts,
        devices: device_lines,
        claims,
        asked,
        literals,
        said: _,
    } = reading;
    let named = named_pages(alloc, lines.as_slice())?;
    let pages = named.as_slice();
    let own_lines = device_lines.as_slice();
    let devices = devices_of(alloc, pages, own_lines)?;
    let silent = silent_of(alloc, own_lines)?;
    let all_claims = claims.as_slice();
    let counts = counts_of(alloc, all_claims)?;
    let race = Race {
        config,
        lines,
        before,
        verdicts: verdicts_or(verdicts),
        silent,
        claims: with_others(claims, literals.claims)?,
        counts,
        devices,
    };
    Ok(Some(Text {
        race,
        threads,
        asked,
        literals: literals.asked,
    }))
}

/// Reads all lines of a text, and those behind the config, with a config that is within its limits; of another that is
/// told.
fn read_lines(
    alloc: Global,
    config: Config,
    all: Lines<'_>,
    lines: Lines<'_>,
    out: &mut Vec<u8>,
) -> Result<Option<Text>, AllocError>
    requires none { out.old.items ≡ [] }
    requires first { all.number ≡ 0 }
    ensures { IfOk result (λ found. ReadsRace (race_with config (lines_from (all.entry.number + 1) all.entry.rest.now)
        (lines_from (lines.entry.number + 1) lines.entry.rest.now)) found out.new.items) }
{
    if !config.fits() {
        put_limits(alloc, &config, all, out)?;
        return Ok(None);
    }
    let names = names_of(alloc, all)?;
    let mut reading = Reading::nothing(alloc, &config)?;
    read_before(alloc, lines, &mut reading)?;
    let before = reading.count();
    read_from_race(alloc, config, &names, all, &mut reading)?;
    text_of(alloc, config, before, reading, out)
}

/// Reads a race; or gives `None`, with all that is wrong with it in `out`, a line each. What is wrong with the config
/// is told alone. Nothing is run: whether the answers before `race` are as expected isn't asked.
pub fn read_race(alloc: Global, text: &[u8], out: &mut Vec<u8>) -> Result<Option<Text>, AllocError>
    requires { out.old.items ≡ [] }
    ensures { IfOk result (λ found. ReadsRace (race_of text.now) found out.new.items) }
{
    if is_too_large(text) {
        out.extend_from_slice(TOO_LARGE)?;
        return Ok(None);
    }
    let all = Lines::new(text);
    let mut lines = all;
    let mut desk = Desk::new(alloc);
    let none = Names::new(alloc);
    match take_config(&mut lines, &mut desk, &none, out)? {
        Some(config) => read_lines(alloc, config, all, lines, out),
        None => Ok(None),
    }
}
