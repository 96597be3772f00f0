//! Endpoints that stand below one unit.

ghost use Rattle.std.specs.Prelude.{◌≡◌, ◌==◌, IfOk, count_by, drop, map, slice_index_or};
ghost use Rattle.sva_driver_texts.specs.Devices.{items_of};
ghost use Rattle.sva_driver_texts.specs.Units as below;
ghost use Rattle.sva_driver_words.specs.Taking.{Gives};

use std::alloc::{AllocError, Global};
use sva_driver_words::{DriverStop, DriverWanted, DriverWrong, endpoint_at, has_word, wrong_at};
use sva_race_texts::RaceWanted;
use sva_step::Config;

/// So many endpoints, each below a unit of its own.
fn numbers_below(alloc: Global, count: usize) -> Result<Vec<usize>, AllocError>
    ensures { IfOk result (λ units. units.items ≡ below.numbers_below count) }
{
    let mut units = Vec::new(alloc);
    for endpoint in 0..count {
        units.push(endpoint)?;
    }
    Ok(units)
}

/// The units so far.
pub(crate) fn units_or_own(
    alloc: Global,
    config: &Config,
    units: &[usize],
) -> Result<Vec<usize>, AllocError>
    ensures { IfOk result (λ own. own.items ≡ below.units_or_own config.now units.now) }
{
    if units.is_empty() {
        return numbers_below(alloc, config.endpoints as usize);
    }
    Vec::from_slice(alloc, units)
}

fn count_below(units: &[usize], endpoint: usize) -> usize
    ensures { result ≡ count_by (λ own. own == endpoint) units.now }
{
    units.iter().filter(|own| **own == endpoint).count()
}

/// Whether an endpoint shares its unit with none.
fn is_alone(units: &[usize], endpoint: usize) -> bool
    ensures { result ≡ below.is_alone units.now endpoint }
{
    count_below(units, endpoint) == 1
}

/// Reads an endpoint that shares its unit with none yet.
fn alone_at(
    config: &Config,
    units: &[usize],
    words: &[&[u8]],
    at: usize,
) -> Result<usize, DriverWrong>
    ensures { result ≡ below.alone_at config.now units.now at (map (λ word. word.now) words.now) }
{
    let endpoint = endpoint_at(config, words, at)?;
    if is_alone(units, endpoint) {
        return Ok(endpoint);
    }
    Err(wrong_at(at, DriverWanted::Unshared))
}

/// Reads a further one.
fn further_at(
    config: &Config,
    units: &[usize],
    first: usize,
    words: &[&[u8]],
    at: usize,
) -> Result<usize, DriverWrong>
    ensures { result ≡ below.further_at config.now units.now first at (map (λ word. word.now) words.now) }
{
    let endpoint = alone_at(config, units, words, at)?;
    if endpoint == first {
        return Err(wrong_at(at, DriverWanted::Unshared));
    }
    Ok(endpoint)
}

fn lower(unit: usize, other: usize) -> usize
    ensures { result ≡ below.lower unit other }
{
    if other < unit { other } else { unit }
}

fn joined_one(unit: usize, other: usize, own: usize) -> usize
    ensures { result ≡ below.joined_one unit other own }
{
    if own == unit || own == other {
        return lower(unit, other);
    }
    own
}

/// The units, of which two have come to be one.
fn joined(
    alloc: Global,
    units: &[usize],
    unit: usize,
    other: usize,
) -> Result<Vec<usize>, AllocError>
    ensures { IfOk result (λ list. list.items ≡ below.joined units.now unit other) }
{
    let mut list = Vec::new(alloc);
    for own in units {
        list.push(joined_one(unit, other, *own))?;
    }
    Ok(list)
}

/// The unit of an endpoint.
fn unit_of(units: &[usize], endpoint: usize) -> usize
    ensures { result ≡ slice_index_or units.now endpoint endpoint }
{
    match units.get(endpoint) {
        Some(unit) => *unit,
        None => endpoint,
    }
}

/// The units with a further endpoint below that of the first.
fn with_further(
    alloc: Global,
    config: &Config,
    units: &[usize],
    first: usize,
    words: &[&[u8]],
    at: usize,
) -> Result<Vec<usize>, DriverStop>
    ensures { Gives items_of
        (below.with_further config.now units.now first at (map (λ word. word.now) words.now)) result }
{
    match further_at(config, units, first, words, at) {
        Ok(other) => match joined(alloc, units, unit_of(units, first), other) {
            Ok(more) => Ok(more),
            Err(_) => Err(DriverStop::Memory),
        },
        Err(wrong) => Err(DriverStop::Wrong(wrong)),
    }
}

/// The units with all further endpoints.
fn further_from(
    alloc: Global,
    config: &Config,
    own: Vec<usize>,
    first: usize,
    words: &[&[u8]],
) -> Result<Vec<usize>, DriverStop>
    ensures { Gives items_of (below.further_from config.now first 2 own.items
        (drop 2 (map (λ word. word.now) words.now)) (map (λ word. word.now) words.now)) result }
{
    let mut units = own;
    for at in 2..words.len() {
        match with_further(alloc, config, units.as_slice(), first, words, at) {
            Ok(more) => units = more,
            Err(stop) => return Err(stop),
        }
    }
    Ok(units)
}

/// The units behind a line `unit E E ..`, of those that were there before it.
pub(crate) fn units_of(
    alloc: Global,
    config: &Config,
    own: Vec<usize>,
    words: &[&[u8]],
) -> Result<Vec<usize>, DriverStop>
    ensures { Gives items_of (below.units_of config.now own.items (map (λ word. word.now) words.now)) result }
{
    let first = alone_at(config, own.as_slice(), words, 1).map_err(DriverStop::Wrong)?;
    if !has_word(words, 2) {
        return Err(DriverStop::Wrong(wrong_at(2, DriverWanted::Race(RaceWanted::OfConfig))));
    }
    further_from(alloc, config, own, first, words)
}
