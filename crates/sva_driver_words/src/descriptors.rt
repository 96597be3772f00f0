//! The descriptors of a line that submits them.

ghost use Rattle.std.specs.Prelude.{◌≡◌, ◌+◌, ◌<◌, ◌≤◌, ◌^◌, ◌++◌, ◌∷◌, [], Err, OnOk, length, map};
ghost use Rattle.sva_driver_words.specs.Descriptors as descriptors;
ghost use Rattle.sva_driver_words.specs.Faults.{placed};
ghost use Rattle.sva_driver_words.specs.Sayings.{saying_seen};
ghost use Rattle.sva_driver_words.specs.Taking.{Adds, Gives};

use crate::faults::{DriverStop, DriverWanted, DriverWrong, SubmitWanted, wrong_at};
use crate::fields::{endpoint_at, has_word, number_at, order_at, page_by, pasid_at, says};
use crate::units::is_below;
use std::alloc::{AllocError, Global};
use sva_open::{Act, Descriptor, LocalAct, Saying, Scope, named_or};
use sva_race_texts::{count_of, piece_len, words_at, words_from};
use sva_step::Config;

/// How many descriptors a line may have: its queue has as many places.
const MOST_DESCRIPTORS: usize = 64;

/// How many endpoints a config may have.
const MOST_ENDPOINTS: u64 = 8;

/// The aligned range of 2^order pages that has a page.
fn aligned(pasid: usize, page: u64, order: u64) -> Scope
    requires { order < 64 }
    ensures { result ≡ descriptors.aligned pasid page order }
{
    let count = 1 << order;
    Scope::Pages {
        pasid,
        first: page - page % count,
        count,
    }
}

/// Whether a descriptor has no word behind so many: `+` stands before the next one.
fn ends_at(words: &[&[u8]], count: usize) -> Result<(), DriverWrong>
    ensures { result ≡ descriptors.ends_at count (map (λ word. word.now) words.now) }
{
    if count < count_of(words) {
        return Err(wrong_at(count, DriverWanted::Submit(SubmitWanted::PlusOrEnd)));
    }
    Ok(())
}

/// Reads an endpoint of the same unit.
fn beside_at(
    words: &[&[u8]],
    at: usize,
    units: &[usize],
    endpoint: usize,
) -> Result<usize, DriverWrong>
    ensures { result ≡ descriptors.beside_at at units.now endpoint (map (λ word. word.now) words.now) }
{
    let wanted = DriverWanted::Submit(SubmitWanted::Beside);
    let number = number_at(words, at, 0, MOST_ENDPOINTS, wanted)?;
    let other = number as usize;
    if is_below(units, endpoint, other) {
        return Ok(other);
    }
    Err(wrong_at(at, wanted))
}

/// Reads `of F`.
fn other_at(
    words: &[&[u8]],
    at: usize,
    units: &[usize],
    endpoint: usize,
) -> Result<Option<usize>, DriverWrong>
    requires { at < 8 }
    ensures { result ≡ descriptors.other_at at units.now endpoint (map (λ word. word.now) words.now) }
{
    let other = beside_at(words, at + 1, units, endpoint)?;
    ends_at(words, at + 2)?;
    Ok(Some(other))
}

/// Whether nothing stands behind so many words.
fn none_at(words: &[&[u8]], at: usize) -> Result<Option<usize>, DriverWrong>
    ensures { result ≡ descriptors.none_at at (map (λ word. word.now) words.now) }
{
    if at < count_of(words) {
        return Err(wrong_at(at, DriverWanted::Submit(SubmitWanted::OfOrPlus)));
    }
    Ok(None)
}

/// Reads `of F`, or nothing.
fn of_at(
    words: &[&[u8]],
    at: usize,
    units: &[usize],
    endpoint: usize,
) -> Result<Option<usize>, DriverWrong>
    requires { at < 8 }
    ensures { result ≡ descriptors.of_at at units.now endpoint (map (λ word. word.now) words.now) }
{
    if says(words, at, b"of") {
        return other_at(words, at, units, endpoint);
    }
    none_at(words, at)
}

/// Reads `range P PAGE K [of F]`.
fn range_descriptor(
    units: &[usize],
    endpoint: usize,
    words: &[&[u8]],
) -> Result<Descriptor, DriverWrong>
    ensures { result ≡ descriptors.range_descriptor units.now endpoint (map (λ word. word.now) words.now) }
{
    let pasid = pasid_at(words, 1)?;
    let page = page_by(words, 2, DriverWanted::Page)?;
    let order = order_at(words, 3)?;
    let other = of_at(words, 4, units, endpoint)?;
    Ok(Descriptor::Device {
        endpoint: named_or(endpoint, other),
        scope: aligned(pasid, page, order),
    })
}

/// Reads `pasid P [of F]`.
fn pasid_descriptor(
    units: &[usize],
    endpoint: usize,
    words: &[&[u8]],
) -> Result<Descriptor, DriverWrong>
    ensures { result ≡ descriptors.pasid_descriptor units.now endpoint (map (λ word. word.now) words.now) }
{
    let pasid = pasid_at(words, 1)?;
    let other = of_at(words, 2, units, endpoint)?;
    Ok(Descriptor::Device {
        endpoint: named_or(endpoint, other),
        scope: Scope::Pasid { pasid },
    })
}

/// Reads `iotlb P PAGE K [of F]`.
fn kept_range(units: &[usize], endpoint: usize, words: &[&[u8]]) -> Result<Descriptor, DriverWrong>
    ensures { result ≡ descriptors.kept_range units.now endpoint (map (λ word. word.now) words.now) }
{
    let wanted = DriverWanted::Submit(SubmitWanted::PageOrPlus);
    let pasid = pasid_at(words, 1)?;
    let page = page_by(words, 2, wanted)?;
    let order = order_at(words, 3)?;
    let other = of_at(words, 4, units, endpoint)?;
    Ok(Descriptor::Translations {
        endpoint: other,
        scope: aligned(pasid, page, order),
    })
}

/// Reads `iotlb P [of F]`.
fn kept_pasid(units: &[usize], endpoint: usize, words: &[&[u8]]) -> Result<Descriptor, DriverWrong>
    ensures { result ≡ descriptors.kept_pasid units.now endpoint (map (λ word. word.now) words.now) }
{
    let pasid = pasid_at(words, 1)?;
    let other = of_at(words, 2, units, endpoint)?;
    Ok(Descriptor::Translations {
        endpoint: other,
        scope: Scope::Pasid { pasid },
    })
}

/// Reads `iotlb P [PAGE K] [of F]`.
fn iotlb_descriptor(
    units: &[usize],
    endpoint: usize,
    words: &[&[u8]],
) -> Result<Descriptor, DriverWrong>
    ensures { result ≡ descriptors.iotlb_descriptor units.now endpoint (map (λ word. word.now) words.now) }
{
    if says(words, 2, b"of") {
        return kept_pasid(units, endpoint, words);
    }
    if has_word(words, 2) {
        return kept_range(units, endpoint, words);
    }
    kept_pasid(units, endpoint, words)
}

/// Reads `entry P [of F]`.
fn entry_descriptor(
    units: &[usize],
    endpoint: usize,
    words: &[&[u8]],
) -> Result<Descriptor, DriverWrong>
    ensures { result ≡ descriptors.entry_descriptor units.now endpoint (map (λ word. word.now) words.now) }
{
    let pasid = pasid_at(words, 1)?;
    let other = of_at(words, 2, units, endpoint)?;
    Ok(Descriptor::Entry {
        endpoint: other,
        pasid,
    })
}

/// The place behind a word that may stand there.
fn behind(at: usize, is_there: bool) -> usize
    requires { at < 8 }
    ensures at { result ≡ descriptors.behind at is_there }
    ensures near { result ≤ at + 1 }
{
    if is_there { at + 1 } else { at }
}

/// What a wait may have behind what it has.
fn wait_wanted(drain: bool, fence: bool) -> SubmitWanted
    ensures { result ≡ descriptors.wait_wanted drain fence }
{
    if drain && fence {
        return SubmitWanted::PlusOrEnd;
    }
    if drain {
        return SubmitWanted::FenceOrPlus;
    }
    if fence {
        return SubmitWanted::DrainOrPlus;
    }
    SubmitWanted::FlagOrPlus
}

/// Reads the end of a wait, which has so many words.
fn wait_with(
    name: usize,
    drain: bool,
    fence: bool,
    count: usize,
    words: &[&[u8]],
) -> Result<Descriptor, DriverWrong>
    ensures { result ≡ descriptors.wait_with name drain fence count (map (λ word. word.now) words.now) }
{
    if count < count_of(words) {
        return Err(wrong_at(count, DriverWanted::Submit(wait_wanted(drain, fence))));
    }
    Ok(Descriptor::Wait { name, drain, fence })
}

/// Reads `wait`, with `drain` and `fence` in either order.
fn wait_of(name: usize, words: &[&[u8]]) -> Result<Descriptor, DriverWrong>
    ensures { result ≡ descriptors.wait_of name (map (λ word. word.now) words.now) }
{
    if says(words, 1, b"fence") {
        return fence_first(name, words);
    }
    drain_first(name, words)
}

/// Reads `wait fence [drain]`.
fn fence_first(name: usize, words: &[&[u8]]) -> Result<Descriptor, DriverWrong>
    ensures { result ≡ descriptors.fence_first name (map (λ word. word.now) words.now) }
{
    let drain = says(words, 2, b"drain");
    wait_with(name, drain, true, behind(2, drain), words)
}

/// Reads `wait [drain] [fence]`.
fn drain_first(name: usize, words: &[&[u8]]) -> Result<Descriptor, DriverWrong>
    ensures { result ≡ descriptors.drain_first name (map (λ word. word.now) words.now) }
{
    let drain = says(words, 1, b"drain");
    let at = behind(1, drain);
    let fence = says(words, at, b"fence");
    wait_with(name, drain, fence, behind(at, fence), words)
}

/// A descriptor of a line at an endpoint; waits get a name.
fn descriptor_of(
    units: &[usize],
    endpoint: usize,
    name: usize,
    words: &[&[u8]],
) -> Result<Descriptor, DriverWrong>
    ensures { result ≡ descriptors.descriptor_of units.now endpoint name (map (λ word. word.now) words.now) }
{
    if says(words, 0, b"range") {
        return range_descriptor(units, endpoint, words);
    }
    if says(words, 0, b"pasid") {
        return pasid_descriptor(units, endpoint, words);
    }
    if says(words, 0, b"iotlb") {
        return iotlb_descriptor(units, endpoint, words);
    }
    if says(words, 0, b"entry") {
        return entry_descriptor(units, endpoint, words);
    }
    if says(words, 0, b"wait") {
        return wait_of(name, words);
    }
    Err(wrong_at(0, DriverWanted::Descriptor))
}

/// What is wrong with words that begin at a place of their line. No line is so long that the place of a word doesn't
/// fit; if it were, nothing could be said of it.
fn place_stop(start: usize, found: DriverWrong) -> Result<Descriptor, DriverStop>
    ensures { Gives descriptors.itself (placed start (Err found)) result }
{
    match start.checked_add(found.at) {
        Some(at) => Err(DriverStop::Wrong(wrong_at(at, found.wanted))),
        None => Err(DriverStop::Memory),
    }
}

/// A descriptor behind so many; its words begin at `at`.
fn read_descriptor(
    units: &[usize],
    endpoint: usize,
    name: usize,
    count: usize,
    words: &[&[u8]],
    at: usize,
) -> Result<Descriptor, DriverStop>
    ensures { Gives descriptors.itself
        (descriptors.descriptor_at units.now endpoint name count at (map (λ word. word.now) words.now)) result }
{
    if MOST_DESCRIPTORS <= count {
        return Err(DriverStop::Wrong(wrong_at(
            at.saturating_sub(1),
            DriverWanted::Submit(SubmitWanted::Few),
        )));
    }
    match descriptor_of(units, endpoint, name, words) {
        Ok(descriptor) => Ok(descriptor),
        Err(found) => place_stop(at, found),
    }
}

fn push_descriptor(list: &mut Vec<Descriptor>, one: Descriptor) -> Result<(), AllocError>
    ensures { OnOk result (list.new.items ≡ list.old.items ++ one ∷ []) }
{
    match list.push(one) {
        Ok(()) => Ok(()),
        Err(_) => Err(AllocError),
    }
}

/// Adds a descriptor; its words begin at `at`.
fn add_descriptor(
    units: &[usize],
    endpoint: usize,
    name: usize,
    words: &[&[u8]],
    at: usize,
    list: &mut Vec<Descriptor>,
) -> Result<(), DriverStop>
    ensures { Adds descriptors.itself
        (descriptors.descriptor_at units.now endpoint name (length list.old.items) at
        (map (λ word. word.now) words.now))
        list.old.items list.new.items result }
{
    match read_descriptor(units, endpoint, name, list.len(), words, at) {
        Ok(one) => match push_descriptor(list, one) {
            Ok(()) => Ok(()),
            Err(_) => Err(DriverStop::Memory),
        },
        Err(stop) => Err(stop),
    }
}

/// Descriptors with `+` between two; the words begin at `at`.
fn read_descriptors(
    alloc: Global,
    units: &[usize],
    endpoint: usize,
    name: usize,
    words: &[&[u8]],
    at: usize,
) -> Result<Vec<Descriptor>, DriverStop>
    requires { at + length words.now + 4 < 2 ^ 64 }
    ensures { Gives descriptors.items_of
        (descriptors.descriptors_of units.now endpoint name at (map (λ word. word.now) words.now)) result }
{
    let mut list = Vec::new(alloc);
    let mut start = 0;
    while let Some(count) = piece_len(words, start, b"+") {
        let piece = words_at(words, start, count);
        match add_descriptor(units, endpoint, name, piece, at + start, &mut list) {
            Ok(()) => {}
            Err(stop) => return Err(stop),
        }
        start += count + 1;
    }
    let piece = words_from(words, start);
    match add_descriptor(units, endpoint, name, piece, at + start, &mut list) {
        Ok(()) => Ok(list),
        Err(stop) => Err(stop),
    }
}

/// Reads `submit E D [+ D ..]`.
pub(crate) fn submit_line(
    alloc: Global,
    config: &Config,
    units: &[usize],
    name: usize,
    words: &[&[u8]],
) -> Result<Saying, DriverStop>
    ensures { Gives saying_seen
        (descriptors.submit_line config.now units.now name (map (λ word. word.now) words.now)) result }
{
    let endpoint = endpoint_at(config, words, 1).map_err(DriverStop::Wrong)?;
    let rest = words_from(words, 2);
    let descriptors = read_descriptors(alloc, units, endpoint, name, rest, 2)?;
    Ok(Saying::Does {
        act: Act::At {
            endpoint,
            act: LocalAct::Submit { descriptors },
        },
    })
}
