//! A line of a device: what its endpoint may do beside its lines, and whether it may fall silent.

ghost use Rattle.std.specs.Prelude.{◌≡◌, ◌+◌, ◌<◌, ◌≤◌, ◌^◌, IfOk, codes, length, map, option_map};
ghost use Rattle.sva_race_texts.specs.Words.{word_at};
ghost use Rattle.sva_race_texts.specs.TakingWords.{Gives};
ghost use Rattle.sva_race_texts.specs.Devices.{amount_of, device_of, device_seen, flag_of, page_of, pages_in, pages_of};
ghost use Rattle.sva_race_texts.specs.Devices.{whole};

use crate::faults::{RaceStop, RaceWanted, RaceWrong, stop_at, wrong_at};
use crate::words::{count_of, word_at, words_from};
use std::alloc::{AllocError, Global};
use sva_grammar::number_in;
use sva_script::{Field, Wanted, is, page_in};

/// What is said of a device.
#[derive(Drop)]
pub struct DeviceLine {
    /// How many translations it may ask for.
    pub(crate) asks: u64,
    /// How many uses of cached translations it may begin.
    pub(crate) uses: u64,
    /// How many page requests it may send.
    pub(crate) faults: u64,
    /// Whether it may evict cached translations.
    pub(crate) evicts: bool,
    /// The numbers of its pages, where there are some.
    pub(crate) pages: Option<Vec<u64>>,
    /// Whether it may fall silent.
    pub(crate) is_silent: bool,
}

/// So much of something, and the place of the word behind: two words, `N asks`. 0 where they aren't there.
fn amount_of(words: &[&[u8]], at: usize, what: &[u8]) -> Result<(u64, usize), RaceWrong>
    requires { at + 2 < 2 ^ 64 }
    ensures amount { result ≡ amount_of what.now at (map (λ word. word.now) words.now) }
    ensures near { IfOk result (λ it. it.1 ≤ at + 2) }
{
    if !is(word_at(words, at + 1), what) {
        return Ok((0, at));
    }
    match number_in(word_at(words, at)) {
        Ok(amount) => Ok((amount, at + 2)),
        Err(_) => Err(wrong_at(at, RaceWanted::Amount)),
    }
}

/// Whether this word is there, and the place of the one behind.
fn flag_of(words: &[&[u8]], at: usize, what: &[u8]) -> (bool, usize)
    requires { at + 1 < 2 ^ 64 }
    ensures flag { result ≡ flag_of what.now at (map (λ word. word.now) words.now) }
    ensures near { result.1 ≤ at + 1 }
{
    if is(word_at(words, at), what) {
        (true, at + 1)
    } else {
        (false, at)
    }
}

/// The page that a word writes: behind `0x` in hexadecimal digits, or in decimal.
pub(crate) fn page_of(word: &[u8]) -> Option<u64>
    ensures { result ≡ page_of word.now }
{
    match page_in(word) {
        Some(page) => Some(page),
        None => match number_in(word) {
            Ok(page) => Some(page),
            Err(_) => None,
        },
    }
}

/// The page that the word at a place writes.
fn page_at(words: &[&[u8]], place: usize) -> Option<u64>
    ensures { result ≡ page_of (word_at place (map (λ word. word.now) words.now)) }
{
    page_of(word_at(words, place))
}

/// The pages that words begin with.
fn pages_in(alloc: Global, words: &[&[u8]]) -> Result<Vec<u64>, AllocError>
    ensures pages { IfOk result (λ list. list.items ≡ pages_in (map (λ word. word.now) words.now)) }
    ensures few { IfOk result (λ list. length list.items ≤ length words.now) }
{
    let mut list = Vec::new(alloc);
    for place in 0..words.len() {
        match page_at(words, place) {
            Some(page) => {
                list.push(page)?;
            }
            None => return Ok(list),
        }
    }
    Ok(list)
}

/// The pages of a device, where the word `pages` is at this place; and the place of the word behind.
fn pages_of(
    alloc: Global,
    words: &[&[u8]],
    at: usize,
) -> Result<(Option<Vec<u64>>, usize), RaceStop>
    requires { at + length words.now + 3 < 2 ^ 64 }
    ensures pages { Gives (λ it. (option_map (λ pages. pages.items) it.0, it.1))
        (pages_of at (map (λ word. word.now) words.now)) result }
    ensures near { IfOk result (λ it. it.1 ≤ at + 1 + length words.now) }
{
    if !is(word_at(words, at), b"pages") {
        return Ok((None, at));
    }
    let pages = match pages_in(alloc, words_from(words, at + 1)) {
        Ok(pages) => pages,
        Err(_) => return Err(RaceStop::Memory),
    };
    let count = pages.as_slice().len();
    if count == 0 {
        return Err(stop_at(at + 1, RaceWanted::Script(Wanted::Field(Field::Page))));
    }
    Ok((Some(pages), at + 1 + count))
}

/// Whether the line says something, and no word is left at this place.
fn judge_whole(words: &[&[u8]], at: usize) -> Result<(), RaceWrong>
    ensures { result ≡ whole at (map (λ word. word.now) words.now) }
{
    if at < count_of(words) || at == 2 {
        return Err(wrong_at(at, RaceWanted::Device));
    }
    Ok(())
}

/// What the line of a device says behind the number of its endpoint.
pub(crate) fn read_device(alloc: Global, words: &[&[u8]]) -> Result<DeviceLine, RaceStop>
    ensures { Gives device_seen (device_of (map (λ word. word.now) words.now)) result }
{
    let (asks, uses_at) = amount_of(words, 2, b"asks").map_err(RaceStop::Wrong)?;
    let (uses, faults_at) = amount_of(words, uses_at, b"uses").map_err(RaceStop::Wrong)?;
    let (faults, evicts_at) = amount_of(words, faults_at, b"faults").map_err(RaceStop::Wrong)?;
    let (evicts, pages_at) = flag_of(words, evicts_at, b"evicts");
    let (pages, silent_at) = pages_of(alloc, words, pages_at)?;
    let (is_silent, end) = flag_of(words, silent_at, b"silent");
    judge_whole(words, end).map_err(RaceStop::Wrong)?;
    Ok(DeviceLine {
        asks,
        uses,
        faults,
        evicts,
        pages,
        is_silent,
    })
}
