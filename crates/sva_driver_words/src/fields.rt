//! The words of a line by their places.

ghost use Rattle.std.specs.Prelude.{◌≡◌, map};
ghost use Rattle.sva_driver_words.specs.Fields as field;

use crate::faults::{DriverWanted, DriverWrong, wrong_at};
use crate::written::WrittenWanted;
use sva_grammar::{Cause, number_in};
use sva_open::Kind;
use sva_race_texts::{RaceWanted, count_of, word_at};
use sva_script::{is, page_in};
use sva_step::Config;

/// Whether the word at a place is this one.
pub fn says(words: &[&[u8]], at: usize, word: &[u8]) -> bool
    ensures { result ≡ field.says at word.now (map (λ word. word.now) words.now) }
{
    is(word_at(words, at), word)
}

/// Whether there is a word at a place.
pub fn has_word(words: &[&[u8]], at: usize) -> bool
    ensures { result ≡ field.has_word at (map (λ word. word.now) words.now) }
{
    at < count_of(words)
}

/// What a word was read as, where that is a number from one on and below another.
fn within(
    read: Result<u64, Cause>,
    at: usize,
    low: u64,
    below: u64,
    wanted: DriverWanted,
) -> Result<u64, DriverWrong>
    ensures { result ≡ field.within low below at wanted read }
{
    match read {
        Ok(value) => {
            if low <= value && value < below {
                Ok(value)
            } else {
                Err(wrong_at(at, wanted))
            }
        }
        Err(_) => Err(wrong_at(at, wanted)),
    }
}

/// A number from one on and below another.
pub(crate) fn number_at(
    words: &[&[u8]],
    at: usize,
    low: u64,
    below: u64,
    wanted: DriverWanted,
) -> Result<u64, DriverWrong>
    ensures { result ≡ field.number_at low below at wanted (map (λ word. word.now) words.now) }
{
    within(number_in(word_at(words, at)), at, low, below, wanted)
}

/// An endpoint of the config.
pub fn endpoint_at(config: &Config, words: &[&[u8]], at: usize) -> Result<usize, DriverWrong>
    ensures { result ≡ field.endpoint_at config.now at (map (λ word. word.now) words.now) }
{
    let wanted = DriverWanted::Race(RaceWanted::OfConfig);
    let value = number_at(words, at, 0, config.endpoints, wanted)?;
    Ok(value as usize)
}

/// A frame of the config.
pub fn frame_at(
    config: &Config,
    words: &[&[u8]],
    at: usize,
    wanted: DriverWanted,
) -> Result<usize, DriverWrong>
    ensures { result ≡ field.frame_at config.now at wanted (map (λ word. word.now) words.now) }
{
    let value = number_at(words, at, 0, config.frames, wanted)?;
    Ok(value as usize)
}

/// A PASID, 1 to 32; or 0, which is what a request without a PASID is of.
pub fn pasid_at(words: &[&[u8]], at: usize) -> Result<usize, DriverWrong>
    ensures { result ≡ field.pasid_at at (map (λ word. word.now) words.now) }
{
    let value = number_at(words, at, 0, 33, DriverWanted::Pasid)?;
    Ok(value as usize)
}

/// A PASID, where there is such a word.
pub fn some_pasid_at(words: &[&[u8]], at: usize) -> Result<Option<usize>, DriverWrong>
    ensures { result ≡ field.some_pasid_at at (map (λ word. word.now) words.now) }
{
    if !has_word(words, at) {
        return Ok(None);
    }
    let pasid = pasid_at(words, at)?;
    Ok(Some(pasid))
}

/// A space, 0 to 63.
pub fn space_at(words: &[&[u8]], at: usize, wanted: DriverWanted) -> Result<u64, DriverWrong>
    ensures { result ≡ field.space_at at wanted (map (λ word. word.now) words.now) }
{
    number_at(words, at, 0, 64, wanted)
}

/// The page that a word writes: behind `0x` in hexadecimal digits, or in decimal.
fn page_of(word: &[u8]) -> Result<u64, Cause>
    ensures { result ≡ field.page_of word.now }
{
    match page_in(word) {
        Some(page) => Ok(page),
        None => number_in(word),
    }
}

/// The number of a page, below 2^36; where something else may stand there too, that is wanted as well.
pub fn page_by(words: &[&[u8]], at: usize, wanted: DriverWanted) -> Result<u64, DriverWrong>
    ensures { result ≡ field.page_by at wanted (map (λ word. word.now) words.now) }
{
    within(page_of(word_at(words, at)), at, 0, 68_719_476_736, wanted)
}

/// The number of a page.
pub fn page_at(words: &[&[u8]], at: usize) -> Result<u64, DriverWrong>
    ensures { result ≡ field.page_at at (map (λ word. word.now) words.now) }
{
    page_by(words, at, DriverWanted::Page)
}

/// The order of a range, 0 to 9.
pub fn order_at(words: &[&[u8]], at: usize) -> Result<u64, DriverWrong>
    ensures { result ≡ field.order_at at (map (λ word. word.now) words.now) }
{
    number_at(words, at, 0, 10, DriverWanted::Order)
}

/// The index of a group, 0 to 511.
pub fn index_at(words: &[&[u8]], at: usize, wanted: DriverWanted) -> Result<usize, DriverWrong>
    ensures { result ≡ field.index_at at wanted (map (λ word. word.now) words.now) }
{
    let value = number_at(words, at, 0, 512, wanted)?;
    Ok(value as usize)
}

/// An ITag, 0 to 31.
pub fn itag_at(words: &[&[u8]], at: usize) -> Result<usize, DriverWrong>
    ensures { result ≡ field.itag_at at (map (λ word. word.now) words.now) }
{
    let value = number_at(words, at, 0, 32, DriverWanted::Itag)?;
    Ok(value as usize)
}

/// A place in an invalidation queue, 0 to 63.
pub fn place_at(words: &[&[u8]], at: usize) -> Result<usize, DriverWrong>
    ensures { result ≡ field.place_at at (map (λ word. word.now) words.now) }
{
    let value = number_at(words, at, 0, 64, DriverWanted::Place)?;
    Ok(value as usize)
}

/// A number of events, 0 to 65535.
pub fn count_at(words: &[&[u8]], at: usize) -> Result<u64, DriverWrong>
    ensures { result ≡ field.count_at at (map (λ word. word.now) words.now) }
{
    number_at(words, at, 0, 65_536, DriverWanted::Part)
}

/// How many places a page request queue has, 1 to 65535.
pub fn places_at(words: &[&[u8]], at: usize) -> Result<usize, DriverWrong>
    ensures { result ≡ field.places_at at (map (λ word. word.now) words.now) }
{
    let places = number_at(words, at, 1, 65_536, DriverWanted::Places)?;
    Ok(places as usize)
}

/// How often lines are written out, 1 to 65536.
pub fn times_at(words: &[&[u8]], at: usize) -> Result<u64, DriverWrong>
    ensures { result ≡ field.times_at at (map (λ word. word.now) words.now) }
{
    number_at(
        words,
        at,
        1,
        65_537,
        DriverWanted::Written(WrittenWanted::Times),
    )
}

/// How many are older, 0 to 65535; none where nothing is said.
pub fn older_at(words: &[&[u8]], at: usize) -> Result<usize, DriverWrong>
    ensures { result ≡ field.older_at at (map (λ word. word.now) words.now) }
{
    if !has_word(words, at) {
        return Ok(0);
    }
    let value = number_at(words, at, 0, 65_536, DriverWanted::Count)?;
    Ok(value as usize)
}

/// Whether it may be written too.
pub fn access_at(words: &[&[u8]], at: usize) -> Result<bool, DriverWrong>
    ensures { result ≡ field.access_at at (map (λ word. word.now) words.now) }
{
    if says(words, at, b"w") {
        return Ok(true);
    }
    if says(words, at, b"r") {
        return Ok(false);
    }
    Err(wrong_at(at, DriverWanted::Access))
}

/// What a page request asks for: whether to write.
pub fn asked_at(words: &[&[u8]], at: usize) -> Result<bool, DriverWrong>
    ensures { result ≡ field.asked_at at (map (λ word. word.now) words.now) }
{
    if says(words, at, b"rw") {
        return Ok(true);
    }
    if says(words, at, b"w") {
        return Ok(true);
    }
    if says(words, at, b"r") {
        return Ok(false);
    }
    Err(wrong_at(at, DriverWanted::Asked))
}

/// Whether it is to be on.
pub fn on_at(words: &[&[u8]], at: usize) -> Result<bool, DriverWrong>
    ensures { result ≡ field.on_at at (map (λ word. word.now) words.now) }
{
    if says(words, at, b"on") {
        return Ok(true);
    }
    if says(words, at, b"off") {
        return Ok(false);
    }
    Err(wrong_at(at, DriverWanted::OnOrOff))
}

/// Whether it is the last of its group.
pub fn last_at(words: &[&[u8]], at: usize) -> Result<bool, DriverWrong>
    ensures { result ≡ field.last_at at (map (λ word. word.now) words.now) }
{
    if says(words, at, b"last") {
        return Ok(true);
    }
    if says(words, at, b"more") {
        return Ok(false);
    }
    Err(wrong_at(at, DriverWanted::MoreOrLast))
}

/// Whether the code is Response Failure.
pub fn fails_at(words: &[&[u8]], at: usize) -> Result<bool, DriverWrong>
    ensures { result ≡ field.fails_at at (map (λ word. word.now) words.now) }
{
    if says(words, at, b"failure") {
        return Ok(true);
    }
    if says(words, at, b"success") {
        return Ok(false);
    }
    if says(words, at, b"invalid") {
        return Ok(false);
    }
    Err(wrong_at(at, DriverWanted::Code))
}

/// The kind of a message.
pub fn kind_at(words: &[&[u8]], at: usize) -> Result<Kind, DriverWrong>
    ensures { result ≡ field.kind_at at (map (λ word. word.now) words.now) }
{
    if says(words, at, b"start") {
        return Ok(Kind::Start);
    }
    if says(words, at, b"stop") {
        return Ok(Kind::Stop);
    }
    if says(words, at, b"barrier") {
        return Ok(Kind::Barrier);
    }
    if says(words, at, b"reset") {
        return Ok(Kind::Reset);
    }
    if says(words, at, b"completion") {
        return Ok(Kind::Completion);
    }
    if says(words, at, b"invalidate") {
        return Ok(Kind::Invalidate);
    }
    if says(words, at, b"response") {
        return Ok(Kind::Response);
    }
    kind_up_at(words, at)
}

/// The kind of a message that an endpoint sends.
fn kind_up_at(words: &[&[u8]], at: usize) -> Result<Kind, DriverWrong>
    ensures { result ≡ field.kind_up_at at (map (λ word. word.now) words.now) }
{
    if says(words, at, b"request") {
        return Ok(Kind::Request);
    }
    if says(words, at, b"invalidated") {
        return Ok(Kind::Invalidated);
    }
    if says(words, at, b"page-request") {
        return Ok(Kind::PageRequest);
    }
    if says(words, at, b"marker") {
        return Ok(Kind::Marker);
    }
    if says(words, at, b"status") {
        return Ok(Kind::Status);
    }
    if says(words, at, b"passed") {
        return Ok(Kind::Passed);
    }
    if says(words, at, b"reset-done") {
        return Ok(Kind::ResetDone);
    }
    Err(wrong_at(at, DriverWanted::Kind))
}
