//! The lines of flags, and those that look at something.

ghost use Rattle.std.specs.Prelude.{◌≡◌, ◌≤◌, map};
ghost use Rattle.sva_driver_words.specs.Awaits.{line_seen};
ghost use Rattle.sva_driver_words.specs.Says as says;
ghost use Rattle.sva_driver_words.specs.Sayings.{read_seen};

use crate::faults::{BranchWanted, DriverWanted, DriverWrong, judge_end, wrong_at};
use crate::fields::{endpoint_at, has_word, pasid_at, says, some_pasid_at};
use crate::kept::{LineRead, Under};
use crate::locks::place_in;
use crate::timeouts::{failed_at, failed_behind};
use sva_open::{Condition, Saying};
use sva_race_texts::word_at;
use sva_script::{is, is_name};
use sva_step::Config;

/// Whether a word begins the line of a flag.
pub(crate) fn sets_flag(word: &[u8]) -> bool
    ensures { result ≡ says.sets_flag word.now }
{
    is(word, b"set") || is(word, b"clear")
}

/// Whether a word stands behind `if` that is no flag.
fn is_condition_word(word: &[u8]) -> bool
    ensures { result ≡ says.is_condition_word word.now }
{
    is(word, b"not")
        || is(word, b"present")
        || is(word, b"stopped")
        || is(word, b"filed")
        || is(word, b"queued")
        || is(word, b"gone")
        || is(word, b"overflow")
        || is(word, b"failed")
}

/// Whether a word is the name of a flag.
fn is_flag(word: &[u8]) -> bool
    ensures { result ≡ says.is_flag word.now }
{
    is_name(word) && !is_condition_word(word)
}

/// Reads `set NAME` and `clear NAME`.
pub(crate) fn set_line(flags: &[Vec<u8>], words: &[&[u8]]) -> Result<Saying, DriverWrong>
    ensures { read_seen result ≡ says.set_line (map (λ flag. flag.items) flags.now)
        (map (λ word. word.now) words.now) }
{
    if !is_flag(word_at(words, 1)) {
        return Err(wrong_at(1, DriverWanted::Branch(BranchWanted::Flag)));
    }
    judge_end(words, 2)?;
    Ok(Saying::Sets {
        flag: place_in(flags, word_at(words, 1)),
        on: says(words, 0, b"set"),
    })
}

/// Reads a flag that is looked at.
fn flag_at(
    flags: &[Vec<u8>],
    words: &[&[u8]],
    at: usize,
    wanted: BranchWanted,
) -> Result<Condition, DriverWrong>
    requires { at ≤ 2 }
    ensures { result ≡ says.flag_at (map (λ flag. flag.items) flags.now) at wanted (map (λ word. word.now) words.now) }
{
    if !is_flag(word_at(words, at)) {
        return Err(wrong_at(at, DriverWanted::Branch(wanted)));
    }
    if has_word(words, at + 1) {
        return Err(wrong_at(at, DriverWanted::Branch(BranchWanted::Longer)));
    }
    Ok(Condition::Flag {
        flag: place_in(flags, word_at(words, at)),
    })
}

/// Reads the end of `present E P` or `stopped E P`.
fn pasid_looked(config: &Config, words: &[&[u8]], at: usize) -> Result<(usize, usize), DriverWrong>
    requires { at ≤ 2 }
    ensures { result ≡ says.pasid_looked config.now at (map (λ word. word.now) words.now) }
{
    let endpoint = endpoint_at(config, words, at + 1)?;
    let pasid = pasid_at(words, at + 2)?;
    judge_end(words, at + 3)?;
    Ok((endpoint, pasid))
}

/// Reads the end of `filed E [P]` or `queued E [P]`.
fn some_looked(
    config: &Config,
    words: &[&[u8]],
    at: usize,
) -> Result<(usize, Option<usize>), DriverWrong>
    requires { at ≤ 2 }
    ensures { result ≡ says.some_looked config.now at (map (λ word. word.now) words.now) }
{
    let endpoint = endpoint_at(config, words, at + 1)?;
    let pasid = some_pasid_at(words, at + 2)?;
    judge_end(words, at + 3)?;
    Ok((endpoint, pasid))
}

/// Reads the end of `gone E` or `overflow E`.
fn endpoint_looked(config: &Config, words: &[&[u8]], at: usize) -> Result<usize, DriverWrong>
    requires { at ≤ 2 }
    ensures { result ≡ says.endpoint_looked config.now at (map (λ word. word.now) words.now) }
{
    let endpoint = endpoint_at(config, words, at + 1)?;
    judge_end(words, at + 2)?;
    Ok(endpoint)
}

/// Reads `gone E`, `overflow E`, `failed`, or else a flag that is looked at.
fn other_at(
    config: &Config,
    flags: &[Vec<u8>],
    failed: Option<Condition>,
    words: &[&[u8]],
    at: usize,
    wanted: BranchWanted,
) -> Result<Condition, DriverWrong>
    requires { at ≤ 2 }
    ensures { result ≡ says.other_at config.now (map (λ flag. flag.items) flags.now) failed at wanted
        (map (λ word. word.now) words.now) }
{
    if says(words, at, b"gone") {
        let endpoint = endpoint_looked(config, words, at)?;
        return Ok(Condition::Gone { endpoint });
    }
    if says(words, at, b"overflow") {
        let endpoint = endpoint_looked(config, words, at)?;
        return Ok(Condition::Overflowed { endpoint });
    }
    if says(words, at, b"failed") {
        return failed_at(failed, words, at);
    }
    flag_at(flags, words, at, wanted)
}

/// Reads what is looked at.
fn condition_at(
    config: &Config,
    flags: &[Vec<u8>],
    failed: Option<Condition>,
    words: &[&[u8]],
    at: usize,
    wanted: BranchWanted,
) -> Result<Condition, DriverWrong>
    requires { at ≤ 2 }
    ensures { result ≡ says.condition_at config.now (map (λ flag. flag.items) flags.now) failed at wanted
        (map (λ word. word.now) words.now) }
{
    if says(words, at, b"present") {
        let (endpoint, pasid) = pasid_looked(config, words, at)?;
        return Ok(Condition::Present { endpoint, pasid });
    }
    if says(words, at, b"stopped") {
        let (endpoint, pasid) = pasid_looked(config, words, at)?;
        return Ok(Condition::Stopped { endpoint, pasid });
    }
    if says(words, at, b"filed") {
        let (endpoint, pasid) = some_looked(config, words, at)?;
        return Ok(Condition::Filed { endpoint, pasid });
    }
    if says(words, at, b"queued") {
        let (endpoint, pasid) = some_looked(config, words, at)?;
        return Ok(Condition::Queued { endpoint, pasid });
    }
    other_at(config, flags, failed, words, at, wanted)
}

/// Reads what is looked at, behind `not` too.
fn looked(
    config: &Config,
    flags: &[Vec<u8>],
    failed: Option<Condition>,
    words: &[&[u8]],
) -> Result<Saying, DriverWrong>
    ensures { read_seen result ≡ says.looked config.now (map (λ flag. flag.items) flags.now) failed
        (map (λ word. word.now) words.now) }
{
    if says(words, 1, b"not") {
        let condition = condition_at(config, flags, failed, words, 2, BranchWanted::BehindNot)?;
        return Ok(Saying::Looks {
            condition,
            so: false,
        });
    }
    let condition = condition_at(config, flags, failed, words, 1, BranchWanted::Condition)?;
    Ok(Saying::Looks {
        condition,
        so: true,
    })
}

/// Reads `if CONDITION` and `if not CONDITION`, which stands in these blocks, behind these lines.
pub(crate) fn look_line(
    config: &Config,
    lines: &[LineRead],
    flags: &[Vec<u8>],
    under: &[Under],
    thread: &[u8],
    words: &[&[u8]],
) -> Result<Saying, DriverWrong>
    ensures { read_seen result ≡ says.look_line config.now (map line_seen lines.now)
        (map (λ flag. flag.items) flags.now) under.now thread.now (map (λ word. word.now) words.now) }
{
    if under.len() >= 16 {
        return Err(wrong_at(0, DriverWanted::Branch(BranchWanted::Few)));
    }
    let failed = failed_behind(thread, under, lines);
    looked(config, flags, failed, words)
}

/// At which of its words a line names a flag, if it names one.
pub fn flag_place(words: &[&[u8]]) -> usize
    ensures { result ≡ says.flag_place (map (λ word. word.now) words.now) }
{
    if says(words, 1, b"not") { 2 } else { 1 }
}

/// Whether a line names a flag, where it is right.
pub fn names_flag(words: &[&[u8]]) -> bool
    ensures { result ≡ says.names_flag (map (λ word. word.now) words.now) }
{
    sets_flag(word_at(words, 0))
        || says(words, 0, b"if") && !is_condition_word(word_at(words, flag_place(words)))
}
