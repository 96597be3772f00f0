//! What the line of an act says, by its first word.

ghost use Rattle.std.specs.Prelude.{◌≡◌, map};
ghost use Rattle.sva_driver_words.specs.Awaits.{line_seen};
ghost use Rattle.sva_driver_words.specs.Says as says;
ghost use Rattle.sva_driver_words.specs.Sayings.{read_seen, saying_seen};
ghost use Rattle.sva_driver_words.specs.Taking.{Gives};

use crate::acts::{
    discard_line, endpoint_line, entry_line, free_line, freeze_line, mark_line, page_line,
    pasid_line, replace_line, respond_line, table_line, takes_endpoint, takes_page, takes_pasid,
};
use crate::awaits::{await_line, thread_number};
use crate::branches::{look_line, set_line, sets_flag};
use crate::controls::{turn_line, turns};
use crate::descriptors::submit_line;
use crate::faults::{DriverStop, DriverWrong};
use crate::kept::{LineRead, Under};
use crate::locks::lock_line;
use crate::others::{
    deliver_line, end_line, fault_line, finish_line, forget_line, pass_line, pump_line,
};
use crate::timeouts::expire_line;
use std::alloc::Global;
use sva_open::Saying;
use sva_script::is;
use sva_step::Config;

/// What a line says whose words say all.
fn read_plain(
    config: &Config,
    units: &[usize],
    lines: &[LineRead],
    locks: &[Vec<u8>],
    flags: &[Vec<u8>],
    under: &[Under],
    thread: &[u8],
    words: &[&[u8]],
    word: &[u8],
) -> Result<Saying, DriverWrong>
    ensures { read_seen result ≡ says.plain_by config.now units.now (map line_seen lines.now)
        (map (λ lock. lock.items) locks.now) (map (λ flag. flag.items) flags.now) under.now thread.now
        (map (λ word. word.now) words.now) word.now }
{
    if takes_endpoint(word) {
        return endpoint_line(config, words);
    }
    if takes_pasid(word) {
        return pasid_line(config, thread_number(thread, lines), lines.len(), words);
    }
    if takes_page(word) {
        return page_line(config, words);
    }
    if is(word, b"pte") {
        return table_line(config, words);
    }
    if is(word, b"entry") {
        return entry_line(config, words);
    }
    if is(word, b"await") {
        return await_line(config, units, under, thread, lines, words);
    }
    if is(word, b"respond") {
        return respond_line(config, words);
    }
    if is(word, b"free") {
        return free_line(config, words);
    }
    if is(word, b"freeze") {
        return freeze_line(config, words);
    }
    read_other(config, lines, locks, flags, under, thread, words, word)
}

/// What a line says of link, units and endpoints, of an entry that is replaced, or else.
fn read_other(
    config: &Config,
    lines: &[LineRead],
    locks: &[Vec<u8>],
    flags: &[Vec<u8>],
    under: &[Under],
    thread: &[u8],
    words: &[&[u8]],
    word: &[u8],
) -> Result<Saying, DriverWrong>
    ensures { read_seen result ≡ says.other_by config.now (map line_seen lines.now)
        (map (λ lock. lock.items) locks.now) (map (λ flag. flag.items) flags.now) under.now thread.now
        (map (λ word. word.now) words.now) word.now }
{
    if is(word, b"fault") {
        return fault_line(config, words);
    }
    if is(word, b"end") {
        return end_line(config, words);
    }
    if is(word, b"finish") {
        return finish_line(config, words);
    }
    if is(word, b"pass") {
        return pass_line(config, words);
    }
    if is(word, b"deliver") {
        return deliver_line(config, words);
    }
    if is(word, b"forget") {
        return forget_line(config, words);
    }
    if is(word, b"replace") {
        return replace_line(config, words);
    }
    if is(word, b"discard") {
        return discard_line(config, words);
    }
    if is(word, b"pump") {
        return pump_line(config, words);
    }
    if is(word, b"expire") {
        return expire_line(config, words);
    }
    if turns(word) {
        return turn_line(config, words);
    }
    read_own(config, lines, locks, flags, under, thread, words, word)
}

/// What a line says of a flag or a lock, of what is looked at, or of nothing.
fn read_own(
    config: &Config,
    lines: &[LineRead],
    locks: &[Vec<u8>],
    flags: &[Vec<u8>],
    under: &[Under],
    thread: &[u8],
    words: &[&[u8]],
    word: &[u8],
) -> Result<Saying, DriverWrong>
    ensures { read_seen result ≡ says.own_by config.now (map line_seen lines.now)
        (map (λ lock. lock.items) locks.now) (map (λ flag. flag.items) flags.now) under.now thread.now
        (map (λ word. word.now) words.now) word.now }
{
    if is(word, b"mark") {
        return mark_line(words);
    }
    if sets_flag(word) {
        return set_line(flags, words);
    }
    if is(word, b"if") {
        return look_line(config, lines, flags, under, thread, words);
    }
    lock_line(locks, words)
}

/// What the line of an act says, or what is wrong with it by the places of its own words.
pub fn read_saying(
    alloc: Global,
    config: &Config,
    units: &[usize],
    lines: &[LineRead],
    locks: &[Vec<u8>],
    flags: &[Vec<u8>],
    under: &[Under],
    thread: &[u8],
    words: &[&[u8]],
    word: &[u8],
) -> Result<Saying, DriverStop>
    ensures { Gives saying_seen (says.saying_by config.now units.now (map line_seen lines.now)
        (map (λ lock. lock.items) locks.now) (map (λ flag. flag.items) flags.now) under.now thread.now
        (map (λ word. word.now) words.now) word.now) result }
{
    if is(word, b"submit") {
        return submit_line(alloc, config, units, lines.len(), words);
    }
    match read_plain(
        config, units, lines, locks, flags, under, thread, words, word,
    ) {
        Ok(saying) => Ok(saying),
        Err(wrong) => Err(DriverStop::Wrong(wrong)),
    }
}
