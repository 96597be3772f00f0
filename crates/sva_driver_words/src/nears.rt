//! The word that is near to a wrong one, of those that were wanted in a driver's line.

ghost use Rattle.std.specs.Prelude.{◌≡◌, option_map};
ghost use Rattle.sva_driver_words.specs.Faults.{act_words, awaited_words, before_words, behind_words, condition_words};
ghost use Rattle.sva_driver_words.specs.Faults.{descriptor_words, freed_words, more_kind_words, near_branch};
ghost use Rattle.sva_driver_words.specs.Faults.{near_wanted, near_written, platform_words, setting_words};
ghost use Rattle.sva_race_texts.specs.ScriptFaults.{or_else};
ghost use Rattle.sva_script.specs.Names.{near_name};
ghost use Rattle.sva_script.specs.Near.{near_among};
ghost use Rattle.sva_script.specs.Reserved.{kind_words};

use crate::faults::{BranchWanted, DriverWanted};
use crate::written::WrittenWanted;
use sva_race_texts::first_near;
use sva_script::{Names, near_kind};

/// The words that begin an act.
const ACT_WORDS: [&[u8]; 41] = [
    b"pte",
    b"entry",
    b"replace",
    b"start",
    b"stop",
    b"reset",
    b"submit",
    b"await",
    b"serve",
    b"respond",
    b"discard",
    b"close",
    b"open",
    b"skip",
    b"free",
    b"freeze",
    b"lock",
    b"unlock",
    b"mark",
    b"ask",
    b"use",
    b"end",
    b"evict",
    b"fault",
    b"finish",
    b"quit",
    b"pump",
    b"write",
    b"deliver",
    b"forget",
    b"set",
    b"clear",
    b"if",
    b"ats",
    b"pri",
    b"mastering",
    b"gone",
    b"resume",
    b"expire",
    b"barrier",
    b"pass",
];

/// The words that begin a setting.
const SETTING_WORDS: [&[u8]; 13] = [
    b"platform",
    b"link",
    b"waits",
    b"drain",
    b"caches",
    b"stopped",
    b"refuses",
    b"allow",
    b"enables",
    b"timeouts",
    b"unit",
    b"order",
    b"places",
];

/// The words that stand behind `platform`.
const PLATFORM_WORDS: [&[u8]; 2] = [b"vt-d", b"free"];

/// The words that begin another line before `race`.
const BEFORE_WORDS: [&[u8]; 7] = [
    b"workers", b"device", b"race", b"else", b"def", b"call", b"repeat",
];

/// The words that begin another line behind `race`.
const BEHIND_WORDS: [&[u8]; 7] = [
    b"thread", b"workers", b"device", b"else", b"def", b"call", b"repeat",
];

/// The kinds of messages that scripts don't have.
const MORE_KINDS: [&[u8]; 3] = [b"status", b"barrier", b"passed"];

/// The words that begin a descriptor.
const DESCRIPTOR_WORDS: [&[u8]; 5] = [b"range", b"pasid", b"iotlb", b"entry", b"wait"];

/// The words that begin what is freed, where it isn't a frame.
const FREED_WORDS: [&[u8]; 3] = [b"space", b"domain", b"pasid"];

/// The words that stand behind `await`, where a name doesn't.
const AWAITED_WORDS: [&[u8]; 8] = [
    b"wait", b"stopped", b"passed", b"queue", b"groups", b"reset", b"idle", b"gone",
];

/// The words that stand behind `if`, where a flag doesn't.
const CONDITION_WORDS: [&[u8]; 8] = [
    b"not",
    b"present",
    b"stopped",
    b"filed",
    b"queued",
    b"gone",
    b"failed",
    b"overflow",
];

fn near_act(word: &[u8]) -> Option<&'static [u8]>
    ensures { option_map (λ near. near.now) result ≡ near_among act_words word.now }
{
    first_near(&ACT_WORDS, word)
}

fn near_setting(word: &[u8]) -> Option<&'static [u8]>
    ensures { option_map (λ near. near.now) result ≡ near_among setting_words word.now }
{
    first_near(&SETTING_WORDS, word)
}

fn near_platform(word: &[u8]) -> Option<&'static [u8]>
    ensures { option_map (λ near. near.now) result ≡ near_among platform_words word.now }
{
    first_near(&PLATFORM_WORDS, word)
}

fn near_line_before(word: &[u8]) -> Option<&'static [u8]>
    ensures { option_map (λ near. near.now) result ≡ near_among before_words word.now }
{
    first_near(&BEFORE_WORDS, word)
}

fn near_line_behind(word: &[u8]) -> Option<&'static [u8]>
    ensures { option_map (λ near. near.now) result ≡ near_among behind_words word.now }
{
    first_near(&BEHIND_WORDS, word)
}

fn near_more_kind(word: &[u8]) -> Option<&'static [u8]>
    ensures { option_map (λ near. near.now) result ≡ near_among more_kind_words word.now }
{
    first_near(&MORE_KINDS, word)
}

fn near_descriptor(word: &[u8]) -> Option<&'static [u8]>
    ensures { option_map (λ near. near.now) result ≡ near_among descriptor_words word.now }
{
    first_near(&DESCRIPTOR_WORDS, word)
}

fn near_freed(word: &[u8]) -> Option<&'static [u8]>
    ensures { option_map (λ near. near.now) result ≡ near_among freed_words word.now }
{
    first_near(&FREED_WORDS, word)
}

fn near_await_word(word: &[u8]) -> Option<&'static [u8]>
    ensures { option_map (λ near. near.now) result ≡ near_among awaited_words word.now }
{
    first_near(&AWAITED_WORDS, word)
}

fn near_condition(word: &[u8]) -> Option<&'static [u8]>
    ensures { option_map (λ near. near.now) result ≡ near_among condition_words word.now }
{
    first_near(&CONDITION_WORDS, word)
}

/// What may stand behind `await`, and is near to a wrong word: the name of a line, or else a word of the format.
fn near_awaited<'n>(names: &'n Names, word: &[u8]) -> Option<&'n [u8]>
    ensures { option_map (λ near. near.now) result
        ≡ or_else (near_name names.now word.now) (near_among awaited_words word.now) }
{
    match names.near(word) {
        Some(near) => Some(near),
        None => near_await_word(word),
    }
}

/// The word that begins a line before `race`, and is near to a wrong one.
fn near_before(word: &[u8]) -> Option<&'static [u8]>
    ensures { option_map (λ near. near.now) result ≡ or_else (near_among act_words word.now)
        (or_else (near_among setting_words word.now) (near_among before_words word.now)) }
{
    match near_act(word) {
        Some(near) => Some(near),
        None => match near_setting(word) {
            Some(near) => Some(near),
            None => near_line_before(word),
        },
    }
}

/// The word that begins a line behind `race`, and is near to a wrong one.
fn near_behind(word: &[u8]) -> Option<&'static [u8]>
    ensures { option_map (λ near. near.now) result
        ≡ or_else (near_among act_words word.now) (near_among behind_words word.now) }
{
    match near_act(word) {
        Some(near) => Some(near),
        None => near_line_behind(word),
    }
}

/// The kind of a message that is near to a wrong word.
fn near_any_kind(word: &[u8]) -> Option<&'static [u8]>
    ensures { option_map (λ near. near.now) result
        ≡ or_else (near_among kind_words word.now) (near_among more_kind_words word.now) }
{
    match near_kind(word) {
        Some(near) => Some(near),
        None => near_more_kind(word),
    }
}

/// What is looked at, where that was wanted, and is near to a wrong word.
fn near_branch(wanted: &BranchWanted, word: &[u8]) -> Option<&'static [u8]>
    ensures { option_map (λ near. near.now) result ≡ near_branch word.now wanted.now }
{
    match wanted {
        BranchWanted::Condition | BranchWanted::BehindNot | BranchWanted::Longer => near_condition(
            word,
        ),
        _ => None,
    }
}

/// The definition that is near to a wrong word, where one was wanted: the names are those of definitions.
fn near_written<'n>(wanted: &WrittenWanted, names: &'n Names, word: &[u8]) -> Option<&'n [u8]>
    ensures { option_map (λ near. near.now) result ≡ near_written names.now word.now wanted.now }
{
    match wanted {
        WrittenWanted::Defined => names.near(word),
        _ => None,
    }
}

/// The word that is near to a wrong one, of those that were wanted.
pub(crate) fn near<'n>(wanted: &DriverWanted, names: &'n Names, word: &[u8]) -> Option<&'n [u8]>
    ensures { option_map (λ near. near.now) result ≡ near_wanted names.now word.now wanted.now }
{
    match wanted {
        DriverWanted::Before => near_before(word),
        DriverWanted::Behind => near_behind(word),
        DriverWanted::Act => near_act(word),
        DriverWanted::Platform => near_platform(word),
        DriverWanted::Kind => near_any_kind(word),
        DriverWanted::Descriptor => near_descriptor(word),
        DriverWanted::Freed => near_freed(word),
        DriverWanted::Awaited => near_awaited(names, word),
        DriverWanted::Branch(wanted) => near_branch(wanted, word),
        DriverWanted::Written(wanted) => near_written(wanted, names, word),
        _ => None,
    }
}
