//! What is said of a text among several, and how many there are of each kind.

ghost use Rattle.std.specs.Prelude.{◌≡◌, ◌≤◌, length};
ghost use Rattle.sva_several.specs.Verdicts as verdicts;

use crate::searching::{Said, Search};
use std::alloc::AllocError;
use sva_driver_reports::Ruling;
use sva_race_reports::Judged;

/// What is said of a text.
#[derive(Clone, Copy, PartialEq, Eq)]
pub enum Verdict {
    /// A race: of all its claims together.
    Judged(Judged),
    /// A driver.
    Ruled(Ruling),
    /// Its steps were run or read, and its answers are as expected.
    Done,
    /// It isn't run, since it is wrong, or an answer isn't as expected.
    Wrong,
    /// Memory lacked.
    Memory,
    /// Its file can't be read.
    Unread,
}

/// What is said of a text that was searched, or wasn't to the end since memory lacked.
pub(crate) fn verdict_of(found: &Result<Said, AllocError>) -> Verdict
    ensures { result ≡ verdicts.verdict_of found.now }
{
    match found {
        Ok(said) => said.verdict,
        Err(_) => Verdict::Memory,
    }
}

/// Whether two verdicts are one.
fn is_same(one: Verdict, other: Verdict) -> bool
    ensures { result ≡ verdicts.is_same one other }
{
    match (one, other) {
        (Verdict::Judged(Judged::Holds), Verdict::Judged(Judged::Holds))
        | (Verdict::Judged(Judged::Fails), Verdict::Judged(Judged::Fails))
        | (Verdict::Judged(Judged::Unknown), Verdict::Judged(Judged::Unknown))
        | (Verdict::Ruled(Ruling::Safe), Verdict::Ruled(Ruling::Safe))
        | (Verdict::Ruled(Ruling::Untried), Verdict::Ruled(Ruling::Untried))
        | (Verdict::Ruled(Ruling::Right), Verdict::Ruled(Ruling::Right))
        | (Verdict::Ruled(Ruling::Unsafe), Verdict::Ruled(Ruling::Unsafe))
        | (Verdict::Ruled(Ruling::Stuck), Verdict::Ruled(Ruling::Stuck))
        | (Verdict::Ruled(Ruling::CutOff), Verdict::Ruled(Ruling::CutOff))
        | (Verdict::Done, Verdict::Done)
        | (Verdict::Wrong, Verdict::Wrong)
        | (Verdict::Memory, Verdict::Memory)
        | (Verdict::Unread, Verdict::Unread) => true,
        _ => false,
    }
}

/// 1 where it is so.
fn one_if(so: bool) -> usize
    ensures { result ≡ verdicts.one_if so }
{
    if so { 1 } else { 0 }
}

/// Of how many texts this is said.
pub(crate) fn count(all: &[Result<Said, AllocError>], verdict: Verdict) -> usize
    ensures { result ≡ verdicts.count verdict all.now }
{
    let mut count = 0;
    for place in 0..all.len() {
        count += one_if(is_same(verdict, verdict_of(&all[place])));
    }
    count
}

/// Whether one of them fails, or isn't safe.
fn is_one_bad(all: &[Result<Said, AllocError>]) -> bool
    ensures { result ≡ verdicts.is_one_bad all.now }
{
    count(all, Verdict::Judged(Judged::Fails)) > 0
        || count(all, Verdict::Ruled(Ruling::Unsafe)) > 0
        || count(all, Verdict::Ruled(Ruling::Stuck)) > 0
}

/// Whether one of them isn't known.
fn is_one_open(all: &[Result<Said, AllocError>]) -> bool
    ensures { result ≡ verdicts.is_one_open all.now }
{
    count(all, Verdict::Judged(Judged::Unknown)) > 0
        || count(all, Verdict::Ruled(Ruling::CutOff)) > 0
}

/// Whether a verdict that says nothing has a status of its own.
fn is_strict(search: Search) -> bool
    ensures { result ≡ verdicts.is_strict search }
{
    match search {
        Search::Drivers { strict, .. } => strict,
        _ => false,
    }
}

/// Whether nothing is said of one of them, where that has a status of its own.
fn is_one_untried(search: Search, all: &[Result<Said, AllocError>]) -> bool
    ensures { result ≡ verdicts.is_one_untried search all.now }
{
    is_strict(search) && count(all, Verdict::Ruled(Ruling::Untried)) > 0
}

/// The status: 2 where one can't be read, else 6 where memory lacked for one, else 1 where one is wrong, else 4 where one fails
/// or isn't safe, else 5 where one isn't known, else, if that is told, 8 where nothing was ever tried in one, else 0.
pub(crate) fn status_of(search: Search, all: &[Result<Said, AllocError>]) -> u8
    ensures { result ≡ verdicts.status_of search all.now }
{
    if count(all, Verdict::Unread) > 0 {
        2
    } else if count(all, Verdict::Memory) > 0 {
        6
    } else if count(all, Verdict::Wrong) > 0 {
        1
    } else if is_one_bad(all) {
        4
    } else if is_one_open(all) {
        5
    } else if is_one_untried(search, all) {
        8
    } else {
        0
    }
}
