//! One text that is searched.

ghost use Rattle.std.specs.Prelude.{◌≡◌, IfOk, option_map, true};
ghost use Rattle.sva_several.specs.Searches as searches;

use crate::given::{Given, Lack, lack_words};
use crate::verdicts::Verdict;
use std::alloc::{AllocError, Global};
use sva_driver_reports::{Ruling, judge_text, run_text};
use sva_race_reports::{Explored, Wanted, explore_to};
use sva_reports::check_text;
use sva_script_reports::{test, why};
use sva_search::Unwatched;
use sva_streams::{Outcome, Told};
use sva_why::Explainer;

/// What the texts are, and what is done with each.
#[derive(Clone, Copy, PartialEq, Eq)]
pub enum Search {
    /// Races are explored.
    Races {
        /// How many moments of each are looked at at most.
        most: u64,
    },
    /// Drivers are judged.
    Drivers {
        /// How many moments of each are looked at at most.
        most: u64,
        /// Are all findings told, and not a nearest one alone?
        all: bool,
        /// Does a verdict that says nothing, of a driver in which nothing was ever tried, have a status of its own?
        strict: bool,
    },
    /// The lines of drivers are taken one after another.
    Lines,
    /// It is counted how many steps scenarios have.
    Steps,
    /// The answers of scripts are compared with what they expect.
    Tests,
    /// It is told what holds the steps of scripts back.
    Whys,
}

/// What is said of a text.
#[derive(Drop)]
pub struct Said {
    /// In a word.
    pub verdict: Verdict,
    /// Its report: of a race the line.
    pub text: Vec<u8>,
}

/// What a search of a text came to.
#[derive(Drop)]
pub(crate) struct Tried {
    /// What is said of it.
    pub said: Said,
    /// Wasn't it cut off? Then a search of more moments says the same.
    pub is_whole: bool,
}

/// What is said of a race.
fn judged(found: Option<Explored>) -> Verdict
    ensures { result ≡ searches.judged (option_map (λ found. found.judged) found) }
{
    match found {
        Some(found) => Verdict::Judged(found.judged),
        None => Verdict::Wrong,
    }
}

/// Whether the search of a race came to its end. A text that is wrong isn't searched.
fn is_whole(found: Option<Explored>) -> bool
    ensures { result ≡ searches.is_whole found }
{
    match found {
        Some(found) => found.is_whole,
        None => true,
    }
}

/// What is said of a driver.
fn ruled(found: Option<Ruling>) -> Verdict
    ensures { result ≡ searches.ruled found }
{
    match found {
        Some(Ruling::UnsafeSoFar) => Verdict::Ruled(Ruling::Unsafe),
        Some(ruling) => Verdict::Ruled(ruling),
        None => Verdict::Wrong,
    }
}

/// Whether the search of a driver wasn't cut off.
fn is_ended(found: Option<Ruling>) -> bool
    ensures { result ≡ searches.is_ended found }
{
    match found {
        Some(Ruling::CutOff) => false,
        Some(Ruling::UnsafeSoFar) => false,
        _ => true,
    }
}

/// That of a race a line is wanted.
fn line_of(most: u64) -> Wanted
    ensures { result ≡ searches.line_of most }
{
    Wanted {
        most,
        whys: false,
        few_ends: false,
        is_brief: true,
    }
}

/// Explores a race.
fn explore_one(alloc: Global, most: u64, text: &[u8]) -> Result<Tried, AllocError>
    ensures { IfOk result (λ tried. searches.TriesRace most text.now tried.said tried.is_whole) }
{
    let mut out = Vec::new(alloc);
    let found = explore_to::<Explainer, Unwatched>(
        alloc,
        line_of(most),
        text,
        &mut out,
        &mut Unwatched,
    )?;
    Ok(Tried {
        said: Said {
            verdict: judged(found),
            text: out,
        },
        is_whole: is_whole(found),
    })
}

/// What is wanted of a driver: its line, or those of all its findings.
fn wanted_of(most: u64, all: bool) -> sva_driver_reports::Wanted
    ensures { result ≡ searches.wanted_of most all }
{
    sva_driver_reports::Wanted {
        most,
        all,
        lines_alone: true,
    }
}

/// Judges a driver.
fn judge_one(alloc: Global, most: u64, all: bool, text: &[u8]) -> Result<Tried, AllocError>
    ensures { IfOk result (λ tried. searches.TriesDriver most all text.now tried.said tried.is_whole) }
{
    let mut out = Vec::new(alloc);
    let wanted = wanted_of(most, all);
    let found = judge_text(alloc, wanted, text, &mut out, &mut Unwatched)?;
    Ok(Tried {
        said: Said {
            verdict: ruled(found),
            text: out,
        },
        is_whole: is_ended(found),
    })
}

/// Takes the lines of a driver.
fn run_one(alloc: Global, text: &[u8]) -> Result<Tried, AllocError>
    ensures { IfOk result (λ tried. searches.TriesLines text.now tried.said tried.is_whole) }
{
    let mut out = Vec::new(alloc);
    let found = run_text(alloc, text, &mut out)?;
    Ok(Tried {
        said: Said {
            verdict: ruled(found),
            text: out,
        },
        is_whole: true,
    })
}

/// What is said of steps.
fn ran(outcome: Outcome) -> Verdict
    ensures { result ≡ searches.ran outcome }
{
    match outcome {
        Outcome::Done => Verdict::Done,
        Outcome::Faulted => Verdict::Wrong,
    }
}

/// That this is said of steps, of which all were run or read.
fn whole(outcome: Outcome, text: Vec<u8>) -> Tried
    ensures said { (result.said.verdict ≡ searches.ran outcome) × (result.said.text ≡ text) }
    ensures whole { result.is_whole ≡ true }
{
    Tried {
        said: Said {
            verdict: ran(outcome),
            text,
        },
        is_whole: true,
    }
}

/// Counts the steps of a scenario.
fn check_one(alloc: Global, text: &[u8]) -> Result<Tried, AllocError>
    ensures { IfOk result (λ tried. searches.TriesSteps text.now tried.said tried.is_whole) }
{
    let mut writer = Told::new(Vec::new(alloc));
    match check_text(alloc, text, &mut writer) {
        Ok(outcome) => Ok(whole(outcome, writer.into_inner())),
        Err(_) => Err(AllocError),
    }
}

/// Tests a script.
fn test_one(alloc: Global, text: &[u8]) -> Result<Tried, AllocError>
    ensures { IfOk result (λ tried. searches.TriesTest text.now tried.said tried.is_whole) }
{
    let mut out = Vec::new(alloc);
    let outcome = test::<Explainer>(alloc, text, &mut out)?;
    Ok(whole(outcome, out))
}

/// Explains the steps of a script.
fn why_one(alloc: Global, text: &[u8]) -> Result<Tried, AllocError>
    ensures { IfOk result (λ tried. searches.TriesWhys text.now tried.said tried.is_whole) }
{
    let mut out = Vec::new(alloc);
    let outcome = why::<Explainer>(alloc, text, &mut out)?;
    Ok(whole(outcome, out))
}

/// Searches a text.
fn search_text(alloc: Global, search: Search, text: &[u8]) -> Result<Tried, AllocError>
    ensures { IfOk result (λ tried. searches.TriesText search text.now tried.said tried.is_whole) }
{
    match search {
        Search::Races { most } => explore_one(alloc, most, text),
        Search::Drivers { most, all, .. } => judge_one(alloc, most, all, text),
        Search::Lines => run_one(alloc, text),
        Search::Steps => check_one(alloc, text),
        Search::Tests => test_one(alloc, text),
        Search::Whys => why_one(alloc, text),
    }
}

/// Says of a file that it can't be read.
fn unread_one(alloc: Global, lack: Lack) -> Result<Tried, AllocError>
    ensures { IfOk result (λ tried. searches.TriesUnread lack tried.said tried.is_whole) }
{
    let text = Vec::from_slice(alloc, lack_words(lack).as_bytes())?;
    Ok(Tried {
        said: Said {
            verdict: Verdict::Unread,
            text,
        },
        is_whole: true,
    })
}

/// Searches the text of a file, or says why it can't be read.
pub(crate) fn search_one(alloc: Global, search: Search, given: &Given) -> Result<Tried, AllocError>
    ensures { IfOk result (λ tried. searches.Tries search given.now tried.said tried.is_whole) }
{
    match given {
        Given::Text(text) => search_text(alloc, search, text.as_slice()),
        Given::Unread(lack) => unread_one(alloc, *lack),
    }
}
