//! The report of several texts that were searched.

ghost use Rattle.std.specs.Prelude.{◌≡◌, ◌++◌, IfOk, OnOk};
ghost use Rattle.sva_located.specs.Located.{located};
ghost use Rattle.sva_several.specs.Lines as lines;

use crate::given::Given;
use crate::naming::{first_line, put_named};
use crate::searching::{Said, Search};
use crate::verdicts::{Verdict, count};
use std::alloc::{AllocError, Global};
use sva_driver_reports::Ruling;
use sva_located::{Language, located, shown_name};
use sva_race_reports::Judged;
use sva_script_reading::put_number;

/// The language that texts are to be in.
pub fn language_of(search: Search) -> Language
    ensures { result ≡ lines.language_of search }
{
    match search {
        Search::Races { .. } => Language::Race,
        Search::Drivers { .. } | Search::Lines => Language::Driver,
        Search::Steps => Language::Scenario,
        Search::Tests | Search::Whys => Language::Script,
    }
}

/// Whether all lines are told: those of all findings, or what holds each step back.
fn tells_all(search: Search, verdict: Verdict) -> bool
    ensures { result ≡ lines.tells_all search verdict }
{
    match (search, verdict) {
        (Search::Drivers { all, .. }, Verdict::Ruled(Ruling::Unsafe)) => all,
        (Search::Whys, Verdict::Done) => true,
        _ => false,
    }
}

/// What of a text is told that was searched.
fn told_of(text: &[u8], all: bool) -> &[u8]
    ensures { result.now ≡ lines.told_of text.entry.now all }
{
    if all { text } else { first_line(text) }
}

/// What of a text is told.
fn told(search: Search, verdict: Verdict, text: &[u8]) -> &[u8]
    ensures { result.now ≡ lines.told search verdict text.entry.now }
{
    match verdict {
        Verdict::Wrong => text,
        _ => told_of(text, tells_all(search, verdict)),
    }
}

/// What is told of a text that was searched, or for whose search memory lacked.
fn said_of(search: Search, found: &Result<Said, AllocError>) -> &[u8]
    ensures { result.now ≡ lines.said_of search found.entry.now }
{
    match found {
        Ok(said) => told(search, said.verdict, said.text.as_slice()),
        Err(_) => b"out of memory\n",
    }
}

/// Appends what is told of a file whose text is wrong.
fn put_located(
    alloc: Global,
    out: &mut Vec<u8>,
    search: Search,
    name: &[u8],
    text: &[u8],
    report: &[u8],
) -> Result<(), AllocError>
    ensures { OnOk result (out.new.items ≡ out.old.items ++ located (lines.language_of search) name.now text.now report.now) }
{
    let told = located(alloc, language_of(search), name, text, report)?;
    out.extend_from_slice(told.as_slice())
}

/// Appends what is told of a file: each line that is wrong behind its place, and else each line behind the name.
fn put_told(
    alloc: Global,
    out: &mut Vec<u8>,
    search: Search,
    name: &[u8],
    given: &Given,
    found: &Result<Said, AllocError>,
) -> Result<(), AllocError>
    ensures { OnOk result (out.new.items ≡ out.old.items ++ lines.told_text search name.now given.now found.now) }
{
    match (given, found) {
        (
            Given::Text(text),
            Ok(
                Said {
                    verdict: Verdict::Wrong,
                    text: report,
                },
            ),
        ) => put_located(alloc, out, search, name, text.as_slice(), report.as_slice()),
        _ => put_named(out, shown_name(name), said_of(search, found)),
    }
}

/// Appends what is told of each file.
fn put_lines(
    alloc: Global,
    out: &mut Vec<u8>,
    search: Search,
    names: &[String],
    texts: &[Given],
    all: &[Result<Said, AllocError>],
) -> Result<(), AllocError>
    ensures { OnOk result (out.new.items ≡ out.old.items ++ lines.lines_of search names.now texts.now all.now) }
{
    for place in 0..all.len() {
        if place >= names.len() {
            return Ok(());
        }
        if place >= texts.len() {
            return Ok(());
        }
        put_told(
            alloc,
            out,
            search,
            names[place].as_bytes(),
            &texts[place],
            &all[place],
        )?;
    }
    Ok(())
}

/// Appends of how many texts something is said.
fn put_many(
    out: &mut Vec<u8>,
    before: &str,
    all: &[Result<Said, AllocError>],
    verdict: Verdict,
    word: &str,
) -> Result<(), AllocError>
    ensures { OnOk result (out.new.items ≡ out.old.items ++ lines.many before.now all.now verdict word.now) }
{
    out.extend_from_slice(before.as_bytes())?;
    put_number(out, count(all, verdict) as u64)?;
    out.extend_from_slice(word.as_bytes())
}

/// Appends that, if it is said of one.
fn put_some(
    out: &mut Vec<u8>,
    all: &[Result<Said, AllocError>],
    verdict: Verdict,
    word: &str,
) -> Result<(), AllocError>
    ensures { OnOk result (out.new.items ≡ out.old.items ++ lines.some all.now verdict word.now) }
{
    if count(all, verdict) == 0 {
        Ok(())
    } else {
        put_many(out, ", ", all, verdict, word)
    }
}

/// Appends for how many files memory lacked, and how many can't be read.
fn put_lacks(out: &mut Vec<u8>, all: &[Result<Said, AllocError>]) -> Result<(), AllocError>
    ensures { OnOk result (out.new.items ≡ out.old.items ++ lines.lacks_text all.now) }
{
    put_some(out, all, Verdict::Memory, " out of memory")?;
    put_some(out, all, Verdict::Unread, " not read")
}

/// Appends how many races hold, fail and are unknown, and how many texts are wrong.
fn put_races(out: &mut Vec<u8>, all: &[Result<Said, AllocError>]) -> Result<(), AllocError>
    ensures { OnOk result (out.new.items ≡ out.old.items ++ lines.races_text all.now) }
{
    put_many(out, "", all, Verdict::Judged(Judged::Holds), " hold")?;
    put_many(out, ", ", all, Verdict::Judged(Judged::Fails), " fail")?;
    put_many(out, ", ", all, Verdict::Judged(Judged::Unknown), " unknown")?;
    put_some(out, all, Verdict::Wrong, " wrong")
}

/// Appends of how many drivers the verdict is open, or says nothing.
fn put_open(out: &mut Vec<u8>, all: &[Result<Said, AllocError>]) -> Result<(), AllocError>
    ensures { OnOk result (out.new.items ≡ out.old.items ++ lines.open_text all.now) }
{
    put_some(out, all, Verdict::Ruled(Ruling::CutOff), " cut off")?;
    put_some(out, all, Verdict::Ruled(Ruling::Untried), " untried")
}

/// Appends how many drivers are safe, unsafe and stuck, of how many that isn't known, in how many nothing was ever tried, and
/// how many texts are wrong.
fn put_drivers(out: &mut Vec<u8>, all: &[Result<Said, AllocError>]) -> Result<(), AllocError>
    ensures { OnOk result (out.new.items ≡ out.old.items ++ lines.drivers_text all.now) }
{
    put_many(out, "", all, Verdict::Ruled(Ruling::Safe), " safe")?;
    put_many(out, ", ", all, Verdict::Ruled(Ruling::Unsafe), " unsafe")?;
    put_many(out, ", ", all, Verdict::Ruled(Ruling::Stuck), " stuck")?;
    put_open(out, all)?;
    put_some(out, all, Verdict::Wrong, " wrong")
}

/// Appends of how many drivers the lines, taken one after another, lead to nothing wrong, of how many they lead to something,
/// and how many aren't run.
fn put_runs(out: &mut Vec<u8>, all: &[Result<Said, AllocError>]) -> Result<(), AllocError>
    ensures { OnOk result (out.new.items ≡ out.old.items ++ lines.runs_text all.now) }
{
    put_many(out, "", all, Verdict::Ruled(Ruling::Right), " right")?;
    put_many(out, ", ", all, Verdict::Ruled(Ruling::Unsafe), " wrong")?;
    put_some(out, all, Verdict::Wrong, " not run")
}

/// Appends how many texts of steps are so, and how many are not.
fn put_steps(
    out: &mut Vec<u8>,
    all: &[Result<Said, AllocError>],
    done: &str,
    wrong: &str,
) -> Result<(), AllocError>
    ensures { OnOk result (out.new.items ≡ out.old.items ++ lines.steps_text all.now done.now wrong.now) }
{
    put_many(out, "", all, Verdict::Done, done)?;
    put_many(out, ", ", all, Verdict::Wrong, wrong)
}

/// Appends how many there are of each verdict.
fn put_kinds(
    out: &mut Vec<u8>,
    search: Search,
    all: &[Result<Said, AllocError>],
) -> Result<(), AllocError>
    ensures { OnOk result (out.new.items ≡ out.old.items ++ lines.kinds_text search all.now) }
{
    match search {
        Search::Races { .. } => put_races(out, all),
        Search::Drivers { .. } => put_drivers(out, all),
        Search::Lines => put_runs(out, all),
        Search::Tests => put_steps(out, all, " passed", " failed"),
        Search::Steps | Search::Whys => put_steps(out, all, " right", " wrong"),
    }
}

/// Appends the last line.
fn put_totals(
    out: &mut Vec<u8>,
    search: Search,
    all: &[Result<Said, AllocError>],
) -> Result<(), AllocError>
    ensures { OnOk result (out.new.items ≡ out.old.items ++ lines.totals_text search all.now) }
{
    put_kinds(out, search, all)?;
    put_lacks(out, all)?;
    out.extend_from_slice(b"\n")
}

/// The report of several files that were searched: behind the name of each what is told of it, and last, unless they are
/// a part of a list, how many there are of each verdict.
pub(crate) fn report(
    alloc: Global,
    search: Search,
    is_part: bool,
    names: &[String],
    texts: &[Given],
    all: &[Result<Said, AllocError>],
) -> Result<Vec<u8>, AllocError>
    ensures { IfOk result (λ out. out.items ≡ lines.report_text search is_part names.now texts.now all.now) }
{
    let mut out = Vec::new(alloc);
    put_lines(alloc, &mut out, search, names, texts, all)?;
    if !is_part {
        put_totals(&mut out, search, all)?;
    }
    Ok(out)
}
