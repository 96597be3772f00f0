//! What is told of the settings on which a verdict rests.

ghost use Rattle.std.specs.Prelude.{◌≡◌, ◌++◌, IfOk, OnOk, []};
ghost use Rattle.std.specs.List.{AllZip};
ghost use Rattle.sva_variants.specs.Platforms as spec;

use crate::platforms::{Platform, label_of, others_of, own_settings, settings_of, under};
use crate::telling::{first_line, is_any_cut_off, put_all};
use crate::trying::{Tried, wanted_of};
use std::alloc::{AllocError, Global};
use sva_driver_reports::{Ruling, judge_text};
use sva_search::Watch;

/// Appends a row: where the text stands, and the first line of its report.
fn put_row(out: &mut Vec<u8>, label: &str, line: &[u8]) -> Result<(), AllocError>
    ensures { OnOk result (out.new.items ≡ out.old.items ++ spec.row_text label.now line.now) }
{
    out.extend_from_slice(label.as_bytes())?;
    out.extend_from_slice(line)?;
    out.extend_from_slice(b"\n")
}

/// Appends the row of the text as it stands.
fn put_own_row(out: &mut Vec<u8>, own: &[u8]) -> Result<(), AllocError>
    ensures { OnOk result (out.new.items ≡ out.old.items ++ spec.own_row own.now) }
{
    put_row(out, "as it stands       ", first_line(own))?;
    Ok(())
}

/// Judges the text on a platform.
fn try_on<P: Watch>(
    alloc: Global,
    most: u64,
    text: &[u8],
    platform: Platform,
    watch: &mut P,
) -> Result<Tried, AllocError>
    ensures { IfOk result (λ tried. spec.IsOn text.now most platform tried) }
{
    let other = under(alloc, settings_of(platform).as_bytes(), text)?;
    let mut report = Vec::new(alloc);
    let said = judge_text(alloc, wanted_of(most), other.as_slice(), &mut report, watch)?;
    let mut told = Vec::new(alloc);
    put_row(&mut told, label_of(platform), first_line(report.as_slice()))?;
    Ok(Tried { said, text: told })
}

/// Judges the text on each of some platforms, one after another.
fn try_each<P: Watch>(
    alloc: Global,
    most: u64,
    text: &[u8],
    platforms: &[Platform],
    watch: &mut P,
) -> Result<Vec<Tried>, AllocError>
    ensures { IfOk result (λ all. AllZip (spec.IsOn text.now most) platforms.now all.items) }
{
    let mut all = Vec::new(alloc);
    for place in 0..platforms.len() {
        let tried = try_on(alloc, most, text, platforms[place], watch)?;
        all.push(tried)?;
    }
    Ok(all)
}

/// Appends the report: the verdict of the text as it stands, those on the platforms, and what is the same in each.
fn put_standing(out: &mut Vec<u8>, own: &[u8], all: &[Tried]) -> Result<(), AllocError>
    ensures { OnOk result (out.new.items ≡ out.old.items ++ spec.report_text own.now all.now) }
{
    put_own_row(out, own)?;
    put_all(out, all)?;
    out.extend_from_slice(
        b"each platform's lines stand behind config, in place of the file's own; all else is as it stands\n",
    )
}

/// Whether a driver is safe, if only since nothing was tried in it.
fn is_safe_or_untried(said: Option<Ruling>) -> bool
    ensures { result ≡ spec.is_safe_or_untried said }
{
    matches!(said, Some(Ruling::Safe | Ruling::Untried))
}

/// What all say in a word: what is said of the text as it stands; of one that is safe, whether each search came to its end.
fn ruling_of(first: Option<Ruling>, all: &[Tried]) -> Option<Ruling>
    ensures { result ≡ spec.ruling_of first all.now }
{
    if is_safe_or_untried(first) && is_any_cut_off(all) {
        return Some(Ruling::CutOff);
    }
    first
}

/// Judges a text on each platform but its own, and writes the report.
pub(crate) fn tell_standing<P: Watch>(
    alloc: Global,
    most: u64,
    text: &[u8],
    first: Option<Ruling>,
    own: &[u8],
    out: &mut Vec<u8>,
    watch: &mut P,
) -> Result<Option<Ruling>, AllocError>
    requires { out.old.items ≡ [] }
    ensures { IfOk result (λ said. spec.AreOn text.now most first own.now said out.new.items) }
{
    let settings = own_settings(alloc, text)?;
    let others = others_of(alloc, settings.as_slice())?;
    let all = try_each(alloc, most, text, others.as_slice(), watch)?;
    put_standing(out, own, all.as_slice())?;
    Ok(ruling_of(first, all.as_slice()))
}
