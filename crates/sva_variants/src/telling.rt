//! What is told of the lines on which a verdict rests.

ghost use Rattle.std.specs.Prelude.{◌≡◌, ◌++◌, IfOk, OnOk, [], flat_map};
ghost use Rattle.sva_variants.specs.Cuts.{cut_seen};
ghost use Rattle.sva_variants.specs.Needed as spec;

use crate::cuts::{Cut, cuts_in};
use crate::trying::{Tried, try_all};
use std::alloc::{AllocError, Global};
use sva_driver_reports::Ruling;
use sva_script_reading::{Lines, put_number};
use sva_search::Watch;

/// The first line of a report.
pub(crate) fn first_line(report: &[u8]) -> &[u8]
    ensures { result.now ≡ spec.first_line report.entry.now }
{
    let mut lines = Lines::new(report);
    match lines.next() {
        Some((_number, line)) => line,
        None => b"",
    }
}

/// Whether the verdict rests on a line, by what is said of the text without it.
fn word_of(said: Option<Ruling>) -> &'static str
    ensures { result.now ≡ spec.word_of said }
{
    match said {
        None => "not tried   ",
        Some(Ruling::Safe) => "not needed  ",
        Some(Ruling::Untried) => "not needed  ",
        Some(Ruling::Right) => "not tried   ",
        Some(Ruling::Unsafe) => "needed      ",
        Some(Ruling::UnsafeSoFar) => "needed      ",
        Some(Ruling::Stuck) => "needed      ",
        Some(Ruling::CutOff) => "unknown     ",
    }
}

/// Appends a line that was left out too.
fn put_other(out: &mut Vec<u8>, number: u64) -> Result<(), AllocError>
    ensures { OnOk result (out.new.items ≡ out.old.items ++ spec.other_text number) }
{
    out.extend_from_slice(b", with line ")?;
    put_number(out, number)?;
    Ok(())
}

/// Appends the lines that were left out too.
fn put_others(out: &mut Vec<u8>, others: &[u64]) -> Result<(), AllocError>
    ensures { OnOk result (out.new.items ≡ out.old.items ++ flat_map spec.other_text others.now) }
{
    for place in 0..others.len() {
        put_other(out, others[place])?;
    }
    Ok(())
}

/// Appends which lines were left out.
fn put_cut(out: &mut Vec<u8>, cut: &Cut) -> Result<(), AllocError>
    ensures { OnOk result (out.new.items ≡ out.old.items ++ spec.cut_text (cut_seen cut.now)) }
{
    out.extend_from_slice(b"line ")?;
    put_number(out, cut.number)?;
    out.extend_from_slice(b":")?;
    out.extend_from_slice(cut.act.as_slice())?;
    put_others(out, cut.others.as_slice())
}

/// Appends what is told of a line: whether it is needed, what was left out, and the first line of the report without it.
pub(crate) fn put_tried(
    out: &mut Vec<u8>,
    cut: &Cut,
    said: Option<Ruling>,
    line: &[u8],
) -> Result<(), AllocError>
    ensures { OnOk result (out.new.items ≡ out.old.items ++ spec.tried_text (cut_seen cut.now) said line.now) }
{
    out.extend_from_slice(word_of(said).as_bytes())?;
    put_cut(out, cut)?;
    out.extend_from_slice(b": ")?;
    out.extend_from_slice(line)?;
    out.extend_from_slice(b"\n")
}

/// Appends what is told of each line.
pub(crate) fn put_all(out: &mut Vec<u8>, all: &[Tried]) -> Result<(), AllocError>
    ensures { OnOk result (out.new.items ≡ out.old.items ++ flat_map spec.told_of all.now) }
{
    for tried in all {
        out.extend_from_slice(tried.text.as_slice())?;
    }
    Ok(())
}

/// Appends the report: the verdict of the whole, what is told of each line, and in which world.
fn put_needed(out: &mut Vec<u8>, own: &[u8], all: &[Tried]) -> Result<(), AllocError>
    ensures { OnOk result (out.new.items ≡ out.old.items ++ spec.report_text own.now all.now) }
{
    out.extend_from_slice(first_line(own))?;
    out.extend_from_slice(b"\n")?;
    put_all(out, all)?;
    out.extend_from_slice(
        b"needed or not in the world of this file: its settings, and what its endpoints may do\n",
    )
}

/// Whether a search was cut off.
fn is_cut_off(said: Option<Ruling>) -> bool
    ensures { result ≡ spec.is_cut_off said }
{
    matches!(said, Some(Ruling::CutOff))
}

/// Whether one of the searches was cut off.
pub(crate) fn is_any_cut_off(all: &[Tried]) -> bool
    ensures { result ≡ spec.is_any_cut_off all.now }
{
    all.iter().any(|tried| is_cut_off(tried.said))
}

/// What all say in a word: of a driver that is safe, whether each search without a line came to its end.
fn ruling_of(all: &[Tried]) -> Ruling
    ensures { result ≡ spec.ruling_of all.now }
{
    if is_any_cut_off(all) {
        Ruling::CutOff
    } else {
        Ruling::Safe
    }
}

/// Judges the texts without each line that is left out, and writes the report.
pub(crate) fn tell_needed<P: Watch>(
    alloc: Global,
    most: u64,
    text: &[u8],
    own: &[u8],
    out: &mut Vec<u8>,
    watch: &mut P,
) -> Result<Option<Ruling>, AllocError>
    requires { out.old.items ≡ [] }
    ensures { IfOk result (λ said. spec.AreTried text.now most own.now said out.new.items) }
{
    let cuts = cuts_in(alloc, text)?;
    let all = try_all(alloc, most, text, cuts.as_slice(), watch)?;
    put_needed(out, own, all.as_slice())?;
    Ok(Some(ruling_of(all.as_slice())))
}
