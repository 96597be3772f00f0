//! The lines that no list of events takes.

ghost use Rattle.std.specs.Prelude.{◌≡◌, ◌<◌, ◌==◌, ◌++◌, IfOk, OnOk, false, length, slice_index_or};
ghost use Rattle.std.specs.List.{list_any};
ghost use Rattle.sva_driver_reports.specs.Untaken as seen;

use std::alloc::{AllocError, Global};
use sva_judge::{Fact, Looked};
use sva_open::Line;
use sva_script_reading::put_number;

/// The number of the line of a fact.
fn number_of(lines: &[Line], fact: Fact) -> Option<u64>
    ensures { result ≡ seen.number_of lines.now fact }
{
    match fact {
        Fact::Taken { line } => match lines.get(line) {
            None => None,
            Some(own) => Some(own.number),
        },
        Fact::Holds { .. } | Fact::Uses { .. } | Fact::Faults { .. } | Fact::Leads { .. } => None,
    }
}

fn is_set(taken: &[bool], place: usize) -> bool
    ensures { result ≡ slice_index_or taken.now place false }
{
    taken.get(place).copied().unwrap_or(false)
}

fn begins_with(taken: &[bool], number: u64, place: usize, line: &Line) -> bool
    ensures { result ≡ seen.begins_with taken.now number place line.now }
{
    line.number == number && is_set(taken, place)
}

/// Whether a line of this number was taken when the search began.
fn is_begun(taken: &[bool], number: u64, lines: &[Line]) -> bool
    ensures { result ≡ seen.begun_from taken.now number 0 lines.now }
{
    for place in 0..lines.len() {
        if begins_with(taken, number, place, &lines[place]) {
            return true;
        }
    }
    false
}

fn is_number(number: u64, found: Option<u64>) -> bool
    ensures { result ≡ seen.is_number number found }
{
    match found {
        None => false,
        Some(own) => own == number,
    }
}

fn meets(lines: &[Line], number: u64, one: &Looked) -> bool
    ensures { result ≡ seen.meets lines.now number one.now }
{
    one.is_met && is_number(number, number_of(lines, one.fact))
}

fn is_met(lines: &[Line], looked: &[Looked], number: u64) -> bool
    ensures { result ≡ list_any (seen.meets lines.now number) looked.now }
{
    looked.iter().any(|one| meets(lines, number, one))
}

/// Whether a line of this number was taken: when the search began, or in some list.
fn was_taken(taken: &[bool], lines: &[Line], looked: &[Looked], number: u64) -> bool
    ensures { result ≡ seen.was_taken taken.now lines.now looked.now number }
{
    is_begun(taken, number, lines) || is_met(lines, looked, number)
}

/// Whether a list has a number.
fn has(list: &[u64], number: u64) -> bool
    ensures { result ≡ list_any (λ own. own == number) list.now }
{
    list.iter().any(|own| *own == number)
}

/// Adds a number, unless a line of it was taken or the list has it.
fn add_number(told: &mut Vec<u64>, is_taken: bool, number: u64) -> Result<(), AllocError>
    ensures { IfOk result (λ _. told.new.items ≡ seen.with_number told.old.items is_taken number) }
{
    if is_taken || has(told.as_slice(), number) {
        return Ok(());
    }
    told.push(number)?;
    Ok(())
}

/// Adds the number of a line that was never taken, if a fact is of such a one.
fn add_fact(
    told: &mut Vec<u64>,
    taken: &[bool],
    lines: &[Line],
    looked: &[Looked],
    one: &Looked,
) -> Result<(), AllocError>
    ensures { IfOk result (λ _. told.new.items
        ≡ seen.with_fact taken.now lines.now looked.now told.old.items one.now) }
{
    if one.is_met {
        return Ok(());
    }
    match number_of(lines, one.fact) {
        None => Ok(()),
        Some(number) => add_number(told, was_taken(taken, lines, looked, number), number),
    }
}

/// The numbers of the lines that were never taken, in the order of the facts.
pub(crate) fn untaken(
    alloc: Global,
    taken: &[bool],
    lines: &[Line],
    looked: &[Looked],
) -> Result<Vec<u64>, AllocError>
    ensures { IfOk result (λ told. told.items ≡ seen.untaken taken.now lines.now looked.now) }
{
    let mut told = Vec::new(alloc);
    for place in 0..looked.len() {
        add_fact(&mut told, taken, lines, looked, &looked[place])?;
    }
    Ok(told)
}

/// What stands before the number at a place, of so many.
fn before_number(count: usize, place: usize) -> &'static str
    requires { place < count }
    ensures { result.now ≡ seen.before_number count place }
{
    if place == 0 {
        return " ";
    }
    if place + 1 == count { " and " } else { ", " }
}

fn put_number_at(
    out: &mut Vec<u8>,
    count: usize,
    place: usize,
    number: u64,
) -> Result<(), AllocError>
    requires { place < count }
    ensures { OnOk result (out.new.items ≡ out.old.items ++ seen.number_text count place number) }
{
    out.extend_from_slice(before_number(count, place).as_bytes())?;
    put_number(out, number)
}

fn put_numbers(out: &mut Vec<u8>, numbers: &[u64]) -> Result<(), AllocError>
    ensures { OnOk result (out.new.items
        ≡ out.old.items ++ seen.numbers_from (length numbers.now) 0 numbers.now) }
{
    for place in 0..numbers.len() {
        put_number_at(out, numbers.len(), place, numbers[place])?;
    }
    Ok(())
}

fn lines_text(count: usize) -> &'static str
    ensures { result.now ≡ seen.lines_text count }
{
    if count == 1 {
        "never: line"
    } else {
        "never: lines"
    }
}

fn taken_text(count: usize) -> &'static str
    ensures { result.now ≡ seen.taken_text count }
{
    if count == 1 {
        " is taken\n"
    } else {
        " are taken\n"
    }
}

/// Appends that lines with these numbers were never taken, where there are some.
pub(crate) fn put_untaken(out: &mut Vec<u8>, numbers: &[u64]) -> Result<(), AllocError>
    ensures { OnOk result (out.new.items ≡ out.old.items ++ seen.untaken_text numbers.now) }
{
    let count = numbers.len();
    if count == 0 {
        return Ok(());
    }
    out.extend_from_slice(lines_text(count).as_bytes())?;
    put_numbers(out, numbers)?;
    out.extend_from_slice(taken_text(count).as_bytes())
}
