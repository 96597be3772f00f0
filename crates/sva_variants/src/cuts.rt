//! What is left out of a driver's text.

ghost use Rattle.std.specs.Prelude.{◌≡◌, ◌++◌, ◌+◌, ◌∷◌, [], IfOk, OnOk, flat_map, map};
ghost use Rattle.sva_script_reading.specs.Begins.{lines_from};
ghost use Rattle.sva_script_reading.specs.Faults.{shown_word};
ghost use Rattle.sva_variants.specs.Cuts as cuts;

use crate::acts::{act_in, ends, goes_with, is_guard};
use std::alloc::{AllocError, Global};
use sva_script::split;
use sva_script_reading::{Lines, put_word};

/// A line that is left out.
#[derive(Drop)]
pub struct Cut {
    /// Its number in the text, from 1 on.
    pub number: u64,
    /// The words behind its name, a space before each.
    pub act: Vec<u8>,
    /// The numbers of the lines below it that go with it.
    pub others: Vec<u64>,
}

/// Appends words, a space before each.
fn put_act(out: &mut Vec<u8>, act: &[&[u8]]) -> Result<(), AllocError>
    ensures { OnOk result (out.new.items ≡ out.old.items ++ cuts.act_text (map (λ word. word.now) act.now)) }
{
    for word in act {
        put_spaced(out, word)?;
    }
    Ok(())
}

/// Appends a word behind a space.
fn put_spaced(out: &mut Vec<u8>, word: &[u8]) -> Result<(), AllocError>
    ensures { OnOk result (out.new.items ≡ out.old.items ++ (32 ∷ shown_word word.now)) }
{
    out.extend_from_slice(b" ")?;
    put_word(out, word)
}

/// Notes a number, if its line goes with a first one.
fn note_if(numbers: &mut Vec<u64>, goes: bool, number: u64) -> Result<(), AllocError>
    ensures { OnOk result (numbers.new.items ≡ numbers.old.items ++ cuts.number_if goes number) }
{
    if goes {
        numbers.push(number)?;
    }
    Ok(())
}

/// The numbers of the lines below an act that go with it.
fn others_below(alloc: Global, first: &[&[u8]], below: Lines<'_>) -> Result<Vec<u64>, AllocError>
    ensures { IfOk result (λ others. others.items ≡ cuts.others_from (map (λ word. word.now) first.now)
        (lines_from (below.entry.number + 1) below.entry.rest.now)) }
{
    let mut lines = below;
    let mut others = Vec::new(alloc);
    let mut words = Vec::new(alloc);
    while let Some((number, line)) = lines.next() {
        split(line, &mut words)?;
        let other = act_in(words.as_slice());
        if ends(first, other) {
            return Ok(others);
        }
        note_if(&mut others, goes_with(first, other), number)?;
    }
    Ok(others)
}

/// Notes a line that is left out, if its act keeps others off.
fn put_cut(
    alloc: Global,
    found: &mut Vec<Cut>,
    number: u64,
    act: &[&[u8]],
    below: Lines<'_>,
) -> Result<(), AllocError>
    ensures { OnOk result (map cuts.cut_seen found.new.items ≡ map cuts.cut_seen found.old.items
        ++ cuts.cut_if number (map (λ word. word.now) act.now)
        (lines_from (below.entry.number + 1) below.entry.rest.now)) }
{
    if !is_guard(act) {
        return Ok(());
    }
    let mut text = Vec::new(alloc);
    put_act(&mut text, act)?;
    let others = others_below(alloc, act, below)?;
    found.push(Cut {
        number,
        act: text,
        others,
    })?;
    Ok(())
}

/// What is left out of a text: each line that keeps others off, once.
pub(crate) fn cuts_in(alloc: Global, text: &[u8]) -> Result<Vec<Cut>, AllocError>
    ensures { IfOk result (λ found. map cuts.cut_seen found.items ≡ cuts.cuts_of text.now) }
{
    let mut lines = Lines::new(text);
    let mut found = Vec::new(alloc);
    let mut words = Vec::new(alloc);
    while let Some((number, line)) = lines.next() {
        split(line, &mut words)?;
        put_cut(alloc, &mut found, number, act_in(words.as_slice()), lines)?;
    }
    Ok(found)
}
