//! The claims of a race.

ghost use Rattle.std.specs.Prelude.{◌≡◌, ◌+◌, ◌<◌, ◌^◌, [], ◌∷◌, ◌++◌, IfOk, length, map};
ghost use Rattle.sva_race_texts.specs.Conditions.{begins_claim, claiming_of, condition_of, is_of_ends};
ghost use Rattle.sva_race_texts.specs.Conditions.{literal_of, literals_of};
ghost use Rattle.sva_race_texts.specs.Seen.{condition_seen, line_seen, literal_seen, literals_seen};
ghost use Rattle.sva_race_texts.specs.TakingWords.{Adds, Gives};

use crate::atoms::read_literal;
use crate::faults::RaceStop;
use crate::terms::{Claiming, Line, Literal};
use crate::words::{piece_len, word_at, words_at, words_from};
use std::alloc::{AllocError, Global};
use sva_script::{Names, is};
use sva_step::Config;

fn push_literal(list: &mut Vec<Literal>, one: Literal) -> Result<(), AllocError>
    ensures { IfOk result (λ _. list.new.items ≡ list.old.items ++ one ∷ []) }
{
    list.push(one)?;
    Ok(())
}

fn push_literals(list: &mut Vec<Vec<Literal>>, one: Vec<Literal>) -> Result<(), AllocError>
    ensures { IfOk result (λ _. list.new.items ≡ list.old.items ++ one ∷ []) }
{
    list.push(one)?;
    Ok(())
}

/// Adds a literal.
fn add_literal(
    alloc: Global,
    config: Config,
    names: &Names,
    lines: &[Line],
    words: &[&[u8]],
    at: usize,
    literals: &mut Vec<Literal>,
) -> Result<(), RaceStop>
    requires { at + length words.now + 4 < 2 ^ 64 }
    ensures { Adds literal_seen (literal_of config names.now (map line_seen lines.now) at
        (map (λ word. word.now) words.now)) literals.old.items literals.new.items result }
{
    match read_literal(alloc, config, names, lines, words, at) {
        Ok(literal) => match push_literal(literals, literal) {
            Ok(()) => Ok(()),
            Err(_) => Err(RaceStop::Memory),
        },
        Err(stop) => Err(stop),
    }
}

/// Literals with `and` between two; the words begin at `at`.
fn read_literals(
    alloc: Global,
    config: Config,
    names: &Names,
    lines: &[Line],
    words: &[&[u8]],
    at: usize,
) -> Result<Vec<Literal>, RaceStop>
    requires { at + length words.now + 4 < 2 ^ 64 }
    ensures { Gives literals_seen (literals_of config names.now (map line_seen lines.now) at
        (map (λ word. word.now) words.now)) result }
{
    let mut literals = Vec::new(alloc);
    let mut start = 0;
    while let Some(count) = piece_len(words, start, b"and") {
        let piece = words_at(words, start, count);
        match add_literal(
            alloc,
            config,
            names,
            lines,
            piece,
            at + start,
            &mut literals,
        ) {
            Ok(()) => {}
            Err(stop) => return Err(stop),
        }
        start += count + 1;
    }
    let piece = words_from(words, start);
    match add_literal(
        alloc,
        config,
        names,
        lines,
        piece,
        at + start,
        &mut literals,
    ) {
        Ok(()) => Ok(literals),
        Err(stop) => Err(stop),
    }
}

/// Adds literals with `and` between two.
fn add_literals(
    alloc: Global,
    config: Config,
    names: &Names,
    lines: &[Line],
    words: &[&[u8]],
    at: usize,
    condition: &mut Vec<Vec<Literal>>,
) -> Result<(), RaceStop>
    requires { at + length words.now + 4 < 2 ^ 64 }
    ensures { Adds literals_seen (literals_of config names.now (map line_seen lines.now) at
        (map (λ word. word.now) words.now)) condition.old.items condition.new.items result }
{
    match read_literals(alloc, config, names, lines, words, at) {
        Ok(literals) => match push_literals(condition, literals) {
            Ok(()) => Ok(()),
            Err(_) => Err(RaceStop::Memory),
        },
        Err(stop) => Err(stop),
    }
}

/// A condition: such lists with `or` between two; the words begin at `at`.
pub fn read_condition(
    alloc: Global,
    config: Config,
    names: &Names,
    lines: &[Line],
    words: &[&[u8]],
    at: usize,
) -> Result<Vec<Vec<Literal>>, RaceStop>
    requires { at + length words.now + 4 < 2 ^ 64 }
    ensures { Gives condition_seen (condition_of config names.now (map line_seen lines.now) at
        (map (λ word. word.now) words.now)) result }
{
    let mut condition = Vec::new(alloc);
    let mut start = 0;
    while let Some(count) = piece_len(words, start, b"or") {
        let piece = words_at(words, start, count);
        match add_literals(
            alloc,
            config,
            names,
            lines,
            piece,
            at + start,
            &mut condition,
        ) {
            Ok(()) => {}
            Err(stop) => return Err(stop),
        }
        start += count + 1;
    }
    let piece = words_from(words, start);
    match add_literals(
        alloc,
        config,
        names,
        lines,
        piece,
        at + start,
        &mut condition,
    ) {
        Ok(()) => Ok(condition),
        Err(stop) => Err(stop),
    }
}

/// What is claimed by a word.
pub fn claiming_of(word: &[u8]) -> Option<Claiming>
    ensures { result ≡ claiming_of word.now }
{
    if is(word, b"never") {
        return Some(Claiming::Never);
    }
    if is(word, b"always") {
        return Some(Claiming::Always);
    }
    if is(word, b"sometimes") {
        return Some(Claiming::Sometimes);
    }
    None
}

/// Whether a line begins a claim by this word.
pub fn begins_claim(word: &[u8]) -> bool
    ensures { result ≡ begins_claim word.now }
{
    is(word, b"ends") || claiming_of(word).is_some()
}

/// Whether a claim is of ends alone.
pub fn is_of_ends(words: &[&[u8]]) -> bool
    ensures { result ≡ is_of_ends (map (λ word. word.now) words.now) }
{
    is(word_at(words, 0), b"ends")
}
