//! The literals of conditions that stand beside others, with `and` between: of each the race asks whether it is true at
//! some moment.

ghost use Rattle.std.specs.Prelude.{◌≡◌, IfOk, map};
ghost use Rattle.std.specs.List.{list_any};
ghost use Rattle.sva_race_texts.specs.Conditions.{condition_of};
ghost use Rattle.sva_race_texts.specs.Seen.{condition_seen, line_seen};
ghost use Rattle.sva_race_texts.specs.Literals as literals;
ghost use Rattle.sva_race_texts.specs.Readings.{asked_literal_seen, claim_seen, literals_seen};

use crate::claims::read_condition;
use crate::faults::RaceStop;
use crate::kept::AskedLiteral;
use crate::terms::{Claim, Claiming, Line, Literal};
use crate::words::{joined, piece_len, words_at, words_from};
use std::alloc::{AllocError, Global};
use sva_script::{Names, is};
use sva_step::Config;

/// What is asked of literals.
#[derive(Drop)]
pub(crate) struct Literals {
    /// For each, the claim that it is true at some moment.
    pub(crate) claims: Vec<Claim>,
    /// Of each, its words.
    pub(crate) asked: Vec<AskedLiteral>,
}

/// Whether it is the word between two literals.
fn is_and(word: &[u8]) -> bool
    ensures { result ≡ literals.is_and word.now }
{
    is(word, b"and")
}

/// Whether one of the words is.
fn is_one_and(words: &[&[u8]]) -> bool
    ensures { result ≡ list_any (λ word. literals.is_and word.now) words.now }
{
    words.iter().any(|word| is_and(word))
}

/// Whether these are the words of several literals.
fn has_several(words: &[&[u8]]) -> bool
    ensures { result ≡ literals.has_several (map (λ word. word.now) words.now) }
{
    let found = is_one_and(words);
    found
}

/// Whether a literal has these words and is asked of the same moments.
fn is_same(literal: &AskedLiteral, text: &[u8], is_of_ends: bool) -> bool
    ensures { result ≡ literals.is_same text.now is_of_ends (asked_literal_seen literal.now) }
{
    literal.is_of_ends == is_of_ends && is(literal.text.as_slice(), text)
}

/// Whether one of them does.
fn is_one_same(asked: &[AskedLiteral], text: &[u8], is_of_ends: bool) -> bool
    ensures { result
        ≡ list_any (λ literal. literals.is_same text.now is_of_ends (asked_literal_seen literal)) asked.now }
{
    asked
        .iter()
        .any(|literal| is_same(literal, text, is_of_ends))
}

/// Whether it is asked of a literal already.
fn is_asked(asked: &[AskedLiteral], text: &[u8], is_of_ends: bool) -> bool
    ensures { result ≡ literals.is_asked text.now is_of_ends (map asked_literal_seen asked.now) }
{
    let found = is_one_same(asked, text, is_of_ends);
    found
}

/// Asks of a literal by this claim.
fn push_literal(own: &mut Literals, claim: Claim, asked: AskedLiteral) -> Result<(), AllocError>
    ensures { IfOk result (λ _. literals_seen own.new
        ≡ literals.with_claim (literals_seen own.old) (asked_literal_seen asked) (claim_seen claim)) }
{
    own.claims.push(claim)?;
    own.asked.push(asked)?;
    Ok(())
}

/// The claim that a condition holds at some moment.
fn sometimes(condition: Vec<Vec<Literal>>) -> Claim
    ensures { claim_seen result ≡ literals.sometimes (condition_seen condition) }
{
    Claim {
        claiming: Claiming::Sometimes,
        condition,
    }
}

/// Asks of a literal with these words. Of words that are wrong it doesn't: nor is the condition a right one in which
/// they stand.
fn ask(
    alloc: Global,
    config: Config,
    names: &Names,
    lines: &[Line],
    words: &[&[u8]],
    asked: AskedLiteral,
    own: &mut Literals,
) -> Result<(), AllocError>
    ensures { IfOk result (λ _. literals_seen own.new
        ≡ literals.with_read (literals_seen own.old) (asked_literal_seen asked)
        (condition_of config names.now (map line_seen lines.now) 0 (map (λ word. word.now) words.now))) }
{
    match read_condition(alloc, config, names, lines, words, 0) {
        Ok(condition) => push_literal(own, sometimes(condition), asked),
        Err(RaceStop::Wrong(_)) => Ok(()),
        Err(RaceStop::Memory) => Err(AllocError),
    }
}

/// Asks of a literal of a claim with this line, unless that is done already.
fn add_literal(
    alloc: Global,
    config: Config,
    names: &Names,
    lines: &[Line],
    line: u64,
    is_of_ends: bool,
    words: &[&[u8]],
    own: &mut Literals,
) -> Result<(), AllocError>
    ensures { IfOk result (λ _. literals_seen own.new
        ≡ literals.with_literal config names.now (map line_seen lines.now) line is_of_ends (literals_seen own.old)
        (map (λ word. word.now) words.now)) }
{
    let text = joined(alloc, words)?;
    if is_asked(own.asked.as_slice(), text.as_slice(), is_of_ends) {
        return Ok(());
    }
    let asked = AskedLiteral {
        text,
        is_of_ends,
        line,
    };
    ask(alloc, config, names, lines, words, asked, own)
}

/// Asks of literals with `and` between two.
fn add_each(
    alloc: Global,
    config: Config,
    names: &Names,
    lines: &[Line],
    line: u64,
    is_of_ends: bool,
    words: &[&[u8]],
    own: &mut Literals,
) -> Result<(), AllocError>
    ensures { IfOk result (λ _. literals_seen own.new
        ≡ literals.with_each config names.now (map line_seen lines.now) line is_of_ends (literals_seen own.old)
        (map (λ word. word.now) words.now)) }
{
    let mut start = 0;
    while let Some(count) = piece_len(words, start, b"and") {
        let piece = words_at(words, start, count);
        add_literal(alloc, config, names, lines, line, is_of_ends, piece, own)?;
        start += count + 1;
    }
    let piece = words_from(words, start);
    add_literal(alloc, config, names, lines, line, is_of_ends, piece, own)?;
    Ok(())
}

/// Asks of such literals, if they are several.
fn add_all(
    alloc: Global,
    config: Config,
    names: &Names,
    lines: &[Line],
    line: u64,
    is_of_ends: bool,
    words: &[&[u8]],
    own: &mut Literals,
) -> Result<(), AllocError>
    ensures { IfOk result (λ _. literals_seen own.new
        ≡ literals.with_all config names.now (map line_seen lines.now) line is_of_ends (literals_seen own.old)
        (map (λ word. word.now) words.now)) }
{
    if has_several(words) {
        add_each(alloc, config, names, lines, line, is_of_ends, words, own)
    } else {
        Ok(())
    }
}

/// Asks of the literals of a condition: such lists with `or` between two.
pub(crate) fn add_condition(
    alloc: Global,
    config: Config,
    names: &Names,
    lines: &[Line],
    line: u64,
    is_of_ends: bool,
    words: &[&[u8]],
    own: &mut Literals,
) -> Result<(), AllocError>
    ensures { IfOk result (λ _. literals_seen own.new
        ≡ literals.with_condition config names.now (map line_seen lines.now) line is_of_ends (literals_seen own.old)
        (map (λ word. word.now) words.now)) }
{
    let mut start = 0;
    while let Some(count) = piece_len(words, start, b"or") {
        let piece = words_at(words, start, count);
        add_all(alloc, config, names, lines, line, is_of_ends, piece, own)?;
        start += count + 1;
    }
    let piece = words_from(words, start);
    add_all(alloc, config, names, lines, line, is_of_ends, piece, own)?;
    Ok(())
}
