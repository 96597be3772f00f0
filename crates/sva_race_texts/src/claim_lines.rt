//! The lines of claims.

ghost use Rattle.std.specs.Prelude.{◌≡◌, ◌≤◌, IfOk, map};
ghost use Rattle.sva_race_texts.specs.Conditions.{claims_at, is_of_ends};
ghost use Rattle.sva_race_texts.specs.Seen.{condition_seen};
ghost use Rattle.sva_race_texts.specs.Claims.{claim_line, claimed, with_claim, with_literals};
ghost use Rattle.sva_race_texts.specs.Taking.{Takes};

use crate::claims::{claiming_of, is_of_ends};
use crate::faults::{RaceStop, RaceWanted, stop_at};
use crate::readings::Reading;
use crate::terms::{Claim, Claiming};
use crate::words::{word_at, words_from};
use std::alloc::{AllocError, Global};
use sva_script::Names;
use sva_step::Config;

/// At which word it stands what is claimed.
fn claims_at(words: &[&[u8]]) -> usize
    ensures at { result ≡ claims_at (map (λ word. word.now) words.now) }
    ensures few { result ≤ 1 }
{
    if is_of_ends(words) { 1 } else { 0 }
}

/// Takes a claim.
pub(crate) fn take_claim(
    alloc: Global,
    config: Config,
    names: &Names,
    reading: &mut Reading,
    line: u64,
    words: &[&[u8]],
) -> Result<(), RaceStop>
    ensures { Takes (claim_line config names.now reading.old line (map (λ word. word.now) words.now))
        reading.old reading.new result }
{
    let at = claims_at(words);
    match claiming_of(word_at(words, at)) {
        Some(claiming) => take_claiming(alloc, config, names, reading, line, words, at, claiming),
        None => Err(stop_at(at, RaceWanted::Claiming)),
    }
}

/// Adds a claim with these words, of which the last are those of its condition.
fn add_with_literals(
    alloc: Global,
    config: Config,
    names: &Names,
    reading: &mut Reading,
    line: u64,
    words: &[&[u8]],
    rest: &[&[u8]],
    claim: Claim,
) -> Result<(), AllocError>
    ensures { IfOk result (λ _. reading.new ≡ with_literals config names.now
        (with_claim reading.old (map (λ word. word.now) words.now) claim.claiming (condition_seen claim.condition))
        line (is_of_ends (map (λ word. word.now) words.now)) (map (λ word. word.now) rest.now)) }
{
    reading.add_claim(alloc, words, claim)?;
    reading.add_literals(alloc, config, names, line, is_of_ends(words), rest)?;
    Ok(())
}

/// Takes a claim of which it is known what is claimed, by the word at `at`.
fn take_claiming(
    alloc: Global,
    config: Config,
    names: &Names,
    reading: &mut Reading,
    line: u64,
    words: &[&[u8]],
    at: usize,
    claiming: Claiming,
) -> Result<(), RaceStop>
    requires { at ≤ 1 }
    ensures { Takes (claimed config names.now reading.old line (map (λ word. word.now) words.now) at claiming)
        reading.old reading.new result }
{
    let rest = words_from(words, at + 1);
    match reading.condition(alloc, config, names, rest, at + 1) {
        Ok(condition) => {
            let claim = Claim {
                claiming,
                condition,
            };
            match add_with_literals(alloc, config, names, reading, line, words, rest, claim) {
                Ok(()) => Ok(()),
                Err(_) => Err(RaceStop::Memory),
            }
        }
        Err(stop) => Err(stop),
    }
}
