//! The reading of a whole text: its config and its steps.

ghost use Rattle.std.specs.Prelude.{◌≡◌, ◌≢◌, ◌≤◌, Err, length};
ghost use Rattle.sva_grammar.specs.Grammar.{at_line, config_of, lines_of, said_lines, step_of, steps_of, words_of, scenario_of, HasStep, IsStepFirst, Reads};

use crate::faults::{Cause, LineFault, ParseFault};
use crate::forms::config_in;
use crate::letters::step_in;
use crate::lines::{Lines, line_count};
use crate::words::Words;
use std::alloc::Global;
use std::marker::Model;
use sva_step::{Config, Step};

/// The most bytes that a text may have.
const MOST_BYTES: usize = 1_048_576;

/// The most lines that a text may have.
const MOST_LINES: usize = 65_536;

/// What a scenario says: how large the world is, and the steps in their order.
#[derive(Drop)]
pub struct Scenario {
    /// The world's config. Its limits aren't asked here.
    pub config: Config,
    /// The steps, one for each line that isn't skipped, but the first.
    pub steps: Vec<Step>,
}

impl Model for Scenario {
    ghost use Rattle.sva_grammar.specs.Grammar.{Script};

    ghost Value = { Script };

    ghost view = { λ s. record { config = s.config; steps = s.steps.items } };
}

/// The scenario that a text writes. `Line` is the text's first fault. `Memory` comes where a growth is refused; the
/// contract says that the text isn't too large then, and begins with a config and a step.
#[tactic(auto, unfolding(crate::specs::Grammar::scenario_of))]
pub fn parse(alloc: Global, text: &[u8]) -> Result<Scenario, ParseFault>
    ensures read { Reads (λ s. s) result (scenario_of text.now) }
    ensures memory { result ≡ Err ParseFault.Memory → (length text.now ≤ 1048576) × (length (lines_of text.now) ≤ 65536) }
    ensures step { result ≡ Err ParseFault.Memory → HasStep (said_lines 1 (lines_of text.now)) }
{
    let count = line_count(text);
    if text.len() > MOST_BYTES || count > MOST_LINES {
        return Err(fault(0, Cause::TooLarge));
    }
    let mut lines = Lines::new(text);
    let mut words = Words::new();
    let Some(number) = lines.next(&mut words) else {
        return Err(fault(count as u64 + 1, Cause::NoConfig));
    };
    let config = config_at(number, &words)?;
    let steps = steps_in(alloc, lines, words)?;
    Ok(Scenario { config, steps })
}

/// The steps that the lines write, one a line. Each line takes the place of the words.
fn steps_in<'a>(
    alloc: Global,
    mut lines: Lines<'a>,
    mut words: Words<'a>,
) -> Result<Vec<Step>, ParseFault>
    ensures read { Reads (λ steps. steps.items) result (steps_of lines.entry) }
    ensures first { result ≡ Err ParseFault.Memory → IsStepFirst lines.entry }
{
    let mut steps = Vec::new(alloc);
    while let Some(number) = lines.next(&mut words) {
        let step = step_at(number, &words)?;
        if steps.push(step).is_err() {
            return Err(ParseFault::Memory);
        }
    }
    Ok(steps)
}

/// The config that a line writes.
fn config_at(number: u64, words: &Words<'_>) -> Result<Config, ParseFault>
    ensures read { Reads (λ config. config) result (at_line number (config_of (words_of words.now))) }
    ensures memory { result ≢ Err ParseFault.Memory }
{
    match config_in(words) {
        Ok(config) => Ok(config),
        Err(cause) => Err(fault(number, cause)),
    }
}

/// The step that a line writes.
fn step_at(number: u64, words: &Words<'_>) -> Result<Step, ParseFault>
    ensures read { Reads (λ step. step) result (at_line number (step_of (words_of words.now))) }
    ensures memory { result ≢ Err ParseFault.Memory }
{
    match step_in(words) {
        Ok(step) => Ok(step),
        Err(cause) => Err(fault(number, cause)),
    }
}

/// A fault of a line.
fn fault(line: u64, cause: Cause) -> ParseFault
    ensures { result ≡ ParseFault.Line (record { line = line; cause = cause }) }
{
    ParseFault::Line(LineFault { line, cause })
}
