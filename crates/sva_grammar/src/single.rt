//! One line by itself.

ghost use Rattle.std.specs.Prelude.{◌≡◌};
ghost use Rattle.sva_grammar.specs.Grammar.{config_read, step_read};

use crate::faults::Cause;
use crate::forms::config_in;
use crate::letters::step_in;
use crate::words::Words;
use sva_step::{Config, Step};

/// The step that a line writes, or why it writes none. A text with an LF in it is `BadWord`.
pub fn step(line: &[u8]) -> Result<Step, Cause>
    ensures { result ≡ step_read line.now }
{
    let mut words = Words::new();
    let len = words.take_first(line);
    if len < line.len() {
        return Err(Cause::BadWord);
    }
    step_in(&words)
}

/// The config that a line writes, or why it writes none. A text with an LF in it is `BadWord`.
pub fn config(line: &[u8]) -> Result<Config, Cause>
    ensures { result ≡ config_read line.now }
{
    let mut words = Words::new();
    let len = words.take_first(line);
    if len < line.len() {
        return Err(Cause::BadWord);
    }
    config_in(&words)
}
