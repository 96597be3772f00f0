//! The lines that turn something on or off at an endpoint.

ghost use Rattle.std.specs.Prelude.{◌≡◌, map};
ghost use Rattle.sva_driver_words.specs.Controls as controls;
ghost use Rattle.sva_driver_words.specs.Sayings.{read_seen};

use crate::faults::{DriverWrong, judge_end};
use crate::fields::{endpoint_at, on_at};
use sva_open::{Act, Control, LocalAct, Saying};
use sva_race_texts::word_at;
use sva_script::is;
use sva_step::Config;

/// Whether a word begins such a line.
pub(crate) fn turns(word: &[u8]) -> bool
    ensures { result ≡ controls.turns word.now }
{
    is(word, b"ats") || is(word, b"pri") || is(word, b"mastering")
}

/// What it turns on or off.
fn control_of(word: &[u8]) -> Control
    ensures { result ≡ controls.control_of word.now }
{
    if is(word, b"ats") {
        return Control::Ats;
    }
    if is(word, b"pri") {
        return Control::PageRequests;
    }
    Control::Mastering
}

/// Reads `ats E on`, `pri E on` and `mastering E on`, and the same with `off`.
pub(crate) fn turn_line(config: &Config, words: &[&[u8]]) -> Result<Saying, DriverWrong>
    ensures { read_seen result ≡ controls.turn_line config.now (map (λ word. word.now) words.now) }
{
    let endpoint = endpoint_at(config, words, 1)?;
    let on = on_at(words, 2)?;
    judge_end(words, 3)?;
    let control = control_of(word_at(words, 0));
    Ok(Saying::Does {
        act: Act::At {
            endpoint,
            act: LocalAct::Turn { control, on },
        },
    })
}
