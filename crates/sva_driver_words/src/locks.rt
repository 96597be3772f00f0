//! The lines of locks, and the places of names.

ghost use Rattle.std.specs.Prelude.{◌≡◌, map, position};
ghost use Rattle.std.specs.Str.{bytes_eq};
ghost use Rattle.sva_driver_words.specs.Says as says;
ghost use Rattle.sva_driver_words.specs.Sayings.{read_seen, saying_seen};

use crate::faults::{DriverWanted, DriverWrong, judge_end, wrong_at};
use sva_open::Saying;
use sva_race_texts::word_at;
use sva_script::{is, is_name};

fn position_of(names: &[Vec<u8>], name: &[u8]) -> Option<usize>
    ensures { result ≡ position (λ own. bytes_eq own.items name.now) names.now }
{
    names.iter().position(|own| is(own.as_slice(), name))
}

/// The place of a lock or of a flag among the names so far, or that of a new one.
pub(crate) fn place_in(names: &[Vec<u8>], name: &[u8]) -> usize
    ensures { result ≡ says.place_in (map (λ own. own.items) names.now) name.now }
{
    match position_of(names, name) {
        Some(place) => place,
        None => names.len(),
    }
}

fn lock_said(word: &[u8], lock: usize) -> Saying
    ensures { saying_seen result ≡ says.lock_said word.now lock }
{
    if is(word, b"lock") {
        return Saying::Locks { lock };
    }
    Saying::Unlocks { lock }
}

/// Reads `lock L` and `unlock L`.
pub(crate) fn lock_line(locks: &[Vec<u8>], words: &[&[u8]]) -> Result<Saying, DriverWrong>
    ensures { read_seen result ≡ says.lock_line (map (λ lock. lock.items) locks.now)
        (map (λ word. word.now) words.now) }
{
    if !is_name(word_at(words, 1)) {
        return Err(wrong_at(1, DriverWanted::Lock));
    }
    judge_end(words, 2)?;
    Ok(lock_said(word_at(words, 0), place_in(locks, word_at(words, 1))))
}
