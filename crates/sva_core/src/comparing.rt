//! Tells entries of a journal apart.

ghost use Rattle.std.specs.Prelude.{◌≡◌, ◌≢◌, true, false};

use crate::journal::Entry;
use sva_step::{Answer, Refusal, Step};

/// Tells that two entries are the same.
pub(crate) fn is_same_entry(one: &Entry, other: &Entry) -> bool
    ensures yes { result ≡ true → one.now ≡ other.now }
    ensures no { result ≡ false → one.now ≢ other.now }
{
    one.port == other.port
        && is_same_step(&one.step, &other.step)
        && is_same_answer(&one.answer, &other.answer)
}

/// Tells that two steps are the same.
fn is_same_step(one: &Step, other: &Step) -> bool
    ensures yes { result ≡ true → one.now ≡ other.now }
    ensures no { result ≡ false → one.now ≢ other.now }
{
    one == other
}

/// Tells that two answers are the same.
fn is_same_answer(one: &Result<Answer, Refusal>, other: &Result<Answer, Refusal>) -> bool
    ensures yes { result ≡ true → one.now ≡ other.now }
    ensures no { result ≡ false → one.now ≢ other.now }
{
    match (one, other) {
        (Ok(one), Ok(other)) => is_answer(one, other),
        (Err(one), Err(other)) => one == other,
        _ => false,
    }
}

/// Tells that two answers of accepted steps are the same.
fn is_answer(one: &Answer, other: &Answer) -> bool
    ensures yes { result ≡ true → one.now ≡ other.now }
    ensures no { result ≡ false → one.now ≢ other.now }
{
    one == other
}
