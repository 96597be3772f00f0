//! A line of a script as the line of a scenario.

ghost use Rattle.std.specs.Prelude.{◌≡◌, ◌+◌, ◌<◌, ◌≤◌, ◌^◌, length, map};
ghost use Rattle.sva_grammar.specs.Grammar.{step_read};
ghost use Rattle.sva_script.specs.Pieces.{PutsRead, spaced};
ghost use Rattle.sva_script_reading.specs.Lines.{Resolves, is_by_link, message_by_age, message_by_link, message_of_kind, number_text, plain_of, plain_read};
ghost use Rattle.sva_script_reading.specs.Lines.{resolved};

use crate::in_flight::InFlight;
use sva_grammar::{number_in, step};
use sva_script::{
    Field, Names, Stop, Wanted, Wrong, at_word, is, is_kind, places_of, put, put_number, put_places,
};
use sva_step::Step;

/// The step that a line's words write, with its line of a scenario in `plain`. Names stand for what their lines came to,
/// and messages are looked up among those in flight. `at` is where the words stand in the line. What `plain` has behind an
/// `Err` isn't said.
pub(crate) fn resolve<F: InFlight>(
    names: &Names,
    flights: &F,
    words: &[&[u8]],
    at: usize,
    plain: &mut Vec<u8>,
) -> Result<Step, Stop>
    requires { at + length words.now < 2 ^ 64 }
    ensures { Resolves (resolved at names.now (F.link flights.now) (map (λ word. word.now) words.now))
        plain.new.items result }
{
    plain.clear();
    match put_plain(names, flights, words, at, plain) {
        Ok(()) => read_plain(plain.as_slice(), at),
        Err(stop) => Err(stop),
    }
}

/// The step that a line of a scenario writes.
fn read_plain(plain: &[u8], at: usize) -> Result<Step, Stop>
    ensures { Resolves (plain_read at plain.now (step_read plain.now)) plain.now result }
{
    match step(plain) {
        Ok(step) => Ok(step),
        Err(_) => Err(Stop::Wrong(at_word(at, Wanted::Step))),
    }
}

/// Appends the line of a scenario that a step's words stand for.
fn put_plain<F: InFlight>(
    names: &Names,
    flights: &F,
    words: &[&[u8]],
    at: usize,
    plain: &mut Vec<u8>,
) -> Result<(), Stop>
    requires { at + length words.now < 2 ^ 64 }
    ensures { PutsRead (plain_of at names.now (F.link flights.now) (map (λ word. word.now) words.now))
        plain.old.items plain.new.items result }
{
    match words {
        [] => Err(Stop::Wrong(at_word(at, Wanted::Step))),
        [first, rest @ ..] => match places_of(first) {
            None => Err(Stop::Wrong(at_word(at, Wanted::Step))),
            Some(places) => match put(plain, first) {
                Ok(()) if is_by_link(words) => put_message(flights, words, at + 1, plain),
                Ok(()) => put_places(names, places, rest, at + 1, plain),
                Err(stop) => Err(stop),
            },
        },
    }
}

/// Does a line deliver `next`, `last`, or a message of a kind?
fn is_by_link(words: &[&[u8]]) -> bool
    ensures { result ≡ is_by_link (map (λ word. word.now) words.now) }
{
    match words {
        [step, first, ..] => {
            is(step, b"deliver") && (is(first, b"next") || is(first, b"last") || is_kind(first))
        }
        _ => false,
    }
}

/// Appends a space, and the number of the message that a line delivers.
fn put_message<F: InFlight>(
    flights: &F,
    words: &[&[u8]],
    at: usize,
    plain: &mut Vec<u8>,
) -> Result<(), Stop>
    requires { at + length words.now ≤ 2 ^ 64 }
    ensures { PutsRead (spaced (number_text (message_by_link at (F.link flights.now)
        (map (λ word. word.now) words.now)))) plain.old.items plain.new.items result }
{
    match message_by_link(flights, words, at) {
        Ok(message) => match put(plain, b" ") {
            Ok(()) => put_number(plain, message),
            Err(stop) => Err(stop),
        },
        Err(wrong) => Err(Stop::Wrong(wrong)),
    }
}

/// The number of the message that a line delivers by `next`, by `last`, or by kind and endpoint; the words behind
/// `deliver` begin at `at`.
fn message_by_link<F: InFlight>(flights: &F, words: &[&[u8]], at: usize) -> Result<u64, Wrong>
    requires { at + length words.now ≤ 2 ^ 64 }
    ensures { result ≡ message_by_link at (F.link flights.now) (map (λ word. word.now) words.now) }
{
    match words {
        [_, first, rest @ ..] => {
            if is_kind(first) {
                message_of_kind(flights, first, rest, at + 1)
            } else {
                message_by_age(flights, first, rest, at + 1)
            }
        }
        _ => Err(at_word(at, Wanted::NoMore)),
    }
}

/// The oldest message of a kind at the endpoint that the words behind it give.
fn message_of_kind<F: InFlight>(
    flights: &F,
    kind: &[u8],
    words: &[&[u8]],
    at: usize,
) -> Result<u64, Wrong>
    requires { at + length words.now < 2 ^ 64 }
    ensures { result ≡ message_of_kind at (F.link flights.now) kind.now (map (λ word. word.now) words.now) }
{
    match words {
        [] => Err(at_word(at, Wanted::Field(Field::Endpoint))),
        [endpoint] => match number_in(endpoint) {
            Ok(endpoint) => Ok(flights.oldest_of_kind(kind, endpoint)),
            Err(_) => Err(at_word(at, Wanted::Field(Field::Endpoint))),
        },
        _ => Err(at_word(at + 1, Wanted::NoMore)),
    }
}

/// The oldest message in flight for `next`, and else the newest. No word stands behind.
fn message_by_age<F: InFlight>(
    flights: &F,
    age: &[u8],
    words: &[&[u8]],
    at: usize,
) -> Result<u64, Wrong>
    ensures { result ≡ message_by_age at (F.link flights.now) age.now (map (λ word. word.now) words.now) }
{
    match words {
        [] if is(age, b"next") => Ok(flights.oldest_message()),
        [] => Ok(flights.newest_message()),
        _ => Err(at_word(at, Wanted::NoMore)),
    }
}
