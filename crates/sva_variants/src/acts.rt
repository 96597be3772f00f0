//! Which lines of a driver keep others off, and what goes with one that is left out.

ghost use Rattle.std.specs.Prelude.{◌≡◌, map};
ghost use Rattle.sva_script.specs.Lines as lines;
ghost use Rattle.sva_variants.specs.Acts as acts;

use sva_script::{is, parts_of};

/// The words of a line behind its name.
pub(crate) fn act_in<'w, 'a>(words: &'w [&'a [u8]]) -> &'w [&'a [u8]]
    ensures { map (λ word. word.now) result.now ≡ (lines.parts_of (map (λ word. word.now) words.now)).step }
{
    parts_of(words).step
}

/// Whether a word is that of an act that keeps others off, or waits for them.
fn is_waiting_word(word: &[u8]) -> bool
    ensures { result ≡ acts.is_waiting_word word.now }
{
    is(word, b"await")
        || is(word, b"submit")
        || is(word, b"stop")
        || is(word, b"reset")
        || is(word, b"barrier")
        || is(word, b"close")
        || is(word, b"skip")
        || is(word, b"resume")
}

/// Whether it is that of another.
fn is_other_word(word: &[u8]) -> bool
    ensures { result ≡ acts.is_other_word word.now }
{
    is(word, b"serve")
        || is(word, b"respond")
        || is(word, b"discard")
        || is(word, b"set")
        || is(word, b"clear")
        || is(word, b"call")
}

/// Whether it is that of what may be turned off.
fn is_switch(word: &[u8]) -> bool
    ensures { result ≡ acts.is_switch word.now }
{
    is(word, b"ats") || is(word, b"pri") || is(word, b"mastering")
}

/// Whether it is that of what may lead nowhere.
fn is_leading(word: &[u8]) -> bool
    ensures { result ≡ acts.is_leading word.now }
{
    is(word, b"pte") || is(word, b"entry")
}

/// Whether the words behind an act's first take something away: it is turned off, leads nowhere, or may be read alone.
fn takes_away(first: &[u8], words: &[&[u8]]) -> bool
    ensures { result ≡ acts.takes_away first.now (map (λ word. word.now) words.now) }
{
    match words {
        [_, off] => is_switch(first) && is(off, b"off"),
        [_, _, none] => is_leading(first) && is(none, b"none"),
        [_, _, _, read] => is(first, b"pte") && is(read, b"r"),
        _ => false,
    }
}

/// Whether an act keeps others off: it is left out.
pub(crate) fn is_guard(act: &[&[u8]]) -> bool
    ensures { result ≡ acts.is_guard (map (λ word. word.now) act.now) }
{
    match act {
        [] => false,
        [first, words @ ..] => {
            is_waiting_word(first) || is_other_word(first) || takes_away(first, words)
        }
    }
}

/// Whether one of some words is `wait`.
fn has_wait(words: &[&[u8]]) -> bool
    ensures { result ≡ acts.has_wait (map (λ word. word.now) words.now) }
{
    has_lent_wait(words)
}

/// The same, of words as they are lent.
fn has_lent_wait(words: &[&[u8]]) -> bool
    ensures { result ≡ acts.has_lent_wait words.now }
{
    words.iter().any(|word| is(word, b"wait"))
}

/// Whether an act awaits the stop of these words.
fn is_stop_awaited(rest: &[&[u8]], other: &[&[u8]]) -> bool
    ensures { result ≡ acts.is_stop_awaited (map (λ word. word.now) rest.now) (map (λ word. word.now) other.now) }
{
    match rest {
        [endpoint, pasid] => awaits_stop(endpoint, pasid, other),
        _ => false,
    }
}

/// Whether two words are these.
fn are(word: &[u8], wanted: &[u8], next: &[u8], other: &[u8]) -> bool
    ensures { result ≡ acts.are word.now wanted.now next.now other.now }
{
    is(word, wanted) && is(next, other)
}

/// Whether an act awaits a stop.
fn awaits_stop(endpoint: &[u8], pasid: &[u8], other: &[&[u8]]) -> bool
    ensures { result ≡ acts.awaits_stop endpoint.now pasid.now (map (λ word. word.now) other.now) }
{
    match other {
        [word, what, at, of] => {
            are(word, b"await", what, b"stopped") && are(at, endpoint, of, pasid)
        }
        _ => false,
    }
}

/// Whether an act is the stop of these words once more.
fn is_stop_again(rest: &[&[u8]], other: &[&[u8]]) -> bool
    ensures { result ≡ acts.is_stop_again (map (λ word. word.now) rest.now) (map (λ word. word.now) other.now) }
{
    match rest {
        [endpoint, pasid] => stops(endpoint, pasid, other),
        _ => false,
    }
}

/// Whether an act is a stop.
fn stops(endpoint: &[u8], pasid: &[u8], other: &[&[u8]]) -> bool
    ensures { result ≡ acts.stops endpoint.now pasid.now (map (λ word. word.now) other.now) }
{
    match other {
        [word, at, of] => is(word, b"stop") && are(at, endpoint, of, pasid),
        _ => false,
    }
}

/// Whether an act awaits the wait of the submit of these words.
fn is_wait_awaited(rest: &[&[u8]], other: &[&[u8]]) -> bool
    ensures { result ≡ acts.is_wait_awaited (map (λ word. word.now) rest.now) (map (λ word. word.now) other.now) }
{
    match rest {
        [] => false,
        [endpoint, descriptors @ ..] => has_wait(descriptors) && awaits_wait(endpoint, other),
    }
}

/// Whether an act awaits a wait.
fn awaits_wait(endpoint: &[u8], other: &[&[u8]]) -> bool
    ensures { result ≡ acts.awaits_wait endpoint.now (map (λ word. word.now) other.now) }
{
    match other {
        [word, what, at] => are(word, b"await", what, b"wait") && is(at, endpoint),
        _ => false,
    }
}

/// Whether an act submits a wait at the endpoint of these words.
fn is_submit_again(rest: &[&[u8]], other: &[&[u8]]) -> bool
    ensures { result ≡ acts.is_submit_again (map (λ word. word.now) rest.now) (map (λ word. word.now) other.now) }
{
    match rest {
        [] => false,
        [endpoint, ..] => submits(endpoint, other),
    }
}

/// Whether an act submits a wait.
fn submits(endpoint: &[u8], other: &[&[u8]]) -> bool
    ensures { result ≡ acts.submits endpoint.now (map (λ word. word.now) other.now) }
{
    match other {
        [word, at, descriptors @ ..] => {
            are(word, b"submit", at, endpoint) && has_wait(descriptors)
        }
        _ => false,
    }
}

/// Whether an act has this word, and is at the endpoint that stands alone.
fn is_at_same(word: &[u8], rest: &[&[u8]], other: &[&[u8]]) -> bool
    ensures { result ≡ acts.is_at_same word.now (map (λ word. word.now) rest.now) (map (λ word. word.now) other.now) }
{
    match rest {
        [endpoint] => is_at(word, endpoint, other),
        _ => false,
    }
}

/// Whether an act has this word, and is at this endpoint.
fn is_at(word: &[u8], endpoint: &[u8], other: &[&[u8]]) -> bool
    ensures { result ≡ acts.is_at word.now endpoint.now (map (λ word. word.now) other.now) }
{
    match other {
        [own, at] => is(own, word) && is(at, endpoint),
        _ => false,
    }
}

/// Whether another act goes with a first one that is left out: it awaits a stop or a wait, or opens what was closed.
pub(crate) fn goes_with(first: &[&[u8]], other: &[&[u8]]) -> bool
    ensures { result ≡ acts.goes_with (map (λ word. word.now) first.now) (map (λ word. word.now) other.now) }
{
    match first {
        [] => false,
        [word, rest @ ..] => goes_with_word(word, rest, other),
    }
}

/// The same, by the word of the first.
fn goes_with_word(word: &[u8], rest: &[&[u8]], other: &[&[u8]]) -> bool
    ensures { result ≡ acts.goes_with_word word.now (map (λ word. word.now) rest.now) (map (λ word. word.now) other.now) }
{
    if is(word, b"stop") {
        is_stop_awaited(rest, other)
    } else if is(word, b"submit") {
        is_wait_awaited(rest, other)
    } else {
        is(word, b"close") && is_at_same(b"open", rest, other)
    }
}

/// Whether another act is the first once more.
fn is_again(first: &[&[u8]], other: &[&[u8]]) -> bool
    ensures { result ≡ acts.is_again (map (λ word. word.now) first.now) (map (λ word. word.now) other.now) }
{
    match first {
        [] => false,
        [word, rest @ ..] => is_word_again(word, rest, other),
    }
}

/// The same, by the word of the first.
fn is_word_again(word: &[u8], rest: &[&[u8]], other: &[&[u8]]) -> bool
    ensures { result ≡ acts.is_word_again word.now (map (λ word. word.now) rest.now) (map (λ word. word.now) other.now) }
{
    if is(word, b"stop") {
        is_stop_again(rest, other)
    } else if is(word, b"submit") {
        is_submit_again(rest, other)
    } else {
        is(word, b"close") && is_at_same(b"close", rest, other)
    }
}

/// Whether a line begins a thread, a definition, or what stands behind `race`.
fn is_heading(act: &[&[u8]]) -> bool
    ensures { result ≡ acts.is_heading (map (λ word. word.now) act.now) }
{
    match act {
        [] => false,
        [word, ..] => is(word, b"thread") || is(word, b"def") || is(word, b"race"),
    }
}

/// Whether nothing goes with the first act behind another.
pub(crate) fn ends(first: &[&[u8]], other: &[&[u8]]) -> bool
    ensures { result ≡ acts.ends (map (λ word. word.now) first.now) (map (λ word. word.now) other.now) }
{
    is_heading(other) || is_again(first, other)
}
