//! The words of the format, which can't be names.

ghost use Rattle.std.specs.Prelude.{◌≡◌, map, option_map};
ghost use Rattle.std.specs.List.{list_any};
ghost use Rattle.std.specs.Str.{bytes_eq};
ghost use Rattle.sva_script.specs.Near.{near_among};
ghost use Rattle.sva_script.specs.Reserved.{answer_words, first_words, is_among, is_answer_word, is_kind, is_refusal, is_reserved};
ghost use Rattle.sva_script.specs.Reserved.{kind_words, other_words, refusal_names, step_names};

use crate::equal::is;
use crate::nearest::is_near;

/// The words that begin a line.
const FIRST_WORDS: [&[u8]; 29] = [
    b"config", b"space", b"drop", b"map", b"unmap", b"unmapr", b"look", b"bearer", b"bind",
    b"unbind", b"advance", b"pump", b"serve", b"reset", b"take", b"answer", b"ask", b"use", b"end",
    b"evict", b"fault", b"finish", b"quit", b"deliver", b"race", b"thread", b"try", b"device",
    b"workers",
];

/// The words of the answers beside those, and of the counts.
const ANSWER_WORDS: [&[u8]; 45] = [
    b"gone",
    b"frame",
    b"free",
    b"withheld",
    b"range",
    b"binding",
    b"pasid",
    b"stopping",
    b"draining",
    b"invalidating",
    b"quiet",
    b"released",
    b"idle",
    b"itag",
    b"blocked",
    b"wait",
    b"done",
    b"empty",
    b"part",
    b"job",
    b"group",
    b"pages",
    b"resetting",
    b"success",
    b"invalid",
    b"failure",
    b"dropped",
    b"tag",
    b"ended",
    b"dead",
    b"evicted",
    b"sent",
    b"marker",
    b"mapped",
    b"started",
    b"full",
    b"held",
    b"taken",
    b"answered",
    b"stale",
    b"completion",
    b"freed",
    b"queued",
    b"marked",
    b"none",
];

/// The other words of the format: those of a place, and the kinds of message.
const OTHER_WORDS: [&[u8]; 28] = [
    b"r",
    b"w",
    b"rw",
    b"new",
    b"more",
    b"last",
    b"next",
    b"start",
    b"stop",
    b"invalidate",
    b"response",
    b"request",
    b"invalidated",
    b"page-request",
    b"reset-done",
    b"bindings",
    b"refused",
    b"never",
    b"always",
    b"sometimes",
    b"ends",
    b"or",
    b"and",
    b"not",
    b"is",
    b"times",
    b"usable",
    b"silent",
];

/// The names of the refusals.
const REFUSAL_NAMES: [&[u8]; 43] = [
    b"BadConfig",
    b"NoSuchEndpoint",
    b"NoSuchSpace",
    b"TooManySpaces",
    b"PageRange",
    b"Mapped",
    b"NotMapped",
    b"NoFrame",
    b"SpaceFull",
    b"AlreadyBound",
    b"NoPasid",
    b"StillBound",
    b"NoSuchBinding",
    b"NotLive",
    b"NotYet",
    b"QueueFull",
    b"Resetting",
    b"BadOrder",
    b"NotAligned",
    b"NothingMapped",
    b"BadPasid",
    b"NotStarted",
    b"NoTag",
    b"NotHeld",
    b"ReadOnly",
    b"NoUseSlot",
    b"NoSuchUse",
    b"NoCredit",
    b"NoSuchGroup",
    b"PriDisabled",
    b"NotPending",
    b"InUse",
    b"BadCount",
    b"NotStopping",
    b"Busy",
    b"NoSuchMessage",
    b"Overtakes",
    b"NoSuchWorker",
    b"HandsFull",
    b"NoJob",
    b"BadVerdict",
    b"NumbersSpent",
    b"OutOfMemory",
];

/// The words for kinds of message.
const KINDS: [&[u8]; 11] = [
    b"start",
    b"stop",
    b"reset",
    b"completion",
    b"invalidate",
    b"response",
    b"request",
    b"invalidated",
    b"page-request",
    b"marker",
    b"reset-done",
];

/// Is it one of these words?
fn is_among(words: &[&[u8]], word: &[u8]) -> bool
    ensures { result ≡ list_any (λ reserved. bytes_eq reserved.now word.now) words.now }
{
    words.iter().any(|reserved| is(reserved, word))
}

/// Does a line of a script, or of what is asked of one, begin with this word?
fn is_first_word(word: &[u8]) -> bool
    ensures { result ≡ is_among first_words word.now }
{
    is_among(&FIRST_WORDS, word)
}

/// Is it a word of the answers that begins no line?
fn is_of_answers(word: &[u8]) -> bool
    ensures { result ≡ is_among answer_words word.now }
{
    is_among(&ANSWER_WORDS, word)
}

/// Is it one of the other words of the format?
fn is_other_word(word: &[u8]) -> bool
    ensures { result ≡ is_among other_words word.now }
{
    is_among(&OTHER_WORDS, word)
}

/// Is it the name of a refusal?
pub fn is_refusal(word: &[u8]) -> bool
    ensures { result ≡ is_refusal word.now }
{
    is_among(&REFUSAL_NAMES, word)
}

/// Is it the word for a kind of message?
pub fn is_kind(word: &[u8]) -> bool
    ensures { result ≡ is_kind word.now }
{
    is_among(&KINDS, word)
}

/// Is it a word of an answer, or of the counts?
pub fn is_answer_word(word: &[u8]) -> bool
    ensures { result ≡ is_answer_word word.now }
{
    is_of_answers(word)
        || is(word, b"space")
        || is(word, b"reset")
        || is(word, b"use")
        || is(word, b"bearer")
        || is(word, b"bindings")
        || is(word, b"refused")
}

/// Is it a word of the format?
pub fn is_reserved(word: &[u8]) -> bool
    ensures { result ≡ is_reserved word.now }
{
    is_first_word(word) || is_of_answers(word) || is_other_word(word)
}

/// The name of a step that is near to a word, the first such; `None` where none is.
pub fn near_step(word: &[u8]) -> Option<&'static [u8]>
    ensures { option_map (λ near. near.now) result ≡ near_among step_names word.now }
{
    near(&FIRST_WORDS[1..24], word)
}

/// The word of an answer that is near to a word, the first such; `None` where none is.
pub fn near_answer_word(word: &[u8]) -> Option<&'static [u8]>
    ensures { option_map (λ near. near.now) result ≡ near_among answer_words word.now }
{
    near(&ANSWER_WORDS, word)
}

/// The word for a kind of message that is near to a word, the first such; `None` where none is.
pub fn near_kind(word: &[u8]) -> Option<&'static [u8]>
    ensures { option_map (λ near. near.now) result ≡ near_among kind_words word.now }
{
    near(&KINDS, word)
}

/// The name of a refusal that is near to a word, the first such; `None` where none is.
pub fn near_refusal(word: &[u8]) -> Option<&'static [u8]>
    ensures { option_map (λ near. near.now) result ≡ near_among refusal_names word.now }
{
    near(&REFUSAL_NAMES, word)
}

/// The first of some words that is near to a word.
fn near(words: &[&'static [u8]], word: &[u8]) -> Option<&'static [u8]>
    ensures { option_map (λ near. near.now) result ≡ near_among (map (λ reserved. reserved.now) words.now) word.now }
{
    for reserved in words {
        if is_near(reserved, word) {
            return Some(*reserved);
        }
    }
    None
}
