//! The names of definitions and threads, and the parameters of definitions.

ghost use Rattle.std.specs.Prelude.{◌≡◌, drop, map};
ghost use Rattle.std.specs.List.{list_all, list_any};
ghost use Rattle.std.specs.Str.{bytes_eq};
ghost use Rattle.sva_driver_texts.specs.WrittenOut as writes;

use sva_script::is;

/// Whether a byte is a letter, a digit, `-` or `_`.
fn is_title_byte(byte: u8) -> bool
    ensures { result ≡ writes.is_title_byte byte }
{
    byte.is_ascii_alphanumeric() || byte == b'-' || byte == b'_'
}

/// Whether all bytes are such.
fn are_title_bytes(word: &[u8]) -> bool
    ensures { result ≡ list_all writes.is_title_byte word.now }
{
    word.iter().all(|byte| is_title_byte(*byte))
}

/// Whether a word is the name of a definition or of a thread: a letter, then letters, digits, `-` and `_`. It may be a
/// word of the format.
pub(crate) fn is_title(word: &[u8]) -> bool
    ensures { result ≡ writes.is_title word.now }
{
    match word {
        [] => false,
        [first, rest @ ..] => first.is_ascii_alphabetic() && are_title_bytes(rest),
    }
}

/// Whether a word begins as parameters do.
pub(crate) fn begins_parameter(word: &[u8]) -> bool
    ensures { result ≡ writes.begins_parameter word.now }
{
    match word {
        [] => false,
        [first, ..] => *first == b'$',
    }
}

/// A word without its first byte.
fn behind_first(word: &[u8]) -> &[u8]
    ensures { result.now ≡ drop 1 word.now }
{
    match word {
        [] => word,
        [_, rest @ ..] => rest,
    }
}

/// Whether a word is a parameter: `$`, and a name behind it.
pub(crate) fn is_parameter(word: &[u8]) -> bool
    ensures { result ≡ writes.is_parameter word.now }
{
    begins_parameter(word) && is_title(behind_first(word))
}

/// Whether it is one of these words.
pub(crate) fn is_among(words: &[&[u8]], word: &[u8]) -> bool
    ensures { result ≡ writes.is_among (map (λ own. own.now) words.now) word.now }
{
    let found = is_lent_among(words, word);
    found
}

/// Whether it is one of these words, as they are lent.
fn is_lent_among(words: &[&[u8]], word: &[u8]) -> bool
    ensures { result ≡ list_any (λ own. bytes_eq own.now word.now) words.now }
{
    words.iter().any(|own| is(own, word))
}
