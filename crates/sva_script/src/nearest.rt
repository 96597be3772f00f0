//! Which word a wrong one is near to.

ghost use Rattle.std.specs.Prelude.{◌≡◌, ◌<◌, drop, length};
ghost use Rattle.sva_script.specs.Near.{begin_alike, end_alike, is_changed, is_near, is_one_off, is_swapped};

use crate::equal::is;

/// Is one of two words made of the other by one letter more, less or another, or by two neighbours that change places? Words
/// that have neither their first letter nor their last in common aren't near.
pub fn is_near(word: &[u8], other: &[u8]) -> bool
    ensures { result ≡ is_near word.now other.now }
{
    (begin_alike(word, other) || end_alike(word, other)) && is_one_off(word, other)
}

/// Have two words their first letter in common?
fn begin_alike(word: &[u8], other: &[u8]) -> bool
    ensures { result ≡ begin_alike word.now other.now }
{
    !word.is_empty() && !other.is_empty() && word[0] == other[0]
}

/// Have they their last in common?
fn end_alike(word: &[u8], other: &[u8]) -> bool
    ensures { result ≡ end_alike word.now other.now }
{
    !word.is_empty() && !other.is_empty() && word[word.len() - 1] == other[other.len() - 1]
}

/// Do two words differ by one letter more, less or another, or by two neighbours that change places?
fn is_one_off(word: &[u8], other: &[u8]) -> bool
    ensures { result ≡ is_one_off word.now other.now }
{
    let mut rest = word;
    let mut other_rest = other;
    while !rest.is_empty() && !other_rest.is_empty() {
        if rest[0] != other_rest[0] {
            return is_changed(rest, other_rest);
        }
        rest = behind_first(rest);
        other_rest = behind_first(other_rest);
    }
    if rest.is_empty() {
        other_rest.len() == 1
    } else {
        rest.len() == 1
    }
}

/// A word without its first letter.
fn behind_first(word: &[u8]) -> &[u8]
    requires { 0 < length word.now }
    ensures { result.now ≡ drop 1 word.now }
{
    &word[1..]
}

/// Do words that begin with different letters differ there alone?
fn is_changed(word: &[u8], other: &[u8]) -> bool
    requires word { 0 < length word.now }
    requires other { 0 < length other.now }
    ensures { result ≡ is_changed word.now other.now }
{
    let rest = behind_first(word);
    let other_rest = behind_first(other);
    is(rest, other_rest) || is(rest, other) || is(word, other_rest) || is_swapped(word, other)
}

/// Do the words differ in their first two letters alone, which have changed places?
fn is_swapped(word: &[u8], other: &[u8]) -> bool
    ensures { result ≡ is_swapped word.now other.now }
{
    word.len() > 1
        && other.len() > 1
        && word[0] == other[1]
        && word[1] == other[0]
        && is(behind_two(word), behind_two(other))
}

/// A word without its first two letters.
fn behind_two(word: &[u8]) -> &[u8]
    requires { 1 < length word.now }
    ensures { result.now ≡ drop 2 word.now }
{
    &word[2..]
}
