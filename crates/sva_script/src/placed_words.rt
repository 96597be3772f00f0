//! Words at their places: each name is the number that it stands for.

ghost use Rattle.std.specs.Prelude.{◌≡◌, ℕ, ◌==◌, ◌+◌, ◌<◌, ◌^◌, List, [], length, map};
ghost use Rattle.sva_script.specs.Names.{Known};
ghost use Rattle.sva_script.specs.Pieces.{PutsRead, spaced};
ghost use Rattle.std.specs.List.{slice_split};
ghost use Rattle.sva_grammar.specs.Grammar.{number};
ghost use Rattle.sva_script.specs.Numbers.{with_itag};
ghost use Rattle.sva_script.specs.Resolve.{ended, is_plain, itag_added, itags_in, named_by, named_in, plain_rest, plain_word, with_item, with_items};
ghost use Rattle.sva_script.specs.Resolve.{with_named};

use crate::faults::{Stop, Wanted, Wrong, at_word};
use crate::given::Given;
use crate::names::{Names, begins_name, name_and_nth, number_at};
use crate::numbers::{list_in, page_in, with_itag};
use crate::places::Field;
use crate::splitting::first_part;
use crate::texts::{put, put_number, put_space, put_vector};
use sva_grammar::{access_in, flags_in, group_in, last_in, number_in, vector_in, verdict_in};

/// Appends the words behind a step's name, each at its place, a space before each. `at` is where they begin in the line. What
/// `plain` has behind an `Err` isn't said.
#[tactic(auto, unfolding(crate::specs::Resolve::plain_rest))]
pub fn put_places(
    names: &Names,
    places: &[Field],
    words: &[&[u8]],
    at: usize,
    plain: &mut Vec<u8>,
) -> Result<(), Stop>
    requires { at + length words.now < 2 ^ 64 }
    ensures { PutsRead (plain_rest at names.now places.now (map (λ word. word.now) words.now)) plain.old.items plain.new.items result }
{
    match places {
        [] => end_words(words, at),
        [place, places @ ..] => match words {
            [] => end_line(*place, at),
            [word, words @ ..] => match put_spaced(names, *place, word, at, plain) {
                Ok(()) => put_places(names, places, words, at + 1, plain),
                Err(stop) => Err(stop),
            },
        },
    }
}

/// The end of a line that has a word for each place.
#[tactic(auto, unfolding(crate::specs::Resolve::plain_rest))]
fn end_words(words: &[&[u8]], at: usize) -> Result<(), Stop>
    ensures { (known : Known) (text : List ℕ) → PutsRead (plain_rest at known [] (map (λ word. word.now) words.now)) text text result }
{
    match words {
        [] => Ok(()),
        _ => Err(Stop::Wrong(at_word(at, Wanted::NoMore))),
    }
}

/// The end of a line that has no word for this place.
fn end_line(place: Field, at: usize) -> Result<(), Stop>
    ensures { (text : List ℕ) → PutsRead (ended at place) text text result }
{
    match place {
        Field::MaybeCount => Ok(()),
        _ => Err(Stop::Wrong(at_word(at, Wanted::Field(place)))),
    }
}

/// Appends a space, and the word at a place.
fn put_spaced(
    names: &Names,
    place: Field,
    word: &[u8],
    at: usize,
    plain: &mut Vec<u8>,
) -> Result<(), Stop>
    ensures { PutsRead (spaced (plain_word at names.now place word.now)) plain.old.items plain.new.items result }
{
    match put_space(plain) {
        Ok(()) => put_word(names, place, word, at, plain),
        Err(stop) => Err(stop),
    }
}

/// Appends the word at a place, as a scenario has it.
fn put_word(
    names: &Names,
    place: Field,
    word: &[u8],
    at: usize,
    plain: &mut Vec<u8>,
) -> Result<(), Stop>
    ensures { PutsRead (plain_word at names.now place word.now) plain.old.items plain.new.items result }
{
    if is_plain(place, word) {
        return put(plain, word);
    }
    match place {
        Field::Page => match page_in(word) {
            Some(page) => put_number(plain, page),
            None => Err(Stop::Wrong(at_word(at, Wanted::Field(place)))),
        },
        Field::Itags => {
            let vector = itags_in(names, word, at).map_err(Stop::Wrong)?;
            put_vector(plain, vector)
        }
        Field::Space
        | Field::Binding
        | Field::Pasid
        | Field::Frame
        | Field::Slot
        | Field::Group
        | Field::Message => {
            let number = named_in(names, place, word, at).map_err(Stop::Wrong)?;
            put_number(plain, number)
        }
        _ => Err(Stop::Wrong(at_word(at, Wanted::Field(place)))),
    }
}

/// Is the word one that a scenario has at the place?
fn is_plain(place: Field, word: &[u8]) -> bool
    ensures { result ≡ is_plain place word.now }
{
    match place {
        Field::Access => access_in(word).is_ok(),
        Field::Flags => flags_in(word).is_ok(),
        Field::Last => last_in(word).is_ok(),
        Field::Verdict => verdict_in(word).is_ok(),
        Field::Group => group_in(word).is_ok(),
        Field::Itags => vector_in(word).is_ok(),
        _ => number_in(word).is_ok(),
    }
}

/// The number that a word stands for at a place, as a name.
pub(crate) fn named_in(names: &Names, place: Field, word: &[u8], at: usize) -> Result<u64, Wrong>
    ensures { result ≡ named_in at names.now place word.now }
{
    match name_and_nth(word) {
        None => Err(at_word(at, Wanted::Field(place))),
        Some((name, nth)) => named_by(names.get(name), place, nth, at),
    }
}

/// The number that a line has at a place, of several the nth.
fn named_by(given: Option<Given>, place: Field, nth: u64, at: usize) -> Result<u64, Wrong>
    ensures { result ≡ named_by at place nth given }
{
    match given {
        None => Err(at_word(at, Wanted::Field(place))),
        Some(given) => match number_at(place, &given, nth) {
            None => Err(at_word(at, Wanted::Number(place))),
            Some(number) => Ok(number),
        },
    }
}

/// The vector that a name or a list in braces writes.
fn itags_in(names: &Names, word: &[u8], at: usize) -> Result<u32, Wrong>
    ensures { result ≡ itags_in at names.now word.now }
{
    match list_in(word) {
        None => with_named(names, 0, word, at),
        Some(list) => with_items(names, list, at),
    }
}

/// The vector of a list's items.
fn with_items(names: &Names, list: &[u8], at: usize) -> Result<u32, Wrong>
    ensures { result ≡ with_items at names.now 0 (slice_split (λ byte. byte == 44) list.now) }
{
    let mut vector = 0;
    let mut rest = list;
    while let Some((item, more)) = first_part(rest, b',') {
        vector = match with_item(names, vector, item, at) {
            Ok(vector) => vector,
            Err(wrong) => return Err(wrong),
        };
        rest = more;
    }
    with_item(names, vector, rest, at)
}

/// The vector with an item of a list more: the number of an ITag, or a name.
fn with_item(names: &Names, vector: u32, item: &[u8], at: usize) -> Result<u32, Wrong>
    ensures { result ≡ with_item at names.now vector item.now (number item.now) }
{
    match number_in(item) {
        Ok(itag) => itag_added(vector, itag, at),
        Err(_) => with_named(names, vector, item, at),
    }
}

/// The vector with the ITag more that a name stands for.
fn with_named(names: &Names, vector: u32, name: &[u8], at: usize) -> Result<u32, Wrong>
    ensures { result ≡ with_named at names.now vector name.now }
{
    if begins_name(name) {
        match named_in(names, Field::Itags, name, at) {
            Ok(itag) => itag_added(vector, itag, at),
            Err(wrong) => Err(wrong),
        }
    } else {
        Err(at_word(at, Wanted::Field(Field::Itags)))
    }
}

/// The vector with an ITag more.
fn itag_added(vector: u32, itag: u64, at: usize) -> Result<u32, Wrong>
    ensures { result ≡ itag_added at (with_itag vector itag) }
{
    match with_itag(vector, itag) {
        Some(more) => Ok(more),
        None => Err(at_word(at, Wanted::Field(Field::Itags))),
    }
}
