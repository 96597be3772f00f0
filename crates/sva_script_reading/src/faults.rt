//! What is said of a line that is wrong.

ghost use Rattle.std.specs.Prelude.{◌≡◌, ◌++◌, ◌<◌, OnOk, Some, codes, flat_map, map, option_map, slice_get};
ghost use Rattle.sva_script_reading.specs.Faults.{fault_text, given_text, hex_digit, hint_text, name_text, near_text};
ghost use Rattle.sva_script_reading.specs.Faults.{near_wanted, place_text, shown_byte, shown_word, takes_names};
ghost use Rattle.sva_script_reading.specs.Faults.{told_text, wanted_text, word_text};
ghost use Rattle.sva_script_reading.specs.Begins.{fault_of};
ghost use Rattle.sva_script.specs.Names.{name_and_nth};

use crate::writing::{put_number, put_reply};
use std::alloc::AllocError;
use sva_script::{
    Field, Given, Names, Told, Wanted, Wrong, name_and_nth, near_answer_word, near_kind,
    near_refusal, near_step,
};

/// What a place asks for, in words.
fn place_words(place: Field) -> &'static str
    ensures { result.now ≡ place_text place }
{
    match place {
        Field::Endpoint => "an endpoint",
        Field::Worker => "a worker",
        Field::Space => "a space",
        Field::Binding => "a binding",
        Field::Pasid => "a PASID",
        Field::Page => "a page",
        Field::Frame => "a frame",
        Field::Slot => "a use slot",
        Field::Group => "new or a group",
        Field::Itags => "a vector: eight hexadecimal digits, or ITags as {0,3}",
        Field::Itag => "an ITag",
        Field::Tag => "a tag",
        Field::Message => "a message",
        Field::Count | Field::MaybeCount => "a count",
        Field::Order => "an order",
        Field::Access => "r or w",
        Field::Flags => "r, w or rw",
        Field::Last => "more or last",
        Field::Verdict => "success, invalid or failure",
    }
}

/// May a name stand at the place?
fn takes_names(place: Field) -> bool
    ensures { result ≡ takes_names place }
{
    matches!(
        place,
        Field::Space
            | Field::Binding
            | Field::Pasid
            | Field::Frame
            | Field::Slot
            | Field::Group
            | Field::Itags
            | Field::Message
    )
}

/// What was wanted, in words.
pub fn wanted_words(wanted: &Wanted) -> &'static str
    ensures { result.now ≡ wanted_text wanted.now }
{
    match wanted {
        Wanted::Config => "config",
        Wanted::Step => "a step",
        Wanted::Field(place) => place_words(*place),
        Wanted::Number(place) => place_words(*place),
        Wanted::NoMore => "no further word",
        Wanted::NoLine => "no line behind the end",
        Wanted::NewName => "a name that no line has yet",
        Wanted::Name => {
            "a name: a small letter, then letters, digits, - or _, and no word of the format"
        }
        Wanted::Answer => "an answer",
        Wanted::AnswerWord => "a word of an answer",
    }
}

/// The word that is near to a wrong one, of those that were wanted.
fn near<'n>(wanted: &Wanted, names: &'n Names, word: &[u8]) -> Option<&'n [u8]>
    ensures { option_map (λ near. near.now) result ≡ near_wanted names.now word.now wanted.now }
{
    match wanted {
        Wanted::Step => near_step(word),
        Wanted::AnswerWord => match near_answer_word(word) {
            Some(near) => Some(near),
            None => near_refusal(word),
        },
        Wanted::Field(Field::Message) => match near_kind(word) {
            Some(near) => Some(near),
            None => names.near(word),
        },
        Wanted::Field(place) if takes_names(*place) => names.near(word),
        _ => None,
    }
}

/// Appends what is wrong with a line, with a line end: `line L: 'WORD': wanted ..`.
pub fn put_wrong(
    out: &mut Vec<u8>,
    wrong: &Wrong,
    line: u64,
    words: &[&[u8]],
    names: &Names,
) -> Result<(), AllocError>
    ensures { OnOk result (out.new.items ≡ out.old.items ++ fault_text (fault_of names.now line (map (λ word. word.now) words.now) wrong.now)) }
{
    out.extend_from_slice(b"line ")?;
    put_number(out, line)?;
    put_where(out, &wrong.wanted, word_at(words, wrong.at), names)?;
    out.extend_from_slice(b"\n")
}

/// The word at a place, if there is one.
fn word_at<'a>(words: &[&'a [u8]], at: usize) -> Option<&'a [u8]>
    ensures { option_map (λ word. word.now) result ≡ slice_get (map (λ word. word.now) words.now) at }
{
    words.get(at).copied()
}

/// How many bytes of a word are told.
const MOST_TOLD: usize = 60;

/// Appends a word: bytes that don't show by `\\x` and two digits, and of a long word its first 60.
pub fn put_word(out: &mut Vec<u8>, word: &[u8]) -> Result<(), AllocError>
    ensures { OnOk result (out.new.items ≡ out.old.items ++ shown_word word.now) }
{
    let told = word.len().min(MOST_TOLD);
    put_all(out, &word[..told])?;
    if told < word.len() {
        return out.extend_from_slice(b"..");
    }
    Ok(())
}

/// Appends bytes, so that they show.
fn put_all(out: &mut Vec<u8>, bytes: &[u8]) -> Result<(), AllocError>
    ensures { OnOk result (out.new.items ≡ out.old.items ++ flat_map shown_byte bytes.now) }
{
    for byte in bytes {
        put_shown(out, *byte)?;
    }
    Ok(())
}

/// Appends a byte, so that it shows.
fn put_shown(out: &mut Vec<u8>, byte: u8) -> Result<(), AllocError>
    ensures { OnOk result (out.new.items ≡ out.old.items ++ shown_byte byte) }
{
    if byte > b' ' && byte < 127 {
        return out.extend_from_slice(&[byte]);
    }
    out.extend_from_slice(b"\\x")?;
    out.extend_from_slice(&[hex_digit(byte / 16), hex_digit(byte % 16)])
}

/// The digit of a number below 16.
fn hex_digit(number: u8) -> u8
    requires { number < 16 }
    ensures { result ≡ hex_digit number }
{
    if number < 10 {
        b'0' + number
    } else {
        b'a' + (number - 10) % 6
    }
}

/// Appends which word is wrong, if the line has it, and what was wanted there.
fn put_where(
    out: &mut Vec<u8>,
    wanted: &Wanted,
    word: Option<&[u8]>,
    names: &Names,
) -> Result<(), AllocError>
    ensures { OnOk result (out.new.items ≡ out.old.items ++ word_text names.now wanted.now (option_map (λ word. word.now) word.entry)) }
{
    match word {
        None => put_line_end(out, wanted),
        Some(word) => put_at_word(out, wanted, word, names),
    }
}

/// Appends what was wanted at the end of a line.
fn put_line_end(out: &mut Vec<u8>, wanted: &Wanted) -> Result<(), AllocError>
    ensures { OnOk result (out.new.items ≡ out.old.items ++ (codes ": end of line: wanted " ++ wanted_text wanted.now)) }
{
    out.extend_from_slice(b": end of line: wanted ")?;
    out.extend_from_slice(wanted_words(wanted).as_bytes())
}

/// Appends which word is wrong, and what was wanted there.
fn put_at_word(
    out: &mut Vec<u8>,
    wanted: &Wanted,
    word: &[u8],
    names: &Names,
) -> Result<(), AllocError>
    ensures { OnOk result (out.new.items ≡ out.old.items ++ word_text names.now wanted.now (Some word.now)) }
{
    out.extend_from_slice(b": '")?;
    put_word(out, word)?;
    out.extend_from_slice(b"': wanted ")?;
    out.extend_from_slice(wanted_words(wanted).as_bytes())?;
    put_hint(out, wanted, word, names)
}

/// Appends a hint: a word that is near, or what the line of a name was answered.
fn put_hint(
    out: &mut Vec<u8>,
    wanted: &Wanted,
    word: &[u8],
    names: &Names,
) -> Result<(), AllocError>
    ensures { OnOk result (out.new.items ≡ out.old.items ++ hint_text names.now word.now wanted.now) }
{
    put_near(out, near(wanted, names, word))?;
    match wanted {
        Wanted::Number(_) => put_told(out, word, names),
        _ => Ok(()),
    }
}

/// Appends a word that is near, if there is one.
pub fn put_near(out: &mut Vec<u8>, near: Option<&[u8]>) -> Result<(), AllocError>
    ensures { OnOk result (out.new.items ≡ out.old.items ++ near_text (option_map (λ near. near.now) near.entry)) }
{
    match near {
        None => Ok(()),
        Some(near) => {
            out.extend_from_slice(b" (")?;
            put_word(out, near)?;
            out.extend_from_slice(b"?)")
        }
    }
}

/// Appends what the line of a name was answered, which has no number that serves.
fn put_told(out: &mut Vec<u8>, word: &[u8], names: &Names) -> Result<(), AllocError>
    ensures { OnOk result (out.new.items ≡ out.old.items ++ name_text names.now (name_and_nth word.now)) }
{
    match name_and_nth(word) {
        None => Ok(()),
        Some((name, _)) => match names.get(name) {
            None => Ok(()),
            Some(given) => put_given(out, &given),
        },
    }
}

/// Appends the line of a name, and what it was answered.
fn put_given(out: &mut Vec<u8>, given: &Given) -> Result<(), AllocError>
    ensures { OnOk result (out.new.items ≡ out.old.items ++ given_text (Some given.now)) }
{
    out.extend_from_slice(b", but line ")?;
    put_number(out, given.line)?;
    match &given.told {
        None => Ok(()),
        Some(told) => put_answered(out, told),
    }
}

/// Appends what the line of a name was answered.
fn put_answered(out: &mut Vec<u8>, told: &Told) -> Result<(), AllocError>
    ensures { OnOk result (out.new.items ≡ out.old.items ++ told_text (Some told.now)) }
{
    out.extend_from_slice(b" was answered '")?;
    put_reply(out, &told.reply)?;
    out.extend_from_slice(b"'")
}
