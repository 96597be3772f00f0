//! What is wrong with a line of a race.

ghost use Rattle.std.specs.Prelude.{◌≡◌, ◌++◌, ◌∷◌, [], OnOk, Some, codes, decimal, map, option_map, slice_get};
ghost use Rattle.sva_race_texts.specs.Faults.{fault_text, near_wanted, wanted_text, where_text};
ghost use Rattle.sva_race_texts.specs.Faults.{atom_words, claim_words, line_words};
ghost use Rattle.sva_race_texts.specs.declared.faults.RaceStop.TheVariants as variants;
ghost use Rattle.sva_script_reading.specs.Faults.{or_else};
ghost use Rattle.sva_script.specs.Names.{near_name};
ghost use Rattle.sva_script.specs.Near.{near_among};
ghost use Rattle.sva_script.specs.Reserved.{step_names};

use std::alloc::AllocError;
use sva_script::{Names, Wanted, at_word, is_near, near_step};
use sva_script_reading::{put_near, put_number, put_word, put_wrong, wanted_words};
use sva_step::Refusal;

/// What was wanted where a line is wrong.
#[derive(Clone, Copy)]
pub enum RaceWanted {
    /// What a script's line wants there.
    Script(Wanted),
    /// `race`, which the text doesn't have.
    Race,
    /// A line of a race.
    Line,
    /// A claim: these stand last.
    Claim,
    /// No name: it is no line of a thread.
    NoName,
    /// No answer: it is a line of a thread.
    NoAnswer,
    /// One line of workers: there is one already.
    OneWorkers,
    /// An endpoint that the config has.
    OfConfig,
    /// An endpoint that no line of a device has yet.
    NewEndpoint,
    /// What a device may be told, in this order: how much of what it may do, whether it evicts, its pages, and whether
    /// it may fall silent.
    Device,
    /// A number of times.
    Amount,
    /// `never`, `always` or `sometimes`.
    Claiming,
    /// An atom.
    Atom,
    /// `=>` and an answer, behind a step.
    Arrow,
    /// `is`.
    Is,
    /// The name of a line.
    LineName,
    /// A frame that the config has, or the name of a step that is answered frames.
    Frame,
    /// The number of a refusal.
    RefusalNumber,
    /// The name of this refusal, whose number stands before.
    RefusalName(Refusal),
    /// How many endpoints a config may have.
    EndpointCount,
    /// How many frames.
    FrameCount,
    /// How many workers.
    WorkerCount,
}

/// What is wrong with a line: at which of its words, counted from 0, and what was wanted there. Where the line has no
/// such word, it ends too soon.
#[derive(Clone, Copy)]
pub struct RaceWrong {
    /// The place of the word.
    pub at: usize,
    /// What was wanted.
    pub wanted: RaceWanted,
}

/// Why a line can't be taken.
#[derive(Clone, Copy)]
pub enum RaceStop {
    /// It is wrong.
    Wrong(RaceWrong),
    /// Memory ran out.
    Memory,
}

/// A line that is wrong at this word.
pub fn wrong_at(at: usize, wanted: RaceWanted) -> RaceWrong
    ensures { result ≡ record { at = at; wanted = wanted } }
{
    RaceWrong { at, wanted }
}

/// A line that can't be taken, since it is wrong at this word.
pub fn stop_at(at: usize, wanted: RaceWanted) -> RaceStop
    ensures { result ≡ variants.Wrong (record { at = at; wanted = wanted }) }
{
    RaceStop::Wrong(wrong_at(at, wanted))
}

/// What was wanted, in words.
fn words_of(wanted: &RaceWanted) -> &'static str
    ensures { result.now ≡ wanted_text wanted.now }
{
    match wanted {
        RaceWanted::Script(wanted) => wanted_words(wanted),
        RaceWanted::Race => "race",
        RaceWanted::Line => "a step, try, thread, workers, device or a claim",
        RaceWanted::Claim => "a claim",
        RaceWanted::NoName => "no name",
        RaceWanted::NoAnswer => "no answer: claims ask for it",
        RaceWanted::OneWorkers => "one line of workers",
        RaceWanted::OfConfig => "an endpoint of the config",
        RaceWanted::NewEndpoint => "an endpoint that no line has yet",
        RaceWanted::Device =>
            "N asks, N uses, N faults, evicts, pages P .. or silent, in this order",
        RaceWanted::Amount => "a number of times",
        RaceWanted::Claiming => "never, always or sometimes",
        RaceWanted::Atom => "not, done, usable, times, a step or the name of a line",
        RaceWanted::Arrow => "=> and an answer",
        RaceWanted::Is => "is",
        RaceWanted::LineName => "the name of a line",
        RaceWanted::Frame => "a frame of the config or the name of a step that is answered one",
        RaceWanted::RefusalNumber => "the number of a refusal",
        RaceWanted::RefusalName(_) => "the refusal of this number",
        RaceWanted::EndpointCount => "1 to 8 endpoints",
        RaceWanted::FrameCount => "1 to 4096 frames",
        RaceWanted::WorkerCount => "1 to 4 workers",
    }
}

/// The words that begin a claim.
const CLAIM_WORDS: [&[u8]; 4] = [b"ends", b"never", b"always", b"sometimes"];

/// The words that begin another line behind `race`, beside the steps.
const LINE_WORDS: [&[u8]; 4] = [b"try", b"thread", b"workers", b"device"];

/// The words that begin an atom, or that it doesn't hold.
const ATOM_WORDS: [&[u8]; 4] = [b"not", b"done", b"usable", b"times"];

/// The first of some words that is near to a word.
pub fn first_near(words: &[&'static [u8]], word: &[u8]) -> Option<&'static [u8]>
    ensures { option_map (λ near. near.now) result ≡ near_among (map (λ known. known.now) words.now) word.now }
{
    for known in words {
        if is_near(known, word) {
            return Some(*known);
        }
    }
    None
}

/// The word of a claim that is near to a wrong one.
fn near_claim(word: &[u8]) -> Option<&'static [u8]>
    ensures { option_map (λ near. near.now) result ≡ near_among claim_words word.now }
{
    first_near(&CLAIM_WORDS, word)
}

/// The word of another line behind `race` that is near to a wrong one.
fn near_line(word: &[u8]) -> Option<&'static [u8]>
    ensures { option_map (λ near. near.now) result ≡ near_among line_words word.now }
{
    first_near(&LINE_WORDS, word)
}

/// The word of an atom that is near to a wrong one.
fn near_atom(word: &[u8]) -> Option<&'static [u8]>
    ensures { option_map (λ near. near.now) result ≡ near_among atom_words word.now }
{
    first_near(&ATOM_WORDS, word)
}

/// The word that begins a line behind `race`, and is near to a wrong one.
fn near_first(word: &[u8]) -> Option<&'static [u8]>
    ensures { option_map (λ near. near.now) result ≡ or_else (near_among step_names word.now)
        (or_else (near_among line_words word.now) (near_among claim_words word.now)) }
{
    match near_step(word) {
        Some(near) => Some(near),
        None => match near_line(word) {
            Some(near) => Some(near),
            None => near_claim(word),
        },
    }
}

/// The step, or else the name, that is near to a wrong word.
fn near_step_or_name<'n>(names: &'n Names, word: &[u8]) -> Option<&'n [u8]>
    ensures { option_map (λ near. near.now) result
        ≡ or_else (near_among step_names word.now) (near_name names.now word.now) }
{
    match near_step(word) {
        Some(near) => Some(near),
        None => names.near(word),
    }
}

/// The word that begins an atom, or else the name, that is near to a wrong word.
fn near_in_claim<'n>(names: &'n Names, word: &[u8]) -> Option<&'n [u8]>
    ensures { option_map (λ near. near.now) result ≡ or_else (near_among atom_words word.now)
        (or_else (near_among step_names word.now) (near_name names.now word.now)) }
{
    match near_atom(word) {
        Some(near) => Some(near),
        None => near_step_or_name(names, word),
    }
}

/// The word that is near to a wrong one, of those that were wanted; or the one that was.
fn near<'n>(wanted: &RaceWanted, names: &'n Names, word: &[u8]) -> Option<&'n [u8]>
    ensures { option_map (λ near. near.now) result ≡ near_wanted names.now word.now wanted.now }
{
    match wanted {
        RaceWanted::Line => near_first(word),
        RaceWanted::Claim => near_claim(word),
        RaceWanted::Claiming => near_claim(word),
        RaceWanted::Atom => near_in_claim(names, word),
        RaceWanted::LineName => names.near(word),
        RaceWanted::RefusalName(refusal) => Some(refusal.name().as_bytes()),
        _ => None,
    }
}

/// Appends what is wrong with a line, with a line end: `line L: 'WORD': wanted ..`.
pub fn put_fault(
    out: &mut Vec<u8>,
    wrong: &RaceWrong,
    line: u64,
    words: &[&[u8]],
    names: &Names,
) -> Result<(), AllocError>
    ensures { OnOk result (out.new.items
        ≡ out.old.items ++ fault_text names.now line (map (λ word. word.now) words.now) wrong.now) }
{
    match wrong.wanted {
        RaceWanted::Script(wanted) => {
            put_wrong(out, &at_word(wrong.at, wanted), line, words, names)
        }
        _ => put_own(out, wrong, line, words, names),
    }
}

/// Appends what is wrong with a line, where it isn't what a script's line wants.
fn put_own(
    out: &mut Vec<u8>,
    wrong: &RaceWrong,
    line: u64,
    words: &[&[u8]],
    names: &Names,
) -> Result<(), AllocError>
    ensures { OnOk result (out.new.items ≡ out.old.items ++ (codes "line " ++ decimal line
        ++ where_text names.now wrong.now.wanted (slice_get (map (λ word. word.now) words.now) wrong.now.at)
        ++ 10 ∷ [])) }
{
    out.extend_from_slice(b"line ")?;
    put_number(out, line)?;
    put_where(out, &wrong.wanted, word_in(words, wrong.at), names)?;
    out.extend_from_slice(b"\n")
}

/// The word at a place, if there is one.
pub fn word_in<'a>(words: &[&'a [u8]], at: usize) -> Option<&'a [u8]>
    ensures { option_map (λ word. word.now) result ≡ slice_get (map (λ word. word.now) words.now) at }
{
    words.get(at).copied()
}

/// Appends which word is wrong, if the line has it, and what was wanted there.
fn put_where(
    out: &mut Vec<u8>,
    wanted: &RaceWanted,
    word: Option<&[u8]>,
    names: &Names,
) -> Result<(), AllocError>
    ensures { OnOk result (out.new.items
        ≡ out.old.items ++ where_text names.now wanted.now (option_map (λ word. word.now) word.entry)) }
{
    match word {
        None => put_line_end(out, wanted),
        Some(word) => put_at_word(out, wanted, word, names),
    }
}

/// Appends what was wanted at the end of a line.
fn put_line_end(out: &mut Vec<u8>, wanted: &RaceWanted) -> Result<(), AllocError>
    ensures { OnOk result (out.new.items
        ≡ out.old.items ++ (codes ": end of line: wanted " ++ wanted_text wanted.now)) }
{
    out.extend_from_slice(b": end of line: wanted ")?;
    out.extend_from_slice(words_of(wanted).as_bytes())
}

/// Appends which word is wrong, and what was wanted there.
fn put_at_word(
    out: &mut Vec<u8>,
    wanted: &RaceWanted,
    word: &[u8],
    names: &Names,
) -> Result<(), AllocError>
    ensures { OnOk result (out.new.items ≡ out.old.items ++ where_text names.now wanted.now (Some word.now)) }
{
    out.extend_from_slice(b": '")?;
    put_word(out, word)?;
    out.extend_from_slice(b"': wanted ")?;
    out.extend_from_slice(words_of(wanted).as_bytes())?;
    put_near(out, near(wanted, names, word))
}
