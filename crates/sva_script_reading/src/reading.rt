//! A script that is read before it is run: its config, and all that is wrong with its lines.

ghost use Rattle.std.specs.Prelude.{◌≡◌, ◌+◌, ◌++◌, ◌∷◌, ◌≤◌, [], false, flat_map, is_err, length, position, IfOk, IfSome, None, OnOk, map, option_map};
ghost use Rattle.sva_grammar.specs.Grammar.{config_read, number};
ghost use Rattle.sva_script.specs.Lines.{parts_of};
ghost use Rattle.sva_script.specs.Names.{given_of};
ghost use Rattle.sva_script.specs.Names.{with_name};
ghost use Rattle.sva_script_reading.specs.Said.{faults_text};
ghost use Rattle.sva_script_reading.specs.Reading.{BeginsWith, HasConfig, ReadsConfig, ReadsLine, ReadsWords};
ghost use Rattle.sva_script_reading.specs.Begins.{begin_of, config_by, config_in, config_wrong, faults_from};
ghost use Rattle.sva_script_reading.specs.Begins.{first_config, good_counts, joined_words, lines_from, noted};

use crate::faults::put_wrong;
use crate::in_flight::NothingInFlight;
use crate::lines::{Lines, is_too_large};
use crate::single::{judge_name, read_line};
use std::alloc::{AllocError, Global};
use sva_grammar::{config, number_in};
use sva_script::{Field, Given, Names, Stop, Wanted, Wrong, at_word, is, parts_of, split};
use sva_step::Config;

/// Said of a script that is too large.
const TOO_LARGE: &[u8] = b"line 0: the script has more than 1048576 bytes or 65536 lines\n";

/// What a line is read with: its words, its line of a scenario, and what it expects. They are those of the line before.
#[derive(Drop)]
pub struct Desk<'a> {
    pub words: Vec<&'a [u8]>,
    pub plain: Vec<u8>,
    pub expected: Vec<u8>,
}

impl<'a> Desk<'a> {
    /// A desk of no line.
    pub fn new(alloc: Global) -> Self
        ensures words { result.words.items ≡ [] }
        ensures plain { result.plain.items ≡ [] }
        ensures expected { result.expected.items ≡ [] }
    {
        Desk {
            words: Vec::new(alloc),
            plain: Vec::new(alloc),
            expected: Vec::new(alloc),
        }
    }
}

/// Reads a script: its config, or `None` where something is wrong with its lines, which is written to `faults`, a line each.
/// What is wrong with the config is told alone.
pub fn read_script(
    alloc: Global,
    text: &[u8],
    faults: &mut Vec<u8>,
) -> Result<Option<Config>, AllocError>
    requires { faults.old.items ≡ [] }
    ensures begins { IfOk result (λ found. BeginsWith (begin_of text.now) found faults.new.items) }
    ensures short { IfOk result (λ found. IfSome found (λ config. length text.now ≤ 1048576)) }
{
    if is_too_large(text) {
        faults.extend_from_slice(TOO_LARGE)?;
        return Ok(None);
    }
    let mut lines = Lines::new(text);
    let mut desk = Desk::new(alloc);
    let mut names = Names::new(alloc);
    match take_config(&mut lines, &mut desk, &names, faults)? {
        None => Ok(None),
        Some(config) => {
            read_lines(alloc, &mut lines, &mut names, &mut desk, faults)?;
            Ok(if faults.is_empty() {
                Some(config)
            } else {
                None
            })
        }
    }
}

/// Reads the config of a script alone, or `None` where it is wrong or missing, which is written to `faults`. What is wrong with
/// the lines behind it isn't asked.
pub fn read_config(
    alloc: Global,
    text: &[u8],
    faults: &mut Vec<u8>,
) -> Result<Option<Config>, AllocError>
    requires { faults.old.items ≡ [] }
    ensures begins { IfOk result (λ found. BeginsWith (first_config text.now) found faults.new.items) }
    ensures short { IfOk result (λ found. IfSome found (λ config. length text.now ≤ 1048576)) }
{
    if is_too_large(text) {
        faults.extend_from_slice(TOO_LARGE)?;
        return Ok(None);
    }
    let mut lines = Lines::new(text);
    let mut desk = Desk::new(alloc);
    let names = Names::new(alloc);
    take_config(&mut lines, &mut desk, &names, faults)
}

/// Takes lines off up to the config, and gives it; what is wrong is appended to `faults`. Lines that say nothing are
/// passed over.
pub fn take_config<'a>(
    lines: &mut Lines<'a>,
    desk: &mut Desk<'a>,
    names: &Names,
    faults: &mut Vec<u8>,
) -> Result<Option<Config>, AllocError>
    ensures { IfOk result (λ found. HasConfig (config_in lines.old.number (lines_from (lines.old.number + 1) lines.old.rest.now)) found
        (lines_from (lines.new.number + 1) lines.new.rest.now) faults.old.items faults.new.items) }
{
    while let Some((number, line)) = lines.next() {
        split(line, &mut desk.words)?;
        if !desk.words.is_empty() {
            return config_of(
                number,
                desk.words.as_slice(),
                &mut desk.plain,
                names,
                faults,
            );
        }
    }
    let wrong = at_word(0, Wanted::Config);
    put_wrong(faults, &wrong, lines.number.saturating_add(1), &[], names)?;
    Ok(None)
}

/// The config of a line's words; or `None`, with what is wrong with them appended.
pub fn config_of(
    number: u64,
    words: &[&[u8]],
    plain: &mut Vec<u8>,
    names: &Names,
    faults: &mut Vec<u8>,
) -> Result<Option<Config>, AllocError>
    ensures { IfOk result (λ found. ReadsConfig (config_by number (map (λ word. word.now) words.now)
        (config_read (joined_words (map (λ word. word.now) words.now)))) found faults.old.items faults.new.items) }
{
    plain.clear();
    put_words(plain, words)?;
    match config(plain.as_slice()) {
        Ok(config) => Ok(Some(config)),
        Err(_) => {
            put_wrong(faults, &config_wrong(words), number, words, names)?;
            Ok(None)
        }
    }
}

/// Appends words, one space between two.
pub fn put_words(out: &mut Vec<u8>, words: &[&[u8]]) -> Result<(), AllocError>
    ensures { OnOk result (out.new.items ≡ out.old.items ++ joined_words (map (λ word. word.now) words.now)) }
{
    match words {
        [] => Ok(()),
        [first, rest @ ..] => {
            out.extend_from_slice(first)?;
            put_rest(out, rest)
        }
    }
}

/// Appends words, each behind a space.
fn put_rest(out: &mut Vec<u8>, words: &[&[u8]]) -> Result<(), AllocError>
    ensures { OnOk result (out.new.items ≡ out.old.items ++ flat_map (λ word. 32 ∷ word) (map (λ word. word.now) words.now)) }
{
    for word in words {
        out.extend_from_slice(b" ")?;
        out.extend_from_slice(word)?;
    }
    Ok(())
}

/// What is wrong with the words of a config: its first, or that it has three counts behind that, and no more.
fn config_wrong(words: &[&[u8]]) -> Wrong
    ensures { result ≡ config_wrong (map (λ word. word.now) words.now) }
{
    match words {
        [first, counts @ ..] if is(first, b"config") => {
            let good = good_counts(counts);
            if good < 3 {
                at_word(good + 1, Wanted::Field(Field::Count))
            } else {
                at_word(4, Wanted::NoMore)
            }
        }
        _ => at_word(0, Wanted::Config),
    }
}

/// How many of these words are numbers, up to the first that isn't one.
fn good_counts(counts: &[&[u8]]) -> usize
    ensures { result ≡ good_counts (map (λ word. word.now) counts.now) }
{
    match first_bad(counts) {
        Some(place) => place,
        None => counts.len(),
    }
}

/// Where the first word is that is no number.
fn first_bad(words: &[&[u8]]) -> Option<usize>
    ensures { result ≡ position (λ word. is_err (number word.now)) words.now }
{
    words.iter().position(|word| number_in(word).is_err())
}

/// Reads the lines behind the config, and appends what is wrong with each.
fn read_lines<'a>(
    alloc: Global,
    lines: &mut Lines<'a>,
    names: &mut Names,
    desk: &mut Desk<'a>,
    faults: &mut Vec<u8>,
) -> Result<(), AllocError>
    ensures { OnOk result (faults.new.items ≡ faults.old.items
        ++ faults_text (faults_from names.old false (lines_from (lines.old.number + 1) lines.old.rest.now))) }
{
    let mut has_ended = false;
    while let Some((number, line)) = lines.next() {
        split(line, &mut desk.words)?;
        has_ended = read_line_words(alloc, number, has_ended, names, desk, faults)?;
    }
    Ok(())
}

/// Reads the words of a line, if it says something, and appends what is wrong with it; is the last line behind it?
pub fn read_line_words(
    alloc: Global,
    number: u64,
    has_ended: bool,
    names: &mut Names,
    desk: &mut Desk<'_>,
    faults: &mut Vec<u8>,
) -> Result<bool, AllocError>
    ensures { IfOk result (λ ended. ReadsLine names.old has_ended number (map (λ word. word.now) desk.old.words.items) names.new ended
        faults.old.items faults.new.items) }
{
    if desk.words.is_empty() {
        return Ok(has_ended);
    }
    if has_ended {
        let wrong = at_word(0, Wanted::NoLine);
        put_wrong(faults, &wrong, number, desk.words.as_slice(), names)?;
        return Ok(true);
    }
    read_words(alloc, number, names, desk, faults)
}

/// Reads the words of a line, and appends what is wrong with it: is it the last line, `end => ..`? Its name stands from
/// here on, also where the line is wrong.
fn read_words(
    alloc: Global,
    number: u64,
    names: &mut Names,
    desk: &mut Desk<'_>,
    faults: &mut Vec<u8>,
) -> Result<bool, AllocError>
    ensures { IfOk result (λ is_last. ReadsWords names.old number (map (λ word. word.now) desk.old.words.items) names.new is_last
        faults.old.items faults.new.items) }
{
    let is_last = tell_words(number, names, desk, faults)?;
    note_name(alloc, number, parts_of(desk.words.as_slice()).name, names)?;
    Ok(is_last)
}

/// Appends what is wrong with the words of a line: is it the last line, `end => ..`?
fn tell_words(
    number: u64,
    names: &Names,
    desk: &mut Desk<'_>,
    faults: &mut Vec<u8>,
) -> Result<bool, AllocError>
    ensures told { IfOk result (λ is_last. ReadsWords names.now number (map (λ word. word.now) desk.old.words.items)
        (noted names.now number (parts_of (map (λ word. word.now) desk.old.words.items)).name) is_last faults.old.items faults.new.items) }
    ensures same { IfOk result (λ _. desk.new.words ≡ desk.old.words) }
{
    let words = desk.words.as_slice();
    match read_line(
        names,
        &NothingInFlight,
        words,
        &mut desk.plain,
        &mut desk.expected,
    ) {
        Ok(step) => Ok(step.is_none()),
        Err(Stop::Wrong(wrong)) => {
            put_wrong(faults, &wrong, number, words, names)?;
            Ok(false)
        }
        Err(Stop::Memory) => Err(AllocError),
    }
}

/// Notes a line's name, if it has one that is a name and new.
pub fn note_name(
    alloc: Global,
    line: u64,
    name: Option<&[u8]>,
    names: &mut Names,
) -> Result<(), AllocError>
    ensures { OnOk result (names.new ≡ noted names.old line (option_map (λ name. name.now) name.entry)) }
{
    if judge_name(names, name).is_ok() {
        put_name(alloc, line, name, names)
    } else {
        Ok(())
    }
}

/// Notes a line's name, if it has one.
fn put_name(
    alloc: Global,
    line: u64,
    name: Option<&[u8]>,
    names: &mut Names,
) -> Result<(), AllocError>
    requires { IfSome name (λ name. given_of name.now names.old ≡ None) }
    ensures { OnOk result (names.new ≡ with_name names.old (option_map (λ name. name.now) name.entry) (record { line = line; told = None })) }
{
    match name {
        None => Ok(()),
        Some(name) => names.put(alloc, name, Given { line, told: None }),
    }
}
