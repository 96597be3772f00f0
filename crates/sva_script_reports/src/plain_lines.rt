//! The plain scenario of a script.

ghost use Rattle.std.specs.Prelude.{◌≡◌, ◌==◌, ◌++◌, ◌<◌, ◌≤◌, [], IfSome, length, not, position, map, true, OnOk, Ok};
ghost use Rattle.sva_grammar.specs.Replies.{ended};
ghost use Rattle.sva_script.specs.Lines.{script_words};
ghost use Rattle.sva_script_reports.specs.Lines.{StepsPlain, WordsPlain};
ghost use Rattle.sva_script_reading.specs.Said.{IsSaid};
ghost use Rattle.sva_script_reading.specs.Begins.{lines_from, said_by};
ghost use Rattle.sva_script_reports.specs.Scripts.{comment_of, if_small, plain_from, plain_of, start};

use std::alloc::{AllocError, Global};
use sva_script::{Stop, split};
use sva_script_reading::{
    Desk, Lines, is_too_large, put_bad_config, put_words, put_wrong, read_script,
};
use sva_script_runs::{Came, Run, Taken};
use sva_step::{Config, Refusal};
use sva_streams::Outcome;

/// Said where the scenario of a script is too large for a replay.
const TOO_LARGE: &[u8] = b"line 0: the scenario has more than 1048576 bytes or 65536 lines\n";

/// Writes the scenario that a script stands for: each name is a number, and expected answers and comments behind steps are
/// left out. Where a line is wrong, that is written instead, and the result is `Faulted`.
pub fn plain(alloc: Global, text: &[u8], out: &mut Vec<u8>) -> Result<Outcome, AllocError>
    requires { out.old.items ≡ [] }
    ensures { IsSaid (plain_of text.now) out.new.items result }
{
    match read_script(alloc, text, out)? {
        Some(config) => plain_script(alloc, config, text, out),
        None => Ok(Outcome::Faulted),
    }
}

/// Writes the plain lines of a script whose lines can be read.
fn plain_script(
    alloc: Global,
    config: Config,
    text: &[u8],
    out: &mut Vec<u8>,
) -> Result<Outcome, AllocError>
    requires short { length text.now ≤ 1048576 }
    requires empty { out.old.items ≡ [] }
    ensures { IsSaid (said_by (λ config. plain_from [] (start config) (lines_from 1 text.now)) (Ok config)) out.new.items result }
{
    match Run::open(alloc, config) {
        Ok(mut run) => plain_lines(alloc, &mut run, text, out),
        Err(Refusal::BadConfig) => {
            put_bad_config(out)?;
            Ok(Outcome::Faulted)
        }
        Err(_) => Err(AllocError),
    }
}

/// Takes the lines, and appends the line of a scenario of each. The first that says something is the config.
fn plain_lines(
    alloc: Global,
    run: &mut Run,
    text: &[u8],
    out: &mut Vec<u8>,
) -> Result<Outcome, AllocError>
    requires short { length text.now ≤ 1048576 }
    requires empty { out.old.items ≡ [] }
    ensures { IsSaid (plain_from [] (record { is_config = true; running = run.old }) (lines_from 1 text.now)) out.new.items result }
{
    let mut lines = Lines::new(text);
    let mut desk = Desk::new(alloc);
    let mut is_config = true;
    while let Some((number, line)) = lines.next() {
        split(line, &mut desk.words)?;
        if !plain_words(alloc, run, number, line, &mut is_config, &mut desk, out)? {
            return Ok(Outcome::Faulted);
        }
    }
    if_small(out)
}

/// Takes the words of a line, and appends its line of a scenario: of the config its own words, of a line that says nothing its
/// comment. Where it is wrong, that is said instead of all before: `false`.
fn plain_words(
    alloc: Global,
    run: &mut Run,
    number: u64,
    line: &[u8],
    is_config: &mut bool,
    desk: &mut Desk<'_>,
    out: &mut Vec<u8>,
) -> Result<bool, AllocError>
    requires { map (λ word. word.now) desk.old.words.items ≡ script_words line.now }
    ensures { WordsPlain (record { is_config = is_config.old; running = run.old }) (number, line.now) out.old.items out.new.items
        (record { is_config = is_config.new; running = run.new }) result }
{
    if desk.words.is_empty() {
        put_line(out, comment_of(line))?;
        return Ok(true);
    }
    if *is_config {
        *is_config = false;
        put_words(out, desk.words.as_slice())?;
        put_line(out, b"")?;
        return Ok(true);
    }
    plain_line(alloc, run, number, desk, out)
}

/// Appends a text, and a line end.
fn put_line(out: &mut Vec<u8>, text: &[u8]) -> Result<(), AllocError>
    ensures { OnOk result (out.new.items ≡ out.old.items ++ ended text.now) }
{
    out.extend_from_slice(text)?;
    out.push(b'\n')?;
    Ok(())
}

/// Is the scenario one that a replay takes? Where it is too large, that is said instead.
fn if_small(out: &mut Vec<u8>) -> Result<Outcome, AllocError>
    ensures { IsSaid (if_small out.old.items) out.new.items result }
{
    if !is_too_large(out.as_slice()) {
        return Ok(Outcome::Done);
    }
    out.clear();
    out.extend_from_slice(TOO_LARGE)?;
    Ok(Outcome::Faulted)
}

/// Takes a line, and appends its line of a scenario. Where it is wrong, that is said instead of all before: `false`.
fn plain_line(
    alloc: Global,
    run: &mut Run,
    number: u64,
    desk: &mut Desk<'_>,
    out: &mut Vec<u8>,
) -> Result<bool, AllocError>
    ensures { StepsPlain run.old number (map (λ word. word.now) desk.old.words.items) out.old.items out.new.items run.new result }
{
    let words = desk.words.as_slice();
    let mut taken = Taken::new();
    match run.take(
        alloc,
        number,
        words,
        &mut desk.plain,
        &mut desk.expected,
        &mut taken,
    ) {
        Ok(Came::Step) => {
            put_line(out, desk.plain.as_slice())?;
            Ok(true)
        }
        Ok(Came::End) => Ok(true),
        Err(Stop::Wrong(wrong)) => {
            out.clear();
            put_wrong(out, &wrong, number, words, run.names())?;
            Ok(false)
        }
        Err(Stop::Memory) => Err(AllocError),
    }
}

/// The comment of a line that says nothing else, as a scenario may have it.
fn comment_of(line: &[u8]) -> &[u8]
    ensures { result.now ≡ comment_of line.now }
{
    match first_shown(line) {
        Some(start) => &line[start..],
        None => &[],
    }
}

/// Where the first byte of a line is that is no space.
fn first_shown(line: &[u8]) -> Option<usize>
    ensures at { result ≡ position (λ byte. not (byte == 32)) line.now }
    ensures within { IfSome result (λ first. first < length line.now) }
{
    line.iter().position(|byte| *byte != b' ')
}
