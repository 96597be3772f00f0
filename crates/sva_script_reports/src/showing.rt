//! What a host keeps behind the last line of a script.

ghost use Rattle.std.specs.Prelude.{◌≡◌, ◌≤◌, [], length, map, true, Ok};
ghost use Rattle.sva_lines.specs.Listing.{listing_of};
ghost use Rattle.sva_script_reading.specs.Said.{IsSaid, well};
ghost use Rattle.sva_script_reading.specs.Begins.{lines_from, said_by};
ghost use Rattle.sva_script_reports.specs.Scripts.{start};
ghost use Rattle.sva_script_reports.specs.Shows.{StepsShow, WordsShow, show_from, show_of};

use std::alloc::{AllocError, Global};
use sva_lines::put_listing;
use sva_script::{Stop, split};
use sva_script_reading::{Desk, Lines, put_bad_config, put_wrong, read_script};
use sva_script_runs::{Run, Taken};
use sva_snapshot::snapshot;
use sva_step::{Config, Refusal};
use sva_streams::Outcome;

/// Runs a script, and lists what the host keeps behind its last line. Where a line is wrong, that is written instead, and
/// the result is `Faulted`.
pub fn show(alloc: Global, text: &[u8], out: &mut Vec<u8>) -> Result<Outcome, AllocError>
    requires { out.old.items ≡ [] }
    ensures { IsSaid (show_of text.now) out.new.items result }
{
    match read_script(alloc, text, out)? {
        Some(config) => show_script(alloc, config, text, out),
        None => Ok(Outcome::Faulted),
    }
}

/// Runs a script whose lines can be read.
fn show_script(
    alloc: Global,
    config: Config,
    text: &[u8],
    out: &mut Vec<u8>,
) -> Result<Outcome, AllocError>
    requires short { length text.now ≤ 1048576 }
    requires empty { out.old.items ≡ [] }
    ensures { IsSaid (said_by (λ config. show_from (start config) (lines_from 1 text.now)) (Ok config)) out.new.items result }
{
    match Run::open(alloc, config) {
        Ok(mut run) => show_lines(alloc, &mut run, text, out),
        Err(Refusal::BadConfig) => {
            put_bad_config(out)?;
            Ok(Outcome::Faulted)
        }
        Err(_) => Err(AllocError),
    }
}

/// Takes the lines, and lists what is kept behind them. The first that says something is the config.
fn show_lines(
    alloc: Global,
    run: &mut Run,
    text: &[u8],
    out: &mut Vec<u8>,
) -> Result<Outcome, AllocError>
    requires short { length text.now ≤ 1048576 }
    requires empty { out.old.items ≡ [] }
    ensures { IsSaid (show_from (record { is_config = true; running = run.old }) (lines_from 1 text.now)) out.new.items result }
{
    let mut lines = Lines::new(text);
    let mut desk = Desk::new(alloc);
    let mut is_config = true;
    while let Some((number, line)) = lines.next() {
        split(line, &mut desk.words)?;
        if !show_words(alloc, run, number, &mut is_config, &mut desk, out)? {
            return Ok(Outcome::Faulted);
        }
    }
    put_kept(alloc, run, out)
}

/// Appends what the host keeps.
fn put_kept(alloc: Global, run: &Run, out: &mut Vec<u8>) -> Result<Outcome, AllocError>
    requires { out.old.items ≡ [] }
    ensures { IsSaid (well (listing_of run.now.seen)) out.new.items result }
{
    let kept = snapshot(alloc, run.world())?;
    put_listing(out, &kept)?;
    Ok(Outcome::Done)
}

/// Takes the words of a line. Where they are wrong, that is said: `false`.
fn show_words(
    alloc: Global,
    run: &mut Run,
    number: u64,
    is_config: &mut bool,
    desk: &mut Desk<'_>,
    out: &mut Vec<u8>,
) -> Result<bool, AllocError>
    ensures { WordsShow (record { is_config = is_config.old; running = run.old }) number (map (λ word. word.now) desk.old.words.items)
        out.old.items out.new.items (record { is_config = is_config.new; running = run.new }) result }
{
    if desk.words.is_empty() {
        return Ok(true);
    }
    if *is_config {
        *is_config = false;
        return Ok(true);
    }
    show_step(alloc, run, number, desk, out)
}

/// Takes the words of a step's line.
fn show_step(
    alloc: Global,
    run: &mut Run,
    number: u64,
    desk: &mut Desk<'_>,
    out: &mut Vec<u8>,
) -> Result<bool, AllocError>
    ensures { StepsShow run.old number (map (λ word. word.now) desk.old.words.items) out.old.items out.new.items run.new result }
{
    let words = desk.words.as_slice();
    let mut taken = Taken::new();
    match run.take(
        alloc,
        number,
        words,
        &mut desk.plain,
        &mut desk.expected,
        &mut taken,
    ) {
        Ok(_) => Ok(true),
        Err(Stop::Wrong(wrong)) => {
            put_wrong(out, &wrong, number, words, run.names())?;
            Ok(false)
        }
        Err(Stop::Memory) => Err(AllocError),
    }
}
