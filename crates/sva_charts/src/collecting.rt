//! A script is run, and its rows are kept.

ghost use Rattle.std.specs.Prelude.{◌≡◌, ◌≤◌, [], length, map, true, IfOk, Ok};
ghost use Rattle.sva_charts.specs.Charts.{Collects};
ghost use Rattle.sva_script_reading.specs.Begins.{lines_from, said_by};
ghost use Rattle.sva_script_reports.specs.Scripts.{start};
ghost use Rattle.sva_script_reports.specs.Shows.{StepsShow, WordsShow, show_from, show_of};

use std::alloc::{AllocError, Global};
use sva_frames::Counts;
use sva_script::{Stop, split};
use sva_script_reading::{Desk, Lines, put_bad_config, put_wrong, read_script};
use sva_script_runs::{Came, Run, Taken};
use sva_step::{Config, Refusal};

/// A step that was taken.
#[derive(Drop)]
pub(crate) struct Row {
    /// The number of its line.
    pub(crate) line: u64,
    /// The line of a scenario that it stands for.
    pub(crate) plain: Vec<u8>,
    /// What came of it.
    pub(crate) taken: Taken,
}

/// A run: its steps, and what is free, mapped and withheld behind the last.
#[derive(Drop)]
pub(crate) struct Rows {
    pub(crate) rows: Vec<Row>,
    pub(crate) counts: Counts,
}

/// Runs a script, and keeps its rows. What is wrong with it is written to `out` instead, if anything is: `None`.
pub(crate) fn collect(
    alloc: Global,
    text: &[u8],
    out: &mut Vec<u8>,
) -> Result<Option<Rows>, AllocError>
    requires { out.old.items ≡ [] }
    ensures { IfOk result (λ kept. Collects (show_of text.now) kept out.new.items) }
{
    match read_script(alloc, text, out)? {
        Some(config) => collect_script(alloc, config, text, out),
        None => Ok(None),
    }
}

/// Runs a script whose lines can be read.
fn collect_script(
    alloc: Global,
    config: Config,
    text: &[u8],
    out: &mut Vec<u8>,
) -> Result<Option<Rows>, AllocError>
    requires short { length text.now ≤ 1048576 }
    requires empty { out.old.items ≡ [] }
    ensures { IfOk result (λ kept. Collects (said_by (λ config. show_from (start config) (lines_from 1 text.now)) (Ok config))
        kept out.new.items) }
{
    match Run::open(alloc, config) {
        Ok(mut run) => collect_lines(alloc, &mut run, text, out),
        Err(Refusal::BadConfig) => {
            put_bad_config(out)?;
            Ok(None)
        }
        Err(_) => Err(AllocError),
    }
}

/// Takes the lines. The first that says something is the config.
fn collect_lines(
    alloc: Global,
    run: &mut Run,
    text: &[u8],
    out: &mut Vec<u8>,
) -> Result<Option<Rows>, AllocError>
    requires short { length text.now ≤ 1048576 }
    requires empty { out.old.items ≡ [] }
    ensures { IfOk result (λ kept. Collects (show_from (record { is_config = true; running = run.old }) (lines_from 1 text.now))
        kept out.new.items) }
{
    let mut lines = Lines::new(text);
    let mut desk = Desk::new(alloc);
    let mut rows: Vec<Row> = Vec::new(alloc);
    let mut is_config = true;
    while let Some((number, line)) = lines.next() {
        split(line, &mut desk.words)?;
        if !collect_words(
            alloc,
            run,
            number,
            &mut is_config,
            &mut desk,
            &mut rows,
            out,
        )? {
            return Ok(None);
        }
    }
    Ok(Some(Rows {
        rows,
        counts: run.counts(),
    }))
}

/// Takes the words of a line. Where they are wrong, that is said: `false`.
fn collect_words(
    alloc: Global,
    run: &mut Run,
    number: u64,
    is_config: &mut bool,
    desk: &mut Desk<'_>,
    rows: &mut Vec<Row>,
    out: &mut Vec<u8>,
) -> Result<bool, AllocError>
    ensures { WordsShow (record { is_config = is_config.old; running = run.old }) number (map (λ word. word.now) desk.old.words.items)
        out.old.items out.new.items (record { is_config = is_config.new; running = run.new }) result }
{
    if desk.words.is_empty() {
        return Ok(true);
    }
    if *is_config {
        *is_config = false;
        return Ok(true);
    }
    collect_step(alloc, run, number, desk, rows, out)
}

/// Takes the words of a step's line, and keeps its row.
fn collect_step(
    alloc: Global,
    run: &mut Run,
    number: u64,
    desk: &mut Desk<'_>,
    rows: &mut Vec<Row>,
    out: &mut Vec<u8>,
) -> Result<bool, AllocError>
    ensures { StepsShow run.old number (map (λ word. word.now) desk.old.words.items) out.old.items out.new.items run.new result }
{
    let words = desk.words.as_slice();
    let mut taken = Taken::new();
    match run.take(
        alloc,
        number,
        words,
        &mut desk.plain,
        &mut desk.expected,
        &mut taken,
    ) {
        Ok(came) => {
            keep(alloc, rows, came, number, desk.plain.as_slice(), &taken)?;
            Ok(true)
        }
        Err(Stop::Wrong(wrong)) => {
            put_wrong(out, &wrong, number, words, run.names())?;
            Ok(false)
        }
        Err(Stop::Memory) => Err(AllocError),
    }
}

/// Keeps the row of a step; the last line, `end => ..`, has none.
fn keep(
    alloc: Global,
    rows: &mut Vec<Row>,
    came: Came,
    line: u64,
    plain: &[u8],
    taken: &Taken,
) -> Result<(), AllocError> {
    match came {
        Came::Step => {
            let row = Row {
                line,
                plain: Vec::from_slice(alloc, plain)?,
                taken: *taken,
            };
            rows.push(row)?;
            Ok(())
        }
        Came::End => Ok(()),
    }
}
