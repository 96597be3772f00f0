//! What holds the steps of a script back.

ghost use Rattle.std.specs.Prelude.{◌≡◌, ◌++◌, ◌≤◌, [], length, map, true, OnOk, Ok};
ghost use Rattle.sva_script_reading.specs.Begins.{lines_from, said_by};
ghost use Rattle.sva_script_reading.specs.Said.{IsSaid, well};
ghost use Rattle.sva_script_reports.specs.Scripts.{start};
ghost use Rattle.sva_grammar.specs.Replies.{ended, reply_text};
ghost use Rattle.sva_script_reports.specs.Whys.{StepsWhy, WordsWhy, case_line, case_text, cases_text, held_text};
ghost use Rattle.sva_script_reports.specs.Whys.{why_from, whys_of};

use std::alloc::{AllocError, Global};
use sva_script::{Stop, split};
use sva_script_reading::{
    Desk, Lines, put_bad_config, put_number, put_reply, put_wrong, read_script,
};
use sva_script_runs::{Came, Run, Taken};
use sva_snapshot::{Explains, explain, is_held};
use sva_step::{Answer, Config, Refusal};
use sva_streams::Outcome;

/// Said where no step was held back.
const NOTHING: &[u8] = b"nothing was refused, blocked or withheld\n";

/// Runs a script, and writes for each step that was refused, blocked or withheld what holds it back, as `E` explains it.
/// Where a line is wrong, or the config out of its limits, that is written instead, and the result is `Faulted`.
pub fn why<E: Explains>(
    alloc: Global,
    text: &[u8],
    out: &mut Vec<u8>,
) -> Result<Outcome, AllocError>
    requires { out.old.items ≡ [] }
    ensures { IsSaid (whys_of E.explained text.now) out.new.items result }
{
    match read_script(alloc, text, out)? {
        Some(config) => why_script::<E>(alloc, config, text, out),
        None => Ok(Outcome::Faulted),
    }
}

/// Runs a script whose lines can be read.
fn why_script<E: Explains>(
    alloc: Global,
    config: Config,
    text: &[u8],
    out: &mut Vec<u8>,
) -> Result<Outcome, AllocError>
    requires short { length text.now ≤ 1048576 }
    requires empty { out.old.items ≡ [] }
    ensures { IsSaid (said_by (λ config. why_from E.explained [] (start config) (lines_from 1 text.now)) (Ok config))
        out.new.items result }
{
    match Run::open(alloc, config) {
        Ok(mut run) => why_lines::<E>(alloc, &mut run, text, out),
        Err(Refusal::BadConfig) => {
            put_bad_config(out)?;
            Ok(Outcome::Faulted)
        }
        Err(_) => Err(AllocError),
    }
}

/// Takes the lines, and appends the case of each step that is held back. The first that says something is the config.
fn why_lines<E: Explains>(
    alloc: Global,
    run: &mut Run,
    text: &[u8],
    out: &mut Vec<u8>,
) -> Result<Outcome, AllocError>
    requires short { length text.now ≤ 1048576 }
    requires empty { out.old.items ≡ [] }
    ensures { IsSaid (why_from E.explained [] (record { is_config = true; running = run.old }) (lines_from 1 text.now))
        out.new.items result }
{
    let mut lines = Lines::new(text);
    let mut desk = Desk::new(alloc);
    let mut is_config = true;
    while let Some((number, line)) = lines.next() {
        split(line, &mut desk.words)?;
        if !why_words::<E>(alloc, run, number, &mut is_config, &mut desk, out)? {
            return Ok(Outcome::Faulted);
        }
    }
    end_cases(out)
}

/// Says that no step was held back, where none was.
fn end_cases(out: &mut Vec<u8>) -> Result<Outcome, AllocError>
    ensures { IsSaid (well (cases_text out.old.items)) out.new.items result }
{
    if out.is_empty() {
        out.extend_from_slice(NOTHING)?;
    }
    Ok(Outcome::Done)
}

/// Takes the words of a line. Where they are wrong, that is said instead of all before: `false`.
fn why_words<E: Explains>(
    alloc: Global,
    run: &mut Run,
    number: u64,
    is_config: &mut bool,
    desk: &mut Desk<'_>,
    out: &mut Vec<u8>,
) -> Result<bool, AllocError>
    ensures { WordsWhy E.explained (record { is_config = is_config.old; running = run.old }) number
        (map (λ word. word.now) desk.old.words.items) out.old.items out.new.items
        (record { is_config = is_config.new; running = run.new }) result }
{
    if desk.words.is_empty() {
        return Ok(true);
    }
    if *is_config {
        *is_config = false;
        return Ok(true);
    }
    why_step::<E>(alloc, run, number, desk, out)
}

/// Takes the words of a step's line, and appends its case. Where they are wrong, that is said instead of all before:
/// `false`.
fn why_step<E: Explains>(
    alloc: Global,
    run: &mut Run,
    number: u64,
    desk: &mut Desk<'_>,
    out: &mut Vec<u8>,
) -> Result<bool, AllocError>
    ensures { StepsWhy E.explained run.old number (map (λ word. word.now) desk.old.words.items) out.old.items out.new.items
        run.new result }
{
    let words = desk.words.as_slice();
    let mut taken = Taken::new();
    match run.take(
        alloc,
        number,
        words,
        &mut desk.plain,
        &mut desk.expected,
        &mut taken,
    ) {
        Ok(Came::Step) => {
            put_case::<E>(alloc, run, number, desk.plain.as_slice(), &taken, out)?;
            Ok(true)
        }
        Ok(Came::End) => Ok(true),
        Err(Stop::Wrong(wrong)) => {
            out.clear();
            put_wrong(out, &wrong, number, words, run.names())?;
            Ok(false)
        }
        Err(Stop::Memory) => Err(AllocError),
    }
}

/// Appends a reply, and a line end.
fn put_reply_line(out: &mut Vec<u8>, reply: &Result<Answer, Refusal>) -> Result<(), AllocError>
    ensures { OnOk result (out.new.items ≡ out.old.items ++ ended (reply_text reply.now)) }
{
    put_reply(out, reply)?;
    out.push(b'\n')?;
    Ok(())
}

/// Appends the line of a case.
fn put_case_line(
    out: &mut Vec<u8>,
    number: u64,
    plain: &[u8],
    reply: &Result<Answer, Refusal>,
) -> Result<(), AllocError>
    ensures { OnOk result (out.new.items ≡ out.old.items ++ case_line number plain.now reply.now) }
{
    out.extend_from_slice(b"line ")?;
    put_number(out, number)?;
    out.extend_from_slice(b": ")?;
    out.extend_from_slice(plain)?;
    out.extend_from_slice(b": ")?;
    put_reply_line(out, reply)
}

/// Appends the case of a step that is held back.
fn put_held<E: Explains>(
    alloc: Global,
    run: &Run,
    number: u64,
    plain: &[u8],
    taken: &Taken,
    out: &mut Vec<u8>,
) -> Result<(), AllocError>
    ensures { OnOk result (out.new.items ≡ out.old.items
        ++ held_text E.explained number plain.now run.now.seen taken.now.step taken.now.told.reply) }
{
    put_case_line(out, number, plain, &taken.told.reply)?;
    explain::<E>(out, alloc, run.world(), &taken.step, &taken.told.reply)
}

/// Appends the case of a step, if it is held back.
fn put_case<E: Explains>(
    alloc: Global,
    run: &Run,
    number: u64,
    plain: &[u8],
    taken: &Taken,
    out: &mut Vec<u8>,
) -> Result<(), AllocError>
    ensures { OnOk result (out.new.items ≡ out.old.items
        ++ case_text E.explained number plain.now run.now.seen taken.now.step taken.now.told.reply) }
{
    if is_held(&taken.told.reply) {
        put_held::<E>(alloc, run, number, plain, taken, out)
    } else {
        Ok(())
    }
}
