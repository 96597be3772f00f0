//! Where a witness ends: which lines wait there, and what holds them back.

ghost use Rattle.std.specs.Prelude.{◌≡◌, ◌++◌, IfOk, OnOk, Some};
ghost use Rattle.sva_grammar.specs.Laws.{step_words};
ghost use Rattle.sva_lines.specs.Pieces.{rows};
ghost use Rattle.sva_grammar.specs.Replies.{ended, reply_text};
ghost use Rattle.sva_script_reading.specs.Begins.{joined_words};
ghost use Rattle.sva_script_reports.specs.Whys.{case_line, held_text};
ghost use Rattle.sva_search.specs.Rules.{run_from};
ghost use Rattle.sva_race.specs.Rules.{rules_of};
ghost use Rattle.sva_race_reports.specs.WitnessEnds.{Leads, ends_line, ends_text, moment_behind, no_number_line};
ghost use Rattle.sva_race_reports.specs.WitnessEnds.{wait_text, waiting_text, waits_text};

use crate::steps::put_words;
use crate::witnesses::choice_at;
use std::alloc::{AllocError, Global};
use sva_core::World;
use sva_race::{Choice, Line, Moment, Race, Waiting};
use sva_script_reading::{put_number, put_reply};
use sva_snapshot::{Explains, explain};
use sva_step::{Answer, Refusal, Step};

/// Appends a reply, and a line end.
fn put_reply_line(out: &mut Vec<u8>, reply: &Result<Answer, Refusal>) -> Result<(), AllocError>
    ensures { OnOk result (out.new.items ≡ out.old.items ++ ended (reply_text reply.now)) }
{
    put_reply(out, reply)?;
    out.extend_from_slice(b"\n")
}

/// Appends the number of a line, its step and the reply.
fn put_case_line(
    out: &mut Vec<u8>,
    number: u64,
    step: Step,
    reply: &Result<Answer, Refusal>,
) -> Result<(), AllocError>
    ensures { OnOk result (out.new.items
        ≡ out.old.items ++ case_line number (joined_words (step_words step)) reply.now) }
{
    out.extend_from_slice(b"line ")?;
    put_number(out, number)?;
    out.extend_from_slice(b": ")?;
    put_words(out, step)?;
    out.extend_from_slice(b": ")?;
    put_reply_line(out, reply)
}

/// Appends a line whose step is answered so, and what holds it back.
fn put_held<E: Explains>(
    alloc: Global,
    out: &mut Vec<u8>,
    world: &World,
    number: u64,
    step: Step,
    reply: &Result<Answer, Refusal>,
) -> Result<(), AllocError>
    ensures { OnOk result (out.new.items
        ≡ out.old.items ++ held_text E.explained number (joined_words (step_words step)) world.now step reply.now) }
{
    put_case_line(out, number, step, reply)?;
    explain::<E>(out, alloc, world, &step, reply)
}

/// Appends that a line has a name without a number.
fn put_no_number(out: &mut Vec<u8>, number: u64) -> Result<(), AllocError>
    ensures { OnOk result (out.new.items ≡ out.old.items ++ no_number_line number) }
{
    out.extend_from_slice(b"line ")?;
    put_number(out, number)?;
    out.extend_from_slice(b": a name in it has no number\n")
}

/// Appends what a line waits for.
fn put_waiting<E: Explains>(
    alloc: Global,
    out: &mut Vec<u8>,
    world: &World,
    number: u64,
    waiting: Waiting,
) -> Result<(), AllocError>
    ensures { OnOk result (out.new.items ≡ out.old.items ++ waiting_text E.explained number world.now waiting) }
{
    match waiting {
        Waiting::Nothing => Ok(()),
        Waiting::Name => put_no_number(out, number),
        Waiting::Refused { step, refusal } => {
            put_held::<E>(alloc, out, world, number, step, &Err(refusal))
        }
    }
}

/// Appends what the line of a place waits for at a moment.
fn put_wait<E: Explains>(
    alloc: Global,
    out: &mut Vec<u8>,
    race: &Race,
    moment: &Moment,
    place: usize,
    line: &Line,
) -> Result<(), AllocError>
    ensures { OnOk result (out.new.items ≡ out.old.items ++ wait_text E.explained race.now moment.now place line.now) }
{
    let waiting = moment.waiting(alloc, race, place, line)?;
    put_waiting::<E>(alloc, out, moment.world(), line.number, waiting)
}

/// Appends what each of these lines waits for at a moment.
fn put_waits<E: Explains>(
    alloc: Global,
    out: &mut Vec<u8>,
    race: &Race,
    moment: &Moment,
    lines: &[Line],
) -> Result<(), AllocError>
    ensures { OnOk result (out.new.items ≡ out.old.items ++ rows (wait_text E.explained race.now moment.now) 0 lines.now) }
{
    for (place, line) in lines.iter().enumerate() {
        put_wait::<E>(alloc, out, race, moment, place, line)?;
    }
    Ok(())
}

/// Appends what the lines of a race wait for at a moment.
fn put_waits_at<E: Explains>(
    alloc: Global,
    out: &mut Vec<u8>,
    race: &Race,
    moment: &Moment,
) -> Result<(), AllocError>
    ensures { OnOk result (out.new.items ≡ out.old.items ++ waits_text E.explained race.now (Some moment.now)) }
{
    put_waits::<E>(alloc, out, race, moment, race.lines.as_slice())
}

/// Takes a list of choices as long as they are permitted, and says whether all of them are.
fn lead(
    alloc: Global,
    race: &Race,
    moment: &mut Moment,
    choices: &[Choice],
) -> Result<bool, AllocError>
    ensures { IfOk result
        (λ all. Leads (run_from (rules_of race.now) (Some moment.old) choices.now) all moment.new) }
{
    for place in 0..choices.len() {
        let choice = choice_at(choices, place);
        match moment.take(alloc, race, choice)? {
            Some(step) => {
                let _ = step;
            }
            None => return Ok(false),
        }
    }
    Ok(true)
}

/// Appends what the lines of a race wait for behind a list of choices.
fn put_all_waits<E: Explains>(
    alloc: Global,
    out: &mut Vec<u8>,
    race: &Race,
    choices: &[Choice],
) -> Result<(), AllocError>
    ensures { OnOk result (out.new.items
        ≡ out.old.items ++ waits_text E.explained race.now (moment_behind race.now choices.now)) }
{
    let mut moment = Moment::starting(alloc, race)?;
    let all = lead(alloc, race, &mut moment, choices)?;
    if all {
        put_waits_at::<E>(alloc, out, race, &moment)
    } else {
        Ok(())
    }
}

/// Appends the line above those that wait.
fn put_ends_line(out: &mut Vec<u8>, number: u64) -> Result<(), AllocError>
    ensures { OnOk result (out.new.items ≡ out.old.items ++ ends_line number) }
{
    out.extend_from_slice(b"where witness ")?;
    put_number(out, number)?;
    out.extend_from_slice(b" ends:\n")
}

/// Appends which lines wait where a witness ends.
pub(crate) fn put_ends<E: Explains>(
    alloc: Global,
    out: &mut Vec<u8>,
    race: &Race,
    number: u64,
    choices: &[Choice],
) -> Result<(), AllocError>
    ensures { OnOk result (out.new.items ≡ out.old.items ++ ends_text E.explained race.now number choices.now) }
{
    put_ends_line(out, number)?;
    put_all_waits::<E>(alloc, out, race, choices)
}
