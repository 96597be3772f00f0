//! A witness as a scenario: each step behind a comment that says who takes it.

ghost use Rattle.std.specs.Prelude.{◌≡◌, ◌++◌, ◌<◌, IfOk, OnOk, Some, decimal, length, slice_get};
ghost use Rattle.sva_race.specs.Moments.{start_of};
ghost use Rattle.sva_race_reports.specs.Witnesses.{act_who, before_text, front_text, heading, line_who};
ghost use Rattle.sva_race_reports.specs.Witnesses.{move_text, moves_text, scenario_text, step_line_if, title, witness_text};

use crate::steps::{put_config, put_step};
use crate::telling::put_counted;
use std::alloc::{AllocError, Global};
use sva_race::{Act, Choice, Moment, Race};
use sva_script_reading::put_number;
use sva_step::Step;

/// Appends who they are of which there are several.
fn put_numbered(out: &mut Vec<u8>, role: &str, at: u64) -> Result<(), AllocError>
    ensures { OnOk result (out.new.items ≡ out.old.items ++ role.now ++ decimal at) }
{
    out.extend_from_slice(role.as_bytes())?;
    put_number(out, at)
}

/// Appends the thread of a line, and the line's number.
fn put_line_who(
    out: &mut Vec<u8>,
    race: &Race,
    threads: &[Vec<u8>],
    number: usize,
) -> Result<(), AllocError>
    ensures { OnOk result (out.new.items
        ≡ out.old.items ++ line_who (slice_get threads.now number) (slice_get race.now.lines.items number)) }
{
    let Some(thread) = threads.get(number) else {
        return Ok(());
    };
    let Some(line) = race.lines.get(number) else {
        return Ok(());
    };
    out.extend_from_slice(thread.as_slice())?;
    out.extend_from_slice(b", line ")?;
    put_number(out, line.number)
}

/// Appends who takes a choice.
fn put_who(
    out: &mut Vec<u8>,
    race: &Race,
    threads: &[Vec<u8>],
    choice: Choice,
) -> Result<(), AllocError>
    ensures { OnOk result (out.new.items
        ≡ out.old.items ++ act_who race.now threads.now choice.act choice.at choice.number) }
{
    let Choice { act, at, number } = choice;
    match act {
        Act::Line => put_line_who(out, race, threads, number as usize),
        Act::Deliver => out.extend_from_slice(b"link"),
        Act::Pump | Act::Serve => put_numbered(out, "unit ", at),
        Act::Take | Act::Succeed | Act::Invalidate | Act::Fail => put_numbered(out, "worker ", at),
        Act::End | Act::Finish | Act::Quit | Act::Last => put_numbered(out, "endpoint ", at),
        Act::Ask | Act::Use | Act::Evict | Act::Fault | Act::Again => {
            put_numbered(out, "endpoint ", at)
        }
    }
}

/// Appends a choice that takes this step.
fn put_move(
    out: &mut Vec<u8>,
    race: &Race,
    threads: &[Vec<u8>],
    choice: Choice,
    step: Step,
) -> Result<(), AllocError>
    ensures { OnOk result (out.new.items ≡ out.old.items ++ move_text race.now threads.now choice (Some step)) }
{
    out.extend_from_slice(b"# ")?;
    put_who(out, race, threads, choice)?;
    out.extend_from_slice(b"\n")?;
    put_step(out, step)
}

/// The choice of a place.
pub(crate) fn choice_at(choices: &[Choice], place: usize) -> Choice
    requires { place < length choices.now }
    ensures { slice_get choices.now place ≡ Some result }
{
    choices[place]
}

/// Takes a list of choices, and appends each.
fn put_moves(
    alloc: Global,
    out: &mut Vec<u8>,
    race: &Race,
    threads: &[Vec<u8>],
    moment: &mut Moment,
    choices: &[Choice],
) -> Result<(), AllocError>
    ensures { OnOk result (out.new.items
        ≡ out.old.items ++ moves_text race.now threads.now (Some moment.old) choices.now) }
{
    for place in 0..choices.len() {
        let choice = choice_at(choices, place);
        match moment.take(alloc, race, choice)? {
            Some(step) => put_move(out, race, threads, choice, step)?,
            None => return Ok(()),
        }
    }
    Ok(())
}

/// Appends a step, if there is one.
fn put_step_if(out: &mut Vec<u8>, step: Option<Step>) -> Result<(), AllocError>
    ensures { OnOk result (out.new.items ≡ out.old.items ++ step_line_if step) }
{
    match step {
        Some(step) => put_step(out, step),
        None => Ok(()),
    }
}

/// Does the lines before the race, and appends the step of each.
fn put_before(alloc: Global, out: &mut Vec<u8>, race: &Race) -> Result<Moment, AllocError>
    ensures start { IfOk result (λ moment. moment ≡ start_of race.now) }
    ensures text { IfOk result (λ _. out.new.items ≡ out.old.items ++ before_text race.now race.now.before) }
{
    let mut moment = Moment::opening(alloc, race)?;
    for place in 0..race.before {
        let step = moment.do_before(alloc, race, place)?;
        put_step_if(out, step)?;
    }
    Ok(moment)
}

/// Appends the number of a witness, and how many steps it has.
fn put_title(out: &mut Vec<u8>, number: u64, count: usize) -> Result<(), AllocError>
    ensures { OnOk result (out.new.items ≡ out.old.items ++ title number count) }
{
    out.extend_from_slice(b"witness ")?;
    put_number(out, number)?;
    out.extend_from_slice(b": ")?;
    put_counted(out, count, "step", "steps")?;
    out.extend_from_slice(b"\n")
}

/// Appends the line above the steps before the race, if there are any.
fn put_heading(out: &mut Vec<u8>, before: usize) -> Result<(), AllocError>
    ensures { OnOk result (out.new.items ≡ out.old.items ++ heading before) }
{
    if before > 0 {
        out.extend_from_slice(b"# before the race\n")
    } else {
        Ok(())
    }
}

/// Appends what stands above the steps of a scenario.
fn put_front(out: &mut Vec<u8>, race: &Race) -> Result<(), AllocError>
    ensures { OnOk result (out.new.items ≡ out.old.items ++ front_text race.now) }
{
    put_config(out, &race.config)?;
    put_heading(out, race.before)
}

/// Appends the scenario that a list of choices stands for.
pub(crate) fn put_scenario(
    alloc: Global,
    out: &mut Vec<u8>,
    race: &Race,
    threads: &[Vec<u8>],
    choices: &[Choice],
) -> Result<(), AllocError>
    ensures { OnOk result (out.new.items ≡ out.old.items ++ scenario_text race.now threads.now choices.now) }
{
    put_front(out, race)?;
    let mut moment = put_before(alloc, out, race)?;
    put_moves(alloc, out, race, threads, &mut moment, choices)
}

/// Appends a witness with its number.
pub(crate) fn put_witness(
    alloc: Global,
    out: &mut Vec<u8>,
    race: &Race,
    threads: &[Vec<u8>],
    number: u64,
    choices: &[Choice],
) -> Result<(), AllocError>
    ensures { OnOk result (out.new.items
        ≡ out.old.items ++ witness_text race.now threads.now number choices.now) }
{
    put_title(out, number, choices.len())?;
    put_scenario(alloc, out, race, threads, choices)
}
