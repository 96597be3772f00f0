//! The line of a step, and of a config.

ghost use Rattle.std.specs.Prelude.{◌≡◌, ◌%◌, ◌∷◌, ◌++◌, OnOk, decimal, flat_map};
ghost use Rattle.std.specs.Char.{digit_char};
ghost use Rattle.sva_grammar.specs.Laws.{access_word, flags_word, group_word, hexadecimal, last_word, step_name, step_values};
ghost use Rattle.sva_grammar.specs.Laws.{step_words, verdict_word};
ghost use Rattle.sva_script_reading.specs.Begins.{joined_words};
ghost use Rattle.sva_race_reports.specs.Witnesses.{config_line, step_line};

use std::alloc::AllocError;
use sva_script_reading::put_number;
use sva_step::{Config, Step, Verdict};

/// The first word of a step's line.
fn name_of(step: Step) -> &'static str
    ensures { result.now ≡ step_name step }
{
    match step {
        Step::Space => "space",
        Step::DropSpace { .. } => "drop",
        Step::Map { .. } => "map",
        Step::Unmap { .. } => "unmap",
        Step::UnmapRange { .. } => "unmapr",
        Step::Bind { .. } => "bind",
        Step::Unbind { .. } => "unbind",
        Step::Advance { .. } => "advance",
        Step::Pump { .. } => "pump",
        Step::Serve { .. } => "serve",
        Step::Reset { .. } => "reset",
        Step::Take { .. } => "take",
        Step::Reply { .. } => "answer",
        Step::Ask { .. } => "ask",
        Step::BeginUse { .. } => "use",
        Step::EndUse { .. } => "end",
        Step::Evict { .. } => "evict",
        Step::Fault { .. } => "fault",
        Step::Finish { .. } => "finish",
        Step::Quit { .. } => "quit",
        Step::Deliver { .. } => "deliver",
        Step::Look { .. } => "look",
        Step::Bearer { .. } => "bearer",
    }
}

/// Appends a number behind a space.
fn put_one(out: &mut Vec<u8>, one: u64) -> Result<(), AllocError>
    ensures { OnOk result (out.new.items ≡ out.old.items ++ 32 ∷ decimal one) }
{
    out.extend_from_slice(b" ")?;
    put_number(out, one)
}

/// Appends two numbers, each behind a space.
fn put_two(out: &mut Vec<u8>, one: u64, two: u64) -> Result<(), AllocError>
    ensures { OnOk result (out.new.items ≡ out.old.items ++ (32 ∷ decimal one) ++ 32 ∷ decimal two) }
{
    put_one(out, one)?;
    put_one(out, two)
}

/// Appends three numbers, each behind a space.
fn put_three(out: &mut Vec<u8>, one: u64, two: u64, three: u64) -> Result<(), AllocError>
    ensures { OnOk result (out.new.items
        ≡ out.old.items ++ (32 ∷ decimal one) ++ (32 ∷ decimal two) ++ 32 ∷ decimal three) }
{
    put_two(out, one, two)?;
    put_one(out, three)
}

/// Appends a word behind a space.
fn put_word(out: &mut Vec<u8>, word: &str) -> Result<(), AllocError>
    ensures { OnOk result (out.new.items ≡ out.old.items ++ 32 ∷ word.now) }
{
    out.extend_from_slice(b" ")?;
    out.extend_from_slice(word.as_bytes())
}

/// The word that allows writing, or doesn't.
fn access_word(write: bool) -> &'static str
    ensures { result.now ≡ access_word write }
{
    if write { "w" } else { "r" }
}

/// The word of what a page request asks for.
fn flags_word(read: bool, write: bool) -> &'static str
    ensures { result.now ≡ flags_word read write }
{
    match (read, write) {
        (true, true) => "rw",
        (true, false) => "r",
        (false, true) => "w",
        (false, false) => "",
    }
}

fn verdict_word(verdict: Verdict) -> &'static str
    ensures { result.now ≡ verdict_word verdict }
{
    match verdict {
        Verdict::Success => "success",
        Verdict::Invalid => "invalid",
        Verdict::Failure => "failure",
    }
}

/// Appends the word of the group that a page request joins.
fn put_group(out: &mut Vec<u8>, group: Option<u64>) -> Result<(), AllocError>
    ensures { OnOk result (out.new.items ≡ out.old.items ++ 32 ∷ group_word group) }
{
    match group {
        None => put_word(out, "new"),
        Some(index) => put_one(out, index),
    }
}

/// The digit of a number's last four bits.
fn digit(number: u32) -> u8
    ensures { result ≡ digit_char (number % 16) }
{
    let low = (number % 16) as u8;
    if low < 10 {
        b'0' + low
    } else {
        b'a' + (low - 10)
    }
}

/// Appends a vector behind a space: eight hexadecimal digits in lower case.
fn put_vector(out: &mut Vec<u8>, vector: u32) -> Result<(), AllocError>
    ensures { OnOk result (out.new.items ≡ out.old.items ++ 32 ∷ hexadecimal 8 vector) }
{
    let digits = [
        digit(vector >> 28),
        digit(vector >> 24),
        digit(vector >> 20),
        digit(vector >> 16),
        digit(vector >> 12),
        digit(vector >> 8),
        digit(vector >> 4),
        digit(vector),
    ];
    out.extend_from_slice(b" ")?;
    out.extend_from_slice(&digits)
}

/// Appends the words of a page request behind those that say whose it is.
fn put_asked(
    out: &mut Vec<u8>,
    read: bool,
    write: bool,
    group: Option<u64>,
    last: bool,
) -> Result<(), AllocError>
    ensures { OnOk result (out.new.items
        ≡ out.old.items ++ (32 ∷ flags_word read write) ++ (32 ∷ group_word group) ++ 32 ∷ last_word last) }
{
    put_word(out, flags_word(read, write))?;
    put_group(out, group)?;
    put_word(out, if last { "last" } else { "more" })
}

/// Appends the words behind the first of a step's line.
fn put_values(out: &mut Vec<u8>, step: Step) -> Result<(), AllocError>
    ensures { OnOk result (out.new.items ≡ out.old.items ++ flat_map (λ value. 32 ∷ value) (step_values step)) }
{
    match step {
        Step::Space => Ok(()),
        Step::DropSpace { space } => put_one(out, space),
        Step::Unbind { binding } | Step::Advance { binding } => put_one(out, binding),
        Step::Pump { endpoint } | Step::Serve { endpoint } | Step::Reset { endpoint } => {
            put_one(out, endpoint)
        }
        Step::Take { worker } => put_one(out, worker),
        Step::Deliver { message } => put_one(out, message),
        Step::Look { frame } => put_one(out, frame),
        Step::Bearer { pasid } => put_one(out, pasid),
        Step::Bind { endpoint, space } => put_two(out, endpoint, space),
        Step::EndUse { endpoint, slot } => put_two(out, endpoint, slot),
        Step::Quit { endpoint, pasid } => put_two(out, endpoint, pasid),
        Step::Unmap { space, page, count } => put_three(out, space, page, count),
        Step::UnmapRange { space, page, order } => put_three(out, space, page, order),
        Step::Ask {
            endpoint,
            pasid,
            page,
        }
        | Step::Evict {
            endpoint,
            pasid,
            page,
        } => { put_three(out, endpoint, pasid, page) }
        Step::Reply { worker, verdict } => {
            put_one(out, worker)?;
            put_word(out, verdict_word(verdict))
        }
        Step::Map { space, page, write } => {
            put_two(out, space, page)?;
            put_word(out, access_word(write))
        }
        Step::BeginUse {
            endpoint,
            pasid,
            page,
            write,
        } => {
            put_three(out, endpoint, pasid, page)?;
            put_word(out, access_word(write))
        }
        Step::Finish {
            endpoint,
            vector,
            count,
        } => {
            put_one(out, endpoint)?;
            put_vector(out, vector)?;
            put_one(out, count)
        }
        Step::Fault {
            endpoint,
            pasid,
            page,
            read,
            write,
            group,
            last,
        } => {
            put_three(out, endpoint, pasid, page)?;
            put_asked(out, read, write, group, last)
        }
    }
}

/// Appends the words of a step.
pub(crate) fn put_words(out: &mut Vec<u8>, step: Step) -> Result<(), AllocError>
    ensures { OnOk result (out.new.items ≡ out.old.items ++ joined_words (step_words step)) }
{
    out.extend_from_slice(name_of(step).as_bytes())?;
    put_values(out, step)
}

/// Appends the line of a step.
pub(crate) fn put_step(out: &mut Vec<u8>, step: Step) -> Result<(), AllocError>
    ensures { OnOk result (out.new.items ≡ out.old.items ++ step_line step) }
{
    out.extend_from_slice(name_of(step).as_bytes())?;
    put_values(out, step)?;
    out.extend_from_slice(b"\n")
}

/// Appends the line of a config.
pub(crate) fn put_config(out: &mut Vec<u8>, config: &Config) -> Result<(), AllocError>
    ensures { OnOk result (out.new.items ≡ out.old.items ++ config_line config.now) }
{
    out.extend_from_slice(b"config")?;
    put_three(out, config.endpoints, config.frames, config.workers)?;
    out.extend_from_slice(b"\n")
}
