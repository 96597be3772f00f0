//! A witness as a driver without `race`: its front, and a line for each event, with who acts.

ghost use Rattle.std.specs.Prelude.{◌≡◌, ◌++◌, ◌-◌, ◌∷◌, IfOk, None, OnOk, Some, map, option_map, replicate, slice_get};
ghost use Rattle.sva_driver_reports.specs.Witness as witness;

use crate::events::put_act;
use std::alloc::{AllocError, Global};
use std::marker::Model;
use sva_driver_texts::{Said, Text};
use sva_driver_words::put_endpoint;
use sva_judge::{Choice, Doing, Spot, act_of, is_found, take};
use sva_open::{Act, Line, LocalAct, Part, Saying};
use sva_script_reading::put_number;

/// An event.
#[derive(Drop)]
pub struct Event {
    /// Its line, with what it finds where it looks.
    text: Vec<u8>,
    /// Who acts.
    who: Vec<u8>,
    /// Whether it stands as a comment.
    is_comment: bool,
}

impl Model for Event {
    ghost use Rattle.sva_driver_reports.specs.Witness as witness;

    ghost Value = { witness.EventSaid };

    ghost view = { λ event. record {
      text = event.text.items;
      who = event.who.items;
      is_comment = event.is_comment;
    } };
}

/// Whether an act waits and does nothing else.
fn is_wait(act: &LocalAct) -> bool
    ensures { result ≡ witness.is_wait act.now }
{
    matches!(
        act,
        LocalAct::AwaitWait { .. }
            | LocalAct::AwaitPassed { .. }
            | LocalAct::AwaitQueue
            | LocalAct::AwaitQueueOf { .. }
            | LocalAct::AwaitGroups { .. }
            | LocalAct::AwaitResets
            | LocalAct::AwaitIdle
            | LocalAct::AwaitGone
    )
}

/// Whether a line stands as a comment: it waits or looks, and does nothing else.
fn is_comment(saying: &Saying) -> bool
    ensures { result ≡ witness.is_comment saying.now }
{
    match saying {
        Saying::AwaitsLine { .. } | Saying::AwaitsWaits { .. } | Saying::Looks { .. } => true,
        Saying::Does { act } => match act {
            Act::At { act, .. } => is_wait(act),
            Act::Mark
            | Act::SetPage { .. }
            | Act::ClearPage { .. }
            | Act::FreeFrame { .. }
            | Act::Freeze { .. }
            | Act::FreeSpace { .. }
            | Act::FreeDomain { .. } => false,
        },
        Saying::Names { .. }
        | Saying::Locks { .. }
        | Saying::Unlocks { .. }
        | Saying::Sets { .. } => false,
    }
}

fn answer_text(is_found: bool) -> &'static str
    ensures { result.now ≡ witness.answer_text is_found }
{
    if is_found { ": yes" } else { ": no" }
}

/// Appends what a line finds, if it looks.
fn put_answer(out: &mut Vec<u8>, spot: &Spot, saying: &Saying) -> Result<(), AllocError>
    ensures { OnOk result (out.new.items ≡ out.old.items ++ witness.answer_of spot.now saying.now) }
{
    match saying {
        Saying::Looks { condition, so } => {
            let is_found = is_found(spot, *condition, *so);
            out.extend_from_slice(answer_text(is_found).as_bytes())
        }
        Saying::Does { .. }
        | Saying::Names { .. }
        | Saying::AwaitsLine { .. }
        | Saying::AwaitsWaits { .. }
        | Saying::Locks { .. }
        | Saying::Unlocks { .. }
        | Saying::Sets { .. } => Ok(()),
    }
}

/// Appends a thread, if there is one.
fn put_thread(out: &mut Vec<u8>, thread: &[u8]) -> Result<(), AllocError>
    ensures { OnOk result (out.new.items ≡ out.old.items ++ witness.threaded thread.now) }
{
    match thread {
        [] => Ok(()),
        [_first, ..] => {
            out.extend_from_slice(thread)?;
            out.extend_from_slice(b", ")
        }
    }
}

/// Appends the thread of a line, and its number.
pub(crate) fn put_line_who(out: &mut Vec<u8>, thread: &[u8], number: u64) -> Result<(), AllocError>
    ensures { OnOk result (out.new.items ≡ out.old.items ++ witness.line_who thread.now number) }
{
    put_thread(out, thread)?;
    out.extend_from_slice(b"line ")?;
    put_number(out, number)
}

/// The event of a line.
fn line_event(alloc: Global, spot: &Spot, line: &Line, said: &Said) -> Result<Event, AllocError>
    ensures { IfOk result (λ event. Some event ≡ witness.line_event spot.now (Some line.now) (Some said.now)) }
{
    let mut text = Vec::from_slice(alloc, said.text.as_slice())?;
    put_answer(&mut text, spot, &line.saying)?;
    let mut who = Vec::new(alloc);
    put_line_who(&mut who, said.thread.as_slice(), line.number)?;
    Ok(Event {
        text,
        who,
        is_comment: is_comment(&line.saying),
    })
}

/// The event of the line at a place.
fn event_at(
    alloc: Global,
    text: &Text,
    spot: &Spot,
    place: usize,
) -> Result<Option<Event>, AllocError>
    ensures { IfOk result (λ event. event ≡ witness.line_event spot.now
        (slice_get text.now.driver.lines.items place) (slice_get text.now.said.items place)) }
{
    let Some(line) = text.driver.lines.get(place) else {
        return Ok(None);
    };
    let Some(said) = text.said.get(place) else {
        return Ok(None);
    };
    Ok(Some(line_event(alloc, spot, line, said)?))
}

/// Appends who does what comes by itself.
fn put_who(out: &mut Vec<u8>, doing: Doing, at: usize) -> Result<(), AllocError>
    ensures { OnOk result (out.new.items ≡ out.old.items ++ witness.who_text doing at) }
{
    match doing {
        Doing::Line => Ok(()),
        Doing::Deliver => out.extend_from_slice(b"link"),
        Doing::Pump
        | Doing::PumpAt
        | Doing::Expire
        | Doing::Write
        | Doing::ForgetEntry
        | Doing::Forget => put_endpoint(out, b"unit", at),
        Doing::Serve | Doing::Answer | Doing::Fail => out.extend_from_slice(b"worker"),
        Doing::End
        | Doing::Finish
        | Doing::Pass
        | Doing::Quit
        | Doing::Leave
        | Doing::Complete
        | Doing::Ask
        | Doing::Use
        | Doing::Fault
        | Doing::Further
        | Doing::Evict => put_endpoint(out, b"endpoint", at),
    }
}

/// The event of an act that comes by itself.
fn act_event(
    alloc: Global,
    doing: Doing,
    at: usize,
    part: &Part,
    act: &LocalAct,
) -> Result<Event, AllocError>
    ensures { IfOk result (λ event. Some event ≡ witness.act_event doing at (Some part.now) (Some act.now)) }
{
    let mut text = Vec::new(alloc);
    put_act(&mut text, part, at, act)?;
    let mut who = Vec::new(alloc);
    put_who(&mut who, doing, at)?;
    Ok(Event {
        text,
        who,
        is_comment: false,
    })
}

/// The event of what comes by itself.
fn own_event(
    alloc: Global,
    text: &Text,
    spot: &Spot,
    choice: Choice,
) -> Result<Option<Event>, AllocError>
    ensures { IfOk result (λ event. event ≡ witness.own_event text.now spot.now choice) }
{
    let Some(part) = spot.world.parts.get(choice.at) else {
        return Ok(None);
    };
    let found = act_of(&text.driver, spot, choice.doing, choice.at, choice.number);
    let Some(act) = found else {
        return Ok(None);
    };
    Ok(Some(act_event(alloc, choice.doing, choice.at, part, &act)?))
}

/// The event of a choice.
pub(crate) fn event_of(
    alloc: Global,
    text: &Text,
    spot: &Spot,
    choice: Choice,
) -> Result<Option<Event>, AllocError>
    ensures { IfOk result (λ event. event ≡ witness.event_of text.now spot.now choice) }
{
    match choice.doing {
        Doing::Line => event_at(alloc, text, spot, choice.number),
        _ => own_event(alloc, text, spot, choice),
    }
}

/// Takes choices one after another, and gives the event of each.
pub(crate) fn events_of(
    alloc: Global,
    text: &Text,
    spot: &mut Spot,
    choices: &[Choice],
) -> Result<Vec<Event>, AllocError>
    ensures events { IfOk result (λ events. events.items ≡ witness.events_from text.now spot.old choices.now) }
    ensures spot { IfOk result (λ _. spot.new ≡ witness.last_spot text.now spot.old choices.now) }
{
    let mut events = Vec::new(alloc);
    for place in 0..choices.len() {
        let choice = choices[place];
        match event_of(alloc, text, spot, choice)? {
            None => return Ok(events),
            Some(event) => events.push(event)?,
        }
        let taken = take(&text.driver, spot, choice)?;
        if !taken {
            return Ok(events);
        }
    }
    Ok(events)
}

/// The greater of a width and that of an event that is no comment.
fn wider(width: usize, event: &Event) -> usize
    ensures { result ≡ witness.wider width event.now }
{
    if !event.is_comment && width < event.text.len() {
        event.text.len()
    } else {
        width
    }
}

/// The width of the longest event that is no comment.
fn width_of(events: &[Event]) -> usize
    ensures { result ≡ witness.width_from 0 events.now }
{
    let mut width = 0;
    for place in 0..events.len() {
        width = wider(width, &events[place]);
    }
    width
}

/// Appends so many blanks.
fn put_blanks(out: &mut Vec<u8>, count: usize) -> Result<(), AllocError>
    ensures { OnOk result (out.new.items ≡ out.old.items ++ replicate count 32) }
{
    for _column in 0..count {
        out.extend_from_slice(b" ")?;
    }
    Ok(())
}

/// Appends an event as a comment.
fn put_comment(out: &mut Vec<u8>, event: &Event) -> Result<(), AllocError>
    ensures { OnOk result (out.new.items ≡ out.old.items ++ witness.comment_line event.now) }
{
    out.extend_from_slice(b"# ")?;
    out.extend_from_slice(event.who.as_slice())?;
    out.extend_from_slice(b": ")?;
    out.extend_from_slice(event.text.as_slice())?;
    out.extend_from_slice(b"\n")
}

/// Appends the line of an event that does something.
fn put_doing(out: &mut Vec<u8>, event: &Event, width: usize) -> Result<(), AllocError>
    ensures { OnOk result (out.new.items ≡ out.old.items ++ witness.doing_line width event.now) }
{
    out.extend_from_slice(event.text.as_slice())?;
    put_blanks(out, width.saturating_sub(event.text.len()))?;
    out.extend_from_slice(b" # ")?;
    out.extend_from_slice(event.who.as_slice())?;
    out.extend_from_slice(b"\n")
}

fn put_event(out: &mut Vec<u8>, event: &Event, width: usize) -> Result<(), AllocError>
    ensures { OnOk result (out.new.items ≡ out.old.items ++ witness.event_line width event.now) }
{
    if event.is_comment {
        return put_comment(out, event);
    }
    put_doing(out, event, width)
}

/// Appends the event of a line before `race`.
pub(crate) fn put_front_line(out: &mut Vec<u8>, event: &Event) -> Result<(), AllocError>
    ensures { OnOk result (out.new.items ≡ out.old.items ++ witness.front_line event.now) }
{
    if event.is_comment {
        return put_comment(out, event);
    }
    out.extend_from_slice(event.text.as_slice())?;
    out.extend_from_slice(b"\n")
}

/// Appends all events.
pub(crate) fn put_events(out: &mut Vec<u8>, events: &[Event]) -> Result<(), AllocError>
    ensures { OnOk result (out.new.items ≡ out.old.items ++ witness.events_text events.now) }
{
    let width = width_of(events);
    for place in 0..events.len() {
        put_event(out, &events[place], width)?;
    }
    Ok(())
}
