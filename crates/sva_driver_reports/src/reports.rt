//! The report of a driver that was judged.

ghost use Rattle.std.specs.Prelude.{◌≡◌, ◌++◌, IfOk, None, OnOk, Some, flat_map, length};
ghost use Rattle.sva_open_safe.specs.Wrongs as wrongs;
ghost use Rattle.sva_driver_reports.specs.Reports as reports;

use crate::findings::put_wrong;
use crate::fronts::{put_front, put_if};
use crate::limits::put_limits;
use crate::nevers::{is_tried, put_nevers, put_untried};
use crate::notes::{put_budgets, put_others, put_state, put_waiting};
use crate::witness::{Event, events_of, put_events};
use std::alloc::{AllocError, Global};
use sva_driver_texts::Text;
use sva_driver_words::put_counted;
use sva_judge::{Choice, Finding, Looked, Spot, Verdict, start};
use sva_open_safe::first_wrong;

/// What is said of a driver.
#[derive(Clone, Copy, PartialEq, Eq)]
pub enum Ruling {
    /// Each permitted list of events is safe, and no line waits at an end.
    Safe,
    /// Each is, but no endpoint ever held a translation or sent a page request.
    Untried,
    /// The lines, taken one after another, lead to nothing wrong; no other order was looked at.
    Right,
    /// One isn't.
    Unsafe,
    /// One isn't, and there was no room for one more moment: not all that is wrong may be told.
    UnsafeSoFar,
    /// Each is, but a line waits at an end.
    Stuck,
    /// There was no room for one more moment.
    CutOff,
}

fn put_event_count(out: &mut Vec<u8>, count: usize) -> Result<(), AllocError>
    ensures { OnOk result (out.new.items ≡ out.old.items ++ reports.events_count count) }
{
    put_counted(out, count as u64, "event", "events")
}

/// Appends what is wrong at a moment.
fn put_finding(out: &mut Vec<u8>, spot: &Spot) -> Result<(), AllocError>
    ensures { OnOk result (out.new.items
        ≡ out.old.items ++ reports.finding_text (wrongs.first_wrong spot.now.world)) }
{
    match first_wrong(&spot.world) {
        None => Ok(()),
        Some(wrong) => put_wrong(out, wrong),
    }
}

/// The events of a witness, and where they lead.
fn witness_of(
    alloc: Global,
    text: &Text,
    choices: &[Choice],
) -> Result<(Vec<Event>, Spot), AllocError>
    ensures events { IfOk result (λ witness. witness.0.items ≡ reports.events_by text.now choices.now) }
    ensures spot { IfOk result (λ witness. witness.1 ≡ reports.behind text.now choices.now) }
{
    let mut spot = start(alloc, &text.driver)?;
    let events = events_of(alloc, text, &mut spot, choices)?;
    Ok((events, spot))
}

/// Appends a witness as a driver without `race`.
fn put_witness(
    alloc: Global,
    out: &mut Vec<u8>,
    text: &Text,
    events: &[Event],
) -> Result<(), AllocError>
    ensures { OnOk result (out.new.items ≡ out.old.items ++ reports.witness_by text.now events.now) }
{
    put_front(alloc, out, text)?;
    put_events(out, events)
}

fn put_unsafe(
    alloc: Global,
    out: &mut Vec<u8>,
    text: &Text,
    choices: &[Choice],
) -> Result<(), AllocError>
    ensures { OnOk result (out.new.items ≡ out.old.items ++ reports.unsafe_text text.now choices.now) }
{
    let (events, spot) = witness_of(alloc, text, choices)?;
    out.extend_from_slice(b"unsafe in ")?;
    put_event_count(out, choices.len())?;
    out.extend_from_slice(b": ")?;
    put_finding(out, &spot)?;
    out.extend_from_slice(b"\n")?;
    put_witness(alloc, out, text, events.as_slice())?;
    Ok(())
}

fn put_stuck(
    alloc: Global,
    out: &mut Vec<u8>,
    text: &Text,
    choices: &[Choice],
) -> Result<(), AllocError>
    ensures { OnOk result (out.new.items ≡ out.old.items ++ reports.stuck_text text.now choices.now) }
{
    let (events, spot) = witness_of(alloc, text, choices)?;
    out.extend_from_slice(b"stuck in ")?;
    put_event_count(out, choices.len())?;
    out.extend_from_slice(b": ")?;
    put_waiting(out, text, &spot)?;
    out.extend_from_slice(b"\n")?;
    put_others(out, text, &spot)?;
    put_state(out, &spot)?;
    put_budgets(out, b"# ", text)?;
    put_witness(alloc, out, text, events.as_slice())?;
    Ok(())
}

/// Appends the first line of a driver that is safe: whether that was found endpoint by endpoint, and whether anything was
/// tried that could go wrong too.
fn put_safe_line(
    out: &mut Vec<u8>,
    moments: usize,
    is_apart: bool,
    tried: bool,
) -> Result<(), AllocError>
    ensures { OnOk result (out.new.items ≡ out.old.items ++ reports.safe_line moments is_apart tried) }
{
    out.extend_from_slice(b"safe in all ")?;
    put_counted(out, moments as u64, "moment", "moments")?;
    put_if(out, is_apart, b", endpoint by endpoint")?;
    put_untried(out, tried)?;
    out.extend_from_slice(b"\n")
}

fn put_safe(
    alloc: Global,
    out: &mut Vec<u8>,
    text: &Text,
    moments: usize,
    is_apart: bool,
    looked: &[Looked],
) -> Result<(), AllocError>
    ensures { OnOk result (out.new.items
        ≡ out.old.items ++ reports.safe_text text.now moments is_apart looked.now) }
{
    put_safe_line(out, moments, is_apart, is_tried(looked))?;
    put_budgets(out, b"", text)?;
    put_limits(out, text)?;
    put_nevers(alloc, out, text, looked)?;
    Ok(())
}

fn put_cut(out: &mut Vec<u8>, moments: usize, events: usize) -> Result<(), AllocError>
    ensures { OnOk result (out.new.items ≡ out.old.items ++ reports.cut_text moments events) }
{
    out.extend_from_slice(b"cut off at ")?;
    put_counted(out, moments as u64, "moment", "moments")?;
    out.extend_from_slice(b": safe in each list of fewer than ")?;
    put_event_count(out, events)?;
    out.extend_from_slice(b"\n")
}

fn put_found_line(out: &mut Vec<u8>, finding: &Finding) -> Result<(), AllocError>
    ensures { OnOk result (out.new.items ≡ out.old.items ++ reports.found_line finding.now) }
{
    out.extend_from_slice(b"unsafe in ")?;
    put_event_count(out, finding.witness.len())?;
    out.extend_from_slice(b": ")?;
    put_wrong(out, finding.wrong)?;
    out.extend_from_slice(b"\n")
}

/// Appends the line of a finding, and its witness, unless the line is wanted alone.
fn put_found(
    alloc: Global,
    out: &mut Vec<u8>,
    text: &Text,
    is_brief: bool,
    finding: &Finding,
) -> Result<(), AllocError>
    ensures { OnOk result (out.new.items ≡ out.old.items ++ reports.found_text text.now is_brief finding.now) }
{
    put_found_line(out, finding)?;
    if is_brief {
        return Ok(());
    }
    let (events, _spot) = witness_of(alloc, text, finding.witness.as_slice())?;
    put_witness(alloc, out, text, events.as_slice())
}

fn put_each_found(
    alloc: Global,
    out: &mut Vec<u8>,
    text: &Text,
    is_brief: bool,
    found: &[Finding],
) -> Result<(), AllocError>
    ensures { OnOk result (out.new.items
        ≡ out.old.items ++ flat_map (reports.found_text text.now is_brief) found.now) }
{
    for place in 0..found.len() {
        put_found(alloc, out, text, is_brief, &found[place])?;
    }
    Ok(())
}

/// Appends that there are no more findings.
fn put_all_told(out: &mut Vec<u8>, moments: usize) -> Result<(), AllocError>
    ensures { OnOk result (out.new.items ≡ out.old.items ++ reports.no_more_text None moments) }
{
    out.extend_from_slice(b" in all ")?;
    put_counted(out, moments as u64, "moment", "moments")
}

/// Appends that there are no more findings in fewer events than those behind which the search was cut off.
fn put_not_all(out: &mut Vec<u8>, moments: usize, events: usize) -> Result<(), AllocError>
    ensures { OnOk result (out.new.items ≡ out.old.items ++ reports.no_more_text (Some events) moments) }
{
    out.extend_from_slice(b", cut off at ")?;
    put_counted(out, moments as u64, "moment", "moments")?;
    out.extend_from_slice(b": no other in fewer than ")?;
    put_event_count(out, events)
}

/// Appends of which findings there are no more.
fn put_no_more(out: &mut Vec<u8>, cut: Option<usize>, moments: usize) -> Result<(), AllocError>
    ensures { OnOk result (out.new.items ≡ out.old.items ++ reports.no_more_text cut moments) }
{
    match cut {
        None => put_all_told(out, moments),
        Some(events) => put_not_all(out, moments, events),
    }
}

fn put_last(
    out: &mut Vec<u8>,
    count: usize,
    cut: Option<usize>,
    moments: usize,
) -> Result<(), AllocError>
    ensures { OnOk result (out.new.items ≡ out.old.items ++ reports.last_text count cut moments) }
{
    put_counted(out, count as u64, "finding", "findings")?;
    put_no_more(out, cut, moments)?;
    out.extend_from_slice(b"; what is behind a finding was not searched\n")?;
    Ok(())
}

/// Appends all findings, and how many there are.
fn put_findings(
    alloc: Global,
    out: &mut Vec<u8>,
    text: &Text,
    is_brief: bool,
    found: &[Finding],
    cut: Option<usize>,
    moments: usize,
) -> Result<(), AllocError>
    ensures { OnOk result (out.new.items
        ≡ out.old.items ++ reports.findings_text text.now is_brief found.now cut moments) }
{
    put_each_found(alloc, out, text, is_brief, found)?;
    put_last(out, found.len(), cut, moments)
}

/// What all findings say in a word.
fn ruling_of_all(cut: Option<usize>) -> Ruling
    ensures { result ≡ reports.ruling_of_all cut }
{
    match cut {
        None => Ruling::Unsafe,
        Some(_events) => Ruling::UnsafeSoFar,
    }
}

/// What a verdict says in a word.
pub fn ruling_of(verdict: &Verdict) -> Ruling
    ensures { result ≡ reports.ruling_of verdict.now }
{
    match verdict {
        Verdict::Safe { looked, .. } | Verdict::SafeApart { looked, .. } => {
            if is_tried(looked.as_slice()) {
                Ruling::Safe
            } else {
                Ruling::Untried
            }
        }
        Verdict::Unsafe { .. } => Ruling::Unsafe,
        Verdict::Findings { cut, .. } => ruling_of_all(*cut),
        Verdict::Stuck { .. } => Ruling::Stuck,
        Verdict::CutOff { .. } => Ruling::CutOff,
    }
}

/// Appends the report of a driver that was judged, of all findings without their witnesses if their lines are wanted
/// alone.
pub fn put_report(
    alloc: Global,
    out: &mut Vec<u8>,
    text: &Text,
    is_brief: bool,
    verdict: &Verdict,
) -> Result<(), AllocError>
    ensures { OnOk result (out.new.items ≡ out.old.items ++ reports.report_text text.now is_brief verdict.now) }
{
    match verdict {
        Verdict::Safe { moments, looked } => {
            put_safe(alloc, out, text, *moments, false, looked.as_slice())
        }
        Verdict::SafeApart { moments, looked } => {
            put_safe(alloc, out, text, *moments, true, looked.as_slice())
        }
        Verdict::Unsafe { witness } => put_unsafe(alloc, out, text, witness.as_slice()),
        Verdict::Findings {
            found,
            moments,
            cut,
        } => put_findings(alloc, out, text, is_brief, found.as_slice(), *cut, *moments),
        Verdict::Stuck { witness, .. } => put_stuck(alloc, out, text, witness.as_slice()),
        Verdict::CutOff { moments, events } => put_cut(out, *moments, *events),
    }
}
