//! The run of one command, and the status that it exits with.

ghost use Rattle.std.specs.Prelude.{◌≡◌, ◌≢◌, ◌≤◌, ◌<◌, ◌⊎◌, List, ℕ, [], length, Option, OnOk, Result};
ghost use Rattle.std.specs.Io.KnownBytes.{Appends};
ghost use Rattle.std.specs.IoError.{error_kind};
ghost use Rattle.sva_command.specs.Command.{Asks, AsksExplore, AsksJudge, AsksRun, AsksStrict, AsksText, CallsHelp, CallsVersion, IsMistaken, texts};
ghost use Rattle.sva_program.specs.Run.{HasCause, IsSaid, Reports, Rules, RulesIf, RulesOf, Says, WhereKnown, columns_of, complaint, explored_of, fault_line, is_strict, question_of, ran_of, ruled_of};
ghost use Rattle.sva_program.specs.Run.{status_of, status_of_untried, style_of, unread_line, wanted_of, wanted_of_driver};
ghost use Rattle.sva_streams.specs.Streams.{IsNew, Writes};

use crate::storming::drive_storm;
use clap::error::ErrorKind;
use std::alloc::Global;
use std::fmt::Display;
use std::io;
use std::io::{ErrorKind as IoErrorKind, Read, Write};
use std::sync::Wait;
use std::thread::Threads;
use sva_charts::{Drawing, chart, chart_driver};
use sva_command::{Asked, Beside, NO_TEXT, parse};
use sva_driver_reports::{Ruling, judge, run};
use sva_race_reports::{Judged, Wanted, explore};
use sva_scenario::{DriveFault, Outcome, Told, check, drive, write_all};
use sva_script_reports::{Columns, Saying, Style, print, trace};
use sva_search::Watch;
use sva_variants::{Question, vary};
use sva_why::Explainer;

/// The steps were run, all claims of a race hold, a driver is safe, or help was shown.
const DONE: u8 = 0;

/// A line fault, a config out of its limits, or a fault of a stream or of memory.
const FAULT: u8 = 1;

/// The command line is wrong.
const MISTAKE: u8 = 2;

/// A claim of a race fails, or a driver isn't safe, or stuck.
const FAILED: u8 = 4;

/// No claim of a race fails, and one is unknown; or the search of a driver was cut off.
const UNKNOWN: u8 = 5;

/// With `--strict`: in a driver nothing was ever tried, so that its verdict says nothing.
const UNTRIED: u8 = 8;

/// How a run ends where no stream failed and no memory lacked.
#[derive(Clone, Copy, PartialEq, Eq)]
pub enum Ending {
    /// So a run of steps ended. `Faulted` is also said of a race or a driver that isn't run.
    Ran(Outcome),
    /// A race was explored, and this is said of all its claims together.
    Explored(Judged),
    /// A driver was judged, or its lines were taken, and this is said of it.
    Ruled(Ruling),
}

/// A whole run of svahost on its words, the program's name first: the status that it exits with. The command line is
/// judged before anything is read. Each command writes what it makes of all that the reader gives, `trace` line by line; what a
/// fault is, `errors` is told in a line. Help and the version go to the writer, what is wrong with the words to `errors`.
/// The watch is told how far a search is; no contract says what.
pub fn main_with<X: AllocGlobal + Threads + Wait + Sync, R: Read, W: Write, E: Write, P: Watch>(
    rt: &X,
    words: &[String],
    reader: &mut Told<R>,
    writer: &mut Told<W>,
    errors: &mut Told<E>,
    watch: &mut P,
) -> u8
    requires reader { IsNew reader.old }
    requires writer { IsNew writer.old }
    requires errors { IsNew errors.old }
    ensures run { (asked : Asked) → Asks asked (texts words.now) → (ended : Result Ending DriveFault) × (result ≡ status_of (is_strict asked) ended)
        × Reports asked (R.remaining reader.old.inner) (W.contents writer.old.inner) (W.contents writer.new.inner) ended
        × HasCause reader.new writer.new ended
        × Says E.contents errors.old errors.new (complaint ended)
        × OnOk ended (errors.new ≡ errors.old) }
    ensures unread { (AsksRun (texts words.now) → ⊥) → reader.new ≡ reader.old }
    ensures help { (AsksRun (texts words.now) → ⊥) → result ≡ DONE
        → AsksText (texts words.now) × (writer.new.failures ≡ 0) × (errors.new ≡ errors.old)
        × ((text : List ℕ) × (text ≢ []) × Appends (W.contents writer.old.inner) (W.contents writer.new.inner) text) }
    ensures fault { (AsksRun (texts words.now) → ⊥) → result ≡ FAULT
        → (fault : DriveFault) × HasCause {A = Ending} reader.new writer.new (Err fault) × ((fault ≡ DriveFault.Memory) → writer.new ≡ writer.old)
        × Says E.contents errors.old errors.new (fault_line fault) }
    ensures silent { (AsksRun (texts words.now) → ⊥) → (AsksText (texts words.now) → ⊥) → writer.new ≡ writer.old }
    ensures mistake { result ≡ MISTAKE → IsMistaken (texts words.now) × (writer.new ≡ writer.old)
        × ((text : List ℕ) × (text ≢ []) × Says E.contents errors.old errors.new text) }
    ensures calls_help { CallsHelp (texts words.now) → result ≢ MISTAKE }
    ensures calls_version { CallsVersion (texts words.now) → result ≢ MISTAKE }
    ensures no_command { length words.now < 2 → result ≢ DONE }
    ensures status { (AsksExplore (texts words.now) → ⊥) → (AsksJudge (texts words.now) → ⊥) → result ≤ MISTAKE }
    ensures explored { AsksExplore (texts words.now)
        → (result ≡ DONE) ⊎ (result ≡ FAULT) ⊎ (result ≡ FAILED) ⊎ (result ≡ UNKNOWN) }
    ensures judged { AsksJudge (texts words.now)
        → (result ≡ DONE) ⊎ (result ≡ FAULT) ⊎ (result ≡ FAILED) ⊎ (result ≡ UNKNOWN)
        ⊎ ((result ≡ UNTRIED) × AsksStrict (texts words.now)) }
{
    match parse(rt.alloc(), words) {
        Ok(asked) => {
            let ended = perform(rt, asked, reader, writer, watch);
            finish(is_strict(asked), ended, errors)
        }
        Err(error) => answer(rt.alloc(), error.kind(), &error, writer, errors),
    }
}

/// A whole run of a command: the status that it exits with.
pub fn main_of<X: AllocGlobal + Threads + Wait + Sync, R: Read, W: Write, E: Write, P: Watch>(
    rt: &X,
    asked: Asked,
    reader: &mut Told<R>,
    writer: &mut Told<W>,
    errors: &mut Told<E>,
    watch: &mut P,
) -> u8
    requires reader { IsNew reader.old }
    requires writer { IsNew writer.old }
    requires errors { IsNew errors.old }
    ensures { (ended : Result Ending DriveFault) × (result ≡ status_of (is_strict asked) ended)
        × Reports asked (R.remaining reader.old.inner) (W.contents writer.old.inner) (W.contents writer.new.inner) ended
        × HasCause reader.new writer.new ended
        × Says E.contents errors.old errors.new (complaint ended)
        × OnOk ended (errors.new ≡ errors.old) }
{
    let ended = perform(rt, asked, reader, writer, watch);
    finish(is_strict(asked), ended, errors)
}

/// What a command makes of its streams.
pub(crate) fn perform<X: AllocGlobal + Threads + Wait + Sync, R: Read, W: Write, P: Watch>(
    rt: &X,
    asked: Asked,
    reader: &mut Told<R>,
    writer: &mut Told<W>,
    watch: &mut P,
) -> Result<Ending, DriveFault>
    requires reader { IsNew reader.old }
    requires writer { IsNew writer.old }
    ensures report { Reports asked (R.remaining reader.old.inner) (W.contents writer.old.inner) (W.contents writer.new.inner) result }
    ensures cause { HasCause reader.new writer.new result }
{
    match asked {
        Asked::Replay => ran(drive(rt.alloc(), reader, writer)),
        Asked::Check => ran(check(rt.alloc(), reader, writer)),
        Asked::Storm { turns } => ran(drive_storm(rt, rt.alloc(), turns, reader, writer)),
        Asked::Plain => ran(print::<Explainer, R, W>(rt.alloc(), Saying::Plain, reader, writer)),
        Asked::Test => ran(print::<Explainer, R, W>(rt.alloc(), Saying::Test, reader, writer)),
        Asked::Show => ran(print::<Explainer, R, W>(rt.alloc(), Saying::Show, reader, writer)),
        Asked::Why => ran(print::<Explainer, R, W>(rt.alloc(), Saying::Why, reader, writer)),
        Asked::Chart { svg } => ran(chart(rt.alloc(), drawing_of(svg), reader, writer)),
        Asked::Explore {
            most,
            whys,
            few_ends,
        } => {
            let wanted = wanted_of(most, whys, few_ends);
            explored(explore::<Explainer, R, W, P>(rt.alloc(), wanted, reader, writer, watch))
        }
        Asked::Judge {
            run,
            most,
            all,
            beside,
            ..
        } => {
            let wanted = wanted_of_driver(most, all);
            let question = question_of(beside);
            let is_chart = beside.chart;
            ruled(rule_by(
                rt.alloc(),
                run,
                is_chart,
                question,
                wanted,
                reader,
                writer,
                watch,
            ))
        }
        Asked::Trace { live, whys } => ran(trace::<Explainer, R, W>(
            rt.alloc(),
            style_of(live, whys),
            reader,
            writer,
        )),
    }
}

/// Whether a verdict that says nothing has a status of its own.
pub(crate) fn is_strict(asked: Asked) -> bool
    ensures { result ≡ is_strict asked }
{
    match asked {
        Asked::Judge { strict, .. } => strict,
        _ => false,
    }
}

/// How a run of steps ends.
fn ran(found: Result<Outcome, DriveFault>) -> Result<Ending, DriveFault>
    ensures { result ≡ ran_of found }
{
    match found {
        Ok(outcome) => Ok(Ending::Ran(outcome)),
        Err(fault) => Err(fault),
    }
}

/// How the exploring of a race ends.
fn explored(found: Result<Option<Judged>, DriveFault>) -> Result<Ending, DriveFault>
    ensures { result ≡ explored_of found }
{
    match found {
        Ok(None) => Ok(Ending::Ran(Outcome::Faulted)),
        Ok(Some(judged)) => Ok(Ending::Explored(judged)),
        Err(fault) => Err(fault),
    }
}

/// What is wanted of a race.
fn wanted_of(most: u64, whys: bool, few_ends: bool) -> Wanted
    ensures { result ≡ wanted_of most whys few_ends }
{
    Wanted {
        most,
        whys,
        few_ends,
        is_brief: false,
    }
}

/// How the judging of a driver ends, or the taking of its lines.
fn ruled(found: Result<Option<Ruling>, DriveFault>) -> Result<Ending, DriveFault>
    ensures { result ≡ ruled_of found }
{
    match found {
        Ok(None) => Ok(Ending::Ran(Outcome::Faulted)),
        Ok(Some(ruling)) => Ok(Ending::Ruled(ruling)),
        Err(fault) => Err(fault),
    }
}

/// What is wanted of a driver.
fn wanted_of_driver(most: u64, all: bool) -> sva_driver_reports::Wanted
    ensures { result ≡ wanted_of_driver most all }
{
    sva_driver_reports::Wanted {
        most,
        all,
        lines_alone: false,
    }
}

/// Judges a driver, or takes its lines one after another.
fn rule<R: Read, W: Write, P: Watch>(
    alloc: Global,
    in_order: bool,
    wanted: sva_driver_reports::Wanted,
    reader: &mut Told<R>,
    writer: &mut Told<W>,
    watch: &mut P,
) -> Result<Option<Ruling>, DriveFault>
    requires reader { IsNew reader.old }
    requires writer { IsNew writer.old }
    ensures ruled { WhereKnown (λ text. Rules in_order wanted text (W.contents writer.old.inner) (W.contents writer.new.inner) result)
        (R.remaining reader.old.inner) (W.contents writer.old.inner) (W.contents writer.new.inner) result }
    ensures cause { HasCause reader.new writer.new result }
{
    if in_order {
        run(alloc, reader, writer)
    } else {
        judge(alloc, wanted, reader, writer, watch)
    }
}

/// Draws the witness of a driver; or answers what is asked of it, judges it, or takes its lines one after another.
fn rule_by<R: Read, W: Write, P: Watch>(
    alloc: Global,
    in_order: bool,
    is_chart: bool,
    question: Option<Question>,
    wanted: sva_driver_reports::Wanted,
    reader: &mut Told<R>,
    writer: &mut Told<W>,
    watch: &mut P,
) -> Result<Option<Ruling>, DriveFault>
    requires reader { IsNew reader.old }
    requires writer { IsNew writer.old }
    ensures ruled { WhereKnown (λ text. RulesIf is_chart in_order question wanted text (W.contents writer.old.inner)
        (W.contents writer.new.inner) result)
        (R.remaining reader.old.inner) (W.contents writer.old.inner) (W.contents writer.new.inner) result }
    ensures cause { HasCause reader.new writer.new result }
{
    if is_chart {
        chart_driver(alloc, wanted.most, reader, writer, watch)
    } else {
        rule_of(alloc, in_order, question, wanted, reader, writer, watch)
    }
}

/// What is asked of a driver beside its verdict.
fn question_of(beside: Beside) -> Option<Question>
    ensures { result ≡ question_of beside }
{
    if beside.needed {
        Some(Question::Needed)
    } else if beside.platforms {
        Some(Question::Platforms)
    } else {
        None
    }
}

/// Answers what is asked of a driver; or judges it, or takes its lines one after another.
fn rule_of<R: Read, W: Write, P: Watch>(
    alloc: Global,
    in_order: bool,
    question: Option<Question>,
    wanted: sva_driver_reports::Wanted,
    reader: &mut Told<R>,
    writer: &mut Told<W>,
    watch: &mut P,
) -> Result<Option<Ruling>, DriveFault>
    requires reader { IsNew reader.old }
    requires writer { IsNew writer.old }
    ensures ruled { WhereKnown (λ text. RulesOf in_order question wanted text (W.contents writer.old.inner)
        (W.contents writer.new.inner) result)
        (R.remaining reader.old.inner) (W.contents writer.old.inner) (W.contents writer.new.inner) result }
    ensures cause { HasCause reader.new writer.new result }
{
    match question {
        Some(question) => vary(alloc, question, wanted.most, reader, writer, watch),
        None => rule(alloc, in_order, wanted, reader, writer, watch),
    }
}

/// How a chart is drawn: as text, or with `--svg` as a picture.
fn drawing_of(svg: bool) -> Drawing {
    if svg { Drawing::Svg } else { Drawing::Text }
}

/// How a trace ends its columns: `--live` leaves out the padding.
fn columns_of(live: bool) -> Columns
    ensures { result ≡ columns_of live }
{
    if live {
        Columns::Tabbed
    } else {
        Columns::Padded
    }
}

/// How a trace writes its rows.
fn style_of(live: bool, whys: bool) -> Style
    ensures { result ≡ style_of live whys }
{
    Style {
        columns: columns_of(live),
        whys,
    }
}

/// The status where the command line couldn't be read: memory ran out, or a word isn't UTF-8 text. `errors` is told in
/// a line which it was.
pub fn unread<E: Write>(error: &io::Error, errors: &mut Told<E>) -> u8
    requires { IsNew errors.old }
    ensures memory { error_kind error.now ≡ IoErrorKind.OutOfMemory
        → (result ≡ FAULT) × Says E.contents errors.old errors.new (fault_line DriveFault.Memory) }
    ensures other { error_kind error.now ≢ IoErrorKind.OutOfMemory
        → (result ≡ MISTAKE) × Says E.contents errors.old errors.new unread_line }
{
    match error.kind() {
        IoErrorKind::OutOfMemory => faulted(DriveFault::Memory, errors),
        _ => {
            say(
                "error: a word of the command line isn't UTF-8 text\n",
                errors,
            );
            MISTAKE
        }
    }
}

/// The status of a driver in which nothing was ever tried.
fn untried(strict: bool) -> u8
    ensures { result ≡ status_of_untried strict }
{
    if strict { UNTRIED } else { DONE }
}

/// The status of a run that ended so. A fault is told to `errors`.
pub(crate) fn finish<E: Write>(
    strict: bool,
    ended: Result<Ending, DriveFault>,
    errors: &mut Told<E>,
) -> u8
    requires { IsNew errors.old }
    ensures status { result ≡ status_of strict ended }
    ensures said { Says E.contents errors.old errors.new (complaint ended) }
    ensures silent { OnOk ended (errors.new ≡ errors.old) }
{
    match ended {
        Ok(Ending::Ran(Outcome::Done)) => DONE,
        Ok(Ending::Ran(Outcome::Faulted)) => FAULT,
        Ok(Ending::Explored(Judged::Holds)) => DONE,
        Ok(Ending::Explored(Judged::Fails)) => FAILED,
        Ok(Ending::Explored(Judged::Unknown)) => UNKNOWN,
        Ok(Ending::Ruled(Ruling::Safe)) => DONE,
        Ok(Ending::Ruled(Ruling::Untried)) => untried(strict),
        Ok(Ending::Ruled(Ruling::Right)) => DONE,
        Ok(Ending::Ruled(Ruling::Unsafe)) => FAILED,
        Ok(Ending::Ruled(Ruling::UnsafeSoFar)) => FAILED,
        Ok(Ending::Ruled(Ruling::Stuck)) => FAILED,
        Ok(Ending::Ruled(Ruling::CutOff)) => UNKNOWN,
        Err(fault) => faulted(fault, errors),
    }
}

/// The status of a fault, which is told to `errors` in a line.
pub fn faulted<E: Write>(fault: DriveFault, errors: &mut Told<E>) -> u8
    requires { IsNew errors.old }
    ensures status { result ≡ FAULT }
    ensures said { Says E.contents errors.old errors.new (fault_line fault) }
{
    complain(fault, errors);
    FAULT
}

/// Tells of a fault in a line.
fn complain<E: Write>(fault: DriveFault, errors: &mut Told<E>)
    requires { IsNew errors.old }
    ensures { Says E.contents errors.old errors.new (fault_line fault) }
{
    let line = match fault {
        DriveFault::Read => "svahost: read fault\n",
        DriveFault::Write => "svahost: write fault\n",
        DriveFault::Memory => "svahost: out of memory\n",
    };
    say(line, errors);
}

/// Writes a text. Where that fails nothing is left to be done: the status alone tells of the fault.
fn say<E: Write>(text: &str, errors: &mut Told<E>)
    requires { IsNew errors.old }
    ensures { Says E.contents errors.old errors.new text.now }
{
    let _ = write_all(errors, text.as_bytes());
}

/// Answers a command line that asks for no run, by the kind of its error and the error's text: help and the version go
/// to the writer, what is wrong to `errors`.
fn answer<T: Display, W: Write, E: Write>(
    alloc: Global,
    kind: ErrorKind,
    error: &T,
    writer: &mut Told<W>,
    errors: &mut Told<E>,
) -> u8
    requires writer { IsNew writer.old }
    requires errors { IsNew errors.old }
    ensures memory { kind ≡ ErrorKind.OutOfMemory
        → (result ≡ FAULT) × (writer.new ≡ writer.old) × Says E.contents errors.old errors.new (fault_line DriveFault.Memory) }
    ensures help { result ≡ DONE
        → ((kind ≡ ErrorKind.DisplayHelp) ⊎ (kind ≡ ErrorKind.DisplayVersion)) × (writer.new.failures ≡ 0) × (errors.new ≡ errors.old)
        × ((text : List ℕ) × IsSaid (T.output error.now) text × Appends (W.contents writer.old.inner) (W.contents writer.new.inner) text) }
    ensures fault { result ≡ FAULT
        → (fault : DriveFault) × (fault ≢ DriveFault.Read) × ((fault ≡ DriveFault.Write) → writer.new.failures ≡ 1)
        × ((fault ≡ DriveFault.Memory) → writer.new ≡ writer.old)
        × Says E.contents errors.old errors.new (fault_line fault) }
    ensures silent { kind ≢ ErrorKind.DisplayHelp → kind ≢ ErrorKind.DisplayVersion → writer.new ≡ writer.old }
    ensures mistake { result ≡ MISTAKE
        → (kind ≢ ErrorKind.OutOfMemory) × (kind ≢ ErrorKind.DisplayHelp) × (kind ≢ ErrorKind.DisplayVersion) × (writer.new ≡ writer.old)
        × ((text : List ℕ) × IsSaid (T.output error.now) text × Says E.contents errors.old errors.new text) }
    ensures status { result ≤ MISTAKE }
{
    match kind {
        ErrorKind::OutOfMemory => faulted(DriveFault::Memory, errors),
        ErrorKind::DisplayHelp | ErrorKind::DisplayVersion => match show(alloc, error, writer) {
            Ok(()) => DONE,
            Err(fault) => faulted(fault, errors),
        },
        _ => match show(alloc, error, errors) {
            Err(DriveFault::Memory) => faulted(DriveFault::Memory, errors),
            _ => MISTAKE,
        },
    }
}

/// Writes the text of a value, or `NO_TEXT` where that is empty. Want of memory comes before anything is written.
fn show<T: Display, W: Write>(
    alloc: Global,
    shown: &T,
    writer: &mut Told<W>,
) -> Result<(), DriveFault>
    requires { IsNew writer.old }
    ensures text { result ≢ Err DriveFault.Memory → (text : List ℕ) × IsSaid (T.output shown.now) text
        × Says W.contents writer.old writer.new text × OnOk result (Appends (W.contents writer.old.inner) (W.contents writer.new.inner) text) }
    ensures ok { OnOk result (writer.new.failures ≡ 0) }
    ensures read { result ≢ Err DriveFault.Read }
    ensures write { result ≡ Err DriveFault.Write → writer.new.failures ≡ 1 }
    ensures memory { result ≡ Err DriveFault.Memory → writer.new ≡ writer.old }
{
    let Ok(own) = shown.to_string(alloc) else {
        return Err(DriveFault::Memory);
    };
    let text = if own.is_empty() {
        NO_TEXT
    } else {
        own.as_str()
    };
    write_all(writer, text.as_bytes())
}
