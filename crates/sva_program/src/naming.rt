//! The run of a command on the text of a file that has a name.

ghost use Rattle.std.specs.Prelude.{◌≡◌, IfOk, OnOk, Result};
ghost use Rattle.sva_program.specs.Run.{RunsOnText, Says, TextBy, complaint, is_streamed, is_strict, kept_of, language_of, status_of, told_on};
ghost use Rattle.sva_streams.specs.Streams.{IsNew, Tells};

use crate::run::{Ending, finish, is_strict, perform};
use std::alloc::{AllocError, Global};
use std::io::Write;
use std::sync::Wait;
use std::thread::Threads;
use sva_command::Asked;
use sva_located::{Language, located};
use sva_scenario::{DriveFault, Outcome, Told, write_all};
use sva_search::Watch;

/// Whether a command tells of each line as it comes.
pub fn is_streamed(asked: Asked) -> bool
    ensures { result ≡ is_streamed asked }
{
    matches!(asked, Asked::Trace { .. })
}

/// The language of the texts that a command takes.
fn language_of(asked: Asked) -> Language
    ensures { result ≡ language_of asked }
{
    match asked {
        Asked::Replay | Asked::Check | Asked::Storm { .. } => Language::Scenario,
        Asked::Explore { .. } => Language::Race,
        Asked::Judge { .. } => Language::Driver,
        _ => Language::Script,
    }
}

/// How a run between a text and a buffer ended: neither fails but for want of memory.
fn kept(ended: Result<Ending, DriveFault>) -> Result<Ending, AllocError>
    ensures { result ≡ kept_of ended }
{
    match ended {
        Ok(ending) => Ok(ending),
        Err(_) => Err(AllocError),
    }
}

/// What is told of a file where a command on its text said this, and ended so.
fn told_on(
    alloc: Global,
    asked: Asked,
    name: &[u8],
    text: &[u8],
    ending: Ending,
    said: Vec<u8>,
) -> Result<Vec<u8>, AllocError>
    ensures { IfOk result (λ told. told.items ≡ told_on asked name.now text.now ending said.items) }
{
    match ending {
        Ending::Ran(Outcome::Faulted) => {
            located(alloc, language_of(asked), name, text, said.as_slice())
        }
        Ending::Ran(Outcome::Done) | Ending::Explored(_) | Ending::Ruled(_) => Ok(said),
    }
}

/// What a command makes of a text, for the file that has it, and how it ends.
fn make<X: AllocGlobal + Threads + Wait + Sync, P: Watch>(
    rt: &X,
    asked: Asked,
    name: &[u8],
    text: &[u8],
    watch: &mut P,
) -> Result<(Vec<u8>, Ending), AllocError>
    ensures { IfOk result (λ made. TextBy asked name.now text.now made.0.items made.1) }
{
    let alloc = rt.alloc();
    let mut reader = Told::new(text);
    let mut writer = Told::new(Vec::new(alloc));
    let ending = kept(perform(rt, asked, &mut reader, &mut writer, watch))?;
    let told = told_on(alloc, asked, name, text, ending, writer.into_inner())?;
    Ok((told, ending))
}

/// A command on the text of a file.
fn perform_on<X: AllocGlobal + Threads + Wait + Sync, W: Write, P: Watch>(
    rt: &X,
    asked: Asked,
    name: &[u8],
    text: &[u8],
    writer: &mut Told<W>,
    watch: &mut P,
) -> Result<Ending, DriveFault>
    requires { IsNew writer.old }
    ensures run { RunsOnText asked name.now text.now (W.contents writer.old.inner) (W.contents writer.new.inner) result }
    ensures told { Tells writer.old writer.new result }
{
    match make(rt, asked, name, text, watch) {
        Ok((told, ending)) => match write_all(writer, told.as_slice()) {
            Ok(()) => Ok(ending),
            Err(fault) => Err(fault),
        },
        Err(_) => Err(DriveFault::Memory),
    }
}

/// A whole run of a command on the text of a file that has a name: the status that it exits with. It writes what it makes of
/// the text by itself; and where that is wrong, each wrong line behind the file's name, its number and its column. What a
/// fault is, `errors` is told in a line.
pub fn main_on<X: AllocGlobal + Threads + Wait + Sync, W: Write, E: Write, P: Watch>(
    rt: &X,
    asked: Asked,
    name: &str,
    text: &[u8],
    writer: &mut Told<W>,
    errors: &mut Told<E>,
    watch: &mut P,
) -> u8
    requires writer { IsNew writer.old }
    requires errors { IsNew errors.old }
    ensures { (ended : Result Ending DriveFault) × (result ≡ status_of (is_strict asked) ended)
        × RunsOnText asked name.now text.now (W.contents writer.old.inner) (W.contents writer.new.inner) ended
        × Says E.contents errors.old errors.new (complaint ended)
        × OnOk ended (errors.new ≡ errors.old) }
{
    let ended = perform_on(rt, asked, name.as_bytes(), text, writer, watch);
    finish(is_strict(asked), ended, errors)
}
