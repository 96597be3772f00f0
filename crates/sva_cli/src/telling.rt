//! What is told of the files that a command line names.

ghost use Rattle.std.specs.Prelude.{◌≡◌, IfOk};
ghost use Rattle.sva_streams.specs.Streams.{IsNew};
ghost use Rattle.sva_cli.specs.Reading.{HaveGiven};
ghost use Rattle.sva_cli.specs.Telling.{EndsSo, Puts, RunsOne, SearchesNamed, StreamsOne, TellsMistake, TellsText, TellsTopic, unreadable_line};

use crate::cutting::cut;
use crate::files::{One, Several};
use crate::inputs::is_input;
use crate::reading::{Opens, give_all, read_input, read_one};
use std::alloc::{AllocError, Global};
use std::io::{Read, Write};
use std::sync::Wait;
use std::thread::Threads;
use sva_command::{Asked, Topic, help_on};
use sva_located::shown_name;
use sva_program::{Told, Watch, faulted, is_streamed, main_of, main_on};
use sva_several::{Given, Lack, Meter, lack_words, tell_all};
use sva_streams::{DriveFault, write_all};

/// Help was shown.
const DONE: u8 = 0;

/// The command line is wrong, or names a file that can't be read.
const MISTAKE: u8 = 2;

/// What is told of a file that can't be read.
fn unreadable(alloc: Global, file: &str, lack: Lack) -> Result<Vec<u8>, AllocError>
    ensures { IfOk result (λ said. said.items ≡ unreadable_line file.now lack) }
{
    let mut said = Vec::from_slice(alloc, shown_name(file.as_bytes()))?;
    said.extend_from_slice(b": ")?;
    said.extend_from_slice(lack_words(lack).as_bytes())?;
    Ok(said)
}

/// Tells of a mistake, or that there is no memory to tell it.
pub fn mistaken<E: Write>(said: Result<Vec<u8>, AllocError>, errors: &mut Told<E>) -> u8
    requires { IsNew errors.old }
    ensures { TellsMistake E.contents errors.old errors.new result said }
{
    match said {
        Ok(said) => {
            let _ = write_all(errors, said.as_slice());
            MISTAKE
        }
        Err(AllocError) => faulted(DriveFault::Memory, errors),
    }
}

/// The status of a run that ended so. A fault is told.
fn ended<E: Write>(told: Result<u8, DriveFault>, errors: &mut Told<E>) -> u8
    requires { IsNew errors.old }
    ensures { EndsSo E.contents errors.old errors.new result told }
{
    match told {
        Ok(status) => status,
        Err(fault) => faulted(fault, errors),
    }
}

/// Writes a text that was made, where memory didn't lack for it.
fn put<O: Write>(text: Result<Vec<u8>, AllocError>, writer: &mut Told<O>) -> Result<u8, DriveFault>
    requires { IsNew writer.old }
    ensures { Puts O.contents writer.old writer.new text result }
{
    match text {
        Ok(text) => match write_all(writer, text.as_slice()) {
            Ok(()) => Ok(DONE),
            // No other fault comes of a writer.
            Err(_) => Err(DriveFault::Write),
        },
        Err(AllocError) => Err(DriveFault::Memory),
    }
}

/// Tells what help says on a topic.
pub fn tell_topic<O: Write, E: Write>(
    alloc: Global,
    topic: Topic,
    writer: &mut Told<O>,
    errors: &mut Told<E>,
) -> u8
    requires writer { IsNew writer.old }
    requires errors { IsNew errors.old }
    ensures { TellsTopic O.contents E.contents writer.old writer.new errors.old errors.new result }
{
    let told = put(help_on(alloc, topic), writer);
    ended(told, errors)
}

/// A command on a file that is told as it comes, as `trace` tells it.
fn stream_one<
    X: AllocGlobal + Threads + Wait + Sync,
    S: Opens,
    I: Read,
    O: Write,
    E: Write,
    P: Watch,
>(
    rt: &X,
    opens: &S,
    asked: Asked,
    file: &str,
    input: &mut Told<I>,
    writer: &mut Told<O>,
    errors: &mut Told<E>,
    watch: &mut P,
) -> u8
    requires input { IsNew input.old }
    requires writer { IsNew writer.old }
    requires errors { IsNew errors.old }
    ensures { StreamsOne (S.opened opens.now) S.File.remaining (S.fails opens.now) (I.remaining input.old.inner) O.contents E.contents
        writer.old writer.new errors.old errors.new result asked file.now }
{
    if is_input(file) {
        return main_of(rt, asked, input, writer, errors, watch);
    }
    match opens.open(file) {
        Ok(stream) => main_of(rt, asked, &mut Told::new(stream), writer, errors, watch),
        Err(lack) => mistaken(unreadable(rt.alloc(), file, lack), errors),
    }
}

/// A command on the text of a file, up to a line if one is said.
fn tell_text<X: AllocGlobal + Threads + Wait + Sync, O: Write, E: Write, P: Watch>(
    rt: &X,
    one: &One,
    text: Vec<u8>,
    writer: &mut Told<O>,
    errors: &mut Told<E>,
    watch: &mut P,
) -> u8
    requires writer { IsNew writer.old }
    requires errors { IsNew errors.old }
    ensures { TellsText O.contents E.contents writer.old writer.new errors.old errors.new result one.now text.items }
{
    match cut(rt.alloc(), one.after, text) {
        Ok(text) => {
            let name = one.file.as_str();
            main_on(rt, one.asked, name, text.as_slice(), writer, errors, watch)
        }
        Err(_) => faulted(DriveFault::Memory, errors),
    }
}

/// A command on one file, or on standard input under its name.
pub fn run_one<
    X: AllocGlobal + Threads + Wait + Sync,
    S: Opens,
    I: Read,
    O: Write,
    E: Write,
    P: Watch,
>(
    rt: &X,
    opens: &S,
    one: &One,
    input: &mut Told<I>,
    writer: &mut Told<O>,
    errors: &mut Told<E>,
    watch: &mut P,
) -> u8
    requires input { IsNew input.old }
    requires writer { IsNew writer.old }
    requires errors { IsNew errors.old }
    ensures { RunsOne (S.opened opens.now) S.File.remaining (S.fails opens.now) (I.remaining input.old.inner) O.contents E.contents
        writer.old writer.new errors.old errors.new result one.now }
{
    let file = one.file.as_str();
    if is_streamed(one.asked) {
        return stream_one(rt, opens, one.asked, file, input, writer, errors, watch);
    }
    match read_one(opens, rt.alloc(), file, input) {
        Ok(Given::Text(text)) => tell_text(rt, one, text, writer, errors, watch),
        Ok(Given::Unread(lack)) => mistaken(unreadable(rt.alloc(), file, lack), errors),
        Err(_) => faulted(DriveFault::Memory, errors),
    }
}

/// What several files give.
fn texts_of<S: Opens, I: Read>(
    opens: &S,
    alloc: Global,
    names: &[String],
    input: &mut Told<I>,
) -> Result<Vec<Given>, AllocError>
    requires { IsNew input.old }
    ensures { IfOk result (λ all. HaveGiven (S.opened opens.now) S.File.remaining (S.fails opens.now) (I.remaining input.old.inner) names.now all.items) }
{
    let standard = read_input(alloc, names, input)?;
    give_all(opens, alloc, &standard, names)
}

/// A command on several files.
pub fn search_on<X: AllocGlobal + Threads + Sync, S: Opens, I: Read, O: Write, E: Write, M: Meter>(
    rt: &X,
    opens: &S,
    several: &Several,
    input: &mut Told<I>,
    writer: &mut Told<O>,
    errors: &mut Told<E>,
    meter: &M,
) -> u8
    requires input { IsNew input.old }
    requires writer { IsNew writer.old }
    requires errors { IsNew errors.old }
    ensures { SearchesNamed (S.opened opens.now) S.File.remaining (S.fails opens.now) (I.remaining input.old.inner) O.contents E.contents
        writer.old writer.new errors.old errors.new result several.now.wanted several.now.names.items }
{
    let alloc = rt.alloc();
    let Several { wanted, names } = several;
    let names = names.as_slice();
    match texts_of(opens, alloc, names, input) {
        Ok(texts) => {
            let told = tell_all(rt, alloc, *wanted, names, texts.as_slice(), writer, meter);
            ended(told, errors)
        }
        Err(_) => faulted(DriveFault::Memory, errors),
    }
}
