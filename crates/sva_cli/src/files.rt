//! The files that a command line names.

ghost use Rattle.std.specs.Prelude.{◌≡◌, ◌++◌, IfOk, codes, string_bytes};
ghost use Rattle.sva_command.specs.Command.{texts};
ghost use Rattle.sva_command.specs.Help as helped;
ghost use Rattle.sva_cli.specs.Spoken as spoken;

use crate::inputs::inputs_in;
use clap::error::ErrorKind;
use std::alloc::{AllocError, Global};
use sva_command::{
    Asked, Awaited, Called, Named, Takes, Topic, after_of, files_of, help_in, is_any, jobs_of,
    named_in, parse, part_of,
};
use sva_several::{Search, Wanted};

/// One file, and what is wanted of it.
#[derive(Drop)]
pub struct One {
    /// The command.
    pub asked: Asked,
    /// The line behind which `show` looks, if one is said.
    pub after: Option<u64>,
    /// Its name; `-` is standard input.
    pub file: String,
}

/// Several files, and what is wanted of them.
#[derive(Drop)]
pub struct Several {
    /// What is wanted.
    pub wanted: Wanted,
    /// Their names.
    pub names: Vec<String>,
}

/// What a command line says of files.
#[derive(Drop)]
pub enum Files {
    /// It names none, and standard input is read; or without those that it names it has a fault, or asks for help, and
    /// nothing is.
    Input {
        /// The words without files.
        own: Vec<String>,
    },
    /// It names one, which is read in the place of standard input.
    One(One),
    /// It names several, or asks for a part of them.
    Several(Several),
    /// It asks for help on a topic.
    Topic(Topic),
    /// What it says of files or of help can't be meant.
    Wrong {
        /// What is told of that.
        said: Vec<u8>,
    },
}

/// What is done with each of several files, by the command that the other words ask for.
fn search_of(asked: Asked) -> Search
    ensures { result ≡ spoken.search_of asked }
{
    match asked {
        Asked::Judge { run: true, .. } => Search::Lines,
        Asked::Judge {
            run: false,
            most,
            strict,
            all,
            ..
        } => Search::Drivers { most, all, strict },
        Asked::Explore { most, .. } => Search::Races { most },
        Asked::Check => Search::Steps,
        Asked::Test => Search::Tests,
        Asked::Why => Search::Whys,
        // No other command takes several files.
        _ => Search::Lines,
    }
}

/// What is told of an option's text that can't be meant.
fn no_meaning(alloc: Global, takes: &str, text: &[u8]) -> Result<Files, AllocError>
    ensures { IfOk result (λ files. spoken.means files ≡ spoken.no_meaning takes.now text.now) }
{
    let mut said = Vec::from_slice(alloc, takes.as_bytes())?;
    said.extend_from_slice(text)?;
    said.extend_from_slice(b"'\n")?;
    Ok(Files::Wrong { said })
}

/// What is told of an option of files where none is named.
fn no_files(alloc: Global, told: &str) -> Result<Files, AllocError>
    ensures { IfOk result (λ files. spoken.means files ≡ spoken.Wrong told.now) }
{
    Ok(Files::Wrong {
        said: Vec::from_slice(alloc, told.as_bytes())?,
    })
}

/// That standard input is named more than once.
fn named_twice(alloc: Global) -> Result<Files, AllocError>
    ensures { IfOk result (λ files. spoken.means files ≡ spoken.Wrong spoken.inputs_twice) }
{
    no_files(
        alloc,
        "svahost: '-' is standard input, and is named more than once\n",
    )
}

/// Some of the files are searched, where standard input isn't named more than once among all.
fn once(
    alloc: Global,
    wanted: Wanted,
    all: &[String],
    names: Vec<String>,
) -> Result<Files, AllocError>
    ensures { IfOk result (λ files. spoken.means files ≡ spoken.once wanted (texts all.now) (texts names.items)) }
{
    if inputs_in(all) > 1 {
        return named_twice(alloc);
    }
    Ok(Files::Several(Several { wanted, names }))
}

/// The files of a part, which the text behind `--part` says.
fn part_in(
    alloc: Global,
    wanted: Wanted,
    text: &[u8],
    files: &[String],
) -> Result<Files, AllocError>
    ensures { IfOk result (λ found. spoken.means found ≡ spoken.part_in wanted text.now (texts files.now)) }
{
    let Some(part) = part_of(text) else {
        return no_meaning(
            alloc,
            "svahost: --part takes K/N with K from 1 to N, as 2/3, and not '",
            text,
        );
    };
    if files.is_empty() {
        return no_files(
            alloc,
            "svahost: --part is a part of several files, and none is named\n",
        );
    }
    let wanted = Wanted {
        is_part: true,
        ..wanted
    };
    once(alloc, wanted, files, files_of(alloc, part, files)?)
}

/// A file that is read in the place of standard input.
fn one_of(asked: Asked, after: Option<u64>, file: String) -> Files
    ensures { spoken.means result ≡ spoken.One asked after (string_bytes file) }
{
    Files::One(One { asked, after, file })
}

/// Several files that are searched, of which standard input is one at most.
fn several_of(alloc: Global, wanted: Wanted, files: Vec<String>) -> Result<Files, AllocError>
    ensures { IfOk result (λ found. spoken.means found ≡ spoken.several_of wanted (texts files.items)) }
{
    if inputs_in(files.as_slice()) > 1 {
        return named_twice(alloc);
    }
    Ok(Files::Several(Several {
        wanted,
        names: files,
    }))
}

/// All files: one is read in the place of standard input, and several are searched.
fn all_of(
    alloc: Global,
    asked: Asked,
    wanted: Wanted,
    mut files: Vec<String>,
) -> Result<Files, AllocError>
    ensures { IfOk result (λ found. spoken.means found ≡ spoken.all_of asked wanted (texts files.items)) }
{
    if files.len() != 1 {
        return several_of(alloc, wanted, files);
    }
    match files.pop() {
        Some(file) => Ok(one_of(asked, None, file)),
        None => several_of(alloc, wanted, files),
    }
}

/// What the words say of files, where this is wanted of several.
fn of_files(alloc: Global, asked: Asked, wanted: Wanted, named: Named) -> Result<Files, AllocError>
    ensures { IfOk result (λ files. spoken.means files ≡ spoken.of_files asked wanted named) }
{
    let Named {
        files,
        part,
        awaited,
        ..
    } = named;
    if matches!(awaited, Awaited::Part) {
        // No word is behind the last `--part`.
        return part_in(alloc, wanted, b"", files.as_slice());
    }
    match part {
        Some(text) => part_in(alloc, wanted, text.as_slice(), files.as_slice()),
        None => all_of(alloc, asked, wanted, files),
    }
}

/// What is said of how many files are searched at once: a number, nothing, or what can't be meant.
fn jobs_in(named: &Named, usual: u64) -> Option<u64>
    ensures { result ≡ spoken.jobs_in named.now usual }
{
    // No word is behind the last `--jobs`.
    if matches!(named.awaited, Awaited::Jobs) {
        return None;
    }
    match &named.jobs {
        Some(text) => jobs_of(text.as_slice()),
        None => Some(usual),
    }
}

/// The text behind `--jobs`.
fn jobs_text(named: &Named) -> &[u8]
    ensures { result.now ≡ spoken.jobs_text named.entry.now }
{
    match &named.jobs {
        Some(text) if !matches!(named.awaited, Awaited::Jobs) => text.as_slice(),
        _ => b"",
    }
}

/// Whether no file is named, and no part is said.
fn names_nothing(named: &Named) -> bool
    ensures { result ≡ spoken.names_nothing named.now }
{
    named.files.is_empty() && named.part.is_none()
}

/// What the words say of several files, where the others are this command.
fn files_by(alloc: Global, asked: Asked, usual: u64, named: Named) -> Result<Files, AllocError>
    ensures { IfOk result (λ files. spoken.means files ≡ spoken.files_by asked usual named) }
{
    let Some(jobs) = jobs_in(&named, usual) else {
        return no_meaning(
            alloc,
            "svahost: --jobs takes a number from 1 to 256, and not '",
            jobs_text(&named),
        );
    };
    if names_nothing(&named) {
        return no_files(
            alloc,
            "svahost: --jobs is of several files, and none is named\n",
        );
    }
    let wanted = Wanted {
        search: search_of(asked),
        jobs,
        is_part: false,
    };
    of_files(alloc, asked, wanted, named)
}

/// What is said of the line behind which is looked: its number, nothing, or what can't be meant.
fn after_in(named: &Named) -> Result<Option<u64>, ()>
    ensures { result ≡ spoken.after_in named.now }
{
    // No word is behind the last `--after`.
    if matches!(named.awaited, Awaited::After) {
        return Err(());
    }
    match &named.after {
        None => Ok(None),
        Some(text) => match after_of(text.as_slice()) {
            Some(line) => Ok(Some(line)),
            None => Err(()),
        },
    }
}

/// The text behind `--after`.
fn after_text(named: &Named) -> &[u8]
    ensures { result.now ≡ spoken.after_text named.entry.now }
{
    match &named.after {
        Some(text) if !matches!(named.awaited, Awaited::After) => text.as_slice(),
        _ => b"",
    }
}

/// What is told where a command that takes one file is given another one too.
fn too_many(alloc: Global, file: &[u8]) -> Result<Files, AllocError>
    ensures { IfOk result (λ files. spoken.means files ≡ spoken.no_meaning spoken.takes_one file.now) }
{
    no_meaning(
        alloc,
        "svahost: this command takes one file, and not one more, '",
        file,
    )
}

/// The one file, where no more are named; standard input, where none is.
fn only_of(
    alloc: Global,
    asked: Asked,
    after: Option<u64>,
    mut files: Vec<String>,
) -> Result<Files, AllocError>
    ensures { IfOk result (λ found. spoken.means found ≡ spoken.only_of asked after (texts files.items)) }
{
    if files.len() > 1 {
        return too_many(alloc, files[1].as_str().as_bytes());
    }
    match files.pop() {
        Some(file) => Ok(one_of(asked, after, file)),
        None => Ok(one_of(asked, after, String::from_str(alloc, "-")?)),
    }
}

/// What the words say of one file, where the others are this command.
fn file_by(alloc: Global, asked: Asked, named: Named) -> Result<Files, AllocError>
    ensures { IfOk result (λ files. spoken.means files ≡ spoken.file_by asked named) }
{
    let Ok(after) = after_in(&named) else {
        return no_meaning(
            alloc,
            "svahost: --after takes the number of a line, 1 to 999999999, and not '",
            after_text(&named),
        );
    };
    only_of(alloc, asked, after, named.files)
}

/// Whether a command that takes several files takes one here: what is asked of a driver beside its verdict is asked of one.
fn is_of_one(asked: Asked) -> bool
    ensures { result ≡ spoken.is_of_one asked }
{
    match asked {
        Asked::Judge { beside, .. } => is_any(beside),
        _ => false,
    }
}

/// Whether something is said of several files.
fn says_of_several(named: &Named) -> bool
    ensures { result ≡ spoken.says_of_several named.now }
{
    named.part.is_some()
        || named.jobs.is_some()
        || matches!(named.awaited, Awaited::Part | Awaited::Jobs)
}

/// What the words say of one file, where the others are a command that else takes several.
fn one_by(alloc: Global, asked: Asked, named: Named) -> Result<Files, AllocError>
    ensures { IfOk result (λ files. spoken.means files ≡ spoken.one_by asked named) }
{
    if says_of_several(&named) {
        return no_files(
            alloc,
            "svahost: --jobs and --part are of several files, and --needed, --platforms and --chart take one\n",
        );
    }
    file_by(alloc, asked, named)
}

/// What the words say of files, where the others are a command that takes several.
fn many_by(alloc: Global, asked: Asked, usual: u64, named: Named) -> Result<Files, AllocError>
    ensures { IfOk result (λ files. spoken.means files ≡ spoken.many_by asked usual named) }
{
    if is_of_one(asked) {
        return one_by(alloc, asked, named);
    }
    files_by(alloc, asked, usual, named)
}

/// What the words say of files, where the others are this command.
fn meant(alloc: Global, asked: Asked, usual: u64, named: Named) -> Result<Files, AllocError>
    ensures { IfOk result (λ files. spoken.means files ≡ spoken.meant asked usual named) }
{
    match named.takes {
        Takes::Many => many_by(alloc, asked, usual, named),
        Takes::One | Takes::Shown => file_by(alloc, asked, named),
    }
}

/// Whether no file is named, and nothing is said of any.
fn is_bare(named: &Named) -> bool
    ensures { result ≡ spoken.is_bare named.now }
{
    names_nothing(named)
        && named.jobs.is_none()
        && named.after.is_none()
        && !matches!(named.awaited, Awaited::Jobs | Awaited::After)
}

/// What the words of a command line that asks for no topic say of files.
fn own_files(alloc: Global, usual: u64, words: Vec<String>) -> Result<Files, AllocError>
    ensures { IfOk result (λ files. spoken.IsSpokenOwn usual (texts words.items) (spoken.means files)) }
{
    let Some(named) = named_in(alloc, words.as_slice())? else {
        return Ok(Files::Input { own: words });
    };
    if is_bare(&named) {
        return Ok(Files::Input { own: words });
    }
    match parse(alloc, named.own.as_slice()) {
        Ok(asked) => meant(alloc, asked, usual, named),
        Err(error) => match error.kind() {
            ErrorKind::OutOfMemory => Err(AllocError),
            _ => Ok(Files::Input { own: named.own }),
        },
    }
}

/// What a command line says of files, where this is what it asks for as to help.
fn files_called(alloc: Global, usual: u64, called: Called) -> Result<Files, AllocError>
    ensures { IfOk result (λ files. spoken.IsSpokenCalled usual (helped.means called) (spoken.means files)) }
{
    match called {
        Called::Own { words } => own_files(alloc, usual, words),
        Called::On(topic) => Ok(Files::Topic(topic)),
        Called::Wrong { said } => Ok(Files::Wrong { said }),
    }
}

/// What the words of a command line say of files and of help, the program's name first. So many are searched at once where
/// they don't say how many.
pub fn files_in(alloc: Global, usual: u64, words: Vec<String>) -> Result<Files, AllocError>
    ensures { IfOk result (λ files. spoken.IsSpoken usual (texts words.items) (spoken.means files)) }
{
    let called = help_in(alloc, words)?;
    files_called(alloc, usual, called)
}
