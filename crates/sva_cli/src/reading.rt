//! Files that are opened by their names, and read.

ghost use Rattle.std.specs.Prelude.{◌≡◌, IfErr, IfOk, List, ℕ};
ghost use Rattle.sva_streams.specs.Streams.{IsNew};
ghost use Rattle.sva_several.specs.declared.given.Lack as lacks;
ghost use Rattle.sva_cli.specs.Reading.{AreGiven, IsGiven, IsInput, IsOfFile, IsReadOf, IsRead, IsSame, IsStandard, names_input};

use crate::inputs::{inputs_in, is_input};
use std::alloc::{AllocError, Global};
use std::fs::OpenFile;
use std::io::{ErrorKind, Read};
use std::rt::Files as FileSystem;
use std::{fs, io};
use sva_several::{Given, Lack};
use sva_streams::{DriveFault, Told, read_all};

/// What opens files by their names, and reads them.
pub trait Opens {
    /// A file that was opened.
    type File: Read + Drop;

    /// That name opens this file.
    ghost opened: { Self → List ℕ → Self.File → Type 0 };

    /// The file of that name can't be opened, or reading it fails, and so.
    ghost fails: { Self → List ℕ → lacks.Lack → Type 0 };

    /// Opens a file, which may be a pipe, but no folder.
    fn open(&self, name: &str) -> Result<Self::File, Lack>
        ensures opened { IfOk result (λ file. opened self.now name.now file) }
        ensures fails { IfErr result (λ lack. fails self.now name.now lack) };

    /// Reads a file that was opened by this name.
    fn read(&self, alloc: Global, name: &str, file: Self::File) -> Result<Given, AllocError>
        requires { opened self.now name.now file }
        ensures { IfOk result (IsReadOf Self.File.remaining (fails self.now name.now) file) };
}

/// The system's files. What a name opens there, and which file can't be read, isn't known to the logic.
#[derive(Drop)]
pub struct Disk<'a, R> {
    /// The system.
    pub rt: &'a R,
}

/// Why a file can't be opened.
fn lack_of(error: &io::Error) -> Lack {
    match error.kind() {
        ErrorKind::NotFound => Lack::Missing,
        ErrorKind::PermissionDenied => Lack::Forbidden,
        _ => Lack::Broken,
    }
}

/// Reads a stream to its end.
fn read_stream<R: Read>(alloc: Global, reader: &mut Told<R>) -> Result<Given, AllocError>
    requires { IsNew reader.old }
    ensures { IfOk result (IsInput (R.remaining reader.old.inner)) }
{
    match read_all(alloc, reader) {
        Ok(text) => Ok(Given::Text(text)),
        Err(DriveFault::Memory) => Err(AllocError),
        Err(_) => Ok(Given::Unread(Lack::Broken)),
    }
}

impl<'a, R: FileSystem> Opens for Disk<'a, R> {
    type File = R::File;

    ghost opened = { λ disk name file. Unit {0} };

    ghost fails = { λ disk name lack. Unit {0} };

    fn open(&self, name: &str) -> Result<R::File, Lack> {
        match fs::open(self.rt, name) {
            Ok(opened) => match opened.metadata() {
                Ok(about) if about.is_dir() => Err(Lack::Folder),
                Ok(_) => Ok(opened),
                Err(error) => Err(lack_of(&error)),
            },
            Err(error) => Err(lack_of(&error)),
        }
    }

    fn read(&self, alloc: Global, _name: &str, file: R::File) -> Result<Given, AllocError> {
        match read_all(alloc, &mut Told::new(file)) {
            Ok(text) => Ok(Given::Text(text)),
            Err(DriveFault::Memory) => Err(AllocError),
            Err(_) => Ok(Given::Unread(Lack::Broken)),
        }
    }
}

/// What the file of a name gives.
fn read_file<S: Opens>(opens: &S, alloc: Global, name: &str) -> Result<Given, AllocError>
    ensures { IfOk result (IsOfFile (S.opened opens.now) S.File.remaining (S.fails opens.now) name.now) }
{
    match opens.open(name) {
        Ok(file) => opens.read(alloc, name, file),
        Err(lack) => Ok(Given::Unread(lack)),
    }
}

/// What the file of a name gives, or standard input.
pub fn read_one<S: Opens, I: Read>(
    opens: &S,
    alloc: Global,
    name: &str,
    input: &mut Told<I>,
) -> Result<Given, AllocError>
    requires { IsNew input.old }
    ensures { IfOk result (IsRead (S.opened opens.now) S.File.remaining (S.fails opens.now) (I.remaining input.old.inner) name.now) }
{
    if is_input(name) {
        read_stream(alloc, input)
    } else {
        read_file(opens, alloc, name)
    }
}

/// The same as is given.
fn copied(alloc: Global, given: &Given) -> Result<Given, AllocError>
    ensures { IfOk result (IsSame given.now) }
{
    match given {
        Given::Text(text) => Ok(Given::Text(Vec::from_slice(alloc, text.as_slice())?)),
        Given::Unread(lack) => Ok(Given::Unread(*lack)),
    }
}

/// What the file of a name gives, or what standard input gave.
fn give<S: Opens>(
    opens: &S,
    alloc: Global,
    standard: &Given,
    name: &str,
) -> Result<Given, AllocError>
    ensures { IfOk result (IsGiven (S.opened opens.now) S.File.remaining (S.fails opens.now) standard.now name.now) }
{
    if is_input(name) {
        copied(alloc, standard)
    } else {
        read_file(opens, alloc, name)
    }
}

/// What files give, in order, of which standard input may be one.
pub fn give_all<S: Opens>(
    opens: &S,
    alloc: Global,
    standard: &Given,
    names: &[String],
) -> Result<Vec<Given>, AllocError>
    ensures { IfOk result (λ all. AreGiven (S.opened opens.now) S.File.remaining (S.fails opens.now) standard.now names.now all.items) }
{
    let mut all = Vec::new(alloc);
    for place in 0..names.len() {
        let given = give(opens, alloc, standard, names[place].as_str())?;
        all.push(given)?;
    }
    Ok(all)
}

/// Whether one of the names is that of standard input.
fn names_input(names: &[String]) -> bool
    ensures { result ≡ names_input names.now }
{
    inputs_in(names) > 0
}

/// What standard input gives, if one of the names is its own. Else it isn't read.
pub fn read_input<I: Read>(
    alloc: Global,
    names: &[String],
    input: &mut Told<I>,
) -> Result<Given, AllocError>
    requires { IsNew input.old }
    ensures { IfOk result (IsStandard (I.remaining input.old.inner) (names_input names.now)) }
{
    if names_input(names) {
        read_stream(alloc, input)
    } else {
        Ok(Given::Unread(Lack::Broken))
    }
}
